//! The values of input keys, by their places.

ghost use Rattle.std.specs.Prelude.{◌≡◌, ℤ, List, IfOk, ◌≤◌, OnOk};
ghost use Rattle.stk_kinded.specs.Kinds.{key_kind};
ghost use Rattle.stk_values.specs.Keeping.{Keeps};
ghost use Rattle.stk_walking.specs.Keyed.{key_shown, AreThere};

use crate::asked::WalkSetting;
use crate::keys::{InputKey, keyed};
use stk_base::NoMemory;
use stk_numbers::IntKind;
use stk_values::Values;

/// The value of an input key, in the kind that its form says: under each input map its number, which is 0 where the
/// function has no such key.
pub fn input_value<O: WalkSetting, V: Values>(
    out: &O,
    key: InputKey,
    kind: IntKind,
    values: &mut V,
) -> Result<V::Value, NoMemory>
    requires kind { key_kind (O.setting out.now) (key_shown key) ≡ kind }
    requires keys { AreThere (V.has_key values.old) (O.kinds out.now) }
    ensures makes { IfOk result (λ v. V.made values.new kind v) }
    ensures value { IfOk result (λ v. (m : List ℤ) → V.serves values.old m → V.shows values.new m kind v (O.under out.now m (key_shown key))) }
    ensures keeps { Keeps V.serves V.has_key V.made V.shows values.old values.new }
    ensures charge { OnOk result (V.cost values.new ≤ V.cost values.old) }
{
    let place = out.place_of(key);
    let number = keyed(values, place, kind)?;
    Ok(number)
}

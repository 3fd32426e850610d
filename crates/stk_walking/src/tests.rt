//! Tests and conversions of values.

ghost use Rattle.std.specs.Prelude.{◌≡◌, ℤ, pos, List, Bool, ◌||◌, IfOk, ◌+◌, ◌*◌, ◌≤◌, OnOk};
ghost use Rattle.stk_ctype.specs.declared.kind.IntKind.TheVariants.{Int};
ghost use Rattle.stk_numbers.specs.Kinds.{wrap, width_of};
ghost use Rattle.stk_meaning.specs.Operations.{truth, bit};
ghost use Rattle.stk_values.specs.Keeping.{Keeps};
ghost use Rattle.stk_values.specs.Charges.{convert_charge};

use stk_base::NoMemory;
use stk_numbers::{CompareOp, IntKind};
use stk_values::Values;

/// 0 of a kind.
pub fn zero<V: Values>(values: &mut V, kind: IntKind) -> Result<V::Value, NoMemory>
    ensures makes { IfOk result (λ v. V.made values.new kind v) }
    ensures value { IfOk result (λ v. (m : List ℤ) → V.serves values.old m → V.shows values.new m kind v (pos 0)) }
    ensures keeps { Keeps V.serves V.has_key V.made V.shows values.old values.new }
    ensures charge { V.cost values.new ≤ V.cost values.old }
{
    values.constant(kind, 0)
}

/// Either test.
pub fn either<V: Values>(
    values: &mut V,
    left: V::Value,
    right: V::Value,
) -> Result<V::Value, NoMemory>
    requires left { V.made values.old Int left }
    requires right { V.made values.old Int right }
    ensures makes { IfOk result (λ v. V.made values.new Int v) }
    ensures value { IfOk result (λ v. (m : List ℤ) (a b : Bool) → V.serves values.old m → V.shows values.old m Int left (bit a) → V.shows values.old m Int right (bit b) → V.shows values.new m Int v (bit (a || b))) }
    ensures keeps { Keeps V.serves V.has_key V.made V.shows values.old values.new }
    ensures charge { OnOk result (V.cost values.new ≤ V.cost values.old + 3) }
{
    let not_left = values.opposite(left)?;
    let not_right = values.opposite(right)?;
    let neither = values.both(not_left, not_right)?;
    let found = values.opposite(neither)?;
    Ok(found)
}

/// Whether a number counts as true (C11 6.8.4.1).
pub fn is_true<V: Values>(
    values: &mut V,
    kind: IntKind,
    value: V::Value,
) -> Result<V::Value, NoMemory>
    requires { V.made values.old kind value }
    ensures makes { IfOk result (λ v. V.made values.new Int v) }
    ensures value { IfOk result (λ v. (m : List ℤ) (x : ℤ) → V.serves values.old m → V.shows values.old m kind value x → V.shows values.new m Int v (bit (truth x))) }
    ensures keeps { Keeps V.serves V.has_key V.made V.shows values.old values.new }
    ensures charge { OnOk result (V.cost values.new ≤ V.cost values.old + 10 * width_of kind) }
{
    let none = zero(values, kind)?;
    let found = values.compare(CompareOp::Ne, kind, value, none)?;
    Ok(found)
}

/// A value converted to a kind.
pub fn converted<V: Values>(
    values: &mut V,
    from: IntKind,
    to: IntKind,
    value: V::Value,
) -> Result<V::Value, NoMemory>
    requires { V.made values.old from value }
    ensures makes { IfOk result (λ v. V.made values.new to v) }
    ensures value { IfOk result (λ v. (m : List ℤ) (x : ℤ) → V.serves values.old m → V.shows values.old m from value x → V.shows values.new m to v (wrap to x)) }
    ensures keeps { Keeps V.serves V.has_key V.made V.shows values.old values.new }
    ensures charge { V.cost values.new ≤ V.cost values.old + convert_charge from to }
{
    values.convert(from, to, value)
}

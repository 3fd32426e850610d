//! The registers that a loop of a walk sets first, to the numbers of their keys (C11 6.8.5).

ghost use Rattle.std.specs.Prelude.{◌≡◌, ◌<◌, ℤ, ℕ, List, Bool, Some, OnOk, length, set, slice_get, if◌then◌else◌, ◌+◌, ◌*◌, ◌≤◌};
ghost use Rattle.stk_ctype.specs.declared.kind.IntKind.TheVariants.{Int};
ghost use Rattle.stk_tree.specs.View.{view_statement_form};
ghost use Rattle.stk_meaning.specs.Operations.{bit};
ghost use Rattle.stk_meaning.specs.Changes.{assigned_in};
ghost use Rattle.stk_meaning.specs.Keys.{loop_key};
ghost use Rattle.stk_meaning.specs.Paths.{reset_all};
ghost use Rattle.stk_kinded.specs.Kinds.{register_kind};
ghost use Rattle.stk_values.specs.Keeping.{Keeps};
ghost use Rattle.stk_walking.specs.Keyed.{AreThere};
ghost use Rattle.stk_walking.specs.Stands.{RowShows, RowMade};

use crate::asked::WalkSetting;
use crate::inputs::input_value;
use crate::keys::InputKey;
use crate::registers::set_register;
use stk_base::NoMemory;
use stk_tree::StmtForm;
use stk_values::Values;

// Sets one of the registers that a loop sets first, where the guard is true.
fn begin_register<O: WalkSetting, V: Values>(
    out: &O,
    node: u32,
    form: &StmtForm,
    values: &mut V,
    guard: V::Value,
    registers: &mut Vec<V::Value>,
    at: usize,
) -> Result<(), NoMemory>
    requires known { O.knows out.now node (view_statement_form form.now) }
    requires within { at < length (assigned_in (O.setting out.now) (view_statement_form form.now)) }
    requires keys { AreThere (V.has_key values.old) (O.kinds out.now) }
    requires guard { V.made values.old Int guard }
    requires row { RowMade (V.made values.old) (register_kind (O.setting out.now)) 0 registers.old.items }
    ensures made { OnOk result (RowMade (V.made values.new) (register_kind (O.setting out.now)) 0 registers.new.items) }
    ensures shown { OnOk result ((m : List ℤ) (j : ℕ) (b : Bool) (xs : List ℤ) → slice_get (assigned_in (O.setting out.now) (view_statement_form form.now)) at ≡ Some j → V.serves values.old m → V.shows values.old m Int guard (bit b) → RowShows (V.shows values.old m) (register_kind (O.setting out.now)) 0 registers.old.items xs → RowShows (V.shows values.new m) (register_kind (O.setting out.now)) 0 registers.new.items (if b then set xs j (O.under out.now m (loop_key node j)) else xs)) }
    ensures keeps { Keeps V.serves V.has_key V.made V.shows values.old values.new }
    ensures charge { OnOk result (V.cost values.new ≤ V.cost values.old + 192) }
{
    let register = out.slot(node, form, at);
    let kind = out.kind_at(register);
    let number = input_value(out, InputKey::Loop(node, register), kind, values)?;
    set_register(values, guard, registers, register, kind, number)?;
    Ok(())
}

/// Sets the registers that a loop sets first to the numbers of their keys, where the guard is true.
pub(crate) fn begin_registers<O: WalkSetting, V: Values>(
    out: &O,
    node: u32,
    form: &StmtForm,
    values: &mut V,
    guard: V::Value,
    registers: &mut Vec<V::Value>,
) -> Result<(), NoMemory>
    requires known { O.knows out.now node (view_statement_form form.now) }
    requires keys { AreThere (V.has_key values.old) (O.kinds out.now) }
    requires guard { V.made values.old Int guard }
    requires row { RowMade (V.made values.old) (register_kind (O.setting out.now)) 0 registers.old.items }
    ensures made { OnOk result (RowMade (V.made values.new) (register_kind (O.setting out.now)) 0 registers.new.items) }
    ensures shown { OnOk result ((m : List ℤ) (b : Bool) (xs : List ℤ) → V.serves values.old m → V.shows values.old m Int guard (bit b) → RowShows (V.shows values.old m) (register_kind (O.setting out.now)) 0 registers.old.items xs → RowShows (V.shows values.new m) (register_kind (O.setting out.now)) 0 registers.new.items (if b then reset_all (O.under out.now m) node (assigned_in (O.setting out.now) (view_statement_form form.now)) xs else xs)) }
    ensures keeps { OnOk result (Keeps V.serves V.has_key V.made V.shows values.old values.new) }
    ensures charge { OnOk result (V.cost values.new ≤ V.cost values.old + 192 * length (assigned_in (O.setting out.now) (view_statement_form form.now))) }
{
    for at in 0..out.count_slots(node, form) {
        begin_register(out, node, form, values, guard, registers, at)?;
    }
    Ok(())
}

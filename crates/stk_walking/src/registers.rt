//! Registers of a walk.

ghost use Rattle.std.specs.Prelude.{◌≡◌, ℤ, ℕ, pos, List, Bool, IfOk, OnOk, get_or, set, if◌then◌else◌, ◌+◌, ◌*◌, ◌≤◌};
ghost use Rattle.stk_ctype.specs.declared.kind.IntKind as kinds;
ghost use Rattle.stk_ctype.specs.declared.kind.IntKind.TheVariants.{Int};
ghost use Rattle.stk_meaning.specs.Operations.{bit};
ghost use Rattle.stk_values.specs.Keeping.{Keeps};
ghost use Rattle.stk_walking.specs.Stands.{RowShows, RowMade};
ghost use Rattle.stk_numbers.specs.Kinds.{width_of};

use crate::tests::zero;
use stk_base::NoMemory;
use stk_numbers::IntKind;
use stk_values::Values;

/// The number of a register of a kind; 0 of one that there isn't.
pub fn read_register<V: Values>(
    values: &mut V,
    registers: &Vec<V::Value>,
    at: u32,
    kind: IntKind,
) -> Result<V::Value, NoMemory>
    requires { (row : ℕ → kinds.IntKind) × (row at ≡ kind) × RowMade (V.made values.old) row 0 registers.now.items }
    ensures makes { IfOk result (λ v. V.made values.new kind v) }
    ensures value { IfOk result (λ v. (m : List ℤ) (row : ℕ → kinds.IntKind) (xs : List ℤ) → V.serves values.old m → row at ≡ kind → RowShows (V.shows values.old m) row 0 registers.now.items xs → V.shows values.new m kind v (get_or xs at (pos 0))) }
    ensures keeps { Keeps V.serves V.has_key V.made V.shows values.old values.new }
    ensures charge { OnOk result (V.cost values.new ≤ V.cost values.old) }
{
    let place = at as usize;
    if place >= registers.len() {
        let none = zero(values, kind)?;
        return Ok(none);
    }
    Ok(registers[place])
}

/// Sets a register of a kind where the guard is true; nothing, where there is no such register.
pub(crate) fn set_register<V: Values>(
    values: &mut V,
    guard: V::Value,
    registers: &mut Vec<V::Value>,
    at: u32,
    kind: IntKind,
    value: V::Value,
) -> Result<(), NoMemory>
    requires guard { V.made values.old Int guard }
    requires value { V.made values.old kind value }
    requires row { (row : ℕ → kinds.IntKind) × (row at ≡ kind) × RowMade (V.made values.old) row 0 registers.old.items }
    ensures makes { OnOk result ((row : ℕ → kinds.IntKind) → row at ≡ kind → RowMade (V.made values.old) row 0 registers.old.items → RowMade (V.made values.new) row 0 registers.new.items) }
    ensures shown { OnOk result ((m : List ℤ) (row : ℕ → kinds.IntKind) (b : Bool) (x : ℤ) (xs : List ℤ) → V.serves values.old m → row at ≡ kind → V.shows values.old m Int guard (bit b) → V.shows values.old m kind value x → RowShows (V.shows values.old m) row 0 registers.old.items xs → RowShows (V.shows values.new m) row 0 registers.new.items (if b then set xs at x else xs)) }
    ensures keeps { Keeps V.serves V.has_key V.made V.shows values.old values.new }
    ensures charge { OnOk result (V.cost values.new ≤ V.cost values.old + 3 * width_of kind) }
{
    let place = at as usize;
    if place >= registers.len() {
        return Ok(());
    }
    let chosen = values.choose(guard, kind, value, registers[place])?;
    registers[place] = chosen;
    Ok(())
}

//! Branches of a walk, each under its guard.

ghost use Rattle.std.specs.Prelude.{ℤ, List, Bool, ◌&&◌, not, IfOk, ◌+◌, ◌≤◌, OnOk};
ghost use Rattle.stk_ctype.specs.declared.kind.IntKind.TheVariants.{Int};
ghost use Rattle.stk_meaning.specs.Operations.{bit};
ghost use Rattle.stk_values.specs.Keeping.{Keeps};

use stk_base::NoMemory;
use stk_values::Values;

/// The guards of the two branches of a test: a guard with the test, and without it.
pub(crate) fn parted<V: Values>(
    values: &mut V,
    guard: V::Value,
    test: V::Value,
) -> Result<(V::Value, V::Value), NoMemory>
    requires guard { V.made values.old Int guard }
    requires test { V.made values.old Int test }
    ensures first { IfOk result (λ v. V.made values.new Int v.0) }
    ensures second { IfOk result (λ v. V.made values.new Int v.1) }
    ensures value { IfOk result (λ v. (m : List ℤ) (a b : Bool) → V.serves values.old m → V.shows values.old m Int guard (bit a) → V.shows values.old m Int test (bit b) → V.shows values.new m Int v.0 (bit (a && b)) × V.shows values.new m Int v.1 (bit (a && not b))) }
    ensures keeps { Keeps V.serves V.has_key V.made V.shows values.old values.new }
    ensures charge { OnOk result (V.cost values.new ≤ V.cost values.old + 6) }
{
    let opposite = values.opposite(test)?;
    let first = values.both(guard, test)?;
    let second = values.both(guard, opposite)?;
    Ok((first, second))
}

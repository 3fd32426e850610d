//! Branches of a walk, each under its guard, and where their ends meet.

ghost use Rattle.std.specs.Prelude.{◌≡◌, ℤ, List, Bool, ◌&&◌, ◌||◌, not, false, IfOk, OnOk, ◌+◌, ◌≤◌};
ghost use Rattle.stk_ctype.specs.declared.kind.IntKind.TheVariants.{Int};
ghost use Rattle.stk_meaning.specs.Operations.{bit};
ghost use Rattle.stk_meaning.specs.Places.{Setting};
ghost use Rattle.stk_guarded.specs.Standing.{Standing, live};
ghost use Rattle.stk_guarded.specs.Sections.{begun};
ghost use Rattle.stk_values.specs.Keeping.{Keeps};
ghost use Rattle.stk_walking.specs.Events.{events_in};
ghost use Rattle.stk_walking.specs.Stands.{Stands, IsMade};

use stk_base::NoMemory;
use stk_numbers::IntKind;
use stk_values::Values;
use stk_walking::{WalkState, either, zero};

/// Begins the branch where a test is true, and gives the guard of the other branch.
pub(crate) fn begin_branch<V: Values>(
    values: &mut V,
    test: V::Value,
    state: &mut WalkState<V::Value>,
) -> Result<V::Value, NoMemory>
    requires test { V.made values.old Int test }
    requires guard { V.made values.old Int state.old.guard }
    ensures makes { IfOk result (λ v. V.made values.new Int v) }
    ensures other { IfOk result (λ v. (m : List ℤ) (a b : Bool) → V.serves values.old m → V.shows values.old m Int state.old.guard (bit a) → V.shows values.old m Int test (bit b) → V.shows values.new m Int v (bit (a && not b))) }
    ensures made { OnOk result ((g : Setting) → IsMade (V.made values.old) g state.old → IsMade (V.made values.new) g state.new) }
    ensures events { OnOk result (events_in state.new.steps.items ≡ events_in state.old.steps.items) }
    ensures stands { OnOk result ((g : Setting) (m : List ℤ) (s : Standing) (b : Bool) → V.serves values.old m → V.shows values.old m Int test (bit b) → Stands (V.shows values.old m) g state.old s → Stands (V.shows values.new m) g state.new (live (s.alive && b) s)) }
    ensures keeps { OnOk result (Keeps V.serves V.has_key V.made V.shows values.old values.new) }
    ensures charge { OnOk result (V.cost values.new ≤ V.cost values.old + 6) }
    ensures cells { OnOk result (state.new.cells.items ≡ state.old.cells.items) }
{
    let opposite = values.opposite(test)?;
    let other = values.both(state.guard, opposite)?;
    let guard = values.both(state.guard, test)?;
    state.guard = guard;
    Ok(other)
}

/// Goes on from where the walk stands and from another place, by its guard.
pub(crate) fn join<V: Values>(
    values: &mut V,
    other: V::Value,
    state: &mut WalkState<V::Value>,
) -> Result<(), NoMemory>
    requires other { V.made values.old Int other }
    requires guard { V.made values.old Int state.old.guard }
    ensures made { OnOk result ((g : Setting) → IsMade (V.made values.old) g state.old → IsMade (V.made values.new) g state.new) }
    ensures events { OnOk result (events_in state.new.steps.items ≡ events_in state.old.steps.items) }
    ensures stands { OnOk result ((g : Setting) (m : List ℤ) (s : Standing) (b : Bool) → V.serves values.old m → V.shows values.old m Int other (bit b) → Stands (V.shows values.old m) g state.old s → Stands (V.shows values.new m) g state.new (live (b || s.alive) s)) }
    ensures keeps { OnOk result (Keeps V.serves V.has_key V.made V.shows values.old values.new) }
    ensures charge { OnOk result (V.cost values.new ≤ V.cost values.old + 3) }
    ensures cells { OnOk result (state.new.cells.items ≡ state.old.cells.items) }
{
    let guard = either(values, other, state.guard)?;
    state.guard = guard;
    Ok(())
}

/// Goes on behind the body of a loop: what has left it by `continue` does too (C11 6.8.6.2).
pub(crate) fn pass_body<V: Values>(
    values: &mut V,
    state: &mut WalkState<V::Value>,
) -> Result<(), NoMemory>
    requires guard { V.made values.old Int state.old.guard }
    requires continued { V.made values.old Int state.old.continued }
    ensures made { OnOk result ((g : Setting) → IsMade (V.made values.old) g state.old → IsMade (V.made values.new) g state.new) }
    ensures events { OnOk result (events_in state.new.steps.items ≡ events_in state.old.steps.items) }
    ensures stands { OnOk result ((g : Setting) (m : List ℤ) (s : Standing) → V.serves values.old m → Stands (V.shows values.old m) g state.old s → Stands (V.shows values.new m) g state.new (live (s.alive || s.continued) s)) }
    ensures keeps { OnOk result (Keeps V.serves V.has_key V.made V.shows values.old values.new) }
    ensures charge { OnOk result (V.cost values.new ≤ V.cost values.old + 3) }
    ensures cells { OnOk result (state.new.cells.items ≡ state.old.cells.items) }
{
    let guard = either(values, state.guard, state.continued)?;
    state.guard = guard;
    Ok(())
}

/// Goes on behind the test of `do`: where it is false, and where a `break` left the loop (C11 6.8.5.2, 6.8.6.3).
pub(crate) fn pass_test<V: Values>(
    values: &mut V,
    test: V::Value,
    state: &mut WalkState<V::Value>,
) -> Result<(), NoMemory>
    requires test { V.made values.old Int test }
    requires guard { V.made values.old Int state.old.guard }
    requires broken { V.made values.old Int state.old.broken }
    ensures made { OnOk result ((g : Setting) → IsMade (V.made values.old) g state.old → IsMade (V.made values.new) g state.new) }
    ensures events { OnOk result (events_in state.new.steps.items ≡ events_in state.old.steps.items) }
    ensures stands { OnOk result ((g : Setting) (m : List ℤ) (s : Standing) (b : Bool) → V.serves values.old m → V.shows values.old m Int test (bit b) → Stands (V.shows values.old m) g state.old s → Stands (V.shows values.new m) g state.new (live ((s.alive && not b) || s.broken) s)) }
    ensures keeps { OnOk result (Keeps V.serves V.has_key V.made V.shows values.old values.new) }
    ensures charge { OnOk result (V.cost values.new ≤ V.cost values.old + 6) }
    ensures cells { OnOk result (state.new.cells.items ≡ state.old.cells.items) }
{
    let opposite = values.opposite(test)?;
    let ended = values.both(state.guard, opposite)?;
    let guard = either(values, ended, state.broken)?;
    state.guard = guard;
    Ok(())
}

/// Begins the sections of a `switch`: control is in none of them yet, and nothing has left them.
pub(crate) fn begin_sections<V: Values>(
    values: &mut V,
    state: &mut WalkState<V::Value>,
) -> Result<(), NoMemory>
    ensures made { OnOk result ((g : Setting) → IsMade (V.made values.old) g state.old → IsMade (V.made values.new) g state.new) }
    ensures events { OnOk result (events_in state.new.steps.items ≡ events_in state.old.steps.items) }
    ensures stands { OnOk result ((g : Setting) (m : List ℤ) (s : Standing) → V.serves values.old m → Stands (V.shows values.old m) g state.old s → Stands (V.shows values.new m) g state.new (live false (begun s))) }
    ensures keeps { OnOk result (Keeps V.serves V.has_key V.made V.shows values.old values.new) }
    ensures charge { OnOk result (V.cost values.new ≤ V.cost values.old) }
    ensures cells { OnOk result (state.new.cells.items ≡ state.old.cells.items) }
{
    let none = zero(values, IntKind::Int)?;
    state.guard = none;
    state.broken = none;
    Ok(())
}

/// Goes on behind the sections of a `switch`: past the last one, where a `break` left them, and from another place, by
/// its guard (C11 6.8.6.3).
pub(crate) fn pass_sections<V: Values>(
    values: &mut V,
    other: V::Value,
    state: &mut WalkState<V::Value>,
) -> Result<(), NoMemory>
    requires other { V.made values.old Int other }
    requires guard { V.made values.old Int state.old.guard }
    requires broken { V.made values.old Int state.old.broken }
    ensures made { OnOk result ((g : Setting) → IsMade (V.made values.old) g state.old → IsMade (V.made values.new) g state.new) }
    ensures events { OnOk result (events_in state.new.steps.items ≡ events_in state.old.steps.items) }
    ensures stands { OnOk result ((g : Setting) (m : List ℤ) (s : Standing) (b : Bool) → V.serves values.old m → V.shows values.old m Int other (bit b) → Stands (V.shows values.old m) g state.old s → Stands (V.shows values.new m) g state.new (live ((s.alive || s.broken) || b) s)) }
    ensures keeps { OnOk result (Keeps V.serves V.has_key V.made V.shows values.old values.new) }
    ensures charge { OnOk result (V.cost values.new ≤ V.cost values.old + 6) }
    ensures cells { OnOk result (state.new.cells.items ≡ state.old.cells.items) }
{
    let passed = either(values, state.guard, state.broken)?;
    let guard = either(values, passed, other)?;
    state.guard = guard;
    Ok(())
}

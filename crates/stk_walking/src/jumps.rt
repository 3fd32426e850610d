//! Jumps of a walk, and where the body of a loop begins (C11 6.8.5, 6.8.6).

ghost use Rattle.std.specs.Prelude.{◌≡◌, ℤ, ℕ, List, [], IfOk, OnOk, ◌+◌, ◌≤◌};
ghost use Rattle.stk_ctype.specs.declared.kind.IntKind.TheVariants.{Int};
ghost use Rattle.stk_meaning.specs.Places.{Setting};
ghost use Rattle.stk_meaning.specs.Worlds.{Break, Continue, Return, gives};
ghost use Rattle.stk_guarded.specs.Standing.{Standing};
ghost use Rattle.stk_guarded.specs.Turns.{opened};
ghost use Rattle.stk_values.specs.Keeping.{Keeps};
ghost use Rattle.stk_walking.specs.Events.{events_in};
ghost use Rattle.stk_walking.specs.Stands.{Stands, IsMade};
ghost use Rattle.stk_walking.specs.Leads.{Performs};

use crate::state::WalkState;
use crate::tests::{either, zero};
use stk_base::NoMemory;
use stk_numbers::IntKind;
use stk_values::Values;

/// `break`: what has come here has left the statement round this place.
pub fn leave_by_break<V: Values>(
    values: &mut V,
    state: &mut WalkState<V::Value>,
) -> Result<(), NoMemory>
    requires guard { V.made values.old Int state.old.guard }
    requires broken { V.made values.old Int state.old.broken }
    ensures made { OnOk result ((g : Setting) → IsMade (V.made values.old) g state.old → IsMade (V.made values.new) g state.new) }
    ensures events { OnOk result (events_in state.new.steps.items ≡ events_in state.old.steps.items) }
    ensures follows { OnOk result ((g : Setting) → Performs (V.serves values.old) (V.shows values.old) (V.shows values.new) g [] (λ m r kept. gives Break r kept) state.old state.new) }
    ensures keeps { Keeps V.serves V.has_key V.made V.shows values.old values.new }
    ensures charge { OnOk result (V.cost values.new ≤ V.cost values.old + 3) }
    ensures cells { OnOk result (state.new.cells.items ≡ state.old.cells.items) }
{
    let broken = either(values, state.broken, state.guard)?;
    let none = zero(values, IntKind::Int)?;
    state.broken = broken;
    state.guard = none;
    Ok(())
}

/// `continue`: what has come here goes on behind the body of the loop.
pub fn leave_by_continue<V: Values>(
    values: &mut V,
    state: &mut WalkState<V::Value>,
) -> Result<(), NoMemory>
    requires guard { V.made values.old Int state.old.guard }
    requires continued { V.made values.old Int state.old.continued }
    ensures made { OnOk result ((g : Setting) → IsMade (V.made values.old) g state.old → IsMade (V.made values.new) g state.new) }
    ensures events { OnOk result (events_in state.new.steps.items ≡ events_in state.old.steps.items) }
    ensures follows { OnOk result ((g : Setting) → Performs (V.serves values.old) (V.shows values.old) (V.shows values.new) g [] (λ m r kept. gives Continue r kept) state.old state.new) }
    ensures keeps { Keeps V.serves V.has_key V.made V.shows values.old values.new }
    ensures charge { OnOk result (V.cost values.new ≤ V.cost values.old + 3) }
    ensures cells { OnOk result (state.new.cells.items ≡ state.old.cells.items) }
{
    let continued = either(values, state.continued, state.guard)?;
    let none = zero(values, IntKind::Int)?;
    state.continued = continued;
    state.guard = none;
    Ok(())
}

/// `return`: nothing goes on from here.
pub fn leave_by_return<V: Values>(
    values: &mut V,
    state: &mut WalkState<V::Value>,
) -> Result<(), NoMemory>
    ensures made { OnOk result ((g : Setting) → IsMade (V.made values.old) g state.old → IsMade (V.made values.new) g state.new) }
    ensures events { OnOk result (events_in state.new.steps.items ≡ events_in state.old.steps.items) }
    ensures follows { OnOk result ((g : Setting) → Performs (V.serves values.old) (V.shows values.old) (V.shows values.new) g [] (λ m r kept. gives Return r kept) state.old state.new) }
    ensures keeps { Keeps V.serves V.has_key V.made V.shows values.old values.new }
    ensures charge { OnOk result (V.cost values.new ≤ V.cost values.old) }
    ensures cells { OnOk result (state.new.cells.items ≡ state.old.cells.items) }
{
    let none = zero(values, IntKind::Int)?;
    state.guard = none;
    Ok(())
}

/// Begins the body of a loop: nothing has left it yet.
pub fn open_body<V: Values>(values: &mut V, state: &mut WalkState<V::Value>) -> Result<(), NoMemory>
    ensures made { OnOk result ((g : Setting) → IsMade (V.made values.old) g state.old → IsMade (V.made values.new) g state.new) }
    ensures events { OnOk result (events_in state.new.steps.items ≡ events_in state.old.steps.items) }
    ensures stands { OnOk result ((g : Setting) (m : List ℤ) (s : Standing) → V.serves values.old m → Stands (V.shows values.old m) g state.old s → Stands (V.shows values.new m) g state.new (opened s)) }
    ensures keeps { Keeps V.serves V.has_key V.made V.shows values.old values.new }
    ensures charge { OnOk result (V.cost values.new ≤ V.cost values.old) }
    ensures cells { OnOk result (state.new.cells.items ≡ state.old.cells.items) }
{
    let none = zero(values, IntKind::Int)?;
    state.broken = none;
    state.continued = none;
    Ok(())
}

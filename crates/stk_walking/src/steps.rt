//! Steps of a walk.

ghost use Rattle.std.specs.Prelude.{◌≡◌, ℤ, ℕ, List, [], ◌∷◌, ◌++◌, Bool, ◌&&◌, ◌||◌, not, Option, Some, None, OnOk, IfOk, ◌+◌, ◌≤◌};
ghost use Rattle.stk_ctype.specs.declared.kind.IntKind.TheVariants.{Int};
ghost use Rattle.stk_numbers.specs.declared.conditions.CandKind.TheVariants as cand;
ghost use Rattle.stk_meaning.specs.declared.entry.Entry.TheVariants.{Enter, Seen};
ghost use Rattle.stk_meaning.specs.Operations.{bit};
ghost use Rattle.stk_meaning.specs.Places.{Setting};
ghost use Rattle.stk_values.specs.Keeping.{Keeps};
ghost use Rattle.stk_guarded.specs.Standing.{Standing, added};
ghost use Rattle.stk_walking.specs.Events.{Live, one_if, hit, differs, entry_events, events_in, truth_events, seen_events};
ghost use Rattle.stk_walking.specs.Stands.{Stands, IsMade, StepsMade, MaybeShows, MaybeMade};
ghost use Rattle.stk_walking.specs.declared.state.Event as events;
ghost use Rattle.stk_spending.specs.Charges.{seen_charge};

use crate::state::{Event, GuardedEvent, WalkState};
use crate::tests::either;
use stk_base::NoMemory;
use stk_numbers::{CandKind, Candidate};
use stk_values::Values;

/// Adds a step, which the run makes where the guard and the test are true.
pub(crate) fn push_step<V: Values>(
    values: &mut V,
    guard: V::Value,
    test: V::Value,
    event: Event,
    steps: &mut Vec<GuardedEvent<V::Value>>,
) -> Result<(), NoMemory>
    requires guard { V.made values.old Int guard }
    requires test { V.made values.old Int test }
    requires steps { StepsMade (V.made values.old) steps.old.items }
    ensures made { OnOk result (StepsMade (V.made values.new) steps.new.items) }
    ensures events { OnOk result (events_in steps.new.items ≡ events_in steps.old.items ++ event ∷ []) }
    ensures live { OnOk result ((m : List ℤ) (g b : Bool) (t : List events.Event) → V.serves values.old m → V.shows values.old m Int guard (bit g) → V.shows values.old m Int test (bit b) → Live (V.shows values.old m Int) steps.old.items t → Live (V.shows values.new m Int) steps.new.items (t ++ one_if (g && b) event)) }
    ensures keeps { Keeps V.serves V.has_key V.made V.shows values.old values.new }
    ensures charge { OnOk result (V.cost values.new ≤ V.cost values.old + 3) }
{
    let test = values.both(guard, test)?;
    steps.push(GuardedEvent { event, test })?;
    Ok(())
}

/// A branch that is entered where the run has come here.
pub fn enter<V: Values>(
    values: &V,
    node: u32,
    state: &mut WalkState<V::Value>,
) -> Result<(), NoMemory>
    ensures made { OnOk result ((g : Setting) → IsMade (V.made values.now) g state.old → IsMade (V.made values.now) g state.new) }
    ensures events { OnOk result (events_in state.new.steps.items ≡ events_in state.old.steps.items ++ hit node cand.Arm ∷ []) }
    ensures stands { OnOk result ((g : Setting) (m : List ℤ) (s : Standing) → Stands (V.shows values.now m) g state.old s → Stands (V.shows values.now m) g state.new (added (Enter node ∷ []) s)) }
    ensures cells { OnOk result (state.new.cells.items ≡ state.old.cells.items) }
{
    let event = Event::Hit(Candidate {
        node,
        kind: CandKind::Arm,
    });
    state.steps.push(GuardedEvent {
        event,
        test: state.guard,
    })?;
    Ok(())
}

// A test that is true where two tests differ.
fn differing<V: Values>(
    values: &mut V,
    left: V::Value,
    right: V::Value,
) -> Result<V::Value, NoMemory>
    requires left { V.made values.old Int left }
    requires right { V.made values.old Int right }
    ensures makes { IfOk result (λ v. V.made values.new Int v) }
    ensures value { IfOk result (λ v. (m : List ℤ) (a b : Bool) → V.serves values.old m → V.shows values.old m Int left (bit a) → V.shows values.old m Int right (bit b) → V.shows values.new m Int v (bit (differs a b))) }
    ensures keeps { Keeps V.serves V.has_key V.made V.shows values.old values.new }
    ensures charge { OnOk result (V.cost values.new ≤ V.cost values.old + 9) }
{
    let not_right = values.opposite(right)?;
    let first = values.both(left, not_right)?;
    let not_left = values.opposite(left)?;
    let second = values.both(not_left, right)?;
    let found = either(values, first, second)?;
    Ok(found)
}

// The two steps of a test at a node: one where it is false, and one where it is true.
fn push_truth<V: Values>(
    values: &mut V,
    guard: V::Value,
    node: u32,
    test: V::Value,
    steps: &mut Vec<GuardedEvent<V::Value>>,
) -> Result<(), NoMemory>
    requires guard { V.made values.old Int guard }
    requires test { V.made values.old Int test }
    requires steps { StepsMade (V.made values.old) steps.old.items }
    ensures made { OnOk result (StepsMade (V.made values.new) steps.new.items) }
    ensures events { OnOk result (events_in steps.new.items ≡ events_in steps.old.items ++ truth_events node) }
    ensures live { OnOk result ((m : List ℤ) (g b : Bool) (t : List events.Event) → V.serves values.old m → V.shows values.old m Int guard (bit g) → V.shows values.old m Int test (bit b) → Live (V.shows values.old m Int) steps.old.items t → Live (V.shows values.new m Int) steps.new.items ((t ++ one_if (g && not b) (hit node cand.AlwaysTrue)) ++ one_if (g && b) (hit node cand.AlwaysFalse))) }
    ensures keeps { Keeps V.serves V.has_key V.made V.shows values.old values.new }
    ensures charge { OnOk result (V.cost values.new ≤ V.cost values.old + 6) }
{
    let opposite = values.opposite(test)?;
    let always_true = Event::Hit(Candidate {
        node,
        kind: CandKind::AlwaysTrue,
    });
    push_step(values, guard, opposite, always_true, steps)?;
    let always_false = Event::Hit(Candidate {
        node,
        kind: CandKind::AlwaysFalse,
    });
    push_step(values, guard, test, always_false, steps)?;
    Ok(())
}

// The step of a comparison at a node whose truth differs from that of its replacement.
fn push_difference<V: Values>(
    values: &mut V,
    guard: V::Value,
    node: u32,
    tests: (V::Value, V::Value),
    steps: &mut Vec<GuardedEvent<V::Value>>,
) -> Result<(), NoMemory>
    requires guard { V.made values.old Int guard }
    requires test { V.made values.old Int tests.0 }
    requires other { V.made values.old Int tests.1 }
    requires steps { StepsMade (V.made values.old) steps.old.items }
    ensures made { OnOk result (StepsMade (V.made values.new) steps.new.items) }
    ensures events { OnOk result (events_in steps.new.items ≡ events_in steps.old.items ++ hit node cand.Algebra ∷ []) }
    ensures live { OnOk result ((m : List ℤ) (g a b : Bool) (t : List events.Event) → V.serves values.old m → V.shows values.old m Int guard (bit g) → V.shows values.old m Int tests.0 (bit a) → V.shows values.old m Int tests.1 (bit b) → Live (V.shows values.old m Int) steps.old.items t → Live (V.shows values.new m Int) steps.new.items (t ++ one_if (g && differs a b) (hit node cand.Algebra))) }
    ensures keeps { Keeps V.serves V.has_key V.made V.shows values.old values.new }
    ensures charge { OnOk result (V.cost values.new ≤ V.cost values.old + 12) }
{
    let different = differing(values, tests.0, tests.1)?;
    let algebra = Event::Hit(Candidate {
        node,
        kind: CandKind::Algebra,
    });
    push_step(values, guard, different, algebra, steps)?;
    Ok(())
}

// What is seen of a comparison at a node whose replacement is another test.
fn push_replaced<V: Values>(
    values: &mut V,
    guard: V::Value,
    node: u32,
    tests: (V::Value, V::Value),
    steps: &mut Vec<GuardedEvent<V::Value>>,
) -> Result<(), NoMemory>
    requires guard { V.made values.old Int guard }
    requires test { V.made values.old Int tests.0 }
    requires other { V.made values.old Int tests.1 }
    requires steps { StepsMade (V.made values.old) steps.old.items }
    ensures made { OnOk result (StepsMade (V.made values.new) steps.new.items) }
    ensures events { OnOk result (events_in steps.new.items ≡ events_in steps.old.items ++ (truth_events node ++ hit node cand.Algebra ∷ [])) }
    ensures live { OnOk result ((m : List ℤ) (g a b : Bool) (t : List events.Event) → V.serves values.old m → V.shows values.old m Int guard (bit g) → V.shows values.old m Int tests.0 (bit a) → V.shows values.old m Int tests.1 (bit b) → Live (V.shows values.old m Int) steps.old.items t → Live (V.shows values.new m Int) steps.new.items (((t ++ one_if (g && not a) (hit node cand.AlwaysTrue)) ++ one_if (g && a) (hit node cand.AlwaysFalse)) ++ one_if (g && differs a b) (hit node cand.Algebra))) }
    ensures keeps { Keeps V.serves V.has_key V.made V.shows values.old values.new }
    ensures charge { OnOk result (V.cost values.new ≤ V.cost values.old + 18) }
{
    push_truth(values, guard, node, tests.0, steps)?;
    push_difference(values, guard, node, tests, steps)?;
    Ok(())
}

/// What is seen of a test at a node where the run has come here, with that of its replacement, where it has one.
pub fn see<V: Values>(
    values: &mut V,
    node: u32,
    test: V::Value,
    replaced: Option<V::Value>,
    state: &mut WalkState<V::Value>,
) -> Result<(), NoMemory>
    requires test { V.made values.old Int test }
    requires other { MaybeMade (V.made values.old Int) replaced }
    requires guard { V.made values.old Int state.old.guard }
    requires steps { StepsMade (V.made values.old) state.old.steps.items }
    ensures made { OnOk result ((g : Setting) → IsMade (V.made values.old) g state.old → IsMade (V.made values.new) g state.new) }
    ensures events { OnOk result (events_in state.new.steps.items ≡ events_in state.old.steps.items ++ seen_events node replaced) }
    ensures stands { OnOk result ((g : Setting) (m : List ℤ) (s : Standing) (b : Bool) (other : Option Bool) → V.serves values.old m → V.shows values.old m Int test (bit b) → MaybeShows (V.shows values.old m Int) replaced other → Stands (V.shows values.old m) g state.old s → Stands (V.shows values.new m) g state.new (added (Seen node b other ∷ []) s)) }
    ensures keeps { Keeps V.serves V.has_key V.made V.shows values.old values.new }
    ensures charge { OnOk result (V.cost values.new ≤ V.cost values.old + seen_charge replaced) }
    ensures cells { OnOk result (state.new.cells.items ≡ state.old.cells.items) }
{
    let guard = state.guard;
    match replaced {
        None => {
            push_truth(values, guard, node, test, &mut state.steps)?;
            Ok(())
        }
        Some(other) => {
            push_replaced(values, guard, node, (test, other), &mut state.steps)?;
            Ok(())
        }
    }
}

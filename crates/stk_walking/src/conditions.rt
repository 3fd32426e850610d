//! The conditions of a node, as steps of a walk.

ghost use Rattle.std.specs.Prelude.{◌≡◌, ℤ, List, [], ◌∷◌, ◌++◌, Bool, if◌then◌else◌, OnOk, ◌+◌, ◌≤◌};
ghost use Rattle.stk_ctype.specs.declared.kind.IntKind.TheVariants.{Int};
ghost use Rattle.stk_meaning.specs.Operations.{bit};
ghost use Rattle.stk_meaning.specs.Conditions.{violated};
ghost use Rattle.stk_values.specs.Keeping.{Keeps};
ghost use Rattle.stk_walking.specs.Events.{Live, events_of, events_in};
ghost use Rattle.stk_walking.specs.Stands.{StepsMade};
ghost use Rattle.stk_walking.specs.NodeTests.{test_of, kept_of, test_events, maybe_tests, IsTestOf, IsAskedOf, MaybeIsTestOf, OperandsMade, OperandsShow};
ghost use Rattle.stk_operators.specs.Checked.{tests_of};
ghost use Rattle.stk_walking.specs.declared.state.Event as events;
ghost use Rattle.stk_walking.specs.Charges.{test_charge, maybe_charge, asked_charge};

use crate::lists::listed;
use crate::node_tests::{NodeTest, Operands, breaks};
use crate::state::{Event, GuardedEvent};
use crate::steps::push_step;
use stk_base::NoMemory;
use stk_numbers::{Condition, Kinds, UbKind};
use stk_operators::NodeTests;
use stk_values::Values;

// The kind of a test's condition.
fn kind_of(test: &NodeTest) -> UbKind
    ensures { result ≡ (test_of test.now).kind }
{
    match test {
        NodeTest::Arithmetic(what, _, _) | NodeTest::Negation(what, _) => *what,
        NodeTest::Shift(_) => UbKind::Shift,
        NodeTest::Move(_, _) | NodeTest::MoveBehind(_) => UbKind::Pointer,
        NodeTest::Null => UbKind::Null,
        NodeTest::Bounds(_) => UbKind::Bounds,
        NodeTest::Absolute(_) => UbKind::AbsValue,
        NodeTest::Copy => UbKind::Overlap,
    }
}

/// The step of a test, unless its kind is taken out.
pub(crate) fn push_test<V: Values>(
    values: &mut V,
    guard: V::Value,
    without: Kinds,
    node: u32,
    test: NodeTest,
    operands: Operands<V::Value>,
    steps: &mut Vec<GuardedEvent<V::Value>>,
) -> Result<(), NoMemory>
    requires guard { V.made values.old Int guard }
    requires operands { OperandsMade (V.made values.old) operands }
    requires asked { IsTestOf operands.first.kind test }
    requires steps { StepsMade (V.made values.old) steps.old.items }
    ensures made { OnOk result (StepsMade (V.made values.new) steps.new.items) }
    ensures events { OnOk result (events_in steps.new.items ≡ events_in steps.old.items ++ test_events node (kept_of without (test_of test ∷ []))) }
    ensures live { OnOk result ((m : List ℤ) (g : Bool) (x y z : ℤ) (t : List events.Event) → V.serves values.old m → V.shows values.old m Int guard (bit g) → OperandsShow (V.shows values.old m) operands x y z → Live (V.shows values.old m Int) steps.old.items t → Live (V.shows values.new m Int) steps.new.items (t ++ (if g then events_of (violated node (kept_of without (test_of test ∷ [])) x y z) else []))) }
    ensures keeps { Keeps V.serves V.has_key V.made V.shows values.old values.new }
    ensures charge { OnOk result (V.cost values.new ≤ V.cost values.old + (test_charge test operands.first.kind operands.second.kind + 3)) }
{
    let kind = kind_of(&test);
    if without.has(kind) {
        return Ok(());
    }
    let broken = breaks(values, test, operands)?;
    let event = Event::Broken(Condition { node, kind });
    push_step(values, guard, broken, event, steps)?;
    Ok(())
}

// The step of a test that may be missing.
fn push_maybe<V: Values>(
    values: &mut V,
    guard: V::Value,
    without: Kinds,
    node: u32,
    test: Option<NodeTest>,
    operands: Operands<V::Value>,
    steps: &mut Vec<GuardedEvent<V::Value>>,
) -> Result<(), NoMemory>
    requires guard { V.made values.old Int guard }
    requires operands { OperandsMade (V.made values.old) operands }
    requires asked { MaybeIsTestOf operands.first.kind test }
    requires steps { StepsMade (V.made values.old) steps.old.items }
    ensures made { OnOk result (StepsMade (V.made values.new) steps.new.items) }
    ensures events { OnOk result (events_in steps.new.items ≡ events_in steps.old.items ++ test_events node (kept_of without (maybe_tests test))) }
    ensures live { OnOk result ((m : List ℤ) (g : Bool) (x y z : ℤ) (t : List events.Event) → V.serves values.old m → V.shows values.old m Int guard (bit g) → OperandsShow (V.shows values.old m) operands x y z → Live (V.shows values.old m Int) steps.old.items t → Live (V.shows values.new m Int) steps.new.items (t ++ (if g then events_of (violated node (kept_of without (maybe_tests test)) x y z) else []))) }
    ensures keeps { Keeps V.serves V.has_key V.made V.shows values.old values.new }
    ensures charge { OnOk result (V.cost values.new ≤ V.cost values.old + maybe_charge test operands.first.kind operands.second.kind) }
{
    match test {
        None => Ok(()),
        Some(test) => push_test(values, guard, without, node, test, operands, steps),
    }
}

/// The steps of the tests that are asked for, in order, but for those whose kinds are taken out.
pub(crate) fn push_tests<V: Values>(
    values: &mut V,
    guard: V::Value,
    without: Kinds,
    node: u32,
    tests: NodeTests,
    operands: Operands<V::Value>,
    steps: &mut Vec<GuardedEvent<V::Value>>,
) -> Result<(), NoMemory>
    requires guard { V.made values.old Int guard }
    requires operands { OperandsMade (V.made values.old) operands }
    requires asked { IsAskedOf operands.first.kind tests }
    requires steps { StepsMade (V.made values.old) steps.old.items }
    ensures made { OnOk result (StepsMade (V.made values.new) steps.new.items) }
    ensures events { OnOk result (events_in steps.new.items ≡ events_in steps.old.items ++ test_events node (kept_of without (tests_of tests))) }
    ensures live { OnOk result ((m : List ℤ) (g : Bool) (x y z : ℤ) (t : List events.Event) → V.serves values.old m → V.shows values.old m Int guard (bit g) → OperandsShow (V.shows values.old m) operands x y z → Live (V.shows values.old m Int) steps.old.items t → Live (V.shows values.new m Int) steps.new.items (t ++ (if g then events_of (violated node (kept_of without (tests_of tests)) x y z) else []))) }
    ensures keeps { Keeps V.serves V.has_key V.made V.shows values.old values.new }
    ensures charge { OnOk result (V.cost values.new ≤ V.cost values.old + asked_charge tests operands.first.kind operands.second.kind) }
{
    let (first, second) = listed(tests);
    push_maybe(values, guard, without, node, first, operands, steps)?;
    push_maybe(values, guard, without, node, second, operands, steps)?;
    Ok(())
}

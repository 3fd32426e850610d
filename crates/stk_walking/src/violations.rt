//! The conditions of a node, as steps of a walk that has come to it.

ghost use Rattle.std.specs.Prelude.{◌≡◌, ℤ, List, ◌++◌, Bool, OnOk, ◌+◌, ◌≤◌};
ghost use Rattle.stk_tree.specs.Syntax.{ExprFormTree};
ghost use Rattle.stk_meaning.specs.Conditions.{form_tests};
ghost use Rattle.stk_meaning.specs.Expressions.{breaks};
ghost use Rattle.stk_operators.specs.Checked.{tests_of};
ghost use Rattle.stk_values.specs.Keeping.{Keeps};
ghost use Rattle.stk_guarded.specs.Standing.{Standing, added};
ghost use Rattle.stk_walking.specs.Events.{events_in};
ghost use Rattle.stk_walking.specs.ExpressionEvents.{condition_events};
ghost use Rattle.stk_walking.specs.Stands.{Stands, IsMade};
ghost use Rattle.stk_walking.specs.NodeTests.{IsAskedOf, OperandsMade, OperandsShow};
ghost use Rattle.stk_walking.specs.Charges.{asked_charge};

use crate::asked::WalkSetting;
use crate::conditions::push_tests;
use crate::node_tests::Operands;
use crate::state::WalkState;
use stk_base::NoMemory;
use stk_operators::NodeTests;
use stk_values::Values;

/// The steps of what is asked at a node of the numbers of its operands, but for the kinds of conditions that are taken
/// out.
pub fn violate<O: WalkSetting, V: Values>(
    out: &O,
    node: u32,
    tests: NodeTests,
    operands: Operands<V::Value>,
    values: &mut V,
    state: &mut WalkState<V::Value>,
) -> Result<(), NoMemory>
    requires operands { OperandsMade (V.made values.old) operands }
    requires asked { IsAskedOf operands.first.kind tests }
    requires made { IsMade (V.made values.old) (O.setting out.now) state.old }
    ensures made { OnOk result (IsMade (V.made values.new) (O.setting out.now) state.new) }
    ensures events { OnOk result ((accessed : Bool) (f : ExprFormTree) → form_tests (O.setting out.now).typing accessed f ≡ tests_of tests → events_in state.new.steps.items ≡ events_in state.old.steps.items ++ condition_events (O.setting out.now) node accessed f) }
    ensures stands { OnOk result ((m : List ℤ) (s : Standing) (x y z : ℤ) (accessed : Bool) (f : ExprFormTree) → V.serves values.old m → OperandsShow (V.shows values.old m) operands x y z → form_tests (O.setting out.now).typing accessed f ≡ tests_of tests → Stands (V.shows values.old m) (O.setting out.now) state.old s → Stands (V.shows values.new m) (O.setting out.now) state.new (added (breaks (O.setting out.now) node accessed f x y z) s)) }
    ensures keeps { Keeps V.serves V.has_key V.made V.shows values.old values.new }
    ensures charge { OnOk result (V.cost values.new ≤ V.cost values.old + asked_charge tests operands.first.kind operands.second.kind) }
    ensures cells { OnOk result (state.new.cells.items ≡ state.old.cells.items) }
{
    let guard = state.guard;
    let without = out.without();
    push_tests(
        values,
        guard,
        without,
        node,
        tests,
        operands,
        &mut state.steps,
    )?;
    Ok(())
}

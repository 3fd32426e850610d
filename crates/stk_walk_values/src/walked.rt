//! The walk of expressions, as a walk over statements asks for it.

ghost use Rattle.std.specs.Prelude.{◌≡◌, ◌++◌, IfOk, OnOk, ◌+◌, length};
ghost use Rattle.stk_ctype.specs.declared.kind.IntKind.TheVariants.{Int};
ghost use Rattle.stk_tree.specs.View.{view_expression};
ghost use Rattle.stk_meaning.specs.Typings.{type_in, number_kind, converted};
ghost use Rattle.stk_meaning.specs.Operations.{truth, bit};
ghost use Rattle.stk_meaning.specs.Paths.{path_world};
ghost use Rattle.stk_meaning.specs.Expressions.{value_of, test_of};
ghost use Rattle.stk_kinded.specs.Kinded.{Kinded};
ghost use Rattle.stk_values.specs.Keeping.{Keeps};
ghost use Rattle.stk_walking.specs.Events.{events_in};
ghost use Rattle.stk_walking.specs.ExpressionEvents.{value_events, tested_events};
ghost use Rattle.stk_walking.specs.Stands.{IsMade};
ghost use Rattle.stk_walking.specs.Keyed.{AreThere};
ghost use Rattle.stk_walking.specs.Leads.{Evaluates};
ghost use Rattle.stk_values.specs.Charges.{convert_charge};
ghost use Rattle.stk_spending.specs.Expressions.{spent_value, spent_test, kind_in, kind_at};
ghost use Rattle.stk_walking.specs.Costs.{Costs};

use crate::expressions;
use stk_base::NoMemory;
use stk_eval_expr::node_of;
use stk_tree::Expr;
use stk_values::Values;
use stk_walking::{WalkSetting, WalkState, converted};

/// The value of an expression, in the kind of its type: under each input map that the store serves, its number, the
/// registers, the kept numbers and the entries are those of a path run of the map from where the walk stands; where
/// the run hasn't come here, nothing changes (C11 6.5).
pub fn value<O: WalkSetting, V: Values>(
    out: &O,
    e: &Expr,
    values: &mut V,
    state: &mut WalkState<V::Value>,
) -> Result<V::Value, NoMemory>
    requires kinded { Kinded (O.setting out.now) (view_expression e.now) }
    requires keys { AreThere (V.has_key values.old) (O.kinds out.now) }
    requires made { IsMade (V.made values.old) (O.setting out.now) state.old }
    ensures makes { IfOk result (λ v. V.made values.new (number_kind (type_in (O.setting out.now).typing (view_expression e.now))) v) }
    ensures made { OnOk result (IsMade (V.made values.new) (O.setting out.now) state.new) }
    ensures events { OnOk result (events_in state.new.steps.items ≡ events_in state.old.steps.items ++ value_events (O.setting out.now) (view_expression e.now)) }
    ensures follows { IfOk result (λ v. Evaluates (V.serves values.old) (V.shows values.old) (V.shows values.new) (O.setting out.now) (λ m x. V.shows values.new m (number_kind (type_in (O.setting out.now).typing (view_expression e.now))) v x) (λ m. value_of (O.setting out.now) (path_world (O.under out.now m)) (view_expression e.now)) state.old state.new) }
    ensures keeps { OnOk result (Keeps V.serves V.has_key V.made V.shows values.old values.new) }
    ensures cost { OnOk result (Costs V.cost (length (O.setting out.now).kept) (spent_value (O.setting out.now) (view_expression e.now)) values.old values.new (length state.old.cells.items) (length state.new.cells.items)) }
{
    let found = expressions::value(out, e, values, state)?;
    Ok(found)
}

/// Whether a controlling expression is true, as a test (C11 6.8.4.1): it is seen without its parentheses, unless it
/// is a comparison, which has been seen already.
pub fn tested<O: WalkSetting, V: Values>(
    out: &O,
    e: &Expr,
    values: &mut V,
    state: &mut WalkState<V::Value>,
) -> Result<V::Value, NoMemory>
    requires kinded { Kinded (O.setting out.now) (view_expression e.now) }
    requires keys { AreThere (V.has_key values.old) (O.kinds out.now) }
    requires made { IsMade (V.made values.old) (O.setting out.now) state.old }
    ensures makes { IfOk result (λ v. V.made values.new Int v) }
    ensures made { OnOk result (IsMade (V.made values.new) (O.setting out.now) state.new) }
    ensures events { OnOk result (events_in state.new.steps.items ≡ events_in state.old.steps.items ++ tested_events (O.setting out.now) (view_expression e.now)) }
    ensures follows { IfOk result (λ v. Evaluates (V.serves values.old) (V.shows values.old) (V.shows values.new) (O.setting out.now) (λ m x. V.shows values.new m Int v (bit (truth x))) (λ m. test_of (O.setting out.now) (path_world (O.under out.now m)) (view_expression e.now)) state.old state.new) }
    ensures keeps { OnOk result (Keeps V.serves V.has_key V.made V.shows values.old values.new) }
    ensures cost { OnOk result (Costs V.cost (length (O.setting out.now).kept) (spent_test (O.setting out.now) (view_expression e.now)) values.old values.new (length state.old.cells.items) (length state.new.cells.items)) }
{
    let found = expressions::tested(out, e, values, state)?;
    Ok(found)
}

/// The value of an expression, converted to the type of a node, as the initialiser of a declarator at this node is
/// (C11 6.7.9p11). The run's number is the one from before the conversion.
pub fn converted_value<O: WalkSetting, V: Values>(
    out: &O,
    node: u32,
    e: &Expr,
    values: &mut V,
    state: &mut WalkState<V::Value>,
) -> Result<V::Value, NoMemory>
    requires kinded { Kinded (O.setting out.now) (view_expression e.now) }
    requires keys { AreThere (V.has_key values.old) (O.kinds out.now) }
    requires made { IsMade (V.made values.old) (O.setting out.now) state.old }
    ensures makes { IfOk result (λ v. V.made values.new (number_kind ((O.setting out.now).typing.type_at node)) v) }
    ensures made { OnOk result (IsMade (V.made values.new) (O.setting out.now) state.new) }
    ensures events { OnOk result (events_in state.new.steps.items ≡ events_in state.old.steps.items ++ value_events (O.setting out.now) (view_expression e.now)) }
    ensures follows { IfOk result (λ v. Evaluates (V.serves values.old) (V.shows values.old) (V.shows values.new) (O.setting out.now) (λ m x. V.shows values.new m (number_kind ((O.setting out.now).typing.type_at node)) v (converted ((O.setting out.now).typing.type_at node) x)) (λ m. value_of (O.setting out.now) (path_world (O.under out.now m)) (view_expression e.now)) state.old state.new) }
    ensures keeps { OnOk result (Keeps V.serves V.has_key V.made V.shows values.old values.new) }
    ensures cost { OnOk result (Costs V.cost (length (O.setting out.now).kept) (spent_value (O.setting out.now) (view_expression e.now) + convert_charge (kind_in (O.setting out.now).typing (view_expression e.now)) (kind_at (O.setting out.now).typing node)) values.old values.new (length state.old.cells.items) (length state.new.cells.items)) }
{
    let number = expressions::value(out, e, values, state)?;
    let from = out.kind_at(node_of(e));
    let found = converted(values, from, out.kind_at(node), number)?;
    Ok(found)
}

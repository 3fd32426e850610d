//! Expressions.

ghost use Rattle.std.specs.Prelude.{◌≡◌, ◌+◌, ◌++◌, ℤ, Bool, true, false, pos, not, map, option_map, if◌then◌else◌, IfOk, ◌*◌, length, OnOk};
ghost use Rattle.stk_ctype.specs.declared.kind.IntKind.TheVariants.{Int};
ghost use Rattle.stk_ctype.specs.Types.{TypeTrees};
ghost use Rattle.stk_tree.specs.View.{view_expression, expressions};
ghost use Rattle.stk_tree.specs.Syntax as s;
ghost use Rattle.stk_tree.specs.declared.expression.UnaryOp.TheVariants as unary;
ghost use Rattle.stk_meaning.specs.Typings.{node_of, type_in, number_kind, converted, is_array, stride_in};
ghost use Rattle.stk_meaning.specs.Operations.{sort_of, operates, comparing, operation_of, assigned_operator, to_address, truth, bit, step_operation};
ghost use Rattle.stk_meaning.specs.Libraries.{called_signature, parameters_in, result_in, called_library};
ghost use Rattle.stk_meaning.specs.Replacements.{replacement};
ghost use Rattle.stk_meaning.specs.Places.{target_of};
ghost use Rattle.stk_meaning.specs.Worlds.{Went, and_then, gives};
ghost use Rattle.stk_meaning.specs.Paths.{path_world};
ghost use Rattle.stk_meaning.specs.Expressions.{test_of, breaks, indexed_from, index_place, place_value, right_operand, branch_value, unary_meaning, binary_meaning, operator_meaning, operator_sides, comparison_value, and_value, or_value, step_value, assigned_value, arguments_values, call_value};
ghost use Rattle.stk_operators.specs.Shown.{operator_shown, library_shown};
ghost use Rattle.stk_eval_expr.specs.Leaving.{meaning_in};
ghost use Rattle.stk_kinded.specs.Kinds.{Suits, IsStored, operation_kind};
ghost use Rattle.stk_kinded.specs.Kinded.{Kinded, KindedAll, UnaryHasKind, BinaryHasKind};
ghost use Rattle.stk_walking.specs.Events.{seen_events};
ghost use Rattle.stk_walking.specs.ExpressionEvents.{expression_events, tested_events, condition_events, entered_events, indexed_events, unary_events, binary_events, assigned_events, argument_events};
ghost use Rattle.stk_walking.specs.Walks.{IsReady, Walks, WalksTo};
ghost use Rattle.stk_walk_values.specs.Arguments.{Takes, ArgumentsMade, ArgumentsShow};
ghost use Rattle.stk_walk_values.specs.Parts.{WalksBehind, Finds, WalksToSides};
ghost use Rattle.stk_numbers.specs.Kinds.{width_of};
ghost use Rattle.stk_values.specs.Charges.{convert_charge, move_charge};
ghost use Rattle.stk_spending.specs.Charges.{null_charge, index_charge, read_charge, call_charge};
ghost use Rattle.stk_spending.specs.Expressions.{kind_in, kind_at, expression_spent, spent_value, spent_place, spent_test, indexed_spent, unary_spent, binary_spent, operator_spent, compared_spent, joined_spent, stored_spent, assigned_spent, arguments_spent};
ghost use Rattle.stk_walking.specs.Costs.{Costs};

use crate::calls::{Arguments, called_number, no_arguments, passed};
use crate::guards::parted;
use crate::operators::{
    alone, compared_number, flipped_number, negated_number, operated_number, opposed_number,
    seen_test,
};
use crate::sides::Sides;
use crate::steps::{
    arrow_place, indexed_place, member_place, named_place, no_place, own_number, place_number,
    target_place, text_place,
};
use crate::stores::{assigned_number, compound_number, stepped_number};
use stk_base::{NoMemory, Span};
use stk_eval_expr::{node_of, target_of};
use stk_numbers::{CompareOp, IntKind};
use stk_operators::{BinarySort, Library, Operator, Target, assigned_operator, sort_of};
use stk_tree::{AssignOp, BinaryOp, Expr, ExprForm, StepOp, UnaryOp};
use stk_values::Values;
use stk_walking::{Operand, WalkSetting, WalkState, converted, either, enter, is_true, zero};

/// The value of an expression, in the kind of its type.
#[cycle(expression)]
pub(crate) fn value<O: WalkSetting, V: Values>(
    out: &O,
    e: &Expr,
    values: &mut V,
    state: &mut WalkState<V::Value>,
) -> Result<V::Value, NoMemory>
    requires kinded { Kinded (O.setting out.now) (view_expression e.now) }
    requires ready { IsReady V.has_key V.made (O.kinds out.now) (O.setting out.now) values.old state.old }
    ensures walks { IfOk result (λ v. WalksTo V.serves V.has_key V.made V.shows (O.setting out.now) (number_kind (type_in (O.setting out.now).typing (view_expression e.now))) v (λ m. (meaning_in (O.setting out.now) (O.under out.now m) (view_expression e.now)).value) (expression_events (O.setting out.now) (view_expression e.now)).value values.old values.new state.old state.new) }
    ensures cost { OnOk result (Costs V.cost (length (O.setting out.now).kept) (spent_value (O.setting out.now) (view_expression e.now)) values.old values.new (length state.old.cells.items) (length state.new.cells.items)) }
{
    let k = e.node.number;
    match &e.form {
        ExprForm::Name(_) => match out.own_number(k) {
            Some(_) => own_number(out, k, values, state),
            None => place_value(out, e, values, state),
        },
        ExprForm::Text(_) => place_value(out, e, values, state),
        ExprForm::Index(_, _) => place_value(out, e, values, state),
        ExprForm::Dot(_, _) => place_value(out, e, values, state),
        ExprForm::Arrow(_, _) => place_value(out, e, values, state),
        ExprForm::Number(_) => own_number(out, k, values, state),
        ExprForm::Character(_) => own_number(out, k, values, state),
        ExprForm::SizeExpr(_) => own_number(out, k, values, state),
        ExprForm::SizeName(_) => own_number(out, k, values, state),
        ExprForm::Paren(x) => value(out, x.get(), values, state),
        ExprForm::Unary(op, x) => unary_value(out, k, *op, x.get(), values, state),
        ExprForm::Cast(_, x) => cast(out, k, x.get(), values, state),
        ExprForm::Step(op, x) => stepped_value(out, k, *op, x.get(), values, state),
        ExprForm::Binary(op, a, b) => binary_value(out, k, *op, a.get(), b.get(), values, state),
        ExprForm::Assign(op, a, b) => assigned_value(out, k, *op, a.get(), b.get(), values, state),
        ExprForm::Choice(a, b, c) => {
            let test = tested(out, a.get(), values, state)?;
            let found = choice(out, k, test, b.get(), c.get(), values, state)?;
            Ok(found)
        }
        ExprForm::Call(f, list) => call_value(out, k, f.get(), list.as_slice(), values, state),
    }
}

// The value of a place: of an array its address, else its number.
#[cycle(expression)]
fn place_value<O: WalkSetting, V: Values>(
    out: &O,
    e: &Expr,
    values: &mut V,
    state: &mut WalkState<V::Value>,
) -> Result<V::Value, NoMemory>
    requires kinded { Kinded (O.setting out.now) (view_expression e.now) }
    requires suits { Suits (O.setting out.now) (target_of (O.setting out.now) (view_expression e.now)) (number_kind (type_in (O.setting out.now).typing (view_expression e.now))) }
    requires ready { IsReady V.has_key V.made (O.kinds out.now) (O.setting out.now) values.old state.old }
    ensures walks { IfOk result (λ v. WalksTo V.serves V.has_key V.made V.shows (O.setting out.now) (number_kind (type_in (O.setting out.now).typing (view_expression e.now))) v (λ m. place_value (path_world (O.under out.now m)) (target_of (O.setting out.now) (view_expression e.now)) (node_of (view_expression e.now)) (type_in (O.setting out.now).typing (view_expression e.now)) (meaning_in (O.setting out.now) (O.under out.now m) (view_expression e.now)).place) ((expression_events (O.setting out.now) (view_expression e.now)).place (not (is_array (type_in (O.setting out.now).typing (view_expression e.now))))) values.old values.new state.old state.new) }
    ensures cost { OnOk result (Costs V.cost (length (O.setting out.now).kept) ((spent_place (O.setting out.now) (view_expression e.now)) + read_charge (target_of (O.setting out.now) (view_expression e.now)) (kind_in (O.setting out.now).typing (view_expression e.now))) values.old values.new (length state.old.cells.items) (length state.new.cells.items)) }
{
    let k = node_of(e);
    let address = place(out, e, !out.is_array_at(k), values, state)?;
    let found = place_number(out, k, target_of(out, e), address, values, state)?;
    Ok(found)
}

// The address of a place, which is accessed or not. What is no place has none.
#[cycle(expression)]
fn place<O: WalkSetting, V: Values>(
    out: &O,
    e: &Expr,
    accessed: bool,
    values: &mut V,
    state: &mut WalkState<V::Value>,
) -> Result<V::Value, NoMemory>
    requires kinded { Kinded (O.setting out.now) (view_expression e.now) }
    requires ready { IsReady V.has_key V.made (O.kinds out.now) (O.setting out.now) values.old state.old }
    ensures walks { IfOk result (λ v. Finds V.serves V.has_key V.made V.shows (O.setting out.now) v (λ m. (meaning_in (O.setting out.now) (O.under out.now m) (view_expression e.now)).place accessed) ((expression_events (O.setting out.now) (view_expression e.now)).place accessed) values.old values.new state.old state.new) }
    ensures cost { OnOk result (Costs V.cost (length (O.setting out.now).kept) (spent_place (O.setting out.now) (view_expression e.now)) values.old values.new (length state.old.cells.items) (length state.new.cells.items)) }
{
    let k = e.node.number;
    match &e.form {
        ExprForm::Name(name) => {
            let found = named_place(out, k, *name, values, state)?;
            Ok(found)
        }
        ExprForm::Text(_) => text_place(out, k, values, state),
        ExprForm::Paren(x) => place(out, x.get(), accessed, values, state),
        ExprForm::Dot(x, name) => member(out, x.get(), accessed, *name, values, state),
        ExprForm::Arrow(x, name) => {
            let x = x.get();
            let n = value(out, x, values, state)?;
            let found = arrow_place(out, k, accessed, x, *name, n, values, state)?;
            Ok(found)
        }
        ExprForm::Index(a, b) => index_place(out, k, accessed, a.get(), b.get(), values, state),
        ExprForm::Unary(op, x) => unary_place(out, k, accessed, *op, x.get(), values, state),
        ExprForm::Number(_)
        | ExprForm::Character(_)
        | ExprForm::Call(_, _)
        | ExprForm::Step(_, _)
        | ExprForm::SizeExpr(_)
        | ExprForm::SizeName(_)
        | ExprForm::Cast(_, _)
        | ExprForm::Binary(_, _, _)
        | ExprForm::Choice(_, _, _)
        | ExprForm::Assign(_, _, _) => no_place(out, values, state),
    }
}

// The address of a member of a place.
#[cycle(expression)]
fn member<O: WalkSetting, V: Values>(
    out: &O,
    e: &Expr,
    accessed: bool,
    name: Span,
    values: &mut V,
    state: &mut WalkState<V::Value>,
) -> Result<V::Value, NoMemory>
    requires kinded { Kinded (O.setting out.now) (view_expression e.now) }
    requires ready { IsReady V.has_key V.made (O.kinds out.now) (O.setting out.now) values.old state.old }
    ensures walks { IfOk result (λ v. Finds V.serves V.has_key V.made V.shows (O.setting out.now) v (λ m. λ r i. and_then ((meaning_in (O.setting out.now) (O.under out.now m) (view_expression e.now)).place accessed r i) (λ x. gives (to_address (pos (x + (O.setting out.now).typing.offset_of (type_in (O.setting out.now).typing (view_expression e.now)) name))))) ((expression_events (O.setting out.now) (view_expression e.now)).place accessed) values.old values.new state.old state.new) }
    ensures cost { OnOk result (Costs V.cost (length (O.setting out.now).kept) ((spent_place (O.setting out.now) (view_expression e.now)) + 1024) values.old values.new (length state.old.cells.items) (length state.new.cells.items)) }
{
    let address = place(out, e, accessed, values, state)?;
    let found = member_place(out, node_of(e), name, address, values)?;
    Ok(found)
}

// The address of `e[e]`.
#[cycle(expression)]
fn index_place<O: WalkSetting, V: Values>(
    out: &O,
    k: u32,
    accessed: bool,
    a: &Expr,
    b: &Expr,
    values: &mut V,
    state: &mut WalkState<V::Value>,
) -> Result<V::Value, NoMemory>
    requires first { Kinded (O.setting out.now) (view_expression a.now) }
    requires second { Kinded (O.setting out.now) (view_expression b.now) }
    requires ready { IsReady V.has_key V.made (O.kinds out.now) (O.setting out.now) values.old state.old }
    ensures walks { IfOk result (λ v. Finds V.serves V.has_key V.made V.shows (O.setting out.now) v (λ m. index_place (O.setting out.now) k (view_expression a.now) (view_expression b.now) (meaning_in (O.setting out.now) (O.under out.now m) (view_expression a.now)) (meaning_in (O.setting out.now) (O.under out.now m) (view_expression b.now)) accessed) (indexed_events (type_in (O.setting out.now).typing (view_expression a.now)) accessed (expression_events (O.setting out.now) (view_expression a.now)) ++ ((expression_events (O.setting out.now) (view_expression b.now)).value ++ condition_events (O.setting out.now) k accessed (s.index (view_expression a.now) (view_expression b.now)))) values.old values.new state.old state.new) }
    ensures cost { OnOk result (Costs V.cost (length (O.setting out.now).kept) (indexed_spent (type_in (O.setting out.now).typing (view_expression a.now)) (expression_spent (O.setting out.now) (view_expression a.now)) + (spent_value (O.setting out.now) (view_expression b.now)) + move_charge (stride_in (O.setting out.now).typing (type_in (O.setting out.now).typing (view_expression a.now))) + index_charge (kind_in (O.setting out.now).typing (view_expression a.now)) (stride_in (O.setting out.now).typing (type_in (O.setting out.now).typing (view_expression a.now)))) values.old values.new (length state.old.cells.items) (length state.new.cells.items)) }
{
    let x = indexed(out, accessed, a, values, state)?;
    let y = value(out, b, values, state)?;
    let base = Operand {
        kind: out.kind_at(node_of(a)),
        value: x,
    };
    let step = Operand {
        kind: out.kind_at(node_of(b)),
        value: y,
    };
    let found = indexed_place(out, k, accessed, a, (base, step), values, state)?;
    Ok(found)
}

// What stands before `[e]`: the address of an array, or the value of a pointer.
#[cycle(expression)]
fn indexed<O: WalkSetting, V: Values>(
    out: &O,
    accessed: bool,
    e: &Expr,
    values: &mut V,
    state: &mut WalkState<V::Value>,
) -> Result<V::Value, NoMemory>
    requires kinded { Kinded (O.setting out.now) (view_expression e.now) }
    requires ready { IsReady V.has_key V.made (O.kinds out.now) (O.setting out.now) values.old state.old }
    ensures walks { IfOk result (λ v. WalksTo V.serves V.has_key V.made V.shows (O.setting out.now) (number_kind (type_in (O.setting out.now).typing (view_expression e.now))) v (λ m. indexed_from (type_in (O.setting out.now).typing (view_expression e.now)) accessed (meaning_in (O.setting out.now) (O.under out.now m) (view_expression e.now))) (indexed_events (type_in (O.setting out.now).typing (view_expression e.now)) accessed (expression_events (O.setting out.now) (view_expression e.now))) values.old values.new state.old state.new) }
    ensures cost { OnOk result (Costs V.cost (length (O.setting out.now).kept) (indexed_spent (type_in (O.setting out.now).typing (view_expression e.now)) (expression_spent (O.setting out.now) (view_expression e.now))) values.old values.new (length state.old.cells.items) (length state.new.cells.items)) }
{
    if out.is_array_at(node_of(e)) {
        let address = place(out, e, accessed, values, state)?;
        Ok(address)
    } else {
        let n = value(out, e, values, state)?;
        Ok(n)
    }
}

// The address of a unary operator as a place: of `*`.
#[cycle(expression)]
fn unary_place<O: WalkSetting, V: Values>(
    out: &O,
    k: u32,
    accessed: bool,
    op: UnaryOp,
    e: &Expr,
    values: &mut V,
    state: &mut WalkState<V::Value>,
) -> Result<V::Value, NoMemory>
    requires kinded { Kinded (O.setting out.now) (view_expression e.now) }
    requires ready { IsReady V.has_key V.made (O.kinds out.now) (O.setting out.now) values.old state.old }
    ensures walks { IfOk result (λ v. Finds V.serves V.has_key V.made V.shows (O.setting out.now) v (λ m. (unary_meaning (O.setting out.now) (path_world (O.under out.now m)) k op (view_expression e.now) (meaning_in (O.setting out.now) (O.under out.now m) (view_expression e.now))).place accessed) ((unary_events (O.setting out.now) k op (view_expression e.now) (expression_events (O.setting out.now) (view_expression e.now))).place accessed) values.old values.new state.old state.new) }
    ensures cost { OnOk result (Costs V.cost (length (O.setting out.now).kept) (unary_spent (O.setting out.now) k op (kind_in (O.setting out.now).typing (view_expression e.now)) (expression_spent (O.setting out.now) (view_expression e.now))).place values.old values.new (length state.old.cells.items) (length state.new.cells.items)) }
{
    match op {
        UnaryOp::Deref => target(out, k, accessed, e, values, state),
        UnaryOp::Address => no_place(out, values, state),
        UnaryOp::Plus => no_place(out, values, state),
        UnaryOp::Minus => no_place(out, values, state),
        UnaryOp::Flip => no_place(out, values, state),
        UnaryOp::Not => no_place(out, values, state),
    }
}

// The address of `*e`.
#[cycle(expression)]
fn target<O: WalkSetting, V: Values>(
    out: &O,
    k: u32,
    accessed: bool,
    e: &Expr,
    values: &mut V,
    state: &mut WalkState<V::Value>,
) -> Result<V::Value, NoMemory>
    requires kinded { Kinded (O.setting out.now) (view_expression e.now) }
    requires ready { IsReady V.has_key V.made (O.kinds out.now) (O.setting out.now) values.old state.old }
    ensures walks { IfOk result (λ v. Finds V.serves V.has_key V.made V.shows (O.setting out.now) v (λ m. λ r i. and_then ((meaning_in (O.setting out.now) (O.under out.now m) (view_expression e.now)).value r i) (λ x r i. Went (to_address x) r i (breaks (O.setting out.now) k accessed (s.unary unary.Deref (view_expression e.now)) x (pos 0) (pos 0)))) ((expression_events (O.setting out.now) (view_expression e.now)).value ++ condition_events (O.setting out.now) k accessed (s.unary unary.Deref (view_expression e.now))) values.old values.new state.old state.new) }
    ensures cost { OnOk result (Costs V.cost (length (O.setting out.now).kept) ((spent_value (O.setting out.now) (view_expression e.now)) + null_charge (kind_in (O.setting out.now).typing (view_expression e.now))) values.old values.new (length state.old.cells.items) (length state.new.cells.items)) }
{
    let value = value(out, e, values, state)?;
    let kind = out.kind_at(node_of(e));
    let pointer = Operand { kind, value };
    let found = target_place(out, k, accessed, pointer, values, state)?;
    Ok(found)
}

// The value of a unary operator (C11 6.5.3).
#[cycle(expression)]
fn unary_value<O: WalkSetting, V: Values>(
    out: &O,
    k: u32,
    op: UnaryOp,
    e: &Expr,
    values: &mut V,
    state: &mut WalkState<V::Value>,
) -> Result<V::Value, NoMemory>
    requires kind { UnaryHasKind (O.setting out.now).typing k (number_kind (type_in (O.setting out.now).typing (view_expression e.now))) op }
    requires kinded { Kinded (O.setting out.now) (view_expression e.now) }
    requires ready { IsReady V.has_key V.made (O.kinds out.now) (O.setting out.now) values.old state.old }
    ensures walks { IfOk result (λ v. WalksTo V.serves V.has_key V.made V.shows (O.setting out.now) (number_kind ((O.setting out.now).typing.type_at k)) v (λ m. (unary_meaning (O.setting out.now) (path_world (O.under out.now m)) k op (view_expression e.now) (meaning_in (O.setting out.now) (O.under out.now m) (view_expression e.now))).value) (unary_events (O.setting out.now) k op (view_expression e.now) (expression_events (O.setting out.now) (view_expression e.now))).value values.old values.new state.old state.new) }
    ensures cost { OnOk result (Costs V.cost (length (O.setting out.now).kept) (unary_spent (O.setting out.now) k op (kind_in (O.setting out.now).typing (view_expression e.now)) (expression_spent (O.setting out.now) (view_expression e.now))).value values.old values.new (length state.old.cells.items) (length state.new.cells.items)) }
{
    match op {
        UnaryOp::Address => {
            let address = place(out, e, false, values, state)?;
            Ok(address)
        }
        UnaryOp::Deref => target_value(out, k, e, values, state),
        UnaryOp::Plus => cast(out, k, e, values, state),
        UnaryOp::Minus => {
            let n = value(out, e, values, state)?;
            let found = negated_number(out, k, e, n, values, state)?;
            Ok(found)
        }
        UnaryOp::Flip => {
            let n = value(out, e, values, state)?;
            let found = flipped_number(out, e, n, values)?;
            Ok(found)
        }
        UnaryOp::Not => {
            let n = value(out, e, values, state)?;
            let found = opposed_number(out, e, n, values)?;
            Ok(found)
        }
    }
}

// The value of `*e`.
#[cycle(expression)]
fn target_value<O: WalkSetting, V: Values>(
    out: &O,
    k: u32,
    e: &Expr,
    values: &mut V,
    state: &mut WalkState<V::Value>,
) -> Result<V::Value, NoMemory>
    requires kinded { Kinded (O.setting out.now) (view_expression e.now) }
    requires ready { IsReady V.has_key V.made (O.kinds out.now) (O.setting out.now) values.old state.old }
    ensures walks { IfOk result (λ v. WalksTo V.serves V.has_key V.made V.shows (O.setting out.now) (number_kind ((O.setting out.now).typing.type_at k)) v (λ m. (unary_meaning (O.setting out.now) (path_world (O.under out.now m)) k unary.Deref (view_expression e.now) (meaning_in (O.setting out.now) (O.under out.now m) (view_expression e.now))).value) (unary_events (O.setting out.now) k unary.Deref (view_expression e.now) (expression_events (O.setting out.now) (view_expression e.now))).value values.old values.new state.old state.new) }
    ensures cost { OnOk result (Costs V.cost (length (O.setting out.now).kept) ((spent_value (O.setting out.now) (view_expression e.now)) + null_charge (kind_in (O.setting out.now).typing (view_expression e.now))) values.old values.new (length state.old.cells.items) (length state.new.cells.items)) }
{
    let address = target(out, k, !out.is_array_at(k), e, values, state)?;
    let found = place_number(out, k, Target::Unnamed, address, values, state)?;
    Ok(found)
}

// A value converted to the type of a node: by a cast, and by `+`.
#[cycle(expression)]
fn cast<O: WalkSetting, V: Values>(
    out: &O,
    k: u32,
    e: &Expr,
    values: &mut V,
    state: &mut WalkState<V::Value>,
) -> Result<V::Value, NoMemory>
    requires kinded { Kinded (O.setting out.now) (view_expression e.now) }
    requires ready { IsReady V.has_key V.made (O.kinds out.now) (O.setting out.now) values.old state.old }
    ensures walks { IfOk result (λ v. WalksTo V.serves V.has_key V.made V.shows (O.setting out.now) (number_kind ((O.setting out.now).typing.type_at k)) v (λ m. λ r i. and_then ((meaning_in (O.setting out.now) (O.under out.now m) (view_expression e.now)).value r i) (λ x. gives (converted ((O.setting out.now).typing.type_at k) x))) (expression_events (O.setting out.now) (view_expression e.now)).value values.old values.new state.old state.new) }
    ensures cost { OnOk result (Costs V.cost (length (O.setting out.now).kept) ((spent_value (O.setting out.now) (view_expression e.now)) + convert_charge (kind_in (O.setting out.now).typing (view_expression e.now)) (kind_at (O.setting out.now).typing k)) values.old values.new (length state.old.cells.items) (length state.new.cells.items)) }
{
    let n = value(out, e, values, state)?;
    let found = converted(values, out.kind_at(node_of(e)), out.kind_at(k), n)?;
    Ok(found)
}

/// A controlling expression as a test: it is seen without its parentheses.
#[cycle(expression)]
pub(crate) fn tested<O: WalkSetting, V: Values>(
    out: &O,
    e: &Expr,
    values: &mut V,
    state: &mut WalkState<V::Value>,
) -> Result<V::Value, NoMemory>
    requires kinded { Kinded (O.setting out.now) (view_expression e.now) }
    requires ready { IsReady V.has_key V.made (O.kinds out.now) (O.setting out.now) values.old state.old }
    ensures walks { IfOk result (λ v. Walks V.serves V.has_key V.made V.shows (O.setting out.now) (λ m. Unit {0}) (λ c. V.made c Int v) (λ c m x. V.shows c m Int v (bit (truth x))) (λ m. test_of (O.setting out.now) (path_world (O.under out.now m)) (view_expression e.now)) (tested_events (O.setting out.now) (view_expression e.now)) values.old values.new state.old state.new) }
    ensures cost { OnOk result (Costs V.cost (length (O.setting out.now).kept) (spent_test (O.setting out.now) (view_expression e.now)) values.old values.new (length state.old.cells.items) (length state.new.cells.items)) }
{
    let n = value(out, e, values, state)?;
    let test = seen_test(out, e, n, values, state)?;
    Ok(test)
}

// The right operand of `&&` and of `||`, which is entered.
#[cycle(expression)]
fn right_operand<O: WalkSetting, V: Values>(
    out: &O,
    e: &Expr,
    values: &mut V,
    state: &mut WalkState<V::Value>,
) -> Result<V::Value, NoMemory>
    requires kinded { Kinded (O.setting out.now) (view_expression e.now) }
    requires ready { IsReady V.has_key V.made (O.kinds out.now) (O.setting out.now) values.old state.old }
    ensures walks { IfOk result (λ v. WalksTo V.serves V.has_key V.made V.shows (O.setting out.now) Int v (λ m. right_operand (node_of (view_expression e.now)) (meaning_in (O.setting out.now) (O.under out.now m) (view_expression e.now))) (entered_events (view_expression e.now) (expression_events (O.setting out.now) (view_expression e.now)).value) values.old values.new state.old state.new) }
    ensures cost { OnOk result (Costs V.cost (length (O.setting out.now).kept) ((spent_value (O.setting out.now) (view_expression e.now)) + 10 * width_of (kind_in (O.setting out.now).typing (view_expression e.now))) values.old values.new (length state.old.cells.items) (length state.new.cells.items)) }
{
    enter(values, node_of(e), state)?;
    let n = value(out, e, values, state)?;
    let test = is_true(values, out.kind_at(node_of(e)), n)?;
    Ok(test)
}

// The right operand of `&&` and of `||` where a test is true, else another value.
#[cycle(expression)]
fn right_behind<O: WalkSetting, V: Values>(
    out: &O,
    e: &Expr,
    test: V::Value,
    other: V::Value,
    values: &mut V,
    state: &mut WalkState<V::Value>,
) -> Result<V::Value, NoMemory>
    requires test { V.made values.old Int test }
    requires other { V.made values.old Int other }
    requires kinded { Kinded (O.setting out.now) (view_expression e.now) }
    requires ready { IsReady V.has_key V.made (O.kinds out.now) (O.setting out.now) values.old state.old }
    ensures walks { IfOk result (λ v. (d : Bool) (o : ℤ) → WalksBehind V.serves V.has_key V.made V.shows (O.setting out.now) (λ m. V.shows values.old m Int test (bit d) × V.shows values.old m Int other o) Int v (λ m r i. if d then right_operand (node_of (view_expression e.now)) (meaning_in (O.setting out.now) (O.under out.now m) (view_expression e.now)) r i else gives o r i) (entered_events (view_expression e.now) (expression_events (O.setting out.now) (view_expression e.now)).value) values.old values.new state.old state.new) }
    ensures cost { OnOk result (Costs V.cost (length (O.setting out.now).kept) (6 + ((spent_value (O.setting out.now) (view_expression e.now)) + 10 * width_of (kind_in (O.setting out.now).typing (view_expression e.now))) + 3 + 96) values.old values.new (length state.old.cells.items) (length state.new.cells.items)) }
{
    let (first, second) = parted(values, state.guard, test)?;
    state.guard = first;
    let right = right_operand(out, e, values, state)?;
    let end = either(values, second, state.guard)?;
    state.guard = end;
    let found = values.choose(test, IntKind::Int, right, other)?;
    Ok(found)
}

// A branch of `?:`, which is entered, converted to the type of the whole.
#[cycle(expression)]
fn branch<O: WalkSetting, V: Values>(
    out: &O,
    k: u32,
    e: &Expr,
    values: &mut V,
    state: &mut WalkState<V::Value>,
) -> Result<V::Value, NoMemory>
    requires kinded { Kinded (O.setting out.now) (view_expression e.now) }
    requires ready { IsReady V.has_key V.made (O.kinds out.now) (O.setting out.now) values.old state.old }
    ensures walks { IfOk result (λ v. WalksTo V.serves V.has_key V.made V.shows (O.setting out.now) (number_kind ((O.setting out.now).typing.type_at k)) v (λ m. branch_value ((O.setting out.now).typing.type_at k) (node_of (view_expression e.now)) (meaning_in (O.setting out.now) (O.under out.now m) (view_expression e.now))) (entered_events (view_expression e.now) (expression_events (O.setting out.now) (view_expression e.now)).value) values.old values.new state.old state.new) }
    ensures cost { OnOk result (Costs V.cost (length (O.setting out.now).kept) ((spent_value (O.setting out.now) (view_expression e.now)) + convert_charge (kind_in (O.setting out.now).typing (view_expression e.now)) (kind_at (O.setting out.now).typing k)) values.old values.new (length state.old.cells.items) (length state.new.cells.items)) }
{
    enter(values, node_of(e), state)?;
    let n = value(out, e, values, state)?;
    let found = converted(values, out.kind_at(node_of(e)), out.kind_at(k), n)?;
    Ok(found)
}

// The rest of `?:` behind its test: both branches, each under its guard.
#[cycle(expression)]
fn choice<O: WalkSetting, V: Values>(
    out: &O,
    k: u32,
    test: V::Value,
    b: &Expr,
    c: &Expr,
    values: &mut V,
    state: &mut WalkState<V::Value>,
) -> Result<V::Value, NoMemory>
    requires test { V.made values.old Int test }
    requires first { Kinded (O.setting out.now) (view_expression b.now) }
    requires second { Kinded (O.setting out.now) (view_expression c.now) }
    requires ready { IsReady V.has_key V.made (O.kinds out.now) (O.setting out.now) values.old state.old }
    ensures walks { IfOk result (λ v. (d : Bool) → WalksBehind V.serves V.has_key V.made V.shows (O.setting out.now) (λ m. V.shows values.old m Int test (bit d)) (number_kind ((O.setting out.now).typing.type_at k)) v (λ m r i. if d then branch_value ((O.setting out.now).typing.type_at k) (node_of (view_expression b.now)) (meaning_in (O.setting out.now) (O.under out.now m) (view_expression b.now)) r i else branch_value ((O.setting out.now).typing.type_at k) (node_of (view_expression c.now)) (meaning_in (O.setting out.now) (O.under out.now m) (view_expression c.now)) r i) (entered_events (view_expression b.now) (expression_events (O.setting out.now) (view_expression b.now)).value ++ entered_events (view_expression c.now) (expression_events (O.setting out.now) (view_expression c.now)).value) values.old values.new state.old state.new) }
    ensures cost { OnOk result (Costs V.cost (length (O.setting out.now).kept) (6 + ((spent_value (O.setting out.now) (view_expression b.now)) + convert_charge (kind_in (O.setting out.now).typing (view_expression b.now)) (kind_at (O.setting out.now).typing k)) + ((spent_value (O.setting out.now) (view_expression c.now)) + convert_charge (kind_in (O.setting out.now).typing (view_expression c.now)) (kind_at (O.setting out.now).typing k)) + 3 + 3 * width_of (kind_at (O.setting out.now).typing k)) values.old values.new (length state.old.cells.items) (length state.new.cells.items)) }
{
    let (first, second) = parted(values, state.guard, test)?;
    state.guard = first;
    let x = branch(out, k, b, values, state)?;
    let first_end = state.guard;
    state.guard = second;
    let y = branch(out, k, c, values, state)?;
    let end = either(values, first_end, state.guard)?;
    state.guard = end;
    let found = values.choose(test, out.kind_at(k), x, y)?;
    Ok(found)
}

// The value of a binary operator (C11 6.5.5 to 6.5.14, 6.5.17).
#[cycle(expression)]
fn binary_value<O: WalkSetting, V: Values>(
    out: &O,
    k: u32,
    op: BinaryOp,
    a: &Expr,
    b: &Expr,
    values: &mut V,
    state: &mut WalkState<V::Value>,
) -> Result<V::Value, NoMemory>
    requires kind { BinaryHasKind (O.setting out.now).typing k (sort_of op) (view_expression a.now) (view_expression b.now) }
    requires first { Kinded (O.setting out.now) (view_expression a.now) }
    requires second { Kinded (O.setting out.now) (view_expression b.now) }
    requires ready { IsReady V.has_key V.made (O.kinds out.now) (O.setting out.now) values.old state.old }
    ensures walks { IfOk result (λ v. WalksTo V.serves V.has_key V.made V.shows (O.setting out.now) (number_kind ((O.setting out.now).typing.type_at k)) v (λ m. (binary_meaning (O.setting out.now) k op (view_expression a.now) (view_expression b.now) (sort_of op) (meaning_in (O.setting out.now) (O.under out.now m) (view_expression a.now)) (meaning_in (O.setting out.now) (O.under out.now m) (view_expression b.now))).value) (binary_events (O.setting out.now) k op (view_expression a.now) (view_expression b.now) (sort_of op) (expression_events (O.setting out.now) (view_expression a.now)) (expression_events (O.setting out.now) (view_expression b.now))) values.old values.new state.old state.new) }
    ensures cost { OnOk result (Costs V.cost (length (O.setting out.now).kept) ((spent_value (O.setting out.now) (view_expression a.now)) + (spent_value (O.setting out.now) (view_expression b.now)) + binary_spent (O.setting out.now).typing (view_expression a.now) (view_expression b.now) (sort_of op)) values.old values.new (length state.old.cells.items) (length state.new.cells.items)) }
{
    match sort_of(op) {
        BinarySort::Operates(Operator::Comparing(how)) => {
            compared_value(out, k, how, a, b, values, state)
        }
        BinarySort::Operates(Operator::Arithmetic(how)) => {
            let how = Operator::Arithmetic(how);
            let found = operator_sides(out, k, op, how, a, b, values, state)?;
            Ok(found.number)
        }
        BinarySort::Operates(Operator::Shifting(how)) => {
            let how = Operator::Shifting(how);
            let found = operator_sides(out, k, op, how, a, b, values, state)?;
            Ok(found.number)
        }
        BinarySort::Joins => {
            let _left = value(out, a, values, state)?;
            let found = value(out, b, values, state)?;
            Ok(found)
        }
        BinarySort::OrElse => or_else(out, a, b, values, state),
        BinarySort::AndAlso => and_also(out, a, b, values, state),
    }
}

// The value of a comparison.
#[cycle(expression)]
fn compared_value<O: WalkSetting, V: Values>(
    out: &O,
    k: u32,
    how: CompareOp,
    a: &Expr,
    b: &Expr,
    values: &mut V,
    state: &mut WalkState<V::Value>,
) -> Result<V::Value, NoMemory>
    requires first { Kinded (O.setting out.now) (view_expression a.now) }
    requires second { Kinded (O.setting out.now) (view_expression b.now) }
    requires ready { IsReady V.has_key V.made (O.kinds out.now) (O.setting out.now) values.old state.old }
    ensures walks { IfOk result (λ v. WalksTo V.serves V.has_key V.made V.shows (O.setting out.now) Int v (λ m. comparison_value (O.setting out.now) k how (operation_of (O.setting out.now).typing (comparing how) (type_in (O.setting out.now).typing (view_expression a.now)) (type_in (O.setting out.now).typing (view_expression b.now))) (replacement (O.setting out.now).typing (view_expression a.now) (view_expression b.now)) (meaning_in (O.setting out.now) (O.under out.now m) (view_expression a.now)) (meaning_in (O.setting out.now) (O.under out.now m) (view_expression b.now))) ((expression_events (O.setting out.now) (view_expression a.now)).value ++ ((expression_events (O.setting out.now) (view_expression b.now)).value ++ seen_events k (replacement (O.setting out.now).typing (view_expression a.now) (view_expression b.now)))) values.old values.new state.old state.new) }
    ensures cost { OnOk result (Costs V.cost (length (O.setting out.now).kept) ((spent_value (O.setting out.now) (view_expression a.now)) + (spent_value (O.setting out.now) (view_expression b.now)) + compared_spent (operation_of (O.setting out.now).typing (comparing how) (type_in (O.setting out.now).typing (view_expression a.now)) (type_in (O.setting out.now).typing (view_expression b.now))) (kind_in (O.setting out.now).typing (view_expression a.now)) (kind_in (O.setting out.now).typing (view_expression b.now)) (replacement (O.setting out.now).typing (view_expression a.now) (view_expression b.now))) values.old values.new (length state.old.cells.items) (length state.new.cells.items)) }
{
    let x = sides(out, a, values, state)?;
    let y = sides(out, b, values, state)?;
    let found = compared_number(out, k, how, a, b, (x, y), values, state)?;
    Ok(found)
}

// The value of `a || b`.
#[cycle(expression)]
fn or_else<O: WalkSetting, V: Values>(
    out: &O,
    a: &Expr,
    b: &Expr,
    values: &mut V,
    state: &mut WalkState<V::Value>,
) -> Result<V::Value, NoMemory>
    requires first { Kinded (O.setting out.now) (view_expression a.now) }
    requires second { Kinded (O.setting out.now) (view_expression b.now) }
    requires ready { IsReady V.has_key V.made (O.kinds out.now) (O.setting out.now) values.old state.old }
    ensures walks { IfOk result (λ v. WalksTo V.serves V.has_key V.made V.shows (O.setting out.now) Int v (λ m. or_value (view_expression a.now) (node_of (view_expression b.now)) (meaning_in (O.setting out.now) (O.under out.now m) (view_expression a.now)) (meaning_in (O.setting out.now) (O.under out.now m) (view_expression b.now))) (tested_events (O.setting out.now) (view_expression a.now) ++ entered_events (view_expression b.now) (expression_events (O.setting out.now) (view_expression b.now)).value) values.old values.new state.old state.new) }
    ensures cost { OnOk result (Costs V.cost (length (O.setting out.now).kept) ((spent_value (O.setting out.now) (view_expression a.now)) + (spent_value (O.setting out.now) (view_expression b.now)) + joined_spent (kind_in (O.setting out.now).typing (view_expression a.now)) (kind_in (O.setting out.now).typing (view_expression b.now))) values.old values.new (length state.old.cells.items) (length state.new.cells.items)) }
{
    let test = tested(out, a, values, state)?;
    let one = values.constant(IntKind::Int, 1)?;
    let opposite = values.opposite(test)?;
    let found = right_behind(out, b, opposite, one, values, state)?;
    Ok(found)
}

// The value of `a && b`.
#[cycle(expression)]
fn and_also<O: WalkSetting, V: Values>(
    out: &O,
    a: &Expr,
    b: &Expr,
    values: &mut V,
    state: &mut WalkState<V::Value>,
) -> Result<V::Value, NoMemory>
    requires first { Kinded (O.setting out.now) (view_expression a.now) }
    requires second { Kinded (O.setting out.now) (view_expression b.now) }
    requires ready { IsReady V.has_key V.made (O.kinds out.now) (O.setting out.now) values.old state.old }
    ensures walks { IfOk result (λ v. WalksTo V.serves V.has_key V.made V.shows (O.setting out.now) Int v (λ m. and_value (view_expression a.now) (node_of (view_expression b.now)) (meaning_in (O.setting out.now) (O.under out.now m) (view_expression a.now)) (meaning_in (O.setting out.now) (O.under out.now m) (view_expression b.now))) (tested_events (O.setting out.now) (view_expression a.now) ++ entered_events (view_expression b.now) (expression_events (O.setting out.now) (view_expression b.now)).value) values.old values.new state.old state.new) }
    ensures cost { OnOk result (Costs V.cost (length (O.setting out.now).kept) ((spent_value (O.setting out.now) (view_expression a.now)) + (spent_value (O.setting out.now) (view_expression b.now)) + joined_spent (kind_in (O.setting out.now).typing (view_expression a.now)) (kind_in (O.setting out.now).typing (view_expression b.now))) values.old values.new (length state.old.cells.items) (length state.new.cells.items)) }
{
    let test = tested(out, a, values, state)?;
    let none = zero(values, IntKind::Int)?;
    let found = right_behind(out, b, test, none, values, state)?;
    Ok(found)
}

// An operator on two numbers as a side of a comparison.
#[cycle(expression)]
fn operator_sides<O: WalkSetting, V: Values>(
    out: &O,
    k: u32,
    op: BinaryOp,
    how: Operator,
    a: &Expr,
    b: &Expr,
    values: &mut V,
    state: &mut WalkState<V::Value>,
) -> Result<Sides<V::Value>, NoMemory>
    requires sort { sort_of op ≡ operates (operator_shown how) }
    requires first { Kinded (O.setting out.now) (view_expression a.now) }
    requires second { Kinded (O.setting out.now) (view_expression b.now) }
    requires ready { IsReady V.has_key V.made (O.kinds out.now) (O.setting out.now) values.old state.old }
    ensures value { IfOk result (λ v. WalksTo V.serves V.has_key V.made V.shows (O.setting out.now) (operation_kind (operation_of (O.setting out.now).typing (operator_shown how) (type_in (O.setting out.now).typing (view_expression a.now)) (type_in (O.setting out.now).typing (view_expression b.now)))) v.number (λ m. (operator_meaning (O.setting out.now) k (s.binary op (view_expression a.now) (view_expression b.now)) (operation_of (O.setting out.now).typing (operator_shown how) (type_in (O.setting out.now).typing (view_expression a.now)) (type_in (O.setting out.now).typing (view_expression b.now))) (meaning_in (O.setting out.now) (O.under out.now m) (view_expression a.now)) (meaning_in (O.setting out.now) (O.under out.now m) (view_expression b.now))).value) ((expression_events (O.setting out.now) (view_expression a.now)).value ++ ((expression_events (O.setting out.now) (view_expression b.now)).value ++ condition_events (O.setting out.now) k true (s.binary op (view_expression a.now) (view_expression b.now)))) values.old values.new state.old state.new) }
    ensures sides { IfOk result (λ v. WalksToSides V.serves V.has_key V.made V.shows (O.setting out.now) (operation_kind (operation_of (O.setting out.now).typing (operator_shown how) (type_in (O.setting out.now).typing (view_expression a.now)) (type_in (O.setting out.now).typing (view_expression b.now)))) v (λ m. operator_sides (O.setting out.now) k (s.binary op (view_expression a.now) (view_expression b.now)) (operation_of (O.setting out.now).typing (operator_shown how) (type_in (O.setting out.now).typing (view_expression a.now)) (type_in (O.setting out.now).typing (view_expression b.now))) (meaning_in (O.setting out.now) (O.under out.now m) (view_expression a.now)) (meaning_in (O.setting out.now) (O.under out.now m) (view_expression b.now))) ((expression_events (O.setting out.now) (view_expression a.now)).value ++ ((expression_events (O.setting out.now) (view_expression b.now)).value ++ condition_events (O.setting out.now) k true (s.binary op (view_expression a.now) (view_expression b.now)))) values.old values.new state.old state.new) }
    ensures cost { OnOk result (Costs V.cost (length (O.setting out.now).kept) ((spent_value (O.setting out.now) (view_expression a.now)) + (spent_value (O.setting out.now) (view_expression b.now)) + operator_spent (operation_of (O.setting out.now).typing (operator_shown how) (type_in (O.setting out.now).typing (view_expression a.now)) (type_in (O.setting out.now).typing (view_expression b.now))) (kind_in (O.setting out.now).typing (view_expression a.now)) (kind_in (O.setting out.now).typing (view_expression b.now))) values.old values.new (length state.old.cells.items) (length state.new.cells.items)) }
{
    let x = value(out, a, values, state)?;
    let y = value(out, b, values, state)?;
    let left = Operand {
        kind: out.kind_at(node_of(a)),
        value: x,
    };
    let right = Operand {
        kind: out.kind_at(node_of(b)),
        value: y,
    };
    let operation = out.operation(how, node_of(a), node_of(b));
    let number = operated_number(out, k, operation, (left, right), values, state)?;
    Ok(Sides {
        number,
        left,
        right,
    })
}

// A binary operator as a side of a comparison.
#[cycle(expression)]
fn binary_sides<O: WalkSetting, V: Values>(
    out: &O,
    k: u32,
    op: BinaryOp,
    a: &Expr,
    b: &Expr,
    values: &mut V,
    state: &mut WalkState<V::Value>,
) -> Result<Sides<V::Value>, NoMemory>
    requires kind { BinaryHasKind (O.setting out.now).typing k (sort_of op) (view_expression a.now) (view_expression b.now) }
    requires first { Kinded (O.setting out.now) (view_expression a.now) }
    requires second { Kinded (O.setting out.now) (view_expression b.now) }
    requires ready { IsReady V.has_key V.made (O.kinds out.now) (O.setting out.now) values.old state.old }
    ensures walks { IfOk result (λ v. WalksToSides V.serves V.has_key V.made V.shows (O.setting out.now) (number_kind ((O.setting out.now).typing.type_at k)) v (λ m. (binary_meaning (O.setting out.now) k op (view_expression a.now) (view_expression b.now) (sort_of op) (meaning_in (O.setting out.now) (O.under out.now m) (view_expression a.now)) (meaning_in (O.setting out.now) (O.under out.now m) (view_expression b.now))).sides) (binary_events (O.setting out.now) k op (view_expression a.now) (view_expression b.now) (sort_of op) (expression_events (O.setting out.now) (view_expression a.now)) (expression_events (O.setting out.now) (view_expression b.now))) values.old values.new state.old state.new) }
    ensures cost { OnOk result (Costs V.cost (length (O.setting out.now).kept) ((spent_value (O.setting out.now) (view_expression a.now)) + (spent_value (O.setting out.now) (view_expression b.now)) + binary_spent (O.setting out.now).typing (view_expression a.now) (view_expression b.now) (sort_of op)) values.old values.new (length state.old.cells.items) (length state.new.cells.items)) }
{
    match sort_of(op) {
        BinarySort::Operates(Operator::Arithmetic(how)) => {
            operator_sides(out, k, op, Operator::Arithmetic(how), a, b, values, state)
        }
        BinarySort::Operates(Operator::Shifting(how)) => {
            operator_sides(out, k, op, Operator::Shifting(how), a, b, values, state)
        }
        BinarySort::Operates(Operator::Comparing(_)) => {
            let n = binary_value(out, k, op, a, b, values, state)?;
            let found = alone(values, n)?;
            Ok(found)
        }
        BinarySort::Joins => {
            let n = binary_value(out, k, op, a, b, values, state)?;
            let found = alone(values, n)?;
            Ok(found)
        }
        BinarySort::OrElse => {
            let n = binary_value(out, k, op, a, b, values, state)?;
            let found = alone(values, n)?;
            Ok(found)
        }
        BinarySort::AndAlso => {
            let n = binary_value(out, k, op, a, b, values, state)?;
            let found = alone(values, n)?;
            Ok(found)
        }
    }
}

// An expression as a side of a comparison: with the values of its operands, where it is a sum or difference.
#[cycle(expression)]
fn sides<O: WalkSetting, V: Values>(
    out: &O,
    e: &Expr,
    values: &mut V,
    state: &mut WalkState<V::Value>,
) -> Result<Sides<V::Value>, NoMemory>
    requires kinded { Kinded (O.setting out.now) (view_expression e.now) }
    requires ready { IsReady V.has_key V.made (O.kinds out.now) (O.setting out.now) values.old state.old }
    ensures walks { IfOk result (λ v. WalksToSides V.serves V.has_key V.made V.shows (O.setting out.now) (number_kind (type_in (O.setting out.now).typing (view_expression e.now))) v (λ m. (meaning_in (O.setting out.now) (O.under out.now m) (view_expression e.now)).sides) (expression_events (O.setting out.now) (view_expression e.now)).value values.old values.new state.old state.new) }
    ensures cost { OnOk result (Costs V.cost (length (O.setting out.now).kept) (spent_value (O.setting out.now) (view_expression e.now)) values.old values.new (length state.old.cells.items) (length state.new.cells.items)) }
{
    match &e.form {
        ExprForm::Paren(x) => sides(out, x.get(), values, state),
        ExprForm::Binary(op, a, b) => {
            binary_sides(out, e.node.number, *op, a.get(), b.get(), values, state)
        }
        ExprForm::Name(_)
        | ExprForm::Number(_)
        | ExprForm::Character(_)
        | ExprForm::Text(_)
        | ExprForm::Index(_, _)
        | ExprForm::Call(_, _)
        | ExprForm::Dot(_, _)
        | ExprForm::Arrow(_, _)
        | ExprForm::Step(_, _)
        | ExprForm::Unary(_, _)
        | ExprForm::SizeExpr(_)
        | ExprForm::SizeName(_)
        | ExprForm::Cast(_, _)
        | ExprForm::Choice(_, _, _)
        | ExprForm::Assign(_, _, _) => {
            let n = value(out, e, values, state)?;
            let found = alone(values, n)?;
            Ok(found)
        }
    }
}

// The value of `++` and `--` (C11 6.5.2.4, 6.5.3.1).
#[cycle(expression)]
fn stepped_value<O: WalkSetting, V: Values>(
    out: &O,
    k: u32,
    op: StepOp,
    e: &Expr,
    values: &mut V,
    state: &mut WalkState<V::Value>,
) -> Result<V::Value, NoMemory>
    requires kind { (number_kind ((O.setting out.now).typing.type_at k)) ≡ (number_kind (type_in (O.setting out.now).typing (view_expression e.now))) }
    requires stored { IsStored (O.setting out.now) (view_expression e.now) }
    requires kinded { Kinded (O.setting out.now) (view_expression e.now) }
    requires ready { IsReady V.has_key V.made (O.kinds out.now) (O.setting out.now) values.old state.old }
    ensures walks { IfOk result (λ v. WalksTo V.serves V.has_key V.made V.shows (O.setting out.now) (number_kind ((O.setting out.now).typing.type_at k)) v (λ m. step_value (O.setting out.now) (path_world (O.under out.now m)) k op (view_expression e.now) (meaning_in (O.setting out.now) (O.under out.now m) (view_expression e.now))) ((expression_events (O.setting out.now) (view_expression e.now)).place true ++ condition_events (O.setting out.now) k true (s.step op (view_expression e.now))) values.old values.new state.old state.new) }
    ensures cost { OnOk result (Costs V.cost (length (O.setting out.now).kept) ((spent_place (O.setting out.now) (view_expression e.now)) + stored_spent (O.setting out.now) (view_expression e.now) (step_operation (O.setting out.now).typing op (type_in (O.setting out.now).typing (view_expression e.now))) Int) values.old values.new (length state.old.cells.items) (length state.new.cells.items)) }
{
    let _place = place(out, e, true, values, state)?;
    let found = stepped_number(out, k, op, e, values, state)?;
    Ok(found)
}

// The value of an assignment (C11 6.5.16): the right side comes first.
#[cycle(expression)]
fn assigned_value<O: WalkSetting, V: Values>(
    out: &O,
    k: u32,
    op: AssignOp,
    a: &Expr,
    b: &Expr,
    values: &mut V,
    state: &mut WalkState<V::Value>,
) -> Result<V::Value, NoMemory>
    requires kind { (number_kind ((O.setting out.now).typing.type_at k)) ≡ (number_kind (type_in (O.setting out.now).typing (view_expression a.now))) }
    requires stored { IsStored (O.setting out.now) (view_expression a.now) }
    requires first { Kinded (O.setting out.now) (view_expression a.now) }
    requires second { Kinded (O.setting out.now) (view_expression b.now) }
    requires ready { IsReady V.has_key V.made (O.kinds out.now) (O.setting out.now) values.old state.old }
    ensures walks { IfOk result (λ v. WalksTo V.serves V.has_key V.made V.shows (O.setting out.now) (number_kind ((O.setting out.now).typing.type_at k)) v (λ m. assigned_value (O.setting out.now) (path_world (O.under out.now m)) k op (view_expression a.now) (view_expression b.now) (assigned_operator op) (meaning_in (O.setting out.now) (O.under out.now m) (view_expression a.now)) (meaning_in (O.setting out.now) (O.under out.now m) (view_expression b.now))) (assigned_events (O.setting out.now) k (s.assign op (view_expression a.now) (view_expression b.now)) (assigned_operator op) (expression_events (O.setting out.now) (view_expression a.now)) (expression_events (O.setting out.now) (view_expression b.now))) values.old values.new state.old state.new) }
    ensures cost { OnOk result (Costs V.cost (length (O.setting out.now).kept) ((spent_value (O.setting out.now) (view_expression b.now)) + (spent_place (O.setting out.now) (view_expression a.now)) + assigned_spent (O.setting out.now) (view_expression a.now) (view_expression b.now) (assigned_operator op)) values.old values.new (length state.old.cells.items) (length state.new.cells.items)) }
{
    let value = value(out, b, values, state)?;
    let _place = place(out, a, true, values, state)?;
    let kind = out.kind_at(node_of(b));
    let right = Operand { kind, value };
    match assigned_operator(op) {
        None => {
            let found = assigned_number(out, k, a, right, values, state)?;
            Ok(found)
        }
        Some(how) => {
            let operation = out.operation(how, node_of(a), node_of(b));
            let found = compound_number(out, k, operation, a, right, values, state)?;
            Ok(found)
        }
    }
}

// The value of a call.
#[cycle(expression)]
fn call_value<O: WalkSetting, V: Values>(
    out: &O,
    k: u32,
    callee: &Expr,
    list: &[Expr],
    values: &mut V,
    state: &mut WalkState<V::Value>,
) -> Result<V::Value, NoMemory>
    requires kind { (number_kind ((O.setting out.now).typing.type_at k)) ≡ number_kind (result_in (called_signature (O.setting out.now).typing (view_expression callee.now))) }
    requires kinded { KindedAll (O.setting out.now) (expressions (map view_expression list.now)) }
    requires ready { IsReady V.has_key V.made (O.kinds out.now) (O.setting out.now) values.old state.old }
    ensures walks { IfOk result (λ v. WalksTo V.serves V.has_key V.made V.shows (O.setting out.now) (number_kind ((O.setting out.now).typing.type_at k)) v (λ m. call_value (O.setting out.now) (path_world (O.under out.now m)) k (view_expression callee.now) (expressions (map view_expression list.now)) (arguments_values (O.setting out.now) (path_world (O.under out.now m)) (parameters_in (called_signature (O.setting out.now).typing (view_expression callee.now))) (expressions (map view_expression list.now)))) (argument_events (O.setting out.now) (expressions (map view_expression list.now)) ++ condition_events (O.setting out.now) k true (s.call (view_expression callee.now) (expressions (map view_expression list.now)))) values.old values.new state.old state.new) }
    ensures cost { OnOk result (Costs V.cost (length (O.setting out.now).kept) (arguments_spent (O.setting out.now) (called_library (O.setting out.now).typing (view_expression callee.now)) (expressions (map view_expression list.now)) + call_charge (length (O.setting out.now).kept) (called_library (O.setting out.now).typing (view_expression callee.now))) values.old values.new (length state.old.cells.items) (length state.new.cells.items)) }
{
    let library = out.library(callee);
    let found = arguments(out, library, list, values, state)?;
    let number = called_number(out, k, callee, library, found, values, state)?;
    Ok(number)
}

// The arguments of a call, in order.
#[cycle(expression)]
fn arguments<O: WalkSetting, V: Values>(
    out: &O,
    library: Option<Library>,
    list: &[Expr],
    values: &mut V,
    state: &mut WalkState<V::Value>,
) -> Result<Arguments<V::Value>, NoMemory>
    requires kinded { KindedAll (O.setting out.now) (expressions (map view_expression list.now)) }
    requires ready { IsReady V.has_key V.made (O.kinds out.now) (O.setting out.now) values.old state.old }
    ensures walks { IfOk result (λ v. (ts : TypeTrees) → Takes (option_map library_shown library) ts → Walks V.serves V.has_key V.made V.shows (O.setting out.now) (λ m. Unit {0}) (λ c. ArgumentsMade (V.made c) (option_map library_shown library) v) (λ c m xs. ArgumentsShow (V.shows c m) (option_map library_shown library) v xs) (λ m. arguments_values (O.setting out.now) (path_world (O.under out.now m)) ts (expressions (map view_expression list.now))) (argument_events (O.setting out.now) (expressions (map view_expression list.now))) values.old values.new state.old state.new) }
    ensures cost { OnOk result (Costs V.cost (length (O.setting out.now).kept) (arguments_spent (O.setting out.now) (option_map library_shown library) (expressions (map view_expression list.now))) values.old values.new (length state.old.cells.items) (length state.new.cells.items)) }
{
    let mut found = no_arguments(library, values)?;
    for e in list {
        let value = value(out, e, values, state)?;
        let kind = out.kind_at(node_of(e));
        let more = passed(library, found, Operand { kind, value }, values)?;
        found = more;
    }
    Ok(found)
}

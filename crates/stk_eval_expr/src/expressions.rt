//! Expressions.
#![tactic(auto, using(crate::proofs::LeavingLaws::value_leaves, crate::proofs::LeavingLaws::stops_leave))]

ghost use Rattle.std.specs.Prelude.{◌≡◌, IfOk, true, false, pos, map};
ghost use Rattle.stk_ctype.specs.Types.{type_of, row_of};
ghost use Rattle.stk_tree.specs.View.{view_expression, expressions};
ghost use Rattle.stk_meaning.specs.Typings.{node_of, type_in};
ghost use Rattle.stk_meaning.specs.Operations.{sort_of, operates, operation_of, assigned_operator};
ghost use Rattle.stk_meaning.specs.Places.{target_of};
ghost use Rattle.stk_meaning.specs.Expressions.{meaning, own_number, indexed_from, place_value, right_operand, branch_value, unary_meaning, binary_meaning, operator_sides, assigned_value, arguments_values, passed, later_parameters};
ghost use Rattle.stk_operators.specs.Shown.{operator_shown};
ghost use Rattle.stk_tree.specs.Syntax as s;
ghost use Rattle.stk_eval_expr.specs.Shown.{sides_shown};
ghost use Rattle.stk_eval_expr.specs.Leaving.{Leaves, Stops, from, value_run, place_run, sides_run, test_run};

use crate::state::{Sides, State};
use crate::steps::{
    arrow_place, assigned_number, called_number, compared_number, compound_number, indexed_place,
    member_place, named_place, negated_number, node_of, operated_number, place_number, see,
    stepped_number, target_of, target_place,
};
use crate::world::World;
use stk_base::NoMemory;
use stk_ctype::CType;
use stk_meaning::Entry;
use stk_numbers::promote;
use stk_operators::{
    BinarySort, Operator, Target, Word, assigned_operator, converted, flipped, sort_of,
};
use stk_tree::{AssignOp, BinaryOp, Expr, ExprForm, UnaryOp};

/// The value of an expression.
#[cycle(expression)]
pub fn value<W: World>(out: &W, e: &Expr, state: &mut State<W::Kept>) -> Result<Word, NoMemory>
    ensures { IfOk result (λ v. Leaves W.shown (value_run W.shown (W.setting out.now) (W.world out.now) (view_expression e.now) state.old) v state.old state.new) }
{
    let k = e.node.number;
    match &e.form {
        ExprForm::Name(_) => match out.own_number(k) {
            Some(n) => Ok(n),
            None => place_value(out, e, state),
        },
        ExprForm::Text(_) => place_value(out, e, state),
        ExprForm::Index(_, _) => place_value(out, e, state),
        ExprForm::Dot(_, _) => place_value(out, e, state),
        ExprForm::Arrow(_, _) => place_value(out, e, state),
        ExprForm::Number(_) => Ok(own_number(out, k)),
        ExprForm::Character(_) => Ok(own_number(out, k)),
        ExprForm::SizeExpr(_) => Ok(own_number(out, k)),
        ExprForm::SizeName(_) => Ok(own_number(out, k)),
        ExprForm::Paren(x) => value(out, x.get(), state),
        ExprForm::Unary(op, x) => unary_value(out, k, *op, x.get(), state),
        ExprForm::Cast(_, x) => {
            let n = value(out, x.get(), state)?;
            Ok(n.to_kind(out.kind_at(k)))
        }
        ExprForm::Step(op, x) => {
            let x = x.get();
            let address = place(out, x, true, state)?;
            let n = stepped_number(out, k, *op, x, address, state)?;
            Ok(n)
        }
        ExprForm::Binary(op, a, b) => binary_value(out, k, *op, a.get(), b.get(), state),
        ExprForm::Assign(op, a, b) => assigned_value(out, k, *op, a.get(), b.get(), state),
        ExprForm::Choice(a, b, c) => {
            let n = tested(out, a.get(), state)?;
            if n.is_true() {
                branch(out, k, b.get(), state)
            } else {
                branch(out, k, c.get(), state)
            }
        }
        ExprForm::Call(f, list) => {
            let params = out.parameters(f.get());
            let numbers = arguments(out, list.as_slice(), params, state)?;
            let n = called_number(out, k, f.get(), numbers.as_slice(), state)?;
            Ok(n)
        }
    }
}

// The number that a node has by itself; 0 where it has none.
fn own_number<W: World>(out: &W, node: u32) -> Word
    ensures { (state : State W.Kept) → Leaves W.shown (from W.shown ((own_number (W.setting out.now) node).value) state) result state state }
{
    match out.own_number(node) {
        Some(n) => n,
        None => Word::bit(false),
    }
}

// The value of a place: of an array its address, else its number.
#[cycle(expression)]
fn place_value<W: World>(out: &W, e: &Expr, state: &mut State<W::Kept>) -> Result<Word, NoMemory>
    ensures { IfOk result (λ v. Leaves W.shown (from W.shown (place_value (W.world out.now) (target_of (W.setting out.now) (view_expression e.now)) (node_of (view_expression e.now)) (type_in (W.setting out.now).typing (view_expression e.now)) (meaning (W.setting out.now) (W.world out.now) (view_expression e.now)).place) state.old) v state.old state.new) }
{
    let k = node_of(e);
    let address = place(out, e, !out.is_array_at(k), state)?;
    Ok(place_number(out, k, target_of(out, e), address, state))
}

/// The address of a place, which is accessed or not. What is no place has none.
#[cycle(expression)]
pub(crate) fn place<W: World>(
    out: &W,
    e: &Expr,
    accessed: bool,
    state: &mut State<W::Kept>,
) -> Result<u64, NoMemory>
    ensures { IfOk result (λ v. Leaves W.shown (place_run W.shown (W.setting out.now) (W.world out.now) (view_expression e.now) accessed state.old) v state.old state.new) }
{
    let k = e.node.number;
    match &e.form {
        ExprForm::Name(name) => Ok(named_place(out, k, *name, state)),
        ExprForm::Text(_) => Ok(out.address(k)),
        ExprForm::Paren(x) => place(out, x.get(), accessed, state),
        ExprForm::Dot(x, name) => {
            let x = x.get();
            let address = place(out, x, accessed, state)?;
            Ok(member_place(out, node_of(x), *name, address))
        }
        ExprForm::Arrow(x, name) => {
            let x = x.get();
            let n = value(out, x, state)?;
            let address = arrow_place(out, k, accessed, x, *name, n, state)?;
            Ok(address)
        }
        ExprForm::Index(a, b) => {
            let a = a.get();
            let x = indexed(out, accessed, a, state)?;
            let y = value(out, b.get(), state)?;
            let address = indexed_place(out, k, accessed, a, (x, y), state)?;
            Ok(address)
        }
        ExprForm::Unary(op, x) => unary_place(out, k, accessed, *op, x.get(), state),
        ExprForm::Number(_)
        | ExprForm::Character(_)
        | ExprForm::Call(_, _)
        | ExprForm::Step(_, _)
        | ExprForm::SizeExpr(_)
        | ExprForm::SizeName(_)
        | ExprForm::Cast(_, _)
        | ExprForm::Binary(_, _, _)
        | ExprForm::Choice(_, _, _)
        | ExprForm::Assign(_, _, _) => Ok(no_place(state)),
    }
}

// What is no place: the run ends.
fn no_place<K>(state: &mut State<K>) -> u64
    ensures { Stops state.old state.new }
{
    state.end();
    0
}

// What stands before `[e]`: the address of an array, or the number of a pointer.
#[cycle(expression)]
fn indexed<W: World>(
    out: &W,
    accessed: bool,
    e: &Expr,
    state: &mut State<W::Kept>,
) -> Result<Word, NoMemory>
    ensures { IfOk result (λ v. Leaves W.shown (from W.shown (indexed_from (type_in (W.setting out.now).typing (view_expression e.now)) accessed (meaning (W.setting out.now) (W.world out.now) (view_expression e.now))) state.old) v state.old state.new) }
{
    if out.is_array_at(node_of(e)) {
        let address = place(out, e, accessed, state)?;
        Ok(Word::address(address))
    } else {
        value(out, e, state)
    }
}

// The address of a unary operator as a place: of `*`.
#[cycle(expression)]
fn unary_place<W: World>(
    out: &W,
    k: u32,
    accessed: bool,
    op: UnaryOp,
    e: &Expr,
    state: &mut State<W::Kept>,
) -> Result<u64, NoMemory>
    ensures { IfOk result (λ v. Leaves W.shown (from W.shown ((unary_meaning (W.setting out.now) (W.world out.now) k op (view_expression e.now) (meaning (W.setting out.now) (W.world out.now) (view_expression e.now))).place accessed) state.old) v state.old state.new) }
{
    match op {
        UnaryOp::Deref => {
            let n = value(out, e, state)?;
            let address = target_place(out, k, accessed, n, state)?;
            Ok(address)
        }
        UnaryOp::Address => Ok(no_place(state)),
        UnaryOp::Plus => Ok(no_place(state)),
        UnaryOp::Minus => Ok(no_place(state)),
        UnaryOp::Flip => Ok(no_place(state)),
        UnaryOp::Not => Ok(no_place(state)),
    }
}

// The value of a unary operator (C11 6.5.3).
#[cycle(expression)]
fn unary_value<W: World>(
    out: &W,
    k: u32,
    op: UnaryOp,
    e: &Expr,
    state: &mut State<W::Kept>,
) -> Result<Word, NoMemory>
    ensures { IfOk result (λ v. Leaves W.shown (from W.shown (unary_meaning (W.setting out.now) (W.world out.now) k op (view_expression e.now) (meaning (W.setting out.now) (W.world out.now) (view_expression e.now))).value state.old) v state.old state.new) }
{
    match op {
        UnaryOp::Address => {
            let address = place(out, e, false, state)?;
            Ok(Word::address(address))
        }
        UnaryOp::Deref => {
            let n = value(out, e, state)?;
            let address = target_place(out, k, !out.is_array_at(k), n, state)?;
            Ok(place_number(out, k, Target::Unnamed, address, state))
        }
        UnaryOp::Plus => {
            let n = value(out, e, state)?;
            Ok(n.to_kind(out.kind_at(k)))
        }
        UnaryOp::Minus => {
            let n = value(out, e, state)?;
            let n = negated_number(out, k, e, n, state)?;
            Ok(n)
        }
        UnaryOp::Flip => {
            let n = value(out, e, state)?;
            Ok(flipped(promote(out.kind_at(node_of(e))), n))
        }
        UnaryOp::Not => {
            let n = value(out, e, state)?;
            Ok(Word::bit(!n.is_true()))
        }
    }
}

// An expression as a controlling one: it is seen without its parentheses.
#[cycle(expression)]
pub fn tested<W: World>(out: &W, e: &Expr, state: &mut State<W::Kept>) -> Result<Word, NoMemory>
    ensures { IfOk result (λ v. Leaves W.shown (test_run W.shown (W.setting out.now) (W.world out.now) (view_expression e.now) state.old) v state.old state.new) }
{
    let n = value(out, e, state)?;
    see(e, n, state)?;
    Ok(n)
}

// The right operand of `&&` and of `||`, which is entered.
#[cycle(expression)]
fn right_operand<W: World>(out: &W, e: &Expr, state: &mut State<W::Kept>) -> Result<Word, NoMemory>
    ensures { IfOk result (λ v. Leaves W.shown (from W.shown (right_operand (node_of (view_expression e.now)) (meaning (W.setting out.now) (W.world out.now) (view_expression e.now))) state.old) v state.old state.new) }
{
    state.push(Entry::Enter(node_of(e)))?;
    let n = value(out, e, state)?;
    Ok(Word::bit(n.is_true()))
}

// A branch of `?:`, which is entered, converted to the type of the whole.
#[cycle(expression)]
fn branch<W: World>(out: &W, k: u32, e: &Expr, state: &mut State<W::Kept>) -> Result<Word, NoMemory>
    ensures { IfOk result (λ v. Leaves W.shown (from W.shown (branch_value ((W.setting out.now).typing.type_at k) (node_of (view_expression e.now)) (meaning (W.setting out.now) (W.world out.now) (view_expression e.now))) state.old) v state.old state.new) }
{
    state.push(Entry::Enter(node_of(e)))?;
    let n = value(out, e, state)?;
    Ok(n.to_kind(out.kind_at(k)))
}

// The value of a binary operator (C11 6.5.5 to 6.5.14, 6.5.17).
#[cycle(expression)]
fn binary_value<W: World>(
    out: &W,
    k: u32,
    op: BinaryOp,
    a: &Expr,
    b: &Expr,
    state: &mut State<W::Kept>,
) -> Result<Word, NoMemory>
    ensures { IfOk result (λ v. Leaves W.shown (from W.shown (binary_meaning (W.setting out.now) k op (view_expression a.now) (view_expression b.now) (sort_of op) (meaning (W.setting out.now) (W.world out.now) (view_expression a.now)) (meaning (W.setting out.now) (W.world out.now) (view_expression b.now))).value state.old) v state.old state.new) }
{
    match sort_of(op) {
        BinarySort::Operates(Operator::Comparing(how)) => {
            let x = sides(out, a, state)?;
            let y = sides(out, b, state)?;
            let n = compared_number(out, k, how, a, b, (x, y), state)?;
            Ok(n)
        }
        BinarySort::Operates(Operator::Arithmetic(how)) => {
            let how = Operator::Arithmetic(how);
            let found = operator_sides(out, k, op, how, a, b, state)?;
            Ok(found.number)
        }
        BinarySort::Operates(Operator::Shifting(how)) => {
            let how = Operator::Shifting(how);
            let found = operator_sides(out, k, op, how, a, b, state)?;
            Ok(found.number)
        }
        BinarySort::Joins => {
            let _left = value(out, a, state)?;
            value(out, b, state)
        }
        BinarySort::OrElse => {
            let n = tested(out, a, state)?;
            if n.is_true() {
                Ok(Word::bit(true))
            } else {
                right_operand(out, b, state)
            }
        }
        BinarySort::AndAlso => {
            let n = tested(out, a, state)?;
            if n.is_true() {
                right_operand(out, b, state)
            } else {
                Ok(Word::bit(false))
            }
        }
    }
}

// An operator on two numbers as a side of a comparison.
#[cycle(expression)]
fn operator_sides<W: World>(
    out: &W,
    k: u32,
    op: BinaryOp,
    how: Operator,
    a: &Expr,
    b: &Expr,
    state: &mut State<W::Kept>,
) -> Result<Sides, NoMemory>
    requires { sort_of op ≡ operates (operator_shown how) }
    ensures { IfOk result (λ v. let ty = (W.setting out.now).typing in let x = view_expression a.now in let y = view_expression b.now in Leaves W.shown (from W.shown (operator_sides (W.setting out.now) k (s.binary op x y) (operation_of ty (operator_shown how) (type_in ty x) (type_in ty y)) (meaning (W.setting out.now) (W.world out.now) x) (meaning (W.setting out.now) (W.world out.now) y)) state.old) (sides_shown v) state.old state.new) }
{
    let left = value(out, a, state)?;
    let right = value(out, b, state)?;
    let operation = out.operation(how, node_of(a), node_of(b));
    let number = operated_number(out, k, operation, (left, right), state)?;
    Ok(Sides {
        number,
        left,
        right,
    })
}

// A value as a side of a comparison.
fn alone(number: Word) -> Sides
    ensures { sides_shown result ≡ record { number = number; left = pos 0; right = pos 0 } }
{
    let zero = Word::bit(false);
    Sides {
        number,
        left: zero,
        right: zero,
    }
}

// A binary operator as a side of a comparison.
#[cycle(expression)]
fn binary_sides<W: World>(
    out: &W,
    k: u32,
    op: BinaryOp,
    a: &Expr,
    b: &Expr,
    state: &mut State<W::Kept>,
) -> Result<Sides, NoMemory>
    ensures { IfOk result (λ v. Leaves W.shown (from W.shown (binary_meaning (W.setting out.now) k op (view_expression a.now) (view_expression b.now) (sort_of op) (meaning (W.setting out.now) (W.world out.now) (view_expression a.now)) (meaning (W.setting out.now) (W.world out.now) (view_expression b.now))).sides state.old) (sides_shown v) state.old state.new) }
{
    match sort_of(op) {
        BinarySort::Operates(Operator::Arithmetic(how)) => {
            operator_sides(out, k, op, Operator::Arithmetic(how), a, b, state)
        }
        BinarySort::Operates(Operator::Shifting(how)) => {
            operator_sides(out, k, op, Operator::Shifting(how), a, b, state)
        }
        BinarySort::Operates(Operator::Comparing(_)) => {
            let n = binary_value(out, k, op, a, b, state)?;
            Ok(alone(n))
        }
        BinarySort::Joins => {
            let n = binary_value(out, k, op, a, b, state)?;
            Ok(alone(n))
        }
        BinarySort::OrElse => {
            let n = binary_value(out, k, op, a, b, state)?;
            Ok(alone(n))
        }
        BinarySort::AndAlso => {
            let n = binary_value(out, k, op, a, b, state)?;
            Ok(alone(n))
        }
    }
}

/// An expression as a side of a comparison: with the numbers of its operands, where it is a sum or difference.
#[cycle(expression)]
pub(crate) fn sides<W: World>(
    out: &W,
    e: &Expr,
    state: &mut State<W::Kept>,
) -> Result<Sides, NoMemory>
    ensures { IfOk result (λ v. Leaves W.shown (sides_run W.shown (W.setting out.now) (W.world out.now) (view_expression e.now) state.old) (sides_shown v) state.old state.new) }
{
    match &e.form {
        ExprForm::Paren(x) => sides(out, x.get(), state),
        ExprForm::Binary(op, a, b) => {
            binary_sides(out, e.node.number, *op, a.get(), b.get(), state)
        }
        ExprForm::Name(_)
        | ExprForm::Number(_)
        | ExprForm::Character(_)
        | ExprForm::Text(_)
        | ExprForm::Index(_, _)
        | ExprForm::Call(_, _)
        | ExprForm::Dot(_, _)
        | ExprForm::Arrow(_, _)
        | ExprForm::Step(_, _)
        | ExprForm::Unary(_, _)
        | ExprForm::SizeExpr(_)
        | ExprForm::SizeName(_)
        | ExprForm::Cast(_, _)
        | ExprForm::Choice(_, _, _)
        | ExprForm::Assign(_, _, _) => {
            let n = value(out, e, state)?;
            Ok(alone(n))
        }
    }
}

// The value of an assignment (C11 6.5.16): the right side comes first.
#[cycle(expression)]
fn assigned_value<W: World>(
    out: &W,
    k: u32,
    op: AssignOp,
    a: &Expr,
    b: &Expr,
    state: &mut State<W::Kept>,
) -> Result<Word, NoMemory>
    ensures { IfOk result (λ v. Leaves W.shown (from W.shown (assigned_value (W.setting out.now) (W.world out.now) k op (view_expression a.now) (view_expression b.now) (assigned_operator op) (meaning (W.setting out.now) (W.world out.now) (view_expression a.now)) (meaning (W.setting out.now) (W.world out.now) (view_expression b.now))) state.old) v state.old state.new) }
{
    let n = value(out, b, state)?;
    let address = place(out, a, true, state)?;
    match assigned_operator(op) {
        None => assigned_number(out, a, address, n, state),
        Some(how) => {
            let operation = out.operation(how, node_of(a), node_of(b));
            compound_number(out, k, operation, a, address, n, state)
        }
    }
}

// An argument converted to its parameter's type, where there is one, and the parameters behind it (C11 6.5.2.2p7).
fn passed(params: &[CType], number: Word) -> (Word, &[CType])
    ensures number { result.0 ≡ passed (row_of (map type_of params.now)) number }
    ensures behind { row_of (map type_of result.1.now) ≡ later_parameters (row_of (map type_of params.now)) }
{
    match params.split_first() {
        None => (number, params),
        Some((first, behind)) => (converted(first, number), behind),
    }
}

// The numbers of arguments, in order.
#[cycle(expression)]
fn arguments<W: World>(
    out: &W,
    list: &[Expr],
    params: &[CType],
    state: &mut State<W::Kept>,
) -> Result<Vec<Word>, NoMemory>
    ensures { IfOk result (λ v. Leaves W.shown (from W.shown (arguments_values (W.setting out.now) (W.world out.now) (row_of (map type_of params.now)) (expressions (map view_expression list.now))) state.old) v.items state.old state.new) }
{
    let mut numbers = Vec::new(state.alloc);
    let mut rest = params;
    for e in list {
        let n = value(out, e, state)?;
        let (n, behind) = passed(rest, n);
        rest = behind;
        numbers.push(n)?;
    }
    Ok(numbers)
}

//! What the forms of expressions add to the weight of their nodes, evaluated or not.

ghost use Rattle.std.specs.Prelude.{◌≡◌, ◌≤◌, ◌+◌, ◌*◌, ℕ, max, count_ones};
ghost use Rattle.std.specs.Option.{option_map};
ghost use Rattle.stk_tree.specs.View.{view_expression, view_expression_form};
ghost use Rattle.stk_function_types.specs.Nodes.{typing_in};
ghost use Rattle.stk_operators.specs.Shown.{operator_shown, operation_shown};
ghost use Rattle.stk_meaning.specs.Typings.{type_in, stride_in};
ghost use Rattle.stk_meaning.specs.Operations.{operates, operation_of, sort_of, step_operation};
ghost use Rattle.stk_meaning.specs.Weights.{bits_in, greatest_bits, operation_bits, step_weight, binary_weight, assigned_weight, form_weight};

use crate::operations::{
    bits_in, greater, move_weight, operation_bits, operation_weight, step_weight, unary_weight,
};
use stk_cands::stride_of;
use stk_ctype::CType;
use stk_function_types::FunctionTypes;
use stk_numbers::IntKind;
use stk_operators::{
    BinarySort, Operation, Operator, assigned_operator, operation_of, sort_of, step_operator,
};
use stk_tree::{BinaryOp, Expr, ExprForm, StepOp};

// The bits of the type of a node.
fn bits_at(types: &FunctionTypes, node: u32) -> u64
    ensures is { result ≡ bits_in ((typing_in types.now).type_at node) }
    ensures few { result ≤ 64 }
{
    bits_in(types.type_at(node))
}

/// The bits of the type of an expression.
pub(crate) fn bits_of(types: &FunctionTypes, e: &Expr) -> u64
    ensures is { result ≡ bits_in (type_in (typing_in types.now) (view_expression e.now)) }
    ensures few { result ≤ 64 }
{
    bits_at(types, e.node.number)
}

// The greatest of the bits of two operands and these.
fn greatest_bits(types: &FunctionTypes, a: &Expr, b: &Expr, bits: u64) -> u64
    requires { bits ≤ 64 }
    ensures is { result ≡ greatest_bits (bits_in (type_in (typing_in types.now) (view_expression a.now))) (bits_in (type_in (typing_in types.now) (view_expression b.now))) bits }
    ensures few { result ≤ 64 }
{
    greater(bits_of(types, a), greater(bits_of(types, b), bits))
}

/// What an operator does to operands of the types of two expressions.
pub(crate) fn operation_between(
    types: &FunctionTypes,
    op: Operator,
    a: &Expr,
    b: &Expr,
) -> Operation
    ensures { operation_shown result ≡ operation_of (typing_in types.now) (operator_shown op) (type_in (typing_in types.now) (view_expression a.now)) (type_in (typing_in types.now) (view_expression b.now)) }
{
    let first = types.type_at(a.node.number);
    let second = types.type_at(b.node.number);
    operation_of(
        op,
        first,
        second,
        stride_of(types, first),
        stride_of(types, second),
    )
}

// What `++` or `--` does to an operand of the type of an expression.
fn step_operation(types: &FunctionTypes, op: StepOp, e: &Expr) -> Operation
    ensures { operation_shown result ≡ step_operation (typing_in types.now) op (type_in (typing_in types.now) (view_expression e.now)) }
{
    let one = CType::Int(IntKind::Int);
    let ty = types.type_at(e.node.number);
    operation_of(
        step_operator(op),
        ty,
        &one,
        stride_of(types, ty),
        stride_of(types, &one),
    )
}

// What an operator on two numbers adds, at a node of so many bits.
fn operator_weight(types: &FunctionTypes, bits: u64, op: Operator, a: &Expr, b: &Expr) -> u64
    requires { bits ≤ 64 }
    ensures is { (k : ℕ) → bits ≡ bits_in ((typing_in types.now).type_at k) → result ≡ binary_weight (typing_in types.now) k (operates (operator_shown op)) (view_expression a.now) (view_expression b.now) }
    ensures few { result ≤ 133120 }
{
    let how = operation_between(types, op, a, b);
    let w = greater(greatest_bits(types, a, b, bits), operation_bits(&how));
    operation_weight(w, &how)
}

// What a binary operator adds to its node.
fn binary_weight(types: &FunctionTypes, node: u32, op: BinaryOp, a: &Expr, b: &Expr) -> u64
    ensures is { result ≡ binary_weight (typing_in types.now) node (sort_of op) (view_expression a.now) (view_expression b.now) }
    ensures few { result ≤ 133120 }
{
    let bits = bits_at(types, node);
    match sort_of(op) {
        BinarySort::Operates(op) => operator_weight(types, bits, op, a, b),
        BinarySort::Joins => 0,
        BinarySort::OrElse | BinarySort::AndAlso => 32 * greatest_bits(types, a, b, bits),
    }
}

// What an assignment adds: 32 a bit, and a compound one its operator too.
fn assigned_weight(types: &FunctionTypes, op: Option<Operator>, a: &Expr, b: &Expr) -> u64
    ensures is { result ≡ assigned_weight (typing_in types.now) (option_map operator_shown op) (view_expression a.now) (view_expression b.now) }
    ensures few { result ≤ 135168 }
{
    match op {
        None => 32 * greater(bits_of(types, a), bits_of(types, b)),
        Some(op) => {
            let how = operation_between(types, op, a, b);
            let w = greatest_bits(types, a, b, operation_bits(&how));
            32 * w + operation_weight(w, &how)
        }
    }
}

// What `++` or `--` adds.
fn stepped_weight(types: &FunctionTypes, op: StepOp, e: &Expr) -> u64
    ensures is { let how = step_operation (typing_in types.now) op (type_in (typing_in types.now) (view_expression e.now)) in result ≡ step_weight (max (bits_in (type_in (typing_in types.now) (view_expression e.now))) (operation_bits how)) how }
    ensures few { result ≤ 133120 }
{
    let how = step_operation(types, op, e);
    let w = greater(bits_of(types, e), operation_bits(&how));
    step_weight(w, &how)
}

// What `e[e]` adds, by what stands before the bracket.
fn indexed_weight(types: &FunctionTypes, a: &Expr) -> u64
    ensures is { result ≡ 2048 + 2048 * count_ones (stride_in (typing_in types.now) (type_in (typing_in types.now) (view_expression a.now))) }
    ensures few { result ≤ 133120 }
{
    move_weight(stride_of(types, types.type_at(a.node.number)))
}

// What `e ? e : e` adds to a node of so many bits.
fn choice_weight(types: &FunctionTypes, bits: u64, a: &Expr, b: &Expr, c: &Expr) -> u64
    requires { bits ≤ 64 }
    ensures is { result ≡ 32 * max (bits_in (type_in (typing_in types.now) (view_expression a.now))) (greatest_bits (bits_in (type_in (typing_in types.now) (view_expression b.now))) (bits_in (type_in (typing_in types.now) (view_expression c.now))) bits) }
    ensures few { result ≤ 2048 }
{
    32 * greater(bits_of(types, a), greatest_bits(types, b, c, bits))
}

/// What an expression of this form adds to its node, evaluated or not.
pub(crate) fn form_weight(types: &FunctionTypes, node: u32, f: &ExprForm) -> u64
    ensures is { result ≡ form_weight (typing_in types.now) node (view_expression_form f.now) }
    ensures few { result ≤ 135168 }
{
    match f {
        ExprForm::Name(_)
        | ExprForm::Number(_)
        | ExprForm::Character(_)
        | ExprForm::Text(_)
        | ExprForm::Paren(_)
        | ExprForm::Call(_, _)
        | ExprForm::SizeExpr(_)
        | ExprForm::SizeName(_) => 0,
        ExprForm::Index(a, _) => indexed_weight(types, a.get()),
        ExprForm::Dot(_, _) | ExprForm::Arrow(_, _) => 2048,
        ExprForm::Step(op, e) => stepped_weight(types, *op, e.get()),
        ExprForm::Unary(op, e) => {
            let w = greater(bits_of(types, e.get()), bits_at(types, node));
            unary_weight(w, *op)
        }
        ExprForm::Cast(_, e) => {
            let w = greater(bits_of(types, e.get()), bits_at(types, node));
            32 * w
        }
        ExprForm::Binary(op, a, b) => binary_weight(types, node, *op, a.get(), b.get()),
        ExprForm::Choice(a, b, c) => {
            let bits = bits_at(types, node);
            choice_weight(types, bits, a.get(), b.get(), c.get())
        }
        ExprForm::Assign(op, a, b) => {
            assigned_weight(types, assigned_operator(*op), a.get(), b.get())
        }
    }
}

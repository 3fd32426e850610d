//! What an operator is, and what it does to operands of some types.

ghost use Rattle.std.specs.Prelude.{◌≡◌};
ghost use Rattle.std.specs.Option.{option_map};
ghost use Rattle.stk_ctype.specs.Types.{type_of};
ghost use Rattle.stk_meaning.specs.Typings.{Typing, stride_in};
ghost use Rattle.stk_meaning.specs.Operations.{sort_of, assigned_operator, step_operator, gives_old, subtracts, arithmetic_of, comparison_kind, operation_of};
ghost use Rattle.stk_operators.specs.Shown.{operator_shown, sort_shown, operation_shown};

use crate::types::number_kind;
use crate::words::Stride;
use stk_ctype::CType;
use stk_numbers::{ArithOp, CompareOp, IntKind, ShiftOp, common, promote};
use stk_tree::{AssignOp, BinaryOp, StepOp};
use stk_type_rules::kind_of;

/// An operator that has two numbers as operands.
#[derive(Clone, Copy, Debug)]
pub enum Operator {
    Arithmetic(ArithOp),
    Shifting(ShiftOp),
    Comparing(CompareOp),
}

/// What a binary operator is: one on two numbers, or `,`, `||` or `&&`.
#[derive(Clone, Copy, Debug)]
pub enum BinarySort {
    Operates(Operator),
    Joins,
    OrElse,
    AndAlso,
}

/// What an operator does to operands of some types: integers in a kind; a shift in the promoted kind of the left
/// operand; a comparison in a kind; a pointer moved, backwards or not, by a number of elements of a size; an integer
/// and a pointer behind it; the distance of two pointers in elements of a size.
#[derive(Clone, Copy, Debug)]
pub enum Operation {
    InKind(ArithOp, IntKind),
    ShiftIn(ShiftOp, IntKind),
    CompareIn(CompareOp, IntKind),
    Move(bool, Stride),
    MoveBehind(Stride),
    Measure(Stride),
}

/// What a binary operator is (C11 6.5.5 to 6.5.14, 6.5.17).
pub fn sort_of(op: BinaryOp) -> BinarySort
    ensures { sort_shown result ≡ sort_of op }
{
    match op {
        BinaryOp::Comma => BinarySort::Joins,
        BinaryOp::OrElse => BinarySort::OrElse,
        BinaryOp::AndAlso => BinarySort::AndAlso,
        BinaryOp::Or => BinarySort::Operates(Operator::Arithmetic(ArithOp::Or)),
        BinaryOp::Xor => BinarySort::Operates(Operator::Arithmetic(ArithOp::Xor)),
        BinaryOp::And => BinarySort::Operates(Operator::Arithmetic(ArithOp::And)),
        BinaryOp::Eq => BinarySort::Operates(Operator::Comparing(CompareOp::Eq)),
        BinaryOp::Ne => BinarySort::Operates(Operator::Comparing(CompareOp::Ne)),
        BinaryOp::Lt => BinarySort::Operates(Operator::Comparing(CompareOp::Lt)),
        BinaryOp::Gt => BinarySort::Operates(Operator::Comparing(CompareOp::Gt)),
        BinaryOp::Le => BinarySort::Operates(Operator::Comparing(CompareOp::Le)),
        BinaryOp::Ge => BinarySort::Operates(Operator::Comparing(CompareOp::Ge)),
        BinaryOp::Left => BinarySort::Operates(Operator::Shifting(ShiftOp::Left)),
        BinaryOp::Right => BinarySort::Operates(Operator::Shifting(ShiftOp::Right)),
        BinaryOp::Add => BinarySort::Operates(Operator::Arithmetic(ArithOp::Add)),
        BinaryOp::Sub => BinarySort::Operates(Operator::Arithmetic(ArithOp::Sub)),
        BinaryOp::Mul => BinarySort::Operates(Operator::Arithmetic(ArithOp::Mul)),
        BinaryOp::Div => BinarySort::Operates(Operator::Arithmetic(ArithOp::Div)),
        BinaryOp::Rem => BinarySort::Operates(Operator::Arithmetic(ArithOp::Rem)),
    }
}

/// The operator of a compound assignment (C11 6.5.16.2); `None` exactly for `=`.
pub fn assigned_operator(op: AssignOp) -> Option<Operator>
    ensures { option_map operator_shown result ≡ assigned_operator op }
{
    match op {
        AssignOp::Plain => None,
        AssignOp::Mul => Some(Operator::Arithmetic(ArithOp::Mul)),
        AssignOp::Div => Some(Operator::Arithmetic(ArithOp::Div)),
        AssignOp::Rem => Some(Operator::Arithmetic(ArithOp::Rem)),
        AssignOp::Add => Some(Operator::Arithmetic(ArithOp::Add)),
        AssignOp::Sub => Some(Operator::Arithmetic(ArithOp::Sub)),
        AssignOp::Left => Some(Operator::Shifting(ShiftOp::Left)),
        AssignOp::Right => Some(Operator::Shifting(ShiftOp::Right)),
        AssignOp::And => Some(Operator::Arithmetic(ArithOp::And)),
        AssignOp::Xor => Some(Operator::Arithmetic(ArithOp::Xor)),
        AssignOp::Or => Some(Operator::Arithmetic(ArithOp::Or)),
    }
}

/// The operator of `++` and `--`, whose right operand is 1 (C11 6.5.2.4, 6.5.3.1).
pub fn step_operator(op: StepOp) -> Operator
    ensures { operator_shown result ≡ step_operator op }
{
    match op {
        StepOp::IncBefore | StepOp::IncAfter => Operator::Arithmetic(ArithOp::Add),
        StepOp::DecBefore | StepOp::DecAfter => Operator::Arithmetic(ArithOp::Sub),
    }
}

/// Whether the value of `++` or `--` is the number from before (C11 6.5.2.4p2).
pub fn gives_old(op: StepOp) -> bool
    ensures { result ≡ gives_old op }
{
    match op {
        StepOp::IncBefore | StepOp::DecBefore => false,
        StepOp::IncAfter | StepOp::DecAfter => true,
    }
}

// Whether an operator is `-`.
fn subtracts(op: ArithOp) -> bool
    ensures { result ≡ subtracts op }
{
    match op {
        ArithOp::Sub => true,
        ArithOp::Add
        | ArithOp::Mul
        | ArithOp::Div
        | ArithOp::Rem
        | ArithOp::And
        | ArithOp::Xor
        | ArithOp::Or => false,
    }
}

// An operator on operands of these kinds, where they are integers, and of these sizes, where they are pointers.
fn arithmetic_of(
    op: ArithOp,
    left: Option<IntKind>,
    right: Option<IntKind>,
    left_size: Stride,
    right_size: Stride,
) -> Operation
    ensures { operation_shown result ≡ arithmetic_of op left right left_size right_size }
{
    match (left, right) {
        (Some(left), Some(right)) => Operation::InKind(op, common(left, right)),
        (Some(_), None) => Operation::MoveBehind(right_size),
        (None, Some(_)) => Operation::Move(subtracts(op), left_size),
        (None, None) => Operation::Measure(left_size),
    }
}

// The kind in which two operands are compared: integers in their common kind, and else addresses (C11 6.5.8, 6.5.9).
fn comparison_kind(left: Option<IntKind>, right: Option<IntKind>) -> IntKind
    ensures { result ≡ comparison_kind left right }
{
    match (left, right) {
        (Some(left), Some(right)) => common(left, right),
        (Some(_), None) | (None, Some(_)) | (None, None) => IntKind::ULong,
    }
}

/// What an operator does to operands of these types (C11 6.3.1.8, 6.5.5 to 6.5.12); the sizes are those of what the
/// operands point to, where they are pointers.
pub fn operation_of(
    op: Operator,
    left: &CType,
    right: &CType,
    left_size: Stride,
    right_size: Stride,
) -> Operation
    ensures { (ty : Typing) → stride_in ty (type_of left.now) ≡ left_size → stride_in ty (type_of right.now) ≡ right_size → operation_shown result ≡ operation_of ty (operator_shown op) (type_of left.now) (type_of right.now) }
{
    let kinds = (kind_of(left), kind_of(right));
    match op {
        Operator::Arithmetic(op) => { arithmetic_of(op, kinds.0, kinds.1, left_size, right_size) }
        Operator::Shifting(op) => Operation::ShiftIn(op, promote(number_kind(left))),
        Operator::Comparing(op) => Operation::CompareIn(op, comparison_kind(kinds.0, kinds.1)),
    }
}

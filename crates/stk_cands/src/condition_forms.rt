//! What is asked at each form of expressions.

ghost use Rattle.std.specs.Prelude.{◌≡◌};
ghost use Rattle.stk_tree.specs.View.{view_expression_form};
ghost use Rattle.stk_function_types.specs.Nodes.{typing_in};
ghost use Rattle.stk_operators.specs.Checked.{tests_of};
ghost use Rattle.stk_operators.specs.Shown.{operator_shown, sort_shown, operation_shown};
ghost use Rattle.stk_meaning.specs.Operations.{assigned_operator, operation_of, step_operation};
ghost use Rattle.stk_numbers.specs.Kinds.{promote};
ghost use Rattle.stk_meaning.specs.Typings.{number_kind, stride_in};
ghost use Rattle.stk_meaning.specs.Conditions.{assigned_tests, binary_tests, form_tests, index_tests, unary_tests};

use crate::strides::stride_of;
use stk_ctype::CType;
use stk_function_env::called_library;
use stk_function_types::FunctionTypes;
use stk_numbers::{IntKind, promote};
use stk_operators::{
    BinarySort, NodeTests, Operation, Operator, assigned_operator, index_node_tests,
    library_node_tests, number_kind, operation_of, sort_of, step_operator, target_node_tests,
    unary_node_tests,
};
use stk_tree::{AssignOp, ExprForm, StepOp, UnaryOp};

// What an operator does to operands of the types of two nodes.
fn operation_at(types: &FunctionTypes, op: Operator, left: u32, right: u32) -> Operation
    ensures { operation_shown result ≡ operation_of (typing_in types.now) (operator_shown op) ((typing_in types.now).type_at left) ((typing_in types.now).type_at right) }
{
    let first = types.type_at(left);
    let second = types.type_at(right);
    let first_size = stride_of(types, first);
    let second_size = stride_of(types, second);
    operation_of(op, first, second, first_size, second_size)
}

// What `++` or `--` does to an operand of a node's type.
fn step_operation_at(types: &FunctionTypes, op: StepOp, node: u32) -> Operation
    ensures { operation_shown result ≡ step_operation (typing_in types.now) op ((typing_in types.now).type_at node) }
{
    let one = CType::Int(IntKind::Int);
    let first = types.type_at(node);
    let first_size = stride_of(types, first);
    let second_size = stride_of(types, &one);
    operation_of(step_operator(op), first, &one, first_size, second_size)
}

// What is asked at a binary operator between operands of the types of two nodes.
fn binary_node_tests(types: &FunctionTypes, sort: BinarySort, left: u32, right: u32) -> NodeTests
    ensures { tests_of result ≡ binary_tests (typing_in types.now) (sort_shown sort) ((typing_in types.now).type_at left) ((typing_in types.now).type_at right) }
{
    match sort {
        BinarySort::Operates(op) => NodeTests::Operation(operation_at(types, op, left, right)),
        BinarySort::Joins | BinarySort::OrElse | BinarySort::AndAlso => NodeTests::Nothing,
    }
}

// What is asked at `e[e]`, for the node of what is indexed.
fn index_checks_at(types: &FunctionTypes, accessed: bool, node: u32) -> NodeTests
    ensures { tests_of result ≡ index_tests accessed ((typing_in types.now).type_at node) (stride_in (typing_in types.now) ((typing_in types.now).type_at node)) }
{
    let ty = types.type_at(node);
    let size = stride_of(types, ty);
    index_node_tests(accessed, ty, size)
}

// What is asked at a unary operator, for the node of its operand.
fn unary_checks_at(types: &FunctionTypes, accessed: bool, op: UnaryOp, node: u32) -> NodeTests
    ensures { tests_of result ≡ unary_tests accessed (promote (number_kind ((typing_in types.now).type_at node))) op }
{
    let kind = promote(number_kind(types.type_at(node)));
    unary_node_tests(accessed, kind, op)
}

// What is asked at an assignment between operands of the types of two nodes.
fn assigned_node_tests(types: &FunctionTypes, op: AssignOp, left: u32, right: u32) -> NodeTests
    ensures { tests_of result ≡ assigned_tests (typing_in types.now) (assigned_operator op) ((typing_in types.now).type_at left) ((typing_in types.now).type_at right) }
{
    match assigned_operator(op) {
        None => NodeTests::Nothing,
        Some(operator) => NodeTests::Operation(operation_at(types, operator, left, right)),
    }
}

/// What is asked at an expression of this form, whose place is accessed or not.
pub(crate) fn form_node_tests(types: &FunctionTypes, accessed: bool, f: &ExprForm) -> NodeTests
    ensures { tests_of result ≡ form_tests (typing_in types.now) accessed (view_expression_form f.now) }
{
    match f {
        ExprForm::Index(a, _) => index_checks_at(types, accessed, a.get().node.number),
        ExprForm::Call(callee, _) => library_node_tests(called_library(types, callee.get())),
        ExprForm::Arrow(_, _) => target_node_tests(accessed),
        ExprForm::Step(op, e) => {
            NodeTests::Operation(step_operation_at(types, *op, e.get().node.number))
        }
        ExprForm::Unary(op, e) => unary_checks_at(types, accessed, *op, e.get().node.number),
        ExprForm::Binary(op, a, b) => {
            let left = a.get().node.number;
            let right = b.get().node.number;
            binary_node_tests(types, sort_of(*op), left, right)
        }
        ExprForm::Assign(op, a, b) => {
            let left = a.get().node.number;
            let right = b.get().node.number;
            assigned_node_tests(types, *op, left, right)
        }
        ExprForm::Name(_)
        | ExprForm::Number(_)
        | ExprForm::Character(_)
        | ExprForm::Text(_)
        | ExprForm::Paren(_)
        | ExprForm::Dot(_, _)
        | ExprForm::SizeExpr(_)
        | ExprForm::SizeName(_)
        | ExprForm::Cast(_, _)
        | ExprForm::Choice(_, _, _) => NodeTests::Nothing,
    }
}

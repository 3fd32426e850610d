//! What a path run asks of the types of a function.

ghost use Rattle.std.specs.Prelude.{◌≡◌, map};
ghost use Rattle.std.specs.Option.{option_map};
ghost use Rattle.stk_ctype.specs.Types.{type_of, row_of};
ghost use Rattle.stk_ctype.specs.Structs.{structs_of};
ghost use Rattle.stk_ctype.specs.Sound.{IsSound};
ghost use Rattle.stk_tree.specs.View.{view_expression};
ghost use Rattle.stk_type_rules.specs.Types.{is_void};
ghost use Rattle.stk_meaning.specs.Typings.{object_size, pointed, stride_in, converted};
ghost use Rattle.stk_meaning.specs.Statements.{is_number};
ghost use Rattle.stk_meaning.specs.Conditions.{index_tests};
ghost use Rattle.stk_operators.specs.Checked.{tests_of};
ghost use Rattle.stk_meaning.specs.Operations.{operation_of, step_operation};
ghost use Rattle.stk_operators.specs.Shown.{operator_shown, operation_shown};
ghost use Rattle.stk_meaning.specs.Libraries.{called_signature, parameters_in, result_in, never_returns};
ghost use Rattle.stk_function_types.specs.Nodes.{typing_in};
ghost use Rattle.stk_replacements.specs.Shown.{replaced_shown};
ghost use Rattle.stk_eval_expr.specs.Shown.{replacement_shown};

use stk_base::Span;
use stk_ctype::CType;
use stk_eval_expr::{Replacement, node_of};
use stk_function_env::called_signature;
use stk_function_types::FunctionTypes;
use stk_numbers::IntKind;
use stk_operators::{
    NodeTests, Operation, Operator, Stride, Word, index_node_tests, number_kind, operation_of,
    step_operator,
};
use stk_replacements::Replaced;
use stk_tree::{Expr, StepOp};
use stk_type_rules::{is_void, pointee};

// The bytes of an object of a type; 1 where its size isn't known.
fn object_size(types: &FunctionTypes, ty: &CType) -> Stride
    requires { IsSound (structs_of types.now.entries) (type_of ty.now) }
    ensures { result ≡ object_size (typing_in types.now) (type_of ty.now) }
{
    match types.size_of(ty) {
        None => Stride::new(1),
        Some(size) => Stride::new(size),
    }
}

// By how many bytes a number moves a pointer of a type (C11 6.5.6p8).
fn stride_in(types: &FunctionTypes, ty: &CType) -> Stride
    requires { IsSound (structs_of types.now.entries) (type_of ty.now) }
    ensures { result ≡ stride_in (typing_in types.now) (type_of ty.now) }
{
    match pointee(ty) {
        None => Stride::new(1),
        Some(inner) => object_size(types, inner),
    }
}

/// By how many bytes a number moves a pointer of a node's type (C11 6.5.6p8).
pub(crate) fn stride_at(types: &FunctionTypes, node: u32) -> Stride
    ensures { result ≡ stride_in (typing_in types.now) ((typing_in types.now).type_at node) }
{
    let ty = types.type_at(node);
    stride_in(types, ty)
}

/// What an operator does to operands of the types of two nodes.
pub(crate) fn operation(types: &FunctionTypes, op: Operator, left: u32, right: u32) -> Operation
    ensures { operation_shown result ≡ operation_of (typing_in types.now) (operator_shown op) ((typing_in types.now).type_at left) ((typing_in types.now).type_at right) }
{
    let strides = (stride_at(types, left), stride_at(types, right));
    operation_of(
        op,
        types.type_at(left),
        types.type_at(right),
        strides.0,
        strides.1,
    )
}

/// What is asked at `e[e]`, for the node of what is indexed.
pub(crate) fn index_checks_at(types: &FunctionTypes, accessed: bool, node: u32) -> NodeTests
    ensures { tests_of result ≡ index_tests accessed ((typing_in types.now).type_at node) (stride_in (typing_in types.now) ((typing_in types.now).type_at node)) }
{
    index_node_tests(accessed, types.type_at(node), stride_at(types, node))
}

/// How many bytes before a member of a node's type its struct begins; 0 where there is no such member.
pub(crate) fn offset(types: &FunctionTypes, node: u32, name: Span) -> u64
    ensures { result ≡ (typing_in types.now).offset_of ((typing_in types.now).type_at node) name }
{
    types.offset_of(types.type_at(node), name)
}

/// The number of a node in its type, where it has one by itself.
pub(crate) fn own_number(types: &FunctionTypes, node: u32) -> Option<Word>
    ensures { result ≡ option_map (λ z. converted ((typing_in types.now).type_at node) z) ((typing_in types.now).number_at node) }
{
    match types.constant(node) {
        None => None,
        Some(number) => Some(Word::wrapped(number_kind(types.type_at(node)), number)),
    }
}

/// Whether the number of a node, in a kind, is this one.
pub(crate) fn is_number(types: &FunctionTypes, kind: IntKind, number: Word, node: u32) -> bool
    ensures { result ≡ is_number kind number ((typing_in types.now).number_at node) }
{
    match types.constant(node) {
        None => false,
        Some(own) => Word::wrapped(kind, own).number() == number.number(),
    }
}

/// What `++` or `--` does to an operand of a node's type: it adds or subtracts an `int` (C11 6.5.2.4, 6.5.3.1).
pub(crate) fn step_operation(types: &FunctionTypes, op: StepOp, node: u32) -> Operation
    ensures { operation_shown result ≡ step_operation (typing_in types.now) op ((typing_in types.now).type_at node) }
{
    let int = CType::Int(IntKind::Int);
    let ty = types.type_at(node);
    operation_of(
        step_operator(op),
        ty,
        &int,
        stride_at(types, node),
        Stride::new(1),
    )
}

/// How many bytes before a member of what a node's type points to its struct begins; 0 where there is no such member.
pub(crate) fn pointed_offset(types: &FunctionTypes, node: u32, name: Span) -> u64
    ensures { result ≡ (typing_in types.now).offset_of (pointed ((typing_in types.now).type_at node)) name }
{
    match pointee(types.type_at(node)) {
        None => 0,
        Some(inner) => types.offset_of(inner, name),
    }
}

/// Whether what a call calls is marked as not returning.
pub(crate) fn never_returns(types: &FunctionTypes, callee: &Expr) -> bool
    ensures { result ≡ never_returns (called_signature (typing_in types.now) (view_expression callee.now)) }
{
    match called_signature(types, callee) {
        None => false,
        Some(f) => f.no_return,
    }
}

/// Whether what a call calls has no result.
pub(crate) fn gives_nothing(types: &FunctionTypes, callee: &Expr) -> bool
    ensures { result ≡ is_void (result_in (called_signature (typing_in types.now) (view_expression callee.now))) }
{
    match called_signature(types, callee) {
        None => true,
        Some(f) => is_void(&f.result),
    }
}

/// The types of the parameters of what a call calls.
pub(crate) fn parameters<'a>(types: &'a FunctionTypes, callee: &Expr) -> &'a [CType]
    ensures { row_of (map type_of result.now) ≡ parameters_in (called_signature (typing_in types.now) (view_expression callee.now)) }
{
    match called_signature(types, callee) {
        None => &[],
        Some(f) => f.params.as_slice(),
    }
}

// A replacement of a comparison, in a path run's words.
fn replaced_by(types: &FunctionTypes, found: &Replaced) -> Replacement
    ensures { result ≡ replacement_shown (typing_in types.now) (replaced_shown found.now) }
{
    Replacement {
        kind: number_kind(types.type_at(node_of(found.kept))),
        is_right: found.is_right,
        sum_first: found.sum_first,
        zero_first: found.zero_first,
    }
}

/// A replacement of a comparison, where there is one, in a path run's words.
pub(crate) fn replaced(types: &FunctionTypes, found: Option<Replaced>) -> Option<Replacement>
    ensures { result ≡ option_map (λ f. replacement_shown (typing_in types.now) f) (option_map replaced_shown found.entry) }
{
    match found {
        None => None,
        Some(found) => Some(replaced_by(types, &found)),
    }
}

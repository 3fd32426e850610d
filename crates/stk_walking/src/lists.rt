//! The tests of a node, one by one.

ghost use Rattle.std.specs.Prelude.{◌≡◌, ◌++◌, ◌&&◌, ◌+◌, ◌≤◌, if◌then◌else◌};
ghost use Rattle.stk_ctype.specs.declared.kind.IntKind as kinds;
ghost use Rattle.stk_numbers.specs.Kinds.{is_signed};
ghost use Rattle.stk_numbers.specs.Conditions.{divides};
ghost use Rattle.stk_numbers.specs.declared.conditions.UbKind.TheVariants as ub;
ghost use Rattle.stk_meaning.specs.Operations.{may_overflow, operation_tests, one_if};
ghost use Rattle.stk_operators.specs.Shown.{operation_shown};
ghost use Rattle.stk_operators.specs.Checked.{tests_of};
ghost use Rattle.stk_walking.specs.NodeTests.{test_of, maybe_tests, IsAskedOf, MaybeIsTestOf};
ghost use Rattle.stk_walking.specs.declared.node_tests.NodeTest.TheVariants as node_test;
ghost use Rattle.stk_spending.specs.Charges.{arithmetic_test_charge, tests_charge};
ghost use Rattle.stk_walking.specs.Charges.{maybe_charge, asked_charge, negation_charge};

use crate::node_tests::NodeTest;
use stk_numbers::{ArithOp, IntKind, UbKind, signed};
use stk_operators::{NodeTests, Operation};

// Whether the exact result of an operator may leave a kind.
fn may_overflow(op: ArithOp) -> bool
    ensures { result ≡ may_overflow op }
{
    match op {
        ArithOp::Add | ArithOp::Sub | ArithOp::Mul | ArithOp::Div | ArithOp::Rem => true,
        ArithOp::And | ArithOp::Xor | ArithOp::Or => false,
    }
}

// Whether an operator divides.
fn divides(op: ArithOp) -> bool
    ensures { result ≡ divides op }
{
    match op {
        ArithOp::Div | ArithOp::Rem => true,
        ArithOp::Add | ArithOp::Sub | ArithOp::Mul | ArithOp::And | ArithOp::Xor | ArithOp::Or =>
            false,
    }
}

// That an operator overflows a kind, where it may (C11 6.5p5).
fn overflow_test(op: ArithOp, kind: IntKind) -> Option<NodeTest>
    ensures is { maybe_tests result ≡ one_if (may_overflow op && is_signed kind) (test_of (node_test.Arithmetic ub.Overflow op kind)) }
    ensures asked { (j : kinds.IntKind) → MaybeIsTestOf j result }
    ensures charge { (a b : kinds.IntKind) → maybe_charge result a b ≤ (if may_overflow op then arithmetic_test_charge op kind a b else 0) }
{
    let overflows = may_overflow(op);
    let leaves = signed(kind);
    if overflows && leaves {
        Some(NodeTest::Arithmetic(UbKind::Overflow, op, kind))
    } else {
        None
    }
}

// That an operator divides by 0, where it divides (C11 6.5.5p5).
fn zero_test(op: ArithOp, kind: IntKind) -> Option<NodeTest>
    ensures is { maybe_tests result ≡ one_if (divides op) (test_of (node_test.Arithmetic ub.Zero op kind)) }
    ensures asked { (j : kinds.IntKind) → MaybeIsTestOf j result }
    ensures charge { (a b : kinds.IntKind) → maybe_charge result a b ≤ (if divides op then arithmetic_test_charge op kind a b else 0) }
{
    if divides(op) {
        Some(NodeTest::Arithmetic(UbKind::Zero, op, kind))
    } else {
        None
    }
}

// The tests of an operation.
fn listed_operation(operation: Operation) -> (Option<NodeTest>, Option<NodeTest>)
    ensures is { maybe_tests result.0 ++ maybe_tests result.1 ≡ operation_tests (operation_shown operation) }
    ensures first { (j : kinds.IntKind) → MaybeIsTestOf j result.0 }
    ensures second { (j : kinds.IntKind) → MaybeIsTestOf j result.1 }
    ensures charge { (a b : kinds.IntKind) → maybe_charge result.0 a b + maybe_charge result.1 a b ≤ tests_charge (operation_shown operation) a b }
{
    match operation {
        Operation::InKind(op, kind) => (overflow_test(op, kind), zero_test(op, kind)),
        Operation::ShiftIn(_, kind) => (Some(NodeTest::Shift(kind)), None),
        Operation::CompareIn(_, _) => (None, None),
        Operation::Move(minus, size) => (Some(NodeTest::Move(minus, size)), None),
        Operation::MoveBehind(size) => (Some(NodeTest::MoveBehind(size)), None),
        Operation::Measure(_) => (None, None),
    }
}

// That `-` overflows a kind, where it may (C11 6.5.3.3p3).
fn negation_test(kind: IntKind) -> Option<NodeTest>
    ensures is { maybe_tests result ≡ one_if (is_signed kind) (test_of (node_test.Negation ub.Overflow kind)) }
    ensures asked { (j : kinds.IntKind) → MaybeIsTestOf j result }
    ensures charge { (a b : kinds.IntKind) → maybe_charge result a b ≤ negation_charge kind a }
{
    if signed(kind) {
        Some(NodeTest::Negation(UbKind::Overflow, kind))
    } else {
        None
    }
}

/// The tests that are asked for, in order; there are two at most.
pub(crate) fn listed(tests: NodeTests) -> (Option<NodeTest>, Option<NodeTest>)
    ensures is { maybe_tests result.0 ++ maybe_tests result.1 ≡ tests_of tests }
    ensures first { (j : kinds.IntKind) → IsAskedOf j tests → MaybeIsTestOf j result.0 }
    ensures second { (j : kinds.IntKind) → IsAskedOf j tests → MaybeIsTestOf j result.1 }
    ensures charge { (a b : kinds.IntKind) → maybe_charge result.0 a b + maybe_charge result.1 a b ≤ asked_charge tests a b }
{
    match tests {
        NodeTests::Nothing => (None, None),
        NodeTests::Operation(operation) => listed_operation(operation),
        NodeTests::Negation(kind) => (negation_test(kind), None),
        NodeTests::Target => (Some(NodeTest::Null), None),
        NodeTests::Moved(size) => (Some(NodeTest::Move(false, size)), None),
        NodeTests::TargetMoved(size) => (Some(NodeTest::Null), Some(NodeTest::Move(false, size))),
        NodeTests::Bounds(count) => (Some(NodeTest::Bounds(count)), None),
        NodeTests::Absolute(kind) => (Some(NodeTest::Absolute(kind)), None),
        NodeTests::Copy => (Some(NodeTest::Copy), None),
    }
}

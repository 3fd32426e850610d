//! Constant expressions and their numbers (C11 6.6).

ghost use Rattle.std.specs.Prelude.{◌≡◌, not, if◌then◌else◌, ◌||◌, IsTrue};
ghost use Rattle.stk_numbers.specs.Conditions.{violates};
ghost use Rattle.stk_numbers.specs.Kinds.{fits, wrap};
ghost use Rattle.stk_type_rules.specs.Constants.{truth, converted, unless, both, arithmetic, shift, comparison, is_true, logical, choice, negated, flipped, denied};

use crate::Constancy;
use stk_numbers::{
    ArithOp, CompareOp, IntKind, ShiftOp, UbKind, arith, breaks, breaks_shift, compared, shifted,
    wrap,
};

// 1 for true and 0 for false.
fn truth(holds: bool) -> Constancy
    ensures { result ≡ truth holds }
{
    if holds {
        Constancy::Number(1)
    } else {
        Constancy::Number(0)
    }
}

// A number, where no condition is violated.
fn unless(violated: bool, number: i128) -> Constancy
    ensures { result ≡ unless violated number }
{
    if violated {
        Constancy::Violates
    } else {
        Constancy::Number(number)
    }
}

// Whether a number is true.
fn is_true(number: i128) -> bool
    ensures { result ≡ is_true number }
{
    number != 0
}

// A number converted to a kind.
#[tactic(auto, using(crate::proofs::Range::in_range))]
fn within(kind: IntKind, number: i128) -> i128
    ensures value { result ≡ wrap kind number }
    ensures range { IsTrue (fits kind result) }
{
    wrap(kind, number)
}

/// A constant expression converted to a kind (C11 6.3.1).
pub(crate) fn converted(kind: IntKind, x: Constancy) -> Constancy
    ensures { result ≡ converted kind x }
{
    match x {
        Constancy::Varies => Constancy::Varies,
        Constancy::Violates => Constancy::Violates,
        Constancy::Number(number) => Constancy::Number(wrap(kind, number)),
    }
}

// Whether an operator on numbers of a kind violates a condition.
fn is_violated(op: ArithOp, kind: IntKind, left: i128, right: i128) -> bool
    requires left { IsTrue (fits kind left) }
    requires right { IsTrue (fits kind right) }
    ensures { result ≡ violates UbKind.Overflow op kind left right || violates UbKind.Zero op kind left right }
{
    breaks(UbKind::Overflow, op, kind, left, right) || breaks(UbKind::Zero, op, kind, left, right)
}

// `+ - * / % & ^ |` of two numbers, in a kind.
fn operated(op: ArithOp, kind: IntKind, x: i128, y: i128) -> Constancy
    ensures { result ≡ arithmetic op kind x y }
{
    let left = within(kind, x);
    let right = within(kind, y);
    let violated = is_violated(op, kind, left, right);
    unless(violated, arith(op, kind, left, right))
}

/// `+ - * / % & ^ |` of two constant expressions, in a kind.
pub(crate) fn arithmetic(op: ArithOp, kind: IntKind, x: Constancy, y: Constancy) -> Constancy
    ensures { result ≡ both (arithmetic op kind) x y }
{
    match (x, y) {
        (Constancy::Varies, _) | (_, Constancy::Varies) => Constancy::Varies,
        (Constancy::Violates, _) | (_, Constancy::Violates) => Constancy::Violates,
        (Constancy::Number(left), Constancy::Number(right)) => operated(op, kind, left, right),
    }
}

// `<<` and `>>` of two numbers, in the promoted kind of the left one.
fn moved(op: ShiftOp, kind: IntKind, x: i128, y: i128) -> Constancy
    ensures { result ≡ shift op kind x y }
{
    let left = within(kind, x);
    unless(breaks_shift(kind, y), shifted(op, kind, left, y))
}

/// `<<` and `>>` of two constant expressions, in the promoted kind of the left one.
pub(crate) fn shift(op: ShiftOp, kind: IntKind, x: Constancy, y: Constancy) -> Constancy
    ensures { result ≡ both (shift op kind) x y }
{
    match (x, y) {
        (Constancy::Varies, _) | (_, Constancy::Varies) => Constancy::Varies,
        (Constancy::Violates, _) | (_, Constancy::Violates) => Constancy::Violates,
        (Constancy::Number(left), Constancy::Number(right)) => moved(op, kind, left, right),
    }
}

// A comparison of two numbers, in a kind.
fn ordered(op: CompareOp, kind: IntKind, x: i128, y: i128) -> Constancy
    ensures { result ≡ comparison op kind x y }
{
    truth(compared(op, wrap(kind, x), wrap(kind, y)))
}

/// A comparison of two constant expressions, in a kind.
pub(crate) fn comparison(op: CompareOp, kind: IntKind, x: Constancy, y: Constancy) -> Constancy
    ensures { result ≡ both (comparison op kind) x y }
{
    match (x, y) {
        (Constancy::Varies, _) | (_, Constancy::Varies) => Constancy::Varies,
        (Constancy::Violates, _) | (_, Constancy::Violates) => Constancy::Violates,
        (Constancy::Number(left), Constancy::Number(right)) => ordered(op, kind, left, right),
    }
}

// Whether the left operand of `||` (true) or `&&` (false) decides.
fn decides(stops: bool, number: i128) -> bool
    ensures { result ≡ if stops then is_true number else not (is_true number) }
{
    is_true(number) == stops
}

/// `||` (which a true operand decides) and `&&` (which a false one does) of two constant expressions.
pub(crate) fn logical(stops: bool, x: Constancy, y: Constancy) -> Constancy
    ensures { result ≡ logical stops x y }
{
    match (x, y) {
        (Constancy::Varies, _) | (_, Constancy::Varies) => Constancy::Varies,
        (Constancy::Violates, _) => Constancy::Violates,
        (Constancy::Number(left), Constancy::Violates) => {
            if decides(stops, left) {
                truth(stops)
            } else {
                Constancy::Violates
            }
        }
        (Constancy::Number(left), Constancy::Number(right)) => {
            if decides(stops, left) {
                truth(stops)
            } else {
                truth(is_true(right))
            }
        }
    }
}

/// `?:` of three constant expressions, in the common kind of its branches.
pub(crate) fn choice(kind: IntKind, x: Constancy, y: Constancy, z: Constancy) -> Constancy
    ensures { result ≡ choice kind x y z }
{
    match (x, y, z) {
        (Constancy::Varies, _, _) | (_, Constancy::Varies, _) | (_, _, Constancy::Varies) => {
            Constancy::Varies
        }
        (Constancy::Violates, _, _) => Constancy::Violates,
        (Constancy::Number(test), _, _) => {
            if is_true(test) {
                converted(kind, y)
            } else {
                converted(kind, z)
            }
        }
    }
}

/// `-` of a constant expression, in its promoted kind.
pub(crate) fn negated(kind: IntKind, x: Constancy) -> Constancy
    ensures { result ≡ negated kind x }
{
    match x {
        Constancy::Varies => Constancy::Varies,
        Constancy::Violates => Constancy::Violates,
        Constancy::Number(number) => operated(ArithOp::Sub, kind, 0, number),
    }
}

/// `~` of a constant expression, in its promoted kind.
pub(crate) fn flipped(kind: IntKind, x: Constancy) -> Constancy
    ensures { result ≡ flipped kind x }
{
    match x {
        Constancy::Varies => Constancy::Varies,
        Constancy::Violates => Constancy::Violates,
        Constancy::Number(number) => {
            Constancy::Number(arith(ArithOp::Xor, kind, within(kind, -1), within(kind, number)))
        }
    }
}

/// `!` of a constant expression.
pub(crate) fn denied(x: Constancy) -> Constancy
    ensures { result ≡ denied x }
{
    match x {
        Constancy::Varies => Constancy::Varies,
        Constancy::Violates => Constancy::Violates,
        Constancy::Number(number) => truth(number == 0),
    }
}

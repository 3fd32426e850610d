// The conditions of the operators on integers.
ghost use Rattle.std.specs.Prelude.{◌≡◌, IsTrue, ℤ, pos};
ghost use Rattle.std.specs.Ordering.{int_eq};
ghost use Rattle.stk_numbers.specs.Kinds.{is_signed, least, fits};
ghost use Rattle.stk_numbers.specs.declared.operators.ArithOp.TheVariants.{Add, Sub, Mul};
ghost use Rattle.stk_numbers.specs.Conditions.{violates, overflows, divides};

use crate::conditions::UbKind;
use crate::kinds::{fits, least, signed};
use crate::operators::ArithOp;
use stk_ctype::IntKind;

/// Whether a sum in a kind leaves its range.
fn sum_leaves(kind: IntKind, left: i128, right: i128) -> bool
    requires left { IsTrue (fits kind left) }
    requires right { IsTrue (fits kind right) }
    ensures { result ≡ overflows Add kind left right }
{
    !fits(kind, left + right)
}

/// Whether a difference in a kind leaves its range.
fn difference_leaves(kind: IntKind, left: i128, right: i128) -> bool
    requires left { IsTrue (fits kind left) }
    requires right { IsTrue (fits kind right) }
    ensures { result ≡ overflows Sub kind left right }
{
    !fits(kind, left - right)
}

/// Whether a product in a signed kind leaves its range.
fn product_leaves(kind: IntKind, left: i128, right: i128) -> bool
    requires signed { IsTrue (is_signed kind) }
    requires left { IsTrue (fits kind left) }
    requires right { IsTrue (fits kind right) }
    ensures { result ≡ overflows Mul kind left right }
{
    !fits(kind, left * right)
}

/// Whether the result of an operator in a signed kind leaves its range.
fn overflows(op: ArithOp, kind: IntKind, left: i128, right: i128) -> bool
    requires signed { IsTrue (is_signed kind) }
    requires left { IsTrue (fits kind left) }
    requires right { IsTrue (fits kind right) }
    ensures { result ≡ overflows op kind left right }
{
    match op {
        ArithOp::Add => sum_leaves(kind, left, right),
        ArithOp::Sub => difference_leaves(kind, left, right),
        ArithOp::Mul => product_leaves(kind, left, right),
        ArithOp::Div | ArithOp::Rem => left == least(kind) && right == -1,
        ArithOp::And | ArithOp::Xor | ArithOp::Or => false,
    }
}

/// Whether an operator divides.
fn divides(op: ArithOp) -> bool
    ensures { result ≡ divides op }
{
    match op {
        ArithOp::Div | ArithOp::Rem => true,
        ArithOp::Add | ArithOp::Sub | ArithOp::Mul | ArithOp::And | ArithOp::Xor | ArithOp::Or =>
            false,
    }
}

/// Whether an operator on two numbers of a kind violates a condition: signed overflow, the least number divided by -1
/// included (C11 6.5p5), or division by zero (C11 6.5.5p5). False of every other kind of condition.
pub fn breaks(what: UbKind, op: ArithOp, kind: IntKind, left: i128, right: i128) -> bool
    requires left { IsTrue (fits kind left) }
    requires right { IsTrue (fits kind right) }
    ensures { result ≡ violates what op kind left right }
{
    match what {
        UbKind::Overflow => signed(kind) && overflows(op, kind, left, right),
        UbKind::Zero => divides(op) && right == 0,
        UbKind::Shift
        | UbKind::Null
        | UbKind::Pointer
        | UbKind::Bounds
        | UbKind::AbsValue
        | UbKind::Overlap => false,
    }
}

/// Whether the absolute value of a number of a kind has undefined behaviour: it is the kind's least number (C11
/// 7.22.6.1).
pub fn breaks_abs(kind: IntKind, number: i128) -> bool
    ensures { result ≡ int_eq number (least kind) }
{
    number == least(kind)
}

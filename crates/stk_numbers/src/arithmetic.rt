// The values of the operators on integers of one kind.
ghost use Rattle.std.specs.Prelude.{◌≡◌, ℤ, ◌*ℤ◌, pos, ◌<◌, ◌^◌, IsTrue, IsFalse, bit_and, bit_or, bit_xor};
ghost use Rattle.stk_numbers.specs.Kinds.{width_of, is_signed, residue, fits, wrap};
ghost use Rattle.stk_numbers.specs.Values.{arith, absolute, bits_of};
ghost use Rattle.stk_numbers.specs.declared.operators.ArithOp.TheVariants.{Add, Sub, Mul, Div, Rem};

use crate::kinds::{modulus, signed, wrap};
use crate::operators::ArithOp;
use stk_ctype::IntKind;

/// The bits of a number of a kind.
fn bits_of(kind: IntKind, number: i128) -> u64
    ensures { result ≡ bits_of kind number }
{
    number.rem_euclid(modulus(kind)) as u64
}

/// The value of a sum.
fn sum(kind: IntKind, left: i128, right: i128) -> i128
    requires left { IsTrue (fits kind left) }
    requires right { IsTrue (fits kind right) }
    ensures { result ≡ arith Add kind left right }
{
    wrap(kind, left + right)
}

/// The value of a difference.
fn difference(kind: IntKind, left: i128, right: i128) -> i128
    requires left { IsTrue (fits kind left) }
    requires right { IsTrue (fits kind right) }
    ensures { result ≡ arith Sub kind left right }
{
    wrap(kind, left - right)
}

/// The value of a product. The exact product of two numbers of an unsigned kind may be too large for `i128`, and fits
/// `u128`.
fn product(kind: IntKind, left: i128, right: i128) -> i128
    requires left { IsTrue (fits kind left) }
    requires right { IsTrue (fits kind right) }
    ensures { result ≡ arith Mul kind left right }
{
    if signed(kind) {
        return wrap(kind, left * right);
    }
    let bits = left as u128 * right as u128;
    unsigned_wrap(kind, bits)
}

/// A number of any size converted to an unsigned kind.
fn unsigned_wrap(kind: IntKind, number: u128) -> i128
    requires { IsFalse (is_signed kind) }
    ensures { result ≡ wrap kind (pos number) }
{
    if let IntKind::Bool = kind {
        return if number == 0 { 0 } else { 1 };
    }
    (number % modulus(kind) as u128) as i128
}

/// The value of a quotient, truncated towards zero; 0 for a divisor of 0.
fn quotient(kind: IntKind, left: i128, right: i128) -> i128
    requires left { IsTrue (fits kind left) }
    requires right { IsTrue (fits kind right) }
    ensures { result ≡ arith Div kind left right }
{
    if right == 0 {
        return wrap(kind, 0);
    }
    wrap(kind, left / right)
}

/// The value of a remainder, which fits the truncated quotient; the number itself for a divisor of 0.
fn remainder(kind: IntKind, left: i128, right: i128) -> i128
    requires left { IsTrue (fits kind left) }
    requires right { IsTrue (fits kind right) }
    ensures { result ≡ arith Rem kind left right }
{
    if right == 0 {
        return wrap(kind, left);
    }
    wrap(kind, left % right)
}

/// The value of an operator on two numbers of a kind, as C11 6.5 says, and where that is undefined the number of the
/// kind that is congruent to the exact result: `x / 0` is 0, `x % 0` is x, and the least number divided by -1 is
/// itself. That holds of the product of two numbers of `unsigned long` too, which may be too large for `i128`.
pub fn arith(op: ArithOp, kind: IntKind, left: i128, right: i128) -> i128
    requires left { IsTrue (fits kind left) }
    requires right { IsTrue (fits kind right) }
    ensures { result ≡ arith op kind left right }
{
    match op {
        ArithOp::Add => sum(kind, left, right),
        ArithOp::Sub => difference(kind, left, right),
        ArithOp::Mul => product(kind, left, right),
        ArithOp::Div => quotient(kind, left, right),
        ArithOp::Rem => remainder(kind, left, right),
        ArithOp::And => wrap(kind, i128::from(bits_of(kind, left) & bits_of(kind, right))),
        ArithOp::Xor => wrap(kind, i128::from(bits_of(kind, left) ^ bits_of(kind, right))),
        ArithOp::Or => wrap(kind, i128::from(bits_of(kind, left) | bits_of(kind, right))),
    }
}

/// The absolute value of a number of a kind; the least number of a signed kind is its own (C11 7.22.6.1).
pub fn absolute(kind: IntKind, number: i128) -> i128
    requires { IsTrue (fits kind number) }
    ensures { result ≡ absolute kind number }
{
    if number < 0 {
        wrap(kind, -number)
    } else {
        number
    }
}

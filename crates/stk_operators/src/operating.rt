//! The value of an operation.

ghost use Rattle.std.specs.Prelude.{◌≡◌, ◌<◌, ◌^◌, ℤ, pos, negsuc, ◌-ℤ◌};
ghost use Rattle.std.specs.Int.{int_div_euclid};
ghost use Rattle.stk_numbers.specs.Kinds.{wrap};
ghost use Rattle.stk_numbers.specs.Values.{arith, shifted, shifted_by, moved, distance, absolute};
ghost use Rattle.stk_meaning.specs.Operations.{operated, to_address};
ghost use Rattle.stk_meaning.specs.Replacements.{replaced_truth};
ghost use Rattle.stk_operators.specs.Shown.{operation_shown};
ghost use Rattle.stk_numbers.specs.declared.operators.ShiftOp.TheVariants.{Left};

use crate::operators::Operation;
use crate::words::{Stride, Word};
use stk_numbers::{
    ArithOp, CompareOp, IntKind, ShiftOp, arith, breaks_shift, common, compared, distance, moved,
    wrap,
};

// The value of an operator on two numbers that are converted to a kind.
fn in_kind(op: ArithOp, kind: IntKind, left: Word, right: Word) -> Word
    ensures { result ≡ arith op kind (wrap kind left) (wrap kind right) }
{
    let left = wrap(kind, left.number());
    let right = wrap(kind, right.number());
    Word::new(arith(op, kind, left, right))
}

// 2 to a count below 64.
fn power(count: u8) -> i128
    requires { count < 64 }
    ensures { result ≡ pos (2 ^ count) }
{
    i128::from(1u64 << count)
}

// The value of a left shift by a count below 64.
fn shifted_left(kind: IntKind, left: Word, count: u8) -> Word
    requires { count < 64 }
    ensures { result ≡ shifted_by Left kind left count }
{
    Word::wrapped(kind, left.number() * power(count))
}

// The value of a right shift by a count below 64.
fn shifted_right(left: Word, count: u8) -> Word
    requires { count < 64 }
    ensures { result ≡ int_div_euclid left (pos (2 ^ count)) }
{
    Word::new(left.number().div_euclid(power(count)))
}

// The value of a shift.
fn shifted(op: ShiftOp, kind: IntKind, left: Word, count: Word) -> Word
    ensures { result ≡ shifted op kind left count }
{
    let number = count.number();
    if breaks_shift(kind, number) {
        return match op {
            ShiftOp::Right if left.number() < 0 => Word::new(-1),
            ShiftOp::Left | ShiftOp::Right => Word::new(0),
        };
    }
    match op {
        ShiftOp::Left => shifted_left(kind, left, number as u8),
        ShiftOp::Right => shifted_right(left, number as u8),
    }
}

/// The address so many elements of a size before or behind the address that a number is, modulo 2^64 (C11 6.5.6).
pub fn moved_address(base: Word, step: Word, size: Stride, minus: bool) -> u64
    ensures { result ≡ moved (to_address base) step size minus }
{
    moved(base.to_address(), step.number(), size.bytes(), minus)
}

// How many elements of a size one address is behind another (C11 6.5.6p9); 0 where the size is 0.
fn measured(left: Word, right: Word, size: Stride) -> Word
    ensures { result ≡ distance (to_address left) (to_address right) size }
{
    if size.bytes() == 0 {
        return Word::new(0);
    }
    Word::new(distance(left.to_address(), right.to_address(), size.bytes()))
}

/// The value of an operation on two numbers, also where it violates a condition (C11 6.5.5 to 6.5.12).
pub fn operated(operation: &Operation, left: Word, right: Word) -> Word
    ensures { result ≡ operated (operation_shown operation.now) left right }
{
    match operation {
        Operation::InKind(op, kind) => in_kind(*op, *kind, left, right),
        Operation::ShiftIn(op, kind) => shifted(*op, *kind, left, right),
        Operation::CompareIn(op, kind) => {
            let left = wrap(*kind, left.number());
            let right = wrap(*kind, right.number());
            Word::bit(compared(*op, left, right))
        }
        Operation::Move(minus, size) => Word::address(moved_address(left, right, *size, *minus)),
        Operation::MoveBehind(size) => Word::address(moved_address(right, left, *size, false)),
        Operation::Measure(size) => measured(left, right, *size),
    }
}

/// The absolute value in a kind (C11 7.22.6.1).
pub fn absolute(kind: IntKind, number: Word) -> Word
    ensures { result ≡ absolute kind number }
{
    if number.number() < 0 {
        Word::wrapped(kind, -number.number())
    } else {
        number
    }
}

/// The value of `~` in a kind (C11 6.5.3.3p4).
pub fn flipped(kind: IntKind, number: Word) -> Word
    ensures { result ≡ wrap kind (negsuc 0 -ℤ number) }
{
    Word::wrapped(kind, -1 - number.number())
}

/// The truth of `y op 0`, or of `0 op y`, for a number y of a kind, in the common kind of y and `int`.
pub fn replaced_truth(zero_first: bool, op: CompareOp, kind: IntKind, number: Word) -> bool
    ensures { result ≡ replaced_truth zero_first op kind number }
{
    let number = wrap(common(kind, IntKind::Int), number.number());
    if zero_first {
        compared(op, 0, number)
    } else {
        compared(op, number, 0)
    }
}

//! The operators on numbers of at most 128 bits.
ghost use Rattle.std.specs.Prelude.{◌≡◌, ◌+◌, ◌-◌, ◌*◌, ◌/◌, ◌<◌, ◌≤◌, ◌^◌, ◌%◌, nat_eq, nat_lt, if◌then◌else◌, int_lt};
ghost use Rattle.stk_terms.specs.Values.{number_by, signed, extended, sign_bits};
ghost use Rattle.stk_terms.specs.Applying.{CanApply};

use crate::term::TermOp;

// The bits of a number below a width.
fn low(width: u8, number: u128) -> u128
    requires { width ≤ 128 }
    ensures { result ≡ number % 2 ^ width }
{
    if width == 128 {
        number
    } else {
        number % (1 << width)
    }
}

// The greatest number of a width.
fn greatest(width: u8) -> u128
    requires { width ≤ 128 }
    ensures { result ≡ 2 ^ width - 1 }
{
    if width == 128 {
        u128::MAX
    } else {
        (1 << width) - 1
    }
}

// Whether the first is below the second as signed numbers of a width.
fn is_less_signed(width: u8, left: u128, right: u128) -> bool
    requires width { 1 ≤ width }
    requires most { width ≤ 128 }
    requires left { left < 2 ^ width }
    requires right { right < 2 ^ width }
    ensures { result ≡ int_lt (signed width left) (signed width right) }
{
    let half = 1 << (width - 1);
    if left < half {
        right < half && left < right
    } else {
        right < half || left < right
    }
}

#[tactic(auto, using(crate::proofs::Wraps::masks))]
// The number with as many copies of its sign bit in front as the new width wants.
fn extend(width: u8, size: u8, number: u128) -> u128
    requires width { 1 ≤ width }
    requires wider { width ≤ size }
    requires most { size ≤ 128 }
    requires number { number < 2 ^ width }
    ensures { result ≡ extended width size number }
{
    if number < 1 << (width - 1) {
        number
    } else {
        number + (greatest(size) - greatest(width))
    }
}

// The quotient, 0 by 0.
fn quotient(left: u128, right: u128) -> u128
    ensures { result ≡ (if nat_eq right 0 then 0 else left / right) }
{
    if right == 0 { 0 } else { left / right }
}

// The remainder, the left operand by 0.
fn remainder(left: u128, right: u128) -> u128
    ensures { result ≡ (if nat_eq right 0 then left else left % right) }
{
    if right == 0 { left } else { left % right }
}

// The number modulo 2 to the width, with its sign turned.
fn negative(width: u8, number: u128) -> u128
    requires width { width ≤ 128 }
    requires number { number < 2 ^ width }
    ensures { result ≡ (2 ^ width - number) % 2 ^ width }
{
    if number == 0 {
        0
    } else {
        greatest(width) - number + 1
    }
}

#[tactic(auto, using(crate::proofs::Wraps::low_wrapped))]
// To the left.
fn shift_left(width: u8, number: u128, count: u128) -> u128
    requires { width ≤ 128 }
    ensures { result ≡ (if nat_lt count width then (number * 2 ^ count) % 2 ^ width else 0) }
{
    if count < width as u128 {
        low(width, number << count)
    } else {
        0
    }
}

// To the right, filled with zeros.
fn shift_right(width: u8, number: u128, count: u128) -> u128
    requires { width ≤ 128 }
    ensures { result ≡ (if nat_lt count width then number / 2 ^ count else 0) }
{
    if count < width as u128 {
        number >> count
    } else {
        0
    }
}

// All bits of a width as the sign bit of the number.
fn signs(width: u8, number: u128) -> u128
    requires width { 1 ≤ width }
    requires most { width ≤ 128 }
    ensures { result ≡ sign_bits width number }
{
    if number < 1 << (width - 1) {
        0
    } else {
        greatest(width)
    }
}

#[tactic(auto, using(crate::proofs::Wraps::shifted_within))]
// To the right, filled with the sign bit.
fn shift_right_signed(width: u8, number: u128, count: u128) -> u128
    requires width { 1 ≤ width }
    requires most { width ≤ 128 }
    requires number { number < 2 ^ width }
    ensures { result ≡ (if nat_lt count width then extended (width - count) width (number / 2 ^ count) else sign_bits width number) }
{
    if count < width as u128 {
        extend(width - count as u8, width, number >> count)
    } else {
        signs(width, number)
    }
}

#[tactic(auto, using(crate::proofs::Wraps::joined_whole, crate::proofs::Wraps::joined_fits))]
// The bits of the first in front of those of the second.
fn joined(first_width: u8, second_width: u8, first: u128, second: u128) -> u128
    requires some { 1 ≤ first_width }
    requires most { first_width + second_width ≤ 128 }
    requires first { first < 2 ^ first_width }
    requires second { second < 2 ^ second_width }
    ensures { result ≡ first * 2 ^ second_width + second }
{
    (first << second_width) + second
}

// The second where the test is 1, and else the third.
fn chosen(test: u128, yes: u128, no: u128) -> u128
    ensures { result ≡ (if nat_eq test 1 then yes else no) }
{
    if test == 1 { yes } else { no }
}

#[tactic(auto, using(crate::proofs::Wraps::low_wrapped, crate::proofs::Wraps::low_difference))]
/// The number of an operator for the numbers of its arguments, the widths of the first two of them, and the residues of
/// the inputs, to which `Input` alone looks. What an operator has no argument for may be any number. Sums, products and
/// shifts are modulo 2 to the width, also at 128 bits.
pub fn apply(
    op: TermOp,
    residues: &[u64],
    widths: (u8, u8),
    first: u128,
    second: u128,
    third: u128,
) -> u128
    requires { CanApply residues.now op widths.0 widths.1 first second }
    ensures { result ≡ number_by residues.now op widths.0 widths.1 first second third }
{
    let width = widths.0;
    match op {
        TermOp::Constant(_, number) => number,
        TermOp::Input(key) => residues[key as usize] as u128,
        TermOp::Not => greatest(width) - first,
        TermOp::Neg => negative(width, first),
        TermOp::And => first & second,
        TermOp::Or => first | second,
        TermOp::Xor => first ^ second,
        TermOp::Add => low(width, first.wrapping_add(second)),
        TermOp::Sub => low(width, first.wrapping_sub(second)),
        TermOp::Mul => low(width, first.wrapping_mul(second)),
        TermOp::UDiv => quotient(first, second),
        TermOp::URem => remainder(first, second),
        TermOp::Shl => shift_left(width, first, second),
        TermOp::LShr => shift_right(width, first, second),
        TermOp::AShr => shift_right_signed(width, first, second),
        TermOp::Eq => (first == second) as u128,
        TermOp::ULt => (first < second) as u128,
        TermOp::SLt => is_less_signed(width, first, second) as u128,
        TermOp::Extract(from, size) => low(size, first >> from),
        TermOp::ZeroExt(_) => first,
        TermOp::SignExt(size) => extend(width, size, first),
        TermOp::Concat => joined(width, widths.1, first, second),
        TermOp::Ite => chosen(first, second, third),
    }
}

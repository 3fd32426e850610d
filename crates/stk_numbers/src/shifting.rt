// Shifts.
ghost use Rattle.std.specs.Prelude.{◌≡◌, ℕ, ◌<◌, ◌≤◌, ◌^◌, IsTrue, pos};
ghost use Rattle.stk_numbers.specs.Kinds.{width_of, fits};
ghost use Rattle.stk_numbers.specs.declared.operators.ShiftOp.TheVariants.{Left};
ghost use Rattle.stk_numbers.specs.Values.{is_oversized, shifted, shifted_by};

use crate::kinds::{width, wrap};
use crate::operators::ShiftOp;
use stk_ctype::IntKind;

/// Whether a shift in a promoted kind has undefined behaviour: the count is below 0 or at least the width (C11
/// 6.5.7p3).
pub fn breaks_shift(kind: IntKind, count: i128) -> bool
    ensures { result ≡ is_oversized kind count }
{
    count < 0 || i128::from(width(kind)) <= count
}

/// 2 to a count below 64.
fn power(count: u8) -> i128
    requires { count < 64 }
    ensures { result ≡ pos (2 ^ count) }
{
    i128::from(1u64 << count)
}

/// The value of a left shift by a count below 64.
fn shifted_left(kind: IntKind, left: i128, count: u8) -> i128
    requires left { IsTrue (fits kind left) }
    requires count { count < 64 }
    ensures { result ≡ shifted_by Left kind left count }
{
    wrap(kind, left * power(count))
}

/// The value of a shift of a number of a kind (C11 6.5.7): the number of the kind that is congruent to the exact
/// result, a right shift being rounded down. For an undefined count it is 0, and -1 for a right shift of a negative
/// number.
pub fn shifted(op: ShiftOp, kind: IntKind, left: i128, count: i128) -> i128
    requires { IsTrue (fits kind left) }
    ensures { result ≡ shifted op kind left count }
{
    if breaks_shift(kind, count) {
        return match op {
            ShiftOp::Right if left < 0 => -1,
            ShiftOp::Left | ShiftOp::Right => 0,
        };
    }
    match op {
        ShiftOp::Left => shifted_left(kind, left, count as u8),
        ShiftOp::Right => left.div_euclid(power(count as u8)),
    }
}

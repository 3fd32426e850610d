// Addresses: pointer arithmetic, distances, bounds and copies.
ghost use Rattle.std.specs.Prelude.{◌≡◌, ◌<◌, ◌≤◌, ◌^◌, ◌-◌, ◌+◌, ◌≤ℤ◌, pos, negsuc, ℤ};
ghost use Rattle.stk_numbers.specs.Kinds.{fits, wrap};
ghost use Rattle.stk_numbers.specs.Values.{exact_move, moved, distance};
ghost use Rattle.stk_numbers.specs.Conditions.{leaves_memory, is_outside, apart, overlaps};

use crate::kinds::{fits, wrap};
use stk_ctype::IntKind;

/// The exact address so many elements of a size before or behind a base.
fn exact_move(base: u64, step: i128, size: u64, minus: bool) -> i128
    requires least { negsuc (2 ^ 63 - 1) ≤ℤ step }
    requires greatest { step ≤ℤ pos (2 ^ 64 - 1) }
    requires size { size < 2 ^ 31 }
    ensures { result ≡ exact_move base step size minus }
{
    let by = step * i128::from(size);
    if minus {
        i128::from(base) - by
    } else {
        i128::from(base) + by
    }
}

/// The address so many elements of a size, in bytes, before or behind a base, modulo 2^64 (C11 6.5.6).
///
/// The step is from -2^63 to 2^64 - 1.
pub fn moved(base: u64, step: i128, size: u64, minus: bool) -> u64
    requires least { negsuc (2 ^ 63 - 1) ≤ℤ step }
    requires greatest { step ≤ℤ pos (2 ^ 64 - 1) }
    requires size { size < 2 ^ 31 }
    ensures { result ≡ moved base step size minus }
{
    exact_move(base, step, size, minus).rem_euclid(18_446_744_073_709_551_616) as u64
}

/// Whether a pointer that is moved so leaves the address space: the exact address is below 0 or above 2^64 - 1.
///
/// The step is from -2^63 to 2^64 - 1.
pub fn breaks_move(base: u64, step: i128, size: u64, minus: bool) -> bool
    requires least { negsuc (2 ^ 63 - 1) ≤ℤ step }
    requires greatest { step ≤ℤ pos (2 ^ 64 - 1) }
    requires size { size < 2 ^ 31 }
    ensures { result ≡ leaves_memory base step size minus }
{
    !fits(IntKind::ULong, exact_move(base, step, size, minus))
}

/// How many elements of a size, in bytes, one address is behind another, as a `long`: their difference converted to
/// `long`, divided by the size and truncated towards zero (C11 6.5.6p9).
pub fn distance(left: u64, right: u64, size: u64) -> i128
    requires { 1 ≤ size }
    ensures { result ≡ distance left right size }
{
    wrap(IntKind::Long, i128::from(left) - i128::from(right)) / i128::from(size)
}

/// Whether an index is out of the bounds of an array of so many elements: it is below 0 or at least the count.
pub fn breaks_bounds(index: i128, count: u64) -> bool
    ensures { result ≡ is_outside index count }
{
    index < 0 || i128::from(count) <= index
}

/// Whether a copy of so many bytes from one address to another has undefined behaviour: the addresses are less than the
/// count apart (C11 7.24.2.1).
pub fn breaks_copy(to: u64, from: u64, count: u64) -> bool
    ensures { result ≡ overlaps to from count }
{
    let apart = if to < from { from - to } else { to - from };
    apart < count
}

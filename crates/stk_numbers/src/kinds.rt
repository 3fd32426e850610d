// The integer kinds: their widths, signs and ranges, and the conversion to a kind.
ghost use Rattle.std.specs.Prelude.{◌≡◌, pos, ◌^◌, ◌≤◌};
ghost use Rattle.stk_numbers.specs.Kinds.{width_of, is_signed, is_bool, least, greatest, fits, wrap};

use stk_ctype::IntKind;

/// The bits of a kind: 1, 8, 16, 32 or 64 (C11 6.2.5, LP64).
pub fn width(kind: IntKind) -> u8
    ensures { result ≡ width_of kind }
{
    match kind {
        IntKind::Bool => 1,
        IntKind::Char | IntKind::SChar | IntKind::UChar => 8,
        IntKind::Short | IntKind::UShort => 16,
        IntKind::Int | IntKind::UInt => 32,
        IntKind::Long | IntKind::ULong | IntKind::LLong | IntKind::ULLong => 64,
    }
}

/// Whether a kind has negative numbers. `char` has.
pub fn signed(kind: IntKind) -> bool
    ensures { result ≡ is_signed kind }
{
    match kind {
        IntKind::Char
        | IntKind::SChar
        | IntKind::Short
        | IntKind::Int
        | IntKind::Long
        | IntKind::LLong => true,
        IntKind::Bool
        | IntKind::UChar
        | IntKind::UShort
        | IntKind::UInt
        | IntKind::ULong
        | IntKind::ULLong => false,
    }
}

/// The least number of a kind.
pub(crate) fn least(kind: IntKind) -> i128
    ensures { result ≡ least kind }
{
    match kind {
        IntKind::Char | IntKind::SChar => -128,
        IntKind::Short => -32_768,
        IntKind::Int => -2_147_483_648,
        IntKind::Long | IntKind::LLong => -9_223_372_036_854_775_808,
        IntKind::Bool
        | IntKind::UChar
        | IntKind::UShort
        | IntKind::UInt
        | IntKind::ULong
        | IntKind::ULLong => 0,
    }
}

/// The greatest number of a kind.
pub(crate) fn greatest(kind: IntKind) -> i128
    ensures { result ≡ greatest kind }
{
    match kind {
        IntKind::Bool => 1,
        IntKind::Char | IntKind::SChar => 127,
        IntKind::UChar => 255,
        IntKind::Short => 32_767,
        IntKind::UShort => 65_535,
        IntKind::Int => 2_147_483_647,
        IntKind::UInt => 4_294_967_295,
        IntKind::Long | IntKind::LLong => 9_223_372_036_854_775_807,
        IntKind::ULong | IntKind::ULLong => 18_446_744_073_709_551_615,
    }
}

/// 2 to the width of a kind.
pub(crate) fn modulus(kind: IntKind) -> i128
    ensures { result ≡ pos (2 ^ width_of kind) }
{
    match kind {
        IntKind::Bool => 2,
        IntKind::Char | IntKind::SChar | IntKind::UChar => 256,
        IntKind::Short | IntKind::UShort => 65_536,
        IntKind::Int | IntKind::UInt => 4_294_967_296,
        IntKind::Long | IntKind::ULong | IntKind::LLong | IntKind::ULLong => {
            18_446_744_073_709_551_616
        }
    }
}

/// Whether a number is in the range of a kind.
pub fn fits(kind: IntKind, number: i128) -> bool
    ensures { result ≡ fits kind number }
{
    least(kind) <= number && number <= greatest(kind)
}

/// Whether a kind is `_Bool`.
fn is_bool(kind: IntKind) -> bool
    ensures { result ≡ is_bool kind }
{
    match kind {
        IntKind::Bool => true,
        IntKind::Char
        | IntKind::SChar
        | IntKind::UChar
        | IntKind::Short
        | IntKind::UShort
        | IntKind::Int
        | IntKind::UInt
        | IntKind::Long
        | IntKind::ULong
        | IntKind::LLong
        | IntKind::ULLong => false,
    }
}

/// A number converted to a kind: the number of its range that is congruent modulo 2 to the width, and for `_Bool` 0 for
/// 0 and else 1 (C11 6.3.1.2, 6.3.1.3).
pub fn wrap(kind: IntKind, number: i128) -> i128
    ensures { result ≡ wrap kind number }
{
    if is_bool(kind) {
        return if number == 0 { 0 } else { 1 };
    }
    let low = number.rem_euclid(modulus(kind));
    if low <= greatest(kind) {
        low
    } else {
        low - modulus(kind)
    }
}

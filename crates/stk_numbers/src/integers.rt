// Integer constants.
ghost use Rattle.std.specs.Prelude.{◌≡◌, ◌≤◌, ◌<◌, ◌^◌, ℕ};
ghost use Rattle.std.specs.Option.{option_map};
ghost use Rattle.stk_numbers.specs.Integers.{is_u, is_l, is_x, suffix_of, behind_hexadecimal, begins_with_zero, in_base, integer_constant};

use crate::digits::{count_digits, written};
use crate::{IntKind, Suffix, constant_kind};

/// Whether a byte is `u` or `U`.
fn is_u(byte: u8) -> bool
    ensures { result ≡ is_u byte }
{
    byte == b'u' || byte == b'U'
}

/// Whether a byte is `l` or `L`.
fn is_l(byte: u8) -> bool
    ensures { result ≡ is_l byte }
{
    byte == b'l' || byte == b'L'
}

/// The suffix that a text is, where it is one.
fn suffix_of(text: &[u8]) -> Option<Suffix>
    ensures { result ≡ suffix_of text.now }
{
    match text {
        [] => Some(Suffix::None),
        [a] => {
            if is_u(*a) {
                Some(Suffix::U)
            } else if is_l(*a) {
                Some(Suffix::L)
            } else {
                None
            }
        }
        [a, b] => {
            if (is_u(*a) && is_l(*b)) || (is_l(*a) && is_u(*b)) {
                Some(Suffix::UL)
            } else if is_l(*a) && *a == *b {
                Some(Suffix::LL)
            } else {
                None
            }
        }
        [a, b, c] => {
            if (is_u(*a) && is_l(*b) && *b == *c) || (is_l(*a) && *a == *b && is_u(*c)) {
                Some(Suffix::ULL)
            } else {
                None
            }
        }
        [_a, _b, _c, _d, _rest @ ..] => None,
    }
}

/// The kind and the number of a constant whose digits have a base: at least one digit, and then a suffix.
fn in_base(decimal: bool, base: u8, text: &[u8]) -> Option<(IntKind, u64)>
    requires { 1 ≤ base }
    ensures { result ≡ in_base decimal base text.now }
{
    let count = count_digits(base, text);
    if count == 0 {
        return None;
    }
    let (digits, rest) = text.split_at(count);
    let Some(number) = written(base, digits) else {
        return None;
    };
    let Some(suffix) = suffix_of(rest) else {
        return None;
    };
    match constant_kind(decimal, suffix, number) {
        Some(kind) => Some((kind, number)),
        None => None,
    }
}

/// Whether a byte is `x` or `X`.
fn is_x(byte: u8) -> bool
    ensures { result ≡ is_x byte }
{
    byte == b'x' || byte == b'X'
}

/// What comes behind `0x` or `0X`, where a text begins so.
fn behind_hexadecimal(text: &[u8]) -> Option<&[u8]>
    ensures { option_map (λ t. t.now) result ≡ behind_hexadecimal text.now }
{
    match text {
        [a, b, rest @ ..] => {
            if *a == b'0' && is_x(*b) {
                Some(rest)
            } else {
                None
            }
        }
        [_] | [] => None,
    }
}

/// Whether a text begins with 0.
fn begins_with_zero(text: &[u8]) -> bool
    ensures { result ≡ begins_with_zero text.now }
{
    match text {
        [a, _rest @ ..] => *a == b'0',
        [] => false,
    }
}

/// The kind and the number of an integer constant (C11 6.4.4.1), given as the bytes of its token.
///
/// `None` exactly where the text is no integer constant, as a floating one, or no kind of its list holds the number. It
/// takes time linear in the text.
pub fn integer_constant(text: &[u8]) -> Option<(IntKind, u64)>
    ensures { result ≡ integer_constant text.now }
{
    if let Some(digits) = behind_hexadecimal(text) {
        return in_base(false, 16, digits);
    }
    if begins_with_zero(text) {
        in_base(false, 8, text)
    } else {
        in_base(true, 10, text)
    }
}

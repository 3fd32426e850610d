// Character constants.
ghost use Rattle.std.specs.Prelude.{◌≡◌, ◌≤◌, ◌<◌, length, take};
ghost use Rattle.std.specs.Option.{option_map};
ghost use Rattle.stk_numbers.specs.Characters.{simple_escape, numeric_escape, octal_digits, escape_at, byte_at, between, character_constant};

use crate::digits::{count_digits, written};
use crate::{IntKind, wrap};

/// The byte of an escape of one letter or mark.
fn simple_escape(byte: u8) -> Option<u8>
    ensures { result ≡ simple_escape byte }
{
    match byte {
        b'\'' | b'"' | b'?' | b'\\' => Some(byte),
        b'a' => Some(7),
        b'b' => Some(8),
        b'f' => Some(12),
        b'n' => Some(10),
        b'r' => Some(13),
        b't' => Some(9),
        b'v' => Some(11),
        _ => None,
    }
}

/// The byte that digits of a base write, where there is a digit and the number is at most 255, and what comes behind
/// them.
fn numeric_escape<'a>(base: u8, digits: &[u8], rest: &'a [u8]) -> Option<(u8, &'a [u8])>
    requires { 1 ≤ base }
    ensures { option_map (λ p. (p.0, p.1.now)) result ≡ numeric_escape base digits.now rest.now }
{
    if digits.is_empty() {
        return None;
    }
    match written(base, digits) {
        Some(number) if number < 256 => Some((number as u8, rest)),
        Some(_) | None => None,
    }
}

/// How many octal digits a text begins with, of three at most.
fn octal_count(text: &[u8]) -> usize
    ensures within { result ≤ length text.now }
    ensures digits { take result text.now ≡ octal_digits text.now }
{
    let front = if text.len() > 3 { &text[..3] } else { text };
    count_digits(8, front)
}

/// The byte of an escape, behind its backslash, and what comes behind it.
fn escape_at(text: &[u8]) -> Option<(u8, &[u8])>
    ensures { option_map (λ p. (p.0, p.1.now)) result ≡ escape_at text.now }
{
    let Some((first, rest)) = text.split_first() else {
        return None;
    };
    if let Some(byte) = simple_escape(*first) {
        return Some((byte, rest));
    }
    if *first == b'x' {
        let (digits, behind) = rest.split_at(count_digits(16, rest));
        return numeric_escape(16, digits, behind);
    }
    let (digits, behind) = text.split_at(octal_count(text));
    numeric_escape(8, digits, behind)
}

/// The byte that a text begins with, as itself or as an escape, and what comes behind it.
pub(crate) fn byte_at(text: &[u8]) -> Option<(u8, &[u8])>
    ensures { option_map (λ p. (p.0, p.1.now)) result ≡ byte_at text.now }
{
    let Some((first, rest)) = text.split_first() else {
        return None;
    };
    if *first == b'\\' {
        escape_at(rest)
    } else {
        Some((*first, rest))
    }
}

/// The text between two quotes.
pub(crate) fn between(quote: u8, text: &[u8]) -> Option<&[u8]>
    ensures { option_map (λ t. t.now) result ≡ between quote text.now }
{
    let Some((first, rest)) = text.split_first() else {
        return None;
    };
    let Some((last, inside)) = rest.split_last() else {
        return None;
    };
    if *first == quote && *last == quote {
        Some(inside)
    } else {
        None
    }
}

/// The number of a character constant (C11 6.4.4.4), given as the bytes of its token: the byte of its character or
/// escape, as a `char`, which is signed.
///
/// `None` exactly where the constant has a prefix, has no byte or more than one between its quotes, has an escape that
/// isn't one, or a value above 255. It takes time linear in the text.
pub fn character_constant(text: &[u8]) -> Option<i128>
    ensures { result ≡ character_constant text.now }
{
    let Some(inside) = between(b'\'', text) else {
        return None;
    };
    match byte_at(inside) {
        Some((byte, [])) => Some(wrap(IntKind::Char, i128::from(byte))),
        Some((_, [_, ..])) | None => None,
    }
}

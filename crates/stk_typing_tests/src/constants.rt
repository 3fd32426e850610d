// Tables of constants. Those that C has were computed by gcc.
use stk_base::Span;
use stk_numbers::{IntKind, character_constant, integer_constant, string_bytes};

// A letter for each kind that a constant may have; 0 for any other.
fn letter(kind: IntKind) -> u8 {
    match kind {
        IntKind::Int => b'i',
        IntKind::UInt => b'I',
        IntKind::Long => b'l',
        IntKind::ULong => b'L',
        IntKind::LLong => b'q',
        IntKind::ULLong => b'Q',
        IntKind::Bool
        | IntKind::Char
        | IntKind::SChar
        | IntKind::UChar
        | IntKind::Short
        | IntKind::UShort => 0,
    }
}

// Whether a text is a constant of the kind with this letter and of this number.
fn is_integer(text: &[u8], expected: u8, value: u64) -> bool {
    match integer_constant(text) {
        Some((kind, number)) => letter(kind) == expected && number == value,
        None => false,
    }
}

// Constants without a suffix or with a `u`: the text, the letter of the kind, the number.
static PLAIN: [(&[u8], u8, u64); 27] = [
    (b"2147483647", b'i', 2_147_483_647),
    (b"2147483648", b'l', 2_147_483_648),
    (b"9223372036854775807", b'l', 9_223_372_036_854_775_807),
    (b"0", b'i', 0),
    (b"00", b'i', 0),
    (b"017777777777", b'i', 2_147_483_647),
    (b"020000000000", b'I', 2_147_483_648),
    (b"037777777777", b'I', 4_294_967_295),
    (b"040000000000", b'l', 4_294_967_296),
    (b"0777777777777777777777", b'l', 9_223_372_036_854_775_807),
    (b"01000000000000000000000", b'L', 9_223_372_036_854_775_808),
    (b"01777777777777777777777", b'L', 18_446_744_073_709_551_615),
    (b"0x7fffffff", b'i', 2_147_483_647),
    (b"0x80000000", b'I', 2_147_483_648),
    (b"0XFFFFFFFF", b'I', 4_294_967_295),
    (b"0x100000000", b'l', 4_294_967_296),
    (b"0x7fffffffffffffff", b'l', 9_223_372_036_854_775_807),
    (b"0x8000000000000000", b'L', 9_223_372_036_854_775_808),
    (b"0xffffffffffffffff", b'L', 18_446_744_073_709_551_615),
    (b"0xaBcDeF", b'i', 11_259_375),
    (b"4294967295u", b'I', 4_294_967_295),
    (b"4294967296U", b'L', 4_294_967_296),
    (b"18446744073709551615u", b'L', 18_446_744_073_709_551_615),
    (b"0xffffffffU", b'I', 4_294_967_295),
    (b"0x100000000u", b'L', 4_294_967_296),
    (b"037777777777u", b'I', 4_294_967_295),
    (b"040000000000U", b'L', 4_294_967_296),
];

// Constants with an `l` or `ll`.
static LONG: [(&[u8], u8, u64); 29] = [
    (b"9223372036854775807l", b'l', 9_223_372_036_854_775_807),
    (b"0x7fffffffffffffffL", b'l', 9_223_372_036_854_775_807),
    (b"0x8000000000000000l", b'L', 9_223_372_036_854_775_808),
    (b"0xffffffffffffffffL", b'L', 18_446_744_073_709_551_615),
    (b"0777777777777777777777l", b'l', 9_223_372_036_854_775_807),
    (b"01000000000000000000000L", b'L', 9_223_372_036_854_775_808),
    (b"1ul", b'L', 1),
    (b"1uL", b'L', 1),
    (b"1Ul", b'L', 1),
    (b"1UL", b'L', 1),
    (b"1lu", b'L', 1),
    (b"1lU", b'L', 1),
    (b"1Lu", b'L', 1),
    (b"18446744073709551615LU", b'L', 18_446_744_073_709_551_615),
    (b"0xffffffffffffffffuL", b'L', 18_446_744_073_709_551_615),
    (b"9223372036854775807ll", b'q', 9_223_372_036_854_775_807),
    (b"0x7fffffffffffffffll", b'q', 9_223_372_036_854_775_807),
    (b"0x8000000000000000LL", b'Q', 9_223_372_036_854_775_808),
    (b"0xffffffffffffffffll", b'Q', 18_446_744_073_709_551_615),
    (
        b"01000000000000000000000LL",
        b'Q',
        9_223_372_036_854_775_808,
    ),
    (b"1ull", b'Q', 1),
    (b"1uLL", b'Q', 1),
    (b"1Ull", b'Q', 1),
    (b"1ULL", b'Q', 1),
    (b"1llu", b'Q', 1),
    (b"1llU", b'Q', 1),
    (b"1LLu", b'Q', 1),
    (b"18446744073709551615LLU", b'Q', 18_446_744_073_709_551_615),
    (b"0xffffffffffffffffull", b'Q', 18_446_744_073_709_551_615),
];

#[test]
fn integer_constants_are_read(rt: HostRuntime) {
    for (text, kind, number) in &PLAIN {
        assert!(rt; is_integer(text, *kind, *number));
    }
    for (text, kind, number) in &LONG {
        assert!(rt; is_integer(text, *kind, *number));
    }
}

// Texts that are no integer constant, or whose number no kind of their list holds.
static NO_INTEGERS: [&[u8]; 28] = [
    b"9223372036854775808",
    b"02000000000000000000000",
    b"0x10000000000000000",
    b"18446744073709551616u",
    b"9223372036854775808L",
    b"0x10000000000000000L",
    b"18446744073709551616UL",
    b"9223372036854775808LL",
    b"0x10000000000000000ll",
    b"18446744073709551616ULL",
    b"99999999999999999999999999999999999999999999999999",
    b"08",
    b"0x",
    b"0xu",
    b"0xg",
    b"0b1",
    b"1.0",
    b"1e5",
    b"0x1p3",
    b"1lL",
    b"1Ll",
    b"1uu",
    b"1lul",
    b"1lll",
    b"1ulL",
    b"1ullu",
    b"1x",
    b".5",
];

#[test]
fn other_numbers_are_refused(rt: HostRuntime) {
    for text in &NO_INTEGERS {
        assert!(rt; integer_constant(text).is_none());
    }
    assert!(rt; integer_constant(b"").is_none());
}

// Character constants and their numbers.
static CHARACTERS: [(&[u8], i128); 25] = [
    (b"'a'", 97),
    (b"'\\''", 39),
    (b"'\"'", 34),
    (b"'\\\"'", 34),
    (b"'?'", 63),
    (b"'\\?'", 63),
    (b"'\\\\'", 92),
    (b"'\\a'", 7),
    (b"'\\b'", 8),
    (b"'\\f'", 12),
    (b"'\\n'", 10),
    (b"'\\r'", 13),
    (b"'\\t'", 9),
    (b"'\\v'", 11),
    (b"'\\0'", 0),
    (b"'\\7'", 7),
    (b"'\\12'", 10),
    (b"'\\123'", 83),
    (b"'\\177'", 127),
    (b"'\\200'", -128),
    (b"'\\377'", -1),
    (b"'\\x0'", 0),
    (b"'\\x41'", 65),
    (b"'\\xfF'", -1),
    (b"'\\x0000000000000000000041'", 65),
];

// Character constants that are refused.
static NO_CHARACTERS: [&[u8]; 13] = [
    b"''",
    b"'ab'",
    b"'\\400'",
    b"'\\777'",
    b"'\\x100'",
    b"'\\x'",
    b"'\\8'",
    b"'\\q'",
    b"'\\1234'",
    b"L'a'",
    b"u'a'",
    b"U'a'",
    b"'a",
];

#[test]
fn character_constants_are_read(rt: HostRuntime) {
    for (text, number) in &CHARACTERS {
        assert!(rt; character_constant(text) == Some(*number));
    }
    for text in &NO_CHARACTERS {
        assert!(rt; character_constant(text).is_none());
    }
    assert!(rt; character_constant(b"").is_none());
    assert!(rt; character_constant(b"'\xe9'") == Some(-23));
}

// An input, the literals in it, and the bytes of the string that they are.
static STRINGS: [(&[u8], &[Span], &[u8]); 7] = [
    (b"\"\"", &[Span { from: 0, to: 2 }], b""),
    (
        b"\"ab\" \"c\"",
        &[Span { from: 0, to: 4 }, Span { from: 5, to: 8 }],
        b"abc",
    ),
    (
        b"\"\\x1\" \"2\"",
        &[Span { from: 0, to: 5 }, Span { from: 6, to: 9 }],
        b"\x012",
    ),
    (b"\"\\0123\"", &[Span { from: 0, to: 7 }], b"\x0a3"),
    (
        b"\"\\1\\12\\377\\\"'\"",
        &[Span { from: 0, to: 14 }],
        b"\x01\x0a\xff\"'",
    ),
    (
        b"\"a\\n\" \"\" \"\\\\\"",
        &[
            Span { from: 0, to: 5 },
            Span { from: 6, to: 8 },
            Span { from: 9, to: 13 },
        ],
        b"a\x0a\\",
    ),
    (b"\"'\"", &[Span { from: 0, to: 3 }], b"'"),
];

// The same of strings that are refused.
static NO_STRINGS: [(&[u8], &[Span]); 6] = [
    (b"L\"a\"", &[Span { from: 0, to: 4 }]),
    (
        b"\"a\" u8\"b\"",
        &[Span { from: 0, to: 3 }, Span { from: 4, to: 9 }],
    ),
    (b"\"\\400\"", &[Span { from: 0, to: 6 }]),
    (b"\"\\q\"", &[Span { from: 0, to: 4 }]),
    (
        b"\"a\" \"\\x\"",
        &[Span { from: 0, to: 3 }, Span { from: 4, to: 8 }],
    ),
    (b"\"a", &[Span { from: 0, to: 2 }]),
];

#[test]
fn strings_have_their_bytes(rt: HostRuntime) {
    for (input, literals, expected) in &STRINGS {
        match string_bytes(rt.alloc(), input, literals) {
            Ok(Some(found)) => assert!(rt; found.as_slice() == *expected),
            Ok(None) | Err(_) => assert!(rt; false),
        }
    }
    for (input, literals) in &NO_STRINGS {
        match string_bytes(rt.alloc(), input, literals) {
            Ok(found) => assert!(rt; found.is_none()),
            Err(_) => assert!(rt; false),
        }
    }
}

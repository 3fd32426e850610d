// Tables of values. Those that are defined were computed by gcc.
use std::process::Abort;
use stk_numbers::{
    ArithOp, CompareOp, IntKind, Kinds, ShiftOp, Suffix, UbKind, absolute, arith, breaks,
    breaks_abs, breaks_bounds, breaks_copy, breaks_move, breaks_shift, common, compared,
    constant_kind, distance, fits, moved, promote, shifted, signed, width, wrap,
};

static KINDS: [IntKind; 12] = [
    IntKind::Bool,
    IntKind::Char,
    IntKind::SChar,
    IntKind::UChar,
    IntKind::Short,
    IntKind::UShort,
    IntKind::Int,
    IntKind::UInt,
    IntKind::Long,
    IntKind::ULong,
    IntKind::LLong,
    IntKind::ULLong,
];

// A letter for each kind, in the order of the table.
fn letter(kind: IntKind) -> u8 {
    match kind {
        IntKind::Bool => b'b',
        IntKind::Char => b'c',
        IntKind::SChar => b's',
        IntKind::UChar => b'C',
        IntKind::Short => b'h',
        IntKind::UShort => b'H',
        IntKind::Int => b'i',
        IntKind::UInt => b'I',
        IntKind::Long => b'l',
        IntKind::ULong => b'L',
        IntKind::LLong => b'q',
        IntKind::ULLong => b'Q',
    }
}

// For each kind the common kind with each kind.
static COMMON: [&[u8]; 12] = [
    b"iiiiiiiIlLqQ",
    b"iiiiiiiIlLqQ",
    b"iiiiiiiIlLqQ",
    b"iiiiiiiIlLqQ",
    b"iiiiiiiIlLqQ",
    b"iiiiiiiIlLqQ",
    b"iiiiiiiIlLqQ",
    b"IIIIIIIIlLqQ",
    b"lllllllllLqQ",
    b"LLLLLLLLLLQQ",
    b"qqqqqqqqqQqQ",
    b"QQQQQQQQQQQQ",
];

#[test]
fn each_two_kinds_have_their_common_kind(rt: HostRuntime) {
    for (left, row) in KINDS.iter().zip(COMMON.iter()) {
        for (right, expected) in KINDS.iter().zip(row.iter()) {
            assert!(rt; letter(common(*left, *right)) == *expected);
        }
    }
}

// A kind, its width, whether it is signed, its promoted kind, and its least and greatest number.
static RANGES: [(IntKind, u8, bool, u8, i128, i128); 12] = [
    (IntKind::Bool, 1, false, b'i', 0, 1),
    (IntKind::Char, 8, true, b'i', -128, 127),
    (IntKind::SChar, 8, true, b'i', -128, 127),
    (IntKind::UChar, 8, false, b'i', 0, 255),
    (IntKind::Short, 16, true, b'i', -32_768, 32_767),
    (IntKind::UShort, 16, false, b'i', 0, 65_535),
    (IntKind::Int, 32, true, b'i', -2_147_483_648, 2_147_483_647),
    (IntKind::UInt, 32, false, b'I', 0, 4_294_967_295),
    (
        IntKind::Long,
        64,
        true,
        b'l',
        -9_223_372_036_854_775_808,
        9_223_372_036_854_775_807,
    ),
    (
        IntKind::ULong,
        64,
        false,
        b'L',
        0,
        18_446_744_073_709_551_615,
    ),
    (
        IntKind::LLong,
        64,
        true,
        b'q',
        -9_223_372_036_854_775_808,
        9_223_372_036_854_775_807,
    ),
    (
        IntKind::ULLong,
        64,
        false,
        b'Q',
        0,
        18_446_744_073_709_551_615,
    ),
];

#[test]
fn each_kind_has_its_range(rt: HostRuntime) {
    for (kind, bits, sign, promoted, least, greatest) in &RANGES {
        assert!(rt; width(*kind) == *bits && signed(*kind) == *sign);
        assert!(rt; letter(promote(*kind)) == *promoted);
        assert!(rt; fits(*kind, *least) && wrap(*kind, *least) == *least);
        assert!(rt; fits(*kind, *greatest) && wrap(*kind, *greatest) == *greatest);
        assert!(rt; breaks_abs(*kind, *least) && !breaks_abs(*kind, *greatest));
    }
}

// A kind, a number that isn't in its range, and the number converted to the kind.
static WRAPPED: [(IntKind, i128, i128); 11] = [
    (IntKind::SChar, 200, -56),
    (IntKind::SChar, -129, 127),
    (IntKind::UChar, -1, 255),
    (IntKind::Short, 32_768, -32_768),
    (IntKind::UShort, -1, 65_535),
    (IntKind::Int, 2_147_483_648, -2_147_483_648),
    (IntKind::Int, -2_147_483_649, 2_147_483_647),
    (IntKind::UInt, -1, 4_294_967_295),
    (
        IntKind::Long,
        9_223_372_036_854_775_808,
        -9_223_372_036_854_775_808,
    ),
    (IntKind::Bool, 256, 1),
    (IntKind::Bool, -1, 1),
];

#[test]
fn numbers_are_converted(rt: HostRuntime) {
    for (kind, number, converted) in &WRAPPED {
        assert!(rt; !fits(*kind, *number) && wrap(*kind, *number) == *converted);
    }
}

// An operator, the kind of its operands, the operands, the value, and the number of the condition that is violated, or
// 0.
type ArithRow = (ArithOp, IntKind, i128, i128, i128, u8);

static VALUES: [ArithRow; 30] = [
    (ArithOp::Add, IntKind::Int, 250, 250, 500, 0),
    (
        ArithOp::Add,
        IntKind::Int,
        2_147_483_647,
        1,
        -2_147_483_648,
        1,
    ),
    (ArithOp::Add, IntKind::UInt, 4_294_967_295, 1, 0, 0),
    (ArithOp::Sub, IntKind::UInt, 0, 1, 4_294_967_295, 0),
    (
        ArithOp::Sub,
        IntKind::Int,
        0,
        -2_147_483_648,
        -2_147_483_648,
        1,
    ),
    (
        ArithOp::Sub,
        IntKind::Long,
        -9_223_372_036_854_775_808,
        1,
        9_223_372_036_854_775_807,
        1,
    ),
    (
        ArithOp::Mul,
        IntKind::ULong,
        18_446_744_073_709_551_615,
        18_446_744_073_709_551_615,
        1,
        0,
    ),
    (
        ArithOp::Mul,
        IntKind::ULLong,
        9_223_372_036_854_775_808,
        2,
        0,
        0,
    ),
    (
        ArithOp::Mul,
        IntKind::UInt,
        4_294_967_295,
        4_294_967_295,
        1,
        0,
    ),
    (
        ArithOp::Mul,
        IntKind::Int,
        65_536,
        32_768,
        -2_147_483_648,
        1,
    ),
    (
        ArithOp::Mul,
        IntKind::Int,
        -65_536,
        32_768,
        -2_147_483_648,
        0,
    ),
    (
        ArithOp::Mul,
        IntKind::Long,
        -9_223_372_036_854_775_808,
        -9_223_372_036_854_775_808,
        0,
        1,
    ),
    (ArithOp::Div, IntKind::Int, -7, 2, -3, 0),
    (ArithOp::Rem, IntKind::Int, -7, 2, -1, 0),
    (ArithOp::Div, IntKind::Int, 7, -2, -3, 0),
    (ArithOp::Rem, IntKind::Int, 7, -2, 1, 0),
    (
        ArithOp::Div,
        IntKind::UInt,
        3_000_000_000,
        2,
        1_500_000_000,
        0,
    ),
    (ArithOp::Rem, IntKind::UInt, 3_000_000_000, 7, 4, 0),
    (ArithOp::Div, IntKind::Int, 7, 0, 0, 2),
    (ArithOp::Rem, IntKind::Int, -7, 0, -7, 2),
    (
        ArithOp::Div,
        IntKind::Int,
        -2_147_483_648,
        -1,
        -2_147_483_648,
        1,
    ),
    (ArithOp::Rem, IntKind::Int, -2_147_483_648, -1, 0, 1),
    (
        ArithOp::Div,
        IntKind::Long,
        -9_223_372_036_854_775_808,
        -1,
        -9_223_372_036_854_775_808,
        1,
    ),
    (ArithOp::Div, IntKind::Int, -1, -2_147_483_648, 0, 0),
    (ArithOp::And, IntKind::Int, -6, 11, 10, 0),
    (ArithOp::Or, IntKind::Int, -6, 11, -5, 0),
    (ArithOp::Xor, IntKind::Int, -6, 11, -15, 0),
    (
        ArithOp::And,
        IntKind::Int,
        -1,
        -2_147_483_648,
        -2_147_483_648,
        0,
    ),
    (ArithOp::Xor, IntKind::Int, 0, -1, -1, 0),
    (ArithOp::And, IntKind::UInt, 5, 4_294_967_290, 0, 0),
];

// The number of the condition that an operator violates, or 0.
fn broken(rt: &impl Abort, op: ArithOp, kind: IntKind, left: i128, right: i128) -> u8 {
    assert!(rt; fits(kind, left));
    assert!(rt; fits(kind, right));
    if breaks(UbKind::Overflow, op, kind, left, right) {
        UbKind::Overflow.number()
    } else if breaks(UbKind::Zero, op, kind, left, right) {
        UbKind::Zero.number()
    } else {
        0
    }
}

#[test]
fn operators_have_their_values(rt: HostRuntime) {
    for (op, kind, left, right, value, condition) in &VALUES {
        assert!(rt; broken(&rt, *op, *kind, *left, *right) == *condition);
        assert!(rt; fits(*kind, *left));
        assert!(rt; fits(*kind, *right));
        assert!(rt; arith(*op, *kind, *left, *right) == *value);
    }
}

static OPERATORS: [ArithOp; 8] = [
    ArithOp::Add,
    ArithOp::Sub,
    ArithOp::Mul,
    ArithOp::Div,
    ArithOp::Rem,
    ArithOp::And,
    ArithOp::Xor,
    ArithOp::Or,
];

// A kind that operands may have together, two ends of its range, and for each operator the value and the number of the
// condition that is violated.
type EndsRow = (IntKind, i128, i128, [i128; 8], &'static [u8]);

static ENDS: [EndsRow; 24] = [
    (
        IntKind::Int,
        -2_147_483_648,
        -2_147_483_648,
        [0, 0, 0, 1, 0, -2_147_483_648, 0, -2_147_483_648],
        b"10100000",
    ),
    (
        IntKind::Int,
        -2_147_483_648,
        2_147_483_647,
        [-1, 1, -2_147_483_648, -1, -1, 0, -1, -1],
        b"01100000",
    ),
    (
        IntKind::Int,
        2_147_483_647,
        -2_147_483_648,
        [-1, -1, -2_147_483_648, 0, 2_147_483_647, 0, -1, -1],
        b"01100000",
    ),
    (
        IntKind::Int,
        2_147_483_647,
        2_147_483_647,
        [-2, 0, 1, 1, 0, 2_147_483_647, 0, 2_147_483_647],
        b"10100000",
    ),
    (IntKind::UInt, 0, 0, [0, 0, 0, 0, 0, 0, 0, 0], b"00022000"),
    (
        IntKind::UInt,
        0,
        4_294_967_295,
        [4_294_967_295, 1, 0, 0, 0, 0, 4_294_967_295, 4_294_967_295],
        b"00000000",
    ),
    (
        IntKind::UInt,
        4_294_967_295,
        0,
        [
            4_294_967_295,
            4_294_967_295,
            0,
            0,
            4_294_967_295,
            0,
            4_294_967_295,
            4_294_967_295,
        ],
        b"00022000",
    ),
    (
        IntKind::UInt,
        4_294_967_295,
        4_294_967_295,
        [4_294_967_294, 0, 1, 1, 0, 4_294_967_295, 0, 4_294_967_295],
        b"00000000",
    ),
    (
        IntKind::Long,
        -9_223_372_036_854_775_808,
        -9_223_372_036_854_775_808,
        [
            0,
            0,
            0,
            1,
            0,
            -9_223_372_036_854_775_808,
            0,
            -9_223_372_036_854_775_808,
        ],
        b"10100000",
    ),
    (
        IntKind::Long,
        -9_223_372_036_854_775_808,
        9_223_372_036_854_775_807,
        [-1, 1, -9_223_372_036_854_775_808, -1, -1, 0, -1, -1],
        b"01100000",
    ),
    (
        IntKind::Long,
        9_223_372_036_854_775_807,
        -9_223_372_036_854_775_808,
        [
            -1,
            -1,
            -9_223_372_036_854_775_808,
            0,
            9_223_372_036_854_775_807,
            0,
            -1,
            -1,
        ],
        b"01100000",
    ),
    (
        IntKind::Long,
        9_223_372_036_854_775_807,
        9_223_372_036_854_775_807,
        [
            -2,
            0,
            1,
            1,
            0,
            9_223_372_036_854_775_807,
            0,
            9_223_372_036_854_775_807,
        ],
        b"10100000",
    ),
    (IntKind::ULong, 0, 0, [0, 0, 0, 0, 0, 0, 0, 0], b"00022000"),
    (
        IntKind::ULong,
        0,
        18_446_744_073_709_551_615,
        [
            18_446_744_073_709_551_615,
            1,
            0,
            0,
            0,
            0,
            18_446_744_073_709_551_615,
            18_446_744_073_709_551_615,
        ],
        b"00000000",
    ),
    (
        IntKind::ULong,
        18_446_744_073_709_551_615,
        0,
        [
            18_446_744_073_709_551_615,
            18_446_744_073_709_551_615,
            0,
            0,
            18_446_744_073_709_551_615,
            0,
            18_446_744_073_709_551_615,
            18_446_744_073_709_551_615,
        ],
        b"00022000",
    ),
    (
        IntKind::ULong,
        18_446_744_073_709_551_615,
        18_446_744_073_709_551_615,
        [
            18_446_744_073_709_551_614,
            0,
            1,
            1,
            0,
            18_446_744_073_709_551_615,
            0,
            18_446_744_073_709_551_615,
        ],
        b"00000000",
    ),
    (
        IntKind::LLong,
        -9_223_372_036_854_775_808,
        -9_223_372_036_854_775_808,
        [
            0,
            0,
            0,
            1,
            0,
            -9_223_372_036_854_775_808,
            0,
            -9_223_372_036_854_775_808,
        ],
        b"10100000",
    ),
    (
        IntKind::LLong,
        -9_223_372_036_854_775_808,
        9_223_372_036_854_775_807,
        [-1, 1, -9_223_372_036_854_775_808, -1, -1, 0, -1, -1],
        b"01100000",
    ),
    (
        IntKind::LLong,
        9_223_372_036_854_775_807,
        -9_223_372_036_854_775_808,
        [
            -1,
            -1,
            -9_223_372_036_854_775_808,
            0,
            9_223_372_036_854_775_807,
            0,
            -1,
            -1,
        ],
        b"01100000",
    ),
    (
        IntKind::LLong,
        9_223_372_036_854_775_807,
        9_223_372_036_854_775_807,
        [
            -2,
            0,
            1,
            1,
            0,
            9_223_372_036_854_775_807,
            0,
            9_223_372_036_854_775_807,
        ],
        b"10100000",
    ),
    (IntKind::ULLong, 0, 0, [0, 0, 0, 0, 0, 0, 0, 0], b"00022000"),
    (
        IntKind::ULLong,
        0,
        18_446_744_073_709_551_615,
        [
            18_446_744_073_709_551_615,
            1,
            0,
            0,
            0,
            0,
            18_446_744_073_709_551_615,
            18_446_744_073_709_551_615,
        ],
        b"00000000",
    ),
    (
        IntKind::ULLong,
        18_446_744_073_709_551_615,
        0,
        [
            18_446_744_073_709_551_615,
            18_446_744_073_709_551_615,
            0,
            0,
            18_446_744_073_709_551_615,
            0,
            18_446_744_073_709_551_615,
            18_446_744_073_709_551_615,
        ],
        b"00022000",
    ),
    (
        IntKind::ULLong,
        18_446_744_073_709_551_615,
        18_446_744_073_709_551_615,
        [
            18_446_744_073_709_551_614,
            0,
            1,
            1,
            0,
            18_446_744_073_709_551_615,
            0,
            18_446_744_073_709_551_615,
        ],
        b"00000000",
    ),
];

// Whether an operator has this value and violates the condition with this digit.
fn has_value(
    rt: &impl Abort,
    op: ArithOp,
    kind: IntKind,
    left: i128,
    right: i128,
    value: i128,
    condition: u8,
) -> bool {
    assert!(rt; fits(kind, left));
    assert!(rt; fits(kind, right));
    let digit = match broken(rt, op, kind, left, right) {
        0 => b'0',
        1 => b'1',
        _ => b'2',
    };
    arith(op, kind, left, right) == value && digit == condition
}

#[test]
fn ends_have_their_values(rt: HostRuntime) {
    for (kind, left, right, values, conditions) in &ENDS {
        for ((op, value), condition) in OPERATORS.iter().zip(values.iter()).zip(conditions.iter()) {
            assert!(rt; has_value(&rt, *op, *kind, *left, *right, *value, *condition));
        }
    }
}

// A shift, its kind, its operands, its value, and whether it is oversized.
type ShiftRow = (ShiftOp, IntKind, i128, i128, i128, bool);

static SHIFTS: [ShiftRow; 18] = [
    (ShiftOp::Right, IntKind::Int, -8, 1, -4, false),
    (ShiftOp::Right, IntKind::Int, -7, 1, -4, false),
    (ShiftOp::Right, IntKind::Int, -1, 31, -1, false),
    (ShiftOp::Right, IntKind::Int, -8, 32, -1, true),
    (ShiftOp::Right, IntKind::Int, 8, -1, 0, true),
    (ShiftOp::Right, IntKind::Int, 8, 0, 8, false),
    (ShiftOp::Left, IntKind::Int, 1, 31, -2_147_483_648, false),
    (ShiftOp::Left, IntKind::Int, 1, 32, 0, true),
    (ShiftOp::Left, IntKind::Int, -1, -1, 0, true),
    (ShiftOp::Left, IntKind::UInt, 1, 31, 2_147_483_648, false),
    (
        ShiftOp::Left,
        IntKind::UInt,
        4_294_967_295,
        4,
        4_294_967_280,
        false,
    ),
    (
        ShiftOp::Left,
        IntKind::ULong,
        1,
        63,
        9_223_372_036_854_775_808,
        false,
    ),
    (
        ShiftOp::Left,
        IntKind::ULong,
        18_446_744_073_709_551_615,
        63,
        9_223_372_036_854_775_808,
        false,
    ),
    (ShiftOp::Left, IntKind::ULong, 1, 64, 0, true),
    (
        ShiftOp::Right,
        IntKind::ULong,
        18_446_744_073_709_551_615,
        63,
        1,
        false,
    ),
    (
        ShiftOp::Right,
        IntKind::Long,
        -9_223_372_036_854_775_808,
        63,
        -1,
        false,
    ),
    (ShiftOp::Right, IntKind::Long, -1, 64, -1, true),
    (
        ShiftOp::Left,
        IntKind::Long,
        -1,
        63,
        -9_223_372_036_854_775_808,
        false,
    ),
];

#[test]
fn shifts_have_their_values(rt: HostRuntime) {
    for (op, kind, left, count, value, oversized) in &SHIFTS {
        assert!(rt; breaks_shift(*kind, *count) == *oversized);
        assert!(rt; fits(*kind, *left));
        assert!(rt; shifted(*op, *kind, *left, *count) == *value);
    }
}

// A base, a step, a size, whether the step is taken away, the address, and whether it leaves the address space.
static MOVES: [(u64, i128, u64, bool, u64, bool); 7] = [
    (1000, 3, 4, false, 1012, false),
    (1000, 3, 4, true, 988, false),
    (8, -3, 4, false, 18_446_744_073_709_551_612, true),
    (8, 3, 4, true, 18_446_744_073_709_551_612, true),
    (18_446_744_073_709_551_615, 1, 1, false, 0, true),
    (12, -3, 4, false, 0, false),
    (
        1,
        18_446_744_073_709_551_615,
        2_147_483_647,
        false,
        18_446_744_071_562_067_970,
        true,
    ),
];

#[test]
fn addresses_are_moved(rt: HostRuntime) {
    for (base, step, size, minus, address, leaves) in &MOVES {
        assert!(rt; -9_223_372_036_854_775_808 <= *step);
        assert!(rt; *step <= 18_446_744_073_709_551_615);
        assert!(rt; *size < 2_147_483_648);
        assert!(rt; moved(*base, *step, *size, *minus) == *address);
        assert!(rt; breaks_move(*base, *step, *size, *minus) == *leaves);
    }
}

#[test]
fn addresses_are_compared(rt: HostRuntime) {
    assert!(rt; distance(1012, 1000, 4) == 3);
    assert!(rt; distance(1000, 1011, 4) == -2);
    assert!(rt; distance(18_446_744_073_709_551_615, 0, 1) == -1);
    assert!(rt; breaks_bounds(-1, 4) && breaks_bounds(4, 4) && !breaks_bounds(3, 4));
    assert!(rt; breaks_copy(8, 8, 1) && breaks_copy(8, 10, 3) && breaks_copy(10, 8, 3));
    assert!(rt; !breaks_copy(8, 8, 0) && !breaks_copy(8, 10, 2) && !breaks_copy(10, 8, 2));
}

#[test]
fn numbers_are_compared(rt: HostRuntime) {
    let none = Kinds {
        overflow: false,
        zero: true,
        shift: false,
        null: false,
        pointer: false,
        bounds: false,
        abs: false,
        copy: false,
    };
    assert!(rt; none.has(UbKind::Zero) && !none.has(UbKind::Overlap));
    assert!(rt; compared(CompareOp::Lt, -1, 0) && !compared(CompareOp::Gt, -1, 0));
    assert!(rt; compared(CompareOp::Le, 2, 2) && compared(CompareOp::Ge, 2, 2));
    assert!(rt; compared(CompareOp::Eq, 2, 2) && !compared(CompareOp::Ne, 2, 2));
    assert!(rt; fits(IntKind::Int, -2_147_483_648));
    assert!(rt; absolute(IntKind::Int, -2_147_483_648) == -2_147_483_648);
    assert!(rt; fits(IntKind::Int, -7));
    assert!(rt; absolute(IntKind::Int, -7) == 7);
}

// Whether a constant is decimal, its suffix, its number, and the letter of its kind; 0 for none.
static CONSTANTS: [(bool, Suffix, u64, u8); 24] = [
    (true, Suffix::None, 2_147_483_647, b'i'),
    (true, Suffix::None, 2_147_483_648, b'l'),
    (true, Suffix::None, 9_223_372_036_854_775_807, b'l'),
    (true, Suffix::None, 9_223_372_036_854_775_808, 0),
    (false, Suffix::None, 0x7fff_ffff, b'i'),
    (false, Suffix::None, 0x8000_0000, b'I'),
    (false, Suffix::None, 0xffff_ffff, b'I'),
    (false, Suffix::None, 0x1_0000_0000, b'l'),
    (false, Suffix::None, 0x7fff_ffff_ffff_ffff, b'l'),
    (false, Suffix::None, 0x8000_0000_0000_0000, b'L'),
    (false, Suffix::None, 0xffff_ffff_ffff_ffff, b'L'),
    (true, Suffix::U, 4_294_967_295, b'I'),
    (true, Suffix::U, 4_294_967_296, b'L'),
    (false, Suffix::U, 18_446_744_073_709_551_615, b'L'),
    (true, Suffix::L, 1, b'l'),
    (true, Suffix::L, 9_223_372_036_854_775_808, 0),
    (false, Suffix::L, 0x8000_0000_0000_0000, b'L'),
    (true, Suffix::UL, 18_446_744_073_709_551_615, b'L'),
    (true, Suffix::LL, 9_223_372_036_854_775_807, b'q'),
    (true, Suffix::LL, 9_223_372_036_854_775_808, 0),
    (false, Suffix::LL, 0x8000_0000_0000_0000, b'Q'),
    (true, Suffix::ULL, 1, b'Q'),
    (false, Suffix::ULL, 18_446_744_073_709_551_615, b'Q'),
    (false, Suffix::UL, 1, b'L'),
];

#[test]
fn constants_have_their_kinds(rt: HostRuntime) {
    for (decimal, suffix, number, expected) in &CONSTANTS {
        let found = match constant_kind(*decimal, *suffix, *number) {
            Some(kind) => letter(kind),
            None => 0,
        };
        assert!(rt; found == *expected);
    }
}

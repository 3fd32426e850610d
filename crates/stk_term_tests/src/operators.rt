//! The operators on numbers, against tables that were computed with Python's integers.
use crate::making_terms::made;
use std::alloc::Global;
use std::process::Abort;
use std::test::Fail;
use stk_base::{List, NoMemory};
use stk_terms::{Residues, TermId, TermOp, Terms};

// For each operator of two operands its values at width 4, one hexadecimal digit for each pair, the first operand in
// front. They were computed with Python's integers.
static PAIRS: [(TermOp, &str); 14] = [
    (
        TermOp::And,
        "0000000000000000010101010101010100220022002200220123012301230123\
         0000444400004444010145450101454500224466002244660123456701234567\
         000000008888888801010101898989890022002288aa88aa0123012389ab89ab\
         000044448888cccc010145458989cdcd0022446688aaccee0123456789abcdef",
    ),
    (
        TermOp::Or,
        "0123456789abcdef1133557799bbddff23236767ababefef33337777bbbbffff\
         45674567cdefcdef55775577ddffddff67676767efefefef77777777ffffffff\
         89abcdef89abcdef99bbddff99bbddffababefefababefefbbbbffffbbbbffff\
         cdefcdefcdefcdefddffddffddffddffefefefefefefefefffffffffffffffff",
    ),
    (
        TermOp::Xor,
        "0123456789abcdef1032547698badcfe23016745ab89efcd32107654ba98fedc\
         45670123cdef89ab54761032dcfe98ba67452301efcdab8976543210fedcba98\
         89abcdef0123456798badcfe10325476ab89efcd23016745ba98fedc32107654\
         cdef89ab45670123dcfe98ba54761032efcdab8967452301fedcba9876543210",
    ),
    (
        TermOp::Add,
        "0123456789abcdef123456789abcdef023456789abcdef013456789abcdef012\
         456789abcdef012356789abcdef012346789abcdef012345789abcdef0123456\
         89abcdef012345679abcdef012345678abcdef0123456789bcdef0123456789a\
         cdef0123456789abdef0123456789abcef0123456789abcdf0123456789abcde",
    ),
    (
        TermOp::Sub,
        "0fedcba98765432110fedcba98765432210fedcba98765433210fedcba987654\
         43210fedcba98765543210fedcba98766543210fedcba98776543210fedcba98\
         876543210fedcba99876543210fedcbaa9876543210fedcbba9876543210fedc\
         cba9876543210feddcba9876543210feedcba9876543210ffedcba9876543210",
    ),
    (
        TermOp::Mul,
        "00000000000000000123456789abcdef02468ace02468ace0369cf258be147ad\
         048c048c048c048c05af49e38d27c16b06c28e4a06c28e4a07e5c3a18f6d4b29\
         0808080808080808092b4d6f81a3c5e70a4e82c60a4e82c60b61c72d83e94fa5\
         0c840c840c840c840da741eb852fc9630eca86420eca86420fedcba987654321",
    ),
    (
        TermOp::UDiv,
        "0000000000000000010000000000000002100000000000000311000000000000\
         0421100000000000052111000000000006321110000000000732111100000000\
         084221111000000009432111110000000a532211111000000b53221111110000\
         0c643221111110000d643221111111000e743222111111100f75332211111111",
    ),
    (
        TermOp::URem,
        "0000000000000000101111111111111120022222222222223010333333333333\
         4001044444444444501210555555555560002106666666667011321077777777\
         80020321088888889010143210999999a0012043210aaaaab01231543210bbbb\
         c000020543210cccd0111316543210dde00224206543210ef010303176543210",
    ),
    (
        TermOp::Shl,
        "00000000000000001248000000000000248000000000000036c8000000000000\
         48000000000000005a480000000000006c800000000000007ec8000000000000\
         80000000000000009248000000000000a480000000000000b6c8000000000000\
         c800000000000000da48000000000000ec80000000000000fec8000000000000",
    ),
    (
        TermOp::LShr,
        "0000000000000000100000000000000021000000000000003100000000000000\
         4210000000000000521000000000000063100000000000007310000000000000\
         84210000000000009421000000000000a521000000000000b521000000000000\
         c631000000000000d631000000000000e731000000000000f731000000000000",
    ),
    (
        TermOp::AShr,
        "0000000000000000100000000000000021000000000000003100000000000000\
         4210000000000000521000000000000063100000000000007310000000000000\
         8cefffffffffffff9cefffffffffffffadefffffffffffffbdefffffffffffff\
         ceffffffffffffffdeffffffffffffffefffffffffffffffffffffffffffffff",
    ),
    (
        TermOp::Eq,
        "1000000000000000010000000000000000100000000000000001000000000000\
         0000100000000000000001000000000000000010000000000000000100000000\
         0000000010000000000000000100000000000000001000000000000000010000\
         0000000000001000000000000000010000000000000000100000000000000001",
    ),
    (
        TermOp::ULt,
        "0111111111111111001111111111111100011111111111110000111111111111\
         0000011111111111000000111111111100000001111111110000000011111111\
         0000000001111111000000000011111100000000000111110000000000001111\
         0000000000000111000000000000001100000000000000010000000000000000",
    ),
    (
        TermOp::SLt,
        "0111111100000000001111110000000000011111000000000000111100000000\
         0000011100000000000000110000000000000001000000000000000000000000\
         1111111101111111111111110011111111111111000111111111111100001111\
         1111111100000111111111110000001111111111000000011111111100000000",
    ),
];

// An operator, a width, two operands and the value, at the ends of the widths 1, 64, 127 and 128.
static ENDS: [(TermOp, u8, u128, u128, u128); 48] = [
    (TermOp::Add, 1, 1, 1, 0),
    (TermOp::Sub, 1, 0, 1, 1),
    (TermOp::Mul, 1, 1, 1, 1),
    (TermOp::UDiv, 1, 1, 0, 0),
    (TermOp::URem, 1, 1, 0, 1),
    (TermOp::Shl, 1, 1, 0, 1),
    (TermOp::Shl, 1, 1, 1, 0),
    (TermOp::LShr, 1, 1, 0, 1),
    (TermOp::AShr, 1, 1, 0, 1),
    (TermOp::AShr, 1, 1, 1, 1),
    (TermOp::SLt, 1, 1, 0, 1),
    (TermOp::ULt, 1, 0, 1, 1),
    (TermOp::Add, 64, 0xffffffffffffffff, 1, 0),
    (TermOp::Sub, 64, 0, 1, 0xffffffffffffffff),
    (TermOp::Mul, 64, 0xffffffffffffffff, 0xffffffffffffffff, 1),
    (TermOp::UDiv, 64, 0xffffffffffffffff, 0, 0),
    (TermOp::URem, 64, 0xffffffffffffffff, 0, 0xffffffffffffffff),
    (TermOp::Shl, 64, 1, 0x3f, 0x8000000000000000),
    (TermOp::Shl, 64, 0xffffffffffffffff, 0x40, 0),
    (TermOp::LShr, 64, 0xffffffffffffffff, 0x3f, 1),
    (
        TermOp::AShr,
        64,
        0x8000000000000000,
        0x3f,
        0xffffffffffffffff,
    ),
    (
        TermOp::AShr,
        64,
        0x8000000000000000,
        0x40,
        0xffffffffffffffff,
    ),
    (TermOp::SLt, 64, 0x8000000000000000, 0x7fffffffffffffff, 1),
    (TermOp::ULt, 64, 0x7fffffffffffffff, 0x8000000000000000, 1),
    (TermOp::Add, 127, 0x7fffffffffffffffffffffffffffffff, 1, 0),
    (TermOp::Sub, 127, 0, 1, 0x7fffffffffffffffffffffffffffffff),
    (
        TermOp::Mul,
        127,
        0x7fffffffffffffffffffffffffffffff,
        0x7fffffffffffffffffffffffffffffff,
        1,
    ),
    (TermOp::UDiv, 127, 0x7fffffffffffffffffffffffffffffff, 0, 0),
    (
        TermOp::URem,
        127,
        0x7fffffffffffffffffffffffffffffff,
        0,
        0x7fffffffffffffffffffffffffffffff,
    ),
    (
        TermOp::Shl,
        127,
        1,
        0x7e,
        0x40000000000000000000000000000000,
    ),
    (
        TermOp::Shl,
        127,
        0x7fffffffffffffffffffffffffffffff,
        0x7f,
        0,
    ),
    (
        TermOp::LShr,
        127,
        0x7fffffffffffffffffffffffffffffff,
        0x7e,
        1,
    ),
    (
        TermOp::AShr,
        127,
        0x40000000000000000000000000000000,
        0x7e,
        0x7fffffffffffffffffffffffffffffff,
    ),
    (
        TermOp::AShr,
        127,
        0x40000000000000000000000000000000,
        0x7f,
        0x7fffffffffffffffffffffffffffffff,
    ),
    (
        TermOp::SLt,
        127,
        0x40000000000000000000000000000000,
        0x3fffffffffffffffffffffffffffffff,
        1,
    ),
    (
        TermOp::ULt,
        127,
        0x3fffffffffffffffffffffffffffffff,
        0x40000000000000000000000000000000,
        1,
    ),
    (TermOp::Add, 128, 0xffffffffffffffffffffffffffffffff, 1, 0),
    (TermOp::Sub, 128, 0, 1, 0xffffffffffffffffffffffffffffffff),
    (
        TermOp::Mul,
        128,
        0xffffffffffffffffffffffffffffffff,
        0xffffffffffffffffffffffffffffffff,
        1,
    ),
    (TermOp::UDiv, 128, 0xffffffffffffffffffffffffffffffff, 0, 0),
    (
        TermOp::URem,
        128,
        0xffffffffffffffffffffffffffffffff,
        0,
        0xffffffffffffffffffffffffffffffff,
    ),
    (
        TermOp::Shl,
        128,
        1,
        0x7f,
        0x80000000000000000000000000000000,
    ),
    (
        TermOp::Shl,
        128,
        0xffffffffffffffffffffffffffffffff,
        0x80,
        0,
    ),
    (
        TermOp::LShr,
        128,
        0xffffffffffffffffffffffffffffffff,
        0x7f,
        1,
    ),
    (
        TermOp::AShr,
        128,
        0x80000000000000000000000000000000,
        0x7f,
        0xffffffffffffffffffffffffffffffff,
    ),
    (
        TermOp::AShr,
        128,
        0x80000000000000000000000000000000,
        0x80,
        0xffffffffffffffffffffffffffffffff,
    ),
    (
        TermOp::SLt,
        128,
        0x80000000000000000000000000000000,
        0x7fffffffffffffffffffffffffffffff,
        1,
    ),
    (
        TermOp::ULt,
        128,
        0x7fffffffffffffffffffffffffffffff,
        0x80000000000000000000000000000000,
        1,
    ),
];

// An operator of one operand, the operand's width and number, and the width and number that it gives.
static ONES: [(TermOp, u8, u128, u8, u128); 24] = [
    (TermOp::Not, 1, 1, 1, 0),
    (TermOp::Neg, 1, 1, 1, 1),
    (TermOp::Neg, 1, 0, 1, 0),
    (
        TermOp::Not,
        127,
        0x40000000000000000000000000000000,
        127,
        0x3fffffffffffffffffffffffffffffff,
    ),
    (TermOp::Neg, 127, 1, 127, 0x7fffffffffffffffffffffffffffffff),
    (TermOp::Neg, 127, 0, 127, 0),
    (
        TermOp::Not,
        128,
        0x80000000000000000000000000000000,
        128,
        0x7fffffffffffffffffffffffffffffff,
    ),
    (TermOp::Neg, 128, 1, 128, 0xffffffffffffffffffffffffffffffff),
    (TermOp::Neg, 128, 0, 128, 0),
    (
        TermOp::Extract(0, 128),
        128,
        0x123456789abcdeffedcba9876543210,
        128,
        0x123456789abcdeffedcba9876543210,
    ),
    (
        TermOp::Extract(0, 1),
        128,
        0x123456789abcdeffedcba9876543210,
        1,
        0,
    ),
    (
        TermOp::Extract(127, 1),
        128,
        0x123456789abcdeffedcba9876543210,
        1,
        0,
    ),
    (
        TermOp::Extract(4, 8),
        128,
        0x123456789abcdeffedcba9876543210,
        8,
        0x21,
    ),
    (
        TermOp::Extract(1, 127),
        128,
        0x123456789abcdeffedcba9876543210,
        127,
        0x91a2b3c4d5e6f7ff6e5d4c3b2a1908,
    ),
    (TermOp::ZeroExt(1), 1, 1, 1, 1),
    (TermOp::SignExt(1), 1, 1, 1, 1),
    (TermOp::ZeroExt(128), 1, 1, 128, 1),
    (
        TermOp::SignExt(128),
        1,
        1,
        128,
        0xffffffffffffffffffffffffffffffff,
    ),
    (TermOp::ZeroExt(64), 8, 0xc8, 64, 0xc8),
    (TermOp::SignExt(64), 8, 0xc8, 64, 0xffffffffffffffc8),
    (
        TermOp::ZeroExt(128),
        127,
        0x7fffffffffffffffffffffffffffffff,
        128,
        0x7fffffffffffffffffffffffffffffff,
    ),
    (
        TermOp::SignExt(128),
        127,
        0x7fffffffffffffffffffffffffffffff,
        128,
        0xffffffffffffffffffffffffffffffff,
    ),
    (TermOp::ZeroExt(9), 8, 0x7f, 9, 0x7f),
    (TermOp::SignExt(9), 8, 0x7f, 9, 0x7f),
];

// The number of a term over no inputs.
fn number(rt: &impl Abort, alloc: Global, terms: &Terms, id: TermId) -> Result<u128, NoMemory> {
    let none = Residues {
        numbers: List::empty(alloc),
    };
    assert!(rt; id.0 < terms.count());
    assert!(rt; terms.has_residues(&none));
    terms.value(id, &none)
}

// The term of an operator over two constants of a width.
fn over_two(
    rt: &impl Abort,
    terms: &mut Terms,
    op: TermOp,
    size: u8,
    pair: (u128, u128),
) -> Result<TermId, NoMemory> {
    let first = made(rt, terms, TermOp::Constant(size, pair.0), &[])?;
    let second = made(rt, terms, TermOp::Constant(size, pair.1), &[])?;
    made(rt, terms, op, &[first, second])
}

// The number of an operator over two constants of a width.
fn of_two(
    rt: &impl Abort,
    alloc: Global,
    op: TermOp,
    size: u8,
    x: u128,
    y: u128,
) -> Result<u128, NoMemory> {
    let mut terms = Terms::new(alloc, List::empty(alloc));
    let id = over_two(rt, &mut terms, op, size, (x, y))?;
    number(rt, alloc, &terms, id)
}

// The term of an operator over one constant.
fn over_one(
    rt: &impl Abort,
    terms: &mut Terms,
    op: TermOp,
    size: u8,
    x: u128,
) -> Result<TermId, NoMemory> {
    let first = made(rt, terms, TermOp::Constant(size, x), &[])?;
    made(rt, terms, op, &[first])
}

// The width and the number of a term over no inputs.
fn width_and_number(
    rt: &impl Abort,
    alloc: Global,
    terms: &Terms,
    id: TermId,
) -> Result<(u8, u128), NoMemory> {
    assert!(rt; id.0 < terms.count());
    Ok((terms.width(id), number(rt, alloc, terms, id)?))
}

// The width and the number of an operator over one constant.
fn of_one(
    rt: &impl Abort,
    alloc: Global,
    op: TermOp,
    size: u8,
    x: u128,
) -> Result<(u8, u128), NoMemory> {
    let mut terms = Terms::new(alloc, List::empty(alloc));
    let id = over_one(rt, &mut terms, op, size, x)?;
    width_and_number(rt, alloc, &terms, id)
}

// The number of a hexadecimal digit.
fn digit(byte: u8) -> u128 {
    let byte = u128::from(byte);
    if byte < 97 {
        byte.saturating_sub(48)
    } else {
        byte - 87
    }
}

// Whether the operator's values for all pairs of 4-bit numbers are these digits.
fn has_values(rt: &impl Abort, alloc: Global, op: TermOp, digits: &[u8]) -> Result<bool, NoMemory> {
    for (place, byte) in digits.iter().enumerate() {
        let pair = place as u128;
        if of_two(rt, alloc, op, 4, pair / 16 % 16, pair % 16)? != digit(*byte) {
            return Ok(false);
        }
    }
    Ok(digits.len() == 256)
}

#[test]
fn all_pairs_of_four_bits(rt: HostRuntime) -> Result<(), Fail> {
    for (op, digits) in &PAIRS {
        assert!(rt;
            has_values(&rt, rt.alloc(), *op, digits.as_bytes())?,
            "{op:?}"
        );
    }
    Ok(())
}

#[test]
fn ends_of_widths(rt: HostRuntime) -> Result<(), Fail> {
    for (op, size, x, y, value) in &ENDS {
        assert_eq!(rt;
            of_two(&rt, rt.alloc(), *op, *size, *x, *y)?,
            *value,
            "{op:?} at {size}"
        );
    }
    Ok(())
}

#[test]
fn one_operand(rt: HostRuntime) -> Result<(), Fail> {
    for (op, size, x, wide, value) in &ONES {
        assert_eq!(rt;
            of_one(&rt, rt.alloc(), *op, *size, *x)?,
            (*wide, *value),
            "{op:?} at {size}"
        );
    }
    Ok(())
}

#[test]
fn a_sum_wraps(rt: HostRuntime) -> Result<(), Fail> {
    assert_eq!(rt; of_two(&rt, rt.alloc(), TermOp::Add, 8, 200, 100)?, 44);
    Ok(())
}

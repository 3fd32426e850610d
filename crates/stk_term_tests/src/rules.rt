//! Each rule, and rules one after the other.
//!
//! Terms are written in postfix notation: operands first, then their operator. The inputs are `x` and `y` of 8 bits and
//! `t` of 1 bit. `200` is a constant of 8 bits and `200:16` one of 16 bits; `bits:2:3` are the 3 bits from place 2 on,
//! and `zeros:16` and `signs:16` extend to 16 bits.
use crate::rewritten_terms::{made, simplified, three_inputs};
use std::alloc::Global;
use std::process::Abort;
use std::test::Fail;
use stk_base::NoMemory;
use stk_terms::{TermId, TermOp, Terms};

// Operators over constants, with the constants that they become.
static CONSTANTS: [(&str, &str); 23] = [
    ("12 10 and", "8"),
    ("12 10 or", "14"),
    ("12 10 xor", "6"),
    ("200 100 add", "44"),
    ("3 5 sub", "254"),
    ("20 20 mul", "144"),
    ("20 3 udiv", "6"),
    ("20 0 udiv", "0"),
    ("20 3 urem", "2"),
    ("20 0 urem", "20"),
    ("3 2 shl", "12"),
    ("200 3 lshr", "25"),
    ("200 3 ashr", "249"),
    ("7 7 eq", "1:1"),
    ("7 200 ult", "1:1"),
    ("7 200 slt", "0:1"),
    ("12 not", "243"),
    ("12 neg", "244"),
    ("44 bits:2:3", "3:3"),
    ("200 zeros:16", "200:16"),
    ("200 signs:16", "65480:16"),
    ("1 2 concat", "258:16"),
    ("1:1 5 6 ite", "5"),
];

// Constants that come first, and constants beside which an operator goes away.
static BESIDE: [(&str, &str); 35] = [
    ("5 x add", "x 5 add"),
    ("5 x mul", "x 5 mul"),
    ("5 x and", "x 5 and"),
    ("5 x or", "x 5 or"),
    ("5 x xor", "x 5 xor"),
    ("5 x eq", "x 5 eq"),
    ("x 0 add", "x"),
    ("x 0 sub", "x"),
    ("0 x sub", "x neg"),
    ("x 0 mul", "0"),
    ("x 1 mul", "x"),
    ("x 0 and", "0"),
    ("x 255 and", "x"),
    ("x 0 or", "x"),
    ("x 255 or", "255"),
    ("x 0 xor", "x"),
    ("x 255 xor", "x not"),
    ("x 1 udiv", "x"),
    ("x 0 udiv", "0"),
    ("x 1 urem", "0"),
    ("x 0 urem", "x"),
    ("x 0 shl", "x"),
    ("x 0 lshr", "x"),
    ("x 0 ashr", "x"),
    ("0 x shl", "0"),
    ("0 x lshr", "0"),
    ("0 x ashr", "0"),
    ("x 0 ult", "0:1"),
    ("255 x ult", "0:1"),
    ("t 1:1 eq", "t"),
    ("t 0:1 eq", "t not"),
    ("1:1 x y ite", "x"),
    ("0:1 x y ite", "y"),
    ("t 1:1 0:1 ite", "t"),
    ("t 0:1 1:1 ite", "t not"),
];

// Equal arguments, inverted ones, choices, cuts and sums of sums.
static ALIKE: [(&str, &str); 22] = [
    ("x x sub", "0"),
    ("x x and", "x"),
    ("x x not and", "0"),
    ("x x or", "x"),
    ("x x not or", "255"),
    ("x x xor", "0"),
    ("x not not", "x"),
    ("x neg neg", "x"),
    ("x x eq", "1:1"),
    ("x x ult", "0:1"),
    ("x x slt", "0:1"),
    ("t x x ite", "x"),
    ("t not x y ite", "t y x ite"),
    ("x bits:0:8", "x"),
    ("x zeros:8", "x"),
    ("x signs:8", "x"),
    ("x bits:3:4 bits:1:2", "x bits:4:2"),
    ("x 7 add 9 add", "x 16 add"),
    ("x 7 add 9 eq", "x 2 eq"),
    ("x 9 add 7 eq", "x 254 eq"),
    ("x 7 sub", "x 249 add"),
    ("x 7 add y 249 add add", "x y add"),
];

// Rules one after the other.
static TOGETHER: [(&str, &str); 17] = [
    ("x 200 add 56 add", "x"),
    ("t 1:1 add 0:1 eq", "t"),
    ("t 1:1 add 1:1 eq", "t not"),
    ("0 0 x sub sub", "x"),
    ("255 x 255 xor xor", "x"),
    ("t not not t x x ite y 0 add ite", "t x y ite"),
    ("x bits:1:7 bits:2:4 bits:0:4", "x bits:3:4"),
    ("x bits:0:8 bits:0:8", "x"),
    ("7 5 x add eq", "x 2 eq"),
    ("t 1:1 eq x y ite", "t x y ite"),
    ("t 0:1 eq x y ite", "t y x ite"),
    ("x y add x y add sub", "0"),
    ("x 3 5 ult 9 y ite and", "x 9 and"),
    ("x 0 mul y add neg", "y neg"),
    ("x 7 add y 7 sub add", "x y add"),
    ("x 7 sub 9 add", "x 2 add"),
    ("x 7 sub 9 eq", "x 16 eq"),
];

// Terms that stay as they are.
static KEPT: [&str; 24] = [
    "x y and",
    "x y or",
    "x y xor",
    "x y add",
    "x y sub",
    "x y mul",
    "x y udiv",
    "x y urem",
    "x y shl",
    "x y lshr",
    "x y ashr",
    "x y eq",
    "x y ult",
    "x y slt",
    "x y concat",
    "t x y ite",
    "x not y and",
    "x 1 shl",
    "5 x sub",
    "x 128 xor",
    "x bits:0:7",
    "x zeros:9",
    "x signs:9",
    "x y 5 add add",
];

// Words without numbers, with their operators and how many arguments these have.
static WORDS: [(&str, TermOp, usize); 21] = [
    ("x", TermOp::Input(0), 0),
    ("y", TermOp::Input(1), 0),
    ("t", TermOp::Input(2), 0),
    ("not", TermOp::Not, 1),
    ("neg", TermOp::Neg, 1),
    ("and", TermOp::And, 2),
    ("or", TermOp::Or, 2),
    ("xor", TermOp::Xor, 2),
    ("add", TermOp::Add, 2),
    ("sub", TermOp::Sub, 2),
    ("mul", TermOp::Mul, 2),
    ("udiv", TermOp::UDiv, 2),
    ("urem", TermOp::URem, 2),
    ("shl", TermOp::Shl, 2),
    ("lshr", TermOp::LShr, 2),
    ("ashr", TermOp::AShr, 2),
    ("eq", TermOp::Eq, 2),
    ("ult", TermOp::ULt, 2),
    ("slt", TermOp::SLt, 2),
    ("concat", TermOp::Concat, 2),
    ("ite", TermOp::Ite, 3),
];

// The operator of a word with the numbers behind it, and how many arguments it has.
fn with_numbers(name: &str, first: u8, second: u8) -> (TermOp, usize) {
    if name == "bits" {
        return (TermOp::Extract(first, second), 1);
    }
    if name == "zeros" {
        return (TermOp::ZeroExt(first), 1);
    }
    if name == "signs" {
        return (TermOp::SignExt(first), 1);
    }
    let number = name.parse::<u128>().unwrap_or(0);
    (TermOp::Constant(first, number), 0)
}

// The operator of a word, and how many arguments it has.
fn operator(word: &str) -> (TermOp, usize) {
    let mut parts = word.split(':');
    let name = parts.next().unwrap_or("");
    for (known, op, count) in &WORDS {
        if *known == name {
            return (*op, *count);
        }
    }
    let first = parts.next().unwrap_or("8").parse::<u8>().unwrap_or(0);
    let second = parts.next().unwrap_or("0").parse::<u8>().unwrap_or(0);
    with_numbers(name, first, second)
}

// Makes the term of a word over the last terms of the stack, and puts it in their place.
fn apply(
    rt: &impl Abort,
    terms: &mut Terms,
    stack: &mut Vec<TermId>,
    word: &str,
) -> Result<(), NoMemory> {
    let (op, count) = operator(word);
    assert!(rt; count <= stack.len(), "{word}");
    let first = stack.len() - count;
    let (_, args) = stack.as_slice().split_at(first);
    let id = made(rt, terms, op, args)?;
    stack.truncate(first);
    stack.push(id)?;
    Ok(())
}

// The term that a text says.
fn term(rt: &impl Abort, alloc: Global, terms: &mut Terms, text: &str) -> Result<TermId, NoMemory> {
    let mut stack = Vec::new(alloc);
    for word in text.split(' ') {
        apply(rt, terms, &mut stack, word)?;
    }
    assert!(rt; stack.len() == 1, "{text}");
    Ok(stack[0])
}

// What a term becomes, and the term that is wanted.
fn both_in(
    rt: &impl Abort,
    alloc: Global,
    terms: &mut Terms,
    left: &str,
    right: &str,
) -> Result<(TermId, TermId), NoMemory> {
    let given = term(rt, alloc, terms, left)?;
    let wanted = term(rt, alloc, terms, right)?;
    let became = simplified(rt, alloc, terms, given)?;
    Ok((became, wanted))
}

// As `both_in`, in a store of its own.
fn both(
    rt: &impl Abort,
    alloc: Global,
    left: &str,
    right: &str,
) -> Result<(TermId, TermId), NoMemory> {
    let mut terms = three_inputs(alloc)?;
    both_in(rt, alloc, &mut terms, left, right)
}

// Each term becomes the other one of its row.
fn all_become(rt: &impl Abort, alloc: Global, rows: &[(&str, &str)]) -> Result<(), NoMemory> {
    for (left, right) in rows {
        let (became, wanted) = both(rt, alloc, left, right)?;
        assert_eq!(rt; became, wanted, "{left}");
    }
    Ok(())
}

#[test]
fn operators_over_constants_are_constants(rt: HostRuntime) -> Result<(), Fail> {
    all_become(&rt, rt.alloc(), &CONSTANTS)?;
    Ok(())
}

#[test]
fn constants_take_operators_away(rt: HostRuntime) -> Result<(), Fail> {
    all_become(&rt, rt.alloc(), &BESIDE)?;
    Ok(())
}

#[test]
fn equal_and_inverted_arguments_take_operators_away(rt: HostRuntime) -> Result<(), Fail> {
    all_become(&rt, rt.alloc(), &ALIKE)?;
    Ok(())
}

#[test]
fn rules_come_one_after_the_other(rt: HostRuntime) -> Result<(), Fail> {
    all_become(&rt, rt.alloc(), &TOGETHER)?;
    Ok(())
}

#[test]
fn other_terms_stay(rt: HostRuntime) -> Result<(), Fail> {
    for text in &KEPT {
        let (became, wanted) = both(&rt, rt.alloc(), text, text)?;
        assert_eq!(rt; became, wanted, "{text}");
    }
    Ok(())
}

// An input with one million ones added to it, one after the other.
fn long_sum(rt: &impl Abort, terms: &mut Terms) -> Result<TermId, NoMemory> {
    let one = made(rt, terms, TermOp::Constant(8, 1), &[])?;
    let mut sum = made(rt, terms, TermOp::Input(0), &[])?;
    for _ in 0..1_000_000u32 {
        sum = made(rt, terms, TermOp::Add, &[sum, one])?;
    }
    Ok(sum)
}

// The long sum becomes a sum of one constant.
fn long_sum_is_short(rt: &impl Abort, alloc: Global, terms: &mut Terms) -> Result<(), Fail> {
    let sum = long_sum(rt, terms)?;
    let became = simplified(rt, alloc, terms, sum)?;
    let wanted = term(rt, alloc, terms, "x 64 add")?;
    assert_eq!(rt; became, wanted);
    Ok(())
}

#[test]
fn a_million_ones_are_one_constant(rt: HostRuntime) -> Result<(), Fail> {
    let mut terms = three_inputs(rt.alloc())?;
    long_sum_is_short(&rt, rt.alloc(), &mut terms)
}

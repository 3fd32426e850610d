//! Each circuit over all pairs of 4-bit numbers, and over the ends of rows of 1, 64 and 128 bits.

ghost use Rattle.std.specs.Prelude.{◌≡◌, ℕ, ◌+◌, ◌*◌, ◌^◌, ◌<◌, ◌≤◌, [], ◌∷◌, length, IfOk, IfSome};
ghost use Rattle.stk_gates.specs.Tables.{HasRoom, gate_count};
ghost use Rattle.stk_arith.specs.Rows.{AreEdges};

use crate::edge_rows::{are_edges, bits_of, edges_from, number};
use std::alloc::Global;
use std::test::Fail;
use stk_arith::{
    add, divide, less, multiply, remainder, shift_left, shift_right, shift_right_signed, sub,
};
use stk_base::{List, NoMemory};
use stk_gates::{Edge, Gates};

#[derive(Clone, Copy)]
enum Call {
    Add,
    Sub,
    Multiply,
    Divide,
    Remainder,
    Left,
    Right,
    RightSigned,
    Less,
    LessSigned,
}

static CALLS: [Call; 10] = [
    Call::Add,
    Call::Sub,
    Call::Multiply,
    Call::Divide,
    Call::Remainder,
    Call::Left,
    Call::Right,
    Call::RightSigned,
    Call::Less,
    Call::LessSigned,
];

/// The row of one edge.
fn one(alloc: Global, edge: Edge) -> Result<List<Edge>, NoMemory>
    ensures { IfOk result (λ r. r ≡ edge ∷ []) }
{
    let mut row = Vec::new(alloc);
    row.push(edge)?;
    Ok(List::from_vec(row))
}

/// The row of a comparison.
fn comparison(
    alloc: Global,
    gates: &mut Gates,
    a: &[Edge],
    b: &[Edge],
    signed: bool,
) -> Result<List<Edge>, NoMemory>
    requires same { length b.now ≡ length a.now }
    requires some { 0 < length a.now }
    requires a { AreEdges gates.old a.now }
    requires b { AreEdges gates.old b.now }
    requires room { HasRoom gates.old (10 * length a.now) }
    ensures edges { IfOk result (AreEdges gates.new) }
{
    let edge = less(alloc, gates, a, b, signed)?;
    one(alloc, edge)
}

/// The row of a call.
fn circuit(
    alloc: Global,
    gates: &mut Gates,
    call: Call,
    a: &[Edge],
    b: &[Edge],
) -> Result<List<Edge>, NoMemory>
    requires same { length b.now ≡ length a.now }
    requires some { 0 < length a.now }
    requires few { length a.now ≤ 128 }
    requires a { AreEdges gates.old a.now }
    requires b { AreEdges gates.old b.now }
    requires room { HasRoom gates.old (14 * length a.now * length a.now + 24 * length a.now) }
    ensures edges { IfOk result (AreEdges gates.new) }
{
    match call {
        Call::Add => add(alloc, gates, a, b),
        Call::Sub => sub(alloc, gates, a, b),
        Call::Multiply => multiply(alloc, gates, a, b),
        Call::Divide => divide(alloc, gates, a, b),
        Call::Remainder => remainder(alloc, gates, a, b),
        Call::Left => shift_left(alloc, gates, a, b),
        Call::Right => shift_right(alloc, gates, a, b),
        Call::RightSigned => shift_right_signed(alloc, gates, a, b),
        Call::Less => comparison(alloc, gates, a, b, false),
        Call::LessSigned => comparison(alloc, gates, a, b, true),
    }
}

/// What a call gives, by plain arithmetic on the numbers of so many bits.
fn expected(call: Call, width: u32, x: u128, y: u128) -> u128
    requires some { 0 < width }
    requires few { width ≤ 128 }
{
    let mask = u128::MAX >> (128 - width);
    let high = 1u128 << (width - 1);
    let count = if y < 128 { y as u32 } else { 128 };
    match call {
        Call::Add => x.wrapping_add(y) & mask,
        Call::Sub => x.wrapping_sub(y) & mask,
        Call::Multiply => x.wrapping_mul(y) & mask,
        Call::Divide => x.checked_div(y).unwrap_or(0),
        Call::Remainder => x.checked_rem(y).unwrap_or(x),
        Call::Left => x.checked_shl(count).unwrap_or(0) & mask,
        Call::Right => x.checked_shr(count).unwrap_or(0),
        Call::RightSigned if x & high == 0 => x.checked_shr(count).unwrap_or(0),
        Call::RightSigned => !(!(x | !mask)).checked_shr(count).unwrap_or(0) & mask,
        Call::Less => u128::from(x < y),
        Call::LessSigned => u128::from(x ^ high < y ^ high),
    }
}

/// The row of a call over the first gates, in two rows of so many bits; none if these aren't in the table.
fn row_of(
    alloc: Global,
    gates: &mut Gates,
    call: Call,
    width: u32,
) -> Result<Option<List<Edge>>, NoMemory>
    requires some { 0 < width }
    requires few { width ≤ 128 }
    requires room { gate_count gates.old ≤ 1000 }
    ensures edges { IfOk result (λ found. IfSome found (AreEdges gates.new)) }
{
    let a = edges_from(alloc, 1, width)?;
    let b = edges_from(alloc, 1 + width, width)?;
    if a.len() != width as usize || b.len() != a.len() {
        return Ok(None);
    }
    if !are_edges(gates, &a) || !are_edges(gates, &b) {
        return Ok(None);
    }
    let row = circuit(alloc, gates, call, &a, &b)?;
    Ok(Some(row))
}

/// The number of a row for two numbers of this width; none if these don't have a bit for each input.
fn number_for(
    alloc: Global,
    gates: &Gates,
    row: &[Edge],
    width: u32,
    pair: (u128, u128),
) -> Result<Option<u128>, NoMemory>
    requires few { width ≤ 128 }
    requires row { AreEdges gates.now row.now }
{
    let (x, y) = pair;
    let bits = bits_of(alloc, x, y, width)?;
    if bits.bits.len() != gates.inputs() as usize {
        return Ok(None);
    }
    Ok(Some(number(gates, row, &bits)?))
}

/// Whether a call over the inputs of a table agrees with plain arithmetic on these pairs of numbers.
fn agrees_in(
    alloc: Global,
    gates: &mut Gates,
    call: Call,
    width: u32,
    pairs: &[(u128, u128)],
) -> Result<bool, NoMemory>
    requires some { 0 < width }
    requires few { width ≤ 128 }
    requires room { gate_count gates.old ≤ 1000 }
{
    let Some(row) = row_of(alloc, gates, call, width)? else {
        return Ok(false);
    };
    for (x, y) in pairs {
        let number = number_for(alloc, gates, row.as_slice(), width, (*x, *y))?;
        if number != Some(expected(call, width, *x, *y)) {
            return Ok(false);
        }
    }
    Ok(true)
}

/// As `agrees_in`, in a table of its own.
fn agrees(alloc: Global, call: Call, width: u32, pairs: &[(u128, u128)]) -> Result<bool, NoMemory>
    requires some { 0 < width }
    requires few { width ≤ 128 }
{
    let mut gates = Gates::new(alloc, 2 * width);
    agrees_in(alloc, &mut gates, call, width, pairs)
}

/// All pairs of 4-bit numbers.
fn small_pairs(alloc: Global) -> Result<Vec<(u128, u128)>, NoMemory> {
    let mut pairs = Vec::new(alloc);
    for x in 0..16u32 {
        for y in 0..16u32 {
            pairs.push((u128::from(x), u128::from(y)))?;
        }
    }
    Ok(pairs)
}

#[test]
fn four_bits(rt: HostRuntime) -> Result<(), Fail> {
    let pairs = small_pairs(rt.alloc())?;
    for call in &CALLS {
        assert!(rt; agrees(rt.alloc(), *call, 4, &pairs)?);
    }
    Ok(())
}

const TOP: u128 = 1 << 127;

static BIT: [(u128, u128); 4] = [(0, 0), (0, 1), (1, 0), (1, 1)];

static WIDE: [(u128, u128); 5] = [
    (u128::MAX, 0),
    (u128::MAX, u128::MAX),
    (TOP, 127),
    (TOP, 128),
    (TOP - 1, TOP),
];

const MIDDLE: u128 = 1 << 63;

const LAST: u128 = (1 << 64) - 1;

static LONG: [(u128, u128); 6] = [
    (LAST, 0),
    (LAST, LAST),
    (MIDDLE, 63),
    (MIDDLE, 64),
    (MIDDLE - 1, MIDDLE),
    (LAST / 3, 7),
];

#[test]
fn ends_of_rows(rt: HostRuntime) -> Result<(), Fail> {
    for call in &CALLS {
        assert!(rt; agrees(rt.alloc(), *call, 1, &BIT)?);
        assert!(rt; agrees(rt.alloc(), *call, 64, &LONG)?);
    }
    Ok(())
}

#[test]
fn ends_of_the_widest_rows(rt: HostRuntime) -> Result<(), Fail> {
    for call in &CALLS {
        assert!(rt; agrees(rt.alloc(), *call, 128, &WIDE)?);
    }
    Ok(())
}

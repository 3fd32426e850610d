//! The table itself: what is folded, what is shared, and the values of edges.

ghost use Rattle.std.specs.Prelude.{◌≡◌, ◌+◌, ◌*◌, ◌^◌, ◌<◌, ◌≤◌, length};

use crate::edge_rows::bits_of;
use std::alloc::Global;
use std::process::Abort;
use std::test::Fail;
use stk_base::{Bits, NoMemory};
use stk_gates::{Edge, Gates};

const A: Edge = Edge(2);

const B: Edge = Edge(4);

#[derive(Clone, Copy)]
enum Op {
    And,
    Or,
    Xor,
    Mux,
}

/// The edge of two inputs under an operator; `Mux` chooses the second or its inverse, as the first says.
fn made(gates: &mut Gates, op: Op, a: Edge, b: Edge) -> Result<Edge, NoMemory> {
    let count = gates.count();
    if count > 1000 || a.0 >= 2 * count || b.0 >= 2 * count {
        return Ok(Edge::FALSE);
    }
    match op {
        Op::And => gates.and(a, b),
        Op::Or => gates.or(a, b),
        Op::Xor => gates.xor(a, b),
        Op::Mux => gates.mux(a, b, b.inverted()),
    }
}

/// The value of an edge of the table, where there is a bit for each input.
fn value(gates: &Gates, edge: Edge, bits: &Bits) -> Result<Option<bool>, NoMemory> {
    if edge.0 >= 2 * gates.count() || bits.bits.len() != gates.inputs() as usize {
        return Ok(None);
    }
    let bit = gates.eval(edge, bits)?;
    Ok(Some(bit))
}

/// Two edges, their AND, and how many gates there are then. The gates stay from row to row.
static ANDS: [(Edge, Edge, Edge, u32); 8] = [
    (A, Edge::FALSE, Edge::FALSE, 3),
    (Edge::TRUE, A, A, 3),
    (A, A, A, 3),
    (A, Edge(3), Edge::FALSE, 3),
    (A, B, Edge(6), 4),
    (B, A, Edge(6), 4),
    (Edge(5), A, Edge(8), 5),
    (Edge(6), Edge(7), Edge::FALSE, 5),
];

/// Each AND of the table has its edge and leaves so many gates, in a table of two inputs.
fn ands_are_shared(rt: &impl Abort, gates: &mut Gates) -> Result<(), Fail> {
    for (a, b, edge, count) in &ANDS {
        assert!(rt; made(gates, Op::And, *a, *b)? == *edge);
        assert!(rt; gates.count() == *count);
    }
    assert!(rt; gates.inputs() == 2);
    assert!(rt; gates.operands(3) == Some((A, B)));
    assert!(rt; gates.operands(4) == Some((A, Edge(5))));
    assert!(rt; gates.operands(2).is_none());
    assert!(rt; gates.operands(5).is_none());
    Ok(())
}

#[test]
fn shared_and_folded(rt: HostRuntime) -> Result<(), Fail> {
    let mut gates = Gates::new(rt.alloc(), 2);
    ands_are_shared(&rt, &mut gates)
}

/// An operator, and its values where the first input is bit 0 of 0, 1, 2 and 3, and the second is bit 1.
static TRUTHS: [(Op, [bool; 4]); 4] = [
    (Op::And, [false, false, false, true]),
    (Op::Or, [false, true, true, true]),
    (Op::Xor, [false, true, true, false]),
    (Op::Mux, [true, false, false, true]),
];

/// An edge of two inputs has these four values.
fn has_values(
    rt: &impl Abort,
    alloc: Global,
    gates: &Gates,
    edge: Edge,
    row: &[bool; 4],
) -> Result<(), NoMemory> {
    for k in 0..4 {
        let bits = bits_of(alloc, k as u128 & 1, k as u128 >> 1, 1)?;
        assert!(rt; value(gates, edge, &bits)? == Some(row[k]));
    }
    Ok(())
}

/// Each operator has its values, in a table of two inputs.
fn have_truths(rt: &impl Abort, alloc: Global, gates: &mut Gates) -> Result<(), Fail> {
    for (op, row) in &TRUTHS {
        let edge = made(gates, *op, A, B)?;
        has_values(rt, alloc, gates, edge, row)?;
    }
    Ok(())
}

#[test]
fn truths(rt: HostRuntime) -> Result<(), Fail> {
    let mut gates = Gates::new(rt.alloc(), 2);
    have_truths(&rt, rt.alloc(), &mut gates)
}

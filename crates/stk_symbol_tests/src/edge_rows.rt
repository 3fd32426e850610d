//! Rows of input edges, their numbers, and the bits of two numbers as inputs.

ghost use Rattle.std.specs.Prelude.{◌≡◌, ℕ, ◌+◌, ◌*◌, ◌^◌, ◌<◌, ◌≤◌, IsTrue, length};
ghost use Rattle.stk_arith.specs.Rows.{AreEdges};

use std::alloc::Global;
use stk_base::{Bits, List, NoMemory};
use stk_gates::{Edge, Gates};

/// The edges of gates that follow one another.
pub(crate) fn edges_from(alloc: Global, first: u32, count: u32) -> Result<Vec<Edge>, NoMemory>
    requires { first + count < 1000 }
{
    let mut edges = Vec::new(alloc);
    for k in 0..count {
        edges.push(Edge::of_gate(first + k))?;
    }
    Ok(edges)
}

/// Whether each edge comes from a gate of the table.
pub(crate) fn are_edges(gates: &Gates, row: &[Edge]) -> bool
    ensures { IsTrue result → AreEdges gates.now row.now }
{
    let most = 2 * gates.count();
    row.iter().all(|e| e.0 < most)
}

/// The bits of two numbers of this width, the least bit first.
pub(crate) fn bits_of(alloc: Global, x: u128, y: u128, width: u32) -> Result<Bits, NoMemory>
    requires { width ≤ 128 }
{
    let mut bits = Vec::new(alloc);
    for k in 0..width {
        bits.push(x >> k & 1 == 1)?;
    }
    for k in 0..width {
        bits.push(y >> k & 1 == 1)?;
    }
    Ok(Bits {
        bits: List::from_vec(bits),
    })
}

/// The number of a row where the inputs have these bits.
#[tactic(auto, using(stk_arith::proofs::Numbers::parts_of_rows))]
pub(crate) fn number(gates: &Gates, row: &[Edge], bits: &Bits) -> Result<u128, NoMemory>
    requires row { AreEdges gates.now row.now }
    requires bits { length bits.now.bits ≡ gates.now.inputs }
{
    let mut number = 0u128;
    for i in 0..row.len() {
        let bit = gates.eval(row[row.len() - 1 - i], bits)?;
        number = number.wrapping_mul(2) | u128::from(bit);
    }
    Ok(number)
}

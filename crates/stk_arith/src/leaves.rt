//! Rows that need no gate of their own: constants, and gates that follow one another.

ghost use Rattle.std.specs.Prelude.{◌≡◌, ℕ, ◌+◌, ◌*◌, ◌/◌, ◌%◌, ◌^◌, ◌<◌, ◌≤◌, Bool, length, IfOk};
ghost use Rattle.stk_gates.specs.Tables.{Table, Obeys};
ghost use Rattle.stk_arith.specs.Rows.{number, AreEdges};
ghost use Rattle.stk_arith.specs.Words.{row_from};

use std::alloc::Global;
use stk_base::{List, NoMemory};
use stk_gates::Edge;

/// The row of a number in so many bits: what lies beyond them is dropped.
#[tactic(auto, using(crate::proofs::Numbers::kept))]
pub fn constant_row(alloc: Global, width: usize, value: u128) -> Result<List<Edge>, NoMemory>
    requires { width ≤ 128 }
    ensures length { IfOk result (λ r. length r ≡ width) }
    ensures edges { IfOk result (λ r. (t : Table) → AreEdges t r) }
    ensures value { IfOk result (λ r. (t : Table) (values : ℕ → Bool) → Obeys t values → number values r ≡ value % 2 ^ width) }
{
    let mut row = Vec::new(alloc);
    for i in 0..width {
        row.push(Edge(((value >> i) % 2) as u32))?;
    }
    Ok(List::from_vec(row))
}

/// The row of the gates from one on.
pub fn gate_row(alloc: Global, first: u32, count: u32) -> Result<List<Edge>, NoMemory>
    requires { first + count < 2 ^ 30 }
    ensures { IfOk result (λ r. r ≡ row_from first count) }
{
    let mut row = Vec::new(alloc);
    for i in 0..count {
        row.push(Edge::of_gate(first + i))?;
    }
    Ok(List::from_vec(row))
}

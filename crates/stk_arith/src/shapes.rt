//! Rows that are cut, joined and extended. None of them takes a gate.

ghost use Rattle.std.specs.Prelude.{◌≡◌, ℕ, ◌+◌, ◌-◌, ◌*◌, ◌/◌, ◌%◌, ◌^◌, ◌<◌, ◌≤◌, Bool, ◌++◌, length, replicate, IfOk};
ghost use Rattle.stk_gates.specs.Tables.{Table, Obeys};
ghost use Rattle.stk_arith.specs.Rows.{number, AreEdges};
ghost use Rattle.stk_arith.specs.Words.{extended};

use crate::parts::filled;
use std::alloc::Global;
use stk_base::{List, NoMemory};
use stk_gates::Edge;

/// So many bits of a row, from one on.
#[tactic(auto, using(crate::proofs::Numbers::parts_of_rows))]
pub fn cut(alloc: Global, row: &[Edge], low: usize, width: usize) -> Result<List<Edge>, NoMemory>
    requires { low + width ≤ length row.now }
    ensures length { IfOk result (λ r. length r ≡ width) }
    ensures edges { IfOk result (λ r. (t : Table) → AreEdges t row.now → AreEdges t r) }
    ensures value { IfOk result (λ r. (values : ℕ → Bool) → number values r ≡ number values row.now / 2 ^ low % 2 ^ width) }
{
    let (_, high) = row.split_at(low);
    let (bits, _) = high.split_at(width);
    let mut part = Vec::new(alloc);
    part.extend_from_slice(bits)?;
    Ok(List::from_vec(part))
}

/// The bits of the first row before those of the second, which are the lower ones.
#[tactic(auto, using(crate::proofs::Numbers::parts_of_rows))]
pub fn joined(alloc: Global, high: &[Edge], low: &[Edge]) -> Result<List<Edge>, NoMemory>
    ensures length { IfOk result (λ r. length r ≡ length high.now + length low.now) }
    ensures edges { IfOk result (λ r. (t : Table) → AreEdges t high.now → AreEdges t low.now → AreEdges t r) }
    ensures value { IfOk result (λ r. (values : ℕ → Bool) → number values r ≡ number values high.now * 2 ^ length low.now + number values low.now) }
{
    let mut row = Vec::new(alloc);
    row.extend_from_slice(low)?;
    row.extend_from_slice(high)?;
    Ok(List::from_vec(row))
}

/// The row with one edge in further places, up to a width.
#[tactic(auto, using(crate::proofs::Numbers::parts_of_rows))]
fn filled_up(alloc: Global, row: &[Edge], width: usize, fill: Edge) -> Result<Vec<Edge>, NoMemory>
    requires { length row.now ≤ width }
    ensures { IfOk result (λ r. r.items ≡ row.now ++ replicate (width - length row.now) fill) }
{
    let ends = filled(alloc, fill, width - row.len())?;
    let mut all = Vec::new(alloc);
    all.extend_from_slice(row)?;
    all.extend_from_slice(&ends)?;
    Ok(all)
}

/// The row with zeros in further places, up to a width.
pub fn zero_extended(alloc: Global, row: &[Edge], width: usize) -> Result<List<Edge>, NoMemory>
    requires { length row.now ≤ width }
    ensures length { IfOk result (λ r. length r ≡ width) }
    ensures edges { IfOk result (λ r. (t : Table) → AreEdges t row.now → AreEdges t r) }
    ensures value { IfOk result (λ r. (t : Table) (values : ℕ → Bool) → Obeys t values → number values r ≡ number values row.now) }
{
    let all = filled_up(alloc, row, width, Edge::FALSE)?;
    Ok(List::from_vec(all))
}

/// The row with its highest bit in further places, up to a width.
pub fn sign_extended(alloc: Global, row: &[Edge], width: usize) -> Result<List<Edge>, NoMemory>
    requires some { 0 < length row.now }
    requires wider { length row.now ≤ width }
    ensures length { IfOk result (λ r. length r ≡ width) }
    ensures edges { IfOk result (λ r. (t : Table) → AreEdges t row.now → AreEdges t r) }
    ensures value { IfOk result (λ r. (values : ℕ → Bool) → number values r ≡ extended (length row.now) width (number values row.now)) }
{
    let sign = row[row.len() - 1];
    let all = filled_up(alloc, row, width, sign)?;
    Ok(List::from_vec(all))
}

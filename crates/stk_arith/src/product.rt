//! Products of rows.

ghost use Rattle.std.specs.Prelude.{◌≡◌, ℕ, ◌+◌, ◌-◌, ◌*◌, ◌%◌, ◌^◌, ◌<◌, ◌≤◌, Bool, length, IfOk};
ghost use Rattle.stk_gates.specs.Edges.{edge_value};
ghost use Rattle.stk_gates.specs.Tables.{IsEdge, Obeys, Extends, AddsWithin, HasRoom};
ghost use Rattle.stk_arith.specs.Rows.{bit, number, AreEdges};

use crate::parts::{filled, mask};
use crate::sums::add_rows;
use std::alloc::Global;
use stk_base::{List, NoMemory};
use stk_gates::{Edge, Gates};

/// Adds the second row from place `i` on, where an edge is true.
#[tactic(auto, using(crate::proofs::Numbers::parts_of_rows))]
fn add_shifted(
    alloc: Global,
    gates: &mut Gates,
    row: &[Edge],
    a: &[Edge],
    test: Edge,
    i: usize,
) -> Result<Vec<Edge>, NoMemory>
    requires same { length a.now ≡ length row.now }
    requires within { i < length row.now }
    requires row { AreEdges gates.old row.now }
    requires a { AreEdges gates.old a.now }
    requires test { IsEdge gates.old test }
    requires room { HasRoom gates.old (10 * (length row.now - i)) }
    ensures length { IfOk result (λ r. length r.items ≡ length row.now) }
    ensures edges { IfOk result (λ r. AreEdges gates.new r.items) }
    ensures value { IfOk result (λ r. (values : ℕ → Bool) → Obeys gates.new values → number values r.items ≡ (number values row.now + 2 ^ i * (bit (edge_value values test) * number values a.now)) % 2 ^ length row.now) }
    ensures extends { Extends gates.old gates.new }
    ensures adds { AddsWithin gates.old gates.new (10 * (length row.now - i)) }
{
    let (low, high) = row.split_at(i);
    let masked = mask(alloc, gates, test, &a[..row.len() - i])?;
    let sum = add_rows(alloc, gates, high, &masked, Edge::FALSE)?;
    let mut all = Vec::new(alloc);
    all.extend_from_slice(low)?;
    all.extend_from_slice(&sum.row)?;
    Ok(all)
}

/// The product of two rows in as many bits: what lies beyond them is dropped. Row `i` is added on its last places
/// alone.
#[tactic(auto, using(crate::proofs::Numbers::parts_of_rows))]
pub fn multiply(
    alloc: Global,
    gates: &mut Gates,
    a: &[Edge],
    b: &[Edge],
) -> Result<List<Edge>, NoMemory>
    requires same { length b.now ≡ length a.now }
    requires a { AreEdges gates.old a.now }
    requires b { AreEdges gates.old b.now }
    requires room { HasRoom gates.old (6 * length a.now * length a.now + 6 * length a.now) }
    ensures length { IfOk result (λ r. length r ≡ length a.now) }
    ensures edges { IfOk result (AreEdges gates.new) }
    ensures value { IfOk result (λ r. (values : ℕ → Bool) → Obeys gates.new values → number values r ≡ (number values a.now * number values b.now) % 2 ^ length a.now) }
    ensures extends { Extends gates.old gates.new }
    ensures adds { AddsWithin gates.old gates.new (6 * length a.now * length a.now + 6 * length a.now) }
{
    let mut row = filled(alloc, Edge::FALSE, a.len())?;
    for i in 0..b.len() {
        row = add_shifted(alloc, gates, &row, a, b[i], i)?;
    }
    Ok(List::from_vec(row))
}

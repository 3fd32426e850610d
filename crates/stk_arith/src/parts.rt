//! Small circuits that others are made of: rows of one edge, a choice of two rows, and whether a row is 0.

ghost use Rattle.std.specs.Prelude.{◌≡◌, ℕ, ◌+◌, ◌*◌, ◌<◌, ◌≤◌, Bool, length, replicate, IfOk, if◌then◌else◌, nat_lt};
ghost use Rattle.stk_gates.specs.Edges.{edge_value};
ghost use Rattle.stk_gates.specs.Tables.{IsEdge, Obeys, Extends, AddsWithin, HasRoom};
ghost use Rattle.stk_arith.specs.Rows.{bit, number, AreEdges};

use std::alloc::Global;
use stk_base::NoMemory;
use stk_gates::{Edge, Gates};

/// A row of one edge, many times.
pub(crate) fn filled(alloc: Global, edge: Edge, count: usize) -> Result<Vec<Edge>, NoMemory>
    ensures { IfOk result (λ r. r.items ≡ replicate count edge) }
{
    Ok(vec![in alloc; edge; count]?)
}

/// Whether a row isn't 0.
#[tactic(auto, using(crate::proofs::Numbers::kept))]
pub fn any(gates: &mut Gates, row: &[Edge]) -> Result<Edge, NoMemory>
    requires row { AreEdges gates.old row.now }
    requires room { HasRoom gates.old (length row.now) }
    ensures edge { IfOk result (IsEdge gates.new) }
    ensures value { IfOk result (λ e. (values : ℕ → Bool) → Obeys gates.new values → edge_value values e ≡ nat_lt 0 (number values row.now)) }
    ensures extends { Extends gates.old gates.new }
    ensures adds { AddsWithin gates.old gates.new (length row.now) }
{
    let mut some = Edge::FALSE;
    for i in 0..row.len() {
        some = gates.or(some, row[i])?;
    }
    Ok(some)
}

/// One of two rows, as an edge says.
#[tactic(auto, using(crate::proofs::Numbers::kept))]
pub fn select(
    alloc: Global,
    gates: &mut Gates,
    test: Edge,
    yes: &[Edge],
    no: &[Edge],
) -> Result<Vec<Edge>, NoMemory>
    requires same { length no.now ≡ length yes.now }
    requires test { IsEdge gates.old test }
    requires yes { AreEdges gates.old yes.now }
    requires no { AreEdges gates.old no.now }
    requires room { HasRoom gates.old (3 * length yes.now) }
    ensures length { IfOk result (λ r. length r.items ≡ length yes.now) }
    ensures edges { IfOk result (λ r. AreEdges gates.new r.items) }
    ensures value { IfOk result (λ r. (values : ℕ → Bool) → Obeys gates.new values → number values r.items ≡ (if edge_value values test then number values yes.now else number values no.now)) }
    ensures extends { Extends gates.old gates.new }
    ensures adds { AddsWithin gates.old gates.new (3 * length yes.now) }
{
    let mut row = Vec::new(alloc);
    for i in 0..yes.len() {
        let edge = gates.mux(test, yes[i], no[i])?;
        row.push(edge)?;
    }
    Ok(row)
}

/// The row where an edge is true, and else 0.
#[tactic(auto, using(crate::proofs::Numbers::kept))]
pub(crate) fn mask(
    alloc: Global,
    gates: &mut Gates,
    test: Edge,
    row: &[Edge],
) -> Result<Vec<Edge>, NoMemory>
    requires test { IsEdge gates.old test }
    requires row { AreEdges gates.old row.now }
    requires room { HasRoom gates.old (length row.now) }
    ensures length { IfOk result (λ r. length r.items ≡ length row.now) }
    ensures edges { IfOk result (λ r. AreEdges gates.new r.items) }
    ensures value { IfOk result (λ r. (values : ℕ → Bool) → Obeys gates.new values → number values r.items ≡ bit (edge_value values test) * number values row.now) }
    ensures extends { Extends gates.old gates.new }
    ensures adds { AddsWithin gates.old gates.new (length row.now) }
{
    let mut masked = Vec::new(alloc);
    for i in 0..row.len() {
        let edge = gates.and(test, row[i])?;
        masked.push(edge)?;
    }
    Ok(masked)
}

//! The shift to the left.

ghost use Rattle.std.specs.Prelude.{◌≡◌, ℕ, ◌+◌, ◌-◌, ◌*◌, ◌%◌, ◌^◌, ◌<◌, ◌≤◌, Bool, length, IfOk, if◌then◌else◌};
ghost use Rattle.stk_gates.specs.Edges.{edge_value};
ghost use Rattle.stk_gates.specs.Tables.{IsEdge, Obeys, Extends, AddsWithin, HasRoom};
ghost use Rattle.stk_arith.specs.Rows.{number, AreEdges};
ghost use Rattle.stk_arith.specs.Shifts.{shifted_left};

use crate::parts::{any, filled, select};
use crate::stages::{finished, stages};
use std::alloc::Global;
use stk_base::{List, NoMemory};
use stk_gates::{Edge, Gates};

/// Shifts a row by a fixed count, where an edge is true.
#[tactic(auto, using(crate::proofs::Numbers::parts_of_rows))]
fn stage_left(
    alloc: Global,
    gates: &mut Gates,
    row: &[Edge],
    test: Edge,
    by: usize,
) -> Result<Vec<Edge>, NoMemory>
    requires within { by ≤ length row.now }
    requires row { AreEdges gates.old row.now }
    requires test { IsEdge gates.old test }
    requires room { HasRoom gates.old (3 * length row.now) }
    ensures length { IfOk result (λ r. length r.items ≡ length row.now) }
    ensures edges { IfOk result (λ r. AreEdges gates.new r.items) }
    ensures value { IfOk result (λ r. (values : ℕ → Bool) → Obeys gates.new values → number values r.items ≡ (if edge_value values test then shifted_left (length row.now) (number values row.now) by else number values row.now)) }
    ensures extends { Extends gates.old gates.new }
    ensures adds { AddsWithin gates.old gates.new (3 * length row.now) }
{
    let (low, _) = row.split_at(row.len() - by);
    let mut moved = filled(alloc, Edge::FALSE, by)?;
    moved.extend_from_slice(low)?;
    let result = select(alloc, gates, test, &moved, row)?;
    Ok(result)
}

/// The first row shifted to the left by the second row's number. A count of at least the width gives 0.
#[tactic(auto, using(crate::proofs::Numbers::parts_of_rows))]
pub fn shift_left(
    alloc: Global,
    gates: &mut Gates,
    a: &[Edge],
    b: &[Edge],
) -> Result<List<Edge>, NoMemory>
    requires same { length b.now ≡ length a.now }
    requires some { 0 < length a.now }
    requires few { length a.now ≤ 128 }
    requires a { AreEdges gates.old a.now }
    requires b { AreEdges gates.old b.now }
    requires room { HasRoom gates.old (24 * length a.now) }
    ensures length { IfOk result (λ r. length r ≡ length a.now) }
    ensures edges { IfOk result (AreEdges gates.new) }
    ensures value { IfOk result (λ r. (values : ℕ → Bool) → Obeys gates.new values → number values r ≡ shifted_left (length a.now) (number values a.now) (number values b.now)) }
    ensures extends { Extends gates.old gates.new }
    ensures adds { AddsWithin gates.old gates.new (24 * length a.now) }
{
    let count = stages(a.len());
    let mut row = Vec::new(alloc);
    row.extend_from_slice(a)?;
    for k in 0..count {
        row = stage_left(alloc, gates, &row, b[k], 1 << k)?;
    }
    let (_, high) = b.split_at(count);
    let over = any(gates, high)?;
    let all = finished(alloc, gates, over, Edge::FALSE, &row)?;
    Ok(List::from_vec(all))
}

//! Shifts to the right.

ghost use Rattle.std.specs.Prelude.{◌≡◌, ℕ, ◌+◌, ◌-◌, ◌*◌, ◌/◌, ◌^◌, ◌<◌, ◌≤◌, Bool, length, IfOk, if◌then◌else◌};
ghost use Rattle.stk_gates.specs.Edges.{edge_value};
ghost use Rattle.stk_gates.specs.Tables.{IsEdge, Obeys, Extends, AddsWithin, HasRoom};
ghost use Rattle.stk_arith.specs.Rows.{number, AreEdges};
ghost use Rattle.stk_arith.specs.Shifts.{signed_bits, shifted_right, is_negative};

use crate::parts::{any, filled, select};
use crate::stages::{finished, stages};
use std::alloc::Global;
use stk_base::{List, NoMemory};
use stk_gates::{Edge, Gates};

/// Shifts a row by a fixed count, where an edge is true.
#[tactic(auto, using(crate::proofs::Numbers::parts_of_rows))]
fn stage_right(
    alloc: Global,
    gates: &mut Gates,
    row: &[Edge],
    test: Edge,
    fill: Edge,
    by: usize,
) -> Result<Vec<Edge>, NoMemory>
    requires within { by ≤ length row.now }
    requires row { AreEdges gates.old row.now }
    requires test { IsEdge gates.old test }
    requires fill { IsEdge gates.old fill }
    requires room { HasRoom gates.old (3 * length row.now) }
    ensures length { IfOk result (λ r. length r.items ≡ length row.now) }
    ensures edges { IfOk result (λ r. AreEdges gates.new r.items) }
    ensures value { IfOk result (λ r. (values : ℕ → Bool) → Obeys gates.new values → signed_bits (edge_value values fill) (length row.now) (number values r.items) ≡ (if edge_value values test then signed_bits (edge_value values fill) (length row.now) (number values row.now) / 2 ^ by else signed_bits (edge_value values fill) (length row.now) (number values row.now))) }
    ensures extends { Extends gates.old gates.new }
    ensures adds { AddsWithin gates.old gates.new (3 * length row.now) }
{
    let (_, high) = row.split_at(by);
    let ends = filled(alloc, fill, by)?;
    let mut moved = Vec::new(alloc);
    moved.extend_from_slice(high)?;
    moved.extend_from_slice(&ends)?;
    let result = select(alloc, gates, test, &moved, row)?;
    Ok(result)
}

/// Shifts a row to the right by a count, filling with an edge.
#[tactic(auto, using(crate::proofs::Numbers::parts_of_rows))]
fn filling_right(
    alloc: Global,
    gates: &mut Gates,
    a: &[Edge],
    b: &[Edge],
    fill: Edge,
) -> Result<List<Edge>, NoMemory>
    requires same { length b.now ≡ length a.now }
    requires some { 0 < length a.now }
    requires few { length a.now ≤ 128 }
    requires a { AreEdges gates.old a.now }
    requires b { AreEdges gates.old b.now }
    requires fill { IsEdge gates.old fill }
    requires room { HasRoom gates.old (24 * length a.now) }
    ensures length { IfOk result (λ r. length r ≡ length a.now) }
    ensures edges { IfOk result (AreEdges gates.new) }
    ensures value { IfOk result (λ r. (values : ℕ → Bool) → Obeys gates.new values → number values r ≡ shifted_right (edge_value values fill) (length a.now) (number values a.now) (number values b.now)) }
    ensures extends { Extends gates.old gates.new }
    ensures adds { AddsWithin gates.old gates.new (24 * length a.now) }
{
    let count = stages(a.len());
    let mut row = Vec::new(alloc);
    row.extend_from_slice(a)?;
    for k in 0..count {
        row = stage_right(alloc, gates, &row, b[k], fill, 1 << k)?;
    }
    let (_, high) = b.split_at(count);
    let over = any(gates, high)?;
    let all = finished(alloc, gates, over, fill, &row)?;
    Ok(List::from_vec(all))
}

/// The first row shifted to the right by the second row's number, filling with 0. A count of at least the width gives
/// 0.
#[tactic(auto, using(crate::proofs::Numbers::parts_of_rows))]
pub fn shift_right(
    alloc: Global,
    gates: &mut Gates,
    a: &[Edge],
    b: &[Edge],
) -> Result<List<Edge>, NoMemory>
    requires same { length b.now ≡ length a.now }
    requires some { 0 < length a.now }
    requires few { length a.now ≤ 128 }
    requires a { AreEdges gates.old a.now }
    requires b { AreEdges gates.old b.now }
    requires room { HasRoom gates.old (24 * length a.now) }
    ensures length { IfOk result (λ r. length r ≡ length a.now) }
    ensures edges { IfOk result (AreEdges gates.new) }
    ensures value { IfOk result (λ r. (values : ℕ → Bool) → Obeys gates.new values → number values r ≡ number values a.now / 2 ^ number values b.now) }
    ensures extends { Extends gates.old gates.new }
    ensures adds { AddsWithin gates.old gates.new (24 * length a.now) }
{
    let row = filling_right(alloc, gates, a, b, Edge::FALSE)?;
    Ok(row)
}

/// The first row shifted to the right by the second row's number, filling with its highest bit. A count of at least the
/// width gives that bit in each place.
#[tactic(auto, using(crate::proofs::Numbers::parts_of_rows))]
pub fn shift_right_signed(
    alloc: Global,
    gates: &mut Gates,
    a: &[Edge],
    b: &[Edge],
) -> Result<List<Edge>, NoMemory>
    requires same { length b.now ≡ length a.now }
    requires some { 0 < length a.now }
    requires few { length a.now ≤ 128 }
    requires a { AreEdges gates.old a.now }
    requires b { AreEdges gates.old b.now }
    requires room { HasRoom gates.old (24 * length a.now) }
    ensures length { IfOk result (λ r. length r ≡ length a.now) }
    ensures edges { IfOk result (AreEdges gates.new) }
    ensures value { IfOk result (λ r. (values : ℕ → Bool) → Obeys gates.new values → number values r ≡ shifted_right (is_negative (length a.now) (number values a.now)) (length a.now) (number values a.now) (number values b.now)) }
    ensures extends { Extends gates.old gates.new }
    ensures adds { AddsWithin gates.old gates.new (24 * length a.now) }
{
    let sign = a[a.len() - 1];
    let row = filling_right(alloc, gates, a, b, sign)?;
    Ok(row)
}

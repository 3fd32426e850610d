//! What the shifts share: how many stages there are, and what becomes of a count that is too large.

ghost use Rattle.std.specs.Prelude.{◌≡◌, ℕ, ◌+◌, ◌-◌, ◌*◌, ◌^◌, ◌<◌, ◌≤◌, Bool, length, replicate, IfOk, if◌then◌else◌};
ghost use Rattle.stk_gates.specs.Edges.{edge_value};
ghost use Rattle.stk_gates.specs.Tables.{IsEdge, Obeys, Extends, AddsWithin, HasRoom};
ghost use Rattle.stk_arith.specs.Rows.{number, AreEdges};

use std::alloc::Global;
use stk_base::NoMemory;
use stk_gates::{Edge, Gates};

/// How many bits of a count shift a row of this width by less than it.
pub(crate) fn stages(width: usize) -> usize
    requires { width ≤ 128 }
    ensures covers { width ≤ 2 ^ result }
    ensures below { 0 < result → 2 ^ (result - 1) < width }
    ensures few { result ≤ 7 }
    ensures within { result ≤ width }
{
    if width <= 1 {
        0
    } else if width <= 2 {
        1
    } else if width <= 4 {
        2
    } else if width <= 8 {
        3
    } else if width <= 16 {
        4
    } else if width <= 32 {
        5
    } else if width <= 64 {
        6
    } else {
        7
    }
}

/// The row, or one edge in each place where the count is too large.
#[tactic(auto, using(crate::proofs::Numbers::parts_of_rows))]
pub(crate) fn finished(
    alloc: Global,
    gates: &mut Gates,
    over: Edge,
    fill: Edge,
    row: &[Edge],
) -> Result<Vec<Edge>, NoMemory>
    requires over { IsEdge gates.old over }
    requires fill { IsEdge gates.old fill }
    requires row { AreEdges gates.old row.now }
    requires room { HasRoom gates.old (2 * length row.now + 1) }
    ensures length { IfOk result (λ r. length r.items ≡ length row.now) }
    ensures edges { IfOk result (λ r. AreEdges gates.new r.items) }
    ensures value { IfOk result (λ r. (values : ℕ → Bool) → Obeys gates.new values → number values r.items ≡ (if edge_value values over then number values (replicate (length row.now) fill) else number values row.now)) }
    ensures extends { Extends gates.old gates.new }
    ensures adds { AddsWithin gates.old gates.new (2 * length row.now + 1) }
{
    let filled = gates.and(over, fill)?;
    let mut all = Vec::new(alloc);
    for i in 0..row.len() {
        let kept = gates.and(over.inverted(), row[i])?;
        let edge = gates.or(filled, kept)?;
        all.push(edge)?;
    }
    Ok(all)
}

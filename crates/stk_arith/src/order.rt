//! Which of two rows has the smaller number, with or without a sign.

ghost use Rattle.std.specs.Prelude.{◌≡◌, ℕ, ◌+◌, ◌-◌, ◌*◌, ◌%◌, ◌^◌, ◌<◌, ◌≤◌, Bool, length, IfOk};
ghost use Rattle.stk_gates.specs.Edges.{edge_value};
ghost use Rattle.stk_gates.specs.Tables.{Table, IsEdge, Obeys, Extends, AddsWithin, HasRoom};
ghost use Rattle.stk_arith.specs.Rows.{number, signed_place, is_less, AreEdges};

use crate::sums::below;
use std::alloc::Global;
use stk_base::NoMemory;
use stk_gates::{Edge, Gates};

/// The row with its highest edge inverted.
#[tactic(auto, using(crate::proofs::Numbers::kept))]
fn top_inverted(alloc: Global, row: &[Edge]) -> Result<Vec<Edge>, NoMemory>
    requires { 0 < length row.now }
    ensures length { IfOk result (λ r. length r.items ≡ length row.now) }
    ensures edges { IfOk result (λ r. (t : Table) → AreEdges t row.now → AreEdges t r.items) }
    ensures value { IfOk result (λ r. (values : ℕ → Bool) → number values r.items ≡ signed_place (length row.now) (number values row.now)) }
{
    let last = row.len() - 1;
    let mut top = Vec::new(alloc);
    top.extend_from_slice(row)?;
    top[last] = row[last].inverted();
    Ok(top)
}

/// Whether the first row's number is the smaller one; with `signed` the highest bit of each row is its sign.
#[tactic(auto, using(crate::proofs::Numbers::kept))]
pub fn less(
    alloc: Global,
    gates: &mut Gates,
    a: &[Edge],
    b: &[Edge],
    signed: bool,
) -> Result<Edge, NoMemory>
    requires same { length b.now ≡ length a.now }
    requires some { 0 < length a.now }
    requires a { AreEdges gates.old a.now }
    requires b { AreEdges gates.old b.now }
    requires room { HasRoom gates.old (10 * length a.now) }
    ensures edge { IfOk result (IsEdge gates.new) }
    ensures value { IfOk result (λ e. (values : ℕ → Bool) → Obeys gates.new values → edge_value values e ≡ is_less signed (length a.now) (number values a.now) (number values b.now)) }
    ensures extends { Extends gates.old gates.new }
    ensures adds { AddsWithin gates.old gates.new (10 * length a.now) }
{
    if !signed {
        let e = below(alloc, gates, a, b)?;
        return Ok(e);
    }
    let x = top_inverted(alloc, a)?;
    let y = top_inverted(alloc, b)?;
    let e = below(alloc, gates, &x, &y)?;
    Ok(e)
}

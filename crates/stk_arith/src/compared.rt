//! Whether two rows are equal, and the row of the negative number.

ghost use Rattle.std.specs.Prelude.{◌≡◌, ◌==◌, ℕ, ◌+◌, ◌-◌, ◌*◌, ◌%◌, ◌^◌, ◌<◌, ◌≤◌, Bool, length, IfOk};
ghost use Rattle.stk_gates.specs.Edges.{edge_value};
ghost use Rattle.stk_gates.specs.Tables.{IsEdge, Obeys, Extends, AddsWithin, HasRoom};
ghost use Rattle.stk_arith.specs.Rows.{number, AreEdges};

use crate::parts::filled;
use crate::sub;
use std::alloc::Global;
use stk_base::{List, NoMemory};
use stk_gates::{Edge, Gates};

/// Whether two rows have the same number.
#[tactic(auto, using(crate::proofs::Numbers::kept))]
pub fn equal(gates: &mut Gates, a: &[Edge], b: &[Edge]) -> Result<Edge, NoMemory>
    requires same { length b.now ≡ length a.now }
    requires a { AreEdges gates.old a.now }
    requires b { AreEdges gates.old b.now }
    requires room { HasRoom gates.old (4 * length a.now) }
    ensures edge { IfOk result (IsEdge gates.new) }
    ensures value { IfOk result (λ e. (values : ℕ → Bool) → Obeys gates.new values → edge_value values e ≡ (number values a.now == number values b.now)) }
    ensures extends { Extends gates.old gates.new }
    ensures adds { AddsWithin gates.old gates.new (4 * length a.now) }
{
    let mut apart = Edge::FALSE;
    for i in 0..a.len() {
        let differ = gates.xor(a[i], b[i])?;
        apart = gates.or(apart, differ)?;
    }
    Ok(apart.inverted())
}

/// The row of what makes 0 with the row's number, modulo 2 to the number of bits.
#[tactic(auto, using(crate::proofs::Numbers::kept))]
pub fn negative(alloc: Global, gates: &mut Gates, row: &[Edge]) -> Result<List<Edge>, NoMemory>
    requires row { AreEdges gates.old row.now }
    requires room { HasRoom gates.old (10 * length row.now) }
    ensures length { IfOk result (λ r. length r ≡ length row.now) }
    ensures edges { IfOk result (AreEdges gates.new) }
    ensures value { IfOk result (λ r. (values : ℕ → Bool) → Obeys gates.new values → number values r ≡ (2 ^ length row.now - number values row.now) % 2 ^ length row.now) }
    ensures extends { Extends gates.old gates.new }
    ensures adds { AddsWithin gates.old gates.new (10 * length row.now) }
{
    let zeros = filled(alloc, Edge::FALSE, row.len())?;
    let difference = sub(alloc, gates, &zeros, row)?;
    Ok(difference)
}

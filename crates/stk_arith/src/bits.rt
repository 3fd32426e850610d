//! The bitwise operators on rows of the same length.

ghost use Rattle.std.specs.Prelude.{◌≡◌, ℕ, ◌+◌, ◌*◌, ◌<◌, ◌≤◌, Bool, length, IfOk, bit_and, bit_or, bit_xor};
ghost use Rattle.stk_gates.specs.Tables.{Obeys, Extends, AddsWithin, HasRoom};
ghost use Rattle.stk_arith.specs.Rows.{number, AreEdges};

use std::alloc::Global;
use stk_base::{List, NoMemory};
use stk_gates::{Edge, Gates};

/// The AND of two rows, bit by bit.
#[tactic(auto, using(crate::proofs::Numbers::kept))]
pub fn and_rows(
    alloc: Global,
    gates: &mut Gates,
    a: &[Edge],
    b: &[Edge],
) -> Result<List<Edge>, NoMemory>
    requires same { length b.now ≡ length a.now }
    requires a { AreEdges gates.old a.now }
    requires b { AreEdges gates.old b.now }
    requires room { HasRoom gates.old (length a.now) }
    ensures length { IfOk result (λ r. length r ≡ length a.now) }
    ensures edges { IfOk result (AreEdges gates.new) }
    ensures value { IfOk result (λ r. (values : ℕ → Bool) → Obeys gates.new values → number values r ≡ bit_and (number values a.now) (number values b.now)) }
    ensures extends { Extends gates.old gates.new }
    ensures adds { AddsWithin gates.old gates.new (length a.now) }
{
    let mut row = Vec::new(alloc);
    for i in 0..a.len() {
        let edge = gates.and(a[i], b[i])?;
        row.push(edge)?;
    }
    Ok(List::from_vec(row))
}

/// The OR of two rows, bit by bit.
#[tactic(auto, using(crate::proofs::Numbers::kept))]
pub fn or_rows(
    alloc: Global,
    gates: &mut Gates,
    a: &[Edge],
    b: &[Edge],
) -> Result<List<Edge>, NoMemory>
    requires same { length b.now ≡ length a.now }
    requires a { AreEdges gates.old a.now }
    requires b { AreEdges gates.old b.now }
    requires room { HasRoom gates.old (length a.now) }
    ensures length { IfOk result (λ r. length r ≡ length a.now) }
    ensures edges { IfOk result (AreEdges gates.new) }
    ensures value { IfOk result (λ r. (values : ℕ → Bool) → Obeys gates.new values → number values r ≡ bit_or (number values a.now) (number values b.now)) }
    ensures extends { Extends gates.old gates.new }
    ensures adds { AddsWithin gates.old gates.new (length a.now) }
{
    let mut row = Vec::new(alloc);
    for i in 0..a.len() {
        let edge = gates.or(a[i], b[i])?;
        row.push(edge)?;
    }
    Ok(List::from_vec(row))
}

/// Where two rows differ, bit by bit.
#[tactic(auto, using(crate::proofs::Numbers::kept))]
pub fn xor_rows(
    alloc: Global,
    gates: &mut Gates,
    a: &[Edge],
    b: &[Edge],
) -> Result<List<Edge>, NoMemory>
    requires same { length b.now ≡ length a.now }
    requires a { AreEdges gates.old a.now }
    requires b { AreEdges gates.old b.now }
    requires room { HasRoom gates.old (3 * length a.now) }
    ensures length { IfOk result (λ r. length r ≡ length a.now) }
    ensures edges { IfOk result (AreEdges gates.new) }
    ensures value { IfOk result (λ r. (values : ℕ → Bool) → Obeys gates.new values → number values r ≡ bit_xor (number values a.now) (number values b.now)) }
    ensures extends { Extends gates.old gates.new }
    ensures adds { AddsWithin gates.old gates.new (3 * length a.now) }
{
    let mut row = Vec::new(alloc);
    for i in 0..a.len() {
        let edge = gates.xor(a[i], b[i])?;
        row.push(edge)?;
    }
    Ok(List::from_vec(row))
}

//! Comparisons as rows of one edge, and the choice of two rows by such a row.

ghost use Rattle.std.specs.Prelude.{◌≡◌, ℕ, ◌+◌, ◌*◌, ◌^◌, ◌<◌, ◌≤◌, Bool, [], ◌∷◌, length, IfOk, nat_eq, nat_lt, int_lt, if◌then◌else◌};
ghost use Rattle.stk_gates.specs.Tables.{Obeys, Extends, AddsWithin, HasRoom};
ghost use Rattle.stk_arith.specs.Rows.{number, AreEdges};
ghost use Rattle.stk_terms.specs.Values.{bit, signed};

use std::alloc::Global;
use stk_arith::{equal, less, select};
use stk_base::{List, NoMemory};
use stk_gates::{Edge, Gates};

/// The row of one edge.
fn alone(alloc: Global, edge: Edge) -> Result<List<Edge>, NoMemory>
    ensures { IfOk result (λ r. r ≡ edge ∷ []) }
{
    let mut row = Vec::new(alloc);
    row.push(edge)?;
    Ok(List::from_vec(row))
}

/// Whether two rows have the same number.
#[tactic(auto, using(stk_arith::proofs::Numbers::kept))]
pub(crate) fn equality(
    alloc: Global,
    gates: &mut Gates,
    a: &[Edge],
    b: &[Edge],
) -> Result<List<Edge>, NoMemory>
    requires same { length b.now ≡ length a.now }
    requires a { AreEdges gates.old a.now }
    requires b { AreEdges gates.old b.now }
    requires room { HasRoom gates.old (4 * length a.now) }
    ensures length { IfOk result (λ r. length r ≡ 1) }
    ensures edges { IfOk result (AreEdges gates.new) }
    ensures value { IfOk result (λ r. (values : ℕ → Bool) → Obeys gates.new values → number values r ≡ bit (nat_eq (number values a.now) (number values b.now))) }
    ensures extends { Extends gates.old gates.new }
    ensures adds { AddsWithin gates.old gates.new (4 * length a.now) }
{
    let edge = equal(gates, a, b)?;
    let row = alone(alloc, edge)?;
    Ok(row)
}

/// Whether the first row's number is the smaller one, without signs.
#[tactic(auto, using(stk_arith::proofs::Numbers::kept))]
pub(crate) fn order(
    alloc: Global,
    gates: &mut Gates,
    a: &[Edge],
    b: &[Edge],
) -> Result<List<Edge>, NoMemory>
    requires same { length b.now ≡ length a.now }
    requires some { 0 < length a.now }
    requires a { AreEdges gates.old a.now }
    requires b { AreEdges gates.old b.now }
    requires room { HasRoom gates.old (10 * length a.now) }
    ensures length { IfOk result (λ r. length r ≡ 1) }
    ensures edges { IfOk result (AreEdges gates.new) }
    ensures value { IfOk result (λ r. (values : ℕ → Bool) → Obeys gates.new values → number values r ≡ bit (nat_lt (number values a.now) (number values b.now))) }
    ensures extends { Extends gates.old gates.new }
    ensures adds { AddsWithin gates.old gates.new (10 * length a.now) }
{
    let edge = less(alloc, gates, a, b, false)?;
    let row = alone(alloc, edge)?;
    Ok(row)
}

/// Whether the first row's number is the smaller one in two's complement.
#[tactic(auto, using(stk_arith::proofs::Numbers::kept))]
pub(crate) fn signed_order(
    alloc: Global,
    gates: &mut Gates,
    a: &[Edge],
    b: &[Edge],
) -> Result<List<Edge>, NoMemory>
    requires same { length b.now ≡ length a.now }
    requires some { 0 < length a.now }
    requires a { AreEdges gates.old a.now }
    requires b { AreEdges gates.old b.now }
    requires room { HasRoom gates.old (10 * length a.now) }
    ensures length { IfOk result (λ r. length r ≡ 1) }
    ensures edges { IfOk result (AreEdges gates.new) }
    ensures value { IfOk result (λ r. (values : ℕ → Bool) → Obeys gates.new values → number values r ≡ bit (int_lt (signed (length a.now) (number values a.now)) (signed (length a.now) (number values b.now)))) }
    ensures extends { Extends gates.old gates.new }
    ensures adds { AddsWithin gates.old gates.new (10 * length a.now) }
{
    let edge = less(alloc, gates, a, b, true)?;
    let row = alone(alloc, edge)?;
    Ok(row)
}

/// The second row where the first one's number is 1, and else the third.
#[tactic(auto, using(stk_arith::proofs::Numbers::kept))]
pub(crate) fn choice(
    alloc: Global,
    gates: &mut Gates,
    test: &[Edge],
    yes: &[Edge],
    no: &[Edge],
) -> Result<List<Edge>, NoMemory>
    requires one { length test.now ≡ 1 }
    requires same { length no.now ≡ length yes.now }
    requires test { AreEdges gates.old test.now }
    requires yes { AreEdges gates.old yes.now }
    requires no { AreEdges gates.old no.now }
    requires room { HasRoom gates.old (3 * length yes.now) }
    ensures length { IfOk result (λ r. length r ≡ length yes.now) }
    ensures edges { IfOk result (AreEdges gates.new) }
    ensures value { IfOk result (λ r. (values : ℕ → Bool) → Obeys gates.new values → number values r ≡ (if nat_eq (number values test.now) 1 then number values yes.now else number values no.now)) }
    ensures extends { Extends gates.old gates.new }
    ensures adds { AddsWithin gates.old gates.new (3 * length yes.now) }
{
    let row = select(alloc, gates, test[0], yes, no)?;
    Ok(List::from_vec(row))
}

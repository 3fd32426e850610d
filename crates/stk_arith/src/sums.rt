//! Sums and differences of rows, and which of two numbers without a sign is smaller.

ghost use Rattle.std.specs.Prelude.{◌≡◌, ℕ, ◌+◌, ◌-◌, ◌*◌, ◌%◌, ◌^◌, ◌<◌, ◌≤◌, Bool, ◌&&◌, not, if◌then◌else◌, length, IfOk, nat_lt};
ghost use Rattle.stk_gates.specs.Edges.{edge_value};
ghost use Rattle.stk_gates.specs.Tables.{Table, IsEdge, Obeys, Extends, AddsWithin, HasRoom};
ghost use Rattle.stk_arith.specs.Rows.{bit, number, AreEdges};

use std::alloc::Global;
use stk_base::{List, NoMemory};
use stk_gates::{Edge, Gates};

/// The sum of one place, and the carry to the next.
#[derive(Clone, Copy)]
struct PlaceSum {
    sum: Edge,
    carry: Edge,
}

/// The sum of two rows in as many places, and the carry out of the last.
#[derive(Drop)]
pub struct Sum {
    pub row: Vec<Edge>,
    pub carry: Edge,
}

/// Adds two bits of one place.
#[tactic(auto, using(crate::proofs::Numbers::kept))]
fn add_two(gates: &mut Gates, a: Edge, b: Edge) -> Result<PlaceSum, NoMemory>
    requires a { IsEdge gates.old a }
    requires b { IsEdge gates.old b }
    requires room { HasRoom gates.old 3 }
    ensures sum_edge { IfOk result (λ r. IsEdge gates.new r.sum) }
    ensures carry_edge { IfOk result (λ r. IsEdge gates.new r.carry) }
    ensures sum { IfOk result (λ r. (values : ℕ → Bool) → Obeys gates.new values → edge_value values r.sum ≡ (if edge_value values a then not (edge_value values b) else edge_value values b)) }
    ensures carry { IfOk result (λ r. (values : ℕ → Bool) → Obeys gates.new values → edge_value values r.carry ≡ edge_value values a && edge_value values b) }
    ensures extends { Extends gates.old gates.new }
    ensures adds { AddsWithin gates.old gates.new 3 }
{
    let both = gates.and(a, b)?;
    let some = gates.or(a, b)?;
    let sum = gates.and(some, both.inverted())?;
    Ok(PlaceSum { sum, carry: both })
}

/// Adds one place.
#[tactic(auto, using(crate::proofs::Numbers::kept))]
fn add_place(gates: &mut Gates, a: Edge, b: Edge, carry: Edge) -> Result<PlaceSum, NoMemory>
    requires a { IsEdge gates.old a }
    requires b { IsEdge gates.old b }
    requires carry { IsEdge gates.old carry }
    requires room { HasRoom gates.old 9 }
    ensures sum_edge { IfOk result (λ r. IsEdge gates.new r.sum) }
    ensures carry_edge { IfOk result (λ r. IsEdge gates.new r.carry) }
    ensures value { IfOk result (λ r. (values : ℕ → Bool) → Obeys gates.new values → bit (edge_value values r.sum) + 2 * bit (edge_value values r.carry) ≡ bit (edge_value values a) + bit (edge_value values b) + bit (edge_value values carry)) }
    ensures extends { Extends gates.old gates.new }
    ensures adds { AddsWithin gates.old gates.new 9 }
{
    let first = add_two(gates, a, b)?;
    let second = add_two(gates, first.sum, carry)?;
    let next = gates.or(first.carry, second.carry)?;
    Ok(PlaceSum {
        sum: second.sum,
        carry: next,
    })
}

/// The sum of two rows and a carry.
#[tactic(auto, using(crate::proofs::Numbers::kept))]
pub(crate) fn add_rows(
    alloc: Global,
    gates: &mut Gates,
    a: &[Edge],
    b: &[Edge],
    carry: Edge,
) -> Result<Sum, NoMemory>
    requires same { length b.now ≡ length a.now }
    requires a { AreEdges gates.old a.now }
    requires b { AreEdges gates.old b.now }
    requires carry { IsEdge gates.old carry }
    requires room { HasRoom gates.old (9 * length a.now) }
    ensures length { IfOk result (λ r. length r.row.items ≡ length a.now) }
    ensures edges { IfOk result (λ r. AreEdges gates.new r.row.items) }
    ensures carry_edge { IfOk result (λ r. IsEdge gates.new r.carry) }
    ensures value { IfOk result (λ r. (values : ℕ → Bool) → Obeys gates.new values → number values r.row.items + 2 ^ length a.now * bit (edge_value values r.carry) ≡ number values a.now + number values b.now + bit (edge_value values carry)) }
    ensures extends { Extends gates.old gates.new }
    ensures adds { AddsWithin gates.old gates.new (9 * length a.now) }
{
    let mut row = Vec::new(alloc);
    let mut carried = carry;
    for i in 0..a.len() {
        let place = add_place(gates, a[i], b[i], carried)?;
        row.push(place.sum)?;
        carried = place.carry;
    }
    Ok(Sum {
        row,
        carry: carried,
    })
}

/// The row with each edge inverted.
#[tactic(auto, using(crate::proofs::Numbers::kept))]
pub fn inverted_row(alloc: Global, row: &[Edge]) -> Result<Vec<Edge>, NoMemory>
    ensures length { IfOk result (λ r. length r.items ≡ length row.now) }
    ensures edges { IfOk result (λ r. (t : Table) → AreEdges t row.now → AreEdges t r.items) }
    ensures value { IfOk result (λ r. (values : ℕ → Bool) → number values r.items + number values row.now + 1 ≡ 2 ^ length row.now) }
{
    let mut inverted = Vec::new(alloc);
    for i in 0..row.len() {
        inverted.push(row[i].inverted())?;
    }
    Ok(inverted)
}

/// The difference of two rows in as many places. The carry says that nothing was borrowed.
#[tactic(auto, using(crate::proofs::Numbers::kept))]
pub(crate) fn subtract_rows(
    alloc: Global,
    gates: &mut Gates,
    a: &[Edge],
    b: &[Edge],
) -> Result<Sum, NoMemory>
    requires same { length b.now ≡ length a.now }
    requires a { AreEdges gates.old a.now }
    requires b { AreEdges gates.old b.now }
    requires room { HasRoom gates.old (9 * length a.now) }
    ensures length { IfOk result (λ r. length r.row.items ≡ length a.now) }
    ensures edges { IfOk result (λ r. AreEdges gates.new r.row.items) }
    ensures carry_edge { IfOk result (λ r. IsEdge gates.new r.carry) }
    ensures value { IfOk result (λ r. (values : ℕ → Bool) → Obeys gates.new values → number values r.row.items + number values b.now + 2 ^ length a.now * bit (edge_value values r.carry) ≡ number values a.now + 2 ^ length a.now) }
    ensures extends { Extends gates.old gates.new }
    ensures adds { AddsWithin gates.old gates.new (9 * length a.now) }
{
    let inverted = inverted_row(alloc, b)?;
    let sum = add_rows(alloc, gates, a, &inverted, Edge::TRUE)?;
    Ok(sum)
}

/// The sum of two rows in as many bits: what the carry out of the last one would add is dropped.
#[tactic(auto, using(crate::proofs::Numbers::kept))]
pub fn add(alloc: Global, gates: &mut Gates, a: &[Edge], b: &[Edge]) -> Result<List<Edge>, NoMemory>
    requires same { length b.now ≡ length a.now }
    requires a { AreEdges gates.old a.now }
    requires b { AreEdges gates.old b.now }
    requires room { HasRoom gates.old (10 * length a.now) }
    ensures length { IfOk result (λ r. length r ≡ length a.now) }
    ensures edges { IfOk result (AreEdges gates.new) }
    ensures value { IfOk result (λ r. (values : ℕ → Bool) → Obeys gates.new values → number values r ≡ (number values a.now + number values b.now) % 2 ^ length a.now) }
    ensures extends { Extends gates.old gates.new }
    ensures adds { AddsWithin gates.old gates.new (10 * length a.now) }
{
    let sum = add_rows(alloc, gates, a, b, Edge::FALSE)?;
    Ok(List::from_vec(sum.row))
}

/// The difference of two rows in as many bits: where the second number is larger, 2 to the number of bits is added.
#[tactic(auto, using(crate::proofs::Numbers::kept))]
pub fn sub(alloc: Global, gates: &mut Gates, a: &[Edge], b: &[Edge]) -> Result<List<Edge>, NoMemory>
    requires same { length b.now ≡ length a.now }
    requires a { AreEdges gates.old a.now }
    requires b { AreEdges gates.old b.now }
    requires room { HasRoom gates.old (10 * length a.now) }
    ensures length { IfOk result (λ r. length r ≡ length a.now) }
    ensures edges { IfOk result (AreEdges gates.new) }
    ensures value { IfOk result (λ r. (values : ℕ → Bool) → Obeys gates.new values → number values r ≡ (number values a.now + 2 ^ length a.now - number values b.now) % 2 ^ length a.now) }
    ensures extends { Extends gates.old gates.new }
    ensures adds { AddsWithin gates.old gates.new (10 * length a.now) }
{
    let difference = subtract_rows(alloc, gates, a, b)?;
    Ok(List::from_vec(difference.row))
}

/// Whether the first row's number is the smaller one, without a sign.
#[tactic(auto, using(crate::proofs::Numbers::kept))]
pub(crate) fn below(
    alloc: Global,
    gates: &mut Gates,
    a: &[Edge],
    b: &[Edge],
) -> Result<Edge, NoMemory>
    requires same { length b.now ≡ length a.now }
    requires a { AreEdges gates.old a.now }
    requires b { AreEdges gates.old b.now }
    requires room { HasRoom gates.old (9 * length a.now) }
    ensures edge { IfOk result (IsEdge gates.new) }
    ensures value { IfOk result (λ e. (values : ℕ → Bool) → Obeys gates.new values → edge_value values e ≡ nat_lt (number values a.now) (number values b.now)) }
    ensures extends { Extends gates.old gates.new }
    ensures adds { AddsWithin gates.old gates.new (9 * length a.now) }
{
    let difference = subtract_rows(alloc, gates, a, b)?;
    Ok(difference.carry.inverted())
}

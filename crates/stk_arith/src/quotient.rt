//! Quotients and remainders of rows.

ghost use Rattle.std.specs.Prelude.{◌≡◌, ◌==◌, ℕ, ◌+◌, ◌*◌, ◌/◌, ◌%◌, ◌^◌, ◌<◌, ◌≤◌, Bool, ◌∷◌, length, IfOk, if◌then◌else◌, nat_lt};
ghost use Rattle.stk_gates.specs.Edges.{edge_value};
ghost use Rattle.stk_gates.specs.Tables.{IsEdge, Obeys, Extends, AddsWithin, HasRoom};
ghost use Rattle.stk_arith.specs.Rows.{bit, number, AreEdges};
ghost use Rattle.stk_arith.specs.Division.{AreTails, IsTaken, IsDivided};

use crate::parts::{filled, mask, select};
use crate::sums::subtract_rows;
use std::alloc::Global;
use stk_base::{List, NoMemory};
use stk_gates::{Edge, Gates};

/// A bit of the quotient, and what is left.
#[derive(Drop)]
struct Step {
    bit: Edge,
    rest: Vec<Edge>,
}

/// The quotient, what is left, and whether the divisor isn't 0.
#[derive(Drop)]
struct Quotient {
    quotient: Vec<Edge>,
    rest: Vec<Edge>,
    some: Edge,
}

/// For each place of a row, and for its end, whether some place from there on is true.
#[tactic(auto, using(crate::proofs::Numbers::kept))]
fn tails(alloc: Global, gates: &mut Gates, row: &[Edge]) -> Result<Vec<Edge>, NoMemory>
    requires row { AreEdges gates.old row.now }
    requires room { HasRoom gates.old (length row.now) }
    ensures length { IfOk result (λ r. length r.items ≡ length row.now + 1) }
    ensures edges { IfOk result (λ r. AreEdges gates.new r.items) }
    ensures value { IfOk result (λ r. (values : ℕ → Bool) → Obeys gates.new values → AreTails values row.now r.items) }
    ensures extends { Extends gates.old gates.new }
    ensures adds { AddsWithin gates.old gates.new (length row.now) }
{
    let w = row.len();
    let mut tails = filled(alloc, Edge::FALSE, w + 1)?;
    for k in 0..w {
        let i = w - 1 - k;
        let edge = gates.or(tails[i + 1], row[i])?;
        tails[i] = edge;
    }
    Ok(tails)
}

/// The row with one more place before it.
fn longer(alloc: Global, next: Edge, rest: &[Edge]) -> Result<Vec<Edge>, NoMemory>
    ensures { IfOk result (λ r. r.items ≡ next ∷ rest.now) }
{
    let mut row = Vec::new(alloc);
    row.push(next)?;
    row.extend_from_slice(rest)?;
    Ok(row)
}

/// Takes a divisor off a row where it isn't larger. Its places above the row are none, or `over` says that some is true.
#[tactic(auto, using(crate::proofs::Numbers::parts_of_rows))]
fn divide_place(
    alloc: Global,
    gates: &mut Gates,
    row: &[Edge],
    low: &[Edge],
    over: Edge,
) -> Result<Step, NoMemory>
    requires same { length low.now ≡ length row.now }
    requires row { AreEdges gates.old row.now }
    requires low { AreEdges gates.old low.now }
    requires over { IsEdge gates.old over }
    requires room { HasRoom gates.old (12 * length row.now + 1) }
    ensures bit_edge { IfOk result (λ r. IsEdge gates.new r.bit) }
    ensures length { IfOk result (λ r. length r.rest.items ≡ length row.now) }
    ensures edges { IfOk result (λ r. AreEdges gates.new r.rest.items) }
    ensures value { IfOk result (λ r. (values : ℕ → Bool) (high : ℕ) → Obeys gates.new values → edge_value values over ≡ nat_lt 0 high → IsTaken (number values row.now) (number values low.now + 2 ^ length row.now * high) (edge_value values r.bit) (number values r.rest.items)) }
    ensures extends { Extends gates.old gates.new }
    ensures adds { AddsWithin gates.old gates.new (12 * length row.now + 1) }
{
    let difference = subtract_rows(alloc, gates, row, low)?;
    let bit = gates.and(difference.carry, over.inverted())?;
    let rest = select(alloc, gates, bit, &difference.row, row)?;
    Ok(Step { bit, rest })
}

/// Long division of two rows, from the highest bit down. After k bits what is left is below 2^k, and has k places.
#[tactic(auto, using(crate::proofs::Numbers::parts_of_rows))]
fn divided(alloc: Global, gates: &mut Gates, a: &[Edge], b: &[Edge]) -> Result<Quotient, NoMemory>
    requires same { length b.now ≡ length a.now }
    requires a { AreEdges gates.old a.now }
    requires b { AreEdges gates.old b.now }
    requires room { HasRoom gates.old (length a.now * (12 * length a.now + 9) + length a.now) }
    ensures length { IfOk result (λ r. length r.quotient.items ≡ length a.now) }
    ensures rest_length { IfOk result (λ r. length r.rest.items ≡ length a.now) }
    ensures edges { IfOk result (λ r. AreEdges gates.new r.quotient.items) }
    ensures rest_edges { IfOk result (λ r. AreEdges gates.new r.rest.items) }
    ensures some_edge { IfOk result (λ r. IsEdge gates.new r.some) }
    ensures value { IfOk result (λ r. (values : ℕ → Bool) → Obeys gates.new values → IsDivided (number values a.now) (number values b.now) (number values r.quotient.items) (number values r.rest.items)) }
    ensures some { IfOk result (λ r. (values : ℕ → Bool) → Obeys gates.new values → edge_value values r.some ≡ nat_lt 0 (number values b.now)) }
    ensures extends { Extends gates.old gates.new }
    ensures adds { AddsWithin gates.old gates.new (length a.now * (12 * length a.now + 9) + length a.now) }
{
    let w = a.len();
    let tails = tails(alloc, gates, b)?;
    let mut quotient = filled(alloc, Edge::FALSE, w)?;
    let mut rest = Vec::new(alloc);
    for k in 0..w {
        let i = w - 1 - k;
        let row = longer(alloc, a[i], &rest)?;
        let (low, _) = b.split_at(k + 1);
        let step = divide_place(alloc, gates, &row, low, tails[k + 1])?;
        quotient[i] = step.bit;
        rest = step.rest;
    }
    Ok(Quotient {
        quotient,
        rest,
        some: tails[0],
    })
}

/// The quotient of two rows without a sign, and 0 where the second is 0.
#[tactic(auto, using(crate::proofs::Numbers::parts_of_rows))]
pub fn divide(
    alloc: Global,
    gates: &mut Gates,
    a: &[Edge],
    b: &[Edge],
) -> Result<List<Edge>, NoMemory>
    requires same { length b.now ≡ length a.now }
    requires a { AreEdges gates.old a.now }
    requires b { AreEdges gates.old b.now }
    requires room { HasRoom gates.old (14 * length a.now * length a.now + 20 * length a.now) }
    ensures length { IfOk result (λ r. length r ≡ length a.now) }
    ensures edges { IfOk result (AreEdges gates.new) }
    ensures value { IfOk result (λ r. (values : ℕ → Bool) → Obeys gates.new values → number values r ≡ (if number values b.now == 0 then 0 else number values a.now / number values b.now)) }
    ensures extends { Extends gates.old gates.new }
    ensures adds { AddsWithin gates.old gates.new (14 * length a.now * length a.now + 20 * length a.now) }
{
    let divided = divided(alloc, gates, a, b)?;
    let row = mask(alloc, gates, divided.some, &divided.quotient)?;
    Ok(List::from_vec(row))
}

/// The remainder of two rows without a sign, and the first row's number where the second is 0.
#[tactic(auto, using(crate::proofs::Numbers::parts_of_rows))]
pub fn remainder(
    alloc: Global,
    gates: &mut Gates,
    a: &[Edge],
    b: &[Edge],
) -> Result<List<Edge>, NoMemory>
    requires same { length b.now ≡ length a.now }
    requires a { AreEdges gates.old a.now }
    requires b { AreEdges gates.old b.now }
    requires room { HasRoom gates.old (14 * length a.now * length a.now + 20 * length a.now) }
    ensures length { IfOk result (λ r. length r ≡ length a.now) }
    ensures edges { IfOk result (AreEdges gates.new) }
    ensures value { IfOk result (λ r. (values : ℕ → Bool) → Obeys gates.new values → number values r ≡ (if number values b.now == 0 then number values a.now else number values a.now % number values b.now)) }
    ensures extends { Extends gates.old gates.new }
    ensures adds { AddsWithin gates.old gates.new (14 * length a.now * length a.now + 20 * length a.now) }
{
    let divided = divided(alloc, gates, a, b)?;
    Ok(List::from_vec(divided.rest))
}

//! The parts of a term in a row, each behind its arguments.
ghost use Rattle.std.specs.Prelude.{◌≡◌, ℕ, ◌+◌, ◌<◌, ◌||◌, length, get_or, reverse, IfOk, OnOk};
ghost use Rattle.std.specs.BTreeSet.{contains};
ghost use Rattle.std.specs.Ordering.{nat_cmp};
ghost use Rattle.stk_terms.specs.Orders.{IsOrder, HasPlace, AreParts, Rises, is_among};

use crate::{TermId, Terms};
use std::alloc::Global;
use std::collections::BTreeSet;
use stk_base::NoMemory;

// Puts the places of arguments beside others.
fn put_args(places: &mut BTreeSet<usize>, args: &[TermId]) -> Result<(), NoMemory>
    ensures { OnOk result ((j : ℕ) → contains nat_cmp places.new j ≡ (is_among args.now j || contains nat_cmp places.old j)) }
{
    for arg in args {
        places.insert(arg.0)?;
    }
    Ok(())
}

// The places of a term's parts, the greatest first. The greatest place that waits is taken, and those of its arguments,
// all of them lower, wait.
fn parts_down(alloc: Global, terms: &Terms, id: TermId) -> Result<Vec<usize>, NoMemory>
    requires { id.0 < length terms.now.terms }
    ensures { IfOk result (λ r. AreParts terms.now id.0 (reverse r.items)) }
{
    // For the prover: the terms keep their facts.
    let _count = terms.count();
    let mut waiting = BTreeSet::new(alloc);
    waiting.insert(id.0)?;
    let mut places = Vec::new(alloc);
    for _turn in 0..id.0 + 1 {
        let Some(place) = waiting.pop_last() else {
            return Ok(places);
        };
        places.push(place)?;
        put_args(&mut waiting, terms.args(TermId(place)))?;
    }
    Ok(places)
}

/// The places of a term's parts, its own among them, in ascending order, so that each is behind those of its
/// arguments. It goes over the parts alone.
pub(crate) fn order_of(alloc: Global, terms: &Terms, id: TermId) -> Result<Vec<usize>, NoMemory>
    requires { id.0 < length terms.now.terms }
    ensures order { IfOk result (λ r. IsOrder terms.now (id.0 + 1) r.items) }
    ensures has { IfOk result (λ r. HasPlace r.items id.0) }
    ensures parts { IfOk result (λ r. AreParts terms.now id.0 r.items) }
{
    // For the prover: the terms keep their facts.
    let _count = terms.count();
    let mut places = parts_down(alloc, terms, id)?;
    places.reverse();
    Ok(places)
}

/// Where a place stands in ascending places that have it.
pub fn index_in(order: &[usize], place: usize) -> usize
    requires rise { Rises order.now }
    requires has { HasPlace order.now place }
    ensures within { result < length order.now }
    ensures is { get_or order.now result 0 ≡ place }
{
    match order.binary_search(&place) {
        Ok(index) => index,
        Err(index) => index,
    }
}

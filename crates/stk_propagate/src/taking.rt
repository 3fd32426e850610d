// Trails over the clauses of a store, and one clause more.
ghost use Rattle.std.specs.Prelude.{◌≡◌, ◌+◌, ◌^◌, ◌<◌, ℕ, [], None, length, take, slice_index_or, IfOk, OnOk, OnErr};
ghost use Rattle.std.specs.List.{All};
ghost use Rattle.stk_clauses.specs.Literals.{AreBelow};
ghost use Rattle.stk_propagate.specs.Fitting.{Fits, IsWatched, IsAlive, IsTimely};
ghost use Rattle.stk_propagate.specs.Linked.{trailed, IsLinked};

use crate::choosing::first_two;
use crate::inner::Inner;
use crate::starts::Starts;
use crate::{Assignment, WatchLists};
use std::alloc::Global;
use stk_base::NoMemory;
use stk_clauses::{Lit, Store};

/// The literals that each clause of a store watches first: its first two, if it has two.
fn first_watches(alloc: Global, store: &Store) -> Result<Vec<Option<(Lit, Lit)>>, NoMemory>
    ensures counted { IfOk result (λ w. length w.items ≡ length store.now) }
    ensures watched { IfOk result (λ w. (id : ℕ) → id < length store.now → IsWatched (slice_index_or store.now id []) (slice_index_or w.items id None)) }
{
    let mut watches = Vec::with_capacity(alloc, store.count() as usize)?;
    for id in 0..store.count() {
        watches.push(first_two(store.clause(id)))?;
    }
    Ok(watches)
}

impl Inner {
    /// Takes the next clause of the store in.
    pub(crate) fn take_in(&mut self, id: u32, store: &Store) -> Result<(), NoMemory>
        requires exists { id < length store.now }
        requires linked { IsLinked self.old }
        requires fits { Fits (trailed self.old) (take id store.now) }
        requires below { AreBelow self.old.assigned.vars (slice_index_or store.now id []) }
        requires alive { IsAlive self.old.assigned.literals (slice_index_or store.now id []) }
        requires timely { IsTimely self.old.assigned (slice_index_or store.now id []) }
        ensures linked { IsLinked self.new }
        ensures fits { OnOk result (Fits (trailed self.new) (take (id + 1) store.now)) }
        ensures kept { OnErr result (trailed self.new ≡ trailed self.old) }
        ensures assigned { self.new.assigned ≡ self.old.assigned }
    {
        // For the prover: the store keeps its facts.
        let _ = store.count();
        let watch = first_two(store.clause(id));
        self.starts.add()?;
        self.watches.reserve(1)?;
        self.chains.grow()?;
        if let Err(_) = self.watches.push(watch) {
            unreachable!();
        }
        Ok(())
    }

    /// No true literals, over the clauses of a store.
    pub(crate) fn reserve(alloc: Global, vars: u32, store: &Store) -> Result<Inner, NoMemory>
        requires { All (AreBelow vars) store.now }
        ensures linked { IfOk result IsLinked }
        ensures fits { IfOk result (λ f. Fits (trailed f) store.now) }
        ensures blank { IfOk result (λ f. f.assigned ≡ record { vars = vars; literals = []; reasons = [] }) }
    {
        let count = store.count() as usize;
        let assigned = Assignment::reserve(alloc, vars)?;
        let chains = WatchLists::with_numbers(alloc, vars as usize * 2 + 1, 2 * count)?;
        let watches = first_watches(alloc, store)?;
        let starts = Starts::reserve(alloc, count)?;
        Ok(Inner {
            assigned,
            chains,
            watches,
            starts,
            head: 0,
            looked: 0,
        })
    }
}

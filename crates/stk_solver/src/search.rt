// The state of a search, and its beginning.
ghost use Rattle.std.specs.Prelude.{◌≡◌, ◌+◌, ◌-◌, ◌^◌, ◌<◌, ◌≤◌, [], length, slice_index_or, IfOk, MatchOption};
ghost use Rattle.std.specs.List.{All};
ghost use Rattle.stk_clauses.specs.Literals.{AreBelow};
ghost use Rattle.stk_clauses.specs.Propagation.{AllFalse, AreQuiet};
ghost use Rattle.stk_solver.specs.Searching.{IsSearch};

use crate::analysis::Analysis;
use crate::decision_order::Order;
use crate::restarts::Restarts;
use std::alloc::Global;
use stk_base::{List, NoMemory};
use stk_clauses::{Cnf, Store};
use stk_propagate::Trail;

/// A search: the given clauses and the learnt ones, the trail over them, the places of the assumed literals, the hints
/// of each learnt clause, what learns them, what is tried next, and when to begin anew.
#[derive(Drop)]
pub(crate) struct Search {
    pub(crate) vars: u32,
    pub(crate) store: Store,
    pub(crate) trail: Trail,
    pub(crate) levels: Vec<u32>,
    pub(crate) log: Vec<List<u32>>,
    pub(crate) analysis: Analysis,
    pub(crate) order: Order,
    pub(crate) restarts: Restarts,
}

impl Search {
    /// A search that hasn't learnt anything.
    pub(crate) fn start(alloc: Global, cnf: &Cnf) -> Result<Search, NoMemory>
        requires small { cnf.now.vars < 2 ^ 31 }
        requires few { length cnf.now.store < 2 ^ 31 - 1 }
        requires within { All (AreBelow cnf.now.vars) cnf.now.store }
        ensures search { IfOk result (λ s. IsSearch s cnf.now.store) }
        ensures vars { IfOk result (λ s. s.vars ≡ cnf.now.vars) }
        ensures none { IfOk result (λ s. length s.log.items ≡ 0) }
    {
        let store = cnf.store.copied(alloc)?;
        let trail = Trail::reserve(alloc, cnf.vars, &store)?;
        let analysis = Analysis::reserve(alloc, cnf.vars)?;
        let order = Order::reserve(alloc, cnf.vars)?;
        Ok(Search {
            vars: cnf.vars,
            store,
            trail,
            levels: Vec::new(alloc),
            log: Vec::new(alloc),
            analysis,
            order,
            restarts: Restarts::new(),
        })
    }

    /// Propagates: answers a clause with only false literals, or `None` when every clause is quiet.
    /// The contract alone reads `_given`.
    pub(crate) fn propagate(&mut self, _given: &Store) -> Option<u32>
        requires { IsSearch self.old _given.now }
        ensures search { IsSearch self.new _given.now }
        ensures vars { self.new.vars ≡ self.old.vars }
        ensures levels { self.new.levels ≡ self.old.levels }
        ensures log { self.new.log ≡ self.old.log }
        ensures more { length self.old.trail.assigned.literals ≤ length self.new.trail.assigned.literals }
        ensures found { MatchOption result (AreQuiet self.new.trail.assigned.literals self.new.store) (λ id. (id < length self.new.store) × AllFalse self.new.trail.assigned.literals (slice_index_or self.new.store id [])) }
    {
        // For the prover: the trail keeps its facts.
        let _ = self.trail.assigned();
        let found = self.trail.propagate(&self.store);
        // For the prover: the trail keeps its facts.
        let _ = self.trail.assigned();
        found
    }
}

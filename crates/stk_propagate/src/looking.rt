// The clauses that were taken in since propagation last ended.
ghost use Rattle.std.specs.Prelude.{◌≡◌, ◌≢◌, ◌+◌, ◌*◌, ◌<◌, ◌≤◌, ℕ, [], length, take, slice_index_or, IsTrue, MatchBool, Some};
ghost use Rattle.std.specs.List.{Contains};
ghost use Rattle.stk_clauses.specs.Literals.{negated};
ghost use Rattle.stk_clauses.specs.Propagation.{AllFalse};
ghost use Rattle.stk_propagate.specs.Trailed.{IsAssumed, IsGrown};
ghost use Rattle.stk_propagate.specs.Fitting.{IsReason, Fits, IsWatched, IsCalm};
ghost use Rattle.stk_propagate.specs.Linked.{trailed, IsLinked};

use crate::choosing::latest;
use crate::inner::Inner;
use stk_clauses::{Lit, Store};

impl Inner {
    /// Looks at a clause of fewer than two literals, the next one that wasn't looked at. Says whether all its literals
    /// are false.
    fn look_short(&mut self, store: &Store) -> bool
        requires linked { IsLinked self.old }
        requires fits { Fits (trailed self.old) store.now }
        requires more { self.old.looked < length store.now }
        requires short { length (slice_index_or store.now self.old.looked []) < 2 }
        ensures linked { IsLinked self.new }
        ensures fits { Fits (trailed self.new) store.now }
        ensures grown { IsGrown self.old.assigned self.new.assigned }
        ensures found { MatchBool result (AllFalse self.new.assigned.literals (slice_index_or store.now self.old.looked [])) (self.new.looked ≡ self.old.looked + 1) }
    {
        let id = self.looked;
        let clause = store.clause(id);
        if clause.len() == 0 {
            return true;
        }
        if self.force(store, clause[0], id) {
            return true;
        }
        self.looked += 1;
        false
    }

    /// Has the next clause that wasn't looked at watch two of its literals.
    /// The contract alone reads `_store`.
    fn watch(&mut self, _store: &Store, first: Lit, second: Lit)
        requires linked { IsLinked self.old }
        requires fits { Fits (trailed self.old) _store.now }
        requires more { self.old.looked < length _store.now }
        requires watched { IsWatched (slice_index_or _store.now self.old.looked []) (Some (first, second)) }
        requires covered { IsCalm (take self.old.head self.old.assigned.literals) self.old.assigned.literals (slice_index_or _store.now self.old.looked []) (Some (first, second)) }
        requires calm { (k : ℕ) → IsAssumed self.old.assigned k → IsCalm (take k self.old.assigned.literals) (take k self.old.assigned.literals) (slice_index_or _store.now self.old.looked []) (Some (first, second)) }
        ensures linked { IsLinked self.new }
        ensures fits { Fits (trailed self.new) _store.now }
        ensures assigned { self.new.assigned ≡ self.old.assigned }
        ensures looked { self.new.looked ≡ self.old.looked + 1 }
    {
        let id = self.looked;
        self.watches[id as usize] = Some((first, second));
        self.chains.link(2 * id, first.0 as usize);
        self.chains.link(2 * id + 1, second.0 as usize);
        self.looked += 1;
    }

    /// Makes the first of two literals true, if the second is false, for the next clause that wasn't looked at.
    fn settle(&mut self, store: &Store, first: Lit, second: Lit)
        requires linked { IsLinked self.old }
        requires fits { Fits (trailed self.old) store.now }
        requires more { self.old.looked < length store.now }
        requires first { first.0 < 2 * self.old.assigned.vars }
        requires second { second.0 < 2 * self.old.assigned.vars }
        requires live { Contains self.old.assigned.literals (negated first) → ⊥ }
        requires reason { Contains self.old.assigned.literals (negated second) → IsReason self.old.assigned.literals (slice_index_or store.now self.old.looked []) first }
        ensures linked { IsLinked self.new }
        ensures fits { Fits (trailed self.new) store.now }
        ensures grown { IsGrown self.old.assigned self.new.assigned }
        ensures live { Contains self.new.assigned.literals (negated first) → ⊥ }
        ensures settled { Contains self.new.assigned.literals (negated second) → Contains self.new.assigned.literals first }
        ensures rest { self.new ≡ record self.old { assigned = self.new.assigned } }
    {
        if self.assigned.is_true(second.negated()) {
            let id = self.looked;
            self.put(store, first, id);
        }
    }

    /// Looks at a clause of two literals or more, the next one that wasn't looked at: has it watch the two that became
    /// false last or aren't false. Says whether all its literals are false.
    fn look_long(&mut self, store: &Store) -> bool
        requires linked { IsLinked self.old }
        requires fits { Fits (trailed self.old) store.now }
        requires more { self.old.looked < length store.now }
        requires long { 2 ≤ length (slice_index_or store.now self.old.looked []) }
        ensures linked { IsLinked self.new }
        ensures fits { Fits (trailed self.new) store.now }
        ensures grown { IsGrown self.old.assigned self.new.assigned }
        ensures found { MatchBool result (AllFalse self.new.assigned.literals (slice_index_or store.now self.old.looked [])) (self.new.looked ≡ self.old.looked + 1) }
    {
        // For the prover: the trail keeps its facts.
        let _ = self.assigned.vars();
        let id = self.looked;
        let clause = store.clause(id);
        let first = latest(&self.assigned, clause, clause[0], None);
        let start = if clause[0].0 == first.0 {
            clause[1]
        } else {
            clause[0]
        };
        let second = latest(&self.assigned, clause, start, Some(first));
        if self.assigned.is_true(first.negated()) {
            return true;
        }
        self.settle(store, first, second);
        // For the prover: the trail keeps its facts.
        let _ = self.assigned.vars();
        self.watch(store, first, second);
        false
    }

    /// Whether neither of two literals is false.
    fn are_live(&self, first: Lit, second: Lit) -> bool
        requires first { first.0 < 2 * self.now.assigned.vars }
        requires second { second.0 < 2 * self.now.assigned.vars }
        ensures first { IsTrue result → Contains self.now.assigned.literals (negated first) → ⊥ }
        ensures second { IsTrue result → Contains self.now.assigned.literals (negated second) → ⊥ }
    {
        !self.assigned.is_true(first.negated()) && !self.assigned.is_true(second.negated())
    }

    /// Looks at the next clause that wasn't looked at: has it watch its first two literals, if neither is false. Says
    /// whether all its literals are false.
    pub(crate) fn look(&mut self, store: &Store) -> bool
        requires linked { IsLinked self.old }
        requires fits { Fits (trailed self.old) store.now }
        requires more { self.old.looked < length store.now }
        ensures linked { IsLinked self.new }
        ensures fits { Fits (trailed self.new) store.now }
        ensures grown { IsGrown self.old.assigned self.new.assigned }
        ensures found { MatchBool result (AllFalse self.new.assigned.literals (slice_index_or store.now self.old.looked [])) (self.new.looked ≡ self.old.looked + 1) }
    {
        // For the prover: the trail keeps its facts.
        let _ = self.assigned.vars();
        let clause = store.clause(self.looked);
        if clause.len() < 2 {
            return self.look_short(store);
        }
        if self.are_live(clause[0], clause[1]) {
            self.watch(store, clause[0], clause[1]);
            return false;
        }
        self.look_long(store)
    }
}

// Propagation, assumptions, and the way back.
ghost use Rattle.std.specs.Prelude.{◌≡◌, ◌+◌, ◌*◌, ◌<◌, ◌++◌, ◌∷◌, ℕ, List, [], length, take, slice_index_or, MatchOption, None};
ghost use Rattle.std.specs.List.{Contains, All};
ghost use Rattle.stk_clauses.specs.declared.literal.Lit.{Lit};
ghost use Rattle.stk_clauses.specs.Literals.{negated};
ghost use Rattle.stk_clauses.specs.Propagation.{IsOpen, AllFalse, AreQuiet};
ghost use Rattle.stk_propagate.specs.Assigned.{IsAssigned};
ghost use Rattle.stk_propagate.specs.Trailed.{IsAssumed, IsGrown};
ghost use Rattle.stk_propagate.specs.Fitting.{Fits};
ghost use Rattle.stk_propagate.specs.Linked.{trailed, IsLinked};

use crate::inner::Inner;
use stk_clauses::{Lit, Store};

impl Inner {
    /// Looks at the clauses that weren't looked at.
    fn look_all(&mut self, store: &Store) -> Option<u32>
        requires linked { IsLinked self.old }
        requires fits { Fits (trailed self.old) store.now }
        ensures linked { IsLinked self.new }
        ensures fits { Fits (trailed self.new) store.now }
        ensures grown { IsGrown self.old.assigned self.new.assigned }
        ensures found { MatchOption result (self.new.looked ≡ length store.now) (λ id. (id < length store.now) × AllFalse self.new.assigned.literals (slice_index_or store.now id [])) }
    {
        let count = store.count();
        while self.looked < count {
            let id = self.looked;
            if self.look(store) {
                return Some(id);
            }
        }
        None
    }

    /// Goes through the true literals that propagation hasn't gone through.
    fn walk_all(&mut self, store: &Store) -> Option<u32>
        requires linked { IsLinked self.old }
        requires fits { Fits (trailed self.old) store.now }
        ensures linked { IsLinked self.new }
        ensures fits { Fits (trailed self.new) store.now }
        ensures grown { IsGrown self.old.assigned self.new.assigned }
        ensures looked { self.new.looked ≡ self.old.looked }
        ensures found { MatchOption result (self.new.head ≡ length self.new.assigned.literals) (λ id. (id < length store.now) × AllFalse self.new.assigned.literals (slice_index_or store.now id [])) }
    {
        while self.head < self.assigned.literals().len() {
            if let Some(id) = self.walk(store) {
                return Some(id);
            }
        }
        None
    }

    /// Looks at the clauses that weren't looked at, and then goes through the true literals.
    fn look_and_walk(&mut self, store: &Store) -> Option<u32>
        requires linked { IsLinked self.old }
        requires fits { Fits (trailed self.old) store.now }
        ensures linked { IsLinked self.new }
        ensures fits { Fits (trailed self.new) store.now }
        ensures grown { IsGrown self.old.assigned self.new.assigned }
        ensures found { MatchOption result ((self.new.looked ≡ length store.now) × (self.new.head ≡ length self.new.assigned.literals)) (λ id. (id < length store.now) × AllFalse self.new.assigned.literals (slice_index_or store.now id [])) }
    {
        if let Some(id) = self.look_all(store) {
            return Some(id);
        }
        self.walk_all(store)
    }

    /// Propagates as far as a clause with only false literals, or until every clause is quiet.
    pub(crate) fn propagate(&mut self, store: &Store) -> Option<u32>
        requires linked { IsLinked self.old }
        requires fits { Fits (trailed self.old) store.now }
        ensures linked { IsLinked self.new }
        ensures fits { Fits (trailed self.new) store.now }
        ensures before { IsAssigned self.old.assigned }
        ensures facts { IsAssigned self.new.assigned }
        ensures grown { IsGrown self.old.assigned self.new.assigned }
        ensures found { MatchOption result ((self.new.looked ≡ length store.now) × (self.new.head ≡ length self.new.assigned.literals)) (λ id. (id < length store.now) × AllFalse self.new.assigned.literals (slice_index_or store.now id [])) }
    {
        // For the prover: the trail keeps its facts.
        let _ = self.assigned.vars();
        let found = self.look_and_walk(store);
        // For the prover: the trail keeps its facts.
        let _ = self.assigned.vars();
        found
    }

    /// Makes an unassigned literal true without a reason, where every clause is quiet.
    pub(crate) fn assume(&mut self, lit: Lit, store: &Store)
        requires linked { IsLinked self.old }
        requires fits { Fits (trailed self.old) store.now }
        requires below { lit.0 < 2 * self.old.assigned.vars }
        requires unassigned { IsOpen self.old.assigned.literals lit }
        requires quiet { AreQuiet self.old.assigned.literals store.now }
        ensures linked { IsLinked self.new }
        ensures fits { Fits (trailed self.new) store.now }
        ensures literals { self.new.assigned.literals ≡ self.old.assigned.literals ++ lit ∷ [] }
        ensures reasons { self.new.assigned.reasons ≡ self.old.assigned.reasons ++ None ∷ [] }
        ensures vars { self.new.assigned.vars ≡ self.old.assigned.vars }
    {
        self.propagate(store);
        self.assigned.push(lit, None);
    }

    /// Keeps the first `count` true literals.
    pub(crate) fn back_to(&mut self, count: u32)
        requires linked { IsLinked self.old }
        requires assumed { IsAssumed self.old.assigned count }
        ensures linked { IsLinked self.new }
        ensures fits { (cs : List (List Lit)) → Fits (trailed self.old) cs → Fits (trailed self.new) cs }
        ensures literals { self.new.assigned.literals ≡ take count self.old.assigned.literals }
        ensures reasons { self.new.assigned.reasons ≡ take count self.old.assigned.reasons }
        ensures vars { self.new.assigned.vars ≡ self.old.assigned.vars }
        ensures watches { self.new.watches.items ≡ self.old.watches.items }
    {
        self.assigned.cut_to(count as usize);
        self.head = self.head.min(count as usize);
    }
}

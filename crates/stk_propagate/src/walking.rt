// The clauses that are watched by a literal that became false.
ghost use Rattle.std.specs.Prelude.{◌≡◌, ◌≢◌, ◌+◌, ◌*◌, ◌/◌, ◌<◌, ℕ, [], length, slice_index_or, MatchBool, MatchOption, Some};
ghost use Rattle.std.specs.List.{Contains};
ghost use Rattle.stk_clauses.specs.declared.literal.Lit.{Lit};
ghost use Rattle.stk_clauses.specs.Literals.{negated};
ghost use Rattle.stk_clauses.specs.Propagation.{AllFalse};
ghost use Rattle.stk_propagate.specs.Trailed.{IsGrown};
ghost use Rattle.stk_propagate.specs.Fitting.{IsWatched, Fits};
ghost use Rattle.stk_propagate.specs.Linked.{trailed, chain_of, InSpare, InSpareOr, IsFree, IsSized, AreLinked, IsLinked, AreCalmed};

use crate::choosing::replacement;
use crate::inner::Inner;
use stk_clauses::{Lit, Store};

impl Inner {
    /// A literal of a clause, other than the two that it watches, that isn't false, and how many stand before it. A
    /// clause of two literals has no others: none is looked for.
    fn next_watch(&self, store: &Store, id: u32, lit: Lit, other: Lit) -> Option<(Lit, usize)>
        requires fits { Fits (trailed self.now) store.now }
        requires exists { id < length store.now }
        requires watched { IsWatched (slice_index_or store.now id []) (Some (lit, other)) }
        ensures { MatchOption result ((m : Lit) → Contains (slice_index_or store.now id []) m → m ≢ lit → m ≢ other → Contains self.now.assigned.literals (negated m)) (λ p. Contains (slice_index_or store.now id []) p.0 × (p.0 ≢ lit) × (p.0 ≢ other) × (Contains self.now.assigned.literals (negated p.0) → ⊥)) }
    {
        let clause = store.clause(id);
        if clause.len() == 2 {
            return None;
        }
        replacement(&self.assigned, clause, self.starts.place(id), lit, other)
    }

    /// Visits the clause of a place that watches a false literal: moves the watch, or makes the last literal true that
    /// may be. Says whether all are false.
    fn visit(&mut self, store: &Store, place: u32, lit: Lit) -> bool
        requires sized { IsSized self.old }
        requires fits { Fits (trailed self.old) store.now }
        requires below { lit.0 < 2 * self.old.assigned.vars }
        requires falsified { Contains self.old.assigned.literals (negated lit) }
        requires linked { AreLinked self.old lit (InSpareOr self.old place) }
        requires calmed { AreCalmed self.old }
        requires exists { place < self.old.chains.numbers }
        requires free { IsFree self.old.chains place }
        ensures sized { IsSized self.new }
        ensures fits { Fits (trailed self.new) store.now }
        ensures linked { AreLinked self.new lit (InSpare self.new) }
        ensures grown { IsGrown self.old.assigned self.new.assigned }
        ensures found { MatchBool result (AllFalse self.new.assigned.literals (slice_index_or store.now (place / 2) [])) (AreCalmed self.new) }
        ensures chain { chain_of self.new lit ≡ chain_of self.old lit }
        ensures head { self.new.head ≡ self.old.head }
        ensures looked { self.new.looked ≡ self.old.looked }
    {
        // For the prover: the trail keeps its facts.
        let _ = self.assigned.vars();
        let id = place / 2;
        let other = self.other_watch(place, lit);
        if self.assigned.is_true(other) {
            self.keep(place, lit);
            return false;
        }
        match self.next_watch(store, id, lit, other) {
            Some((to, at)) => {
                self.starts.put(id, at);
                self.move_to(place, lit, to, other);
                false
            }
            None => {
                self.keep(place, lit);
                self.force(store, other, id)
            }
        }
    }

    /// Visits the clauses that are watched by a false literal, as far as one with only false literals.
    fn visit_chain(&mut self, store: &Store, lit: Lit) -> Option<u32>
        requires linked { IsLinked self.old }
        requires fits { Fits (trailed self.old) store.now }
        requires below { lit.0 < 2 * self.old.assigned.vars }
        requires falsified { Contains self.old.assigned.literals (negated lit) }
        ensures sized { IsSized self.new }
        ensures fits { Fits (trailed self.new) store.now }
        ensures linked { AreLinked self.new lit (InSpare self.new) }
        ensures grown { IsGrown self.old.assigned self.new.assigned }
        ensures found { MatchOption result (AreCalmed self.new × (chain_of self.new lit ≡ [])) (λ id. (id < length store.now) × AllFalse self.new.assigned.literals (slice_index_or store.now id [])) }
        ensures head { self.new.head ≡ self.old.head }
        ensures looked { self.new.looked ≡ self.old.looked }
    {
        while let Some(place) = self.chains.take_first(lit.0 as usize) {
            if self.visit(store, place, lit) {
                return Some(place / 2);
            }
        }
        None
    }

    /// Puts the places of the spare chain and those that weren't visited into the literal's chain.
    fn restore(&mut self, lit: Lit)
        requires sized { IsSized self.old }
        requires below { lit.0 < 2 * self.old.assigned.vars }
        requires linked { AreLinked self.old lit (InSpare self.old) }
        ensures linked { IsLinked self.new }
        ensures rest { self.new ≡ record self.old { chains = self.new.chains } }
    {
        while let Some(place) = self.chains.take_first(lit.0 as usize) {
            self.keep(place, lit);
        }
        let spare = self.assigned.vars() as usize * 2;
        self.chains.exchange(lit.0 as usize, spare);
    }

    /// Goes through the next true literal: visits the clauses that are watched by its negation.
    pub(crate) fn walk(&mut self, store: &Store) -> Option<u32>
        requires linked { IsLinked self.old }
        requires fits { Fits (trailed self.old) store.now }
        requires some { self.old.head < length self.old.assigned.literals }
        ensures linked { IsLinked self.new }
        ensures fits { Fits (trailed self.new) store.now }
        ensures grown { IsGrown self.old.assigned self.new.assigned }
        ensures found { MatchOption result (self.new.head ≡ self.old.head + 1) (λ id. (id < length store.now) × AllFalse self.new.assigned.literals (slice_index_or store.now id [])) }
        ensures looked { self.new.looked ≡ self.old.looked }
    {
        let lit = self.assigned.literals()[self.head].negated();
        let found = self.visit_chain(store, lit);
        self.restore(lit);
        if let None = found {
            self.head += 1;
        }
        found
    }
}

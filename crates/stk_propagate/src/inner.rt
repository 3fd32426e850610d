// The fields of a trail, and its smallest steps.
ghost use Rattle.std.specs.Prelude.{◌≡◌, ◌≢◌, ◌⊎◌, ◌+◌, ◌*◌, ◌/◌, ◌<◌, ℕ, [], length, slice_set, slice_index_or, MatchBool, Some, None};
ghost use Rattle.std.specs.List.{Contains};
ghost use Rattle.stk_clauses.specs.Literals.{negated};
ghost use Rattle.stk_clauses.specs.Propagation.{AllFalse};
ghost use Rattle.stk_propagate.specs.Trailed.{IsGrown};
ghost use Rattle.stk_propagate.specs.Fitting.{Fits, IsReason};
ghost use Rattle.stk_propagate.specs.Linked.{trailed, watch_at, twin, pair_of, chain_of, InSpare, InSpareOr, IsFree, IsSized, AreLinked};

use crate::starts::Starts;
use crate::{Assignment, WatchLists};
use stk_clauses::{Lit, Store};

/// The true literals; of each clause that was taken in its watched literals; a chain for each literal of the places
/// that watch it, and a spare chain; where to begin the search for a new watch of each clause; how many of the true
/// literals propagation has gone through; and how many clauses it has looked at.
///
/// The clause `id` has the places 2 `id`, for its first watched literal, and 2 `id` + 1, for its second.
#[derive(Drop)]
pub(crate) struct Inner {
    pub(crate) assigned: Assignment,
    pub(crate) chains: WatchLists,
    pub(crate) watches: Vec<Option<(Lit, Lit)>>,
    pub(crate) starts: Starts,
    pub(crate) head: usize,
    pub(crate) looked: u32,
}

/// Two watched literals, the first one watched by the place.
fn pair(place: u32, lit: Lit, other: Lit) -> (Lit, Lit)
    ensures { result ≡ pair_of place lit other }
{
    if place % 2 == 0 {
        (lit, other)
    } else {
        (other, lit)
    }
}

impl Inner {
    /// The literal beside the one that the place watches.
    /// The contract alone reads `_lit`.
    pub(crate) fn other_watch(&self, place: u32, _lit: Lit) -> Lit
        requires exists { place / 2 < length self.now.watches.items }
        requires watches { watch_at self.now.watches.items place ≡ Some _lit }
        ensures { slice_index_or self.now.watches.items (place / 2) None ≡ Some (pair_of place _lit result) }
    {
        match self.watches[(place / 2) as usize] {
            None => unreachable!(),
            Some((first, second)) => { if place % 2 == 0 { second } else { first } }
        }
    }

    /// Puts a place that watches the literal into the spare chain.
    /// The contract alone reads `_lit`.
    pub(crate) fn keep(&mut self, place: u32, _lit: Lit)
        requires sized { IsSized self.old }
        requires below { _lit.0 < 2 * self.old.assigned.vars }
        requires linked { AreLinked self.old _lit (InSpareOr self.old place) }
        requires exists { place < self.old.chains.numbers }
        requires free { IsFree self.old.chains place }
        ensures sized { IsSized self.new }
        ensures linked { AreLinked self.new _lit (InSpare self.new) }
        ensures spare { (x : ℕ) → InSpare self.new x → (x ≡ place) ⊎ InSpare self.old x }
        ensures chain { chain_of self.new _lit ≡ chain_of self.old _lit }
        ensures rest { self.new ≡ record self.old { chains = self.new.chains } }
    {
        let spare = self.assigned.vars() as usize * 2;
        self.chains.link(place, spare);
    }

    /// Has a place that watches the literal watch another one, `to`. The one beside it is `other`.
    /// The contract alone reads `_lit`.
    pub(crate) fn move_to(&mut self, place: u32, _lit: Lit, to: Lit, other: Lit)
        requires sized { IsSized self.old }
        requires linked { AreLinked self.old _lit (InSpareOr self.old place) }
        requires exists { place < self.old.chains.numbers }
        requires free { IsFree self.old.chains place }
        requires below { to.0 < 2 * self.old.assigned.vars }
        requires different { to ≢ _lit }
        requires looked { place / 2 < self.old.looked }
        requires watches { slice_index_or self.old.watches.items (place / 2) None ≡ Some (pair_of place _lit other) }
        ensures sized { IsSized self.new }
        ensures linked { AreLinked self.new _lit (InSpare self.new) }
        ensures spare { (x : ℕ) → InSpare self.new x → InSpare self.old x }
        ensures watches { self.new.watches.items ≡ slice_set self.old.watches.items (place / 2) (Some (pair_of place to other)) }
        ensures chain { chain_of self.new _lit ≡ chain_of self.old _lit }
        ensures rest { self.new ≡ record self.old { chains = self.new.chains; watches = self.new.watches } }
    {
        self.watches[(place / 2) as usize] = Some(pair(place, to, other));
        self.chains.link(place, to.0 as usize);
    }

    /// Makes a literal true that isn't false and is the clause's last one which may be, unless it is true.
    /// The contract alone reads `_store`.
    pub(crate) fn put(&mut self, _store: &Store, lit: Lit, id: u32)
        requires fits { Fits (trailed self.old) _store.now }
        requires exists { id < length _store.now }
        requires below { lit.0 < 2 * self.old.assigned.vars }
        requires live { Contains self.old.assigned.literals (negated lit) → ⊥ }
        requires reason { IsReason self.old.assigned.literals (slice_index_or _store.now id []) lit }
        ensures fits { Fits (trailed self.new) _store.now }
        ensures grown { IsGrown self.old.assigned self.new.assigned }
        ensures now_true { Contains self.new.assigned.literals lit }
        ensures live { Contains self.new.assigned.literals (negated lit) → ⊥ }
        ensures rest { self.new ≡ record self.old { assigned = self.new.assigned } }
    {
        // For the prover: the trail keeps its facts.
        let _ = self.assigned.vars();
        if !self.assigned.is_true(lit) {
            self.assigned.push(lit, Some(id));
        }
    }

    /// Makes a literal true that is the clause's last one which may be, unless it is false. Says whether it is.
    pub(crate) fn force(&mut self, store: &Store, lit: Lit, id: u32) -> bool
        requires fits { Fits (trailed self.old) store.now }
        requires exists { id < length store.now }
        requires below { lit.0 < 2 * self.old.assigned.vars }
        requires reason { IsReason self.old.assigned.literals (slice_index_or store.now id []) lit }
        ensures fits { Fits (trailed self.new) store.now }
        ensures grown { IsGrown self.old.assigned self.new.assigned }
        ensures found { MatchBool result (AllFalse self.new.assigned.literals (slice_index_or store.now id [])) (Contains self.new.assigned.literals lit) }
        ensures rest { self.new ≡ record self.old { assigned = self.new.assigned } }
    {
        if self.assigned.is_true(lit.negated()) {
            return true;
        }
        self.put(store, lit, id);
        false
    }
}

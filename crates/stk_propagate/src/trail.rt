// The trail.
ghost use Rattle.std.specs.Prelude.{◌≡◌, ◌↔◌, ◌+◌, ◌*◌, ◌<◌, ◌≤◌, ◌++◌, ◌∷◌, ℕ, List, [], length, take, slice_index_or, IfOk, OnOk, OnErr, MatchOption, MatchBool, None, Some};
ghost use Rattle.std.specs.List.{Contains, All};
ghost use Rattle.stk_clauses.specs.declared.literal.Lit.{Lit};
ghost use Rattle.stk_clauses.specs.Literals.{negated, AreBelow};
ghost use Rattle.stk_clauses.specs.Propagation.{Forced, Falsifies, IsOpen, AllFalse, AreQuiet};
ghost use Rattle.stk_propagate.specs.Assigned.{IsAssigned};
ghost use Rattle.stk_propagate.specs.Trailed.{IsAssumed, IsGrown, level_of};
ghost use Rattle.stk_propagate.specs.Fitting.{Fits, IsCalm, IsAlive, IsTimely};

use crate::inner::Inner;
use std::alloc::Global;
use std::marker::Model;
use stk_base::NoMemory;
use stk_clauses::{Lit, Store};

/// True literals over the clauses of a store, in the order in which they became true, each assumed or with a clause as
/// its reason. Each clause of two literals or more that was taken in watches two of them.
///
/// Calls that take a store ask that the trail fits it: that it is a trail over this store's clauses. All but `reserve`
/// and `attach` take no memory.
#[derive(Drop)]
pub struct Trail {
    inner: Inner,
}

impl Model for Trail {
    ghost use Rattle.stk_propagate.specs.Trailed.{Trailed};

    ghost Value = { Trailed };

    ghost use Rattle.stk_propagate.specs.Inside.{seen_as, IsInside};

    ghost view = { seen_as };

    ghost invariant = { IsInside };
}

impl Trail {
    /// A trail without true literals over the clauses of a store, whose variables are below `vars`.
    pub fn reserve(alloc: Global, vars: u32, store: &Store) -> Result<Trail, NoMemory>
        requires { All (AreBelow vars) store.now }
        ensures fits { IfOk result (λ t. Fits t store.now) }
        ensures blank { IfOk result (λ t. t.assigned ≡ record { vars = vars; literals = []; reasons = [] }) }
    {
        let inner = Inner::reserve(alloc, vars, store)?;
        Ok(Trail { inner })
    }

    /// The literal's value, `None` where its variable is unassigned.
    pub fn value(&self, lit: Lit) -> Option<bool>
        requires { lit.0 < 2 * self.now.assigned.vars }
        ensures { MatchOption result (IsOpen self.now.assigned.literals lit) (λ b. MatchBool b (Contains self.now.assigned.literals lit) (Contains self.now.assigned.literals (negated lit))) }
    {
        self.inner.assigned.value(lit)
    }

    /// The true literals, in the order in which they became true.
    pub fn assigned(&self) -> &[Lit]
        ensures literals { result.now ≡ self.now.assigned.literals }
        ensures facts { IsAssigned self.now.assigned }
        ensures few { length self.now.assigned.literals ≤ 2 * self.now.assigned.vars }
    {
        self.inner.assigned.literals()
    }

    /// Where the literal stands among the true ones, counted from 0, or `None` if it isn't true.
    pub fn place(&self, lit: Lit) -> Option<usize>
        requires { lit.0 < 2 * self.now.assigned.vars }
        ensures { MatchOption result (Contains self.now.assigned.literals lit → ⊥) (λ k. (k < length self.now.assigned.literals) × (slice_index_or self.now.assigned.literals k lit ≡ lit)) }
    {
        self.inner.assigned.place(lit)
    }

    /// How many literals as far as this true one were assumed, or `None` if it isn't true.
    pub fn level(&self, lit: Lit) -> Option<u32>
        requires { lit.0 < 2 * self.now.assigned.vars }
        ensures { MatchOption result (Contains self.now.assigned.literals lit → ⊥) (λ n. (k : ℕ) × (k < length self.now.assigned.literals) × (slice_index_or self.now.assigned.literals k lit ≡ lit) × (n ≡ level_of self.now.assigned.reasons k)) }
    {
        self.inner.assigned.level(lit)
    }

    /// The clause whose other literals were all false when propagation made the literal true; `None` where it was
    /// assumed or isn't true.
    pub fn reason(&self, lit: Lit) -> Option<u32>
        requires { lit.0 < 2 * self.now.assigned.vars }
        ensures known { (k : ℕ) → k < length self.now.assigned.literals → slice_index_or self.now.assigned.literals k lit ≡ lit → result ≡ slice_index_or self.now.assigned.reasons k None }
        ensures not_true { (Contains self.now.assigned.literals lit → ⊥) → result ≡ None }
    {
        self.inner.assigned.reason(lit)
    }

    /// The two watched literals of a clause, `None` where it has fewer than two literals.
    pub fn watched(&self, id: u32) -> Option<(Lit, Lit)>
        requires { id < length self.now.watches }
        ensures watched { result ≡ slice_index_or self.now.watches id None }
        ensures none { (cs : List (List Lit)) → Fits self.now cs → (result ≡ None) ↔ (length (slice_index_or cs id []) < 2) }
    {
        self.inner.watches[id as usize]
    }

    /// Propagates: answers a clause with only false literals, or `None` when every clause is quiet.
    ///
    /// It looks only at the clauses that are watched by a literal which became false and at those that were taken in
    /// since it last ended.
    pub fn propagate(&mut self, store: &Store) -> Option<u32>
        requires { Fits self.old store.now }
        ensures fits { Fits self.new store.now }
        ensures grown { IsGrown self.old.assigned self.new.assigned }
        ensures found { MatchOption result (AreQuiet self.new.assigned.literals store.now) (λ id. (id < length store.now) × AllFalse self.new.assigned.literals (slice_index_or store.now id [])) }
        ensures watches { result ≡ None → (id : ℕ) (a b : Lit) → id < length store.now → slice_index_or self.new.watches id None ≡ Some (a, b) → (Contains self.new.assigned.literals (negated a) → Contains self.new.assigned.literals b) × (Contains self.new.assigned.literals (negated b) → Contains self.new.assigned.literals a) }
        ensures forced { (l : Lit) → Contains self.new.assigned.literals l → Forced store.now (Contains self.old.assigned.literals) l }
        ensures all_forced { MatchOption result ((l : Lit) → Forced store.now (Contains self.old.assigned.literals) l → Contains self.new.assigned.literals l) (λ _. Falsifies store.now (Contains self.old.assigned.literals)) }
    {
        self.inner.propagate(store)
    }

    /// Makes an unassigned literal true, where every clause is quiet.
    pub fn assume(&mut self, lit: Lit, store: &Store)
        requires fits { Fits self.old store.now }
        requires below { lit.0 < 2 * self.old.assigned.vars }
        requires unassigned { IsOpen self.old.assigned.literals lit }
        requires quiet { AreQuiet self.old.assigned.literals store.now }
        ensures fits { Fits self.new store.now }
        ensures literals { self.new.assigned.literals ≡ self.old.assigned.literals ++ lit ∷ [] }
        ensures reasons { self.new.assigned.reasons ≡ self.old.assigned.reasons ++ None ∷ [] }
        ensures vars { self.new.assigned.vars ≡ self.old.assigned.vars }
    {
        self.inner.assume(lit, store)
    }

    /// Keeps the first `count` true literals. The one behind them was assumed.
    pub fn back_to(&mut self, count: u32)
        requires { IsAssumed self.old.assigned count }
        ensures fits { (cs : List (List Lit)) → Fits self.old cs → Fits self.new cs }
        ensures literals { self.new.assigned.literals ≡ take count self.old.assigned.literals }
        ensures reasons { self.new.assigned.reasons ≡ take count self.old.assigned.reasons }
        ensures vars { self.new.assigned.vars ≡ self.old.assigned.vars }
        ensures watches { self.new.watches ≡ self.old.watches }
    {
        self.inner.back_to(count)
    }

    /// Takes the store's last clause in. After `NoMemory` the trail is as before.
    ///
    /// The clause is empty, or has a literal that isn't false; and where exactly one isn't, nothing is assumed, or
    /// another one became false with the last assumed literal or after it.
    pub fn attach(&mut self, id: u32, store: &Store) -> Result<(), NoMemory>
        requires last { id + 1 ≡ length store.now }
        requires fits { Fits self.old (take id store.now) }
        requires below { AreBelow self.old.assigned.vars (slice_index_or store.now id []) }
        requires alive { IsAlive self.old.assigned.literals (slice_index_or store.now id []) }
        requires timely { IsTimely self.old.assigned (slice_index_or store.now id []) }
        ensures fits { OnOk result (Fits self.new store.now) }
        ensures kept { OnErr result (self.new ≡ self.old) }
        ensures assigned { self.new.assigned ≡ self.old.assigned }
    {
        self.inner.take_in(id, store)
    }
}

// A conflict gives a clause.
ghost use Rattle.std.specs.Prelude.{◌≡◌, ◌+◌, ◌-◌, ◌^◌, ◌<◌, ◌≤◌, ℕ, [], length, take, slice_index, slice_index_or, OnOk, IfOk};
ghost use Rattle.stk_clauses.specs.Literals.{AreDistinct, AreBelow};
ghost use Rattle.stk_clauses.specs.Propagation.{AllFalse, IsNew};
ghost use Rattle.stk_clauses.specs.Hints.{IsByHints};
ghost use Rattle.stk_propagate.specs.Fitting.{IsAlive, IsTimely};
ghost use Rattle.stk_solver.specs.Learnt.{IsAsserting};
ghost use Rattle.stk_solver.specs.Searching.{IsSearch};
ghost use Rattle.stk_solver.specs.Jumping.{IsDeep};

use crate::back::levels_to_keep;
use crate::raising::raise_behind;
use crate::restarts::Restarts;
use crate::search::Search;
use std::alloc::Global;
use stk_base::NoMemory;
use stk_clauses::{Derived, Lit, Store};
use stk_propagate::Trail;

/// How many levels to keep: none, where it's time to begin anew, and else so many that the learnt clause makes its
/// first literal true.
fn kept_levels(restarts: &mut Restarts, trail: &Trail, levels: &[u32], others: &[Lit]) -> usize
    requires below { AreBelow trail.now.assigned.vars others.now }
    requires some { 0 < length levels.now }
    ensures fewer { result < length levels.now }
    ensures deep { 0 < result → (place : ℕ) × IsDeep trail.now.assigned.literals others.now place × (slice_index levels.now (result - 1) ≤ place) }
{
    if restarts.is_due() {
        return 0;
    }
    levels_to_keep(trail, levels, others)
}

impl Search {
    /// Takes a learnt clause in.
    /// The contract alone reads `_given`.
    fn take_in(&mut self, _given: &Store, learnt: Derived) -> Result<(), NoMemory>
        requires search { IsSearch self.old _given.now }
        requires few { length self.old.store < 2 ^ 31 - 1 }
        requires by_hints { IsByHints self.old.vars self.old.store learnt.clause learnt.hints }
        requires fresh { IsNew self.old.store learnt.clause }
        requires distinct { AreDistinct learnt.clause }
        requires alive { IsAlive self.old.trail.assigned.literals learnt.clause }
        requires timely { IsTimely self.old.trail.assigned learnt.clause }
        ensures search { OnOk result (IsSearch self.new _given.now) }
        ensures longer { OnOk result (length self.new.log.items ≡ length self.old.log.items + 1) }
        ensures vars { self.new.vars ≡ self.old.vars }
    {
        let id = self.store.push(learnt.clause.as_slice())?;
        self.trail.attach(id, &self.store)?;
        self.log.push(learnt.hints)?;
        Ok(())
    }

    /// The clause that a conflict above level 0 gives. What the conflict met is tried before the rest from now on.
    /// The contract alone reads `_given`.
    fn analyse(&mut self, alloc: Global, _given: &Store, conflict: u32) -> Result<Derived, NoMemory>
        requires search { IsSearch self.old _given.now }
        requires some { 0 < length self.old.levels.items }
        requires exists { conflict < length self.old.store }
        requires falsified { AllFalse self.old.trail.assigned.literals (slice_index_or self.old.store conflict []) }
        ensures search { IsSearch self.new _given.now }
        ensures vars { self.new.vars ≡ self.old.vars }
        ensures trail { self.new.trail ≡ self.old.trail }
        ensures store { self.new.store ≡ self.old.store }
        ensures levels { self.new.levels ≡ self.old.levels }
        ensures log { self.new.log ≡ self.old.log }
        ensures by_hints { IfOk result (λ d. IsByHints self.old.vars self.old.store d.clause d.hints) }
        ensures fresh { IfOk result (λ d. IsNew self.old.store d.clause) }
        ensures asserting { IfOk result (λ d. IsAsserting (take (slice_index self.old.levels.items (length self.old.levels.items - 1)) self.old.trail.assigned.literals) d.clause) }
        ensures distinct { IfOk result (λ d. AreDistinct d.clause) }
    {
        let learnt = self
            .analysis
            .learn(alloc, &self.trail, &self.store, &self.levels, conflict)?;
        self.order.begin();
        self.order.raise(self.analysis.met());
        raise_behind(
            &mut self.order,
            &self.trail,
            &self.store,
            learnt.clause.as_slice(),
            self.vars,
        );
        Ok(learnt)
    }

    /// Goes back as far as the learnt clause makes its first literal true, or further.
    /// The contract alone reads `_given`.
    fn back_from(&mut self, _given: &Store, clause: &[Lit])
        requires search { IsSearch self.old _given.now }
        requires some { 0 < length self.old.levels.items }
        requires below { AreBelow self.old.vars clause.now }
        requires asserting { IsAsserting (take (slice_index self.old.levels.items (length self.old.levels.items - 1)) self.old.trail.assigned.literals) clause.now }
        ensures search { IsSearch self.new _given.now }
        ensures vars { self.new.vars ≡ self.old.vars }
        ensures store { self.new.store ≡ self.old.store }
        ensures log { self.new.log ≡ self.old.log }
        ensures alive { IsAlive self.new.trail.assigned.literals clause.now }
        ensures timely { IsTimely self.new.trail.assigned clause.now }
    {
        let Some((_, others)) = clause.split_first() else {
            unreachable!();
        };
        let kept = kept_levels(&mut self.restarts, &self.trail, &self.levels, others);
        self.go_back(kept);
    }

    /// Learns from a conflict above level 0, and goes back.
    pub(crate) fn learn(
        &mut self,
        alloc: Global,
        given: &Store,
        conflict: u32,
    ) -> Result<(), NoMemory>
        requires search { IsSearch self.old given.now }
        requires few { length self.old.store < 2 ^ 31 - 1 }
        requires some { 0 < length self.old.levels.items }
        requires exists { conflict < length self.old.store }
        requires falsified { AllFalse self.old.trail.assigned.literals (slice_index_or self.old.store conflict []) }
        ensures search { OnOk result (IsSearch self.new given.now) }
        ensures longer { OnOk result (length self.new.log.items ≡ length self.old.log.items + 1) }
        ensures vars { self.new.vars ≡ self.old.vars }
    {
        let learnt = self.analyse(alloc, given, conflict)?;
        self.back_from(given, learnt.clause.as_slice());
        self.take_in(given, learnt)
    }
}

// Marked literals give way to the others of their reasons.
ghost use Rattle.std.specs.Prelude.{◌≡◌, ◌≢◌, ◌⊎◌, ◌+◌, ◌*◌, ◌<◌, ◌≤◌, ℕ, [], length, take, slice_index_or, slice_range, IsTrue, OnOk, IfOk, None, Some};
ghost use Rattle.std.specs.List.{Contains, All};
ghost use Rattle.stk_clauses.specs.declared.literal.Lit.{Lit};
ghost use Rattle.stk_clauses.specs.Literals.{AreBelow};
ghost use Rattle.stk_clauses.specs.Propagation.{AllFalse, AreQuiet};
ghost use Rattle.stk_propagate.specs.Trailed.{IsAssumed};
ghost use Rattle.stk_propagate.specs.Fitting.{Fits};
ghost use Rattle.stk_solver.specs.Marking.{Marked, IsNoted, IsClean};
ghost use Rattle.stk_solver.specs.Guides.{Guided, IsPoint, IsLastAssumed, AreWithin, IsReplaced};

use crate::marks::Marks;
use stk_base::NoMemory;
use stk_clauses::{Lit, Store};
use stk_propagate::Trail;

impl Marks {
    /// Begins an analysis: marks the negations of the literals of a clause that are all false.
    pub(crate) fn begin(
        &mut self,
        trail: &Trail,
        store: &Store,
        low: usize,
        conflict: u32,
    ) -> Result<(), NoMemory>
        requires clean { IsClean self.old }
        requires vars { trail.now.assigned.vars ≡ self.old.vars }
        requires fits { Fits trail.now store.now }
        requires exists { conflict < length store.now }
        requires falsified { AllFalse trail.now.assigned.literals (slice_index_or store.now conflict []) }
        ensures noted { IsNoted self.new }
        ensures vars { self.new.vars ≡ self.old.vars }
        ensures guided { OnOk result (Guided store.now trail.now.assigned.literals (length trail.now.assigned.literals) self.new.marked.items self.new.hints.items) }
    {
        self.noted.clear();
        self.hints.clear();
        self.late = 0;
        self.mark_others(trail, low, store.clause(conflict), None)?;
        self.hints.push(conflict)?;
        Ok(())
    }

    /// The literal at a place, whose reason is the clause `id`, gives way to the negations of that clause's other
    /// literals.
    fn resolve(
        &mut self,
        trail: &Trail,
        store: &Store,
        low: usize,
        place: usize,
        id: u32,
    ) -> Result<(), NoMemory>
        requires noted { IsNoted self.old }
        requires vars { trail.now.assigned.vars ≡ self.old.vars }
        requires fits { Fits trail.now store.now }
        requires exists { place < length trail.now.assigned.literals }
        requires reason { slice_index_or trail.now.assigned.reasons place None ≡ Some id }
        ensures noted { IsNoted self.new }
        ensures vars { self.new.vars ≡ self.old.vars }
        ensures guided { OnOk result ((k : ℕ) (d : Lit) → place < k → Marked self.old.marked.items (slice_index_or trail.now.assigned.literals place d) → Guided store.now trail.now.assigned.literals k self.old.marked.items self.old.hints.items → Guided store.now trail.now.assigned.literals place self.new.marked.items self.new.hints.items) }
        ensures replaced { OnOk result (IsReplaced trail.now.assigned.literals place self.old.marked.items self.new.marked.items) }
    {
        let lit = trail.assigned()[place];
        self.unmark(lit, place >= low);
        self.mark_others(trail, low, store.clause(id), Some(lit))?;
        self.hints.push(id)?;
        Ok(())
    }

    /// Whether none of these literals is marked.
    fn are_unmarked(&self, part: &[Lit]) -> bool
        requires noted { IsNoted self.now }
        requires below { AreBelow self.now.vars part.now }
        ensures { IsTrue result → (m : Lit) → Contains part.now m → Marked self.now.marked.items m → ⊥ }
    {
        for lit in part {
            if self.is_marked(*lit) {
                return false;
            }
        }
        true
    }

    /// Whether the literals from the place `low` on as far as `place` are unmarked. The count spares looking at them in
    /// vain.
    fn is_alone(&self, order: &[Lit], low: usize, place: usize) -> bool
        requires noted { IsNoted self.now }
        requires below { AreBelow self.now.vars order.now }
        requires forwards { low ≤ place }
        requires within { place ≤ length order.now }
        ensures { IsTrue result → (m : Lit) → Contains (slice_range order.now low place) m → Marked self.now.marked.items m → ⊥ }
    {
        self.late <= 1 && self.are_unmarked(&order[low..place])
    }

    /// Resolves the marked literals of the last level, the last first, until one is left: the first unique implication
    /// point. Answers its place.
    pub(crate) fn to_point(
        &mut self,
        trail: &Trail,
        store: &Store,
        low: usize,
    ) -> Result<usize, NoMemory>
        requires noted { IsNoted self.old }
        requires vars { trail.now.assigned.vars ≡ self.old.vars }
        requires fits { Fits trail.now store.now }
        requires last { IsLastAssumed trail.now.assigned low }
        requires quiet { AreQuiet (take low trail.now.assigned.literals) store.now }
        requires guided { Guided store.now trail.now.assigned.literals (length trail.now.assigned.literals) self.old.marked.items self.old.hints.items }
        ensures noted { IsNoted self.new }
        ensures vars { self.new.vars ≡ self.old.vars }
        ensures guided { IfOk result (λ place. Guided store.now trail.now.assigned.literals place self.new.marked.items self.new.hints.items) }
        ensures point { IfOk result (λ place. IsPoint trail.now.assigned.literals low place self.new.marked.items) }
    {
        let order = trail.assigned();
        let mut end = order.len();
        while end > low {
            let place = end - 1;
            let lit = order[place];
            if self.is_marked(lit) {
                if place == low || self.is_alone(order, low, place) {
                    return Ok(place);
                }
                match trail.reason(lit) {
                    None => unreachable!(),
                    Some(id) => self.resolve(trail, store, low, place, id)?,
                }
            }
            end = place;
        }
        unreachable!()
    }

    /// Resolves all marked literals, where nothing is assumed.
    pub(crate) fn to_start(&mut self, trail: &Trail, store: &Store) -> Result<(), NoMemory>
        requires noted { IsNoted self.old }
        requires vars { trail.now.assigned.vars ≡ self.old.vars }
        requires fits { Fits trail.now store.now }
        requires none { (k : ℕ) → IsAssumed trail.now.assigned k → ⊥ }
        requires guided { Guided store.now trail.now.assigned.literals (length trail.now.assigned.literals) self.old.marked.items self.old.hints.items }
        ensures noted { IsNoted self.new }
        ensures vars { self.new.vars ≡ self.old.vars }
        ensures guided { OnOk result (Guided store.now trail.now.assigned.literals 0 self.new.marked.items self.new.hints.items) }
        ensures clean { OnOk result (IsClean self.new) }
    {
        let order = trail.assigned();
        let mut end = order.len();
        while end > 0 {
            let place = end - 1;
            let lit = order[place];
            if self.is_marked(lit) {
                match trail.reason(lit) {
                    None => unreachable!(),
                    Some(id) => self.resolve(trail, store, 0, place, id)?,
                }
            }
            end = place;
        }
        Ok(())
    }

    /// Resolves the literal at a place, if it is marked and has a reason.
    fn step_over(
        &mut self,
        trail: &Trail,
        store: &Store,
        low: usize,
        place: usize,
        _bound: usize,
    ) -> Result<(), NoMemory>
        requires noted { IsNoted self.old }
        requires vars { trail.now.assigned.vars ≡ self.old.vars }
        requires fits { Fits trail.now store.now }
        requires exists { place < length trail.now.assigned.literals }
        requires before { place < _bound }
        requires guided { Guided store.now trail.now.assigned.literals _bound self.old.marked.items self.old.hints.items }
        ensures noted { IsNoted self.new }
        ensures vars { self.new.vars ≡ self.old.vars }
        ensures guided { OnOk result (Guided store.now trail.now.assigned.literals place self.new.marked.items self.new.hints.items) }
        ensures within { OnOk result (AreWithin trail.now.assigned.literals place self.old.marked.items self.new.marked.items) }
    {
        let lit = trail.assigned()[place];
        if !self.is_marked(lit) {
            return Ok(());
        }
        match trail.reason(lit) {
            None => Ok(()),
            Some(id) => self.resolve(trail, store, low, place, id),
        }
    }

    /// Resolves the literals at these places, which fall and are below `low`. What is proved of it holds for all
    /// places.
    pub(crate) fn shorten(
        &mut self,
        trail: &Trail,
        store: &Store,
        low: usize,
        point: usize,
        places: &[usize],
    ) -> Result<(), NoMemory>
        requires noted { IsNoted self.old }
        requires vars { trail.now.assigned.vars ≡ self.old.vars }
        requires fits { Fits trail.now store.now }
        requires guided { Guided store.now trail.now.assigned.literals point self.old.marked.items self.old.hints.items }
        requires point { IsPoint trail.now.assigned.literals low point self.old.marked.items }
        ensures noted { IsNoted self.new }
        ensures vars { self.new.vars ≡ self.old.vars }
        ensures guided { OnOk result (Guided store.now trail.now.assigned.literals 0 self.new.marked.items self.new.hints.items) }
        ensures point { OnOk result (IsPoint trail.now.assigned.literals low point self.new.marked.items) }
    {
        // For the prover: the trail keeps its facts.
        let _ = trail.assigned();
        let mut bound = low;
        for place in places {
            if *place < bound {
                self.step_over(trail, store, low, *place, bound)?;
                bound = *place;
            }
        }
        Ok(())
    }
}

// The analysis of conflicts.
ghost use Rattle.std.specs.Prelude.{◌≡◌, ◌-◌, ◌<◌, ℕ, [], length, take, slice_index_or, IfOk, OnOk};
ghost use Rattle.std.specs.List.{Contains};
ghost use Rattle.stk_clauses.specs.Literals.{AreDistinct};
ghost use Rattle.stk_clauses.specs.Propagation.{AllFalse, IsNew};
ghost use Rattle.stk_clauses.specs.Hints.{IsByHints};
ghost use Rattle.stk_propagate.specs.Trailed.{IsAssumed};
ghost use Rattle.stk_propagate.specs.Fitting.{Fits};
ghost use Rattle.stk_solver.specs.Marking.{IsNoted, IsClean};
ghost use Rattle.stk_solver.specs.Learnt.{IsAsserting, AreLevels};

use crate::marks::Marks;
use crate::redundancy::Redundancy;
use std::alloc::Global;
use std::marker::Model;
use stk_base::{List, NoMemory};
use stk_clauses::{Derived, Lit, Store};
use stk_propagate::Trail;

/// Learns clauses over a number of variables. It keeps its memory from one conflict to the next.
#[derive(Drop)]
pub struct Analysis {
    marks: Marks,
    redundancy: Redundancy,
}

impl Model for Analysis {
    ghost use Rattle.std.specs.Prelude.{ℕ};

    ghost Value = { ℕ };

    ghost use Rattle.stk_solver.specs.Inside.{seen_as, IsInside};

    ghost view = { seen_as };

    ghost invariant = { IsInside };
}

/// The clause of a conflict above level 0, with its hints. After `NoMemory` some literals may be marked.
fn learnt(
    alloc: Global,
    marks: &mut Marks,
    redundancy: &mut Redundancy,
    trail: &Trail,
    store: &Store,
    levels: &[u32],
    conflict: u32,
) -> Result<Derived, NoMemory>
    requires clean { IsClean marks.old }
    requires vars { trail.now.assigned.vars ≡ marks.old.vars }
    requires fits { Fits trail.now store.now }
    requires levels { AreLevels trail.now.assigned levels.now }
    requires some { 0 < length levels.now }
    requires full { Contains store.now [] → ⊥ }
    requires exists { conflict < length store.now }
    requires falsified { AllFalse trail.now.assigned.literals (slice_index_or store.now conflict []) }
    ensures noted { IsNoted marks.new }
    ensures clean { OnOk result (IsClean marks.new) }
    ensures vars { marks.new.vars ≡ marks.old.vars }
    ensures by_hints { IfOk result (λ d. IsByHints marks.old.vars store.now d.clause d.hints) }
    ensures fresh { IfOk result (λ d. IsNew store.now d.clause) }
    ensures asserting { IfOk result (λ d. IsAsserting (take (slice_index_or levels.now (length levels.now - 1) 0) trail.now.assigned.literals) d.clause) }
    ensures distinct { IfOk result (λ d. AreDistinct d.clause) }
{
    let low = levels[levels.len() - 1] as usize;
    marks.begin(trail, store, low, conflict)?;
    let point = marks.to_point(trail, store, low)?;
    redundancy.find(marks, trail, store)?;
    marks.shorten(trail, store, low, point, redundancy.places())?;
    let clause = marks.collect(alloc, trail.assigned()[point])?;
    let hints = marks.hints_in_order(alloc)?;
    Ok(Derived {
        clause: List::from_vec(clause),
        hints: List::from_vec(hints),
    })
}

/// The empty clause with its hints, where nothing is assumed. After `NoMemory` some literals may be marked.
fn refuted(
    alloc: Global,
    marks: &mut Marks,
    trail: &Trail,
    store: &Store,
    conflict: u32,
) -> Result<Derived, NoMemory>
    requires clean { IsClean marks.old }
    requires vars { trail.now.assigned.vars ≡ marks.old.vars }
    requires fits { Fits trail.now store.now }
    requires none { (k : ℕ) → IsAssumed trail.now.assigned k → ⊥ }
    requires exists { conflict < length store.now }
    requires falsified { AllFalse trail.now.assigned.literals (slice_index_or store.now conflict []) }
    ensures noted { IsNoted marks.new }
    ensures clean { OnOk result (IsClean marks.new) }
    ensures vars { marks.new.vars ≡ marks.old.vars }
    ensures by_hints { IfOk result (λ d. IsByHints marks.old.vars store.now d.clause d.hints) }
    ensures empty { IfOk result (λ d. d.clause ≡ []) }
{
    // For the prover: the trail keeps its facts.
    let _ = trail.assigned();
    marks.begin(trail, store, 0, conflict)?;
    marks.to_start(trail, store)?;
    let hints = marks.hints_in_order(alloc)?;
    Ok(Derived {
        clause: List::empty(alloc),
        hints: List::from_vec(hints),
    })
}

impl Analysis {
    /// An analysis over the variables below `vars`.
    pub fn reserve(alloc: Global, vars: u32) -> Result<Analysis, NoMemory>
        ensures { IfOk result (λ a. a ≡ vars) }
    {
        let marks = Marks::reserve(alloc, vars)?;
        let redundancy = Redundancy::reserve(alloc, vars)?;
        Ok(Analysis { marks, redundancy })
    }

    /// Learns a clause from a conflict, a clause of the store with only false literals, where a literal is assumed.
    /// `levels` has the places of the assumed literals.
    ///
    /// The learnt clause is by its hints over the store's clauses, and new. Before the last assumption its first
    /// literal was unassigned, and its others were false. After `NoMemory` the analysis is as before.
    pub fn learn(
        &mut self,
        alloc: Global,
        trail: &Trail,
        store: &Store,
        levels: &[u32],
        conflict: u32,
    ) -> Result<Derived, NoMemory>
        requires vars { trail.now.assigned.vars ≡ self.old }
        requires fits { Fits trail.now store.now }
        requires levels { AreLevels trail.now.assigned levels.now }
        requires some { 0 < length levels.now }
        requires full { Contains store.now [] → ⊥ }
        requires exists { conflict < length store.now }
        requires falsified { AllFalse trail.now.assigned.literals (slice_index_or store.now conflict []) }
        ensures same { self.new ≡ self.old }
        ensures by_hints { IfOk result (λ d. IsByHints self.old store.now d.clause d.hints) }
        ensures fresh { IfOk result (λ d. IsNew store.now d.clause) }
        ensures asserting { IfOk result (λ d. IsAsserting (take (slice_index_or levels.now (length levels.now - 1) 0) trail.now.assigned.literals) d.clause) }
        ensures distinct { IfOk result (λ d. AreDistinct d.clause) }
    {
        let found = learnt(
            alloc,
            &mut self.marks,
            &mut self.redundancy,
            trail,
            store,
            levels,
            conflict,
        );
        if let Err(NoMemory) = found {
            self.marks.clear();
        }
        found
    }

    /// Learns the empty clause from a conflict, where nothing is assumed. After `NoMemory` the analysis is as before.
    pub fn refute(
        &mut self,
        alloc: Global,
        trail: &Trail,
        store: &Store,
        conflict: u32,
    ) -> Result<Derived, NoMemory>
        requires vars { trail.now.assigned.vars ≡ self.old }
        requires fits { Fits trail.now store.now }
        requires none { (k : ℕ) → IsAssumed trail.now.assigned k → ⊥ }
        requires exists { conflict < length store.now }
        requires falsified { AllFalse trail.now.assigned.literals (slice_index_or store.now conflict []) }
        ensures same { self.new ≡ self.old }
        ensures by_hints { IfOk result (λ d. IsByHints self.old store.now d.clause d.hints) }
        ensures empty { IfOk result (λ d. d.clause ≡ []) }
    {
        let found = refuted(alloc, &mut self.marks, trail, store, conflict);
        if let Err(NoMemory) = found {
            self.marks.clear();
        }
        found
    }

    /// The true literals that the last analysis met, for whoever decides what to try next.
    pub(crate) fn met(&self) -> &[Lit] {
        &self.marks.noted
    }
}

// How a search ends.
ghost use Rattle.std.specs.Prelude.{◌≡◌, ◌+◌, ◌<◌, ◌↔◌, [], length, drop, slice_index_or, true, false, IsTrue, Some, IfOk};
ghost use Rattle.std.specs.List.{All};
ghost use Rattle.stk_clauses.specs.Literals.{Satisfies};
ghost use Rattle.stk_clauses.specs.Propagation.{AllFalse, AreQuiet};
ghost use Rattle.stk_clauses.specs.Derivations.{IsRefutation, IsSpentLog};
ghost use Rattle.stk_solver.specs.Searching.{steps_of, IsSearch, AreAllAssigned};

use crate::search::Search;
use std::alloc::Global;
use stk_base::{List, NoMemory};
use stk_clauses::{Derived, Lit, Store};

fn is_true(value: Option<bool>) -> bool
    ensures { IsTrue result ↔ (value ≡ Some true) }
{
    match value {
        None => false,
        Some(value) => value,
    }
}

/// The steps of a log: each learnt clause, as it stands in the store behind the given ones, with its hints.
/// The contract alone reads `_given`.
fn steps_of_log(
    alloc: Global,
    _given: &Store,
    store: &Store,
    mut log: Vec<List<u32>>,
) -> Result<Vec<Derived>, NoMemory>
    requires each { length store.now ≡ length _given.now + length log.items }
    ensures { IfOk result (λ d. d.items ≡ steps_of log.items (drop (length _given.now) store.now)) }
{
    let mut steps = Vec::with_capacity(alloc, log.len() + 1)?;
    let mut id = store.count();
    while let Some(hints) = log.pop() {
        id -= 1;
        let clause = List::from_vec(Vec::from_slice(alloc, store.clause(id))?);
        steps.push(Derived { clause, hints })?;
    }
    steps.as_mut_slice().reverse();
    Ok(steps)
}

impl Search {
    /// The variables' values, where each has one and every clause is quiet.
    /// The contract alone reads `_given`.
    pub(crate) fn values(&self, alloc: Global, _given: &Store) -> Result<Vec<bool>, NoMemory>
        requires search { IsSearch self.now _given.now }
        requires quiet { AreQuiet self.now.trail.assigned.literals self.now.store }
        requires all { AreAllAssigned self.now.trail.assigned.literals self.now.vars }
        ensures satisfies { IfOk result (λ v. Satisfies (λ k. slice_index_or v.items k false) _given.now) }
        ensures each { IfOk result (λ v. length v.items ≡ self.now.vars) }
    {
        // For the prover: the trail keeps its facts.
        let _ = self.trail.assigned();
        let mut values = Vec::with_capacity(alloc, self.vars as usize)?;
        for variable in 0..self.vars {
            values.push(is_true(self.trail.value(Lit::new(variable, false))))?;
        }
        Ok(values)
    }

    /// The log with the empty clause as its last step, after a conflict where nothing is assumed.
    pub(crate) fn refute(
        mut self,
        alloc: Global,
        given: &Store,
        conflict: u32,
    ) -> Result<Vec<Derived>, NoMemory>
        requires search { IsSearch self given.now }
        requires none { length self.levels.items ≡ 0 }
        requires exists { conflict < length self.store }
        requires falsified { AllFalse self.trail.assigned.literals (slice_index_or self.store conflict []) }
        ensures refutes { IfOk result (λ d. IsRefutation self.vars given.now d.items) }
        ensures longer { IfOk result (λ d. length d.items ≡ length self.log.items + 1) }
    {
        let last = self
            .analysis
            .refute(alloc, &self.trail, &self.store, conflict)?;
        let log = self.log;
        let mut steps = steps_of_log(alloc, given, &self.store, log)?;
        steps.push(last)?;
        Ok(steps)
    }

    /// The log, where a conflict stands above level 0.
    /// The contract alone reads `_conflict`.
    pub(crate) fn spent(
        self,
        alloc: Global,
        given: &Store,
        _conflict: u32,
    ) -> Result<Vec<Derived>, NoMemory>
        requires search { IsSearch self given.now }
        requires some { 0 < length self.levels.items }
        requires exists { _conflict < length self.store }
        requires falsified { AllFalse self.trail.assigned.literals (slice_index_or self.store _conflict []) }
        ensures { IfOk result (λ d. IsSpentLog self.vars given.now (length self.log.items) d.items) }
    {
        let log = self.log;
        steps_of_log(alloc, given, &self.store, log)
    }
}

// What a search tries next.
ghost use Rattle.std.specs.Prelude.{◌≡◌, ◌+◌, ◌*◌, ◌<◌, ◌≤◌, length, IsTrue, OnOk, MatchOption};
ghost use Rattle.stk_clauses.specs.Propagation.{IsOpen, AreQuiet};
ghost use Rattle.stk_solver.specs.Searching.{IsSearch, AreAllAssigned};

use crate::search::Search;
use stk_base::NoMemory;
use stk_clauses::{Lit, Store};

impl Search {
    /// The unassigned literal to try next, if what is tried next knows one: a variable that conflicts met lately, with
    /// the sign that it had last. Each turn takes a variable that goes in again only on the way back, so all turns
    /// between two conflicts go over each variable at most once. The contract alone reads `_given`.
    fn suggested(&mut self, _given: &Store) -> Option<Lit>
        requires search { IsSearch self.old _given.now }
        ensures search { IsSearch self.new _given.now }
        ensures vars { self.new.vars ≡ self.old.vars }
        ensures trail { self.new.trail ≡ self.old.trail }
        ensures store { self.new.store ≡ self.old.store }
        ensures levels { self.new.levels ≡ self.old.levels }
        ensures log { self.new.log ≡ self.old.log }
        ensures open { MatchOption result (Unit {0}) (λ l. (l.0 < 2 * self.new.vars) × IsOpen self.new.trail.assigned.literals l) }
    {
        for _turn in 0..self.vars {
            let Some(variable) = self.order.take() else {
                return None;
            };
            if variable < self.vars {
                let lit = Lit::new(variable, self.order.is_negative(variable));
                if let None = self.trail.value(lit) {
                    return Some(lit);
                }
            }
        }
        None
    }

    /// The first unassigned variable's literal, if there is one. What is tried next holds each unassigned variable, so
    /// it isn't asked; but no proof says so, and this does without one.
    /// The contract alone reads `_given`.
    fn first_open(&self, _given: &Store) -> Option<Lit>
        requires search { IsSearch self.now _given.now }
        ensures { MatchOption result (AreAllAssigned self.now.trail.assigned.literals self.now.vars) (λ l. (l.0 < 2 * self.now.vars) × IsOpen self.now.trail.assigned.literals l) }
    {
        for variable in 0..self.vars {
            let lit = Lit::new(variable, false);
            if let None = self.trail.value(lit) {
                return Some(lit);
            }
        }
        None
    }

    /// Whether each variable has a value: there are as many true literals as variables, and each is of another one.
    /// The contract alone reads `_given`.
    fn are_all_assigned(&self, _given: &Store) -> bool
        requires search { IsSearch self.now _given.now }
        ensures { IsTrue result → AreAllAssigned self.now.trail.assigned.literals self.now.vars }
    {
        self.trail.assigned().len() >= self.vars as usize
    }

    /// An unassigned literal, if there is one.
    pub(crate) fn choose(&mut self, given: &Store) -> Option<Lit>
        requires search { IsSearch self.old given.now }
        ensures search { IsSearch self.new given.now }
        ensures vars { self.new.vars ≡ self.old.vars }
        ensures trail { self.new.trail ≡ self.old.trail }
        ensures store { self.new.store ≡ self.old.store }
        ensures levels { self.new.levels ≡ self.old.levels }
        ensures log { self.new.log ≡ self.old.log }
        ensures open { MatchOption result (AreAllAssigned self.new.trail.assigned.literals self.new.vars) (λ l. (l.0 < 2 * self.new.vars) × IsOpen self.new.trail.assigned.literals l) }
    {
        if self.are_all_assigned(given) {
            return None;
        }
        match self.suggested(given) {
            Some(lit) => Some(lit),
            None => self.first_open(given),
        }
    }

    /// Assumes an unassigned literal, where every clause is quiet.
    /// The contract alone reads `_given`.
    pub(crate) fn decide(&mut self, _given: &Store, lit: Lit) -> Result<(), NoMemory>
        requires search { IsSearch self.old _given.now }
        requires below { lit.0 < 2 * self.old.vars }
        requires open { IsOpen self.old.trail.assigned.literals lit }
        requires quiet { AreQuiet self.old.trail.assigned.literals self.old.store }
        ensures search { OnOk result (IsSearch self.new _given.now) }
        ensures vars { self.new.vars ≡ self.old.vars }
        ensures log { self.new.log ≡ self.old.log }
        ensures more { OnOk result (length self.new.trail.assigned.literals ≡ length self.old.trail.assigned.literals + 1) }
        ensures few { OnOk result (length self.new.trail.assigned.literals ≤ 2 * self.new.vars) }
    {
        let place = self.trail.assigned().len() as u32;
        self.levels.push(place)?;
        self.trail.assume(lit, &self.store);
        // For the prover: the trail keeps its facts.
        let _ = self.trail.assigned();
        Ok(())
    }
}

// Which levels to keep after a conflict, and the way back.
ghost use Rattle.std.specs.Prelude.{◌≡◌, ◌-◌, ◌*◌, ◌<◌, ◌≤◌, ℕ, List, length, take, slice_index, slice_index_or, MatchOption};
ghost use Rattle.std.specs.List.{Contains};
ghost use Rattle.stk_clauses.specs.declared.literal.Lit.{Lit};
ghost use Rattle.stk_clauses.specs.Literals.{negated, AreBelow};
ghost use Rattle.stk_propagate.specs.Assigned.{IsAssigned};
ghost use Rattle.stk_propagate.specs.Fitting.{Fits};
ghost use Rattle.stk_solver.specs.Learnt.{AreLevels};
ghost use Rattle.stk_solver.specs.Jumping.{IsDeep};

use crate::search::Search;
use stk_clauses::Lit;
use stk_propagate::Trail;

/// The place of the literal of these that became false last, if one is false.
pub(crate) fn deepest(trail: &Trail, clause: &[Lit]) -> Option<usize>
    requires { AreBelow trail.now.assigned.vars clause.now }
    ensures { MatchOption result (Unit {0}) (IsDeep trail.now.assigned.literals clause.now) }
{
    let mut best: Option<usize> = None;
    for lit in clause {
        let Some(place) = trail.place(lit.negated()) else {
            continue;
        };
        match best {
            None => best = Some(place),
            Some(other) => {
                if other < place {
                    best = Some(place);
                }
            }
        }
    }
    best
}

/// How many of the levels, all but the last one at most, begin at the place or before it.
fn count_to(levels: &[u32], place: usize) -> usize
    requires { 0 < length levels.now }
    ensures fewer { result < length levels.now }
    ensures before { 0 < result → slice_index levels.now (result - 1) ≤ place }
{
    let mut count = levels.len() - 1;
    while count > 0 && levels[count - 1] as usize > place {
        count -= 1;
    }
    count
}

/// How many levels to keep, so that the learnt clause makes its first literal true: none, if its others aren't false.
pub(crate) fn levels_to_keep(trail: &Trail, levels: &[u32], others: &[Lit]) -> usize
    requires below { AreBelow trail.now.assigned.vars others.now }
    requires some { 0 < length levels.now }
    ensures fewer { result < length levels.now }
    ensures deep { 0 < result → (place : ℕ) × IsDeep trail.now.assigned.literals others.now place × (slice_index levels.now (result - 1) ≤ place) }
{
    match deepest(trail, others) {
        None => 0,
        Some(place) => count_to(levels, place),
    }
}

impl Search {
    /// The variables of the true literals from a place on may be tried again.
    fn give_back(&mut self, from: usize)
        ensures { self.new ≡ record self.old { order = self.new.order } }
    {
        let trail = &self.trail;
        let order = &mut self.order;
        let literals = trail.assigned();
        for at in from..literals.len() {
            order.put_back(literals[at]);
        }
    }

    /// Keeps the first `kept` levels.
    pub(crate) fn go_back(&mut self, kept: usize)
        requires fewer { kept < length self.old.levels.items }
        requires levels { AreLevels self.old.trail.assigned self.old.levels.items }
        requires fits { Fits self.old.trail self.old.store }
        ensures fits { Fits self.new.trail self.old.store }
        ensures literals { self.new.trail.assigned.literals ≡ take (slice_index self.old.levels.items kept) self.old.trail.assigned.literals }
        ensures reasons { self.new.trail.assigned.reasons ≡ take (slice_index self.old.levels.items kept) self.old.trail.assigned.reasons }
        ensures assigned_vars { self.new.trail.assigned.vars ≡ self.old.trail.assigned.vars }
        ensures levels { AreLevels self.new.trail.assigned self.new.levels.items }
        ensures kept { self.new.levels.items ≡ take kept self.old.levels.items }
        ensures assigned { IsAssigned self.new.trail.assigned }
        ensures rest { self.new ≡ record self.old { trail = self.new.trail; levels = self.new.levels; order = self.new.order } }
    {
        let count = self.levels[kept];
        self.give_back(count as usize);
        self.levels.truncate(kept);
        self.trail.back_to(count);
        // For the prover: the trail keeps its facts.
        let _ = self.trail.assigned();
    }
}

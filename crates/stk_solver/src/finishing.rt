// The clause and the hints that an analysis ends with.
ghost use Rattle.std.specs.Prelude.{◌≡◌, ◌↔◌, ◌*◌, ◌<◌, [], ◌∷◌, List, length, reverse, OnOk, IfOk};
ghost use Rattle.std.specs.List.{Contains};
ghost use Rattle.stk_clauses.specs.declared.literal.Lit.{Lit};
ghost use Rattle.stk_clauses.specs.Literals.{negated, AreDistinct};
ghost use Rattle.stk_solver.specs.Marking.{Marked, IsNoted, IsClean};

use crate::marks::Marks;
use std::alloc::Global;
use stk_base::NoMemory;
use stk_clauses::Lit;

impl Marks {
    /// The negations of the marked literals, that of `point` first. None is marked then.
    pub(crate) fn collect(&mut self, alloc: Global, point: Lit) -> Result<Vec<Lit>, NoMemory>
        requires noted { IsNoted self.old }
        requires marked { Marked self.old.marked.items point }
        requires below { point.0 < 2 * self.old.vars }
        ensures noted { IsNoted self.new }
        ensures clean { OnOk result (IsClean self.new) }
        ensures vars { self.new.vars ≡ self.old.vars }
        ensures hints { self.new.hints ≡ self.old.hints }
        ensures each { IfOk result (λ c. (m : Lit) → Contains c.items m ↔ Marked self.old.marked.items (negated m)) }
        ensures distinct { IfOk result (λ c. AreDistinct c.items) }
        ensures first { IfOk result (λ c. (rest : List Lit) × (c.items ≡ negated point ∷ rest)) }
    {
        let mut clause = Vec::with_capacity(alloc, self.noted.len() + 1)?;
        clause.push(point.negated())?;
        self.unmark(point, false);
        for at in 0..self.noted.len() {
            let lit = self.noted[at];
            if self.is_marked(lit) {
                clause.push(lit.negated())?;
                self.unmark(lit, false);
            }
        }
        Ok(clause)
    }

    /// The hints, the first one first.
    pub(crate) fn hints_in_order(&self, alloc: Global) -> Result<Vec<u32>, NoMemory>
        ensures { IfOk result (λ h. h.items ≡ reverse self.now.hints.items) }
    {
        let mut hints = Vec::from_slice(alloc, &self.hints)?;
        hints.as_mut_slice().reverse();
        Ok(hints)
    }

    /// Unmarks all literals, after a step for which there was no memory.
    pub(crate) fn clear(&mut self)
        requires noted { IsNoted self.old }
        ensures clean { IsClean self.new }
        ensures vars { self.new.vars ≡ self.old.vars }
    {
        for at in 0..self.noted.len() {
            let lit = self.noted[at];
            self.unmark(lit, false);
        }
    }
}

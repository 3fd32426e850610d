// The marked literals of an analysis.
ghost use Rattle.std.specs.Prelude.{◌≡◌, ◌≢◌, ◌⊎◌, ◌*◌, ◌<◌, ◌↔◌, [], ◌∷◌, ◌++◌, length, slice_set, false, IsTrue, OnOk, IfOk, Some};
ghost use Rattle.std.specs.List.{Contains};
ghost use Rattle.stk_clauses.specs.declared.literal.Lit.{Lit};
ghost use Rattle.stk_clauses.specs.Literals.{negated, AreBelow};
ghost use Rattle.stk_solver.specs.Marking.{Marked, IsNoted, IsClean};

use std::alloc::Global;
use stk_base::NoMemory;
use stk_clauses::Lit;
use stk_propagate::Trail;

/// True literals that are marked: the negations of the literals of the clause that an analysis has come to.
///
/// `marked` tells of each literal whether it is, and `noted` has each one that was. `hints` has the clauses that were
/// used, the last of a step's hints first, and `late` counts the marked literals of the last level; what is proved
/// doesn't rest on it.
#[derive(Drop)]
pub(crate) struct Marks {
    pub(crate) vars: u32,
    pub(crate) marked: Vec<bool>,
    pub(crate) noted: Vec<Lit>,
    pub(crate) hints: Vec<u32>,
    pub(crate) late: usize,
}

fn is_it(but: Option<Lit>, lit: Lit) -> bool
    ensures { IsTrue result ↔ (but ≡ Some lit) }
{
    match but {
        None => false,
        Some(other) => other.0 == lit.0,
    }
}

/// Whether the literal stands at this place of the trail or behind it.
fn is_late(trail: &Trail, low: usize, lit: Lit) -> bool
    requires { lit.0 < 2 * trail.now.assigned.vars }
{
    match trail.place(lit) {
        None => false,
        Some(place) => place >= low,
    }
}

impl Marks {
    /// No marked literals.
    pub(crate) fn reserve(alloc: Global, vars: u32) -> Result<Marks, NoMemory>
        ensures clean { IfOk result IsClean }
        ensures vars { IfOk result (λ f. f.vars ≡ vars) }
    {
        let marked = vec![in alloc; false; vars as usize * 2]?;
        Ok(Marks {
            vars,
            marked,
            noted: Vec::new(alloc),
            hints: Vec::new(alloc),
            late: 0,
        })
    }

    pub(crate) fn is_marked(&self, lit: Lit) -> bool
        requires noted { IsNoted self.now }
        requires below { lit.0 < 2 * self.now.vars }
        ensures { IsTrue result ↔ Marked self.now.marked.items lit }
    {
        self.marked[lit.0 as usize]
    }

    /// Whether the literal is marked, `false` for one that is out of range.
    pub(crate) fn is_now_marked(&self, lit: Lit) -> bool {
        (lit.0 as usize) < self.marked.len() && self.marked[lit.0 as usize]
    }

    /// Marks a literal.
    fn mark(&mut self, lit: Lit, late: bool) -> Result<(), NoMemory>
        requires noted { IsNoted self.old }
        requires below { lit.0 < 2 * self.old.vars }
        ensures noted { IsNoted self.new }
        ensures marked { OnOk result ((m : Lit) → Marked self.new.marked.items m ↔ (Marked self.old.marked.items m ⊎ (m ≡ lit))) }
        ensures vars { self.new.vars ≡ self.old.vars }
        ensures hints { self.new.hints ≡ self.old.hints }
    {
        if self.marked[lit.0 as usize] {
            return Ok(());
        }
        self.noted.push(lit)?;
        self.marked[lit.0 as usize] = true;
        if late {
            self.late = self.late.wrapping_add(1);
        }
        Ok(())
    }

    /// Unmarks a literal.
    pub(crate) fn unmark(&mut self, lit: Lit, late: bool)
        requires noted { IsNoted self.old }
        requires below { lit.0 < 2 * self.old.vars }
        ensures noted { IsNoted self.new }
        ensures marked { self.new.marked.items ≡ slice_set self.old.marked.items lit.0 false }
        ensures vars { self.new.vars ≡ self.old.vars }
        ensures hints { self.new.hints ≡ self.old.hints }
        ensures list { self.new.noted ≡ self.old.noted }
    {
        self.marked[lit.0 as usize] = false;
        if late {
            self.late = self.late.wrapping_sub(1);
        }
    }

    /// Marks the negations of a clause's literals, but for that of `but`.
    pub(crate) fn mark_others(
        &mut self,
        trail: &Trail,
        low: usize,
        clause: &[Lit],
        but: Option<Lit>,
    ) -> Result<(), NoMemory>
        requires noted { IsNoted self.old }
        requires vars { trail.now.assigned.vars ≡ self.old.vars }
        requires below { AreBelow self.old.vars clause.now }
        ensures noted { IsNoted self.new }
        ensures marked { OnOk result ((m : Lit) → Marked self.new.marked.items m ↔ (Marked self.old.marked.items m ⊎ (Contains clause.now (negated m) × (but ≢ Some (negated m))))) }
        ensures vars { self.new.vars ≡ self.old.vars }
        ensures hints { self.new.hints ≡ self.old.hints }
    {
        for lit in clause {
            if is_it(but, *lit) {
                continue;
            }
            let other = lit.negated();
            let late = is_late(trail, low, other);
            self.mark(other, late)?;
        }
        Ok(())
    }
}

// The check of a derivation, step by step.
ghost use Rattle.std.specs.Prelude.{◌≡◌, ◌+◌, ◌-◌, ◌*◌, ◌^◌, ◌<◌, ◌≤◌, ◌↔◌, ◌++◌, [], length, slice_index_or, IfOk, IsTrue, MatchOption};
ghost use Rattle.std.specs.List.{All};
ghost use Rattle.stk_clauses.specs.Literals.{AreBelow, IsUnsatisfiable};
ghost use Rattle.stk_clauses.specs.Hints.{Leads};
ghost use Rattle.stk_clauses.specs.Derivations.{clauses_of_steps, IsStep, EndsEmpty, IsRefutation};
ghost use Rattle.stk_check.specs.Marks.{IsMarked};

use crate::marks::{Seen, assume_false, look};
use std::alloc::Global;
use stk_base::NoMemory;
use stk_clauses::{Cnf, Derivation, Derived, Lit, Store};

/// The clause with this number, the given ones first and then those of the earlier steps.
fn clause_of<'a>(given: &'a Store, earlier: &'a [Derived], id: u32) -> Option<&'a [Lit]>
    ensures { MatchOption result (length (given.now ++ clauses_of_steps earlier.now) ≤ id) (λ c. (id < length (given.now ++ clauses_of_steps earlier.now)) × (c.now ≡ slice_index_or (given.now ++ clauses_of_steps earlier.now) id [])) }
{
    let count = given.count();
    if id < count {
        return Some(given.clause(id));
    }
    let at = (id - count) as usize;
    if at < earlier.len() {
        let step = &earlier[at];
        Some(step.clause.as_slice())
    } else {
        None
    }
}

/// Whether the hints lead from the marked literals to a falsified clause. It marks each literal that they make true.
fn leads(
    marks: &mut [usize],
    stamp: usize,
    vars: u32,
    given: &Store,
    earlier: &[Derived],
    hints: &[u32],
) -> bool
    requires sized { length marks.old ≡ 2 * vars }
    requires below { All (AreBelow vars) (given.now ++ clauses_of_steps earlier.now) }
    requires at_most { All (λ x. x ≤ stamp) marks.old }
    ensures leads { IsTrue result ↔ Leads (given.now ++ clauses_of_steps earlier.now) (IsMarked marks.old stamp) hints.now }
    ensures bounded { All (λ x. x ≤ stamp) marks.new }
{
    let n = hints.len();
    for i in 0..n {
        let Some(clause) = clause_of(given, earlier, hints[i]) else {
            return false;
        };
        match look(marks, stamp, vars, clause) {
            Seen::Falsified => return i + 1 == n,
            Seen::Single(lit) => {
                if i + 1 == n {
                    return false;
                }
                marks[lit.0 as usize] = stamp;
            }
            Seen::Other => return false,
        }
    }
    false
}

/// Whether the step is by its hints over the given clauses and the earlier steps.
fn is_step(
    marks: &mut [usize],
    stamp: usize,
    vars: u32,
    given: &Store,
    earlier: &[Derived],
    step: &Derived,
) -> bool
    requires sized { length marks.old ≡ 2 * vars }
    requires positive { 0 < stamp }
    requires fresh { All (λ x. x < stamp) marks.old }
    requires below { All (AreBelow vars) (given.now ++ clauses_of_steps earlier.now) }
    ensures holds { IsTrue result ↔ IsStep vars given.now earlier.now step.now }
    ensures bounded { All (λ x. x ≤ stamp) marks.new }
{
    if !assume_false(marks, stamp, vars, step.clause.as_slice()) {
        return false;
    }
    leads(marks, stamp, vars, given, earlier, step.hints.as_slice())
}

/// Whether the derivation refutes the clauses: true exactly where it has a step, each step is by its hints over the
/// given clauses and the steps before it, and the last clause is empty. No values satisfy the clauses then.
///
/// Each literal's variable is below `vars`. Its time is linear in `vars` and the literals of the steps and of the
/// clauses that the hints name. All its memory, two marks a variable, is taken before the first step.
pub fn check(alloc: Global, cnf: &Cnf, derivation: &Derivation) -> Result<bool, NoMemory>
    requires within { All (AreBelow cnf.now.vars) cnf.now.store }
    ensures refutes { IfOk result (λ yes. IsTrue yes ↔ IsRefutation cnf.now.vars cnf.now.store derivation.now.steps) }
    ensures sound { IfOk result (λ yes. IsTrue yes → IsUnsatisfiable cnf.now.store) }
{
    let mut owned = vec![in alloc; 0usize; cnf.vars as usize * 2]?;
    Ok(refutes(
        &mut owned,
        cnf.vars,
        &cnf.store,
        derivation.steps.as_slice(),
    ))
}

/// Whether the steps refute the given clauses.
fn refutes(marks: &mut [usize], vars: u32, given: &Store, steps: &[Derived]) -> bool
    requires sized { length marks.old ≡ 2 * vars }
    requires unmarked { All (λ x. x ≤ 0) marks.old }
    requires below { All (AreBelow vars) given.now }
    ensures { IsTrue result ↔ IsRefutation vars given.now steps.now }
{
    for i in 0..steps.len() {
        if !is_step(marks, i + 1, vars, given, &steps[..i], &steps[i]) {
            return false;
        }
    }
    ends_empty(steps)
}

/// Whether there is a step, and the last one's clause is empty.
fn ends_empty(steps: &[Derived]) -> bool
    ensures { IsTrue result ↔ ((0 < length steps.now) × EndsEmpty steps.now) }
{
    match steps.last() {
        None => false,
        Some(step) => step.clause.len() == 0,
    }
}

// Goals that become clauses.
ghost use Rattle.std.specs.Prelude.{◌≡◌, ◌+◌, ◌<◌, ◌≤◌, ◌^◌, false, true, length, sum, slice_index_or, IfOk, MatchOption};
ghost use Rattle.std.specs.List.{All};
ghost use Rattle.stk_clauses.specs.Literals.{AreBelow, Satisfies};
ghost use Rattle.stk_clauses.specs.Derivations.{IsRefutation};
ghost use Rattle.stk_terms.specs.Values.{width_at};
ghost use Rattle.stk_terms.specs.Cost.{cost};
ghost use Rattle.stk_goal_clauses.specs.Standing.{StandsForGoal, IsWithinBound};
ghost use Rattle.stk_goal_clauses.specs.Laws.{MakesOne, IsNever};
ghost use Rattle.stk_query.specs.Verdicts.{IsVerdict};

use crate::{MOST_BUDGET, Verdict};
use std::alloc::Global;
use stk_base::{Bits, NoMemory};
use stk_check::check;
use stk_clauses::{Cnf, Derivation};
use stk_goal_clauses::{clauses_for, residues_from};
use stk_solver::{Answer, solve};
use stk_terms::{Residues, TermId, Terms, input_bits};

/// The inputs that values which satisfy the clauses of a goal are.
fn start_of(
    alloc: Global,
    terms: &Terms,
    goal: TermId,
    cnf: &Cnf,
    values: &Bits,
) -> Result<Residues, NoMemory>
    requires stands { StandsForGoal terms.now goal.0 cnf.now }
    requires each { length values.now.bits ≡ cnf.now.vars }
    requires satisfied { Satisfies (λ v. slice_index_or values.now.bits v false) cnf.now.store }
    ensures { IfOk result (λ r. MakesOne terms.now goal.0 r.numbers) }
{
    // The contract alone reads the goal and the clauses.
    let _ = goal;
    let _ = cnf;
    // For the prover: the terms keep their facts.
    let _ = terms.count();
    let residues = residues_from(alloc, terms.widths(), values.bits.as_slice())?;
    Ok(residues)
}

/// The derivation where `check` accepts it on the clauses, and `None` where it doesn't.
fn accepted(
    alloc: Global,
    cnf: &Cnf,
    derivation: Derivation,
) -> Result<Option<Derivation>, NoMemory>
    requires { All (AreBelow cnf.now.vars) cnf.now.store }
    ensures { IfOk result (λ r. MatchOption r (IsRefutation cnf.now.vars cnf.now.store derivation.steps → ⊥) (λ d. (d ≡ derivation) × IsRefutation cnf.now.vars cnf.now.store d.steps)) }
{
    if check(alloc, cnf, &derivation)? {
        Ok(Some(derivation))
    } else {
        Ok(None)
    }
}

// Of inputs of so many bits or fewer all are tried at once.
const QUICK_BITS: u32 = 12;

// How many clauses a search may learn in front of a trial of all inputs.
const FEW_CLAUSES: u32 = 50;

/// Whether a short search refutes the clauses of a goal, so that no inputs make it 1. Where inputs have so few bits that
/// trying all of them takes no longer, nothing is searched.
pub(crate) fn is_refuted(
    alloc: Global,
    terms: &Terms,
    goal: TermId,
    budget: u32,
) -> Result<bool, NoMemory>
    requires exists { goal.0 < length terms.now.terms }
    requires one { width_at terms.now goal.0 ≡ 1 }
    requires most { budget ≤ MOST_BUDGET }
    requires room { sum terms.now.inputs + cost terms.now goal.0 < 2 ^ 29 }
    ensures { IfOk result (λ b. b ≡ true → IsNever terms.now goal.0) }
{
    if input_bits(terms) <= QUICK_BITS {
        return Ok(false);
    }
    let cnf = clauses_for(alloc, terms, goal)?;
    let answer = solve(alloc, &cnf, budget.min(FEW_CLAUSES))?;
    match answer {
        Answer::Refuted(derivation) => {
            let found = accepted(alloc, &cnf, derivation)?;
            Ok(found.is_some())
        }
        Answer::Satisfied(_) | Answer::Spent(_) => Ok(false),
    }
}

/// The verdict on a goal whose inputs have more than 16 bits, by a search of clauses that stand for it: a refutation is
/// passed to `check` before it is answered.
pub(crate) fn searched(
    alloc: Global,
    terms: &Terms,
    goal: TermId,
    cnf: Cnf,
    budget: u32,
) -> Result<Verdict, NoMemory>
    requires exists { goal.0 < length terms.now.terms }
    requires most { budget ≤ MOST_BUDGET }
    requires room { sum terms.now.inputs + cost terms.now goal.0 < 2 ^ 29 }
    requires wide { 16 < sum terms.now.inputs }
    requires stands { StandsForGoal terms.now goal.0 cnf }
    requires within { IsWithinBound terms.now goal.0 cnf }
    ensures { IfOk result (IsVerdict terms.now goal.0 budget) }
{
    match solve(alloc, &cnf, budget)? {
        Answer::Satisfied(values) => {
            let residues = start_of(alloc, terms, goal, &cnf, &values)?;
            Ok(Verdict::Satisfied(residues))
        }
        Answer::Refuted(derivation) => match accepted(alloc, &cnf, derivation)? {
            Some(derivation) => Ok(Verdict::Refuted(cnf, derivation)),
            None => unreachable!(),
        },
        Answer::Spent(log) => Ok(Verdict::Undecided(cnf, log)),
    }
}

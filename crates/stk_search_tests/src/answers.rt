//! What a search answers, in short.
use std::alloc::Global;
use stk_base::NoMemory;
use stk_check::check;
use stk_clauses::{Cnf, Lit, Store, are_distinct};
use stk_solver::{Answer, solve};

/// What was answered, and whether it is as it should be: values that satisfy the clauses, or a derivation that the
/// check accepts. A spent log has its number of steps.
#[derive(Clone, Copy, Debug, PartialEq, Eq)]
pub(crate) enum Outcome {
    Satisfied { good: bool },
    Refuted { steps: usize, good: bool },
    Spent { steps: usize },
    Refused,
}

/// Appends the clause of these numbers, if no literal stands twice.
fn put(alloc: Global, store: &mut Store, numbers: &[u32]) -> Result<(), NoMemory> {
    let mut clause = Vec::new(alloc);
    for number in numbers {
        clause.push(Lit(*number))?;
    }
    if store.count() < 1_000_000 && are_distinct(&clause) {
        store.push(&clause)?;
    }
    Ok(())
}

/// The clauses of these numbers.
pub(crate) fn listed(alloc: Global, vars: u32, clauses: &[&[u32]]) -> Result<Cnf, NoMemory> {
    let mut store = Store::new(alloc);
    for numbers in clauses {
        put(alloc, &mut store, numbers)?;
    }
    Ok(Cnf { vars, store })
}

/// Clauses by which each of so many variables, below 2^20, implies the next one, and the last one the negation of the
/// first.
pub(crate) fn ladder(alloc: Global, vars: u32) -> Result<Cnf, NoMemory> {
    let mut store = Store::new(alloc);
    for variable in 1..vars {
        if variable < 1_048_576 {
            put(alloc, &mut store, &[2 * variable - 1, 2 * variable])?;
            put(alloc, &mut store, &[2 * variable - 2, 2 * variable])?;
        }
    }
    Ok(Cnf { vars, store })
}

/// Whether a literal of the clause is true.
fn is_true(clause: &[Lit], values: &[bool]) -> bool {
    for lit in clause {
        let variable = lit.variable() as usize;
        if variable < values.len() && values[variable] != lit.is_negated() {
            return true;
        }
    }
    false
}

/// Whether a literal of each clause is true.
fn are_true(store: &Store, values: &[bool]) -> bool {
    for id in 0..store.count() {
        if !is_true(store.clause(id), values) {
            return false;
        }
    }
    true
}

/// What the search answers of these clauses.
pub(crate) fn answered(alloc: Global, cnf: &Cnf, budget: u32) -> Result<Outcome, NoMemory> {
    let small = cnf.vars < 1 << 31 && cnf.store.count() <= 1_000_000 && budget <= 200_000;
    if !cnf.is_within() || !small {
        return Ok(Outcome::Refused);
    }
    match solve(alloc, cnf, budget)? {
        Answer::Satisfied(values) => {
            let good = are_true(&cnf.store, values.bits.as_slice());
            Ok(Outcome::Satisfied { good })
        }
        Answer::Refuted(derivation) => {
            let good = check(alloc, cnf, &derivation)?;
            let steps = derivation.steps.len();
            Ok(Outcome::Refuted { steps, good })
        }
        Answer::Spent(log) => Ok(Outcome::Spent {
            steps: log.steps.len(),
        }),
    }
}

//! The definitions of steps and of spent logs as plain programs: unit propagation goes over all clauses again and
//! again.
use std::alloc::Global;
use stk_base::NoMemory;
use stk_clauses::{Cnf, Derivation, Derived, Lit, Store, are_distinct};

/// What is known of a variable.
#[derive(Clone, Copy, PartialEq, Eq)]
enum Value {
    Open,
    True,
    False,
}

/// What a clause is.
#[derive(Clone, Copy)]
enum Seen {
    Falsified,
    Unit(Lit),
    Quiet,
}

/// The value of a literal.
fn value_of(values: &[Value], lit: Lit) -> Value {
    let variable = lit.variable() as usize;
    if variable >= values.len() {
        return Value::Open;
    }
    match (values[variable], lit.is_negated()) {
        (Value::Open, _) => Value::Open,
        (Value::True, false) | (Value::False, true) => Value::True,
        _ => Value::False,
    }
}

/// Makes a literal true.
fn make_true(values: &mut [Value], lit: Lit) {
    let variable = lit.variable() as usize;
    if variable < values.len() {
        values[variable] = if lit.is_negated() {
            Value::False
        } else {
            Value::True
        };
    }
}

/// What the clause is under these values.
fn look(values: &[Value], clause: &[Lit]) -> Seen {
    let mut open = None;
    let mut count = 0u32;
    for lit in clause {
        match value_of(values, *lit) {
            Value::True => return Seen::Quiet,
            Value::Open => {
                open = Some(*lit);
                count = count.wrapping_add(1);
            }
            Value::False => {}
        }
    }
    match open {
        None => Seen::Falsified,
        Some(lit) => {
            if count == 1 {
                Seen::Unit(lit)
            } else {
                Seen::Quiet
            }
        }
    }
}

/// One pass over the clauses: whether a literal was made true, and whether a clause is falsified.
fn pass(store: &Store, values: &mut [Value]) -> (bool, bool) {
    let mut changed = false;
    for id in 0..store.count() {
        match look(values, store.clause(id)) {
            Seen::Falsified => return (changed, true),
            Seen::Unit(lit) => {
                make_true(values, lit);
                changed = true;
            }
            Seen::Quiet => {}
        }
    }
    (changed, false)
}

/// Unit propagation to its end: whether a clause is falsified.
fn falsifies(store: &Store, values: &mut [Value]) -> bool {
    for _turn in 0..values.len() {
        let (changed, falsified) = pass(store, values);
        if falsified {
            return true;
        }
        if !changed {
            return false;
        }
    }
    false
}

/// Whether the clause is new: propagation with its other literals false leaves one of its literals open, and falsifies
/// nothing.
fn is_new(alloc: Global, store: &Store, vars: u32, clause: &[Lit]) -> Result<bool, NoMemory> {
    for at in 0..clause.len() {
        let mut values = vec![in alloc; Value::Open; vars as usize]?;
        for other in 0..clause.len() {
            if other != at {
                make_true(&mut values, clause[other].negated());
            }
        }
        if !falsifies(store, &mut values) && value_of(&values, clause[at]) == Value::Open {
            return Ok(true);
        }
    }
    Ok(false)
}

/// Whether the step is by its hints: with its literals false, each hint but the last makes one literal true, and the
/// last is falsified.
fn is_by_hints(alloc: Global, store: &Store, vars: u32, step: &Derived) -> Result<bool, NoMemory> {
    let mut values = vec![in alloc; Value::Open; vars as usize]?;
    for lit in step.clause.as_slice() {
        make_true(&mut values, lit.negated());
    }
    let hints = step.hints.as_slice();
    for at in 0..hints.len() {
        if hints[at] >= store.count() {
            return Ok(false);
        }
        match look(&values, store.clause(hints[at])) {
            Seen::Falsified => return Ok(at + 1 == hints.len()),
            Seen::Unit(lit) => make_true(&mut values, lit),
            Seen::Quiet => return Ok(false),
        }
    }
    Ok(false)
}

/// Appends a clause, if no literal stands in it twice.
fn put(store: &mut Store, clause: &[Lit]) -> Result<(), NoMemory> {
    if store.count() < 1_000_000 && are_distinct(clause) {
        store.push(clause)?;
    }
    Ok(())
}

/// Whether the log is spent: each step is by its hints and new, and propagation from all clauses alone falsifies none.
pub(crate) fn is_spent(alloc: Global, cnf: &Cnf, log: &Derivation) -> Result<bool, NoMemory> {
    let mut store = Store::new(alloc);
    for id in 0..cnf.store.count() {
        put(&mut store, cnf.store.clause(id))?;
    }
    for step in log.steps.as_slice() {
        let clause = step.clause.as_slice();
        if !is_by_hints(alloc, &store, cnf.vars, step)?
            || !is_new(alloc, &store, cnf.vars, clause)?
        {
            return Ok(false);
        }
        put(&mut store, clause)?;
    }
    let mut values = vec![in alloc; Value::Open; cnf.vars as usize]?;
    Ok(!falsifies(&store, &mut values))
}

/// Whether the clauses have the shape of a goal's: at least one variable for each input bit, at most three clauses for
/// each further one and one more, of at most three literals over these variables.
pub(crate) fn is_shaped(cnf: &Cnf, bits: u32) -> bool {
    if cnf.vars < bits || !cnf.is_within() {
        return false;
    }
    for id in 0..cnf.store.count() {
        if cnf.store.clause(id).len() > 3 {
            return false;
        }
    }
    u64::from(cnf.store.count()) <= 3 * u64::from(cnf.vars - bits) + 1
}

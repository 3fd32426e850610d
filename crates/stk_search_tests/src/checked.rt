// Derivations that are by their hints, and such as aren't. A literal is 2 times its variable, plus 1 if negated.
use std::alloc::Global;
use std::test::Fail;
use stk_base::{List, NoMemory};
use stk_check::check;
use stk_clauses::{Cnf, Derivation, Derived, Lit, Store, are_distinct};

struct Case {
    given: &'static [&'static [u32]],
    steps: &'static [(&'static [u32], &'static [u32])],
    refutes: bool,
}

static EIGHT: [&[u32]; 8] = [
    &[0, 2, 4],
    &[0, 2, 5],
    &[0, 3, 4],
    &[0, 3, 5],
    &[1, 2, 4],
    &[1, 2, 5],
    &[1, 3, 4],
    &[1, 3, 5],
];

static TABLE: [Case; 17] = [
    Case {
        given: &[&[0], &[1]],
        steps: &[(&[], &[0, 1])],
        refutes: true,
    },
    // a hint is missing; a hint names the step itself, a later one; a hint stands behind the falsified one
    Case {
        given: &[&[0], &[1]],
        steps: &[(&[], &[1])],
        refutes: false,
    },
    Case {
        given: &[&[0], &[1]],
        steps: &[(&[], &[0, 2])],
        refutes: false,
    },
    Case {
        given: &[&[0], &[1]],
        steps: &[(&[], &[0, 3]), (&[], &[0, 1])],
        refutes: false,
    },
    Case {
        given: &[&[0], &[1]],
        steps: &[(&[], &[0, 1, 1])],
        refutes: false,
    },
    // a hint whose literal is true already
    Case {
        given: &[&[0], &[1]],
        steps: &[(&[], &[0, 0, 1])],
        refutes: false,
    },
    // no step, no hint, a number far off
    Case {
        given: &[&[0], &[1]],
        steps: &[],
        refutes: false,
    },
    Case {
        given: &[&[0], &[1]],
        steps: &[(&[], &[])],
        refutes: false,
    },
    Case {
        given: &[&[0], &[1]],
        steps: &[(&[], &[0, 4294967295])],
        refutes: false,
    },
    // a hint that is unit, and one that isn't
    Case {
        given: &[&[0, 2], &[1], &[3]],
        steps: &[(&[], &[1, 0, 2])],
        refutes: true,
    },
    Case {
        given: &[&[0, 2], &[1], &[3]],
        steps: &[(&[], &[0, 1, 2])],
        refutes: false,
    },
    // the given empty clause
    Case {
        given: &[&[]],
        steps: &[(&[], &[0])],
        refutes: true,
    },
    // the last clause isn't empty
    Case {
        given: &[&[0], &[1]],
        steps: &[(&[0], &[0])],
        refutes: false,
    },
    Case {
        given: &[&[0], &[1]],
        steps: &[(&[], &[0, 1]), (&[0], &[0])],
        refutes: false,
    },
    // equal literals count once; a literal stands beside its negation; a variable is out of range
    Case {
        given: &[&[0], &[1]],
        steps: &[(&[0, 0], &[0]), (&[], &[2, 1])],
        refutes: true,
    },
    Case {
        given: &[&[0], &[1]],
        steps: &[(&[0, 1], &[0]), (&[], &[0, 1])],
        refutes: false,
    },
    Case {
        given: &[&[0], &[1]],
        steps: &[(&[0, 6], &[0]), (&[], &[0, 1])],
        refutes: false,
    },
];

/// Steps over the eight clauses of three variables: a refutation; it without its last step; and with the first hint of
/// a step replaced by the step's own number.
static LONG: [&[(&[u32], &[u32])]; 6] = [
    &[
        (&[0, 2], &[0, 1]),
        (&[0], &[8, 2, 3]),
        (&[1, 2], &[4, 5]),
        (&[], &[9, 10, 6, 7]),
    ],
    &[(&[0, 2], &[0, 1]), (&[0], &[8, 2, 3]), (&[1, 2], &[4, 5])],
    &[
        (&[0, 2], &[8, 1]),
        (&[0], &[8, 2, 3]),
        (&[1, 2], &[4, 5]),
        (&[], &[9, 10, 6, 7]),
    ],
    &[
        (&[0, 2], &[0, 1]),
        (&[0], &[9, 2, 3]),
        (&[1, 2], &[4, 5]),
        (&[], &[9, 10, 6, 7]),
    ],
    &[
        (&[0, 2], &[0, 1]),
        (&[0], &[8, 2, 3]),
        (&[1, 2], &[10, 5]),
        (&[], &[9, 10, 6, 7]),
    ],
    &[
        (&[0, 2], &[0, 1]),
        (&[0], &[8, 2, 3]),
        (&[1, 2], &[4, 5]),
        (&[], &[11, 10, 6, 7]),
    ],
];

fn clause_of(alloc: Global, numbers: &[u32]) -> Result<Vec<Lit>, NoMemory> {
    let mut clause = Vec::new(alloc);
    for number in numbers {
        clause.push(Lit(*number))?;
    }
    Ok(clause)
}

/// The clauses of these numbers, over three variables.
fn cnf_of(alloc: Global, given: &[&[u32]]) -> Result<Cnf, NoMemory> {
    let mut store = Store::new(alloc);
    for numbers in given {
        let clause = clause_of(alloc, numbers)?;
        if store.count() < 1000 && are_distinct(&clause) {
            store.push(&clause)?;
        }
    }
    Ok(Cnf { vars: 3, store })
}

fn derivation_of(alloc: Global, steps: &[(&[u32], &[u32])]) -> Result<Derivation, NoMemory> {
    let mut list = Vec::new(alloc);
    for (clause, hints) in steps {
        let clause = List::from_vec(clause_of(alloc, clause)?);
        let hints = List::from_vec(hints.to_vec(alloc)?);
        list.push(Derived { clause, hints })?;
    }
    Ok(Derivation {
        steps: List::from_vec(list),
    })
}

fn answer_of(
    alloc: Global,
    given: &[&[u32]],
    steps: &[(&[u32], &[u32])],
) -> Result<bool, NoMemory> {
    let cnf = cnf_of(alloc, given)?;
    let derivation = derivation_of(alloc, steps)?;
    if cnf.is_within() {
        check(alloc, &cnf, &derivation)
    } else {
        Err(NoMemory)
    }
}

#[test]
fn derivations_are_by_their_hints(rt: HostRuntime) -> Result<(), Fail> {
    let mut number = 0u32;
    for case in &TABLE {
        let answer = answer_of(rt.alloc(), case.given, case.steps);
        assert!(rt; answer == Ok(case.refutes), "{number}");
        number = number.wrapping_add(1);
    }
    Ok(())
}

#[test]
fn steps_lead_to_steps(rt: HostRuntime) -> Result<(), Fail> {
    let mut first = true;
    for steps in &LONG {
        let answer = answer_of(rt.alloc(), &EIGHT, steps);
        assert!(rt; answer == Ok(first));
        first = false;
    }
    Ok(())
}

// A literal is 2 times its variable, plus 1 if negated.
use crate::answers::{Outcome, answered, ladder, listed};
use std::test::Fail;

struct Case {
    vars: u32,
    clauses: &'static [&'static [u32]],
    budget: u32,
    outcome: Outcome,
}

static TABLE: [Case; 13] = [
    // no clause, without and with variables; the empty clause; a unit clause
    Case {
        vars: 0,
        clauses: &[],
        budget: 1,
        outcome: Outcome::Satisfied { good: true },
    },
    Case {
        vars: 3,
        clauses: &[],
        budget: 1,
        outcome: Outcome::Satisfied { good: true },
    },
    Case {
        vars: 0,
        clauses: &[&[]],
        budget: 1,
        outcome: Outcome::Refuted {
            steps: 1,
            good: true,
        },
    },
    Case {
        vars: 1,
        clauses: &[&[0]],
        budget: 1,
        outcome: Outcome::Satisfied { good: true },
    },
    // units that contradict each other, as they stand and by propagation
    Case {
        vars: 1,
        clauses: &[&[0], &[1]],
        budget: 1,
        outcome: Outcome::Refuted {
            steps: 1,
            good: true,
        },
    },
    Case {
        vars: 2,
        clauses: &[&[0], &[1, 2], &[3, 1]],
        budget: 1,
        outcome: Outcome::Refuted {
            steps: 1,
            good: true,
        },
    },
    // equal clauses, and a clause with a literal and its negation
    Case {
        vars: 2,
        clauses: &[&[0, 2], &[0, 2], &[2, 0], &[1, 3], &[1, 3]],
        budget: 9,
        outcome: Outcome::Satisfied { good: true },
    },
    Case {
        vars: 2,
        clauses: &[&[0, 1], &[2, 3, 0], &[1]],
        budget: 9,
        outcome: Outcome::Satisfied { good: true },
    },
    // all clauses over three variables, with a budget of too few, and of enough
    Case {
        vars: 3,
        clauses: &[
            &[0, 2, 4],
            &[0, 2, 5],
            &[0, 3, 4],
            &[0, 3, 5],
            &[1, 2, 4],
            &[1, 2, 5],
            &[1, 3, 4],
            &[1, 3, 5],
        ],
        budget: 1,
        outcome: Outcome::Spent { steps: 1 },
    },
    Case {
        vars: 3,
        clauses: &[
            &[0, 2, 4],
            &[0, 2, 5],
            &[0, 3, 4],
            &[0, 3, 5],
            &[1, 2, 4],
            &[1, 2, 5],
            &[1, 3, 4],
            &[1, 3, 5],
        ],
        budget: 2,
        outcome: Outcome::Spent { steps: 2 },
    },
    Case {
        vars: 3,
        clauses: &[
            &[0, 2, 4],
            &[0, 2, 5],
            &[0, 3, 4],
            &[0, 3, 5],
            &[1, 2, 4],
            &[1, 2, 5],
            &[1, 3, 4],
            &[1, 3, 5],
        ],
        budget: 3,
        outcome: Outcome::Refuted {
            steps: 4,
            good: true,
        },
    },
    // three pigeons in two holes: pigeon p in hole h is the variable 2 p + h
    Case {
        vars: 6,
        clauses: &[
            &[0, 2],
            &[4, 6],
            &[8, 10],
            &[1, 5],
            &[1, 9],
            &[5, 9],
            &[3, 7],
            &[3, 11],
            &[7, 11],
        ],
        budget: 0,
        outcome: Outcome::Spent { steps: 0 },
    },
    // a variable that is out of range
    Case {
        vars: 1,
        clauses: &[&[2]],
        budget: 1,
        outcome: Outcome::Refused,
    },
];

#[test]
fn small_lists_have_their_answers(rt: HostRuntime) -> Result<(), Fail> {
    let mut number = 0u32;
    for case in &TABLE {
        let Ok(cnf) = listed(rt.alloc(), case.vars, case.clauses) else {
            assert!(rt; false);
            return Ok(());
        };
        let answer = answered(rt.alloc(), &cnf, case.budget);
        assert!(rt; answer == Ok(case.outcome), "{number}");
        number = number.wrapping_add(1);
    }
    Ok(())
}

#[test]
fn a_long_list_is_satisfied(rt: HostRuntime) -> Result<(), Fail> {
    let Ok(cnf) = ladder(rt.alloc(), 10_000) else {
        assert!(rt; false);
        return Ok(());
    };
    let answer = answered(rt.alloc(), &cnf, 200_000);
    assert!(rt; answer == Ok(Outcome::Satisfied { good: true }));
    Ok(())
}

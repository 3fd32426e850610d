// A literal is 2 times its variable, plus 1 if negated.
use crate::steps::{
    NONE, Row, add, chain_length, first_of, goes_back, hand_over, holds, told, with_one,
};
use std::test::Fail;
use stk_propagate::Assignment;

static ROWS: [Row; 9] = [
    // (a), (not a or b)
    Row {
        clauses: &[&[0], &[1, 2]],
        assumed: &[],
        found: NONE,
        literals: &[0, 2],
        reasons: &[0, 1],
    },
    // and (not b)
    Row {
        clauses: &[&[0], &[1, 2], &[3]],
        assumed: &[],
        found: 2,
        literals: &[0, 2],
        reasons: &[0, 1],
    },
    Row {
        clauses: &[&[3], &[1, 2], &[0]],
        assumed: &[],
        found: 2,
        literals: &[3, 1],
        reasons: &[0, 1],
    },
    // the empty clause; no clause
    Row {
        clauses: &[&[]],
        assumed: &[],
        found: 0,
        literals: &[],
        reasons: &[],
    },
    Row {
        clauses: &[],
        assumed: &[5],
        found: NONE,
        literals: &[5],
        reasons: &[NONE],
    },
    // each literal forces the next one
    Row {
        clauses: &[&[1, 2], &[3, 4], &[5, 6]],
        assumed: &[0],
        found: NONE,
        literals: &[0, 2, 4, 6],
        reasons: &[NONE, 0, 1, 2],
    },
    // the last literal of four
    Row {
        clauses: &[&[1, 3, 5, 6]],
        assumed: &[0, 2, 4],
        found: NONE,
        literals: &[0, 2, 4, 6],
        reasons: &[NONE, NONE, NONE, 0],
    },
    // a true literal keeps a clause quiet
    Row {
        clauses: &[&[1, 3, 4], &[0, 6]],
        assumed: &[4, 0, 2],
        found: NONE,
        literals: &[4, 0, 2],
        reasons: &[NONE, NONE, NONE],
    },
    // two clauses force a literal and its negation
    Row {
        clauses: &[&[1, 3, 4], &[1, 3, 5]],
        assumed: &[0, 2],
        found: 0,
        literals: &[0, 2, 5],
        reasons: &[NONE, NONE, 1],
    },
];

#[test]
fn propagation_finds_what_is_forced(rt: HostRuntime) -> Result<(), Fail> {
    for row in &ROWS {
        let Ok(held) = holds(rt.alloc(), row) else {
            assert!(rt; false);
            return Ok(());
        };
        assert!(rt; held);
    }
    Ok(())
}

#[test]
fn other_literals_are_forced_after_going_back(rt: HostRuntime) -> Result<(), Fail> {
    let Ok(right) = goes_back(rt.alloc()) else {
        assert!(rt; false);
        return Ok(());
    };
    assert!(rt; right);
    Ok(())
}

#[test]
fn a_long_chain_of_clauses_is_propagated(rt: HostRuntime) -> Result<(), Fail> {
    let Ok(length) = chain_length(rt.alloc(), 1000000) else {
        assert!(rt; false);
        return Ok(());
    };
    assert_eq!(rt; length, 1000001);
    Ok(())
}

#[test]
fn true_literals_have_a_place_and_a_reason(rt: HostRuntime) -> Result<(), Fail> {
    let Ok(mut assigned) = Assignment::reserve(rt.alloc(), 3) else {
        assert!(rt; false);
        return Ok(());
    };
    assert!(rt; add(&mut assigned, 5, Some(7)) && add(&mut assigned, 0, None));
    assert!(rt;
        !add(&mut assigned, 4, None)
            && !add(&mut assigned, 0, Some(1))
            && !add(&mut assigned, 6, None)
    );
    assert_eq!(rt; told(&assigned, 5), (1, 0, 7));
    assert_eq!(rt; told(&assigned, 4), (0, 99, NONE));
    assert_eq!(rt; told(&assigned, 0), (1, 1, NONE));
    assert_eq!(rt; told(&assigned, 2), (NONE, 99, NONE));
    assigned.cut_to(1);
    assert_eq!(rt; told(&assigned, 5), (1, 0, 7));
    assert_eq!(rt; told(&assigned, 1), (NONE, 99, NONE));
    assert_eq!(rt; assigned.literals().len(), 1);
    assert_eq!(rt; assigned.reasons().len(), 1);
    assert!(rt; add(&mut assigned, 1, Some(3)));
    assert_eq!(rt; told(&assigned, 0), (0, 99, NONE));
    Ok(())
}

#[test]
fn numbers_are_handed_from_chain_to_chain(rt: HostRuntime) -> Result<(), Fail> {
    let Ok(mut chains) = with_one(rt.alloc()) else {
        assert!(rt; false);
        return Ok(());
    };
    assert_eq!(rt; hand_over(&mut chains, 1, 2), NONE);
    assert_eq!(rt; hand_over(&mut chains, 0, 2), 0);
    assert_eq!(rt; first_of(&mut chains, 0), NONE);
    chains.exchange(1, 2);
    assert_eq!(rt; first_of(&mut chains, 2), NONE);
    assert_eq!(rt; first_of(&mut chains, 1), 0);
    assert_eq!(rt; first_of(&mut chains, 1), NONE);
    Ok(())
}

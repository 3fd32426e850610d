//! Terms over inputs of 8 and 64 bits: where they stand, what they are, and on which others they depend.
use crate::making_terms::made;
use std::alloc::Global;
use std::process::Abort;
use std::test::Fail;
use stk_base::{List, NoMemory};
use stk_terms::{Residues, TermId, TermOp, Terms};

// Terms in the order in which they are made, and the place of each; one that was made before keeps its place.
static MADE: [(TermOp, &[TermId], usize); 14] = [
    (TermOp::Input(0), &[], 0),
    (TermOp::Input(1), &[], 1),
    (TermOp::Extract(0, 8), &[TermId(1)], 2),
    (TermOp::Add, &[TermId(0), TermId(2)], 3),
    (TermOp::Input(0), &[], 0),
    (TermOp::Add, &[TermId(0), TermId(2)], 3),
    (TermOp::Add, &[TermId(2), TermId(0)], 4),
    (TermOp::Constant(8, 44), &[], 5),
    (TermOp::Eq, &[TermId(3), TermId(5)], 6),
    (TermOp::Constant(8, 44), &[], 5),
    (TermOp::Concat, &[TermId(0), TermId(1)], 7),
    (TermOp::Ite, &[TermId(6), TermId(0), TermId(2)], 8),
    (TermOp::Ite, &[TermId(6), TermId(2), TermId(0)], 9),
    (TermOp::SignExt(64), &[TermId(0)], 10),
];

// A place with the width and the number of its term, for the residues 200 and 100.
static VALUES: [(usize, u8, u128); 9] = [
    (1, 64, 100),
    (2, 8, 100),
    (3, 8, 44),
    (5, 8, 44),
    (6, 1, 1),
    (7, 72, (200 << 64) + 100),
    (8, 8, 200),
    (9, 8, 100),
    (10, 64, 0xffff_ffff_ffff_ffc8),
];

// A place, and for each term up to it whether this one depends on it.
static PARTS: [(usize, &[bool]); 3] = [
    (2, &[false, true, true]),
    (3, &[true, true, true, true]),
    (7, &[true, true, false, false, false, false, false, true]),
];

// Terms that can't be made.
static NOT_MADE: [(TermOp, &[TermId]); 6] = [
    (TermOp::Add, &[TermId(0), TermId(1)]),
    (TermOp::Add, &[TermId(0)]),
    (TermOp::Input(2), &[]),
    (TermOp::Constant(8, 256), &[]),
    (TermOp::Not, &[TermId(11)]),
    (TermOp::Extract(1, 8), &[TermId(0)]),
];

// Makes the terms of the table.
fn make_all(rt: &impl Abort, terms: &mut Terms) -> Result<(), NoMemory> {
    for (op, args, place) in &MADE {
        assert_eq!(rt; made(rt, terms, *op, args)?, TermId(*place));
    }
    Ok(())
}

// The store with the terms of the table.
fn all_made(rt: &impl Abort, alloc: Global) -> Result<Terms, NoMemory> {
    let widths = vec![in alloc; 8, 64]?;
    let mut terms = Terms::new(alloc, List::from_vec(widths));
    make_all(rt, &mut terms)?;
    Ok(terms)
}

// The terms have their widths and their numbers.
fn have_values(rt: &impl Abort, terms: &Terms, residues: &Residues) -> Result<(), Fail> {
    for (place, width, value) in &VALUES {
        let id = TermId(*place);
        assert!(rt; id.0 < terms.count());
        assert!(rt; terms.has_residues(residues));
        assert_eq!(rt;
            (terms.width(id), terms.value(id, residues)?),
            (*width, *value)
        );
    }
    Ok(())
}

// The terms depend on their parts.
fn have_parts(rt: &impl Abort, terms: &Terms) -> Result<(), Fail> {
    for (place, parts) in &PARTS {
        let id = TermId(*place);
        assert!(rt; id.0 < terms.count());
        assert_eq!(rt; terms.parts(id)?.as_slice(), *parts);
    }
    Ok(())
}

// The terms have their operators and arguments.
fn have_arguments(rt: &impl Abort, terms: &Terms) {
    for (op, args, place) in &MADE {
        let id = TermId(*place);
        assert!(rt; id.0 < terms.count());
        assert_eq!(rt; terms.op(id), *op);
        assert_eq!(rt; terms.args(id), *args);
    }
}

// The other terms can't be made.
fn lack_others(rt: &impl Abort, terms: &Terms) {
    for (op, args) in &NOT_MADE {
        assert!(rt; !terms.can_make(*op, args), "{op:?}");
    }
}

// These are all terms of the store, over two inputs.
fn are_all(rt: &impl Abort, terms: &Terms) {
    assert_eq!(rt; terms.count(), 11);
    have_arguments(rt, terms);
    lack_others(rt, terms);
    assert_eq!(rt; terms.widths(), [8, 64].as_slice());
}

#[test]
fn values_of_terms(rt: HostRuntime) -> Result<(), Fail> {
    let numbers = vec![in rt.alloc(); 200, 100]?;
    let residues = Residues {
        numbers: List::from_vec(numbers),
    };
    let terms = all_made(&rt, rt.alloc())?;
    have_values(&rt, &terms, &residues)
}

#[test]
fn parts_of_terms(rt: HostRuntime) -> Result<(), Fail> {
    let terms = all_made(&rt, rt.alloc())?;
    have_parts(&rt, &terms)
}

#[test]
fn operators_and_arguments(rt: HostRuntime) -> Result<(), Fail> {
    let terms = all_made(&rt, rt.alloc())?;
    are_all(&rt, &terms);
    Ok(())
}

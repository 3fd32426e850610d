//! Scripts of candidates: their texts, and the goals that they are read as.

use crate::running::ran;
use std::alloc::Global;
use std::test::Fail;
use stk_base::{List, Status};
use stk_query::Cdcl;
use stk_script_reader::read_script;
use stk_terms::{Residues, TermId, Terms};

/// Words that ask for a script, the least residue of the one input for which its goal is 1, and for how many it is.
struct Row {
    words: &'static [&'static str],
    least: Option<u64>,
    count: usize,
}

// A test of a divisor behind the division, which no run finds true without a division by zero.
const INPUT: &str = "int f(unsigned char x) { int y = 10 / x; if (x == 0) return 1; return y; }";

static ROWS: [Row; 7] = [
    // always true, of the test: hit where it is false
    Row {
        words: &["--smt", "1"],
        least: Some(1),
        count: 255,
    },
    Row {
        words: &["--smt-hit=1"],
        least: Some(1),
        count: 255,
    },
    // always false: hit where it is true, which is behind the division
    Row {
        words: &["--smt", "2"],
        least: None,
        count: 0,
    },
    Row {
        words: &["--smt-hit", "2"],
        least: Some(0),
        count: 1,
    },
    // never entered, of the branch
    Row {
        words: &["--smt", "3"],
        least: None,
        count: 0,
    },
    Row {
        words: &["--smt-hit", "3"],
        least: Some(0),
        count: 1,
    },
    // the division by zero doesn't count
    Row {
        words: &["--smt", "3", "--without", "zero"],
        least: Some(0),
        count: 1,
    },
];

/// The residues of the one input, of 8 bits, for which a goal is 1; none where the terms have other inputs.
fn answers(alloc: Global, terms: &Terms, goal: TermId) -> Result<Vec<u64>, Fail> {
    let mut found = Vec::new(alloc);
    for residue in 0..256 {
        let mut numbers = Vec::new(alloc);
        numbers.push(residue)?;
        let residues = Residues {
            numbers: List::from_vec(numbers),
        };
        if goal.0 < terms.count() && terms.has_residues(&residues) {
            let value = terms.value(goal, &residues)?;
            if value == 1 {
                found.push(residue)?;
            }
        }
    }
    Ok(found)
}

/// The residues for which the goal is 1 that a text is read as; none where it is no script.
fn answers_of(alloc: Global, text: &[u8]) -> Result<Vec<u64>, Fail> {
    if text.len() > u32::MAX as usize {
        return Ok(Vec::new(alloc));
    }
    match read_script(alloc, text) {
        Ok((terms, goal)) => answers(alloc, &terms, goal),
        Err(_) => Ok(Vec::new(alloc)),
    }
}

#[test]
fn scripts_are_read_as_their_questions(rt: HostRuntime) -> Result<(), Fail> {
    for row in &ROWS {
        let mut decider = Cdcl::new(rt.alloc());
        let run = ran(rt.alloc(), row.words, INPUT, &mut decider)?;
        let found = answers_of(rt.alloc(), run.records.as_slice())?;
        assert!(rt; run.status == Status::Stable, "{:?}", row.words);
        assert!(rt; found.first().copied() == row.least, "{:?}", row.words);
        assert!(rt; found.len() == row.count, "{:?}", row.words);
    }
    Ok(())
}

// A test of a sum that wraps, and the script of whether it is ever hit: whether the sum is below its first part.
const WRAPS: &str = "int f(unsigned x) { if (x + 200 < x) return 1; return 0; }";

const WRAPS_SCRIPT: &str =
    "(set-logic QF_BV)\n(declare-fun k0 () (_ BitVec 32))\n(define-fun t3 () (_ BitVec 32) k0)\n(define-fun t4 () (_ BitVec 32) (_ bv200 32))\n(define-fun t5 () (_ BitVec 32) (bvadd t3 t4))\n(define-fun t6 () (_ BitVec 1) (ite (bvult t5 t3) (_ bv1 1) (_ bv0 1)))\n(assert (= t6 (_ bv1 1)))\n(check-sat)\n";

#[test]
fn a_script_is_written_line_by_line(rt: HostRuntime) -> Result<(), Fail> {
    let mut decider = Cdcl::new(rt.alloc());
    let run = ran(rt.alloc(), &["--smt-hit", "4"], WRAPS, &mut decider)?;
    assert!(rt; run.status == Status::Stable);
    assert!(rt; run.records.as_slice() == WRAPS_SCRIPT.as_bytes());
    Ok(())
}

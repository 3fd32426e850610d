// Terms, and the first inputs that make them 1.
ghost use Rattle.stk_terms.specs.Fitting.{AreWidths};

use std::alloc::Global;
use std::test::Fail;
use stk_base::{List, NoMemory};
use stk_terms::{Residues, TermId, TermOp, Terms, first_that, input_bits};

/// A term: its operators with their arguments, each by its place; the last one is the goal. Of the inputs those that
/// are found first, or none.
pub(crate) struct Case {
    pub(crate) steps: &'static [(TermOp, &'static [usize])],
    pub(crate) found: Option<(u64, u64)>,
}

/// Over two inputs of 8 bits, x and y.
pub(crate) static TABLE: [Case; 7] = [
    // x + 100 < x holds from 156 on
    Case {
        steps: &[
            (TermOp::Input(0), &[]),
            (TermOp::Constant(8, 100), &[]),
            (TermOp::Add, &[0, 1]),
            (TermOp::ULt, &[2, 0]),
        ],
        found: Some((156, 0)),
    },
    // x < x never holds
    Case {
        steps: &[(TermOp::Input(0), &[]), (TermOp::ULt, &[0, 0])],
        found: None,
    },
    // x = x always does
    Case {
        steps: &[(TermOp::Input(0), &[]), (TermOp::Eq, &[0, 0])],
        found: Some((0, 0)),
    },
    // x * y = 143 holds first for 1 and 143
    Case {
        steps: &[
            (TermOp::Input(0), &[]),
            (TermOp::Input(1), &[]),
            (TermOp::Mul, &[0, 1]),
            (TermOp::Constant(8, 143), &[]),
            (TermOp::Eq, &[2, 3]),
        ],
        found: Some((1, 143)),
    },
    // x = 255 and y < 1
    Case {
        steps: &[
            (TermOp::Input(0), &[]),
            (TermOp::Constant(8, 255), &[]),
            (TermOp::Eq, &[0, 1]),
            (TermOp::Input(1), &[]),
            (TermOp::Constant(8, 1), &[]),
            (TermOp::ULt, &[3, 4]),
            (TermOp::And, &[2, 5]),
        ],
        found: Some((255, 0)),
    },
    // 254 < x and 254 < y
    Case {
        steps: &[
            (TermOp::Constant(8, 254), &[]),
            (TermOp::Input(0), &[]),
            (TermOp::ULt, &[0, 1]),
            (TermOp::Input(1), &[]),
            (TermOp::ULt, &[0, 3]),
            (TermOp::And, &[2, 4]),
        ],
        found: Some((255, 255)),
    },
    // a constant
    Case {
        steps: &[(TermOp::Constant(1, 0), &[])],
        found: None,
    },
];

/// The goal of these steps, or `None` where one can't be made.
pub(crate) fn goal_of(
    alloc: Global,
    terms: &mut Terms,
    steps: &[(TermOp, &[usize])],
) -> Result<Option<TermId>, NoMemory> {
    let mut made: Vec<TermId> = Vec::new(alloc);
    for (op, places) in steps {
        let mut args = Vec::new(alloc);
        for place in *places {
            if *place < made.len() {
                args.push(made[*place])?;
            }
        }
        if !terms.can_make(*op, &args) {
            return Ok(None);
        }
        made.push(terms.make(*op, &args)?)?;
    }
    Ok(made.pop())
}

/// The numbers of two residues; none of fewer or more.
fn both(residues: &Residues) -> Option<(u64, u64)> {
    let numbers = residues.numbers.as_slice();
    if numbers.len() != 2 {
        return None;
    }
    Some((numbers[0], numbers[1]))
}

/// The first two inputs that make the goal 1, if some do; and whether it could be tried.
fn found(
    alloc: Global,
    terms: &mut Terms,
    steps: &[(TermOp, &[usize])],
) -> Result<(bool, Option<(u64, u64)>), NoMemory> {
    let Some(goal) = goal_of(alloc, terms, steps)? else {
        return Ok((false, None));
    };
    if goal.0 >= terms.count() || input_bits(terms) > 16 {
        return Ok((false, None));
    }
    let Some(residues) = first_that(alloc, terms, goal)? else {
        return Ok((true, None));
    };
    let numbers = both(&residues);
    Ok((numbers.is_some(), numbers))
}

/// As `found`, in a store of its own over two inputs of 8 bits.
fn tried(
    alloc: Global,
    steps: &[(TermOp, &[usize])],
) -> Result<(bool, Option<(u64, u64)>), NoMemory> {
    let widths = vec![in alloc; 8, 8]?;
    let mut terms = Terms::new(alloc, List::from_vec(widths));
    found(alloc, &mut terms, steps)
}

#[test]
fn the_first_inputs_are_found(rt: HostRuntime) -> Result<(), Fail> {
    let mut number = 0u32;
    for case in &TABLE {
        let answer = tried(rt.alloc(), case.steps);
        assert!(rt; answer == Ok((true, case.found)), "{number}");
        number = number.wrapping_add(1);
    }
    Ok(())
}

/// The input bits of a store over inputs of these widths.
fn bits_of(alloc: Global, widths: List<u8>) -> u32
    requires { AreWidths widths }
{
    let terms = Terms::new(alloc, widths);
    input_bits(&terms)
}

#[test]
fn inputs_of_seventeen_bits_are_too_many(rt: HostRuntime) -> Result<(), Fail> {
    let widths = vec![in rt.alloc(); 8, 9]?;
    assert_eq!(rt; bits_of(rt.alloc(), List::from_vec(widths)), 17);
    let widths = vec![in rt.alloc(); 64, 64]?;
    assert_eq!(rt; bits_of(rt.alloc(), List::from_vec(widths)), 17);
    let widths = vec![in rt.alloc(); 16]?;
    assert_eq!(rt; bits_of(rt.alloc(), List::from_vec(widths)), 16);
    Ok(())
}

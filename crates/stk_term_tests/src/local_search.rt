// Inputs that a local search finds.
ghost use Rattle.stk_terms.specs.Fitting.{AreWidths};

use crate::enumerate::{TABLE, goal_of};
use std::alloc::Global;
use std::test::Fail;
use stk_base::{List, NoMemory};
use stk_local_search::likely_residues;
use stk_terms::{TermOp, Terms};

/// Terms, each by its operator and the places of its arguments; the last one is the goal.
type Steps = &'static [(TermOp, &'static [usize])];

/// Whether inputs are found that make the last of these terms 1, if they can be made.
fn searched_in(alloc: Global, terms: &mut Terms, steps: Steps) -> Result<Option<bool>, NoMemory> {
    let Some(goal) = goal_of(alloc, terms, steps)? else {
        return Ok(None);
    };
    if goal.0 >= terms.count() {
        return Ok(None);
    }
    let found = likely_residues(alloc, terms, goal)?;
    Ok(Some(found.is_some()))
}

/// As `searched_in`, in a store of its own over inputs of these widths.
fn searched(alloc: Global, widths: List<u8>, steps: Steps) -> Result<Option<bool>, NoMemory>
    requires { AreWidths widths }
{
    let mut terms = Terms::new(alloc, widths);
    searched_in(alloc, &mut terms, steps)
}

#[test]
fn what_few_bits_have_is_found(rt: HostRuntime) -> Result<(), Fail> {
    let mut number = 0u32;
    for case in &TABLE {
        let widths = vec![in rt.alloc(); 8, 8]?;
        let answer = searched(rt.alloc(), List::from_vec(widths), case.steps);
        assert!(rt; answer == Ok(Some(case.found.is_some())), "{number}");
        number = number.wrapping_add(1);
    }
    Ok(())
}

/// Over four inputs of 32 bits, i, a, j and b.
static WIDE: [(Steps, bool); 4] = [
    // i < a, and then, with j for i and b for a, not j < b
    (
        &[
            (TermOp::Input(0), &[]),
            (TermOp::Input(1), &[]),
            (TermOp::SLt, &[0, 1]),
            (TermOp::Input(2), &[]),
            (TermOp::Ite, &[2, 3, 0]),
            (TermOp::Input(3), &[]),
            (TermOp::Ite, &[2, 5, 1]),
            (TermOp::SLt, &[4, 6]),
            (TermOp::Not, &[7]),
            (TermOp::And, &[2, 8]),
        ],
        true,
    ),
    // the same and j < b
    (
        &[
            (TermOp::Input(0), &[]),
            (TermOp::Input(1), &[]),
            (TermOp::SLt, &[0, 1]),
            (TermOp::Input(2), &[]),
            (TermOp::Ite, &[2, 3, 0]),
            (TermOp::Input(3), &[]),
            (TermOp::Ite, &[2, 5, 1]),
            (TermOp::SLt, &[4, 6]),
            (TermOp::And, &[2, 7]),
        ],
        true,
    ),
    // 1000000007 = i * a - j
    (
        &[
            (TermOp::Constant(32, 1_000_000_007), &[]),
            (TermOp::Input(0), &[]),
            (TermOp::Input(1), &[]),
            (TermOp::Mul, &[1, 2]),
            (TermOp::Input(2), &[]),
            (TermOp::Sub, &[3, 4]),
            (TermOp::Eq, &[0, 5]),
        ],
        true,
    ),
    // i < a and a < i
    (
        &[
            (TermOp::Input(0), &[]),
            (TermOp::Input(1), &[]),
            (TermOp::ULt, &[0, 1]),
            (TermOp::ULt, &[1, 0]),
            (TermOp::And, &[2, 3]),
        ],
        false,
    ),
];

#[test]
fn likely_inputs_of_many_bits_are_found(rt: HostRuntime) -> Result<(), Fail> {
    let mut number = 0u32;
    for (steps, is_found) in &WIDE {
        let widths = vec![in rt.alloc(); 32, 32, 32, 32]?;
        let answer = searched(rt.alloc(), List::from_vec(widths), *steps);
        assert!(rt; answer == Ok(Some(*is_found)), "{number}");
        number = number.wrapping_add(1);
    }
    Ok(())
}

//! Goals, and what is decided of them, in short.
//!
//! A goal is written in postfix notation: operands first, then their operator. The inputs are `x` and `y`; `200:8` is a
//! constant of 8 bits.
ghost use Rattle.std.specs.Prelude.{◌≤◌, ◌<◌, length};
ghost use Rattle.stk_rewrite.specs.Normal.{IsNormal};

use crate::plain::{is_shaped, is_spent};
use std::alloc::Global;
use stk_base::{List, NoMemory};
use stk_check::check;
use stk_clauses::{Cnf, Derivation};
use stk_cuts::cut_goal;
use stk_goal_clauses::has_room;
use stk_query::{Cdcl, Decider, MOST_BUDGET, Verdict};
use stk_rewrite::simplify;
use stk_terms::{Residues, TermId, TermOp, Terms};

/// What is said of a goal, and whether it is as it should be.
#[derive(Clone, Copy, Debug, PartialEq, Eq)]
pub(crate) enum Outcome {
    /// The numbers of x and of y; 0 where there is no y.
    First(u64, u64),
    /// Numbers for inputs of more than 16 bits, and whether the goal is 1 for them.
    Found {
        good: bool,
    },
    Tried,
    Refuted {
        good: bool,
    },
    /// The log's steps, whether list and log are good, and how many goals were given up.
    Undecided {
        steps: usize,
        good: bool,
        given_up: u64,
    },
    /// The goal can't be made or asked.
    Refused,
}

/// A store over one input, or over two.
fn store_of(alloc: Global, first: u8, second: u8) -> Result<Terms, NoMemory>
    requires least { 1 ≤ first }
    requires most { first ≤ 64 }
    requires few { second ≤ 64 }
{
    if second == 0 {
        let widths = vec![in alloc; first]?;
        return Ok(Terms::new(alloc, List::from_vec(widths)));
    }
    let widths = vec![in alloc; first, second]?;
    Ok(Terms::new(alloc, List::from_vec(widths)))
}

/// The operator of a word, and how many arguments it has.
fn operator(word: &str) -> (TermOp, usize) {
    let mut parts = word.split(':');
    let name = parts.next().unwrap_or("");
    let width = parts.next().unwrap_or("1").parse::<u8>().unwrap_or(0);
    match name.as_bytes() {
        b"x" => (TermOp::Input(0), 0),
        b"y" => (TermOp::Input(1), 0),
        b"not" => (TermOp::Not, 1),
        b"and" => (TermOp::And, 2),
        b"add" => (TermOp::Add, 2),
        b"sub" => (TermOp::Sub, 2),
        b"mul" => (TermOp::Mul, 2),
        b"udiv" => (TermOp::UDiv, 2),
        b"eq" => (TermOp::Eq, 2),
        b"ult" => (TermOp::ULt, 2),
        b"slt" => (TermOp::SLt, 2),
        b"concat" => (TermOp::Concat, 2),
        _ => (
            TermOp::Constant(width, name.parse::<u128>().unwrap_or(0)),
            0,
        ),
    }
}

/// Makes the term of a word over the last terms of the stack, and puts it in their place; whether it could be made.
fn apply(terms: &mut Terms, stack: &mut Vec<TermId>, word: &str) -> Result<bool, NoMemory> {
    let (op, count) = operator(word);
    if count > stack.len() {
        return Ok(false);
    }
    let first = stack.len() - count;
    let (_, args) = stack.as_slice().split_at(first);
    if !terms.can_make(op, args) {
        return Ok(false);
    }
    let id = terms.make(op, args)?;
    stack.truncate(first);
    stack.push(id)?;
    Ok(true)
}

/// The goal that a text says, or `None` where it can't be made.
fn goal_of(alloc: Global, terms: &mut Terms, text: &str) -> Result<Option<TermId>, NoMemory> {
    let mut stack = Vec::new(alloc);
    for word in text.split(' ') {
        if !apply(terms, &mut stack, word)? {
            return Ok(None);
        }
    }
    Ok(stack.pop())
}

/// Whether the goal is 1 for these inputs.
fn is_one(terms: &Terms, goal: TermId, residues: &Residues) -> Result<bool, NoMemory> {
    if goal.0 >= terms.count() || !terms.has_residues(residues) {
        return Ok(false);
    }
    Ok(terms.value(goal, residues)? == 1)
}

/// What inputs are in short.
fn found(terms: &Terms, goal: TermId, bits: u32, residues: &Residues) -> Result<Outcome, NoMemory> {
    if bits > 16 {
        let good = is_one(terms, goal, residues)?;
        return Ok(Outcome::Found { good });
    }
    match residues.numbers.as_slice() {
        [x] => Ok(Outcome::First(*x, 0)),
        [x, y] => Ok(Outcome::First(*x, *y)),
        _ => Ok(Outcome::Refused),
    }
}

/// Whether the clauses have their shape, and the check accepts the derivation.
fn is_refuted(
    alloc: Global,
    cnf: &Cnf,
    bits: u32,
    derivation: &Derivation,
) -> Result<bool, NoMemory> {
    if !is_shaped(cnf, bits) || !cnf.is_within() {
        return Ok(false);
    }
    check(alloc, cnf, derivation)
}

/// Whether the clauses have their shape, and the log is spent; of long lists the shape alone is looked at.
fn is_given_up(alloc: Global, cnf: &Cnf, bits: u32, log: &Derivation) -> Result<bool, NoMemory> {
    if !is_shaped(cnf, bits) {
        return Ok(false);
    }
    if cnf.vars > 10_000 {
        return Ok(true);
    }
    is_spent(alloc, cnf, log)
}

/// A verdict in short.
fn told(
    alloc: Global,
    terms: &Terms,
    goal: TermId,
    bits: u32,
    verdict: &Verdict,
    given_up: u64,
) -> Result<Outcome, NoMemory> {
    match verdict {
        Verdict::Satisfied(residues) => found(terms, goal, bits, residues),
        Verdict::Tried => Ok(Outcome::Tried),
        Verdict::Refuted(cnf, derivation) => {
            let good = is_refuted(alloc, cnf, bits, derivation)?;
            Ok(Outcome::Refuted { good })
        }
        Verdict::Undecided(cnf, log) => {
            let good = is_given_up(alloc, cnf, bits, log)?;
            Ok(Outcome::Undecided {
                steps: log.steps.len(),
                good,
                given_up,
            })
        }
    }
}

/// What a new decider says of a goal.
fn asked(
    alloc: Global,
    terms: &Terms,
    goal: TermId,
    bits: u32,
    budget: u32,
) -> Result<Outcome, NoMemory>
    requires exists { goal.0 < length terms.now.terms }
    requires normal { IsNormal terms.now goal.0 }
{
    if budget < 1 || budget > MOST_BUDGET {
        return Ok(Outcome::Refused);
    }
    if terms.width(goal) != 1 || !has_room(alloc, terms, goal)? {
        return Ok(Outcome::Refused);
    }
    let mut decider = Cdcl::new(alloc);
    let verdict = decider.ask(terms, goal, budget)?;
    told(alloc, terms, goal, bits, &verdict, decider.given_up())
}

/// What a new decider says of the goal of a text over inputs of these widths, rewritten first.
pub(crate) fn decided(
    alloc: Global,
    (first, second): (u8, u8),
    text: &str,
    budget: u32,
) -> Result<Outcome, NoMemory> {
    if first < 1 || first > 64 || second > 64 {
        return Ok(Outcome::Refused);
    }
    let mut terms = store_of(alloc, first, second)?;
    let Some(made) = goal_of(alloc, &mut terms, text)? else {
        return Ok(Outcome::Refused);
    };
    if made.0 >= terms.count() {
        return Ok(Outcome::Refused);
    }
    let goal = simplify(alloc, &mut terms, made)?;
    asked(
        alloc,
        &terms,
        goal,
        u32::from(first) + u32::from(second),
        budget,
    )
}

/// What a new decider says of the cut goal of the goal of a text, whose inputs have these bits; `Refused` where there
/// is none.
pub(crate) fn decided_cut(
    alloc: Global,
    (first, second): (u8, u8),
    text: &str,
    most: usize,
    bits: u32,
) -> Result<Outcome, NoMemory> {
    if first < 1 || first > 64 || second > 64 {
        return Ok(Outcome::Refused);
    }
    let mut terms = store_of(alloc, first, second)?;
    let Some(goal) = goal_of(alloc, &mut terms, text)? else {
        return Ok(Outcome::Refused);
    };
    if goal.0 >= terms.count() || terms.width(goal) != 1 {
        return Ok(Outcome::Refused);
    }
    let Some(cut) = cut_goal(alloc, &terms, goal, most)? else {
        return Ok(Outcome::Refused);
    };
    asked(alloc, cut.terms.terms(), cut.term, bits, 100)
}

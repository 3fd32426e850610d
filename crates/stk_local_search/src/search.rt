//! Rounds of the search.

ghost use Rattle.std.specs.Prelude.{◌≡◌, ◌<◌, IfOk, IfSome, length};
ghost use Rattle.stk_terms.specs.Fitting.{AreResidues};
ghost use Rattle.stk_terms.specs.Values.{number_at};

use crate::inverse::inverse;
use crate::targets::{Operand, Targets, Wish};
use std::alloc::Global;
use stk_base::{List, NoMemory};
use stk_terms::{Residues, TermId, TermOp, Terms, number_with};

/// How many maps are tried at most.
const MOST_ROUNDS: u32 = 12;

/// In each round whose number has this rest by 4 first arguments are changed rather than second ones.
const FIRST_CHANGES: u32 = 3;

/// A round: the terms, the places of the goal's parts in order, the numbers of these for the residues so far, and
/// whether first arguments are changed rather than second ones.
#[derive(Drop)]
struct Round<'a> {
    terms: &'a Terms,
    order: &'a [usize],
    numbers: &'a [u128],
    changes_first: bool,
}

// What an argument is in a round: its target counts for its number, where it has one.
fn operand(round: &Round, targets: &[Option<u128>], args: &[TermId], k: usize) -> Operand {
    let mut operand = Operand {
        width: 0,
        number: 0,
        is_constant: true,
    };
    if let Some(id) = args.get(k) {
        let place = id.0;
        if place < round.terms.count() && place < round.numbers.len() && place < targets.len() {
            operand.width = round.terms.width(*id);
            operand.is_constant = matches!(round.terms.op(*id), TermOp::Constant(_, _));
            operand.number = targets[place].unwrap_or(round.numbers[place]);
        }
    }
    operand
}

// A wish for a term's number, of a term that exists.
fn wish_of(round: &Round, targets: &[Option<u128>], id: TermId, target: u128) -> Wish
    requires { id.0 < length round.now.terms.now.terms }
{
    let args = round.terms.args(id);
    let first = operand(round, targets, args, 0);
    let second = operand(round, targets, args, 1);
    Wish {
        op: round.terms.op(id),
        width: round.terms.width(id),
        first,
        second,
        third: operand(round, targets, args, 2),
        target,
        changes_first: (second.is_constant || round.changes_first) && !first.is_constant,
    }
}

// Gives an argument a target, unless it has one.
fn aim(targets: &mut [Option<u128>], args: &[TermId], k: usize, target: Option<u128>) {
    if let Some(id) = args.get(k) {
        let place = id.0;
        if place < targets.len() && targets[place].is_none() {
            targets[place] = target;
        }
    }
}

// Gives the arguments of a term their targets.
fn aim_all(targets: &mut [Option<u128>], args: &[TermId], wished: &Targets) {
    aim(targets, args, 0, wished.first);
    aim(targets, args, 1, wished.second);
    aim(targets, args, 2, wished.third);
}

// Gives an input its target, and answers whether it had another residue.
fn put_residue(residues: &mut [u64], key: u32, target: u128) -> bool {
    let place = key as usize;
    let residue = (target & u128::from(u64::MAX)) as u64;
    if place < residues.len() && residues[place] != residue {
        residues[place] = residue;
        return true;
    }
    false
}

// Hands the target of a term on to its arguments, or to the input that it is. Answers whether a residue changed.
fn hand_on(
    round: &Round,
    id: TermId,
    target: u128,
    targets: &mut [Option<u128>],
    residues: &mut [u64],
) -> bool
    requires { id.0 < length round.now.terms.now.terms }
{
    if let TermOp::Input(key) = round.terms.op(id) {
        return put_residue(residues, key, target);
    }
    let wish = wish_of(round, targets, id, target);
    aim_all(targets, round.terms.args(id), &inverse(&wish));
    false
}

// Takes the targets of a round away, but for that of the goal, which is 1.
fn begin_round(order: &[usize], goal: TermId, targets: &mut [Option<u128>]) {
    for place in order {
        if *place < targets.len() {
            targets[*place] = None;
        }
    }
    if goal.0 < targets.len() {
        targets[goal.0] = Some(1);
    }
}

// Goes over the parts of the goal, each before its arguments, and hands targets on that aren't met. Answers whether a
// residue changed.
fn improve(round: &Round, targets: &mut [Option<u128>], residues: &mut [u64]) -> bool {
    let mut has_changed = false;
    for k in (0..round.order.len()).rev() {
        let place = round.order[k];
        if place < targets.len() && place < round.numbers.len() && place < round.terms.count() {
            if let Some(target) = targets[place] {
                if round.numbers[place] != target {
                    let changes = hand_on(round, TermId(place), target, targets, residues);
                    has_changed = has_changed || changes;
                }
            }
        }
    }
    has_changed
}

/// Residues of the inputs that make the term 1, if some are found soon. The first try gives each input 0. From the goal
/// down, each term that hasn't the number that it should have hands on to its arguments numbers that give it that one,
/// while what else they depend on stays; what the inputs get so is the next try. (Niemetz, Preiner and Biere, "Improving
/// local search for bit-vector logics in SMT with path propagation", 2016, take one path a try; here all are taken.)
/// A try takes one pass over the term's parts. None says nothing.
pub fn likely_residues(
    alloc: Global,
    terms: &Terms,
    goal: TermId,
) -> Result<Option<Residues>, NoMemory>
    requires exists { goal.0 < length terms.now.terms }
    ensures residues { IfOk result (λ found. IfSome found (λ r. AreResidues terms.now.inputs r.numbers)) }
    ensures one { IfOk result (λ found. IfSome found (λ r. number_at terms.now r.numbers goal.0 ≡ 1)) }
{
    // For the prover: there are at most as many terms as a usize counts.
    let _count = terms.count();
    let order = terms.order(goal)?;
    let mut numbers = vec![in alloc; 0u128; goal.0 + 1]?;
    let mut targets = vec![in alloc; None; goal.0 + 1]?;
    let mut residues = vec![in alloc; 0u64; terms.widths().len()]?;
    for number in 0..MOST_ROUNDS {
        if !terms.are_residues(&residues) {
            return Ok(None);
        }
        if number_with(terms, goal, &order, &residues, &mut numbers) == 1 {
            return Ok(Some(Residues {
                numbers: List::from_vec(residues),
            }));
        }
        begin_round(&order, goal, &mut targets);
        let round = Round {
            terms,
            order: &order,
            numbers: &numbers,
            changes_first: number % 4 == FIRST_CHANGES,
        };
        if !improve(&round, &mut targets, &mut residues) {
            return Ok(None);
        }
    }
    Ok(None)
}

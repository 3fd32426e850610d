//! The cut goal of a goal.
ghost use Rattle.std.specs.Prelude.{◌≡◌, ◌+◌, ◌<◌, ◌≤◌, ◌^◌, length, sum, IfOk, IfSome};
ghost use Rattle.stk_terms.specs.Cost.{cost};
ghost use Rattle.stk_terms.specs.Fitting.{AreWidths, IsSound};
ghost use Rattle.stk_terms.specs.Values.{width_at};
ghost use Rattle.stk_rewrite.specs.Normal.{IsNormal};
ghost use Rattle.stk_goal_clauses.specs.Laws.{IsNever};
ghost use Rattle.stk_cuts.specs.Cuts.{sizes_of, AreCopies};

use crate::copying::{Moved, Source, are_moved, found};
use crate::parting::{is_smaller, parted};
use std::alloc::Global;
use stk_base::{List, NoMemory};
use stk_goal_clauses::has_room;
use stk_rewrite::NormalTerms;
use stk_terms::{TermId, Terms};

/// A goal in a store of its own.
#[derive(Drop)]
pub struct CutGoal {
    pub terms: NormalTerms,
    pub term: TermId,
}

/// How many inputs a cut goal has at most.
const MOST_INPUTS: usize = 1 << 20;

#[tactic(auto, using(crate::proofs::Copied::widths_more))]
// The widths of terms, if they may be those of inputs.
fn widths_of(alloc: Global, terms: &Terms, ids: &[TermId]) -> Result<Option<Vec<u8>>, NoMemory>
    ensures are { IfOk result (λ r. IfSome r (λ ws. ws.items ≡ sizes_of terms.now ids.now)) }
    ensures fit { IfOk result (λ r. IfSome r (λ ws. AreWidths ws.items)) }
{
    let mut widths = Vec::with_capacity(alloc, ids.len())?;
    for k in 0..ids.len() {
        let id = ids[k];
        if id.0 >= terms.count() || terms.width(id) > 64 {
            return Ok(None);
        }
        widths.push(terms.width(id))?;
    }
    Ok(Some(widths))
}

// An input for each cut term.
fn put_inputs(out: &mut NormalTerms, of: &Source, moved: &mut Vec<Moved>) -> Result<(), NoMemory>
    requires inputs { out.old.inputs ≡ sizes_of of.now.terms.now of.now.cut.now }
    requires few { length of.now.cut.now ≤ MOST_INPUTS }
    requires none { AreCopies of.now.terms.now of.now.cut.now out.old moved.old.items }
    ensures copies { IfOk result (λ b. AreCopies of.now.terms.now of.now.cut.now out.new moved.new.items) }
    ensures inputs { out.new.inputs ≡ out.old.inputs }
    ensures sound { IsSound out.new }
{
    let _count = out.count();
    for k in 0..of.cut.len() {
        let to = out.input(k as u32)?;
        moved.push(Moved {
            from: of.cut[k],
            to,
        })?;
    }
    Ok(())
}

// The goal in a store in which it may have been moved, if there is room to decide it.
fn finished(
    alloc: Global,
    of: &Source,
    goal: TermId,
    terms: NormalTerms,
    moved: &[Moved],
) -> Result<Option<CutGoal>, NoMemory>
    requires exists { goal.0 < length of.now.terms.now.terms }
    requires one { width_at of.now.terms.now goal.0 ≡ 1 }
    requires inputs { terms.inputs ≡ sizes_of of.now.terms.now of.now.cut.now }
    requires copies { AreCopies of.now.terms.now of.now.cut.now terms moved.now }
    ensures exists { IfOk result (λ r. IfSome r (λ g. g.term.0 < length g.terms.terms)) }
    ensures one { IfOk result (λ r. IfSome r (λ g. width_at g.terms g.term.0 ≡ 1)) }
    ensures room { IfOk result (λ r. IfSome r (λ g. sum g.terms.inputs + cost g.terms g.term.0 < 2 ^ 29)) }
    ensures normal { IfOk result (λ r. IfSome r (λ g. IsNormal g.terms g.term.0)) }
    ensures never { IfOk result (λ r. IfSome r (λ g. IsNever g.terms g.term.0 → IsNever of.now.terms.now goal.0)) }
{
    let _count = of.terms.count();
    let _same = terms.count();
    let Some(term) = found(moved, goal) else {
        return Ok(None);
    };
    if has_room(alloc, terms.terms(), term)? {
        Ok(Some(CutGoal { terms, term }))
    } else {
        Ok(None)
    }
}

// The goal over inputs for the cut terms.
fn over_inputs(
    alloc: Global,
    of: &Source,
    goal: TermId,
    kept: &[TermId],
) -> Result<Option<CutGoal>, NoMemory>
    requires exists { goal.0 < length of.now.terms.now.terms }
    requires one { width_at of.now.terms.now goal.0 ≡ 1 }
    requires few { length of.now.cut.now ≤ MOST_INPUTS }
    ensures exists { IfOk result (λ r. IfSome r (λ g. g.term.0 < length g.terms.terms)) }
    ensures one { IfOk result (λ r. IfSome r (λ g. width_at g.terms g.term.0 ≡ 1)) }
    ensures room { IfOk result (λ r. IfSome r (λ g. sum g.terms.inputs + cost g.terms g.term.0 < 2 ^ 29)) }
    ensures normal { IfOk result (λ r. IfSome r (λ g. IsNormal g.terms g.term.0)) }
    ensures never { IfOk result (λ r. IfSome r (λ g. IsNever g.terms g.term.0 → IsNever of.now.terms.now goal.0)) }
{
    let Some(widths) = widths_of(alloc, of.terms, of.cut)? else {
        return Ok(None);
    };
    let mut out = NormalTerms::new(alloc, List::from_vec(widths));
    let mut moved = Vec::new(alloc);
    put_inputs(&mut out, of, &mut moved)?;
    if are_moved(&mut out, of, &mut moved, kept)? {
        finished(alloc, of, goal, out, moved.as_slice())
    } else {
        Ok(None)
    }
}

/// A smaller goal that may decide a goal: its last terms, those that were made last and at most this many beside
/// constants and terms that are too wide for an input, over fresh inputs in place of the terms that they are made of.
/// Where no inputs make the smaller goal 1, none make the goal 1; inputs that make it 1 say nothing. It has width 1,
/// no part of it is the left side of a rewriting rule, and the bits of its inputs and its cost are together below 2^29.
/// `None` says nothing of the goal: no term but inputs would be cut, one that would be is too wide for an input, or
/// there is no room. The time follows from the number of terms that are kept, not from the size of the goal, but for
/// the last test of room.
pub fn cut_goal(
    alloc: Global,
    terms: &Terms,
    goal: TermId,
    most: usize,
) -> Result<Option<CutGoal>, NoMemory>
    requires exists { goal.0 < length terms.now.terms }
    requires one { width_at terms.now goal.0 ≡ 1 }
    ensures exists { IfOk result (λ r. IfSome r (λ g. g.term.0 < length g.terms.terms)) }
    ensures one { IfOk result (λ r. IfSome r (λ g. width_at g.terms g.term.0 ≡ 1)) }
    ensures room { IfOk result (λ r. IfSome r (λ g. sum g.terms.inputs + cost g.terms g.term.0 < 2 ^ 29)) }
    ensures normal { IfOk result (λ r. IfSome r (λ g. IsNormal g.terms g.term.0)) }
    ensures never { IfOk result (λ r. IfSome r (λ g. IsNever g.terms g.term.0 → IsNever terms.now goal.0)) }
{
    let parts = parted(alloc, terms, goal, most)?;
    let cut = parts.cut.as_slice();
    if parts.kept.len() == 0 || cut.len() > MOST_INPUTS || !is_smaller(terms, cut) {
        return Ok(None);
    }
    over_inputs(alloc, &Source { terms, cut }, goal, parts.kept.as_slice())
}

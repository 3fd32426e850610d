//! Copies of terms over inputs that stand for others.
ghost use Rattle.std.specs.Prelude.{◌≡◌, ◌<◌, List, length, None, IfOk, IfSome};
ghost use Rattle.stk_terms.specs.Fitting.{IsSound};
ghost use Rattle.stk_terms.specs.Terms.{Stored, term_at, child};
ghost use Rattle.stk_terms.specs.Growth.{Keeps};
ghost use Rattle.stk_cuts.specs.Cuts.{sizes_of, Copies, AreCopies};

use std::alloc::Global;
use stk_base::NoMemory;
use stk_rewrite::NormalTerms;
use stk_terms::{TermId, TermOp, Terms};

/// A term of one store, and what stands for it in another.
#[derive(Clone, Copy)]
pub(crate) struct Moved {
    pub(crate) from: TermId,
    pub(crate) to: TermId,
}

/// A store of terms, and those of them that are the inputs of another store.
#[derive(Clone, Copy)]
pub(crate) struct Source<'a> {
    pub(crate) terms: &'a Terms,
    pub(crate) cut: &'a [TermId],
}

/// What stands for a term, if it was moved.
pub(crate) fn found(moved: &[Moved], id: TermId) -> Option<TermId>
    ensures { (old new : Stored) (cut : List TermId) → AreCopies old cut new moved.now → IfSome result (λ v. Copies old cut new id.0 v.0) }
{
    for k in 0..moved.len() {
        if moved[k].from.0 == id.0 {
            return Some(moved[k].to);
        }
    }
    None
}

// What stands for the k-th argument of a term, if that was moved.
fn argument(terms: &Terms, moved: &[Moved], id: TermId, k: usize) -> Option<TermId>
    requires exists { id.0 < length terms.now.terms }
    requires k { k < length (term_at terms.now id.0).args }
    ensures { (new : Stored) (cut : List TermId) → AreCopies terms.now cut new moved.now → IfSome result (λ v. Copies terms.now cut new (child terms.now id.0 k) v.0) }
{
    // For the prover: the terms keep their facts.
    let _count = terms.count();
    let args = terms.args(id);
    found(moved, args[k])
}

// A constant once more.
fn constant(out: &mut NormalTerms, of: &Source, id: TermId) -> Result<Option<TermId>, NoMemory>
    requires exists { id.0 < length of.now.terms.now.terms }
    requires inputs { out.old.inputs ≡ sizes_of of.now.terms.now of.now.cut.now }
    requires none { length (term_at of.now.terms.now id.0).args ≡ 0 }
    ensures copies { IfOk result (λ r. IfSome r (λ v. Copies of.now.terms.now of.now.cut.now out.new id.0 v.0)) }
    ensures keeps { Keeps out.old out.new }
    ensures sound { IsSound out.new }
{
    let _count = of.terms.count();
    let _same = out.count();
    match of.terms.op(id) {
        TermOp::Constant(width, number) => {
            let v = out.constant(width, number)?;
            Ok(Some(v))
        }
        _ => Ok(None),
    }
}

// An operator over one once more.
fn one(
    out: &mut NormalTerms,
    of: &Source,
    moved: &[Moved],
    id: TermId,
) -> Result<Option<TermId>, NoMemory>
    requires exists { id.0 < length of.now.terms.now.terms }
    requires inputs { out.old.inputs ≡ sizes_of of.now.terms.now of.now.cut.now }
    requires copies { AreCopies of.now.terms.now of.now.cut.now out.old moved.now }
    requires one { length (term_at of.now.terms.now id.0).args ≡ 1 }
    ensures copies { IfOk result (λ r. IfSome r (λ v. Copies of.now.terms.now of.now.cut.now out.new id.0 v.0)) }
    ensures keeps { Keeps out.old out.new }
    ensures sound { IsSound out.new }
{
    let _count = of.terms.count();
    let _same = out.count();
    let op = of.terms.op(id);
    match argument(of.terms, moved, id, 0) {
        None => Ok(None),
        Some(a) => {
            let v = out.one(op, a)?;
            Ok(Some(v))
        }
    }
}

// An operator over two once more.
fn two(
    out: &mut NormalTerms,
    of: &Source,
    moved: &[Moved],
    id: TermId,
) -> Result<Option<TermId>, NoMemory>
    requires exists { id.0 < length of.now.terms.now.terms }
    requires inputs { out.old.inputs ≡ sizes_of of.now.terms.now of.now.cut.now }
    requires copies { AreCopies of.now.terms.now of.now.cut.now out.old moved.now }
    requires two { length (term_at of.now.terms.now id.0).args ≡ 2 }
    ensures copies { IfOk result (λ r. IfSome r (λ v. Copies of.now.terms.now of.now.cut.now out.new id.0 v.0)) }
    ensures keeps { Keeps out.old out.new }
    ensures sound { IsSound out.new }
{
    let _count = of.terms.count();
    let _same = out.count();
    let op = of.terms.op(id);
    let Some(a) = argument(of.terms, moved, id, 0) else {
        return Ok(None);
    };
    let Some(b) = argument(of.terms, moved, id, 1) else {
        return Ok(None);
    };
    let v = out.two(op, a, b)?;
    Ok(Some(v))
}

// A choice once more.
fn choice(
    out: &mut NormalTerms,
    of: &Source,
    moved: &[Moved],
    id: TermId,
) -> Result<Option<TermId>, NoMemory>
    requires exists { id.0 < length of.now.terms.now.terms }
    requires inputs { out.old.inputs ≡ sizes_of of.now.terms.now of.now.cut.now }
    requires copies { AreCopies of.now.terms.now of.now.cut.now out.old moved.now }
    requires three { length (term_at of.now.terms.now id.0).args ≡ 3 }
    ensures copies { IfOk result (λ r. IfSome r (λ v. Copies of.now.terms.now of.now.cut.now out.new id.0 v.0)) }
    ensures keeps { Keeps out.old out.new }
    ensures sound { IsSound out.new }
{
    let _count = of.terms.count();
    let _same = out.count();
    let Some(test) = argument(of.terms, moved, id, 0) else {
        return Ok(None);
    };
    let Some(a) = argument(of.terms, moved, id, 1) else {
        return Ok(None);
    };
    let Some(b) = argument(of.terms, moved, id, 2) else {
        return Ok(None);
    };
    let v = out.choice(test, a, b)?;
    Ok(Some(v))
}

// How many arguments a term has.
fn count_of(terms: &Terms, id: TermId) -> usize
    requires { id.0 < length terms.now.terms }
    ensures { result ≡ length (term_at terms.now id.0).args }
{
    // For the prover: the terms keep their facts.
    let _count = terms.count();
    let args = terms.args(id);
    args.len()
}

// Nothing, and the terms stay.
fn none(out: &mut NormalTerms) -> Result<Option<TermId>, NoMemory>
    ensures none { IfOk result (λ r. r ≡ None) }
    ensures keeps { Keeps out.old out.new }
    ensures sound { IsSound out.new }
{
    let _same = out.count();
    Ok(None)
}

// A term once more, over what stands for its arguments, if these were moved.
fn copied(
    out: &mut NormalTerms,
    of: &Source,
    moved: &[Moved],
    id: TermId,
) -> Result<Option<TermId>, NoMemory>
    requires exists { id.0 < length of.now.terms.now.terms }
    requires inputs { out.old.inputs ≡ sizes_of of.now.terms.now of.now.cut.now }
    requires copies { AreCopies of.now.terms.now of.now.cut.now out.old moved.now }
    ensures copies { IfOk result (λ r. IfSome r (λ v. Copies of.now.terms.now of.now.cut.now out.new id.0 v.0)) }
    ensures keeps { Keeps out.old out.new }
    ensures sound { IsSound out.new }
{
    let count = count_of(of.terms, id);
    if count == 0 {
        constant(out, of, id)
    } else if count == 1 {
        one(out, of, moved, id)
    } else if count == 2 {
        two(out, of, moved, id)
    } else if count == 3 {
        choice(out, of, moved, id)
    } else {
        none(out)
    }
}

// Moves a term whose arguments were moved; whether it did.
fn is_moved(
    out: &mut NormalTerms,
    of: &Source,
    moved: &mut Vec<Moved>,
    id: TermId,
) -> Result<bool, NoMemory>
    requires inputs { out.old.inputs ≡ sizes_of of.now.terms.now of.now.cut.now }
    requires sound { IsSound out.old }
    requires copies { AreCopies of.now.terms.now of.now.cut.now out.old moved.old.items }
    ensures copies { IfOk result (λ b. AreCopies of.now.terms.now of.now.cut.now out.new moved.new.items) }
    ensures keeps { Keeps out.old out.new }
    ensures still { IsSound out.new }
{
    if id.0 >= of.terms.count() {
        return Ok(false);
    }
    match copied(out, of, moved.as_slice(), id)? {
        None => Ok(false),
        Some(to) => {
            moved.push(Moved { from: id, to })?;
            Ok(true)
        }
    }
}

/// Moves terms, the last one first; whether all were moved.
pub(crate) fn are_moved(
    out: &mut NormalTerms,
    of: &Source,
    moved: &mut Vec<Moved>,
    kept: &[TermId],
) -> Result<bool, NoMemory>
    requires inputs { out.old.inputs ≡ sizes_of of.now.terms.now of.now.cut.now }
    requires sound { IsSound out.old }
    requires copies { AreCopies of.now.terms.now of.now.cut.now out.old moved.old.items }
    ensures copies { IfOk result (λ b. AreCopies of.now.terms.now of.now.cut.now out.new moved.new.items) }
    ensures keeps { Keeps out.old out.new }
    ensures still { IsSound out.new }
{
    let mut rest = kept;
    while let Some((id, before)) = rest.split_last() {
        if !is_moved(out, of, moved, *id)? {
            return Ok(false);
        }
        rest = before;
    }
    Ok(true)
}

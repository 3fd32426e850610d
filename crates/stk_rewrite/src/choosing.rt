//! What stands for a term, over what stands for its arguments.
ghost use Rattle.std.specs.Prelude.{◌≡◌, ◌<◌, ℕ, Bool, length, get_or};
ghost use Rattle.stk_terms.specs.Fitting.{IsSound, WidthsFit, arity};
ghost use Rattle.stk_terms.specs.Values.{width_at};
ghost use Rattle.stk_terms.specs.Terms.{term_at, child};
ghost use Rattle.stk_rewrite.specs.Normal.{IsNormal, Simplifies, ChildrenDone};
ghost use Rattle.stk_rewrite.specs.Readings.{ArePair};
ghost use Rattle.stk_rewrite.specs.Rights.{Replaces, StandsFor, HasAll};
ghost use Rattle.stk_terms.specs.Cost.{IsClosed};
ghost use Rattle.stk_rewrite.specs.Carries.{HasChildren};
ghost use Rattle.stk_rewrite.specs.declared.right.Right.TheVariants.{One, Two};
ghost use Rattle.stk_terms.specs.declared.term.TermOp.TheVariants.{Concat};

use crate::bits::{and, or, product, xor};
use crate::choices::choice;
use crate::cuts::{extend, extend_signed, extract, joined};
use crate::equalities::equal;
use crate::ordered::{difference, less, less_signed, quotient, remainder};
use crate::reading::{count_of, op_of};
use crate::right::Right;
use crate::shifts::shift;
use crate::signs::{negative, not};
use crate::sums::sum;
use stk_terms::{TermId, TermOp, Terms};

/// An operator over one.
pub(crate) fn one(terms: &Terms, op: TermOp, a: TermId) -> Right
    requires sound { IsSound terms.now }
    requires normal { IsNormal terms.now a.0 }
    requires arity { arity op ≡ 1 }
    requires fits { WidthsFit terms.now.inputs op (width_at terms.now a.0) 0 0 }
    ensures { Replaces terms.now (One op a) result }
{
    match op {
        TermOp::Not => not(terms, a),
        TermOp::Neg => negative(terms, a),
        TermOp::Extract(low, size) => extract(terms, low, size, a),
        TermOp::ZeroExt(size) => extend(terms, size, a),
        TermOp::SignExt(size) => extend_signed(terms, size, a),
        _ => Right::Old(a),
    }
}

// An operator over two of one width.
fn two(terms: &Terms, op: TermOp, a: TermId, b: TermId) -> Right
    requires sound { IsSound terms.now }
    requires pair { ArePair terms.now a.0 b.0 }
    requires arity { arity op ≡ 2 }
    requires other { op ≡ Concat → ⊥ }
    ensures { Replaces terms.now (Two op a b) result }
{
    match op {
        TermOp::And => and(terms, a, b),
        TermOp::Or => or(terms, a, b),
        TermOp::Xor => xor(terms, a, b),
        TermOp::Add => sum(terms, a, b),
        TermOp::Sub => difference(terms, a, b),
        TermOp::Mul => product(terms, a, b),
        TermOp::UDiv => quotient(terms, a, b),
        TermOp::URem => remainder(terms, a, b),
        TermOp::Shl => shift(terms, TermOp::Shl, a, b),
        TermOp::LShr => shift(terms, TermOp::LShr, a, b),
        TermOp::AShr => shift(terms, TermOp::AShr, a, b),
        TermOp::Eq => equal(terms, a, b),
        TermOp::ULt => less(terms, a, b),
        TermOp::SLt => less_signed(terms, a, b),
        _ => Right::Old(a),
    }
}

/// An operator over two.
pub(crate) fn pair(terms: &Terms, op: TermOp, a: TermId, b: TermId) -> Right
    requires sound { IsSound terms.now }
    requires first { IsNormal terms.now a.0 }
    requires second { IsNormal terms.now b.0 }
    requires arity { arity op ≡ 2 }
    requires fits { WidthsFit terms.now.inputs op (width_at terms.now a.0) (width_at terms.now b.0) 0 }
    ensures { Replaces terms.now (Two op a b) result }
{
    match op {
        TermOp::Concat => joined(terms, a, b),
        _ => two(terms, op, a, b),
    }
}

// What stands for the term at a place.
fn at(done: &[TermId], place: usize) -> TermId
    requires { place < length done.now }
    ensures { result ≡ get_or done.now place (record { 0 = 0 }) }
{
    done[place]
}

// What stands for the k-th argument.
fn argument(terms: &Terms, done: &[TermId], id: TermId, k: usize) -> TermId
    requires sound { IsSound terms.now }
    requires exists { id.0 < length terms.now.terms }
    requires count { length done.now ≡ id.0 }
    requires done { ChildrenDone terms.now done.now id.0 }
    requires k { k < length (term_at terms.now id.0).args }
    ensures simplifies { Simplifies terms.now terms.now (child terms.now id.0 k) result.0 }
    ensures is { result ≡ get_or done.now (child terms.now id.0 k) (record { 0 = 0 }) }
{
    let args = terms.args(id);
    at(done, args[k].0)
}

/// What stands for a term.
pub(crate) fn choose(terms: &Terms, done: &[TermId], id: TermId) -> Right
    requires sound { IsSound terms.now }
    requires exists { id.0 < length terms.now.terms }
    requires count { length done.now ≡ id.0 }
    requires done { ChildrenDone terms.now done.now id.0 }
    ensures stands { StandsFor terms.now id.0 result }
    ensures from { (chosen : ℕ → Bool) → IsClosed terms.now chosen → HasChildren chosen terms.now done.now id.0 → HasAll chosen result }
{
    let op = op_of(terms, id);
    let count = count_of(terms, id);
    if count == 1 {
        let a = argument(terms, done, id, 0);
        one(terms, op, a)
    } else if count == 2 {
        let a = argument(terms, done, id, 0);
        let b = argument(terms, done, id, 1);
        pair(terms, op, a, b)
    } else if count == 3 {
        let t = argument(terms, done, id, 0);
        let a = argument(terms, done, id, 1);
        let b = argument(terms, done, id, 2);
        choice(terms, t, a, b)
    } else {
        Right::Leaf(id)
    }
}

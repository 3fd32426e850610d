//! Not and Neg.
ghost use Rattle.stk_terms.specs.Fitting.{IsSound};
ghost use Rattle.stk_terms.specs.declared.term.TermOp.TheVariants.{Not, Neg};
ghost use Rattle.stk_rewrite.specs.Normal.{IsNormal};
ghost use Rattle.stk_rewrite.specs.Readings.{IsPlain};
ghost use Rattle.stk_rewrite.specs.Rights.{Replaces};
ghost use Rattle.stk_rewrite.specs.declared.right.Right.TheVariants.{One};

use crate::folding::fold_one;
use crate::reading::{negated, number, opposite};
use crate::right::Right;
use stk_terms::{TermId, TermOp, Terms};

/// Not of a term that is no constant, which takes away another Not.
pub(crate) fn inverted(terms: &Terms, a: TermId) -> Right
    requires sound { IsSound terms.now }
    requires part { IsPlain terms.now a.0 }
    ensures { Replaces terms.now (One Not a) result }
{
    match negated(terms, a) {
        Some(x) => Right::Old(x),
        None => Right::One(TermOp::Not, a),
    }
}

/// Not of a term.
pub(crate) fn not(terms: &Terms, a: TermId) -> Right
    requires sound { IsSound terms.now }
    requires normal { IsNormal terms.now a.0 }
    ensures { Replaces terms.now (One Not a) result }
{
    match number(terms, a) {
        Some(x) => fold_one(terms, TermOp::Not, a, x),
        None => inverted(terms, a),
    }
}

/// Neg of a term that is no constant, which takes away another Neg.
pub(crate) fn reversed(terms: &Terms, a: TermId) -> Right
    requires sound { IsSound terms.now }
    requires part { IsPlain terms.now a.0 }
    ensures { Replaces terms.now (One Neg a) result }
{
    match opposite(terms, a) {
        Some(x) => Right::Old(x),
        None => Right::One(TermOp::Neg, a),
    }
}

/// Neg of a term.
pub(crate) fn negative(terms: &Terms, a: TermId) -> Right
    requires sound { IsSound terms.now }
    requires normal { IsNormal terms.now a.0 }
    ensures { Replaces terms.now (One Neg a) result }
{
    match number(terms, a) {
        Some(x) => fold_one(terms, TermOp::Neg, a, x),
        None => reversed(terms, a),
    }
}

//! Differences, quotients, remainders and orders, whose arguments keep their places.
ghost use Rattle.std.specs.Prelude.{◌≡◌, false};
ghost use Rattle.stk_terms.specs.Fitting.{IsSound};
ghost use Rattle.stk_terms.specs.Terms.{term_at};
ghost use Rattle.stk_terms.specs.declared.term.TermOp.TheVariants.{Sub, UDiv, URem, ULt, SLt};
ghost use Rattle.stk_rewrite.specs.Looks.{is_constant};
ghost use Rattle.stk_rewrite.specs.Readings.{ArePair, IsNumber};
ghost use Rattle.stk_rewrite.specs.Rights.{Replaces};
ghost use Rattle.stk_rewrite.specs.declared.right.Right.TheVariants.{Two};

use crate::folding::fold;
use crate::reading::number;
use crate::right::Right;
use crate::signs::reversed;
use crate::sums::sum_with;
use stk_terms::{TermId, TermOp, Terms, apply};

// A term that is no constant less a constant: the sum with its Neg.
fn less_by(terms: &Terms, a: TermId, b: TermId, y: u128) -> Right
    requires sound { IsSound terms.now }
    requires pair { ArePair terms.now a.0 b.0 }
    requires plain { is_constant (term_at terms.now a.0).op ≡ false }
    requires number { IsNumber terms.now b.0 y }
    ensures { Replaces terms.now (Two Sub a b) result }
{
    let width = terms.width(a);
    let opposite = apply(TermOp::Neg, &[], (width, 0), y, 0, 0);
    sum_with(terms, a, width, opposite)
}

// A difference of two terms that aren't one: less a constant it is a sum, and from 0 the Neg.
fn apart(terms: &Terms, a: TermId, b: TermId) -> Right
    requires sound { IsSound terms.now }
    requires pair { ArePair terms.now a.0 b.0 }
    requires apart { a.0 ≡ b.0 → ⊥ }
    ensures { Replaces terms.now (Two Sub a b) result }
{
    match number(terms, b) {
        Some(y) => match number(terms, a) {
            Some(x) => fold(terms, TermOp::Sub, a, b, x, y),
            None => less_by(terms, a, b, y),
        },
        None => match number(terms, a) {
            Some(x) => {
                if x == 0 {
                    reversed(terms, b)
                } else {
                    Right::Two(TermOp::Sub, a, b)
                }
            }
            None => Right::Two(TermOp::Sub, a, b),
        },
    }
}

/// The difference of two terms.
pub(crate) fn difference(terms: &Terms, a: TermId, b: TermId) -> Right
    requires sound { IsSound terms.now }
    requires pair { ArePair terms.now a.0 b.0 }
    ensures { Replaces terms.now (Two Sub a b) result }
{
    if a.0 == b.0 {
        Right::Number(terms.width(a), 0)
    } else {
        apart(terms, a, b)
    }
}

/// The quotient of two terms: by 0 it is 0, and by 1 the term.
pub(crate) fn quotient(terms: &Terms, a: TermId, b: TermId) -> Right
    requires sound { IsSound terms.now }
    requires pair { ArePair terms.now a.0 b.0 }
    ensures { Replaces terms.now (Two UDiv a b) result }
{
    match number(terms, b) {
        Some(y) => match number(terms, a) {
            Some(x) => fold(terms, TermOp::UDiv, a, b, x, y),
            None => {
                if y == 0 {
                    Right::Number(terms.width(a), 0)
                } else if y == 1 {
                    Right::Old(a)
                } else {
                    Right::Two(TermOp::UDiv, a, b)
                }
            }
        },
        None => Right::Two(TermOp::UDiv, a, b),
    }
}

/// The remainder of two terms: by 0 it is the term, and by 1 it is 0.
pub(crate) fn remainder(terms: &Terms, a: TermId, b: TermId) -> Right
    requires sound { IsSound terms.now }
    requires pair { ArePair terms.now a.0 b.0 }
    ensures { Replaces terms.now (Two URem a b) result }
{
    match number(terms, b) {
        Some(y) => match number(terms, a) {
            Some(x) => fold(terms, TermOp::URem, a, b, x, y),
            None => {
                if y == 0 {
                    Right::Old(a)
                } else if y == 1 {
                    Right::Number(terms.width(a), 0)
                } else {
                    Right::Two(TermOp::URem, a, b)
                }
            }
        },
        None => Right::Two(TermOp::URem, a, b),
    }
}

/// Whether one term is below another: none is below itself or below 0, and all ones are below none.
pub(crate) fn less(terms: &Terms, a: TermId, b: TermId) -> Right
    requires sound { IsSound terms.now }
    requires pair { ArePair terms.now a.0 b.0 }
    ensures { Replaces terms.now (Two ULt a b) result }
{
    if a.0 == b.0 {
        Right::Number(1, 0)
    } else {
        match number(terms, b) {
            Some(y) => match number(terms, a) {
                Some(x) => fold(terms, TermOp::ULt, a, b, x, y),
                None => {
                    if y == 0 {
                        Right::Number(1, 0)
                    } else {
                        Right::Two(TermOp::ULt, a, b)
                    }
                }
            },
            None => match number(terms, a) {
                Some(x) => {
                    let width = terms.width(a);
                    let ones = apply(TermOp::Not, &[], (width, 0), 0, 0, 0);
                    if x == ones {
                        Right::Number(1, 0)
                    } else {
                        Right::Two(TermOp::ULt, a, b)
                    }
                }
                None => Right::Two(TermOp::ULt, a, b),
            },
        }
    }
}

/// Whether one term is below another in two's complement: none is below itself.
pub(crate) fn less_signed(terms: &Terms, a: TermId, b: TermId) -> Right
    requires sound { IsSound terms.now }
    requires pair { ArePair terms.now a.0 b.0 }
    ensures { Replaces terms.now (Two SLt a b) result }
{
    if a.0 == b.0 {
        Right::Number(1, 0)
    } else {
        match number(terms, b) {
            Some(y) => match number(terms, a) {
                Some(x) => fold(terms, TermOp::SLt, a, b, x, y),
                None => Right::Two(TermOp::SLt, a, b),
            },
            None => Right::Two(TermOp::SLt, a, b),
        }
    }
}

//! Equalities.
ghost use Rattle.std.specs.Prelude.{◌≡◌, false};
ghost use Rattle.stk_terms.specs.Fitting.{IsSound};
ghost use Rattle.stk_terms.specs.declared.term.TermOp.TheVariants.{Eq};
ghost use Rattle.stk_rewrite.specs.Looks.{adds_constant};
ghost use Rattle.stk_rewrite.specs.Readings.{ArePair, IsBeside, IsPlain};
ghost use Rattle.stk_rewrite.specs.Rights.{Replaces};
ghost use Rattle.stk_rewrite.specs.declared.right.Right.TheVariants.{Two, Last};

use crate::folding::fold;
use crate::reading::{added, number};
use crate::right::Right;
use crate::signs::inverted;
use stk_terms::{TermId, TermOp, Terms, apply};

// Whether a term, which is no sum with a constant, is a constant: of width 1 it is the term or its Not.
fn last_equal(terms: &Terms, a: TermId, width: u8, n: u128) -> Right
    requires sound { IsSound terms.now }
    requires beside { IsBeside terms.now a.0 width n }
    requires once { adds_constant terms.now a.0 ≡ false }
    ensures { Replaces terms.now (Last Eq a width n) result }
{
    if width == 1 {
        if n == 1 {
            Right::Old(a)
        } else {
            inverted(terms, a)
        }
    } else {
        Right::Last(TermOp::Eq, a, width, n)
    }
}

// Whether a term is a constant: what is added to it is taken off the constant.
fn equal_with(terms: &Terms, a: TermId, width: u8, n: u128) -> Right
    requires sound { IsSound terms.now }
    requires beside { IsBeside terms.now a.0 width n }
    ensures { Replaces terms.now (Last Eq a width n) result }
{
    match added(terms, a) {
        Some((rest, m)) => {
            let total = apply(TermOp::Sub, &[], (width, width), n, m, 0);
            last_equal(terms, rest, width, total)
        }
        None => last_equal(terms, a, width, n),
    }
}

// Whether two terms that are no constants are equal: a term is equal to itself.
fn alike(terms: &Terms, a: TermId, b: TermId) -> Right
    requires sound { IsSound terms.now }
    requires pair { ArePair terms.now a.0 b.0 }
    requires first { IsPlain terms.now a.0 }
    requires second { IsPlain terms.now b.0 }
    ensures { Replaces terms.now (Two Eq a b) result }
{
    if a.0 == b.0 {
        Right::Number(1, 1)
    } else {
        Right::Two(TermOp::Eq, a, b)
    }
}

/// Whether two terms are equal.
pub(crate) fn equal(terms: &Terms, a: TermId, b: TermId) -> Right
    requires sound { IsSound terms.now }
    requires pair { ArePair terms.now a.0 b.0 }
    ensures { Replaces terms.now (Two Eq a b) result }
{
    match number(terms, a) {
        Some(x) => match number(terms, b) {
            Some(y) => fold(terms, TermOp::Eq, a, b, x, y),
            None => equal_with(terms, b, terms.width(b), x),
        },
        None => match number(terms, b) {
            Some(y) => equal_with(terms, a, terms.width(a), y),
            None => alike(terms, a, b),
        },
    }
}

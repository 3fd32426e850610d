//! Sums.
ghost use Rattle.std.specs.Prelude.{◌≡◌, false};
ghost use Rattle.stk_terms.specs.Fitting.{IsSound};
ghost use Rattle.stk_terms.specs.Values.{width_at};
ghost use Rattle.stk_terms.specs.declared.term.TermOp.TheVariants.{Add};
ghost use Rattle.stk_rewrite.specs.Looks.{adds_constant};
ghost use Rattle.stk_rewrite.specs.Readings.{ArePair, IsBeside, IsPlain};
ghost use Rattle.stk_rewrite.specs.Rights.{Replaces};
ghost use Rattle.stk_rewrite.specs.declared.right.Right.TheVariants.{Two, Last};

use crate::folding::fold;
use crate::reading::{added, number};
use crate::right::Right;
use stk_terms::{TermId, TermOp, Terms, apply};

// A sum with a constant, the term being none: with 0 it is the term.
fn last_sum(terms: &Terms, a: TermId, width: u8, n: u128) -> Right
    requires sound { IsSound terms.now }
    requires beside { IsBeside terms.now a.0 width n }
    requires once { adds_constant terms.now a.0 ≡ false }
    ensures { Replaces terms.now (Last Add a width n) result }
{
    if n == 0 {
        Right::Old(a)
    } else {
        Right::Last(TermOp::Add, a, width, n)
    }
}

/// A sum with a constant, the term being none: constants are added up.
pub(crate) fn sum_with(terms: &Terms, a: TermId, width: u8, n: u128) -> Right
    requires sound { IsSound terms.now }
    requires beside { IsBeside terms.now a.0 width n }
    ensures { Replaces terms.now (Last Add a width n) result }
{
    match added(terms, a) {
        Some((rest, m)) => {
            let total = apply(TermOp::Add, &[], (width, width), m, n, 0);
            last_sum(terms, rest, width, total)
        }
        None => last_sum(terms, a, width, n),
    }
}

// A sum of two terms that are no constants.
fn plain_sum(terms: &Terms, a: TermId, b: TermId) -> Right
    requires sound { IsSound terms.now }
    requires first { IsPlain terms.now a.0 }
    requires second { IsPlain terms.now b.0 }
    requires alike { width_at terms.now a.0 ≡ width_at terms.now b.0 }
    ensures { Replaces terms.now (Two Add a b) result }
{
    Right::Two(TermOp::Add, a, b)
}

// The same where constants in both that add up to 0 go away.
fn sum_of_sums(terms: &Terms, a: TermId, b: TermId) -> Right
    requires sound { IsSound terms.now }
    requires first { IsPlain terms.now a.0 }
    requires second { IsPlain terms.now b.0 }
    requires alike { width_at terms.now a.0 ≡ width_at terms.now b.0 }
    ensures { Replaces terms.now (Two Add a b) result }
{
    match added(terms, a) {
        Some((x, m)) => match added(terms, b) {
            Some((y, n)) => {
                let width = terms.width(a);
                let total = apply(TermOp::Add, &[], (width, width), m, n, 0);
                if total == 0 {
                    plain_sum(terms, x, y)
                } else {
                    plain_sum(terms, a, b)
                }
            }
            None => plain_sum(terms, a, b),
        },
        None => plain_sum(terms, a, b),
    }
}

/// The sum of two terms.
pub(crate) fn sum(terms: &Terms, a: TermId, b: TermId) -> Right
    requires sound { IsSound terms.now }
    requires pair { ArePair terms.now a.0 b.0 }
    ensures { Replaces terms.now (Two Add a b) result }
{
    match number(terms, a) {
        Some(x) => match number(terms, b) {
            Some(y) => fold(terms, TermOp::Add, a, b, x, y),
            None => sum_with(terms, b, terms.width(b), x),
        },
        None => match number(terms, b) {
            Some(y) => sum_with(terms, a, terms.width(a), y),
            None => sum_of_sums(terms, a, b),
        },
    }
}

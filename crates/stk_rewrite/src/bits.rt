//! And, Or, Xor and products.
ghost use Rattle.stk_terms.specs.Fitting.{IsSound};
ghost use Rattle.stk_terms.specs.declared.term.TermOp.TheVariants.{And, Or, Xor, Mul};
ghost use Rattle.stk_rewrite.specs.Readings.{ArePair, IsBeside, IsPlain};
ghost use Rattle.stk_rewrite.specs.Rights.{Replaces};
ghost use Rattle.stk_rewrite.specs.declared.right.Right.TheVariants.{Two, Last};

use crate::folding::fold;
use crate::reading::{negated, number};
use crate::right::Right;
use crate::signs::inverted;
use stk_terms::{TermId, TermOp, Terms, apply};

// And with a constant: 0 gives 0, and all ones the term.
fn last_and(terms: &Terms, a: TermId, width: u8, n: u128) -> Right
    requires sound { IsSound terms.now }
    requires beside { IsBeside terms.now a.0 width n }
    ensures { Replaces terms.now (Last And a width n) result }
{
    if n == 0 {
        Right::Number(width, 0)
    } else {
        let ones = apply(TermOp::Not, &[], (width, 0), 0, 0, 0);
        if n == ones {
            Right::Old(a)
        } else {
            Right::Last(TermOp::And, a, width, n)
        }
    }
}

// And of two terms that are no constants: of the term itself, and of its Not.
fn masked(terms: &Terms, a: TermId, b: TermId) -> Right
    requires sound { IsSound terms.now }
    requires pair { ArePair terms.now a.0 b.0 }
    requires first { IsPlain terms.now a.0 }
    requires second { IsPlain terms.now b.0 }
    ensures { Replaces terms.now (Two And a b) result }
{
    if a.0 == b.0 {
        Right::Old(a)
    } else {
        match negated(terms, b) {
            Some(x) => {
                if x.0 == a.0 {
                    Right::Number(terms.width(a), 0)
                } else {
                    Right::Two(TermOp::And, a, b)
                }
            }
            None => Right::Two(TermOp::And, a, b),
        }
    }
}

/// The bits that two terms share.
pub(crate) fn and(terms: &Terms, a: TermId, b: TermId) -> Right
    requires sound { IsSound terms.now }
    requires pair { ArePair terms.now a.0 b.0 }
    ensures { Replaces terms.now (Two And a b) result }
{
    match number(terms, a) {
        Some(x) => match number(terms, b) {
            Some(y) => fold(terms, TermOp::And, a, b, x, y),
            None => last_and(terms, b, terms.width(b), x),
        },
        None => match number(terms, b) {
            Some(y) => last_and(terms, a, terms.width(a), y),
            None => masked(terms, a, b),
        },
    }
}

// Or with a constant: 0 gives the term, and all ones all ones.
fn last_or(terms: &Terms, a: TermId, width: u8, n: u128) -> Right
    requires sound { IsSound terms.now }
    requires beside { IsBeside terms.now a.0 width n }
    ensures { Replaces terms.now (Last Or a width n) result }
{
    if n == 0 {
        Right::Old(a)
    } else {
        let ones = apply(TermOp::Not, &[], (width, 0), 0, 0, 0);
        if n == ones {
            Right::Number(width, ones)
        } else {
            Right::Last(TermOp::Or, a, width, n)
        }
    }
}

// Or of two terms that are no constants: of the term itself, and of its Not.
fn united(terms: &Terms, a: TermId, b: TermId) -> Right
    requires sound { IsSound terms.now }
    requires pair { ArePair terms.now a.0 b.0 }
    requires first { IsPlain terms.now a.0 }
    requires second { IsPlain terms.now b.0 }
    ensures { Replaces terms.now (Two Or a b) result }
{
    if a.0 == b.0 {
        Right::Old(a)
    } else {
        match negated(terms, b) {
            Some(x) => {
                if x.0 == a.0 {
                    let width = terms.width(a);
                    let ones = apply(TermOp::Not, &[], (width, 0), 0, 0, 0);
                    Right::Number(width, ones)
                } else {
                    Right::Two(TermOp::Or, a, b)
                }
            }
            None => Right::Two(TermOp::Or, a, b),
        }
    }
}

/// The bits that either of two terms has.
pub(crate) fn or(terms: &Terms, a: TermId, b: TermId) -> Right
    requires sound { IsSound terms.now }
    requires pair { ArePair terms.now a.0 b.0 }
    ensures { Replaces terms.now (Two Or a b) result }
{
    match number(terms, a) {
        Some(x) => match number(terms, b) {
            Some(y) => fold(terms, TermOp::Or, a, b, x, y),
            None => last_or(terms, b, terms.width(b), x),
        },
        None => match number(terms, b) {
            Some(y) => last_or(terms, a, terms.width(a), y),
            None => united(terms, a, b),
        },
    }
}

// Xor with a constant: 0 gives the term, and all ones its Not.
fn last_xor(terms: &Terms, a: TermId, width: u8, n: u128) -> Right
    requires sound { IsSound terms.now }
    requires beside { IsBeside terms.now a.0 width n }
    ensures { Replaces terms.now (Last Xor a width n) result }
{
    if n == 0 {
        Right::Old(a)
    } else {
        let ones = apply(TermOp::Not, &[], (width, 0), 0, 0, 0);
        if n == ones {
            inverted(terms, a)
        } else {
            Right::Last(TermOp::Xor, a, width, n)
        }
    }
}

// Xor of two terms that are no constants: of the term itself it is 0.
fn differing(terms: &Terms, a: TermId, b: TermId) -> Right
    requires sound { IsSound terms.now }
    requires pair { ArePair terms.now a.0 b.0 }
    requires first { IsPlain terms.now a.0 }
    requires second { IsPlain terms.now b.0 }
    ensures { Replaces terms.now (Two Xor a b) result }
{
    if a.0 == b.0 {
        Right::Number(terms.width(a), 0)
    } else {
        Right::Two(TermOp::Xor, a, b)
    }
}

/// The bits in which two terms differ.
pub(crate) fn xor(terms: &Terms, a: TermId, b: TermId) -> Right
    requires sound { IsSound terms.now }
    requires pair { ArePair terms.now a.0 b.0 }
    ensures { Replaces terms.now (Two Xor a b) result }
{
    match number(terms, a) {
        Some(x) => match number(terms, b) {
            Some(y) => fold(terms, TermOp::Xor, a, b, x, y),
            None => last_xor(terms, b, terms.width(b), x),
        },
        None => match number(terms, b) {
            Some(y) => last_xor(terms, a, terms.width(a), y),
            None => differing(terms, a, b),
        },
    }
}

// A product with a constant: by 0 it is 0, and by 1 the term.
fn last_product(terms: &Terms, a: TermId, width: u8, n: u128) -> Right
    requires sound { IsSound terms.now }
    requires beside { IsBeside terms.now a.0 width n }
    ensures { Replaces terms.now (Last Mul a width n) result }
{
    if n == 0 {
        Right::Number(width, 0)
    } else if n == 1 {
        Right::Old(a)
    } else {
        Right::Last(TermOp::Mul, a, width, n)
    }
}

/// The product of two terms.
pub(crate) fn product(terms: &Terms, a: TermId, b: TermId) -> Right
    requires sound { IsSound terms.now }
    requires pair { ArePair terms.now a.0 b.0 }
    ensures { Replaces terms.now (Two Mul a b) result }
{
    match number(terms, a) {
        Some(x) => match number(terms, b) {
            Some(y) => fold(terms, TermOp::Mul, a, b, x, y),
            None => last_product(terms, b, terms.width(b), x),
        },
        None => match number(terms, b) {
            Some(y) => last_product(terms, a, terms.width(a), y),
            None => Right::Two(TermOp::Mul, a, b),
        },
    }
}

//! Extracted bits, extensions, and bits that are joined.
ghost use Rattle.std.specs.Prelude.{◌≡◌, ◌≤◌, ◌+◌, false};
ghost use Rattle.stk_terms.specs.Fitting.{IsSound};
ghost use Rattle.stk_terms.specs.declared.term.TermOp.TheVariants.{Extract, ZeroExt, SignExt, Concat};
ghost use Rattle.stk_terms.specs.Values.{width_at};
ghost use Rattle.stk_terms.specs.Terms.{term_at};
ghost use Rattle.stk_rewrite.specs.Looks.{is_extract};
ghost use Rattle.stk_rewrite.specs.Normal.{IsNormal};
ghost use Rattle.stk_rewrite.specs.Readings.{IsPlain};
ghost use Rattle.stk_rewrite.specs.Rights.{Replaces};
ghost use Rattle.stk_rewrite.specs.declared.right.Right.TheVariants.{One, Two};

use crate::folding::{fold, fold_one};
use crate::reading::{cut, number};
use crate::right::Right;
use stk_terms::{TermId, TermOp, Terms};

// Bits of a term that isn't extracted itself: all of them are the term.
fn cut_out(terms: &Terms, low: u8, size: u8, a: TermId) -> Right
    requires sound { IsSound terms.now }
    requires part { IsPlain terms.now a.0 }
    requires once { is_extract (term_at terms.now a.0).op ≡ false }
    requires some { 1 ≤ size }
    requires within { low + size ≤ width_at terms.now a.0 }
    ensures { Replaces terms.now (One (Extract low size) a) result }
{
    if low == 0 && size == terms.width(a) {
        Right::Old(a)
    } else {
        Right::One(TermOp::Extract(low, size), a)
    }
}

/// Bits of a term: those of extracted bits are extracted from the term below.
pub(crate) fn extract(terms: &Terms, low: u8, size: u8, a: TermId) -> Right
    requires sound { IsSound terms.now }
    requires normal { IsNormal terms.now a.0 }
    requires some { 1 ≤ size }
    requires within { low + size ≤ width_at terms.now a.0 }
    ensures { Replaces terms.now (One (Extract low size) a) result }
{
    match number(terms, a) {
        Some(x) => fold_one(terms, TermOp::Extract(low, size), a, x),
        None => match cut(terms, a) {
            Some((from, x)) => cut_out(terms, from + low, size, x),
            None => cut_out(terms, low, size, a),
        },
    }
}

/// Zeros in front: up to the term's own width it is the term.
pub(crate) fn extend(terms: &Terms, size: u8, a: TermId) -> Right
    requires sound { IsSound terms.now }
    requires normal { IsNormal terms.now a.0 }
    requires wider { width_at terms.now a.0 ≤ size }
    requires most { size ≤ 128 }
    ensures { Replaces terms.now (One (ZeroExt size) a) result }
{
    match number(terms, a) {
        Some(x) => fold_one(terms, TermOp::ZeroExt(size), a, x),
        None => {
            if size == terms.width(a) {
                Right::Old(a)
            } else {
                Right::One(TermOp::ZeroExt(size), a)
            }
        }
    }
}

/// Sign bits in front: up to the term's own width it is the term.
pub(crate) fn extend_signed(terms: &Terms, size: u8, a: TermId) -> Right
    requires sound { IsSound terms.now }
    requires normal { IsNormal terms.now a.0 }
    requires wider { width_at terms.now a.0 ≤ size }
    requires most { size ≤ 128 }
    ensures { Replaces terms.now (One (SignExt size) a) result }
{
    match number(terms, a) {
        Some(x) => fold_one(terms, TermOp::SignExt(size), a, x),
        None => {
            if size == terms.width(a) {
                Right::Old(a)
            } else {
                Right::One(TermOp::SignExt(size), a)
            }
        }
    }
}

/// The bits of one term in front of those of another.
pub(crate) fn joined(terms: &Terms, a: TermId, b: TermId) -> Right
    requires sound { IsSound terms.now }
    requires first { IsNormal terms.now a.0 }
    requires second { IsNormal terms.now b.0 }
    requires fits { width_at terms.now a.0 + width_at terms.now b.0 ≤ 128 }
    ensures { Replaces terms.now (Two Concat a b) result }
{
    match number(terms, a) {
        Some(x) => match number(terms, b) {
            Some(y) => fold(terms, TermOp::Concat, a, b, x, y),
            None => Right::Two(TermOp::Concat, a, b),
        },
        None => Right::Two(TermOp::Concat, a, b),
    }
}

//! What stands at an argument.
ghost use Rattle.std.specs.Prelude.{◌≡◌, ◌<◌, false, length, MatchOption};
ghost use Rattle.stk_terms.specs.Fitting.{IsSound};
ghost use Rattle.stk_terms.specs.Terms.{term_at};
ghost use Rattle.stk_rewrite.specs.Looks.{is_constant, is_not, is_neg, is_extract, adds_constant};
ghost use Rattle.stk_rewrite.specs.Normal.{IsNormal};
ghost use Rattle.stk_rewrite.specs.Readings.{IsNumber, IsSum, IsNegation, IsNegative, IsCut};

use stk_terms::{TermId, TermOp, Terms};

/// The operator.
pub(crate) fn op_of(terms: &Terms, a: TermId) -> TermOp
    requires sound { IsSound terms.now }
    requires exists { a.0 < length terms.now.terms }
    ensures { result ≡ (term_at terms.now a.0).op }
{
    terms.op(a)
}

/// How many arguments there are.
pub(crate) fn count_of(terms: &Terms, a: TermId) -> usize
    requires sound { IsSound terms.now }
    requires exists { a.0 < length terms.now.terms }
    ensures { result ≡ length (term_at terms.now a.0).args }
{
    let args = terms.args(a);
    args.len()
}

/// The number of a constant.
pub(crate) fn number(terms: &Terms, a: TermId) -> Option<u128>
    requires sound { IsSound terms.now }
    requires exists { a.0 < length terms.now.terms }
    ensures { MatchOption result (is_constant (term_at terms.now a.0).op ≡ false) (λ n. IsNumber terms.now a.0 n) }
{
    match terms.op(a) {
        TermOp::Constant(_, n) => Some(n),
        _ => None,
    }
}

/// The parts of a sum whose second part is a constant.
pub(crate) fn added(terms: &Terms, a: TermId) -> Option<(TermId, u128)>
    requires sound { IsSound terms.now }
    requires normal { IsNormal terms.now a.0 }
    ensures { MatchOption result (adds_constant terms.now a.0 ≡ false) (λ p. IsSum terms.now a.0 p.0.0 p.1) }
{
    match terms.op(a) {
        TermOp::Add => {
            let args = terms.args(a);
            let rest = args[0];
            let last = args[1];
            match number(terms, last) {
                Some(n) => Some((rest, n)),
                None => None,
            }
        }
        _ => None,
    }
}

/// The argument of Not.
pub(crate) fn negated(terms: &Terms, a: TermId) -> Option<TermId>
    requires sound { IsSound terms.now }
    requires normal { IsNormal terms.now a.0 }
    ensures { MatchOption result (is_not (term_at terms.now a.0).op ≡ false) (λ x. IsNegation terms.now a.0 x.0) }
{
    match terms.op(a) {
        TermOp::Not => {
            let args = terms.args(a);
            Some(args[0])
        }
        _ => None,
    }
}

/// The argument of Neg.
pub(crate) fn opposite(terms: &Terms, a: TermId) -> Option<TermId>
    requires sound { IsSound terms.now }
    requires normal { IsNormal terms.now a.0 }
    ensures { MatchOption result (is_neg (term_at terms.now a.0).op ≡ false) (λ x. IsNegative terms.now a.0 x.0) }
{
    match terms.op(a) {
        TermOp::Neg => {
            let args = terms.args(a);
            Some(args[0])
        }
        _ => None,
    }
}

/// What the term is cut out of, and from which bit on.
pub(crate) fn cut(terms: &Terms, a: TermId) -> Option<(u8, TermId)>
    requires sound { IsSound terms.now }
    requires normal { IsNormal terms.now a.0 }
    ensures { MatchOption result (is_extract (term_at terms.now a.0).op ≡ false) (λ p. IsCut terms.now a.0 p.0 p.1.0) }
{
    match terms.op(a) {
        TermOp::Extract(low, _) => {
            let args = terms.args(a);
            Some((low, args[0]))
        }
        _ => None,
    }
}

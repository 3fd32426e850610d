//! Choices.
ghost use Rattle.std.specs.Prelude.{◌≡◌, false};
ghost use Rattle.stk_terms.specs.Fitting.{IsSound};
ghost use Rattle.stk_terms.specs.Values.{width_at};
ghost use Rattle.stk_terms.specs.Terms.{term_at};
ghost use Rattle.stk_rewrite.specs.Looks.{is_not};
ghost use Rattle.stk_rewrite.specs.Normal.{IsNormal};
ghost use Rattle.stk_rewrite.specs.Readings.{ArePair, IsPlain};
ghost use Rattle.stk_rewrite.specs.Rights.{Replaces};
ghost use Rattle.stk_rewrite.specs.declared.right.Right.TheVariants.{Chosen};

use crate::reading::{negated, number};
use crate::right::Right;
use stk_terms::{TermId, TermOp, Terms};

// A choice of width 1 between 1 and 0 is the test or its Not.
fn picked(terms: &Terms, t: TermId, a: TermId, b: TermId) -> Right
    requires sound { IsSound terms.now }
    requires test { IsPlain terms.now t.0 }
    requires once { is_not (term_at terms.now t.0).op ≡ false }
    requires one { width_at terms.now t.0 ≡ 1 }
    requires pair { ArePair terms.now a.0 b.0 }
    requires apart { a.0 ≡ b.0 → ⊥ }
    ensures { Replaces terms.now (Chosen t a b) result }
{
    match number(terms, a) {
        Some(x) => match number(terms, b) {
            Some(y) => {
                if terms.width(a) == 1 {
                    if x == 1 && y == 0 {
                        Right::Old(t)
                    } else if x == 0 && y == 1 {
                        Right::One(TermOp::Not, t)
                    } else {
                        Right::Chosen(t, a, b)
                    }
                } else {
                    Right::Chosen(t, a, b)
                }
            }
            None => Right::Chosen(t, a, b),
        },
        None => Right::Chosen(t, a, b),
    }
}

/// One of two terms: a constant test chooses, equal branches need none, and a Not changes the branches.
pub(crate) fn choice(terms: &Terms, t: TermId, a: TermId, b: TermId) -> Right
    requires sound { IsSound terms.now }
    requires test { IsNormal terms.now t.0 }
    requires one { width_at terms.now t.0 ≡ 1 }
    requires pair { ArePair terms.now a.0 b.0 }
    ensures { Replaces terms.now (Chosen t a b) result }
{
    match number(terms, t) {
        Some(x) => { if x == 1 { Right::Old(a) } else { Right::Old(b) } }
        None => {
            if a.0 == b.0 {
                Right::Old(a)
            } else {
                match negated(terms, t) {
                    Some(u) => picked(terms, u, b, a),
                    None => picked(terms, t, a, b),
                }
            }
        }
    }
}

//! Shifts.
ghost use Rattle.std.specs.Prelude.{◌≡◌, true};
ghost use Rattle.stk_terms.specs.Fitting.{IsSound};
ghost use Rattle.stk_rewrite.specs.Looks.{is_shift};
ghost use Rattle.stk_rewrite.specs.Readings.{ArePair};
ghost use Rattle.stk_rewrite.specs.Rights.{Replaces};
ghost use Rattle.stk_rewrite.specs.declared.right.Right.TheVariants.{Two};

use crate::folding::fold;
use crate::reading::number;
use crate::right::Right;
use stk_terms::{TermId, TermOp, Terms};

/// A shift of either direction: by 0 it is the term, and of 0 it is 0.
pub(crate) fn shift(terms: &Terms, op: TermOp, a: TermId, b: TermId) -> Right
    requires sound { IsSound terms.now }
    requires pair { ArePair terms.now a.0 b.0 }
    requires shift { is_shift op ≡ true }
    ensures { Replaces terms.now (Two op a b) result }
{
    match number(terms, b) {
        Some(y) => match number(terms, a) {
            Some(x) => fold(terms, op, a, b, x, y),
            None => {
                if y == 0 {
                    Right::Old(a)
                } else {
                    Right::Two(op, a, b)
                }
            }
        },
        None => match number(terms, a) {
            Some(x) => {
                if x == 0 {
                    Right::Number(terms.width(a), 0)
                } else {
                    Right::Two(op, a, b)
                }
            }
            None => Right::Two(op, a, b),
        },
    }
}

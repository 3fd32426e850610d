//! An operator over constants is the constant of its value.
ghost use Rattle.std.specs.Prelude.{◌≡◌, ◌<◌, ℕ, List, [], length};
ghost use Rattle.stk_terms.specs.Fitting.{IsSound, arity, WidthsFit};
ghost use Rattle.stk_terms.specs.Values.{width_by, width_at};
ghost use Rattle.stk_rewrite.specs.Readings.{IsNumber};
ghost use Rattle.stk_rewrite.specs.Rights.{Replaces};
ghost use Rattle.stk_rewrite.specs.declared.right.Right.TheVariants.{Two, One};

use crate::right::Right;
use stk_terms::{TermId, TermOp, Terms, apply};

// The width of an operator over two.
fn pair_width(op: TermOp, first: u8, second: u8) -> u8
    requires arity { arity op ≡ 2 }
    requires fits { WidthsFit [] op first second 0 }
    ensures { (inputs : List ℕ) → width_by inputs op first second ≡ result }
{
    match op {
        TermOp::Eq => 1,
        TermOp::ULt => 1,
        TermOp::SLt => 1,
        TermOp::Concat => first + second,
        _ => first,
    }
}

/// The number of an operator over two constants.
pub(crate) fn fold(terms: &Terms, op: TermOp, a: TermId, b: TermId, x: u128, y: u128) -> Right
    requires sound { IsSound terms.now }
    requires exists { a.0 < length terms.now.terms }
    requires other { b.0 < length terms.now.terms }
    requires arity { arity op ≡ 2 }
    requires fits { WidthsFit terms.now.inputs op (width_at terms.now a.0) (width_at terms.now b.0) 0 }
    requires first { IsNumber terms.now a.0 x }
    requires second { IsNumber terms.now b.0 y }
    ensures { Replaces terms.now (Two op a b) result }
{
    let first = terms.width(a);
    let second = terms.width(b);
    let number = apply(op, &[], (first, second), x, y, 0);
    Right::Number(pair_width(op, first, second), number)
}

// The width of an operator over one.
fn single_width(op: TermOp, width: u8) -> u8
    requires { arity op ≡ 1 }
    ensures { (inputs : List ℕ) (w : ℕ) → width_by inputs op width w ≡ result }
{
    match op {
        TermOp::Extract(_, size) => size,
        TermOp::ZeroExt(size) => size,
        TermOp::SignExt(size) => size,
        _ => width,
    }
}

/// The number of an operator over a constant.
pub(crate) fn fold_one(terms: &Terms, op: TermOp, a: TermId, x: u128) -> Right
    requires sound { IsSound terms.now }
    requires exists { a.0 < length terms.now.terms }
    requires arity { arity op ≡ 1 }
    requires fits { WidthsFit terms.now.inputs op (width_at terms.now a.0) 0 0 }
    requires first { IsNumber terms.now a.0 x }
    ensures { Replaces terms.now (One op a) result }
{
    let width = terms.width(a);
    let number = apply(op, &[], (width, 0), x, 0, 0);
    Right::Number(single_width(op, width), number)
}

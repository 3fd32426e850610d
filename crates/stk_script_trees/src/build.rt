//! Trees of their parts.

ghost use Rattle.std.specs.Prelude.{◌≡◌, ℕ, List, IfOk};
ghost use Rattle.stk_base.specs.Text.{text_of};
ghost use Rattle.stk_scripts.specs.Syntax.{chosen, cut, joined, literal, named, one_of, two_of, widened};
ghost use Rattle.stk_script_trees.specs.View.{view_expr, view_test};
ghost use Rattle.stk_scripts.specs.Reading.{choice_of};

use crate::tree::{Expr, Test};
use std::alloc::{AllocError, Global};
use stk_base::{Boxed, Span};
use stk_scripts::{BinaryOp, ExtendOp, UnaryOp};

pub(crate) fn named(alloc: Global, at: Span) -> Result<Boxed<Expr>, AllocError>
    ensures { (bytes : List ℕ) → IfOk result (λ e. view_expr bytes e ≡ named (text_of bytes at)) }
{
    Boxed::new(alloc, Expr::Named(at))
}

pub(crate) fn literal(alloc: Global, width: u128, number: u128) -> Result<Boxed<Expr>, AllocError>
    ensures { (bytes : List ℕ) → IfOk result (λ e. view_expr bytes e ≡ literal width number) }
{
    Boxed::new(alloc, Expr::Literal(width, number))
}

pub(crate) fn one(
    alloc: Global,
    op: UnaryOp,
    operand: Boxed<Expr>,
) -> Result<Boxed<Expr>, AllocError>
    ensures { (bytes : List ℕ) → IfOk result (λ e. view_expr bytes e ≡ one_of op (view_expr bytes operand)) }
{
    Boxed::new(alloc, Expr::One(op, operand))
}

pub(crate) fn two(
    alloc: Global,
    op: BinaryOp,
    left: Boxed<Expr>,
    right: Boxed<Expr>,
) -> Result<Boxed<Expr>, AllocError>
    ensures { (bytes : List ℕ) → IfOk result (λ e. view_expr bytes e ≡ two_of op (view_expr bytes left) (view_expr bytes right)) }
{
    Boxed::new(alloc, Expr::Two(op, left, right))
}

pub(crate) fn joined(
    alloc: Global,
    first: Boxed<Expr>,
    second: Boxed<Expr>,
) -> Result<Boxed<Expr>, AllocError>
    ensures { (bytes : List ℕ) → IfOk result (λ e. view_expr bytes e ≡ joined (view_expr bytes first) (view_expr bytes second)) }
{
    Boxed::new(alloc, Expr::Joined(first, second))
}

pub(crate) fn cut(
    alloc: Global,
    high: u128,
    low: u128,
    operand: Boxed<Expr>,
) -> Result<Boxed<Expr>, AllocError>
    ensures { (bytes : List ℕ) → IfOk result (λ e. view_expr bytes e ≡ cut high low (view_expr bytes operand)) }
{
    Boxed::new(alloc, Expr::Cut(high, low, operand))
}

pub(crate) fn widened(
    alloc: Global,
    op: ExtendOp,
    more: u128,
    operand: Boxed<Expr>,
) -> Result<Boxed<Expr>, AllocError>
    ensures { (bytes : List ℕ) → IfOk result (λ e. view_expr bytes e ≡ widened op more (view_expr bytes operand)) }
{
    Boxed::new(alloc, Expr::Widened(op, more, operand))
}

pub(crate) fn chosen(
    alloc: Global,
    test: Test,
    yes: Boxed<Expr>,
    no: Boxed<Expr>,
) -> Result<Boxed<Expr>, AllocError>
    ensures { (bytes : List ℕ) → IfOk result (λ e. view_expr bytes e ≡ choice_of (view_test bytes test) (view_expr bytes yes) (view_expr bytes no)) }
{
    Boxed::new(alloc, Expr::Chosen(test.op, test.left, test.right, yes, no))
}

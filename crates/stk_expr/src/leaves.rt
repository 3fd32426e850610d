//! The readers that read no expression behind what they begin with: of leaves, members and steps.

ghost use Rattle.std.specs.Prelude.{◌≡◌, ◌+◌, ◌∷◌, ◌<◌, ◌≤◌, cond, IfOk, None};
ghost use Rattle.stk_tree.specs.Nesting.{most_nesting};
ghost use Rattle.stk_tree.specs.Placed.{step_level};
ghost use Rattle.stk_tree.specs.Syntax as s;
ghost use Rattle.stk_tree.specs.View.{view_expression};
ghost use Rattle.stk_grammar.specs.Reading.{texts_at};
ghost use Rattle.stk_expr.specs.Fronts.{found, member_at};
ghost use Rattle.stk_ctype.specs.Named.{named};
ghost use Rattle.stk_expr.specs.Gives.{Gives, IsRead};

use crate::build;
use crate::front::{is_named, texts};
use crate::parse::Parse;
use std::alloc::Global;
use stk_base::{Boxed, Span};
use stk_ctype::Names;
use stk_grammar::word_at;
use stk_tree::{Expr, Lexeme, StepOp, levels};

/// An expression that was read, its nesting and its level, and the tokens behind it.
#[derive(Drop)]
pub struct Found<'a> {
    pub tree: Boxed<Expr>,
    pub nesting: usize,
    pub level: usize,
    pub rest: &'a [Lexeme],
}

/// A name, unless it is a typedef name in force.
pub(crate) fn name<'a>(
    alloc: Global,
    bytes: &[u8],
    names: &Names,
    at: Span,
    lexemes: &'a [Lexeme],
) -> Result<Found<'a>, Parse>
    ensures value { Gives (λ x. (view_expression x.tree, x.rest.now)) result (cond (named bytes.now names.now at) None (found (s.name at) lexemes.now)) }
    ensures nesting { IfOk result (λ x. IsRead 1 (view_expression x.tree) x.nesting x.level) }
{
    if is_named(bytes, names, at) {
        return Err(Parse::NoTree);
    }
    Ok(Found {
        tree: build::name(alloc, at)?,
        nesting: 1,
        level: levels::PRIMARY,
        rest: lexemes,
    })
}

/// A number.
pub(crate) fn number<'a>(alloc: Global, at: Span, lexemes: &'a [Lexeme]) -> Result<Found<'a>, Parse>
    ensures value { Gives (λ x. (view_expression x.tree, x.rest.now)) result (found (s.number at) lexemes.now) }
    ensures nesting { IfOk result (λ x. IsRead 1 (view_expression x.tree) x.nesting x.level) }
{
    Ok(Found {
        tree: build::number(alloc, at)?,
        nesting: 1,
        level: levels::PRIMARY,
        rest: lexemes,
    })
}

/// A character.
pub(crate) fn character<'a>(
    alloc: Global,
    at: Span,
    lexemes: &'a [Lexeme],
) -> Result<Found<'a>, Parse>
    ensures value { Gives (λ x. (view_expression x.tree, x.rest.now)) result (found (s.character at) lexemes.now) }
    ensures nesting { IfOk result (λ x. IsRead 1 (view_expression x.tree) x.nesting x.level) }
{
    Ok(Found {
        tree: build::character(alloc, at)?,
        nesting: 1,
        level: levels::PRIMARY,
        rest: lexemes,
    })
}

/// String literals in a row, behind the first.
pub(crate) fn text<'a>(alloc: Global, at: Span, lexemes: &'a [Lexeme]) -> Result<Found<'a>, Parse>
    ensures value { Gives (λ x. (view_expression x.tree, x.rest.now)) result (found (s.text (at ∷ (texts_at lexemes.now).0)) (texts_at lexemes.now).1) }
    ensures nesting { IfOk result (λ x. IsRead 1 (view_expression x.tree) x.nesting x.level) }
{
    let (parts, rest) = texts(alloc, at, lexemes)?;
    Ok(Found {
        tree: build::text(alloc, parts)?,
        nesting: 1,
        level: levels::PRIMARY,
        rest,
    })
}

/// An operand with its member, behind the `.`.
pub(crate) fn dot_tail<'a>(
    alloc: Global,
    left: Found<'a>,
    lexemes: &'a [Lexeme],
) -> Result<Found<'a>, Parse>
    requires room { left.nesting < most_nesting }
    requires nesting { IsRead left.nesting (view_expression left.tree) left.nesting left.level }
    ensures value { Gives (λ x. (view_expression x.tree, x.rest.now)) result (member_at (s.dot (view_expression left.entry.tree)) lexemes.now) }
    ensures nesting { IfOk result (λ x. IsRead (left.entry.nesting + 1) (view_expression x.tree) x.nesting x.level) }
    ensures higher { IfOk result (λ x. left.entry.nesting < x.nesting) }
{
    let Some((member, rest)) = word_at(lexemes) else {
        return Err(Parse::NoTree);
    };
    Ok(Found {
        tree: build::dot(alloc, left.tree, member)?,
        nesting: left.nesting + 1,
        level: levels::POSTFIX,
        rest,
    })
}

/// An operand with its member, behind the `->`.
pub(crate) fn arrow_tail<'a>(
    alloc: Global,
    left: Found<'a>,
    lexemes: &'a [Lexeme],
) -> Result<Found<'a>, Parse>
    requires room { left.nesting < most_nesting }
    requires nesting { IsRead left.nesting (view_expression left.tree) left.nesting left.level }
    ensures value { Gives (λ x. (view_expression x.tree, x.rest.now)) result (member_at (s.arrow (view_expression left.entry.tree)) lexemes.now) }
    ensures nesting { IfOk result (λ x. IsRead (left.entry.nesting + 1) (view_expression x.tree) x.nesting x.level) }
    ensures higher { IfOk result (λ x. left.entry.nesting < x.nesting) }
{
    let Some((member, rest)) = word_at(lexemes) else {
        return Err(Parse::NoTree);
    };
    Ok(Found {
        tree: build::arrow(alloc, left.tree, member)?,
        nesting: left.nesting + 1,
        level: levels::POSTFIX,
        rest,
    })
}

/// An operand with the `++` or `--` behind it.
pub(crate) fn stepped_tail<'a>(
    alloc: Global,
    op: StepOp,
    left: Found<'a>,
    lexemes: &'a [Lexeme],
) -> Result<Found<'a>, Parse>
    requires room { left.nesting < most_nesting }
    requires nesting { IsRead left.nesting (view_expression left.tree) left.nesting left.level }
    requires behind { step_level op ≡ 16 }
    ensures value { Gives (λ x. (view_expression x.tree, x.rest.now)) result (found (s.step op (view_expression left.entry.tree)) lexemes.now) }
    ensures nesting { IfOk result (λ x. IsRead (left.entry.nesting + 1) (view_expression x.tree) x.nesting x.level) }
    ensures higher { IfOk result (λ x. left.entry.nesting < x.nesting) }
{
    Ok(Found {
        tree: build::stepped(alloc, op, left.tree)?,
        nesting: left.nesting + 1,
        level: levels::POSTFIX,
        rest: lexemes,
    })
}

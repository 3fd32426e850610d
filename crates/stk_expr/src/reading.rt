ghost use Rattle.std.specs.Prelude.{◌≡◌, ◌≤◌, IfOk, List, length, ℕ};
ghost use Rattle.std.specs.Result.{IsErrOf};
ghost use Rattle.stk_base.specs.Limits.{most_bytes};
ghost use Rattle.stk_tree.specs.declared.fixed.Lexeme.{Lexeme};
ghost use Rattle.stk_tree.specs.Nesting.{expression_nesting, most_nesting};
ghost use Rattle.stk_tree.specs.Layout.{laid_expression, unnumbered_at};
ghost use Rattle.stk_tree.specs.Syntax.{ExprTree};
ghost use Rattle.stk_tree.specs.View.{view_expression};
ghost use Rattle.stk_grammar.specs.Lexemes.{lexemes_of, spans_of};
ghost use Rattle.stk_tree.specs.Unlaid.{unlaid_expression};
ghost use Rattle.stk_grammar.specs.Expressions.{IsExpression, Leads};
ghost use Rattle.stk_grammar.specs.Stopped.{stopped_at};
ghost use Rattle.stk_expr.specs.Gives.{Gives};
ghost use Rattle.stk_ctype.specs.Named.{named};

use crate::front::stops;
use crate::parse::Parse;
use crate::reader;
use std::alloc::Global;
use stk_base::Boxed;
use stk_ctype::Names;
use stk_grammar::{lexemes_of, spans_of};
use stk_lex::Token;
use stk_nodes::span_expression;
use stk_tree::{Expr, Lexeme, MOST_NESTING};

/// Reads the expression of the level `level` or a higher one that begins at the place `at` among lexemes, and says at
/// which place it ends. The records of its nodes aren't set.
fn expression_at(
    alloc: Global,
    bytes: &[u8],
    lexemes: &[Lexeme],
    names: &Names,
    at: usize,
    level: u8,
) -> Result<(Expr, usize), Parse>
    requires level { (1 ≤ level) × (level ≤ 17) }
    requires within { at ≤ length lexemes.now }
    ensures found { IfOk result (λ x. IsExpression (named bytes.now names.now) level lexemes.now at x.1 (view_expression x.0)) }
    ensures unlaid { IfOk result (λ x. unlaid_expression (view_expression x.0) ≡ view_expression x.0) }
    ensures none { IsErrOf result Parse.NoTree
        → (t : ExprTree) (to : ℕ) → IsExpression (named bytes.now names.now) level lexemes.now at to t → ⊥ }
{
    let (_, front) = lexemes.split_at(at);
    let found = reader::expression(alloc, bytes, names, MOST_NESTING, level as usize, front)?;
    if stops(level as usize, found.rest) {
        Ok((found.tree.into_inner(), lexemes.len() - found.rest.len()))
    } else {
        Err(Parse::NoTree)
    }
}

/// Reads the expression of the level `level` or a higher one that begins at the place `at` among the tokens of a text,
/// and says at which place it ends (C11 6.5). Levels go from 1, the comma's, to 17.
///
/// `tokens` are those of `bytes`, at most 16,777,216, and the words that `names` has as typedef names stand for types.
/// The answered tree is well placed, fits the names, nests at most 400 deep and prints exactly the tokens from `at` up
/// to the answered place, where a stop stands: the end of the tokens, one of `)` `]` `}` `;` `:`, or, from level 2 on,
/// `,`. `NoTree` comes exactly where no tree and no place are so. Each node has the number 0 and the span of the tokens
/// that it prints. It takes time and memory for all of the tokens.
pub fn expr(
    alloc: Global,
    bytes: &[u8],
    tokens: &[Token],
    names: &Names,
    at: usize,
    level: u8,
) -> Result<(Expr, usize), Parse>
    requires level { (1 ≤ level) × (level ≤ 17) }
    requires within { at ≤ length tokens.now }
    requires few { length tokens.now ≤ most_bytes }
    ensures found { IfOk result (λ x. IsExpression (named bytes.now names.now) level (lexemes_of bytes.now tokens.now) at x.1 (view_expression x.0)) }
    ensures places { IfOk result (λ x. view_expression x.0 ≡ laid_expression (unnumbered_at (spans_of tokens.now)) 0 at (unlaid_expression (view_expression x.0))) }
    ensures none { IsErrOf result Parse.NoTree
        → (t : ExprTree) (to : ℕ) → IsExpression (named bytes.now names.now) level (lexemes_of bytes.now tokens.now) at to t → ⊥ }
{
    let lexemes = lexemes_of(alloc, bytes, tokens)?;
    let spans = spans_of(alloc, tokens)?;
    let (mut tree, end) = expression_at(alloc, bytes, lexemes.as_slice(), names, at, level)?;
    span_expression(&mut tree, at as u32, spans.as_slice());
    Ok((tree, end))
}

/// An expression at the front of some tokens, its nesting, and the tokens behind it.
#[derive(Drop)]
pub struct Leading<'a> {
    pub tree: Boxed<Expr>,
    pub nesting: usize,
    pub rest: &'a [Lexeme],
}

/// Reads the expression of the level `level` or a higher one that these tokens begin with, where a stop stands behind
/// it (C11 6.5). This is the call for readers of what holds expressions; `room` is the nesting that is left.
///
/// The tree is well placed, fits the names, is at most `room` high and is followed by a stop, as with `expr`. `NoTree`
/// comes exactly where the tokens begin with no such expression. The records of its nodes aren't set.
pub(crate) fn expression<'a>(
    alloc: Global,
    bytes: &[u8],
    names: &Names,
    room: usize,
    level: usize,
    lexemes: &'a [Lexeme],
) -> Result<Leading<'a>, Parse>
    requires room { room ≤ most_nesting }
    requires level { (1 ≤ level) × (level ≤ 17) }
    ensures found { IfOk result (λ x. Leads (named bytes.now names.now) room level lexemes.now (view_expression x.tree) x.rest.now) }
    ensures unlaid { IfOk result (λ x. unlaid_expression (view_expression x.tree) ≡ view_expression x.tree) }
    ensures nesting { IfOk result (λ x. x.nesting ≡ expression_nesting (view_expression x.tree)) }
    ensures none { IsErrOf result Parse.NoTree
        → (t : ExprTree) (rest : List Lexeme) → Leads (named bytes.now names.now) room level lexemes.now t rest → ⊥ }
{
    let found = reader::expression(alloc, bytes, names, room, level, lexemes)?;
    if stops(level, found.rest) {
        Ok(Leading {
            tree: found.tree,
            nesting: found.nesting,
            rest: found.rest,
        })
    } else {
        Err(Parse::NoTree)
    }
}

/// The same as `expression`, said by what reading from left to right gives: the call for readers that are proved
/// against that.
pub fn stopped<'a>(
    alloc: Global,
    bytes: &[u8],
    names: &Names,
    room: usize,
    level: usize,
    lexemes: &'a [Lexeme],
) -> Result<Leading<'a>, Parse>
    requires room { room ≤ most_nesting }
    requires level { (1 ≤ level) × (level ≤ 17) }
    ensures value { Gives (λ x. (view_expression x.tree, x.rest.now)) result (stopped_at (named bytes.now names.now) room level lexemes.now) }
    ensures nesting { IfOk result (λ x. (x.nesting ≡ expression_nesting (view_expression x.tree)) × (x.nesting ≤ room)) }
{
    expression(alloc, bytes, names, room, level, lexemes)
}

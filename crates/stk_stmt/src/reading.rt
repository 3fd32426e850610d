//! The public readers of units.

ghost use Rattle.std.specs.Prelude.{◌≡◌, ◌≤◌, IfOk, length};
ghost use Rattle.std.specs.Result.{IsErrOf};
ghost use Rattle.stk_base.specs.Limits.{most_bytes};
ghost use Rattle.stk_tree.specs.Layout.{unit_laid_out};
ghost use Rattle.stk_tree.specs.Syntax.{UnitTree};
ghost use Rattle.stk_tree.specs.View.{view_unit};
ghost use Rattle.stk_grammar.specs.Lexemes.{lexemes_of, spans_of};
ghost use Rattle.stk_tree.specs.Unlaid.{unlaid_unit};
ghost use Rattle.stk_grammar.specs.Units.{IsUnit};
ghost use Rattle.stk_ctype.specs.Named.{named};
ghost use Rattle.stk_stmt.specs.Heads.{IsHead, ended_lexemes, ended_spans};

use crate::heads::{end_of, head_of};
use crate::units::unit_of;
use std::alloc::Global;
use stk_base::Boxed;
use stk_ctype::Names;
use stk_expr::Parse;
use stk_grammar::{lexemes_of, spans_of};
use stk_lex::Token;
use stk_nodes::lay_out;
use stk_tree::{Fixed, Lexeme, Unit};

/// Reads the unit that all of these tokens are (C11 6.9): a lone `;`, a declaration, or the definition of a function.
///
/// `tokens` are those of a unit of `bytes`, at most 16,777,216, and the words that `names` has as typedef names stand
/// for types. The answered tree is well placed, fits the names, nests at most 400 deep and prints exactly the tokens.
/// Its nodes are numbered from 0, children from left to right and then their parent, and each has the span of its
/// tokens. `NoTree` comes exactly where no tree is so.
pub fn unit(
    alloc: Global,
    bytes: &[u8],
    tokens: &[Token],
    names: &Names,
) -> Result<Boxed<Unit>, Parse>
    requires { length tokens.now ≤ most_bytes }
    ensures found { IfOk result (λ x. IsUnit (named bytes.now names.now) (lexemes_of bytes.now tokens.now) (view_unit x)) }
    ensures places { IfOk result (λ x. view_unit x ≡ unit_laid_out (spans_of tokens.now) (unlaid_unit (view_unit x))) }
    ensures none { IsErrOf result Parse.NoTree → (u : UnitTree) → IsUnit (named bytes.now names.now) (lexemes_of bytes.now tokens.now) u → ⊥ }
{
    let lexemes = lexemes_of(alloc, bytes, tokens)?;
    let spans = spans_of(alloc, tokens)?;
    let mut found = unit_of(alloc, bytes, names, lexemes.as_slice())?;
    lay_out(found.get_mut(), spans.as_slice());
    Ok(found)
}

/// Reads tokens as if a `;` followed them, as a declaration at file scope (C11 6.7).
///
/// The answered tree is the unit that the tokens and the `;` are, as with `unit`; the `;` has the empty span at the end
/// of the last token. `NoTree` comes exactly where the tokens and the `;` are no declaration.
pub fn head(
    alloc: Global,
    bytes: &[u8],
    tokens: &[Token],
    names: &Names,
) -> Result<Boxed<Unit>, Parse>
    requires { length tokens.now ≤ most_bytes }
    ensures found { IfOk result (λ x. IsHead (named bytes.now names.now) (lexemes_of bytes.now tokens.now) (view_unit x)) }
    ensures places { IfOk result (λ x. view_unit x ≡ unit_laid_out (ended_spans (spans_of tokens.now)) (unlaid_unit (view_unit x))) }
    ensures none { IsErrOf result Parse.NoTree → (u : UnitTree) → IsHead (named bytes.now names.now) (lexemes_of bytes.now tokens.now) u → ⊥ }
{
    let mut lexemes = lexemes_of(alloc, bytes, tokens)?;
    let mut spans = spans_of(alloc, tokens)?;
    lexemes.push(Lexeme::Fixed(Fixed::Semicolon))?;
    spans.push(end_of(tokens))?;
    let mut found = head_of(alloc, bytes, names, lexemes.as_slice())?;
    lay_out(found.get_mut(), spans.as_slice());
    Ok(found)
}

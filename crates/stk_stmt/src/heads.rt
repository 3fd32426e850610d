//! The reader of a declaration whose `;` is left away, and where that `;` stands.

ghost use Rattle.std.specs.Prelude.{◌≡◌, ◌-◌};
ghost use Rattle.stk_tree.specs.Nesting.{most_nesting};
ghost use Rattle.stk_tree.specs.View.{view_unit};
ghost use Rattle.stk_grammar.specs.Lexemes.{spans_of};
ghost use Rattle.stk_ctype.specs.Named.{named};
ghost use Rattle.stk_expr.specs.Gives.{Gives};
ghost use Rattle.stk_stmt.specs.Heads.{last_end};
ghost use Rattle.stk_stmt.specs.Units.{declaration_unit_at};

use crate::units::declaration_unit;
use std::alloc::Global;
use stk_base::{Boxed, Span};
use stk_ctype::Names;
use stk_expr::Parse;
use stk_lex::Token;
use stk_tree::{Lexeme, Unit};

/// The empty span at the end of the last token; at 0 where there is none.
pub(crate) fn end_of(tokens: &[Token]) -> Span
    ensures from { result.from ≡ last_end (spans_of tokens.now) }
    ensures to { result.to ≡ last_end (spans_of tokens.now) }
{
    let end = if tokens.is_empty() {
        0
    } else {
        tokens[tokens.len() - 1].span.to
    };
    Span { from: end, to: end }
}

/// The declaration that all of these lexemes are, its `;` included. The records of its nodes aren't set.
pub(crate) fn head_of(
    alloc: Global,
    bytes: &[u8],
    names: &Names,
    lexemes: &[Lexeme],
) -> Result<Boxed<Unit>, Parse>
    ensures { Gives (λ x. view_unit x) result (declaration_unit_at (named bytes.now names.now) (most_nesting - 1) lexemes.now) }
{
    declaration_unit(alloc, bytes, names, lexemes)
}

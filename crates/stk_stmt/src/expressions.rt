//! The expressions of statements, with the punctuators around them.

ghost use Rattle.std.specs.Prelude.{◌≡◌, ◌≤◌};
ghost use Rattle.stk_tree.specs.Nesting.{most_nesting};
ghost use Rattle.stk_tree.specs.View.{given_expression, view_expression};
ghost use Rattle.stk_grammar.specs.Stopped.{stopped_at};
ghost use Rattle.stk_grammar.specs.StatementReading.{closed_at, condition_at, ended_at};
ghost use Rattle.stk_ctype.specs.Named.{named};
ghost use Rattle.stk_expr.specs.Gives.{Gives};

use std::alloc::Global;
use stk_base::Boxed;
use stk_ctype::Names;
use stk_expr::{Parse, stopped};
use stk_grammar::{behind_left_paren, behind_right_paren, behind_semicolon};
use stk_tree::{Expr, Lexeme, levels};

/// `( e )`
#[tactic(auto, unfolding(stk_grammar::specs::StatementReading::condition_at))]
pub(crate) fn condition<'a>(
    alloc: Global,
    bytes: &[u8],
    names: &Names,
    room: usize,
    lexemes: &'a [Lexeme],
) -> Result<(Boxed<Expr>, &'a [Lexeme]), Parse>
    requires { room ≤ most_nesting }
    ensures { Gives (λ x. (view_expression x.0, x.1.now)) result (condition_at (named bytes.now names.now) room lexemes.now) }
{
    let Some(inside) = behind_left_paren(lexemes) else {
        return Err(Parse::NoTree);
    };
    let found = stopped(alloc, bytes, names, room, levels::COMMA, inside)?;
    let Some(rest) = behind_right_paren(found.rest) else {
        return Err(Parse::NoTree);
    };
    Ok((found.tree, rest))
}

/// `[e] ;`
#[tactic(auto, unfolding(stk_grammar::specs::StatementReading::ended_at))]
pub(crate) fn ended<'a>(
    alloc: Global,
    bytes: &[u8],
    names: &Names,
    room: usize,
    lexemes: &'a [Lexeme],
) -> Result<(Option<Boxed<Expr>>, &'a [Lexeme]), Parse>
    requires { room ≤ most_nesting }
    ensures { Gives (λ x. (given_expression x.0, x.1.now)) result (ended_at (named bytes.now names.now) room lexemes.now) }
{
    if let Some(rest) = behind_semicolon(lexemes) {
        return Ok((None, rest));
    }
    let found = stopped(alloc, bytes, names, room, levels::COMMA, lexemes)?;
    let Some(rest) = behind_semicolon(found.rest) else {
        return Err(Parse::NoTree);
    };
    Ok((Some(found.tree), rest))
}

/// `[e] )`
#[tactic(auto, unfolding(stk_grammar::specs::StatementReading::closed_at))]
pub(crate) fn closed<'a>(
    alloc: Global,
    bytes: &[u8],
    names: &Names,
    room: usize,
    lexemes: &'a [Lexeme],
) -> Result<(Option<Boxed<Expr>>, &'a [Lexeme]), Parse>
    requires { room ≤ most_nesting }
    ensures { Gives (λ x. (given_expression x.0, x.1.now)) result (closed_at (named bytes.now names.now) room lexemes.now) }
{
    if let Some(rest) = behind_right_paren(lexemes) {
        return Ok((None, rest));
    }
    let found = stopped(alloc, bytes, names, room, levels::COMMA, lexemes)?;
    let Some(rest) = behind_right_paren(found.rest) else {
        return Err(Parse::NoTree);
    };
    Ok((Some(found.tree), rest))
}

//! Labels, and the statements, or the ends of statements, that hold no other statement (C11 6.8).

ghost use Rattle.std.specs.Prelude.{◌≡◌, ◌≤◌, map};
ghost use Rattle.stk_tree.specs.Nesting.{most_nesting};
ghost use Rattle.stk_tree.specs.Syntax as s;
ghost use Rattle.stk_tree.specs.View.{labels, view_label, view_statement};
ghost use Rattle.stk_grammar.specs.StatementReading.{label_at, plain_at, return_at, word_statement};
ghost use Rattle.stk_ctype.specs.Named.{named};
ghost use Rattle.stk_expr.specs.Gives.{Gives};
ghost use Rattle.stk_stmt.specs.Sections.{some_labels_at};
ghost use Rattle.stk_stmt.specs.Loops.{do_behind};

use crate::build;
use crate::expressions::{condition, ended};
use std::alloc::Global;
use stk_base::{Boxed, List};
use stk_ctype::Names;
use stk_expr::{Parse, stopped};
use stk_grammar::{
    begins_label, behind_case, behind_colon, behind_default, behind_semicolon, behind_while,
};
use stk_tree::{Label, Lexeme, Stmt, levels};

/// `case e :` or `default :`
#[tactic(auto, unfolding(stk_grammar::specs::StatementReading::label_at))]
fn label<'a>(
    alloc: Global,
    bytes: &[u8],
    names: &Names,
    room: usize,
    lexemes: &'a [Lexeme],
) -> Result<(Label, &'a [Lexeme]), Parse>
    requires { room ≤ most_nesting }
    ensures { Gives (λ x. (view_label x.0, x.1.now)) result (label_at (named bytes.now names.now) room lexemes.now) }
{
    if let Some(inside) = behind_case(lexemes) {
        let found = stopped(alloc, bytes, names, room, levels::CONDITIONAL, inside)?;
        let Some(rest) = behind_colon(found.rest) else {
            return Err(Parse::NoTree);
        };
        return Ok((Label::Case(found.tree.into_inner()), rest));
    }
    let Some(inside) = behind_default(lexemes) else {
        return Err(Parse::NoTree);
    };
    let Some(rest) = behind_colon(inside) else {
        return Err(Parse::NoTree);
    };
    Ok((Label::Default, rest))
}

/// Labels in a row, one or more. The bound is for the prover: each turn takes a token, so there are no more turns than
/// tokens.
pub(crate) fn labels<'a>(
    alloc: Global,
    bytes: &[u8],
    names: &Names,
    room: usize,
    lexemes: &'a [Lexeme],
) -> Result<(List<Label>, &'a [Lexeme]), Parse>
    requires { room ≤ most_nesting }
    ensures { Gives (λ x. (labels (map view_label x.0), x.1.now)) result (some_labels_at (named bytes.now names.now) room lexemes.now) }
{
    let (first, mut rest) = label(alloc, bytes, names, room, lexemes)?;
    let mut list = Vec::new(alloc);
    list.push(first)?;
    for _turn in 0..rest.len() + 1 {
        if !begins_label(rest) {
            return Ok((List::from_vec(list), rest));
        }
        let (found, behind) = label(alloc, bytes, names, room, rest)?;
        list.push(found)?;
        rest = behind;
    }
    Err(Parse::NoTree)
}

/// Behind a `break`.
pub(crate) fn break_statement(
    alloc: Global,
    lexemes: &[Lexeme],
) -> Result<(Boxed<Stmt>, &[Lexeme]), Parse>
    ensures { Gives (λ x. (view_statement x.0, x.1.now)) result (word_statement s.break_statement lexemes.now) }
{
    let Some(rest) = behind_semicolon(lexemes) else {
        return Err(Parse::NoTree);
    };
    build::finished(alloc, build::break_form(), rest)
}

/// Behind a `continue`.
pub(crate) fn continue_statement(
    alloc: Global,
    lexemes: &[Lexeme],
) -> Result<(Boxed<Stmt>, &[Lexeme]), Parse>
    ensures { Gives (λ x. (view_statement x.0, x.1.now)) result (word_statement s.continue_statement lexemes.now) }
{
    let Some(rest) = behind_semicolon(lexemes) else {
        return Err(Parse::NoTree);
    };
    build::finished(alloc, build::continue_form(), rest)
}

/// Behind a `return`.
#[tactic(auto, unfolding(stk_grammar::specs::StatementReading::return_at))]
pub(crate) fn return_statement<'a>(
    alloc: Global,
    bytes: &[u8],
    names: &Names,
    room: usize,
    lexemes: &'a [Lexeme],
) -> Result<(Boxed<Stmt>, &'a [Lexeme]), Parse>
    requires { room ≤ most_nesting }
    ensures { Gives (λ x. (view_statement x.0, x.1.now)) result (return_at (named bytes.now names.now) room lexemes.now) }
{
    let (value, rest) = ended(alloc, bytes, names, room, lexemes)?;
    build::finished(alloc, build::return_form(value), rest)
}

/// An expression statement, or a lone `;`.
#[tactic(auto, unfolding(stk_grammar::specs::StatementReading::plain_at))]
pub(crate) fn plain_statement<'a>(
    alloc: Global,
    bytes: &[u8],
    names: &Names,
    room: usize,
    lexemes: &'a [Lexeme],
) -> Result<(Boxed<Stmt>, &'a [Lexeme]), Parse>
    requires { room ≤ most_nesting }
    ensures { Gives (λ x. (view_statement x.0, x.1.now)) result (plain_at (named bytes.now names.now) room lexemes.now) }
{
    let (value, rest) = ended(alloc, bytes, names, room, lexemes)?;
    build::finished(alloc, build::plain(value), rest)
}

/// Behind the body of a `do`.
pub(crate) fn do_test<'a>(
    alloc: Global,
    bytes: &[u8],
    names: &Names,
    room: usize,
    body: Boxed<Stmt>,
    lexemes: &'a [Lexeme],
) -> Result<(Boxed<Stmt>, &'a [Lexeme]), Parse>
    requires { room ≤ most_nesting }
    ensures { Gives (λ x. (view_statement x.0, x.1.now)) result (do_behind (named bytes.now names.now) room (view_statement body) lexemes.now) }
{
    let Some(inside) = behind_while(lexemes) else {
        return Err(Parse::NoTree);
    };
    let (test, rest) = condition(alloc, bytes, names, room, inside)?;
    let Some(rest) = behind_semicolon(rest) else {
        return Err(Parse::NoTree);
    };
    build::finished(alloc, build::do_loop(body, test), rest)
}

//! The readers of statements: each reads what its definition reads, until memory runs out (C11 6.8).
//!
//! They call one another no deeper than the nesting that is left, and each loop takes a token or more in a turn.

ghost use Rattle.std.specs.Prelude.{◌≡◌, ◌≤◌, ◌<◌, map, suc, length};
ghost use Rattle.stk_tree.specs.Nesting.{most_nesting};
ghost use Rattle.stk_tree.specs.View.{given_expression, parts, sections, statements, view_expression, view_part, view_section, view_statement};
ghost use Rattle.stk_grammar.specs.StatementReading.{behind_else, block_at, do_at, else_on, if_at, part_at, parts_at, section_at, sections_at, statement_at, statement_on, statements_at, switch_at, while_at};
ghost use Rattle.stk_ctype.specs.Named.{named};
ghost use Rattle.stk_expr.specs.Gives.{Gives};
ghost use Rattle.stk_stmt.specs.Loops.{for_parts_at, for_with};
ghost use Rattle.stk_stmt.specs.Sections.{section_with};

use crate::build;
use crate::declarations::{begins_local, declaration, start};
use crate::expressions::{closed, condition, ended};
use crate::plain::{
    break_statement, continue_statement, do_test, labels, plain_statement, return_statement,
};
use std::alloc::Global;
use stk_base::{Boxed, List};
use stk_ctype::Names;
use stk_expr::Parse;
use stk_grammar::{
    Kind, behind_else, behind_first, behind_left_brace, behind_left_paren, behind_right_brace,
    ends_section, kind_at,
};
use stk_tree::{Expr, Lexeme, Part, Section, Stmt};

/// The test, the step and the body of a `for`, and the tokens behind it.
#[derive(Drop)]
struct ForParts<'a> {
    test: Option<Boxed<Expr>>,
    step: Option<Boxed<Expr>>,
    body: Boxed<Stmt>,
    rest: &'a [Lexeme],
}

/// A statement, of at most the nesting `room`.
#[cycle(statement)]
pub(crate) fn statement<'a>(
    alloc: Global,
    bytes: &[u8],
    names: &Names,
    room: usize,
    lexemes: &'a [Lexeme],
) -> Result<(Boxed<Stmt>, &'a [Lexeme]), Parse>
    requires { room ≤ most_nesting }
    ensures { Gives (λ x. (view_statement x.0, x.1.now)) result (statement_at (named bytes.now names.now) room lexemes.now) }
{
    if room == 0 {
        return Err(Parse::NoTree);
    }
    let kind = kind_at(lexemes);
    statement_of(alloc, bytes, names, room - 1, kind, lexemes)
}

/// A statement of this kind, whose parts have the room `inner`.
#[cycle(statement)]
fn statement_of<'a>(
    alloc: Global,
    bytes: &[u8],
    names: &Names,
    inner: usize,
    kind: Kind,
    lexemes: &'a [Lexeme],
) -> Result<(Boxed<Stmt>, &'a [Lexeme]), Parse>
    requires { inner < most_nesting }
    ensures { Gives (λ x. (view_statement x.0, x.1.now)) result (statement_on (named bytes.now names.now) inner (statement_at (named bytes.now names.now) inner) (section_at (named bytes.now names.now) inner) kind lexemes.now) }
{
    let behind = behind_first(lexemes);
    match kind {
        Kind::Block => block(alloc, bytes, names, inner, behind),
        Kind::If => if_statement(alloc, bytes, names, inner, behind),
        Kind::Switch => switch_statement(alloc, bytes, names, inner, behind),
        Kind::While => while_statement(alloc, bytes, names, inner, behind),
        Kind::Do => do_statement(alloc, bytes, names, inner, behind),
        Kind::For => for_statement(alloc, bytes, names, inner, behind),
        Kind::Break => break_statement(alloc, behind),
        Kind::Continue => continue_statement(alloc, behind),
        Kind::Return => return_statement(alloc, bytes, names, inner, behind),
        Kind::Plain => plain_statement(alloc, bytes, names, inner, lexemes),
    }
}

/// A part of a block: a declaration where one begins, and else a statement.
#[cycle(statement)]
#[tactic(auto, unfolding(stk_grammar::specs::StatementReading::part_at))]
fn part<'a>(
    alloc: Global,
    bytes: &[u8],
    names: &Names,
    inner: usize,
    lexemes: &'a [Lexeme],
) -> Result<(Part, &'a [Lexeme]), Parse>
    requires { inner < most_nesting }
    ensures { Gives (λ x. (view_part x.0, x.1.now)) result (part_at (named bytes.now names.now) inner (statement_at (named bytes.now names.now) inner) lexemes.now) }
{
    if begins_local(bytes, names, lexemes) {
        let found = declaration(alloc, bytes, names, false, inner, lexemes)?;
        return Ok((build::local(found.tree), found.rest));
    }
    let (found, rest) = statement(alloc, bytes, names, inner, lexemes)?;
    Ok((build::run(found), rest))
}

/// Parts up to the `}`, and it. The bound is for the prover: each turn takes a token, so there are no more turns than
/// tokens.
#[cycle(statement)]
fn parts<'a>(
    alloc: Global,
    bytes: &[u8],
    names: &Names,
    inner: usize,
    lexemes: &'a [Lexeme],
) -> Result<(List<Part>, &'a [Lexeme]), Parse>
    requires { inner < most_nesting }
    ensures { Gives (λ x. (parts (map view_part x.0), x.1.now)) result (parts_at (named bytes.now names.now) inner (statement_at (named bytes.now names.now) inner) (suc (length lexemes.now)) lexemes.now) }
{
    let mut list = Vec::new(alloc);
    let mut rest = lexemes;
    for _turn in 0..lexemes.len() + 1 {
        if let Some(behind) = behind_right_brace(rest) {
            return Ok((List::from_vec(list), behind));
        }
        let (found, behind) = part(alloc, bytes, names, inner, rest)?;
        list.push(found)?;
        rest = behind;
    }
    Err(Parse::NoTree)
}

/// A block, behind its `{`.
#[cycle(statement)]
#[tactic(auto, unfolding(stk_grammar::specs::StatementReading::block_at))]
fn block<'a>(
    alloc: Global,
    bytes: &[u8],
    names: &Names,
    inner: usize,
    lexemes: &'a [Lexeme],
) -> Result<(Boxed<Stmt>, &'a [Lexeme]), Parse>
    requires { inner < most_nesting }
    ensures { Gives (λ x. (view_statement x.0, x.1.now)) result (block_at (named bytes.now names.now) inner (statement_at (named bytes.now names.now) inner) lexemes.now) }
{
    let (list, rest) = parts(alloc, bytes, names, inner, lexemes)?;
    build::finished(alloc, build::block(list), rest)
}

/// What follows the first statement of an `if`: an `else` is taken by the nearest `if` (C11 6.8.4.1).
#[cycle(statement)]
fn if_rest<'a>(
    alloc: Global,
    bytes: &[u8],
    names: &Names,
    inner: usize,
    test: Boxed<Expr>,
    then: Boxed<Stmt>,
    lexemes: &'a [Lexeme],
) -> Result<(Boxed<Stmt>, &'a [Lexeme]), Parse>
    requires { inner < most_nesting }
    ensures { Gives (λ x. (view_statement x.0, x.1.now)) result (else_on (statement_at (named bytes.now names.now) inner) (view_expression test) (view_statement then) (behind_else lexemes.now) lexemes.now) }
{
    let Some(inside) = behind_else(lexemes) else {
        return build::finished(alloc, build::lone_if(test, then), lexemes);
    };
    let (other, rest) = statement(alloc, bytes, names, inner, inside)?;
    build::finished(alloc, build::if_else(test, then, other), rest)
}

/// Behind an `if`.
#[cycle(statement)]
#[tactic(auto, unfolding(stk_grammar::specs::StatementReading::if_at))]
fn if_statement<'a>(
    alloc: Global,
    bytes: &[u8],
    names: &Names,
    inner: usize,
    lexemes: &'a [Lexeme],
) -> Result<(Boxed<Stmt>, &'a [Lexeme]), Parse>
    requires { inner < most_nesting }
    ensures { Gives (λ x. (view_statement x.0, x.1.now)) result (if_at (named bytes.now names.now) inner (statement_at (named bytes.now names.now) inner) lexemes.now) }
{
    let (test, rest) = condition(alloc, bytes, names, inner, lexemes)?;
    let (then, rest) = statement(alloc, bytes, names, inner, rest)?;
    if_rest(alloc, bytes, names, inner, test, then, rest)
}

/// Behind a `while`.
#[cycle(statement)]
#[tactic(auto, unfolding(stk_grammar::specs::StatementReading::while_at))]
fn while_statement<'a>(
    alloc: Global,
    bytes: &[u8],
    names: &Names,
    inner: usize,
    lexemes: &'a [Lexeme],
) -> Result<(Boxed<Stmt>, &'a [Lexeme]), Parse>
    requires { inner < most_nesting }
    ensures { Gives (λ x. (view_statement x.0, x.1.now)) result (while_at (named bytes.now names.now) inner (statement_at (named bytes.now names.now) inner) lexemes.now) }
{
    let (test, rest) = condition(alloc, bytes, names, inner, lexemes)?;
    let (body, rest) = statement(alloc, bytes, names, inner, rest)?;
    build::finished(alloc, build::while_loop(test, body), rest)
}

/// Behind a `do`.
#[cycle(statement)]
#[tactic(auto, unfolding(stk_grammar::specs::StatementReading::do_at))]
fn do_statement<'a>(
    alloc: Global,
    bytes: &[u8],
    names: &Names,
    inner: usize,
    lexemes: &'a [Lexeme],
) -> Result<(Boxed<Stmt>, &'a [Lexeme]), Parse>
    requires { inner < most_nesting }
    ensures { Gives (λ x. (view_statement x.0, x.1.now)) result (do_at (named bytes.now names.now) inner (statement_at (named bytes.now names.now) inner) lexemes.now) }
{
    let (body, rest) = statement(alloc, bytes, names, inner, lexemes)?;
    do_test(alloc, bytes, names, inner, body, rest)
}

/// Behind the first part of a `for`: the test, the step and the body.
#[cycle(statement)]
fn for_parts<'a>(
    alloc: Global,
    bytes: &[u8],
    names: &Names,
    inner: usize,
    lexemes: &'a [Lexeme],
) -> Result<ForParts<'a>, Parse>
    requires { inner < most_nesting }
    ensures { Gives (λ x. ((given_expression x.test, given_expression x.step, view_statement x.body), x.rest.now)) result (for_parts_at (named bytes.now names.now) inner (statement_at (named bytes.now names.now) inner) lexemes.now) }
{
    let (test, rest) = ended(alloc, bytes, names, inner, lexemes)?;
    let (step, rest) = closed(alloc, bytes, names, inner, rest)?;
    let (body, rest) = statement(alloc, bytes, names, inner, rest)?;
    Ok(ForParts {
        test,
        step,
        body,
        rest,
    })
}

/// Behind a `for`.
#[cycle(statement)]
fn for_statement<'a>(
    alloc: Global,
    bytes: &[u8],
    names: &Names,
    inner: usize,
    lexemes: &'a [Lexeme],
) -> Result<(Boxed<Stmt>, &'a [Lexeme]), Parse>
    requires { inner < most_nesting }
    ensures { Gives (λ x. (view_statement x.0, x.1.now)) result (for_with (named bytes.now names.now) inner (statement_at (named bytes.now names.now) inner) lexemes.now) }
{
    let Some(inside) = behind_left_paren(lexemes) else {
        return Err(Parse::NoTree);
    };
    let (first, rest) = start(alloc, bytes, names, inner, inside)?;
    let found = for_parts(alloc, bytes, names, inner, rest)?;
    let form = build::for_loop(first, found.test, found.step, found.body);
    build::finished(alloc, form, found.rest)
}

/// Behind a `switch`.
#[cycle(statement)]
#[tactic(auto, unfolding(stk_grammar::specs::StatementReading::switch_at))]
fn switch_statement<'a>(
    alloc: Global,
    bytes: &[u8],
    names: &Names,
    inner: usize,
    lexemes: &'a [Lexeme],
) -> Result<(Boxed<Stmt>, &'a [Lexeme]), Parse>
    requires { inner < most_nesting }
    ensures { Gives (λ x. (view_statement x.0, x.1.now)) result (switch_at (named bytes.now names.now) inner (section_at (named bytes.now names.now) inner) lexemes.now) }
{
    let (value, rest) = condition(alloc, bytes, names, inner, lexemes)?;
    let Some(inside) = behind_left_brace(rest) else {
        return Err(Parse::NoTree);
    };
    let (list, rest) = sections(alloc, bytes, names, inner, inside)?;
    build::finished(alloc, build::switch(value, list), rest)
}

/// Sections up to the `}`, and it. The bound is for the prover: each turn takes a token, so there are no more turns
/// than tokens.
#[cycle(statement)]
fn sections<'a>(
    alloc: Global,
    bytes: &[u8],
    names: &Names,
    inner: usize,
    lexemes: &'a [Lexeme],
) -> Result<(List<Section>, &'a [Lexeme]), Parse>
    requires { inner < most_nesting }
    ensures { Gives (λ x. (sections (map view_section x.0), x.1.now)) result (sections_at (section_at (named bytes.now names.now) inner) (suc (length lexemes.now)) lexemes.now) }
{
    let mut list = Vec::new(alloc);
    let mut rest = lexemes;
    for _turn in 0..lexemes.len() + 1 {
        if let Some(behind) = behind_right_brace(rest) {
            return Ok((List::from_vec(list), behind));
        }
        let (found, behind) = section(alloc, bytes, names, inner, rest)?;
        list.push(found)?;
        rest = behind;
    }
    Err(Parse::NoTree)
}

/// A section of a `switch`, of at most the nesting `room`.
#[cycle(statement)]
fn section<'a>(
    alloc: Global,
    bytes: &[u8],
    names: &Names,
    room: usize,
    lexemes: &'a [Lexeme],
) -> Result<(Section, &'a [Lexeme]), Parse>
    requires { room ≤ most_nesting }
    ensures { Gives (λ x. (view_section x.0, x.1.now)) result (section_at (named bytes.now names.now) room lexemes.now) }
{
    if room == 0 {
        return Err(Parse::NoTree);
    }
    section_of(alloc, bytes, names, room - 1, lexemes)
}

/// A section, whose parts have the room `inner`.
#[cycle(statement)]
fn section_of<'a>(
    alloc: Global,
    bytes: &[u8],
    names: &Names,
    inner: usize,
    lexemes: &'a [Lexeme],
) -> Result<(Section, &'a [Lexeme]), Parse>
    requires { inner < most_nesting }
    ensures { Gives (λ x. (view_section x.0, x.1.now)) result (section_with (named bytes.now names.now) inner (statement_at (named bytes.now names.now) inner) lexemes.now) }
{
    let (punctuators, rest) = labels(alloc, bytes, names, inner, lexemes)?;
    let (body, rest) = section_body(alloc, bytes, names, inner, rest)?;
    Ok((build::section(punctuators, body), rest))
}

/// The statements of a section, up to a label or the `}`. The bound is for the prover: each turn takes a token, so
/// there are no more turns than tokens.
#[cycle(statement)]
fn section_body<'a>(
    alloc: Global,
    bytes: &[u8],
    names: &Names,
    inner: usize,
    lexemes: &'a [Lexeme],
) -> Result<(List<Stmt>, &'a [Lexeme]), Parse>
    requires { inner < most_nesting }
    ensures { Gives (λ x. (statements (map view_statement x.0), x.1.now)) result (statements_at (statement_at (named bytes.now names.now) inner) (suc (length lexemes.now)) lexemes.now) }
{
    let mut list = Vec::new(alloc);
    let mut rest = lexemes;
    for _turn in 0..lexemes.len() + 1 {
        if ends_section(rest) {
            return Ok((List::from_vec(list), rest));
        }
        let (found, behind) = statement(alloc, bytes, names, inner, rest)?;
        list.push(found.into_inner())?;
        rest = behind;
    }
    Err(Parse::NoTree)
}

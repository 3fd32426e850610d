//! The tokens of a unit and of its statements.
ghost use Rattle.std.specs.Prelude.{◌≡◌, ◌++◌, ◌∷◌, [], map, IfOk, OnOk};
ghost use Rattle.stk_tree.specs.Tokens.{declaration_tokens, expression_tokens, function_tokens, label_tokens, labels_tokens, optional_tokens, part_tokens, parts_tokens, section_tokens, sections_tokens, start_tokens, statement_form_tokens, statement_tokens, statements_tokens, unit_tokens};
ghost use Rattle.stk_tree.specs.View.{given_expression, labels, parts, sections, statements, view_declaration, view_expression, view_function, view_label, view_part, view_section, view_start, view_statement, view_statement_form, view_unit};
ghost use Rattle.stk_tree.specs.declared.fixed.Fixed.TheVariants as fixed;
ghost use Rattle.stk_tree.specs.declared.fixed.Lexeme.TheVariants.{Fixed as Token};

use crate::punctuators::{put_punctuator, put_punctuators, put_storage};
use crate::put_expressions::{put_base, put_declarator, put_declarators, put_expression};
use std::alloc::{AllocError, Global};
use stk_base::NoMemory;
use stk_tree::{
    Declaration, Expr, Fixed, Function, Label, Lexeme, Part, Section, Start, Stmt, StmtForm, Unit,
};

fn put_optional(out: &mut Vec<Lexeme>, x: &Option<Expr>) -> Result<(), AllocError>
    ensures { OnOk result (out.new.items ≡ out.old.items ++ optional_tokens (given_expression x.now)) }
{
    match x {
        None => Ok(()),
        Some(e) => put_expression(out, e),
    }
}

fn put_declaration(out: &mut Vec<Lexeme>, x: &Declaration) -> Result<(), AllocError>
    ensures { OnOk result (out.new.items ≡ out.old.items ++ declaration_tokens (view_declaration x.now)) }
{
    put_storage(out, x.storage)?;
    put_base(out, &x.base)?;
    put_declarators(out, x.list.as_slice())?;
    put_punctuator(out, Fixed::Semicolon)
}

/// Puts an expression that may be missing, and a punctuator.
fn put_optional_before(
    out: &mut Vec<Lexeme>,
    x: &Option<Expr>,
    punctuator: Fixed,
) -> Result<(), AllocError>
    ensures { OnOk result (out.new.items ≡ out.old.items ++ optional_tokens (given_expression x.now) ++ Token punctuator ∷ []) }
{
    put_optional(out, x)?;
    put_punctuator(out, punctuator)
}

fn put_start(out: &mut Vec<Lexeme>, x: &Start) -> Result<(), AllocError>
    ensures { OnOk result (out.new.items ≡ out.old.items ++ start_tokens (view_start x.now)) }
{
    match x {
        Start::Local(d) => put_declaration(out, d),
        Start::Plain(e) => put_optional_before(out, e, Fixed::Semicolon),
    }
}

fn put_label(out: &mut Vec<Lexeme>, x: &Label) -> Result<(), AllocError>
    ensures { OnOk result (out.new.items ≡ out.old.items ++ label_tokens (view_label x.now)) }
{
    match x {
        Label::Default => put_punctuators(out, Fixed::Default, Fixed::Colon),
        Label::Case(e) => put_case(out, e),
    }
}

/// Puts `case e:`.
fn put_case(out: &mut Vec<Lexeme>, e: &Expr) -> Result<(), AllocError>
    ensures { OnOk result (out.new.items ≡ out.old.items ++ Token fixed.Case ∷ expression_tokens (view_expression e.now) ++ Token fixed.Colon ∷ []) }
{
    put_punctuator(out, Fixed::Case)?;
    put_expression(out, e)?;
    put_punctuator(out, Fixed::Colon)
}

fn put_labels(out: &mut Vec<Lexeme>, list: &[Label]) -> Result<(), AllocError>
    ensures { OnOk result (out.new.items ≡ out.old.items ++ labels_tokens (labels (map view_label list.now))) }
{
    for x in list {
        put_label(out, x)?;
    }
    Ok(())
}

/// Puts a keyword and `( e )`.
fn put_test(out: &mut Vec<Lexeme>, word: Fixed, e: &Expr) -> Result<(), AllocError>
    ensures { OnOk result (out.new.items ≡ out.old.items ++ Token word ∷ Token fixed.LeftParen ∷ expression_tokens (view_expression e.now) ++ Token fixed.RightParen ∷ []) }
{
    put_punctuators(out, word, Fixed::LeftParen)?;
    put_expression(out, e)?;
    put_punctuator(out, Fixed::RightParen)
}

#[cycle(put_statement)]
fn put_statement(out: &mut Vec<Lexeme>, x: &Stmt) -> Result<(), AllocError>
    ensures { OnOk result (out.new.items ≡ out.old.items ++ statement_tokens (view_statement x.now)) }
{
    put_statement_form(out, &x.form)
}

#[cycle(put_statement)]
fn put_statements(out: &mut Vec<Lexeme>, list: &[Stmt]) -> Result<(), AllocError>
    ensures { OnOk result (out.new.items ≡ out.old.items ++ statements_tokens (statements (map view_statement list.now))) }
{
    for x in list {
        put_statement(out, x)?;
    }
    Ok(())
}

#[cycle(put_statement)]
fn put_statement_form(out: &mut Vec<Lexeme>, x: &StmtForm) -> Result<(), AllocError>
    ensures { OnOk result (out.new.items ≡ out.old.items ++ statement_form_tokens (view_statement_form x.now)) }
{
    match x {
        StmtForm::Block(list) => put_block(out, list.as_slice()),
        StmtForm::Plain(e) => put_optional_before(out, e, Fixed::Semicolon),
        StmtForm::If(e, body, None) => {
            put_test(out, Fixed::If, e)?;
            put_statement(out, body.get())
        }
        StmtForm::If(e, body, Some(other)) => {
            put_test(out, Fixed::If, e)?;
            put_statement(out, body.get())?;
            put_else(out, other.get())
        }
        StmtForm::Switch(e, list) => {
            put_test(out, Fixed::Switch, e)?;
            put_switch_body(out, list.as_slice())
        }
        StmtForm::While(e, body) => {
            put_test(out, Fixed::While, e)?;
            put_statement(out, body.get())
        }
        StmtForm::Do(body, e) => put_do(out, body.get(), e),
        StmtForm::For(start, test, step, body) => {
            put_for_head(out, start, test, step)?;
            put_statement(out, body.get())
        }
        StmtForm::Break => put_punctuators(out, Fixed::Break, Fixed::Semicolon),
        StmtForm::Continue => put_punctuators(out, Fixed::Continue, Fixed::Semicolon),
        StmtForm::Return(e) => put_return(out, e),
    }
}

/// Puts parts in braces.
#[cycle(put_statement)]
fn put_block(out: &mut Vec<Lexeme>, list: &[Part]) -> Result<(), AllocError>
    ensures { OnOk result (out.new.items ≡ out.old.items ++ Token fixed.LeftBrace ∷ parts_tokens (parts (map view_part list.now)) ++ Token fixed.RightBrace ∷ []) }
{
    put_punctuator(out, Fixed::LeftBrace)?;
    put_parts(out, list)?;
    put_punctuator(out, Fixed::RightBrace)
}

/// Puts `else` and a statement.
#[cycle(put_statement)]
fn put_else(out: &mut Vec<Lexeme>, x: &Stmt) -> Result<(), AllocError>
    ensures { OnOk result (out.new.items ≡ out.old.items ++ Token fixed.Else ∷ statement_tokens (view_statement x.now)) }
{
    put_punctuator(out, Fixed::Else)?;
    put_statement(out, x)
}

/// Puts the sections of a `switch` in braces.
#[cycle(put_statement)]
fn put_switch_body(out: &mut Vec<Lexeme>, list: &[Section]) -> Result<(), AllocError>
    ensures { OnOk result (out.new.items ≡ out.old.items ++ Token fixed.LeftBrace ∷ sections_tokens (sections (map view_section list.now)) ++ Token fixed.RightBrace ∷ []) }
{
    put_punctuator(out, Fixed::LeftBrace)?;
    put_sections(out, list)?;
    put_punctuator(out, Fixed::RightBrace)
}

/// Puts a `do` with its test.
#[cycle(put_statement)]
fn put_do(out: &mut Vec<Lexeme>, body: &Stmt, e: &Expr) -> Result<(), AllocError>
    ensures { OnOk result (out.new.items ≡ out.old.items ++ Token fixed.Do ∷ statement_tokens (view_statement body.now) ++ Token fixed.While ∷ Token fixed.LeftParen ∷ expression_tokens (view_expression e.now) ++ Token fixed.RightParen ∷ Token fixed.Semicolon ∷ []) }
{
    put_punctuator(out, Fixed::Do)?;
    put_statement(out, body)?;
    put_test(out, Fixed::While, e)?;
    put_punctuator(out, Fixed::Semicolon)
}

/// Puts `for` and what stands in its parentheses.
fn put_for_head(
    out: &mut Vec<Lexeme>,
    start: &Start,
    test: &Option<Expr>,
    step: &Option<Expr>,
) -> Result<(), AllocError>
    ensures { OnOk result (out.new.items ≡ out.old.items ++ Token fixed.For ∷ Token fixed.LeftParen ∷ start_tokens (view_start start.now) ++ optional_tokens (given_expression test.now) ++ Token fixed.Semicolon ∷ optional_tokens (given_expression step.now) ++ Token fixed.RightParen ∷ []) }
{
    put_punctuators(out, Fixed::For, Fixed::LeftParen)?;
    put_start(out, start)?;
    put_optional_before(out, test, Fixed::Semicolon)?;
    put_optional_before(out, step, Fixed::RightParen)
}

/// Puts a `return`.
fn put_return(out: &mut Vec<Lexeme>, e: &Option<Expr>) -> Result<(), AllocError>
    ensures { OnOk result (out.new.items ≡ out.old.items ++ Token fixed.Return ∷ optional_tokens (given_expression e.now) ++ Token fixed.Semicolon ∷ []) }
{
    put_punctuator(out, Fixed::Return)?;
    put_optional_before(out, e, Fixed::Semicolon)
}

#[cycle(put_statement)]
fn put_part(out: &mut Vec<Lexeme>, x: &Part) -> Result<(), AllocError>
    ensures { OnOk result (out.new.items ≡ out.old.items ++ part_tokens (view_part x.now)) }
{
    match x {
        Part::Local(d) => put_declaration(out, d),
        Part::Run(s) => put_statement(out, s),
    }
}

#[cycle(put_statement)]
fn put_parts(out: &mut Vec<Lexeme>, list: &[Part]) -> Result<(), AllocError>
    ensures { OnOk result (out.new.items ≡ out.old.items ++ parts_tokens (parts (map view_part list.now))) }
{
    for x in list {
        put_part(out, x)?;
    }
    Ok(())
}

#[cycle(put_statement)]
fn put_section(out: &mut Vec<Lexeme>, x: &Section) -> Result<(), AllocError>
    ensures { OnOk result (out.new.items ≡ out.old.items ++ section_tokens (view_section x.now)) }
{
    put_labels(out, x.labels.as_slice())?;
    put_statements(out, x.body.as_slice())
}

#[cycle(put_statement)]
fn put_sections(out: &mut Vec<Lexeme>, list: &[Section]) -> Result<(), AllocError>
    ensures { OnOk result (out.new.items ≡ out.old.items ++ sections_tokens (sections (map view_section list.now))) }
{
    for x in list {
        put_section(out, x)?;
    }
    Ok(())
}

fn put_function(out: &mut Vec<Lexeme>, x: &Function) -> Result<(), AllocError>
    ensures { OnOk result (out.new.items ≡ out.old.items ++ function_tokens (view_function x.now)) }
{
    put_storage(out, x.storage)?;
    put_base(out, &x.base)?;
    put_declarator(out, &x.declr)?;
    put_statement(out, &x.body)
}

fn put_unit(out: &mut Vec<Lexeme>, x: &Unit) -> Result<(), AllocError>
    ensures { OnOk result (out.new.items ≡ out.old.items ++ unit_tokens (view_unit x.now)) }
{
    match x {
        Unit::Empty(_) => put_punctuator(out, Fixed::Semicolon),
        Unit::Declares(_, d) => put_declaration(out, d),
        Unit::Defines(_, f) => put_function(out, f),
    }
}

/// The tokens that a unit prints, in order.
///
/// Reserved words and punctuators come as such; names, numbers, characters and string literals come with the span where
/// their text stands in the input.
pub fn tokens_of(alloc: Global, unit: &Unit) -> Result<Vec<Lexeme>, NoMemory>
    ensures { IfOk result (λ v. v.items ≡ unit_tokens (view_unit unit.now)) }
{
    let mut out = Vec::new(alloc);
    put_unit(&mut out, unit)?;
    Ok(out)
}

//! The nodes of statements and units.

ghost use Rattle.std.specs.Prelude.{◌≡◌, ◌++◌, IfOk, OnOk, map};
ghost use Rattle.std.specs.Option.{option_map};
ghost use Rattle.stk_tree.specs.View.{given_expression, labels, maybe_statement, parts, sections, statements, view_declaration, view_function, view_initialiser, view_label, view_part, view_section, view_start, view_statement, view_statement_form, view_unit};
ghost use Rattle.stk_nodes.specs.Rows.{declaration_row, function_row, initialiser_row, label_row, labels_row, maybe_expression_row, maybe_statement_row, part_row, parts_row, section_row, sections_row, start_row, statement_form_row, statement_row, statements_row, unit_row};

use crate::expressions::{
    put_base, put_declarator, put_declarators, put_expression, put_initialiser, put_node,
};
use std::alloc::Global;
use stk_base::{Boxed, NoMemory};
use stk_tree::{
    Declaration, Expr, Function, Init, Label, Node, Part, Section, Start, Stmt, StmtForm, Unit,
};

fn put_optional(x: &Option<Expr>, out: &mut Vec<Node>) -> Result<(), NoMemory>
    ensures { OnOk result (out.new.items ≡ out.old.items ++ maybe_expression_row (given_expression x.now)) }
{
    match x {
        None => Ok(()),
        Some(e) => put_expression(e, out),
    }
}

fn put_declaration(x: &Declaration, out: &mut Vec<Node>) -> Result<(), NoMemory>
    ensures { OnOk result (out.new.items ≡ out.old.items ++ declaration_row (view_declaration x.now)) }
{
    put_base(&x.base, out)?;
    put_declarators(x.list.as_slice(), out)
}

fn put_start(x: &Start, out: &mut Vec<Node>) -> Result<(), NoMemory>
    ensures { OnOk result (out.new.items ≡ out.old.items ++ start_row (view_start x.now)) }
{
    match x {
        Start::Local(d) => put_declaration(d, out),
        Start::Plain(e) => put_optional(e, out),
    }
}

fn put_label(x: &Label, out: &mut Vec<Node>) -> Result<(), NoMemory>
    ensures { OnOk result (out.new.items ≡ out.old.items ++ label_row (view_label x.now)) }
{
    match x {
        Label::Default => Ok(()),
        Label::Case(e) => put_expression(e, out),
    }
}

fn put_labels(list: &[Label], out: &mut Vec<Node>) -> Result<(), NoMemory>
    ensures { OnOk result (out.new.items ≡ out.old.items ++ labels_row (labels (map view_label list.now))) }
{
    for x in list {
        put_label(x, out)?;
    }
    Ok(())
}

#[cycle(statement)]
fn put_statement(x: &Stmt, out: &mut Vec<Node>) -> Result<(), NoMemory>
    ensures { OnOk result (out.new.items ≡ out.old.items ++ statement_row (view_statement x.now)) }
{
    put_statement_form(&x.form, out)?;
    put_node(x.node, out)
}

#[cycle(statement)]
fn put_statements(list: &[Stmt], out: &mut Vec<Node>) -> Result<(), NoMemory>
    ensures { OnOk result (out.new.items ≡ out.old.items ++ statements_row (statements (map view_statement list.now))) }
{
    for x in list {
        put_statement(x, out)?;
    }
    Ok(())
}

#[cycle(statement)]
fn put_statement_form(x: &StmtForm, out: &mut Vec<Node>) -> Result<(), NoMemory>
    ensures { OnOk result (out.new.items ≡ out.old.items ++ statement_form_row (view_statement_form x.now)) }
{
    match x {
        StmtForm::Block(list) => put_parts(list.as_slice(), out),
        StmtForm::Plain(e) | StmtForm::Return(e) => put_optional(e, out),
        StmtForm::If(e, body, other) => {
            put_expression(e, out)?;
            put_statement(body.get(), out)?;
            put_otherwise(other, out)
        }
        StmtForm::Switch(e, list) => {
            put_expression(e, out)?;
            put_sections(list.as_slice(), out)
        }
        StmtForm::While(e, body) => {
            put_expression(e, out)?;
            put_statement(body.get(), out)
        }
        StmtForm::Do(body, e) => {
            put_statement(body.get(), out)?;
            put_expression(e, out)
        }
        StmtForm::For(start, test, step, body) => {
            put_start(start, out)?;
            put_optional(test, out)?;
            put_optional(step, out)?;
            put_statement(body.get(), out)
        }
        StmtForm::Break | StmtForm::Continue => Ok(()),
    }
}

#[cycle(statement)]
fn put_otherwise(x: &Option<Boxed<Stmt>>, out: &mut Vec<Node>) -> Result<(), NoMemory>
    ensures { OnOk result (out.new.items ≡ out.old.items ++ maybe_statement_row (maybe_statement (option_map view_statement x.now))) }
{
    match x {
        None => Ok(()),
        Some(y) => put_statement(y.get(), out),
    }
}

#[cycle(statement)]
fn put_part(x: &Part, out: &mut Vec<Node>) -> Result<(), NoMemory>
    ensures { OnOk result (out.new.items ≡ out.old.items ++ part_row (view_part x.now)) }
{
    match x {
        Part::Local(d) => put_declaration(d, out),
        Part::Run(y) => put_statement(y, out),
    }
}

#[cycle(statement)]
fn put_parts(list: &[Part], out: &mut Vec<Node>) -> Result<(), NoMemory>
    ensures { OnOk result (out.new.items ≡ out.old.items ++ parts_row (parts (map view_part list.now))) }
{
    for x in list {
        put_part(x, out)?;
    }
    Ok(())
}

#[cycle(statement)]
fn put_section(x: &Section, out: &mut Vec<Node>) -> Result<(), NoMemory>
    ensures { OnOk result (out.new.items ≡ out.old.items ++ section_row (view_section x.now)) }
{
    put_labels(x.labels.as_slice(), out)?;
    put_statements(x.body.as_slice(), out)?;
    put_node(x.node, out)
}

#[cycle(statement)]
fn put_sections(list: &[Section], out: &mut Vec<Node>) -> Result<(), NoMemory>
    ensures { OnOk result (out.new.items ≡ out.old.items ++ sections_row (sections (map view_section list.now))) }
{
    for x in list {
        put_section(x, out)?;
    }
    Ok(())
}

fn put_function(x: &Function, out: &mut Vec<Node>) -> Result<(), NoMemory>
    ensures { OnOk result (out.new.items ≡ out.old.items ++ function_row (view_function x.now)) }
{
    put_base(&x.base, out)?;
    put_declarator(&x.declr, out)?;
    put_statement(&x.body, out)
}

fn put_unit(x: &Unit, out: &mut Vec<Node>) -> Result<(), NoMemory>
    ensures { OnOk result (out.new.items ≡ out.old.items ++ unit_row (view_unit x.now)) }
{
    match x {
        Unit::Empty(n) => put_node(*n, out),
        Unit::Declares(n, d) => {
            put_declaration(d, out)?;
            put_node(*n, out)
        }
        Unit::Defines(n, f) => {
            put_function(f, out)?;
            put_node(*n, out)
        }
    }
}

/// The nodes of a unit in a row, in the order of their numbers: children from left to right, then their parent.
pub fn unit_nodes(alloc: Global, x: &Unit) -> Result<Vec<Node>, NoMemory>
    ensures { IfOk result (λ ns. ns.items ≡ unit_row (view_unit x.now)) }
{
    let mut out = Vec::new(alloc);
    put_unit(x, &mut out)?;
    Ok(out)
}

/// The nodes of an initialiser in a row, in the same order.
pub fn initialiser_nodes(alloc: Global, x: &Init) -> Result<Vec<Node>, NoMemory>
    ensures { IfOk result (λ ns. ns.items ≡ initialiser_row (view_initialiser x.now)) }
{
    let mut out = Vec::new(alloc);
    put_initialiser(x, &mut out)?;
    Ok(out)
}

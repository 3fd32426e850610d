//! The visits of statements and of whole functions.

ghost use Rattle.std.specs.Prelude.{◌≡◌, ◌++◌, OnOk, IfOk, map, true};
ghost use Rattle.std.specs.Option.{option_map};
ghost use Rattle.stk_tree.specs.View.{view_declarator, view_declaration, view_start, view_label, view_statement, view_statement_form, view_part, view_section, view_function, declarators, labels, statements, parts, sections, maybe_statement};
ghost use Rattle.stk_function_types.specs.Nodes.{typing_in};
ghost use Rattle.stk_meaning.specs.Visits.{declarator_visits, declarators_visits, declaration_visits, start_visits, label_visits, labels_visits, statement_visits, statement_form_visits, maybe_statement_visits, statements_visits, parts_visits, part_visits, sections_visits, section_visits};
ghost use Rattle.stk_meaning.specs.Keys.{function_visits};
ghost use Rattle.stk_function_types.specs.Visits.{marked_visits, marked_visit};

use crate::expressions::{expression_visits, maybe_visits};
use crate::initialisers::{head_visits, initial_visits, tail_visits};
use crate::visits::put;
use crate::{FunctionTypes, Role, Visit, VisitForm};
use std::alloc::Global;
use stk_base::{Boxed, NoMemory};
use stk_tree::{
    Declaration, Declr, Function, Label, Part, Section, Start, Stmt, StmtForm, is_static,
};

// Puts the visits of the declarator of a local object.
fn declarator_visits<'a>(
    d: &'a Declr,
    types: &FunctionTypes,
    is_static: bool,
    out: &mut Vec<Visit<'a>>,
) -> Result<(), NoMemory>
    ensures { OnOk result (map marked_visit out.new.items ≡ map marked_visit out.old.items ++ marked_visits true (declarator_visits (typing_in types.now) is_static (view_declarator d.now))) }
{
    tail_visits(&d.tail, types, out)?;
    initial_visits(&d.init, types, is_static, out)?;
    let form = VisitForm::Declarator(is_static, d.name, &d.init);
    put(
        Visit {
            node: d.node.number,
            is_evaluated: true,
            form,
        },
        out,
    )
}

// Puts the visits of declarators.
fn declarators_visits<'a>(
    list: &'a [Declr],
    types: &FunctionTypes,
    is_static: bool,
    out: &mut Vec<Visit<'a>>,
) -> Result<(), NoMemory>
    ensures { OnOk result (map marked_visit out.new.items ≡ map marked_visit out.old.items ++ marked_visits true (declarators_visits (typing_in types.now) is_static (declarators (map view_declarator list.now)))) }
{
    for d in list {
        declarator_visits(d, types, is_static, out)?;
    }
    Ok(())
}

/// Puts the visits of a declaration in a block behind the others.
pub fn declaration_visits<'a>(
    d: &'a Declaration,
    types: &FunctionTypes,
    out: &mut Vec<Visit<'a>>,
) -> Result<(), NoMemory>
    ensures { OnOk result (map marked_visit out.new.items ≡ map marked_visit out.old.items ++ marked_visits true (declaration_visits (typing_in types.now) (view_declaration d.now))) }
{
    declarators_visits(d.list.as_slice(), types, is_static(d.storage), out)
}

// Puts the visits of the first part of a `for`.
fn start_visits<'a>(
    first: &'a Start,
    types: &FunctionTypes,
    out: &mut Vec<Visit<'a>>,
) -> Result<(), NoMemory>
    ensures { OnOk result (map marked_visit out.new.items ≡ map marked_visit out.old.items ++ marked_visits true (start_visits (typing_in types.now) (view_start first.now))) }
{
    match first {
        Start::Local(d) => declaration_visits(d, types, out),
        Start::Plain(e) => maybe_visits(e, types, Role::reading(), out),
    }
}

// Puts the visits of a label.
fn label_visits<'a>(
    x: &'a Label,
    types: &FunctionTypes,
    out: &mut Vec<Visit<'a>>,
) -> Result<(), NoMemory>
    ensures { OnOk result (map marked_visit out.new.items ≡ map marked_visit out.old.items ++ marked_visits true (label_visits (typing_in types.now) (view_label x.now))) }
{
    match x {
        Label::Default => Ok(()),
        Label::Case(e) => expression_visits(e, types, false, Role::reading(), out),
    }
}

// Puts the visits of labels.
fn labels_visits<'a>(
    list: &'a [Label],
    types: &FunctionTypes,
    out: &mut Vec<Visit<'a>>,
) -> Result<(), NoMemory>
    ensures { OnOk result (map marked_visit out.new.items ≡ map marked_visit out.old.items ++ marked_visits true (labels_visits (typing_in types.now) (labels (map view_label list.now)))) }
{
    for x in list {
        label_visits(x, types, out)?;
    }
    Ok(())
}

/// Puts the visits of a statement, which is entered as a branch or not, behind the others: its parts in order, and then
/// the statement.
#[cycle(statement_visits)]
pub(crate) fn statement_visits<'a>(
    x: &'a Stmt,
    types: &FunctionTypes,
    is_arm: bool,
    out: &mut Vec<Visit<'a>>,
) -> Result<(), NoMemory>
    ensures { OnOk result (map marked_visit out.new.items ≡ map marked_visit out.old.items ++ marked_visits true (statement_visits (typing_in types.now) is_arm (view_statement x.now))) }
{
    statement_form_visits(&x.form, types, out)?;
    let form = VisitForm::Statement(is_arm, &x.form);
    put(
        Visit {
            node: x.node.number,
            is_evaluated: true,
            form,
        },
        out,
    )
}

/// Puts the visits of the parts of a statement behind the others, in order.
#[cycle(statement_visits)]
pub(crate) fn statement_form_visits<'a>(
    f: &'a StmtForm,
    types: &FunctionTypes,
    out: &mut Vec<Visit<'a>>,
) -> Result<(), NoMemory>
    ensures { OnOk result (map marked_visit out.new.items ≡ map marked_visit out.old.items ++ marked_visits true (statement_form_visits (typing_in types.now) (view_statement_form f.now))) }
{
    match f {
        StmtForm::Block(list) => parts_visits(list.as_slice(), types, out),
        StmtForm::Plain(e) | StmtForm::Return(e) => maybe_visits(e, types, Role::reading(), out),
        StmtForm::If(e, x, other) => {
            expression_visits(e, types, true, Role::as_test(), out)?;
            statement_visits(x.get(), types, true, out)?;
            otherwise_visits(other, types, out)
        }
        StmtForm::Switch(e, list) => {
            expression_visits(e, types, true, Role::reading(), out)?;
            sections_visits(list.as_slice(), types, out)
        }
        StmtForm::While(e, x) => {
            expression_visits(e, types, true, Role::as_test(), out)?;
            statement_visits(x.get(), types, true, out)
        }
        StmtForm::Do(x, e) => {
            statement_visits(x.get(), types, true, out)?;
            expression_visits(e, types, true, Role::as_test(), out)
        }
        StmtForm::For(first, test, step, x) => {
            start_visits(first, types, out)?;
            maybe_visits(test, types, Role::as_test(), out)?;
            maybe_visits(step, types, Role::reading(), out)?;
            statement_visits(x.get(), types, true, out)
        }
        StmtForm::Break | StmtForm::Continue => Ok(()),
    }
}

// Puts the visits of a statement that may be missing.
#[cycle(statement_visits)]
fn otherwise_visits<'a>(
    x: &'a Option<Boxed<Stmt>>,
    types: &FunctionTypes,
    out: &mut Vec<Visit<'a>>,
) -> Result<(), NoMemory>
    ensures { OnOk result (map marked_visit out.new.items ≡ map marked_visit out.old.items ++ marked_visits true (maybe_statement_visits (typing_in types.now) (maybe_statement (option_map view_statement x.now)))) }
{
    match x {
        None => Ok(()),
        Some(y) => statement_visits(y.get(), types, true, out),
    }
}

// Puts the visits of statements.
#[cycle(statement_visits)]
fn statements_visits<'a>(
    list: &'a [Stmt],
    types: &FunctionTypes,
    out: &mut Vec<Visit<'a>>,
) -> Result<(), NoMemory>
    ensures { OnOk result (map marked_visit out.new.items ≡ map marked_visit out.old.items ++ marked_visits true (statements_visits (typing_in types.now) (statements (map view_statement list.now)))) }
{
    for x in list {
        statement_visits(x, types, false, out)?;
    }
    Ok(())
}

// Puts the visits of the parts of a block.
#[cycle(statement_visits)]
fn parts_visits<'a>(
    list: &'a [Part],
    types: &FunctionTypes,
    out: &mut Vec<Visit<'a>>,
) -> Result<(), NoMemory>
    ensures { OnOk result (map marked_visit out.new.items ≡ map marked_visit out.old.items ++ marked_visits true (parts_visits (typing_in types.now) (parts (map view_part list.now)))) }
{
    for x in list {
        part_visits(x, types, out)?;
    }
    Ok(())
}

// Puts the visits of a part of a block.
#[cycle(statement_visits)]
fn part_visits<'a>(
    x: &'a Part,
    types: &FunctionTypes,
    out: &mut Vec<Visit<'a>>,
) -> Result<(), NoMemory>
    ensures { OnOk result (map marked_visit out.new.items ≡ map marked_visit out.old.items ++ marked_visits true (part_visits (typing_in types.now) (view_part x.now))) }
{
    match x {
        Part::Local(d) => declaration_visits(d, types, out),
        Part::Run(y) => statement_visits(y, types, false, out),
    }
}

// Puts the visits of sections.
#[cycle(statement_visits)]
fn sections_visits<'a>(
    list: &'a [Section],
    types: &FunctionTypes,
    out: &mut Vec<Visit<'a>>,
) -> Result<(), NoMemory>
    ensures { OnOk result (map marked_visit out.new.items ≡ map marked_visit out.old.items ++ marked_visits true (sections_visits (typing_in types.now) (sections (map view_section list.now)))) }
{
    for x in list {
        section_visits(x, types, out)?;
    }
    Ok(())
}

// Puts the visits of a section.
#[cycle(statement_visits)]
fn section_visits<'a>(
    x: &'a Section,
    types: &FunctionTypes,
    out: &mut Vec<Visit<'a>>,
) -> Result<(), NoMemory>
    ensures { OnOk result (map marked_visit out.new.items ≡ map marked_visit out.old.items ++ marked_visits true (section_visits (typing_in types.now) (view_section x.now))) }
{
    labels_visits(x.labels.as_slice(), types, out)?;
    statements_visits(x.body.as_slice(), types, out)?;
    let form = VisitForm::Section(x.labels.as_slice());
    put(
        Visit {
            node: x.node.number,
            is_evaluated: true,
            form,
        },
        out,
    )
}

/// The visits of a function, in the order of their nodes.
pub fn function_visits<'a>(
    alloc: Global,
    types: &FunctionTypes,
    f: &'a Function,
) -> Result<Vec<Visit<'a>>, NoMemory>
    ensures { IfOk result (λ visits. map marked_visit visits.items ≡ marked_visits true (function_visits (typing_in types.now) (view_function f.now))) }
{
    let mut out = Vec::new(alloc);
    head_visits(&f.declr, types, &mut out)?;
    statement_visits(&f.body, types, false, &mut out)?;
    Ok(out)
}

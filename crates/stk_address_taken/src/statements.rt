//! What is an operand of `&` in declarations, statements and functions.

ghost use Rattle.std.specs.Prelude.{◌≡◌, ◌++◌, IfOk, OnOk, map};
ghost use Rattle.std.specs.Option.{option_map};
ghost use Rattle.stk_tree.specs.View.{view_declarator, view_declaration, view_start, view_label, view_statement, view_part, view_section, view_parameter, view_initialiser, view_function, declarators, labels, statements, parts, sections, parameters, maybe_statement, maybe_initialiser};
ghost use Rattle.stk_address_taken.specs.Bindings.{declarator_bindings, declarators_bindings, declaration_bindings, start_bindings, part_bindings, parts_bindings, parameter_bindings, parameters_bindings};
ghost use Rattle.stk_address_taken.specs.Expressions.{maybe_initialiser_taken};
ghost use Rattle.stk_address_taken.specs.Statements.{initial_taken, declarator_taken, declarators_taken, declaration_taken, start_taken, label_taken, labels_taken, statement_taken, statements_taken, maybe_statement_taken, part_taken, parts_taken, section_taken, sections_taken, parameter_taken, parameters_taken, function_taken};

use crate::Binding;
use crate::bindings::add_binding;
use crate::expressions::{expression_taken, maybe_taken};
use crate::initialisers::{maybe_initialiser_taken, tail_taken};
use std::alloc::Global;
use stk_base::{Boxed, NoMemory};
use stk_tree::{
    Declaration, Declr, Function, Init, Label, Param, Part, Section, Start, Stmt, StmtForm,
    is_static,
};

// Notes the same in an initialiser that is looked at.
fn initial_taken(
    bytes: &[u8],
    bindings: &[Binding],
    is_static: bool,
    i: &Option<Init>,
    out: &mut Vec<u32>,
) -> Result<(), NoMemory>
    ensures { OnOk result (out.new.items ≡ out.old.items ++ initial_taken is_static (maybe_initialiser_taken bytes.now bindings.now (maybe_initialiser (option_map view_initialiser i.now)))) }
{
    if is_static {
        Ok(())
    } else {
        maybe_initialiser_taken(bytes, bindings, i, out)
    }
}

// Notes the same in a declarator, whose name comes into force.
fn declarator_taken(
    bytes: &[u8],
    bindings: &mut Vec<Binding>,
    is_static: bool,
    d: &Declr,
    out: &mut Vec<u32>,
) -> Result<(), NoMemory>
    ensures taken { OnOk result (out.new.items ≡ out.old.items ++ declarator_taken bytes.now bindings.old.items is_static (view_declarator d.now)) }
    ensures bindings { OnOk result (bindings.new.items ≡ bindings.old.items ++ declarator_bindings (view_declarator d.now)) }
{
    tail_taken(bytes, bindings, &d.tail, out)?;
    add_binding(bindings, d)?;
    initial_taken(bytes, bindings, is_static, &d.init, out)
}

// Notes the same in declarators.
fn declarators_taken(
    bytes: &[u8],
    bindings: &mut Vec<Binding>,
    is_static: bool,
    list: &[Declr],
    out: &mut Vec<u32>,
) -> Result<(), NoMemory>
    ensures taken { OnOk result (out.new.items ≡ out.old.items ++ declarators_taken bytes.now bindings.old.items is_static (declarators (map view_declarator list.now))) }
    ensures bindings { OnOk result (bindings.new.items ≡ bindings.old.items ++ declarators_bindings (declarators (map view_declarator list.now))) }
{
    for d in list {
        declarator_taken(bytes, bindings, is_static, d, out)?;
    }
    Ok(())
}

// Notes the same in a declaration.
fn declaration_taken(
    bytes: &[u8],
    bindings: &mut Vec<Binding>,
    d: &Declaration,
    out: &mut Vec<u32>,
) -> Result<(), NoMemory>
    ensures taken { OnOk result (out.new.items ≡ out.old.items ++ declaration_taken bytes.now bindings.old.items (view_declaration d.now)) }
    ensures bindings { OnOk result (bindings.new.items ≡ bindings.old.items ++ declaration_bindings (view_declaration d.now)) }
{
    let is_static = is_static(d.storage);
    declarators_taken(bytes, bindings, is_static, d.list.as_slice(), out)
}

// Notes the same in the first part of a `for`.
fn start_taken(
    bytes: &[u8],
    bindings: &mut Vec<Binding>,
    first: &Start,
    out: &mut Vec<u32>,
) -> Result<(), NoMemory>
    ensures taken { OnOk result (out.new.items ≡ out.old.items ++ start_taken bytes.now bindings.old.items (view_start first.now)) }
    ensures bindings { OnOk result (bindings.new.items ≡ bindings.old.items ++ start_bindings (view_start first.now)) }
{
    match first {
        Start::Local(d) => declaration_taken(bytes, bindings, d, out),
        Start::Plain(e) => maybe_taken(bytes, bindings, e, out),
    }
}

// Notes the same in a label.
fn label_taken(
    bytes: &[u8],
    bindings: &[Binding],
    x: &Label,
    out: &mut Vec<u32>,
) -> Result<(), NoMemory>
    ensures { OnOk result (out.new.items ≡ out.old.items ++ label_taken bytes.now bindings.now (view_label x.now)) }
{
    match x {
        Label::Default => Ok(()),
        Label::Case(e) => expression_taken(bytes, bindings, e, out),
    }
}

// Notes the same in labels.
fn labels_taken(
    bytes: &[u8],
    bindings: &[Binding],
    list: &[Label],
    out: &mut Vec<u32>,
) -> Result<(), NoMemory>
    ensures { OnOk result (out.new.items ≡ out.old.items ++ labels_taken bytes.now bindings.now (labels (map view_label list.now))) }
{
    for x in list {
        label_taken(bytes, bindings, x, out)?;
    }
    Ok(())
}

// Notes the same in a statement, and brings the bindings back to what they were.
#[cycle(statement_taken)]
fn statement_taken(
    bytes: &[u8],
    bindings: &mut Vec<Binding>,
    x: &Stmt,
    out: &mut Vec<u32>,
) -> Result<(), NoMemory>
    ensures taken { OnOk result (out.new.items ≡ out.old.items ++ statement_taken bytes.now bindings.old.items (view_statement x.now)) }
    ensures bindings { OnOk result (bindings.new.items ≡ bindings.old.items) }
{
    match &x.form {
        StmtForm::Block(list) => {
            let outer = bindings.len();
            parts_taken(bytes, bindings, list.as_slice(), out)?;
            bindings.truncate(outer);
            Ok(())
        }
        StmtForm::Plain(e) | StmtForm::Return(e) => maybe_taken(bytes, bindings, e, out),
        StmtForm::If(e, y, other) => {
            expression_taken(bytes, bindings, e, out)?;
            statement_taken(bytes, bindings, y.get(), out)?;
            otherwise_taken(bytes, bindings, other, out)
        }
        StmtForm::Switch(e, list) => {
            expression_taken(bytes, bindings, e, out)?;
            sections_taken(bytes, bindings, list.as_slice(), out)
        }
        StmtForm::While(e, y) => {
            expression_taken(bytes, bindings, e, out)?;
            statement_taken(bytes, bindings, y.get(), out)
        }
        StmtForm::Do(y, e) => {
            statement_taken(bytes, bindings, y.get(), out)?;
            expression_taken(bytes, bindings, e, out)
        }
        StmtForm::For(first, test, step, y) => {
            let outer = bindings.len();
            start_taken(bytes, bindings, first, out)?;
            maybe_taken(bytes, bindings, test, out)?;
            maybe_taken(bytes, bindings, step, out)?;
            statement_taken(bytes, bindings, y.get(), out)?;
            bindings.truncate(outer);
            Ok(())
        }
        StmtForm::Break | StmtForm::Continue => Ok(()),
    }
}

// Notes the same in statements.
#[cycle(statement_taken)]
fn statements_taken(
    bytes: &[u8],
    bindings: &mut Vec<Binding>,
    list: &[Stmt],
    out: &mut Vec<u32>,
) -> Result<(), NoMemory>
    ensures taken { OnOk result (out.new.items ≡ out.old.items ++ statements_taken bytes.now bindings.old.items (statements (map view_statement list.now))) }
    ensures bindings { OnOk result (bindings.new.items ≡ bindings.old.items) }
{
    for x in list {
        statement_taken(bytes, bindings, x, out)?;
    }
    Ok(())
}

// Notes the same in a statement that may be missing.
#[cycle(statement_taken)]
fn otherwise_taken(
    bytes: &[u8],
    bindings: &mut Vec<Binding>,
    other: &Option<Boxed<Stmt>>,
    out: &mut Vec<u32>,
) -> Result<(), NoMemory>
    ensures taken { OnOk result (out.new.items ≡ out.old.items ++ maybe_statement_taken bytes.now bindings.old.items (maybe_statement (option_map view_statement other.now))) }
    ensures bindings { OnOk result (bindings.new.items ≡ bindings.old.items) }
{
    match other {
        None => Ok(()),
        Some(x) => statement_taken(bytes, bindings, x.get(), out),
    }
}

// Notes the same in a part of a block, whose names come into force.
#[cycle(statement_taken)]
fn part_taken(
    bytes: &[u8],
    bindings: &mut Vec<Binding>,
    p: &Part,
    out: &mut Vec<u32>,
) -> Result<(), NoMemory>
    ensures taken { OnOk result (out.new.items ≡ out.old.items ++ part_taken bytes.now bindings.old.items (view_part p.now)) }
    ensures bindings { OnOk result (bindings.new.items ≡ bindings.old.items ++ part_bindings (view_part p.now)) }
{
    match p {
        Part::Local(d) => declaration_taken(bytes, bindings, d, out),
        Part::Run(x) => statement_taken(bytes, bindings, x, out),
    }
}

// Notes the same in the parts of a block.
#[cycle(statement_taken)]
fn parts_taken(
    bytes: &[u8],
    bindings: &mut Vec<Binding>,
    list: &[Part],
    out: &mut Vec<u32>,
) -> Result<(), NoMemory>
    ensures taken { OnOk result (out.new.items ≡ out.old.items ++ parts_taken bytes.now bindings.old.items (parts (map view_part list.now))) }
    ensures bindings { OnOk result (bindings.new.items ≡ bindings.old.items ++ parts_bindings (parts (map view_part list.now))) }
{
    for p in list {
        part_taken(bytes, bindings, p, out)?;
    }
    Ok(())
}

// Notes the same in a section.
#[cycle(statement_taken)]
fn section_taken(
    bytes: &[u8],
    bindings: &mut Vec<Binding>,
    x: &Section,
    out: &mut Vec<u32>,
) -> Result<(), NoMemory>
    ensures taken { OnOk result (out.new.items ≡ out.old.items ++ section_taken bytes.now bindings.old.items (view_section x.now)) }
    ensures bindings { OnOk result (bindings.new.items ≡ bindings.old.items) }
{
    labels_taken(bytes, bindings, x.labels.as_slice(), out)?;
    statements_taken(bytes, bindings, x.body.as_slice(), out)
}

// Notes the same in sections.
#[cycle(statement_taken)]
fn sections_taken(
    bytes: &[u8],
    bindings: &mut Vec<Binding>,
    list: &[Section],
    out: &mut Vec<u32>,
) -> Result<(), NoMemory>
    ensures taken { OnOk result (out.new.items ≡ out.old.items ++ sections_taken bytes.now bindings.old.items (sections (map view_section list.now))) }
    ensures bindings { OnOk result (bindings.new.items ≡ bindings.old.items) }
{
    for x in list {
        section_taken(bytes, bindings, x, out)?;
    }
    Ok(())
}

// Notes the same in a parameter, whose name comes into force.
fn parameter_taken(
    bytes: &[u8],
    bindings: &mut Vec<Binding>,
    p: &Param,
    out: &mut Vec<u32>,
) -> Result<(), NoMemory>
    ensures taken { OnOk result (out.new.items ≡ out.old.items ++ parameter_taken bytes.now bindings.old.items (view_parameter p.now)) }
    ensures bindings { OnOk result (bindings.new.items ≡ bindings.old.items ++ parameter_bindings (view_parameter p.now)) }
{
    tail_taken(bytes, bindings, &p.declr.tail, out)?;
    add_binding(bindings, &p.declr)
}

// Notes the same in parameters.
fn parameters_taken(
    bytes: &[u8],
    bindings: &mut Vec<Binding>,
    list: &[Param],
    out: &mut Vec<u32>,
) -> Result<(), NoMemory>
    ensures taken { OnOk result (out.new.items ≡ out.old.items ++ parameters_taken bytes.now bindings.old.items (parameters (map view_parameter list.now))) }
    ensures bindings { OnOk result (bindings.new.items ≡ bindings.old.items ++ parameters_bindings (parameters (map view_parameter list.now))) }
{
    for p in list {
        parameter_taken(bytes, bindings, p, out)?;
    }
    Ok(())
}

/// The declarators of a function's parameters and local objects whose names are operands of `&`, parentheses aside, by
/// the numbers of their nodes, in the order in which the `&` stand (C11 6.5.3.2); also where nothing is evaluated, but
/// not in the initialisers of `static` objects.
pub fn taken_in(alloc: Global, bytes: &[u8], f: &Function) -> Result<Vec<u32>, NoMemory>
    ensures { IfOk result (λ ks. ks.items ≡ function_taken bytes.now (view_function f.now)) }
{
    let mut bindings = Vec::new(alloc);
    let mut out = Vec::new(alloc);
    parameters_taken(bytes, &mut bindings, f.declr.parameters(), &mut out)?;
    statement_taken(bytes, &mut bindings, &f.body, &mut out)?;
    Ok(out)
}

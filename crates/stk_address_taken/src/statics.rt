//! The declarators of a function's `static` objects.

ghost use Rattle.std.specs.Prelude.{◌≡◌, ◌++◌, IfOk, OnOk, map};
ghost use Rattle.std.specs.Option.{option_map};
ghost use Rattle.stk_tree.specs.View.{view_declarator, view_declaration, view_start, view_statement, view_part, view_section, view_function, declarators, statements, parts, sections, maybe_statement};
ghost use Rattle.stk_address_taken.specs.Statics.{declarators_numbers, declaration_statics, start_statics, statement_statics, statements_statics, maybe_statement_statics, part_statics, parts_statics, section_statics, sections_statics, function_statics};

use std::alloc::Global;
use stk_base::{Boxed, NoMemory};
use stk_tree::{Declaration, Declr, Function, Part, Section, Start, Stmt, StmtForm, is_static};

// Notes declarators.
fn declarators_numbers(list: &[Declr], out: &mut Vec<u32>) -> Result<(), NoMemory>
    ensures { OnOk result (out.new.items ≡ out.old.items ++ declarators_numbers (declarators (map view_declarator list.now))) }
{
    for d in list {
        out.push(d.node.number)?;
    }
    Ok(())
}

// Notes those of a declaration, where they are `static`.
fn declaration_statics(d: &Declaration, out: &mut Vec<u32>) -> Result<(), NoMemory>
    ensures { OnOk result (out.new.items ≡ out.old.items ++ declaration_statics (view_declaration d.now)) }
{
    if is_static(d.storage) {
        declarators_numbers(d.list.as_slice(), out)
    } else {
        Ok(())
    }
}

// Notes those of the first part of a `for`.
fn start_statics(first: &Start, out: &mut Vec<u32>) -> Result<(), NoMemory>
    ensures { OnOk result (out.new.items ≡ out.old.items ++ start_statics (view_start first.now)) }
{
    match first {
        Start::Local(d) => declaration_statics(d, out),
        Start::Plain(_) => Ok(()),
    }
}

// Notes those of a statement.
#[cycle(statement_statics)]
fn statement_statics(x: &Stmt, out: &mut Vec<u32>) -> Result<(), NoMemory>
    ensures { OnOk result (out.new.items ≡ out.old.items ++ statement_statics (view_statement x.now)) }
{
    match &x.form {
        StmtForm::Block(list) => parts_statics(list.as_slice(), out),
        StmtForm::If(_, y, other) => {
            statement_statics(y.get(), out)?;
            otherwise_statics(other, out)
        }
        StmtForm::Switch(_, list) => sections_statics(list.as_slice(), out),
        StmtForm::While(_, y) | StmtForm::Do(y, _) => statement_statics(y.get(), out),
        StmtForm::For(first, _, _, y) => {
            start_statics(first, out)?;
            statement_statics(y.get(), out)
        }
        StmtForm::Plain(_) | StmtForm::Return(_) | StmtForm::Break | StmtForm::Continue => Ok(()),
    }
}

// Notes those of a statement that may be missing.
#[cycle(statement_statics)]
fn otherwise_statics(other: &Option<Boxed<Stmt>>, out: &mut Vec<u32>) -> Result<(), NoMemory>
    ensures { OnOk result (out.new.items ≡ out.old.items ++ maybe_statement_statics (maybe_statement (option_map view_statement other.now))) }
{
    match other {
        None => Ok(()),
        Some(x) => statement_statics(x.get(), out),
    }
}

// Notes those of statements.
#[cycle(statement_statics)]
fn statements_statics(list: &[Stmt], out: &mut Vec<u32>) -> Result<(), NoMemory>
    ensures { OnOk result (out.new.items ≡ out.old.items ++ statements_statics (statements (map view_statement list.now))) }
{
    for x in list {
        statement_statics(x, out)?;
    }
    Ok(())
}

// Notes those of a part of a block.
#[cycle(statement_statics)]
fn part_statics(p: &Part, out: &mut Vec<u32>) -> Result<(), NoMemory>
    ensures { OnOk result (out.new.items ≡ out.old.items ++ part_statics (view_part p.now)) }
{
    match p {
        Part::Local(d) => declaration_statics(d, out),
        Part::Run(x) => statement_statics(x, out),
    }
}

// Notes those of the parts of a block.
#[cycle(statement_statics)]
fn parts_statics(list: &[Part], out: &mut Vec<u32>) -> Result<(), NoMemory>
    ensures { OnOk result (out.new.items ≡ out.old.items ++ parts_statics (parts (map view_part list.now))) }
{
    for p in list {
        part_statics(p, out)?;
    }
    Ok(())
}

// Notes those of sections.
#[cycle(statement_statics)]
fn sections_statics(list: &[Section], out: &mut Vec<u32>) -> Result<(), NoMemory>
    ensures { OnOk result (out.new.items ≡ out.old.items ++ sections_statics (sections (map view_section list.now))) }
{
    for x in list {
        section_statics(x, out)?;
    }
    Ok(())
}

// Notes those of a section.
#[cycle(statement_statics)]
fn section_statics(x: &Section, out: &mut Vec<u32>) -> Result<(), NoMemory>
    ensures { OnOk result (out.new.items ≡ out.old.items ++ section_statics (view_section x.now)) }
{
    statements_statics(x.body.as_slice(), out)
}

/// The declarators of a function's `static` objects, by the numbers of their nodes, in order (C11 6.2.4p3).
pub fn statics_in(alloc: Global, f: &Function) -> Result<Vec<u32>, NoMemory>
    ensures { IfOk result (λ ks. ks.items ≡ function_statics (view_function f.now)) }
{
    let mut out = Vec::new(alloc);
    statement_statics(&f.body, &mut out)?;
    Ok(out)
}

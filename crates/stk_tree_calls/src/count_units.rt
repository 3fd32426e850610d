//! How many nodes a unit and its statements has.
ghost use Rattle.std.specs.Prelude.{◌≡◌, ◌<◌, ◌^◌, map};
ghost use Rattle.stk_tree.specs.Nodes.{declaration_nodes, function_nodes, label_nodes, labels_nodes, maybe_expression_nodes, part_nodes, parts_nodes, section_nodes, sections_nodes, start_nodes, statement_form_nodes, statement_nodes, statements_nodes, unit_nodes};
ghost use Rattle.stk_tree.specs.View.{given_expression, labels, parts, sections, statements, view_declaration, view_function, view_label, view_part, view_section, view_start, view_statement, view_statement_form, view_unit};

use crate::count_expressions::{base_nodes, declarator_nodes, declarators_nodes, expression_nodes};
use stk_tree::{Declaration, Expr, Function, Label, Part, Section, Start, Stmt, StmtForm, Unit};

fn optional_nodes(x: &Option<Expr>) -> u32
    requires { maybe_expression_nodes (given_expression x.now) < 2 ^ 32 }
    ensures { result ≡ maybe_expression_nodes (given_expression x.now) }
{
    match x {
        None => 0,
        Some(e) => expression_nodes(e),
    }
}

pub(crate) fn declaration_nodes(x: &Declaration) -> u32
    requires { declaration_nodes (view_declaration x.now) < 2 ^ 32 }
    ensures { result ≡ declaration_nodes (view_declaration x.now) }
{
    base_nodes(&x.base) + declarators_nodes(x.list.as_slice())
}

fn start_nodes(x: &Start) -> u32
    requires { start_nodes (view_start x.now) < 2 ^ 32 }
    ensures { result ≡ start_nodes (view_start x.now) }
{
    match x {
        Start::Local(d) => declaration_nodes(d),
        Start::Plain(e) => optional_nodes(e),
    }
}

fn label_nodes(x: &Label) -> u32
    requires { label_nodes (view_label x.now) < 2 ^ 32 }
    ensures { result ≡ label_nodes (view_label x.now) }
{
    match x {
        Label::Default => 0,
        Label::Case(e) => expression_nodes(e),
    }
}

fn labels_nodes(list: &[Label]) -> u32
    requires { labels_nodes (labels (map view_label list.now)) < 2 ^ 32 }
    ensures { result ≡ labels_nodes (labels (map view_label list.now)) }
{
    let mut total = 0;
    for x in list {
        total += label_nodes(x);
    }
    total
}

#[cycle(nodes_of_statement)]
pub(crate) fn statement_nodes(x: &Stmt) -> u32
    requires { statement_nodes (view_statement x.now) < 2 ^ 32 }
    ensures { result ≡ statement_nodes (view_statement x.now) }
{
    statement_form_nodes(&x.form) + 1
}

#[cycle(nodes_of_statement)]
fn statements_nodes(list: &[Stmt]) -> u32
    requires { statements_nodes (statements (map view_statement list.now)) < 2 ^ 32 }
    ensures { result ≡ statements_nodes (statements (map view_statement list.now)) }
{
    let mut total = 0;
    for x in list {
        total += statement_nodes(x);
    }
    total
}

#[cycle(nodes_of_statement)]
fn statement_form_nodes(x: &StmtForm) -> u32
    requires { statement_form_nodes (view_statement_form x.now) < 2 ^ 32 }
    ensures { result ≡ statement_form_nodes (view_statement_form x.now) }
{
    match x {
        StmtForm::Block(list) => parts_nodes(list.as_slice()),
        StmtForm::Plain(e) | StmtForm::Return(e) => optional_nodes(e),
        StmtForm::If(e, body, None) => expression_nodes(e) + statement_nodes(body.get()),
        StmtForm::If(e, body, Some(other)) => {
            expression_nodes(e) + statement_nodes(body.get()) + statement_nodes(other.get())
        }
        StmtForm::Switch(e, list) => expression_nodes(e) + sections_nodes(list.as_slice()),
        StmtForm::While(e, body) => expression_nodes(e) + statement_nodes(body.get()),
        StmtForm::Do(body, e) => statement_nodes(body.get()) + expression_nodes(e),
        StmtForm::For(start, test, step, body) => {
            start_nodes(start)
                + optional_nodes(test)
                + optional_nodes(step)
                + statement_nodes(body.get())
        }
        StmtForm::Break | StmtForm::Continue => 0,
    }
}

#[cycle(nodes_of_statement)]
fn part_nodes(x: &Part) -> u32
    requires { part_nodes (view_part x.now) < 2 ^ 32 }
    ensures { result ≡ part_nodes (view_part x.now) }
{
    match x {
        Part::Local(d) => declaration_nodes(d),
        Part::Run(s) => statement_nodes(s),
    }
}

#[cycle(nodes_of_statement)]
fn parts_nodes(list: &[Part]) -> u32
    requires { parts_nodes (parts (map view_part list.now)) < 2 ^ 32 }
    ensures { result ≡ parts_nodes (parts (map view_part list.now)) }
{
    let mut total = 0;
    for x in list {
        total += part_nodes(x);
    }
    total
}

#[cycle(nodes_of_statement)]
fn section_nodes(x: &Section) -> u32
    requires { section_nodes (view_section x.now) < 2 ^ 32 }
    ensures { result ≡ section_nodes (view_section x.now) }
{
    labels_nodes(x.labels.as_slice()) + statements_nodes(x.body.as_slice()) + 1
}

#[cycle(nodes_of_statement)]
fn sections_nodes(list: &[Section]) -> u32
    requires { sections_nodes (sections (map view_section list.now)) < 2 ^ 32 }
    ensures { result ≡ sections_nodes (sections (map view_section list.now)) }
{
    let mut total = 0;
    for x in list {
        total += section_nodes(x);
    }
    total
}

fn function_nodes(x: &Function) -> u32
    requires { function_nodes (view_function x.now) < 2 ^ 32 }
    ensures { result ≡ function_nodes (view_function x.now) }
{
    base_nodes(&x.base) + declarator_nodes(&x.declr) + statement_nodes(&x.body)
}

/// How many nodes a unit has, itself included.
pub fn nodes(unit: &Unit) -> u32
    requires { unit_nodes (view_unit unit.now) < 2 ^ 32 }
    ensures { result ≡ unit_nodes (view_unit unit.now) }
{
    match unit {
        Unit::Empty(_) => 1,
        Unit::Declares(_, d) => declaration_nodes(d) + 1,
        Unit::Defines(_, f) => function_nodes(f) + 1,
    }
}

//! How high a unit and its statements is.
ghost use Rattle.std.specs.Prelude.{◌≡◌, ◌<◌, ◌^◌, map};
ghost use Rattle.stk_tree.specs.Height.{declaration_height, function_height, label_height, labels_height, maybe_expression_height, part_height, parts_height, section_height, sections_height, start_height, statement_form_height, statement_height, statements_height, unit_height};
ghost use Rattle.stk_tree.specs.View.{given_expression, labels, parts, sections, statements, view_declaration, view_function, view_label, view_part, view_section, view_start, view_statement, view_statement_form, view_unit};

use crate::levels_expressions::{
    base_height, declarator_height, declarators_height, expression_height,
};
use stk_tree::{Declaration, Expr, Function, Label, Part, Section, Start, Stmt, StmtForm, Unit};

fn optional_height(x: &Option<Expr>) -> u32
    requires { maybe_expression_height (given_expression x.now) < 2 ^ 32 }
    ensures { result ≡ maybe_expression_height (given_expression x.now) }
{
    match x {
        None => 0,
        Some(e) => expression_height(e),
    }
}

pub(crate) fn declaration_height(x: &Declaration) -> u32
    requires { declaration_height (view_declaration x.now) < 2 ^ 32 }
    ensures { result ≡ declaration_height (view_declaration x.now) }
{
    base_height(&x.base).max(declarators_height(x.list.as_slice()))
}

fn start_height(x: &Start) -> u32
    requires { start_height (view_start x.now) < 2 ^ 32 }
    ensures { result ≡ start_height (view_start x.now) }
{
    match x {
        Start::Local(d) => declaration_height(d),
        Start::Plain(e) => optional_height(e),
    }
}

fn label_height(x: &Label) -> u32
    requires { label_height (view_label x.now) < 2 ^ 32 }
    ensures { result ≡ label_height (view_label x.now) }
{
    match x {
        Label::Default => 0,
        Label::Case(e) => expression_height(e),
    }
}

fn labels_height(list: &[Label]) -> u32
    requires { labels_height (labels (map view_label list.now)) < 2 ^ 32 }
    ensures { result ≡ labels_height (labels (map view_label list.now)) }
{
    let mut most = 0;
    for x in list {
        most = label_height(x).max(most);
    }
    most
}

#[cycle(height_of_statement)]
pub(crate) fn statement_height(x: &Stmt) -> u32
    requires { statement_height (view_statement x.now) < 2 ^ 32 }
    ensures { result ≡ statement_height (view_statement x.now) }
{
    statement_form_height(&x.form) + 1
}

#[cycle(height_of_statement)]
fn statements_height(list: &[Stmt]) -> u32
    requires { statements_height (statements (map view_statement list.now)) < 2 ^ 32 }
    ensures { result ≡ statements_height (statements (map view_statement list.now)) }
{
    let mut most = 0;
    for x in list {
        most = statement_height(x).max(most);
    }
    most
}

#[cycle(height_of_statement)]
fn statement_form_height(x: &StmtForm) -> u32
    requires { statement_form_height (view_statement_form x.now) < 2 ^ 32 }
    ensures { result ≡ statement_form_height (view_statement_form x.now) }
{
    match x {
        StmtForm::Block(list) => parts_height(list.as_slice()),
        StmtForm::Plain(e) | StmtForm::Return(e) => optional_height(e),
        StmtForm::If(e, body, None) => expression_height(e).max(statement_height(body.get())),
        StmtForm::If(e, body, Some(other)) => {
            expression_height(e).max(statement_height(body.get()).max(statement_height(
                other.get(),
            )))
        }
        StmtForm::Switch(e, list) => expression_height(e).max(sections_height(list.as_slice())),
        StmtForm::While(e, body) => expression_height(e).max(statement_height(body.get())),
        StmtForm::Do(body, e) => statement_height(body.get()).max(expression_height(e)),
        StmtForm::For(start, test, step, body) => {
            start_height(start)
                .max(optional_height(test))
                .max(optional_height(step).max(statement_height(body.get())))
        }
        StmtForm::Break | StmtForm::Continue => 0,
    }
}

#[cycle(height_of_statement)]
fn part_height(x: &Part) -> u32
    requires { part_height (view_part x.now) < 2 ^ 32 }
    ensures { result ≡ part_height (view_part x.now) }
{
    match x {
        Part::Local(d) => declaration_height(d),
        Part::Run(s) => statement_height(s),
    }
}

#[cycle(height_of_statement)]
fn parts_height(list: &[Part]) -> u32
    requires { parts_height (parts (map view_part list.now)) < 2 ^ 32 }
    ensures { result ≡ parts_height (parts (map view_part list.now)) }
{
    let mut most = 0;
    for x in list {
        most = part_height(x).max(most);
    }
    most
}

#[cycle(height_of_statement)]
fn section_height(x: &Section) -> u32
    requires { section_height (view_section x.now) < 2 ^ 32 }
    ensures { result ≡ section_height (view_section x.now) }
{
    labels_height(x.labels.as_slice()).max(statements_height(x.body.as_slice())) + 1
}

#[cycle(height_of_statement)]
fn sections_height(list: &[Section]) -> u32
    requires { sections_height (sections (map view_section list.now)) < 2 ^ 32 }
    ensures { result ≡ sections_height (sections (map view_section list.now)) }
{
    let mut most = 0;
    for x in list {
        most = section_height(x).max(most);
    }
    most
}

fn function_height(x: &Function) -> u32
    requires { function_height (view_function x.now) < 2 ^ 32 }
    ensures { result ≡ function_height (view_function x.now) }
{
    base_height(&x.base).max(declarator_height(&x.declr).max(statement_height(&x.body)))
}

/// How high a unit is.
///
/// A leaf has height 1, and any other node is one higher than the highest of its children; a list, and what else is no
/// node, adds nothing. The limit on trees that are read counts more levels (`unit_nesting`).
pub fn height(unit: &Unit) -> u32
    requires { unit_height (view_unit unit.now) < 2 ^ 32 }
    ensures { result ≡ unit_height (view_unit unit.now) }
{
    match unit {
        Unit::Empty(_) => 1,
        Unit::Declares(_, d) => declaration_height(d) + 1,
        Unit::Defines(_, f) => function_height(f) + 1,
    }
}

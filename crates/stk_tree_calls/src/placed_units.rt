//! Whether a unit and its statements are well placed.
ghost use Rattle.std.specs.Prelude.{◌≡◌, map};
ghost use Rattle.stk_tree.specs.Placed.{ends_open, file_placed, form_ends_open, function_placed, is_block, label_placed, labels_placed, local_placed, local_storage, may_precede, optional_placed, part_placed, parts_placed, section_placed, sections_placed, start_placed, statement_form_placed, statement_placed, statements_placed, unit_placed};
ghost use Rattle.stk_tree.specs.View.{given_expression, labels, parts, sections, statements, view_declaration, view_function, view_label, view_part, view_section, view_start, view_statement, view_statement_form, view_unit};

use crate::forms::{
    file_declarators, function_declarator, is_unbraced, local_declarators, some_declarators,
    some_labels, some_statements,
};
use crate::placed_expressions::{
    base_placed, declarator_placed, declarators_placed, expression_placed,
};
use stk_tree::{
    Declaration, Expr, Function, Label, Part, Section, Start, Stmt, StmtForm, Storage, Unit, levels,
};

/// Whether an expression that may be missing is placed.
fn optional_placed(x: &Option<Expr>) -> bool
    ensures { result ≡ optional_placed (given_expression x.now) }
{
    match x {
        None => true,
        Some(e) => expression_placed(e, levels::COMMA),
    }
}

/// Whether a storage word, if one is there, may stand in a local declaration.
fn local_storage(storage: Option<Storage>) -> bool
    ensures { result ≡ local_storage storage }
{
    match storage {
        None | Some(Storage::Static) => true,
        Some(Storage::Typedef | Storage::Extern) => false,
    }
}

/// Whether a declaration may stand in a block or a `for`.
fn local_placed(x: &Declaration) -> bool
    ensures { result ≡ local_placed (view_declaration x.now) }
{
    local_storage(x.storage)
        && is_unbraced(&x.base)
        && base_placed(&x.base)
        && some_declarators(x.list.as_slice())
        && local_declarators(x.list.as_slice())
        && declarators_placed(x.list.as_slice())
}

/// Whether a declaration may stand at file scope.
fn file_placed(x: &Declaration) -> bool
    ensures { result ≡ file_placed (view_declaration x.now) }
{
    base_placed(&x.base)
        && file_declarators(x.list.as_slice())
        && declarators_placed(x.list.as_slice())
}

fn start_placed(x: &Start) -> bool
    ensures { result ≡ start_placed (view_start x.now) }
{
    match x {
        Start::Local(d) => local_placed(d),
        Start::Plain(e) => optional_placed(e),
    }
}

fn label_placed(x: &Label) -> bool
    ensures { result ≡ label_placed (view_label x.now) }
{
    match x {
        Label::Default => true,
        Label::Case(e) => expression_placed(e, levels::CONDITIONAL),
    }
}

fn labels_placed(list: &[Label]) -> bool
    ensures { result ≡ labels_placed (labels (map view_label list.now)) }
{
    for x in list {
        if !label_placed(x) {
            return false;
        }
    }
    true
}

/// Whether a statement ends with an `if` to which a following `else` would belong.
#[cycle(ends_open)]
fn ends_open(x: &Stmt) -> bool
    ensures { result ≡ ends_open (view_statement x.now) }
{
    form_ends_open(&x.form)
}

#[cycle(ends_open)]
fn form_ends_open(x: &StmtForm) -> bool
    ensures { result ≡ form_ends_open (view_statement_form x.now) }
{
    match x {
        StmtForm::If(_, _, None) => true,
        StmtForm::If(_, _, Some(other)) => ends_open(other.get()),
        StmtForm::While(_, body) | StmtForm::For(_, _, _, body) => ends_open(body.get()),
        StmtForm::Block(_)
        | StmtForm::Plain(_)
        | StmtForm::Switch(_, _)
        | StmtForm::Do(_, _)
        | StmtForm::Break
        | StmtForm::Continue
        | StmtForm::Return(_) => false,
    }
}

/// Whether a section may stand before these: only the last may be without statements.
fn may_precede(x: &Section, rest: &[Section]) -> bool
    ensures { result ≡ may_precede (view_section x.now) (sections (map view_section rest.now)) }
{
    match rest {
        [] => true,
        [_, _rest @ ..] => some_statements(x.body.as_slice()),
    }
}

#[cycle(placed_statement)]
fn statement_placed(x: &Stmt) -> bool
    ensures { result ≡ statement_placed (view_statement x.now) }
{
    statement_form_placed(&x.form)
}

#[cycle(placed_statement)]
fn statements_placed(list: &[Stmt]) -> bool
    ensures { result ≡ statements_placed (statements (map view_statement list.now)) }
{
    for x in list {
        if !statement_placed(x) {
            return false;
        }
    }
    true
}

#[cycle(placed_statement)]
fn statement_form_placed(x: &StmtForm) -> bool
    ensures { result ≡ statement_form_placed (view_statement_form x.now) }
{
    match x {
        StmtForm::Block(list) => parts_placed(list.as_slice()),
        StmtForm::Plain(e) | StmtForm::Return(e) => optional_placed(e),
        StmtForm::If(e, body, None) => expression_placed(e, levels::COMMA)
            && statement_placed(body.get()),
        StmtForm::If(e, body, Some(other)) => {
            expression_placed(e, levels::COMMA)
                && statement_placed(body.get())
                && !ends_open(body.get())
                && statement_placed(other.get())
        }
        StmtForm::Switch(e, list) => expression_placed(e, levels::COMMA)
            && sections_placed(list.as_slice()),
        StmtForm::While(e, body) => expression_placed(e, levels::COMMA)
            && statement_placed(body.get()),
        StmtForm::Do(body, e) => statement_placed(body.get())
            && expression_placed(e, levels::COMMA),
        StmtForm::For(start, test, step, body) => {
            start_placed(start)
                && optional_placed(test)
                && optional_placed(step)
                && statement_placed(body.get())
        }
        StmtForm::Break | StmtForm::Continue => true,
    }
}

#[cycle(placed_statement)]
fn part_placed(x: &Part) -> bool
    ensures { result ≡ part_placed (view_part x.now) }
{
    match x {
        Part::Local(d) => local_placed(d),
        Part::Run(s) => statement_placed(s),
    }
}

#[cycle(placed_statement)]
fn parts_placed(list: &[Part]) -> bool
    ensures { result ≡ parts_placed (parts (map view_part list.now)) }
{
    for x in list {
        if !part_placed(x) {
            return false;
        }
    }
    true
}

#[cycle(placed_statement)]
fn section_placed(x: &Section) -> bool
    ensures { result ≡ section_placed (view_section x.now) }
{
    some_labels(x.labels.as_slice())
        && labels_placed(x.labels.as_slice())
        && statements_placed(x.body.as_slice())
}

#[cycle(placed_statement)]
fn sections_placed(list: &[Section]) -> bool
    ensures { result ≡ sections_placed (sections (map view_section list.now)) }
{
    for i in 0..list.len() {
        if !may_precede(&list[i], &list[i + 1..]) {
            return false;
        }
        if !section_placed(&list[i]) {
            return false;
        }
    }
    true
}

/// Whether a statement is a block.
fn is_block(x: &Stmt) -> bool
    ensures { result ≡ is_block (view_statement x.now) }
{
    match &x.form {
        StmtForm::Block(_) => true,
        _ => false,
    }
}

fn function_placed(x: &Function) -> bool
    ensures { result ≡ function_placed (view_function x.now) }
{
    is_unbraced(&x.base)
        && base_placed(&x.base)
        && function_declarator(&x.declr)
        && declarator_placed(&x.declr)
        && is_block(&x.body)
        && statement_placed(&x.body)
}

/// Whether a unit is well placed: each part stands where the grammar allows it, so far as no name is needed to tell.
///
/// Among the rules are the levels of operands (C11 6.5), that an `else` belongs to the nearest `if` (6.8.4.1), that a
/// base with braces stands only in a declaration at file scope or in a member, that `(void)` is no list of one
/// parameter, that no local declaration has parameters, and that only the last section of a `switch` is without
/// statements.
pub fn well_placed(unit: &Unit) -> bool
    ensures { result ≡ unit_placed (view_unit unit.now) }
{
    match unit {
        Unit::Empty(_) => true,
        Unit::Declares(_, d) => file_placed(d),
        Unit::Defines(_, f) => function_placed(f),
    }
}

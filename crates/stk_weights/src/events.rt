//! What a walk over a function passes: the assignments of registers, and where branches and loops begin and end.

ghost use Rattle.std.specs.Prelude.{◌≡◌, ◌++◌, IfOk, OnOk, map, true};
ghost use Rattle.std.specs.Option.{option_map};
ghost use Rattle.stk_tree.specs.View.{given_expression, view_declaration, view_expression, view_expression_form, view_function, view_part, view_section, view_start, view_statement, view_statement_form, maybe_statement, parts, sections, statements};
ghost use Rattle.stk_function_types.specs.Nodes.{typing_in};
ghost use Rattle.stk_meaning.specs.Visits.{declaration_visits, expression_visits, maybe_visits, start_visits};
ghost use Rattle.stk_meaning.specs.Keys.{body_of};
ghost use Rattle.stk_meaning.specs.Weights.{form_assigns};
ghost use Rattle.stk_function_types.specs.Visits.{marked_visit, role_in};
ghost use Rattle.stk_function_types.specs.Gathered.{given, gathered};
ghost use Rattle.stk_function_env.specs.Settings.{setting_in};
ghost use Rattle.stk_operators.specs.Targets.{target_shown};
ghost use Rattle.stk_weights.specs.Events.{target_events, targets_events, visit_events, noted, is_branching, statement_events, form_events, maybe_statement_events, statements_events, parts_events, part_events, sections_events, section_events};

use std::alloc::Global;
use stk_base::{Boxed, NoMemory};
use stk_function_env::Setting;
use stk_function_types::{Role, Visit, VisitForm, declaration_visits, expression_visits};
use stk_operators::Target;
use stk_tree::{Declaration, Expr, ExprForm, Function, Part, Section, Start, Stmt, StmtForm};

/// What a walk over a function passes, in order: the beginning of a branch or a loop, an assignment of a register, and
/// the end of the branch or loop that began last.
#[derive(Clone, Copy, Debug, PartialEq, Eq)]
pub(crate) enum Event {
    Begins,
    Assigns(u32),
    Ends,
}

// Notes a store to a place, where it is a register.
fn target_events(place: Target, out: &mut Vec<Event>) -> Result<(), NoMemory>
    ensures { OnOk result (out.new.items ≡ out.old.items ++ target_events (target_shown place)) }
{
    match place {
        Target::Register(k) => out.push(Event::Assigns(k))?,
        Target::Kept(_) | Target::Object(_) | Target::Unnamed => {}
    }
    Ok(())
}

// Notes the register that an expression of this form assigns.
fn assigned_events(setting: &Setting, f: &ExprForm, out: &mut Vec<Event>) -> Result<(), NoMemory>
    ensures { OnOk result (out.new.items ≡ out.old.items ++ targets_events (form_assigns (setting_in setting.now) (view_expression_form f.now))) }
{
    match f {
        ExprForm::Step(_, e) | ExprForm::Assign(_, e, _) => {
            target_events(setting.target_of(e.get()), out)
        }
        ExprForm::Name(_)
        | ExprForm::Number(_)
        | ExprForm::Character(_)
        | ExprForm::Text(_)
        | ExprForm::Paren(_)
        | ExprForm::Index(_, _)
        | ExprForm::Call(_, _)
        | ExprForm::Dot(_, _)
        | ExprForm::Arrow(_, _)
        | ExprForm::Unary(_, _)
        | ExprForm::SizeExpr(_)
        | ExprForm::SizeName(_)
        | ExprForm::Cast(_, _)
        | ExprForm::Binary(_, _, _)
        | ExprForm::Choice(_, _, _) => Ok(()),
    }
}

// Notes the register that a visit assigns, where it is evaluated.
fn visit_events(setting: &Setting, visit: &Visit, out: &mut Vec<Event>) -> Result<(), NoMemory>
    ensures { OnOk result (out.new.items ≡ out.old.items ++ given (visit_events (setting_in setting.now)) (marked_visit visit.now)) }
{
    if !visit.is_evaluated {
        return Ok(());
    }
    match visit.form {
        VisitForm::Expression(_, f) => assigned_events(setting, f, out),
        VisitForm::Declarator(_, _, _) | VisitForm::Statement(_, _) | VisitForm::Section(_) => Ok(
            (),
        ),
    }
}

// Notes the registers that visits assign.
fn visits_events(setting: &Setting, visits: &[Visit], out: &mut Vec<Event>) -> Result<(), NoMemory>
    ensures { OnOk result (out.new.items ≡ out.old.items ++ gathered (visit_events (setting_in setting.now)) (map marked_visit visits.now)) }
{
    for visit in visits {
        visit_events(setting, visit, out)?;
    }
    Ok(())
}

// Notes what an expression assigns.
fn expression_events(
    alloc: Global,
    setting: &Setting,
    e: &Expr,
    role: Role,
    out: &mut Vec<Event>,
) -> Result<(), NoMemory>
    ensures { OnOk result (out.new.items ≡ out.old.items ++ noted (setting_in setting.now) (expression_visits (typing_in setting.now.types) (role_in role) (view_expression e.now))) }
{
    let mut visits = Vec::new(alloc);
    expression_visits(e, setting.types(), true, role, &mut visits)?;
    visits_events(setting, visits.as_slice(), out)
}

// Notes what an expression assigns that may be missing.
fn maybe_events(
    alloc: Global,
    setting: &Setting,
    e: &Option<Expr>,
    role: Role,
    out: &mut Vec<Event>,
) -> Result<(), NoMemory>
    ensures { OnOk result (out.new.items ≡ out.old.items ++ noted (setting_in setting.now) (maybe_visits (typing_in setting.now.types) (role_in role) (given_expression e.now))) }
{
    match e {
        None => Ok(()),
        Some(e) => expression_events(alloc, setting, e, role, out),
    }
}

// Notes what a declaration in a block assigns.
fn declaration_events(
    alloc: Global,
    setting: &Setting,
    d: &Declaration,
    out: &mut Vec<Event>,
) -> Result<(), NoMemory>
    ensures { OnOk result (out.new.items ≡ out.old.items ++ noted (setting_in setting.now) (declaration_visits (typing_in setting.now.types) (view_declaration d.now))) }
{
    let mut visits = Vec::new(alloc);
    declaration_visits(d, setting.types(), &mut visits)?;
    visits_events(setting, visits.as_slice(), out)
}

// Notes what the first part of a `for` assigns.
fn start_events(
    alloc: Global,
    setting: &Setting,
    first: &Start,
    out: &mut Vec<Event>,
) -> Result<(), NoMemory>
    ensures { OnOk result (out.new.items ≡ out.old.items ++ noted (setting_in setting.now) (start_visits (typing_in setting.now.types) (view_start first.now))) }
{
    match first {
        Start::Local(d) => declaration_events(alloc, setting, d, out),
        Start::Plain(e) => maybe_events(alloc, setting, e, Role::reading(), out),
    }
}

// Whether a statement is a branch or a loop.
fn is_branching(f: &StmtForm) -> bool
    ensures { result ≡ is_branching (view_statement_form f.now) }
{
    match f {
        StmtForm::If(_, _, _)
        | StmtForm::Switch(_, _)
        | StmtForm::While(_, _)
        | StmtForm::Do(_, _)
        | StmtForm::For(_, _, _, _) => true,
        StmtForm::Block(_)
        | StmtForm::Plain(_)
        | StmtForm::Break
        | StmtForm::Continue
        | StmtForm::Return(_) => false,
    }
}

// Notes what is passed in a statement.
#[cycle(statement_events)]
fn statement_events(
    x: &Stmt,
    alloc: Global,
    setting: &Setting,
    out: &mut Vec<Event>,
) -> Result<(), NoMemory>
    ensures { OnOk result (out.new.items ≡ out.old.items ++ statement_events (setting_in setting.now) (view_statement x.now)) }
{
    if is_branching(&x.form) {
        out.push(Event::Begins)?;
        form_events(&x.form, alloc, setting, out)?;
        out.push(Event::Ends)?;
        Ok(())
    } else {
        form_events(&x.form, alloc, setting, out)
    }
}

// Notes what is passed in the parts of a statement.
#[cycle(statement_events)]
fn form_events(
    f: &StmtForm,
    alloc: Global,
    setting: &Setting,
    out: &mut Vec<Event>,
) -> Result<(), NoMemory>
    ensures { OnOk result (out.new.items ≡ out.old.items ++ form_events (setting_in setting.now) (view_statement_form f.now)) }
{
    match f {
        StmtForm::Block(list) => parts_events(list.as_slice(), alloc, setting, out),
        StmtForm::Plain(e) | StmtForm::Return(e) => {
            maybe_events(alloc, setting, e, Role::reading(), out)
        }
        StmtForm::If(e, x, other) => {
            expression_events(alloc, setting, e, Role::as_test(), out)?;
            statement_events(x.get(), alloc, setting, out)?;
            otherwise_events(other, alloc, setting, out)
        }
        StmtForm::Switch(e, list) => {
            expression_events(alloc, setting, e, Role::reading(), out)?;
            sections_events(list.as_slice(), alloc, setting, out)
        }
        StmtForm::While(e, x) => {
            expression_events(alloc, setting, e, Role::as_test(), out)?;
            statement_events(x.get(), alloc, setting, out)
        }
        StmtForm::Do(x, e) => {
            statement_events(x.get(), alloc, setting, out)?;
            expression_events(alloc, setting, e, Role::as_test(), out)
        }
        StmtForm::For(first, test, step, x) => {
            start_events(alloc, setting, first, out)?;
            maybe_events(alloc, setting, test, Role::as_test(), out)?;
            maybe_events(alloc, setting, step, Role::reading(), out)?;
            statement_events(x.get(), alloc, setting, out)
        }
        StmtForm::Break | StmtForm::Continue => Ok(()),
    }
}

// Notes what is passed in a statement that may be missing.
#[cycle(statement_events)]
fn otherwise_events(
    x: &Option<Boxed<Stmt>>,
    alloc: Global,
    setting: &Setting,
    out: &mut Vec<Event>,
) -> Result<(), NoMemory>
    ensures { OnOk result (out.new.items ≡ out.old.items ++ maybe_statement_events (setting_in setting.now) (maybe_statement (option_map view_statement x.now))) }
{
    match x {
        None => Ok(()),
        Some(y) => statement_events(y.get(), alloc, setting, out),
    }
}

// Notes what is passed in statements.
#[cycle(statement_events)]
fn statements_events(
    list: &[Stmt],
    alloc: Global,
    setting: &Setting,
    out: &mut Vec<Event>,
) -> Result<(), NoMemory>
    ensures { OnOk result (out.new.items ≡ out.old.items ++ statements_events (setting_in setting.now) (statements (map view_statement list.now))) }
{
    for x in list {
        statement_events(x, alloc, setting, out)?;
    }
    Ok(())
}

// Notes what is passed in the parts of a block.
#[cycle(statement_events)]
fn parts_events(
    list: &[Part],
    alloc: Global,
    setting: &Setting,
    out: &mut Vec<Event>,
) -> Result<(), NoMemory>
    ensures { OnOk result (out.new.items ≡ out.old.items ++ parts_events (setting_in setting.now) (parts (map view_part list.now))) }
{
    for x in list {
        part_events(x, alloc, setting, out)?;
    }
    Ok(())
}

// Notes what is passed in a part of a block.
#[cycle(statement_events)]
fn part_events(
    x: &Part,
    alloc: Global,
    setting: &Setting,
    out: &mut Vec<Event>,
) -> Result<(), NoMemory>
    ensures { OnOk result (out.new.items ≡ out.old.items ++ part_events (setting_in setting.now) (view_part x.now)) }
{
    match x {
        Part::Local(d) => declaration_events(alloc, setting, d, out),
        Part::Run(y) => statement_events(y, alloc, setting, out),
    }
}

// Notes what is passed in sections.
#[cycle(statement_events)]
fn sections_events(
    list: &[Section],
    alloc: Global,
    setting: &Setting,
    out: &mut Vec<Event>,
) -> Result<(), NoMemory>
    ensures { OnOk result (out.new.items ≡ out.old.items ++ sections_events (setting_in setting.now) (sections (map view_section list.now))) }
{
    for x in list {
        section_events(x, alloc, setting, out)?;
    }
    Ok(())
}

// Notes what is passed in a section.
#[cycle(statement_events)]
fn section_events(
    x: &Section,
    alloc: Global,
    setting: &Setting,
    out: &mut Vec<Event>,
) -> Result<(), NoMemory>
    ensures { OnOk result (out.new.items ≡ out.old.items ++ section_events (setting_in setting.now) (view_section x.now)) }
{
    statements_events(x.body.as_slice(), alloc, setting, out)
}

/// What a walk over the body of a function passes, in order.
pub(crate) fn function_events(
    alloc: Global,
    setting: &Setting,
    f: &Function,
) -> Result<Vec<Event>, NoMemory>
    ensures { IfOk result (λ events. events.items ≡ statement_events (setting_in setting.now) (body_of (view_function f.now))) }
{
    let mut out = Vec::new(alloc);
    statement_events(&f.body, alloc, setting, &mut out)?;
    Ok(out)
}

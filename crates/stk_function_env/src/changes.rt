//! What a part of a function changes, of registers and kept objects.

ghost use Rattle.std.specs.Prelude.{◌≡◌, ◌++◌, [], ◌∷◌, OnOk, IfOk, map, true, filter, Bool, ℕ};
ghost use Rattle.std.specs.Option.{option_map};
ghost use Rattle.stk_ctype.specs.Types.{type_of};
ghost use Rattle.stk_tree.specs.View.{view_expression, view_expression_form, given_expression, view_declaration, view_start, view_statement, view_statement_form, view_part, view_section, view_declarator, view_initialiser, declarators, statements, parts, sections, maybe_statement, maybe_initialiser};
ghost use Rattle.stk_address_taken.specs.Sets.{is_listed};
ghost use Rattle.stk_function_types.specs.Nodes.{typing_in};
ghost use Rattle.stk_operators.specs.Shown.{library_shown};
ghost use Rattle.stk_meaning.specs.Visits.{declared_by, declared_in, part_declares, parts_declare, start_declares, expression_visits, maybe_visits, declaration_visits, start_visits, statement_visits, statement_form_visits, maybe_statement_visits, statements_visits, parts_visits, part_visits, sections_visits, section_visits, turn_visits};
ghost use Rattle.stk_meaning.specs.Changes.{assigned_in, forgotten_in, kept_spot};
ghost use Rattle.stk_function_types.specs.Visits.{marked_visit, role_in};
ghost use Rattle.stk_function_types.specs.Gathered.{given, gathered};
ghost use Rattle.stk_function_env.specs.Settings.{setting_in};
ghost use Rattle.stk_operators.specs.Targets.{target_shown};
ghost use Rattle.stk_function_env.specs.Changed.{changed_by, changed_by_any, target_changes, library_changes, form_change_list, declared_changes, initial_change_list, declarator_change_list, visit_change_list, outer_changes, is_own_change, change_list, registers_changed};

use crate::Setting;
use crate::calls::called_library;
use std::alloc::Global;
use stk_address_taken::NodeSet;
use stk_base::{Boxed, NoMemory};
use stk_ctype::CType;
use stk_function_types::{Role, Visit, VisitForm, declaration_visits, expression_visits};
use stk_operators::{Library, Target};
use stk_tree::{Declaration, Declr, Expr, ExprForm, Init, Part, Section, Start, Stmt, StmtForm};
use stk_type_rules::is_scalar;

/// A change: of a register, by its declarator; of a kept object, by its position; or maybe of each kept object.
#[derive(Clone, Copy, Debug, PartialEq, Eq)]
pub enum Change {
    Register(u32),
    Kept(u32),
    AnyKept,
}

// Notes a store to a place.
fn target_changes(place: Target, out: &mut Vec<Change>) -> Result<(), NoMemory>
    ensures { OnOk result (out.new.items ≡ out.old.items ++ target_changes (target_shown place)) }
{
    match place {
        Target::Register(k) => out.push(Change::Register(k))?,
        Target::Kept(position) => out.push(Change::Kept(position))?,
        Target::Unnamed => out.push(Change::AnyKept)?,
        Target::Object(_) => {}
    }
    Ok(())
}

// Notes a call.
fn library_changes(library: Option<Library>, out: &mut Vec<Change>) -> Result<(), NoMemory>
    ensures { OnOk result (out.new.items ≡ out.old.items ++ library_changes (option_map library_shown library)) }
{
    match library {
        Some(Library::AbsoluteIn(_)) => {}
        Some(Library::CopyBytes) | None => out.push(Change::AnyKept)?,
    }
    Ok(())
}

// Notes what an expression changes itself.
fn form_changes(setting: &Setting, f: &ExprForm, out: &mut Vec<Change>) -> Result<(), NoMemory>
    ensures { OnOk result (out.new.items ≡ out.old.items ++ form_change_list (setting_in setting.now) (view_expression_form f.now)) }
{
    match f {
        ExprForm::Call(callee, _) => {
            library_changes(called_library(setting.types(), callee.get()), out)
        }
        ExprForm::Step(_, e) | ExprForm::Assign(_, e, _) => {
            target_changes(setting.target_of(e.get()), out)
        }
        ExprForm::Name(_)
        | ExprForm::Number(_)
        | ExprForm::Character(_)
        | ExprForm::Text(_)
        | ExprForm::Paren(_)
        | ExprForm::Index(_, _)
        | ExprForm::Dot(_, _)
        | ExprForm::Arrow(_, _)
        | ExprForm::Unary(_, _)
        | ExprForm::SizeExpr(_)
        | ExprForm::SizeName(_)
        | ExprForm::Cast(_, _)
        | ExprForm::Binary(_, _, _)
        | ExprForm::Choice(_, _, _) => Ok(()),
    }
}

// Notes what the declarator of a local object changes.
fn declared_changes(place: Target, out: &mut Vec<Change>) -> Result<(), NoMemory>
    ensures { OnOk result (out.new.items ≡ out.old.items ++ declared_changes (target_shown place)) }
{
    match place {
        Target::Register(k) => out.push(Change::Register(k))?,
        Target::Kept(position) => out.push(Change::Kept(position))?,
        Target::Object(_) | Target::Unnamed => {}
    }
    Ok(())
}

// Notes what the initialiser of a local object changes beside the object.
fn initial_changes(ty: &CType, init: &Option<Init>, out: &mut Vec<Change>) -> Result<(), NoMemory>
    ensures { OnOk result (out.new.items ≡ out.old.items ++ initial_change_list (type_of ty.now) (maybe_initialiser (option_map view_initialiser init.now))) }
{
    match init {
        None => Ok(()),
        Some(_) => {
            if !is_scalar(ty) {
                out.push(Change::AnyKept)?;
            }
            Ok(())
        }
    }
}

// Notes what a declarator with its initialiser changes.
fn declarator_changes(
    setting: &Setting,
    node: u32,
    is_static: bool,
    init: &Option<Init>,
    out: &mut Vec<Change>,
) -> Result<(), NoMemory>
    ensures { OnOk result (out.new.items ≡ out.old.items ++ declarator_change_list (setting_in setting.now) node is_static (maybe_initialiser (option_map view_initialiser init.now))) }
{
    declared_changes(setting.target_at(node), out)?;
    if is_static {
        Ok(())
    } else {
        initial_changes(setting.types().type_at(node), init, out)
    }
}

// Notes what a visit changes that is evaluated.
fn visit_changes(setting: &Setting, visit: &Visit, out: &mut Vec<Change>) -> Result<(), NoMemory>
    ensures { OnOk result (out.new.items ≡ out.old.items ++ given (visit_change_list (setting_in setting.now)) (marked_visit visit.now)) }
{
    if !visit.is_evaluated {
        return Ok(());
    }
    match visit.form {
        VisitForm::Expression(_, f) => form_changes(setting, f, out),
        VisitForm::Declarator(is_static, _, init) => {
            declarator_changes(setting, visit.node, is_static, init, out)
        }
        VisitForm::Statement(_, _) | VisitForm::Section(_) => Ok(()),
    }
}

// Notes what visits change.
fn visits_changes(
    setting: &Setting,
    visits: &[Visit],
    out: &mut Vec<Change>,
) -> Result<(), NoMemory>
    ensures { OnOk result (out.new.items ≡ out.old.items ++ gathered (visit_change_list (setting_in setting.now)) (map marked_visit visits.now)) }
{
    for visit in visits {
        visit_changes(setting, visit, out)?;
    }
    Ok(())
}

// Notes what an expression changes.
fn expression_changes(
    alloc: Global,
    setting: &Setting,
    e: &Expr,
    role: Role,
    out: &mut Vec<Change>,
) -> Result<(), NoMemory>
    ensures { OnOk result (out.new.items ≡ out.old.items ++ change_list (setting_in setting.now) (expression_visits (typing_in setting.now.types) (role_in role) (view_expression e.now))) }
{
    let mut visits = Vec::new(alloc);
    expression_visits(e, setting.types(), true, role, &mut visits)?;
    visits_changes(setting, visits.as_slice(), out)
}

// Notes what an expression changes that may be missing.
fn maybe_changes(
    alloc: Global,
    setting: &Setting,
    e: &Option<Expr>,
    role: Role,
    out: &mut Vec<Change>,
) -> Result<(), NoMemory>
    ensures { OnOk result (out.new.items ≡ out.old.items ++ change_list (setting_in setting.now) (maybe_visits (typing_in setting.now.types) (role_in role) (given_expression e.now))) }
{
    match e {
        None => Ok(()),
        Some(e) => expression_changes(alloc, setting, e, role, out),
    }
}

// Notes what a declaration in a block changes.
fn declaration_changes(
    alloc: Global,
    setting: &Setting,
    d: &Declaration,
    out: &mut Vec<Change>,
) -> Result<(), NoMemory>
    ensures { OnOk result (out.new.items ≡ out.old.items ++ change_list (setting_in setting.now) (declaration_visits (typing_in setting.now.types) (view_declaration d.now))) }
{
    let mut visits = Vec::new(alloc);
    declaration_visits(d, setting.types(), &mut visits)?;
    visits_changes(setting, visits.as_slice(), out)
}

// Notes what the first part of a `for` changes.
fn start_changes(
    alloc: Global,
    setting: &Setting,
    first: &Start,
    out: &mut Vec<Change>,
) -> Result<(), NoMemory>
    ensures { OnOk result (out.new.items ≡ out.old.items ++ change_list (setting_in setting.now) (start_visits (typing_in setting.now.types) (view_start first.now))) }
{
    match first {
        Start::Local(d) => declaration_changes(alloc, setting, d, out),
        Start::Plain(e) => maybe_changes(alloc, setting, e, Role::reading(), out),
    }
}

// Notes the declarators of a row.
fn declared_by(list: &[Declr], out: &mut Vec<u32>) -> Result<(), NoMemory>
    ensures { OnOk result (out.new.items ≡ out.old.items ++ declared_by (declarators (map view_declarator list.now))) }
{
    for d in list {
        out.push(d.node.number)?;
    }
    Ok(())
}

// Notes the declarators of a part of a block, without the blocks in it.
fn part_declares(p: &Part, out: &mut Vec<u32>) -> Result<(), NoMemory>
    ensures { OnOk result (out.new.items ≡ out.old.items ++ part_declares (view_part p.now)) }
{
    match p {
        Part::Local(d) => declared_by(d.list.as_slice(), out),
        Part::Run(_) => Ok(()),
    }
}

// The declarators of a block, without the blocks in it.
fn parts_declare(alloc: Global, list: &[Part]) -> Result<NodeSet, NoMemory>
    ensures { IfOk result (λ own. own ≡ parts_declare (parts (map view_part list.now))) }
{
    let mut out = Vec::new(alloc);
    for p in list {
        part_declares(p, &mut out)?;
    }
    NodeSet::of(alloc, out)
}

// The declarators of the first part of a `for`.
fn start_declares(alloc: Global, first: &Start) -> Result<NodeSet, NoMemory>
    ensures { IfOk result (λ own. own ≡ start_declares (view_start first.now)) }
{
    let mut out = Vec::new(alloc);
    if let Start::Local(d) = first {
        declared_by(d.list.as_slice(), &mut out)?;
    }
    NodeSet::of(alloc, out)
}

// Whether a change is one of a register of a set.
#[tactic(auto, using(crate::proofs::Filters::among))]
fn is_own_change(own: &NodeSet, change: Change) -> bool
    ensures { result ≡ is_own_change own.now change }
{
    match change {
        Change::Register(k) => own.has(k),
        Change::Kept(_) | Change::AnyKept => false,
    }
}

// Notes the changes that aren't of registers of a set.
fn outer_changes(own: &NodeSet, inner: &[Change], out: &mut Vec<Change>) -> Result<(), NoMemory>
    ensures { OnOk result (out.new.items ≡ out.old.items ++ outer_changes own.now inner.now) }
{
    for change in inner {
        if !is_own_change(own, *change) {
            out.push(*change)?;
        }
    }
    Ok(())
}

// Notes what a statement changes, which is entered as a branch or not.
#[cycle(statement_changes)]
#[tactic(auto, using(crate::proofs::Flat::listed))]
fn statement_changes(
    x: &Stmt,
    alloc: Global,
    setting: &Setting,
    out: &mut Vec<Change>,
) -> Result<(), NoMemory>
    ensures { (is_arm : Bool) → OnOk result (out.new.items ≡ out.old.items ++ change_list (setting_in setting.now) (statement_visits (typing_in setting.now.types) is_arm (view_statement x.now))) }
{
    statement_form_changes(&x.form, alloc, setting, out)
}

// Notes what the parts of a statement change.
#[cycle(statement_changes)]
#[tactic(auto, using(crate::proofs::Flat::listed))]
fn statement_form_changes(
    f: &StmtForm,
    alloc: Global,
    setting: &Setting,
    out: &mut Vec<Change>,
) -> Result<(), NoMemory>
    ensures { OnOk result (out.new.items ≡ out.old.items ++ change_list (setting_in setting.now) (statement_form_visits (typing_in setting.now.types) (view_statement_form f.now))) }
{
    match f {
        StmtForm::Block(list) => {
            let mut inner = Vec::new(alloc);
            parts_changes(list.as_slice(), alloc, setting, &mut inner)?;
            let own = parts_declare(alloc, list.as_slice())?;
            outer_changes(&own, inner.as_slice(), out)
        }
        StmtForm::Plain(e) | StmtForm::Return(e) => {
            maybe_changes(alloc, setting, e, Role::reading(), out)
        }
        StmtForm::If(e, x, other) => {
            expression_changes(alloc, setting, e, Role::as_test(), out)?;
            statement_changes(x.get(), alloc, setting, out)?;
            otherwise_changes(other, alloc, setting, out)
        }
        StmtForm::Switch(e, list) => {
            expression_changes(alloc, setting, e, Role::reading(), out)?;
            sections_changes(list.as_slice(), alloc, setting, out)
        }
        StmtForm::While(e, x) => {
            expression_changes(alloc, setting, e, Role::as_test(), out)?;
            statement_changes(x.get(), alloc, setting, out)
        }
        StmtForm::Do(x, e) => {
            statement_changes(x.get(), alloc, setting, out)?;
            expression_changes(alloc, setting, e, Role::as_test(), out)
        }
        StmtForm::For(first, test, step, x) => {
            let mut inner = Vec::new(alloc);
            start_changes(alloc, setting, first, &mut inner)?;
            maybe_changes(alloc, setting, test, Role::as_test(), &mut inner)?;
            maybe_changes(alloc, setting, step, Role::reading(), &mut inner)?;
            statement_changes(x.get(), alloc, setting, &mut inner)?;
            let own = start_declares(alloc, first)?;
            outer_changes(&own, inner.as_slice(), out)
        }
        StmtForm::Break | StmtForm::Continue => Ok(()),
    }
}

// Notes what a statement changes that may be missing.
#[cycle(statement_changes)]
#[tactic(auto, using(crate::proofs::Flat::listed))]
fn otherwise_changes(
    x: &Option<Boxed<Stmt>>,
    alloc: Global,
    setting: &Setting,
    out: &mut Vec<Change>,
) -> Result<(), NoMemory>
    ensures { OnOk result (out.new.items ≡ out.old.items ++ change_list (setting_in setting.now) (maybe_statement_visits (typing_in setting.now.types) (maybe_statement (option_map view_statement x.now)))) }
{
    match x {
        None => Ok(()),
        Some(y) => statement_changes(y.get(), alloc, setting, out),
    }
}

// Notes what statements change.
#[cycle(statement_changes)]
#[tactic(auto, using(crate::proofs::Flat::listed))]
fn statements_changes(
    list: &[Stmt],
    alloc: Global,
    setting: &Setting,
    out: &mut Vec<Change>,
) -> Result<(), NoMemory>
    ensures { OnOk result (out.new.items ≡ out.old.items ++ change_list (setting_in setting.now) (statements_visits (typing_in setting.now.types) (statements (map view_statement list.now)))) }
{
    for x in list {
        statement_changes(x, alloc, setting, out)?;
    }
    Ok(())
}

// Notes what the parts of a block change.
#[cycle(statement_changes)]
#[tactic(auto, using(crate::proofs::Flat::listed))]
fn parts_changes(
    list: &[Part],
    alloc: Global,
    setting: &Setting,
    out: &mut Vec<Change>,
) -> Result<(), NoMemory>
    ensures { OnOk result (out.new.items ≡ out.old.items ++ change_list (setting_in setting.now) (parts_visits (typing_in setting.now.types) (parts (map view_part list.now)))) }
{
    for x in list {
        part_changes(x, alloc, setting, out)?;
    }
    Ok(())
}

// Notes what a part of a block changes.
#[cycle(statement_changes)]
#[tactic(auto, using(crate::proofs::Flat::listed))]
fn part_changes(
    x: &Part,
    alloc: Global,
    setting: &Setting,
    out: &mut Vec<Change>,
) -> Result<(), NoMemory>
    ensures { OnOk result (out.new.items ≡ out.old.items ++ change_list (setting_in setting.now) (part_visits (typing_in setting.now.types) (view_part x.now))) }
{
    match x {
        Part::Local(d) => declaration_changes(alloc, setting, d, out),
        Part::Run(y) => statement_changes(y, alloc, setting, out),
    }
}

// Notes what sections change.
#[cycle(statement_changes)]
#[tactic(auto, using(crate::proofs::Flat::listed))]
fn sections_changes(
    list: &[Section],
    alloc: Global,
    setting: &Setting,
    out: &mut Vec<Change>,
) -> Result<(), NoMemory>
    ensures { OnOk result (out.new.items ≡ out.old.items ++ change_list (setting_in setting.now) (sections_visits (typing_in setting.now.types) (sections (map view_section list.now)))) }
{
    for x in list {
        section_changes(x, alloc, setting, out)?;
    }
    Ok(())
}

// Notes what a section changes.
#[cycle(statement_changes)]
#[tactic(auto, using(crate::proofs::Flat::listed))]
fn section_changes(
    x: &Section,
    alloc: Global,
    setting: &Setting,
    out: &mut Vec<Change>,
) -> Result<(), NoMemory>
    ensures { OnOk result (out.new.items ≡ out.old.items ++ change_list (setting_in setting.now) (section_visits (typing_in setting.now.types) (view_section x.now))) }
{
    statements_changes(x.body.as_slice(), alloc, setting, out)
}

// What each turn of a loop changes; of another statement nothing.
fn turn_changes(alloc: Global, setting: &Setting, f: &StmtForm) -> Result<Vec<Change>, NoMemory>
    ensures { IfOk result (λ out. out.items ≡ change_list (setting_in setting.now) (turn_visits (typing_in setting.now.types) (view_statement_form f.now))) }
{
    let mut out = Vec::new(alloc);
    match f {
        StmtForm::While(e, x) => {
            expression_changes(alloc, setting, e, Role::as_test(), &mut out)?;
            statement_changes(x.get(), alloc, setting, &mut out)?;
            Ok(out)
        }
        StmtForm::Do(x, e) => {
            statement_changes(x.get(), alloc, setting, &mut out)?;
            expression_changes(alloc, setting, e, Role::as_test(), &mut out)?;
            Ok(out)
        }
        StmtForm::For(_, test, step, x) => {
            maybe_changes(alloc, setting, test, Role::as_test(), &mut out)?;
            maybe_changes(alloc, setting, step, Role::reading(), &mut out)?;
            statement_changes(x.get(), alloc, setting, &mut out)?;
            Ok(out)
        }
        StmtForm::Block(_)
        | StmtForm::Plain(_)
        | StmtForm::Return(_)
        | StmtForm::If(_, _, _)
        | StmtForm::Switch(_, _)
        | StmtForm::Break
        | StmtForm::Continue => Ok(out),
    }
}

// Notes the register of a change.
fn note_register(change: Change, out: &mut Vec<u32>) -> Result<(), NoMemory>
    ensures { OnOk result (out.new.items ≡ out.old.items ++ registers_changed (change ∷ [])) }
{
    if let Change::Register(k) = change {
        out.push(k)?;
    }
    Ok(())
}

// The registers among changes.
fn registers_changed(alloc: Global, list: &[Change]) -> Result<Vec<u32>, NoMemory>
    ensures { IfOk result (λ out. out.items ≡ registers_changed list.now) }
{
    let mut out = Vec::new(alloc);
    for change in list {
        note_register(*change, &mut out)?;
    }
    Ok(out)
}

// Those of some numbers that are in a set, in order.
#[tactic(auto, using(crate::proofs::Filters::filtered))]
fn those_in(alloc: Global, list: &[u32], set: &NodeSet) -> Result<Vec<u32>, NoMemory>
    ensures { IfOk result (λ out. out.items ≡ filter (λ k. is_listed k set.now) list.now) }
{
    let mut out = Vec::new(alloc);
    for k in list {
        if set.has(*k) {
            out.push(*k)?;
        }
    }
    Ok(out)
}

// Those of some numbers that are among others, in order. Where there are no others, it looks at none.
fn those_among(alloc: Global, list: &[u32], others: Vec<u32>) -> Result<Vec<u32>, NoMemory>
    ensures { IfOk result (λ out. out.items ≡ filter (λ k. is_listed k others.items) list.now) }
{
    if others.is_empty() {
        return Ok(Vec::new(alloc));
    }
    let set = NodeSet::of(alloc, others)?;
    those_in(alloc, list, &set)
}

/// The registers that each turn of a loop may assign, in the order of their declarators, without those that its own
/// blocks declare; none of another statement.
pub fn assigned(alloc: Global, setting: &Setting, f: &StmtForm) -> Result<Vec<u32>, NoMemory>
    ensures { IfOk result (λ out. out.items ≡ assigned_in (setting_in setting.now) (view_statement_form f.now)) }
{
    let list = turn_changes(alloc, setting, f)?;
    let changed = registers_changed(alloc, list.as_slice())?;
    those_among(alloc, setting.registers(), changed)
}

// Whether a change may be of the kept object at a position.
fn is_of_kept(change: Change, position: u32) -> bool
    ensures { result ≡ changed_by change (kept_spot position) }
{
    match change {
        Change::Register(_) => false,
        Change::Kept(q) => position == q,
        Change::AnyKept => true,
    }
}

/// Whether one of some changes may be of the kept object at a position.
pub fn is_any_of_kept(list: &[Change], position: u32) -> bool
    ensures { result ≡ changed_by_any list.now (kept_spot position) }
{
    for change in list {
        if is_of_kept(*change, position) {
            return true;
        }
    }
    false
}

/// What each turn of a loop may change, of registers and kept objects; nothing of another statement. Whether it may
/// change a kept object is what `is_any_of_kept` says of the list.
pub fn changed_in_turn(
    alloc: Global,
    setting: &Setting,
    f: &StmtForm,
) -> Result<Vec<Change>, NoMemory>
    ensures { IfOk result (λ list. (q : ℕ) → changed_by_any list.items (kept_spot q) ≡ forgotten_in (setting_in setting.now) (view_statement_form f.now) q) }
{
    let list = turn_changes(alloc, setting, f)?;
    Ok(list)
}

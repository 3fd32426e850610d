//! Statements.

ghost use Rattle.std.specs.Prelude.{◌≡◌, map, OnOk};
ghost use Rattle.std.specs.Option.{option_map};
ghost use Rattle.stk_ctype.specs.Structs.{Structs, structs_of};
ghost use Rattle.stk_tree.specs.View.{given_expression, view_part, view_section, view_start, view_statement, maybe_statement, parts, sections, statements};
ghost use Rattle.stk_type_rules.specs.Facts.{AreSoundFacts, fact_of};
ghost use Rattle.stk_type_rules.specs.Outcome.{Gives, finish};
ghost use Rattle.stk_typing.specs.Locals.{AreSoundLocals, local_of};
ghost use Rattle.stk_function_types.specs.Bodies.{opened};
ghost use Rattle.stk_statements.specs.Places.{Begins, body_in};
ghost use Rattle.stk_function_types.specs.Sections.{Labelled, section_rule, unlabelled};
ghost use Rattle.stk_function_types.specs.Statements.{maybe_statement_typed, part_typed, parts_typed, section_typed, sections_typed, start_typed, statement_typed, statements_typed};
ghost use Rattle.stk_statements.specs.Rows.{AnyFact, AnyLabels, AreLocals, IsLabelled, IsStarted, Nothing};

use crate::forms::{by_for, by_leave, by_nothing, by_switch, by_test, optional};
use crate::places::Context;
use crate::{Labels, declaration, discarded, put_labels, returned, test};
use stk_base::Boxed;
use stk_ctype::IntKind;
use stk_tree::{Part, Section, Start, Stmt, StmtForm};
use stk_type_rules::{NodeFact, Untyped, fact, kind_of, own};
use stk_typing::Locals;

// Types the first part of a `for`: the place of its expression, where it is one.
fn start(
    p: &Context,
    locals: &mut Locals,
    facts: &mut Vec<NodeFact>,
    x: &Start,
) -> Result<Option<usize>, Untyped>
    requires locals { AreSoundLocals (structs_of p.now.file.names.now) (map local_of locals.old) }
    requires sound { AreSoundFacts (structs_of p.now.file.names.now) (map fact_of facts.old.items) }
    ensures gives { Gives (IsStarted (map local_of locals.old) (map local_of locals.new) (map fact_of facts.new.items)) (start_typed (body_in p.now locals.old) (view_start x.now)) result (map fact_of facts.old.items) (map fact_of facts.new.items) }
    ensures sound { OnOk result (AreSoundFacts (structs_of p.now.file.names.now) (map fact_of facts.new.items)) }
    ensures locals { OnOk result (AreSoundLocals (structs_of p.now.file.names.now) (map local_of locals.new)) }
    ensures begins { OnOk result (Begins locals.old locals.new) }
{
    match x {
        Start::Local(d) => {
            declaration(p, locals, facts, d)?;
            Ok(None)
        }
        Start::Plain(e) => optional(p, locals, facts, e),
    }
}

// The node of a section behind its labels and its statements.
fn by_section(facts: &mut Vec<NodeFact>, node: u32, all: &Labels) -> Result<(), Untyped>
    ensures gives { (l : Labelled) → IsLabelled l all.now → Gives AnyFact (finish node (section_rule l)) result (map fact_of facts.old.items) (map fact_of facts.new.items) }
    ensures sound { (structs : Structs) → AreSoundFacts structs (map fact_of facts.old.items) → OnOk result (AreSoundFacts structs (map fact_of facts.new.items)) }
{
    own(facts, node, all.rule())?;
    Ok(())
}

/// Types a statement (C11 6.8): a fact for each of its nodes is put behind the others, its own last, and the locals are
/// as before; or the first node that a rule refuses, by the lowest rule that does.
#[cycle(statement)]
pub(crate) fn statement(
    p: &Context,
    locals: &mut Locals,
    facts: &mut Vec<NodeFact>,
    x: &Stmt,
) -> Result<(), Untyped>
    requires locals { AreSoundLocals (structs_of p.now.file.names.now) (map local_of locals.old) }
    requires sound { AreSoundFacts (structs_of p.now.file.names.now) (map fact_of facts.old.items) }
    ensures gives { Gives AnyFact (statement_typed (body_in p.now locals.old) (view_statement x.now)) result (map fact_of facts.old.items) (map fact_of facts.new.items) }
    ensures sound { OnOk result (AreSoundFacts (structs_of p.now.file.names.now) (map fact_of facts.new.items)) }
    ensures locals { OnOk result (locals.new ≡ locals.old) }
{
    let k = x.node.number;
    match &x.form {
        StmtForm::Block(list) => {
            block(p, locals, facts, list.as_slice())?;
            by_nothing(facts, k)
        }
        StmtForm::Plain(e) => discarded(p, locals, facts, k, e),
        StmtForm::If(e, y, other) => {
            let at = test(p, locals, facts, e)?;
            statement(p, locals, facts, y.get())?;
            otherwise(p, locals, facts, other)?;
            by_test(facts, k, at)
        }
        StmtForm::Switch(e, list) => {
            let at = test(p, locals, facts, e)?;
            let kind = kind_of(&fact(facts, at).ty);
            switched(&p.switched(), locals, facts, kind, list.as_slice())?;
            by_switch(facts, k, at)
        }
        StmtForm::While(e, y) => {
            let at = test(p, locals, facts, e)?;
            statement(&p.looped(), locals, facts, y.get())?;
            by_test(facts, k, at)
        }
        StmtForm::Do(y, e) => {
            statement(&p.looped(), locals, facts, y.get())?;
            let at = test(p, locals, facts, e)?;
            by_test(facts, k, at)
        }
        StmtForm::For(first, e, step, y) => {
            let outer = locals.count();
            let inner = p.opened(locals);
            let at = start(&inner, locals, facts, first)?;
            let tested = optional(&inner, locals, facts, e)?;
            let stepped = optional(&inner, locals, facts, step)?;
            statement(&inner.looped(), locals, facts, y.get())?;
            locals.cut_to(outer);
            by_for(facts, k, at, tested, stepped)
        }
        StmtForm::Break => by_leave(facts, k, p.can_break),
        StmtForm::Continue => by_leave(facts, k, p.can_continue),
        StmtForm::Return(e) => returned(p, locals, facts, k, e),
    }
}

// Types the parts of a block of its own.
#[cycle(statement)]
fn block(
    p: &Context,
    locals: &mut Locals,
    facts: &mut Vec<NodeFact>,
    list: &[Part],
) -> Result<(), Untyped>
    requires locals { AreSoundLocals (structs_of p.now.file.names.now) (map local_of locals.old) }
    requires sound { AreSoundFacts (structs_of p.now.file.names.now) (map fact_of facts.old.items) }
    ensures gives { Gives Nothing (parts_typed (opened (body_in p.now locals.old)) (parts (map view_part list.now))) result (map fact_of facts.old.items) (map fact_of facts.new.items) }
    ensures sound { OnOk result (AreSoundFacts (structs_of p.now.file.names.now) (map fact_of facts.new.items)) }
    ensures locals { OnOk result (locals.new ≡ locals.old) }
{
    let outside = locals.count();
    parts(&p.opened(locals), locals, facts, list)?;
    locals.cut_to(outside);
    Ok(())
}

// Types a statement that may be missing.
#[cycle(statement)]
fn otherwise(
    p: &Context,
    locals: &mut Locals,
    facts: &mut Vec<NodeFact>,
    other: &Option<Boxed<Stmt>>,
) -> Result<(), Untyped>
    requires locals { AreSoundLocals (structs_of p.now.file.names.now) (map local_of locals.old) }
    requires sound { AreSoundFacts (structs_of p.now.file.names.now) (map fact_of facts.old.items) }
    ensures gives { Gives Nothing (maybe_statement_typed (body_in p.now locals.old) (maybe_statement (option_map view_statement other.now))) result (map fact_of facts.old.items) (map fact_of facts.new.items) }
    ensures sound { OnOk result (AreSoundFacts (structs_of p.now.file.names.now) (map fact_of facts.new.items)) }
    ensures locals { OnOk result (locals.new ≡ locals.old) }
{
    match other {
        None => Ok(()),
        Some(x) => statement(p, locals, facts, x.get()),
    }
}

// Types statements, one after the other.
#[cycle(statement)]
fn statements(
    p: &Context,
    locals: &mut Locals,
    facts: &mut Vec<NodeFact>,
    list: &[Stmt],
) -> Result<(), Untyped>
    requires locals { AreSoundLocals (structs_of p.now.file.names.now) (map local_of locals.old) }
    requires sound { AreSoundFacts (structs_of p.now.file.names.now) (map fact_of facts.old.items) }
    ensures gives { Gives Nothing (statements_typed (body_in p.now locals.old) (statements (map view_statement list.now))) result (map fact_of facts.old.items) (map fact_of facts.new.items) }
    ensures sound { OnOk result (AreSoundFacts (structs_of p.now.file.names.now) (map fact_of facts.new.items)) }
    ensures locals { OnOk result (locals.new ≡ locals.old) }
{
    for x in list {
        statement(p, locals, facts, x)?;
    }
    Ok(())
}

// Types a part of a block, and brings its names into force.
#[cycle(statement)]
fn part(
    p: &Context,
    locals: &mut Locals,
    facts: &mut Vec<NodeFact>,
    x: &Part,
) -> Result<(), Untyped>
    requires locals { AreSoundLocals (structs_of p.now.file.names.now) (map local_of locals.old) }
    requires sound { AreSoundFacts (structs_of p.now.file.names.now) (map fact_of facts.old.items) }
    ensures gives { Gives (AreLocals (map local_of locals.old) (map local_of locals.new)) (part_typed (body_in p.now locals.old) (view_part x.now)) result (map fact_of facts.old.items) (map fact_of facts.new.items) }
    ensures sound { OnOk result (AreSoundFacts (structs_of p.now.file.names.now) (map fact_of facts.new.items)) }
    ensures locals { OnOk result (AreSoundLocals (structs_of p.now.file.names.now) (map local_of locals.new)) }
    ensures begins { OnOk result (Begins locals.old locals.new) }
{
    match x {
        Part::Local(d) => declaration(p, locals, facts, d),
        Part::Run(y) => statement(p, locals, facts, y),
    }
}

/// Types the parts of a block, one after the other, and brings their names into force.
#[cycle(statement)]
pub(crate) fn parts(
    p: &Context,
    locals: &mut Locals,
    facts: &mut Vec<NodeFact>,
    list: &[Part],
) -> Result<(), Untyped>
    requires locals { AreSoundLocals (structs_of p.now.file.names.now) (map local_of locals.old) }
    requires sound { AreSoundFacts (structs_of p.now.file.names.now) (map fact_of facts.old.items) }
    ensures gives { Gives Nothing (parts_typed (body_in p.now locals.old) (parts (map view_part list.now))) result (map fact_of facts.old.items) (map fact_of facts.new.items) }
    ensures sound { OnOk result (AreSoundFacts (structs_of p.now.file.names.now) (map fact_of facts.new.items)) }
    ensures locals { OnOk result (AreSoundLocals (structs_of p.now.file.names.now) (map local_of locals.new)) }
    ensures begins { OnOk result (Begins locals.old locals.new) }
{
    for x in list {
        part(p, locals, facts, x)?;
    }
    Ok(())
}

// Types all sections of a `switch`.
#[cycle(statement)]
fn switched(
    p: &Context,
    locals: &mut Locals,
    facts: &mut Vec<NodeFact>,
    kind: Option<IntKind>,
    list: &[Section],
) -> Result<(), Untyped>
    requires locals { AreSoundLocals (structs_of p.now.file.names.now) (map local_of locals.old) }
    requires sound { AreSoundFacts (structs_of p.now.file.names.now) (map fact_of facts.old.items) }
    ensures gives { Gives AnyLabels (sections_typed (body_in p.now locals.old) kind unlabelled (sections (map view_section list.now))) result (map fact_of facts.old.items) (map fact_of facts.new.items) }
    ensures sound { OnOk result (AreSoundFacts (structs_of p.now.file.names.now) (map fact_of facts.new.items)) }
    ensures locals { OnOk result (locals.new ≡ locals.old) }
{
    let mut all = Labels::none(p.file.alloc);
    sections(p, locals, facts, kind, &mut all, list)
}

// Types a section of a `switch`.
#[cycle(statement)]
fn section(
    p: &Context,
    locals: &mut Locals,
    facts: &mut Vec<NodeFact>,
    kind: Option<IntKind>,
    all: &mut Labels,
    x: &Section,
) -> Result<(), Untyped>
    requires locals { AreSoundLocals (structs_of p.now.file.names.now) (map local_of locals.old) }
    requires sound { AreSoundFacts (structs_of p.now.file.names.now) (map fact_of facts.old.items) }
    ensures gives { (l : Labelled) → IsLabelled l all.old → Gives (λ m v. IsLabelled m all.new) (section_typed (body_in p.now locals.old) kind l (view_section x.now)) result (map fact_of facts.old.items) (map fact_of facts.new.items) }
    ensures sound { OnOk result (AreSoundFacts (structs_of p.now.file.names.now) (map fact_of facts.new.items)) }
    ensures locals { OnOk result (locals.new ≡ locals.old) }
{
    all.carry();
    put_labels(p, locals, facts, kind, all, x.labels.as_slice())?;
    statements(p, locals, facts, x.body.as_slice())?;
    by_section(facts, x.node.number, all)
}

// Types sections, one after the other.
#[cycle(statement)]
fn sections(
    p: &Context,
    locals: &mut Locals,
    facts: &mut Vec<NodeFact>,
    kind: Option<IntKind>,
    all: &mut Labels,
    list: &[Section],
) -> Result<(), Untyped>
    requires locals { AreSoundLocals (structs_of p.now.file.names.now) (map local_of locals.old) }
    requires sound { AreSoundFacts (structs_of p.now.file.names.now) (map fact_of facts.old.items) }
    ensures gives { (l : Labelled) → IsLabelled l all.old → Gives (λ m v. IsLabelled m all.new) (sections_typed (body_in p.now locals.old) kind l (sections (map view_section list.now))) result (map fact_of facts.old.items) (map fact_of facts.new.items) }
    ensures sound { OnOk result (AreSoundFacts (structs_of p.now.file.names.now) (map fact_of facts.new.items)) }
    ensures locals { OnOk result (locals.new ≡ locals.old) }
{
    for x in list {
        section(p, locals, facts, kind, all, x)?;
    }
    Ok(())
}

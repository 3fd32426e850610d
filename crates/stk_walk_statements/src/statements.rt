//! Statements (C11 6.8).

ghost use Rattle.std.specs.Prelude.{◌≡◌, ◌++◌, ◌∷◌, [], ℕ, ℤ, List, Bool, OnOk, length, map, option_map, ◌+◌};
ghost use Rattle.std.specs.Option.{option_copied};
ghost use Rattle.stk_tree.specs.View.{view_statement, maybe_statement, view_part, parts, view_section, sections, statements, view_start, view_expression, given_expression};
ghost use Rattle.stk_meaning.specs.Typings.{statement_node};
ghost use Rattle.stk_meaning.specs.Visits.{part_declares, parts_declare, start_declares};
ghost use Rattle.stk_meaning.specs.Worlds.{entered, and_then, give_back, again, Another};
ghost use Rattle.stk_meaning.specs.Paths.{path_world};
ghost use Rattle.stk_meaning.specs.Statements.{statement_run, otherwise_run, statements_run, parts_run, part_run, section_run, sections_run, start_run, turned_body, while_turn, do_turn, switch_run, loop_run, discarded_run};
ghost use Rattle.stk_kinded.specs.Kinded.{Kinded};
ghost use Rattle.stk_kinded.specs.KindedStatements.{KindedMaybe, KindedStart, KindedStatement, KindedOther, KindedStatements, KindedBlock, KindedPart, KindedSections, KindedSection};
ghost use Rattle.stk_eval_expr.specs.Loops.{EachLoop, EachLoopOfOther, EachLoopOfStatements, EachLoopOfParts, EachLoopOfPart, EachLoopOfSections, EachLoopOfSection};
ghost use Rattle.stk_exec_stmt.specs.Ending.{form_of};
ghost use Rattle.stk_guarded.specs.Turns.{no_more};
ghost use Rattle.stk_walking.specs.Keyed.{AreThere};
ghost use Rattle.stk_walking.specs.Stands.{IsMade};
ghost use Rattle.stk_walking.specs.ExpressionEvents.{value_events, tested_events};
ghost use Rattle.stk_walking.specs.StatementEvents.{discarded_events, maybe_tested_events, start_events, statement_events, branch_events, otherwise_events, statements_events, parts_events, part_events, sections_events, section_events};
ghost use Rattle.stk_walk_statements.specs.Walked.{Walked, WalkedSections, as_flow, as_declaration};
ghost use Rattle.stk_walk_statements.specs.Selected.{TestsMade};
ghost use Rattle.stk_numbers.specs.Kinds.{width_of, promote};
ghost use Rattle.stk_values.specs.Charges.{convert_charge};
ghost use Rattle.stk_spending.specs.Expressions.{spent_value, spent_test, maybe_spent, kind_in};
ghost use Rattle.stk_spending.specs.Statements.{start_spent, cases_spent, loop_spent, loop_test_spent, statement_spent, other_spent, statements_spent, parts_spent, part_spent, sections_spent, section_spent};
ghost use Rattle.stk_walking.specs.Costs.{Costs};

use crate::choosing::section_tests;
use crate::declarations::declaration;
use crate::guards::{begin_branch, begin_sections, join, pass_body, pass_sections, pass_test};
use crate::scopes::{give_back, saved_parts, saved_start};
use crate::simple::{discarded, returned};
use stk_base::{Boxed, NoMemory};
use stk_eval_expr::node_of;
use stk_numbers::promote;
use stk_tree::{Expr, Part, Section, Start, Stmt, StmtForm};
use stk_values::Values;
use stk_walking::{
    ExpressionWalk, WalkState, begin_loop, converted, enter, leave_by_break, leave_by_continue,
    open_body,
};

/// A statement: under each input map that the store serves, the walk stands then where a path run of the statement does
/// from where it stood, and what has left the statement by a jump is told to the statement that it leaves. Where the
/// run hasn't come here, nothing changes. Both branches of each test are walked one after the other, under their
/// guards, and nothing is copied.
#[cycle(statement)]
pub(crate) fn statement<O: ExpressionWalk, V: Values>(
    out: &O,
    s: &Stmt,
    values: &mut V,
    state: &mut WalkState<V::Value>,
) -> Result<(), NoMemory>
    requires loops { EachLoop (O.knows out.now) (view_statement s.now) }
    requires kinded { KindedStatement (O.setting out.now) (view_statement s.now) }
    requires keys { AreThere (V.has_key values.old) (O.kinds out.now) }
    requires made { IsMade (V.made values.old) (O.setting out.now) state.old }
    ensures walked { OnOk result (Walked V.serves V.has_key V.made V.shows (O.setting out.now) (statement_events (O.setting out.now) (view_statement s.now)) (as_flow [] (λ m. statement_run (O.setting out.now) (path_world (O.under out.now m)) (view_statement s.now))) values.old values.new state.old state.new) }
    ensures cost { OnOk result (Costs V.cost (length (O.setting out.now).kept) (statement_spent (O.setting out.now) (view_statement s.now)) values.old values.new (length state.old.cells.items) (length state.new.cells.items)) }
{
    match &s.form {
        StmtForm::Block(list) => block(out, list.as_slice(), values, state),
        StmtForm::Plain(e) => {
            discarded(out, e.as_ref(), values, state)?;
            Ok(())
        }
        StmtForm::If(e, x, other) => {
            let test = out.tested(e, values, state)?;
            let second = begin_branch(values, test, state)?;
            entered(out, x.get(), values, state)?;
            let first = state.guard;
            state.guard = second;
            otherwise(out, other, values, state)?;
            join(values, first, state)?;
            Ok(())
        }
        StmtForm::Switch(e, list) => switch(out, list.as_slice(), e, values, state),
        StmtForm::While(e, x) => {
            while_loop(out, x.get(), s, Some(e), None, values, state)?;
            Ok(())
        }
        StmtForm::Do(x, e) => do_loop(out, x.get(), s, e, values, state),
        StmtForm::For(first, test, step, x) => {
            let test = test.as_ref();
            for_loop(out, x.get(), s, first, test, step.as_ref(), values, state)
        }
        StmtForm::Break => {
            leave_by_break(values, state)?;
            Ok(())
        }
        StmtForm::Continue => {
            leave_by_continue(values, state)?;
            Ok(())
        }
        StmtForm::Return(e) => returned(out, e.as_ref(), values, state),
    }
}

// A branch that is entered.
#[cycle(statement)]
fn entered<O: ExpressionWalk, V: Values>(
    out: &O,
    s: &Stmt,
    values: &mut V,
    state: &mut WalkState<V::Value>,
) -> Result<(), NoMemory>
    requires loops { EachLoop (O.knows out.now) (view_statement s.now) }
    requires kinded { KindedStatement (O.setting out.now) (view_statement s.now) }
    requires keys { AreThere (V.has_key values.old) (O.kinds out.now) }
    requires made { IsMade (V.made values.old) (O.setting out.now) state.old }
    ensures walked { OnOk result (Walked V.serves V.has_key V.made V.shows (O.setting out.now) (branch_events (O.setting out.now) (view_statement s.now)) (as_flow [] (λ m r k. entered (statement_node (view_statement s.now)) (statement_run (O.setting out.now) (path_world (O.under out.now m)) (view_statement s.now) r k))) values.old values.new state.old state.new) }
    ensures cost { OnOk result (Costs V.cost (length (O.setting out.now).kept) (statement_spent (O.setting out.now) (view_statement s.now)) values.old values.new (length state.old.cells.items) (length state.new.cells.items)) }
{
    enter(values, s.node.number, state)?;
    statement(out, s, values, state)?;
    Ok(())
}

// The second branch of an `if`, which may be missing.
#[cycle(statement)]
fn otherwise<O: ExpressionWalk, V: Values>(
    out: &O,
    other: &Option<Boxed<Stmt>>,
    values: &mut V,
    state: &mut WalkState<V::Value>,
) -> Result<(), NoMemory>
    requires loops { EachLoopOfOther (O.knows out.now) (maybe_statement (option_map view_statement other.now)) }
    requires kinded { KindedOther (O.setting out.now) (maybe_statement (option_map view_statement other.now)) }
    requires keys { AreThere (V.has_key values.old) (O.kinds out.now) }
    requires made { IsMade (V.made values.old) (O.setting out.now) state.old }
    ensures walked { OnOk result (Walked V.serves V.has_key V.made V.shows (O.setting out.now) (otherwise_events (O.setting out.now) (maybe_statement (option_map view_statement other.now))) (as_flow [] (λ m. otherwise_run (O.setting out.now) (path_world (O.under out.now m)) (maybe_statement (option_map view_statement other.now)))) values.old values.new state.old state.new) }
    ensures cost { OnOk result (Costs V.cost (length (O.setting out.now).kept) (other_spent (O.setting out.now) (maybe_statement (option_map view_statement other.now))) values.old values.new (length state.old.cells.items) (length state.new.cells.items)) }
{
    match other {
        None => Ok(()),
        Some(x) => entered(out, x.get(), values, state),
    }
}

// A block: it gives back the registers that it declares.
#[cycle(statement)]
fn block<O: ExpressionWalk, V: Values>(
    out: &O,
    list: &[Part],
    values: &mut V,
    state: &mut WalkState<V::Value>,
) -> Result<(), NoMemory>
    requires loops { EachLoopOfParts (O.knows out.now) (parts (map view_part list.now)) }
    requires kinded { KindedBlock (O.setting out.now) (parts (map view_part list.now)) }
    requires keys { AreThere (V.has_key values.old) (O.kinds out.now) }
    requires made { IsMade (V.made values.old) (O.setting out.now) state.old }
    ensures walked { OnOk result (Walked V.serves V.has_key V.made V.shows (O.setting out.now) (parts_events (O.setting out.now) (parts (map view_part list.now))) (as_flow [] (λ m r k. give_back (parts_declare (parts (map view_part list.now))) r (parts_run (O.setting out.now) (path_world (O.under out.now m)) (parts (map view_part list.now)) r k))) values.old values.new state.old state.new) }
    ensures cost { OnOk result (Costs V.cost (length (O.setting out.now).kept) (parts_spent (O.setting out.now) (parts (map view_part list.now))) values.old values.new (length state.old.cells.items) (length state.new.cells.items)) }
{
    let saved = saved_parts(out, state.alloc, list, values, &state.registers)?;
    parts(out, list, values, state)?;
    give_back(saved, &mut state.registers);
    Ok(())
}

// The parts of a block in order (C11 6.8.2).
#[cycle(statement)]
fn parts<O: ExpressionWalk, V: Values>(
    out: &O,
    list: &[Part],
    values: &mut V,
    state: &mut WalkState<V::Value>,
) -> Result<(), NoMemory>
    requires loops { EachLoopOfParts (O.knows out.now) (parts (map view_part list.now)) }
    requires kinded { KindedBlock (O.setting out.now) (parts (map view_part list.now)) }
    requires keys { AreThere (V.has_key values.old) (O.kinds out.now) }
    requires made { IsMade (V.made values.old) (O.setting out.now) state.old }
    ensures walked { OnOk result (Walked V.serves V.has_key V.made V.shows (O.setting out.now) (parts_events (O.setting out.now) (parts (map view_part list.now))) (as_flow (parts_declare (parts (map view_part list.now))) (λ m. parts_run (O.setting out.now) (path_world (O.under out.now m)) (parts (map view_part list.now)))) values.old values.new state.old state.new) }
    ensures cost { OnOk result (Costs V.cost (length (O.setting out.now).kept) (parts_spent (O.setting out.now) (parts (map view_part list.now))) values.old values.new (length state.old.cells.items) (length state.new.cells.items)) }
{
    for p in list {
        part(out, p, values, state)?;
    }
    Ok(())
}

// A part of a block.
#[cycle(statement)]
fn part<O: ExpressionWalk, V: Values>(
    out: &O,
    p: &Part,
    values: &mut V,
    state: &mut WalkState<V::Value>,
) -> Result<(), NoMemory>
    requires loops { EachLoopOfPart (O.knows out.now) (view_part p.now) }
    requires kinded { KindedPart (O.setting out.now) (view_part p.now) }
    requires keys { AreThere (V.has_key values.old) (O.kinds out.now) }
    requires made { IsMade (V.made values.old) (O.setting out.now) state.old }
    ensures walked { OnOk result (Walked V.serves V.has_key V.made V.shows (O.setting out.now) (part_events (O.setting out.now) (view_part p.now)) (as_flow (part_declares (view_part p.now)) (λ m. part_run (O.setting out.now) (path_world (O.under out.now m)) (view_part p.now))) values.old values.new state.old state.new) }
    ensures cost { OnOk result (Costs V.cost (length (O.setting out.now).kept) (part_spent (O.setting out.now) (view_part p.now)) values.old values.new (length state.old.cells.items) (length state.new.cells.items)) }
{
    match p {
        Part::Local(d) => {
            declaration(out, d, values, state)?;
            Ok(())
        }
        Part::Run(s) => statement(out, s, values, state),
    }
}

// The first part of a `for` (C11 6.8.5.3).
fn start<O: ExpressionWalk, V: Values>(
    out: &O,
    first: &Start,
    values: &mut V,
    state: &mut WalkState<V::Value>,
) -> Result<(), NoMemory>
    requires kinded { KindedStart (O.setting out.now) (view_start first.now) }
    requires keys { AreThere (V.has_key values.old) (O.kinds out.now) }
    requires made { IsMade (V.made values.old) (O.setting out.now) state.old }
    ensures walked { OnOk result (Walked V.serves V.has_key V.made V.shows (O.setting out.now) (start_events (O.setting out.now) (view_start first.now)) (as_declaration (start_declares (view_start first.now)) (λ m. start_run (O.setting out.now) (path_world (O.under out.now m)) (view_start first.now))) values.old values.new state.old state.new) }
    ensures cost { OnOk result (Costs V.cost (length (O.setting out.now).kept) (start_spent (O.setting out.now) (view_start first.now)) values.old values.new (length state.old.cells.items) (length state.new.cells.items)) }
{
    match first {
        Start::Local(d) => declaration(out, d, values, state),
        Start::Plain(e) => {
            discarded(out, e.as_ref(), values, state)?;
            Ok(())
        }
    }
}

// `for`: it gives back the registers that its first part declares.
#[cycle(statement)]
fn for_loop<O: ExpressionWalk, V: Values>(
    out: &O,
    body: &Stmt,
    whole: &Stmt,
    first: &Start,
    test: Option<&Expr>,
    step: Option<&Expr>,
    values: &mut V,
    state: &mut WalkState<V::Value>,
) -> Result<(), NoMemory>
    requires whole { O.knows out.now (statement_node (view_statement whole.now)) (form_of (view_statement whole.now)) }
    requires loops { EachLoop (O.knows out.now) (view_statement body.now) }
    requires kinded_first { KindedStart (O.setting out.now) (view_start first.now) }
    requires kinded_test { KindedMaybe (O.setting out.now) (given_expression (option_copied test)) }
    requires kinded_step { KindedMaybe (O.setting out.now) (given_expression (option_copied step)) }
    requires kinded { KindedStatement (O.setting out.now) (view_statement body.now) }
    requires keys { AreThere (V.has_key values.old) (O.kinds out.now) }
    requires made { IsMade (V.made values.old) (O.setting out.now) state.old }
    ensures walked { OnOk result (Walked V.serves V.has_key V.made V.shows (O.setting out.now) (start_events (O.setting out.now) (view_start first.now) ++ (maybe_tested_events (O.setting out.now) (given_expression (option_copied test.entry)) ++ (branch_events (O.setting out.now) (view_statement body.now) ++ discarded_events (O.setting out.now) (given_expression (option_copied step.entry))))) (as_flow [] (λ m r k. give_back (start_declares (view_start first.now)) r (and_then (start_run (O.setting out.now) (path_world (O.under out.now m)) (view_start first.now) r k) (λ flow. loop_run (O.setting out.now) (path_world (O.under out.now m)) (statement_node (view_statement whole.now)) (form_of (view_statement whole.now)) (while_turn (O.setting out.now) (path_world (O.under out.now m)) (given_expression (option_copied test.entry)) (statement_node (view_statement body.now)) (statement_run (O.setting out.now) (path_world (O.under out.now m)) (view_statement body.now)) (discarded_run (O.setting out.now) (path_world (O.under out.now m)) (given_expression (option_copied step.entry)))))))) values.old values.new state.old state.new) }
    ensures cost { OnOk result (Costs V.cost (length (O.setting out.now).kept) ((start_spent (O.setting out.now) (view_start first.now)) + (loop_spent (O.setting out.now) (form_of (view_statement whole.now))) + (loop_test_spent (O.setting out.now) (given_expression (option_copied test.entry))) + (statement_spent (O.setting out.now) (view_statement body.now)) + 3 + (maybe_spent (O.setting out.now) (given_expression (option_copied step.entry)))) values.old values.new (length state.old.cells.items) (length state.new.cells.items)) }
{
    let saved = saved_start(out, state.alloc, first, values, &state.registers)?;
    start(out, first, values, state)?;
    while_loop(out, body, whole, test, step, values, state)?;
    give_back(saved, &mut state.registers);
    Ok(())
}

// `while`, and `for` without its first part.
#[cycle(statement)]
fn while_loop<O: ExpressionWalk, V: Values>(
    out: &O,
    body: &Stmt,
    whole: &Stmt,
    test: Option<&Expr>,
    step: Option<&Expr>,
    values: &mut V,
    state: &mut WalkState<V::Value>,
) -> Result<(), NoMemory>
    requires whole { O.knows out.now (statement_node (view_statement whole.now)) (form_of (view_statement whole.now)) }
    requires loops { EachLoop (O.knows out.now) (view_statement body.now) }
    requires kinded_test { KindedMaybe (O.setting out.now) (given_expression (option_copied test)) }
    requires kinded_step { KindedMaybe (O.setting out.now) (given_expression (option_copied step)) }
    requires kinded { KindedStatement (O.setting out.now) (view_statement body.now) }
    requires keys { AreThere (V.has_key values.old) (O.kinds out.now) }
    requires made { IsMade (V.made values.old) (O.setting out.now) state.old }
    ensures walked { OnOk result (Walked V.serves V.has_key V.made V.shows (O.setting out.now) (maybe_tested_events (O.setting out.now) (given_expression (option_copied test.entry)) ++ (branch_events (O.setting out.now) (view_statement body.now) ++ discarded_events (O.setting out.now) (given_expression (option_copied step.entry)))) (as_flow [] (λ m. loop_run (O.setting out.now) (path_world (O.under out.now m)) (statement_node (view_statement whole.now)) (form_of (view_statement whole.now)) (while_turn (O.setting out.now) (path_world (O.under out.now m)) (given_expression (option_copied test.entry)) (statement_node (view_statement body.now)) (statement_run (O.setting out.now) (path_world (O.under out.now m)) (view_statement body.now)) (discarded_run (O.setting out.now) (path_world (O.under out.now m)) (given_expression (option_copied step.entry)))))) values.old values.new state.old state.new) }
    ensures cost { OnOk result (Costs V.cost (length (O.setting out.now).kept) ((loop_spent (O.setting out.now) (form_of (view_statement whole.now))) + (loop_test_spent (O.setting out.now) (given_expression (option_copied test.entry))) + (statement_spent (O.setting out.now) (view_statement body.now)) + 3 + (maybe_spent (O.setting out.now) (given_expression (option_copied step.entry)))) values.old values.new (length state.old.cells.items) (length state.new.cells.items)) }
{
    begin_loop(out, whole.node.number, &whole.form, values, state)?;
    while_turn(out, body, test, step, values, state)?;
    Ok(())
}

// The one turn of `while` and of `for`. A missing test counts as true (C11 6.8.5.3p2).
#[cycle(statement)]
fn while_turn<O: ExpressionWalk, V: Values>(
    out: &O,
    body: &Stmt,
    test: Option<&Expr>,
    step: Option<&Expr>,
    values: &mut V,
    state: &mut WalkState<V::Value>,
) -> Result<(), NoMemory>
    requires loops { EachLoop (O.knows out.now) (view_statement body.now) }
    requires kinded_test { KindedMaybe (O.setting out.now) (given_expression (option_copied test)) }
    requires kinded_step { KindedMaybe (O.setting out.now) (given_expression (option_copied step)) }
    requires kinded { KindedStatement (O.setting out.now) (view_statement body.now) }
    requires keys { AreThere (V.has_key values.old) (O.kinds out.now) }
    requires made { IsMade (V.made values.old) (O.setting out.now) state.old }
    ensures walked { OnOk result (Walked V.serves V.has_key V.made V.shows (O.setting out.now) (maybe_tested_events (O.setting out.now) (given_expression (option_copied test.entry)) ++ (branch_events (O.setting out.now) (view_statement body.now) ++ discarded_events (O.setting out.now) (given_expression (option_copied step.entry)))) (as_flow [] (λ m r k. again (while_turn (O.setting out.now) (path_world (O.under out.now m)) (given_expression (option_copied test.entry)) (statement_node (view_statement body.now)) (statement_run (O.setting out.now) (path_world (O.under out.now m)) (view_statement body.now)) (discarded_run (O.setting out.now) (path_world (O.under out.now m)) (given_expression (option_copied step.entry))) r k) no_more)) values.old values.new state.old state.new) }
    ensures cost { OnOk result (Costs V.cost (length (O.setting out.now).kept) ((loop_test_spent (O.setting out.now) (given_expression (option_copied test.entry))) + (statement_spent (O.setting out.now) (view_statement body.now)) + 3 + (maybe_spent (O.setting out.now) (given_expression (option_copied step.entry)))) values.old values.new (length state.old.cells.items) (length state.new.cells.items)) }
{
    match test {
        None => turn(out, body, step, values, state),
        Some(e) => {
            let test = out.tested(e, values, state)?;
            let past = begin_branch(values, test, state)?;
            turn(out, body, step, values, state)?;
            join(values, past, state)?;
            Ok(())
        }
    }
}

// The body of `while` and of `for`, which is entered, and the step.
#[cycle(statement)]
fn turn<O: ExpressionWalk, V: Values>(
    out: &O,
    body: &Stmt,
    step: Option<&Expr>,
    values: &mut V,
    state: &mut WalkState<V::Value>,
) -> Result<(), NoMemory>
    requires loops { EachLoop (O.knows out.now) (view_statement body.now) }
    requires kinded_step { KindedMaybe (O.setting out.now) (given_expression (option_copied step)) }
    requires kinded { KindedStatement (O.setting out.now) (view_statement body.now) }
    requires keys { AreThere (V.has_key values.old) (O.kinds out.now) }
    requires made { IsMade (V.made values.old) (O.setting out.now) state.old }
    ensures walked { OnOk result (Walked V.serves V.has_key V.made V.shows (O.setting out.now) (branch_events (O.setting out.now) (view_statement body.now) ++ discarded_events (O.setting out.now) (given_expression (option_copied step.entry))) (as_flow [] (λ m r k. again (turned_body (statement_node (view_statement body.now)) (statement_run (O.setting out.now) (path_world (O.under out.now m)) (view_statement body.now)) (discarded_run (O.setting out.now) (path_world (O.under out.now m)) (given_expression (option_copied step.entry))) r k) no_more)) values.old values.new state.old state.new) }
    ensures cost { OnOk result (Costs V.cost (length (O.setting out.now).kept) ((statement_spent (O.setting out.now) (view_statement body.now)) + 3 + (maybe_spent (O.setting out.now) (given_expression (option_copied step.entry)))) values.old values.new (length state.old.cells.items) (length state.new.cells.items)) }
{
    let broken = state.broken;
    let continued = state.continued;
    open_body(values, state)?;
    entered(out, body, values, state)?;
    pass_body(values, state)?;
    discarded(out, step, values, state)?;
    state.guard = state.broken;
    state.broken = broken;
    state.continued = continued;
    Ok(())
}

// `do` (C11 6.8.5.2).
#[cycle(statement)]
fn do_loop<O: ExpressionWalk, V: Values>(
    out: &O,
    body: &Stmt,
    whole: &Stmt,
    test: &Expr,
    values: &mut V,
    state: &mut WalkState<V::Value>,
) -> Result<(), NoMemory>
    requires whole { O.knows out.now (statement_node (view_statement whole.now)) (form_of (view_statement whole.now)) }
    requires loops { EachLoop (O.knows out.now) (view_statement body.now) }
    requires kinded_test { Kinded (O.setting out.now) (view_expression test.now) }
    requires kinded { KindedStatement (O.setting out.now) (view_statement body.now) }
    requires keys { AreThere (V.has_key values.old) (O.kinds out.now) }
    requires made { IsMade (V.made values.old) (O.setting out.now) state.old }
    ensures walked { OnOk result (Walked V.serves V.has_key V.made V.shows (O.setting out.now) (branch_events (O.setting out.now) (view_statement body.now) ++ tested_events (O.setting out.now) (view_expression test.now)) (as_flow [] (λ m. loop_run (O.setting out.now) (path_world (O.under out.now m)) (statement_node (view_statement whole.now)) (form_of (view_statement whole.now)) (do_turn (O.setting out.now) (path_world (O.under out.now m)) (view_expression test.now) (statement_node (view_statement body.now)) (statement_run (O.setting out.now) (path_world (O.under out.now m)) (view_statement body.now))))) values.old values.new state.old state.new) }
    ensures cost { OnOk result (Costs V.cost (length (O.setting out.now).kept) ((loop_spent (O.setting out.now) (form_of (view_statement whole.now))) + (statement_spent (O.setting out.now) (view_statement body.now)) + 3 + (spent_test (O.setting out.now) (view_expression test.now)) + 6) values.old values.new (length state.old.cells.items) (length state.new.cells.items)) }
{
    begin_loop(out, whole.node.number, &whole.form, values, state)?;
    do_turn(out, body, test, values, state)?;
    Ok(())
}

// The one turn of `do`: the body, which is entered, and the test.
#[cycle(statement)]
fn do_turn<O: ExpressionWalk, V: Values>(
    out: &O,
    body: &Stmt,
    test: &Expr,
    values: &mut V,
    state: &mut WalkState<V::Value>,
) -> Result<(), NoMemory>
    requires loops { EachLoop (O.knows out.now) (view_statement body.now) }
    requires kinded_test { Kinded (O.setting out.now) (view_expression test.now) }
    requires kinded { KindedStatement (O.setting out.now) (view_statement body.now) }
    requires keys { AreThere (V.has_key values.old) (O.kinds out.now) }
    requires made { IsMade (V.made values.old) (O.setting out.now) state.old }
    ensures walked { OnOk result (Walked V.serves V.has_key V.made V.shows (O.setting out.now) (branch_events (O.setting out.now) (view_statement body.now) ++ tested_events (O.setting out.now) (view_expression test.now)) (as_flow [] (λ m r k. again (do_turn (O.setting out.now) (path_world (O.under out.now m)) (view_expression test.now) (statement_node (view_statement body.now)) (statement_run (O.setting out.now) (path_world (O.under out.now m)) (view_statement body.now)) r k) no_more)) values.old values.new state.old state.new) }
    ensures cost { OnOk result (Costs V.cost (length (O.setting out.now).kept) ((statement_spent (O.setting out.now) (view_statement body.now)) + 3 + (spent_test (O.setting out.now) (view_expression test.now)) + 6) values.old values.new (length state.old.cells.items) (length state.new.cells.items)) }
{
    let broken = state.broken;
    let continued = state.continued;
    open_body(values, state)?;
    entered(out, body, values, state)?;
    pass_body(values, state)?;
    let test = out.tested(test, values, state)?;
    pass_test(values, test, state)?;
    state.broken = broken;
    state.continued = continued;
    Ok(())
}

// A `switch`: each section under the guard that control falls into it or goes to it, as the promoted value says; and
// past the statement, where it goes to none (C11 6.8.4.2).
#[cycle(statement)]
fn switch<O: ExpressionWalk, V: Values>(
    out: &O,
    list: &[Section],
    e: &Expr,
    values: &mut V,
    state: &mut WalkState<V::Value>,
) -> Result<(), NoMemory>
    requires loops { EachLoopOfSections (O.knows out.now) (sections (map view_section list.now)) }
    requires kinded_value { Kinded (O.setting out.now) (view_expression e.now) }
    requires kinded { KindedSections (O.setting out.now) (sections (map view_section list.now)) }
    requires keys { AreThere (V.has_key values.old) (O.kinds out.now) }
    requires made { IsMade (V.made values.old) (O.setting out.now) state.old }
    ensures walked { OnOk result (Walked V.serves V.has_key V.made V.shows (O.setting out.now) (value_events (O.setting out.now) (view_expression e.now) ++ sections_events (O.setting out.now) (sections (map view_section list.now))) (as_flow [] (λ m. switch_run (O.setting out.now) (path_world (O.under out.now m)) (view_expression e.now) (sections (map view_section list.now)) (λ n r k. sections_run (O.setting out.now) (path_world (O.under out.now m)) (sections (map view_section list.now)) n r k))) values.old values.new state.old state.new) }
    ensures cost { OnOk result (Costs V.cost (length (O.setting out.now).kept) (spent_value (O.setting out.now) (view_expression e.now) + convert_charge (kind_in (O.setting out.now).typing (view_expression e.now)) (promote (kind_in (O.setting out.now).typing (view_expression e.now))) + (cases_spent (sections (map view_section list.now)) (width_of (promote (kind_in (O.setting out.now).typing (view_expression e.now)))) + 3) + sections_spent (O.setting out.now) (sections (map view_section list.now)) + 6) values.old values.new (length state.old.cells.items) (length state.new.cells.items)) }
{
    let own = out.kind_at(node_of(e));
    let kind = promote(own);
    let number = out.value(e, values, state)?;
    let promoted = converted(values, own, kind, number)?;
    let (tests, past) = section_tests(out, state.alloc, kind, promoted, list, values, state.guard)?;
    let broken = state.broken;
    begin_sections(values, state)?;
    sections(out, list, tests.as_slice(), values, state)?;
    pass_sections(values, past, state)?;
    state.broken = broken;
    Ok(())
}

// The sections of a `switch`, one after the other.
#[cycle(statement)]
fn sections<O: ExpressionWalk, V: Values>(
    out: &O,
    list: &[Section],
    tests: &[V::Value],
    values: &mut V,
    state: &mut WalkState<V::Value>,
) -> Result<(), NoMemory>
    requires loops { EachLoopOfSections (O.knows out.now) (sections (map view_section list.now)) }
    requires kinded { KindedSections (O.setting out.now) (sections (map view_section list.now)) }
    requires keys { AreThere (V.has_key values.old) (O.kinds out.now) }
    requires made { IsMade (V.made values.old) (O.setting out.now) state.old }
    requires length { length tests.now ≡ length list.now }
    requires tests { TestsMade (V.made values.old) tests.now }
    ensures walked { OnOk result (WalkedSections V.serves V.has_key V.made V.shows (O.setting out.now) (sections_events (O.setting out.now) (sections (map view_section list.now))) tests.now (λ m n r k. sections_run (O.setting out.now) (path_world (O.under out.now m)) (sections (map view_section list.now)) n r k) values.old values.new state.old state.new) }
    ensures cost { OnOk result (Costs V.cost (length (O.setting out.now).kept) (sections_spent (O.setting out.now) (sections (map view_section list.now))) values.old values.new (length state.old.cells.items) (length state.new.cells.items)) }
{
    for at in 0..list.len() {
        join(values, tests[at], state)?;
        section(out, &list[at], values, state)?;
    }
    Ok(())
}

// A section of a `switch`, which is entered.
#[cycle(statement)]
fn section<O: ExpressionWalk, V: Values>(
    out: &O,
    x: &Section,
    values: &mut V,
    state: &mut WalkState<V::Value>,
) -> Result<(), NoMemory>
    requires loops { EachLoopOfSection (O.knows out.now) (view_section x.now) }
    requires kinded { KindedSection (O.setting out.now) (view_section x.now) }
    requires keys { AreThere (V.has_key values.old) (O.kinds out.now) }
    requires made { IsMade (V.made values.old) (O.setting out.now) state.old }
    ensures walked { OnOk result (Walked V.serves V.has_key V.made V.shows (O.setting out.now) (section_events (O.setting out.now) (view_section x.now)) (as_flow [] (λ m. section_run (O.setting out.now) (path_world (O.under out.now m)) (view_section x.now))) values.old values.new state.old state.new) }
    ensures cost { OnOk result (Costs V.cost (length (O.setting out.now).kept) (section_spent (O.setting out.now) (view_section x.now)) values.old values.new (length state.old.cells.items) (length state.new.cells.items)) }
{
    enter(values, x.node.number, state)?;
    statements(out, x.body.as_slice(), values, state)?;
    Ok(())
}

// The statements of a section in order.
#[cycle(statement)]
fn statements<O: ExpressionWalk, V: Values>(
    out: &O,
    list: &[Stmt],
    values: &mut V,
    state: &mut WalkState<V::Value>,
) -> Result<(), NoMemory>
    requires loops { EachLoopOfStatements (O.knows out.now) (statements (map view_statement list.now)) }
    requires kinded { KindedStatements (O.setting out.now) (statements (map view_statement list.now)) }
    requires keys { AreThere (V.has_key values.old) (O.kinds out.now) }
    requires made { IsMade (V.made values.old) (O.setting out.now) state.old }
    ensures walked { OnOk result (Walked V.serves V.has_key V.made V.shows (O.setting out.now) (statements_events (O.setting out.now) (statements (map view_statement list.now))) (as_flow [] (λ m. statements_run (O.setting out.now) (path_world (O.under out.now m)) (statements (map view_statement list.now)))) values.old values.new state.old state.new) }
    ensures cost { OnOk result (Costs V.cost (length (O.setting out.now).kept) (statements_spent (O.setting out.now) (statements (map view_statement list.now))) values.old values.new (length state.old.cells.items) (length state.new.cells.items)) }
{
    for s in list {
        statement(out, s, values, state)?;
    }
    Ok(())
}

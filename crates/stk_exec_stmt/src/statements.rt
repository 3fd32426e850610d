//! Statements (C11 6.8).

ghost use Rattle.std.specs.Prelude.{IfOk, if◌then◌else◌, map, option_map};
ghost use Rattle.std.specs.Option.{option_copied};
ghost use Rattle.stk_tree.specs.View.{view_statement, maybe_statement, view_part, parts, view_section, sections, statements, view_start, view_expression, given_expression};
ghost use Rattle.stk_meaning.specs.Typings.{statement_node};
ghost use Rattle.stk_meaning.specs.Visits.{parts_declare, start_declares};
ghost use Rattle.stk_meaning.specs.Operations.{truth};
ghost use Rattle.stk_meaning.specs.Worlds.{Normal, Ended, Another, entered, and_then, gives, give_back};
ghost use Rattle.stk_meaning.specs.Expressions.{test_of};
ghost use Rattle.stk_meaning.specs.Statements.{statement_run, otherwise_run, statements_run, parts_run, part_run, section_run, sections_run, start_run, turned_body, while_turn, do_turn, switch_run, loop_run, discarded_run};
ghost use Rattle.stk_eval_expr.specs.Shown.{flow_shown};
ghost use Rattle.stk_eval_expr.specs.Leaving.{Leaves, from};
ghost use Rattle.stk_eval_expr.specs.Loops.{EachLoop, EachLoopOfOther, EachLoopOfStatements, EachLoopOfParts, EachLoopOfPart, EachLoopOfSections, EachLoopOfSection};
ghost use Rattle.stk_exec_stmt.specs.Ending.{turned_shown, form_of};

use crate::choosing::chosen;
use crate::declarations::declaration;
use crate::loops::{begin_loop, discarded, is_normal, loop_end, past_switch, returned};
use crate::scopes::{give_back, saved_parts, saved_start};
use stk_base::{Boxed, NoMemory};
use stk_eval_expr::{Flow, State, World, node_of, tested, value};
use stk_meaning::Entry;
use stk_numbers::promote;
use stk_tree::{Expr, Part, Section, Start, Stmt, StmtForm};

/// A statement of a run, and how it ends: what it asks and sees, its entries, its registers and the world's state are
/// those of the run. Where the run is cut, nothing of it is walked, and it ends as by `return`, so that nothing behind
/// it is either, nor a further turn of a loop.
#[cycle(statement)]
pub fn statement<W: World>(out: &W, s: &Stmt, state: &mut State<W::Kept>) -> Result<Flow, NoMemory>
    requires { EachLoop (W.knows out.now) (view_statement s.now) }
    ensures { IfOk result (λ v. Leaves W.shown (from W.shown (statement_run (W.setting out.now) (W.world out.now) (view_statement s.now)) state.old) (flow_shown v) state.old state.new) }
{
    if state.cut {
        return Ok(Flow::Return);
    }
    match &s.form {
        StmtForm::Block(list) => block(out, list.as_slice(), state),
        StmtForm::Plain(e) => {
            discarded(out, e.as_ref(), state)?;
            Ok(Flow::Normal)
        }
        StmtForm::If(e, x, other) => {
            let n = tested(out, e, state)?;
            if n.is_true() {
                entered(out, x.get(), state)
            } else {
                otherwise(out, other, state)
            }
        }
        StmtForm::Switch(e, list) => switch(out, list.as_slice(), e, state),
        StmtForm::While(e, x) => while_loop(out, x.get(), s, Some(e), None, state),
        StmtForm::Do(x, e) => do_loop(out, x.get(), s, e, state),
        StmtForm::For(first, test, step, x) => {
            let test = test.as_ref();
            for_loop(out, x.get(), s, first, test, step.as_ref(), state)
        }
        StmtForm::Break => Ok(Flow::Break),
        StmtForm::Continue => Ok(Flow::Continue),
        StmtForm::Return(e) => returned(out, e.as_ref(), state),
    }
}

// A branch that is entered.
#[cycle(statement)]
fn entered<W: World>(out: &W, s: &Stmt, state: &mut State<W::Kept>) -> Result<Flow, NoMemory>
    requires { EachLoop (W.knows out.now) (view_statement s.now) }
    ensures { IfOk result (λ v. Leaves W.shown (entered (statement_node (view_statement s.now)) (from W.shown (statement_run (W.setting out.now) (W.world out.now) (view_statement s.now)) state.old)) (flow_shown v) state.old state.new) }
{
    state.push(Entry::Enter(s.node.number))?;
    let flow = statement(out, s, state)?;
    Ok(flow)
}

// The second branch of an `if`, which may be missing.
#[cycle(statement)]
fn otherwise<W: World>(
    out: &W,
    other: &Option<Boxed<Stmt>>,
    state: &mut State<W::Kept>,
) -> Result<Flow, NoMemory>
    requires { EachLoopOfOther (W.knows out.now) (maybe_statement (option_map view_statement other.now)) }
    ensures { IfOk result (λ v. Leaves W.shown (from W.shown (otherwise_run (W.setting out.now) (W.world out.now) (maybe_statement (option_map view_statement other.now))) state.old) (flow_shown v) state.old state.new) }
{
    match other {
        None => Ok(Flow::Normal),
        Some(x) => entered(out, x.get(), state),
    }
}

// A block: it gives back the registers that it declares.
#[cycle(statement)]
fn block<W: World>(out: &W, list: &[Part], state: &mut State<W::Kept>) -> Result<Flow, NoMemory>
    requires { EachLoopOfParts (W.knows out.now) (parts (map view_part list.now)) }
    ensures { IfOk result (λ v. Leaves W.shown (give_back (parts_declare (parts (map view_part list.now))) state.old.registers.items (from W.shown (parts_run (W.setting out.now) (W.world out.now) (parts (map view_part list.now))) state.old)) (flow_shown v) state.old state.new) }
{
    let saved = saved_parts(list, state)?;
    let flow = parts(out, list, state)?;
    give_back(saved, &mut state.registers);
    Ok(flow)
}

// The parts of a block in order, up to one that doesn't end as it should (C11 6.8.2).
#[cycle(statement)]
fn parts<W: World>(out: &W, list: &[Part], state: &mut State<W::Kept>) -> Result<Flow, NoMemory>
    requires { EachLoopOfParts (W.knows out.now) (parts (map view_part list.now)) }
    ensures { IfOk result (λ v. Leaves W.shown (from W.shown (parts_run (W.setting out.now) (W.world out.now) (parts (map view_part list.now))) state.old) (flow_shown v) state.old state.new) }
{
    for p in list {
        let flow = part(out, p, state)?;
        if !is_normal(flow) {
            return Ok(flow);
        }
    }
    Ok(Flow::Normal)
}

// A part of a block.
#[cycle(statement)]
fn part<W: World>(out: &W, p: &Part, state: &mut State<W::Kept>) -> Result<Flow, NoMemory>
    requires { EachLoopOfPart (W.knows out.now) (view_part p.now) }
    ensures { IfOk result (λ v. Leaves W.shown (from W.shown (part_run (W.setting out.now) (W.world out.now) (view_part p.now)) state.old) (flow_shown v) state.old state.new) }
{
    if state.cut {
        return Ok(Flow::Return);
    }
    match p {
        Part::Local(d) => {
            declaration(out, d, state)?;
            Ok(Flow::Normal)
        }
        Part::Run(s) => statement(out, s, state),
    }
}

// The first part of a `for` (C11 6.8.5.3).
fn start<W: World>(out: &W, first: &Start, state: &mut State<W::Kept>) -> Result<(), NoMemory>
    ensures { IfOk result (λ _. Leaves W.shown (from W.shown (start_run (W.setting out.now) (W.world out.now) (view_start first.now)) state.old) Normal state.old state.new) }
{
    match first {
        Start::Local(d) => declaration(out, d, state),
        Start::Plain(e) => discarded(out, e.as_ref(), state),
    }
}

// `for`: it gives back the registers that its first part declares.
#[cycle(statement)]
fn for_loop<W: World>(
    out: &W,
    body: &Stmt,
    whole: &Stmt,
    first: &Start,
    test: Option<&Expr>,
    step: Option<&Expr>,
    state: &mut State<W::Kept>,
) -> Result<Flow, NoMemory>
    requires whole { W.knows out.now (statement_node (view_statement whole.now)) (form_of (view_statement whole.now)) }
    requires body { EachLoop (W.knows out.now) (view_statement body.now) }
    ensures { IfOk result (λ v. Leaves W.shown (give_back (start_declares (view_start first.now)) state.old.registers.items (and_then (from W.shown (start_run (W.setting out.now) (W.world out.now) (view_start first.now)) state.old) (λ flow. loop_run (W.setting out.now) (W.world out.now) (statement_node (view_statement whole.now)) (form_of (view_statement whole.now)) (while_turn (W.setting out.now) (W.world out.now) (given_expression (option_copied test.entry)) (statement_node (view_statement body.now)) (statement_run (W.setting out.now) (W.world out.now) (view_statement body.now)) (discarded_run (W.setting out.now) (W.world out.now) (given_expression (option_copied step.entry))))))) (flow_shown v) state.old state.new) }
{
    let saved = saved_start(first, state)?;
    start(out, first, state)?;
    let flow = while_loop(out, body, whole, test, step, state)?;
    give_back(saved, &mut state.registers);
    Ok(flow)
}

// `while`, and `for` without its first part.
#[cycle(statement)]
fn while_loop<W: World>(
    out: &W,
    body: &Stmt,
    whole: &Stmt,
    test: Option<&Expr>,
    step: Option<&Expr>,
    state: &mut State<W::Kept>,
) -> Result<Flow, NoMemory>
    requires whole { W.knows out.now (statement_node (view_statement whole.now)) (form_of (view_statement whole.now)) }
    requires body { EachLoop (W.knows out.now) (view_statement body.now) }
    ensures { IfOk result (λ v. Leaves W.shown (loop_run (W.setting out.now) (W.world out.now) (statement_node (view_statement whole.now)) (form_of (view_statement whole.now)) (while_turn (W.setting out.now) (W.world out.now) (given_expression (option_copied test.entry)) (statement_node (view_statement body.now)) (statement_run (W.setting out.now) (W.world out.now) (view_statement body.now)) (discarded_run (W.setting out.now) (W.world out.now) (given_expression (option_copied step.entry)))) state.old.registers.items (W.shown state.old.kept)) (flow_shown v) state.old state.new) }
{
    begin_loop(out, whole, state);
    for _turn in 0..out.turns() {
        if let Some(flow) = while_turn(out, body, test, step, state)? {
            return Ok(flow);
        }
    }
    state.end();
    Ok(Flow::Return)
}

// A turn of `while` and of `for`: nothing, where it asks for another turn, else how the loop ends. A missing test
// counts as true (C11 6.8.5.3p2).
#[cycle(statement)]
fn while_turn<W: World>(
    out: &W,
    body: &Stmt,
    test: Option<&Expr>,
    step: Option<&Expr>,
    state: &mut State<W::Kept>,
) -> Result<Option<Flow>, NoMemory>
    requires { EachLoop (W.knows out.now) (view_statement body.now) }
    ensures { IfOk result (λ v. Leaves W.shown (from W.shown (while_turn (W.setting out.now) (W.world out.now) (given_expression (option_copied test.entry)) (statement_node (view_statement body.now)) (statement_run (W.setting out.now) (W.world out.now) (view_statement body.now)) (discarded_run (W.setting out.now) (W.world out.now) (given_expression (option_copied step.entry)))) state.old) (turned_shown v) state.old state.new) }
{
    match test {
        None => turned(out, body, step, state),
        Some(e) => {
            let n = tested(out, e, state)?;
            if n.is_true() {
                turned(out, body, step, state)
            } else {
                Ok(Some(Flow::Normal))
            }
        }
    }
}

// What follows the body of `while` and of `for`, where it doesn't end the loop: the step, and another turn.
fn another<W: World>(
    out: &W,
    step: Option<&Expr>,
    state: &mut State<W::Kept>,
) -> Result<Option<Flow>, NoMemory>
    ensures { IfOk result (λ v. Leaves W.shown (and_then (from W.shown (discarded_run (W.setting out.now) (W.world out.now) (given_expression (option_copied step.entry))) state.old) (λ flow. gives Another)) (turned_shown v) state.old state.new) }
{
    discarded(out, step, state)?;
    Ok(None)
}

// The body of `while` and of `for`, which is entered, and the step.
#[cycle(statement)]
fn turned<W: World>(
    out: &W,
    body: &Stmt,
    step: Option<&Expr>,
    state: &mut State<W::Kept>,
) -> Result<Option<Flow>, NoMemory>
    requires { EachLoop (W.knows out.now) (view_statement body.now) }
    ensures { IfOk result (λ v. Leaves W.shown (from W.shown (turned_body (statement_node (view_statement body.now)) (statement_run (W.setting out.now) (W.world out.now) (view_statement body.now)) (discarded_run (W.setting out.now) (W.world out.now) (given_expression (option_copied step.entry)))) state.old) (turned_shown v) state.old state.new) }
{
    let flow = entered(out, body, state)?;
    match loop_end(flow) {
        Some(end) => Ok(Some(end)),
        None => another(out, step, state),
    }
}

// `do` (C11 6.8.5.2).
#[cycle(statement)]
fn do_loop<W: World>(
    out: &W,
    body: &Stmt,
    whole: &Stmt,
    test: &Expr,
    state: &mut State<W::Kept>,
) -> Result<Flow, NoMemory>
    requires whole { W.knows out.now (statement_node (view_statement whole.now)) (form_of (view_statement whole.now)) }
    requires body { EachLoop (W.knows out.now) (view_statement body.now) }
    ensures { IfOk result (λ v. Leaves W.shown (loop_run (W.setting out.now) (W.world out.now) (statement_node (view_statement whole.now)) (form_of (view_statement whole.now)) (do_turn (W.setting out.now) (W.world out.now) (view_expression test.now) (statement_node (view_statement body.now)) (statement_run (W.setting out.now) (W.world out.now) (view_statement body.now))) state.old.registers.items (W.shown state.old.kept)) (flow_shown v) state.old state.new) }
{
    begin_loop(out, whole, state);
    for _turn in 0..out.turns() {
        if let Some(flow) = do_turn(out, body, test, state)? {
            return Ok(flow);
        }
    }
    state.end();
    Ok(Flow::Return)
}

// A turn of `do`: the body, which is entered, and the test.
#[cycle(statement)]
fn do_turn<W: World>(
    out: &W,
    body: &Stmt,
    test: &Expr,
    state: &mut State<W::Kept>,
) -> Result<Option<Flow>, NoMemory>
    requires { EachLoop (W.knows out.now) (view_statement body.now) }
    ensures { IfOk result (λ v. Leaves W.shown (from W.shown (do_turn (W.setting out.now) (W.world out.now) (view_expression test.now) (statement_node (view_statement body.now)) (statement_run (W.setting out.now) (W.world out.now) (view_statement body.now))) state.old) (turned_shown v) state.old state.new) }
{
    let flow = entered(out, body, state)?;
    match loop_end(flow) {
        Some(end) => Ok(Some(end)),
        None => repeats(out, test, state),
    }
}

// The test of `do`.
fn repeats<W: World>(
    out: &W,
    test: &Expr,
    state: &mut State<W::Kept>,
) -> Result<Option<Flow>, NoMemory>
    ensures { IfOk result (λ v. Leaves W.shown (and_then (from W.shown (test_of (W.setting out.now) (W.world out.now) (view_expression test.now)) state.old) (λ x. gives (if truth x then Another else Ended Normal))) (turned_shown v) state.old state.new) }
{
    let n = tested(out, test, state)?;
    if n.is_true() {
        Ok(None)
    } else {
        Ok(Some(Flow::Normal))
    }
}

// A `switch`: to the section that the promoted value chooses, and past the statement, where none is chosen.
#[cycle(statement)]
fn switch<W: World>(
    out: &W,
    list: &[Section],
    e: &Expr,
    state: &mut State<W::Kept>,
) -> Result<Flow, NoMemory>
    requires { EachLoopOfSections (W.knows out.now) (sections (map view_section list.now)) }
    ensures { IfOk result (λ v. Leaves W.shown (from W.shown (switch_run (W.setting out.now) (W.world out.now) (view_expression e.now) (sections (map view_section list.now)) (λ n r m. sections_run (W.setting out.now) (W.world out.now) (sections (map view_section list.now)) n r m)) state.old) (flow_shown v) state.old state.new) }
{
    let kind = promote(out.kind_at(node_of(e)));
    let number = value(out, e, state)?;
    match chosen(out, kind, number.to_kind(kind), list) {
        None => Ok(Flow::Normal),
        Some(first) => {
            let flow = sections(out, list, first, state)?;
            Ok(past_switch(flow))
        }
    }
}

// The sections of a `switch` that control falls into, from one on.
#[cycle(statement)]
fn sections<W: World>(
    out: &W,
    list: &[Section],
    first: usize,
    state: &mut State<W::Kept>,
) -> Result<Flow, NoMemory>
    requires { EachLoopOfSections (W.knows out.now) (sections (map view_section list.now)) }
    ensures { IfOk result (λ v. Leaves W.shown (from W.shown (sections_run (W.setting out.now) (W.world out.now) (sections (map view_section list.now)) first) state.old) (flow_shown v) state.old state.new) }
{
    for at in first..list.len() {
        let flow = section(out, &list[at], state)?;
        if !is_normal(flow) {
            return Ok(flow);
        }
    }
    Ok(Flow::Normal)
}

// A section of a `switch`, which is entered.
#[cycle(statement)]
fn section<W: World>(out: &W, x: &Section, state: &mut State<W::Kept>) -> Result<Flow, NoMemory>
    requires { EachLoopOfSection (W.knows out.now) (view_section x.now) }
    ensures { IfOk result (λ v. Leaves W.shown (from W.shown (section_run (W.setting out.now) (W.world out.now) (view_section x.now)) state.old) (flow_shown v) state.old state.new) }
{
    state.push(Entry::Enter(x.node.number))?;
    let flow = statements(out, x.body.as_slice(), state)?;
    Ok(flow)
}

// The statements of a section in order, up to one that doesn't end as it should.
#[cycle(statement)]
fn statements<W: World>(
    out: &W,
    list: &[Stmt],
    state: &mut State<W::Kept>,
) -> Result<Flow, NoMemory>
    requires { EachLoopOfStatements (W.knows out.now) (statements (map view_statement list.now)) }
    ensures { IfOk result (λ v. Leaves W.shown (from W.shown (statements_run (W.setting out.now) (W.world out.now) (statements (map view_statement list.now))) state.old) (flow_shown v) state.old state.new) }
{
    for s in list {
        let flow = statement(out, s, state)?;
        if !is_normal(flow) {
            return Ok(flow);
        }
    }
    Ok(Flow::Normal)
}

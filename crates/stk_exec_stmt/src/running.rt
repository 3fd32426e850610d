//! The run of a body (C11 6.9.1).

ghost use Rattle.std.specs.Prelude.{◌≡◌, IfOk, None, Some, option_map, if◌then◌else◌};
ghost use Rattle.stk_tree.specs.View.{view_statement};
ghost use Rattle.stk_meaning.specs.Worlds.{trace_of};
ghost use Rattle.stk_meaning.specs.Statements.{statement_run};
ghost use Rattle.stk_eval_expr.specs.Shown.{flow_shown};
ghost use Rattle.stk_eval_expr.specs.Loops.{EachLoop};
ghost use Rattle.stk_exec_stmt.specs.Ending.{RunsTo};

use crate::statements::statement;
use std::alloc::Global;
use stk_base::NoMemory;
use stk_eval_expr::{Flow, State, World};
use stk_meaning::Entry;
use stk_operators::Word;
use stk_tree::Stmt;

/// What the run of a body came to: its entries, and how it ended; nothing, where it was cut.
#[derive(Drop)]
pub struct BodyRun {
    pub entries: Vec<Entry>,
    pub flow: Option<Flow>,
}

// How a run ended whose last statement ended so; nothing, where it was cut.
fn ended(cut: bool, flow: Flow) -> Option<Flow>
    ensures { option_map flow_shown result ≡ (if cut then None else Some (flow_shown flow)) }
{
    if cut { None } else { Some(flow) }
}

/// The run of a body that begins with these registers, and with what the world keeps: what it violates, enters and sees,
/// in order, and how it ended. A run with more than `most` entries is left off with some more than that.
pub fn bounded_run<W: World>(
    alloc: Global,
    out: &W,
    body: &Stmt,
    registers: Vec<Word>,
    kept: W::Kept,
    most: usize,
) -> Result<BodyRun, NoMemory>
    requires { EachLoop (W.knows out.now) (view_statement body.now) }
    ensures { IfOk result (λ run. RunsTo (statement_run (W.setting out.now) (W.world out.now) (view_statement body.now) registers.items (W.shown kept)) most run.entries.items (option_map flow_shown run.flow)) }
{
    let mut state = State {
        registers,
        kept,
        entries: Vec::new(alloc),
        most,
        cut: false,
        alloc,
    };
    let flow = statement(out, body, &mut state)?;
    let flow = ended(state.cut, flow);
    Ok(BodyRun {
        entries: state.entries,
        flow,
    })
}

/// The trace of the run of a body that begins with these registers, and with what the world keeps.
pub fn run_body<W: World>(
    alloc: Global,
    out: &W,
    body: &Stmt,
    registers: Vec<Word>,
    kept: W::Kept,
) -> Result<Vec<Entry>, NoMemory>
    requires { EachLoop (W.knows out.now) (view_statement body.now) }
    ensures { IfOk result (λ entries. entries.items ≡ trace_of (statement_run (W.setting out.now) (W.world out.now) (view_statement body.now) registers.items (W.shown kept))) }
{
    // No list has more than `usize::MAX` elements.
    let run = bounded_run(alloc, out, body, registers, kept, usize::MAX)?;
    Ok(run.entries)
}

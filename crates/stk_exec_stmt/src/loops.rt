//! How statements end, and how loops begin.

ghost use Rattle.std.specs.Prelude.{◌≡◌, IfOk, option_map};
ghost use Rattle.std.specs.Option.{option_copied};
ghost use Rattle.stk_tree.specs.View.{view_statement, given_expression};
ghost use Rattle.stk_meaning.specs.Typings.{statement_node};
ghost use Rattle.stk_meaning.specs.Worlds.{Normal};
ghost use Rattle.stk_meaning.specs.Statements.{discarded_run, return_run};
ghost use Rattle.stk_meaning.specs.Changes.{assigned_in, forgotten_in};
ghost use Rattle.stk_eval_expr.specs.Shown.{flow_shown};
ghost use Rattle.stk_eval_expr.specs.Leaving.{Leaves, from};
ghost use Rattle.stk_exec_stmt.specs.Ending.{is_normal, past_switch, loop_end, form_of};

use stk_base::NoMemory;
use stk_eval_expr::{Flow, State, World, value};
use stk_tree::{Expr, Stmt};

/// Whether a statement ended as it should.
pub(crate) fn is_normal(flow: Flow) -> bool
    ensures { result ≡ is_normal (flow_shown flow) }
{
    match flow {
        Flow::Normal => true,
        Flow::Break => false,
        Flow::Continue => false,
        Flow::Return => false,
    }
}

/// How a `switch` ends whose sections ended so (C11 6.8.6.3).
pub(crate) fn past_switch(flow: Flow) -> Flow
    ensures { flow_shown result ≡ past_switch (flow_shown flow) }
{
    match flow {
        Flow::Normal => Flow::Normal,
        Flow::Break => Flow::Normal,
        Flow::Continue => Flow::Continue,
        Flow::Return => Flow::Return,
    }
}

/// How a loop ends whose body ended so; nothing, where its step or its test comes next (C11 6.8.6.2, 6.8.6.3).
pub(crate) fn loop_end(flow: Flow) -> Option<Flow>
    ensures { option_map flow_shown result ≡ loop_end (flow_shown flow) }
{
    match flow {
        Flow::Normal => None,
        Flow::Break => Some(Flow::Normal),
        Flow::Continue => None,
        Flow::Return => Some(Flow::Return),
    }
}

/// An expression whose value isn't used, and which may be missing (C11 6.8.3).
pub(crate) fn discarded<W: World>(
    out: &W,
    e: Option<&Expr>,
    state: &mut State<W::Kept>,
) -> Result<(), NoMemory>
    ensures { IfOk result (λ _. Leaves W.shown (from W.shown (discarded_run (W.setting out.now) (W.world out.now) (given_expression (option_copied e.entry))) state.old) Normal state.old state.new) }
{
    match e {
        None => Ok(()),
        Some(e) => {
            let _number = value(out, e, state)?;
            Ok(())
        }
    }
}

/// `return`, with the value of its expression (C11 6.8.6.4).
pub(crate) fn returned<W: World>(
    out: &W,
    e: Option<&Expr>,
    state: &mut State<W::Kept>,
) -> Result<Flow, NoMemory>
    ensures { IfOk result (λ v. Leaves W.shown (from W.shown (return_run (W.setting out.now) (W.world out.now) (given_expression (option_copied e.entry))) state.old) (flow_shown v) state.old state.new) }
{
    match e {
        None => Ok(Flow::Return),
        Some(e) => {
            let _number = value(out, e, state)?;
            Ok(Flow::Return)
        }
    }
}

/// What a loop does before its turns: its registers are set, and what it may change is forgotten, as the world has it.
pub(crate) fn begin_loop<W: World>(out: &W, whole: &Stmt, state: &mut State<W::Kept>)
    requires { W.knows out.now (statement_node (view_statement whole.now)) (form_of (view_statement whole.now)) }
    ensures registers { state.new.registers.items ≡ (W.world out.now).reset (statement_node (view_statement whole.now)) (assigned_in (W.setting out.now) (form_of (view_statement whole.now))) state.old.registers.items }
    ensures kept { W.shown state.new.kept ≡ (W.world out.now).forget (forgotten_in (W.setting out.now) (form_of (view_statement whole.now))) (W.shown state.old.kept) }
    ensures cut { state.new.cut ≡ state.old.cut }
    ensures entries { state.new.entries.items ≡ state.old.entries.items }
    ensures most { state.new.most ≡ state.old.most }
{
    let node = whole.node.number;
    out.reset(node, &whole.form, &mut state.registers);
    out.forget(node, &whole.form, &mut state.kept);
}

//! The replay of an execution.

ghost use Rattle.std.specs.Prelude.{◌≡◌, ◌<◌, ◌≤◌, ◌^◌, Err, IfOk, length, option_map};
ghost use Rattle.stk_tree.specs.View.{view_function};
ghost use Rattle.stk_function_types.specs.Nodes.{typing_in};
ghost use Rattle.stk_eval_expr.specs.Shown.{flow_shown};
ghost use Rattle.stk_memory.specs.Image.{AreApart};
ghost use Rattle.stk_path_runs.specs.FunctionTables.{AreTablesOf};
ghost use Rattle.stk_replaying.specs.Replaying.{trace_in, ran_in, flow_end_of, end_of, hit_places};
ghost use Rattle.stk_replaying.specs.declared.execution.Replay.TheVariants.{TooLong};

use crate::executed::ExecutedFunction;
use crate::execution::{End, Execution, Replay, Replayed};
use crate::hitting::hit_places;
use crate::outside::OutsideLeft;
use std::alloc::Global;
use stk_base::List;
use stk_eval_expr::Flow;
use stk_exec_stmt::bounded_run;
use stk_memory::Bytes;
use stk_numbers::Candidate;
use stk_path_runs::{FunctionTables, MappedFunction, start_registers};
use stk_tree::Function;

// How an execution ends whose body ends so; nothing, where it is cut.
fn end_of_flow(flow: Option<Flow>) -> End
    ensures { result ≡ flow_end_of (option_map flow_shown flow) }
{
    match flow {
        None => End::Cut,
        Some(Flow::Return) => End::Returned,
        Some(Flow::Normal) | Some(Flow::Break) | Some(Flow::Continue) => End::Fell,
    }
}

/// The replay of an execution of a function: its trace, which of these candidates it hits, and how it ends. The tables
/// are those of the function. `TooLong` comes exactly where the trace has more than `most` entries.
pub fn replay_of(
    alloc: Global,
    tables: &FunctionTables,
    f: &Function,
    list: &[Candidate],
    execution: &Execution,
    most: u32,
) -> Result<Replayed, Replay>
    requires tables { AreTablesOf (view_function f.now) tables.now }
    requires apart { AreApart execution.now.memory.now.cells }
    requires few { length list.now < 2 ^ 32 }
    ensures trace { IfOk result (λ r. r.trace ≡ trace_in (typing_in tables.now.places.types) tables.now.places.without (view_function f.now) execution.now) }
    ensures end { IfOk result (λ r. r.end ≡ end_of (ran_in (typing_in tables.now.places.types) tables.now.places.without (view_function f.now) execution.now)) }
    ensures hits { IfOk result (λ r. r.hits ≡ hit_places list.now r.trace) }
    ensures fits { IfOk result (λ r. length r.trace ≤ most) }
    ensures long { result ≡ Err TooLong → most < length (trace_in (typing_in tables.now.places.types) tables.now.places.without (view_function f.now) execution.now) }
{
    let out = ExecutedFunction {
        mapped: MappedFunction {
            tables,
            numbers: execution.numbers,
            alloc,
        },
        turns: execution.turns,
    };
    let registers = start_registers(alloc, &out.mapped, f)?;
    let kept = OutsideLeft {
        memory: Bytes::of(alloc, execution.memory)?,
        replies: execution.replies,
    };
    let run = bounded_run(alloc, &out, &f.body, registers, kept, most as usize)?;
    if run.entries.len() > most as usize {
        return Err(Replay::TooLong);
    }
    let hits = hit_places(alloc, list, run.entries.as_slice())?;
    Ok(Replayed {
        trace: List::from_vec(run.entries),
        hits: List::from_vec(hits),
        end: end_of_flow(run.flow),
    })
}

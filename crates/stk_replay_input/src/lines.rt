//! The text of an execution: its lines, one after the other.

ghost use Rattle.std.specs.Prelude.{◌≡◌, ◌++◌, ◌∷◌, [], IfOk, map, true};
ghost use Rattle.stk_tree.specs.View.{view_function};
ghost use Rattle.stk_meaning.specs.Keys.{function_visits};
ghost use Rattle.stk_function_types.specs.Nodes.{typing_in};
ghost use Rattle.stk_function_types.specs.Visits.{marked_visit, marked_visits};
ghost use Rattle.stk_spelling.specs.Placed.{placed_in};
ghost use Rattle.stk_replaying.specs.Replaying.{hit_places};
ghost use Rattle.stk_replay_text.specs.Text.{lines_text};
ghost use Rattle.stk_replay_input.specs.Lines.{entry_line, hit_line, end_line, run_lines, candidates_at};

use std::alloc::Global;
use stk_base::NoMemory;
use stk_function_types::{FunctionTypes, Visit};
use stk_lex::Places;
use stk_meaning::Entry;
use stk_numbers::Candidate;
use stk_replay_text::{ReplayLine, add_lines};
use stk_replaying::{End, Replayed};
use stk_spelling::{claim_by, node_spot};
use stk_tree::Function;

/// The function of an execution that is told: its input, its types, itself, and its visits.
#[derive(Clone, Copy)]
pub(crate) struct ToldFunction<'a> {
    pub input: &'a Places<'a>,
    pub types: &'a FunctionTypes<'a>,
    pub function: &'a Function,
    pub visits: &'a [Visit<'a>],
}

// The line of an entry.
fn entry_line(alloc: Global, told: &ToldFunction, entry: Entry) -> Result<ReplayLine, NoMemory>
    requires { told.now.input.now ≡ told.now.types.now.bytes }
    ensures { IfOk result (λ line. line ≡ entry_line (placed_in told.now.types.now) entry) }
{
    match entry {
        Entry::Ub(condition) => {
            let at = node_spot(alloc, told.input, told.types, condition.node)?;
            let kind = condition.kind;
            Ok(ReplayLine::Violated { at, kind })
        }
        Entry::Enter(node) => {
            let at = node_spot(alloc, told.input, told.types, node)?;
            Ok(ReplayLine::Entered { at })
        }
        Entry::Seen(node, truth, replaced) => {
            let at = node_spot(alloc, told.input, told.types, node)?;
            Ok(ReplayLine::Seen {
                at,
                truth,
                replaced,
            })
        }
    }
}

// The line of a candidate that is hit.
fn hit_line(
    alloc: Global,
    told: &ToldFunction,
    candidate: Candidate,
) -> Result<ReplayLine, NoMemory>
    requires input { told.now.input.now ≡ told.now.types.now.bytes }
    requires visits { map marked_visit told.now.visits.now ≡ marked_visits true (function_visits (typing_in told.now.types.now) (view_function told.now.function.now)) }
    ensures { IfOk result (λ line. line ≡ hit_line (placed_in told.now.types.now) (typing_in told.now.types.now) (view_function told.now.function.now) candidate) }
{
    let at = node_spot(alloc, told.input, told.types, candidate.node)?;
    let claim = claim_by(alloc, told.types, told.function, told.visits, candidate)?;
    Ok(ReplayLine::Hit { at, claim })
}

// The line of an end.
fn end_line(end: End) -> ReplayLine
    ensures { result ≡ end_line end }
{
    match end {
        End::Fell => ReplayLine::Fell,
        End::Returned => ReplayLine::Returned,
        End::Cut => ReplayLine::Cut,
    }
}

// Adds the text of a line.
fn add_line(text: &mut Vec<u8>, line: ReplayLine) -> Result<(), NoMemory>
    ensures { IfOk result (λ _. text.new.items ≡ text.old.items ++ lines_text (line ∷ [])) }
{
    let lines = [line];
    add_lines(text, lines.as_slice())
}

// Adds the text of the lines of entries.
fn add_entries(
    alloc: Global,
    told: &ToldFunction,
    trace: &[Entry],
    text: &mut Vec<u8>,
) -> Result<(), NoMemory>
    requires { told.now.input.now ≡ told.now.types.now.bytes }
    ensures { IfOk result (λ _. text.new.items ≡ text.old.items ++ lines_text (map (entry_line (placed_in told.now.types.now)) trace.now)) }
{
    for entry in trace {
        let line = entry_line(alloc, told, *entry)?;
        add_line(text, line)?;
    }
    Ok(())
}

// Adds the text of the lines of the candidates at these positions.
fn add_hits(
    alloc: Global,
    told: &ToldFunction,
    list: &[Candidate],
    hits: &[u32],
    text: &mut Vec<u8>,
) -> Result<(), NoMemory>
    requires input { told.now.input.now ≡ told.now.types.now.bytes }
    requires visits { map marked_visit told.now.visits.now ≡ marked_visits true (function_visits (typing_in told.now.types.now) (view_function told.now.function.now)) }
    ensures { IfOk result (λ _. text.new.items ≡ text.old.items ++ lines_text (map (hit_line (placed_in told.now.types.now) (typing_in told.now.types.now) (view_function told.now.function.now)) (candidates_at list.now hits.now))) }
{
    for at in hits {
        if let Some(candidate) = list.get(*at as usize) {
            let line = hit_line(alloc, told, *candidate)?;
            add_line(text, line)?;
        }
    }
    Ok(())
}

/// The text of what an execution showed: the lines of its trace, those of the candidates that are hit, and that of its
/// end. Of the lines only one at a time is held.
pub(crate) fn run_text(
    alloc: Global,
    told: &ToldFunction,
    list: &[Candidate],
    replayed: &Replayed,
) -> Result<Vec<u8>, NoMemory>
    requires input { told.now.input.now ≡ told.now.types.now.bytes }
    requires visits { map marked_visit told.now.visits.now ≡ marked_visits true (function_visits (typing_in told.now.types.now) (view_function told.now.function.now)) }
    requires hits { replayed.now.hits ≡ hit_places list.now replayed.now.trace }
    ensures { IfOk result (λ text. text.items ≡ lines_text (run_lines (placed_in told.now.types.now) (typing_in told.now.types.now) (view_function told.now.function.now) list.now replayed.now.trace replayed.now.end)) }
{
    let mut text = Vec::new(alloc);
    add_entries(alloc, told, replayed.trace.as_slice(), &mut text)?;
    add_hits(alloc, told, list, replayed.hits.as_slice(), &mut text)?;
    add_line(&mut text, end_line(replayed.end))?;
    Ok(text)
}

//! The lines of findings.

ghost use Rattle.std.specs.Prelude.{◌≡◌, ◌≤◌, Err, IfOk, OnOk, OnErr, map, true};
ghost use Rattle.std.specs.Option.{option_map};
ghost use Rattle.stk_base.specs.Causes.{Rose};
ghost use Rattle.stk_base.specs.Streams.{Appended, AppendedPrefix};
ghost use Rattle.stk_records.specs.Form.{written_records};
ghost use Rattle.stk_records.specs.Text.{inputs_of};
ghost use Rattle.stk_records.specs.declared.line.Line.TheVariants as lines;
ghost use Rattle.stk_tree.specs.View.{view_declarator, view_function};
ghost use Rattle.stk_meaning.specs.Keys.{function_visits};
ghost use Rattle.stk_function_types.specs.Nodes.{typing_in};
ghost use Rattle.stk_function_types.specs.Visits.{marked_visit, marked_visits};
ghost use Rattle.stk_spelling.specs.Placed.{placed_in};
ghost use Rattle.stk_spelling.specs.Claims.{declarator_name};
ghost use Rattle.stk_unit_lines.specs.Lines.{fragment_of, start_of, needed_of, finding_lines};

use crate::LintedFile;
use std::alloc::Global;
use stk_base::{List, NoMemory, Sink};
use stk_function_types::{FunctionTypes, Visit};
use stk_lex::Places;
use stk_meaning::{Finding, Need};
use stk_numbers::{Candidate, Inputs};
use stk_records::{Fragment, Input, Line, Needed, StartInputs, Stop, write_record};
use stk_spelling::{claim_by, node_spot};
use stk_tree::{Declr, Function};

/// What the lines of a function's findings tell of it: its input, its types, itself, its visits, and how its keys are
/// spelled.
#[derive(Clone, Copy)]
pub struct Told<'a> {
    pub input: &'a Places<'a>,
    pub types: &'a FunctionTypes<'a>,
    pub function: &'a Function,
    pub visits: &'a [Visit<'a>],
    pub keys: &'a [List<u8>],
}

// A text.
fn text_list(alloc: Global, text: &[u8]) -> Result<List<u8>, NoMemory>
    ensures { IfOk result (λ list. list ≡ text.now) }
{
    let list = Vec::from_slice(alloc, text)?;
    Ok(List::from_vec(list))
}

// The name of a declarator.
fn name_of(alloc: Global, bytes: &[u8], d: &Declr) -> Result<List<u8>, NoMemory>
    ensures { IfOk result (λ name. name ≡ declarator_name bytes.now (view_declarator d.now)) }
{
    match d.name {
        None => Ok(List::empty(alloc)),
        Some(at) => text_list(alloc, at.text(bytes)),
    }
}

// A start.
fn inputs_of(alloc: Global, keys: &[List<u8>], numbers: &[i128]) -> Result<Vec<Input>, NoMemory>
    ensures { IfOk result (λ list. list.items ≡ inputs_of keys.now numbers.now) }
{
    let mut list = Vec::new(alloc);
    let mut rest = numbers;
    for text in keys {
        let Some((number, behind)) = rest.split_first() else {
            return Ok(list);
        };
        rest = behind;
        let key = text_list(alloc, text.as_slice())?;
        list.push(Input {
            key,
            number: *number,
        })?;
    }
    Ok(list)
}

fn start_of(alloc: Global, keys: &[List<u8>], start: &Inputs) -> Result<StartInputs, NoMemory>
    ensures { IfOk result (λ s. s ≡ start_of keys.now start.now) }
{
    let inputs = inputs_of(alloc, keys, start.numbers.as_slice())?;
    Ok(StartInputs {
        inputs: List::from_vec(inputs),
    })
}

// The start that shows that a condition is needed.
fn shown_of(
    alloc: Global,
    keys: &[List<u8>],
    shown: &Option<Inputs>,
) -> Result<Option<StartInputs>, NoMemory>
    ensures { IfOk result (λ s. s ≡ option_map (λ start. start_of keys.now start) shown.now) }
{
    match shown {
        None => Ok(None),
        Some(start) => {
            let start = start_of(alloc, keys, start)?;
            Ok(Some(start))
        }
    }
}

// A condition of the set.
fn needed_of(alloc: Global, told: &Told, need: &Need) -> Result<Needed, NoMemory>
    requires { told.now.input.now ≡ told.now.types.now.bytes }
    ensures { IfOk result (λ n. n ≡ needed_of (placed_in told.now.types.now) told.now.keys.now need.now) }
{
    let at = node_spot(alloc, told.input, told.types, need.condition.node)?;
    let without = shown_of(alloc, told.keys, &need.shown)?;
    Ok(Needed {
        kind: need.condition.kind,
        at,
        without,
    })
}

// The conditions of the set.
fn needs_of(alloc: Global, told: &Told, needs: &[Need]) -> Result<Vec<Needed>, NoMemory>
    requires { told.now.input.now ≡ told.now.types.now.bytes }
    ensures { IfOk result (λ list. list.items ≡ map (needed_of (placed_in told.now.types.now) told.now.keys.now) needs.now) }
{
    let mut list = Vec::new(alloc);
    for need in needs {
        let needed = needed_of(alloc, told, need)?;
        list.push(needed)?;
    }
    Ok(list)
}

// A candidate of a function.
fn fragment_of(alloc: Global, told: &Told, candidate: Candidate) -> Result<Fragment, NoMemory>
    requires input { told.now.input.now ≡ told.now.types.now.bytes }
    requires visits { map marked_visit told.now.visits.now ≡ marked_visits true (function_visits (typing_in told.now.types.now) (view_function told.now.function.now)) }
    ensures { IfOk result (λ x. x ≡ fragment_of (placed_in told.now.types.now) (typing_in told.now.types.now) (view_function told.now.function.now) candidate) }
{
    let at = node_spot(alloc, told.input, told.types, candidate.node)?;
    let claim = claim_by(alloc, told.types, told.function, told.visits, candidate)?;
    let function = name_of(alloc, told.types.bytes(), &told.function.declr)?;
    Ok(Fragment {
        at,
        claim,
        function,
    })
}

// A report.
fn report_of(
    alloc: Global,
    told: &Told,
    candidate: Candidate,
    start: &Inputs,
    needs: &[Need],
) -> Result<Line, NoMemory>
    requires input { told.now.input.now ≡ told.now.types.now.bytes }
    requires visits { map marked_visit told.now.visits.now ≡ marked_visits true (function_visits (typing_in told.now.types.now) (view_function told.now.function.now)) }
    ensures { IfOk result (λ line. line ≡ lines.Unstable (fragment_of (placed_in told.now.types.now) (typing_in told.now.types.now) (view_function told.now.function.now) candidate) (start_of told.now.keys.now start.now) (map (needed_of (placed_in told.now.types.now) told.now.keys.now) needs.now)) }
{
    let fragment = fragment_of(alloc, told, candidate)?;
    let hit = start_of(alloc, told.keys, start)?;
    let needs = needs_of(alloc, told, needs)?;
    Ok(Line::Unstable {
        fragment,
        hit,
        needs: List::from_vec(needs),
    })
}

/// Writes the record of a finding for a candidate: none of a clear one. The input is the one that the types speak of,
/// and the visits are the function's.
pub(crate) fn write_finding<K: Sink>(
    file: &LintedFile,
    told: &Told,
    candidate: Candidate,
    finding: &Finding,
    out: &mut K,
) -> Result<(), Stop>
    requires input { told.now.input.now ≡ told.now.types.now.bytes }
    requires visits { map marked_visit told.now.visits.now ≡ marked_visits true (function_visits (typing_in told.now.types.now) (view_function told.now.function.now)) }
    ensures all { OnOk result (Appended (K.taken out.old) (K.taken out.new) (written_records file.now.options (finding_lines (placed_in told.now.types.now) (typing_in told.now.types.now) (view_function told.now.function.now) told.now.keys.now candidate finding.now))) }
    ensures prefix { OnErr result (AppendedPrefix (K.taken out.old) (K.taken out.new) (written_records file.now.options (finding_lines (placed_in told.now.types.now) (typing_in told.now.types.now) (view_function told.now.function.now) told.now.keys.now candidate finding.now))) }
    ensures later { K.faults out.old ≤ K.faults out.new }
    ensures fault { result ≡ Err Stop.WriteFault → Rose (K.faults out.old) (K.faults out.new) }
{
    match finding {
        Finding::Clear => Ok(()),
        Finding::Unstable { start, needs } => {
            let line = report_of(file.alloc, told, candidate, start, needs.as_slice())?;
            write_record(file.alloc, file.options, &line, out)
        }
        Finding::Undecided { phase } => {
            let fragment = fragment_of(file.alloc, told, candidate)?;
            let line = Line::Undecided {
                fragment,
                phase: *phase,
            };
            write_record(file.alloc, file.options, &line, out)
        }
    }
}

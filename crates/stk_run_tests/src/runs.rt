//! The path run of the function of a unit, as a text.

ghost use Rattle.std.specs.Prelude.{◌<◌, ◌^◌, IfOk, IsTrue};
ghost use Rattle.stk_tree.specs.Nodes.{unit_nodes};
ghost use Rattle.stk_tree.specs.View.{view_function, view_unit};
ghost use Rattle.stk_run_laws.specs.Visits.{IsNumbered};
ghost use Rattle.stk_function_types.specs.Nodes.{typing_in};
ghost use Rattle.stk_run_tests.specs.Laid.{IsLaidOut};

use crate::run_writing::trace_text;
use std::alloc::Global;
use stk_base::NoMemory;
use stk_ctype::Names;
use stk_function_env::{KeyInfo, Setting};
use stk_function_types::FunctionTypes;
use stk_lex::Places;
use stk_meaning::Entry;
use stk_nodes::unit_nodes;
use stk_numbers::Kinds;
use stk_operators::Word;
use stk_path_runs::{FunctionTables, path_run};
use stk_run_laws::what_is_laid_out_is_numbered;
use stk_tree::{Function, Unit};
use stk_typed::{Untyped, typed_of};

// No kind is taken out.
const NOTHING: Kinds = Kinds {
    overflow: false,
    zero: false,
    shift: false,
    null: false,
    pointer: false,
    bounds: false,
    abs: false,
    copy: false,
};

// A number for each key; nothing where there are more or fewer numbers than keys, or where one isn't a number of its
// key's kind.
fn words_of(
    alloc: Global,
    keys: &[KeyInfo],
    numbers: &[i128],
) -> Result<Option<Vec<Word>>, NoMemory> {
    let mut words = Vec::new(alloc);
    let mut rest = numbers;
    for info in keys {
        let Some((number, behind)) = rest.split_first() else {
            return Ok(None);
        };
        rest = behind;
        let word = Word::wrapped(info.kind, *number);
        if word.number() != *number {
            return Ok(None);
        }
        words.push(word)?;
    }
    if rest.is_empty() {
        Ok(Some(words))
    } else {
        Ok(None)
    }
}

// The trace of a function of a setting.
fn trace_under(
    alloc: Global,
    setting: &Setting,
    f: &Function,
    numbers: &[i128],
) -> Result<Option<Vec<Entry>>, NoMemory>
    requires { IsNumbered (typing_in setting.now.types) (view_function f.now) }
{
    let Some(words) = words_of(alloc, setting.keys(), numbers)? else {
        return Ok(None);
    };
    let tables = FunctionTables::new(alloc, setting, f)?;
    let trace = path_run(alloc, &tables, f, words.as_slice())?;
    Ok(Some(trace))
}

// The trace of the function of a unit; nothing of another unit.
fn trace_typed(
    alloc: Global,
    types: &FunctionTypes,
    numbers: &[i128],
) -> Result<Option<Vec<Entry>>, NoMemory>
    requires { IsLaidOut (view_unit types.now.unit) }
{
    what_is_laid_out_is_numbered();
    match types.unit() {
        Unit::Empty(_) | Unit::Declares(_, _) => Ok(None),
        Unit::Defines(_, f) => {
            let setting = Setting::new(alloc, types, NOTHING, f)?;
            let trace = trace_under(alloc, &setting, f, numbers)?;
            Ok(trace)
        }
    }
}

// The text of that trace.
fn text_typed(
    alloc: Global,
    input: &Places,
    types: &FunctionTypes,
    numbers: &[i128],
) -> Result<Option<Vec<u8>>, NoMemory>
    requires { IsLaidOut (view_unit types.now.unit) }
{
    match trace_typed(alloc, types, numbers)? {
        None => Ok(None),
        Some(trace) => {
            let text = trace_text(alloc, input, types, trace.as_slice())?;
            Ok(Some(text))
        }
    }
}

// Whether a unit has fewer than 2^32 nodes.
fn has_few_nodes(alloc: Global, unit: &Unit) -> Result<bool, NoMemory>
    ensures { IfOk result (λ few. IsTrue few → unit_nodes (view_unit unit.now) < 2 ^ 32) }
{
    let nodes = unit_nodes(alloc, unit)?;
    if nodes.len() >= 4_294_967_296 {
        return Ok(false);
    }
    Ok(true)
}

/// The text of the path run of the function of a unit, for these numbers of its keys; nothing of another unit, of one
/// that a rule refuses, or where the numbers aren't those of its keys.
pub(crate) fn run_of(
    alloc: Global,
    input: &Places,
    unit: &Unit,
    names: &Names,
    numbers: &[i128],
) -> Result<Option<Vec<u8>>, NoMemory>
    requires { IsLaidOut (view_unit unit.now) }
{
    if !has_few_nodes(alloc, unit)? {
        return Ok(None);
    }
    match typed_of(alloc, input.bytes(), unit, names) {
        Ok(types) => text_typed(alloc, input, &types, numbers),
        Err(Untyped::Rule { node: _, rule: _ }) | Err(Untyped::Nodes { count: _ }) => Ok(None),
        Err(Untyped::NoMemory) => Err(NoMemory),
    }
}

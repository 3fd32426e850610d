//! The table of what the path runs of a function hit.

ghost use Rattle.std.specs.Prelude.{◌≡◌, ◌≤◌, ◌<◌, ◌+◌, ◌^◌, IfOk, OnOk, map};
ghost use Rattle.stk_tree.specs.View.{view_function};
ghost use Rattle.stk_function_types.specs.Nodes.{typing_in};
ghost use Rattle.stk_function_env.specs.Infos.{info_in};
ghost use Rattle.stk_hits.specs.InputMaps.{bits_in};
ghost use Rattle.stk_hits.specs.PathSubjects as subjects;
ghost use Rattle.stk_path_runs.specs.FunctionTables.{AreTablesOf};
ghost use Rattle.stk_hits.specs.PathTables.{IsTableOf, wrapped};

use crate::{HitTable, map_of, total_bits};
use std::alloc::Global;
use stk_base::NoMemory;
use stk_function_env::KeyInfo;
use stk_numbers::IntKind;
use stk_operators::Word;
use stk_path_runs::{FunctionTables, path_run};
use stk_tree::Function;

/// The kinds of the numbers of keys, in their order.
pub fn kinds_of(alloc: Global, keys: &[KeyInfo]) -> Result<Vec<IntKind>, NoMemory>
    ensures { IfOk result (λ kinds. kinds.items ≡ subjects.kinds_of (map info_in keys.now)) }
{
    let mut kinds = Vec::new(alloc);
    for info in keys {
        kinds.push(info.kind)?;
    }
    Ok(kinds)
}

// Numbers, converted each to its kind.
fn words_of(alloc: Global, kinds: &[IntKind], numbers: &[i128]) -> Result<Vec<Word>, NoMemory>
    ensures { IfOk result (λ words. words.items ≡ wrapped kinds.now numbers.now) }
{
    let mut words = Vec::new(alloc);
    let mut rest = numbers;
    for kind in kinds {
        let Some((number, behind)) = rest.split_first() else {
            return Ok(words);
        };
        rest = behind;
        words.push(Word::wrapped(*kind, *number))?;
    }
    Ok(words)
}

// Takes up the path run of the input map with this number, behind those of all maps before it.
fn record_run(
    alloc: Global,
    tables: &FunctionTables,
    f: &Function,
    kinds: &[IntKind],
    number: u32,
    table: &mut HitTable,
) -> Result<(), NoMemory>
    requires tables { AreTablesOf (view_function f.now) tables.now }
    requires kinds { kinds.now ≡ subjects.kinds_of tables.now.places.keys }
    requires few { bits_in kinds.now ≤ 16 }
    ensures { IsTableOf (typing_in tables.now.places.types) tables.now.places.without (view_function f.now) number table.old → OnOk result (IsTableOf (typing_in tables.now.places.types) tables.now.places.without (view_function f.now) (number + 1) table.new) }
{
    let inputs = map_of(alloc, kinds, number)?;
    let words = words_of(alloc, kinds, inputs.numbers.as_slice())?;
    let trace = path_run(alloc, tables, f, words.as_slice())?;
    table.record(number, trace.as_slice())
}

// How many input maps there are for keys of these kinds.
fn map_count(kinds: &[IntKind]) -> u32
    requires { bits_in kinds.now ≤ 16 }
    ensures { result ≡ 2 ^ bits_in kinds.now }
{
    1 << total_bits(kinds)
}

/// The table of what the path runs of a function hit, one for each of its input maps, of at most 16 bits, in their
/// order. The tables are those of the function, and the kinds those of its keys.
pub fn table_of(
    alloc: Global,
    tables: &FunctionTables,
    f: &Function,
    kinds: &[IntKind],
) -> Result<HitTable, NoMemory>
    requires tables { AreTablesOf (view_function f.now) tables.now }
    requires kinds { kinds.now ≡ subjects.kinds_of tables.now.places.keys }
    requires few { bits_in kinds.now ≤ 16 }
    ensures { IfOk result (IsTableOf (typing_in tables.now.places.types) tables.now.places.without (view_function f.now) (2 ^ bits_in kinds.now)) }
{
    let mut table = HitTable::new(alloc);
    for number in 0..map_count(kinds) {
        record_run(alloc, tables, f, kinds, number, &mut table)?;
    }
    Ok(table)
}

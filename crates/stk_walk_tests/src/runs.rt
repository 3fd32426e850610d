//! Path runs of a function under input maps.

ghost use Rattle.std.specs.Prelude.{map, IsTrue};
ghost use Rattle.stk_tree.specs.View.{view_function};
ghost use Rattle.stk_meaning.specs.Maps.{AreInRange};
ghost use Rattle.stk_function_env.specs.Infos.{info_in};
ghost use Rattle.stk_goals.specs.Searched.{IsSearched};

use std::alloc::Global;
use stk_base::{List, NoMemory};
use stk_findings::SearchedFunction;
use stk_first_maps::{CHOICES, is_valid, map_of_choice, words_of};
use stk_function_env::KeyInfo;
use stk_meaning::Entry;
use stk_numbers::{IntKind, fits, width, wrap};
use stk_path_runs::path_run;
use stk_terms::Residues;

/// The input maps under which a function is run.
#[derive(Clone, Copy)]
pub(crate) enum Maps {
    /// Those of the numbers below 2 to so many bits, which are given to the keys, the lowest ones to the first key.
    Numbered(u32),
    /// Those of a text: numbers for the keys in order, with a comma between maps.
    Listed(&'static str),
    /// So many of the first maps of the search for findings.
    First(usize),
}

/// A path run: the numbers of its map, their residues modulo 2 to the widths of their kinds, whether the map is valid,
/// and the trace.
#[derive(Drop)]
pub(crate) struct Run {
    pub(crate) numbers: Vec<i128>,
    pub(crate) residues: Residues,
    pub(crate) valid: bool,
    pub(crate) trace: Vec<Entry>,
}

/// Whether there is a number for each key, in the range of its kind.
pub(crate) fn are_in_range(keys: &[KeyInfo], numbers: &[i128]) -> bool
    ensures { IsTrue result → AreInRange (map info_in keys.now) numbers.now }
{
    let Some((info, keys_behind)) = keys.split_first() else {
        return numbers.is_empty();
    };
    let Some((number, numbers_behind)) = numbers.split_first() else {
        return false;
    };
    fits(info.kind, *number) && are_in_range(keys_behind, numbers_behind)
}

// The residue of a number of a kind.
fn residue(kind: IntKind, number: i128) -> u64 {
    let bits = number.rem_euclid(18_446_744_073_709_551_616) as u64;
    let end = 1u64.checked_shl(u32::from(width(kind))).unwrap_or(0);
    bits.checked_rem(end).unwrap_or(bits)
}

// The residues of numbers.
fn residues_of(alloc: Global, keys: &[KeyInfo], numbers: &[i128]) -> Result<Residues, NoMemory> {
    let mut residues = Vec::new(alloc);
    let mut rest = numbers;
    for info in keys {
        if let Some((number, behind)) = rest.split_first() {
            residues.push(residue(info.kind, *number))?;
            rest = behind;
        }
    }
    Ok(Residues {
        numbers: List::from_vec(residues),
    })
}

// The numbers that a number gives to keys.
fn numbered(alloc: Global, keys: &[KeyInfo], number: u32) -> Result<Vec<i128>, NoMemory> {
    let mut numbers = Vec::new(alloc);
    let mut left = number;
    for info in keys {
        numbers.push(wrap(info.kind, i128::from(left)))?;
        left = left.checked_shr(u32::from(width(info.kind))).unwrap_or(0);
    }
    Ok(numbers)
}

/// The path run of these numbers.
pub(crate) fn run_under(
    alloc: Global,
    searched: &SearchedFunction,
    numbers: &[i128],
) -> Result<Run, NoMemory>
    requires { IsSearched searched.now.tables.now (view_function searched.now.function.now) }
{
    let keys = searched.tables.setting().keys();
    let words = words_of(alloc, keys, numbers)?;
    let trace = path_run(alloc, searched.tables, searched.function, words.as_slice())?;
    let valid = is_valid(alloc, searched.tables, words.as_slice())?;
    let residues = residues_of(alloc, keys, numbers)?;
    Ok(Run {
        numbers: Vec::from_slice(alloc, numbers)?,
        residues,
        valid,
        trace,
    })
}

// The path runs of the maps of the numbers below an end.
fn runs_below(alloc: Global, searched: &SearchedFunction, end: u32) -> Result<Vec<Run>, NoMemory>
    requires { IsSearched searched.now.tables.now (view_function searched.now.function.now) }
{
    let mut runs = Vec::new(alloc);
    for number in 0..end {
        let numbers = numbered(alloc, searched.tables.setting().keys(), number)?;
        runs.push(run_under(alloc, searched, numbers.as_slice())?)?;
    }
    Ok(runs)
}

// The numbers of a text.
fn numbers_in(alloc: Global, text: &str) -> Result<Vec<i128>, NoMemory> {
    let mut numbers = Vec::new(alloc);
    for word in text.split(' ') {
        if let Ok(number) = word.parse::<i128>() {
            numbers.push(number)?;
        }
    }
    Ok(numbers)
}

// The path runs of the maps of a text.
fn runs_in(alloc: Global, searched: &SearchedFunction, text: &str) -> Result<Vec<Run>, NoMemory>
    requires { IsSearched searched.now.tables.now (view_function searched.now.function.now) }
{
    let mut runs = Vec::new(alloc);
    for map in text.split(',') {
        let numbers = numbers_in(alloc, map)?;
        runs.push(run_under(alloc, searched, numbers.as_slice())?)?;
    }
    Ok(runs)
}

// The path runs of so many of the first maps of the search.
fn first_runs(
    alloc: Global,
    searched: &SearchedFunction,
    count: usize,
) -> Result<Vec<Run>, NoMemory>
    requires { IsSearched searched.now.tables.now (view_function searched.now.function.now) }
{
    let keys = searched.tables.setting().keys();
    let mut runs = Vec::new(alloc);
    for choice in CHOICES.iter().take(count) {
        let inputs = map_of_choice(alloc, keys, *choice)?;
        runs.push(run_under(alloc, searched, inputs.numbers.as_slice())?)?;
    }
    Ok(runs)
}

/// The path runs of a function under these maps.
pub(crate) fn runs_of(
    alloc: Global,
    searched: &SearchedFunction,
    maps: Maps,
) -> Result<Vec<Run>, NoMemory>
    requires { IsSearched searched.now.tables.now (view_function searched.now.function.now) }
{
    match maps {
        Maps::Numbered(bits) => {
            let end = 1u32.checked_shl(bits).unwrap_or(0);
            runs_below(alloc, searched, end)
        }
        Maps::Listed(text) => runs_in(alloc, searched, text),
        Maps::First(count) => first_runs(alloc, searched, count),
    }
}

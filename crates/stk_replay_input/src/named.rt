//! The execution that a script names, of a function at hand.

ghost use Rattle.std.specs.Prelude.{◌≡◌, ◌↔◌, ◌≤◌, IfOk, IsTrue, map, true};
ghost use Rattle.stk_tree.specs.View.{view_function};
ghost use Rattle.stk_meaning.specs.Keys.{keys_of, objects_in};
ghost use Rattle.stk_meaning.specs.Maps.{AreInRange, addresses_in, are_valid};
ghost use Rattle.stk_meaning.specs.Paths.{number_under};
ghost use Rattle.stk_meaning.specs.Weights as weights;
ghost use Rattle.stk_run_laws.specs.Visits.{IsNumbered};
ghost use Rattle.stk_function_types.specs.Nodes.{typing_in};
ghost use Rattle.stk_function_env.specs.Infos.{info_in};
ghost use Rattle.stk_memory.specs.Image.{AreApart};
ghost use Rattle.stk_path_runs.specs.FunctionTables.{AreTablesOf};
ghost use Rattle.stk_weights.specs.Units.{IsSettingOfFunction};
ghost use Rattle.stk_units.specs.Known.{IsTypedFunction};
ghost use Rattle.stk_spelling.specs.Named.{names_of};
ghost use Rattle.stk_spelling.specs.Placed.{placed_in};
ghost use Rattle.stk_spelling.specs.Texts.{key_text};
ghost use Rattle.stk_replaying.specs.Replaying.{ran_in};
ghost use Rattle.stk_replay_input.specs.Named.{AnswersScript, AnswersStart, AnswersRun};

use crate::Unreplayed;
use crate::lines::{ToldFunction, run_text};
use std::alloc::Global;
use stk_base::{List, NoMemory};
use stk_cands::candidates;
use stk_first_maps::{is_valid, words_of};
use stk_function_env::{KeyInfo, Setting};
use stk_function_types::function_visits;
use stk_lex::Places;
use stk_memory::{Cell, are_apart};
use stk_numbers::fits;
use stk_operators::Word;
use stk_path_runs::FunctionTables;
use stk_replay_script::{Script, start_numbers};
use stk_replaying::{Execution, replay_of};
use stk_spelling::{key_texts, names_of};
use stk_tree::Function;

// The trace of a replay has at most so many entries.
const MOST_ENTRIES: u32 = 1_000_000;

// Whether these are a number in range for each key.
fn are_in_range(keys: &[KeyInfo], numbers: &[i128]) -> bool
    ensures { IsTrue result ↔ AreInRange (map info_in keys.now) numbers.now }
{
    let mut rest = numbers;
    for info in keys {
        let Some((number, behind)) = rest.split_first() else {
            return false;
        };
        if !fits(info.kind, *number) {
            return false;
        }
        rest = behind;
    }
    rest.is_empty()
}

// The numbers of a start, where it is one of these keys, which are spelled so, and each number is in range.
fn numbers_in(
    alloc: Global,
    start: &[u8],
    texts: &[List<u8>],
    keys: &[KeyInfo],
) -> Result<Vec<i128>, Unreplayed>
    ensures { AnswersStart texts.now (map info_in keys.now) start.now result }
{
    match start_numbers(alloc, start, texts)? {
        None => Err(Unreplayed::BadScript),
        Some(numbers) => {
            if are_in_range(keys, numbers.as_slice()) {
                Ok(numbers)
            } else {
                Err(Unreplayed::BadScript)
            }
        }
    }
}

// The numbers of a start of a function, by the texts of its keys.
fn numbers_of(
    alloc: Global,
    input: &Places,
    setting: &Setting,
    f: &Function,
    start: &[u8],
) -> Result<Vec<i128>, Unreplayed>
    requires { input.now ≡ setting.now.types.bytes }
    ensures { AnswersStart (map (key_text (placed_in setting.now.types) (names_of (typing_in setting.now.types) (view_function f.now))) setting.now.keys) setting.now.keys start.now result }
{
    let types = setting.types();
    let names = names_of(alloc, types, f)?;
    let texts = key_texts(alloc, input, types, names.as_slice(), setting.keys())?;
    numbers_in(alloc, start, texts.as_slice(), setting.keys())
}

// Whether an execution may start with these numbers of keys and these cells: the addresses are valid, and no two cells
// have one address.
fn may_start(
    alloc: Global,
    tables: &FunctionTables,
    numbers: &[Word],
    cells: &[Cell],
) -> Result<bool, NoMemory>
    ensures { IfOk result (λ t. IsTrue t ↔ ((are_valid tables.now.places.kept (objects_in (typing_in tables.now.places.types) tables.now.places.keys) (addresses_in (number_under tables.now.places.keys numbers.now)) ≡ true) × AreApart cells.now)) }
{
    if is_valid(alloc, tables, numbers)? {
        are_apart(alloc, cells)
    } else {
        Ok(false)
    }
}

// The text of an execution of a function, by the tables of its path runs.
fn execution_text<'a>(
    alloc: Global,
    input: &'a Places<'a>,
    tables: &'a FunctionTables<'a>,
    f: &'a Function,
    execution: &Execution,
) -> Result<Vec<u8>, Unreplayed>
    requires input { input.now ≡ tables.now.places.types.bytes }
    requires tables { AreTablesOf (view_function f.now) tables.now }
    requires light { weights.weight (typing_in tables.now.places.types) tables.now.places.without (view_function f.now) ≤ weights.most_weight }
    requires apart { AreApart execution.now.memory.now.cells }
    ensures { AnswersRun (record { placed = placed_in tables.now.places.types; typing = typing_in tables.now.places.types; without = tables.now.places.without; tree = view_function f.now }) (ran_in (typing_in tables.now.places.types) tables.now.places.without (view_function f.now) execution.now) result }
{
    let types = tables.setting().types();
    let list = candidates(alloc, types, f)?;
    let replayed = replay_of(alloc, tables, f, list.as_slice(), execution, MOST_ENTRIES)?;
    let visits = function_visits(alloc, types, f)?;
    let told = ToldFunction {
        input,
        types,
        function: f,
        visits: visits.as_slice(),
    };
    let text = run_text(alloc, &told, list.as_slice(), &replayed)?;
    Ok(text)
}

/// The text of the execution that a script names, of the function at hand: `BadScript` exactly where it names none,
/// `TooLong` exactly where the trace of the execution has more than 1,000,000 entries. The function is accepted and
/// typed, and not too heavy; the setting is its own, of the input.
pub(crate) fn function_replay<'a>(
    alloc: Global,
    input: &'a Places<'a>,
    setting: &Setting,
    f: &Function,
    script: &Script,
) -> Result<Vec<u8>, Unreplayed>
    requires of { IsSettingOfFunction (view_function f.now) setting.now }
    requires numbered { IsNumbered (typing_in setting.now.types) (view_function f.now) }
    requires typed { IsTypedFunction (typing_in setting.now.types) setting.now.without (view_function f.now) }
    requires light { weights.weight (typing_in setting.now.types) setting.now.without (view_function f.now) ≤ weights.most_weight }
    requires input { input.now ≡ setting.now.types.bytes }
    ensures { AnswersScript (record { placed = placed_in setting.now.types; typing = typing_in setting.now.types; without = setting.now.without; tree = view_function f.now }) script.now result }
{
    let numbers = numbers_of(alloc, input, setting, f, script.start.as_slice())?;
    let tables = FunctionTables::new(alloc, setting, f)?;
    let words = words_of(alloc, setting.keys(), numbers.as_slice())?;
    if !may_start(
        alloc,
        &tables,
        words.as_slice(),
        script.memory.cells.as_slice(),
    )? {
        return Err(Unreplayed::BadScript);
    }
    let execution = Execution {
        numbers: words.as_slice(),
        memory: &script.memory,
        replies: script.replies.as_slice(),
        turns: script.turns,
    };
    execution_text(alloc, input, &tables, f, &execution)
}

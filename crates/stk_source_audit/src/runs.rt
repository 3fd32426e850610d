// Path runs of a function that is judged.
ghost use Rattle.std.specs.Prelude.{◌≡◌, ◌↔◌, ◌≤◌, ◌^◌, IfOk, IsTrue};
ghost use Rattle.stk_tree.specs.Syntax.{FunctionTree};
ghost use Rattle.stk_tree.specs.View.{view_function};
ghost use Rattle.stk_numbers.specs.declared.conditions.Kinds.{Kinds};
ghost use Rattle.stk_meaning.specs.Typings.{Typing};
ghost use Rattle.stk_meaning.specs.Keys.{keys_of, input_bits};
ghost use Rattle.stk_function_types.specs.Nodes.{typing_in};
ghost use Rattle.stk_path_runs.specs.FunctionTables.{AreTablesOf};
ghost use Rattle.stk_hits.specs.InputMaps.{bits_in};
ghost use Rattle.stk_hits.specs.PathSubjects as subjects;
ghost use Rattle.stk_hits.specs.PathTables.{IsTableOf};
ghost use Rattle.stk_audit_rules.specs.Worlds.{IsAnsweredBy};
ghost use Rattle.stk_audit.specs.Hands.{TellsNone};
ghost use Rattle.stk_source_audit.specs.Functions.{audited_subject};
ghost use Rattle.stk_source_audit.specs.Asked.{answers_test, IsJudged, judged_typing, judged_tree, judged_kinds, judged_function};

use crate::hit_free::is_hit_free;
use crate::judged::{JudgedFunction, types_of};
use crate::words::words_of;
use std::alloc::Global;
use stk_base::NoMemory;
use stk_first_maps::is_valid;
use stk_function_env::Setting;
use stk_hits::{HitTable, table_of};
use stk_numbers::{Candidate, Condition, IntKind};
use stk_operators::Word;
use stk_path_runs::{FunctionTables, path_run};
use stk_tree::Function;

/// Whether the addresses of an input map are valid, and its path run hits a candidate free of a set. The tables are
/// those of the function.
fn answers(
    alloc: Global,
    tables: &FunctionTables,
    f: &Function,
    words: &[Word],
    candidate: Candidate,
    set: &[Condition],
) -> Result<bool, NoMemory>
    requires { AreTablesOf (view_function f.now) tables.now }
    ensures { IfOk result (λ b. b ≡ answers_test (typing_in tables.now.places.types) tables.now.places.without (view_function f.now) candidate set.now words.now) }
{
    if !is_valid(alloc, tables, words)? {
        return Ok(false);
    }
    let trace = path_run(alloc, tables, f, words)?;
    Ok(is_hit_free(set, candidate, trace.as_slice()))
}

/// Whether a start, by what is left of each number modulo 2 to the width of its key, answers the query of a candidate
/// and a set. The kinds are those of the function's keys.
pub(crate) fn is_answer(
    judged: &JudgedFunction,
    kinds: &[IntKind],
    candidate: Candidate,
    set: &[Condition],
    start: &[u64],
) -> Result<bool, NoMemory>
    requires judged { IsJudged judged.now }
    requires kinds { kinds.now ≡ judged_kinds judged.now }
    ensures { IfOk result (λ is. IsTrue is ↔ IsAnsweredBy (judged_function judged.now) candidate set.now start.now) }
{
    let alloc = judged.alloc;
    let Some(words) = words_of(alloc, kinds, start)? else {
        return Ok(false);
    };
    let types = types_of(alloc, judged.bytes, judged.unit, judged.names)?;
    let setting = Setting::new(alloc, &types, judged.without, judged.function)?;
    let tables = FunctionTables::new(alloc, &setting, judged.function)?;
    let is = answers(
        alloc,
        &tables,
        judged.function,
        words.as_slice(),
        candidate,
        set,
    )?;
    Ok(is)
}

/// The table of what the path runs of all input maps of a function hit, which have at most 16 bits. The kinds are those
/// of the function's keys.
pub(crate) fn hit_table(judged: &JudgedFunction, kinds: &[IntKind]) -> Result<HitTable, NoMemory>
    requires judged { IsJudged judged.now }
    requires kinds { kinds.now ≡ judged_kinds judged.now }
    requires few { bits_in kinds.now ≤ 16 }
    ensures { IfOk result (IsTableOf (judged_typing judged.now) judged.now.without (judged_tree judged.now) (2 ^ bits_in kinds.now)) }
{
    let alloc = judged.alloc;
    let types = types_of(alloc, judged.bytes, judged.unit, judged.names)?;
    let setting = Setting::new(alloc, &types, judged.without, judged.function)?;
    let tables = FunctionTables::new(alloc, &setting, judged.function)?;
    let table = table_of(alloc, &tables, judged.function, kinds)?;
    Ok(table)
}

/// Whether no input map of a function answers the query of a candidate and a set, by the table of what the path runs of
/// all its maps hit.
pub(crate) fn none_answers(
    alloc: Global,
    table: &HitTable,
    candidate: Candidate,
    set: &[Condition],
) -> Result<bool, NoMemory>
    ensures { (ty : Typing) (without : Kinds) (f : FunctionTree) → input_bits (keys_of ty without f) ≤ 16 → IsTableOf ty without f (2 ^ bits_in (subjects.kinds_of (keys_of ty without f))) table.now
        → IfOk result (TellsNone (audited_subject ty without f) candidate set.now) }
{
    let rows = table.rows_of(alloc, candidate)?;
    let found = table.first_free(alloc, rows.as_slice(), set)?;
    Ok(found.is_none())
}

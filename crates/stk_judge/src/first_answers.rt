//! Queries over a table of hits, whose answers are input maps.

ghost use Rattle.std.specs.Prelude.{◌≡◌, ◌≤◌, ◌^◌, ◌++◌, ℕ, List, [], length, reverse, Option, IfOk, MatchOption};
ghost use Rattle.stk_numbers.specs.declared.conditions.Candidate.{Candidate as Asked};
ghost use Rattle.stk_numbers.specs.declared.conditions.Condition.{Condition as Violated};
ghost use Rattle.stk_meaning.specs.declared.entry.Entry.{Entry as Passed};
ghost use Rattle.stk_meaning.specs.Findings.{members, NoAnswer, IsFirstAnswer};
ghost use Rattle.stk_hits.specs.InputMaps.{bits_in};
ghost use Rattle.stk_hits.specs.Tables.{Describes, rows_of};
ghost use Rattle.stk_hits.specs.Subjects.{subject_of};

use std::alloc::Global;
use stk_base::NoMemory;
use stk_hits::{HitTable, Row, map_of};
use stk_meaning::Need;
use stk_numbers::{Condition, Inputs, IntKind};

/// The first input map whose run hits a candidate and violates none of these conditions before, of the runs that the
/// table describes: those of all maps for keys of these kinds. The rows are the candidate's.
pub(crate) fn first_answer(
    alloc: Global,
    table: &HitTable,
    kinds: &[IntKind],
    rows: &[Row],
    set: &[Condition],
) -> Result<Option<Inputs>, NoMemory>
    requires { bits_in kinds.now ≤ 16 }
    ensures { (runs : List (Option (List Passed))) (c : Asked) (all : List Violated) → Describes runs [] table.now → length runs ≡ 2 ^ bits_in kinds.now → rows.now ≡ rows_of c table.now.hits
        → IfOk result (λ found. MatchOption found (NoAnswer (subject_of kinds.now runs all) c set.now) (λ start. IsFirstAnswer (subject_of kinds.now runs all) c set.now start.numbers)) }
{
    match table.first_free(alloc, rows, set)? {
        None => Ok(None),
        Some(number) => {
            let start = map_of(alloc, kinds, number)?;
            Ok(Some(start))
        }
    }
}

/// The conditions of a query: those below, and the members of the set, whose greatest one is the first.
pub(crate) fn query_set(
    alloc: Global,
    below: &[Condition],
    needs: &[Need],
) -> Result<Vec<Condition>, NoMemory>
    ensures { IfOk result (λ set. set.items ≡ below.now ++ members (reverse needs.now)) }
{
    let mut set = Vec::new(alloc);
    for condition in below {
        set.push(*condition)?;
    }
    for i in (0..needs.len()).rev() {
        set.push(needs[i].condition)?;
    }
    Ok(set)
}

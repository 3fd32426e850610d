//! The finding for a candidate.

ghost use Rattle.std.specs.Prelude.{◌≡◌, ◌≤◌, ◌^◌, ℕ, List, [], length, Option, IfOk};
ghost use Rattle.stk_numbers.specs.declared.conditions.Candidate.{Candidate as Asked};
ghost use Rattle.stk_meaning.specs.declared.entry.Entry.{Entry as Passed};
ghost use Rattle.stk_meaning.specs.Findings.{NoAnswer, IsLawful};
ghost use Rattle.stk_hits.specs.InputMaps.{bits_in};
ghost use Rattle.stk_hits.specs.Tables.{Describes, rows_of};
ghost use Rattle.stk_hits.specs.Subjects.{subject_of};
ghost use Rattle.stk_guess.specs.Needed.{IsNeededSet};

use crate::first_answers::{first_answer, query_set};
use std::alloc::Global;
use stk_base::{List, NoMemory};
use stk_hits::{HitTable, Row};
use stk_meaning::{Finding, Need};
use stk_numbers::{Candidate, Condition, IntKind};

// The set of an unstable candidate, minimal by deletion from the greatest condition to the least.
fn needed(
    alloc: Global,
    table: &HitTable,
    kinds: &[IntKind],
    rows: &[Row],
    conditions: &[Condition],
) -> Result<List<Need>, NoMemory>
    requires { bits_in kinds.now ≤ 16 }
    ensures { (runs : List (Option (List Passed))) (c : Asked) → Describes runs [] table.now → length runs ≡ 2 ^ bits_in kinds.now → rows.now ≡ rows_of c table.now.hits → NoAnswer (subject_of kinds.now runs conditions.now) c conditions.now
        → IfOk result (IsNeededSet (subject_of kinds.now runs conditions.now) c conditions.now) }
{
    let mut needs = Vec::new(alloc);
    for i in (0..conditions.len()).rev() {
        let set = query_set(alloc, &conditions[..i], needs.as_slice())?;
        if let Some(start) = first_answer(alloc, table, kinds, rows, set.as_slice())? {
            needs.push(Need {
                condition: conditions[i],
                shown: Some(start),
            })?;
        }
    }
    needs.reverse();
    Ok(List::from_vec(needs))
}

/// The lawful finding for a candidate of a function whose input maps have at most 16 bits together, by the table of
/// what the runs of all of them hit, in their order: the kinds are those of the function's keys, and the conditions are
/// all that it has, in ascending order (SOSP 2013 paper "Towards Optimization-Safe Systems", sections 3 and 4). The set
/// of a report is minimal by deletion from the greatest condition to the least, and each start is the first one that
/// answers its query.
pub fn finding_of(
    alloc: Global,
    table: &HitTable,
    kinds: &[IntKind],
    candidate: Candidate,
    conditions: &[Condition],
) -> Result<Finding, NoMemory>
    requires { bits_in kinds.now ≤ 16 }
    ensures { (runs : List (Option (List Passed))) → Describes runs [] table.now → length runs ≡ 2 ^ bits_in kinds.now → IfOk result (IsLawful (subject_of kinds.now runs conditions.now) candidate) }
{
    let rows = table.rows_of(alloc, candidate)?;
    if first_answer(alloc, table, kinds, rows.as_slice(), conditions)?.is_some() {
        return Ok(Finding::Clear);
    }
    let Some(start) = first_answer(alloc, table, kinds, rows.as_slice(), &[])? else {
        return Ok(Finding::Clear);
    };
    let needs = needed(alloc, table, kinds, rows.as_slice(), conditions)?;
    Ok(Finding::Unstable { start, needs })
}

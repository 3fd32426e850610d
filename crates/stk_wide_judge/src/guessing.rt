//! The set of conditions that is guessed from known starts.

ghost use Rattle.std.specs.Prelude.{◌≡◌, ◌≤◌, ◌++◌, length, take, reverse, IfOk};
ghost use Rattle.stk_numbers.specs.declared.conditions.Candidate.{Candidate as Asked};
ghost use Rattle.stk_meaning.specs.Lists as lists;
ghost use Rattle.stk_meaning.specs.Findings.{members, NoAnswer};
ghost use Rattle.stk_hits.specs.Tables.{rows_of};
ghost use Rattle.stk_guess.specs.Known.{IsGuess};
ghost use Rattle.stk_wide_judge.specs.Wide.{AskedFunction, asked_subject, never_spent};
ghost use Rattle.stk_wide_judge.specs.Starts.{AreKnown, known_of, KnownAnswer};
ghost use Rattle.stk_wide_judge.specs.Guesses.{IsBelow, IsLastMember};

use crate::Known;
use std::alloc::Global;
use stk_base::{List, NoMemory};
use stk_hits::Row;
use stk_meaning::Need;
use stk_numbers::{Condition, Inputs};

/// The conditions of a query: those below, and the members of the set, whose greatest one is the first.
pub(crate) fn query_set(
    alloc: Global,
    below: &[Condition],
    needs: &[Need],
) -> Result<Vec<Condition>, NoMemory>
    ensures { IfOk result (λ set. set.items ≡ below.now ++ members (reverse needs.now)) }
{
    let mut set = Vec::new(alloc);
    for condition in below {
        set.push(*condition)?;
    }
    for i in (0..needs.len()).rev() {
        set.push(needs[i].condition)?;
    }
    Ok(set)
}

/// The members of a set.
pub(crate) fn members_of(alloc: Global, needs: &[Need]) -> Result<Vec<Condition>, NoMemory>
    ensures { IfOk result (λ set. set.items ≡ members needs.now) }
{
    let mut set = Vec::new(alloc);
    for need in needs {
        set.push(need.condition)?;
    }
    Ok(set)
}

// What a set is guessed from: known starts, the rows of a candidate, and the conditions of its function.
#[derive(Drop)]
struct Guessing<'a> {
    alloc: Global,
    known: &'a Known,
    rows: &'a [Row],
    conditions: &'a [Condition],
}

/// The place of a condition, and the first known start that answers its query.
#[derive(Drop)]
pub(crate) struct FoundMember {
    pub index: usize,
    pub start: Inputs,
}

// The first known start that answers the query for the conditions below an index and the members behind it.
fn answer_below(guessing: &Guessing, end: usize, needs: &[Need]) -> Result<Option<Inputs>, NoMemory>
    requires { end ≤ length guessing.now.conditions.now }
    ensures { (a : AskedFunction) (c : Asked) → AreKnown a guessing.now.known.now.starts.items guessing.now.known.now.table → guessing.now.rows.now ≡ rows_of c guessing.now.known.now.table.hits
        → IfOk result (KnownAnswer a guessing.now.known.now.starts.items c (take end guessing.now.conditions.now ++ members (reverse needs.now))) }
{
    let set = query_set(guessing.alloc, &guessing.conditions[..end], needs)?;
    guessing
        .known
        .first_answer(guessing.alloc, guessing.rows, set.as_slice())
}

// The greatest index below the end whose condition is a member: there a known start answers the query for the
// conditions below it and the members behind. What answers a query answers that for fewer conditions, so it is found by
// halving.
fn last_member(
    guessing: &Guessing,
    end: usize,
    needs: &[Need],
) -> Result<Option<FoundMember>, NoMemory>
    requires { end ≤ length guessing.now.conditions.now }
    ensures within { IfOk result (IsBelow end) }
    ensures last { (a : AskedFunction) (c : Asked) → AreKnown a guessing.now.known.now.starts.items guessing.now.known.now.table → guessing.now.rows.now ≡ rows_of c guessing.now.known.now.table.hits
        → NoAnswer (known_of a guessing.now.known.now.starts.items) c (take end guessing.now.conditions.now ++ members (reverse needs.now)) → IfOk result (IsLastMember a guessing.now.known.now.starts.items c guessing.now.conditions.now needs.now) }
{
    if end == 0 {
        return Ok(None);
    }
    let Some(first) = answer_below(guessing, 0, needs)? else {
        return Ok(None);
    };
    let mut start = first;
    let mut low = 0;
    let mut high = end;
    'halves: while high - low > 1 {
        let middle = low + (high - low) / 2;
        match answer_below(guessing, middle, needs)? {
            Some(found) => {
                start = found;
                low = middle;
            }
            None => high = middle,
        }
    }
    Ok(Some(FoundMember { index: low, start }))
}

/// The set that is guessed by deletion from the greatest condition to the least, over the known starts alone. None of
/// them hits the candidate free of all conditions; the rows are the candidate's.
pub(crate) fn guess(
    alloc: Global,
    known: &Known,
    rows: &[Row],
    conditions: &[Condition],
) -> Result<List<Need>, NoMemory>
    ensures { (a : AskedFunction) (c : Asked) → AreKnown a known.now.starts.items known.now.table → rows.now ≡ rows_of c known.now.table.hits → conditions.now ≡ lists.conditions a.typing a.without a.tree → NoAnswer (known_of a known.now.starts.items) c conditions.now
        → IfOk result (IsGuess (asked_subject a never_spent) known.now.starts.items c) }
{
    let guessing = Guessing {
        alloc,
        known,
        rows,
        conditions,
    };
    let mut needs = Vec::new(alloc);
    let mut end = conditions.len();
    'members: while let Some(found) = last_member(&guessing, end, needs.as_slice())? {
        needs.push(Need {
            condition: conditions[found.index],
            shown: Some(found.start),
        })?;
        end = found.index;
    }
    needs.reverse();
    Ok(List::from_vec(needs))
}

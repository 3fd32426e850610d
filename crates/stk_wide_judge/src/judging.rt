//! The finding of a candidate.

ghost use Rattle.std.specs.Prelude.{◌≡◌, IfOk, OnOk};
ghost use Rattle.stk_tree.specs.View.{view_function};
ghost use Rattle.stk_meaning.specs.Findings.{IsLawful};
ghost use Rattle.stk_path_runs.specs.FunctionTables.{AreTablesOf};
ghost use Rattle.stk_wide_judge.specs.Wide.{asked_in, asked_subject, IsPlaced};
ghost use Rattle.stk_wide_judge.specs.Answers.{IsLater};
ghost use Rattle.stk_spent_queries.specs.Marks.{marks, AreCounted};
ghost use Rattle.stk_wide_judge.specs.Starts.{AreKnown};
ghost use Rattle.stk_wide_judge.specs.Rounds.{IsFoundOr, IsRound};

use crate::plain::plain;
use crate::rounds::{Round, free_round, one_round};
use crate::{AskedCandidate, JudgedFunction, Known, Questions};
use stk_base::NoMemory;
use stk_meaning::Finding;
use stk_query::Decider;

// The most guesses for a candidate, before the queries of the definition.
const MOST_ROUNDS: u32 = 32;

// In this round, instead of a guess, it is asked whether some start is free of all conditions: guesses for a candidate
// that is clear only grow until it is.
const FREE_ROUND: u32 = 3;

// The question of a round: of a guess, or whether some start is free of all conditions.
fn nth_round<Q: Questions, D: Decider>(
    function: &JudgedFunction,
    questions: &mut Q,
    decider: &mut D,
    known: &mut Known,
    asked: AskedCandidate,
    round: u32,
) -> Result<Round, NoMemory>
    requires tables { AreTablesOf (view_function function.now.f.now) function.now.tables.now }
    requires about { Q.about questions.old ≡ asked_in function.now.tables.now (view_function function.now.f.now) }
    requires placed { IsPlaced (asked_in function.now.tables.now (view_function function.now.f.now)) asked.position asked.candidate }
    requires known { AreKnown (asked_in function.now.tables.now (view_function function.now.f.now)) known.old.starts.items known.old.table }
    ensures found { IfOk result (IsRound (asked_in function.now.tables.now (view_function function.now.f.now)) (Q.spent questions.old) (D.given_up decider.old) (D.given_up decider.new) asked.candidate) }
    ensures known { OnOk result (AreKnown (asked_in function.now.tables.now (view_function function.now.f.now)) known.new.starts.items known.new.table) }
    ensures later { IsLater (Q.about questions.old) (Q.about questions.new) (Q.spent questions.old) (Q.spent questions.new) (D.given_up decider.old) (D.given_up decider.new) }
{
    if round == FREE_ROUND {
        let led = free_round(function, questions, decider, known, asked)?;
        return Ok(led);
    }
    let led = one_round(function, questions, decider, known, asked)?;
    Ok(led)
}

// The finding by guesses, where one of them is right.
fn by_guesses<Q: Questions, D: Decider>(
    function: &JudgedFunction,
    questions: &mut Q,
    decider: &mut D,
    known: &mut Known,
    asked: AskedCandidate,
) -> Result<Option<Finding>, NoMemory>
    requires tables { AreTablesOf (view_function function.now.f.now) function.now.tables.now }
    requires about { Q.about questions.old ≡ asked_in function.now.tables.now (view_function function.now.f.now) }
    requires placed { IsPlaced (asked_in function.now.tables.now (view_function function.now.f.now)) asked.position asked.candidate }
    requires known { AreKnown (asked_in function.now.tables.now (view_function function.now.f.now)) known.old.starts.items known.old.table }
    ensures found { IfOk result (IsFoundOr (asked_in function.now.tables.now (view_function function.now.f.now)) (Q.spent questions.old) (D.given_up decider.old) (D.given_up decider.new) asked.candidate) }
    ensures known { OnOk result (AreKnown (asked_in function.now.tables.now (view_function function.now.f.now)) known.new.starts.items known.new.table) }
    ensures later { IsLater (Q.about questions.old) (Q.about questions.new) (Q.spent questions.old) (Q.spent questions.new) (D.given_up decider.old) (D.given_up decider.new) }
{
    for round in 0..MOST_ROUNDS {
        match nth_round(function, questions, decider, known, asked, round)? {
            Round::Found(finding) => return Ok(Some(finding)),
            Round::Refuted => {}
            Round::Stopped => return Ok(None),
        }
    }
    Ok(None)
}

/// The lawful finding of a candidate of a function of any number of input bits (Wang, Zeldovich, Kaashoek,
/// Solar-Lezama, SOSP 2013, sections 3 and 4.5), whose set of conditions is minimal by deletion from the greatest
/// condition to the least. Where a known start hits the candidate free of all conditions, nothing is asked. Else the
/// set is guessed from the known starts, and one query says whether the guess is right; a start that refutes it joins
/// the known ones, up to 32 times, and the fourth query asks for one that is free of all conditions. Where that doesn't
/// lead to a finding, the queries of the definition are asked that no known start answers. Where the query for all
/// conditions, or for none, was given up once, it isn't asked again. Queries that the finding says were given up are at
/// most as many as those that were counted as given up, or the count stands at its last value. The only refusal is want
/// of memory, after which nothing is known.
pub fn judge_candidate<Q: Questions, D: Decider>(
    function: &JudgedFunction,
    questions: &mut Q,
    decider: &mut D,
    known: &mut Known,
    asked: AskedCandidate,
) -> Result<Finding, NoMemory>
    requires tables { AreTablesOf (view_function function.now.f.now) function.now.tables.now }
    requires about { Q.about questions.old ≡ asked_in function.now.tables.now (view_function function.now.f.now) }
    requires placed { IsPlaced (asked_in function.now.tables.now (view_function function.now.f.now)) asked.position asked.candidate }
    requires known { AreKnown (asked_in function.now.tables.now (view_function function.now.f.now)) known.old.starts.items known.old.table }
    ensures lawful { IfOk result (IsLawful (asked_subject (asked_in function.now.tables.now (view_function function.now.f.now)) (Q.spent questions.old)) asked.candidate) }
    ensures known { OnOk result (AreKnown (asked_in function.now.tables.now (view_function function.now.f.now)) known.new.starts.items known.new.table) }
    ensures marks { IfOk result (λ finding. AreCounted (D.given_up decider.old) (D.given_up decider.new) (marks finding)) }
    ensures later { IsLater (Q.about questions.old) (Q.about questions.new) (Q.spent questions.old) (Q.spent questions.new) (D.given_up decider.old) (D.given_up decider.new) }
{
    match by_guesses(function, questions, decider, known, asked)? {
        Some(finding) => Ok(finding),
        None => plain(function, questions, decider, known, asked),
    }
}

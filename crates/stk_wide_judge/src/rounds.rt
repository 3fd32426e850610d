//! Guesses, and the question whether they are right.

ghost use Rattle.std.specs.Prelude.{◌≡◌, IfOk, OnOk};
ghost use Rattle.stk_tree.specs.View.{view_function};
ghost use Rattle.stk_numbers.specs.declared.conditions.Candidate.{Candidate as Asked};
ghost use Rattle.stk_meaning.specs.Findings.{members, NoAnswer};
ghost use Rattle.stk_hits.specs.Tables.{rows_of};
ghost use Rattle.stk_guess.specs.Known.{IsGuess};
ghost use Rattle.stk_path_runs.specs.FunctionTables.{AreTablesOf};
ghost use Rattle.stk_wide_judge.specs.Wide.{AskedFunction, asked_in, asked_subject, never_spent, IsPlaced};
ghost use Rattle.stk_wide_judge.specs.Answers.{IsLater};
ghost use Rattle.stk_wide_judge.specs.Starts.{AreKnown};
ghost use Rattle.stk_wide_judge.specs.Rounds.{IsDecided, IsRound, finding_after};

use crate::guessing::{guess, members_of};
use crate::plain::answered;
use crate::{AskedCandidate, JudgedFunction, Known, QueryAnswer, Questions};
use std::alloc::Global;
use stk_base::{List, NoMemory};
use stk_hits::Row;
use stk_meaning::{Finding, Need, Phase};
use stk_query::Decider;

/// What the question of a round leads to.
#[derive(Drop)]
pub(crate) enum Round {
    /// The guess is right, the known starts decide by themselves, or what was given up is a query of the definition,
    /// for all conditions or for none, that decides.
    Found(Finding),
    /// A start that was found refutes the guess, no start is free of all conditions, or more first starts joined: there
    /// is another round.
    Refuted,
    /// Its query was given up and is for some of the conditions, or no further start is kept.
    Stopped,
}

// The finding where no map answers the query for the guessed set.
fn settled(
    alloc: Global,
    known: &Known,
    rows: &[Row],
    needs: List<Need>,
) -> Result<Finding, NoMemory>
    ensures { (a : AskedFunction) (c : Asked) → AreKnown a known.now.starts.items known.now.table → rows.now ≡ rows_of c known.now.table.hits → IsGuess (asked_subject a never_spent) known.now.starts.items c needs → NoAnswer (asked_subject a never_spent) c (members needs)
        → IfOk result (IsDecided a c) }
{
    match known.first_answer(alloc, rows, &[])? {
        None => Ok(Finding::Clear),
        Some(start) => Ok(Finding::Unstable { start, needs }),
    }
}

// The finding where the query whether any start hits the candidate was given up, by the answer to that for all
// conditions.
fn after_hit(answer: &QueryAnswer) -> Finding
    ensures { result ≡ finding_after answer.now }
{
    match answer {
        QueryAnswer::Start(_) => Finding::Clear,
        QueryAnswer::Never => Finding::Undecided { phase: Phase::Hit },
        QueryAnswer::GivenUp => Finding::Undecided { phase: Phase::Free },
    }
}

/// The question whether some start hits the candidate with nothing violated before. Where there is one it is kept, and
/// shows in the next round that the candidate is clear. Where it is given up, the candidate is undecided.
pub(crate) fn free_round<Q: Questions, D: Decider>(
    function: &JudgedFunction,
    questions: &mut Q,
    decider: &mut D,
    known: &mut Known,
    asked: AskedCandidate,
) -> Result<Round, NoMemory>
    requires tables { AreTablesOf (view_function function.now.f.now) function.now.tables.now }
    requires about { Q.about questions.old ≡ asked_in function.now.tables.now (view_function function.now.f.now) }
    requires placed { IsPlaced (asked_in function.now.tables.now (view_function function.now.f.now)) asked.position asked.candidate }
    requires known { AreKnown (asked_in function.now.tables.now (view_function function.now.f.now)) known.old.starts.items known.old.table }
    ensures found { IfOk result (IsRound (asked_in function.now.tables.now (view_function function.now.f.now)) (Q.spent questions.old) (D.given_up decider.old) (D.given_up decider.new) asked.candidate) }
    ensures known { OnOk result (AreKnown (asked_in function.now.tables.now (view_function function.now.f.now)) known.new.starts.items known.new.table) }
    ensures later { IsLater (Q.about questions.old) (Q.about questions.new) (Q.spent questions.old) (Q.spent questions.new) (D.given_up decider.old) (D.given_up decider.new) }
{
    let answer = questions.ask(
        decider,
        asked.position,
        asked.candidate,
        function.conditions,
    )?;
    match answer {
        QueryAnswer::Start(start) => {
            if known.is_full() {
                return Ok(Round::Stopped);
            }
            known.add(function, &start)?;
            Ok(Round::Refuted)
        }
        QueryAnswer::Never => Ok(Round::Refuted),
        QueryAnswer::GivenUp => Ok(Round::Found(Finding::Undecided { phase: Phase::Free })),
    }
}

/// One guess, and the question whether it is right, once the starts of the function's numbers have joined, which they
/// do where no known start shows that the candidate is clear. Where the question is given up and the guess is all
/// conditions, the candidate is undecided; where the guess is none of them, what is left is the question for all of
/// them.
pub(crate) fn one_round<Q: Questions, D: Decider>(
    function: &JudgedFunction,
    questions: &mut Q,
    decider: &mut D,
    known: &mut Known,
    asked: AskedCandidate,
) -> Result<Round, NoMemory>
    requires tables { AreTablesOf (view_function function.now.f.now) function.now.tables.now }
    requires about { Q.about questions.old ≡ asked_in function.now.tables.now (view_function function.now.f.now) }
    requires placed { IsPlaced (asked_in function.now.tables.now (view_function function.now.f.now)) asked.position asked.candidate }
    requires known { AreKnown (asked_in function.now.tables.now (view_function function.now.f.now)) known.old.starts.items known.old.table }
    ensures found { IfOk result (IsRound (asked_in function.now.tables.now (view_function function.now.f.now)) (Q.spent questions.old) (D.given_up decider.old) (D.given_up decider.new) asked.candidate) }
    ensures known { OnOk result (AreKnown (asked_in function.now.tables.now (view_function function.now.f.now)) known.new.starts.items known.new.table) }
    ensures later { IsLater (Q.about questions.old) (Q.about questions.new) (Q.spent questions.old) (Q.spent questions.new) (D.given_up decider.old) (D.given_up decider.new) }
{
    let alloc = function.alloc;
    let rows = known.table.rows_of(alloc, asked.candidate)?;
    let free = known.first_answer(alloc, rows.as_slice(), function.conditions)?;
    if free.is_some() {
        return Ok(Round::Found(Finding::Clear));
    }
    if known.lacks_numbers {
        known.add_numbers(function)?;
        return Ok(Round::Refuted);
    }
    let needs = guess(alloc, known, rows.as_slice(), function.conditions)?;
    let set = members_of(alloc, needs.as_slice())?;
    match questions.ask(decider, asked.position, asked.candidate, set.as_slice())? {
        QueryAnswer::Start(start) => {
            if known.is_full() {
                return Ok(Round::Stopped);
            }
            known.add(function, &start)?;
            Ok(Round::Refuted)
        }
        QueryAnswer::Never => {
            let finding = settled(alloc, known, rows.as_slice(), needs)?;
            Ok(Round::Found(finding))
        }
        QueryAnswer::GivenUp => {
            if set.len() == function.conditions.len() {
                return Ok(Round::Found(Finding::Undecided { phase: Phase::Free }));
            }
            if set.is_empty() {
                let all = function.conditions;
                let answer = answered(function, questions, decider, known, asked, all)?;
                return Ok(Round::Found(after_hit(&answer)));
            }
            Ok(Round::Stopped)
        }
    }
}

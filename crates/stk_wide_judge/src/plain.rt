//! The queries of the definition, each looked up among the known starts first.

ghost use Rattle.std.specs.Prelude.{◌≡◌, ◌++◌, ◌∷◌, [], IfOk, OnOk};
ghost use Rattle.stk_tree.specs.View.{view_function};
ghost use Rattle.stk_meaning.specs.Findings.{NoAnswer, IsLawful};
ghost use Rattle.stk_guess.specs.Needed.{IsNeededSet};
ghost use Rattle.stk_path_runs.specs.FunctionTables.{AreTablesOf};
ghost use Rattle.stk_wide_judge.specs.Wide.{asked_in, asked_subject, IsPlaced};
ghost use Rattle.stk_wide_judge.specs.Answers.{IsAnswer, IsCounted, IsLater, with_answer};
ghost use Rattle.stk_spent_queries.specs.Marks.{open_count, marks, AreCounted};
ghost use Rattle.stk_wide_judge.specs.Starts.{AreKnown};

use crate::guessing::query_set;
use crate::{AskedCandidate, JudgedFunction, Known, QueryAnswer, Questions};
use stk_base::{List, NoMemory};
use stk_meaning::{Finding, Need, Phase};
use stk_numbers::{Condition, Inputs};
use stk_query::Decider;

/// A query: looked up among the known starts, and else asked. A start that is found joins them.
pub(crate) fn answered<Q: Questions, D: Decider>(
    function: &JudgedFunction,
    questions: &mut Q,
    decider: &mut D,
    known: &mut Known,
    asked: AskedCandidate,
    set: &[Condition],
) -> Result<QueryAnswer, NoMemory>
    requires tables { AreTablesOf (view_function function.now.f.now) function.now.tables.now }
    requires about { Q.about questions.old ≡ asked_in function.now.tables.now (view_function function.now.f.now) }
    requires placed { IsPlaced (asked_in function.now.tables.now (view_function function.now.f.now)) asked.position asked.candidate }
    requires known { AreKnown (asked_in function.now.tables.now (view_function function.now.f.now)) known.old.starts.items known.old.table }
    ensures answer { IfOk result (IsAnswer (asked_subject (asked_in function.now.tables.now (view_function function.now.f.now)) (Q.spent questions.old)) asked.candidate set.now) }
    ensures known { OnOk result (AreKnown (asked_in function.now.tables.now (view_function function.now.f.now)) known.new.starts.items known.new.table) }
    ensures counted { IfOk result (IsCounted (D.given_up decider.old) (D.given_up decider.new)) }
    ensures later { IsLater (Q.about questions.old) (Q.about questions.new) (Q.spent questions.old) (Q.spent questions.new) (D.given_up decider.old) (D.given_up decider.new) }
{
    let rows = known.table.rows_of(function.alloc, asked.candidate)?;
    if let Some(start) = known.first_answer(function.alloc, rows.as_slice(), set)? {
        return Ok(QueryAnswer::Start(start));
    }
    let answer = questions.ask(decider, asked.position, asked.candidate, set)?;
    known.note(function, &answer)?;
    Ok(answer)
}

// One member more.
fn add_need(
    needs: &mut Vec<Need>,
    condition: Condition,
    shown: Option<Inputs>,
) -> Result<(), NoMemory>
    ensures { OnOk result (needs.new.items ≡ needs.old.items ++ record { condition = condition; shown = shown } ∷ []) }
{
    needs.push(Need { condition, shown })?;
    Ok(())
}

// The answer to the query of a condition joins the set behind it: one that has a start is a member, and one that was
// given up an open member.
fn add_member(
    needs: &mut Vec<Need>,
    condition: Condition,
    answer: QueryAnswer,
) -> Result<(), NoMemory>
    ensures { OnOk result (needs.new.items ≡ with_answer needs.old.items condition answer) }
{
    match answer {
        QueryAnswer::Start(start) => add_need(needs, condition, Some(start)),
        QueryAnswer::Never => Ok(()),
        QueryAnswer::GivenUp => add_need(needs, condition, None),
    }
}

// The set of an unstable candidate, minimal by deletion from the greatest condition to the least; a member is open
// where its query was given up.
fn needed<Q: Questions, D: Decider>(
    function: &JudgedFunction,
    questions: &mut Q,
    decider: &mut D,
    known: &mut Known,
    asked: AskedCandidate,
) -> Result<List<Need>, NoMemory>
    requires tables { AreTablesOf (view_function function.now.f.now) function.now.tables.now }
    requires about { Q.about questions.old ≡ asked_in function.now.tables.now (view_function function.now.f.now) }
    requires placed { IsPlaced (asked_in function.now.tables.now (view_function function.now.f.now)) asked.position asked.candidate }
    requires known { AreKnown (asked_in function.now.tables.now (view_function function.now.f.now)) known.old.starts.items known.old.table }
    requires none { NoAnswer (asked_subject (asked_in function.now.tables.now (view_function function.now.f.now)) (Q.spent questions.old)) asked.candidate function.now.conditions.now }
    ensures set { IfOk result (IsNeededSet (asked_subject (asked_in function.now.tables.now (view_function function.now.f.now)) (Q.spent questions.old)) asked.candidate function.now.conditions.now) }
    ensures known { OnOk result (AreKnown (asked_in function.now.tables.now (view_function function.now.f.now)) known.new.starts.items known.new.table) }
    ensures marks { IfOk result (λ needs. AreCounted (D.given_up decider.old) (D.given_up decider.new) (open_count needs)) }
    ensures later { IsLater (Q.about questions.old) (Q.about questions.new) (Q.spent questions.old) (Q.spent questions.new) (D.given_up decider.old) (D.given_up decider.new) }
{
    let conditions = function.conditions;
    let mut needs = Vec::new(function.alloc);
    for i in (0..conditions.len()).rev() {
        let set = query_set(function.alloc, &conditions[..i], needs.as_slice())?;
        let answer = answered(function, questions, decider, known, asked, set.as_slice())?;
        add_member(&mut needs, conditions[i], answer)?;
    }
    needs.reverse();
    Ok(List::from_vec(needs))
}

// The finding where no map's path run hits the candidate free of all conditions.
fn hit_finding<Q: Questions, D: Decider>(
    function: &JudgedFunction,
    questions: &mut Q,
    decider: &mut D,
    known: &mut Known,
    asked: AskedCandidate,
) -> Result<Finding, NoMemory>
    requires tables { AreTablesOf (view_function function.now.f.now) function.now.tables.now }
    requires about { Q.about questions.old ≡ asked_in function.now.tables.now (view_function function.now.f.now) }
    requires placed { IsPlaced (asked_in function.now.tables.now (view_function function.now.f.now)) asked.position asked.candidate }
    requires known { AreKnown (asked_in function.now.tables.now (view_function function.now.f.now)) known.old.starts.items known.old.table }
    requires none { NoAnswer (asked_subject (asked_in function.now.tables.now (view_function function.now.f.now)) (Q.spent questions.old)) asked.candidate function.now.conditions.now }
    ensures lawful { IfOk result (IsLawful (asked_subject (asked_in function.now.tables.now (view_function function.now.f.now)) (Q.spent questions.old)) asked.candidate) }
    ensures known { OnOk result (AreKnown (asked_in function.now.tables.now (view_function function.now.f.now)) known.new.starts.items known.new.table) }
    ensures marks { IfOk result (λ finding. AreCounted (D.given_up decider.old) (D.given_up decider.new) (marks finding)) }
    ensures later { IsLater (Q.about questions.old) (Q.about questions.new) (Q.spent questions.old) (Q.spent questions.new) (D.given_up decider.old) (D.given_up decider.new) }
{
    match answered(function, questions, decider, known, asked, &[])? {
        QueryAnswer::Never => Ok(Finding::Clear),
        QueryAnswer::GivenUp => Ok(Finding::Undecided { phase: Phase::Hit }),
        QueryAnswer::Start(start) => {
            let needs = needed(function, questions, decider, known, asked)?;
            Ok(Finding::Unstable { start, needs })
        }
    }
}

/// The finding by the queries of the definition: whether a map's path run hits the candidate free of all conditions,
/// whether one hits it at all, and one query a condition.
pub(crate) fn plain<Q: Questions, D: Decider>(
    function: &JudgedFunction,
    questions: &mut Q,
    decider: &mut D,
    known: &mut Known,
    asked: AskedCandidate,
) -> Result<Finding, NoMemory>
    requires tables { AreTablesOf (view_function function.now.f.now) function.now.tables.now }
    requires about { Q.about questions.old ≡ asked_in function.now.tables.now (view_function function.now.f.now) }
    requires placed { IsPlaced (asked_in function.now.tables.now (view_function function.now.f.now)) asked.position asked.candidate }
    requires known { AreKnown (asked_in function.now.tables.now (view_function function.now.f.now)) known.old.starts.items known.old.table }
    ensures lawful { IfOk result (IsLawful (asked_subject (asked_in function.now.tables.now (view_function function.now.f.now)) (Q.spent questions.old)) asked.candidate) }
    ensures known { OnOk result (AreKnown (asked_in function.now.tables.now (view_function function.now.f.now)) known.new.starts.items known.new.table) }
    ensures marks { IfOk result (λ finding. AreCounted (D.given_up decider.old) (D.given_up decider.new) (marks finding)) }
    ensures later { IsLater (Q.about questions.old) (Q.about questions.new) (Q.spent questions.old) (Q.spent questions.new) (D.given_up decider.old) (D.given_up decider.new) }
{
    match answered(
        function,
        questions,
        decider,
        known,
        asked,
        function.conditions,
    )? {
        QueryAnswer::Start(_) => Ok(Finding::Clear),
        QueryAnswer::GivenUp => Ok(Finding::Undecided { phase: Phase::Free }),
        QueryAnswer::Never => hit_finding(function, questions, decider, known, asked),
    }
}

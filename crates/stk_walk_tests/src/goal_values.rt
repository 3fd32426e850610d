//! Goals by the values of their terms, and by what is answered of them.

ghost use Rattle.std.specs.Prelude.{◌≡◌, ◌+◌, ◌<◌, ◌≤◌, ◌^◌, true, length, sum, slice_get, Some, IfOk};
ghost use Rattle.stk_base.specs.Causes.{Rose};
ghost use Rattle.stk_tree.specs.View.{view_function};
ghost use Rattle.stk_meaning.specs.Lists as lists;
ghost use Rattle.stk_terms.specs.Values.{width_at};
ghost use Rattle.stk_terms.specs.Cost.{cost};
ghost use Rattle.stk_rewrite.specs.Normal.{IsNormal};
ghost use Rattle.stk_goal_clauses.specs.Laws.{IsNever};
ghost use Rattle.stk_query.specs.Verdicts.{is_undecided, is_no, IsVerdict};
ghost use Rattle.stk_goals.specs.Searched.{IsSearched};
ghost use Rattle.stk_findings.specs.Asked.{typing_asked, tree_asked};

use crate::asking::Asker;
use crate::comparing::{Outcome, has_number};
use crate::events::is_hit_free;
use crate::runs::{Run, run_under};
use std::alloc::Global;
use stk_base::NoMemory;
use stk_findings::{FunctionGoals, QueryAnswer, SearchedFunction};
use stk_goals::Query;
use stk_query::{Cdcl, Decider, MOST_BUDGET, Verdict};
use stk_terms::{TermId, Terms, input_bits};

/// Looks at the goal that it is asked, whether it is 1 exactly under the maps of the runs that hit the candidate free
/// of the set, and decides it where there are few input bits. Else it has no answer. A goal that was refuted before, or
/// is answered by a local search or by a smaller goal, isn't asked, and so isn't looked at; smaller goals, which are
/// asked with a smaller budget, are decided.
#[derive(Drop)]
struct Looking<'a> {
    runs: &'a [Run],
    query: Query<'a>,
    decider: Cdcl,
    is_right: Option<bool>,
}

// Whether a valid map's run hits a candidate free of a set.
fn is_answer(run: &Run, query: &Query) -> bool {
    run.valid && is_hit_free(query.set, query.candidate, run.trace.as_slice())
}

// How many maps of the runs answer a query.
fn answers_among(runs: &[Run], query: &Query) -> u32 {
    let mut count = 0u32;
    for run in runs {
        if is_answer(run, query) {
            count = count.saturating_add(1);
        }
    }
    count
}

// Whether a goal is 1 exactly under the maps of the runs that answer the query.
fn is_goal_right(
    terms: &Terms,
    goal: TermId,
    runs: &[Run],
    query: &Query,
) -> Result<bool, NoMemory> {
    for run in runs {
        let number = if is_answer(run, query) { 1 } else { 0 };
        if !has_number(terms, goal, &run.residues, number)? {
            return Ok(false);
        }
    }
    Ok(true)
}

impl<'a> Decider for Looking<'a> {
    ghost given_up = { λ c. c.decider };

    fn ask(&mut self, terms: &Terms, goal: TermId, budget: u32) -> Result<Verdict, NoMemory>
        requires exists { goal.0 < length terms.now.terms }
        requires one { width_at terms.now goal.0 ≡ 1 }
        requires least { 1 ≤ budget }
        requires most { budget ≤ MOST_BUDGET }
        requires room { sum terms.now.inputs + cost terms.now goal.0 < 2 ^ 29 }
        requires normal { IsNormal terms.now goal.0 }
        ensures verdict { IfOk result (IsVerdict terms.now goal.0 budget) }
        ensures no { IfOk result (λ v. is_no v ≡ true → IsNever terms.now goal.0) }
        ensures tried { sum terms.now.inputs ≤ 16 → IsNever terms.now goal.0 → IfOk result (λ v. v ≡ Verdict.Tried) }
        ensures rose { IfOk result (λ v. is_undecided v ≡ true → Rose self.old.decider self.new.decider) }
        ensures later { self.old.decider ≤ self.new.decider }
    {
        if budget < MOST_BUDGET {
            return self.decider.ask(terms, goal, budget);
        }
        let is_right = is_goal_right(terms, goal, self.runs, &self.query)?;
        self.is_right = Some(is_right);
        if input_bits(terms) > 16 {
            return Err(NoMemory);
        }
        self.decider.ask(terms, goal, budget)
    }
}

// Whether an answer to a query is right, as far as the runs tell: the map of a start answers it, and where there is no
// start none of the maps of the runs does.
fn is_right_answer(
    alloc: Global,
    searched: &SearchedFunction,
    answer: &QueryAnswer,
    runs: &[Run],
    query: &Query,
) -> Result<bool, NoMemory>
    requires { IsSearched searched.now.tables.now (view_function searched.now.function.now) }
{
    match answer {
        QueryAnswer::Start(inputs) => {
            let run = run_under(alloc, searched, inputs.numbers.as_slice())?;
            Ok(is_answer(&run, query))
        }
        QueryAnswer::Never => Ok(answers_among(runs, query) == 0),
        QueryAnswer::GivenUp => Ok(false),
    }
}

// Whether the goal of a query is right, and what is answered of it, if anything is.
fn is_query_right(
    alloc: Global,
    searched: &SearchedFunction,
    goals: &mut FunctionGoals,
    runs: &[Run],
    query: &Query,
) -> Result<bool, NoMemory>
    requires searched { IsSearched searched.now.tables.now (view_function searched.now.function.now) }
    requires at { slice_get (lists.candidates (typing_asked goals.old) (tree_asked goals.old)) query.now.position ≡ Some query.now.candidate }
    ensures same { goals.new ≡ goals.old }
{
    let mut looking = Looking {
        runs,
        query: *query,
        decider: Cdcl::new(alloc),
        is_right: None,
    };
    match goals.ask(&mut looking, query, MOST_BUDGET) {
        Ok(answer) => {
            let right = is_right_answer(alloc, searched, &answer, runs, query)?;
            Ok(right && !matches!(looking.is_right, Some(false)))
        }
        Err(NoMemory) => Ok(matches!(looking.is_right, Some(true))),
    }
}

/// Counts the goals that it is handed.
#[derive(Drop)]
pub(crate) struct Counting<'a> {
    pub(crate) runs: &'a [Run],
    pub(crate) outcome: Outcome,
}

impl<'a> Asker for Counting<'a> {
    fn ask(
        &mut self,
        alloc: Global,
        searched: &SearchedFunction,
        goals: &mut FunctionGoals,
        query: &Query,
    ) -> Result<(), NoMemory> {
        let right = is_query_right(alloc, searched, goals, self.runs, query)?;
        let answers = answers_among(self.runs, query);
        self.outcome = self.outcome.with_goal(right, answers);
        Ok(())
    }
}

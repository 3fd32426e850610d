//! Findings by queries.

ghost use Rattle.std.specs.Prelude.{◌≡◌, ◌≤◌, ◌<◌, true, IfOk, OnOk};
ghost use Rattle.stk_tree.specs.View.{view_function};
ghost use Rattle.stk_meaning.specs.Keys.{input_bits};
ghost use Rattle.stk_meaning.specs.Findings.{IsLawful};
ghost use Rattle.stk_wide_judge.specs.Wide.{asked_subject, IsPlaced};
ghost use Rattle.stk_spent_queries.specs.Marks.{marks, AreCounted};
ghost use Rattle.stk_findings.specs.Searched.{IsSearchable, about_searched, spent_searched};
ghost use Rattle.stk_findings.specs.Telling.{CanAsk, CanTellByQueries};

use crate::questions::FunctionQuestions;
use crate::{FunctionGoals, Judge, SearchedFunction};
use std::alloc::Global;
use stk_base::NoMemory;
use stk_meaning::Finding;
use stk_numbers::Candidate;
use stk_query::Decider;
use stk_wide_judge::{AskedCandidate, JudgedFunction, Known, judge_candidate};

// After so many questions that were left to the decider, no candidate is seen to be clear.
const MOST_LEFT: u32 = 4;

/// A function whose findings are told by the path runs of known starts, and where these don't tell, by queries that are
/// asked of a decider, each within the budget.
#[derive(Drop)]
pub struct Queries<'a> {
    alloc: Global,
    questions: FunctionQuestions<'a>,
    known: Known,
}

// Who answers the queries of a function.
fn questions_of<'a>(
    alloc: Global,
    searched: &SearchedFunction<'a>,
) -> Result<FunctionQuestions<'a>, NoMemory>
    requires { IsSearchable searched.now }
    ensures tables { IfOk result (λ q. q.goals.tables ≡ searched.now.tables.now) }
    ensures function { IfOk result (λ q. q.goals.function ≡ searched.now.function.now) }
    ensures budget { IfOk result (λ q. q.budget ≡ searched.now.budget) }
{
    let goals = FunctionGoals::new(
        alloc,
        searched.tables,
        searched.function,
        searched.candidates,
    )?;
    Ok(FunctionQuestions::new(goals, searched.budget))
}

impl<'a> Queries<'a> {
    /// Walks a function of any number of input bits, and runs the first starts.
    pub(crate) fn begun(
        alloc: Global,
        searched: &SearchedFunction<'a>,
    ) -> Result<Queries<'a>, NoMemory>
        requires { IsSearchable searched.now }
        ensures { IfOk result (λ queries. CanAsk queries searched.now) }
    {
        let questions = questions_of(alloc, searched)?;
        let function = JudgedFunction::new(
            alloc,
            searched.tables,
            searched.function,
            searched.conditions,
        );
        let known = Known::begin(&function)?;
        Ok(Queries {
            alloc,
            questions,
            known,
        })
    }

    /// Walks a function of over 16 input bits, and runs the first starts.
    pub fn new(alloc: Global, searched: &SearchedFunction<'a>) -> Result<Queries<'a>, NoMemory>
        requires known { IsSearchable searched.now }
        requires wide { 16 < input_bits searched.now.tables.now.places.keys }
        ensures { IfOk result (λ queries. CanTellByQueries queries searched.now) }
    {
        Queries::begun(alloc, searched)
    }

    /// Where memory comes from.
    pub(crate) fn alloc(&self) -> Global {
        self.alloc
    }

    /// The finding of a candidate that is lawful where not all input maps are tried.
    pub(crate) fn asked_finding<D: Decider>(
        &mut self,
        searched: &SearchedFunction,
        decider: &mut D,
        position: u32,
        candidate: Candidate,
    ) -> Result<Finding, NoMemory>
        requires ready { CanAsk self.old searched.now }
        requires placed { IsPlaced (about_searched searched.now) position candidate }
        ensures lawful { IfOk result (IsLawful (asked_subject (about_searched searched.now) (spent_searched searched.now)) candidate) }
        ensures counted { IfOk result (λ finding. AreCounted (D.given_up decider.old) (D.given_up decider.new) (marks finding)) }
        ensures ready { OnOk result (CanAsk self.new searched.now) }
        ensures later { D.given_up decider.old ≤ D.given_up decider.new }
    {
        let function = JudgedFunction::new(
            self.alloc,
            searched.tables,
            searched.function,
            searched.conditions,
        );
        let asked = AskedCandidate {
            position,
            candidate,
        };
        judge_candidate(
            &function,
            &mut self.questions,
            decider,
            &mut self.known,
            asked,
        )
    }

    /// Whether a candidate is seen to be clear. Once some questions were left to the decider, no more are asked.
    pub(crate) fn is_clear<D: Decider>(
        &mut self,
        searched: &SearchedFunction,
        decider: &mut D,
        position: u32,
        candidate: Candidate,
    ) -> Result<bool, NoMemory>
        requires ready { CanAsk self.old searched.now }
        requires placed { IsPlaced (about_searched searched.now) position candidate }
        ensures clear { IfOk result (λ b. b ≡ true → IsLawful (asked_subject (about_searched searched.now) (spent_searched searched.now)) candidate Finding.Clear) }
        ensures ready { OnOk result (CanAsk self.new searched.now) }
        ensures later { D.given_up decider.old ≤ D.given_up decider.new }
    {
        if self.questions.left() >= MOST_LEFT {
            return Ok(false);
        }
        let finding = self.asked_finding(searched, decider, position, candidate)?;
        match &finding {
            Finding::Clear => Ok(true),
            Finding::Unstable { .. } | Finding::Undecided { .. } => Ok(false),
        }
    }
}

/// Findings of a function of over 16 input bits.
impl<'a> Judge for Queries<'a> {
    ghost use Rattle.stk_findings.specs.Telling.{CanTellByQueries};

    ghost ready = { λ queries s. CanTellByQueries queries s };

    fn finding<D: Decider>(
        &mut self,
        searched: &SearchedFunction,
        decider: &mut D,
        position: u32,
        candidate: Candidate,
    ) -> Result<Finding, NoMemory> {
        self.asked_finding(searched, decider, position, candidate)
    }
}

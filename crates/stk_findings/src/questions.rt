//! Who answers the queries of a function: its goals, each asked of a decider within a budget.

ghost use Rattle.std.specs.Prelude.{◌≡◌, ◌≤◌};

use crate::FunctionGoals;
use stk_base::NoMemory;
use stk_goals::Query;
use stk_numbers::{Candidate, Condition};
use stk_query::Decider;
use stk_wide_judge::{QueryAnswer, Questions};

/// The goals of a function, and the budget of each query: how many clauses a search may learn, from 1 to 200,000.
#[derive(Drop)]
pub(crate) struct FunctionQuestions<'a> {
    goals: FunctionGoals<'a>,
    budget: u32,
    ghost least: { 1 ≤ budget },
    ghost most: { budget ≤ 200000 },
}

impl<'a> FunctionQuestions<'a> {
    /// These goals, asked within this budget.
    pub(crate) fn new(goals: FunctionGoals<'a>, budget: u32) -> FunctionQuestions<'a>
        requires least { 1 ≤ budget }
        requires most { budget ≤ 200000 }
        ensures goals { result.goals ≡ goals.entry }
        ensures budget { result.budget ≡ budget }
    {
        FunctionQuestions { goals, budget }
    }

    /// How many questions were left to a decider, after what is quicker didn't answer them.
    pub(crate) fn left(&self) -> u32 {
        self.goals.left()
    }
}

impl<'a> Questions for FunctionQuestions<'a> {
    ghost use Rattle.stk_tree.specs.View.{view_function};
    ghost use Rattle.stk_spent_queries.specs.Spent.{spent_at};
    ghost use Rattle.stk_findings.specs.Asked.{typing_asked, without_asked, tree_asked};
    ghost use Rattle.stk_wide_judge.specs.Wide.{asked_in};

    ghost about = { λ s. asked_in s.goals.tables (view_function s.goals.function) };

    ghost spent = { λ s. spent_at (typing_asked s.goals) (without_asked s.goals) (tree_asked s.goals) s.budget };

    fn ask<D: Decider>(
        &mut self,
        decider: &mut D,
        position: u32,
        candidate: Candidate,
        set: &[Condition],
    ) -> Result<QueryAnswer, NoMemory> {
        let query = Query {
            position,
            candidate,
            set,
        };
        let answer = self.goals.ask(decider, &query, self.budget)?;
        Ok(answer)
    }
}

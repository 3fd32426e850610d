//! Who tells the findings of a function's candidates.

ghost use Rattle.std.specs.Prelude.{◌≡◌, ◌≤◌, nat_le, IfOk, OnOk};
ghost use Rattle.stk_meaning.specs.Keys.{input_bits};
ghost use Rattle.stk_meaning.specs.PathFindings.{most_bits};
ghost use Rattle.stk_meaning.specs.Findings.{IsLawful};
ghost use Rattle.stk_wide_judge.specs.Wide.{IsPlaced};
ghost use Rattle.stk_spent_queries.specs.Marks.{marks, AreCounted};
ghost use Rattle.stk_findings.specs.declared.judge.SearchedFunction.{SearchedFunction as Searched};
ghost use Rattle.stk_findings.specs.Searched.{about_searched, subject_searched};

use stk_base::NoMemory;
use stk_goals::{FunctionTables, input_bits};
use stk_meaning::Finding;
use stk_numbers::{Candidate, Condition};
use stk_query::Decider;
use stk_tree::Function;

// The most input bits of a function whose input maps are all tried.
const MOST_BITS: u128 = 16;

/// A function whose findings are searched for, with at most 8,000,000 of weight: the tables of its path runs, itself,
/// its candidates in order, its conditions in ascending order, and the budget of each query: how many clauses a search
/// may learn, from 1 to 200,000.
#[derive(Clone, Copy)]
pub struct SearchedFunction<'a> {
    pub tables: &'a FunctionTables<'a>,
    pub function: &'a Function,
    pub candidates: &'a [Candidate],
    pub conditions: &'a [Condition],
    pub budget: u32,
}

impl<'a> SearchedFunction<'a> {
    /// Whether all input maps of the function are to be tried: it has at most 16 input bits.
    pub fn is_narrow(&self) -> bool
        ensures { result ≡ nat_le (input_bits self.now.tables.now.places.keys) most_bits }
    {
        input_bits(self.tables.setting().keys()) <= MOST_BITS
    }
}

/// Who tells the findings of a function's candidates, one at a time.
pub trait Judge {
    /// Whether findings of a function can be told.
    ghost ready: { Self → Searched → Type 0 };

    /// The lawful finding of a candidate, which stands at this place of the function's list of candidates (Wang,
    /// Zeldovich, Kaashoek, Solar-Lezama, SOSP 2013, sections 3 and 4). What is undecided or open is told by the count
    /// of goals that the decider gave up. The only refusal is want of memory, after which no finding can be told.
    fn finding<D: Decider>(
        &mut self,
        searched: &SearchedFunction,
        decider: &mut D,
        position: u32,
        candidate: Candidate,
    ) -> Result<Finding, NoMemory>
        requires ready { ready self.old searched.now }
        requires placed { IsPlaced (about_searched searched.now) position candidate }
        ensures lawful { IfOk result (IsLawful (subject_searched searched.now) candidate) }
        ensures counted { IfOk result (λ finding. AreCounted (D.given_up decider.old) (D.given_up decider.new) (marks finding)) }
        ensures ready { OnOk result (ready self.new searched.now) }
        ensures later { D.given_up decider.old ≤ D.given_up decider.new };
}

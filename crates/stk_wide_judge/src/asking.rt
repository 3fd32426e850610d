//! Who answers the queries of a function.

ghost use Rattle.std.specs.Prelude.{List, IfOk};
ghost use Rattle.stk_numbers.specs.declared.conditions.Candidate.{Candidate as Asked};
ghost use Rattle.stk_numbers.specs.declared.conditions.Condition.{Condition as Violated};
ghost use Rattle.stk_wide_judge.specs.Wide.{AskedFunction, asked_subject, IsPlaced};
ghost use Rattle.stk_wide_judge.specs.Answers.{IsAnswer, IsCounted, IsLater};

use stk_base::NoMemory;
use stk_numbers::{Candidate, Condition, Inputs};
use stk_query::Decider;

/// The answer to a query: whether some valid input map's path run hits a candidate where no condition of a set has been
/// violated before.
#[derive(Debug, Drop)]
pub enum QueryAnswer {
    /// That of this map does.
    Start(Inputs),
    /// No map's does.
    Never,
    /// The query was given up.
    GivenUp,
}

/// Who answers the queries of a function.
pub trait Questions {
    /// The function.
    ghost about: { Self → AskedFunction };

    /// For which candidates and sets a query may be given up, by what was spent on it.
    ghost spent: { Self → Asked → List Violated → Type 0 };

    /// Whether some valid input map's path run hits the candidate, which stands at this place of the function's list
    /// of candidates, where no condition of the set has been violated before (SOSP 2013 paper "Towards
    /// Optimization-Safe Systems", section 3). `GivenUp` comes only where the query, for just this list of conditions,
    /// was spent, and the decider counted it. `NoMemory` says nothing of the query.
    fn ask<D: Decider>(
        &mut self,
        decider: &mut D,
        position: u32,
        candidate: Candidate,
        set: &[Condition],
    ) -> Result<QueryAnswer, NoMemory>
        requires { IsPlaced (about self.old) position candidate }
        ensures answer { IfOk result (IsAnswer (asked_subject (about self.old) (spent self.old)) candidate set.now) }
        ensures counted { IfOk result (IsCounted (D.given_up decider.old) (D.given_up decider.new)) }
        ensures later { IsLater (about self.old) (about self.new) (spent self.old) (spent self.new) (D.given_up decider.old) (D.given_up decider.new) };
}

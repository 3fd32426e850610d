// Who decides goals.
ghost use Rattle.std.specs.Prelude.{◌≡◌, ℕ, ◌+◌, ◌<◌, ◌≤◌, ◌^◌, true, length, sum, IfOk};
ghost use Rattle.stk_base.specs.Causes.{Rose};
ghost use Rattle.stk_terms.specs.Values.{width_at};
ghost use Rattle.stk_terms.specs.Cost.{cost};
ghost use Rattle.stk_rewrite.specs.Normal.{IsNormal};
ghost use Rattle.stk_goal_clauses.specs.Laws.{IsNever};
ghost use Rattle.stk_query.specs.Verdicts.{is_undecided, is_no, IsVerdict};

use crate::Verdict;
use stk_base::NoMemory;
use stk_terms::{TermId, Terms};

/// The largest budget: how many clauses a search may learn.
pub const MOST_BUDGET: u32 = 200_000;

/// Decides goals. A contract sees how many it gave up.
pub trait Decider {
    /// How many goals were given up, a number that doesn't fall. A decider that counts in a u64 stays at its last
    /// value.
    ghost given_up: { Self → ℕ };

    /// Whether some inputs of the terms make the goal 1, a term of width 1 of which no part is the left side of a
    /// rewriting rule. The bits of the inputs and the goal's cost are together below 2^29. The budget is how many
    /// clauses a search may learn, from 1 to `MOST_BUDGET`.
    ///
    /// `Satisfied` has inputs that make the goal 1; where they have at most 16 bits together, they are the first that
    /// do. `Tried` comes exactly where the inputs have at most 16 bits and none make the goal 1. With more bits,
    /// `Refuted` has clauses that stand for the goal, with no more variables than input bits and cost, and a derivation
    /// of at most `budget` + 1 steps that a checker accepts, so no inputs make the goal 1; and `Undecided` comes only
    /// where a goal was counted as given up, with such clauses and a spent log of exactly this budget. `NoMemory` says
    /// nothing of the goal.
    fn ask(&mut self, terms: &Terms, goal: TermId, budget: u32) -> Result<Verdict, NoMemory>
        requires exists { goal.0 < length terms.now.terms }
        requires one { width_at terms.now goal.0 ≡ 1 }
        requires least { 1 ≤ budget }
        requires most { budget ≤ MOST_BUDGET }
        requires room { sum terms.now.inputs + cost terms.now goal.0 < 2 ^ 29 }
        requires normal { IsNormal terms.now goal.0 }
        ensures verdict { IfOk result (IsVerdict terms.now goal.0 budget) }
        ensures no { IfOk result (λ v. is_no v ≡ true → IsNever terms.now goal.0) }
        ensures tried { sum terms.now.inputs ≤ 16 → IsNever terms.now goal.0 → IfOk result (λ v. v ≡ Verdict.Tried) }
        ensures rose { IfOk result (λ v. is_undecided v ≡ true → Rose (given_up self.old) (given_up self.new)) }
        ensures later { given_up self.old ≤ given_up self.new };
}

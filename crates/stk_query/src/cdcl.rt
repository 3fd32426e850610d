// The program's decider.
ghost use Rattle.std.specs.Prelude.{◌≡◌, ◌+◌, ◌<◌, ◌≤◌, ◌^◌, true, length, sum, IfOk, OnErr, if◌then◌else◌};
ghost use Rattle.stk_base.specs.Causes.{Rose};
ghost use Rattle.stk_terms.specs.Values.{width_at};
ghost use Rattle.stk_terms.specs.Cost.{cost};
ghost use Rattle.stk_rewrite.specs.Normal.{IsNormal};
ghost use Rattle.stk_goal_clauses.specs.Laws.{IsNever};
ghost use Rattle.stk_query.specs.Verdicts.{is_undecided, is_no, IsVerdict, one_more};

use crate::enumerate::{are_few, tried};
use crate::searching::{is_refuted, searched};
use crate::spent::{SpentSearch, log_of};
use crate::{Decider, MOST_BUDGET, Verdict};
use std::alloc::Global;
use std::marker::Model;
use stk_base::NoMemory;
use stk_goal_clauses::clauses_for;
use stk_terms::{TermId, Terms};

/// A decider that tries all inputs of at most 16 bits, unless a short search shows that none will do, and else searches
/// by learning from conflicts. Contracts see it as how many goals it gave up, which stops at the last value of a u64.
///
/// It remembers the last search that spent its budget, since candidates often come in pairs with one goal.
#[derive(Drop)]
pub struct Cdcl {
    alloc: Global,
    given_up: u64,
    last: Option<SpentSearch>,
}

impl Model for Cdcl {
    ghost use Rattle.std.specs.Prelude.{ℕ, IfSome};
    ghost use Rattle.stk_query.specs.Spent.{IsSpent};

    ghost Value = { ℕ };

    ghost view = { λ c. c.given_up };

    ghost invariant = { λ c. IfSome c.last IsSpent };
}

impl Cdcl {
    /// A decider that has given nothing up. It takes no memory; what it asks for takes its from `alloc`.
    pub fn new(alloc: Global) -> Cdcl
        ensures { result ≡ 0 }
    {
        Cdcl {
            alloc,
            given_up: 0,
            last: None,
        }
    }

    /// How many goals were given up, up to the last value of a u64.
    pub fn given_up(&self) -> u64
        ensures { result ≡ self.now }
    {
        self.given_up
    }

    // The verdict on a goal whose inputs have more than 16 bits. Clauses that are those of the last search which spent
    // this budget aren't searched again: they have the same log. What can't be remembered for want of memory isn't.
    fn verdict_on(&mut self, terms: &Terms, goal: TermId, budget: u32) -> Result<Verdict, NoMemory>
        requires exists { goal.0 < length terms.now.terms }
        requires one { width_at terms.now goal.0 ≡ 1 }
        requires most { budget ≤ MOST_BUDGET }
        requires room { sum terms.now.inputs + cost terms.now goal.0 < 2 ^ 29 }
        requires wide { 16 < sum terms.now.inputs }
        ensures verdict { IfOk result (IsVerdict terms.now goal.0 budget) }
        ensures kept { self.new ≡ self.old }
    {
        let cnf = clauses_for(self.alloc, terms, goal)?;
        if let Some(log) = log_of(self.alloc, &self.last, &cnf, budget)? {
            return Ok(Verdict::Undecided(cnf, log));
        }
        let verdict = searched(self.alloc, terms, goal, cnf, budget)?;
        if let Verdict::Undecided(cnf, log) = &verdict {
            self.last = SpentSearch::new(self.alloc, cnf, budget, log).ok();
        }
        Ok(verdict)
    }
}

impl Decider for Cdcl {
    ghost given_up = { λ c. c };

    /// As `Decider::ask` says. The count rises by one at each `Undecided`, up to the last value of a u64, and stays at
    /// any other answer.
    fn ask(&mut self, terms: &Terms, goal: TermId, budget: u32) -> Result<Verdict, NoMemory>
        requires exists { goal.0 < length terms.now.terms }
        requires one { width_at terms.now goal.0 ≡ 1 }
        requires least { 1 ≤ budget }
        requires most { budget ≤ MOST_BUDGET }
        requires room { sum terms.now.inputs + cost terms.now goal.0 < 2 ^ 29 }
        requires normal { IsNormal terms.now goal.0 }
        ensures verdict { IfOk result (IsVerdict terms.now goal.0 budget) }
        ensures no { IfOk result (λ v. is_no v ≡ true → IsNever terms.now goal.0) }
        ensures tried { sum terms.now.inputs ≤ 16 → IsNever terms.now goal.0 → IfOk result (λ v. v ≡ Verdict.Tried) }
        ensures rose { IfOk result (λ v. is_undecided v ≡ true → Rose self.old self.new) }
        ensures later { self.old ≤ self.new }
        ensures counts { IfOk result (λ v. self.new ≡ (if is_undecided v then one_more self.old else self.old)) }
        ensures kept { OnErr result (self.new ≡ self.old) }
    {
        if are_few(terms) {
            if is_refuted(self.alloc, terms, goal, budget)? {
                return Ok(Verdict::Tried);
            }
            let verdict = tried(self.alloc, terms, goal)?;
            return Ok(verdict);
        }
        let verdict = self.verdict_on(terms, goal, budget)?;
        if let Verdict::Undecided(..) = &verdict {
            self.given_up = self.given_up.saturating_add(1);
        }
        Ok(verdict)
    }
}

//! How much the goals of one function add to its store of terms.

ghost use Rattle.std.specs.Prelude.{◌≡◌, ◌+◌, ◌<◌, ◌≤◌, ◌^◌, true, length, sum, slice_get, Some, IfOk};
ghost use Rattle.stk_base.specs.Causes.{Rose};
ghost use Rattle.stk_tree.specs.View.{view_function};
ghost use Rattle.stk_meaning.specs.Lists as lists;
ghost use Rattle.stk_function_types.specs.Nodes.{typing_in};
ghost use Rattle.stk_terms.specs.Values.{width_at};
ghost use Rattle.stk_terms.specs.Cost.{cost};
ghost use Rattle.stk_rewrite.specs.Normal.{IsNormal};
ghost use Rattle.stk_goal_clauses.specs.Laws.{IsNever};
ghost use Rattle.stk_query.specs.Verdicts.{is_undecided, is_no, IsVerdict};
ghost use Rattle.stk_goals.specs.Searched.{IsSearched};
ghost use Rattle.stk_findings.specs.Asked.{typing_asked, tree_asked};

use crate::asking::{Asker, ask_all};
use crate::functions::{Visitor, visit_functions};
use crate::large::repeated;
use std::alloc::Global;
use std::process::Abort;
use std::test::Fail;
use stk_base::NoMemory;
use stk_findings::{FunctionGoals, SearchedFunction};
use stk_goals::Query;
use stk_query::{Cdcl, Decider, MOST_BUDGET, Verdict};
use stk_terms::{TermId, Terms};

/// How many terms there are at each whole goal, none of which is answered. A smaller goal, which is asked with a smaller
/// budget, is decided.
#[derive(Drop)]
struct Sizes {
    decider: Cdcl,
    terms: Vec<usize>,
}

impl Decider for Sizes {
    ghost given_up = { λ c. c.decider };

    fn ask(&mut self, terms: &Terms, goal: TermId, budget: u32) -> Result<Verdict, NoMemory>
        requires exists { goal.0 < length terms.now.terms }
        requires one { width_at terms.now goal.0 ≡ 1 }
        requires least { 1 ≤ budget }
        requires most { budget ≤ MOST_BUDGET }
        requires room { sum terms.now.inputs + cost terms.now goal.0 < 2 ^ 29 }
        requires normal { IsNormal terms.now goal.0 }
        ensures verdict { IfOk result (IsVerdict terms.now goal.0 budget) }
        ensures no { IfOk result (λ v. is_no v ≡ true → IsNever terms.now goal.0) }
        ensures tried { sum terms.now.inputs ≤ 16 → IsNever terms.now goal.0 → IfOk result (λ v. v ≡ Verdict.Tried) }
        ensures rose { IfOk result (λ v. is_undecided v ≡ true → Rose self.old.decider self.new.decider) }
        ensures later { self.old.decider ≤ self.new.decider }
    {
        if budget < MOST_BUDGET {
            return self.decider.ask(terms, goal, budget);
        }
        self.terms.push(terms.count())?;
        Err(NoMemory)
    }
}

/// Keeps the sizes of the store at the goals whose set has all conditions.
#[derive(Drop)]
struct Growing {
    sizes: Sizes,
}

impl Asker for Growing {
    fn ask(
        &mut self,
        _alloc: Global,
        _searched: &SearchedFunction,
        goals: &mut FunctionGoals,
        query: &Query,
    ) -> Result<(), NoMemory>
        requires searched { IsSearched _searched.now.tables.now (view_function _searched.now.function.now) }
        requires at { slice_get (lists.candidates (typing_asked goals.old) (tree_asked goals.old)) query.now.position ≡ Some query.now.candidate }
        ensures same { goals.new ≡ goals.old }
    {
        if query.set.is_empty() {
            return Ok(());
        }
        match goals.ask(&mut self.sizes, query, MOST_BUDGET) {
            Ok(_) | Err(NoMemory) => Ok(()),
        }
    }
}

impl Visitor for Growing {
    fn visit(&mut self, alloc: Global, searched: &SearchedFunction) -> Result<(), NoMemory>
        requires searched { IsSearched searched.now.tables.now (view_function searched.now.function.now) }
        requires candidates { searched.now.candidates.now ≡ lists.candidates (typing_in searched.now.tables.now.places.types) (view_function searched.now.function.now) }
    {
        ask_all(alloc, searched, self)
    }
}

// The most terms that a goal adds behind the one before it.
fn most_added(terms: &[usize]) -> usize {
    let mut most = 0;
    let mut before = None;
    for count in terms {
        if let Some(one) = before {
            most = most.max(count.saturating_sub(one));
        }
        before = Some(*count);
    }
    most
}

// A goal joins what may be violated in the order of the walk, so that it shares with the goal before it all but what
// lies between their candidates: each adds a handful of terms, though 40 conditions come before the last. A few of the
// 120 goals are answered without the decider.
#[test]
fn goals_share_what_comes_before(rt: HostRuntime) -> Result<(), Fail> {
    let text = repeated(
        rt.alloc(),
        "int f(int x, int y) { int z = 0;\n",
        "z = z ^ (x + (y ^ z)); if (z == x) return 1;\n",
        40,
        "return z; }",
    )?;
    let mut growing = Growing {
        sizes: Sizes {
            decider: Cdcl::new(rt.alloc()),
            terms: Vec::new(rt.alloc()),
        },
    };
    visit_functions(rt.alloc(), text.as_slice(), &mut growing)?;
    let terms = growing.sizes.terms.as_slice();
    assert!(rt; terms.len() > 100, "{}", terms.len());
    let most = most_added(terms);
    assert!(rt; most > 0 && most < 40, "{most}");
    Ok(())
}

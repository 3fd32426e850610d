//! What is asked of the goals of a function, and what is answered.

ghost use Rattle.std.specs.Prelude.{◌≡◌, ◌+◌, ◌<◌, ◌≤◌, ◌^◌, ℕ, true, false, List, length, map, sum, IfOk};
ghost use Rattle.std.specs.Bool.{OnTrue};
ghost use Rattle.std.specs.List.{Contains};
ghost use Rattle.stk_base.specs.Causes.{Rose};
ghost use Rattle.stk_tree.specs.Syntax.{FunctionTree};
ghost use Rattle.stk_numbers.specs.Kinds.{width_of};
ghost use Rattle.stk_numbers.specs.declared.conditions.Candidate.{Candidate};
ghost use Rattle.stk_numbers.specs.declared.conditions.Condition.{Condition};
ghost use Rattle.stk_numbers.specs.declared.conditions.Kinds.{Kinds};
ghost use Rattle.stk_meaning.specs.Typings.{Typing};
ghost use Rattle.stk_terms.specs.Values.{width_at};
ghost use Rattle.stk_terms.specs.Cost.{cost};
ghost use Rattle.stk_rewrite.specs.Normal.{IsNormal};
ghost use Rattle.stk_goal_clauses.specs.Laws.{MakesOne, IsNever};
ghost use Rattle.stk_goals.specs.Queries.{key_kinds, IsGoalOf};
ghost use Rattle.stk_findings.specs.Asked.{AreNever};
ghost use Rattle.stk_findings.specs.Answers.{is_given_up, is_never, IsRightAnswer};

use crate::numbers::inputs_of;
use std::alloc::Global;
use stk_base::NoMemory;
use stk_cuts::cut_goal;
use stk_local_search::likely_residues;
use stk_numbers::IntKind;
use stk_query::{Decider, MOST_BUDGET, Verdict};
use stk_terms::{Residues, TermId, Terms};
use stk_wide_judge::QueryAnswer;

/// A goal: a term, the store in which it is, and the kinds of the keys that the inputs of the store are.
#[derive(Clone, Copy)]
pub(crate) struct Goal<'a> {
    pub(crate) term: TermId,
    pub(crate) terms: &'a Terms,
    pub(crate) kinds: &'a [IntKind],
}

// The answer to a query whose goal these residues make 1.
fn started(alloc: Global, goal: &Goal, residues: &Residues) -> Result<QueryAnswer, NoMemory>
    requires inputs { goal.now.terms.now.inputs ≡ map width_of goal.now.kinds.now }
    requires makes { MakesOne goal.now.terms.now goal.now.term.0 residues.now.numbers }
    ensures right { (budget : ℕ) (ty : Typing) (without : Kinds) (f : FunctionTree) (c : Candidate) (set : List Condition) → goal.now.kinds.now ≡ key_kinds ty without f → IsGoalOf ty without f c set goal.now.terms.now goal.now.term.0 → IfOk result (IsRightAnswer ty without f c set budget) }
    ensures never { IfOk result (λ a. is_never a ≡ false) }
    ensures given_up { IfOk result (λ a. is_given_up a ≡ false) }
{
    let inputs = inputs_of(alloc, goal.kinds, residues.numbers.as_slice())?;
    Ok(QueryAnswer::Start(inputs))
}

// The answer to a query whose goal this is, by a decider.
fn decided<D: Decider>(
    alloc: Global,
    goal: &Goal,
    decider: &mut D,
    budget: u32,
) -> Result<QueryAnswer, NoMemory>
    requires exists { goal.now.term.0 < length goal.now.terms.now.terms }
    requires one { width_at goal.now.terms.now goal.now.term.0 ≡ 1 }
    requires least { 1 ≤ budget }
    requires most { budget ≤ MOST_BUDGET }
    requires room { sum goal.now.terms.now.inputs + cost goal.now.terms.now goal.now.term.0 < 2 ^ 29 }
    requires normal { IsNormal goal.now.terms.now goal.now.term.0 }
    requires inputs { goal.now.terms.now.inputs ≡ map width_of goal.now.kinds.now }
    ensures right { (ty : Typing) (without : Kinds) (f : FunctionTree) (c : Candidate) (set : List Condition) → goal.now.kinds.now ≡ key_kinds ty without f → IsGoalOf ty without f c set goal.now.terms.now goal.now.term.0 → IfOk result (IsRightAnswer ty without f c set budget) }
    ensures never { IfOk result (λ a. is_never a ≡ true → IsNever goal.now.terms.now goal.now.term.0) }
    ensures rose { IfOk result (λ a. is_given_up a ≡ true → Rose (D.given_up decider.old) (D.given_up decider.new)) }
    ensures later { D.given_up decider.old ≤ D.given_up decider.new }
{
    let verdict = decider.ask(goal.terms, goal.term, budget)?;
    match verdict {
        Verdict::Satisfied(residues) => { started(alloc, goal, &residues) }
        Verdict::Tried | Verdict::Refuted(_, _) => Ok(QueryAnswer::Never),
        Verdict::Undecided(_, _) => Ok(QueryAnswer::GivenUp),
    }
}

// Whether an answer says that no map answers the query.
fn is_never(answer: &QueryAnswer) -> bool
    ensures { result ≡ is_never answer.now }
{
    matches!(answer, QueryAnswer::Never)
}

// Whether a place is among these.
fn is_among(places: &[usize], place: usize) -> bool
    ensures { OnTrue result (Contains places.now place) }
{
    places.contains(&place)
}

/// What is remembered of the questions of a function: the places of goals that no inputs make 1, how many cut goals in a
/// row didn't tell, and how many goals were left to the decider itself.
#[derive(Drop)]
pub(crate) struct Asked {
    pub(crate) nevers: Vec<usize>,
    pub(crate) misses: u32,
    pub(crate) left: u32,
}

/// How many clauses a search may learn for a cut goal.
const CUT_BUDGET: u32 = 500;

/// How many terms of a goal a cut goal has.
const MOST_TERMS: usize = 32;

/// After so many cut goals in a row that didn't tell, no more are asked for a function.
const MOST_MISSES: u32 = 3;

// Whether no inputs make a goal 1 since none make its cut goal 1. Where they may, nothing is said.
fn is_never_cut<D: Decider>(
    alloc: Global,
    goal: &Goal,
    misses: &mut u32,
    decider: &mut D,
    budget: u32,
) -> Result<bool, NoMemory>
    requires exists { goal.now.term.0 < length goal.now.terms.now.terms }
    requires one { width_at goal.now.terms.now goal.now.term.0 ≡ 1 }
    requires least { 1 ≤ budget }
    requires most { budget ≤ MOST_BUDGET }
    ensures never { IfOk result (λ b. b ≡ true → IsNever goal.now.terms.now goal.now.term.0) }
    ensures later { D.given_up decider.old ≤ D.given_up decider.new }
{
    if *misses >= MOST_MISSES {
        return Ok(false);
    }
    let Some(cut) = cut_goal(alloc, goal.terms, goal.term, MOST_TERMS)? else {
        return Ok(false);
    };
    let verdict = decider.ask(cut.terms.terms(), cut.term, budget.min(CUT_BUDGET))?;
    let is_never = matches!(verdict, Verdict::Tried | Verdict::Refuted(_, _));
    *misses = if is_never { 0 } else { *misses + 1 };
    Ok(is_never)
}

/// The answer to a query whose goal this is: by a local search for inputs that make it 1, then by a smaller goal that is
/// never 1 unless this one may be, and at last by the decider itself. Goals that no inputs make 1 are remembered by their
/// places, and a query whose goal is one of them isn't asked again.
pub(crate) fn answered<D: Decider>(
    alloc: Global,
    goal: &Goal,
    asked: &mut Asked,
    decider: &mut D,
    budget: u32,
) -> Result<QueryAnswer, NoMemory>
    requires exists { goal.now.term.0 < length goal.now.terms.now.terms }
    requires one { width_at goal.now.terms.now goal.now.term.0 ≡ 1 }
    requires least { 1 ≤ budget }
    requires most { budget ≤ MOST_BUDGET }
    requires room { sum goal.now.terms.now.inputs + cost goal.now.terms.now goal.now.term.0 < 2 ^ 29 }
    requires normal { IsNormal goal.now.terms.now goal.now.term.0 }
    requires inputs { goal.now.terms.now.inputs ≡ map width_of goal.now.kinds.now }
    requires never { AreNever goal.now.terms.now asked.old.nevers.items }
    ensures right { (ty : Typing) (without : Kinds) (f : FunctionTree) (c : Candidate) (set : List Condition) → goal.now.kinds.now ≡ key_kinds ty without f → IsGoalOf ty without f c set goal.now.terms.now goal.now.term.0 → IfOk result (IsRightAnswer ty without f c set budget) }
    ensures rose { IfOk result (λ a. is_given_up a ≡ true → Rose (D.given_up decider.old) (D.given_up decider.new)) }
    ensures later { D.given_up decider.old ≤ D.given_up decider.new }
    ensures never { AreNever goal.now.terms.now asked.new.nevers.items }
{
    let place = goal.term.0;
    if is_among(asked.nevers.as_slice(), place) {
        return Ok(QueryAnswer::Never);
    }
    if let Some(residues) = likely_residues(alloc, goal.terms, goal.term)? {
        return started(alloc, goal, &residues);
    }
    if is_never_cut(alloc, goal, &mut asked.misses, decider, budget)? {
        asked.nevers.push(place)?;
        return Ok(QueryAnswer::Never);
    }
    asked.left = asked.left.saturating_add(1);
    let answer = decided(alloc, goal, decider, budget)?;
    if is_never(&answer) {
        asked.nevers.push(place)?;
    }
    Ok(answer)
}

// What closes the claim of a report.
ghost use Rattle.std.specs.Prelude.{◌≡◌, ◌≤◌, ◌<◌, map, true, Some, slice_get, IfOk};
ghost use Rattle.stk_base.specs.Causes.{Rose};
ghost use Rattle.stk_meaning.specs.Keys.{keys_of, input_bits};
ghost use Rattle.stk_meaning.specs.Findings.{members};
ghost use Rattle.stk_goals.specs.Queries.{HasNoAnswer};
ghost use Rattle.stk_claims.specs.Closing.{Closes, is_given_up, typing_of, without_of, tree_of, IsClaimed, IsGoalOfReport};

use crate::function::{ClaimedFunction, Report};
use std::alloc::Global;
use stk_base::NoMemory;
use stk_clauses::{Cnf, Derivation};
use stk_goals::{Query, QueryGoal, goal_of};
use stk_meaning::Need;
use stk_numbers::Condition;
use stk_query::{Decider, Verdict};

/// What closes the claim that no input map's path run hits a candidate free of a set of conditions.
#[derive(Drop)]
pub enum Closing {
    /// All input maps were tried.
    Tried,
    /// Clauses that stand for the query of the candidate for the set, and a derivation that refutes them.
    Refuted(Cnf, Derivation),
    /// Nothing does: the query was given up.
    GivenUp,
}

// The conditions of a set.
fn members(alloc: Global, needs: &[Need]) -> Result<Vec<Condition>, NoMemory>
    ensures { IfOk result (λ set. set.items ≡ members needs.now) }
{
    let mut set = Vec::new(alloc);
    for need in needs {
        set.push(need.condition)?;
    }
    Ok(set)
}

// The goal of a report's query: of its candidate, for its set.
fn goal_of_report(function: &ClaimedFunction, report: &Report) -> Result<QueryGoal, NoMemory>
    requires claimed { IsClaimed function.now }
    requires at { slice_get function.now.candidates.now report.now.position ≡ Some report.now.candidate }
    ensures { IfOk result (IsGoalOfReport function.now report.now.candidate (members report.now.needs.now)) }
{
    let set = members(function.alloc, report.needs)?;
    let query = Query {
        position: report.position,
        candidate: report.candidate,
        set: set.as_slice(),
    };
    goal_of(
        function.alloc,
        function.tables,
        function.function,
        function.candidates,
        &query,
    )
}

// What closes the claim of a report of a function of more than 16 input bits.
fn decided<D: Decider>(
    function: &ClaimedFunction,
    report: &Report,
    decider: &mut D,
) -> Result<Closing, NoMemory>
    requires claimed { IsClaimed function.now }
    requires wide { 16 < input_bits (keys_of (typing_of function.now) (without_of function.now) (tree_of function.now)) }
    requires at { slice_get function.now.candidates.now report.now.position ≡ Some report.now.candidate }
    requires none { HasNoAnswer (typing_of function.now) (without_of function.now) (tree_of function.now) report.now.candidate (members report.now.needs.now) }
    ensures closes { IfOk result (Closes (typing_of function.now) (without_of function.now) (tree_of function.now) report.now.candidate (members report.now.needs.now) function.now.budget) }
    ensures rose { IfOk result (λ x. is_given_up x ≡ true → Rose (D.given_up decider.old) (D.given_up decider.new)) }
    ensures later { D.given_up decider.old ≤ D.given_up decider.new }
{
    let own = goal_of_report(function, report)?;
    let verdict = decider.ask(own.symbols.terms(), own.term, function.budget)?;
    match verdict {
        Verdict::Refuted(list, derivation) => Ok(Closing::Refuted(list, derivation)),
        Verdict::Undecided(_, _) => Ok(Closing::GivenUp),
        Verdict::Satisfied(_) | Verdict::Tried => unreachable!(),
    }
}

/// What closes the claim of a report, of whose set it is known that no input map's path run hits the candidate free
/// of it: in a function of at most 16 input bits, that all maps were tried. Else the claim's own goal is asked of the
/// decider, and its answer is a clause list that stands for it with a derivation that refutes this, or that it was
/// given up, as the decider counts. The only refusal is want of memory.
pub(crate) fn closing_of<D: Decider>(
    function: &ClaimedFunction,
    report: &Report,
    decider: &mut D,
) -> Result<Closing, NoMemory>
    requires claimed { IsClaimed function.now }
    requires at { slice_get function.now.candidates.now report.now.position ≡ Some report.now.candidate }
    requires none { HasNoAnswer (typing_of function.now) (without_of function.now) (tree_of function.now) report.now.candidate (members report.now.needs.now) }
    ensures closes { IfOk result (Closes (typing_of function.now) (without_of function.now) (tree_of function.now) report.now.candidate (members report.now.needs.now) function.now.budget) }
    ensures rose { IfOk result (λ x. is_given_up x ≡ true → Rose (D.given_up decider.old) (D.given_up decider.new)) }
    ensures later { D.given_up decider.old ≤ D.given_up decider.new }
{
    if function.is_narrow() {
        return Ok(Closing::Tried);
    }
    decided(function, report, decider)
}

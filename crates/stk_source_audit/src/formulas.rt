// The clauses of the queries of a function that is judged.
ghost use Rattle.std.specs.Prelude.{◌≡◌, ◌<◌, ◌≤◌, ◌^◌, Some, slice_get, length, IfOk};
ghost use Rattle.std.specs.List.{All, Contains};
ghost use Rattle.stk_tree.specs.View.{view_function};
ghost use Rattle.stk_meaning.specs.Lists as lists;
ghost use Rattle.stk_function_types.specs.Nodes.{typing_in};
ghost use Rattle.stk_clauses.specs.Literals.{AreBelow};
ghost use Rattle.stk_goals.specs.Searched.{IsSearched};
ghost use Rattle.stk_source_audit.specs.Functions.{IsFormulaOf};
ghost use Rattle.stk_source_audit.specs.Asked.{IsJudged, judged_typing, judged_tree};

use crate::judged::{JudgedFunction, types_of};
use std::alloc::Global;
use stk_base::NoMemory;
use stk_clauses::Cnf;
use stk_function_env::Setting;
use stk_goal_clauses::clauses_for;
use stk_goals::{Query, goal_of};
use stk_numbers::{Candidate, Condition};
use stk_path_runs::FunctionTables;
use stk_tree::Function;

/// The place of a candidate in a list.
fn position_of(candidates: &[Candidate], candidate: Candidate) -> usize
    requires { Contains candidates.now candidate }
    ensures { slice_get candidates.now result ≡ Some candidate }
{
    let mut position = 0;
    for other in candidates {
        if *other == candidate {
            return position;
        }
        position += 1;
    }
    unreachable!()
}

/// The clauses of a query of a function that is searched, by the tables of its path runs and its candidates in order:
/// those of its goal, over a store that is made for it alone. So they follow from the function, the candidate and the
/// set.
fn query_clauses(
    alloc: Global,
    tables: &FunctionTables,
    f: &Function,
    candidates: &[Candidate],
    query: &Query,
) -> Result<Cnf, NoMemory>
    requires searched { IsSearched tables.now (view_function f.now) }
    requires candidates { candidates.now ≡ lists.candidates (typing_in tables.now.places.types) (view_function f.now) }
    requires at { slice_get candidates.now query.now.position ≡ Some query.now.candidate }
    ensures formula { IfOk result (IsFormulaOf (typing_in tables.now.places.types) tables.now.places.without (view_function f.now) query.now.candidate query.now.set.now) }
    ensures within { IfOk result (λ own. All (AreBelow own.vars) own.store) }
{
    let goal = goal_of(alloc, tables, f, candidates, query)?;
    let own = clauses_for(alloc, goal.symbols.terms(), goal.term)?;
    Ok(own)
}

/// The clauses that stand for the query of a candidate and a set, with at most as many variables as the function has
/// input bits and weight. The candidates are the function's.
pub(crate) fn formula_of(
    judged: &JudgedFunction,
    candidates: &[Candidate],
    candidate: Candidate,
    set: &[Condition],
) -> Result<Cnf, NoMemory>
    requires judged { IsJudged judged.now }
    requires candidates { candidates.now ≡ lists.candidates (judged_typing judged.now) (judged_tree judged.now) }
    requires exists { Contains candidates.now candidate }
    ensures formula { IfOk result (IsFormulaOf (judged_typing judged.now) judged.now.without (judged_tree judged.now) candidate set.now) }
    ensures within { IfOk result (λ own. All (AreBelow own.vars) own.store) }
{
    let alloc = judged.alloc;
    let types = types_of(alloc, judged.bytes, judged.unit, judged.names)?;
    let setting = Setting::new(alloc, &types, judged.without, judged.function)?;
    let tables = FunctionTables::new(alloc, &setting, judged.function)?;
    let query = Query {
        position: position_of(candidates, candidate) as u32,
        candidate,
        set,
    };
    let own = query_clauses(alloc, &tables, judged.function, candidates, &query)?;
    Ok(own)
}

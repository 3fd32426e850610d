//! The script of the query of a candidate.

ghost use Rattle.std.specs.Prelude.{◌≡◌, ◌≤◌, ◌<◌, Some, slice_get, length, IfOk};
ghost use Rattle.stk_tree.specs.View.{view_function, view_unit};
ghost use Rattle.stk_meaning.specs.Lists as lists;
ghost use Rattle.stk_meaning.specs.Weights as weights;
ghost use Rattle.stk_run_laws.specs.Visits.{IsNumbered};
ghost use Rattle.stk_function_types.specs.Nodes.{typing_in};
ghost use Rattle.stk_units.specs.Units.{IsSettingOfFunction};
ghost use Rattle.stk_goals.specs.Searched.{IsSearched};
ghost use Rattle.stk_units.specs.Known.{IsTypedFunction};
ghost use Rattle.stk_query_scripts.specs.Queries.{conditions_of, IsQueryScript, IsCandidateScript};

use std::alloc::Global;
use stk_base::NoMemory;
use stk_cands::conditions;
use stk_function_env::Setting;
use stk_goals::{FunctionTables, Query, goal_of};
use stk_numbers::{Candidate, Condition};
use stk_records::ConditionSet;
use stk_smtlib::script;
use stk_tree::Function;

// The conditions of a set.
fn conditions_of(
    alloc: Global,
    setting: &Setting,
    f: &Function,
    set: ConditionSet,
) -> Result<Vec<Condition>, NoMemory>
    ensures { IfOk result (λ list. list.items ≡ conditions_of set (typing_in setting.now.types) setting.now.without (view_function f.now)) }
{
    match set {
        ConditionSet::All => conditions(alloc, setting.types(), setting.without(), f),
        ConditionSet::Empty => Ok(Vec::new(alloc)),
    }
}

// The script of a query, by the tables of its function's path runs.
fn query_script(
    alloc: Global,
    tables: &FunctionTables,
    f: &Function,
    list: &[Candidate],
    query: &Query,
) -> Result<Vec<u8>, NoMemory>
    requires searched { IsSearched tables.now (view_function f.now) }
    requires candidates { list.now ≡ lists.candidates (typing_in tables.now.places.types) (view_function f.now) }
    requires at { slice_get list.now query.now.position ≡ Some query.now.candidate }
    ensures { IfOk result (λ text. IsQueryScript (typing_in tables.now.places.types) tables.now.places.without (view_function f.now) query.now.candidate query.now.set.now text.items) }
{
    let goal = goal_of(alloc, tables, f, list, query)?;
    let text = script(alloc, goal.symbols.terms(), goal.term)?;
    Ok(text)
}

/// The script of the query of the candidate at a place of a function's list, for a set of its conditions. The function
/// is accepted and typed, and not too heavy; the list is that of its candidates.
pub(crate) fn candidate_script(
    alloc: Global,
    setting: &Setting,
    f: &Function,
    list: &[Candidate],
    at: usize,
    set: ConditionSet,
) -> Result<Vec<u8>, NoMemory>
    requires of { IsSettingOfFunction (view_function f.now) setting.now }
    requires numbered { IsNumbered (typing_in setting.now.types) (view_function f.now) }
    requires typed { IsTypedFunction (typing_in setting.now.types) setting.now.without (view_function f.now) }
    requires light { weights.weight (typing_in setting.now.types) setting.now.without (view_function f.now) ≤ weights.most_weight }
    requires candidates { list.now ≡ lists.candidates (typing_in setting.now.types) (view_function f.now) }
    requires within { at < length list.now }
    ensures { IfOk result (λ text. IsCandidateScript (typing_in setting.now.types) setting.now.without (view_function f.now) at set text.items) }
{
    let tables = FunctionTables::new(alloc, setting, f)?;
    let all = conditions_of(alloc, setting, f, set)?;
    let query = Query {
        position: at as u32,
        candidate: list[at],
        set: all.as_slice(),
    };
    let text = query_script(alloc, &tables, f, list, &query)?;
    Ok(text)
}

//! The queries of a function: each candidate, with no condition and with all of them.

ghost use Rattle.std.specs.Prelude.{◌≡◌, ◌<◌, ◌^◌, length, slice_get, Some};
ghost use Rattle.stk_tree.specs.View.{view_function};
ghost use Rattle.stk_meaning.specs.Lists as lists;
ghost use Rattle.stk_function_types.specs.Nodes.{typing_in};
ghost use Rattle.stk_goals.specs.Searched.{IsSearched};
ghost use Rattle.stk_findings.specs.Asked.{typing_asked, tree_asked};

use std::alloc::Global;
use stk_base::NoMemory;
use stk_findings::{FunctionGoals, SearchedFunction};
use stk_goals::Query;

/// Asks queries of the goals of a function.
pub(crate) trait Asker {
    /// Asks one.
    fn ask(
        &mut self,
        alloc: Global,
        searched: &SearchedFunction,
        goals: &mut FunctionGoals,
        query: &Query,
    ) -> Result<(), NoMemory>
        requires searched { IsSearched searched.now.tables.now (view_function searched.now.function.now) }
        requires at { slice_get (lists.candidates (typing_asked goals.old) (tree_asked goals.old)) query.now.position ≡ Some query.now.candidate }
        ensures same { goals.new ≡ goals.old };
}

// Asks the query, and that of its candidate with all conditions.
fn ask_both<A: Asker>(
    alloc: Global,
    searched: &SearchedFunction,
    goals: &mut FunctionGoals,
    query: &Query,
    asker: &mut A,
) -> Result<(), NoMemory>
    requires searched { IsSearched searched.now.tables.now (view_function searched.now.function.now) }
    requires at { slice_get (lists.candidates (typing_asked goals.old) (tree_asked goals.old)) query.now.position ≡ Some query.now.candidate }
    ensures same { goals.new ≡ goals.old }
{
    let all = Query {
        position: query.position,
        candidate: query.candidate,
        set: searched.conditions,
    };
    asker.ask(alloc, searched, goals, query)?;
    asker.ask(alloc, searched, goals, &all)
}

// Asks for each candidate the query with no condition and the one with all.
fn ask_each<A: Asker>(
    alloc: Global,
    searched: &SearchedFunction,
    goals: &mut FunctionGoals,
    asker: &mut A,
) -> Result<(), NoMemory>
    requires searched { IsSearched searched.now.tables.now (view_function searched.now.function.now) }
    requires candidates { searched.now.candidates.now ≡ lists.candidates (typing_asked goals.old) (tree_asked goals.old) }
    requires few { length searched.now.candidates.now < 2 ^ 32 }
{
    for at in 0..searched.candidates.len() {
        let query = Query {
            position: at as u32,
            candidate: searched.candidates[at],
            set: &[],
        };
        ask_both(alloc, searched, goals, &query, asker)?;
    }
    Ok(())
}

/// Makes the goals of a function, and asks for each candidate, in order, the query with no condition and that with all.
pub(crate) fn ask_all<A: Asker>(
    alloc: Global,
    searched: &SearchedFunction,
    asker: &mut A,
) -> Result<(), NoMemory>
    requires searched { IsSearched searched.now.tables.now (view_function searched.now.function.now) }
    requires candidates { searched.now.candidates.now ≡ lists.candidates (typing_in searched.now.tables.now.places.types) (view_function searched.now.function.now) }
{
    let mut goals = FunctionGoals::new(
        alloc,
        searched.tables,
        searched.function,
        searched.candidates,
    )?;
    ask_each(alloc, searched, &mut goals, asker)
}

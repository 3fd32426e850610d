//! The goal of one query, in a store of its own.

ghost use Rattle.std.specs.Prelude.{◌≡◌, ◌↔◌, ◌+◌, ◌<◌, ◌^◌, ℕ, List, Some, slice_get, length, sum, IfOk};
ghost use Rattle.stk_tree.specs.View.{view_function};
ghost use Rattle.stk_meaning.specs.Lists as lists;
ghost use Rattle.stk_function_types.specs.Nodes.{typing_in};
ghost use Rattle.stk_terms.specs.Fitting.{AreResidues};
ghost use Rattle.stk_terms.specs.Values.{width_at, number_at};
ghost use Rattle.stk_terms.specs.Cost.{cost};
ghost use Rattle.stk_rewrite.specs.Normal.{IsNormal};
ghost use Rattle.stk_spent_queries.specs.Spent.{AnswersByResidues};
ghost use Rattle.stk_goals.specs.Searched.{IsSearched};
ghost use Rattle.stk_goals.specs.Queries.{IsGoalOf};

use crate::{Query, add_goal, walked_store};
use std::alloc::Global;
use stk_base::NoMemory;
use stk_numbers::Candidate;
use stk_symbols::Symbols;
use stk_terms::TermId;
use stk_tree::Function;
use stk_walk::FunctionTables;

/// The goal of a query: a term, and the store in which it is, whose inputs are the keys of the function.
#[derive(Drop)]
pub struct QueryGoal {
    pub symbols: Symbols,
    pub term: TermId,
}

/// The goal of a query of a function that is searched, by the tables of its path runs and its candidates in order, over
/// a store that is made for it alone: its terms, and their order, follow from the function, the candidate and the set.
/// The candidate stands in its place in the list of the function's candidates, and the set holds any conditions.
///
/// The goal is a term of width 1, none of whose parts is the left side of a rewriting rule. For any residues of the
/// store's inputs it is 1 exactly where they are those of a valid input map whose path run hits the candidate with no
/// condition of the set violated before (Wang, Zeldovich, Kaashoek, Solar-Lezama, SOSP 2013, section 3). It costs no
/// more than the function weighs, so there is room for its clauses. The only refusal is want of memory.
pub fn goal_of(
    alloc: Global,
    tables: &FunctionTables,
    function: &Function,
    candidates: &[Candidate],
    query: &Query,
) -> Result<QueryGoal, NoMemory>
    requires searched { IsSearched tables.now (view_function function.now) }
    requires candidates { candidates.now ≡ lists.candidates (typing_in tables.now.places.types) (view_function function.now) }
    requires at { slice_get candidates.now query.now.position ≡ Some query.now.candidate }
    ensures goal { IfOk result (λ g. IsGoalOf (typing_in tables.now.places.types) tables.now.places.without (view_function function.now) query.now.candidate query.now.set.now g.symbols.terms g.term.0) }
    ensures exists { IfOk result (λ g. g.term.0 < length g.symbols.terms.terms) }
    ensures one { IfOk result (λ g. width_at g.symbols.terms g.term.0 ≡ 1) }
    ensures normal { IfOk result (λ g. IsNormal g.symbols.terms g.term.0) }
    ensures room { IfOk result (λ g. sum g.symbols.terms.inputs + cost g.symbols.terms g.term.0 < 2 ^ 29) }
    ensures exact { IfOk result (λ g. (residues : List ℕ) → AreResidues g.symbols.terms.inputs residues → (number_at g.symbols.terms residues g.term.0 ≡ 1) ↔ AnswersByResidues (typing_in tables.now.places.types) tables.now.places.without (view_function function.now) query.now.candidate query.now.set.now residues) }
{
    let mut walked = walked_store(alloc, tables, function, candidates)?;
    let term = add_goal(tables, function, &mut walked.symbols, &walked.walk, query)?;
    Ok(QueryGoal {
        symbols: walked.symbols,
        term,
    })
}

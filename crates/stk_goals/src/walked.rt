//! A store of terms over which a function is walked, and the goals that are added to it.

ghost use Rattle.std.specs.Prelude.{◌≡◌, Some, slice_get, map, IfOk};
ghost use Rattle.stk_tree.specs.View.{view_function};
ghost use Rattle.stk_meaning.specs.Lists as lists;
ghost use Rattle.stk_function_types.specs.Nodes.{typing_in};
ghost use Rattle.stk_terms.specs.Values.{width_at};
ghost use Rattle.stk_terms.specs.Growth.{Keeps};
ghost use Rattle.stk_rewrite.specs.Normal.{IsNormal};
ghost use Rattle.stk_goals.specs.Searched.{IsSearched};
ghost use Rattle.stk_goals.specs.Queries.{key_kinds, IsGoalOf};
ghost use Rattle.stk_goals.specs.Goals.{AreGoalsOf};
ghost use Rattle.stk_function_env.specs.declared.infos.KeyInfo.{KeyInfo};

use crate::Query;
use std::alloc::Global;
use stk_base::NoMemory;
use stk_function_env::KeyInfo;
use stk_numbers::{Candidate, IntKind};
use stk_symbols::{IndexedWalk, Symbols};
use stk_terms::TermId;
use stk_tree::Function;
use stk_walk::{FunctionTables, walk_function};

/// The kinds of keys, in order.
pub fn kinds_of(alloc: Global, keys: &[KeyInfo]) -> Result<Vec<IntKind>, NoMemory>
    ensures { IfOk result (λ kinds. kinds.items ≡ map (λ (k : KeyInfo). k.kind) keys.now) }
{
    let mut kinds = Vec::new(alloc);
    for key in keys {
        kinds.push(key.kind)?;
    }
    Ok(kinds)
}

/// A store of terms whose inputs are the keys of a function, the walk of the function over it, and the kinds of the
/// keys.
#[derive(Drop)]
pub struct WalkedStore {
    pub kinds: Vec<IntKind>,
    pub symbols: Symbols,
    pub walk: IndexedWalk,
}

/// Walks a function that is searched over a new store, by the tables of its path runs and its candidates in order.
pub fn walked_store(
    alloc: Global,
    tables: &FunctionTables,
    function: &Function,
    candidates: &[Candidate],
) -> Result<WalkedStore, NoMemory>
    requires searched { IsSearched tables.now (view_function function.now) }
    requires candidates { candidates.now ≡ lists.candidates (typing_in tables.now.places.types) (view_function function.now) }
    ensures kinds { IfOk result (λ w. w.kinds.items ≡ key_kinds (typing_in tables.now.places.types) tables.now.places.without (view_function function.now)) }
    ensures goals { IfOk result (λ w. AreGoalsOf (typing_in tables.now.places.types) tables.now.places.without (view_function function.now) w.symbols w.walk.walked) }
{
    let kinds = kinds_of(alloc, tables.setting().keys())?;
    let mut symbols = Symbols::new(alloc, kinds.as_slice())?;
    let walked = walk_function(alloc, tables, function, candidates, &mut symbols)?;
    let walk = IndexedWalk::new(alloc, walked)?;
    Ok(WalkedStore {
        kinds,
        symbols,
        walk,
    })
}

/// Adds the goal of a query to the store of a function that was walked over it.
pub fn add_goal(
    tables: &FunctionTables,
    function: &Function,
    symbols: &mut Symbols,
    walk: &IndexedWalk,
    query: &Query,
) -> Result<TermId, NoMemory>
    requires goals { AreGoalsOf (typing_in tables.now.places.types) tables.now.places.without (view_function function.now) symbols.old walk.now.walked }
    requires at { slice_get (lists.candidates (typing_in tables.now.places.types) (view_function function.now)) query.now.position ≡ Some query.now.candidate }
    ensures goal { IfOk result (λ v. IsGoalOf (typing_in tables.now.places.types) tables.now.places.without (view_function function.now) query.now.candidate query.now.set.now symbols.new.terms v.0) }
    ensures normal { IfOk result (λ v. IsNormal symbols.new.terms v.0) }
    ensures one { IfOk result (λ v. width_at symbols.new.terms v.0 ≡ 1) }
    ensures goals { AreGoalsOf (typing_in tables.now.places.types) tables.now.places.without (view_function function.now) symbols.new walk.now.walked }
    ensures stays { Keeps symbols.old.terms symbols.new.terms }
{
    // The contract alone reads the function.
    let _ = tables;
    let _ = function;
    let term = symbols.goal(walk, query.position, query.set)?;
    Ok(term)
}

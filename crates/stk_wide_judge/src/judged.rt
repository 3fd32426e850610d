//! A function whose candidates are judged.

ghost use Rattle.std.specs.Prelude.{◌≡◌};
ghost use Rattle.stk_tree.specs.View.{view_function};
ghost use Rattle.stk_meaning.specs.Lists as lists;
ghost use Rattle.stk_function_types.specs.Nodes.{typing_in};

use std::alloc::Global;
use stk_numbers::{Candidate, Condition};
use stk_path_runs::FunctionTables;
use stk_tree::Function;

/// A candidate, with its place in the list of its function's candidates.
#[derive(Clone, Copy, Debug)]
pub struct AskedCandidate {
    pub position: u32,
    pub candidate: Candidate,
}

/// A function whose candidates are judged, by the tables of its path runs, with all its conditions in ascending order.
#[derive(Drop)]
pub struct JudgedFunction<'a> {
    pub alloc: Global,
    pub tables: &'a FunctionTables<'a>,
    pub f: &'a Function,
    pub conditions: &'a [Condition],
    ghost all: { conditions.now ≡ lists.conditions (typing_in tables.now.places.types) tables.now.places.without (view_function f.now) },
}

impl<'a> JudgedFunction<'a> {
    /// The function of these tables.
    pub fn new(
        alloc: Global,
        tables: &'a FunctionTables<'a>,
        f: &'a Function,
        conditions: &'a [Condition],
    ) -> JudgedFunction<'a>
        requires { conditions.now ≡ lists.conditions (typing_in tables.now.places.types) tables.now.places.without (view_function f.now) }
        ensures tables { result.tables.now ≡ tables.now }
        ensures f { view_function result.f.now ≡ view_function f.now }
        ensures conditions { result.conditions.now ≡ conditions.now }
    {
        JudgedFunction {
            alloc,
            tables,
            f,
            conditions,
        }
    }
}

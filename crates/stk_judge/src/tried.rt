//! Functions whose input maps are all tried (Wang, Zeldovich, Kaashoek, Solar-Lezama, SOSP 2013, sections 3 and 4).

ghost use Rattle.std.specs.Prelude.{◌≡◌, ◌≤◌, IfOk};
ghost use Rattle.stk_tree.specs.Syntax.{FunctionTree};
ghost use Rattle.stk_tree.specs.View.{view_function};
ghost use Rattle.stk_numbers.specs.declared.conditions.Kinds.{Kinds};
ghost use Rattle.stk_meaning.specs.Typings.{Typing};
ghost use Rattle.stk_meaning.specs.Keys.{input_bits};
ghost use Rattle.stk_meaning.specs.Lists as lists;
ghost use Rattle.stk_meaning.specs.Findings.{IsLawful};
ghost use Rattle.stk_function_types.specs.Nodes.{typing_in};
ghost use Rattle.stk_hits.specs.PathSubjects as subjects;
ghost use Rattle.stk_path_runs.specs.FunctionTables.{AreTablesOf};
ghost use Rattle.stk_judge.specs.Tried.{AreFew, AreTried};

use crate::finding_of;
use std::alloc::Global;
use stk_base::NoMemory;
use stk_hits::{HitTable, kinds_of, table_of};
use stk_meaning::Finding;
use stk_numbers::{Candidate, Condition, IntKind};
use stk_path_runs::FunctionTables;
use stk_tree::Function;

/// The input maps of a function of at most 16 input bits, each of which was run once: the kinds of the function's keys,
/// and what the runs hit.
#[derive(Drop)]
pub struct TriedMaps {
    alloc: Global,
    kinds: Vec<IntKind>,
    table: HitTable,
}

impl TriedMaps {
    /// Runs each input map of a function once. The tables are those of the function and know its loops.
    pub fn new(
        alloc: Global,
        tables: &FunctionTables,
        function: &Function,
    ) -> Result<TriedMaps, NoMemory>
        requires tables { AreTablesOf (view_function function.now) tables.now }
        requires few { input_bits tables.now.places.keys ≤ 16 }
        ensures { IfOk result (AreTried (typing_in tables.now.places.types) tables.now.places.without (view_function function.now)) }
    {
        let kinds = kinds_of(alloc, tables.setting().keys())?;
        let table = table_of(alloc, tables, function, kinds.as_slice())?;
        Ok(TriedMaps {
            alloc,
            kinds,
            table,
        })
    }

    /// The lawful finding for a candidate, where these are all conditions of the function: all its queries are answered
    /// from what the runs of all input maps hit. So nothing is undecided or open, and each start is the first that
    /// answers its query.
    pub fn finding(
        &self,
        candidate: Candidate,
        conditions: &[Condition],
    ) -> Result<Finding, NoMemory>
        requires { AreFew self.now }
        ensures { (ty : Typing) (without : Kinds) (f : FunctionTree) → AreTried ty without f self.now → conditions.now ≡ lists.conditions ty without f → IfOk result (IsLawful (subjects.path_subject ty without f) candidate) }
    {
        let kinds = self.kinds.as_slice();
        finding_of(self.alloc, &self.table, kinds, candidate, conditions)
    }
}

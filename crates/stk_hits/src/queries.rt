//! What a table answers.

ghost use Rattle.std.specs.Prelude.{◌≡◌, ◌++◌, ◌∷◌, ℕ, List, [], Option, None, IfOk, MatchOption};
ghost use Rattle.std.specs.List.{list_any};
ghost use Rattle.indexmap.specs.IndexSet.{contains};
ghost use Rattle.stk_meaning.specs.declared.entry.Entry.{Entry as Passed};
ghost use Rattle.stk_hits.specs.declared.condition_ids.ConditionId.{ConditionId as Marked};
ghost use Rattle.stk_hits.specs.ConditionIds.{same_condition_id};
ghost use Rattle.stk_numbers.specs.declared.conditions.Candidate.{Candidate as Asked};
ghost use Rattle.stk_numbers.specs.declared.conditions.Condition.{Condition as Violated};
ghost use Rattle.stk_hits.specs.Tables.{Table, Describes, IsNumberOf, rows_of};
ghost use Rattle.stk_hits.specs.Queries.{IsTestOf, NoneIsFree, IsFirstFree};

use crate::condition_ids::{ConditionId, condition_ids_in, kind_number};
use crate::hit_table::{HitTable, Row};
use indexmap::IndexSet;
use std::alloc::Global;
use stk_base::NoMemory;
use stk_numbers::{Candidate, Condition};

/// A map without a run, since it isn't valid, changes nothing: a table describes it too.
pub(crate) fn describes_a_map_without_a_run()
    ensures { (runs : List (Option (List Passed))) (table : Table) → Describes runs [] table → Describes (runs ++ None ∷ []) [] table }
{}

impl HitTable {
    /// The hits of a candidate, those of earlier runs first.
    pub fn rows_of(&self, alloc: Global, candidate: Candidate) -> Result<Vec<Row>, NoMemory>
        ensures { IfOk result (λ rows. rows.items ≡ rows_of candidate self.now.hits) }
    {
        let kind = kind_number(candidate.kind);
        let mut rows = Vec::new(alloc);
        for (hit, first) in self.hits.iter() {
            if hit.node == candidate.node && hit.kind == kind {
                rows.push(Row {
                    set: hit.set,
                    first: *first,
                })?;
            }
        }
        Ok(rows)
    }

    // Whether one of these conditions is in a set.
    fn meets(&self, condition_ids: &IndexSet<ConditionId>, set: usize) -> bool
        ensures { (ms : List Marked) → IsNumberOf self.now.steps set ms → result ≡ list_any (λ m. contains same_condition_id condition_ids.now m) ms }
    {
        let steps = self.steps.as_slice();
        let mut at = set;
        'steps: while at > 0 {
            let Some(step) = steps.get(at - 1) else {
                return false;
            };
            let condition_id = ConditionId {
                node: step.node,
                kind: step.kind,
            };
            if condition_ids.contains(&condition_id) {
                return true;
            }
            at = step.before;
        }
        false
    }

    // The first map of a row whose set has none of these conditions.
    fn first_apart(&self, rows: &[Row], condition_ids: &IndexSet<ConditionId>) -> Option<u32>
        ensures { (runs : List (Option (List Passed))) (c : Asked) (set : List Violated) → Describes runs [] self.now → rows.now ≡ rows_of c self.now.hits → IsTestOf (λ m. contains same_condition_id condition_ids.now m) set
            → MatchOption result (NoneIsFree runs c set) (IsFirstFree runs c set) }
    {
        for row in rows {
            if !self.meets(condition_ids, row.set) {
                return Some(row.first);
            }
        }
        None
    }

    /// The number of the first input map whose run hits a candidate and violates none of these conditions before, where
    /// there is one: of the runs that the table describes. The rows are the candidate's.
    pub fn first_free(
        &self,
        alloc: Global,
        rows: &[Row],
        set: &[Condition],
    ) -> Result<Option<u32>, NoMemory>
        ensures { (runs : List (Option (List Passed))) (c : Asked) → Describes runs [] self.now → rows.now ≡ rows_of c self.now.hits → IfOk result (λ found. MatchOption found (NoneIsFree runs c set.now) (IsFirstFree runs c set.now)) }
    {
        let condition_ids = condition_ids_in(alloc, set)?;
        let found = self.first_apart(rows, &condition_ids);
        Ok(found)
    }
}

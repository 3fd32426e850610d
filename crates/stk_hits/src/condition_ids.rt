//! Conditions and candidates as keys of tables.

ghost use Rattle.std.specs.Prelude.{◌≡◌, IfOk};
ghost use Rattle.indexmap.specs.IndexSet.{contains};
ghost use Rattle.stk_meaning.specs.Hits.{has};
ghost use Rattle.stk_hits.specs.ConditionIds.{condition_id_of, kind_number, same_condition_id};

use indexmap::IndexSet;
use std::alloc::Global;
use stk_base::NoMemory;
use stk_numbers::{CandKind, Condition};

/// A condition, by its node and the number of its kind, from 1 to 8.
#[derive(Clone, Copy, Debug, PartialEq, Eq, Hash)]
pub struct ConditionId {
    pub node: u32,
    pub kind: u8,
}

/// A condition by its node and the number of its kind.
pub(crate) fn condition_id_of(condition: Condition) -> ConditionId
    ensures { result ≡ condition_id_of condition }
{
    ConditionId {
        node: condition.node,
        kind: condition.kind.number(),
    }
}

/// The number of a kind of candidates, from 1 to 4, by which candidates at one node are ordered.
pub(crate) fn kind_number(kind: CandKind) -> u8
    ensures { result ≡ kind_number kind }
{
    match kind {
        CandKind::Arm => 1,
        CandKind::AlwaysTrue => 2,
        CandKind::AlwaysFalse => 3,
        CandKind::Algebra => 4,
    }
}

/// The conditions of a set, each by its node and the number of its kind.
pub(crate) fn condition_ids_in(
    alloc: Global,
    set: &[Condition],
) -> Result<IndexSet<ConditionId>, NoMemory>
    ensures { IfOk result (λ condition_ids. (k : Condition) → contains same_condition_id condition_ids (condition_id_of k) ≡ has set.now k) }
{
    let mut condition_ids = IndexSet::new(alloc);
    for condition in set {
        condition_ids.insert(condition_id_of(*condition))?;
    }
    Ok(condition_ids)
}

//! The table of hits.

ghost use Rattle.std.specs.Prelude.{◌≡◌, []};
ghost use Rattle.stk_hits.specs.Tables.{Describes};

use indexmap::{IndexMap, IndexSet};
use std::alloc::Global;
use std::marker::Model;

/// One condition more: it is violated behind the conditions of the set with this number.
#[derive(Clone, Copy, Debug, PartialEq, Eq, Hash)]
pub(crate) struct Step {
    pub before: usize,
    pub node: u32,
    pub kind: u8,
}

/// A hit of a candidate, by its node and the number of its kind, behind the conditions of the set with this number.
#[derive(Clone, Copy, Debug, PartialEq, Eq, Hash)]
pub(crate) struct Hit {
    pub node: u32,
    pub kind: u8,
    pub set: usize,
}

/// A hit of one candidate: the number of the set of conditions that are violated before it, and that of the first input
/// map whose run hits the candidate so.
#[derive(Clone, Copy, Debug, PartialEq, Eq)]
pub struct Row {
    pub set: usize,
    pub first: u32,
}

/// The hits of the runs of input maps, each with the conditions that were violated before it; of those with the same
/// conditions before them, the one of the first run. It takes memory for each condition that is violated behind
/// different ones and for each hit behind different ones, and not for each run.
#[derive(Drop)]
pub struct HitTable {
    pub(crate) steps: IndexSet<Step>,
    pub(crate) hits: IndexMap<Hit, u32>,
}

impl Model for HitTable {
    ghost use Rattle.stk_hits.specs.Tables.{Table, AreSteps};

    ghost Value = { Table };

    ghost view = { λ s. record { steps = s.steps.keys; hits = s.hits.entries } };

    ghost invariant = { λ s. AreSteps s.steps.keys };
}

impl HitTable {
    /// A table of no runs.
    pub fn new(alloc: Global) -> HitTable
        ensures { Describes [] [] result }
    {
        HitTable {
            steps: IndexSet::new(alloc),
            hits: IndexMap::new(alloc),
        }
    }
}

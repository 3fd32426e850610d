use stk_base::List;
use stk_numbers::{Condition, Inputs};

/// What is found for a candidate.
#[derive(Debug, Drop)]
pub enum Finding {
    /// The fragment isn't unstable.
    Clear,
    /// Some run hits the candidate, and none does so free of undefined behaviour.
    Unstable {
        /// The inputs of a run that hits it.
        start: Inputs,
        /// The conditions that every run that hits it violates at least one of before, in ascending order.
        needs: List<Need>,
    },
    /// The query of this phase was given up.
    Undecided {
        phase: Phase,
    },
}

/// A condition of a finding's set.
#[derive(Debug, Drop)]
pub struct Need {
    pub condition: Condition,
    /// The inputs of a run that hits the candidate and violates no other condition of the set before; `None` where
    /// the query for them was given up.
    pub shown: Option<Inputs>,
}

/// The query that was given up: whether a run hits the candidate free of all conditions, or whether one hits it at all.
#[derive(Clone, Copy, Debug, PartialEq, Eq)]
pub enum Phase {
    Free,
    Hit,
}

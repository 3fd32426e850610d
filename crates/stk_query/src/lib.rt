//! Decides goals: by all inputs where they are few, and else by a search over the goal's clauses.
#![tactic(auto)]

mod cdcl;
mod decider;
mod enumerate;
mod searching;
mod spent;
mod verdict;

pub use cdcl::Cdcl;
pub use decider::{Decider, MOST_BUDGET};
pub use verdict::Verdict;

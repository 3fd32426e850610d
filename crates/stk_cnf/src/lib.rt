//! The clauses of a circuit: what satisfies them are exactly the extensions of the inputs that make the goal true.
#![tactic(auto)]

mod clauses;
mod depending;
mod edges;
mod numbering;

pub use clauses::clauses_of;

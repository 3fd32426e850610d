//! Which inputs likely make a goal 1? A local search over terms, without circuits and clauses.
#![tactic(auto)]

mod inverse;
mod search;
mod targets;

pub use search::likely_residues;

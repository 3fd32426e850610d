//! Searches for values of variables that satisfy clauses, or for a derivation that none do, by learning from conflicts.
#![tactic(auto)]

mod analysis;
mod back;
mod deciding;
mod decision_order;
mod ending;
mod finishing;
mod learning;
mod marks;
mod raising;
mod redundancy;
mod resolving;
mod restarts;
mod search;
mod solving;

pub use solving::{Answer, solve};

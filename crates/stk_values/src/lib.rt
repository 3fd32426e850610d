//! Values of a run of C, by one trait: a store for one input map, whose values are numbers, stands in this crate, and
//! the walk over a function is written once, over any store.
#![tactic(auto)]

mod numbers;
mod values;
mod walked;

pub use numbers::Numbers;
pub use values::Values;
pub use walked::{Step, Walked};

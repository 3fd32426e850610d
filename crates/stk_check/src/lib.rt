//! Checks derivations: each step by its hints, and the empty clause last.
#![tactic(auto)]

mod checking;
mod marks;

pub use checking::check;

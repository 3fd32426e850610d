//! What an expression does in a walk over all branches.
#![tactic(auto)]

mod calls;
mod expressions;
mod guards;
mod operators;
mod sides;
mod steps;
mod stores;
mod walked;

pub use walked::{converted_value, tested, value};

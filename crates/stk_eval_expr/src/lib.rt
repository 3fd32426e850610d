//! What an expression does in a run, one branch at a time.
#![tactic(auto)]

mod asked;
mod expressions;
mod outside;
mod state;
mod steps;
mod world;

pub use asked::{Replacement, RunSetting};
pub use expressions::{tested, value};
pub use outside::{object_address, store, write};
pub use state::{Flow, Sides, State, put_word};
pub use steps::{is_comparison, node_of, target_of};
pub use world::World;

//! Executions of functions over a memory, with the answers of the outside.
#![tactic(auto)]

mod executed;
mod execution;
mod hitting;
mod marks;
mod outside;
mod replaying;

pub use execution::{End, Execution, Replay, Replayed};
pub use replaying::replay_of;

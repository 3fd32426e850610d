//! Which execution an input names, and the text of its replay.
#![tactic(auto)]

mod definitions;
mod input;
mod lines;
mod named;
mod unreplayed;

pub use input::replay_input;
pub use unreplayed::Unreplayed;

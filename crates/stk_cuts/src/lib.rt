//! Which smaller goal decides a goal?
#![tactic(auto)]

mod copying;
mod goal;
mod parting;

pub use goal::{CutGoal, cut_goal};

//! Whether a unit is accepted, and the names that it leaves in force.
#![tactic(auto)]

mod accepting;

pub use accepting::{Accepted, Refusal, accept, place_of};

//! Laws of the events of a walk over all branches: each is listed, none stands twice, and where candidates stand in
//! their list.
#![tactic(auto)]

mod listing;
mod positioning;

pub use listing::{events_are_listed, events_stand_once};
pub use positioning::{candidates_stand_at_positions, traces_are_listed};

//! How a walk over all branches stands to the path run of one input map: what it means that the walk follows a run, and
//! the laws by which the walks of parts make the walk of a whole.
#![tactic(auto)]

mod composing;

pub use composing::{
    branches_compose, kept_objects_follow, scopes_compose, sections_compose, sequences_compose,
    steps_follow, turns_compose,
};

//! What records call the parts of a function: how its keys are spelled, where its nodes begin, and what is claimed of
//! its candidates.
#![tactic(auto)]

mod claims;
mod names;
mod replaced;
mod texts;

pub use claims::{claim_by, node_spot};
pub use names::{Named, names_of};
pub use texts::key_texts;

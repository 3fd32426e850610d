//! The findings of a function all of whose input maps are tried: that of each candidate, by a table of what their path
//! runs hit.
#![tactic(auto)]

mod exhaustive;
mod first_answers;
mod tried;

pub use exhaustive::finding_of;
pub use tried::TriedMaps;

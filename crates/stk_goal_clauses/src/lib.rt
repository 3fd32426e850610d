//! The clauses of a goal, and the inputs that values of their variables are.
#![tactic(auto)]

mod clauses;
mod laws;
mod reading;

pub use clauses::{clauses_for, has_room};
pub use laws::standing;
pub use reading::residues_from;

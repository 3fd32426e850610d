//! The way through a unit: whether it is left out, and why, or defines a function that is judged; and the units of a
//! file, what they count for, and what is said of them one after the other.
#![tactic(auto)]

mod causes;
mod counting;
mod pieces;
mod spots;
mod visiting;

pub use causes::{function_weight, weight_cause};
pub use counting::{one_function, one_skipped, status_of, with_finding};
pub use pieces::{Units, body_of_piece, cut_into_units, tokens_of};
pub use spots::spot_at;
pub use visiting::{UnitVisitor, VisitedUnit, visit_unit};

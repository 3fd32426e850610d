//! Laws of acceptance: a unit is accepted or refused in one way.
#![tactic(auto)]

mod laws;

pub use laws::units_are_accepted_in_one_way;

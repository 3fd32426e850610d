//! What a tree of C says of itself, as calls: the tokens that it prints, whether it is well placed, how many nodes it
//! has, and how high it is.
#![tactic(auto)]

mod count_expressions;
mod count_units;
mod forms;
mod levels_expressions;
mod levels_units;
mod placed_expressions;
mod placed_units;
mod punctuators;
mod put_expressions;
mod put_units;

pub use count_units::nodes;
pub use levels_units::height;
pub use placed_units::well_placed;
pub use put_units::tokens_of;

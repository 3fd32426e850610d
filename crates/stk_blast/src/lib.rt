//! The circuit of a term: a row of edges whose number is the term's value for every input.
#![tactic(auto)]

mod asked;
mod circuit;
mod compare;
mod inputs;
mod laws;
mod operators;
mod rows;
mod shift;

pub use asked::{has_inputs, has_room};
pub use circuit::blast;
pub use laws::readings;

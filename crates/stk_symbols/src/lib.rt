//! The operations of C on numbers of its kinds as terms, and the store of values that are terms.
#![tactic(auto)]

mod addresses;
mod arithmetic;
mod comparing;
mod conditions;
mod converting;
mod dividing;
mod goals;
mod indexed_walk;
mod making;
mod moving;
mod shifting;
mod sizing;
mod step_index;
mod store;
mod store_laws;
mod symbols;
mod tests;

pub(crate) use addresses::{breaks_bounds, distance};
pub(crate) use arithmetic::arith;
pub(crate) use comparing::{choose, compare};
pub(crate) use conditions::breaks;
pub(crate) use converting::{constant, converted};
pub use indexed_walk::IndexedWalk;
pub(crate) use making::input;
pub(crate) use moving::{breaks_move, moved};
pub(crate) use shifting::{breaks_shift, shift};
pub use store_laws::{earlier_terms, goals_depend_on_what_matters, maps_are_residues};
pub use symbols::Symbols;
pub(crate) use tests::{both, opposite};

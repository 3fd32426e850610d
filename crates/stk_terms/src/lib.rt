//! Shared bit-vector terms, and all inputs of a term in their order.
#![tactic(auto)]

mod enumerate;
mod enumerate_laws;
mod fitting;
mod kept;
mod marks;
mod nodes;
mod operators;
mod order;
mod table;
mod term;

pub use enumerate::{first_that, input_bits, number_with};
pub use enumerate_laws::each_has_its_number;
pub use operators::apply;
pub use order::index_in;
pub use table::{Residues, Terms};
pub use term::{TermId, TermOp};

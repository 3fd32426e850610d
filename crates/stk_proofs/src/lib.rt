//! Clause lists as texts of DIMACS and derivations as texts of LRAT, both ways: what is written is read back as it was,
//! and what is no such text is refused.
#![tactic(auto)]

mod clause_lists;
mod derivations;
mod distinct;
mod entries;
mod laws;
mod lists;
mod numbers;
mod text;
mod words;
mod writing;

pub use clause_lists::{dimacs, fits_dimacs, read_dimacs};
pub use derivations::{fits_lrat, lrat, read_lrat};
pub use laws::texts_are_read_back;
pub use text::Text;

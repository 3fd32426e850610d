//! From bytes to units: the tokens of a text and where they stand in its source files, the tokens that are left without
//! the words that don't matter, and the units that brackets cut them into.
#![tactic(auto)]

mod ahead;
mod begun;
mod cutting;
mod dropping;
mod gaps;
mod lexing;
mod markers;
mod notes;
mod places;
mod placing;
mod scan;
mod skimming;
mod spelled;
mod token;

pub use cutting::{Piece, cut, units_in_order};
pub use lexing::{gap_is_longest, lex, one_cut};
pub use places::Places;
pub use placing::{one_place, place, place_of_each_byte};
pub use skimming::{Skimmed, skim};
pub use token::Token;

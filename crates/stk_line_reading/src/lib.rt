//! Texts that are read line by line: where they are cut, their first lines, and the numbers in them.
#![tactic(auto)]

mod cutting;
mod lines;
mod numbers;

pub use cutting::cut_at;
pub use lines::first_line;
pub use numbers::{next_number, number_in};

//! The generator: a text of C functions, of six forms, that follows from a number.
#![tactic(auto)]

mod drawing;
mod forms;
mod generating;

pub use generating::{MOST_FUNCTIONS, source_of};

#[cfg(test)]
mod tests;

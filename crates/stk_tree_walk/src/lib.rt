//! The tokens that an expression prints, one after the other: nothing is printed that isn't asked for.
#![tactic(auto)]

mod expressions;
mod parts;
mod printing;
mod punctuators;
mod rows;
mod types;
mod waiting;

pub use printing::Printing;

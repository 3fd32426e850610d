//! The walk of a function over all its branches, by the tables of its path runs.
#![tactic(auto)]

mod expressions;
mod function;
mod function_objects;
mod mapped;
mod objects;
mod registers;
mod start;
mod steps;
mod tables;
mod validity;
mod walked;
mod walking;

pub use function::walk_function;
pub use stk_path_runs::{FunctionTables, input_bits};

//! The SMT-LIB script of a goal over terms (SMT-LIB 2.6, the logic QF_BV).
#![tactic(auto)]

mod bodies;
mod commands;
mod pieces;
mod writing;

pub use writing::script;

//! SMT-LIB scripts as trees, and reading them from texts (SMT-LIB 2.6, the logic QF_BV; a subset).
#![tactic(auto)]

mod build;
mod commands;
mod fault;
mod fronts;
mod heads;
mod numerals;
mod reading;
mod terms;
mod tree;

pub use fault::Fault;
pub use reading::parse;
pub use tree::{Declared, Defined, Expr, Script, Test};

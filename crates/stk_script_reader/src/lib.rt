//! Reading SMT-LIB scripts into terms (SMT-LIB 2.6, the logic QF_BV; a subset).
#![tactic(auto)]

mod declaring;
mod defining;
mod making;
mod names;
mod operators;
mod reading;
mod trees;

pub use reading::read_script;

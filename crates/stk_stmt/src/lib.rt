//! Reading statements, functions and units from tokens (C11 6.8, 6.9).
#![tactic(auto)]

mod build;
mod declarations;
mod expressions;
mod heads;
mod plain;
mod reading;
mod statements;
mod units;

pub use reading::{head, unit};

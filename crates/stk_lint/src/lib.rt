//! The top call: from the bytes of a source to records, to a bundle, or to the script of a candidate, on a
//! sink.
#![tactic(auto)]

mod lint;
mod run;
mod scripts;

pub use lint::lint_main;
pub use run::run_checker;

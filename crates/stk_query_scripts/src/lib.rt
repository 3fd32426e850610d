//! The script of the query of a candidate, which is looked for by its number among the candidates of an input.
#![tactic(auto)]

mod scripts;
mod search;

pub use search::{ScriptSearch, search_unit};

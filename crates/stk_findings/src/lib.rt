//! The findings of a function, one candidate after the other, whatever the number of its input bits: by the goals of its
//! queries, which are asked of a decider, and of at most 16 input bits by the runs of all input maps too.
#![tactic(auto)]

mod asking;
mod by_maps;
mod goals;
mod judge;
mod numbers;
mod queries;
mod questions;

pub use by_maps::SiftedMaps;
pub use goals::FunctionGoals;
pub use judge::{Judge, SearchedFunction};
pub use queries::Queries;
pub use stk_goals::FunctionTables;
pub use stk_wide_judge::QueryAnswer;

//! The lines of a replay, as data and as text.
#![tactic(auto)]

mod line;
mod text;

pub use line::ReplayLine;
pub use text::add_lines;

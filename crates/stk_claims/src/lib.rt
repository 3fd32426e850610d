//! The parts of a bundle that the findings of a function have: its reports as claims, each with what closes it.
#![tactic(auto)]

mod closing;
mod function;
mod parts;
mod writing;

pub use closing::Closing;
pub use function::{ClaimedFunction, Report, ToldFinding};
pub use stk_goals::kinds_of;
pub use writing::{write_finding_parts, write_lines};

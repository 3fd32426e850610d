//! The run of a body, one branch at a time.
#![tactic(auto)]

mod choosing;
mod declarations;
mod loops;
mod running;
mod scopes;
mod statements;

pub use choosing::default_at;
pub use running::{BodyRun, bounded_run, run_body};
pub use statements::statement;

//! When an audit of a bundle holds, which line fails and why, and what its claims say: definitions, and
//! the law that a yes is true.
#![tactic(auto)]

mod audit;
mod laws;

pub use audit::{Audit, Claim, Start, Why};
pub use laws::{Audited, yes_is_true};

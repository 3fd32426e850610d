//! The audit of a bundle, over whoever answers for its source.
#![tactic(auto)]

mod answering;
mod auditing;
mod naming;
mod progress;
mod proving;
mod starts;
mod stepping;

pub use answering::Answering;
pub use auditing::audit_of;

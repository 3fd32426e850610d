//! The audit of a bundle by its source, and the top call of the auditor: from an input that holds both to the line of
//! the answer.
#![tactic(auto)]

mod ending;
mod inputs;
mod main_call;
mod run;
mod texts;

pub use ending::audit_bundle;
pub use main_call::audit_main;
pub use run::run_auditor;

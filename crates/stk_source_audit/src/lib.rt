//! The audit of a bundle by the text of its source: who answers for a source, whose units are read one after the other,
//! and why its clauses mean what they should.
#![tactic(auto)]

mod answering;
mod auditing;
mod formulas;
mod hit_free;
mod judged;
mod lists;
mod runs;
mod units;
mod words;

pub use answering::SourceAnswers;
pub use auditing::audit_source;

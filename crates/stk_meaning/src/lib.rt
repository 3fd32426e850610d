//! What the program means: path runs and executions of functions, what they hit, which sets of conditions suffice, and
//! which findings are lawful. These are the definitions that every answer of the checker is proved against.
#![tactic(auto)]

mod entry;
mod finding;

pub use entry::Entry;
pub use finding::{Finding, Need, Phase};

//! The types of the bodies of functions: local declarations, labels, statements, and a function definition whole.
#![tactic(auto)]

mod forms;
mod functions;
mod initials;
mod labels;
mod locals;
mod places;
mod rules;
mod statements;

pub(crate) use forms::{discarded, returned, test};
pub use functions::function;
pub use labels::Labels;
pub(crate) use labels::put_labels;
pub(crate) use locals::declaration;

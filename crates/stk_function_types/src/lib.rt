//! What is known of the nodes of a function: their types as a typed body gives them, and how each is evaluated.
#![tactic(auto)]

mod expressions;
mod function_types;
mod initialisers;
mod roles;
mod statements;
mod visits;

pub use expressions::expression_visits;
pub use function_types::FunctionTypes;
pub use roles::{Role, Use, accesses};
pub use statements::{declaration_visits, function_visits};
pub use visits::{Visit, VisitForm};

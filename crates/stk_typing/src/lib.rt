//! The types of the nodes of expressions and initialisers, up to the first node that a rule refuses: the names in
//! force, and a walk over the tree that puts a fact for each node behind those before it.
#![tactic(auto)]

mod arrays;
mod bases;
mod calls;
mod expressions;
mod fitting;
mod initialiser_leaves;
mod initialisers;
mod leaves;
mod literals;
mod locals;
mod scope;
mod specifiers;

pub use arrays::{Size, declared_type, starred};
pub use bases::base_rule;
pub use calls::Arguments;
pub use expressions::{base, dimensions, expression, unevaluated};
pub use fitting::{fits, initial_refused};
pub use initialiser_leaves::Leaves;
pub use initialisers::initialiser;
pub use locals::{LocalName, Locals};
pub use scope::Scoped;

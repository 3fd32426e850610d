//! What typing knows of a node, and the type of each form of expression, or the rule that refuses it.
#![tactic(auto)]

mod assignments;
mod binary;
mod choices;
mod constants;
mod facts;
mod noting;
mod places;
mod types;
mod unary;
mod untyped;

pub use assignments::{assign_rule, step_rule};
pub use binary::binary_rule;
pub use choices::choice_rule;
pub use facts::{Constancy, NodeFact, TypeRole};
pub use noting::{fact, own};
pub use places::{arrow_rule, dot_rule, index_rule};
pub use types::{is_complete, is_scalar, is_struct, is_void, kind_of, pointee, reads_scalar};
pub use unary::{cast_rule, paren_rule, size_rule, type_size_rule, unary_rule};
pub use untyped::{Broken, Untyped};

//! What operators do to the numbers of a run, where they violate conditions, and which functions of the library have
//! values and conditions of their own. No call takes memory, but those that add to a list.
#![tactic(auto)]

mod libraries;
mod node_tests;
mod operating;
mod operators;
mod targets;
mod types;
mod words;

pub use libraries::{Library, library_named};
pub use node_tests::{
    NodeTests, index_node_tests, library_node_tests, push_conditions, push_violated,
    target_node_tests, unary_node_tests,
};
pub use operating::{absolute, flipped, moved_address, operated, replaced_truth};
pub use operators::{
    BinarySort, Operation, Operator, assigned_operator, gives_old, operation_of, sort_of,
    step_operator,
};
pub use targets::Target;
pub use types::{converted, is_array, number_kind};
pub use words::{Stride, Word};

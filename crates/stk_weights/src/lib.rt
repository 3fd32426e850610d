//! The weight of a function: how much the search for its findings may cost. It is a sum of a number for each node, each
//! memory object, and each pair of a kept object and another one.
//!
//! The nodes and the objects are gone through once, and then once more what is assigned in the function: a register
//! counts for each branch and loop in which it is assigned anywhere, so at an assignment it counts for those of the
//! open ones that began behind its last assignment. These are the innermost ones, which a search among those that are
//! open finds.
#![tactic(auto)]

mod counting;
mod evaluated;
mod events;
mod forms;
mod objects;
mod operations;
mod statements;
mod storing;
mod visits;
mod weighing;

pub use weighing::weight_of;

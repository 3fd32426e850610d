//! The nodes of a tree: their numbers and places as a layout gives them, and all of them in a row.
#![tactic(auto)]

mod cursor;
mod expressions;
mod lay_declarations;
mod lay_expressions;
mod lay_statements;
mod lay_units;
mod span_parts;
mod units;

pub use lay_units::lay_out;
pub use span_parts::{span_declaration, span_expression};
pub use units::{initialiser_nodes, unit_nodes};

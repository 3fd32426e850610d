//! Reading expressions from tokens (C11 6.5).
#![tactic(auto)]

pub mod bases;
mod build;
mod front;
mod leaves;
mod parse;
mod reader;
mod reading;

pub use front::{base, basic_base, begins_type, is_named};
pub use parse::Parse;
pub use reader::{FoundDimensions, array_parts, higher};
pub use reading::{Leading, expr, stopped};

//! What a comparison may be replaced by: of a sum or difference that is compared with one of its own operands, the
//! other operand compared with 0; and its text.
//!
//! Whether an operand of a sum is spelled like the other side is told token by token: no token behind the first
//! difference is printed, and no node behind it is looked at. Only where they are spelled alike are the operands
//! searched for effects. A node is looked at once in each of the comparisons round it, of which there are at most 400
//! in a tree that was read; so all comparisons of a function take linear time together, and mostly each ends with its
//! first tokens.
#![tactic(auto)]

mod effects;
mod replacing;
mod spelling;
mod text;

pub use replacing::{Replaced, replacement};
pub use text::replacement_text;

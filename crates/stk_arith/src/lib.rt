//! Circuits over rows of edges: arithmetic, comparisons and shifts, and rows that are taken bit by bit, cut, joined and
//! extended.
#![tactic(auto)]

mod bits;
mod compared;
mod leaves;
mod left;
mod order;
mod parts;
mod product;
mod quotient;
mod right;
mod shapes;
mod stages;
mod sums;

pub use bits::{and_rows, or_rows, xor_rows};
pub use compared::{equal, negative};
pub use leaves::{constant_row, gate_row};
pub use left::shift_left;
pub use order::less;
pub use parts::{any, select};
pub use product::multiply;
pub use quotient::{divide, remainder};
pub use right::{shift_right, shift_right_signed};
pub use shapes::{cut, joined, sign_extended, zero_extended};
pub use sums::{add, inverted_row, sub};

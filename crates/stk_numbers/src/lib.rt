//! The numbers of C: ranges and conversions of the integer kinds, values and conditions of operations, integer and
//! character constants, and the bytes of strings.
#![tactic(auto)]

mod arithmetic;
mod characters;
mod comparing;
mod conditions;
mod conversions;
mod digits;
mod integers;
mod kinds;
mod operators;
mod pointers;
mod shifting;
mod strings;
mod suffixes;
mod violations;

pub use arithmetic::{absolute, arith};
pub use characters::character_constant;
pub use comparing::compared;
pub use conditions::{CandKind, Candidate, Condition, Inputs, Kinds, UbKind};
pub use conversions::{common, promote};
pub use integers::integer_constant;
pub use kinds::{fits, signed, width, wrap};
pub use operators::{ArithOp, CompareOp, ShiftOp};
pub use pointers::{breaks_bounds, breaks_copy, breaks_move, distance, moved};
pub use shifting::{breaks_shift, shifted};
pub use stk_ctype::IntKind;
pub use strings::string_bytes;
pub use suffixes::{Suffix, constant_kind};
pub use violations::{breaks, breaks_abs};

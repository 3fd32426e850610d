//! SMT-LIB scripts as data: what they print, which texts they are, and what they mean.
#![tactic(auto)]

mod laws;
mod lexing;
mod operators;

pub use laws::{
    lexed_is_spelled, printed_is_read, read_is_printed, spelled_is_lexed, tables_agree,
    written_spells,
};
pub use lexing::{Token, lex};
pub use operators::{
    BinaryOp, ExtendOp, TestOp, UnaryOp, binary_name, extend_name, test_name, unary_name,
};

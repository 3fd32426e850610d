//! The trees of C, whole: every construct that the checker reads, with the tokens that each prints.
//!
//! A tree keeps spans into the input where the text matters, as for names and numbers, and variants where the words are
//! fixed. Its nodes carry their numbers and the stretch of the input that they cover.
#![tactic(auto)]

mod declaration;
mod expression;
mod fixed;
pub mod levels;
mod limits;
mod node;
mod parts;
mod statement;
mod tables;
mod text;
mod unit;

pub use declaration::{
    Base, BaseForm, Declaration, Declr, Desig, Dimension, Enumr, Init, Item, Member, Param,
    Storage, Tail, TypeName,
};
pub use expression::{AssignOp, BinaryOp, Expr, ExprForm, StepOp, UnaryOp};
pub use fixed::{Fixed, Lexeme};
pub use limits::MOST_NESTING;
pub use node::{Node, no_node};
pub use parts::is_static;
pub use statement::{Label, Part, Section, Start, Stmt, StmtForm};
pub use tables::{binary_level, is_basic};
pub use text::{fixed_of, spelling};
pub use unit::{Function, Unit};

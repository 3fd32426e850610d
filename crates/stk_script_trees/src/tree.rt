//! The trees of scripts.

use stk_base::{Boxed, List, Span};
use stk_scripts::{BinaryOp, ExtendOp, TestOp, UnaryOp};

/// A term (SMT-LIB 2.6, section 3.6). A span is that of a name in the text.
#[derive(Drop)]
pub enum Expr {
    /// A name.
    Named(Span),
    /// `(_ bvN W)`: the width, and the number.
    Literal(u128, u128),
    /// An operator on one term.
    One(UnaryOp, Boxed<Expr>),
    /// An operator on two terms.
    Two(BinaryOp, Boxed<Expr>, Boxed<Expr>),
    /// `concat`: the bits of the first in front of those of the second.
    Joined(Boxed<Expr>, Boxed<Expr>),
    /// `(_ extract H L)`: the bits from the high one down to the low one.
    Cut(u128, u128, Boxed<Expr>),
    /// `(_ zero_extend K)` and `(_ sign_extend K)`: so many more bits in front.
    Widened(ExtendOp, u128, Boxed<Expr>),
    /// `ite` with a comparison of the first two: the third where it holds, and else the fourth.
    Chosen(TestOp, Boxed<Expr>, Boxed<Expr>, Boxed<Expr>, Boxed<Expr>),
}

/// A comparison of two terms.
#[derive(Drop)]
pub struct Test {
    pub op: TestOp,
    pub left: Boxed<Expr>,
    pub right: Boxed<Expr>,
}

/// An input: its name, and its width, which may be any number below 2 to 128 here.
#[derive(Clone, Copy, Debug, PartialEq, Eq)]
pub struct Declared {
    pub name: Span,
    pub width: u128,
}

/// A name for a term, and its width, which may be any number below 2 to 128 here.
#[derive(Drop)]
pub struct Defined {
    pub name: Span,
    pub width: u128,
    pub body: Boxed<Expr>,
}

/// A script: whether the logic is said first, the inputs and the definitions in order, and the comparison that is
/// asserted.
#[derive(Drop)]
pub struct Script {
    pub has_logic: bool,
    pub declared: List<Declared>,
    pub defined: List<Defined>,
    pub test: Test,
}

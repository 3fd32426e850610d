//! Right sides of rules: what stands for a term, said before it is made.

use stk_terms::{TermId, TermOp};

/// What stands for a term.
#[derive(Drop)]
pub enum Right {
    /// A term that is there.
    Old(TermId),
    /// The term itself, which has no arguments.
    Leaf(TermId),
    /// The constant of a width and a number.
    Number(u8, u128),
    /// An operator over one term.
    One(TermOp, TermId),
    /// An operator over two terms.
    Two(TermOp, TermId, TermId),
    /// An operator over a term and the constant of a width and a number.
    Last(TermOp, TermId, u8, u128),
    /// The second term where the first is 1, and else the third.
    Chosen(TermId, TermId, TermId),
}

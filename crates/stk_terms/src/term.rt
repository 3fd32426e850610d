//! What a term is made of: an operator and the places of its arguments.

use smallvec::SmallVec;

/// A term's place among the terms of its store, counted from 0.
#[derive(Clone, Copy, Debug, PartialEq, Eq, Hash, Default)]
pub struct TermId(pub usize);

/// The operators on bit vectors, of widths from 1 to 128. Numbers in an operator are widths and the place of a bit,
/// but for a constant's number and an input's key.
#[derive(Clone, Copy, Debug, PartialEq, Eq, Hash)]
pub enum TermOp {
    /// A width and a number below 2 to it.
    Constant(u8, u128),
    /// The input of this number, counted from 0.
    Input(u32),
    /// Each bit inverted.
    Not,
    /// 2 to the width less the number, modulo 2 to the width.
    Neg,
    And,
    Or,
    Xor,
    Add,
    Sub,
    Mul,
    /// The quotient without signs; by 0 it is 0.
    UDiv,
    /// The remainder without signs; by 0 it is the left operand.
    URem,
    /// To the left by an unsigned count; by at least the width it is 0.
    Shl,
    /// To the right by an unsigned count, filled with zeros; by at least the width it is 0.
    LShr,
    /// To the right by an unsigned count, filled with the sign bit; by at least the width all bits are the sign bit.
    AShr,
    /// Whether two terms are equal, as a term of width 1.
    Eq,
    /// Whether the first is less than the second, without signs, as a term of width 1.
    ULt,
    /// Whether the first is less than the second in two's complement, as a term of width 1.
    SLt,
    /// The bits from a place on, least bit first, as many as the width says.
    Extract(u8, u8),
    /// Zeros in front, up to this width.
    ZeroExt(u8),
    /// Copies of the sign bit in front, up to this width.
    SignExt(u8),
    /// The bits of the first argument in front of those of the second.
    Concat,
    /// The second argument where the first, of width 1, is 1, and else the third.
    Ite,
}

/// An operator and its arguments, with the width that they have.
#[derive(PartialEq, Eq, Hash, Drop)]
pub struct TermNode {
    pub op: TermOp,
    pub args: SmallVec<TermId, 3>,
    pub width: u8,
}

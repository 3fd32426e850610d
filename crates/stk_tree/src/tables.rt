//! Tables over single words and operators that several readers of trees go by.
ghost use Rattle.std.specs.Prelude.{◌≡◌, ◌≤◌};
ghost use Rattle.stk_tree.specs.Placed.{binary_level, is_basic};

use crate::{BinaryOp, Fixed, levels};

/// The level of a binary operator (C11 6.5.5 to 6.5.14, 6.5.17).
pub fn binary_level(op: BinaryOp) -> usize
    ensures value { result ≡ binary_level op }
    ensures low { result ≤ 13 }
{
    match op {
        BinaryOp::Comma => levels::COMMA,
        BinaryOp::OrElse => levels::LOGICAL_OR,
        BinaryOp::AndAlso => levels::LOGICAL_AND,
        BinaryOp::Or => levels::OR,
        BinaryOp::Xor => levels::XOR,
        BinaryOp::And => levels::AND,
        BinaryOp::Eq | BinaryOp::Ne => levels::EQUALITY,
        BinaryOp::Lt | BinaryOp::Gt | BinaryOp::Le | BinaryOp::Ge => levels::RELATIONAL,
        BinaryOp::Left | BinaryOp::Right => levels::SHIFT,
        BinaryOp::Add | BinaryOp::Sub => levels::ADDITIVE,
        BinaryOp::Mul | BinaryOp::Div | BinaryOp::Rem => levels::MULTIPLICATIVE,
    }
}

/// Whether a reserved word is one of the words of the basic types (C11 6.7.2).
pub fn is_basic(word: Fixed) -> bool
    ensures { result ≡ is_basic word }
{
    matches!(
        word,
        Fixed::Void
            | Fixed::Char
            | Fixed::Short
            | Fixed::Int
            | Fixed::Long
            | Fixed::Signed
            | Fixed::Unsigned
            | Fixed::Bool
    )
}

//! The punctuators of operators.

ghost use Rattle.std.specs.Prelude.{◌≡◌};
ghost use Rattle.stk_tree.specs.Tokens.{assign_punctuator, binary_punctuator, unary_punctuator};

use stk_tree::{AssignOp, BinaryOp, Fixed, UnaryOp};

/// The punctuator of a unary operator.
pub(crate) fn unary_punctuator(op: UnaryOp) -> Fixed
    ensures { result ≡ unary_punctuator op }
{
    match op {
        UnaryOp::Address => Fixed::Ampersand,
        UnaryOp::Deref => Fixed::Star,
        UnaryOp::Plus => Fixed::Plus,
        UnaryOp::Minus => Fixed::Minus,
        UnaryOp::Flip => Fixed::Tilde,
        UnaryOp::Not => Fixed::Exclamation,
    }
}

/// The punctuator of a binary operator.
pub(crate) fn binary_punctuator(op: BinaryOp) -> Fixed
    ensures { result ≡ binary_punctuator op }
{
    match op {
        BinaryOp::Comma => Fixed::Comma,
        BinaryOp::OrElse => Fixed::OrOr,
        BinaryOp::AndAlso => Fixed::AndAnd,
        BinaryOp::Or => Fixed::Pipe,
        BinaryOp::Xor => Fixed::Caret,
        BinaryOp::And => Fixed::Ampersand,
        BinaryOp::Eq => Fixed::EqualEqual,
        BinaryOp::Ne => Fixed::NotEqual,
        BinaryOp::Lt => Fixed::Less,
        BinaryOp::Gt => Fixed::Greater,
        BinaryOp::Le => Fixed::LessEqual,
        BinaryOp::Ge => Fixed::GreaterEqual,
        BinaryOp::Left => Fixed::LeftShift,
        BinaryOp::Right => Fixed::RightShift,
        BinaryOp::Add => Fixed::Plus,
        BinaryOp::Sub => Fixed::Minus,
        BinaryOp::Mul => Fixed::Star,
        BinaryOp::Div => Fixed::Slash,
        BinaryOp::Rem => Fixed::Percent,
    }
}

/// The punctuator of an assignment operator.
pub(crate) fn assign_punctuator(op: AssignOp) -> Fixed
    ensures { result ≡ assign_punctuator op }
{
    match op {
        AssignOp::Plain => Fixed::Assign,
        AssignOp::Mul => Fixed::StarAssign,
        AssignOp::Div => Fixed::SlashAssign,
        AssignOp::Rem => Fixed::PercentAssign,
        AssignOp::Add => Fixed::PlusAssign,
        AssignOp::Sub => Fixed::MinusAssign,
        AssignOp::Left => Fixed::LeftShiftAssign,
        AssignOp::Right => Fixed::RightShiftAssign,
        AssignOp::And => Fixed::AmpersandAssign,
        AssignOp::Xor => Fixed::CaretAssign,
        AssignOp::Or => Fixed::PipeAssign,
    }
}

//! Which token begins what: the tables that the readers of expressions go by.

ghost use Rattle.std.specs.Prelude.{◌≡◌};
ghost use Rattle.stk_grammar.specs.Reading.{opener_leaf, opener_punctuator, opener_of, suffix_left, suffix_level, suffix_punctuator, suffix_of};

use stk_base::{Class, Span};
use stk_tree::{AssignOp, BinaryOp, Fixed, Lexeme, UnaryOp, binary_level, levels};

/// What an operand begins with, by its first token.
#[derive(Clone, Copy, Debug, PartialEq, Eq)]
pub enum Opener {
    Name(Span),
    Number(Span),
    Character(Span),
    Text(Span),
    Paren,
    SizeOf,
    Increment,
    Decrement,
    Unary(UnaryOp),
}

/// What may stand behind an operand, by the token that it begins with.
#[derive(Clone, Copy, Debug, PartialEq, Eq)]
pub enum Suffix {
    Binary(BinaryOp),
    Assign(AssignOp),
    Choice,
    Index,
    Call,
    Dot,
    Arrow,
    Increment,
    Decrement,
}

/// What may stand behind an operand and begins with this punctuator; `None` where nothing does.
pub(crate) fn suffix_punctuator(punctuator: Fixed) -> Option<Suffix>
    ensures { result ≡ suffix_punctuator punctuator }
{
    match punctuator {
        Fixed::Comma => Some(Suffix::Binary(BinaryOp::Comma)),
        Fixed::OrOr => Some(Suffix::Binary(BinaryOp::OrElse)),
        Fixed::AndAnd => Some(Suffix::Binary(BinaryOp::AndAlso)),
        Fixed::Pipe => Some(Suffix::Binary(BinaryOp::Or)),
        Fixed::Caret => Some(Suffix::Binary(BinaryOp::Xor)),
        Fixed::Ampersand => Some(Suffix::Binary(BinaryOp::And)),
        Fixed::EqualEqual => Some(Suffix::Binary(BinaryOp::Eq)),
        Fixed::NotEqual => Some(Suffix::Binary(BinaryOp::Ne)),
        Fixed::Less => Some(Suffix::Binary(BinaryOp::Lt)),
        Fixed::Greater => Some(Suffix::Binary(BinaryOp::Gt)),
        Fixed::LessEqual => Some(Suffix::Binary(BinaryOp::Le)),
        Fixed::GreaterEqual => Some(Suffix::Binary(BinaryOp::Ge)),
        Fixed::LeftShift => Some(Suffix::Binary(BinaryOp::Left)),
        Fixed::RightShift => Some(Suffix::Binary(BinaryOp::Right)),
        Fixed::Plus => Some(Suffix::Binary(BinaryOp::Add)),
        Fixed::Minus => Some(Suffix::Binary(BinaryOp::Sub)),
        Fixed::Star => Some(Suffix::Binary(BinaryOp::Mul)),
        Fixed::Slash => Some(Suffix::Binary(BinaryOp::Div)),
        Fixed::Percent => Some(Suffix::Binary(BinaryOp::Rem)),
        Fixed::Assign => Some(Suffix::Assign(AssignOp::Plain)),
        Fixed::StarAssign => Some(Suffix::Assign(AssignOp::Mul)),
        Fixed::SlashAssign => Some(Suffix::Assign(AssignOp::Div)),
        Fixed::PercentAssign => Some(Suffix::Assign(AssignOp::Rem)),
        Fixed::PlusAssign => Some(Suffix::Assign(AssignOp::Add)),
        Fixed::MinusAssign => Some(Suffix::Assign(AssignOp::Sub)),
        Fixed::LeftShiftAssign => Some(Suffix::Assign(AssignOp::Left)),
        Fixed::RightShiftAssign => Some(Suffix::Assign(AssignOp::Right)),
        Fixed::AmpersandAssign => Some(Suffix::Assign(AssignOp::And)),
        Fixed::CaretAssign => Some(Suffix::Assign(AssignOp::Xor)),
        Fixed::PipeAssign => Some(Suffix::Assign(AssignOp::Or)),
        Fixed::Question => Some(Suffix::Choice),
        Fixed::LeftBracket => Some(Suffix::Index),
        Fixed::LeftParen => Some(Suffix::Call),
        Fixed::Dot => Some(Suffix::Dot),
        Fixed::Arrow => Some(Suffix::Arrow),
        Fixed::PlusPlus => Some(Suffix::Increment),
        Fixed::MinusMinus => Some(Suffix::Decrement),
        _ => None,
    }
}

/// What may stand behind an operand and begins with this token; `None` where nothing does.
pub fn suffix_of(lexeme: Lexeme) -> Option<Suffix>
    ensures { result ≡ suffix_of lexeme }
{
    match lexeme {
        Lexeme::Fixed(punctuator) => suffix_punctuator(punctuator),
        Lexeme::Leaf(_, _) => None,
    }
}

/// The level of the expression that a suffix makes.
pub fn suffix_level(suffix: Suffix) -> usize
    ensures { result ≡ suffix_level suffix }
{
    match suffix {
        Suffix::Binary(op) => binary_level(op),
        Suffix::Assign(_) => levels::ASSIGNMENT,
        Suffix::Choice => levels::CONDITIONAL,
        Suffix::Index
        | Suffix::Call
        | Suffix::Dot
        | Suffix::Arrow
        | Suffix::Increment
        | Suffix::Decrement => levels::POSTFIX,
    }
}

/// The least level of the operand that a suffix may follow.
pub fn suffix_left(suffix: Suffix) -> usize
    ensures { result ≡ suffix_left suffix }
{
    match suffix {
        Suffix::Binary(op) => binary_level(op),
        Suffix::Assign(_) => levels::UNARY,
        Suffix::Choice => levels::LOGICAL_OR,
        Suffix::Index
        | Suffix::Call
        | Suffix::Dot
        | Suffix::Arrow
        | Suffix::Increment
        | Suffix::Decrement => levels::POSTFIX,
    }
}

/// What an operand that begins with this punctuator begins with; `None` where none does.
pub(crate) fn opener_punctuator(punctuator: Fixed) -> Option<Opener>
    ensures { result ≡ opener_punctuator punctuator }
{
    match punctuator {
        Fixed::LeftParen => Some(Opener::Paren),
        Fixed::Sizeof => Some(Opener::SizeOf),
        Fixed::PlusPlus => Some(Opener::Increment),
        Fixed::MinusMinus => Some(Opener::Decrement),
        Fixed::Ampersand => Some(Opener::Unary(UnaryOp::Address)),
        Fixed::Star => Some(Opener::Unary(UnaryOp::Deref)),
        Fixed::Plus => Some(Opener::Unary(UnaryOp::Plus)),
        Fixed::Minus => Some(Opener::Unary(UnaryOp::Minus)),
        Fixed::Tilde => Some(Opener::Unary(UnaryOp::Flip)),
        Fixed::Exclamation => Some(Opener::Unary(UnaryOp::Not)),
        _ => None,
    }
}

/// What an operand that begins with a leaf of this class begins with; `None` where none does.
pub(crate) fn opener_leaf(class: Class, at: Span) -> Option<Opener>
    ensures { result ≡ opener_leaf class at }
{
    match class {
        Class::Word => Some(Opener::Name(at)),
        Class::Number => Some(Opener::Number(at)),
        Class::Character => Some(Opener::Character(at)),
        Class::Text => Some(Opener::Text(at)),
        Class::Punctuator | Class::Stray => None,
    }
}

/// What an operand that begins with this token begins with; `None` where none does.
pub fn opener_of(lexeme: Lexeme) -> Option<Opener>
    ensures { result ≡ opener_of lexeme }
{
    match lexeme {
        Lexeme::Fixed(punctuator) => opener_punctuator(punctuator),
        Lexeme::Leaf(class, at) => opener_leaf(class, at),
    }
}

//! Which token begins what statement.

ghost use Rattle.std.specs.Prelude.{◌≡◌};
ghost use Rattle.stk_grammar.specs.StatementReading.{kind_punctuator};

use stk_tree::Fixed;

/// What a statement is, by its first token (C11 6.8). A plain one begins with its expression, or is a lone `;`.
#[derive(Clone, Copy, Debug, PartialEq, Eq)]
pub enum Kind {
    Block,
    If,
    Switch,
    While,
    Do,
    For,
    Break,
    Continue,
    Return,
    Plain,
}

/// What a statement that begins with this punctuator or word is: `Plain` also where none begins so.
pub(crate) fn kind_punctuator(punctuator: Fixed) -> Kind
    ensures { result ≡ kind_punctuator punctuator }
{
    match punctuator {
        Fixed::LeftBrace => Kind::Block,
        Fixed::If => Kind::If,
        Fixed::Switch => Kind::Switch,
        Fixed::While => Kind::While,
        Fixed::Do => Kind::Do,
        Fixed::For => Kind::For,
        Fixed::Break => Kind::Break,
        Fixed::Continue => Kind::Continue,
        Fixed::Return => Kind::Return,
        _ => Kind::Plain,
    }
}

//! What stands at the front of some tokens, where it is a word or a punctuator of declarations.

ghost use Rattle.std.specs.Prelude.{◌≡◌, option_map};
ghost use Rattle.stk_grammar.specs.Declarations.{opens_body};
ghost use Rattle.stk_grammar.specs.DeclarationReading.{begins_designator, behind_void, more_ends, optional_word_at, storage_at};

use crate::behind_right_paren;
use crate::punctuators::behind_ellipsis;
use stk_base::{Class, Span};
use stk_tree::{Fixed, Lexeme, Storage};

/// The storage word at the front, which may be missing, and the tokens behind it (C11 6.7.1).
pub fn storage_at(lexemes: &[Lexeme]) -> (Option<Storage>, &[Lexeme])
    ensures { (result.0, result.1.now) ≡ storage_at lexemes.now }
{
    match lexemes.split_first() {
        Some((Lexeme::Fixed(Fixed::Typedef), rest)) => (Some(Storage::Typedef), rest),
        Some((Lexeme::Fixed(Fixed::Extern), rest)) => (Some(Storage::Extern), rest),
        Some((Lexeme::Fixed(Fixed::Static), rest)) => (Some(Storage::Static), rest),
        _ => (None, lexemes),
    }
}

/// The span of a word that isn't reserved, which may be missing, and the tokens behind it.
pub fn optional_word_at(lexemes: &[Lexeme]) -> (Option<Span>, &[Lexeme])
    ensures { (result.0, result.1.now) ≡ optional_word_at lexemes.now }
{
    match lexemes.split_first() {
        Some((Lexeme::Leaf(Class::Word, at), rest)) => (Some(*at), rest),
        _ => (None, lexemes),
    }
}

/// The tokens behind `void` and `)`; `None` where something else stands at the front (C11 6.7.6.3).
pub fn behind_void(lexemes: &[Lexeme]) -> Option<&[Lexeme]>
    ensures { option_map (λ x. x.now) result ≡ behind_void lexemes.now }
{
    match lexemes.split_first()? {
        (Lexeme::Fixed(Fixed::Void), rest) => behind_right_paren(rest),
        _ => None,
    }
}

/// The tokens behind `...` and `)`; `None` where something else stands at the front (C11 6.7.6.3).
pub fn behind_more(lexemes: &[Lexeme]) -> Option<&[Lexeme]>
    ensures { option_map (λ x. x.now) result ≡ more_ends lexemes.now }
{
    behind_right_paren(behind_ellipsis(lexemes)?)
}

/// Whether a designator begins here: with a `.` or a `[` (C11 6.7.9).
pub fn begins_designator(lexemes: &[Lexeme]) -> bool
    ensures { result ≡ begins_designator lexemes.now }
{
    matches!(
        lexemes.first(),
        Some(Lexeme::Fixed(Fixed::Dot | Fixed::LeftBracket))
    )
}

/// Whether the body of a function begins here: with a `{` (C11 6.9.1).
pub fn opens_body(lexemes: &[Lexeme]) -> bool
    ensures { result ≡ opens_body lexemes.now }
{
    matches!(lexemes.first(), Some(Lexeme::Fixed(Fixed::LeftBrace)))
}

//! The tokens behind a punctuator or a word, where one stands at the front of some tokens.

ghost use Rattle.std.specs.Prelude.{◌≡◌, ◌+◌, ◌≤◌, length, option_map};
ghost use Rattle.stk_grammar.specs.Reading.{basic_at, behind_assign, behind_colon, behind_comma, behind_dot, behind_ellipsis, behind_left_brace, behind_left_bracket, behind_left_paren, behind_right_brace, behind_right_bracket, behind_right_paren, behind_semicolon, is_tag_word, stars_at, word_at};

use stk_base::{Class, Span};
use stk_tree::{Fixed, Lexeme, is_basic};

/// The tokens behind a `)`; `None` where something else stands at the front.
pub fn behind_right_paren(lexemes: &[Lexeme]) -> Option<&[Lexeme]>
    ensures { option_map (λ x. x.now) result ≡ behind_right_paren lexemes.now }
{
    match lexemes.split_first()? {
        (Lexeme::Fixed(Fixed::RightParen), rest) => Some(rest),
        _ => None,
    }
}

/// The tokens behind a `(`; `None` where something else stands at the front.
pub fn behind_left_paren(lexemes: &[Lexeme]) -> Option<&[Lexeme]>
    ensures { option_map (λ x. x.now) result ≡ behind_left_paren lexemes.now }
{
    match lexemes.split_first()? {
        (Lexeme::Fixed(Fixed::LeftParen), rest) => Some(rest),
        _ => None,
    }
}

/// The tokens behind a `]`; `None` where something else stands at the front.
pub fn behind_right_bracket(lexemes: &[Lexeme]) -> Option<&[Lexeme]>
    ensures { option_map (λ x. x.now) result ≡ behind_right_bracket lexemes.now }
{
    match lexemes.split_first()? {
        (Lexeme::Fixed(Fixed::RightBracket), rest) => Some(rest),
        _ => None,
    }
}

/// The tokens behind a `[`; `None` where something else stands at the front.
pub fn behind_left_bracket(lexemes: &[Lexeme]) -> Option<&[Lexeme]>
    ensures { option_map (λ x. x.now) result ≡ behind_left_bracket lexemes.now }
{
    match lexemes.split_first()? {
        (Lexeme::Fixed(Fixed::LeftBracket), rest) => Some(rest),
        _ => None,
    }
}

/// The tokens behind a `}`; `None` where something else stands at the front.
pub fn behind_right_brace(lexemes: &[Lexeme]) -> Option<&[Lexeme]>
    ensures { option_map (λ x. x.now) result ≡ behind_right_brace lexemes.now }
{
    match lexemes.split_first()? {
        (Lexeme::Fixed(Fixed::RightBrace), rest) => Some(rest),
        _ => None,
    }
}

/// The tokens behind a `{`; `None` where something else stands at the front.
pub fn behind_left_brace(lexemes: &[Lexeme]) -> Option<&[Lexeme]>
    ensures { option_map (λ x. x.now) result ≡ behind_left_brace lexemes.now }
{
    match lexemes.split_first()? {
        (Lexeme::Fixed(Fixed::LeftBrace), rest) => Some(rest),
        _ => None,
    }
}

/// The tokens behind a `:`; `None` where something else stands at the front.
pub fn behind_colon(lexemes: &[Lexeme]) -> Option<&[Lexeme]>
    ensures { option_map (λ x. x.now) result ≡ behind_colon lexemes.now }
{
    match lexemes.split_first()? {
        (Lexeme::Fixed(Fixed::Colon), rest) => Some(rest),
        _ => None,
    }
}

/// The tokens behind a `,`; `None` where something else stands at the front.
pub fn behind_comma(lexemes: &[Lexeme]) -> Option<&[Lexeme]>
    ensures { option_map (λ x. x.now) result ≡ behind_comma lexemes.now }
{
    match lexemes.split_first()? {
        (Lexeme::Fixed(Fixed::Comma), rest) => Some(rest),
        _ => None,
    }
}

/// The tokens behind a `;`; `None` where something else stands at the front.
pub fn behind_semicolon(lexemes: &[Lexeme]) -> Option<&[Lexeme]>
    ensures { option_map (λ x. x.now) result ≡ behind_semicolon lexemes.now }
{
    match lexemes.split_first()? {
        (Lexeme::Fixed(Fixed::Semicolon), rest) => Some(rest),
        _ => None,
    }
}

/// The tokens behind a `=`; `None` where something else stands at the front.
pub fn behind_assign(lexemes: &[Lexeme]) -> Option<&[Lexeme]>
    ensures { option_map (λ x. x.now) result ≡ behind_assign lexemes.now }
{
    match lexemes.split_first()? {
        (Lexeme::Fixed(Fixed::Assign), rest) => Some(rest),
        _ => None,
    }
}

/// The tokens behind a `.`; `None` where something else stands at the front.
pub fn behind_dot(lexemes: &[Lexeme]) -> Option<&[Lexeme]>
    ensures { option_map (λ x. x.now) result ≡ behind_dot lexemes.now }
{
    match lexemes.split_first()? {
        (Lexeme::Fixed(Fixed::Dot), rest) => Some(rest),
        _ => None,
    }
}

/// The tokens behind a `...`; `None` where something else stands at the front.
pub(crate) fn behind_ellipsis(lexemes: &[Lexeme]) -> Option<&[Lexeme]>
    ensures { option_map (λ x. x.now) result ≡ behind_ellipsis lexemes.now }
{
    match lexemes.split_first()? {
        (Lexeme::Fixed(Fixed::Ellipsis), rest) => Some(rest),
        _ => None,
    }
}

/// The span of a word that isn't reserved, and the tokens behind it; `None` where something else stands at the front.
pub fn word_at(lexemes: &[Lexeme]) -> Option<(Span, &[Lexeme])>
    ensures { option_map (λ x. (x.0, x.1.now)) result ≡ word_at lexemes.now }
{
    match lexemes.split_first()? {
        (Lexeme::Leaf(Class::Word, at), rest) => Some((*at, rest)),
        _ => None,
    }
}

/// Whether a tag follows this reserved word: `struct` and `enum` (C11 6.7.2).
pub fn is_tag_word(word: Fixed) -> bool
    ensures { result ≡ is_tag_word word }
{
    matches!(word, Fixed::Struct | Fixed::Enum)
}

/// A basic word, and the tokens behind it; `None` where something else stands at the front.
pub fn basic_at(lexemes: &[Lexeme]) -> Option<(Fixed, &[Lexeme])>
    ensures { option_map (λ x. (x.0, x.1.now)) result ≡ basic_at lexemes.now }
{
    match lexemes.split_first()? {
        (Lexeme::Fixed(word), rest) => {
            if is_basic(*word) {
                Some((*word, rest))
            } else {
                None
            }
        }
        _ => None,
    }
}

/// How many `*` stand here, and the tokens behind them.
#[tactic(auto, unfolding(crate::specs::Reading::stars_at))]
pub fn stars_at(lexemes: &[Lexeme]) -> (usize, &[Lexeme])
    ensures value { stars_at 0 lexemes.now ≡ (result.0, result.1.now) }
    ensures few { result.0 + length result.1.now ≤ length lexemes.now }
{
    let mut stars = 0;
    let mut rest = lexemes;
    while let Some((Lexeme::Fixed(Fixed::Star), behind)) = rest.split_first() {
        stars += 1;
        rest = behind;
    }
    (stars, rest)
}

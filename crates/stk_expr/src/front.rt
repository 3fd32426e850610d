//! What stands at the front of some tokens.

ghost use Rattle.std.specs.Prelude.{◌≡◌, ◌∷◌, None, IfOk, cond, option_map};
ghost use Rattle.stk_tree.specs.Nesting.{base_form_nesting};
ghost use Rattle.stk_tree.specs.Placed.{is_basic};
ghost use Rattle.stk_tree.specs.View.{view_base_form};
ghost use Rattle.stk_grammar.specs.Expressions.{stop_punctuator, stops};
ghost use Rattle.stk_grammar.specs.Reading.{base_at, begins_type, behind_left_paren, first_opener, opens_type, tag_base, taken, texts_at, words_at, words_base};
ghost use Rattle.stk_expr.specs.Fronts.{text_at};
ghost use Rattle.stk_ctype.specs.Named.{named};
ghost use Rattle.stk_expr.specs.Gives.{Gives};

use crate::bases;
use crate::parse::Parse;
use std::alloc::{AllocFailed, Global};
use stk_base::{Class, List, Span};
use stk_ctype::Names;
use stk_grammar::{
    Opener, Suffix, basic_at, behind_left_paren, is_tag_word, opener_of, suffix_left, suffix_level,
    suffix_of, word_at,
};
use stk_tree::{BaseForm, Fixed, Lexeme, is_basic};

fn text_at(lexemes: &[Lexeme]) -> Option<(Span, &[Lexeme])>
    ensures { option_map (λ x. (x.0, x.1.now)) result ≡ text_at lexemes.now }
{
    match lexemes.split_first()? {
        (Lexeme::Leaf(Class::Text, at), rest) => Some((*at, rest)),
        _ => None,
    }
}

/// What an operand begins with, where one begins here.
pub(crate) fn first_opener(lexemes: &[Lexeme]) -> Option<(Opener, &[Lexeme])>
    ensures { option_map (λ x. (x.0, x.1.now)) result ≡ first_opener lexemes.now }
{
    let (lexeme, rest) = lexemes.split_first()?;
    let opener = opener_of(*lexeme)?;
    Some((opener, rest))
}

/// The suffix that an operand of this level takes, where an expression of the level `least` is wanted.
pub(crate) fn taken(least: usize, left: usize, lexemes: &[Lexeme]) -> Option<(Suffix, &[Lexeme])>
    ensures { option_map (λ x. (x.0, x.1.now)) result ≡ taken least left lexemes.now }
{
    let (lexeme, rest) = lexemes.split_first()?;
    let suffix = suffix_of(*lexeme)?;
    if least <= suffix_level(suffix) && suffix_left(suffix) <= left {
        Some((suffix, rest))
    } else {
        None
    }
}

fn stop_punctuator(least: usize, punctuator: Fixed) -> bool
    ensures { result ≡ stop_punctuator least punctuator }
{
    match punctuator {
        Fixed::RightParen
        | Fixed::RightBracket
        | Fixed::RightBrace
        | Fixed::Semicolon
        | Fixed::Colon => true,
        Fixed::Comma => least >= 2,
        _ => false,
    }
}

/// Whether an expression of the level `least` may end before these tokens.
pub(crate) fn stops(least: usize, lexemes: &[Lexeme]) -> bool
    ensures { result ≡ stops least lexemes.now }
{
    match lexemes.first() {
        None => true,
        Some(Lexeme::Fixed(punctuator)) => stop_punctuator(least, *punctuator),
        Some(Lexeme::Leaf(_, _)) => false,
    }
}

/// Whether the word at a span is a typedef name in force.
#[tactic(auto, unfolding(stk_ctype::specs::Named::named))]
pub fn is_named(bytes: &[u8], names: &Names, at: Span) -> bool
    ensures { result ≡ named bytes.now names.now at }
{
    names.is_type(at.text(bytes))
}

/// Whether a type name begins here.
pub fn begins_type(bytes: &[u8], names: &Names, lexemes: &[Lexeme]) -> bool
    ensures { result ≡ begins_type (named bytes.now names.now) lexemes.now }
{
    match lexemes.first() {
        None => false,
        Some(Lexeme::Leaf(Class::Word, at)) => is_named(bytes, names, *at),
        Some(Lexeme::Leaf(_, _)) => false,
        Some(Lexeme::Fixed(word)) => is_basic(*word) || is_tag_word(*word),
    }
}

/// Whether a type name in parentheses begins here.
pub(crate) fn opens_type(bytes: &[u8], names: &Names, lexemes: &[Lexeme]) -> bool
    ensures { result ≡ opens_type (named bytes.now names.now) (behind_left_paren lexemes.now) }
{
    match behind_left_paren(lexemes) {
        None => false,
        Some(inside) => begins_type(bytes, names, inside),
    }
}

/// String literals in a row, the first of which is past.
pub(crate) fn texts(
    alloc: Global,
    first: Span,
    lexemes: &[Lexeme],
) -> Result<(List<Span>, &[Lexeme]), AllocFailed<Span>>
    ensures { IfOk result (λ x. (x.0 ≡ first ∷ (texts_at lexemes.now).0) × (x.1.now ≡ (texts_at lexemes.now).1)) }
{
    let mut parts = Vec::new(alloc);
    parts.push(first)?;
    let mut rest = lexemes;
    while let Some((part, behind)) = text_at(rest) {
        parts.push(part)?;
        rest = behind;
    }
    Ok((List::from_vec(parts), rest))
}

/// Basic words in a row (C11 6.7.2), the first of which is past, and the tokens behind them. `AllocFailed` where memory
/// runs out.
pub(crate) fn words(
    alloc: Global,
    first: Fixed,
    lexemes: &[Lexeme],
) -> Result<(List<Fixed>, &[Lexeme]), AllocFailed<Fixed>>
    ensures { IfOk result (λ x. (x.0 ≡ first ∷ (words_at lexemes.now).0) × (x.1.now ≡ (words_at lexemes.now).1)) }
{
    let mut list = Vec::new(alloc);
    list.push(first)?;
    let mut rest = lexemes;
    while let Some((word, behind)) = basic_at(rest) {
        list.push(word)?;
        rest = behind;
    }
    Ok((List::from_vec(list), rest))
}

/// A base without braces, as a type name has it (C11 6.7.2): words of the basic types, `struct` or `enum` with a tag,
/// or a typedef name in force; and the tokens behind it. It nests nothing. `NoTree` where none stands at the front.
pub fn base<'a>(
    alloc: Global,
    bytes: &[u8],
    names: &Names,
    lexemes: &'a [Lexeme],
) -> Result<(BaseForm, &'a [Lexeme]), Parse>
    ensures value { Gives (λ x. (view_base_form x.0, x.1.now)) result (base_at (named bytes.now names.now) lexemes.now) }
    ensures flat { IfOk result (λ x. base_form_nesting (view_base_form x.0) ≡ 0) }
{
    let Some((lexeme, rest)) = lexemes.split_first() else {
        return Err(Parse::NoTree);
    };
    match lexeme {
        Lexeme::Leaf(Class::Word, at) => {
            if is_named(bytes, names, *at) {
                Ok((bases::named(*at), rest))
            } else {
                Err(Parse::NoTree)
            }
        }
        Lexeme::Leaf(_, _) => Err(Parse::NoTree),
        Lexeme::Fixed(word) => {
            if is_basic(*word) {
                let (list, rest) = words(alloc, *word, rest)?;
                Ok((bases::words(list), rest))
            } else {
                tag_base(*word, rest).ok_or(Parse::NoTree)
            }
        }
    }
}

/// Words of the basic types in a row (C11 6.7.2), the first of which is past, as a base; and the tokens behind them.
/// `NoTree` where the first isn't one of them.
pub fn basic_base(
    alloc: Global,
    word: Fixed,
    lexemes: &[Lexeme],
) -> Result<(BaseForm, &[Lexeme]), Parse>
    ensures value { Gives (λ x. (view_base_form x.0, x.1.now)) result (cond (is_basic word) (words_base word (words_at lexemes.now)) None) }
    ensures flat { IfOk result (λ x. base_form_nesting (view_base_form x.0) ≡ 0) }
{
    if !is_basic(word) {
        return Err(Parse::NoTree);
    }
    let (list, rest) = words(alloc, word, lexemes)?;
    Ok((bases::words(list), rest))
}

/// `struct tag` or `enum tag`, whose first word is past.
fn tag_base(word: Fixed, lexemes: &[Lexeme]) -> Option<(BaseForm, &[Lexeme])>
    ensures { option_map (λ x. (view_base_form x.0, x.1.now)) result ≡ tag_base word lexemes.now }
{
    match word {
        Fixed::Struct => {
            let (tag, rest) = word_at(lexemes)?;
            Some((bases::struct_ref(tag), rest))
        }
        Fixed::Enum => {
            let (tag, rest) = word_at(lexemes)?;
            Some((bases::enum_ref(tag), rest))
        }
        _ => None,
    }
}

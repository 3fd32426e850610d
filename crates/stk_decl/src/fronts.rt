//! Names at the front of some tokens.

ghost use Rattle.std.specs.Prelude.{◌≡◌, option_map};
ghost use Rattle.stk_grammar.specs.DeclarationReading.{declared_name_at, name_at, optional_name_at};
ghost use Rattle.stk_ctype.specs.Named.{named};

use stk_base::Span;
use stk_ctype::Names;
use stk_expr::is_named;
use stk_grammar::{optional_word_at, word_at};
use stk_tree::Lexeme;

/// A name: a word that is no typedef name in force.
pub(crate) fn name_at<'a>(
    bytes: &[u8],
    names: &Names,
    lexemes: &'a [Lexeme],
) -> Option<(Span, &'a [Lexeme])>
    ensures { option_map (λ x. (x.0, x.1.now)) result ≡ name_at (named bytes.now names.now) lexemes.now }
{
    let (at, rest) = word_at(lexemes)?;
    if is_named(bytes, names, at) {
        None
    } else {
        Some((at, rest))
    }
}

/// A name that may be missing.
fn optional_name_at<'a>(
    bytes: &[u8],
    names: &Names,
    lexemes: &'a [Lexeme],
) -> Option<(Option<Span>, &'a [Lexeme])>
    ensures { option_map (λ x. (x.0, x.1.now)) result ≡ optional_name_at (named bytes.now names.now) lexemes.now }
{
    match optional_word_at(lexemes) {
        (None, rest) => Some((None, rest)),
        (Some(word), rest) => {
            if is_named(bytes, names, word) {
                None
            } else {
                Some((Some(word), rest))
            }
        }
    }
}

/// A name, which may be missing where `nameless` says so.
pub(crate) fn declared_name_at<'a>(
    bytes: &[u8],
    names: &Names,
    nameless: bool,
    lexemes: &'a [Lexeme],
) -> Option<(Option<Span>, &'a [Lexeme])>
    ensures { option_map (λ x. (x.0, x.1.now)) result ≡ declared_name_at (named bytes.now names.now) nameless lexemes.now }
{
    if nameless {
        return optional_name_at(bytes, names, lexemes);
    }
    let (at, rest) = name_at(bytes, names, lexemes)?;
    Some((Some(at), rest))
}

//! How a row of elements goes on.

ghost use Rattle.std.specs.Prelude.{◌≡◌, option_map};
ghost use Rattle.stk_decl.specs.Turns.{brace_turn, declarator_turn, parameter_turn};

use stk_grammar::{
    behind_comma, behind_more, behind_right_brace, behind_right_paren, behind_semicolon,
};
use stk_tree::Lexeme;

/// How a row goes on at some tokens.
#[derive(Clone, Copy, Debug, PartialEq, Eq)]
pub enum Turn {
    /// One more element stands there.
    More,
    /// The row has ended; whether it was with a last comma, or with `...`.
    End(bool),
}

/// Behind an enumerator, or an item of an initialiser's braces.
pub(crate) fn brace_turn(lexemes: &[Lexeme]) -> Option<(Turn, &[Lexeme])>
    ensures { option_map (λ x. (x.0, x.1.now)) result ≡ brace_turn lexemes.now }
{
    let Some(next) = behind_comma(lexemes) else {
        let rest = behind_right_brace(lexemes)?;
        return Some((Turn::End(false), rest));
    };
    match behind_right_brace(next) {
        None => Some((Turn::More, next)),
        Some(rest) => Some((Turn::End(true), rest)),
    }
}

/// Behind a parameter.
pub(crate) fn parameter_turn(lexemes: &[Lexeme]) -> Option<(Turn, &[Lexeme])>
    ensures { option_map (λ x. (x.0, x.1.now)) result ≡ parameter_turn lexemes.now }
{
    let Some(next) = behind_comma(lexemes) else {
        let rest = behind_right_paren(lexemes)?;
        return Some((Turn::End(false), rest));
    };
    match behind_more(next) {
        None => Some((Turn::More, next)),
        Some(rest) => Some((Turn::End(true), rest)),
    }
}

/// Behind a declarator in a list.
pub(crate) fn declarator_turn(lexemes: &[Lexeme]) -> Option<(Turn, &[Lexeme])>
    ensures { option_map (λ x. (x.0, x.1.now)) result ≡ declarator_turn lexemes.now }
{
    let Some(next) = behind_comma(lexemes) else {
        let rest = behind_semicolon(lexemes)?;
        return Some((Turn::End(false), rest));
    };
    Some((Turn::More, next))
}

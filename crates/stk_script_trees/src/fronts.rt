//! What stands at the front of some tokens.

ghost use Rattle.std.specs.Prelude.{◌≡◌};
ghost use Rattle.std.specs.Option.{option_map};
ghost use Rattle.stk_scripts.specs.Shown.{tokens_shown};
ghost use Rattle.stk_scripts.specs.Numerals.{numeral};
ghost use Rattle.stk_scripts.specs.Syntax.{literal};
ghost use Rattle.stk_scripts.specs.Reading.{worded, spelled, indices, tests, bv_number, is_underscore, read_literal};
ghost use Rattle.stk_script_trees.specs.Commands.{command_front, expected};
ghost use Rattle.stk_script_trees.specs.Fronts.{word_front, bounds_front, count_front};
ghost use Rattle.stk_script_trees.specs.Heads.{index_shown};

use crate::heads::{Index, index_of, is_word, test_of};
use crate::numerals::numeral;
use stk_scripts::{TestOp, Token};

/// A word, and the tokens behind it.
pub(crate) fn word<'a, 'b>(bytes: &'b [u8], tokens: &'a [Token]) -> Option<(&'b [u8], &'a [Token])>
    ensures { option_map (λ x. (x.0.now, tokens_shown bytes.now x.1.now)) result ≡ word_front (tokens_shown bytes.now tokens.now) }
{
    match tokens.split_first()? {
        (Token::Word(at), rest) => Some((at.text(bytes), rest)),
        _ => None,
    }
}

/// A number below 2 to 128, and the tokens behind it.
#[tactic(auto, using(crate::proofs::Words::read_by, crate::proofs::Words::no_word))]
pub(crate) fn number<'a>(bytes: &[u8], tokens: &'a [Token]) -> Option<(u128, &'a [Token])>
    ensures { option_map (λ x. (x.0, tokens_shown bytes.now x.1.now)) result ≡ worded numeral (tokens_shown bytes.now tokens.now) }
{
    let (text, rest) = word(bytes, tokens)?;
    Some((numeral(text)?, rest))
}

/// A comparison, and the tokens behind it.
#[tactic(auto, using(crate::proofs::Words::read_by, crate::proofs::Words::no_word))]
pub(crate) fn test<'a>(bytes: &[u8], tokens: &'a [Token]) -> Option<(TestOp, &'a [Token])>
    ensures { option_map (λ x. (x.0, tokens_shown bytes.now x.1.now)) result ≡ worded (spelled tests) (tokens_shown bytes.now tokens.now) }
{
    let (text, rest) = word(bytes, tokens)?;
    Some((test_of(text)?, rest))
}

// The number of `bvN`.
fn bv_number(text: &[u8]) -> Option<u128>
    ensures { result ≡ bv_number text.now }
{
    match text {
        [first, second, digits @ ..] => {
            if *first == b'b' && *second == b'v' {
                numeral(digits)
            } else {
                None
            }
        }
        _ => None,
    }
}

/// A number of a width, behind `(_`: the width, the number, and the tokens behind it.
pub(crate) fn literal<'a>(bytes: &[u8], tokens: &'a [Token]) -> Option<(u128, u128, &'a [Token])>
    ensures { option_map (λ x. (literal x.0 x.1, tokens_shown bytes.now x.2.now)) result ≡ read_literal (tokens_shown bytes.now tokens.now) }
{
    let (number, rest) = bv_front(bytes, tokens)?;
    let (width, rest) = self::number(bytes, rest)?;
    match rest.split_first()? {
        (Token::Closing, rest) => Some((width, number, rest)),
        _ => None,
    }
}

// `bvN`, and the tokens behind it.
#[tactic(auto, using(crate::proofs::Words::read_by, crate::proofs::Words::no_word))]
fn bv_front<'a>(bytes: &[u8], tokens: &'a [Token]) -> Option<(u128, &'a [Token])>
    ensures { option_map (λ x. (x.0, tokens_shown bytes.now x.1.now)) result ≡ worded bv_number (tokens_shown bytes.now tokens.now) }
{
    let (text, rest) = word(bytes, tokens)?;
    Some((bv_number(text)?, rest))
}

/// The tokens behind `_`.
#[tactic(auto, using(crate::proofs::Words::read_by, crate::proofs::Words::no_word))]
pub(crate) fn underscore<'a>(bytes: &[u8], tokens: &'a [Token]) -> Option<&'a [Token]>
    ensures { option_map (λ rest. (tt, tokens_shown bytes.now rest.now)) result ≡ worded is_underscore (tokens_shown bytes.now tokens.now) }
{
    let (text, rest) = word(bytes, tokens)?;
    if is_word(text, b"_") {
        Some(rest)
    } else {
        None
    }
}

/// What an operator with numbers begins with, behind `((_`, and the tokens behind it.
#[tactic(auto, using(crate::proofs::Words::read_by, crate::proofs::Words::no_word))]
pub(crate) fn index_front<'a>(bytes: &[u8], tokens: &'a [Token]) -> Option<(Index, &'a [Token])>
    ensures { option_map (λ x. (index_shown x.0, tokens_shown bytes.now x.1.now)) result ≡ worded (spelled indices) (tokens_shown bytes.now tokens.now) }
{
    let (text, rest) = word(bytes, tokens)?;
    Some((index_of(text)?, rest))
}

/// The two numbers of `extract`, and the tokens behind their `)`.
pub(crate) fn bounds<'a>(bytes: &[u8], tokens: &'a [Token]) -> Option<(u128, u128, &'a [Token])>
    ensures { option_map (λ x. (x.0, x.1, tokens_shown bytes.now x.2.now)) result ≡ bounds_front (tokens_shown bytes.now tokens.now) }
{
    let (high, rest) = number(bytes, tokens)?;
    let (low, rest) = number(bytes, rest)?;
    match rest.split_first()? {
        (Token::Closing, rest) => Some((high, low, rest)),
        _ => None,
    }
}

/// The number of an operator that puts bits in front, and the tokens behind its `)`.
pub(crate) fn count<'a>(bytes: &[u8], tokens: &'a [Token]) -> Option<(u128, &'a [Token])>
    ensures { option_map (λ x. (x.0, tokens_shown bytes.now x.1.now)) result ≡ count_front (tokens_shown bytes.now tokens.now) }
{
    let (more, rest) = number(bytes, tokens)?;
    match rest.split_first()? {
        (Token::Closing, rest) => Some((more, rest)),
        _ => None,
    }
}

/// The tokens behind a word.
pub(crate) fn expected<'a>(bytes: &[u8], word: &[u8], tokens: &'a [Token]) -> Option<&'a [Token]>
    ensures { option_map (λ rest. tokens_shown bytes.now rest.now) result ≡ expected word.now (tokens_shown bytes.now tokens.now) }
{
    match tokens.split_first()? {
        (Token::Word(at), rest) => {
            if is_word(word, at.text(bytes)) {
                Some(rest)
            } else {
                None
            }
        }
        _ => None,
    }
}

/// The tokens behind `(` and a word.
pub(crate) fn command<'a>(bytes: &[u8], word: &[u8], tokens: &'a [Token]) -> Option<&'a [Token]>
    ensures { option_map (λ rest. tokens_shown bytes.now rest.now) result ≡ command_front word.now (tokens_shown bytes.now tokens.now) }
{
    match tokens.split_first()? {
        (Token::Opening, rest) => expected(bytes, word, rest),
        _ => None,
    }
}

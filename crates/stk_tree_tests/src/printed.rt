//! Whether tokens are spelled as a text says, whose tokens stand apart by one blank.
use stk_base::{Class, Span};
use stk_tree::{Lexeme, spelling};

/// The text that the trees of the tests stand on.
pub const INPUT: &[u8] = b"a b c f 1 'c' \"s\" \"t\"";

pub const A: Span = Span { from: 0, to: 1 };

pub const B: Span = Span { from: 2, to: 3 };

pub const C: Span = Span { from: 4, to: 5 };

pub const F: Span = Span { from: 6, to: 7 };

pub const ONE: Span = Span { from: 8, to: 9 };

pub const LETTER: Span = Span { from: 10, to: 13 };

pub const S: Span = Span { from: 14, to: 17 };

pub const T: Span = Span { from: 18, to: 21 };

fn class_of(text: &[u8]) -> Class {
    match text {
        [b'0'..=b'9', ..] => Class::Number,
        [b'\'', ..] => Class::Character,
        [b'"', ..] => Class::Text,
        _ => Class::Word,
    }
}

fn is_spelled(token: Lexeme, text: &[u8]) -> bool {
    match token {
        Lexeme::Fixed(fixed) => spelling(fixed) == text,
        Lexeme::Leaf(class, at) => at.text(INPUT) == text && class == class_of(text),
    }
}

/// Whether these tokens are spelled so, in this order, and there are no others.
pub(crate) fn are_spelled(tokens: &[Lexeme], text: &str) -> bool {
    let mut rest = tokens;
    for word in text.split(' ') {
        let Some((token, behind)) = rest.split_first() else {
            return false;
        };
        if !is_spelled(*token, word.as_bytes()) {
            return false;
        }
        rest = behind;
    }
    rest.is_empty()
}

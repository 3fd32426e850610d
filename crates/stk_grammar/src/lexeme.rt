//! The lexemes that tokens are, and their spans.

ghost use Rattle.std.specs.Prelude.{◌≡◌, IfOk};
ghost use Rattle.stk_grammar.specs.Lexemes.{fixed_of, lexeme_of, lexemes_of, spans_of};

use std::alloc::Global;
use stk_base::{Class, NoMemory, Span};
use stk_lex::Token;
use stk_tree::{Fixed, Lexeme};

/// The reserved word or punctuator with this text.
fn word_or_punctuator(text: &[u8]) -> Option<Fixed>
    ensures { result ≡ fixed_of text.now }
{
    stk_tree::fixed_of(text)
}

/// The lexeme that a token of a text is: the reserved word (C11 6.4.1) or the punctuator (C11 6.4.6) that it spells,
/// where it is a word or a punctuator and spells one; else a leaf with the token's class and span.
pub(crate) fn lexeme_of(bytes: &[u8], token: Token) -> Lexeme
    ensures { result ≡ lexeme_of bytes.now token }
{
    match token.class {
        Class::Word | Class::Punctuator => match word_or_punctuator(token.span.text(bytes)) {
            Some(fixed) => Lexeme::Fixed(fixed),
            None => Lexeme::Leaf(token.class, token.span),
        },
        class => Lexeme::Leaf(class, token.span),
    }
}

/// The lexemes that the tokens of a text are, in order.
pub fn lexemes_of(alloc: Global, bytes: &[u8], tokens: &[Token]) -> Result<Vec<Lexeme>, NoMemory>
    ensures { IfOk result (λ lexemes. lexemes.items ≡ lexemes_of bytes.now tokens.now) }
{
    let mut lexemes = Vec::new(alloc);
    for token in tokens {
        lexemes.push(lexeme_of(bytes, *token))?;
    }
    Ok(lexemes)
}

/// The spans of tokens, in order.
pub fn spans_of(alloc: Global, tokens: &[Token]) -> Result<Vec<Span>, NoMemory>
    ensures { IfOk result (λ spans. spans.items ≡ spans_of tokens.now) }
{
    let mut spans = Vec::new(alloc);
    for token in tokens {
        spans.push(token.span)?;
    }
    Ok(spans)
}

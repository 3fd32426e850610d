// The lexer: the cut of a text into its longest tokens.

ghost use Rattle.std.specs.Prelude.{◌≡◌, ℕ, ◌≤◌, ◌<◌, ◌^◌, ◌==◌, ◌-◌, List, length, true, false, cond, take, drop, IfOk, ◌&&◌, ◌||◌};
ghost use Rattle.stk_base.specs.Limits.{most_bytes};
ghost use Rattle.stk_lex.specs.declared.token.Token.{Token};
ghost use Rattle.stk_lex.specs.Gaps.{comment, gap, AreGaps, line, begins, only_blanks};
ghost use Rattle.stk_lex.specs.GapForms.{is_gap};
ghost use Rattle.stk_lex.specs.Classes.{IsLongest};
ghost use Rattle.stk_lex.specs.Cut.{InClass, IsFirst, begins_quote, begins_comment, IsCut, AreSpans};
ghost use Rattle.stk_lex.specs.Lengths.{character_length, text_length, form_length};

use crate::gaps::{begins, gap, line};
use crate::scan::{
    character_length, digraph_length, number_length, punctuator_length, text_length, word_length,
};
use crate::token::Token;
use std::alloc::Global;
use stk_base::{Class, NoMemory, Span};

fn begins_quote(bytes: &[u8]) -> bool
    ensures { result ≡ begins_quote bytes.now }
{
    begins(b'\'', bytes) || begins(b'"', bytes)
}

fn begins_comment(bytes: &[u8]) -> bool
    ensures { result ≡ begins_comment bytes.now }
{
    match bytes {
        [a, b, ..] => *a == b'/' && *b == b'*',
        _ => false,
    }
}

/// The longest text of a form at the front, and its class.
fn form(bytes: &[u8], character: usize, text: usize) -> (Class, usize)
    requires character { character ≡ character_length bytes.now }
    requires text { text ≡ text_length bytes.now }
    ensures length { result.1 ≡ form_length bytes.now }
    ensures class { 0 < result.1 → InClass result.0 bytes.now result.1 }
{
    let word = word_length(bytes);
    let number = number_length(bytes);
    let punctuator = punctuator_length(bytes);
    let digraph = digraph_length(bytes);
    let most = word
        .max(number)
        .max(character)
        .max(text)
        .max(punctuator)
        .max(digraph);
    let class = if word == most {
        Class::Word
    } else if number == most {
        Class::Number
    } else if character == most {
        Class::Character
    } else if text == most {
        Class::Text
    } else if punctuator == most {
        Class::Punctuator
    } else {
        Class::Stray
    };
    (class, most)
}

fn is_open_quote(bytes: &[u8], character: usize, text: usize) -> bool
    ensures { result ≡ (begins_quote bytes.now && character == 0 && text == 0) }
{
    begins_quote(bytes) && character == 0 && text == 0
}

/// The token at the front, where no gap is.
pub(crate) fn first(bytes: &[u8]) -> (Class, usize)
    requires some { 0 < length bytes.now }
    requires open { begins_comment bytes.now ≡ true → comment (drop 2 bytes.now) ≡ 0 }
    ensures { IsFirst bytes.now result.0 result.1 }
{
    let character = character_length(bytes);
    let text = text_length(bytes);
    if is_open_quote(bytes, character, text) {
        return (Class::Stray, line(bytes));
    }
    if begins_comment(bytes) {
        return (Class::Stray, bytes.len());
    }
    let (class, n) = form(bytes, character, text);
    if n == 0 {
        return (Class::Stray, 1);
    }
    (class, n)
}

/// The first place from here on at which no gap begins.
fn behind_gaps(bytes: &[u8], from: usize) -> usize
    requires { from ≤ length bytes.now }
    ensures within { (from ≤ result) × (result ≤ length bytes.now) }
    ensures gaps { AreGaps bytes.now from result }
    ensures end { gap bytes.now result ≡ 0 }
{
    let mut at = from;
    loop {
        let n = gap(bytes, at);
        if n == 0 {
            return at;
        }
        at += n;
    }
}

/// The tokens of a text of at most 16,777,216 bytes, in order: its cut (C11 6.4p4). Every text has one.
///
/// Between tokens stand gaps alone: the six white-space bytes (C11 6.4), comments (C11 6.4.9) and directive lines,
/// which are `#` with only blanks before it on its line, up to the line's end (C11 6.10). At each place where no gap
/// begins, the token is the longest text that is in a class. The classes are words (C11 6.4.2.1), preprocessing numbers
/// (C11 6.4.8), character constants (C11 6.4.4.4), string literals (C11 6.4.5) and punctuators other than digraphs (C11
/// 6.4.6). A stray is a digraph, a quote that begins neither of the two, up to its line's end, a comment without end,
/// up to the end of the text, or one byte that begins nothing.
///
/// Spans count bytes from the first byte of the text, and those of the tokens go forward.
pub fn lex(alloc: Global, bytes: &[u8]) -> Result<Vec<Token>, NoMemory>
    requires { length bytes.now ≤ most_bytes }
    ensures cut { IfOk result (λ tokens. IsCut bytes.now tokens.items) }
    ensures spans { IfOk result (λ tokens. AreSpans (length bytes.now) 0 tokens.items) }
    ensures few { IfOk result (λ tokens. length tokens.items ≤ length bytes.now) }
{
    let mut tokens = Vec::new(alloc);
    let mut at = behind_gaps(bytes, 0);
    while at < bytes.len() {
        let (_, rest) = bytes.split_at(at);
        let (class, n) = first(rest);
        let to = at + n;
        let span = Span {
            from: at as u32,
            to: to as u32,
        };
        tokens.push(Token { class, span })?;
        at = behind_gaps(bytes, to);
    }
    Ok(tokens)
}

/// The gap at a place is the longest text there that is a gap: white space, a comment, or where only blanks stand
/// before on its line, a directive line.
pub fn gap_is_longest()
    ensures { (text : List ℕ) (at : ℕ) →
        IsLongest (is_gap (only_blanks true (take at text))) (drop at text) (gap text at) }
{}

/// A text has one cut: with the clause of `lex`, its answer is the definition.
pub fn one_cut()
    ensures { (text : List ℕ) (ts us : List Token) → IsCut text ts → IsCut text us → ts ≡ us }
{}

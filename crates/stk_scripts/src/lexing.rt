//! The tokens of a text.

ghost use Rattle.std.specs.Prelude.{◌≡◌, ◌≤◌, ◌<◌, ◌++◌, ◌∷◌, [], ℕ, List, Option, ◌+◌, length, IfOk, OnOk, option_map, true, false, get_or};
ghost use Rattle.stk_scripts.specs.Texts.{is_word_byte, is_blank, ends_line};
ghost use Rattle.stk_scripts.specs.Lexing.{lexed, between, Mode};
ghost use Rattle.stk_scripts.specs.Tokens.{Token as Spelled};
ghost use Rattle.stk_scripts.specs.Shown.{tokens_shown, BeginsAs, Passes, IsBehind, token_of};

use std::alloc::Global;
use stk_base::{NoMemory, Span};

/// A token: a parenthesis, or a word by where it stands.
#[derive(Clone, Copy, Debug, PartialEq, Eq)]
pub enum Token {
    Opening,
    Closing,
    Word(Span),
}

// Where the pass is: between tokens, in a comment, or in a word that began at a place.
#[derive(Clone, Copy, Debug, PartialEq, Eq)]
enum State {
    Between,
    Comment,
    Word(u32),
}

fn is_word_byte(b: u8) -> bool
    ensures { result ≡ is_word_byte b }
{
    b.is_ascii_alphabetic() || b.is_ascii_digit() || b == b'_' || b == b'-' || b == b'='
}

fn is_blank(b: u8) -> bool
    ensures { result ≡ is_blank b }
{
    b == b' ' || b == b'\t' || b == b'\n' || b == b'\r'
}

fn ends_line(b: u8) -> bool
    ensures { result ≡ ends_line b }
{
    b == b'\n' || b == b'\r'
}

// A byte between tokens: where the pass is behind it, and the token that it is; nothing where no token begins so.
fn begun(b: u8, at: u32) -> Option<(State, Option<Token>)>
    ensures { (bytes : List ℕ) (rest : Mode → Option (List Spelled)) → at < length bytes → get_or bytes at 0 ≡ b → BeginsAs bytes at b rest result }
{
    if is_word_byte(b) {
        Some((State::Word(at), None))
    } else if is_blank(b) {
        Some((State::Between, None))
    } else if b == b';' {
        Some((State::Comment, None))
    } else if b == b'(' {
        Some((State::Between, Some(Token::Opening)))
    } else if b == b')' {
        Some((State::Between, Some(Token::Closing)))
    } else {
        None
    }
}

// Adds the token that was found.
fn taken(
    tokens: &mut Vec<Token>,
    found: Option<(State, Option<Token>)>,
) -> Result<Option<State>, NoMemory>
    ensures next { IfOk result (λ next. next ≡ option_map (λ x. x.0) found) }
    ensures tokens { OnOk result (tokens.new.items ≡ tokens.old.items ++ token_of found) }
{
    match found {
        None => Ok(None),
        Some((next, None)) => Ok(Some(next)),
        Some((next, Some(token))) => {
            tokens.push(token)?;
            Ok(Some(next))
        }
    }
}

// One byte more.
fn step(tokens: &mut Vec<Token>, b: u8, at: u32, state: State) -> Result<Option<State>, NoMemory>
    ensures { (bytes : List ℕ) (rest : Mode → Option (List Spelled)) → at < length bytes → get_or bytes at 0 ≡ b → IsBehind state at → IfOk result (λ next. Passes bytes at b rest state tokens.old.items tokens.new.items next) }
{
    match state {
        State::Comment => {
            if ends_line(b) {
                Ok(Some(State::Between))
            } else {
                Ok(Some(State::Comment))
            }
        }
        State::Between => {
            let next = taken(tokens, begun(b, at))?;
            Ok(next)
        }
        State::Word(from) => {
            if is_word_byte(b) {
                return Ok(Some(State::Word(from)));
            }
            tokens.push(Token::Word(Span { from, to: at }))?;
            let behind = taken(tokens, begun(b, at))?;
            Ok(behind)
        }
    }
}

/// The tokens of a text, with blanks and comments between them (SMT-LIB 2.6, section 3.1, of which this is a part);
/// nothing where the text isn't made of these. It takes time linear in the text.
pub fn lex(alloc: Global, bytes: &[u8]) -> Result<Option<Vec<Token>>, NoMemory>
    requires { length bytes.now ≤ 4294967295 }
    ensures { IfOk result (λ found. option_map (λ v. tokens_shown bytes.now v.items) found ≡ lexed bytes.now between) }
{
    let mut tokens = Vec::new(alloc);
    let mut state = State::Between;
    for at in 0..bytes.len() {
        match step(&mut tokens, bytes[at], at as u32, state)? {
            Some(next) => state = next,
            None => return Ok(None),
        }
    }
    if let State::Word(from) = state {
        tokens.push(Token::Word(Span {
            from,
            to: bytes.len() as u32,
        }))?;
    }
    Ok(Some(tokens))
}

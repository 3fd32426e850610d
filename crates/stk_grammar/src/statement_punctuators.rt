//! The tokens behind a word of statements, and what begins at the front of some tokens.

ghost use Rattle.std.specs.Prelude.{◌≡◌, option_map};
ghost use Rattle.stk_grammar.specs.StatementReading.{begins_label, begins_static, behind_case, behind_default, behind_else, behind_first, behind_while, ends_section, is_semicolon, kind_at};

use crate::statement_tables::{Kind, kind_punctuator};
use stk_tree::{Fixed, Lexeme};

/// The tokens behind an `else`; `None` where something else stands at the front.
pub fn behind_else(lexemes: &[Lexeme]) -> Option<&[Lexeme]>
    ensures { option_map (λ x. x.now) result ≡ behind_else lexemes.now }
{
    match lexemes.split_first()? {
        (Lexeme::Fixed(Fixed::Else), rest) => Some(rest),
        _ => None,
    }
}

/// The tokens behind a `while`; `None` where something else stands at the front.
pub fn behind_while(lexemes: &[Lexeme]) -> Option<&[Lexeme]>
    ensures { option_map (λ x. x.now) result ≡ behind_while lexemes.now }
{
    match lexemes.split_first()? {
        (Lexeme::Fixed(Fixed::While), rest) => Some(rest),
        _ => None,
    }
}

/// The tokens behind a `case`; `None` where something else stands at the front.
pub fn behind_case(lexemes: &[Lexeme]) -> Option<&[Lexeme]>
    ensures { option_map (λ x. x.now) result ≡ behind_case lexemes.now }
{
    match lexemes.split_first()? {
        (Lexeme::Fixed(Fixed::Case), rest) => Some(rest),
        _ => None,
    }
}

/// The tokens behind a `default`; `None` where something else stands at the front.
pub fn behind_default(lexemes: &[Lexeme]) -> Option<&[Lexeme]>
    ensures { option_map (λ x. x.now) result ≡ behind_default lexemes.now }
{
    match lexemes.split_first()? {
        (Lexeme::Fixed(Fixed::Default), rest) => Some(rest),
        _ => None,
    }
}

/// The tokens behind the first one; none where there is none.
pub fn behind_first(lexemes: &[Lexeme]) -> &[Lexeme]
    ensures { result.now ≡ behind_first lexemes.now }
{
    match lexemes.split_first() {
        Some((_, rest)) => rest,
        None => lexemes,
    }
}

/// What the statement at the front is, by its first token: `Plain` also where no statement begins.
pub fn kind_at(lexemes: &[Lexeme]) -> Kind
    ensures { result ≡ kind_at lexemes.now }
{
    match lexemes.split_first() {
        Some((Lexeme::Fixed(punctuator), _)) => kind_punctuator(*punctuator),
        _ => Kind::Plain,
    }
}

/// Whether a label of a `switch` begins at the front: a `case` or a `default` (C11 6.8.1).
pub fn begins_label(lexemes: &[Lexeme]) -> bool
    ensures { result ≡ begins_label lexemes.now }
{
    match lexemes.split_first() {
        Some((Lexeme::Fixed(Fixed::Case | Fixed::Default), _)) => true,
        _ => false,
    }
}

/// Whether the statements of a section of a `switch` end here: before a label, and before the `}`.
pub fn ends_section(lexemes: &[Lexeme]) -> bool
    ensures { result ≡ ends_section lexemes.now }
{
    match lexemes.split_first() {
        Some((Lexeme::Fixed(Fixed::RightBrace | Fixed::Case | Fixed::Default), _)) => true,
        _ => false,
    }
}

/// Whether a `static` stands at the front.
pub fn begins_static(lexemes: &[Lexeme]) -> bool
    ensures { result ≡ begins_static lexemes.now }
{
    match lexemes.split_first() {
        Some((Lexeme::Fixed(Fixed::Static), _)) => true,
        _ => false,
    }
}

/// Whether these tokens are a lone `;`.
pub fn is_semicolon(lexemes: &[Lexeme]) -> bool
    ensures { result ≡ is_semicolon lexemes.now }
{
    match lexemes.split_first() {
        Some((Lexeme::Fixed(Fixed::Semicolon), rest)) => rest.is_empty(),
        _ => false,
    }
}

//! The basic type that words name.

ghost use Rattle.std.specs.Prelude.{◌≡◌, Some, None};
ghost use Rattle.std.specs.Option.{option_map};
ghost use Rattle.stk_ctype.specs.Types.{type_of};
ghost use Rattle.stk_typing.specs.Specifiers.{wider, with_width, with_sign, with_int, added, said, specified_behind, unsaid, basic, basic_type};

use stk_ctype::{CType, IntKind};
use stk_tree::Fixed;

/// What the words for a width say: none, or `void`, `_Bool`, `char`, `short`, `long`, `long long`.
#[derive(Clone, Copy, Debug, PartialEq, Eq)]
pub enum Width {
    Plain,
    Void,
    Bool,
    Char,
    Short,
    Long,
    LongLong,
}

/// What the words for a sign say: none, or `signed`, or `unsigned`.
#[derive(Clone, Copy, Debug, PartialEq, Eq)]
pub enum Sign {
    Unsaid,
    Signed,
    Unsigned,
}

/// What words say together: a width, a sign, and whether `int` stands among them.
#[derive(Clone, Copy, Debug, PartialEq, Eq)]
pub struct Specifiers {
    pub width: Width,
    pub sign: Sign,
    pub int: bool,
}

// A word for a width behind others.
fn wider(before: Width, word: Width) -> Option<Width>
    ensures { result ≡ wider before word }
{
    match (before, word) {
        (Width::Plain, word) => Some(word),
        (Width::Long, Width::Long) => Some(Width::LongLong),
        _ => None,
    }
}

// One more word for the width.
fn with_width(word: Width, s: Specifiers) -> Option<Specifiers>
    ensures { result ≡ with_width word s (wider s.width word) }
{
    match wider(s.width, word) {
        None => None,
        Some(width) => Some(Specifiers {
            width,
            sign: s.sign,
            int: s.int,
        }),
    }
}

// One more word for the sign.
fn with_sign(sign: Sign, s: Specifiers) -> Option<Specifiers>
    ensures { result ≡ with_sign sign s s.sign }
{
    match s.sign {
        Sign::Unsaid => Some(Specifiers {
            width: s.width,
            sign,
            int: s.int,
        }),
        Sign::Signed | Sign::Unsigned => None,
    }
}

// One more `int`.
fn with_int(s: Specifiers) -> Option<Specifiers>
    ensures { result ≡ with_int s s.int }
{
    if s.int {
        None
    } else {
        Some(Specifiers {
            width: s.width,
            sign: s.sign,
            int: true,
        })
    }
}

// Words and one more behind them.
fn added(word: Fixed, s: Specifiers) -> Option<Specifiers>
    ensures { result ≡ added word s }
{
    match word {
        Fixed::Void => with_width(Width::Void, s),
        Fixed::Bool => with_width(Width::Bool, s),
        Fixed::Char => with_width(Width::Char, s),
        Fixed::Short => with_width(Width::Short, s),
        Fixed::Long => with_width(Width::Long, s),
        Fixed::Int => with_int(s),
        Fixed::Signed => with_sign(Sign::Signed, s),
        Fixed::Unsigned => with_sign(Sign::Unsigned, s),
        _ => None,
    }
}

// A word behind others, where they say something together.
fn said(before: Option<Specifiers>, word: Fixed) -> Option<Specifiers>
    ensures { result ≡ said before word }
{
    match before {
        None => None,
        Some(s) => added(word, s),
    }
}

/// What words say together; none where a word stands twice, but for `long`, or beside another of its sort.
pub(crate) fn specified(words: &[Fixed]) -> Option<Specifiers>
    ensures { result ≡ specified_behind (Some unsaid) words.now }
{
    let mut all = Some(Specifiers {
        width: Width::Plain,
        sign: Sign::Unsaid,
        int: false,
    });
    for word in words {
        all = said(all, *word);
    }
    all
}

// The type of a width, a sign and whether `int` stands there.
fn basic(s: Specifiers) -> Option<CType>
    ensures { option_map type_of result ≡ basic s.width s.sign s.int }
{
    let kind = match (s.width, s.sign, s.int) {
        (Width::Void, Sign::Unsaid, false) => return Some(CType::Void),
        (Width::Bool, Sign::Unsaid, false) => IntKind::Bool,
        (Width::Char, Sign::Unsaid, false) => IntKind::Char,
        (Width::Char, Sign::Signed, false) => IntKind::SChar,
        (Width::Char, Sign::Unsigned, false) => IntKind::UChar,
        (Width::Short, Sign::Unsaid | Sign::Signed, _) => IntKind::Short,
        (Width::Short, Sign::Unsigned, _) => IntKind::UShort,
        (Width::Plain, Sign::Unsaid, true) => IntKind::Int,
        (Width::Plain, Sign::Signed, _) => IntKind::Int,
        (Width::Plain, Sign::Unsigned, _) => IntKind::UInt,
        (Width::Long, Sign::Unsaid | Sign::Signed, _) => IntKind::Long,
        (Width::Long, Sign::Unsigned, _) => IntKind::ULong,
        (Width::LongLong, Sign::Unsaid | Sign::Signed, _) => IntKind::LLong,
        (Width::LongLong, Sign::Unsigned, _) => IntKind::ULLong,
        _ => return None,
    };
    Some(CType::Int(kind))
}

/// The basic type that words name, in any order (C11 6.7.2p2); none where they name no type.
pub(crate) fn basic_type(words: &[Fixed]) -> Option<CType>
    ensures { option_map type_of result ≡ basic_type words.now }
{
    match specified(words) {
        None => None,
        Some(s) => basic(s),
    }
}

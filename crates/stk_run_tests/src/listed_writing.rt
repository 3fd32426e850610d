//! Texts of facts, piece by piece.

use itoa::Buffer;
use stk_base::NoMemory;
use stk_ctype::IntKind;
use stk_numbers::{CandKind, UbKind};

/// Adds a word.
pub(crate) fn add(text: &mut Vec<u8>, word: &[u8]) -> Result<(), NoMemory> {
    text.extend_from_slice(word)?;
    Ok(())
}

/// Adds a number, behind a word.
pub(crate) fn add_count(text: &mut Vec<u8>, word: &[u8], count: u64) -> Result<(), NoMemory> {
    let mut buffer = Buffer::new();
    add(text, word)?;
    add(text, buffer.format(count).as_bytes())
}

/// Adds what stands between two facts, where others stand before.
pub(crate) fn add_comma(text: &mut Vec<u8>) -> Result<(), NoMemory> {
    if text.is_empty() {
        Ok(())
    } else {
        add(text, b", ")
    }
}

/// The name of a kind of integers.
pub(crate) fn kind_name(kind: IntKind) -> &'static [u8] {
    match kind {
        IntKind::Bool => b"Bool",
        IntKind::Char => b"Char",
        IntKind::SChar => b"SChar",
        IntKind::UChar => b"UChar",
        IntKind::Short => b"Short",
        IntKind::UShort => b"UShort",
        IntKind::Int => b"Int",
        IntKind::UInt => b"UInt",
        IntKind::Long => b"Long",
        IntKind::ULong => b"ULong",
        IntKind::LLong => b"LLong",
        IntKind::ULLong => b"ULLong",
    }
}

/// A word for a kind of conditions.
pub(crate) fn condition_name(kind: UbKind) -> &'static [u8] {
    match kind {
        UbKind::Overflow => b"overflow ",
        UbKind::Zero => b"zero ",
        UbKind::Shift => b"shift ",
        UbKind::Null => b"null ",
        UbKind::Pointer => b"pointer ",
        UbKind::Bounds => b"bounds ",
        UbKind::AbsValue => b"absolute ",
        UbKind::Overlap => b"overlap ",
    }
}

/// A word for a kind of candidates.
pub(crate) fn candidate_name(kind: CandKind) -> &'static [u8] {
    match kind {
        CandKind::Arm => b"enter ",
        CandKind::AlwaysTrue => b"true ",
        CandKind::AlwaysFalse => b"false ",
        CandKind::Algebra => b"same ",
    }
}

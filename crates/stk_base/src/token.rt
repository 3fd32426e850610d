use crate::Span;

/// The class of a token (C11 6.4): words are identifiers and keywords, numbers are preprocessing numbers, and a stray
/// is what belongs to no other class.
#[derive(Clone, Copy, Debug, PartialEq, Eq)]
pub enum Class {
    Word,
    Number,
    Character,
    Text,
    Punctuator,
    Stray,
}

/// Where something stands in its source file: the span of the file's name in the input, where a line marker gave one,
/// the line, counted from 1, and the column, which is 1 more than the bytes before it on its line.
#[derive(Clone, Copy, Debug, PartialEq, Eq)]
pub struct Place {
    pub file: Option<Span>,
    pub line: u32,
    pub column: u32,
}

//! What the words at the head of a term begin.

ghost use Rattle.std.specs.Prelude.{◌≡◌};
ghost use Rattle.std.specs.Option.{option_map};
ghost use Rattle.stk_base.specs.Text.{same_text};
ghost use Rattle.stk_scripts.specs.Reading.{heads, indices, spelled, tests};
ghost use Rattle.stk_script_trees.specs.Heads.{head_shown, index_shown};

use stk_scripts::{BinaryOp, ExtendOp, TestOp, UnaryOp};

/// What a word behind `(` begins.
#[derive(Clone, Copy, Debug, PartialEq, Eq)]
pub(crate) enum Head {
    Literal,
    Unary(UnaryOp),
    Binary(BinaryOp),
    Concat,
    Ite,
}

/// What a word behind `((_` begins.
#[derive(Clone, Copy, Debug, PartialEq, Eq)]
pub(crate) enum Index {
    Extract,
    Extend(ExtendOp),
}

/// Whether a text is this word.
pub(crate) fn is_word(word: &[u8], text: &[u8]) -> bool
    ensures { result ≡ same_text word.now text.now }
{
    word == text
}

/// What a word behind `(` begins, where it begins a term.
pub(crate) fn head_of(text: &[u8]) -> Option<Head>
    ensures { option_map head_shown result ≡ spelled heads text.now }
{
    if is_word(b"_", text) {
        Some(Head::Literal)
    } else if is_word(b"bvnot", text) {
        Some(Head::Unary(UnaryOp::Not))
    } else if is_word(b"bvneg", text) {
        Some(Head::Unary(UnaryOp::Neg))
    } else if is_word(b"bvand", text) {
        Some(Head::Binary(BinaryOp::And))
    } else if is_word(b"bvor", text) {
        Some(Head::Binary(BinaryOp::Or))
    } else if is_word(b"bvxor", text) {
        Some(Head::Binary(BinaryOp::Xor))
    } else if is_word(b"bvadd", text) {
        Some(Head::Binary(BinaryOp::Add))
    } else if is_word(b"bvsub", text) {
        Some(Head::Binary(BinaryOp::Sub))
    } else if is_word(b"bvmul", text) {
        Some(Head::Binary(BinaryOp::Mul))
    } else if is_word(b"bvudiv", text) {
        Some(Head::Binary(BinaryOp::UDiv))
    } else if is_word(b"bvurem", text) {
        Some(Head::Binary(BinaryOp::URem))
    } else if is_word(b"bvshl", text) {
        Some(Head::Binary(BinaryOp::Shl))
    } else if is_word(b"bvlshr", text) {
        Some(Head::Binary(BinaryOp::LShr))
    } else if is_word(b"bvashr", text) {
        Some(Head::Binary(BinaryOp::AShr))
    } else if is_word(b"concat", text) {
        Some(Head::Concat)
    } else if is_word(b"ite", text) {
        Some(Head::Ite)
    } else {
        None
    }
}

/// What a word behind `((_` begins, where it begins an operator.
pub(crate) fn index_of(text: &[u8]) -> Option<Index>
    ensures { option_map index_shown result ≡ spelled indices text.now }
{
    if is_word(b"extract", text) {
        Some(Index::Extract)
    } else if is_word(b"zero_extend", text) {
        Some(Index::Extend(ExtendOp::Zero))
    } else if is_word(b"sign_extend", text) {
        Some(Index::Extend(ExtendOp::Sign))
    } else {
        None
    }
}

/// The comparison that a word is, where it is one.
pub(crate) fn test_of(text: &[u8]) -> Option<TestOp>
    ensures { result ≡ spelled tests text.now }
{
    if is_word(b"=", text) {
        Some(TestOp::Equal)
    } else if is_word(b"bvult", text) {
        Some(TestOp::Below)
    } else if is_word(b"bvslt", text) {
        Some(TestOp::SignedBelow)
    } else {
        None
    }
}

//! The tokens of a tree's leaves.
ghost use Rattle.std.specs.Prelude.{◌≡◌, ◌++◌, ◌∷◌, [], map, OnOk};
ghost use Rattle.stk_tree.specs.Tokens.{assign_punctuator, binary_punctuator, last_comma, more_tokens, optional_word, path_end, reserved, stars, storage_tokens, texts, unary_punctuator, word};
ghost use Rattle.stk_tree.specs.View.{designators, view_designator};
ghost use Rattle.stk_tree.specs.declared.fixed.Fixed.TheVariants as fixed;
ghost use Rattle.stk_tree.specs.declared.fixed.Lexeme.TheVariants.{Leaf, Fixed as Token};

use std::alloc::AllocError;
use stk_base::{Class, Span};
use stk_tree::{AssignOp, BinaryOp, Desig, Fixed, Lexeme, Storage, UnaryOp};

/// Puts a reserved word or a punctuator.
pub(crate) fn put_punctuator(out: &mut Vec<Lexeme>, punctuator: Fixed) -> Result<(), AllocError>
    ensures { OnOk result (out.new.items ≡ out.old.items ++ Token punctuator ∷ []) }
{
    out.push(Lexeme::Fixed(punctuator))?;
    Ok(())
}

/// Puts two punctuators.
pub(crate) fn put_punctuators(
    out: &mut Vec<Lexeme>,
    first: Fixed,
    second: Fixed,
) -> Result<(), AllocError>
    ensures { OnOk result (out.new.items ≡ out.old.items ++ Token first ∷ Token second ∷ []) }
{
    put_punctuator(out, first)?;
    put_punctuator(out, second)
}

/// Puts a token whose text stands in the input.
pub(crate) fn put_leaf(out: &mut Vec<Lexeme>, class: Class, at: Span) -> Result<(), AllocError>
    ensures { OnOk result (out.new.items ≡ out.old.items ++ Leaf class at ∷ []) }
{
    out.push(Lexeme::Leaf(class, at))?;
    Ok(())
}

/// Puts a word of the input.
pub(crate) fn put_word(out: &mut Vec<Lexeme>, at: Span) -> Result<(), AllocError>
    ensures { OnOk result (out.new.items ≡ out.old.items ++ word at) }
{
    put_leaf(out, Class::Word, at)
}

/// Puts a reserved word or a punctuator, and a word of the input behind it.
pub(crate) fn put_tag(out: &mut Vec<Lexeme>, punctuator: Fixed, at: Span) -> Result<(), AllocError>
    ensures { OnOk result (out.new.items ≡ out.old.items ++ Token punctuator ∷ word at) }
{
    put_punctuator(out, punctuator)?;
    put_word(out, at)
}

/// Puts `struct` or `enum`, the tag that may be missing, and `{`.
pub(crate) fn put_opening(
    out: &mut Vec<Lexeme>,
    keyword: Fixed,
    tag: Option<Span>,
) -> Result<(), AllocError>
    ensures { OnOk result (out.new.items ≡ out.old.items ++ Token keyword ∷ optional_word tag ++ Token fixed.LeftBrace ∷ []) }
{
    put_punctuator(out, keyword)?;
    put_optional_word(out, tag)?;
    put_punctuator(out, Fixed::LeftBrace)
}

/// Puts the comma that may stand before a brace, and the brace.
pub(crate) fn put_closing(out: &mut Vec<Lexeme>, comma: bool) -> Result<(), AllocError>
    ensures { OnOk result (out.new.items ≡ out.old.items ++ last_comma comma ++ Token fixed.RightBrace ∷ []) }
{
    put_last_comma(out, comma)?;
    put_punctuator(out, Fixed::RightBrace)
}

/// Puts `(void)`.
pub(crate) fn put_no_parameters(out: &mut Vec<Lexeme>) -> Result<(), AllocError>
    ensures { OnOk result (out.new.items ≡ out.old.items ++ Token fixed.LeftParen ∷ Token fixed.Void ∷ Token fixed.RightParen ∷ []) }
{
    put_punctuator(out, Fixed::LeftParen)?;
    put_punctuators(out, Fixed::Void, Fixed::RightParen)
}

/// Puts a name that may be missing.
pub(crate) fn put_optional_word(out: &mut Vec<Lexeme>, name: Option<Span>) -> Result<(), AllocError>
    ensures { OnOk result (out.new.items ≡ out.old.items ++ optional_word name) }
{
    match name {
        None => Ok(()),
        Some(at) => put_word(out, at),
    }
}

/// Puts string literals in a row.
pub(crate) fn put_texts(out: &mut Vec<Lexeme>, parts: &[Span]) -> Result<(), AllocError>
    ensures { OnOk result (out.new.items ≡ out.old.items ++ texts parts.now) }
{
    for part in parts {
        out.push(Lexeme::Leaf(Class::Text, *part))?;
    }
    Ok(())
}

/// Puts reserved words in a row.
pub(crate) fn put_words(out: &mut Vec<Lexeme>, words: &[Fixed]) -> Result<(), AllocError>
    ensures { OnOk result (out.new.items ≡ out.old.items ++ reserved words.now) }
{
    for word in words {
        out.push(Lexeme::Fixed(*word))?;
    }
    Ok(())
}

/// Puts that many `*`.
pub(crate) fn put_stars(out: &mut Vec<Lexeme>, count: u32) -> Result<(), AllocError>
    ensures { OnOk result (out.new.items ≡ out.old.items ++ stars count) }
{
    for _ in 0..count {
        out.push(Lexeme::Fixed(Fixed::Star))?;
    }
    Ok(())
}

/// Puts the comma that may stand before a brace.
fn put_last_comma(out: &mut Vec<Lexeme>, comma: bool) -> Result<(), AllocError>
    ensures { OnOk result (out.new.items ≡ out.old.items ++ last_comma comma) }
{
    if comma {
        put_punctuator(out, Fixed::Comma)
    } else {
        Ok(())
    }
}

/// Puts the `, ...` that may end a parameter list.
pub(crate) fn put_more(out: &mut Vec<Lexeme>, more: bool) -> Result<(), AllocError>
    ensures { OnOk result (out.new.items ≡ out.old.items ++ more_tokens more) }
{
    if more {
        put_punctuators(out, Fixed::Comma, Fixed::Ellipsis)
    } else {
        Ok(())
    }
}

/// Puts the `=` after designators, where there are any.
pub(crate) fn put_path_end(out: &mut Vec<Lexeme>, path: &[Desig]) -> Result<(), AllocError>
    ensures { OnOk result (out.new.items ≡ out.old.items ++ path_end (designators (map view_designator path.now))) }
{
    match path {
        [] => Ok(()),
        [_, _rest @ ..] => put_punctuator(out, Fixed::Assign),
    }
}

/// Puts the storage word, which may be missing.
pub(crate) fn put_storage(out: &mut Vec<Lexeme>, storage: Option<Storage>) -> Result<(), AllocError>
    ensures { OnOk result (out.new.items ≡ out.old.items ++ storage_tokens storage) }
{
    match storage {
        None => Ok(()),
        Some(Storage::Typedef) => put_punctuator(out, Fixed::Typedef),
        Some(Storage::Extern) => put_punctuator(out, Fixed::Extern),
        Some(Storage::Static) => put_punctuator(out, Fixed::Static),
    }
}

/// The punctuator of a unary operator.
pub(crate) fn unary_punctuator(op: UnaryOp) -> Fixed
    ensures { result ≡ unary_punctuator op }
{
    match op {
        UnaryOp::Address => Fixed::Ampersand,
        UnaryOp::Deref => Fixed::Star,
        UnaryOp::Plus => Fixed::Plus,
        UnaryOp::Minus => Fixed::Minus,
        UnaryOp::Flip => Fixed::Tilde,
        UnaryOp::Not => Fixed::Exclamation,
    }
}

/// The punctuator of a binary operator.
pub(crate) fn binary_punctuator(op: BinaryOp) -> Fixed
    ensures { result ≡ binary_punctuator op }
{
    match op {
        BinaryOp::Comma => Fixed::Comma,
        BinaryOp::OrElse => Fixed::OrOr,
        BinaryOp::AndAlso => Fixed::AndAnd,
        BinaryOp::Or => Fixed::Pipe,
        BinaryOp::Xor => Fixed::Caret,
        BinaryOp::And => Fixed::Ampersand,
        BinaryOp::Eq => Fixed::EqualEqual,
        BinaryOp::Ne => Fixed::NotEqual,
        BinaryOp::Lt => Fixed::Less,
        BinaryOp::Gt => Fixed::Greater,
        BinaryOp::Le => Fixed::LessEqual,
        BinaryOp::Ge => Fixed::GreaterEqual,
        BinaryOp::Left => Fixed::LeftShift,
        BinaryOp::Right => Fixed::RightShift,
        BinaryOp::Add => Fixed::Plus,
        BinaryOp::Sub => Fixed::Minus,
        BinaryOp::Mul => Fixed::Star,
        BinaryOp::Div => Fixed::Slash,
        BinaryOp::Rem => Fixed::Percent,
    }
}

/// The punctuator of an assignment operator.
pub(crate) fn assign_punctuator(op: AssignOp) -> Fixed
    ensures { result ≡ assign_punctuator op }
{
    match op {
        AssignOp::Plain => Fixed::Assign,
        AssignOp::Mul => Fixed::StarAssign,
        AssignOp::Div => Fixed::SlashAssign,
        AssignOp::Rem => Fixed::PercentAssign,
        AssignOp::Add => Fixed::PlusAssign,
        AssignOp::Sub => Fixed::MinusAssign,
        AssignOp::Left => Fixed::LeftShiftAssign,
        AssignOp::Right => Fixed::RightShiftAssign,
        AssignOp::And => Fixed::AmpersandAssign,
        AssignOp::Xor => Fixed::CaretAssign,
        AssignOp::Or => Fixed::PipeAssign,
    }
}

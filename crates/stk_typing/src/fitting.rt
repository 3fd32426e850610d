//! Which initialisers fit an object of a type.

ghost use Rattle.std.specs.Prelude.{◌≡◌};
ghost use Rattle.stk_ctype.specs.Types.{type_of};
ghost use Rattle.stk_tree.specs.View.{view_expression, view_expression_form, view_initialiser};
ghost use Rattle.stk_typing.specs.Fitting.{is_character, holds_characters, is_text_form, is_text, takes_expression, takes_braces, fits, initial_refused};

use crate::Leaves;
use stk_ctype::{CType, IntKind};
use stk_tree::{Expr, ExprForm, Init};

// Whether a kind is that of characters.
fn is_character(kind: IntKind) -> bool
    ensures { result ≡ is_character kind }
{
    match kind {
        IntKind::Char | IntKind::SChar | IntKind::UChar => true,
        IntKind::Bool
        | IntKind::Short
        | IntKind::UShort
        | IntKind::Int
        | IntKind::UInt
        | IntKind::Long
        | IntKind::ULong
        | IntKind::LLong
        | IntKind::ULLong => false,
    }
}

// Whether a type is a character type.
fn holds_characters(ty: &CType) -> bool
    ensures { result ≡ holds_characters (type_of ty.now) }
{
    match ty {
        CType::Int(kind) => is_character(*kind),
        CType::Void
        | CType::Pointer(_)
        | CType::Array(_, _)
        | CType::Struct(_)
        | CType::Function(_) => false,
    }
}

// Whether a form is that of string literals.
fn is_text_form(form: &ExprForm) -> bool
    ensures { result ≡ is_text_form (view_expression_form form.now) }
{
    match form {
        ExprForm::Text(_) => true,
        ExprForm::Name(_)
        | ExprForm::Number(_)
        | ExprForm::Character(_)
        | ExprForm::Paren(_)
        | ExprForm::Index(_, _)
        | ExprForm::Call(_, _)
        | ExprForm::Dot(_, _)
        | ExprForm::Arrow(_, _)
        | ExprForm::Step(_, _)
        | ExprForm::Unary(_, _)
        | ExprForm::SizeExpr(_)
        | ExprForm::SizeName(_)
        | ExprForm::Cast(_, _)
        | ExprForm::Binary(_, _, _)
        | ExprForm::Choice(_, _, _)
        | ExprForm::Assign(_, _, _) => false,
    }
}

// Whether an expression is string literals, without parentheses.
#[tactic(auto, using(crate::proofs::Views::view_node))]
fn is_text(e: &Expr) -> bool
    ensures { result ≡ is_text (view_expression e.now) }
{
    is_text_form(&e.form)
}

// Whether an expression fits a type, as string literals or not.
fn takes_expression(ty: &CType, text: bool) -> bool
    ensures { result ≡ takes_expression (type_of ty.now) text }
{
    match ty {
        CType::Array(element, _) => text && holds_characters(element.get()),
        CType::Struct(_) => false,
        CType::Void | CType::Int(_) | CType::Pointer(_) | CType::Function(_) => true,
    }
}

// Whether braces fit a type.
fn takes_braces(ty: &CType) -> bool
    ensures { result ≡ takes_braces (type_of ty.now) }
{
    match ty {
        CType::Int(_) | CType::Pointer(_) => false,
        CType::Void | CType::Array(_, _) | CType::Struct(_) | CType::Function(_) => true,
    }
}

/// Whether an initialiser fits a type, so far as its form tells (C11 6.7.9): an expression a scalar, a string literal
/// an array of characters, braces an array or a struct.
pub fn fits(ty: &CType, i: &Init) -> bool
    ensures { result ≡ fits (type_of ty.now) (view_initialiser i.now) }
{
    match i {
        Init::Plain(e) => takes_expression(ty, is_text(e)),
        Init::Braces(_, _) => takes_braces(ty),
    }
}

/// The rule that an initialiser of an object of this type breaks, with what is known of its expressions, the lowest
/// first: 6 where one is neither a scalar nor a struct, 9 where one is a struct, 16 where it doesn't fit: braces for a
/// scalar; for an array of characters neither braces nor a string literal; for another array or a struct no braces (C11
/// 6.7.9).
pub fn initial_refused(ty: &CType, i: &Init, leaves: Leaves) -> Option<u8>
    ensures { result ≡ initial_refused (type_of ty.now) (view_initialiser i.now) leaves }
{
    if leaves.has_other {
        Some(6)
    } else if leaves.has_struct {
        Some(9)
    } else if fits(ty, i) {
        None
    } else {
        Some(16)
    }
}

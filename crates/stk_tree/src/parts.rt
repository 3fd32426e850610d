//! Parts of trees that several readers of trees ask for.

ghost use Rattle.std.specs.Prelude.{◌≡◌, map};
ghost use Rattle.stk_tree.specs.Parts.{is_static, declared_parameters, bare, name_in};
ghost use Rattle.stk_tree.specs.View.{view_declarator, view_expression, view_expression_form, view_parameter, parameters};

use crate::{Declr, Expr, ExprForm, Param, Storage, Tail};
use stk_base::Span;

/// Whether a storage word is `static` (C11 6.7.1).
pub fn is_static(word: Option<Storage>) -> bool
    ensures { result ≡ is_static word }
{
    match word {
        Some(Storage::Static) => true,
        Some(Storage::Typedef | Storage::Extern) | None => false,
    }
}

impl Declr {
    /// The parameters that a declarator of a function has; none where it declares anything else (C11 6.7.6.3).
    pub fn parameters(&self) -> &[Param]
        ensures { parameters (map view_parameter result.now) ≡ declared_parameters (view_declarator self.now) }
    {
        match &self.tail {
            Tail::Params(list, _) => list.as_slice(),
            Tail::Arrays(_) | Tail::Unspecified | Tail::NoParams => &[],
        }
    }
}

impl Expr {
    /// An expression without the parentheses round it (C11 6.5.1p5).
    pub fn bare(&self) -> &Expr
        ensures { view_expression result.now ≡ bare (view_expression self.now) }
    {
        match &self.form {
            ExprForm::Paren(inner) => inner.get().bare(),
            ExprForm::Name(_)
            | ExprForm::Number(_)
            | ExprForm::Character(_)
            | ExprForm::Text(_)
            | ExprForm::Index(_, _)
            | ExprForm::Call(_, _)
            | ExprForm::Dot(_, _)
            | ExprForm::Arrow(_, _)
            | ExprForm::Step(_, _)
            | ExprForm::Unary(_, _)
            | ExprForm::SizeExpr(_)
            | ExprForm::SizeName(_)
            | ExprForm::Cast(_, _)
            | ExprForm::Binary(_, _, _)
            | ExprForm::Choice(_, _, _)
            | ExprForm::Assign(_, _, _) => self,
        }
    }
}

impl ExprForm {
    /// The name that an expression of this form is (C11 6.5.1p2).
    pub fn as_name(&self) -> Option<Span>
        ensures { result ≡ name_in (view_expression_form self.now) }
    {
        match self {
            ExprForm::Name(at) => Some(*at),
            ExprForm::Number(_)
            | ExprForm::Character(_)
            | ExprForm::Text(_)
            | ExprForm::Paren(_)
            | ExprForm::Index(_, _)
            | ExprForm::Call(_, _)
            | ExprForm::Dot(_, _)
            | ExprForm::Arrow(_, _)
            | ExprForm::Step(_, _)
            | ExprForm::Unary(_, _)
            | ExprForm::SizeExpr(_)
            | ExprForm::SizeName(_)
            | ExprForm::Cast(_, _)
            | ExprForm::Binary(_, _, _)
            | ExprForm::Choice(_, _, _)
            | ExprForm::Assign(_, _, _) => None,
        }
    }
}

//! Effects of expressions.

ghost use Rattle.std.specs.Prelude.{◌≡◌};
ghost use Rattle.stk_tree.specs.View.{view_expression};
ghost use Rattle.stk_meaning.specs.Replacements.{has_effect};

use stk_tree::{Expr, ExprForm};

/// Whether an expression holds a call, an assignment, `++` or `--`.
pub(crate) fn has_effect(e: &Expr) -> bool
    ensures { result ≡ has_effect (view_expression e.now) }
{
    match &e.form {
        ExprForm::Name(_)
        | ExprForm::Number(_)
        | ExprForm::Character(_)
        | ExprForm::Text(_)
        | ExprForm::SizeName(_) => false,
        ExprForm::Call(_, _) | ExprForm::Step(_, _) | ExprForm::Assign(_, _, _) => true,
        ExprForm::Paren(x) => has_effect(x.get()),
        ExprForm::Dot(x, _) => has_effect(x.get()),
        ExprForm::Arrow(x, _) => has_effect(x.get()),
        ExprForm::Unary(_, x) => has_effect(x.get()),
        ExprForm::SizeExpr(x) => has_effect(x.get()),
        ExprForm::Cast(_, x) => has_effect(x.get()),
        ExprForm::Index(a, b) => has_effect(a.get()) || has_effect(b.get()),
        ExprForm::Binary(_, a, b) => has_effect(a.get()) || has_effect(b.get()),
        ExprForm::Choice(a, b, c) => {
            has_effect(a.get()) || (has_effect(b.get()) || has_effect(c.get()))
        }
    }
}

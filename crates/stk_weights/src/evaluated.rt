//! What the forms of expressions add to the weight of their nodes only where they are evaluated.

ghost use Rattle.std.specs.Prelude.{◌≡◌, ◌≤◌, IfOk};
ghost use Rattle.stk_tree.specs.View.{view_expression, view_expression_form};
ghost use Rattle.stk_function_types.specs.Nodes.{typing_in};
ghost use Rattle.stk_function_types.specs.Visits.{role_in};
ghost use Rattle.stk_operators.specs.Shown.{operation_shown};
ghost use Rattle.stk_meaning.specs.Operations.{sort_of};
ghost use Rattle.stk_meaning.specs.Replacements.{replacement};
ghost use Rattle.stk_meaning.specs.Weights.{comparison_weight, compared_weight, evaluated_weight};
ghost use Rattle.stk_function_env.specs.Settings.{setting_in};

use crate::forms::operation_between;
use crate::operations::library_weight;
use crate::storing::{kept_count, read_weight, stored_weight};
use std::alloc::Global;
use stk_base::NoMemory;
use stk_function_env::{Setting, called_library};
use stk_function_types::{FunctionTypes, Role};
use stk_operators::{BinarySort, Operation, sort_of};
use stk_replacements::replacement;
use stk_tree::{BinaryOp, Expr, ExprForm};

// What the replacement of a comparison adds, where an operation is one and has a replacement.
fn comparison_weight(
    alloc: Global,
    types: &FunctionTypes,
    how: &Operation,
    a: &Expr,
    b: &Expr,
) -> Result<u64, NoMemory>
    ensures is { IfOk result (λ n. n ≡ comparison_weight (operation_shown how.now) (replacement (typing_in types.now) (view_expression a.now) (view_expression b.now))) }
    ensures few { IfOk result (λ n. n ≤ 2048) }
{
    match how {
        Operation::CompareIn(_, _) => match replacement(alloc, types, a, b)? {
            None => Ok(0),
            Some(_) => Ok(2048),
        },
        Operation::InKind(_, _)
        | Operation::ShiftIn(_, _)
        | Operation::Move(_, _)
        | Operation::MoveBehind(_)
        | Operation::Measure(_) => Ok(0),
    }
}

// What a binary operator adds for its replacement.
fn compared_weight(
    alloc: Global,
    types: &FunctionTypes,
    op: BinaryOp,
    a: &Expr,
    b: &Expr,
) -> Result<u64, NoMemory>
    ensures is { IfOk result (λ n. n ≡ compared_weight (typing_in types.now) (sort_of op) (view_expression a.now) (view_expression b.now)) }
    ensures few { IfOk result (λ n. n ≤ 2048) }
{
    match sort_of(op) {
        BinarySort::Operates(op) => {
            let how = operation_between(types, op, a, b);
            let n = comparison_weight(alloc, types, &how, a, b)?;
            Ok(n)
        }
        BinarySort::Joins | BinarySort::OrElse | BinarySort::AndAlso => Ok(0),
    }
}

/// What an evaluated expression of this form at a node adds: for the kept objects, for a call of the library, and for
/// a replacement.
pub(crate) fn evaluated_weight(
    alloc: Global,
    setting: &Setting,
    node: u32,
    role: Role,
    f: &ExprForm,
) -> Result<u64, NoMemory>
    ensures is { IfOk result (λ n. n ≡ evaluated_weight (setting_in setting.now) node (role_in role) (view_expression_form f.now)) }
    ensures few { IfOk result (λ n. n ≤ 4608) }
{
    match f {
        ExprForm::Name(_) => {
            let place = setting.form_target(node, f);
            Ok(read_weight(setting.types(), node, role.use_of, place))
        }
        ExprForm::Call(callee, _) => {
            let called = called_library(setting.types(), callee.get());
            Ok(16 * kept_count(setting) + library_weight(called))
        }
        ExprForm::Step(_, e) | ExprForm::Assign(_, e, _) => Ok(stored_weight(setting, e.get())),
        ExprForm::Binary(op, a, b) => {
            compared_weight(alloc, setting.types(), *op, a.get(), b.get())
        }
        ExprForm::Number(_)
        | ExprForm::Character(_)
        | ExprForm::Text(_)
        | ExprForm::Paren(_)
        | ExprForm::Index(_, _)
        | ExprForm::Dot(_, _)
        | ExprForm::Arrow(_, _)
        | ExprForm::Unary(_, _)
        | ExprForm::SizeExpr(_)
        | ExprForm::SizeName(_)
        | ExprForm::Cast(_, _)
        | ExprForm::Choice(_, _, _) => Ok(0),
    }
}

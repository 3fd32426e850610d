//! The text of what the comparison at a node is replaced by.

ghost use Rattle.std.specs.Prelude.{◌≡◌, IfOk, map};
ghost use Rattle.stk_tree.specs.View.{view_expression, view_expression_form};
ghost use Rattle.stk_function_types.specs.Nodes.{typing_in};
ghost use Rattle.stk_operators.specs.Shown.{sort_shown};
ghost use Rattle.stk_function_types.specs.Visits.{marked_visit};
ghost use Rattle.stk_function_types.specs.Gathered.{given, gathered};
ghost use Rattle.stk_meaning.specs.Replacements.{replacement};
ghost use Rattle.stk_spelling.specs.Given.{texts_of};
ghost use Rattle.stk_spelling.specs.Replaced.{text_if, sort_replaced, form_replaced, visit_replaced, first_text};

use std::alloc::Global;
use stk_base::NoMemory;
use stk_function_types::{FunctionTypes, Visit, VisitForm};
use stk_numbers::CompareOp;
use stk_operators::{BinarySort, Operator, sort_of};
use stk_replacements::{replacement, replacement_text};
use stk_tree::{Expr, ExprForm};

// The text of a comparison's replacement, where it has one.
fn comparison_text(
    alloc: Global,
    types: &FunctionTypes,
    op: CompareOp,
    sides: (&Expr, &Expr),
) -> Result<Option<Vec<u8>>, NoMemory>
    ensures { IfOk result (λ text. texts_of text ≡ text_if types.now.bytes op (replacement (typing_in types.now) (view_expression sides.entry.0.now) (view_expression sides.entry.1.now))) }
{
    match replacement(alloc, types, sides.0, sides.1)? {
        None => Ok(None),
        Some(found) => {
            let text = replacement_text(alloc, types.bytes(), op, &found)?;
            Ok(Some(text))
        }
    }
}

// The same of a binary operator.
fn sort_text(
    alloc: Global,
    types: &FunctionTypes,
    sort: BinarySort,
    sides: (&Expr, &Expr),
) -> Result<Option<Vec<u8>>, NoMemory>
    ensures { IfOk result (λ text. texts_of text ≡ sort_replaced (typing_in types.now) (sort_shown sort) (view_expression sides.entry.0.now) (view_expression sides.entry.1.now)) }
{
    match sort {
        BinarySort::Operates(Operator::Comparing(op)) => comparison_text(alloc, types, op, sides),
        BinarySort::Operates(Operator::Arithmetic(_) | Operator::Shifting(_))
        | BinarySort::Joins
        | BinarySort::OrElse
        | BinarySort::AndAlso => Ok(None),
    }
}

// The same of an expression of a form.
fn form_text(
    alloc: Global,
    types: &FunctionTypes,
    f: &ExprForm,
) -> Result<Option<Vec<u8>>, NoMemory>
    ensures { IfOk result (λ text. texts_of text ≡ form_replaced (typing_in types.now) (view_expression_form f.now)) }
{
    match f {
        ExprForm::Binary(op, a, b) => sort_text(alloc, types, sort_of(*op), (a.get(), b.get())),
        ExprForm::Name(_)
        | ExprForm::Number(_)
        | ExprForm::Character(_)
        | ExprForm::Text(_)
        | ExprForm::Paren(_)
        | ExprForm::Index(_, _)
        | ExprForm::Call(_, _)
        | ExprForm::Dot(_, _)
        | ExprForm::Arrow(_, _)
        | ExprForm::Step(_, _)
        | ExprForm::Unary(_, _)
        | ExprForm::SizeExpr(_)
        | ExprForm::SizeName(_)
        | ExprForm::Cast(_, _)
        | ExprForm::Choice(_, _, _)
        | ExprForm::Assign(_, _, _) => Ok(None),
    }
}

// The same of a visit, where it is evaluated and the one of a node.
fn visit_text(
    alloc: Global,
    types: &FunctionTypes,
    node: u32,
    visit: &Visit,
) -> Result<Option<Vec<u8>>, NoMemory>
    ensures { IfOk result (λ text. texts_of text ≡ given (visit_replaced (typing_in types.now) node) (marked_visit visit.now)) }
{
    if !visit.is_evaluated {
        return Ok(None);
    }
    match visit.form {
        VisitForm::Expression(_, f) => {
            if visit.node == node {
                form_text(alloc, types, f)
            } else {
                Ok(None)
            }
        }
        VisitForm::Declarator(_, _, _) | VisitForm::Statement(_, _) | VisitForm::Section(_) => {
            Ok(None)
        }
    }
}

/// The text of what the comparison at a node is replaced by, among the visits of its function; no text where there is
/// no such comparison.
pub(crate) fn replaced_at(
    alloc: Global,
    types: &FunctionTypes,
    visits: &[Visit],
    node: u32,
) -> Result<Vec<u8>, NoMemory>
    ensures { IfOk result (λ text. text.items ≡ first_text (gathered (visit_replaced (typing_in types.now) node) (map marked_visit visits.now))) }
{
    for visit in visits {
        if let Some(text) = visit_text(alloc, types, node, visit)? {
            return Ok(text);
        }
    }
    Ok(Vec::new(alloc))
}

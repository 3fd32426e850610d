//! The text of what a comparison is replaced by, by its node.

use std::alloc::Global;
use stk_base::NoMemory;
use stk_function_types::{FunctionTypes, Visit, VisitForm};
use stk_numbers::CompareOp;
use stk_operators::{BinarySort, Operator, sort_of};
use stk_replacements::{replacement, replacement_text};
use stk_tree::{BinaryOp, Expr, ExprForm};

// The comparison that an operator is.
fn comparison_of(op: BinaryOp) -> Option<CompareOp> {
    match sort_of(op) {
        BinarySort::Operates(Operator::Comparing(op)) => Some(op),
        BinarySort::Operates(Operator::Arithmetic(_) | Operator::Shifting(_))
        | BinarySort::Joins
        | BinarySort::OrElse
        | BinarySort::AndAlso => None,
    }
}

// The text of a comparison's replacement; none where it has none.
fn comparison_text(
    alloc: Global,
    types: &FunctionTypes,
    op: BinaryOp,
    left: &Expr,
    right: &Expr,
) -> Result<Vec<u8>, NoMemory> {
    let Some(op) = comparison_of(op) else {
        return Ok(Vec::new(alloc));
    };
    match replacement(alloc, types, left, right)? {
        None => Ok(Vec::new(alloc)),
        Some(found) => replacement_text(alloc, types.bytes(), op, &found),
    }
}

// The operator and the operands of a visit, where it is a binary one at this node.
fn operands_at<'a>(visit: &Visit<'a>, node: u32) -> Option<(BinaryOp, &'a Expr, &'a Expr)> {
    if visit.node != node {
        return None;
    }
    match visit.form {
        VisitForm::Expression(_, ExprForm::Binary(op, a, b)) => Some((*op, a.get(), b.get())),
        VisitForm::Expression(_, _)
        | VisitForm::Declarator(_, _, _)
        | VisitForm::Statement(_, _)
        | VisitForm::Section(_) => None,
    }
}

/// The text of what the comparison at a node is replaced by; none where there is no such comparison.
pub(crate) fn replaced_at(
    alloc: Global,
    types: &FunctionTypes,
    visits: &[Visit],
    node: u32,
) -> Result<Vec<u8>, NoMemory> {
    for visit in visits {
        if let Some((op, left, right)) = operands_at(visit, node) {
            return comparison_text(alloc, types, op, left, right);
        }
    }
    Ok(Vec::new(alloc))
}

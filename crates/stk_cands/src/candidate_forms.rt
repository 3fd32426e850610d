//! The candidates of each form of expressions.

ghost use Rattle.std.specs.Prelude.{◌≡◌, ◌++◌, ◌∷◌, [], OnOk, true};
ghost use Rattle.stk_tree.specs.View.{view_expression, view_expression_form};
ghost use Rattle.stk_function_types.specs.Nodes.{typing_in};
ghost use Rattle.stk_operators.specs.Shown.{sort_shown};
ghost use Rattle.stk_meaning.specs.Replacements.{replacement};
ghost use Rattle.stk_meaning.specs.Lists.{arm_candidates, candidate, binary_candidates, form_candidates, replaced_candidates, seen_candidates};

use std::alloc::Global;
use stk_base::NoMemory;
use stk_function_types::FunctionTypes;
use stk_numbers::{CandKind, Candidate};
use stk_operators::{BinarySort, Operator, sort_of};
use stk_replacements::replacement;
use stk_tree::{Expr, ExprForm};

// Puts a candidate behind the others.
fn put(node: u32, kind: CandKind, out: &mut Vec<Candidate>) -> Result<(), NoMemory>
    ensures { OnOk result (out.new.items ≡ out.old.items ++ candidate node kind ∷ []) }
{
    out.push(Candidate { node, kind })?;
    Ok(())
}

/// Puts the candidate of a branch, where a node is one.
pub(crate) fn arm_candidates(
    node: u32,
    is_arm: bool,
    out: &mut Vec<Candidate>,
) -> Result<(), NoMemory>
    ensures { OnOk result (out.new.items ≡ out.old.items ++ arm_candidates node is_arm) }
{
    if is_arm {
        put(node, CandKind::Arm, out)
    } else {
        Ok(())
    }
}

// Puts the candidates of an expression whose truth is seen, where it is.
fn seen_candidates(node: u32, is_seen: bool, out: &mut Vec<Candidate>) -> Result<(), NoMemory>
    ensures { OnOk result (out.new.items ≡ out.old.items ++ seen_candidates node is_seen) }
{
    if is_seen {
        put(node, CandKind::AlwaysTrue, out)?;
        put(node, CandKind::AlwaysFalse, out)
    } else {
        Ok(())
    }
}

// Puts the candidate of a comparison that may be replaced, where it may.
fn replaced_candidates(
    alloc: Global,
    types: &FunctionTypes,
    node: u32,
    left: &Expr,
    right: &Expr,
    out: &mut Vec<Candidate>,
) -> Result<(), NoMemory>
    ensures { OnOk result (out.new.items ≡ out.old.items ++ replaced_candidates node (replacement (typing_in types.now) (view_expression left.now) (view_expression right.now))) }
{
    match replacement(alloc, types, left, right)? {
        None => Ok(()),
        Some(_) => put(node, CandKind::Algebra, out),
    }
}

// Puts the candidates of a comparison.
fn comparison_candidates(
    alloc: Global,
    types: &FunctionTypes,
    node: u32,
    left: &Expr,
    right: &Expr,
    out: &mut Vec<Candidate>,
) -> Result<(), NoMemory>
    ensures { OnOk result (out.new.items ≡ out.old.items ++ (seen_candidates node true ++ replaced_candidates node (replacement (typing_in types.now) (view_expression left.now) (view_expression right.now)))) }
{
    seen_candidates(node, true, out)?;
    replaced_candidates(alloc, types, node, left, right, out)
}

// Puts the candidates of a binary operator.
fn binary_candidates(
    alloc: Global,
    types: &FunctionTypes,
    node: u32,
    is_test: bool,
    sort: BinarySort,
    sides: (&Expr, &Expr),
    out: &mut Vec<Candidate>,
) -> Result<(), NoMemory>
    ensures { OnOk result (out.new.items ≡ out.old.items ++ binary_candidates (typing_in types.now) node is_test (sort_shown sort) (view_expression sides.entry.0.now) (view_expression sides.entry.1.now)) }
{
    match sort {
        BinarySort::Operates(Operator::Comparing(_)) => {
            comparison_candidates(alloc, types, node, sides.0, sides.1, out)
        }
        BinarySort::Operates(Operator::Arithmetic(_) | Operator::Shifting(_))
        | BinarySort::Joins
        | BinarySort::OrElse
        | BinarySort::AndAlso => seen_candidates(node, is_test, out),
    }
}

/// Puts the candidates of a form at a node, which is a controlling expression or not.
pub(crate) fn form_candidates(
    alloc: Global,
    types: &FunctionTypes,
    node: u32,
    is_test: bool,
    f: &ExprForm,
    out: &mut Vec<Candidate>,
) -> Result<(), NoMemory>
    ensures { OnOk result (out.new.items ≡ out.old.items ++ form_candidates (typing_in types.now) node is_test (view_expression_form f.now)) }
{
    match f {
        ExprForm::Paren(_) => Ok(()),
        ExprForm::Binary(op, a, b) => {
            let sides = (a.get(), b.get());
            binary_candidates(alloc, types, node, is_test, sort_of(*op), sides, out)
        }
        ExprForm::Name(_)
        | ExprForm::Number(_)
        | ExprForm::Character(_)
        | ExprForm::Text(_)
        | ExprForm::Index(_, _)
        | ExprForm::Call(_, _)
        | ExprForm::Dot(_, _)
        | ExprForm::Arrow(_, _)
        | ExprForm::Step(_, _)
        | ExprForm::Unary(_, _)
        | ExprForm::SizeExpr(_)
        | ExprForm::SizeName(_)
        | ExprForm::Cast(_, _)
        | ExprForm::Choice(_, _, _)
        | ExprForm::Assign(_, _, _) => seen_candidates(node, is_test, out),
    }
}

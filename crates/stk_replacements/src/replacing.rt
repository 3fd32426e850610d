//! What a comparison is replaced by.

ghost use Rattle.std.specs.Prelude.{◌≡◌, ◌&&◌, not, if◌then◌else◌, IfOk, option_map};
ghost use Rattle.stk_tree.specs.View.{view_expression};
ghost use Rattle.stk_meaning.specs.Replacements.{summed, summed_by, kept_if, replaced_sum, replaced_side, replacement};
ghost use Rattle.stk_function_types.specs.Nodes.{typing_in};
ghost use Rattle.stk_replacements.specs.Shown.{summed_shown, replaced_shown, may_keep};

use crate::effects::has_effect;
use crate::spelling::spelled_alike;
use std::alloc::Global;
use stk_base::NoMemory;
use stk_function_types::FunctionTypes;
use stk_tree::{BinaryOp, Expr, ExprForm};
use stk_type_rules::kind_of;

/// What a comparison is replaced by: the operand that is kept, and whether it is the right operand of the sum; whether
/// the sum is the left side of the comparison, and whether 0 is the left side of what replaces it.
#[derive(Clone, Copy)]
pub struct Replaced<'a> {
    pub kept: &'a Expr,
    pub is_right: bool,
    pub sum_first: bool,
    pub zero_first: bool,
}

// The operands of a sum or difference, and whether it is a difference.
#[derive(Clone, Copy)]
struct Summed<'a> {
    left: &'a Expr,
    right: &'a Expr,
    minus: bool,
}

// The sum or difference that an expression without parentheses is.
fn sum_of(e: &Expr) -> Option<Summed>
    ensures { option_map summed_shown result ≡ summed (view_expression e.now) }
{
    match &e.form {
        ExprForm::Binary(op, a, b) => summed_by(*op, a.get(), b.get()),
        ExprForm::Paren(_)
        | ExprForm::Name(_)
        | ExprForm::Number(_)
        | ExprForm::Character(_)
        | ExprForm::Text(_)
        | ExprForm::Index(_, _)
        | ExprForm::Call(_, _)
        | ExprForm::Dot(_, _)
        | ExprForm::Arrow(_, _)
        | ExprForm::Step(_, _)
        | ExprForm::Unary(_, _)
        | ExprForm::SizeExpr(_)
        | ExprForm::SizeName(_)
        | ExprForm::Cast(_, _)
        | ExprForm::Choice(_, _, _)
        | ExprForm::Assign(_, _, _) => None,
    }
}

// The sum or difference that an operator makes of two operands.
fn summed_by<'a>(op: BinaryOp, left: &'a Expr, right: &'a Expr) -> Option<Summed<'a>>
    ensures { option_map summed_shown result ≡ summed_by op (view_expression left.now) (view_expression right.now) }
{
    match op {
        BinaryOp::Add => Some(Summed {
            left,
            right,
            minus: false,
        }),
        BinaryOp::Sub => Some(Summed {
            left,
            right,
            minus: true,
        }),
        BinaryOp::Comma
        | BinaryOp::OrElse
        | BinaryOp::AndAlso
        | BinaryOp::Or
        | BinaryOp::Xor
        | BinaryOp::And
        | BinaryOp::Eq
        | BinaryOp::Ne
        | BinaryOp::Lt
        | BinaryOp::Gt
        | BinaryOp::Le
        | BinaryOp::Ge
        | BinaryOp::Left
        | BinaryOp::Right
        | BinaryOp::Mul
        | BinaryOp::Div
        | BinaryOp::Rem => None,
    }
}

// Whether an operand may be kept: where it has an integer type, and neither it nor the other one has an effect.
fn may_keep(types: &FunctionTypes, left_out: &Expr, kept: &Expr) -> bool
    ensures { result ≡ may_keep (typing_in types.now) (view_expression left_out.now) (view_expression kept.now) }
{
    kind_of(types.type_at(kept.node.number)).is_some()
        && !(has_effect(left_out) || has_effect(kept))
}

// Whether an operand is left out and another one kept.
fn is_kept(types: &FunctionTypes, alike: bool, left_out: &Expr, kept: &Expr) -> bool
    ensures { result ≡ (alike && may_keep (typing_in types.now) (view_expression left_out.now) (view_expression kept.now)) }
{
    alike && may_keep(types, left_out, kept)
}

// A replacement, where the operand that it leaves out is spelled like the other side and the other one may be kept.
#[tactic(auto, using(crate::proofs::Choosing::chosen, crate::proofs::Choosing::not_chosen))]
fn kept_if<'a>(
    types: &FunctionTypes,
    alike: bool,
    left_out: &Expr,
    found: Replaced<'a>,
) -> Option<Replaced<'a>>
    ensures { option_map replaced_shown result ≡ kept_if (typing_in types.now) alike (view_expression left_out.now) (view_expression found.entry.kept.now) (replaced_shown found.entry) }
{
    let keeps = is_kept(types, alike, left_out, found.kept);
    if keeps { Some(found) } else { None }
}

// Whether 0 is the left side where the left operand of a sum or difference is left out.
fn zero_first(first: bool, minus: bool) -> bool
    ensures { result ≡ (if first then minus else not minus) }
{
    if first { minus } else { !minus }
}

// Whether the right operand may be left out, which is spelled like the other side or not: that of a sum, and not of a
// difference.
fn right_alike(alike: bool, minus: bool) -> bool
    ensures { result ≡ (alike && not minus) }
{
    alike && !minus
}

// What a sum is replaced by that is compared with another side, where it is the left side of the comparison or not.
#[tactic(auto, using(crate::proofs::Choosing::left_out, crate::proofs::Choosing::right_out))]
fn replaced_sum<'a>(
    alloc: Global,
    types: &FunctionTypes,
    first: bool,
    sum: &Summed<'a>,
    other: &Expr,
) -> Result<Option<Replaced<'a>>, NoMemory>
    ensures { IfOk result (λ found. option_map replaced_shown found ≡ replaced_sum (typing_in types.now) first (summed_shown sum.now) (view_expression other.now)) }
{
    let left = spelled_alike(alloc, types.bytes(), sum.left, other)?;
    if left {
        let keep_right = Replaced {
            kept: sum.right,
            is_right: true,
            sum_first: first,
            zero_first: zero_first(first, sum.minus),
        };
        return Ok(kept_if(types, true, sum.left, keep_right));
    }
    let right = spelled_alike(alloc, types.bytes(), sum.right, other)?;
    let keep_left = Replaced {
        kept: sum.left,
        is_right: false,
        sum_first: first,
        zero_first: !first,
    };
    Ok(kept_if(types, right_alike(right, sum.minus), sum.right, keep_left))
}

// What a side of a comparison that is a sum is replaced by.
fn replaced_side<'a>(
    alloc: Global,
    types: &FunctionTypes,
    first: bool,
    side: &'a Expr,
    other: &Expr,
) -> Result<Option<Replaced<'a>>, NoMemory>
    ensures { IfOk result (λ found. option_map replaced_shown found ≡ replaced_side (typing_in types.now) first (summed (view_expression side.now)) (view_expression other.now)) }
{
    match sum_of(side) {
        None => Ok(None),
        Some(sum) => {
            let found = replaced_sum(alloc, types, first, &sum, other)?;
            Ok(found)
        }
    }
}

/// What a comparison of two sides is replaced by, parentheses round them aside; `None` exactly where it has no
/// replacement. It takes the time of the tokens up to the first difference, and that of the operands where one is
/// spelled like the other side.
#[tactic(auto, using(crate::proofs::Choosing::first_found, crate::proofs::Choosing::second_found))]
pub fn replacement<'a>(
    alloc: Global,
    types: &FunctionTypes,
    left: &'a Expr,
    right: &'a Expr,
) -> Result<Option<Replaced<'a>>, NoMemory>
    ensures { IfOk result (λ found. option_map replaced_shown found ≡ replacement (typing_in types.now) (view_expression left.now) (view_expression right.now)) }
{
    let (left, right) = (left.bare(), right.bare());
    match replaced_side(alloc, types, true, left, right)? {
        Some(found) => Ok(Some(found)),
        None => {
            let found = replaced_side(alloc, types, false, right, left)?;
            Ok(found)
        }
    }
}

//! What is an operand of `&` in expressions.

ghost use Rattle.std.specs.Prelude.{◌≡◌, ◌++◌, OnOk, map};
ghost use Rattle.stk_tree.specs.View.{view_expression, view_type_name, view_dimension, expressions, dimensions, given_expression};
ghost use Rattle.stk_address_taken.specs.Expressions.{name_taken, unary_taken, expression_taken, expressions_taken, type_name_taken, dimension_taken, dimensions_taken, maybe_taken};

use crate::Binding;
use crate::bindings::find_binding;
use stk_base::NoMemory;
use stk_tree::{Dimension, Expr, ExprForm, TypeName, UnaryOp};

// What a name means, parentheses aside, is noted.
fn name_taken(
    bytes: &[u8],
    bindings: &[Binding],
    e: &Expr,
    out: &mut Vec<u32>,
) -> Result<(), NoMemory>
    ensures { OnOk result (out.new.items ≡ out.old.items ++ name_taken bytes.now bindings.now (view_expression e.now)) }
{
    match &e.form {
        ExprForm::Name(at) => {
            if let Some(node) = find_binding(bytes, at.text(bytes), bindings) {
                out.push(node)?;
            }
            Ok(())
        }
        ExprForm::Paren(x) => name_taken(bytes, bindings, x.get(), out),
        _ => Ok(()),
    }
}

// Notes what an operand of `&` means.
fn unary_taken(
    bytes: &[u8],
    bindings: &[Binding],
    op: UnaryOp,
    e: &Expr,
    out: &mut Vec<u32>,
) -> Result<(), NoMemory>
    ensures { OnOk result (out.new.items ≡ out.old.items ++ unary_taken op (name_taken bytes.now bindings.now (view_expression e.now))) }
{
    match op {
        UnaryOp::Address => name_taken(bytes, bindings, e, out),
        UnaryOp::Deref | UnaryOp::Plus | UnaryOp::Minus | UnaryOp::Flip | UnaryOp::Not => Ok(()),
    }
}

/// Notes what is an operand of `&` in an expression.
#[cycle(expression_taken)]
pub(crate) fn expression_taken(
    bytes: &[u8],
    bindings: &[Binding],
    e: &Expr,
    out: &mut Vec<u32>,
) -> Result<(), NoMemory>
    ensures { OnOk result (out.new.items ≡ out.old.items ++ expression_taken bytes.now bindings.now (view_expression e.now)) }
{
    match &e.form {
        ExprForm::Name(_) | ExprForm::Number(_) | ExprForm::Character(_) | ExprForm::Text(_) => {
            Ok(())
        }
        ExprForm::Paren(x)
        | ExprForm::Dot(x, _)
        | ExprForm::Arrow(x, _)
        | ExprForm::Step(_, x)
        | ExprForm::SizeExpr(x) => expression_taken(bytes, bindings, x.get(), out),
        ExprForm::Unary(op, x) => {
            unary_taken(bytes, bindings, *op, x.get(), out)?;
            expression_taken(bytes, bindings, x.get(), out)
        }
        ExprForm::Index(a, b) | ExprForm::Binary(_, a, b) | ExprForm::Assign(_, a, b) => {
            expression_taken(bytes, bindings, a.get(), out)?;
            expression_taken(bytes, bindings, b.get(), out)
        }
        ExprForm::Choice(a, b, c) => {
            expression_taken(bytes, bindings, a.get(), out)?;
            expression_taken(bytes, bindings, b.get(), out)?;
            expression_taken(bytes, bindings, c.get(), out)
        }
        ExprForm::Call(f, args) => {
            expression_taken(bytes, bindings, f.get(), out)?;
            expressions_taken(bytes, bindings, args.as_slice(), out)
        }
        ExprForm::SizeName(t) => type_name_taken(bytes, bindings, t, out),
        ExprForm::Cast(t, x) => {
            type_name_taken(bytes, bindings, t, out)?;
            expression_taken(bytes, bindings, x.get(), out)
        }
    }
}

// Notes the same in expressions.
#[cycle(expression_taken)]
fn expressions_taken(
    bytes: &[u8],
    bindings: &[Binding],
    list: &[Expr],
    out: &mut Vec<u32>,
) -> Result<(), NoMemory>
    ensures { OnOk result (out.new.items ≡ out.old.items ++ expressions_taken bytes.now bindings.now (expressions (map view_expression list.now))) }
{
    for e in list {
        expression_taken(bytes, bindings, e, out)?;
    }
    Ok(())
}

// Notes the same in a type name.
#[cycle(expression_taken)]
fn type_name_taken(
    bytes: &[u8],
    bindings: &[Binding],
    t: &TypeName,
    out: &mut Vec<u32>,
) -> Result<(), NoMemory>
    ensures { OnOk result (out.new.items ≡ out.old.items ++ type_name_taken bytes.now bindings.now (view_type_name t.now)) }
{
    dimensions_taken(bytes, bindings, t.arrays.as_slice(), out)
}

// Notes the same in an array part.
#[cycle(expression_taken)]
fn dimension_taken(
    bytes: &[u8],
    bindings: &[Binding],
    d: &Dimension,
    out: &mut Vec<u32>,
) -> Result<(), NoMemory>
    ensures { OnOk result (out.new.items ≡ out.old.items ++ dimension_taken bytes.now bindings.now (view_dimension d.now)) }
{
    match d {
        Dimension::Open => Ok(()),
        Dimension::Sized(e) => expression_taken(bytes, bindings, e, out),
    }
}

/// Notes the same in array parts.
#[cycle(expression_taken)]
pub(crate) fn dimensions_taken(
    bytes: &[u8],
    bindings: &[Binding],
    list: &[Dimension],
    out: &mut Vec<u32>,
) -> Result<(), NoMemory>
    ensures { OnOk result (out.new.items ≡ out.old.items ++ dimensions_taken bytes.now bindings.now (dimensions (map view_dimension list.now))) }
{
    for d in list {
        dimension_taken(bytes, bindings, d, out)?;
    }
    Ok(())
}

/// Notes the same in an expression that may be missing.
pub(crate) fn maybe_taken(
    bytes: &[u8],
    bindings: &[Binding],
    e: &Option<Expr>,
    out: &mut Vec<u32>,
) -> Result<(), NoMemory>
    ensures { OnOk result (out.new.items ≡ out.old.items ++ maybe_taken bytes.now bindings.now (given_expression e.now)) }
{
    match e {
        None => Ok(()),
        Some(e) => expression_taken(bytes, bindings, e, out),
    }
}

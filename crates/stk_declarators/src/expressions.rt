//! The tags that expressions use.

ghost use Rattle.std.specs.Prelude.{◌≡◌, ◌++◌, OnOk, map};
ghost use Rattle.stk_tree.specs.View.{view_expression, view_type_name, view_dimension, expressions, dimensions};
ghost use Rattle.stk_declarators.specs.Uses.{expression_uses, expressions_uses, type_name_uses, dimension_uses, dimensions_uses};

use crate::{TagUse, base_uses};
use stk_base::NoMemory;
use stk_tree::{Dimension, Expr, ExprForm, TypeName};

/// Puts the tags that an expression uses behind the others.
#[cycle(expression_uses)]
pub fn expression_uses(e: &Expr, out: &mut Vec<TagUse>) -> Result<(), NoMemory>
    ensures { OnOk result (out.new.items ≡ out.old.items ++ expression_uses (view_expression e.now)) }
{
    match &e.form {
        ExprForm::Name(_) | ExprForm::Number(_) | ExprForm::Character(_) | ExprForm::Text(_) => {
            Ok(())
        }
        ExprForm::Paren(x)
        | ExprForm::Dot(x, _)
        | ExprForm::Arrow(x, _)
        | ExprForm::Step(_, x)
        | ExprForm::Unary(_, x)
        | ExprForm::SizeExpr(x) => expression_uses(x.get(), out),
        ExprForm::Index(a, b) | ExprForm::Binary(_, a, b) | ExprForm::Assign(_, a, b) => {
            expression_uses(a.get(), out)?;
            expression_uses(b.get(), out)
        }
        ExprForm::Choice(a, b, c) => {
            expression_uses(a.get(), out)?;
            expression_uses(b.get(), out)?;
            expression_uses(c.get(), out)
        }
        ExprForm::Call(f, args) => {
            expression_uses(f.get(), out)?;
            expressions_uses(args.as_slice(), out)
        }
        ExprForm::SizeName(t) => type_name_uses(t, out),
        ExprForm::Cast(t, x) => {
            type_name_uses(t, out)?;
            expression_uses(x.get(), out)
        }
    }
}

// The same of expressions.
#[cycle(expression_uses)]
fn expressions_uses(list: &[Expr], out: &mut Vec<TagUse>) -> Result<(), NoMemory>
    ensures { OnOk result (out.new.items ≡ out.old.items ++ expressions_uses (expressions (map view_expression list.now))) }
{
    for e in list {
        expression_uses(e, out)?;
    }
    Ok(())
}

// The same of a type name.
#[cycle(expression_uses)]
fn type_name_uses(t: &TypeName, out: &mut Vec<TagUse>) -> Result<(), NoMemory>
    ensures { OnOk result (out.new.items ≡ out.old.items ++ type_name_uses (view_type_name t.now)) }
{
    base_uses(&t.base, out)?;
    dimensions_uses(t.arrays.as_slice(), out)
}

// The same of an array part.
#[cycle(expression_uses)]
fn dimension_uses(d: &Dimension, out: &mut Vec<TagUse>) -> Result<(), NoMemory>
    ensures { OnOk result (out.new.items ≡ out.old.items ++ dimension_uses (view_dimension d.now)) }
{
    match d {
        Dimension::Open => Ok(()),
        Dimension::Sized(e) => expression_uses(e, out),
    }
}

/// The same of array parts.
#[cycle(expression_uses)]
pub fn dimensions_uses(list: &[Dimension], out: &mut Vec<TagUse>) -> Result<(), NoMemory>
    ensures { OnOk result (out.new.items ≡ out.old.items ++ dimensions_uses (dimensions (map view_dimension list.now))) }
{
    for d in list {
        dimension_uses(d, out)?;
    }
    Ok(())
}

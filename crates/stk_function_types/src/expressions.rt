//! The visits of expressions.

ghost use Rattle.std.specs.Prelude.{◌≡◌, ◌++◌, OnOk, map, false, true};
ghost use Rattle.stk_tree.specs.View.{view_expression, view_expression_form, view_type_name, view_dimension, expressions, dimensions, given_expression};
ghost use Rattle.stk_function_types.specs.Nodes.{typing_in};
ghost use Rattle.stk_meaning.specs.Visits.{expression_visits, form_visits, arguments_visits, type_name_visits, dimensions_visits, dimension_visits, maybe_visits};
ghost use Rattle.stk_function_types.specs.Visits.{marked_visits, marked_visit, role_in};

use crate::roles::{
    assigned_role, indexed_role, inner_role, inside, left_role, right_role, unary_role,
};
use crate::visits::put;
use crate::{FunctionTypes, Role, Visit, VisitForm};
use stk_base::NoMemory;
use stk_tree::{Dimension, Expr, ExprForm, TypeName};

/// Puts the visits of an expression in this role behind the others: operands from left to right, and then the
/// expression.
#[cycle(expression_visits)]
pub fn expression_visits<'a>(
    e: &'a Expr,
    types: &FunctionTypes,
    evaluated: bool,
    role: Role,
    out: &mut Vec<Visit<'a>>,
) -> Result<(), NoMemory>
    ensures { OnOk result (map marked_visit out.new.items ≡ map marked_visit out.old.items ++ marked_visits evaluated (expression_visits (typing_in types.now) (role_in role) (view_expression e.now))) }
{
    form_visits(&e.form, e.node.number, types, evaluated, role, out)?;
    let form = VisitForm::Expression(role, &e.form);
    put(
        Visit {
            node: e.node.number,
            is_evaluated: evaluated,
            form,
        },
        out,
    )
}

// Puts the visits of the operands of a form at a node.
#[cycle(expression_visits)]
fn form_visits<'a>(
    f: &'a ExprForm,
    node: u32,
    types: &FunctionTypes,
    evaluated: bool,
    role: Role,
    out: &mut Vec<Visit<'a>>,
) -> Result<(), NoMemory>
    ensures { OnOk result (map marked_visit out.new.items ≡ map marked_visit out.old.items ++ marked_visits evaluated (form_visits (typing_in types.now) node (role_in role) (view_expression_form f.now))) }
{
    match f {
        ExprForm::Name(_) | ExprForm::Number(_) | ExprForm::Character(_) | ExprForm::Text(_) => {
            Ok(())
        }
        ExprForm::Paren(x) => expression_visits(x.get(), types, evaluated, inside(role), out),
        ExprForm::Dot(x, _) => {
            let within = inner_role(types.type_at(node), role.use_of);
            expression_visits(x.get(), types, evaluated, within, out)
        }
        ExprForm::Arrow(x, _) | ExprForm::Step(_, x) => {
            expression_visits(x.get(), types, evaluated, Role::reading(), out)
        }
        ExprForm::Unary(op, x) => {
            expression_visits(x.get(), types, evaluated, unary_role(*op), out)
        }
        ExprForm::SizeExpr(x) => expression_visits(x.get(), types, false, Role::reading(), out),
        ExprForm::SizeName(t) => type_name_visits(t, types, evaluated, out),
        ExprForm::Cast(t, x) => {
            type_name_visits(t, types, evaluated, out)?;
            expression_visits(x.get(), types, evaluated, Role::reading(), out)
        }
        ExprForm::Index(a, b) => {
            let array = a.get();
            let within = indexed_role(
                types.type_at(node),
                types.type_at(array.node.number),
                role.use_of,
            );
            expression_visits(array, types, evaluated, within, out)?;
            expression_visits(b.get(), types, evaluated, Role::reading(), out)
        }
        ExprForm::Binary(op, a, b) => {
            expression_visits(a.get(), types, evaluated, left_role(*op), out)?;
            expression_visits(b.get(), types, evaluated, right_role(*op), out)
        }
        ExprForm::Assign(op, a, b) => {
            expression_visits(a.get(), types, evaluated, assigned_role(*op), out)?;
            expression_visits(b.get(), types, evaluated, Role::reading(), out)
        }
        ExprForm::Choice(a, b, c) => {
            expression_visits(a.get(), types, evaluated, Role::as_test(), out)?;
            expression_visits(b.get(), types, evaluated, Role::as_arm(), out)?;
            expression_visits(c.get(), types, evaluated, Role::as_arm(), out)
        }
        ExprForm::Call(_, list) => arguments_visits(list.as_slice(), types, evaluated, out),
    }
}

// Puts the visits of arguments.
#[cycle(expression_visits)]
fn arguments_visits<'a>(
    list: &'a [Expr],
    types: &FunctionTypes,
    evaluated: bool,
    out: &mut Vec<Visit<'a>>,
) -> Result<(), NoMemory>
    ensures { OnOk result (map marked_visit out.new.items ≡ map marked_visit out.old.items ++ marked_visits evaluated (arguments_visits (typing_in types.now) (expressions (map view_expression list.now)))) }
{
    for e in list {
        expression_visits(e, types, evaluated, Role::reading(), out)?;
    }
    Ok(())
}

// Puts the visits of the sizes in a type name.
#[cycle(expression_visits)]
fn type_name_visits<'a>(
    t: &'a TypeName,
    types: &FunctionTypes,
    evaluated: bool,
    out: &mut Vec<Visit<'a>>,
) -> Result<(), NoMemory>
    ensures { OnOk result (map marked_visit out.new.items ≡ map marked_visit out.old.items ++ marked_visits evaluated (type_name_visits (typing_in types.now) (view_type_name t.now))) }
{
    dimensions_visits(t.arrays.as_slice(), types, evaluated, out)
}

/// Puts the visits of the sizes of array parts.
#[cycle(expression_visits)]
pub(crate) fn dimensions_visits<'a>(
    list: &'a [Dimension],
    types: &FunctionTypes,
    evaluated: bool,
    out: &mut Vec<Visit<'a>>,
) -> Result<(), NoMemory>
    ensures { OnOk result (map marked_visit out.new.items ≡ map marked_visit out.old.items ++ marked_visits evaluated (dimensions_visits (typing_in types.now) (dimensions (map view_dimension list.now)))) }
{
    for d in list {
        dimension_visits(d, types, evaluated, out)?;
    }
    Ok(())
}

// Puts the visits of the size of an array part.
#[cycle(expression_visits)]
fn dimension_visits<'a>(
    d: &'a Dimension,
    types: &FunctionTypes,
    evaluated: bool,
    out: &mut Vec<Visit<'a>>,
) -> Result<(), NoMemory>
    ensures { OnOk result (map marked_visit out.new.items ≡ map marked_visit out.old.items ++ marked_visits evaluated (dimension_visits (typing_in types.now) (view_dimension d.now))) }
{
    match d {
        Dimension::Open => Ok(()),
        Dimension::Sized(e) => expression_visits(e, types, false, Role::reading(), out),
    }
}

/// Puts the visits of an expression that may be missing.
pub(crate) fn maybe_visits<'a>(
    e: &'a Option<Expr>,
    types: &FunctionTypes,
    role: Role,
    out: &mut Vec<Visit<'a>>,
) -> Result<(), NoMemory>
    ensures { OnOk result (map marked_visit out.new.items ≡ map marked_visit out.old.items ++ marked_visits true (maybe_visits (typing_in types.now) (role_in role) (given_expression e.now))) }
{
    match e {
        None => Ok(()),
        Some(e) => expression_visits(e, types, true, role, out),
    }
}

//! The nodes of an expression and of what it holds.

ghost use Rattle.std.specs.Prelude.{◌≡◌, ◌++◌, ◌∷◌, [], OnOk, map};
ghost use Rattle.std.specs.Option.{option_map};
ghost use Rattle.stk_tree.specs.View.{declarators, designators, dimensions, enumerators, expressions, items, maybe_initialiser, members, parameters, view_base, view_base_form, view_declarator, view_designator, view_dimension, view_enumerator, view_expression, view_expression_form, view_initialiser, view_item, view_member, view_parameter, view_tail, view_type_name};
ghost use Rattle.stk_nodes.specs.Rows.{base_form_row, base_row, declarator_row, declarators_row, designator_row, designators_row, dimension_row, dimensions_row, enumerator_row, enumerators_row, expression_form_row, expression_row, expressions_row, initialiser_row, item_row, items_row, maybe_initialiser_row, member_row, members_row, parameter_row, parameters_row, tail_row, type_name_row};

use stk_base::NoMemory;
use stk_tree::{
    Base, BaseForm, Declr, Desig, Dimension, Enumr, Expr, ExprForm, Init, Item, Member, Node,
    Param, Tail, TypeName,
};

// Puts a node behind the others.
pub(crate) fn put_node(node: Node, out: &mut Vec<Node>) -> Result<(), NoMemory>
    ensures { OnOk result (out.new.items ≡ out.old.items ++ node ∷ []) }
{
    out.push(node)?;
    Ok(())
}

// Puts the nodes of an expression behind the others.
#[cycle(expression)]
pub(crate) fn put_expression(x: &Expr, out: &mut Vec<Node>) -> Result<(), NoMemory>
    ensures { OnOk result (out.new.items ≡ out.old.items ++ expression_row (view_expression x.now)) }
{
    put_form(&x.form, out)?;
    put_node(x.node, out)
}

#[cycle(expression)]
fn put_expressions(list: &[Expr], out: &mut Vec<Node>) -> Result<(), NoMemory>
    ensures { OnOk result (out.new.items ≡ out.old.items ++ expressions_row (expressions (map view_expression list.now))) }
{
    for x in list {
        put_expression(x, out)?;
    }
    Ok(())
}

#[cycle(expression)]
fn put_form(x: &ExprForm, out: &mut Vec<Node>) -> Result<(), NoMemory>
    ensures { OnOk result (out.new.items ≡ out.old.items ++ expression_form_row (view_expression_form x.now)) }
{
    match x {
        ExprForm::Name(_) | ExprForm::Number(_) | ExprForm::Character(_) | ExprForm::Text(_) => {
            Ok(())
        }
        ExprForm::Paren(e)
        | ExprForm::Dot(e, _)
        | ExprForm::Arrow(e, _)
        | ExprForm::Step(_, e)
        | ExprForm::Unary(_, e)
        | ExprForm::SizeExpr(e) => put_expression(e.get(), out),
        ExprForm::Index(a, b) | ExprForm::Binary(_, a, b) | ExprForm::Assign(_, a, b) => {
            put_expression(a.get(), out)?;
            put_expression(b.get(), out)
        }
        ExprForm::Call(f, list) => {
            put_expression(f.get(), out)?;
            put_expressions(list.as_slice(), out)
        }
        ExprForm::SizeName(t) => put_type_name(t, out),
        ExprForm::Cast(t, e) => {
            put_type_name(t, out)?;
            put_expression(e.get(), out)
        }
        ExprForm::Choice(a, b, c) => {
            put_expression(a.get(), out)?;
            put_expression(b.get(), out)?;
            put_expression(c.get(), out)
        }
    }
}

#[cycle(expression)]
fn put_type_name(x: &TypeName, out: &mut Vec<Node>) -> Result<(), NoMemory>
    ensures { OnOk result (out.new.items ≡ out.old.items ++ type_name_row (view_type_name x.now)) }
{
    put_base(&x.base, out)?;
    put_dimensions(x.arrays.as_slice(), out)?;
    put_node(x.node, out)
}

#[cycle(expression)]
fn put_dimension(x: &Dimension, out: &mut Vec<Node>) -> Result<(), NoMemory>
    ensures { OnOk result (out.new.items ≡ out.old.items ++ dimension_row (view_dimension x.now)) }
{
    match x {
        Dimension::Open => Ok(()),
        Dimension::Sized(e) => put_expression(e, out),
    }
}

#[cycle(expression)]
fn put_dimensions(list: &[Dimension], out: &mut Vec<Node>) -> Result<(), NoMemory>
    ensures { OnOk result (out.new.items ≡ out.old.items ++ dimensions_row (dimensions (map view_dimension list.now))) }
{
    for x in list {
        put_dimension(x, out)?;
    }
    Ok(())
}

// The same of a base.
#[cycle(expression)]
pub(crate) fn put_base(x: &Base, out: &mut Vec<Node>) -> Result<(), NoMemory>
    ensures { OnOk result (out.new.items ≡ out.old.items ++ base_row (view_base x.now)) }
{
    put_base_form(&x.form, out)?;
    put_node(x.node, out)
}

#[cycle(expression)]
fn put_base_form(x: &BaseForm, out: &mut Vec<Node>) -> Result<(), NoMemory>
    ensures { OnOk result (out.new.items ≡ out.old.items ++ base_form_row (view_base_form x.now)) }
{
    match x {
        BaseForm::Words(_) | BaseForm::StructRef(_) | BaseForm::EnumRef(_) | BaseForm::Named(_) => {
            Ok(())
        }
        BaseForm::StructDef(_, list) => put_members(list.as_slice(), out),
        BaseForm::EnumDef(_, list, _) => put_enumerators(list.as_slice(), out),
    }
}

#[cycle(expression)]
fn put_member(x: &Member, out: &mut Vec<Node>) -> Result<(), NoMemory>
    ensures { OnOk result (out.new.items ≡ out.old.items ++ member_row (view_member x.now)) }
{
    put_base(&x.base, out)?;
    put_declarators(x.list.as_slice(), out)
}

#[cycle(expression)]
fn put_members(list: &[Member], out: &mut Vec<Node>) -> Result<(), NoMemory>
    ensures { OnOk result (out.new.items ≡ out.old.items ++ members_row (members (map view_member list.now))) }
{
    for x in list {
        put_member(x, out)?;
    }
    Ok(())
}

#[cycle(expression)]
fn put_enumerator(x: &Enumr, out: &mut Vec<Node>) -> Result<(), NoMemory>
    ensures { OnOk result (out.new.items ≡ out.old.items ++ enumerator_row (view_enumerator x.now)) }
{
    match &x.value {
        None => Ok(()),
        Some(e) => put_expression(e, out),
    }
}

#[cycle(expression)]
fn put_enumerators(list: &[Enumr], out: &mut Vec<Node>) -> Result<(), NoMemory>
    ensures { OnOk result (out.new.items ≡ out.old.items ++ enumerators_row (enumerators (map view_enumerator list.now))) }
{
    for x in list {
        put_enumerator(x, out)?;
    }
    Ok(())
}

// The same of a declarator.
#[cycle(expression)]
pub(crate) fn put_declarator(x: &Declr, out: &mut Vec<Node>) -> Result<(), NoMemory>
    ensures { OnOk result (out.new.items ≡ out.old.items ++ declarator_row (view_declarator x.now)) }
{
    put_tail(&x.tail, out)?;
    put_initial(&x.init, out)?;
    put_node(x.node, out)
}

#[cycle(expression)]
fn put_initial(x: &Option<Init>, out: &mut Vec<Node>) -> Result<(), NoMemory>
    ensures { OnOk result (out.new.items ≡ out.old.items ++ maybe_initialiser_row (maybe_initialiser (option_map view_initialiser x.now))) }
{
    match x {
        None => Ok(()),
        Some(i) => put_initialiser(i, out),
    }
}

// The same of declarators.
#[cycle(expression)]
pub(crate) fn put_declarators(list: &[Declr], out: &mut Vec<Node>) -> Result<(), NoMemory>
    ensures { OnOk result (out.new.items ≡ out.old.items ++ declarators_row (declarators (map view_declarator list.now))) }
{
    for x in list {
        put_declarator(x, out)?;
    }
    Ok(())
}

#[cycle(expression)]
fn put_tail(x: &Tail, out: &mut Vec<Node>) -> Result<(), NoMemory>
    ensures { OnOk result (out.new.items ≡ out.old.items ++ tail_row (view_tail x.now)) }
{
    match x {
        Tail::Arrays(list) => put_dimensions(list.as_slice(), out),
        Tail::Unspecified | Tail::NoParams => Ok(()),
        Tail::Params(list, _) => put_parameters(list.as_slice(), out),
    }
}

#[cycle(expression)]
fn put_parameter(x: &Param, out: &mut Vec<Node>) -> Result<(), NoMemory>
    ensures { OnOk result (out.new.items ≡ out.old.items ++ parameter_row (view_parameter x.now)) }
{
    put_base(&x.base, out)?;
    put_declarator(&x.declr, out)?;
    put_node(x.node, out)
}

#[cycle(expression)]
fn put_parameters(list: &[Param], out: &mut Vec<Node>) -> Result<(), NoMemory>
    ensures { OnOk result (out.new.items ≡ out.old.items ++ parameters_row (parameters (map view_parameter list.now))) }
{
    for x in list {
        put_parameter(x, out)?;
    }
    Ok(())
}

// The same of an initialiser.
#[cycle(expression)]
pub(crate) fn put_initialiser(x: &Init, out: &mut Vec<Node>) -> Result<(), NoMemory>
    ensures { OnOk result (out.new.items ≡ out.old.items ++ initialiser_row (view_initialiser x.now)) }
{
    match x {
        Init::Plain(e) => put_expression(e, out),
        Init::Braces(list, _) => put_items(list.as_slice(), out),
    }
}

#[cycle(expression)]
fn put_item(x: &Item, out: &mut Vec<Node>) -> Result<(), NoMemory>
    ensures { OnOk result (out.new.items ≡ out.old.items ++ item_row (view_item x.now)) }
{
    put_designators(x.path.as_slice(), out)?;
    put_initialiser(&x.init, out)
}

#[cycle(expression)]
fn put_items(list: &[Item], out: &mut Vec<Node>) -> Result<(), NoMemory>
    ensures { OnOk result (out.new.items ≡ out.old.items ++ items_row (items (map view_item list.now))) }
{
    for x in list {
        put_item(x, out)?;
    }
    Ok(())
}

#[cycle(expression)]
fn put_designator(x: &Desig, out: &mut Vec<Node>) -> Result<(), NoMemory>
    ensures { OnOk result (out.new.items ≡ out.old.items ++ designator_row (view_designator x.now)) }
{
    match x {
        Desig::Dot(_) => Ok(()),
        Desig::At(e) => put_expression(e, out),
    }
}

#[cycle(expression)]
fn put_designators(list: &[Desig], out: &mut Vec<Node>) -> Result<(), NoMemory>
    ensures { OnOk result (out.new.items ≡ out.old.items ++ designators_row (designators (map view_designator list.now))) }
{
    for x in list {
        put_designator(x, out)?;
    }
    Ok(())
}

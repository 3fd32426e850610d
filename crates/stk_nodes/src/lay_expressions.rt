//! Lays out expressions and what holds them: sets the node records of a tree, from a cursor on.
ghost use Rattle.std.specs.Prelude.{◌≡◌, ◌+◌, ◌<◌, ◌^◌, length, map};
ghost use Rattle.stk_tree.specs.Layout.{laid_base, laid_base_form, laid_declarator, laid_declarators, laid_designator, laid_designators, laid_dimension, laid_dimensions, laid_enumerator, laid_enumerators, laid_expression, laid_expression_form, laid_expressions, laid_initialiser, laid_item, laid_items, laid_member, laid_members, laid_parameter, laid_parameters, laid_tail, laid_type_name};
ghost use Rattle.stk_tree.specs.Nodes.{base_form_nodes, base_nodes, declarator_nodes, declarators_nodes, designator_nodes, designators_nodes, dimension_nodes, dimensions_nodes, enumerator_nodes, enumerators_nodes, expression_form_nodes, expression_nodes, expressions_nodes, initialiser_nodes, item_nodes, items_nodes, member_nodes, members_nodes, parameter_nodes, parameters_nodes, tail_nodes, type_name_nodes};
ghost use Rattle.stk_tree.specs.Tokens.{base_form_tokens, base_tokens, declarator_tokens, declarators_tokens, designator_tokens, designators_tokens, dimension_tokens, dimensions_tokens, enumerator_tokens, enumerators_tokens, expression_form_tokens, expression_tokens, expressions_tokens, initialiser_tokens, item_tokens, items_tokens, member_tokens, members_tokens, parameter_tokens, parameters_tokens, tail_tokens, type_name_tokens};
ghost use Rattle.stk_nodes.specs.Setter.{setter};
ghost use Rattle.stk_tree.specs.View.{declarators, designators, dimensions, enumerators, expressions, items, members, parameters, view_base, view_base_form, view_declarator, view_designator, view_dimension, view_enumerator, view_expression, view_expression_form, view_initialiser, view_item, view_member, view_parameter, view_tail, view_type_name};

use crate::cursor::{
    Cursor, Records, after_name, close, count_of_comma, count_of_more, count_of_path_end,
    count_of_word,
};
use stk_tree::{
    Base, BaseForm, Declr, Desig, Dimension, Enumr, Expr, ExprForm, Init, Item, Member, Param,
    StepOp, Tail, TypeName,
};

#[cycle(lay_expression)]
pub(crate) fn lay_expression(x: &mut Expr, at: Cursor, records: Records<'_>) -> Cursor
    requires numbers { at.number + expression_nodes (view_expression x.old) < 2 ^ 32 }
    requires tokens { at.token + length (expression_tokens (view_expression x.old)) < 2 ^ 32 }
    ensures tree { view_expression x.new ≡ laid_expression (setter records.entry) at.number at.token (view_expression x.old) }
    ensures number { result.number ≡ at.number + expression_nodes (view_expression x.old) }
    ensures token { result.token ≡ at.token + length (expression_tokens (view_expression x.old)) }
{
    let end = lay_expression_form(&mut x.form, at, records);
    close(&mut x.node, at, end, records)
}

#[cycle(lay_expression)]
fn lay_expressions(list: &mut [Expr], at: Cursor, records: Records<'_>) -> Cursor
    requires numbers { at.number + expressions_nodes (expressions (map view_expression list.old)) < 2 ^ 32 }
    requires tokens { at.token + length (expressions_tokens (expressions (map view_expression list.old))) + 1 < 2 ^ 32 }
    ensures tree { expressions (map view_expression list.new) ≡ laid_expressions (setter records.entry) at.number at.token (expressions (map view_expression list.old)) }
    ensures number { result.number ≡ at.number + expressions_nodes (expressions (map view_expression list.old)) }
    ensures token { result.token ≡ at.token + length (expressions_tokens (expressions (map view_expression list.old))) }
{
    if list.is_empty() {
        return at;
    }
    let mut end = lay_expression(&mut list[0], at, records);
    for i in 1..list.len() {
        end = lay_expression(&mut list[i], end.past(1), records);
    }
    end
}

#[cycle(lay_expression)]
fn lay_expression_form(x: &mut ExprForm, at: Cursor, records: Records<'_>) -> Cursor
    requires numbers { at.number + expression_form_nodes (view_expression_form x.old) < 2 ^ 32 }
    requires tokens { at.token + length (expression_form_tokens (view_expression_form x.old)) < 2 ^ 32 }
    ensures tree { view_expression_form x.new ≡ laid_expression_form (setter records.entry) at.number at.token (view_expression_form x.old) }
    ensures number { result.number ≡ at.number + expression_form_nodes (view_expression_form x.old) }
    ensures token { result.token ≡ at.token + length (expression_form_tokens (view_expression_form x.old)) }
{
    match x {
        ExprForm::Name(_) | ExprForm::Number(_) | ExprForm::Character(_) => at.past(1),
        ExprForm::Text(parts) => at.past(parts.len() as u32),
        ExprForm::Paren(e) => lay_expression(e.get_mut(), at.past(1), records).past(1),
        ExprForm::Index(a, b) => {
            let next = lay_expression(a.get_mut(), at, records).past(1);
            lay_expression(b.get_mut(), next, records).past(1)
        }
        ExprForm::Call(f, list) => {
            let next = lay_expression(f.get_mut(), at, records).past(1);
            lay_expressions(list.as_mut_slice(), next, records).past(1)
        }
        ExprForm::Dot(e, _) => lay_expression(e.get_mut(), at, records).past(2),
        ExprForm::Arrow(e, _) => lay_expression(e.get_mut(), at, records).past(2),
        ExprForm::Step(StepOp::IncBefore | StepOp::DecBefore, e) => {
            lay_expression(e.get_mut(), at.past(1), records)
        }
        ExprForm::Step(StepOp::IncAfter | StepOp::DecAfter, e) => {
            lay_expression(e.get_mut(), at, records).past(1)
        }
        ExprForm::Unary(_, e) => lay_expression(e.get_mut(), at.past(1), records),
        ExprForm::SizeExpr(e) => lay_expression(e.get_mut(), at.past(1), records),
        ExprForm::SizeName(t) => lay_type_name(t, at.past(2), records).past(1),
        ExprForm::Cast(t, e) => {
            let next = lay_type_name(t, at.past(1), records).past(1);
            lay_expression(e.get_mut(), next, records)
        }
        ExprForm::Binary(_, a, b) => {
            let next = lay_expression(a.get_mut(), at, records).past(1);
            lay_expression(b.get_mut(), next, records)
        }
        ExprForm::Choice(a, b, c) => {
            let second = lay_expression(a.get_mut(), at, records).past(1);
            let third = lay_expression(b.get_mut(), second, records).past(1);
            lay_expression(c.get_mut(), third, records)
        }
        ExprForm::Assign(_, a, b) => {
            let next = lay_expression(a.get_mut(), at, records).past(1);
            lay_expression(b.get_mut(), next, records)
        }
    }
}

#[cycle(lay_expression)]
fn lay_type_name(x: &mut TypeName, at: Cursor, records: Records<'_>) -> Cursor
    requires numbers { at.number + type_name_nodes (view_type_name x.old) < 2 ^ 32 }
    requires tokens { at.token + length (type_name_tokens (view_type_name x.old)) < 2 ^ 32 }
    ensures tree { view_type_name x.new ≡ laid_type_name (setter records.entry) at.number at.token (view_type_name x.old) }
    ensures number { result.number ≡ at.number + type_name_nodes (view_type_name x.old) }
    ensures token { result.token ≡ at.token + length (type_name_tokens (view_type_name x.old)) }
{
    let next = lay_base(&mut x.base, at, records).past(x.stars);
    let end = lay_dimensions(x.arrays.as_mut_slice(), next, records);
    close(&mut x.node, at, end, records)
}

#[cycle(lay_expression)]
fn lay_dimension(x: &mut Dimension, at: Cursor, records: Records<'_>) -> Cursor
    requires numbers { at.number + dimension_nodes (view_dimension x.old) < 2 ^ 32 }
    requires tokens { at.token + length (dimension_tokens (view_dimension x.old)) < 2 ^ 32 }
    ensures tree { view_dimension x.new ≡ laid_dimension (setter records.entry) at.number at.token (view_dimension x.old) }
    ensures number { result.number ≡ at.number + dimension_nodes (view_dimension x.old) }
    ensures token { result.token ≡ at.token + length (dimension_tokens (view_dimension x.old)) }
{
    match x {
        Dimension::Open => at.past(2),
        Dimension::Sized(e) => lay_expression(e, at.past(1), records).past(1),
    }
}

#[cycle(lay_expression)]
fn lay_dimensions(list: &mut [Dimension], at: Cursor, records: Records<'_>) -> Cursor
    requires numbers { at.number + dimensions_nodes (dimensions (map view_dimension list.old)) < 2 ^ 32 }
    requires tokens { at.token + length (dimensions_tokens (dimensions (map view_dimension list.old))) < 2 ^ 32 }
    ensures tree { dimensions (map view_dimension list.new) ≡ laid_dimensions (setter records.entry) at.number at.token (dimensions (map view_dimension list.old)) }
    ensures number { result.number ≡ at.number + dimensions_nodes (dimensions (map view_dimension list.old)) }
    ensures token { result.token ≡ at.token + length (dimensions_tokens (dimensions (map view_dimension list.old))) }
{
    let mut end = at;
    for i in 0..list.len() {
        end = lay_dimension(&mut list[i], end, records);
    }
    end
}

#[cycle(lay_expression)]
pub(crate) fn lay_base(x: &mut Base, at: Cursor, records: Records<'_>) -> Cursor
    requires numbers { at.number + base_nodes (view_base x.old) < 2 ^ 32 }
    requires tokens { at.token + length (base_tokens (view_base x.old)) < 2 ^ 32 }
    ensures tree { view_base x.new ≡ laid_base (setter records.entry) at.number at.token (view_base x.old) }
    ensures number { result.number ≡ at.number + base_nodes (view_base x.old) }
    ensures token { result.token ≡ at.token + length (base_tokens (view_base x.old)) }
{
    let end = lay_base_form(&mut x.form, at, records);
    close(&mut x.node, at, end, records)
}

#[cycle(lay_expression)]
fn lay_base_form(x: &mut BaseForm, at: Cursor, records: Records<'_>) -> Cursor
    requires numbers { at.number + base_form_nodes (view_base_form x.old) < 2 ^ 32 }
    requires tokens { at.token + length (base_form_tokens (view_base_form x.old)) < 2 ^ 32 }
    ensures tree { view_base_form x.new ≡ laid_base_form (setter records.entry) at.number at.token (view_base_form x.old) }
    ensures number { result.number ≡ at.number + base_form_nodes (view_base_form x.old) }
    ensures token { result.token ≡ at.token + length (base_form_tokens (view_base_form x.old)) }
{
    match x {
        BaseForm::Words(words) => at.past(words.len() as u32),
        BaseForm::StructRef(_) | BaseForm::EnumRef(_) => at.past(2),
        BaseForm::Named(_) => at.past(1),
        BaseForm::StructDef(tag, list) => {
            let next = at.past(count_of_word(*tag)).past(2);
            lay_members(list.as_mut_slice(), next, records).past(1)
        }
        BaseForm::EnumDef(tag, list, comma) => {
            let next = at.past(count_of_word(*tag)).past(2);
            let end = lay_enumerators(list.as_mut_slice(), next, records);
            end.past(count_of_comma(*comma)).past(1)
        }
    }
}

#[cycle(lay_expression)]
fn lay_member(x: &mut Member, at: Cursor, records: Records<'_>) -> Cursor
    requires numbers { at.number + member_nodes (view_member x.old) < 2 ^ 32 }
    requires tokens { at.token + length (member_tokens (view_member x.old)) < 2 ^ 32 }
    ensures tree { view_member x.new ≡ laid_member (setter records.entry) at.number at.token (view_member x.old) }
    ensures number { result.number ≡ at.number + member_nodes (view_member x.old) }
    ensures token { result.token ≡ at.token + length (member_tokens (view_member x.old)) }
{
    let next = lay_base(&mut x.base, at, records);
    lay_declarators(x.list.as_mut_slice(), next, records).past(1)
}

#[cycle(lay_expression)]
fn lay_members(list: &mut [Member], at: Cursor, records: Records<'_>) -> Cursor
    requires numbers { at.number + members_nodes (members (map view_member list.old)) < 2 ^ 32 }
    requires tokens { at.token + length (members_tokens (members (map view_member list.old))) < 2 ^ 32 }
    ensures tree { members (map view_member list.new) ≡ laid_members (setter records.entry) at.number at.token (members (map view_member list.old)) }
    ensures number { result.number ≡ at.number + members_nodes (members (map view_member list.old)) }
    ensures token { result.token ≡ at.token + length (members_tokens (members (map view_member list.old))) }
{
    let mut end = at;
    for i in 0..list.len() {
        end = lay_member(&mut list[i], end, records);
    }
    end
}

#[cycle(lay_expression)]
fn lay_enumerator(x: &mut Enumr, at: Cursor, records: Records<'_>) -> Cursor
    requires numbers { at.number + enumerator_nodes (view_enumerator x.old) < 2 ^ 32 }
    requires tokens { at.token + length (enumerator_tokens (view_enumerator x.old)) < 2 ^ 32 }
    ensures tree { view_enumerator x.new ≡ laid_enumerator (setter records.entry) at.number at.token (view_enumerator x.old) }
    ensures number { result.number ≡ at.number + enumerator_nodes (view_enumerator x.old) }
    ensures token { result.token ≡ at.token + length (enumerator_tokens (view_enumerator x.old)) }
{
    match &mut x.value {
        None => at.past(1),
        Some(e) => lay_expression(e, at.past(2), records),
    }
}

#[cycle(lay_expression)]
fn lay_enumerators(list: &mut [Enumr], at: Cursor, records: Records<'_>) -> Cursor
    requires numbers { at.number + enumerators_nodes (enumerators (map view_enumerator list.old)) < 2 ^ 32 }
    requires tokens { at.token + length (enumerators_tokens (enumerators (map view_enumerator list.old))) + 1 < 2 ^ 32 }
    ensures tree { enumerators (map view_enumerator list.new) ≡ laid_enumerators (setter records.entry) at.number at.token (enumerators (map view_enumerator list.old)) }
    ensures number { result.number ≡ at.number + enumerators_nodes (enumerators (map view_enumerator list.old)) }
    ensures token { result.token ≡ at.token + length (enumerators_tokens (enumerators (map view_enumerator list.old))) }
{
    if list.is_empty() {
        return at;
    }
    let mut end = lay_enumerator(&mut list[0], at, records);
    for i in 1..list.len() {
        end = lay_enumerator(&mut list[i], end.past(1), records);
    }
    end
}

#[cycle(lay_expression)]
pub(crate) fn lay_declarator(x: &mut Declr, at: Cursor, records: Records<'_>) -> Cursor
    requires numbers { at.number + declarator_nodes (view_declarator x.old) < 2 ^ 32 }
    requires tokens { at.token + length (declarator_tokens (view_declarator x.old)) < 2 ^ 32 }
    ensures tree { view_declarator x.new ≡ laid_declarator (setter records.entry) at.number at.token (view_declarator x.old) }
    ensures number { result.number ≡ at.number + declarator_nodes (view_declarator x.old) }
    ensures token { result.token ≡ at.token + length (declarator_tokens (view_declarator x.old)) }
{
    let after_tail = lay_tail(&mut x.tail, after_name(x.stars, x.name, at), records);
    match &mut x.init {
        None => close(&mut x.node, at, after_tail, records),
        Some(init) => {
            let end = lay_initialiser(init, after_tail.past(1), records);
            close(&mut x.node, at, end, records)
        }
    }
}

#[cycle(lay_expression)]
pub(crate) fn lay_declarators(list: &mut [Declr], at: Cursor, records: Records<'_>) -> Cursor
    requires numbers { at.number + declarators_nodes (declarators (map view_declarator list.old)) < 2 ^ 32 }
    requires tokens { at.token + length (declarators_tokens (declarators (map view_declarator list.old))) + 1 < 2 ^ 32 }
    ensures tree { declarators (map view_declarator list.new) ≡ laid_declarators (setter records.entry) at.number at.token (declarators (map view_declarator list.old)) }
    ensures number { result.number ≡ at.number + declarators_nodes (declarators (map view_declarator list.old)) }
    ensures token { result.token ≡ at.token + length (declarators_tokens (declarators (map view_declarator list.old))) }
{
    if list.is_empty() {
        return at;
    }
    let mut end = lay_declarator(&mut list[0], at, records);
    for i in 1..list.len() {
        end = lay_declarator(&mut list[i], end.past(1), records);
    }
    end
}

#[cycle(lay_expression)]
fn lay_tail(x: &mut Tail, at: Cursor, records: Records<'_>) -> Cursor
    requires numbers { at.number + tail_nodes (view_tail x.old) < 2 ^ 32 }
    requires tokens { at.token + length (tail_tokens (view_tail x.old)) < 2 ^ 32 }
    ensures tree { view_tail x.new ≡ laid_tail (setter records.entry) at.number at.token (view_tail x.old) }
    ensures number { result.number ≡ at.number + tail_nodes (view_tail x.old) }
    ensures token { result.token ≡ at.token + length (tail_tokens (view_tail x.old)) }
{
    match x {
        Tail::Arrays(list) => lay_dimensions(list.as_mut_slice(), at, records),
        Tail::Unspecified => at.past(2),
        Tail::NoParams => at.past(3),
        Tail::Params(list, more) => {
            let end = lay_parameters(list.as_mut_slice(), at.past(1), records);
            end.past(count_of_more(*more)).past(1)
        }
    }
}

#[cycle(lay_expression)]
fn lay_parameter(x: &mut Param, at: Cursor, records: Records<'_>) -> Cursor
    requires numbers { at.number + parameter_nodes (view_parameter x.old) < 2 ^ 32 }
    requires tokens { at.token + length (parameter_tokens (view_parameter x.old)) < 2 ^ 32 }
    ensures tree { view_parameter x.new ≡ laid_parameter (setter records.entry) at.number at.token (view_parameter x.old) }
    ensures number { result.number ≡ at.number + parameter_nodes (view_parameter x.old) }
    ensures token { result.token ≡ at.token + length (parameter_tokens (view_parameter x.old)) }
{
    let next = lay_base(&mut x.base, at, records);
    let end = lay_declarator(&mut x.declr, next, records);
    close(&mut x.node, at, end, records)
}

#[cycle(lay_expression)]
fn lay_parameters(list: &mut [Param], at: Cursor, records: Records<'_>) -> Cursor
    requires numbers { at.number + parameters_nodes (parameters (map view_parameter list.old)) < 2 ^ 32 }
    requires tokens { at.token + length (parameters_tokens (parameters (map view_parameter list.old))) + 1 < 2 ^ 32 }
    ensures tree { parameters (map view_parameter list.new) ≡ laid_parameters (setter records.entry) at.number at.token (parameters (map view_parameter list.old)) }
    ensures number { result.number ≡ at.number + parameters_nodes (parameters (map view_parameter list.old)) }
    ensures token { result.token ≡ at.token + length (parameters_tokens (parameters (map view_parameter list.old))) }
{
    if list.is_empty() {
        return at;
    }
    let mut end = lay_parameter(&mut list[0], at, records);
    for i in 1..list.len() {
        end = lay_parameter(&mut list[i], end.past(1), records);
    }
    end
}

#[cycle(lay_expression)]
fn lay_initialiser(x: &mut Init, at: Cursor, records: Records<'_>) -> Cursor
    requires numbers { at.number + initialiser_nodes (view_initialiser x.old) < 2 ^ 32 }
    requires tokens { at.token + length (initialiser_tokens (view_initialiser x.old)) < 2 ^ 32 }
    ensures tree { view_initialiser x.new ≡ laid_initialiser (setter records.entry) at.number at.token (view_initialiser x.old) }
    ensures number { result.number ≡ at.number + initialiser_nodes (view_initialiser x.old) }
    ensures token { result.token ≡ at.token + length (initialiser_tokens (view_initialiser x.old)) }
{
    match x {
        Init::Plain(e) => lay_expression(e, at, records),
        Init::Braces(list, comma) => {
            let end = lay_items(list.as_mut_slice(), at.past(1), records);
            end.past(count_of_comma(*comma)).past(1)
        }
    }
}

#[cycle(lay_expression)]
fn lay_item(x: &mut Item, at: Cursor, records: Records<'_>) -> Cursor
    requires numbers { at.number + item_nodes (view_item x.old) < 2 ^ 32 }
    requires tokens { at.token + length (item_tokens (view_item x.old)) < 2 ^ 32 }
    ensures tree { view_item x.new ≡ laid_item (setter records.entry) at.number at.token (view_item x.old) }
    ensures number { result.number ≡ at.number + item_nodes (view_item x.old) }
    ensures token { result.token ≡ at.token + length (item_tokens (view_item x.old)) }
{
    let path_end = count_of_path_end(x.path.as_slice());
    let next = lay_designators(x.path.as_mut_slice(), at, records).past(path_end);
    lay_initialiser(&mut x.init, next, records)
}

#[cycle(lay_expression)]
fn lay_items(list: &mut [Item], at: Cursor, records: Records<'_>) -> Cursor
    requires numbers { at.number + items_nodes (items (map view_item list.old)) < 2 ^ 32 }
    requires tokens { at.token + length (items_tokens (items (map view_item list.old))) + 1 < 2 ^ 32 }
    ensures tree { items (map view_item list.new) ≡ laid_items (setter records.entry) at.number at.token (items (map view_item list.old)) }
    ensures number { result.number ≡ at.number + items_nodes (items (map view_item list.old)) }
    ensures token { result.token ≡ at.token + length (items_tokens (items (map view_item list.old))) }
{
    if list.is_empty() {
        return at;
    }
    let mut end = lay_item(&mut list[0], at, records);
    for i in 1..list.len() {
        end = lay_item(&mut list[i], end.past(1), records);
    }
    end
}

#[cycle(lay_expression)]
fn lay_designator(x: &mut Desig, at: Cursor, records: Records<'_>) -> Cursor
    requires numbers { at.number + designator_nodes (view_designator x.old) < 2 ^ 32 }
    requires tokens { at.token + length (designator_tokens (view_designator x.old)) < 2 ^ 32 }
    ensures tree { view_designator x.new ≡ laid_designator (setter records.entry) at.number at.token (view_designator x.old) }
    ensures number { result.number ≡ at.number + designator_nodes (view_designator x.old) }
    ensures token { result.token ≡ at.token + length (designator_tokens (view_designator x.old)) }
{
    match x {
        Desig::Dot(_) => at.past(2),
        Desig::At(e) => lay_expression(e, at.past(1), records).past(1),
    }
}

#[cycle(lay_expression)]
fn lay_designators(list: &mut [Desig], at: Cursor, records: Records<'_>) -> Cursor
    requires numbers { at.number + designators_nodes (designators (map view_designator list.old)) < 2 ^ 32 }
    requires tokens { at.token + length (designators_tokens (designators (map view_designator list.old))) < 2 ^ 32 }
    ensures tree { designators (map view_designator list.new) ≡ laid_designators (setter records.entry) at.number at.token (designators (map view_designator list.old)) }
    ensures number { result.number ≡ at.number + designators_nodes (designators (map view_designator list.old)) }
    ensures token { result.token ≡ at.token + length (designators_tokens (designators (map view_designator list.old))) }
{
    let mut end = at;
    for i in 0..list.len() {
        end = lay_designator(&mut list[i], end, records);
    }
    end
}

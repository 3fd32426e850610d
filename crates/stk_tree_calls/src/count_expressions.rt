//! How many nodes an expression and what it holds has.
ghost use Rattle.std.specs.Prelude.{◌≡◌, ◌<◌, ◌^◌, map};
ghost use Rattle.stk_tree.specs.Nodes.{base_form_nodes, base_nodes, declarator_nodes, declarators_nodes, designator_nodes, designators_nodes, dimension_nodes, dimensions_nodes, enumerator_nodes, enumerators_nodes, expression_form_nodes, expression_nodes, expressions_nodes, initialiser_nodes, item_nodes, items_nodes, member_nodes, members_nodes, parameter_nodes, parameters_nodes, tail_nodes, type_name_nodes};
ghost use Rattle.stk_tree.specs.View.{declarators, designators, dimensions, enumerators, expressions, items, members, parameters, view_base, view_base_form, view_declarator, view_designator, view_dimension, view_enumerator, view_expression, view_expression_form, view_initialiser, view_item, view_member, view_parameter, view_tail, view_type_name};

use stk_tree::{
    Base, BaseForm, Declr, Desig, Dimension, Enumr, Expr, ExprForm, Init, Item, Member, Param,
    Tail, TypeName,
};

#[cycle(nodes)]
pub(crate) fn expression_nodes(x: &Expr) -> u32
    requires { expression_nodes (view_expression x.now) < 2 ^ 32 }
    ensures { result ≡ expression_nodes (view_expression x.now) }
{
    expression_form_nodes(&x.form) + 1
}

#[cycle(nodes)]
fn expressions_nodes(list: &[Expr]) -> u32
    requires { expressions_nodes (expressions (map view_expression list.now)) < 2 ^ 32 }
    ensures { result ≡ expressions_nodes (expressions (map view_expression list.now)) }
{
    let mut total = 0;
    for x in list {
        total += expression_nodes(x);
    }
    total
}

#[cycle(nodes)]
fn expression_form_nodes(x: &ExprForm) -> u32
    requires { expression_form_nodes (view_expression_form x.now) < 2 ^ 32 }
    ensures { result ≡ expression_form_nodes (view_expression_form x.now) }
{
    match x {
        ExprForm::Name(_) | ExprForm::Number(_) | ExprForm::Character(_) | ExprForm::Text(_) => 0,
        ExprForm::Paren(e)
        | ExprForm::Dot(e, _)
        | ExprForm::Arrow(e, _)
        | ExprForm::Step(_, e)
        | ExprForm::Unary(_, e)
        | ExprForm::SizeExpr(e) => expression_nodes(e.get()),
        ExprForm::Index(a, b) | ExprForm::Binary(_, a, b) | ExprForm::Assign(_, a, b) => {
            expression_nodes(a.get()) + expression_nodes(b.get())
        }
        ExprForm::Call(f, list) => expression_nodes(f.get()) + expressions_nodes(list.as_slice()),
        ExprForm::SizeName(t) => type_name_nodes(t),
        ExprForm::Cast(t, e) => type_name_nodes(t) + expression_nodes(e.get()),
        ExprForm::Choice(a, b, c) => {
            expression_nodes(a.get()) + expression_nodes(b.get()) + expression_nodes(c.get())
        }
    }
}

#[cycle(nodes)]
fn type_name_nodes(x: &TypeName) -> u32
    requires { type_name_nodes (view_type_name x.now) < 2 ^ 32 }
    ensures { result ≡ type_name_nodes (view_type_name x.now) }
{
    base_nodes(&x.base) + dimensions_nodes(x.arrays.as_slice()) + 1
}

#[cycle(nodes)]
fn dimension_nodes(x: &Dimension) -> u32
    requires { dimension_nodes (view_dimension x.now) < 2 ^ 32 }
    ensures { result ≡ dimension_nodes (view_dimension x.now) }
{
    match x {
        Dimension::Open => 0,
        Dimension::Sized(e) => expression_nodes(e),
    }
}

#[cycle(nodes)]
fn dimensions_nodes(list: &[Dimension]) -> u32
    requires { dimensions_nodes (dimensions (map view_dimension list.now)) < 2 ^ 32 }
    ensures { result ≡ dimensions_nodes (dimensions (map view_dimension list.now)) }
{
    let mut total = 0;
    for x in list {
        total += dimension_nodes(x);
    }
    total
}

#[cycle(nodes)]
pub(crate) fn base_nodes(x: &Base) -> u32
    requires { base_nodes (view_base x.now) < 2 ^ 32 }
    ensures { result ≡ base_nodes (view_base x.now) }
{
    base_form_nodes(&x.form) + 1
}

#[cycle(nodes)]
fn base_form_nodes(x: &BaseForm) -> u32
    requires { base_form_nodes (view_base_form x.now) < 2 ^ 32 }
    ensures { result ≡ base_form_nodes (view_base_form x.now) }
{
    match x {
        BaseForm::Words(_) | BaseForm::StructRef(_) | BaseForm::EnumRef(_) | BaseForm::Named(_) =>
            0,
        BaseForm::StructDef(_, list) => members_nodes(list.as_slice()),
        BaseForm::EnumDef(_, list, _) => enumerators_nodes(list.as_slice()),
    }
}

#[cycle(nodes)]
fn member_nodes(x: &Member) -> u32
    requires { member_nodes (view_member x.now) < 2 ^ 32 }
    ensures { result ≡ member_nodes (view_member x.now) }
{
    base_nodes(&x.base) + declarators_nodes(x.list.as_slice())
}

#[cycle(nodes)]
fn members_nodes(list: &[Member]) -> u32
    requires { members_nodes (members (map view_member list.now)) < 2 ^ 32 }
    ensures { result ≡ members_nodes (members (map view_member list.now)) }
{
    let mut total = 0;
    for x in list {
        total += member_nodes(x);
    }
    total
}

#[cycle(nodes)]
fn enumerator_nodes(x: &Enumr) -> u32
    requires { enumerator_nodes (view_enumerator x.now) < 2 ^ 32 }
    ensures { result ≡ enumerator_nodes (view_enumerator x.now) }
{
    match &x.value {
        None => 0,
        Some(e) => expression_nodes(e),
    }
}

#[cycle(nodes)]
fn enumerators_nodes(list: &[Enumr]) -> u32
    requires { enumerators_nodes (enumerators (map view_enumerator list.now)) < 2 ^ 32 }
    ensures { result ≡ enumerators_nodes (enumerators (map view_enumerator list.now)) }
{
    let mut total = 0;
    for x in list {
        total += enumerator_nodes(x);
    }
    total
}

#[cycle(nodes)]
pub(crate) fn declarator_nodes(x: &Declr) -> u32
    requires { declarator_nodes (view_declarator x.now) < 2 ^ 32 }
    ensures { result ≡ declarator_nodes (view_declarator x.now) }
{
    let tail = tail_nodes(&x.tail);
    match &x.init {
        None => tail + 1,
        Some(init) => tail + initialiser_nodes(init) + 1,
    }
}

#[cycle(nodes)]
pub(crate) fn declarators_nodes(list: &[Declr]) -> u32
    requires { declarators_nodes (declarators (map view_declarator list.now)) < 2 ^ 32 }
    ensures { result ≡ declarators_nodes (declarators (map view_declarator list.now)) }
{
    let mut total = 0;
    for x in list {
        total += declarator_nodes(x);
    }
    total
}

#[cycle(nodes)]
fn tail_nodes(x: &Tail) -> u32
    requires { tail_nodes (view_tail x.now) < 2 ^ 32 }
    ensures { result ≡ tail_nodes (view_tail x.now) }
{
    match x {
        Tail::Arrays(list) => dimensions_nodes(list.as_slice()),
        Tail::Unspecified | Tail::NoParams => 0,
        Tail::Params(list, _) => parameters_nodes(list.as_slice()),
    }
}

#[cycle(nodes)]
fn parameter_nodes(x: &Param) -> u32
    requires { parameter_nodes (view_parameter x.now) < 2 ^ 32 }
    ensures { result ≡ parameter_nodes (view_parameter x.now) }
{
    base_nodes(&x.base) + declarator_nodes(&x.declr) + 1
}

#[cycle(nodes)]
fn parameters_nodes(list: &[Param]) -> u32
    requires { parameters_nodes (parameters (map view_parameter list.now)) < 2 ^ 32 }
    ensures { result ≡ parameters_nodes (parameters (map view_parameter list.now)) }
{
    let mut total = 0;
    for x in list {
        total += parameter_nodes(x);
    }
    total
}

#[cycle(nodes)]
fn initialiser_nodes(x: &Init) -> u32
    requires { initialiser_nodes (view_initialiser x.now) < 2 ^ 32 }
    ensures { result ≡ initialiser_nodes (view_initialiser x.now) }
{
    match x {
        Init::Plain(e) => expression_nodes(e),
        Init::Braces(list, _) => items_nodes(list.as_slice()),
    }
}

#[cycle(nodes)]
fn item_nodes(x: &Item) -> u32
    requires { item_nodes (view_item x.now) < 2 ^ 32 }
    ensures { result ≡ item_nodes (view_item x.now) }
{
    designators_nodes(x.path.as_slice()) + initialiser_nodes(&x.init)
}

#[cycle(nodes)]
fn items_nodes(list: &[Item]) -> u32
    requires { items_nodes (items (map view_item list.now)) < 2 ^ 32 }
    ensures { result ≡ items_nodes (items (map view_item list.now)) }
{
    let mut total = 0;
    for x in list {
        total += item_nodes(x);
    }
    total
}

#[cycle(nodes)]
fn designator_nodes(x: &Desig) -> u32
    requires { designator_nodes (view_designator x.now) < 2 ^ 32 }
    ensures { result ≡ designator_nodes (view_designator x.now) }
{
    match x {
        Desig::Dot(_) => 0,
        Desig::At(e) => expression_nodes(e),
    }
}

#[cycle(nodes)]
fn designators_nodes(list: &[Desig]) -> u32
    requires { designators_nodes (designators (map view_designator list.now)) < 2 ^ 32 }
    ensures { result ≡ designators_nodes (designators (map view_designator list.now)) }
{
    let mut total = 0;
    for x in list {
        total += designator_nodes(x);
    }
    total
}

//! How high an expression and what it holds is.
ghost use Rattle.std.specs.Prelude.{◌≡◌, ◌<◌, ◌^◌, map};
ghost use Rattle.stk_tree.specs.Height.{base_form_height, base_height, declarator_height, declarators_height, designator_height, designators_height, dimension_height, dimensions_height, enumerator_height, enumerators_height, expression_form_height, expression_height, expressions_height, initialiser_height, item_height, items_height, member_height, members_height, parameter_height, parameters_height, tail_height, type_name_height};
ghost use Rattle.stk_tree.specs.View.{declarators, designators, dimensions, enumerators, expressions, items, members, parameters, view_base, view_base_form, view_declarator, view_designator, view_dimension, view_enumerator, view_expression, view_expression_form, view_initialiser, view_item, view_member, view_parameter, view_tail, view_type_name};

use stk_tree::{
    Base, BaseForm, Declr, Desig, Dimension, Enumr, Expr, ExprForm, Init, Item, Member, Param,
    Tail, TypeName,
};

#[cycle(height)]
pub(crate) fn expression_height(x: &Expr) -> u32
    requires { expression_height (view_expression x.now) < 2 ^ 32 }
    ensures { result ≡ expression_height (view_expression x.now) }
{
    expression_form_height(&x.form) + 1
}

#[cycle(height)]
fn expressions_height(list: &[Expr]) -> u32
    requires { expressions_height (expressions (map view_expression list.now)) < 2 ^ 32 }
    ensures { result ≡ expressions_height (expressions (map view_expression list.now)) }
{
    let mut most = 0;
    for x in list {
        most = expression_height(x).max(most);
    }
    most
}

#[cycle(height)]
fn expression_form_height(x: &ExprForm) -> u32
    requires { expression_form_height (view_expression_form x.now) < 2 ^ 32 }
    ensures { result ≡ expression_form_height (view_expression_form x.now) }
{
    match x {
        ExprForm::Name(_) | ExprForm::Number(_) | ExprForm::Character(_) | ExprForm::Text(_) => 0,
        ExprForm::Paren(e)
        | ExprForm::Dot(e, _)
        | ExprForm::Arrow(e, _)
        | ExprForm::Step(_, e)
        | ExprForm::Unary(_, e)
        | ExprForm::SizeExpr(e) => expression_height(e.get()),
        ExprForm::Index(a, b) | ExprForm::Binary(_, a, b) | ExprForm::Assign(_, a, b) => {
            expression_height(a.get()).max(expression_height(b.get()))
        }
        ExprForm::Call(f, list) => expression_height(f.get()).max(expressions_height(
            list.as_slice(),
        )),
        ExprForm::SizeName(t) => type_name_height(t),
        ExprForm::Cast(t, e) => type_name_height(t).max(expression_height(e.get())),
        ExprForm::Choice(a, b, c) => {
            expression_height(a.get()).max(expression_height(b.get()).max(expression_height(
                c.get(),
            )))
        }
    }
}

#[cycle(height)]
fn type_name_height(x: &TypeName) -> u32
    requires { type_name_height (view_type_name x.now) < 2 ^ 32 }
    ensures { result ≡ type_name_height (view_type_name x.now) }
{
    base_height(&x.base).max(dimensions_height(x.arrays.as_slice())) + 1
}

#[cycle(height)]
fn dimension_height(x: &Dimension) -> u32
    requires { dimension_height (view_dimension x.now) < 2 ^ 32 }
    ensures { result ≡ dimension_height (view_dimension x.now) }
{
    match x {
        Dimension::Open => 0,
        Dimension::Sized(e) => expression_height(e),
    }
}

#[cycle(height)]
fn dimensions_height(list: &[Dimension]) -> u32
    requires { dimensions_height (dimensions (map view_dimension list.now)) < 2 ^ 32 }
    ensures { result ≡ dimensions_height (dimensions (map view_dimension list.now)) }
{
    let mut most = 0;
    for x in list {
        most = dimension_height(x).max(most);
    }
    most
}

#[cycle(height)]
pub(crate) fn base_height(x: &Base) -> u32
    requires { base_height (view_base x.now) < 2 ^ 32 }
    ensures { result ≡ base_height (view_base x.now) }
{
    base_form_height(&x.form) + 1
}

#[cycle(height)]
fn base_form_height(x: &BaseForm) -> u32
    requires { base_form_height (view_base_form x.now) < 2 ^ 32 }
    ensures { result ≡ base_form_height (view_base_form x.now) }
{
    match x {
        BaseForm::Words(_) | BaseForm::StructRef(_) | BaseForm::EnumRef(_) | BaseForm::Named(_) =>
            0,
        BaseForm::StructDef(_, list) => members_height(list.as_slice()),
        BaseForm::EnumDef(_, list, _) => enumerators_height(list.as_slice()),
    }
}

#[cycle(height)]
fn member_height(x: &Member) -> u32
    requires { member_height (view_member x.now) < 2 ^ 32 }
    ensures { result ≡ member_height (view_member x.now) }
{
    base_height(&x.base).max(declarators_height(x.list.as_slice()))
}

#[cycle(height)]
fn members_height(list: &[Member]) -> u32
    requires { members_height (members (map view_member list.now)) < 2 ^ 32 }
    ensures { result ≡ members_height (members (map view_member list.now)) }
{
    let mut most = 0;
    for x in list {
        most = member_height(x).max(most);
    }
    most
}

#[cycle(height)]
fn enumerator_height(x: &Enumr) -> u32
    requires { enumerator_height (view_enumerator x.now) < 2 ^ 32 }
    ensures { result ≡ enumerator_height (view_enumerator x.now) }
{
    match &x.value {
        None => 0,
        Some(e) => expression_height(e),
    }
}

#[cycle(height)]
fn enumerators_height(list: &[Enumr]) -> u32
    requires { enumerators_height (enumerators (map view_enumerator list.now)) < 2 ^ 32 }
    ensures { result ≡ enumerators_height (enumerators (map view_enumerator list.now)) }
{
    let mut most = 0;
    for x in list {
        most = enumerator_height(x).max(most);
    }
    most
}

#[cycle(height)]
pub(crate) fn declarator_height(x: &Declr) -> u32
    requires { declarator_height (view_declarator x.now) < 2 ^ 32 }
    ensures { result ≡ declarator_height (view_declarator x.now) }
{
    let tail = tail_height(&x.tail);
    match &x.init {
        None => tail + 1,
        Some(init) => tail.max(initialiser_height(init)) + 1,
    }
}

#[cycle(height)]
pub(crate) fn declarators_height(list: &[Declr]) -> u32
    requires { declarators_height (declarators (map view_declarator list.now)) < 2 ^ 32 }
    ensures { result ≡ declarators_height (declarators (map view_declarator list.now)) }
{
    let mut most = 0;
    for x in list {
        most = declarator_height(x).max(most);
    }
    most
}

#[cycle(height)]
fn tail_height(x: &Tail) -> u32
    requires { tail_height (view_tail x.now) < 2 ^ 32 }
    ensures { result ≡ tail_height (view_tail x.now) }
{
    match x {
        Tail::Arrays(list) => dimensions_height(list.as_slice()),
        Tail::Unspecified | Tail::NoParams => 0,
        Tail::Params(list, _) => parameters_height(list.as_slice()),
    }
}

#[cycle(height)]
fn parameter_height(x: &Param) -> u32
    requires { parameter_height (view_parameter x.now) < 2 ^ 32 }
    ensures { result ≡ parameter_height (view_parameter x.now) }
{
    base_height(&x.base).max(declarator_height(&x.declr)) + 1
}

#[cycle(height)]
fn parameters_height(list: &[Param]) -> u32
    requires { parameters_height (parameters (map view_parameter list.now)) < 2 ^ 32 }
    ensures { result ≡ parameters_height (parameters (map view_parameter list.now)) }
{
    let mut most = 0;
    for x in list {
        most = parameter_height(x).max(most);
    }
    most
}

#[cycle(height)]
fn initialiser_height(x: &Init) -> u32
    requires { initialiser_height (view_initialiser x.now) < 2 ^ 32 }
    ensures { result ≡ initialiser_height (view_initialiser x.now) }
{
    match x {
        Init::Plain(e) => expression_height(e),
        Init::Braces(list, _) => items_height(list.as_slice()),
    }
}

#[cycle(height)]
fn item_height(x: &Item) -> u32
    requires { item_height (view_item x.now) < 2 ^ 32 }
    ensures { result ≡ item_height (view_item x.now) }
{
    designators_height(x.path.as_slice()).max(initialiser_height(&x.init))
}

#[cycle(height)]
fn items_height(list: &[Item]) -> u32
    requires { items_height (items (map view_item list.now)) < 2 ^ 32 }
    ensures { result ≡ items_height (items (map view_item list.now)) }
{
    let mut most = 0;
    for x in list {
        most = item_height(x).max(most);
    }
    most
}

#[cycle(height)]
fn designator_height(x: &Desig) -> u32
    requires { designator_height (view_designator x.now) < 2 ^ 32 }
    ensures { result ≡ designator_height (view_designator x.now) }
{
    match x {
        Desig::Dot(_) => 0,
        Desig::At(e) => expression_height(e),
    }
}

#[cycle(height)]
fn designators_height(list: &[Desig]) -> u32
    requires { designators_height (designators (map view_designator list.now)) < 2 ^ 32 }
    ensures { result ≡ designators_height (designators (map view_designator list.now)) }
{
    let mut most = 0;
    for x in list {
        most = designator_height(x).max(most);
    }
    most
}

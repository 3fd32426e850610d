//! Whether an expression and what it holds are well placed.
ghost use Rattle.std.specs.Prelude.{◌≡◌, map};
ghost use Rattle.stk_tree.specs.Placed.{arguments_placed, base_form_placed, base_placed, declarator_placed, declarators_placed, designator_placed, designators_placed, dimension_placed, dimensions_placed, enumerator_placed, enumerators_placed, expression_form_placed, expression_placed, initialiser_placed, item_placed, items_placed, member_placed, members_placed, parameter_placed, parameters_placed, tail_placed, type_name_placed};
ghost use Rattle.stk_tree.specs.View.{declarators, designators, dimensions, enumerators, expressions, items, members, parameters, view_base, view_base_form, view_declarator, view_designator, view_dimension, view_enumerator, view_expression, view_expression_form, view_initialiser, view_item, view_member, view_parameter, view_tail, view_type_name};

use crate::forms::{
    basic_words, comma_placed, form_level, is_filled, is_unbraced, lone_void, member_declarators,
    parameter_declarator, some_declarators, some_enumerators, some_members, some_parameters,
    step_level,
};
use stk_tree::{
    Base, BaseForm, Declr, Desig, Dimension, Enumr, Expr, ExprForm, Init, Item, Member, Param,
    Tail, TypeName, binary_level, levels,
};

#[cycle(placed)]
pub(crate) fn expression_placed(x: &Expr, least: usize) -> bool
    ensures { result ≡ expression_placed least (view_expression x.now) }
{
    least <= form_level(&x.form) && expression_form_placed(&x.form)
}

#[cycle(placed)]
fn arguments_placed(list: &[Expr]) -> bool
    ensures { result ≡ arguments_placed (expressions (map view_expression list.now)) }
{
    for x in list {
        if !expression_placed(x, levels::ASSIGNMENT) {
            return false;
        }
    }
    true
}

#[cycle(placed)]
fn expression_form_placed(x: &ExprForm) -> bool
    ensures { result ≡ expression_form_placed (view_expression_form x.now) }
{
    match x {
        ExprForm::Name(_) | ExprForm::Number(_) | ExprForm::Character(_) => true,
        ExprForm::Text(parts) => is_filled(parts.as_slice()),
        ExprForm::Paren(e) => expression_placed(e.get(), levels::COMMA),
        ExprForm::Index(a, b) => expression_placed(a.get(), levels::POSTFIX)
            && expression_placed(b.get(), levels::COMMA),
        ExprForm::Call(f, list) => {
            expression_placed(f.get(), levels::POSTFIX) && arguments_placed(list.as_slice())
        }
        ExprForm::Dot(e, _) | ExprForm::Arrow(e, _) => expression_placed(e.get(), levels::POSTFIX),
        ExprForm::Step(op, e) => expression_placed(e.get(), step_level(*op)),
        ExprForm::Unary(_, e) => expression_placed(e.get(), levels::CAST),
        ExprForm::SizeExpr(e) => expression_placed(e.get(), levels::UNARY),
        ExprForm::SizeName(t) => type_name_placed(t),
        ExprForm::Cast(t, e) => type_name_placed(t) && expression_placed(e.get(), levels::CAST),
        ExprForm::Binary(op, a, b) => {
            let own = binary_level(*op);
            expression_placed(a.get(), own) && expression_placed(b.get(), own + 1)
        }
        ExprForm::Choice(a, b, c) => {
            expression_placed(a.get(), levels::LOGICAL_OR)
                && expression_placed(b.get(), levels::COMMA)
                && expression_placed(c.get(), levels::CONDITIONAL)
        }
        ExprForm::Assign(_, a, b) => {
            expression_placed(a.get(), levels::UNARY)
                && expression_placed(b.get(), levels::ASSIGNMENT)
        }
    }
}

#[cycle(placed)]
fn type_name_placed(x: &TypeName) -> bool
    ensures { result ≡ type_name_placed (view_type_name x.now) }
{
    is_unbraced(&x.base) && base_placed(&x.base) && dimensions_placed(x.arrays.as_slice())
}

#[cycle(placed)]
fn dimension_placed(x: &Dimension) -> bool
    ensures { result ≡ dimension_placed (view_dimension x.now) }
{
    match x {
        Dimension::Open => true,
        Dimension::Sized(e) => expression_placed(e, levels::CONDITIONAL),
    }
}

#[cycle(placed)]
fn dimensions_placed(list: &[Dimension]) -> bool
    ensures { result ≡ dimensions_placed (dimensions (map view_dimension list.now)) }
{
    for x in list {
        if !dimension_placed(x) {
            return false;
        }
    }
    true
}

#[cycle(placed)]
pub(crate) fn base_placed(x: &Base) -> bool
    ensures { result ≡ base_placed (view_base x.now) }
{
    base_form_placed(&x.form)
}

#[cycle(placed)]
fn base_form_placed(x: &BaseForm) -> bool
    ensures { result ≡ base_form_placed (view_base_form x.now) }
{
    match x {
        BaseForm::Words(words) => basic_words(words.as_slice()),
        BaseForm::StructRef(_) | BaseForm::EnumRef(_) | BaseForm::Named(_) => true,
        BaseForm::StructDef(_, list) => {
            some_members(list.as_slice()) && members_placed(list.as_slice())
        }
        BaseForm::EnumDef(_, list, _) => {
            some_enumerators(list.as_slice()) && enumerators_placed(list.as_slice())
        }
    }
}

#[cycle(placed)]
fn member_placed(x: &Member) -> bool
    ensures { result ≡ member_placed (view_member x.now) }
{
    base_placed(&x.base)
        && some_declarators(x.list.as_slice())
        && member_declarators(x.list.as_slice())
        && declarators_placed(x.list.as_slice())
}

#[cycle(placed)]
fn members_placed(list: &[Member]) -> bool
    ensures { result ≡ members_placed (members (map view_member list.now)) }
{
    for x in list {
        if !member_placed(x) {
            return false;
        }
    }
    true
}

#[cycle(placed)]
fn enumerator_placed(x: &Enumr) -> bool
    ensures { result ≡ enumerator_placed (view_enumerator x.now) }
{
    match &x.value {
        None => true,
        Some(e) => expression_placed(e, levels::CONDITIONAL),
    }
}

#[cycle(placed)]
fn enumerators_placed(list: &[Enumr]) -> bool
    ensures { result ≡ enumerators_placed (enumerators (map view_enumerator list.now)) }
{
    for x in list {
        if !enumerator_placed(x) {
            return false;
        }
    }
    true
}

#[cycle(placed)]
pub(crate) fn declarator_placed(x: &Declr) -> bool
    ensures { result ≡ declarator_placed (view_declarator x.now) }
{
    let tail = tail_placed(&x.tail);
    match &x.init {
        None => tail,
        Some(init) => tail && initialiser_placed(init),
    }
}

#[cycle(placed)]
pub(crate) fn declarators_placed(list: &[Declr]) -> bool
    ensures { result ≡ declarators_placed (declarators (map view_declarator list.now)) }
{
    for x in list {
        if !declarator_placed(x) {
            return false;
        }
    }
    true
}

#[cycle(placed)]
fn tail_placed(x: &Tail) -> bool
    ensures { result ≡ tail_placed (view_tail x.now) }
{
    match x {
        Tail::Arrays(list) => dimensions_placed(list.as_slice()),
        Tail::Unspecified | Tail::NoParams => true,
        Tail::Params(list, more) => {
            some_parameters(list.as_slice())
                && !lone_void(list.as_slice(), *more)
                && parameters_placed(list.as_slice())
        }
    }
}

#[cycle(placed)]
fn parameter_placed(x: &Param) -> bool
    ensures { result ≡ parameter_placed (view_parameter x.now) }
{
    is_unbraced(&x.base)
        && base_placed(&x.base)
        && parameter_declarator(&x.declr)
        && declarator_placed(&x.declr)
}

#[cycle(placed)]
fn parameters_placed(list: &[Param]) -> bool
    ensures { result ≡ parameters_placed (parameters (map view_parameter list.now)) }
{
    for x in list {
        if !parameter_placed(x) {
            return false;
        }
    }
    true
}

#[cycle(placed)]
fn initialiser_placed(x: &Init) -> bool
    ensures { result ≡ initialiser_placed (view_initialiser x.now) }
{
    match x {
        Init::Plain(e) => expression_placed(e, levels::ASSIGNMENT),
        Init::Braces(list, comma) => {
            comma_placed(*comma, list.as_slice()) && items_placed(list.as_slice())
        }
    }
}

#[cycle(placed)]
fn item_placed(x: &Item) -> bool
    ensures { result ≡ item_placed (view_item x.now) }
{
    designators_placed(x.path.as_slice()) && initialiser_placed(&x.init)
}

#[cycle(placed)]
fn items_placed(list: &[Item]) -> bool
    ensures { result ≡ items_placed (items (map view_item list.now)) }
{
    for x in list {
        if !item_placed(x) {
            return false;
        }
    }
    true
}

#[cycle(placed)]
fn designator_placed(x: &Desig) -> bool
    ensures { result ≡ designator_placed (view_designator x.now) }
{
    match x {
        Desig::Dot(_) => true,
        Desig::At(e) => expression_placed(e, levels::CONDITIONAL),
    }
}

#[cycle(placed)]
fn designators_placed(list: &[Desig]) -> bool
    ensures { result ≡ designators_placed (designators (map view_designator list.now)) }
{
    for x in list {
        if !designator_placed(x) {
            return false;
        }
    }
    true
}

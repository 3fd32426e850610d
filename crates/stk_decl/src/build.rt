//! Nodes of trees. Their records are all alike: a tree is laid out as a whole, once its unit is read.

ghost use Rattle.std.specs.Prelude.{◌≡◌, map};
ghost use Rattle.stk_tree.specs.Syntax as s;
ghost use Rattle.stk_tree.specs.View.{declarators, designators, dimensions, enumerators, given_expression, items, members, parameters, view_base_form, view_declaration, view_declarator, view_designator, view_dimension, view_enumerator, view_expression, view_initialiser, view_item, view_member, view_parameter, view_tail};
ghost use Rattle.stk_tree.specs.Unlaid.{no_node};
ghost use Rattle.stk_decl.specs.Given.{given_initialiser};

use stk_base::{Boxed, List, Span};
use stk_tree::{
    Base, BaseForm, Declaration, Declr, Desig, Dimension, Enumr, Expr, Init, Item, Member, Param,
    Storage, Tail, no_node,
};

/// `struct [tag] { members }`
pub(crate) fn struct_def(tag: Option<Span>, list: List<Member>) -> BaseForm
    ensures { view_base_form result ≡ s.struct_def tag (members (map view_member list)) }
{
    BaseForm::StructDef(tag, list)
}

/// `enum [tag] { enumerators [,] }`
pub(crate) fn enum_def(tag: Option<Span>, list: List<Enumr>, comma: bool) -> BaseForm
    ensures { view_base_form result ≡ s.enum_def tag (enumerators (map view_enumerator list)) comma }
{
    BaseForm::EnumDef(tag, list, comma)
}

/// The members of one base.
pub(crate) fn member(form: BaseForm, list: List<Declr>) -> Member
    ensures { view_member result ≡ s.member (s.base no_node (view_base_form form)) (declarators (map view_declarator list)) }
{
    Member {
        base: Base {
            node: no_node(),
            form,
        },
        list,
    }
}

/// An enumerator.
pub(crate) fn enumerator(name: Span, value: Option<Expr>) -> Enumr
    ensures { view_enumerator result ≡ s.enumerator name (given_expression value) }
{
    match value {
        None => Enumr { name, value: None },
        Some(value) => Enumr {
            name,
            value: Some(value),
        },
    }
}

/// A declarator with an initialiser, or without one.
pub(crate) fn declarator(stars: u32, name: Option<Span>, tail: Tail, init: Option<Init>) -> Declr
    ensures { view_declarator result ≡ s.declarator no_node stars name (view_tail tail) (given_initialiser init) }
{
    match init {
        None => uninitialised_declarator(stars, name, tail),
        Some(init) => Declr {
            node: no_node(),
            stars,
            name,
            tail,
            init: Some(init),
        },
    }
}

/// A declarator without an initialiser.
pub(crate) fn uninitialised_declarator(stars: u32, name: Option<Span>, tail: Tail) -> Declr
    ensures { view_declarator result ≡ s.declarator no_node stars name (view_tail tail) s.no_initialiser }
{
    Declr {
        node: no_node(),
        stars,
        name,
        tail,
        init: None,
    }
}

/// Array parts behind a name.
pub(crate) fn arrays(list: List<Dimension>) -> Tail
    ensures { view_tail result ≡ s.arrays (dimensions (map view_dimension list)) }
{
    Tail::Arrays(list)
}

/// `()`
pub(crate) fn unspecified() -> Tail
    ensures { view_tail result ≡ s.unspecified }
{
    Tail::Unspecified
}

/// `(void)`
pub(crate) fn no_parameters() -> Tail
    ensures { view_tail result ≡ s.void_parameters }
{
    Tail::NoParams
}

/// `(parameters [, ...])`
pub(crate) fn with_parameters(list: List<Param>, more: bool) -> Tail
    ensures { view_tail result ≡ s.with_parameters (parameters (map view_parameter list)) more }
{
    Tail::Params(list, more)
}

/// A parameter.
pub(crate) fn parameter(form: BaseForm, declr: Declr) -> Param
    ensures { view_parameter result ≡ s.parameter no_node (s.base no_node (view_base_form form)) (view_declarator declr) }
{
    Param {
        node: no_node(),
        base: Base {
            node: no_node(),
            form,
        },
        declr,
    }
}

/// An expression as an initialiser.
pub(crate) fn plain(value: Boxed<Expr>) -> Init
    ensures { view_initialiser result ≡ s.plain (view_expression value) }
{
    Init::Plain(value.into_inner())
}

/// `{ items [,] }`
pub(crate) fn braces(list: List<Item>, comma: bool) -> Init
    ensures { view_initialiser result ≡ s.braces (items (map view_item list)) comma }
{
    Init::Braces(list, comma)
}

/// An item of an initialiser's braces.
pub(crate) fn item(path: List<Desig>, init: Init) -> Item
    ensures { view_item result ≡ s.item (designators (map view_designator path)) (view_initialiser init) }
{
    Item { path, init }
}

/// `.member`
pub(crate) fn dot(member: Span) -> Desig
    ensures { view_designator result ≡ s.dot_designator member }
{
    Desig::Dot(member)
}

/// `[e]`
pub(crate) fn at(place: Boxed<Expr>) -> Desig
    ensures { view_designator result ≡ s.at_designator (view_expression place) }
{
    Desig::At(place.into_inner())
}

/// A declaration.
pub(crate) fn declaration(
    storage: Option<Storage>,
    form: BaseForm,
    list: List<Declr>,
) -> Declaration
    ensures { view_declaration result ≡ s.declaration storage (s.base no_node (view_base_form form)) (declarators (map view_declarator list)) }
{
    Declaration {
        storage,
        base: Base {
            node: no_node(),
            form,
        },
        list,
    }
}

//! The forms of bases, declarators and lists that the grammar allows in each place.
ghost use Rattle.std.specs.Prelude.{◌≡◌, map};
ghost use Rattle.stk_tree.specs.Placed.{all_basic, basic_words, comma_placed, file_declarators, form_level, function_declarator, has_arrays, has_initialiser, has_name, is_unbraced, is_empty_declarator, is_empty_tail, is_filled, is_void, is_void_parameter, local_declarators, lone_void, lone_void_word, member_declarator, member_declarators, parameter_declarator, some_declarators, some_dimensions, some_enumerators, some_items, some_labels, some_members, some_parameters, some_statements, step_level};
ghost use Rattle.stk_tree.specs.View.{declarators, dimensions, enumerators, items, labels, members, parameters, statements, view_base, view_declarator, view_dimension, view_enumerator, view_expression_form, view_item, view_label, view_member, view_parameter, view_statement, view_tail};

use stk_base::Span;
use stk_tree::{
    Base, BaseForm, Declr, Dimension, Enumr, ExprForm, Fixed, Item, Label, Member, Param, StepOp,
    Stmt, Tail, binary_level, is_basic, levels,
};

/// The level of `++` and `--`.
pub(crate) fn step_level(op: StepOp) -> usize
    ensures { result ≡ step_level op }
{
    match op {
        StepOp::IncBefore | StepOp::DecBefore => levels::UNARY,
        StepOp::IncAfter | StepOp::DecAfter => levels::POSTFIX,
    }
}

/// The level of an expression's form, from 1 to 17.
pub(crate) fn form_level(form: &ExprForm) -> usize
    ensures { result ≡ form_level (view_expression_form form.now) }
{
    match form {
        ExprForm::Name(_)
        | ExprForm::Number(_)
        | ExprForm::Character(_)
        | ExprForm::Text(_)
        | ExprForm::Paren(_) => levels::PRIMARY,
        ExprForm::Index(_, _)
        | ExprForm::Call(_, _)
        | ExprForm::Dot(_, _)
        | ExprForm::Arrow(_, _) => levels::POSTFIX,
        ExprForm::Step(op, _) => step_level(*op),
        ExprForm::Unary(_, _) | ExprForm::SizeExpr(_) | ExprForm::SizeName(_) => levels::UNARY,
        ExprForm::Cast(_, _) => levels::CAST,
        ExprForm::Binary(op, _, _) => binary_level(*op),
        ExprForm::Choice(_, _, _) => levels::CONDITIONAL,
        ExprForm::Assign(_, _, _) => levels::ASSIGNMENT,
    }
}

/// Whether all words are words of the basic types.
fn all_basic(words: &[Fixed]) -> bool
    ensures { result ≡ all_basic words.now }
{
    for word in words {
        if !is_basic(*word) {
            return false;
        }
    }
    true
}

/// Whether the words are one or more words of the basic types.
pub(crate) fn basic_words(words: &[Fixed]) -> bool
    ensures { result ≡ basic_words words.now }
{
    match words {
        [] => false,
        [_, _rest @ ..] => all_basic(words),
    }
}

/// Whether a base has no braces.
pub(crate) fn is_unbraced(x: &Base) -> bool
    ensures { result ≡ is_unbraced (view_base x.now) }
{
    match &x.form {
        BaseForm::StructDef(_, _) | BaseForm::EnumDef(_, _, _) => false,
        BaseForm::Words(_) | BaseForm::StructRef(_) | BaseForm::EnumRef(_) | BaseForm::Named(_) =>
            true,
    }
}

/// Whether a base is the one word `void`.
fn is_void(x: &Base) -> bool
    ensures { result ≡ is_void (view_base x.now) }
{
    match &x.form {
        BaseForm::Words(words) => lone_void_word(words.as_slice()),
        _ => false,
    }
}

/// Whether the words are `void` alone.
fn lone_void_word(words: &[Fixed]) -> bool
    ensures { result ≡ lone_void_word words.now }
{
    match words {
        [Fixed::Void] => true,
        _ => false,
    }
}

/// Whether a declarator has a name.
fn has_name(x: &Declr) -> bool
    ensures { result ≡ has_name (view_declarator x.now) }
{
    match x.name {
        None => false,
        Some(_) => true,
    }
}

/// Whether array parts, or nothing, follow the name of a declarator.
fn has_arrays(x: &Declr) -> bool
    ensures { result ≡ has_arrays (view_declarator x.now) }
{
    match &x.tail {
        Tail::Arrays(_) => true,
        Tail::Unspecified | Tail::NoParams | Tail::Params(_, _) => false,
    }
}

/// Whether a declarator has an initialiser.
fn has_initialiser(x: &Declr) -> bool
    ensures { result ≡ has_initialiser (view_declarator x.now) }
{
    match &x.init {
        None => false,
        Some(_) => true,
    }
}

/// Whether a declarator prints nothing.
fn is_empty_declarator(x: &Declr) -> bool
    ensures { result ≡ is_empty_declarator (view_declarator x.now) }
{
    x.stars == 0 && !has_name(x) && is_empty_tail(&x.tail) && !has_initialiser(x)
}

/// Whether the part after a declarator's name prints nothing.
fn is_empty_tail(x: &Tail) -> bool
    ensures { result ≡ is_empty_tail (view_tail x.now) }
{
    match x {
        Tail::Arrays(list) => !some_dimensions(list.as_slice()),
        Tail::Unspecified | Tail::NoParams | Tail::Params(_, _) => false,
    }
}

/// Whether a declarator is one of a member's.
fn member_declarator(x: &Declr) -> bool
    ensures { result ≡ member_declarator (view_declarator x.now) }
{
    has_name(x) && has_arrays(x) && !has_initialiser(x)
}

/// Whether all declarators are such as a member has.
pub(crate) fn member_declarators(list: &[Declr]) -> bool
    ensures { result ≡ member_declarators (declarators (map view_declarator list.now)) }
{
    for x in list {
        if !member_declarator(x) {
            return false;
        }
    }
    true
}

/// Whether a declarator is such as a parameter has.
pub(crate) fn parameter_declarator(x: &Declr) -> bool
    ensures { result ≡ parameter_declarator (view_declarator x.now) }
{
    has_arrays(x) && !has_initialiser(x)
}

/// Whether all declarators are such as a local declaration has.
pub(crate) fn local_declarators(list: &[Declr]) -> bool
    ensures { result ≡ local_declarators (declarators (map view_declarator list.now)) }
{
    for x in list {
        if !(has_name(x) && has_arrays(x)) {
            return false;
        }
    }
    true
}

/// Whether all declarators are such as a declaration at file scope has.
pub(crate) fn file_declarators(list: &[Declr]) -> bool
    ensures { result ≡ file_declarators (declarators (map view_declarator list.now)) }
{
    for x in list {
        if !has_name(x) {
            return false;
        }
    }
    true
}

/// Whether a declarator is such as the head of a function has.
pub(crate) fn function_declarator(x: &Declr) -> bool
    ensures { result ≡ function_declarator (view_declarator x.now) }
{
    has_name(x) && !has_arrays(x) && !has_initialiser(x)
}

/// Whether a parameter is a lone `void`.
fn is_void_parameter(x: &Param) -> bool
    ensures { result ≡ is_void_parameter (view_parameter x.now) }
{
    is_void(&x.base) && is_empty_declarator(&x.declr)
}

/// Whether a parameter list is one lone `void`.
pub(crate) fn lone_void(list: &[Param], more: bool) -> bool
    ensures { result ≡ lone_void (parameters (map view_parameter list.now)) more }
{
    match list {
        [] => false,
        [only] => !more && is_void_parameter(only),
        [_, _, _rest @ ..] => false,
    }
}

/// Whether a comma may stand before the brace, if one does.
pub(crate) fn comma_placed(comma: bool, list: &[Item]) -> bool
    ensures { result ≡ comma_placed comma (items (map view_item list.now)) }
{
    !comma || some_items(list)
}

/// Whether there is a declarator.
pub(crate) fn some_declarators(list: &[Declr]) -> bool
    ensures { result ≡ some_declarators (declarators (map view_declarator list.now)) }
{
    match list {
        [] => false,
        [_, _rest @ ..] => true,
    }
}

/// Whether there is a member.
pub(crate) fn some_members(list: &[Member]) -> bool
    ensures { result ≡ some_members (members (map view_member list.now)) }
{
    match list {
        [] => false,
        [_, _rest @ ..] => true,
    }
}

/// Whether there is an enumerator.
pub(crate) fn some_enumerators(list: &[Enumr]) -> bool
    ensures { result ≡ some_enumerators (enumerators (map view_enumerator list.now)) }
{
    match list {
        [] => false,
        [_, _rest @ ..] => true,
    }
}

/// Whether there is an item.
pub(crate) fn some_items(list: &[Item]) -> bool
    ensures { result ≡ some_items (items (map view_item list.now)) }
{
    match list {
        [] => false,
        [_, _rest @ ..] => true,
    }
}

/// Whether there is a parameter.
pub(crate) fn some_parameters(list: &[Param]) -> bool
    ensures { result ≡ some_parameters (parameters (map view_parameter list.now)) }
{
    match list {
        [] => false,
        [_, _rest @ ..] => true,
    }
}

/// Whether there is an array part.
fn some_dimensions(list: &[Dimension]) -> bool
    ensures { result ≡ some_dimensions (dimensions (map view_dimension list.now)) }
{
    match list {
        [] => false,
        [_, _rest @ ..] => true,
    }
}

/// Whether there is a label.
pub(crate) fn some_labels(list: &[Label]) -> bool
    ensures { result ≡ some_labels (labels (map view_label list.now)) }
{
    match list {
        [] => false,
        [_, _rest @ ..] => true,
    }
}

/// Whether there is a statement.
pub(crate) fn some_statements(list: &[Stmt]) -> bool
    ensures { result ≡ some_statements (statements (map view_statement list.now)) }
{
    match list {
        [] => false,
        [_, _rest @ ..] => true,
    }
}

/// Whether there is a span.
pub(crate) fn is_filled(list: &[Span]) -> bool
    ensures { result ≡ is_filled list.now }
{
    match list {
        [] => false,
        [_, _rest @ ..] => true,
    }
}

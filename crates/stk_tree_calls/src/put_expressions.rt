//! The tokens of an expression and of what it holds.
ghost use Rattle.std.specs.Prelude.{◌≡◌, ◌++◌, ◌∷◌, [], map, OnOk};
ghost use Rattle.stk_tree.specs.Tokens.{base_form_tokens, base_tokens, declarator_tokens, declarators_tokens, designator_tokens, designators_tokens, dimension_tokens, dimensions_tokens, enumerator_tokens, enumerators_tokens, expression_form_tokens, expression_tokens, expressions_tokens, initialiser_tokens, item_tokens, items_tokens, last_comma, member_tokens, members_tokens, more_tokens, optional_word, parameter_tokens, parameters_tokens, step_tokens, tail_tokens, type_name_tokens, word};
ghost use Rattle.stk_tree.specs.declared.fixed.Fixed.TheVariants as fixed;
ghost use Rattle.stk_tree.specs.declared.fixed.Lexeme.TheVariants.{Fixed as Token};
ghost use Rattle.stk_tree.specs.View.{declarators, designators, dimensions, enumerators, expressions, items, members, parameters, view_base, view_base_form, view_declarator, view_designator, view_dimension, view_enumerator, view_expression, view_expression_form, view_initialiser, view_item, view_member, view_parameter, view_tail, view_type_name};

use crate::punctuators::{
    assign_punctuator, binary_punctuator, put_closing, put_leaf, put_more, put_no_parameters,
    put_opening, put_optional_word, put_path_end, put_punctuator, put_punctuators, put_stars,
    put_tag, put_texts, put_word, put_words, unary_punctuator,
};
use std::alloc::AllocError;
use stk_base::{Class, Span};
use stk_tree::{
    Base, BaseForm, Declr, Desig, Dimension, Enumr, Expr, ExprForm, Fixed, Init, Item, Lexeme,
    Member, Param, StepOp, Tail, TypeName,
};

#[cycle(put)]
pub(crate) fn put_expression(out: &mut Vec<Lexeme>, x: &Expr) -> Result<(), AllocError>
    ensures { OnOk result (out.new.items ≡ out.old.items ++ expression_tokens (view_expression x.now)) }
{
    put_expression_form(out, &x.form)
}

#[cycle(put)]
fn put_expressions(out: &mut Vec<Lexeme>, list: &[Expr]) -> Result<(), AllocError>
    ensures { OnOk result (out.new.items ≡ out.old.items ++ expressions_tokens (expressions (map view_expression list.now))) }
{
    if let [first, rest @ ..] = list {
        put_expression(out, first)?;
        for argument in rest {
            put_punctuator(out, Fixed::Comma)?;
            put_expression(out, argument)?;
        }
    }
    Ok(())
}

#[cycle(put)]
fn put_expression_form(out: &mut Vec<Lexeme>, x: &ExprForm) -> Result<(), AllocError>
    ensures { OnOk result (out.new.items ≡ out.old.items ++ expression_form_tokens (view_expression_form x.now)) }
{
    match x {
        ExprForm::Name(at) => put_word(out, *at),
        ExprForm::Number(at) => put_leaf(out, Class::Number, *at),
        ExprForm::Character(at) => put_leaf(out, Class::Character, *at),
        ExprForm::Text(parts) => put_texts(out, parts.as_slice()),
        ExprForm::Paren(e) => put_bracketed(out, Fixed::LeftParen, e.get(), Fixed::RightParen),
        ExprForm::Index(a, b) => {
            put_before(out, a.get(), Fixed::LeftBracket)?;
            put_before(out, b.get(), Fixed::RightBracket)
        }
        ExprForm::Call(f, list) => {
            put_before(out, f.get(), Fixed::LeftParen)?;
            put_arguments(out, list.as_slice())
        }
        ExprForm::Dot(e, name) => put_member_of(out, e.get(), Fixed::Dot, *name),
        ExprForm::Arrow(e, name) => put_member_of(out, e.get(), Fixed::Arrow, *name),
        ExprForm::Step(op, e) => put_step(out, *op, e.get()),
        ExprForm::Unary(op, e) => put_behind(out, unary_punctuator(*op), e.get()),
        ExprForm::SizeExpr(e) => put_behind(out, Fixed::Sizeof, e.get()),
        ExprForm::SizeName(t) => put_size(out, t),
        ExprForm::Cast(t, e) => {
            put_type(out, t)?;
            put_expression(out, e.get())
        }
        ExprForm::Binary(op, a, b) => {
            put_before(out, a.get(), binary_punctuator(*op))?;
            put_expression(out, b.get())
        }
        ExprForm::Choice(a, b, c) => {
            put_before(out, a.get(), Fixed::Question)?;
            put_before(out, b.get(), Fixed::Colon)?;
            put_expression(out, c.get())
        }
        ExprForm::Assign(op, a, b) => {
            put_before(out, a.get(), assign_punctuator(*op))?;
            put_expression(out, b.get())
        }
    }
}

/// Puts an expression and a punctuator.
#[cycle(put)]
fn put_before(out: &mut Vec<Lexeme>, x: &Expr, punctuator: Fixed) -> Result<(), AllocError>
    ensures { OnOk result (out.new.items ≡ out.old.items ++ expression_tokens (view_expression x.now) ++ Token punctuator ∷ []) }
{
    put_expression(out, x)?;
    put_punctuator(out, punctuator)
}

/// Puts a punctuator and an expression.
#[cycle(put)]
fn put_behind(out: &mut Vec<Lexeme>, punctuator: Fixed, x: &Expr) -> Result<(), AllocError>
    ensures { OnOk result (out.new.items ≡ out.old.items ++ Token punctuator ∷ expression_tokens (view_expression x.now)) }
{
    put_punctuator(out, punctuator)?;
    put_expression(out, x)
}

/// Puts an expression between two punctuators.
#[cycle(put)]
fn put_bracketed(
    out: &mut Vec<Lexeme>,
    left: Fixed,
    x: &Expr,
    right: Fixed,
) -> Result<(), AllocError>
    ensures { OnOk result (out.new.items ≡ out.old.items ++ Token left ∷ expression_tokens (view_expression x.now) ++ Token right ∷ []) }
{
    put_behind(out, left, x)?;
    put_punctuator(out, right)
}

/// Puts arguments and the parenthesis behind them.
#[cycle(put)]
fn put_arguments(out: &mut Vec<Lexeme>, list: &[Expr]) -> Result<(), AllocError>
    ensures { OnOk result (out.new.items ≡ out.old.items ++ expressions_tokens (expressions (map view_expression list.now)) ++ Token fixed.RightParen ∷ []) }
{
    put_expressions(out, list)?;
    put_punctuator(out, Fixed::RightParen)
}

/// Puts `whole.member` or `whole->member`.
#[cycle(put)]
fn put_member_of(
    out: &mut Vec<Lexeme>,
    whole: &Expr,
    punctuator: Fixed,
    member: Span,
) -> Result<(), AllocError>
    ensures { OnOk result (out.new.items ≡ out.old.items ++ expression_tokens (view_expression whole.now) ++ Token punctuator ∷ word member) }
{
    put_before(out, whole, punctuator)?;
    put_word(out, member)
}

/// Puts a type name in parentheses.
#[cycle(put)]
fn put_type(out: &mut Vec<Lexeme>, x: &TypeName) -> Result<(), AllocError>
    ensures { OnOk result (out.new.items ≡ out.old.items ++ Token fixed.LeftParen ∷ type_name_tokens (view_type_name x.now) ++ Token fixed.RightParen ∷ []) }
{
    put_punctuator(out, Fixed::LeftParen)?;
    put_type_name(out, x)?;
    put_punctuator(out, Fixed::RightParen)
}

/// Puts `sizeof (type)`.
#[cycle(put)]
fn put_size(out: &mut Vec<Lexeme>, x: &TypeName) -> Result<(), AllocError>
    ensures { OnOk result (out.new.items ≡ out.old.items ++ Token fixed.Sizeof ∷ Token fixed.LeftParen ∷ type_name_tokens (view_type_name x.now) ++ Token fixed.RightParen ∷ []) }
{
    put_punctuator(out, Fixed::Sizeof)?;
    put_type(out, x)
}

#[cycle(put)]
fn put_step(out: &mut Vec<Lexeme>, op: StepOp, x: &Expr) -> Result<(), AllocError>
    ensures { OnOk result (out.new.items ≡ out.old.items ++ step_tokens op (expression_tokens (view_expression x.now))) }
{
    match op {
        StepOp::IncBefore => put_behind(out, Fixed::PlusPlus, x),
        StepOp::DecBefore => put_behind(out, Fixed::MinusMinus, x),
        StepOp::IncAfter => put_before(out, x, Fixed::PlusPlus),
        StepOp::DecAfter => put_before(out, x, Fixed::MinusMinus),
    }
}

#[cycle(put)]
fn put_type_name(out: &mut Vec<Lexeme>, x: &TypeName) -> Result<(), AllocError>
    ensures { OnOk result (out.new.items ≡ out.old.items ++ type_name_tokens (view_type_name x.now)) }
{
    put_base(out, &x.base)?;
    put_stars(out, x.stars)?;
    put_dimensions(out, x.arrays.as_slice())
}

#[cycle(put)]
fn put_dimension(out: &mut Vec<Lexeme>, x: &Dimension) -> Result<(), AllocError>
    ensures { OnOk result (out.new.items ≡ out.old.items ++ dimension_tokens (view_dimension x.now)) }
{
    match x {
        Dimension::Open => put_punctuators(out, Fixed::LeftBracket, Fixed::RightBracket),
        Dimension::Sized(e) => put_bracketed(out, Fixed::LeftBracket, e, Fixed::RightBracket),
    }
}

#[cycle(put)]
fn put_dimensions(out: &mut Vec<Lexeme>, list: &[Dimension]) -> Result<(), AllocError>
    ensures { OnOk result (out.new.items ≡ out.old.items ++ dimensions_tokens (dimensions (map view_dimension list.now))) }
{
    for x in list {
        put_dimension(out, x)?;
    }
    Ok(())
}

#[cycle(put)]
pub(crate) fn put_base(out: &mut Vec<Lexeme>, x: &Base) -> Result<(), AllocError>
    ensures { OnOk result (out.new.items ≡ out.old.items ++ base_tokens (view_base x.now)) }
{
    put_base_form(out, &x.form)
}

#[cycle(put)]
fn put_base_form(out: &mut Vec<Lexeme>, x: &BaseForm) -> Result<(), AllocError>
    ensures { OnOk result (out.new.items ≡ out.old.items ++ base_form_tokens (view_base_form x.now)) }
{
    match x {
        BaseForm::Words(words) => put_words(out, words.as_slice()),
        BaseForm::StructRef(tag) => put_tag(out, Fixed::Struct, *tag),
        BaseForm::StructDef(tag, list) => put_struct(out, *tag, list.as_slice()),
        BaseForm::EnumRef(tag) => put_tag(out, Fixed::Enum, *tag),
        BaseForm::EnumDef(tag, list, comma) => put_enum(out, *tag, list.as_slice(), *comma),
        BaseForm::Named(name) => put_word(out, *name),
    }
}

/// Puts a `struct` with its members.
#[cycle(put)]
fn put_struct(out: &mut Vec<Lexeme>, tag: Option<Span>, list: &[Member]) -> Result<(), AllocError>
    ensures { OnOk result (out.new.items ≡ out.old.items ++ Token fixed.Struct ∷ optional_word tag ++ Token fixed.LeftBrace ∷ members_tokens (members (map view_member list.now)) ++ Token fixed.RightBrace ∷ []) }
{
    put_opening(out, Fixed::Struct, tag)?;
    put_members(out, list)?;
    put_punctuator(out, Fixed::RightBrace)
}

/// Puts an `enum` with its enumerators.
#[cycle(put)]
fn put_enum(
    out: &mut Vec<Lexeme>,
    tag: Option<Span>,
    list: &[Enumr],
    comma: bool,
) -> Result<(), AllocError>
    ensures { OnOk result (out.new.items ≡ out.old.items ++ Token fixed.Enum ∷ optional_word tag ++ Token fixed.LeftBrace ∷ enumerators_tokens (enumerators (map view_enumerator list.now)) ++ last_comma comma ++ Token fixed.RightBrace ∷ []) }
{
    put_opening(out, Fixed::Enum, tag)?;
    put_enumerators(out, list)?;
    put_closing(out, comma)
}

#[cycle(put)]
fn put_member(out: &mut Vec<Lexeme>, x: &Member) -> Result<(), AllocError>
    ensures { OnOk result (out.new.items ≡ out.old.items ++ member_tokens (view_member x.now)) }
{
    put_base(out, &x.base)?;
    put_declarators(out, x.list.as_slice())?;
    put_punctuator(out, Fixed::Semicolon)
}

#[cycle(put)]
fn put_members(out: &mut Vec<Lexeme>, list: &[Member]) -> Result<(), AllocError>
    ensures { OnOk result (out.new.items ≡ out.old.items ++ members_tokens (members (map view_member list.now))) }
{
    for x in list {
        put_member(out, x)?;
    }
    Ok(())
}

#[cycle(put)]
fn put_enumerator(out: &mut Vec<Lexeme>, x: &Enumr) -> Result<(), AllocError>
    ensures { OnOk result (out.new.items ≡ out.old.items ++ enumerator_tokens (view_enumerator x.now)) }
{
    put_word(out, x.name)?;
    match &x.value {
        None => Ok(()),
        Some(e) => put_behind(out, Fixed::Assign, e),
    }
}

#[cycle(put)]
fn put_enumerators(out: &mut Vec<Lexeme>, list: &[Enumr]) -> Result<(), AllocError>
    ensures { OnOk result (out.new.items ≡ out.old.items ++ enumerators_tokens (enumerators (map view_enumerator list.now))) }
{
    if let [first, rest @ ..] = list {
        put_enumerator(out, first)?;
        for x in rest {
            put_punctuator(out, Fixed::Comma)?;
            put_enumerator(out, x)?;
        }
    }
    Ok(())
}

#[cycle(put)]
pub(crate) fn put_declarator(out: &mut Vec<Lexeme>, x: &Declr) -> Result<(), AllocError>
    ensures { OnOk result (out.new.items ≡ out.old.items ++ declarator_tokens (view_declarator x.now)) }
{
    put_stars(out, x.stars)?;
    put_optional_word(out, x.name)?;
    put_tail(out, &x.tail)?;
    match &x.init {
        None => Ok(()),
        Some(init) => put_start_value(out, init),
    }
}

/// Puts `=` and an initialiser.
#[cycle(put)]
fn put_start_value(out: &mut Vec<Lexeme>, x: &Init) -> Result<(), AllocError>
    ensures { OnOk result (out.new.items ≡ out.old.items ++ Token fixed.Assign ∷ initialiser_tokens (view_initialiser x.now)) }
{
    put_punctuator(out, Fixed::Assign)?;
    put_initialiser(out, x)
}

#[cycle(put)]
pub(crate) fn put_declarators(out: &mut Vec<Lexeme>, list: &[Declr]) -> Result<(), AllocError>
    ensures { OnOk result (out.new.items ≡ out.old.items ++ declarators_tokens (declarators (map view_declarator list.now))) }
{
    if let [first, rest @ ..] = list {
        put_declarator(out, first)?;
        for x in rest {
            put_punctuator(out, Fixed::Comma)?;
            put_declarator(out, x)?;
        }
    }
    Ok(())
}

#[cycle(put)]
fn put_tail(out: &mut Vec<Lexeme>, x: &Tail) -> Result<(), AllocError>
    ensures { OnOk result (out.new.items ≡ out.old.items ++ tail_tokens (view_tail x.now)) }
{
    match x {
        Tail::Arrays(list) => put_dimensions(out, list.as_slice()),
        Tail::Unspecified => put_punctuators(out, Fixed::LeftParen, Fixed::RightParen),
        Tail::NoParams => put_no_parameters(out),
        Tail::Params(list, more) => put_some_parameters(out, list.as_slice(), *more),
    }
}

/// Puts parameters in parentheses.
#[cycle(put)]
fn put_some_parameters(out: &mut Vec<Lexeme>, list: &[Param], more: bool) -> Result<(), AllocError>
    ensures { OnOk result (out.new.items ≡ out.old.items ++ Token fixed.LeftParen ∷ parameters_tokens (parameters (map view_parameter list.now)) ++ more_tokens more ++ Token fixed.RightParen ∷ []) }
{
    put_punctuator(out, Fixed::LeftParen)?;
    put_parameters(out, list)?;
    put_more(out, more)?;
    put_punctuator(out, Fixed::RightParen)
}

#[cycle(put)]
fn put_parameter(out: &mut Vec<Lexeme>, x: &Param) -> Result<(), AllocError>
    ensures { OnOk result (out.new.items ≡ out.old.items ++ parameter_tokens (view_parameter x.now)) }
{
    put_base(out, &x.base)?;
    put_declarator(out, &x.declr)
}

#[cycle(put)]
fn put_parameters(out: &mut Vec<Lexeme>, list: &[Param]) -> Result<(), AllocError>
    ensures { OnOk result (out.new.items ≡ out.old.items ++ parameters_tokens (parameters (map view_parameter list.now))) }
{
    if let [first, rest @ ..] = list {
        put_parameter(out, first)?;
        for x in rest {
            put_punctuator(out, Fixed::Comma)?;
            put_parameter(out, x)?;
        }
    }
    Ok(())
}

#[cycle(put)]
fn put_initialiser(out: &mut Vec<Lexeme>, x: &Init) -> Result<(), AllocError>
    ensures { OnOk result (out.new.items ≡ out.old.items ++ initialiser_tokens (view_initialiser x.now)) }
{
    match x {
        Init::Plain(e) => put_expression(out, e),
        Init::Braces(list, comma) => put_braces(out, list.as_slice(), *comma),
    }
}

/// Puts items in braces.
#[cycle(put)]
fn put_braces(out: &mut Vec<Lexeme>, list: &[Item], comma: bool) -> Result<(), AllocError>
    ensures { OnOk result (out.new.items ≡ out.old.items ++ Token fixed.LeftBrace ∷ items_tokens (items (map view_item list.now)) ++ last_comma comma ++ Token fixed.RightBrace ∷ []) }
{
    put_punctuator(out, Fixed::LeftBrace)?;
    put_items(out, list)?;
    put_closing(out, comma)
}

#[cycle(put)]
fn put_item(out: &mut Vec<Lexeme>, x: &Item) -> Result<(), AllocError>
    ensures { OnOk result (out.new.items ≡ out.old.items ++ item_tokens (view_item x.now)) }
{
    put_designators(out, x.path.as_slice())?;
    put_path_end(out, x.path.as_slice())?;
    put_initialiser(out, &x.init)
}

#[cycle(put)]
fn put_items(out: &mut Vec<Lexeme>, list: &[Item]) -> Result<(), AllocError>
    ensures { OnOk result (out.new.items ≡ out.old.items ++ items_tokens (items (map view_item list.now))) }
{
    if let [first, rest @ ..] = list {
        put_item(out, first)?;
        for x in rest {
            put_punctuator(out, Fixed::Comma)?;
            put_item(out, x)?;
        }
    }
    Ok(())
}

#[cycle(put)]
fn put_designator(out: &mut Vec<Lexeme>, x: &Desig) -> Result<(), AllocError>
    ensures { OnOk result (out.new.items ≡ out.old.items ++ designator_tokens (view_designator x.now)) }
{
    match x {
        Desig::Dot(name) => put_tag(out, Fixed::Dot, *name),
        Desig::At(e) => put_bracketed(out, Fixed::LeftBracket, e, Fixed::RightBracket),
    }
}

#[cycle(put)]
fn put_designators(out: &mut Vec<Lexeme>, list: &[Desig]) -> Result<(), AllocError>
    ensures { OnOk result (out.new.items ≡ out.old.items ++ designators_tokens (designators (map view_designator list.now))) }
{
    for x in list {
        put_designator(out, x)?;
    }
    Ok(())
}

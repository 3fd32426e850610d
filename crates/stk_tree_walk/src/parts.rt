//! The parts of types, declarators and initialisers, put in front of what waits: the last one first.

ghost use Rattle.std.specs.Prelude.{◌≡◌, ◌++◌, ◌∷◌, [], ◌≤◌, ◌+◌, ◌*◌, length, OnOk, map};
ghost use Rattle.std.specs.Option.{option_map};
ghost use Rattle.stk_tree.specs.declared.fixed.Fixed.TheVariants as fixed;
ghost use Rattle.stk_tree.specs.declared.fixed.Lexeme.TheVariants.{Fixed as Token};
ghost use Rattle.stk_tree.specs.Tokens.{declarator_tokens, declarators_tokens, dimension_tokens, enumerators_tokens, expressions_tokens, initial_tokens, item_tokens, items_tokens, last_comma, member_tokens, members_tokens, more_tokens, optional_word, parameter_tokens, parameters_tokens, path_end, type_name_tokens, value_tokens};
ghost use Rattle.stk_tree.specs.View.{declarators, designators, enumerators, expressions, given_expression, items, maybe_initialiser, members, parameters, view_declarator, view_designator, view_dimension, view_enumerator, view_expression, view_initialiser, view_item, view_member, view_parameter, view_type_name};
ghost use Rattle.stk_tree_walk.specs.Waiting.{heft, left_of};

use crate::waiting::{Waiting, put, put_optional_word, put_punctuator, put_word};
use stk_base::{NoMemory, Span};
use stk_tree::{Declr, Desig, Dimension, Enumr, Expr, Fixed, Init, Item, Member, Param, TypeName};

// Puts the comma that may stand before a closing brace.
fn put_last_comma(comma: bool, out: &mut Vec<Waiting>) -> Result<(), NoMemory>
    ensures { OnOk result (left_of out.new.items ≡ last_comma comma ++ left_of out.old.items) }
{
    if comma {
        put_punctuator(Fixed::Comma, out)
    } else {
        Ok(())
    }
}

// Puts the `, ...` that may end a parameter list.
fn put_more(more: bool, out: &mut Vec<Waiting>) -> Result<(), NoMemory>
    ensures { OnOk result (left_of out.new.items ≡ more_tokens more ++ left_of out.old.items) }
{
    if more {
        put_punctuator(Fixed::Ellipsis, out)?;
        put_punctuator(Fixed::Comma, out)
    } else {
        Ok(())
    }
}

// Puts the `=` after designators, where there are any.
fn put_path_end(path: &[Desig], out: &mut Vec<Waiting>) -> Result<(), NoMemory>
    ensures left { OnOk result (left_of out.new.items ≡ path_end (designators (map view_designator path.now)) ++ left_of out.old.items) }
    ensures heft { OnOk result (heft out.new.items ≤ 1 + heft out.old.items) }
{
    match path {
        [] => Ok(()),
        [_, _rest @ ..] => put_punctuator(Fixed::Assign, out),
    }
}

// Puts the value that may be given to an enumerator.
fn put_value<'a>(value: &'a Option<Expr>, out: &mut Vec<Waiting<'a>>) -> Result<(), NoMemory>
    ensures left { OnOk result (left_of out.new.items ≡ value_tokens (given_expression value.now) ++ left_of out.old.items) }
    ensures heft { OnOk result (heft out.new.items ≤ 2 + heft out.old.items) }
{
    match value {
        None => Ok(()),
        Some(e) => {
            put(Waiting::Expression(e), out)?;
            put_punctuator(Fixed::Assign, out)
        }
    }
}

// Puts the initialiser that may follow a declarator.
fn put_initial<'a>(init: &'a Option<Init>, out: &mut Vec<Waiting<'a>>) -> Result<(), NoMemory>
    ensures left { OnOk result (left_of out.new.items ≡ initial_tokens (maybe_initialiser (option_map view_initialiser init.now)) ++ left_of out.old.items) }
    ensures heft { OnOk result (heft out.new.items ≤ 3 + heft out.old.items) }
{
    match init {
        None => Ok(()),
        Some(x) => {
            put(Waiting::Initialiser(x), out)?;
            put_punctuator(Fixed::Assign, out)
        }
    }
}

// Puts an item.
fn put_item<'a>(x: &'a Item, out: &mut Vec<Waiting<'a>>) -> Result<(), NoMemory>
    ensures left { OnOk result (left_of out.new.items ≡ item_tokens (view_item x.now) ++ left_of out.old.items) }
    ensures heft { OnOk result (heft out.new.items ≤ 4 + heft out.old.items) }
{
    put(Waiting::Initialiser(&x.init), out)?;
    put_path_end(x.path.as_slice(), out)?;
    put(Waiting::Designators(x.path.as_slice()), out)
}

// Puts a parameter.
fn put_parameter<'a>(p: &'a Param, out: &mut Vec<Waiting<'a>>) -> Result<(), NoMemory>
    ensures left { OnOk result (left_of out.new.items ≡ parameter_tokens (view_parameter p.now) ++ left_of out.old.items) }
    ensures heft { OnOk result (heft out.new.items ≡ 10 + heft out.old.items) }
{
    put(Waiting::Declarator(&p.declr), out)?;
    put(Waiting::Base(&p.base), out)
}

// Puts a member.
fn put_member<'a>(m: &'a Member, out: &mut Vec<Waiting<'a>>) -> Result<(), NoMemory>
    ensures left { OnOk result (left_of out.new.items ≡ member_tokens (view_member m.now) ++ left_of out.old.items) }
    ensures heft { OnOk result (heft out.new.items ≡ 13 + heft out.old.items) }
{
    put_punctuator(Fixed::Semicolon, out)?;
    put(Waiting::Declarators(m.list.as_slice()), out)?;
    put(Waiting::Base(&m.base), out)
}

/// Puts what follows the word `struct` of a definition.
pub(crate) fn put_struct<'a>(
    tag: Option<Span>,
    list: &'a [Member],
    out: &mut Vec<Waiting<'a>>,
) -> Result<(), NoMemory>
    ensures { OnOk result (left_of out.new.items ≡ (optional_word tag ++ Token fixed.LeftBrace ∷ members_tokens (members (map view_member list.now)) ++ Token fixed.RightBrace ∷ []) ++ left_of out.old.items) }
{
    put_punctuator(Fixed::RightBrace, out)?;
    put(Waiting::Members(list), out)?;
    put_punctuator(Fixed::LeftBrace, out)?;
    put_optional_word(tag, out)
}

/// Puts what follows the word `enum` of a definition.
pub(crate) fn put_enum<'a>(
    tag: Option<Span>,
    list: &'a [Enumr],
    comma: bool,
    out: &mut Vec<Waiting<'a>>,
) -> Result<(), NoMemory>
    ensures { OnOk result (left_of out.new.items ≡ (optional_word tag ++ Token fixed.LeftBrace ∷ enumerators_tokens (enumerators (map view_enumerator list.now)) ++ last_comma comma ++ Token fixed.RightBrace ∷ []) ++ left_of out.old.items) }
{
    put_punctuator(Fixed::RightBrace, out)?;
    put_last_comma(comma, out)?;
    put(Waiting::Enumerators(list), out)?;
    put_punctuator(Fixed::LeftBrace, out)?;
    put_optional_word(tag, out)
}

/// Puts what follows the parenthesis before parameters.
pub(crate) fn put_some_parameters<'a>(
    list: &'a [Param],
    more: bool,
    out: &mut Vec<Waiting<'a>>,
) -> Result<(), NoMemory>
    ensures { OnOk result (left_of out.new.items ≡ (parameters_tokens (parameters (map view_parameter list.now)) ++ more_tokens more ++ Token fixed.RightParen ∷ []) ++ left_of out.old.items) }
{
    put_punctuator(Fixed::RightParen, out)?;
    put_more(more, out)?;
    put(Waiting::Parameters(list), out)
}

/// Puts what follows the brace before items.
pub(crate) fn put_braces<'a>(
    list: &'a [Item],
    comma: bool,
    out: &mut Vec<Waiting<'a>>,
) -> Result<(), NoMemory>
    ensures { OnOk result (left_of out.new.items ≡ (items_tokens (items (map view_item list.now)) ++ last_comma comma ++ Token fixed.RightBrace ∷ []) ++ left_of out.old.items) }
{
    put_punctuator(Fixed::RightBrace, out)?;
    put_last_comma(comma, out)?;
    put(Waiting::Items(list), out)
}

/// Puts the parts of a type name.
pub(crate) fn put_type<'a>(t: &'a TypeName, out: &mut Vec<Waiting<'a>>) -> Result<(), NoMemory>
    ensures left { OnOk result (left_of out.new.items ≡ type_name_tokens (view_type_name t.now) ++ left_of out.old.items) }
    ensures heft { OnOk result (heft out.new.items ≡ 4 + heft out.old.items) }
{
    put(Waiting::Dimensions(t.arrays.as_slice()), out)?;
    put(Waiting::Stars(t.stars), out)?;
    put(Waiting::Base(&t.base), out)
}

/// Puts the parts of a declarator.
pub(crate) fn put_declarator<'a>(d: &'a Declr, out: &mut Vec<Waiting<'a>>) -> Result<(), NoMemory>
    ensures left { OnOk result (left_of out.new.items ≡ declarator_tokens (view_declarator d.now) ++ left_of out.old.items) }
    ensures heft { OnOk result (heft out.new.items ≤ 7 + heft out.old.items) }
{
    put_initial(&d.init, out)?;
    put(Waiting::Tail(&d.tail), out)?;
    put_optional_word(d.name, out)?;
    put(Waiting::Stars(d.stars), out)
}

/// Puts what follows the bracket of an array part.
pub(crate) fn put_size<'a>(d: &'a Dimension, out: &mut Vec<Waiting<'a>>) -> Result<(), NoMemory>
    ensures { OnOk result (Token fixed.LeftBracket ∷ left_of out.new.items ≡ dimension_tokens (view_dimension d.now) ++ left_of out.old.items) }
{
    put_punctuator(Fixed::RightBracket, out)?;
    match d {
        Dimension::Open => Ok(()),
        Dimension::Sized(e) => put(Waiting::Expression(e), out),
    }
}

/// Puts arguments.
pub(crate) fn put_arguments<'a>(
    list: &'a [Expr],
    out: &mut Vec<Waiting<'a>>,
) -> Result<(), NoMemory>
    ensures left { OnOk result (left_of out.new.items ≡ expressions_tokens (expressions (map view_expression list.now)) ++ left_of out.old.items) }
    ensures heft { OnOk result (heft out.new.items ≤ 2 + heft out.old.items) }
{
    match list {
        [] => Ok(()),
        [first, rest @ ..] => {
            put(Waiting::MoreArguments(rest), out)?;
            put(Waiting::Expression(first), out)
        }
    }
}

/// Puts enumerators.
pub(crate) fn put_enumerators<'a>(
    list: &'a [Enumr],
    out: &mut Vec<Waiting<'a>>,
) -> Result<(), NoMemory>
    ensures left { OnOk result (left_of out.new.items ≡ enumerators_tokens (enumerators (map view_enumerator list.now)) ++ left_of out.old.items) }
    ensures heft { OnOk result (heft out.new.items ≤ 4 + heft out.old.items) }
{
    match list {
        [] => Ok(()),
        [first, rest @ ..] => {
            put(Waiting::MoreEnumerators(rest), out)?;
            put_value(&first.value, out)?;
            put_word(first.name, out)
        }
    }
}

/// Puts declarators.
pub(crate) fn put_declarators<'a>(
    list: &'a [Declr],
    out: &mut Vec<Waiting<'a>>,
) -> Result<(), NoMemory>
    ensures left { OnOk result (left_of out.new.items ≡ declarators_tokens (declarators (map view_declarator list.now)) ++ left_of out.old.items) }
    ensures heft { OnOk result (heft out.new.items ≤ 9 + heft out.old.items) }
{
    match list {
        [] => Ok(()),
        [first, rest @ ..] => {
            put(Waiting::MoreDeclarators(rest), out)?;
            put(Waiting::Declarator(first), out)
        }
    }
}

/// Puts parameters.
pub(crate) fn put_parameters<'a>(
    list: &'a [Param],
    out: &mut Vec<Waiting<'a>>,
) -> Result<(), NoMemory>
    ensures left { OnOk result (left_of out.new.items ≡ parameters_tokens (parameters (map view_parameter list.now)) ++ left_of out.old.items) }
    ensures heft { OnOk result (heft out.new.items ≤ 11 + heft out.old.items) }
{
    match list {
        [] => Ok(()),
        [first, rest @ ..] => {
            put(Waiting::MoreParameters(rest), out)?;
            put_parameter(first, out)
        }
    }
}

/// Puts items.
pub(crate) fn put_items<'a>(list: &'a [Item], out: &mut Vec<Waiting<'a>>) -> Result<(), NoMemory>
    ensures left { OnOk result (left_of out.new.items ≡ items_tokens (items (map view_item list.now)) ++ left_of out.old.items) }
    ensures heft { OnOk result (heft out.new.items ≤ 5 + heft out.old.items) }
{
    match list {
        [] => Ok(()),
        [first, rest @ ..] => {
            put(Waiting::MoreItems(rest), out)?;
            put_item(first, out)
        }
    }
}

/// Puts members.
pub(crate) fn put_members<'a>(
    list: &'a [Member],
    out: &mut Vec<Waiting<'a>>,
) -> Result<(), NoMemory>
    ensures left { OnOk result (left_of out.new.items ≡ members_tokens (members (map view_member list.now)) ++ left_of out.old.items) }
    ensures heft { OnOk result (heft out.new.items ≤ 14 * length list.now + heft out.old.items) }
{
    match list {
        [] => Ok(()),
        [first, rest @ ..] => {
            put(Waiting::Members(rest), out)?;
            put_member(first, out)
        }
    }
}

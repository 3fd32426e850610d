//! The first tokens of rows of tokens, and of what has a comma before each element.

ghost use Rattle.std.specs.Prelude.{◌≡◌, ◌++◌, ◌<◌, ◌+◌, IfOk, None, map};
ghost use Rattle.stk_tree.specs.Tokens.{more_declarators, more_enumerators, more_expressions, more_items, more_parameters, reserved, stars, texts};
ghost use Rattle.stk_tree.specs.View.{declarators, enumerators, expressions, items, parameters, view_declarator, view_enumerator, view_expression, view_item, view_parameter};
ghost use Rattle.stk_tree_walk.specs.Waiting.{given, heft, left_of};

use crate::parts::{put_arguments, put_declarators, put_enumerators, put_items, put_parameters};
use crate::waiting::{Waiting, put};
use stk_base::{Class, NoMemory, Span};
use stk_tree::{Declr, Enumr, Expr, Fixed, Item, Lexeme, Param};

/// The first of string literals in a row; none where there are none, and then what waits stays as it was.
pub(crate) fn first_text<'a>(
    parts: &'a [Span],
    out: &mut Vec<Waiting<'a>>,
) -> Result<Option<Lexeme>, NoMemory>
    ensures left { IfOk result (λ t. given t ++ left_of out.new.items ≡ texts parts.now ++ left_of out.old.items) }
    ensures same { IfOk result (λ t. t ≡ None → out.new.items ≡ out.old.items) }
{
    match parts {
        [] => Ok(None),
        [first, rest @ ..] => {
            put(Waiting::Texts(rest), out)?;
            Ok(Some(Lexeme::Leaf(Class::Text, *first)))
        }
    }
}

/// The first of reserved words in a row; none where there are none.
pub(crate) fn first_word<'a>(
    words: &'a [Fixed],
    out: &mut Vec<Waiting<'a>>,
) -> Result<Option<Lexeme>, NoMemory>
    ensures left { IfOk result (λ t. given t ++ left_of out.new.items ≡ reserved words.now ++ left_of out.old.items) }
    ensures falls { IfOk result (λ t. t ≡ None → heft out.new.items < 1 + heft out.old.items) }
{
    match words {
        [] => Ok(None),
        [first, rest @ ..] => {
            put(Waiting::Words(rest), out)?;
            Ok(Some(Lexeme::Fixed(*first)))
        }
    }
}

/// The first of so many `*`; none where there are none.
pub(crate) fn first_star(count: u32, out: &mut Vec<Waiting>) -> Result<Option<Lexeme>, NoMemory>
    ensures left { IfOk result (λ t. given t ++ left_of out.new.items ≡ stars count ++ left_of out.old.items) }
    ensures falls { IfOk result (λ t. t ≡ None → heft out.new.items < 1 + heft out.old.items) }
{
    if count == 0 {
        return Ok(None);
    }
    put(Waiting::Stars(count - 1), out)?;
    Ok(Some(Lexeme::Fixed(Fixed::Star)))
}

/// The comma before more arguments; none where there are none.
pub(crate) fn more_arguments<'a>(
    list: &'a [Expr],
    out: &mut Vec<Waiting<'a>>,
) -> Result<Option<Lexeme>, NoMemory>
    ensures left { IfOk result (λ t. given t ++ left_of out.new.items ≡ more_expressions (expressions (map view_expression list.now)) ++ left_of out.old.items) }
    ensures falls { IfOk result (λ t. t ≡ None → heft out.new.items < 1 + heft out.old.items) }
{
    match list {
        [] => Ok(None),
        [_, _rest @ ..] => {
            put_arguments(list, out)?;
            Ok(Some(Lexeme::Fixed(Fixed::Comma)))
        }
    }
}

/// The comma before more enumerators; none where there are none.
pub(crate) fn more_enumerators<'a>(
    list: &'a [Enumr],
    out: &mut Vec<Waiting<'a>>,
) -> Result<Option<Lexeme>, NoMemory>
    ensures left { IfOk result (λ t. given t ++ left_of out.new.items ≡ more_enumerators (enumerators (map view_enumerator list.now)) ++ left_of out.old.items) }
    ensures falls { IfOk result (λ t. t ≡ None → heft out.new.items < 1 + heft out.old.items) }
{
    match list {
        [] => Ok(None),
        [_, _rest @ ..] => {
            put_enumerators(list, out)?;
            Ok(Some(Lexeme::Fixed(Fixed::Comma)))
        }
    }
}

/// The comma before more declarators; none where there are none.
pub(crate) fn more_declarators<'a>(
    list: &'a [Declr],
    out: &mut Vec<Waiting<'a>>,
) -> Result<Option<Lexeme>, NoMemory>
    ensures left { IfOk result (λ t. given t ++ left_of out.new.items ≡ more_declarators (declarators (map view_declarator list.now)) ++ left_of out.old.items) }
    ensures falls { IfOk result (λ t. t ≡ None → heft out.new.items < 1 + heft out.old.items) }
{
    match list {
        [] => Ok(None),
        [_, _rest @ ..] => {
            put_declarators(list, out)?;
            Ok(Some(Lexeme::Fixed(Fixed::Comma)))
        }
    }
}

/// The comma before more parameters; none where there are none.
pub(crate) fn more_parameters<'a>(
    list: &'a [Param],
    out: &mut Vec<Waiting<'a>>,
) -> Result<Option<Lexeme>, NoMemory>
    ensures left { IfOk result (λ t. given t ++ left_of out.new.items ≡ more_parameters (parameters (map view_parameter list.now)) ++ left_of out.old.items) }
    ensures falls { IfOk result (λ t. t ≡ None → heft out.new.items < 1 + heft out.old.items) }
{
    match list {
        [] => Ok(None),
        [_, _rest @ ..] => {
            put_parameters(list, out)?;
            Ok(Some(Lexeme::Fixed(Fixed::Comma)))
        }
    }
}

/// The comma before more items; none where there are none.
pub(crate) fn more_items<'a>(
    list: &'a [Item],
    out: &mut Vec<Waiting<'a>>,
) -> Result<Option<Lexeme>, NoMemory>
    ensures left { IfOk result (λ t. given t ++ left_of out.new.items ≡ more_items (items (map view_item list.now)) ++ left_of out.old.items) }
    ensures falls { IfOk result (λ t. t ≡ None → heft out.new.items < 1 + heft out.old.items) }
{
    match list {
        [] => Ok(None),
        [_, _rest @ ..] => {
            put_items(list, out)?;
            Ok(Some(Lexeme::Fixed(Fixed::Comma)))
        }
    }
}

//! How many elements an initialiser gives an array of unknown size.

ghost use Rattle.std.specs.Prelude.{◌≡◌, IfOk, map};
ghost use Rattle.std.specs.Option.{option_map};
ghost use Rattle.stk_tree.specs.View.{view_expression_form, view_expression, view_initialiser, view_item, items, designators, view_designator, maybe_initialiser};
ghost use Rattle.stk_declarators.specs.Counting.{form_count, expression_count, is_braced, designates, is_like, are_like, items_count, initial_count, given_count};

use std::alloc::Global;
use stk_base::NoMemory;
use stk_numbers::string_bytes;
use stk_tree::{Desig, Expr, ExprForm, Init, Item};

// The bytes of string literals and a zero.
fn form_count(alloc: Global, bytes: &[u8], form: &ExprForm) -> Result<Option<u64>, NoMemory>
    ensures { IfOk result (λ n. n ≡ form_count bytes.now (view_expression_form form.now)) }
{
    match form {
        ExprForm::Text(parts) => match string_bytes(alloc, bytes, parts.as_slice())? {
            Some(found) => Ok(Some(found.len() as u64 + 1)),
            None => Ok(None),
        },
        ExprForm::Name(_)
        | ExprForm::Number(_)
        | ExprForm::Character(_)
        | ExprForm::Paren(_)
        | ExprForm::Index(_, _)
        | ExprForm::Call(_, _)
        | ExprForm::Dot(_, _)
        | ExprForm::Arrow(_, _)
        | ExprForm::Step(_, _)
        | ExprForm::Unary(_, _)
        | ExprForm::SizeExpr(_)
        | ExprForm::SizeName(_)
        | ExprForm::Cast(_, _)
        | ExprForm::Binary(_, _, _)
        | ExprForm::Choice(_, _, _)
        | ExprForm::Assign(_, _, _) => Ok(None),
    }
}

// The same of an expression.
#[tactic(auto, using(stk_typing::proofs::Views::view_node))]
fn expression_count(alloc: Global, bytes: &[u8], e: &Expr) -> Result<Option<u64>, NoMemory>
    ensures { IfOk result (λ n. n ≡ expression_count bytes.now (view_expression e.now)) }
{
    form_count(alloc, bytes, &e.form)
}

// Whether an initialiser stands in braces.
fn is_braced(i: &Init) -> bool
    ensures { result ≡ is_braced (view_initialiser i.now) }
{
    match i {
        Init::Plain(_) => false,
        Init::Braces(_, _) => true,
    }
}

// Whether there are designators.
fn designates(path: &[Desig]) -> bool
    ensures { result ≡ designates (designators (map view_designator path.now)) }
{
    match path {
        [] => false,
        [_, _rest @ ..] => true,
    }
}

// Whether an item has no designators, and stands in braces or doesn't.
fn is_like(braced: bool, i: &Item) -> bool
    ensures { result ≡ is_like braced (view_item i.now) }
{
    !designates(i.path.as_slice()) && is_braced(&i.init) == braced
}

// Whether all items do.
fn are_like(braced: bool, list: &[Item]) -> bool
    ensures { result ≡ are_like braced (items (map view_item list.now)) }
{
    for i in list {
        if !is_like(braced, i) {
            return false;
        }
    }
    true
}

// How many elements items give, which are scalars or not.
#[tactic(auto, using(crate::proofs::Rows::counted))]
fn items_count(scalar: bool, list: &[Item]) -> Option<u64>
    ensures { result ≡ items_count scalar (items (map view_item list.now)) }
{
    if are_like(true, list) || (scalar && are_like(false, list)) {
        Some(list.len() as u64)
    } else {
        None
    }
}

/// How many elements an initialiser gives an array of unknown size, whose elements are scalars or not (C11 6.7.9p22):
/// string literals as many as they have bytes, and one; braces without designators as many as they have items, where
/// all of these stand in braces, or none of them does and the elements are scalars. `None` for any other initialiser,
/// which doesn't count in this profile. The text is the input, in which string literals have their spans.
pub(crate) fn initial_count(
    alloc: Global,
    bytes: &[u8],
    scalar: bool,
    i: &Init,
) -> Result<Option<u64>, NoMemory>
    ensures { IfOk result (λ n. n ≡ initial_count bytes.now scalar (view_initialiser i.now)) }
{
    match i {
        Init::Plain(e) => expression_count(alloc, bytes, e),
        Init::Braces(list, _) => Ok(items_count(scalar, list.as_slice())),
    }
}

/// The same of an initialiser that may be missing, which doesn't count then.
pub fn given_count(
    alloc: Global,
    bytes: &[u8],
    scalar: bool,
    i: &Option<Init>,
) -> Result<Option<u64>, NoMemory>
    ensures { IfOk result (λ n. n ≡ given_count bytes.now scalar (maybe_initialiser (option_map view_initialiser i.now))) }
{
    match i {
        None => Ok(None),
        Some(i) => initial_count(alloc, bytes, scalar, i),
    }
}

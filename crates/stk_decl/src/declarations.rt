//! Declarations, and what stands before the body of a function (C11 6.7, 6.9.1).

ghost use Rattle.std.specs.Prelude.{◌≡◌, ◌≤◌, map, true};
ghost use Rattle.stk_tree.specs.Nesting.{most_nesting};
ghost use Rattle.stk_tree.specs.Placed.{local_storage};
ghost use Rattle.stk_tree.specs.View.{declarators, view_declaration, view_declarator};
ghost use Rattle.stk_grammar.specs.DeclarationReading.{declaration_at, declarator_at, file_behind, file_declarators_at, front_at, front_behind, local_behind, local_on, storage_at};
ghost use Rattle.stk_ctype.specs.Named.{named};
ghost use Rattle.stk_expr.specs.Gives.{Gives};

use crate::bases::full_base;
use crate::build;
use crate::declarators::{DeclaratorScope, declarators, function_declarator};
use std::alloc::Global;
use stk_base::List;
use stk_ctype::Names;
use stk_expr::{Parse, base};
use stk_grammar::{behind_semicolon, opens_body, storage_at};
use stk_tree::{Declaration, Declr, Lexeme, Storage};

/// The declarators of a declaration at file scope, where there may be none, and the `;`.
fn file_declarators<'a>(
    alloc: Global,
    bytes: &[u8],
    names: &Names,
    room: usize,
    lexemes: &'a [Lexeme],
) -> Result<(List<Declr>, &'a [Lexeme]), Parse>
    requires { room ≤ most_nesting }
    ensures { Gives (λ x. (declarators (map view_declarator x.0), x.1.now)) result (file_declarators_at (declarator_at (named bytes.now names.now) room true) lexemes.now) }
{
    if let Some(rest) = behind_semicolon(lexemes) {
        return Ok((List::empty(alloc), rest));
    }
    declarators(alloc, bytes, names, DeclaratorScope::File, room, lexemes)
}

/// A declaration at file scope, of at most the nesting `room`.
fn file_declaration<'a>(
    alloc: Global,
    bytes: &[u8],
    names: &Names,
    room: usize,
    lexemes: &'a [Lexeme],
) -> Result<(Declaration, &'a [Lexeme]), Parse>
    requires { room ≤ most_nesting }
    ensures { Gives (λ x. (view_declaration x.0, x.1.now)) result (file_behind (named bytes.now names.now) room (storage_at lexemes.now)) }
{
    let (storage, rest) = storage_at(lexemes);
    let (form, rest) = full_base(alloc, bytes, names, room, rest)?;
    let (list, rest) = file_declarators(alloc, bytes, names, room, rest)?;
    Ok((build::declaration(storage, form, list), rest))
}

/// Whether a storage word, or none, may stand in a block.
fn is_local(storage: Option<Storage>) -> bool
    ensures { result ≡ local_storage storage }
{
    matches!(storage, None | Some(Storage::Static))
}

/// A declaration in a block, of at most the nesting `room`.
fn local_declaration<'a>(
    alloc: Global,
    bytes: &[u8],
    names: &Names,
    room: usize,
    lexemes: &'a [Lexeme],
) -> Result<(Declaration, &'a [Lexeme]), Parse>
    requires { room ≤ most_nesting }
    ensures { Gives (λ x. (view_declaration x.0, x.1.now)) result (local_on (named bytes.now names.now) room (storage_at lexemes.now)) }
{
    let (storage, rest) = storage_at(lexemes);
    if !is_local(storage) {
        return Err(Parse::NoTree);
    }
    let (form, rest) = base(alloc, bytes, names, rest)?;
    let (list, rest) = declarators(alloc, bytes, names, DeclaratorScope::Local, room, rest)?;
    Ok((build::declaration(storage, form, list), rest))
}

/// A declaration with its `;`, of at most the nesting `room`: at file scope, or else in a block.
#[tactic(auto, unfolding(stk_grammar::specs::DeclarationReading::declaration_at))]
pub(crate) fn declaration<'a>(
    alloc: Global,
    bytes: &[u8],
    names: &Names,
    file: bool,
    room: usize,
    lexemes: &'a [Lexeme],
) -> Result<(Declaration, &'a [Lexeme]), Parse>
    requires { room ≤ most_nesting }
    ensures { Gives (λ x. (view_declaration x.0, x.1.now)) result (declaration_at (named bytes.now names.now) file room lexemes.now) }
{
    if file {
        return file_declaration(alloc, bytes, names, room, lexemes);
    }
    if room == 0 {
        return Err(Parse::NoTree);
    }
    local_declaration(alloc, bytes, names, room, lexemes)
}

/// A storage word, a base and the declarator of a function, of at most the nesting `room`.
fn front<'a>(
    alloc: Global,
    bytes: &[u8],
    names: &Names,
    room: usize,
    lexemes: &'a [Lexeme],
) -> Result<(Declaration, &'a [Lexeme]), Parse>
    requires { room ≤ most_nesting }
    ensures { Gives (λ x. (view_declaration x.0, x.1.now)) result (front_behind (named bytes.now names.now) room (storage_at lexemes.now)) }
{
    let (storage, rest) = storage_at(lexemes);
    let (form, rest) = base(alloc, bytes, names, rest)?;
    let (declr, rest) = function_declarator(alloc, bytes, names, room, rest)?;
    let mut list = Vec::new(alloc);
    list.push(declr)?;
    let list = List::from_vec(list);
    Ok((build::declaration(storage, form, list), rest))
}

/// What stands before the body of a function, of at most the nesting `room`, where the body's `{` follows.
#[tactic(auto, unfolding(stk_grammar::specs::DeclarationReading::front_at))]
pub(crate) fn function_front<'a>(
    alloc: Global,
    bytes: &[u8],
    names: &Names,
    room: usize,
    lexemes: &'a [Lexeme],
) -> Result<(Declaration, &'a [Lexeme]), Parse>
    requires { room ≤ most_nesting }
    ensures { Gives (λ x. (view_declaration x.0, x.1.now)) result (front_at (named bytes.now names.now) room lexemes.now) }
{
    let (front, rest) = front(alloc, bytes, names, room, lexemes)?;
    if !opens_body(rest) {
        return Err(Parse::NoTree);
    }
    Ok((front, rest))
}

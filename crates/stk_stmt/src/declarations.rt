//! The declarations of blocks and of units, and where one begins.

ghost use Rattle.std.specs.Prelude.{◌≡◌, ◌≤◌};
ghost use Rattle.stk_tree.specs.Nesting.{most_nesting};
ghost use Rattle.stk_tree.specs.View.{view_declaration, view_start};
ghost use Rattle.stk_grammar.specs.DeclarationReading.{declaration_at, front_at};
ghost use Rattle.stk_grammar.specs.StatementReading.{begins_local, start_at};
ghost use Rattle.stk_ctype.specs.Named.{named};
ghost use Rattle.stk_expr.specs.Gives.{Gives};

use crate::build::opened;
use crate::expressions::ended;
use std::alloc::Global;
use stk_base::Boxed;
use stk_ctype::Names;
use stk_decl::{LeadingDeclaration, declaration_within, front_within};
use stk_expr::{Parse, begins_type};
use stk_grammar::begins_static;
use stk_tree::{Lexeme, Start};

/// Whether a declaration of a block begins here: with `static`, or with a type.
pub(crate) fn begins_local(bytes: &[u8], names: &Names, lexemes: &[Lexeme]) -> bool
    ensures { result ≡ begins_local (named bytes.now names.now) lexemes.now }
{
    begins_static(lexemes) || begins_type(bytes, names, lexemes)
}

/// A declaration, of at most the nesting `room`, at file scope or else in a block.
pub(crate) fn declaration<'a>(
    alloc: Global,
    bytes: &[u8],
    names: &Names,
    file: bool,
    room: usize,
    lexemes: &'a [Lexeme],
) -> Result<LeadingDeclaration<'a>, Parse>
    requires { room ≤ most_nesting }
    ensures { Gives (λ x. (view_declaration x.tree, x.rest.now)) result (declaration_at (named bytes.now names.now) file room lexemes.now) }
{
    declaration_within(alloc, bytes, names, file, room, lexemes)
}

/// What stands before the body of a function, of at most the nesting `room`, where the body begins behind it.
pub(crate) fn front<'a>(
    alloc: Global,
    bytes: &[u8],
    names: &Names,
    room: usize,
    lexemes: &'a [Lexeme],
) -> Result<LeadingDeclaration<'a>, Parse>
    requires { room ≤ most_nesting }
    ensures { Gives (λ x. (view_declaration x.tree, x.rest.now)) result (front_at (named bytes.now names.now) room lexemes.now) }
{
    front_within(alloc, bytes, names, room, lexemes)
}

/// The first part of a `for`, with its `;` (C11 6.8.5.3).
#[tactic(auto, unfolding(stk_grammar::specs::StatementReading::start_at))]
pub(crate) fn start<'a>(
    alloc: Global,
    bytes: &[u8],
    names: &Names,
    room: usize,
    lexemes: &'a [Lexeme],
) -> Result<(Boxed<Start>, &'a [Lexeme]), Parse>
    requires { room ≤ most_nesting }
    ensures { Gives (λ x. (view_start x.0, x.1.now)) result (start_at (named bytes.now names.now) room lexemes.now) }
{
    if begins_local(bytes, names, lexemes) {
        let found = declaration(alloc, bytes, names, false, room, lexemes)?;
        return Ok((Boxed::new(alloc, Start::Local(found.tree))?, found.rest));
    }
    let (found, rest) = ended(alloc, bytes, names, room, lexemes)?;
    Ok((Boxed::new(alloc, Start::Plain(opened(found)))?, rest))
}

//! The readers of units (C11 6.9).

ghost use Rattle.std.specs.Prelude.{◌≡◌, map, option_map, ◌-◌};
ghost use Rattle.stk_tree.specs.Nesting.{most_nesting};
ghost use Rattle.stk_tree.specs.View.{declarators, view_declaration, view_declarator, view_statement, view_unit};
ghost use Rattle.stk_grammar.specs.StatementReading.{function_of, unit_at};
ghost use Rattle.stk_ctype.specs.Named.{named};
ghost use Rattle.stk_expr.specs.Gives.{Gives};
ghost use Rattle.stk_stmt.specs.Units.{declaration_unit_at, definition_at, lone_declarator};

use crate::build;
use crate::declarations::{declaration, front};
use crate::statements::statement;
use std::alloc::Global;
use stk_base::{Boxed, List};
use stk_ctype::Names;
use stk_expr::Parse;
use stk_grammar::is_semicolon;
use stk_tree::{Declaration, Declr, Lexeme, MOST_NESTING, Stmt, Unit};

/// The declarator of a list that has one.
fn lone(list: List<Declr>) -> Option<Declr>
    ensures { option_map view_declarator result ≡ lone_declarator (declarators (map view_declarator list)) }
{
    if list.as_slice().len() != 1 {
        return None;
    }
    list.into_vec().pop()
}

/// A function with this front and this body, where the front has one declarator.
fn function(alloc: Global, front: Declaration, body: Boxed<Stmt>) -> Result<Boxed<Unit>, Parse>
    ensures { Gives (λ x. view_unit x) result (function_of (view_declaration front) (view_statement body)) }
{
    let Declaration {
        storage,
        base,
        list,
    } = front;
    let Some(declr) = lone(list) else {
        return Err(Parse::NoTree);
    };
    Ok(build::defines(alloc, storage, base, declr, body)?)
}

/// A function whose front was read, and whose body ends the tokens.
fn definition(
    alloc: Global,
    bytes: &[u8],
    names: &Names,
    front: Declaration,
    lexemes: &[Lexeme],
) -> Result<Boxed<Unit>, Parse>
    ensures { Gives (λ x. view_unit x) result (definition_at (named bytes.now names.now) (most_nesting - 1) (view_declaration front) lexemes.now) }
{
    let (body, rest) = statement(alloc, bytes, names, MOST_NESTING - 1, lexemes)?;
    if rest.is_empty() {
        function(alloc, front, body)
    } else {
        Err(Parse::NoTree)
    }
}

/// A declaration that ends the tokens.
pub(crate) fn declaration_unit(
    alloc: Global,
    bytes: &[u8],
    names: &Names,
    lexemes: &[Lexeme],
) -> Result<Boxed<Unit>, Parse>
    ensures { Gives (λ x. view_unit x) result (declaration_unit_at (named bytes.now names.now) (most_nesting - 1) lexemes.now) }
{
    let found = declaration(alloc, bytes, names, true, MOST_NESTING - 1, lexemes)?;
    if found.rest.is_empty() {
        Ok(build::declares(alloc, found.tree)?)
    } else {
        Err(Parse::NoTree)
    }
}

/// The unit that all of these lexemes are. The records of its nodes aren't set.
#[tactic(auto, unfolding(stk_grammar::specs::StatementReading::unit_within))]
pub(crate) fn unit_of(
    alloc: Global,
    bytes: &[u8],
    names: &Names,
    lexemes: &[Lexeme],
) -> Result<Boxed<Unit>, Parse>
    ensures { Gives (λ x. view_unit x) result (unit_at (named bytes.now names.now) lexemes.now) }
{
    if is_semicolon(lexemes) {
        return Ok(build::empty_unit(alloc)?);
    }
    match front(alloc, bytes, names, MOST_NESTING - 1, lexemes) {
        Ok(front) => definition(alloc, bytes, names, front.tree, front.rest),
        Err(Parse::NoTree) => declaration_unit(alloc, bytes, names, lexemes),
        Err(Parse::NoMemory) => Err(Parse::NoMemory),
    }
}

//! Array parts, and the declarators of members and of parameters.

ghost use Rattle.std.specs.Prelude.{◌≡◌, ◌+◌, ◌≤◌, suc, IfOk, length, map};
ghost use Rattle.stk_tree.specs.Nesting.{declarator_nesting, dimensions_nesting, most_nesting};
ghost use Rattle.stk_tree.specs.View.{dimensions, view_declarator, view_dimension};
ghost use Rattle.stk_grammar.specs.Reading.{dimensions_at};
ghost use Rattle.stk_grammar.specs.Stopped.{stopped_at};
ghost use Rattle.stk_grammar.specs.DeclarationReading.{array_declarator_at};
ghost use Rattle.stk_ctype.specs.Named.{named};
ghost use Rattle.stk_expr.specs.Gives.{Gives};

use crate::build;
use crate::fronts::declared_name_at;
use std::alloc::Global;
use stk_ctype::Names;
use stk_expr::{FoundDimensions, Parse};
use stk_grammar::stars_at;
use stk_tree::{Declr, Lexeme};

/// A declarator that was read, its nesting, and the tokens behind it.
#[derive(Drop)]
pub struct FoundDeclarator<'a> {
    pub declr: Declr,
    pub nesting: usize,
    pub rest: &'a [Lexeme],
}

/// Array parts in a row.
pub(crate) fn array_parts<'a>(
    alloc: Global,
    bytes: &[u8],
    names: &Names,
    room: usize,
    lexemes: &'a [Lexeme],
) -> Result<FoundDimensions<'a>, Parse>
    requires { room ≤ most_nesting }
    ensures value { Gives (λ x. (dimensions (map view_dimension x.list), x.rest.now)) result (dimensions_at (stopped_at (named bytes.now names.now) room) (suc (length lexemes.now)) lexemes.now) }
    ensures nesting { IfOk result (λ x. (x.nesting ≡ dimensions_nesting (dimensions (map view_dimension x.list))) × (x.nesting ≤ room + length lexemes.now)) }
{
    stk_expr::array_parts(alloc, bytes, names, room, lexemes)
}

/// `* .. [name] arrays`, of at most the nesting `room`; the name may be missing where `nameless` says so.
#[tactic(auto, unfolding(stk_grammar::specs::DeclarationReading::array_declarator_at))]
pub(crate) fn array_declarator<'a>(
    alloc: Global,
    bytes: &[u8],
    names: &Names,
    room: usize,
    nameless: bool,
    lexemes: &'a [Lexeme],
) -> Result<FoundDeclarator<'a>, Parse>
    requires { room ≤ most_nesting }
    ensures value { Gives (λ x. (view_declarator x.declr, x.rest.now)) result (array_declarator_at (named bytes.now names.now) room nameless lexemes.now) }
    ensures nesting { IfOk result (λ x. (x.nesting ≡ declarator_nesting (view_declarator x.declr)) × (x.nesting ≤ room)) }
{
    let (stars, rest) = stars_at(lexemes);
    let Some((name, rest)) = declared_name_at(bytes, names, nameless, rest) else {
        return Err(Parse::NoTree);
    };
    let found = array_parts(alloc, bytes, names, room, rest)?;
    let nesting = found.nesting + stars + 1;
    if nesting > room {
        return Err(Parse::NoTree);
    }
    let tail = build::arrays(found.list);
    Ok(FoundDeclarator {
        declr: build::uninitialised_declarator(stars as u32, name, tail),
        nesting,
        rest: found.rest,
    })
}

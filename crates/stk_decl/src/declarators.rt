//! Declarators (C11 6.7.6), and declarators with a comma between each two.

ghost use Rattle.std.specs.Prelude.{◌≡◌, ◌+◌, ◌^◌, ◌<◌, ◌≤◌, IfOk, length, map};
ghost use Rattle.stk_tree.specs.Nesting.{tail_nesting, most_nesting};
ghost use Rattle.stk_tree.specs.View.{declarators, view_declarator, view_tail};
ghost use Rattle.stk_grammar.specs.DeclarationReading.{declarator_at, declarators_at, declared_tail_at, function_declarator_at};
ghost use Rattle.stk_ctype.specs.Named.{named};
ghost use Rattle.stk_expr.specs.Gives.{Gives};
ghost use Rattle.stk_decl.specs.Places.{declarator_in};
ghost use Rattle.stk_decl.specs.Tails.{low_tail_at};

use crate::arrays::{array_declarator, array_parts};
use crate::build;
use crate::fronts::name_at;
use crate::initialisers::initial;
use crate::parameters::{FoundTail, parameter_tail};
use crate::turns::{Turn, declarator_turn};
use std::alloc::Global;
use stk_base::List;
use stk_ctype::Names;
use stk_expr::Parse;
use stk_grammar::{behind_left_paren, stars_at};
use stk_tree::{Declr, Lexeme, Tail};

/// Where declarators stand.
#[derive(Clone, Copy, Debug, PartialEq, Eq)]
pub enum DeclaratorScope {
    /// In a member of a `struct`.
    Member,
    /// In a block or a `for`.
    Local,
    /// At file scope.
    File,
}

/// What follows the name of a declarator: parameters only at file scope.
fn declared_tail<'a>(
    alloc: Global,
    bytes: &[u8],
    names: &Names,
    room: usize,
    file: bool,
    lexemes: &'a [Lexeme],
) -> Result<FoundTail<'a>, Parse>
    requires { room ≤ most_nesting }
    ensures value { Gives (λ x. (view_tail x.tail, x.rest.now)) result (declared_tail_at (named bytes.now names.now) room file lexemes.now) }
    ensures nesting { IfOk result (λ x. (x.nesting ≡ tail_nesting (view_tail x.tail)) × (x.nesting ≤ room + length lexemes.now)) }
{
    if let Some(inside) = behind_left_paren(lexemes) {
        if !file {
            return Err(Parse::NoTree);
        }
        return parameter_tail(alloc, bytes, names, room, inside);
    }
    let found = array_parts(alloc, bytes, names, room, lexemes)?;
    Ok(FoundTail {
        tail: build::arrays(found.list),
        nesting: found.nesting,
        rest: found.rest,
    })
}

/// What follows the name of a declarator that has so many stars, of at most the nesting `room` together with them.
fn low_tail<'a>(
    alloc: Global,
    bytes: &[u8],
    names: &Names,
    room: usize,
    file: bool,
    stars: usize,
    lexemes: &'a [Lexeme],
) -> Result<(Tail, &'a [Lexeme]), Parse>
    requires room { room ≤ most_nesting }
    requires few { stars < 2 ^ 62 }
    ensures value { Gives (λ x. (view_tail x.0, x.1.now)) result (low_tail_at (named bytes.now names.now) room file stars lexemes.now) }
    ensures low { IfOk result (λ x. tail_nesting (view_tail x.0) + stars ≤ room) }
{
    let found = declared_tail(alloc, bytes, names, room, file, lexemes)?;
    if found.nesting + stars > room {
        return Err(Parse::NoTree);
    }
    Ok((found.tail, found.rest))
}

/// A declarator with its initialiser, of at most the nesting `room`.
#[tactic(auto, unfolding(stk_grammar::specs::DeclarationReading::declarator_at))]
fn declarator<'a>(
    alloc: Global,
    bytes: &[u8],
    names: &Names,
    room: usize,
    file: bool,
    lexemes: &'a [Lexeme],
) -> Result<(Declr, &'a [Lexeme]), Parse>
    requires { room ≤ most_nesting }
    ensures { Gives (λ x. (view_declarator x.0, x.1.now)) result (declarator_at (named bytes.now names.now) room file lexemes.now) }
{
    if room == 0 {
        return Err(Parse::NoTree);
    }
    let inner = room - 1;
    let (stars, rest) = stars_at(lexemes);
    let Some((name, rest)) = name_at(bytes, names, rest) else {
        return Err(Parse::NoTree);
    };
    let (tail, rest) = low_tail(alloc, bytes, names, inner, file, stars, rest)?;
    let (init, rest) = initial(alloc, bytes, names, inner, rest)?;
    let declr = build::declarator(stars as u32, Some(name), tail, init);
    Ok((declr, rest))
}

/// The declarator of a function, of at most the nesting `room`: a name with parameters.
#[tactic(auto, unfolding(stk_grammar::specs::DeclarationReading::function_declarator_at))]
pub(crate) fn function_declarator<'a>(
    alloc: Global,
    bytes: &[u8],
    names: &Names,
    room: usize,
    lexemes: &'a [Lexeme],
) -> Result<(Declr, &'a [Lexeme]), Parse>
    requires { room ≤ most_nesting }
    ensures { Gives (λ x. (view_declarator x.0, x.1.now)) result (function_declarator_at (named bytes.now names.now) room lexemes.now) }
{
    if room == 0 {
        return Err(Parse::NoTree);
    }
    let inner = room - 1;
    let (stars, rest) = stars_at(lexemes);
    let Some((name, rest)) = name_at(bytes, names, rest) else {
        return Err(Parse::NoTree);
    };
    let Some(inside) = behind_left_paren(rest) else {
        return Err(Parse::NoTree);
    };
    let found = parameter_tail(alloc, bytes, names, inner, inside)?;
    if found.nesting + stars > inner {
        return Err(Parse::NoTree);
    }
    let declr = build::uninitialised_declarator(stars as u32, Some(name), found.tail);
    Ok((declr, found.rest))
}

/// A declarator as one stands at a place.
fn declarator_in<'a>(
    alloc: Global,
    bytes: &[u8],
    names: &Names,
    place: DeclaratorScope,
    room: usize,
    lexemes: &'a [Lexeme],
) -> Result<(Declr, &'a [Lexeme]), Parse>
    requires { room ≤ most_nesting }
    ensures { Gives (λ x. (view_declarator x.0, x.1.now)) result (declarator_in place (named bytes.now names.now) room lexemes.now) }
{
    match place {
        DeclaratorScope::Member => {
            let found = array_declarator(alloc, bytes, names, room, false, lexemes)?;
            Ok((found.declr, found.rest))
        }
        DeclaratorScope::Local => declarator(alloc, bytes, names, room, false, lexemes),
        DeclaratorScope::File => declarator(alloc, bytes, names, room, true, lexemes),
    }
}

/// One declarator or more, and the `;`. The bound is for the prover: each turn takes a token, so there are no more
/// turns than tokens.
#[tactic(auto, unfolding(stk_grammar::specs::DeclarationReading::declarators_at))]
pub(crate) fn declarators<'a>(
    alloc: Global,
    bytes: &[u8],
    names: &Names,
    place: DeclaratorScope,
    room: usize,
    lexemes: &'a [Lexeme],
) -> Result<(List<Declr>, &'a [Lexeme]), Parse>
    requires { room ≤ most_nesting }
    ensures { Gives (λ x. (declarators (map view_declarator x.0), x.1.now)) result (declarators_at (declarator_in place (named bytes.now names.now) room) lexemes.now) }
{
    let (first, mut rest) = declarator_in(alloc, bytes, names, place, room, lexemes)?;
    let mut list = Vec::new(alloc);
    list.push(first)?;
    for _turn in 0..rest.len() + 1 {
        let Some((turn, next)) = declarator_turn(rest) else {
            return Err(Parse::NoTree);
        };
        if let Turn::End(_) = turn {
            return Ok((List::from_vec(list), next));
        }
        let (found, behind) = declarator_in(alloc, bytes, names, place, room, next)?;
        list.push(found)?;
        rest = behind;
    }
    Err(Parse::NoTree)
}

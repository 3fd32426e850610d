//! Initialisers (C11 6.7.9).

ghost use Rattle.std.specs.Prelude.{◌≡◌, ◌+◌, ◌≤◌, ◌<◌, suc, IfOk, length, map, option_map};
ghost use Rattle.stk_tree.specs.Nesting.{designator_nesting, designators_nesting, maybe_initialiser_nesting, most_nesting};
ghost use Rattle.stk_tree.specs.View.{designators, items, view_designator, view_initialiser, view_item};
ghost use Rattle.stk_grammar.specs.DeclarationReading.{behind_path, designator_at, designators_at, initial_at, initialiser_at, item_at, items_at, path_at};
ghost use Rattle.stk_ctype.specs.Named.{named};
ghost use Rattle.stk_expr.specs.Gives.{Gives};
ghost use Rattle.stk_decl.specs.Given.{given_initialiser};

use crate::build;
use crate::turns::{Turn, brace_turn};
use std::alloc::Global;
use stk_base::List;
use stk_ctype::Names;
use stk_expr::{Parse, higher, stopped};
use stk_grammar::{
    begins_designator, behind_assign, behind_dot, behind_left_brace, behind_left_bracket,
    behind_right_brace, behind_right_bracket, word_at,
};
use stk_tree::{Desig, Init, Item, Lexeme, levels};

/// A designator that was read, its nesting, and the tokens behind it.
#[derive(Drop)]
struct FoundDesignator<'a> {
    part: Desig,
    nesting: usize,
    rest: &'a [Lexeme],
}

/// Designators that were read, how high they are, and the tokens behind them.
#[derive(Drop)]
struct FoundDesignators<'a> {
    list: List<Desig>,
    nesting: usize,
    rest: &'a [Lexeme],
}

/// A designator.
#[tactic(auto, unfolding(stk_grammar::specs::DeclarationReading::designator_at))]
fn designator<'a>(
    alloc: Global,
    bytes: &[u8],
    names: &Names,
    room: usize,
    lexemes: &'a [Lexeme],
) -> Result<FoundDesignator<'a>, Parse>
    requires { room ≤ most_nesting }
    ensures value { Gives (λ x. (view_designator x.part, x.rest.now)) result (designator_at (named bytes.now names.now) room lexemes.now) }
    ensures nesting { IfOk result (λ x. (x.nesting ≡ designator_nesting (view_designator x.part)) × (x.nesting ≤ room)) }
{
    if let Some(inside) = behind_dot(lexemes) {
        let Some((member, rest)) = word_at(inside) else {
            return Err(Parse::NoTree);
        };
        return Ok(FoundDesignator {
            part: build::dot(member),
            nesting: 0,
            rest,
        });
    }
    let Some(inside) = behind_left_bracket(lexemes) else {
        return Err(Parse::NoTree);
    };
    let found = stopped(alloc, bytes, names, room, levels::CONDITIONAL, inside)?;
    let Some(rest) = behind_right_bracket(found.rest) else {
        return Err(Parse::NoTree);
    };
    Ok(FoundDesignator {
        part: build::at(found.tree),
        nesting: found.nesting,
        rest,
    })
}

/// Designators in a row. The bound is for the prover: each turn takes a token, so there are no more turns than tokens.
fn designators<'a>(
    alloc: Global,
    bytes: &[u8],
    names: &Names,
    room: usize,
    lexemes: &'a [Lexeme],
) -> Result<FoundDesignators<'a>, Parse>
    requires { room ≤ most_nesting }
    ensures value { Gives (λ x. (designators (map view_designator x.list), x.rest.now)) result (designators_at (designator_at (named bytes.now names.now) room) (suc (length lexemes.now)) lexemes.now) }
    ensures nesting { IfOk result (λ x. x.nesting ≡ designators_nesting (designators (map view_designator x.list))) }
{
    let mut list = Vec::new(alloc);
    let mut nesting = 0;
    let mut rest = lexemes;
    for turn in 0..lexemes.len() + 1 {
        if !begins_designator(rest) {
            return Ok(FoundDesignators {
                list: List::from_vec(list),
                nesting,
                rest,
            });
        }
        let found = designator(alloc, bytes, names, room, rest)?;
        list.push(found.part)?;
        nesting = higher(nesting, found.nesting + turn + 1);
        rest = found.rest;
    }
    Err(Parse::NoTree)
}

/// The tokens behind the `=` that follows designators; all of them where there are no designators.
fn behind_path<'a>(path: &List<Desig>, lexemes: &'a [Lexeme]) -> Option<&'a [Lexeme]>
    ensures { option_map (λ x. x.now) result ≡ behind_path (designators (map view_designator path.now)) lexemes.now }
{
    match path.as_slice() {
        [] => Some(lexemes),
        [_, _rest @ ..] => behind_assign(lexemes),
    }
}

/// The designators of an item, with their `=`, of at most the nesting `room`.
#[tactic(auto, unfolding(stk_grammar::specs::DeclarationReading::path_at))]
fn path<'a>(
    alloc: Global,
    bytes: &[u8],
    names: &Names,
    room: usize,
    lexemes: &'a [Lexeme],
) -> Result<(List<Desig>, &'a [Lexeme]), Parse>
    requires { room ≤ most_nesting }
    ensures { Gives (λ x. (designators (map view_designator x.0), x.1.now)) result (path_at (named bytes.now names.now) room lexemes.now) }
{
    let found = designators(alloc, bytes, names, room, lexemes)?;
    if found.nesting > room {
        return Err(Parse::NoTree);
    }
    let Some(rest) = behind_path(&found.list, found.rest) else {
        return Err(Parse::NoTree);
    };
    Ok((found.list, rest))
}

/// An item of an initialiser's braces.
#[cycle(initialiser)]
fn item<'a>(
    alloc: Global,
    bytes: &[u8],
    names: &Names,
    room: usize,
    lexemes: &'a [Lexeme],
) -> Result<(Item, &'a [Lexeme]), Parse>
    requires { room < most_nesting }
    ensures { Gives (λ x. (view_item x.0, x.1.now)) result (item_at (path_at (named bytes.now names.now) room) (initialiser_at (named bytes.now names.now) room) lexemes.now) }
{
    let (path, rest) = path(alloc, bytes, names, room, lexemes)?;
    let (init, rest) = initialiser(alloc, bytes, names, room, rest)?;
    Ok((build::item(path, init), rest))
}

/// Items, whether a comma stands behind the last one, and the `}`. The bound is for the prover: each turn takes a
/// token, so there are no more turns than tokens.
#[cycle(initialiser)]
#[tactic(auto, unfolding(stk_grammar::specs::DeclarationReading::items_at))]
fn items<'a>(
    alloc: Global,
    bytes: &[u8],
    names: &Names,
    room: usize,
    lexemes: &'a [Lexeme],
) -> Result<(List<Item>, bool, &'a [Lexeme]), Parse>
    requires { room < most_nesting }
    ensures { Gives (λ x. ((items (map view_item x.0), x.1), x.2.now)) result (items_at (item_at (path_at (named bytes.now names.now) room) (initialiser_at (named bytes.now names.now) room)) lexemes.now) }
{
    if let Some(rest) = behind_right_brace(lexemes) {
        return Ok((List::empty(alloc), false, rest));
    }
    let (first, mut rest) = item(alloc, bytes, names, room, lexemes)?;
    let mut list = Vec::new(alloc);
    list.push(first)?;
    for _turn in 0..rest.len() + 1 {
        let Some((turn, next)) = brace_turn(rest) else {
            return Err(Parse::NoTree);
        };
        if let Turn::End(comma) = turn {
            return Ok((List::from_vec(list), comma, next));
        }
        let (found, behind) = item(alloc, bytes, names, room, next)?;
        list.push(found)?;
        rest = behind;
    }
    Err(Parse::NoTree)
}

/// An initialiser, of at most the nesting `room`.
#[cycle(initialiser)]
#[tactic(auto, unfolding(stk_grammar::specs::DeclarationReading::initialiser_at))]
pub(crate) fn initialiser<'a>(
    alloc: Global,
    bytes: &[u8],
    names: &Names,
    room: usize,
    lexemes: &'a [Lexeme],
) -> Result<(Init, &'a [Lexeme]), Parse>
    requires { room ≤ most_nesting }
    ensures { Gives (λ x. (view_initialiser x.0, x.1.now)) result (initialiser_at (named bytes.now names.now) room lexemes.now) }
{
    if room == 0 {
        return Err(Parse::NoTree);
    }
    if let Some(inside) = behind_left_brace(lexemes) {
        let (list, comma, rest) = items(alloc, bytes, names, room - 1, inside)?;
        return Ok((build::braces(list, comma), rest));
    }
    let found = stopped(alloc, bytes, names, room, levels::ASSIGNMENT, lexemes)?;
    Ok((build::plain(found.tree), found.rest))
}

/// The initialiser that may follow a declarator, with its `=`.
pub(crate) fn initial<'a>(
    alloc: Global,
    bytes: &[u8],
    names: &Names,
    room: usize,
    lexemes: &'a [Lexeme],
) -> Result<(Option<Init>, &'a [Lexeme]), Parse>
    requires { room ≤ most_nesting }
    ensures value { Gives (λ x. (given_initialiser x.0, x.1.now)) result (initial_at (named bytes.now names.now) room lexemes.now) }
    ensures low { IfOk result (λ x. maybe_initialiser_nesting (given_initialiser x.0) ≤ room) }
{
    let Some(next) = behind_assign(lexemes) else {
        return Ok((None, lexemes));
    };
    let (init, rest) = initialiser(alloc, bytes, names, room, next)?;
    Ok((Some(init), rest))
}

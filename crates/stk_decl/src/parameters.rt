//! The parameters of functions (C11 6.7.6.3).

ghost use Rattle.std.specs.Prelude.{◌≡◌, ◌≤◌, IfOk, map};
ghost use Rattle.stk_tree.specs.Nesting.{parameter_nesting, parameters_nesting, tail_nesting, most_nesting};
ghost use Rattle.stk_tree.specs.Syntax as s;
ghost use Rattle.stk_tree.specs.View.{parameters, view_parameter, view_tail};
ghost use Rattle.stk_grammar.specs.DeclarationReading.{more_parameters_at, parameter_at, parameter_tail_at};
ghost use Rattle.stk_ctype.specs.Named.{named};
ghost use Rattle.stk_expr.specs.Gives.{Gives};
ghost use Rattle.stk_decl.specs.Rows.{first_of, paired};

use crate::arrays::array_declarator;
use crate::build;
use crate::turns::{Turn, parameter_turn};
use std::alloc::Global;
use stk_base::List;
use stk_ctype::Names;
use stk_expr::{Parse, base, higher};
use stk_grammar::{behind_right_paren, behind_void};
use stk_tree::{Lexeme, Param, Tail};

/// A parameter that was read, its nesting, and the tokens behind it.
#[derive(Drop)]
struct FoundParameter<'a> {
    param: Param,
    nesting: usize,
    rest: &'a [Lexeme],
}

/// Parameters that were read, whether `, ...` stands behind them, their greatest nesting, and the tokens behind them.
#[derive(Drop)]
struct FoundParameters<'a> {
    list: List<Param>,
    more: bool,
    nesting: usize,
    rest: &'a [Lexeme],
}

/// What follows a declarator's name, how high it is, and the tokens behind it.
#[derive(Drop)]
pub struct FoundTail<'a> {
    pub tail: Tail,
    pub nesting: usize,
    pub rest: &'a [Lexeme],
}

/// A parameter, of at most the nesting `room`.
#[tactic(auto, unfolding(stk_grammar::specs::DeclarationReading::parameter_at))]
fn parameter<'a>(
    alloc: Global,
    bytes: &[u8],
    names: &Names,
    room: usize,
    lexemes: &'a [Lexeme],
) -> Result<FoundParameter<'a>, Parse>
    requires { room ≤ most_nesting }
    ensures value { Gives (λ x. (view_parameter x.param, x.rest.now)) result (parameter_at (named bytes.now names.now) room lexemes.now) }
    ensures nesting { IfOk result (λ x. (x.nesting ≡ parameter_nesting (view_parameter x.param)) × (x.nesting ≤ room)) }
{
    if room == 0 {
        return Err(Parse::NoTree);
    }
    let (form, rest) = base(alloc, bytes, names, lexemes)?;
    let found = array_declarator(alloc, bytes, names, room - 1, true, rest)?;
    Ok(FoundParameter {
        param: build::parameter(form, found.declr),
        nesting: found.nesting + 1,
        rest: found.rest,
    })
}

/// One parameter or more, whether `, ...` follows, and the `)`. The bound is for the prover: each turn takes a token,
/// so there are no more turns than tokens.
fn parameters<'a>(
    alloc: Global,
    bytes: &[u8],
    names: &Names,
    room: usize,
    lexemes: &'a [Lexeme],
) -> Result<FoundParameters<'a>, Parse>
    requires { room ≤ most_nesting }
    ensures value { Gives (λ x. ((parameters (map view_parameter x.list), x.more), x.rest.now)) result (first_of (paired s.then_parameter) (parameter_at (named bytes.now names.now) room) (more_parameters_at (parameter_at (named bytes.now names.now) room)) lexemes.now) }
    ensures nesting { IfOk result (λ x. (x.nesting ≡ parameters_nesting (parameters (map view_parameter x.list))) × (x.nesting ≤ room)) }
{
    let first = parameter(alloc, bytes, names, room, lexemes)?;
    let mut nesting = first.nesting;
    let mut rest = first.rest;
    let mut list = Vec::new(alloc);
    list.push(first.param)?;
    for _turn in 0..rest.len() + 1 {
        let Some((turn, next)) = parameter_turn(rest) else {
            return Err(Parse::NoTree);
        };
        if let Turn::End(more) = turn {
            return Ok(FoundParameters {
                list: List::from_vec(list),
                more,
                nesting,
                rest: next,
            });
        }
        let found = parameter(alloc, bytes, names, room, next)?;
        list.push(found.param)?;
        nesting = higher(nesting, found.nesting);
        rest = found.rest;
    }
    Err(Parse::NoTree)
}

/// What stands behind the `(` that follows a declarator's name.
#[tactic(auto, unfolding(stk_grammar::specs::DeclarationReading::parameter_tail_at))]
pub(crate) fn parameter_tail<'a>(
    alloc: Global,
    bytes: &[u8],
    names: &Names,
    room: usize,
    lexemes: &'a [Lexeme],
) -> Result<FoundTail<'a>, Parse>
    requires { room ≤ most_nesting }
    ensures value { Gives (λ x. (view_tail x.tail, x.rest.now)) result (parameter_tail_at (parameter_at (named bytes.now names.now) room) lexemes.now) }
    ensures nesting { IfOk result (λ x. (x.nesting ≡ tail_nesting (view_tail x.tail)) × (x.nesting ≤ room)) }
{
    if let Some(rest) = behind_right_paren(lexemes) {
        return Ok(FoundTail {
            tail: build::unspecified(),
            nesting: 0,
            rest,
        });
    }
    if let Some(rest) = behind_void(lexemes) {
        return Ok(FoundTail {
            tail: build::no_parameters(),
            nesting: 0,
            rest,
        });
    }
    let found = parameters(alloc, bytes, names, room, lexemes)?;
    Ok(FoundTail {
        tail: build::with_parameters(found.list, found.more),
        nesting: found.nesting,
        rest: found.rest,
    })
}

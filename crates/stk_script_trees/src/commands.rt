//! The readers of commands: each reads what its definition reads, until memory runs out.

ghost use Rattle.std.specs.Prelude.{◌≡◌, cond, map, None, Some, true};
ghost use Rattle.std.specs.Option.{option_map};
ghost use Rattle.stk_scripts.specs.Shown.{tokens_shown};
ghost use Rattle.stk_script_trees.specs.Commands.{declarations, definitions, logic_front, read_assert, read_declared, read_defined, read_end, read_named, read_sort};
ghost use Rattle.stk_script_trees.specs.Gives.{Gives};
ghost use Rattle.stk_script_trees.specs.View.{view_declared, view_defined, view_test};

use crate::fault::Fault;
use crate::fronts;
use crate::terms::{self, FoundTest};
use crate::tree::{Declared, Defined};
use std::alloc::Global;
use stk_base::List;
use stk_scripts::Token;

/// FoundDeclarations that were read, and the tokens behind them.
#[derive(Drop)]
pub(crate) struct FoundDeclarations<'a> {
    pub(crate) list: List<Declared>,
    pub(crate) rest: &'a [Token],
}

/// FoundDefinitions that were read, and the tokens behind them.
#[derive(Drop)]
pub(crate) struct FoundDefinitions<'a> {
    pub(crate) list: List<Defined>,
    pub(crate) rest: &'a [Token],
}

// A definition that was read, and the tokens behind it.
#[derive(Drop)]
struct FoundDefined<'a> {
    defined: Defined,
    rest: &'a [Token],
}

// The width of `(_ BitVec W)`, and the tokens behind it.
fn sort<'a>(bytes: &[u8], tokens: &'a [Token]) -> Option<(u128, &'a [Token])>
    ensures { option_map (λ x. (x.0, tokens_shown bytes.now x.1.now)) result ≡ read_sort (tokens_shown bytes.now tokens.now) }
{
    let behind = fronts::command(bytes, b"_", tokens)?;
    let inside = fronts::expected(bytes, b"BitVec", behind)?;
    let (width, rest) = fronts::number(bytes, inside)?;
    match rest.split_first()? {
        (Token::Closing, rest) => Some((width, rest)),
        _ => None,
    }
}

// `NAME () SORT`, and the tokens behind it.
fn named<'a>(bytes: &[u8], tokens: &'a [Token]) -> Option<(Declared, &'a [Token])>
    ensures { option_map (λ x. (view_declared bytes.now x.0, tokens_shown bytes.now x.1.now)) result ≡ read_named (tokens_shown bytes.now tokens.now) }
{
    let [Token::Word(name), Token::Opening, Token::Closing, rest @ ..] = tokens else {
        return None;
    };
    let (width, rest) = sort(bytes, rest)?;
    Some((Declared { name: *name, width }, rest))
}

// A declaration behind `(declare-fun`, and the tokens behind it.
fn declared<'a>(bytes: &[u8], tokens: &'a [Token]) -> Option<(Declared, &'a [Token])>
    ensures { option_map (λ x. (view_declared bytes.now x.0, tokens_shown bytes.now x.1.now)) result ≡ read_declared (tokens_shown bytes.now tokens.now) }
{
    let (declared, rest) = named(bytes, tokens)?;
    match rest.split_first()? {
        (Token::Closing, rest) => Some((declared, rest)),
        _ => None,
    }
}

// A definition behind `(define-fun`, and the tokens behind it.
fn defined<'a>(
    alloc: Global,
    bytes: &[u8],
    most: usize,
    tokens: &'a [Token],
) -> Result<FoundDefined<'a>, Fault>
    ensures { Gives (λ x. (view_defined bytes.now x.defined, tokens_shown bytes.now x.rest.now)) result (read_defined most (tokens_shown bytes.now tokens.now)) }
{
    let Some((declared, rest)) = named(bytes, tokens) else {
        return Err(Fault::Bad);
    };
    let body = terms::term(alloc, bytes, most, rest)?;
    let Some((Token::Closing, rest)) = body.rest.split_first() else {
        return Err(Fault::Bad);
    };
    Ok(FoundDefined {
        defined: Defined {
            name: declared.name,
            width: declared.width,
            body: body.tree,
        },
        rest,
    })
}

/// The declarations at the front, and the tokens behind them.
pub(crate) fn declarations<'a>(
    alloc: Global,
    bytes: &[u8],
    tokens: &'a [Token],
) -> Result<FoundDeclarations<'a>, Fault>
    ensures { Gives (λ x. (map (view_declared bytes.now) x.list, tokens_shown bytes.now x.rest.now)) result (declarations (tokens_shown bytes.now tokens.now)) }
{
    let mut list = Vec::new(alloc);
    let mut rest = tokens;
    while let Some(behind) = fronts::command(bytes, b"declare-fun", rest) {
        let Some((found, next)) = declared(bytes, behind) else {
            return Err(Fault::Bad);
        };
        list.push(found)?;
        rest = next;
    }
    Ok(FoundDeclarations {
        list: List::from_vec(list),
        rest,
    })
}

/// The definitions at the front, whose terms are at most so deep, and the tokens behind them.
pub(crate) fn definitions<'a>(
    alloc: Global,
    bytes: &[u8],
    most: usize,
    tokens: &'a [Token],
) -> Result<FoundDefinitions<'a>, Fault>
    ensures { Gives (λ x. (map (view_defined bytes.now) x.list, tokens_shown bytes.now x.rest.now)) result (definitions most (tokens_shown bytes.now tokens.now)) }
{
    let mut list = Vec::new(alloc);
    let mut rest = tokens;
    while let Some(behind) = fronts::command(bytes, b"define-fun", rest) {
        let found = defined(alloc, bytes, most, behind)?;
        list.push(found.defined)?;
        rest = found.rest;
    }
    Ok(FoundDefinitions {
        list: List::from_vec(list),
        rest,
    })
}

/// The tokens behind `(set-logic QF_BV)`.
pub(crate) fn logic<'a>(bytes: &[u8], tokens: &'a [Token]) -> Option<&'a [Token]>
    ensures { option_map (λ rest. tokens_shown bytes.now rest.now) result ≡ logic_front (tokens_shown bytes.now tokens.now) }
{
    let behind = fronts::command(bytes, b"set-logic", tokens)?;
    match fronts::expected(bytes, b"QF_BV", behind)?.split_first()? {
        (Token::Closing, rest) => Some(rest),
        _ => None,
    }
}

/// The comparison of `(assert TEST)`, whose terms are less deep, and the tokens behind it.
pub(crate) fn assertion<'a>(
    alloc: Global,
    bytes: &[u8],
    most: usize,
    tokens: &'a [Token],
) -> Result<FoundTest<'a>, Fault>
    ensures { Gives (λ x. (view_test bytes.now x.test, tokens_shown bytes.now x.rest.now)) result (read_assert most (tokens_shown bytes.now tokens.now)) }
{
    let Some(behind) = fronts::command(bytes, b"assert", tokens) else {
        return Err(Fault::Bad);
    };
    let found = terms::test(alloc, bytes, most, behind)?;
    let Some((Token::Closing, rest)) = found.rest.split_first() else {
        return Err(Fault::Bad);
    };
    Ok(FoundTest {
        test: found.test,
        rest,
    })
}

/// Whether `(check-sat)` stands there and nothing behind it.
pub(crate) fn ends(bytes: &[u8], tokens: &[Token]) -> bool
    ensures { cond result (Some true) None ≡ read_end (tokens_shown bytes.now tokens.now) }
{
    match fronts::command(bytes, b"check-sat", tokens) {
        Some([Token::Closing]) => true,
        _ => false,
    }
}

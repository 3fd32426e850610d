//! The readers of terms: each reads what its definition reads, until memory runs out.
//!
//! They call one another no deeper than they are told.

ghost use Rattle.std.specs.Prelude.{◌≡◌};
ghost use Rattle.stk_scripts.specs.Syntax.{joined, one_of, two_of};
ghost use Rattle.stk_scripts.specs.Shown.{tokens_shown};
ghost use Rattle.stk_scripts.specs.Reading.{choice_in, headed, indexed, one_operand, opened, read_literal, read_term, read_test, two_operands};
ghost use Rattle.stk_script_trees.specs.Fronts.{paired, same};
ghost use Rattle.stk_script_trees.specs.Gives.{Gives};
ghost use Rattle.stk_script_trees.specs.Heads.{head_shown, index_shown};
ghost use Rattle.stk_script_trees.specs.View.{view_expr, view_test};

use crate::fault::Fault;
use crate::heads::{Head, Index, head_of};
use crate::tree::{Expr, Test};
use crate::{build, fronts};
use std::alloc::Global;
use stk_base::Boxed;
use stk_scripts::{BinaryOp, ExtendOp, Token, UnaryOp};

/// A term that was read, and the tokens behind it.
#[derive(Drop)]
pub(crate) struct Found<'a> {
    pub(crate) tree: Boxed<Expr>,
    pub(crate) rest: &'a [Token],
}

/// A comparison that was read, and the tokens behind it.
#[derive(Drop)]
pub(crate) struct FoundTest<'a> {
    pub(crate) test: Test,
    pub(crate) rest: &'a [Token],
}

// Two terms that were read, and the tokens behind their `)`.
#[derive(Drop)]
struct Both<'a> {
    left: Boxed<Expr>,
    right: Boxed<Expr>,
    rest: &'a [Token],
}

/// The term at the front, at most so deep.
#[cycle(reader)]
#[tactic(auto, unfolding(stk_scripts::specs::Reading::read_term))]
pub(crate) fn term<'a>(
    alloc: Global,
    bytes: &[u8],
    room: usize,
    tokens: &'a [Token],
) -> Result<Found<'a>, Fault>
    ensures { Gives (λ x. (view_expr bytes.now x.tree, tokens_shown bytes.now x.rest.now)) result (read_term room (tokens_shown bytes.now tokens.now)) }
{
    if room == 0 {
        return Err(Fault::Bad);
    }
    let inner = room - 1;
    match tokens.split_first() {
        Some((Token::Opening, rest)) => opened(alloc, bytes, inner, rest),
        Some((Token::Word(at), rest)) => Ok(Found {
            tree: build::named(alloc, *at)?,
            rest,
        }),
        _ => Err(Fault::Bad),
    }
}

/// The comparison at the front, at most so deep.
#[cycle(reader)]
#[tactic(auto, using(crate::proofs::Words::two_by, crate::proofs::Words::two_none), unfolding(stk_scripts::specs::Reading::read_test))]
pub(crate) fn test<'a>(
    alloc: Global,
    bytes: &[u8],
    room: usize,
    tokens: &'a [Token],
) -> Result<FoundTest<'a>, Fault>
    ensures { Gives (λ x. (view_test bytes.now x.test, tokens_shown bytes.now x.rest.now)) result (read_test room (tokens_shown bytes.now tokens.now)) }
{
    if room == 0 {
        return Err(Fault::Bad);
    }
    let Some((Token::Opening, rest)) = tokens.split_first() else {
        return Err(Fault::Bad);
    };
    let Some((op, rest)) = fronts::test(bytes, rest) else {
        return Err(Fault::Bad);
    };
    let found = operands(alloc, bytes, room - 1, rest)?;
    Ok(FoundTest {
        test: Test {
            op,
            left: found.left,
            right: found.right,
        },
        rest: found.rest,
    })
}

// Behind `(`.
#[cycle(reader)]
fn opened<'a>(
    alloc: Global,
    bytes: &[u8],
    inner: usize,
    tokens: &'a [Token],
) -> Result<Found<'a>, Fault>
    ensures { Gives (λ x. (view_expr bytes.now x.tree, tokens_shown bytes.now x.rest.now)) result (opened (read_test inner) (read_term inner) (tokens_shown bytes.now tokens.now)) }
{
    match tokens.split_first() {
        Some((Token::Opening, rest)) => {
            let Some(rest) = fronts::underscore(bytes, rest) else {
                return Err(Fault::Bad);
            };
            let Some((index, rest)) = fronts::index_front(bytes, rest) else {
                return Err(Fault::Bad);
            };
            indexed(alloc, bytes, inner, index, rest)
        }
        Some((Token::Word(at), rest)) => {
            let Some(head) = head_of(at.text(bytes)) else {
                return Err(Fault::Bad);
            };
            headed(alloc, bytes, inner, head, rest)
        }
        _ => Err(Fault::Bad),
    }
}

// Behind a head.
#[cycle(reader)]
fn headed<'a>(
    alloc: Global,
    bytes: &[u8],
    inner: usize,
    head: Head,
    tokens: &'a [Token],
) -> Result<Found<'a>, Fault>
    ensures { Gives (λ x. (view_expr bytes.now x.tree, tokens_shown bytes.now x.rest.now)) result (headed (read_test inner) (read_term inner) (head_shown head) (tokens_shown bytes.now tokens.now)) }
{
    match head {
        Head::Literal => literal(alloc, bytes, tokens),
        Head::Unary(op) => unary(alloc, bytes, inner, op, tokens),
        Head::Binary(op) => binary(alloc, bytes, inner, op, tokens),
        Head::Concat => concat(alloc, bytes, inner, tokens),
        Head::Ite => choice(alloc, bytes, inner, tokens),
    }
}

// A number of a width, behind `(_`.
fn literal<'a>(alloc: Global, bytes: &[u8], tokens: &'a [Token]) -> Result<Found<'a>, Fault>
    ensures { Gives (λ x. (view_expr bytes.now x.tree, tokens_shown bytes.now x.rest.now)) result (read_literal (tokens_shown bytes.now tokens.now)) }
{
    let Some((width, number, rest)) = fronts::literal(bytes, tokens) else {
        return Err(Fault::Bad);
    };
    Ok(Found {
        tree: build::literal(alloc, width, number)?,
        rest,
    })
}

// An operator on one term, behind its head.
#[cycle(reader)]
#[tactic(auto, using(crate::proofs::Words::one_by, crate::proofs::Words::one_none))]
fn unary<'a>(
    alloc: Global,
    bytes: &[u8],
    inner: usize,
    op: UnaryOp,
    tokens: &'a [Token],
) -> Result<Found<'a>, Fault>
    ensures { Gives (λ x. (view_expr bytes.now x.tree, tokens_shown bytes.now x.rest.now)) result (one_operand (read_term inner) (one_of op) (tokens_shown bytes.now tokens.now)) }
{
    let found = operand(alloc, bytes, inner, tokens)?;
    Ok(Found {
        tree: build::one(alloc, op, found.tree)?,
        rest: found.rest,
    })
}

// An operator on two terms, behind its head.
#[cycle(reader)]
#[tactic(auto, using(crate::proofs::Words::two_by, crate::proofs::Words::two_none))]
fn binary<'a>(
    alloc: Global,
    bytes: &[u8],
    inner: usize,
    op: BinaryOp,
    tokens: &'a [Token],
) -> Result<Found<'a>, Fault>
    ensures { Gives (λ x. (view_expr bytes.now x.tree, tokens_shown bytes.now x.rest.now)) result (two_operands (read_term inner) (two_of op) (tokens_shown bytes.now tokens.now)) }
{
    let found = operands(alloc, bytes, inner, tokens)?;
    Ok(Found {
        tree: build::two(alloc, op, found.left, found.right)?,
        rest: found.rest,
    })
}

// `concat`, behind its head.
#[cycle(reader)]
#[tactic(auto, using(crate::proofs::Words::two_by, crate::proofs::Words::two_none))]
fn concat<'a>(
    alloc: Global,
    bytes: &[u8],
    inner: usize,
    tokens: &'a [Token],
) -> Result<Found<'a>, Fault>
    ensures { Gives (λ x. (view_expr bytes.now x.tree, tokens_shown bytes.now x.rest.now)) result (two_operands (read_term inner) joined (tokens_shown bytes.now tokens.now)) }
{
    let found = operands(alloc, bytes, inner, tokens)?;
    Ok(Found {
        tree: build::joined(alloc, found.left, found.right)?,
        rest: found.rest,
    })
}

// `ite`, behind its head.
#[cycle(reader)]
#[tactic(auto, using(crate::proofs::Words::two_by, crate::proofs::Words::two_none))]
fn choice<'a>(
    alloc: Global,
    bytes: &[u8],
    inner: usize,
    tokens: &'a [Token],
) -> Result<Found<'a>, Fault>
    ensures { Gives (λ x. (view_expr bytes.now x.tree, tokens_shown bytes.now x.rest.now)) result (choice_in (read_test inner) (read_term inner) (tokens_shown bytes.now tokens.now)) }
{
    let compared = test(alloc, bytes, inner, tokens)?;
    let found = operands(alloc, bytes, inner, compared.rest)?;
    Ok(Found {
        tree: build::chosen(alloc, compared.test, found.left, found.right)?,
        rest: found.rest,
    })
}

// Behind `((_` and a word.
#[cycle(reader)]
#[tactic(auto, using(crate::proofs::Words::cut_read, crate::proofs::Words::no_bounds, crate::proofs::Words::widened_read, crate::proofs::Words::no_count, crate::proofs::Words::one_by, crate::proofs::Words::one_none))]
fn indexed<'a>(
    alloc: Global,
    bytes: &[u8],
    inner: usize,
    index: Index,
    tokens: &'a [Token],
) -> Result<Found<'a>, Fault>
    ensures { Gives (λ x. (view_expr bytes.now x.tree, tokens_shown bytes.now x.rest.now)) result (indexed (read_term inner) (index_shown index) (tokens_shown bytes.now tokens.now)) }
{
    match index {
        Index::Extract => {
            let Some((high, low, rest)) = fronts::bounds(bytes, tokens) else {
                return Err(Fault::Bad);
            };
            let found = operand(alloc, bytes, inner, rest)?;
            Ok(Found {
                tree: build::cut(alloc, high, low, found.tree)?,
                rest: found.rest,
            })
        }
        Index::Extend(op) => {
            let Some((more, rest)) = fronts::count(bytes, tokens) else {
                return Err(Fault::Bad);
            };
            let found = operand(alloc, bytes, inner, rest)?;
            Ok(Found {
                tree: build::widened(alloc, op, more, found.tree)?,
                rest: found.rest,
            })
        }
    }
}

// One term and `)`.
#[cycle(reader)]
fn operand<'a>(
    alloc: Global,
    bytes: &[u8],
    inner: usize,
    tokens: &'a [Token],
) -> Result<Found<'a>, Fault>
    ensures { Gives (λ x. (view_expr bytes.now x.tree, tokens_shown bytes.now x.rest.now)) result (one_operand (read_term inner) same (tokens_shown bytes.now tokens.now)) }
{
    let found = term(alloc, bytes, inner, tokens)?;
    let Some((Token::Closing, rest)) = found.rest.split_first() else {
        return Err(Fault::Bad);
    };
    Ok(Found {
        tree: found.tree,
        rest,
    })
}

// Two terms and `)`.
#[cycle(reader)]
fn operands<'a>(
    alloc: Global,
    bytes: &[u8],
    inner: usize,
    tokens: &'a [Token],
) -> Result<Both<'a>, Fault>
    ensures { Gives (λ x. ((view_expr bytes.now x.left, view_expr bytes.now x.right), tokens_shown bytes.now x.rest.now)) result (two_operands (read_term inner) paired (tokens_shown bytes.now tokens.now)) }
{
    let left = term(alloc, bytes, inner, tokens)?;
    let right = term(alloc, bytes, inner, left.rest)?;
    let Some((Token::Closing, rest)) = right.rest.split_first() else {
        return Err(Fault::Bad);
    };
    Ok(Both {
        left: left.tree,
        right: right.tree,
        rest,
    })
}

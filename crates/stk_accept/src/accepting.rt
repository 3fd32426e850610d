//! Reading a unit and declaring what it declares.

ghost use Rattle.std.specs.Prelude.{◌≡◌, ◌≤◌, None, IfOk, IfSome, OnErr, OnOk, length};
ghost use Rattle.stk_base.specs.Limits.{most_bytes};
ghost use Rattle.stk_tree.specs.Syntax.{UnitTree};
ghost use Rattle.stk_tree.specs.View.{view_unit};
ghost use Rattle.stk_nodes.specs.Rows.{unit_row};
ghost use Rattle.stk_accept.specs.Accepting.{beginning, IsUnitOf, IsHeadOf, IsTree, IsHeadTree, IsAnswered, Leaves, LeavesHead};

use std::alloc::Global;
use stk_base::{Boxed, NoMemory};
use stk_ctype::Names;
use stk_declare::declare;
use stk_expr::Parse;
use stk_lex::Token;
use stk_nodes::unit_nodes;
use stk_stmt::{head, unit};
use stk_tree::{Node, Unit};
use stk_type_rules::Untyped;

/// Why a unit isn't accepted: no tree is its tokens; or a rule, by its number, refuses the node that begins at the byte
/// `at`, the first one that any rule refuses, by the lowest rule that does.
#[derive(Clone, Copy, Debug, PartialEq, Eq)]
pub enum Refusal {
    NoTree,
    Rule { at: u32, rule: u8 },
}

/// What a unit is: accepted, as a tree whose nodes are numbered and placed; or refused.
#[derive(Drop)]
pub enum Accepted {
    Tree(Boxed<Unit>),
    Refused(Refusal),
}

// Where the node of this number begins.
fn beginning(nodes: &[Node], number: u32) -> u32
    ensures { result ≡ beginning nodes.now number }
{
    match nodes.get(number as usize) {
        Some(node) => node.span.from,
        None => 0,
    }
}

/// The byte at which the node of this number begins in a unit that is laid out; 0 where there is no such node.
pub fn place_of(alloc: Global, unit: &Unit, number: u32) -> Result<u32, NoMemory>
    ensures { IfOk result (λ at. at ≡ beginning (unit_row (view_unit unit.now)) number) }
{
    let nodes = unit_nodes(alloc, unit)?;
    Ok(beginning(nodes.as_slice(), number))
}

// The unit that tokens are, its nodes numbered and placed; `None` exactly where no tree is these tokens.
fn tree_of(
    alloc: Global,
    bytes: &[u8],
    tokens: &[Token],
    names: &Names,
) -> Result<Option<Boxed<Unit>>, NoMemory>
    requires { length tokens.now ≤ most_bytes }
    ensures found { IfOk result (λ found. IfSome found (λ unit. IsTree bytes.now names.now tokens.now (view_unit unit))) }
    ensures none { IfOk result (λ found. found ≡ None → (u : UnitTree) → IsUnitOf bytes.now names.now tokens.now u → ⊥) }
{
    match unit(alloc, bytes, tokens, names) {
        Ok(unit) => Ok(Some(unit)),
        Err(Parse::NoTree) => Ok(None),
        Err(Parse::NoMemory) => Err(NoMemory),
    }
}

// The declaration that tokens are without its `;`; `None` exactly where they are none.
fn head_of(
    alloc: Global,
    bytes: &[u8],
    tokens: &[Token],
    names: &Names,
) -> Result<Option<Boxed<Unit>>, NoMemory>
    requires { length tokens.now ≤ most_bytes }
    ensures found { IfOk result (λ found. IfSome found (λ unit. IsHeadTree bytes.now names.now tokens.now (view_unit unit))) }
    ensures none { IfOk result (λ found. found ≡ None → (u : UnitTree) → IsHeadOf bytes.now names.now tokens.now u → ⊥) }
{
    match head(alloc, bytes, tokens, names) {
        Ok(unit) => Ok(Some(unit)),
        Err(Parse::NoTree) => Ok(None),
        Err(Parse::NoMemory) => Err(NoMemory),
    }
}

// Declares what the tokens before a body declare as a declaration, where that is accepted.
fn leave_head(
    alloc: Global,
    bytes: &[u8],
    mark: bool,
    tokens: &[Token],
    names: &mut Names,
) -> Result<(), NoMemory>
    requires { length tokens.now ≤ most_bytes }
    ensures leaves { OnOk result (LeavesHead bytes.now mark names.old tokens.now names.new) }
    ensures kept { OnErr result (names.new ≡ names.old) }
{
    let found = head_of(alloc, bytes, tokens, names)?;
    let Some(unit) = &found else {
        return Ok(());
    };
    match declare(alloc, bytes, unit.get(), mark, names) {
        Ok(()) => Ok(()),
        Err(Untyped::Rule { node: _, rule: _ }) => Ok(()),
        Err(Untyped::NoMemory) => Err(NoMemory),
    }
}

// Declares what a unit that isn't accepted leaves in force.
fn leave(
    alloc: Global,
    bytes: &[u8],
    mark: bool,
    tokens: &[Token],
    body: Option<usize>,
    names: &mut Names,
) -> Result<(), NoMemory>
    requires { length tokens.now ≤ most_bytes }
    ensures leaves { OnOk result (Leaves bytes.now mark names.old tokens.now body names.new) }
    ensures kept { OnErr result (names.new ≡ names.old) }
{
    match body {
        None => Ok(()),
        Some(body) => {
            let (front, _) = tokens.split_at(body.min(tokens.len()));
            leave_head(alloc, bytes, mark, front, names)
        }
    }
}

/// Reads a unit of the input and declares what it declares (C11 6.7, 6.9). `tokens` are those of the unit, at most
/// 16,777,216; `body` says how many of them stand before the body of a function, where one was found; `mark` that
/// the unit is marked as one of functions that don't return.
///
/// `Tree` is the unit, which is accepted, and the names are those that it leaves: what a declaration declares, or the
/// head of a function. `Refused` says why it isn't accepted. The names then stay as they were, but for a unit with a
/// body: what the tokens before it declare as a declaration holds where that is accepted. The only other answer is want
/// of memory, and the names are then as they were.
pub fn accept(
    alloc: Global,
    bytes: &[u8],
    mark: bool,
    tokens: &[Token],
    body: Option<usize>,
    names: &mut Names,
) -> Result<Accepted, NoMemory>
    requires { length tokens.now ≤ most_bytes }
    ensures answered { IfOk result (λ a. IsAnswered bytes.now mark names.old tokens.now body a names.new) }
    ensures kept { OnErr result (names.new ≡ names.old) }
{
    let Some(unit) = tree_of(alloc, bytes, tokens, names)? else {
        leave(alloc, bytes, mark, tokens, body, names)?;
        return Ok(Accepted::Refused(Refusal::NoTree));
    };
    match declare(alloc, bytes, unit.get(), mark, names) {
        Ok(()) => Ok(Accepted::Tree(unit)),
        Err(Untyped::Rule { node, rule }) => {
            let at = place_of(alloc, unit.get(), node)?;
            leave(alloc, bytes, mark, tokens, body, names)?;
            Ok(Accepted::Refused(Refusal::Rule { at, rule }))
        }
        Err(Untyped::NoMemory) => Err(NoMemory),
    }
}

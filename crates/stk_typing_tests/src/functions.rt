//! What is said of functions.

ghost use Rattle.std.specs.Prelude.{◌<◌, ◌^◌, IfOk, IsTrue};
ghost use Rattle.stk_tree.specs.Nodes.{unit_nodes};
ghost use Rattle.stk_tree.specs.View.{view_unit};
ghost use Rattle.std.specs.Option.{is_some};

use crate::function_rows::{DECLARED, EXPRESSIONS, FIRST, STATEMENTS};
use crate::tables::{EACH_LINE, Says, add, add_number, check};
use std::alloc::Global;
use stk_accept::{Accepted, Refusal, accept};
use stk_base::{MOST_BYTES, NoMemory};
use stk_ctype::Names;
use stk_lex::{cut, lex, skim};
use stk_nodes::unit_nodes;
use stk_tree::{Node, Unit};
use stk_typed::{Untyped, typed_of};

/// What is said of a function: that it has no tree, that it is accepted, that a rule refuses a node that begins at a
/// byte, or that it has so many nodes.
#[derive(Clone, Copy, Debug, PartialEq, Eq)]
enum Said {
    Nothing,
    Accepted,
    Refused(u32, u8),
    Many(u32),
}

// The nodes of a unit, where there are fewer than 2^32.
fn nodes_of(alloc: Global, unit: &Unit) -> Result<Option<Vec<Node>>, NoMemory>
    ensures { IfOk result (λ x. IsTrue (is_some x) → unit_nodes (view_unit unit.now) < 2 ^ 32) }
{
    let nodes = unit_nodes(alloc, unit)?;
    if nodes.len() >= 4_294_967_296 {
        return Ok(None);
    }
    Ok(Some(nodes))
}

// What typing says of a unit.
fn said_of(alloc: Global, bytes: &[u8], unit: &Unit, names: &Names) -> Result<Said, NoMemory> {
    let Some(nodes) = nodes_of(alloc, unit)? else {
        return Ok(Said::Nothing);
    };
    match typed_of(alloc, bytes, unit, names) {
        Ok(_) => Ok(Said::Accepted),
        Err(Untyped::Rule { node, rule }) => match nodes.get(node as usize) {
            Some(at) => Ok(Said::Refused(at.span.from, rule)),
            None => Ok(Said::Nothing),
        },
        Err(Untyped::Nodes { count }) => Ok(Said::Many(count)),
        Err(Untyped::NoMemory) => Err(NoMemory),
    }
}

// What is said of the last unit of a text.
fn last_said(alloc: Global, text: &[u8]) -> Result<Said, NoMemory> {
    let mut last = Said::Nothing;
    if text.len() as u64 > MOST_BYTES {
        return Ok(last);
    }
    let tokens = lex(alloc, text)?;
    let skimmed = skim(alloc, text, tokens.as_slice())?;
    let pieces = cut(alloc, text, &skimmed)?;
    let kept = skimmed.tokens.as_slice();
    let mut names = Names::new(alloc);
    for piece in pieces.as_slice() {
        let Some(unit) = kept.get(piece.from as usize..piece.to as usize) else {
            continue;
        };
        let body = piece.body.map(|at| at.saturating_sub(piece.from) as usize);
        last = match accept(alloc, text, piece.no_return, unit, body, &mut names)? {
            Accepted::Tree(tree) => said_of(alloc, text, tree.get(), &names)?,
            Accepted::Refused(Refusal::NoTree) => Said::Nothing,
            Accepted::Refused(Refusal::Rule { at, rule }) => Said::Refused(at, rule),
        };
    }
    Ok(last)
}

// A text behind the declarations, without its mark, and where the mark stands.
fn marked(alloc: Global, text: &[u8]) -> Result<(Vec<u8>, u32), NoMemory> {
    let mut whole = Vec::from_slice(alloc, FIRST.as_bytes())?;
    let mut place = 0;
    for byte in text {
        if *byte == b'@' {
            place = u32::try_from(whole.len()).unwrap_or(u32::MAX);
        } else {
            whole.push(*byte)?;
        }
    }
    Ok((whole, place))
}

// Adds what is said of a function, and where, if that isn't at the mark.
fn add_said(said: Said, mark: u32, out: &mut Vec<u8>) {
    match said {
        Said::Nothing => add(out, b" no tree"),
        Said::Accepted => add(out, b" accepted"),
        Said::Refused(at, rule) => {
            add_number(out, b" rule ", i128::from(rule));
            if at != mark {
                add_number(out, b" at ", i128::from(at));
            }
        }
        Said::Many(count) => add_number(out, b" nodes ", i128::from(count)),
    }
}

// What is said of the function that a text with a mark is, and where the mark stands.
fn marked_said(alloc: Global, text: &[u8]) -> Result<(Said, u32), NoMemory> {
    let (whole, mark) = marked(alloc, text)?;
    let said = last_said(alloc, whole.as_slice())?;
    Ok((said, mark))
}

struct Functions;

impl Says for Functions {
    fn say(alloc: Global, text: &str, out: &mut Vec<u8>) {
        match marked_said(alloc, text.as_bytes()) {
            Ok((said, mark)) => add_said(said, mark, out),
            Err(_) => add(out, b" no memory"),
        }
    }
}

#[test]
fn names_and_objects_have_their_rules(rt: HostRuntime) {
    check::<Functions>(&rt, rt.alloc(), DECLARED, EACH_LINE, 51);
}

#[test]
fn expressions_have_their_rules(rt: HostRuntime) {
    check::<Functions>(&rt, rt.alloc(), EXPRESSIONS, EACH_LINE, 45);
}

#[test]
fn statements_have_their_rules(rt: HostRuntime) {
    check::<Functions>(&rt, rt.alloc(), STATEMENTS, EACH_LINE, 47);
}

// A function whose body is a text, and so many empty statements.
fn repeated(alloc: Global, text: &str, times: usize) -> Result<Vec<u8>, NoMemory> {
    let mut whole = Vec::from_slice(alloc, text.as_bytes())?;
    for _turn in 0..times {
        whole.push(b';')?;
    }
    whole.push(b'}')?;
    Ok(whole)
}

// What is said of a text with so many empty statements behind it.
fn repeated_said(alloc: Global, text: &str, times: usize) -> Result<Said, NoMemory> {
    let whole = repeated(alloc, text, times)?;
    last_said(alloc, whole.as_slice())
}

// A function without parameters has a base, a declarator, a block and itself as nodes, and one for each `;` in the
// block.
#[test]
fn a_function_has_at_most_20000_nodes(rt: HostRuntime) {
    let alloc = rt.alloc();
    assert!(rt; repeated_said(alloc, "void f(void) {", 19_996) == Ok(Said::Accepted));
    assert!(rt; repeated_said(alloc, "void f(void) {", 19_997) == Ok(Said::Many(20_001)));
    assert!(rt; repeated_said(alloc, "void f(void) { x", 19_996) == Ok(Said::Many(20_001)));
}

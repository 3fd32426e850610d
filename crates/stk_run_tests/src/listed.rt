//! What is listed of functions.

use crate::facts::{Facts, facts_of};
use crate::listed_rows::Listed;
use crate::{listed_memory_rows, listed_rows, worked_rows};
use std::alloc::Global;
use std::process::Abort;
use std::test::Fail;
use stk_accept::{Accepted, accept};
use stk_base::{MOST_BYTES, NoMemory};
use stk_ctype::Names;
use stk_lex::{Places, cut, lex, skim};

// What is listed of the last unit of a text.
fn last_facts(alloc: Global, rt: &impl Abort, text: &[u8]) -> Result<Option<Facts>, Fail> {
    assert!(rt; text.len() as u64 <= MOST_BYTES);
    let mut last = None;
    let input = Places::new(alloc, text)?;
    let tokens = lex(alloc, text)?;
    let skimmed = skim(alloc, text, tokens.as_slice())?;
    let pieces = cut(alloc, text, &skimmed)?;
    let kept = skimmed.tokens.as_slice();
    let mut names = Names::new(alloc);
    for piece in pieces.as_slice() {
        let Some(unit) = kept.get(piece.from as usize..piece.to as usize) else {
            continue;
        };
        let body = piece.body.map(|at| at.saturating_sub(piece.from) as usize);
        last = match accept(alloc, text, piece.no_return, unit, body, &mut names)? {
            Accepted::Tree(tree) => facts_of(alloc, &input, tree.get(), &names)?,
            Accepted::Refused(_) => None,
        };
    }
    Ok(last)
}

// A function on a line of its own, behind what is declared before it.
fn below(alloc: Global, first: &str, text: &str) -> Result<Vec<u8>, NoMemory> {
    let mut whole = Vec::from_slice(alloc, first.as_bytes())?;
    whole.push(b'\n')?;
    whole.extend_from_slice(text.as_bytes())?;
    Ok(whole)
}

// Whether a text is this one.
fn is_text(text: &[u8], wanted: &str) -> bool {
    text == wanted.as_bytes()
}

// Whether this is listed of a function.
fn is_listed(facts: &Facts, row: &Listed) -> bool {
    is_text(facts.sizes.as_slice(), row.1)
        && is_text(facts.keys.as_slice(), row.2)
        && is_text(facts.conditions.as_slice(), row.3)
        && is_text(facts.candidates.as_slice(), row.4)
}

// Whether this is listed of each function of a table.
fn are_listed(rt: &impl Abort, alloc: Global, first: &str, table: &[Listed]) -> Result<(), Fail> {
    for row in table {
        let whole = below(alloc, first, row.0)?;
        let found = last_facts(alloc, rt, whole.as_slice())?;
        assert!(rt; found.is_some(), "{row:?}");
        if let Some(facts) = found {
            assert!(rt; is_listed(&facts, row), "{row:?} {facts:?}");
        }
    }
    Ok(())
}

#[test]
fn kept_objects_are_listed(rt: HostRuntime) -> Result<(), Fail> {
    are_listed(
        &rt,
        rt.alloc(),
        listed_memory_rows::FIRST,
        &listed_memory_rows::KEPT,
    )
}

#[test]
fn pointers_are_listed(rt: HostRuntime) -> Result<(), Fail> {
    are_listed(
        &rt,
        rt.alloc(),
        listed_memory_rows::FIRST,
        &listed_memory_rows::POINTERS,
    )
}

#[test]
fn stores_are_listed(rt: HostRuntime) -> Result<(), Fail> {
    are_listed(
        &rt,
        rt.alloc(),
        listed_memory_rows::FIRST,
        &listed_memory_rows::STORES,
    )
}

#[test]
fn operators_are_listed(rt: HostRuntime) -> Result<(), Fail> {
    are_listed(&rt, rt.alloc(), listed_rows::FIRST, &listed_rows::OPERATORS)
}

#[test]
fn statements_are_listed(rt: HostRuntime) -> Result<(), Fail> {
    are_listed(
        &rt,
        rt.alloc(),
        listed_rows::FIRST,
        &listed_rows::STATEMENTS,
    )
}

// Whether these are the conditions and the candidates of each function of a table.
fn have_candidates(
    rt: &impl Abort,
    alloc: Global,
    table: &[(&'static str, &'static str, &'static str)],
) -> Result<(), Fail> {
    for (text, conditions, candidates) in table {
        let found = last_facts(alloc, rt, text.as_bytes())?;
        assert!(rt; found.is_some(), "{text:?}");
        if let Some(facts) = found {
            assert!(rt;
                is_text(facts.conditions.as_slice(), conditions),
                "{text:?} {facts:?}"
            );
            assert!(rt;
                is_text(facts.candidates.as_slice(), candidates),
                "{text:?} {facts:?}"
            );
        }
    }
    Ok(())
}

#[test]
fn worked_functions_have_these_candidates(rt: HostRuntime) -> Result<(), Fail> {
    have_candidates(&rt, rt.alloc(), &worked_rows::WORKED)
}

//! The traces of functions.

use crate::run_rows::Run;
use crate::runs::run_of;
use crate::{run_memory_rows, run_rows};
use std::alloc::Global;
use std::process::Abort;
use std::test::Fail;
use stk_accept::{Accepted, accept};
use stk_base::{MOST_BYTES, NoMemory};
use stk_ctype::Names;
use stk_lex::{Places, cut, lex, skim};

// The trace of the last unit of a text, for these numbers of its keys.
fn last_run(
    alloc: Global,
    rt: &impl Abort,
    text: &[u8],
    numbers: &[i128],
) -> Result<Option<Vec<u8>>, Fail> {
    assert!(rt; text.len() as u64 <= MOST_BYTES);
    let mut last = None;
    let input = Places::new(alloc, text)?;
    let tokens = lex(alloc, text)?;
    let skimmed = skim(alloc, text, tokens.as_slice())?;
    let pieces = cut(alloc, text, &skimmed)?;
    let kept = skimmed.tokens.as_slice();
    let mut names = Names::new(alloc);
    for piece in pieces.as_slice() {
        let Some(unit) = kept.get(piece.from as usize..piece.to as usize) else {
            continue;
        };
        let body = piece.body.map(|at| at.saturating_sub(piece.from) as usize);
        last = match accept(alloc, text, piece.no_return, unit, body, &mut names)? {
            Accepted::Tree(tree) => run_of(alloc, &input, tree.get(), &names, numbers)?,
            Accepted::Refused(_) => None,
        };
    }
    Ok(last)
}

// A function on a line of its own, behind what is declared before it.
fn below(alloc: Global, first: &str, text: &str) -> Result<Vec<u8>, NoMemory> {
    let mut whole = Vec::from_slice(alloc, first.as_bytes())?;
    whole.push(b'\n')?;
    whole.extend_from_slice(text.as_bytes())?;
    Ok(whole)
}

// Whether each function of a table has this trace for these numbers of its keys.
fn have_traces(rt: &impl Abort, alloc: Global, first: &str, table: &[Run]) -> Result<(), Fail> {
    for (text, numbers, trace) in table {
        let whole = below(alloc, first, text)?;
        let found = last_run(alloc, rt, whole.as_slice(), numbers)?;
        assert!(rt; found.is_some(), "{text:?} {numbers:?}");
        if let Some(found) = found {
            assert!(rt;
                found.as_slice() == trace.as_bytes(),
                "{text:?} {numbers:?} {found:?}"
            );
        }
    }
    Ok(())
}

#[test]
fn kept_numbers_have_their_traces(rt: HostRuntime) -> Result<(), Fail> {
    have_traces(
        &rt,
        rt.alloc(),
        run_memory_rows::FIRST,
        &run_memory_rows::KEPT,
    )
}

#[test]
fn pointers_have_their_traces(rt: HostRuntime) -> Result<(), Fail> {
    have_traces(
        &rt,
        rt.alloc(),
        run_memory_rows::FIRST,
        &run_memory_rows::POINTERS,
    )
}

#[test]
fn stores_have_their_traces(rt: HostRuntime) -> Result<(), Fail> {
    have_traces(
        &rt,
        rt.alloc(),
        run_memory_rows::FIRST,
        &run_memory_rows::STORES,
    )
}

#[test]
fn mixed_functions_have_their_traces(rt: HostRuntime) -> Result<(), Fail> {
    have_traces(&rt, rt.alloc(), run_rows::FIRST, &run_rows::MIXED)
}

#[test]
fn more_functions_have_their_traces(rt: HostRuntime) -> Result<(), Fail> {
    have_traces(&rt, rt.alloc(), run_rows::FIRST, &run_rows::MORE)
}

#[test]
fn worked_functions_have_these_traces(rt: HostRuntime) -> Result<(), Fail> {
    have_traces(&rt, rt.alloc(), "", &run_rows::WORKED)
}

//! Runs of the top call over a source and sinks in memory.

use std::alloc::Global;
use std::test::Fail;
use stk_base::{MOST_BYTES, MemSink, MemSource, Status, read_all};
use stk_lint::lint_main;
use stk_query::Decider;

/// What a run came to: its status, what its output took, and what it left of its input.
#[derive(Drop)]
pub struct Outcome {
    pub status: Status,
    pub records: Vec<u8>,
    pub left: Vec<u8>,
}

// The most bytes of a call of the source or a sink.
const MOST: usize = 1_000_000;

/// Runs the top call with words on an input, by a decider; nothing fails.
pub(crate) fn ran<D: Decider>(
    alloc: Global,
    words: &[&'static str],
    input: &str,
    decider: &mut D,
) -> Result<Outcome, Fail> {
    ran_with(alloc, words, input, decider, &[])
}

/// The same where these calls of the output fail, counted from 0.
pub(crate) fn ran_with<D: Decider>(
    alloc: Global,
    words: &[&'static str],
    input: &str,
    decider: &mut D,
    failing: &[u64],
) -> Result<Outcome, Fail> {
    let mut owned = Vec::new(alloc);
    for word in words {
        owned.push(String::from_str(alloc, word)?)?;
    }
    let bytes = Vec::from_slice(alloc, input.as_bytes())?;
    let mut source = MemSource::new(bytes, MOST, Vec::new(alloc));
    let mut out = MemSink::new(alloc, MOST, Vec::from_slice(alloc, failing)?);
    let mut fault = MemSink::new(alloc, MOST, Vec::new(alloc));
    let words = owned.as_slice();
    let status = lint_main(alloc, words, &mut source, &mut out, &mut fault, decider);
    let left = read_all(alloc, &mut source, MOST_BYTES)?;
    Ok(Outcome {
        status,
        records: Vec::from_slice(alloc, out.bytes())?,
        left,
    })
}

/// Records with `_` for each number that stands right behind a `=`, as those of starts do.
pub(crate) fn masked(alloc: Global, records: &[u8]) -> Result<Vec<u8>, Fail> {
    let mut out = Vec::new(alloc);
    let mut is_number = false;
    for byte in records {
        let is_kept = !is_number || !(byte.is_ascii_digit() || *byte == b'-');
        if is_kept {
            out.push(*byte)?;
            is_number = *byte == b'=';
        }
        if is_kept && is_number {
            out.push(b'_')?;
        }
    }
    Ok(out)
}

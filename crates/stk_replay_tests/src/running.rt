//! Runs of the top call over a source and sinks in memory.

use std::alloc::Global;
use std::test::Fail;
use stk_base::{MemSink, MemSource};
use stk_replay::{ReplayStatus, replay_main};

/// What a run came to: its status, and what its output and the sink of failures took.
#[derive(Drop)]
pub struct Outcome {
    pub status: ReplayStatus,
    pub text: Vec<u8>,
    pub told: Vec<u8>,
}

/// The calls of the source, of the output and of the sink of failures that fail, each counted from 0.
#[derive(Clone, Copy)]
pub struct Faults {
    pub source: &'static [u64],
    pub output: &'static [u64],
    pub fault: &'static [u64],
}

/// Nothing fails.
pub const NONE: Faults = Faults {
    source: &[],
    output: &[],
    fault: &[],
};

// The most bytes of a call of the source or a sink.
const MOST: usize = 1_000_000;

/// Runs the top call with words on an input.
pub(crate) fn replayed_input(
    alloc: Global,
    words: &[&'static str],
    bytes: Vec<u8>,
    faults: Faults,
) -> Result<Outcome, Fail> {
    let mut owned = Vec::new(alloc);
    for word in words {
        owned.push(String::from_str(alloc, word)?)?;
    }
    let mut input = MemSource::new(bytes, MOST, Vec::from_slice(alloc, faults.source)?);
    let mut out = MemSink::new(alloc, MOST, Vec::from_slice(alloc, faults.output)?);
    let mut fault = MemSink::new(alloc, MOST, Vec::from_slice(alloc, faults.fault)?);
    let status = replay_main(alloc, owned.as_slice(), &mut input, &mut out, &mut fault);
    Ok(Outcome {
        status,
        text: Vec::from_slice(alloc, out.bytes())?,
        told: Vec::from_slice(alloc, fault.bytes())?,
    })
}

/// Runs the top call with words on a script and a source behind it.
pub(crate) fn replayed(
    alloc: Global,
    words: &[&'static str],
    script: &str,
    source: &str,
    faults: Faults,
) -> Result<Outcome, Fail> {
    let mut bytes = Vec::from_slice(alloc, script.as_bytes())?;
    bytes.extend_from_slice(source.as_bytes())?;
    replayed_input(alloc, words, bytes, faults)
}

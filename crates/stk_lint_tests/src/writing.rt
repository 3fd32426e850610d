//! From a text to its bundle.

ghost use Rattle.std.specs.Prelude.{◌≤◌, length};
ghost use Rattle.stk_base.specs.Limits.{most_bytes};

use std::alloc::Global;
use std::test::Fail;
use stk_base::{MOST_BYTES, MemSink, Status};
use stk_bundles::{BundledFile, write_bundle};
use stk_lex::Places;
use stk_numbers::Kinds;
use stk_query::{Cdcl, MOST_BUDGET};
use stk_records::Stop;
use stk_units::cut_into_units;

/// No kind is taken out.
pub(crate) const NOTHING: Kinds = Kinds {
    overflow: false,
    zero: false,
    shift: false,
    null: false,
    pointer: false,
    bounds: false,
    abs: false,
    copy: false,
};

/// The budget of a query where none is asked for.
pub(crate) const USUAL: u32 = 20_000;

// The most bytes of a call of the sink.
const MOST: usize = 1_000_000;

/// How the writing of a bundle ended, and what the sink took.
#[derive(Drop)]
pub(crate) struct Written {
    pub ended: Result<Status, Stop>,
    pub bundle: Vec<u8>,
}

// Writes the bundle of a text.
fn write_text(
    alloc: Global,
    without: Kinds,
    budget: u32,
    text: &[u8],
    out: &mut MemSink,
) -> Result<Status, Stop>
    requires few { length text.now ≤ most_bytes }
    requires least { 1 ≤ budget }
    requires most { budget ≤ MOST_BUDGET }
{
    let units = cut_into_units(alloc, text)?;
    let input = Places::new(alloc, text)?;
    let file = BundledFile {
        alloc,
        input: &input,
        without,
        budget,
    };
    let mut decider = Cdcl::new(alloc);
    write_bundle(&file, &units, out, &mut decider)
}

/// Writes the bundle of a text, where these calls of the sink fail, counted from 0.
pub(crate) fn bundled(
    alloc: Global,
    without: Kinds,
    text: &[u8],
    failing: &[u64],
) -> Result<Written, Fail> {
    let mut out = MemSink::new(alloc, MOST, Vec::from_slice(alloc, failing)?);
    let ended = if text.len() as u64 <= MOST_BYTES {
        write_text(alloc, without, USUAL, text, &mut out)
    } else {
        Err(Stop::NoMemory)
    };
    Ok(Written {
        ended,
        bundle: Vec::from_slice(alloc, out.bytes())?,
    })
}

//! How an audit ends.

ghost use Rattle.std.specs.Prelude.{◌≡◌, ◌↔◌, ◌≤◌, ◌<◌, ◌⊎◌, Err, IfOk, IsTrue, OnErr, length};
ghost use Rattle.stk_base.specs.Causes.{Rose};
ghost use Rattle.stk_audit_main.specs.Parts.{HasLargePart, most_bundle, most_source};
ghost use Rattle.stk_audit_main.specs.Answering.{IsAuditOf};
ghost use Rattle.stk_audit_main.specs.Ending as endings;

use crate::inputs::split_input;
use crate::texts::{answer_status, answer_text};
use std::alloc::Global;
use stk_audit_rules::Audit;
use stk_base::{MOST_BYTES, NoMemory, Sink, Status, write_all};
use stk_records::Stop;
use stk_source_audit::audit_source;
use stk_units::cut_into_units;

// A bundle has at most so many bytes.
const MOST_BUNDLE: u64 = 1_073_741_824;

/// The audit of a bundle of at most 1,073,741,824 bytes by its source of C, of at most 16,777,216: `Yes` with the
/// claims of the bundle, in the order of their lines, each of which is true of the source; or `No` with the first line
/// that fails, counted from 1, and why. The source is read and typed here, and each clause list is made here: nothing
/// that the bundle says is taken on trust. The only refusal is want of memory.
pub fn audit_bundle(alloc: Global, bundle: &[u8], source: &[u8]) -> Result<Audit, NoMemory>
    requires bundle { length bundle.now ≤ most_bundle }
    requires source { length source.now ≤ most_source }
    ensures { IfOk result (IsAuditOf bundle.now source.now) }
{
    let units = cut_into_units(alloc, source)?;
    let answer = audit_source(
        alloc,
        source,
        units.tokens.as_slice(),
        units.pieces.as_slice(),
        bundle,
    )?;
    Ok(answer)
}

// Writes the answer of the audit of a bundle by its source, and flushes it.
fn write_answer<K: Sink>(
    alloc: Global,
    bundle: &[u8],
    source: &[u8],
    out: &mut K,
) -> Result<Status, Stop>
    requires bundle { length bundle.now ≤ most_bundle }
    requires source { length source.now ≤ most_source }
    ensures took { IfOk result (endings.TookAnswerOf bundle.now source.now (K.taken out.old) (K.taken out.new) (K.flushed out.new)) }
    ensures prefix { OnErr result ((K.taken out.new ≡ K.taken out.old) ⊎ endings.TookPrefixOf bundle.now source.now (K.taken out.old) (K.taken out.new)) }
    ensures fault { result ≡ Err Stop.WriteFault → Rose (K.faults out.old) (K.faults out.new) × endings.TookPrefixOf bundle.now source.now (K.taken out.old) (K.taken out.new) }
{
    let answer = audit_bundle(alloc, bundle, source)?;
    let text = answer_text(alloc, &answer)?;
    write_all(out, text.as_slice())?;
    out.flush()?;
    Ok(answer_status(&answer))
}

// Whether the bundle or the source of an input is too large.
fn is_large(bundle: &[u8], source: &[u8]) -> bool
    ensures { IsTrue result ↔ ((most_bundle < length bundle.now) ⊎ (most_source < length source.now)) }
{
    bundle.len() as u64 > MOST_BUNDLE || source.len() as u64 > MOST_BYTES
}

// How the writing of an answer ends.
fn ended(written: Result<Status, Stop>) -> Status
    ensures { result ≡ endings.status_after written }
{
    match written {
        Ok(status) => status,
        Err(Stop::WriteFault) => Status::WriteFault,
        Err(Stop::NoMemory) => Status::NoMemory,
    }
}

/// Audits an input that was read whole, and writes the answer.
pub(crate) fn audit_input<K: Sink>(alloc: Global, bytes: &[u8], out: &mut K) -> Status
    ensures only { endings.IsAnswered result ⊎ ((result ≡ Status.TooLarge) ⊎ ((result ≡ Status.WriteFault) ⊎ (result ≡ Status.NoMemory))) }
    ensures took { endings.IsAnswered result → endings.TookAnswer bytes.now (K.taken out.old) (K.taken out.new) (K.flushed out.new) result }
    ensures large { result ≡ Status.TooLarge → HasLargePart bytes.now × (K.taken out.new ≡ K.taken out.old) × (K.flushed out.new ≡ K.flushed out.old) }
    ensures small { HasLargePart bytes.now → result ≡ Status.TooLarge }
    ensures fault { result ≡ Status.WriteFault → Rose (K.faults out.old) (K.faults out.new) × endings.TookPrefix bytes.now (K.taken out.old) (K.taken out.new) }
    ensures no_memory { result ≡ Status.NoMemory → (K.taken out.new ≡ K.taken out.old) ⊎ endings.TookPrefix bytes.now (K.taken out.old) (K.taken out.new) }
{
    let (bundle, source) = split_input(bytes);
    if is_large(bundle, source) {
        return Status::TooLarge;
    }
    ended(write_answer(alloc, bundle, source, out))
}

//! The top call.

ghost use Rattle.std.specs.Prelude.{◌≡◌, ◌≢◌, ◌↔◌, ◌⊎◌, ◌≤◌, ◌<◌, ℕ, List, [], length, Some};
ghost use Rattle.stk_base.specs.Causes.{Rose};
ghost use Rattle.stk_base.specs.Limits.{most_bytes};
ghost use Rattle.stk_base.specs.Streams.{Came, Appended};
ghost use Rattle.stk_replay_input.specs.Replays.{HasBadScript, HasLongRun};
ghost use Rattle.stk_replay.specs.Status as lines;
ghost use Rattle.stk_replay.specs.Ending as endings;

use crate::ReplayStatus;
use crate::status::fault_line;
use crate::writing::write_replay;
use std::alloc::Global;
use stk_base::{MOST_BYTES, ReadAll, Sink, Source, read_all, write_all};

// The status of a refusal to read.
fn refused(refusal: ReadAll) -> ReplayStatus
    ensures read_fault { (result ≡ ReplayStatus.ReadFault) ↔ (refusal ≡ ReadAll.ReadFault) }
    ensures too_large { (result ≡ ReplayStatus.TooLarge) ↔ (refusal ≡ ReadAll.TooLarge) }
    ensures no_memory { (result ≡ ReplayStatus.NoMemory) ↔ (refusal ≡ ReadAll.NoMemory) }
    ensures only { (result ≡ ReplayStatus.ReadFault) ⊎ ((result ≡ ReplayStatus.TooLarge) ⊎ (result ≡ ReplayStatus.NoMemory)) }
{
    match refusal {
        ReadAll::ReadFault => ReplayStatus::ReadFault,
        ReadAll::TooLarge => ReplayStatus::TooLarge,
        ReadAll::NoMemory => ReplayStatus::NoMemory,
    }
}

// Reads the input, replays what it names and writes the text.
fn run<S: Source, K: Sink>(
    alloc: Global,
    words: &[String],
    source: &mut S,
    out: &mut K,
) -> ReplayStatus
    ensures only { (result ≡ ReplayStatus.Done) ⊎ (endings.IsRefused result ⊎ ((result ≡ ReplayStatus.WriteFault) ⊎ (result ≡ ReplayStatus.NoMemory))) }
    ensures done { result ≡ ReplayStatus.Done → endings.HasReplayed (S.left source.old) (S.left source.new) (K.taken out.old) (K.taken out.new) (K.flushed out.new) }
    ensures prefix { result ≡ ReplayStatus.WriteFault → endings.HasReplayedPrefix (S.left source.old) (S.left source.new) (K.taken out.old) (K.taken out.new) }
    ensures nothing { endings.IsRefused result ⊎ (result ≡ ReplayStatus.NoMemory) → (K.taken out.new ≡ K.taken out.old) × (K.flushed out.new ≡ K.flushed out.old) }
    ensures bad_words { (result ≡ ReplayStatus.BadWords) ↔ (words.now ≢ []) }
    ensures unread { words.now ≢ [] → (S.left source.new ≡ S.left source.old) × (S.faults source.new ≡ S.faults source.old) }
    ensures read_fault { result ≡ ReplayStatus.ReadFault → (words.now ≡ []) × Rose (S.faults source.old) (S.faults source.new) }
    ensures no_fault { (result ≡ ReplayStatus.ReadFault) ⊎ (S.faults source.new ≡ S.faults source.old) }
    ensures write_fault { result ≡ ReplayStatus.WriteFault → Rose (K.faults out.old) (K.faults out.new) }
    ensures too_large { (came : List ℕ) × Came (S.left source.old) (S.left source.new) came × ((result ≡ ReplayStatus.TooLarge) ↔ ((words.now ≡ []) × (most_bytes < length came))) }
    ensures bad { result ≡ ReplayStatus.BadScript → endings.HasReadBadScript (S.left source.old) (S.left source.new) }
    ensures long { result ≡ ReplayStatus.TooLong → endings.HasReadLongRun (S.left source.old) (S.left source.new) }
    ensures large_only { (bytes : List ℕ) → words.now ≡ [] → S.left source.old ≡ Some bytes → most_bytes < length bytes → ¬ Rose (S.faults source.old) (S.faults source.new) → (result ≡ ReplayStatus.TooLarge) ⊎ (result ≡ ReplayStatus.NoMemory) }
    ensures bad_only { (bytes : List ℕ) → words.now ≡ [] → S.left source.old ≡ Some bytes → length bytes ≤ most_bytes → ¬ Rose (S.faults source.old) (S.faults source.new) → HasBadScript bytes → (result ≡ ReplayStatus.BadScript) ⊎ (result ≡ ReplayStatus.NoMemory) }
    ensures long_only { (bytes : List ℕ) → words.now ≡ [] → S.left source.old ≡ Some bytes → length bytes ≤ most_bytes → ¬ Rose (S.faults source.old) (S.faults source.new) → HasLongRun bytes → (result ≡ ReplayStatus.TooLong) ⊎ (result ≡ ReplayStatus.NoMemory) }
{
    if !words.is_empty() {
        return ReplayStatus::BadWords;
    }
    match read_all(alloc, source, MOST_BYTES) {
        Ok(bytes) => write_replay(alloc, bytes.as_slice(), out),
        Err(refusal) => refused(refusal),
    }
}

// Tells of a failure, as far as the sink takes it.
fn tell<E: Sink>(fault: &mut E, status: ReplayStatus)
    ensures { ¬ Rose (E.faults fault.old) (E.faults fault.new) → Appended (E.taken fault.old) (E.taken fault.new) (lines.fault_line status) }
{
    let _ = write_all(fault, fault_line(status));
}

/// Reads a script and its source from one source of bytes, the script up to its line `end` and the source of C behind
/// that, replays the execution that the script names, writes its text to a sink, and flushes it; tells of a failure on
/// a third sink. There are no words. The answer says how it ended:
///
/// - `Done`: the input was read to its end. The sink took a line for each entry of the trace of the execution, a line
///   for each candidate that the trace hits, and how the execution ends, and was flushed.
/// - `BadWords`: exactly where there are words. The source of bytes is unread.
/// - `ReadFault`: only where there are no words and the source of bytes counted a fault; after every other answer it
///   counted none.
/// - `WriteFault`: only where the sink counted a fault. It took some prefix of the text.
/// - `TooLarge`: exactly where there are no words, and more than 16,777,216 bytes came before the end and before any
///   failed call.
/// - `NoMemory`: no clause says when it comes.
/// - `BadScript`: where the input was read to its end and names no execution: no script comes, the source has no
///   accepted function of this name, the start isn't a valid one of the function, or two cells of the memory have one
///   address. Over a source that tells its bytes and doesn't fail, no other answer comes there but want of memory.
/// - `TooLong`: where the input was read to its end and the trace of the execution that it names has more than
///   1,000,000 entries. Over a source that tells its bytes and doesn't fail, no other answer comes there but want of
///   memory.
///
/// After each answer but `Done` and `WriteFault` the sink took nothing. Where the third sink counted no fault, it took
/// exactly the line of the failure, and nothing after `Done`; a fault of it changes nothing else.
pub fn replay_main<S: Source, K: Sink, E: Sink>(
    alloc: Global,
    words: &[String],
    source: &mut S,
    out: &mut K,
    fault: &mut E,
) -> ReplayStatus
    ensures only { (result ≡ ReplayStatus.Done) ⊎ (endings.IsRefused result ⊎ ((result ≡ ReplayStatus.WriteFault) ⊎ (result ≡ ReplayStatus.NoMemory))) }
    ensures done { result ≡ ReplayStatus.Done → endings.HasReplayed (S.left source.old) (S.left source.new) (K.taken out.old) (K.taken out.new) (K.flushed out.new) }
    ensures prefix { result ≡ ReplayStatus.WriteFault → endings.HasReplayedPrefix (S.left source.old) (S.left source.new) (K.taken out.old) (K.taken out.new) }
    ensures nothing { endings.IsRefused result ⊎ (result ≡ ReplayStatus.NoMemory) → (K.taken out.new ≡ K.taken out.old) × (K.flushed out.new ≡ K.flushed out.old) }

    // When each refusal comes.
    ensures bad_words { (result ≡ ReplayStatus.BadWords) ↔ (words.now ≢ []) }
    ensures unread { words.now ≢ [] → (S.left source.new ≡ S.left source.old) × (S.faults source.new ≡ S.faults source.old) }
    ensures read_fault { result ≡ ReplayStatus.ReadFault → (words.now ≡ []) × Rose (S.faults source.old) (S.faults source.new) }
    ensures no_fault { (result ≡ ReplayStatus.ReadFault) ⊎ (S.faults source.new ≡ S.faults source.old) }
    ensures write_fault { result ≡ ReplayStatus.WriteFault → Rose (K.faults out.old) (K.faults out.new) }
    ensures too_large { (came : List ℕ) × Came (S.left source.old) (S.left source.new) came × ((result ≡ ReplayStatus.TooLarge) ↔ ((words.now ≡ []) × (16777216 < length came))) }
    ensures bad { result ≡ ReplayStatus.BadScript → endings.HasReadBadScript (S.left source.old) (S.left source.new) }
    ensures long { result ≡ ReplayStatus.TooLong → endings.HasReadLongRun (S.left source.old) (S.left source.new) }

    // Without words, over a source of bytes that tells them and doesn't fail.
    ensures large_only { (bytes : List ℕ) → words.now ≡ [] → S.left source.old ≡ Some bytes → 16777216 < length bytes
        → ¬ Rose (S.faults source.old) (S.faults source.new) → (result ≡ ReplayStatus.TooLarge) ⊎ (result ≡ ReplayStatus.NoMemory) }
    ensures bad_only { (bytes : List ℕ) → words.now ≡ [] → S.left source.old ≡ Some bytes → length bytes ≤ 16777216
        → ¬ Rose (S.faults source.old) (S.faults source.new) → HasBadScript bytes → (result ≡ ReplayStatus.BadScript) ⊎ (result ≡ ReplayStatus.NoMemory) }
    ensures long_only { (bytes : List ℕ) → words.now ≡ [] → S.left source.old ≡ Some bytes → length bytes ≤ 16777216
        → ¬ Rose (S.faults source.old) (S.faults source.new) → HasLongRun bytes → (result ≡ ReplayStatus.TooLong) ⊎ (result ≡ ReplayStatus.NoMemory) }
    ensures complete { (bytes : List ℕ) → words.now ≡ [] → S.left source.old ≡ Some bytes → length bytes ≤ 16777216
        → (HasBadScript bytes → ⊥) → (HasLongRun bytes → ⊥)
        → ¬ Rose (S.faults source.old) (S.faults source.new) → ¬ Rose (K.faults out.old) (K.faults out.new)
        → (result ≡ ReplayStatus.Done) ⊎ (result ≡ ReplayStatus.NoMemory) }

    // The line of a failure.
    ensures line { ¬ Rose (E.faults fault.old) (E.faults fault.new) → Appended (E.taken fault.old) (E.taken fault.new) (lines.fault_line result) }
{
    let status = run(alloc, words, source, out);
    tell(fault, status);
    status
}

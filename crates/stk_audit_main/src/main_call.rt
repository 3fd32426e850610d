//! The top call.

ghost use Rattle.std.specs.Prelude.{◌≡◌, ◌≢◌, ◌↔◌, ◌⊎◌, ◌≤◌, ◌<◌, ℕ, List, [], length, Some, Err};
ghost use Rattle.stk_base.specs.Causes.{Rose};
ghost use Rattle.stk_base.specs.Streams.{Came, Appended};
ghost use Rattle.stk_audit_main.specs.Ending as endings;

use crate::ending::audit_input;
use crate::texts::fault_line;
use std::alloc::Global;
use stk_base::{ReadAll, Sink, Source, Status, read_all, write_all};

// An input has at most so many bytes: those of a bundle and of a source.
const MOST_INPUT: u64 = 1_090_519_040;

// The status of a refusal to read.
fn refused(refusal: ReadAll) -> Status
    ensures read_fault { (result ≡ Status.ReadFault) ↔ (refusal ≡ ReadAll.ReadFault) }
    ensures too_large { (result ≡ Status.TooLarge) ↔ (refusal ≡ ReadAll.TooLarge) }
    ensures no_memory { (result ≡ Status.NoMemory) ↔ (refusal ≡ ReadAll.NoMemory) }
    ensures only { (result ≡ Status.ReadFault) ⊎ ((result ≡ Status.TooLarge) ⊎ (result ≡ Status.NoMemory)) }
{
    match refusal {
        ReadAll::ReadFault => Status::ReadFault,
        ReadAll::TooLarge => Status::TooLarge,
        ReadAll::NoMemory => Status::NoMemory,
    }
}

// Reads the input, audits it and writes the answer.
fn run<S: Source, K: Sink>(alloc: Global, words: &[String], source: &mut S, out: &mut K) -> Status
    ensures only { endings.IsAnswered result ⊎ (endings.IsUnaudited result ⊎ ((result ≡ Status.WriteFault) ⊎ (result ≡ Status.NoMemory))) }
    ensures answered { endings.IsAnswered result → endings.HasAnswered (S.left source.old) (S.left source.new) (K.taken out.old) (K.taken out.new) (K.flushed out.new) result }
    ensures prefix { result ≡ Status.WriteFault → endings.HasAnsweredPrefix (S.left source.old) (S.left source.new) (K.taken out.old) (K.taken out.new) }
    ensures nothing { endings.IsUnaudited result → (K.taken out.new ≡ K.taken out.old) × (K.flushed out.new ≡ K.flushed out.old) }
    ensures no_memory { result ≡ Status.NoMemory → (K.taken out.new ≡ K.taken out.old) ⊎ endings.HasAnsweredPrefix (S.left source.old) (S.left source.new) (K.taken out.old) (K.taken out.new) }
    ensures bad_words { (result ≡ Status.BadWords) ↔ (words.now ≢ []) }
    ensures unread { words.now ≢ [] → (S.left source.new ≡ S.left source.old) × (S.faults source.new ≡ S.faults source.old) }
    ensures read_fault { result ≡ Status.ReadFault → Rose (S.faults source.old) (S.faults source.new) }
    ensures no_fault { (result ≡ Status.ReadFault) ⊎ (S.faults source.new ≡ S.faults source.old) }
    ensures write_fault { result ≡ Status.WriteFault → Rose (K.faults out.old) (K.faults out.new) }
    ensures too_large { (came : List ℕ) × Came (S.left source.old) (S.left source.new) came × ((result ≡ Status.TooLarge) ↔ ((words.now ≡ []) × endings.CameTooLarge came (S.left source.new) result)) }
    ensures large { (bytes : List ℕ) → words.now ≡ [] → S.left source.old ≡ Some bytes → endings.IsTooLarge bytes → ¬ Rose (S.faults source.old) (S.faults source.new) → (result ≡ Status.TooLarge) ⊎ (result ≡ Status.NoMemory) }
{
    if !words.is_empty() {
        return Status::BadWords;
    }
    match read_all(alloc, source, MOST_INPUT) {
        Ok(bytes) => audit_input(alloc, bytes.as_slice(), out),
        Err(refusal) => refused(refusal),
    }
}

// Tells of a failure, as far as the sink takes it.
fn tell<E: Sink>(fault: &mut E, status: Status)
    ensures { ¬ Rose (E.faults fault.old) (E.faults fault.new) → Appended (E.taken fault.old) (E.taken fault.new) (endings.fault_line status) }
{
    let _ = write_all(fault, fault_line(status));
}

/// Reads a bundle and its source from one source of bytes, the bundle up to its first line `end` and the source of C
/// behind that, audits the bundle by the source, writes the answer's line to a sink, and flushes it; tells of a failure
/// on a third sink. There are no words. The answer says how it ended:
///
/// - `Stable`: each line of the bundle holds, and each of its claims is true of the source: in the accepted function
///   that begins there the candidate is unstable, its set of conditions suffices in path runs and in every execution,
///   and each condition that a line shows with a start is needed, by this start. The sink took `N claims hold`, where N
///   is the number of the claims.
/// - `Found`: line L of the bundle fails. The sink took `line L: WHY`, with the reason as `form`, `name`, `start`,
///   `tried`, `formula` or `derivation`.
/// - `BadWords`: exactly where there are words. The source of bytes is unread.
/// - `ReadFault`: only where the source of bytes counted a fault; after every other answer it counted none.
/// - `TooLarge`: exactly where there are no words, and more than 1,090,519,040 bytes came before the end and before any
///   failed call; or no more came, neither a failed call nor want of memory stopped them, and the bundle has more than
///   1,073,741,824 bytes or the source more than 16,777,216.
/// - `WriteFault`: only where the sink counted a fault. It took some prefix of the line.
/// - `NoMemory`: no clause says when it comes. The sink took nothing, or some prefix of the line.
///
/// For `Stable` and `Found` the input was read to its end, and the sink was flushed. After `BadWords`, `ReadFault` and
/// `TooLarge` it took nothing. Where the third sink counted no fault, it took exactly the line of the failure, and
/// nothing where the answer is written; a fault of it changes nothing else.
pub fn audit_main<S: Source, K: Sink, E: Sink>(
    alloc: Global,
    words: &[String],
    source: &mut S,
    out: &mut K,
    fault: &mut E,
) -> Status
    ensures only { endings.IsAnswered result ⊎ (endings.IsUnaudited result ⊎ ((result ≡ Status.WriteFault) ⊎ (result ≡ Status.NoMemory))) }
    ensures answered { endings.IsAnswered result → endings.HasAnswered (S.left source.old) (S.left source.new) (K.taken out.old) (K.taken out.new) (K.flushed out.new) result }
    ensures prefix { result ≡ Status.WriteFault → endings.HasAnsweredPrefix (S.left source.old) (S.left source.new) (K.taken out.old) (K.taken out.new) }
    ensures nothing { endings.IsUnaudited result → (K.taken out.new ≡ K.taken out.old) × (K.flushed out.new ≡ K.flushed out.old) }
    ensures no_memory { result ≡ Status.NoMemory → (K.taken out.new ≡ K.taken out.old) ⊎ endings.HasAnsweredPrefix (S.left source.old) (S.left source.new) (K.taken out.old) (K.taken out.new) }

    // When each refusal comes.
    ensures bad_words { (result ≡ Status.BadWords) ↔ (words.now ≢ []) }
    ensures unread { words.now ≢ [] → (S.left source.new ≡ S.left source.old) × (S.faults source.new ≡ S.faults source.old) }
    ensures read_fault { result ≡ Status.ReadFault → Rose (S.faults source.old) (S.faults source.new) }
    ensures no_fault { (result ≡ Status.ReadFault) ⊎ (S.faults source.new ≡ S.faults source.old) }
    ensures write_fault { result ≡ Status.WriteFault → Rose (K.faults out.old) (K.faults out.new) }
    ensures too_large { (came : List ℕ) × Came (S.left source.old) (S.left source.new) came × ((result ≡ Status.TooLarge) ↔ ((words.now ≡ []) × endings.CameTooLarge came (S.left source.new) result)) }
    ensures large { (bytes : List ℕ) → words.now ≡ [] → S.left source.old ≡ Some bytes → endings.IsTooLarge bytes → ¬ Rose (S.faults source.old) (S.faults source.new) → (result ≡ Status.TooLarge) ⊎ (result ≡ Status.NoMemory) }

    // Without words, over a source of bytes that tells no more than the limits, and where nothing fails.
    ensures complete { (bytes : List ℕ) → words.now ≡ [] → S.left source.old ≡ Some bytes → (endings.IsTooLarge bytes → ⊥)
        → ¬ Rose (S.faults source.old) (S.faults source.new) → ¬ Rose (K.faults out.old) (K.faults out.new)
        → endings.IsAnswered result ⊎ (result ≡ Status.NoMemory) }

    // The line of a failure.
    ensures line { ¬ Rose (E.faults fault.old) (E.faults fault.new) → Appended (E.taken fault.old) (E.taken fault.new) (endings.fault_line result) }
{
    let status = run(alloc, words, source, out);
    tell(fault, status);
    status
}

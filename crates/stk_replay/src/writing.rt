//! The replay of an input that was read.

ghost use Rattle.std.specs.Prelude.{◌≡◌, ◌≤◌, ◌⊎◌, length};
ghost use Rattle.stk_base.specs.Limits.{most_bytes};
ghost use Rattle.stk_base.specs.Causes.{Rose};
ghost use Rattle.stk_base.specs.Streams.{Appended, AppendedPrefix, IsFlushed};
ghost use Rattle.stk_replay_input.specs.Replays.{HasBadScript, HasLongRun};
ghost use Rattle.stk_replay.specs.Ending.{TookReplay, TookReplayPrefix};

use crate::ReplayStatus;
use std::alloc::Global;
use stk_base::{Failed, Sink, write_all};
use stk_replay_input::{Unreplayed, replay_input};

// Writes a text and flushes it.
fn write_text<K: Sink>(text: &[u8], out: &mut K) -> ReplayStatus
    ensures only { (result ≡ ReplayStatus.Done) ⊎ (result ≡ ReplayStatus.WriteFault) }
    ensures all { result ≡ ReplayStatus.Done → Appended (K.taken out.old) (K.taken out.new) text.now × IsFlushed (K.taken out.new) (K.flushed out.new) }
    ensures prefix { result ≡ ReplayStatus.WriteFault → AppendedPrefix (K.taken out.old) (K.taken out.new) text.now × Rose (K.faults out.old) (K.faults out.new) }
{
    let Ok(()) = write_all(out, text) else {
        return ReplayStatus::WriteFault;
    };
    match out.flush() {
        Ok(()) => ReplayStatus::Done,
        Err(Failed) => ReplayStatus::WriteFault,
    }
}

/// Replays what an input names, and writes the text.
pub(crate) fn write_replay<K: Sink>(alloc: Global, bytes: &[u8], out: &mut K) -> ReplayStatus
    requires { length bytes.now ≤ most_bytes }
    ensures only { (result ≡ ReplayStatus.Done) ⊎ ((result ≡ ReplayStatus.BadScript) ⊎ ((result ≡ ReplayStatus.TooLong) ⊎ ((result ≡ ReplayStatus.WriteFault) ⊎ (result ≡ ReplayStatus.NoMemory)))) }
    ensures done { result ≡ ReplayStatus.Done → TookReplay bytes.now (K.taken out.old) (K.taken out.new) (K.flushed out.new) }
    ensures bad { result ≡ ReplayStatus.BadScript → HasBadScript bytes.now }
    ensures bad_only { HasBadScript bytes.now → (result ≡ ReplayStatus.BadScript) ⊎ (result ≡ ReplayStatus.NoMemory) }
    ensures long { result ≡ ReplayStatus.TooLong → HasLongRun bytes.now }
    ensures long_only { HasLongRun bytes.now → (result ≡ ReplayStatus.TooLong) ⊎ (result ≡ ReplayStatus.NoMemory) }
    ensures fault { result ≡ ReplayStatus.WriteFault → TookReplayPrefix bytes.now (K.taken out.old) (K.taken out.new) × Rose (K.faults out.old) (K.faults out.new) }
    ensures nothing { (result ≡ ReplayStatus.BadScript) ⊎ ((result ≡ ReplayStatus.TooLong) ⊎ (result ≡ ReplayStatus.NoMemory)) → (K.taken out.new ≡ K.taken out.old) × (K.flushed out.new ≡ K.flushed out.old) }
{
    match replay_input(alloc, bytes) {
        Ok(text) => write_text(text.as_slice(), out),
        Err(Unreplayed::BadScript) => ReplayStatus::BadScript,
        Err(Unreplayed::TooLong) => ReplayStatus::TooLong,
        Err(Unreplayed::NoMemory) => ReplayStatus::NoMemory,
    }
}

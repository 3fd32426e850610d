// A sink in memory, which takes short pieces and fails as it is told.
ghost use Rattle.std.specs.Prelude.{◌≡◌, ◌≤◌, ◌<◌, [], List, ℕ, length, min, take, IfOk, OnOk, OnErr, MatchResult, Contains, Some};
ghost use Rattle.std.specs.Prelude.{if◌then◌else◌};
ghost use Rattle.std.specs.Bool.{OnTrue, OnFalse};
ghost use Rattle.stk_base.specs.Causes.{Rose, HasCause};
ghost use Rattle.stk_base.specs.Streams.{Appended, IsFlushed};
ghost use Rattle.stk_base.specs.MemoryStreams.{counted, took, flushed_all, sink_failed};

use crate::{Failed, Sink};
use std::alloc::Global;
use std::marker::Model;

/// A sink that keeps what it takes, at most so many bytes in a call, and fails in the calls that it is told and where
/// it finds no memory. It tells its bytes.
#[derive(Debug, Drop)]
pub struct MemSink {
    taken: Vec<u8>,
    flushed: usize,
    most: usize,
    failing: Vec<u64>,
    calls: u64,
    faults: u64,
}

impl Model for MemSink {
    ghost use Rattle.std.specs.Prelude.{◌≤◌};
    ghost use Rattle.stk_base.specs.MemoryStreams.{SinkState};

    ghost Value = { SinkState };

    ghost view = { λ s. record {
      taken = s.taken.items;
      flushed = s.flushed;
      most = s.most;
      failing = s.failing.items;
      calls = s.calls;
      faults = s.faults;
    } };

    ghost invariant = { λ s. 1 ≤ s.most };
}

impl MemSink {
    /// An empty sink, which takes at most `most` bytes in a call, at least 1. It fails the calls of `write` and
    /// `flush`, counted together from 0, whose numbers are in `failing`, and a `write` that finds no memory.
    pub fn new(alloc: Global, most: usize, failing: Vec<u64>) -> MemSink
        requires { 1 ≤ most }
        ensures { result ≡ record {
          taken = [];
          flushed = 0;
          most = most;
          failing = failing.items;
          calls = 0;
          faults = 0;
        } }
    {
        MemSink {
            taken: Vec::new(alloc),
            flushed: 0,
            most,
            failing,
            calls: 0,
            faults: 0,
        }
    }

    // Counts a call, and a fault if it is one of the failing ones.
    fn fails(&mut self) -> bool
        ensures failing { OnTrue result (Contains self.old.failing self.old.calls) }
        ensures serving { OnFalse result (¬ Contains self.old.failing self.old.calls) }
        ensures later { self.old.faults ≤ self.new.faults }
        ensures rose { OnTrue result (Rose self.old.faults self.new.faults) }
        ensures counted { self.new ≡ (if result then sink_failed self.old
            else record self.old { calls = counted self.old.calls }) }
    {
        let call = self.calls;
        self.calls = call.saturating_add(1);
        let fails = self.failing.contains(&call);
        if fails {
            self.faults = self.faults.saturating_add(1);
        }
        fails
    }

    /// The bytes that the sink took, in order.
    pub fn bytes(&self) -> &[u8]
        ensures { result.now ≡ self.now.taken }
    {
        &self.taken
    }
}

impl Sink for MemSink {
    ghost taken = { λ s. Some s.taken };

    ghost flushed = { λ s. s.flushed };

    ghost faults = { λ s. s.faults };

    /// As `Sink::write` says; it fails where the number of the call is among the failing ones, and else only where it
    /// finds no memory. The numbers of calls and of faults stop at the last value of a u64.
    fn write(&mut self, piece: &[u8]) -> Result<usize, Failed>
        ensures bound { IfOk result (λ n. n ≤ length piece.now) }
        ensures some { IfOk result (λ n. 0 < length piece.now → 0 < n) }
        ensures bytes { IfOk result (λ n. Appended (Some self.old.taken) (Some self.new.taken) (take n piece.now)) }
        ensures kept { OnErr result (Some self.new.taken ≡ Some self.old.taken) }
        ensures flushed { self.new.flushed ≡ self.old.flushed }
        ensures cause { HasCause self.old.faults self.new.faults result }
        ensures count { IfOk result (λ n. n ≡ min self.old.most (length piece.now)) }
        ensures serving { OnOk result (¬ Contains self.old.failing self.old.calls) }
        ensures after { MatchResult result
            (λ n. self.new ≡ took (take n piece.now) self.old) (λ _. self.new ≡ sink_failed self.old) }
    {
        if self.fails() {
            return Err(Failed);
        }
        let count = self.most.min(piece.len());
        if self.taken.extend_from_slice(&piece[..count]).is_err() {
            self.faults = self.faults.saturating_add(1);
            return Err(Failed);
        }
        Ok(count)
    }

    /// As `Sink::flush` says; it fails exactly where the number of the call is among the failing ones.
    fn flush(&mut self) -> Result<(), Failed>
        ensures taken { Some self.new.taken ≡ Some self.old.taken }
        ensures flushed { OnOk result (IsFlushed (Some self.new.taken) self.new.flushed) }
        ensures kept { OnErr result (self.new.flushed ≡ self.old.flushed) }
        ensures cause { HasCause self.old.faults self.new.faults result }
        ensures failing { OnErr result (Contains self.old.failing self.old.calls) }
        ensures serving { OnOk result (¬ Contains self.old.failing self.old.calls) }
        ensures after { MatchResult result (λ _. self.new ≡ flushed_all self.old) (λ _. self.new ≡ sink_failed self.old) }
    {
        if self.fails() {
            return Err(Failed);
        }
        self.flushed = self.taken.len();
        Ok(())
    }
}

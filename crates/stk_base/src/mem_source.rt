// A source in memory, which gives short pieces and fails as it is told.
ghost use Rattle.std.specs.Prelude.{◌≡◌, ◌≤◌, ◌<◌, [], List, ℕ, length, min, take, IfOk, OnOk, OnErr, IsOk, MatchResult, Contains, Some};
ghost use Rattle.stk_base.specs.Causes.{HasCause};
ghost use Rattle.stk_base.specs.Streams.{Came, IsSpent};
ghost use Rattle.stk_base.specs.MemoryStreams.{gave, source_failed};

use crate::{Failed, Source};
use std::marker::Model;

/// A source that gives the bytes of a vector, at most so many in a call, and fails in the calls that it is told. It
/// tells its bytes.
#[derive(Debug, Drop)]
pub struct MemSource {
    bytes: Vec<u8>,
    at: usize,
    most: usize,
    failing: Vec<u64>,
    calls: u64,
    faults: u64,
}

impl Model for MemSource {
    ghost use Rattle.std.specs.Prelude.{◌≤◌, length, drop};
    ghost use Rattle.stk_base.specs.MemoryStreams.{SourceState};

    ghost Value = { SourceState };

    ghost view = { λ s. record {
      left = drop s.at s.bytes.items;
      most = s.most;
      failing = s.failing.items;
      calls = s.calls;
      faults = s.faults;
    } };

    ghost invariant = { λ s. (s.at ≤ length s.bytes.items) × (1 ≤ s.most) };
}

impl MemSource {
    /// A source of these bytes, which gives at most `most` of them in a call, at least 1. It fails exactly the calls
    /// whose numbers, counted from 0, are in `failing`.
    pub fn new(bytes: Vec<u8>, most: usize, failing: Vec<u64>) -> MemSource
        requires { 1 ≤ most }
        ensures { result ≡ record {
          left = bytes.items;
          most = most;
          failing = failing.items;
          calls = 0;
          faults = 0;
        } }
    {
        MemSource {
            bytes,
            at: 0,
            most,
            failing,
            calls: 0,
            faults: 0,
        }
    }
}

impl Source for MemSource {
    ghost left = { λ s. Some s.left };

    ghost faults = { λ s. s.faults };

    /// As `Source::read` says; it fails exactly where the number of the call is among the failing ones. The numbers of
    /// calls and of faults stop at the last value of a u64.
    fn read(&mut self, piece: &mut [u8]) -> Result<usize, Failed>
        ensures bound { IfOk result (λ n. n ≤ length piece.old) }
        ensures bytes { IfOk result (λ n. Came (Some self.old.left) (Some self.new.left) (take n piece.new)) }
        ensures end { IfOk result (λ n. n ≡ 0 → 0 < length piece.old → IsSpent (Some self.new.left)) }
        ensures kept { OnErr result (Some self.new.left ≡ Some self.old.left) }
        ensures cause { HasCause self.old.faults self.new.faults result }
        ensures count { IfOk result (λ n. n ≡ min self.old.most (min (length piece.old) (length self.old.left))) }
        ensures failing { OnErr result (Contains self.old.failing self.old.calls) }
        ensures serving { OnOk result (¬ Contains self.old.failing self.old.calls) }
        ensures after { MatchResult result (λ n. self.new ≡ gave n self.old) (λ _. self.new ≡ source_failed self.old) }
        ensures never { self.old.failing ≡ [] → IsOk result × (self.new.faults ≡ self.old.faults) }
    {
        let call = self.calls;
        self.calls = call.saturating_add(1);
        if self.failing.contains(&call) {
            self.faults = self.faults.saturating_add(1);
            return Err(Failed);
        }
        let rest = &self.bytes[self.at..];
        let count = self.most.min(piece.len()).min(rest.len());
        piece[..count].copy_from_slice(&rest[..count]);
        self.at += count;
        Ok(count)
    }
}

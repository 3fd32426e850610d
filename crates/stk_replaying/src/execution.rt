//! An execution, and what it shows.

ghost use Rattle.std.specs.Prelude.{◌≡◌};

use stk_base::{List, NoMemory};
use stk_meaning::Entry;
use stk_memory::{MemoryImage, Reply};
use stk_operators::Word;

/// An execution, by what decides it: the numbers of the function's keys, in order, of which those of register
/// parameters and of addresses are used, where a key without a number has 0; the memory; the answers of the outside, in
/// order; and how many turns each loop takes at most.
#[derive(Clone, Copy)]
pub struct Execution<'a> {
    pub numbers: &'a [Word],
    pub memory: &'a MemoryImage,
    pub replies: &'a [Reply],
    pub turns: u32,
}

/// How an execution ends.
#[derive(Clone, Copy, Debug, PartialEq, Eq)]
pub enum End {
    /// At the end of the body.
    Fell,
    /// By `return`.
    Returned,
    /// By a cut: a loop asked for one turn more than it may take, no answer was left, or a function was called that
    /// doesn't return.
    Cut,
}

/// What an execution shows: its trace, the positions of the candidates that the trace hits, ascending, and how it ends.
#[derive(Debug, Drop)]
pub struct Replayed {
    pub trace: List<Entry>,
    pub hits: List<u32>,
    pub end: End,
}

/// Why an execution has no replay.
#[derive(Clone, Copy, Debug, PartialEq, Eq)]
pub enum Replay {
    /// Its trace has more entries than it may have.
    TooLong,
    NoMemory,
}

impl From<NoMemory> for Replay {
    ghost use Rattle.stk_replaying.specs.declared.execution.Replay.TheVariants as replay;

    ghost from_gives = { λ _ e. e ≡ replay.NoMemory };

    fn from(_: NoMemory) -> Self {
        Replay::NoMemory
    }
}

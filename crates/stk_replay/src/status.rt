//! How a replay ends.

ghost use Rattle.std.specs.Prelude.{◌≡◌};
ghost use Rattle.stk_replay.specs.Status.{code_of, fault_line};

/// How a run of the replay ended.
#[derive(Clone, Copy, Debug, PartialEq, Eq)]
pub enum ReplayStatus {
    /// The text of the execution is written.
    Done,
    /// There are words on the command line.
    BadWords,
    /// The input couldn't be read.
    ReadFault,
    /// The output couldn't be written.
    WriteFault,
    /// The input is larger than 16,777,216 bytes.
    TooLarge,
    /// Memory ran out.
    NoMemory,
    /// The input names no execution.
    BadScript,
    /// The trace of the execution has more than 1,000,000 entries.
    TooLong,
}

impl ReplayStatus {
    /// The exit status of the process: 0 for `Done`, and 3 to 9 for the others in their order.
    pub fn code(self) -> u8
        ensures { result ≡ code_of self }
    {
        match self {
            ReplayStatus::Done => 0,
            ReplayStatus::BadWords => 3,
            ReplayStatus::ReadFault => 4,
            ReplayStatus::WriteFault => 5,
            ReplayStatus::TooLarge => 6,
            ReplayStatus::NoMemory => 7,
            ReplayStatus::BadScript => 8,
            ReplayStatus::TooLong => 9,
        }
    }
}

/// The line that tells of a failure; empty where there is none.
pub(crate) fn fault_line(status: ReplayStatus) -> &'static [u8]
    ensures { result.now ≡ fault_line status }
{
    match status {
        ReplayStatus::Done => b"",
        ReplayStatus::BadWords => b"stack: bad words\n",
        ReplayStatus::ReadFault => b"stack: the input cannot be read\n",
        ReplayStatus::WriteFault => b"stack: the output cannot be written\n",
        ReplayStatus::TooLarge => b"stack: the input is larger than 16777216 bytes\n",
        ReplayStatus::NoMemory => b"stack: no memory\n",
        ReplayStatus::BadScript => b"stack: bad script\n",
        ReplayStatus::TooLong => b"stack: the run is too long\n",
    }
}

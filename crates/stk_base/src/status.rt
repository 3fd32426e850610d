ghost use Rattle.std.specs.Prelude.{◌≡◌};
ghost use Rattle.stk_base.specs.Status.{code_of};

/// How a run of the checker ended.
#[derive(Clone, Copy, Debug, PartialEq, Eq)]
pub enum Status {
    /// The records are written; nothing is unstable and nothing undecided.
    Stable,
    /// The records are written; at least one candidate is unstable.
    Found,
    /// The records are written; none is unstable and at least one is undecided.
    Unsure,
    /// The words of the command line aren't legal.
    BadWords,
    /// The input couldn't be read.
    ReadFault,
    /// The output couldn't be written.
    WriteFault,
    /// The input is larger than 16,777,216 bytes.
    TooLarge,
    /// Memory ran out.
    NoMemory,
    /// There are fewer candidates than the words of the command line count.
    NoCandidate,
}

impl Status {
    /// The exit status of the process, from 0 to 8 in the order of the variants.
    pub fn code(self) -> u8
        ensures { result ≡ code_of self }
    {
        match self {
            Status::Stable => 0,
            Status::Found => 1,
            Status::Unsure => 2,
            Status::BadWords => 3,
            Status::ReadFault => 4,
            Status::WriteFault => 5,
            Status::TooLarge => 6,
            Status::NoMemory => 7,
            Status::NoCandidate => 8,
        }
    }
}

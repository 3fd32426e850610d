//! What a summary counts.

ghost use Rattle.std.specs.Prelude.{◌≡◌};
ghost use Rattle.stk_records.specs.Counts.{counts_sum, nothing_counted, AreBelow};

/// The numbers of a summary.
#[derive(Clone, Copy, Debug, PartialEq, Eq)]
pub struct Counts {
    /// Functions that were judged.
    pub functions: u64,
    /// Candidates of these functions.
    pub candidates: u64,
    /// Candidates that are reported.
    pub unstable: u64,
    /// Candidates for which no answer was found.
    pub undecided: u64,
    /// Units that were left out, each with a line that says why.
    pub skipped: u64,
}

impl Counts {
    /// Nothing is counted yet.
    pub fn nothing() -> Counts
        ensures { result ≡ nothing_counted }
    {
        Counts {
            functions: 0,
            candidates: 0,
            unstable: 0,
            undecided: 0,
            skipped: 0,
        }
    }

    /// The counts of two parts of a file together; each number is below 2^63.
    pub fn plus(self, other: Counts) -> Counts
        requires first { AreBelow self }
        requires second { AreBelow other }
        ensures { result ≡ counts_sum self other }
    {
        Counts {
            functions: self.functions + other.functions,
            candidates: self.candidates + other.candidates,
            unstable: self.unstable + other.unstable,
            undecided: self.undecided + other.undecided,
            skipped: self.skipped + other.skipped,
        }
    }
}

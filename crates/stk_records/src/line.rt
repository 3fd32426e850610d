//! What records say, as data.

use crate::Counts;
use stk_base::List;
use stk_meaning::Phase;
use stk_numbers::{Kinds, UbKind};

/// Where something stands in its source file: the name of the file, where a line marker gave one, the line, and the
/// column in bytes, both counted from 1.
#[derive(Debug, Drop)]
pub struct Spot {
    pub file: Option<List<u8>>,
    pub line: u32,
    pub column: u32,
}

/// What a fragment is found to be, or may be: code that no run enters, a test that is always true or always false, or a
/// comparison that is the same as the one with this text.
#[derive(Debug, Drop)]
pub enum Claim {
    NeverEntered,
    AlwaysTrue,
    AlwaysFalse,
    SameAs(List<u8>),
}

/// A fragment of a function: where it stands, what is claimed of it, and the name of the function.
#[derive(Debug, Drop)]
pub struct Fragment {
    pub at: Spot,
    pub claim: Claim,
    pub function: List<u8>,
}

/// An input of a run: the text of its key, and its number.
#[derive(Debug, Drop)]
pub struct Input {
    pub key: List<u8>,
    pub number: i128,
}

/// What a run starts from: its inputs in the order of their keys.
#[derive(Debug, Drop)]
pub struct StartInputs {
    pub inputs: List<Input>,
}

/// A condition of a report's set: its kind, where it stands, and the start that shows it needed; none where that is
/// open.
#[derive(Debug, Drop)]
pub struct Needed {
    pub kind: UbKind,
    pub at: Spot,
    pub without: Option<StartInputs>,
}

/// Why a unit is skipped.
#[derive(Debug, Drop)]
pub enum Cause {
    /// No tree of the grammar prints its tokens.
    NoTree,
    /// A rule, by its number, refuses a node of it, which begins here.
    Rule { rule: u8, at: Spot },
    /// It defines a function of so many nodes, over 20,000.
    Nodes { count: u32 },
    /// It defines a function of this weight, over 8,000,000.
    Weight { sum: u64 },
}

/// A line of records, or the lines of one report.
#[derive(Debug, Drop)]
pub enum Line {
    /// A fragment that is unstable, with a start whose run hits it, and the conditions of a minimal set, from the least
    /// to the greatest.
    Unstable {
        fragment: Fragment,
        hit: StartInputs,
        needs: List<Needed>,
    },
    /// A fragment of which this query was given up.
    Undecided {
        fragment: Fragment,
        phase: Phase,
    },
    /// A unit that is skipped; the place is that of its first token.
    Skipped {
        at: Spot,
        cause: Cause,
    },
    /// The summary: the counts, and the kinds of conditions that were taken out.
    Summary {
        counts: Counts,
        without: Kinds,
    },
}

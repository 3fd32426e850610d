// The lines of a bundle as data.
use stk_base::List;
use stk_numbers::UbKind;

/// A line of a bundle; in front of a block of other lines, the line that says how many there are.
///
/// A node is given by its number, and a kind of candidates or of undefined behaviour by its number too. A start is a
/// number for each key of the function, the remainder that is left of it modulo 2^w where the key has w bits.
#[derive(Debug, Drop)]
pub enum BundleLine {
    /// The first line: `stack bundle 1`.
    Head,
    /// How many bytes the source has.
    Source {
        length: u64,
    },
    /// The kinds of undefined behaviour that don't count, as they are written.
    Without {
        kinds: List<UbKind>,
    },
    /// The definition of a function, by the place of its first byte.
    Function {
        at: u64,
    },
    /// A claim begins: this candidate is unstable.
    Unstable {
        node: u64,
        kind: u64,
    },
    /// A start whose run hits the candidate.
    Hit {
        start: List<u64>,
    },
    /// A condition of the claim's set, and a start that shows that it is needed.
    Need {
        node: u64,
        kind: u64,
        start: List<u64>,
    },
    /// A condition of the claim's set of which it is open whether it is needed.
    Open {
        node: u64,
        kind: u64,
    },
    /// No start hits the candidate free of the set: each of them was tried.
    Tried,
    /// No start does: so many lines of DIMACS follow, whose clauses stand for the question.
    Clauses {
        lines: u64,
    },
    /// So many lines of LRAT follow, which derive the empty clause from these.
    Steps {
        lines: u64,
    },
    /// A candidate without a claim.
    Left {
        node: u64,
        kind: u64,
    },
    /// The last line.
    End,
}

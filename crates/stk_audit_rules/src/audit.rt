// What an audit answers.
use stk_base::List;
use stk_clauses::Cnf;
use stk_numbers::{Candidate, Condition};

/// Why a line of a bundle fails. Of several reasons at one line it is the first of these.
#[derive(Drop)]
pub enum Why {
    /// The line may not stand in its place, or the block behind it isn't read.
    Form,
    /// The source has another length; or a function, candidate or condition doesn't exist, is repeated or is out of
    /// order.
    Name,
    /// The start is none of a valid input map whose path run hits the candidate, or it violates another condition of
    /// the set before.
    Start,
    /// Not all input maps of the function are to be tried, or the path run of one hits the candidate free of the set.
    Tried,
    /// The clauses aren't these, which stand for the query of the candidate and the set.
    Formula(Cnf),
    /// The derivation doesn't refute the clauses.
    Derivation,
}

/// A start of a claim: the number of its line, counted from 1, what is left of the number of each key modulo 2 to the
/// key's width, and the condition that it shows to be needed; none where it shows that the candidate is hit.
#[derive(Debug, Drop)]
pub struct Start {
    pub line: u32,
    pub residues: List<u64>,
    pub shows: Option<Condition>,
}

/// What a claim says: in the function that begins at this byte of the source the candidate is unstable; wherever it is
/// hit, in a path run or in an execution, a condition of the set has been violated before; and each start, in the order
/// of their lines, shows that the candidate is hit, or that the condition which it names is needed for that.
#[derive(Debug, Drop)]
pub struct Claim {
    pub at: u32,
    pub candidate: Candidate,
    pub set: List<Condition>,
    pub starts: List<Start>,
}

/// What an audit of a bundle answers.
#[derive(Drop)]
pub enum Audit {
    /// Each line holds; these are the claims, in order.
    Yes(List<Claim>),
    /// The first line that fails, counted from 1, and why.
    No { line: u32, why: Why },
}

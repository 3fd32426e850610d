//! Options of a run of the checker.

use stk_numbers::Kinds;

/// What the words on the command line ask for.
#[derive(Clone, Copy, Debug, PartialEq, Eq)]
pub struct Options {
    /// The records are JSON objects, one a line, and not texts.
    pub json: bool,
    /// The most learned clauses of a query, from 1 to 200,000.
    pub budget: u32,
    /// The kinds of undefined behaviour that don't count.
    pub without: Kinds,
    /// The number that the text is generated from in place of being read, and how many functions it has, from 1 to
    /// 1,000.
    pub generate: Option<(u64, u32)>,
    /// The query of which a script is written in place of records.
    pub script: Option<AskedScript>,
    /// A bundle is written in place of records.
    pub bundle: bool,
}

/// A query of which a script is written: whether some valid input map's path run hits a candidate where no condition of
/// a set has been violated before.
#[derive(Clone, Copy, Debug, PartialEq, Eq)]
pub struct AskedScript {
    /// Which candidate of the input's functions it is, counted from 1.
    pub number: u64,
    /// The set of conditions.
    pub set: ConditionSet,
}

/// A set of conditions of a function.
#[derive(Clone, Copy, Debug, PartialEq, Eq)]
pub enum ConditionSet {
    /// All of them.
    All,
    /// None of them.
    Empty,
}

/// The words aren't legal.
#[derive(Clone, Copy, Debug, PartialEq, Eq)]
pub enum WordsFault {
    Bad,
}

/// One item of the words.
#[derive(Clone, Copy, Debug, PartialEq, Eq)]
pub(crate) enum Item {
    Json,
    Budget(u32),
    Without(Kinds),
    Generate(u64),
    Functions(u32),
    Script(AskedScript),
    Bundle,
}

/// The items so far: each may come once.
#[derive(Clone, Copy, Debug, PartialEq, Eq)]
pub(crate) struct Seen {
    pub json: bool,
    pub budget: Option<u32>,
    pub without: Option<Kinds>,
    pub generate: Option<u64>,
    pub functions: Option<u32>,
    pub script: Option<AskedScript>,
    pub bundle: bool,
}

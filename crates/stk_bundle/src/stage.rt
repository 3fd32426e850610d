// How far a bundle has come, and which line may stand there.
ghost use Rattle.std.specs.Prelude.{◌≡◌};
ghost use Rattle.stk_bundle.specs.Grammar.{next_stage, is_ended};

use crate::BundleLine;

/// How far a bundle has come.
#[derive(Clone, Copy, Debug, PartialEq, Eq)]
pub enum Stage {
    /// Nothing has come.
    Start,
    /// The first line has come.
    Named,
    /// The line `source` has come.
    Measured,
    /// The line `without` has come.
    Opened,
    /// A line `function` has come, and nothing of the function.
    Function,
    /// Something of a function has come, and is whole.
    Item,
    /// A line `unstable` has come.
    Candidate,
    /// A line `hit` has come, and maybe some of `need` and `open`.
    Set,
    /// The clauses have come.
    Clauses,
    /// The line `end` has come.
    Ended,
}

impl Stage {
    /// Whether the line `end` has come.
    pub fn is_ended(self) -> bool
        ensures { result ≡ is_ended self }
    {
        match self {
            Stage::Ended => true,
            _ => false,
        }
    }

    /// The stage behind a line, with its block where it has one; `None` exactly where the line may not stand here.
    pub fn next(self, line: &BundleLine) -> Option<Stage>
        ensures { result ≡ next_stage self line.now }
    {
        match (self, line) {
            (Stage::Start, BundleLine::Head) => Some(Stage::Named),
            (Stage::Named, BundleLine::Source { .. }) => Some(Stage::Measured),
            (Stage::Measured, BundleLine::Without { .. }) => Some(Stage::Opened),
            (Stage::Opened | Stage::Item, BundleLine::Function { .. }) => Some(Stage::Function),
            (Stage::Opened | Stage::Item, BundleLine::End) => Some(Stage::Ended),
            (Stage::Function | Stage::Item, BundleLine::Unstable { .. }) => Some(Stage::Candidate),
            (Stage::Function | Stage::Item, BundleLine::Left { .. }) => Some(Stage::Item),
            (Stage::Candidate, BundleLine::Hit { .. }) => Some(Stage::Set),
            (Stage::Set, BundleLine::Need { .. } | BundleLine::Open { .. }) => Some(Stage::Set),
            (Stage::Set, BundleLine::Tried) => Some(Stage::Item),
            (Stage::Set, BundleLine::Clauses { .. }) => Some(Stage::Clauses),
            (Stage::Clauses, BundleLine::Steps { .. }) => Some(Stage::Item),
            _ => None,
        }
    }
}

// Conditions of undefined behaviour.
ghost use Rattle.std.specs.Prelude.{◌≡◌};
ghost use Rattle.stk_numbers.specs.Taken.{is_taken, number_of};

use stk_base::List;

/// A kind of undefined behaviour, in the order of their numbers from 1 to 8: signed overflow, division by zero,
/// oversized shift, null dereference, pointer overflow, index out of bounds, absolute value overflow, overlapping copy.
#[derive(Clone, Copy, Debug, PartialEq, Eq)]
pub enum UbKind {
    Overflow,
    Zero,
    Shift,
    Null,
    Pointer,
    Bounds,
    AbsValue,
    Overlap,
}

/// A condition of a function: one kind of undefined behaviour at one node, by the node's number.
#[derive(Clone, Copy, Debug, PartialEq, Eq)]
pub struct Condition {
    pub node: u32,
    pub kind: UbKind,
}

/// What a candidate fragment may be found to be: code that is never entered, a test that is always true or always
/// false, a comparison that is the same as its replacement.
#[derive(Clone, Copy, Debug, PartialEq, Eq)]
pub enum CandKind {
    Arm,
    AlwaysTrue,
    AlwaysFalse,
    Algebra,
}

/// A candidate fragment of a function: a node, by its number, and what it may be found to be.
#[derive(Clone, Copy, Debug, PartialEq, Eq)]
pub struct Candidate {
    pub node: u32,
    pub kind: CandKind,
}

/// An input map: a number for each key of a function, in the order of the keys.
#[derive(Debug, Drop)]
pub struct Inputs {
    pub numbers: List<i128>,
}

/// The kinds of undefined behaviour that are taken out of the table: true for taken out.
#[derive(Clone, Copy, Debug, PartialEq, Eq)]
pub struct Kinds {
    pub overflow: bool,
    pub zero: bool,
    pub shift: bool,
    pub null: bool,
    pub pointer: bool,
    pub bounds: bool,
    pub abs: bool,
    pub copy: bool,
}

impl UbKind {
    /// The number of a kind, from 1 to 8, by which conditions at one node are ordered.
    pub fn number(self) -> u8
        ensures { result ≡ number_of self }
    {
        match self {
            UbKind::Overflow => 1,
            UbKind::Zero => 2,
            UbKind::Shift => 3,
            UbKind::Null => 4,
            UbKind::Pointer => 5,
            UbKind::Bounds => 6,
            UbKind::AbsValue => 7,
            UbKind::Overlap => 8,
        }
    }
}

impl Kinds {
    /// Whether a kind is taken out.
    pub fn has(self, kind: UbKind) -> bool
        ensures { result ≡ is_taken self kind }
    {
        match kind {
            UbKind::Overflow => self.overflow,
            UbKind::Zero => self.zero,
            UbKind::Shift => self.shift,
            UbKind::Null => self.null,
            UbKind::Pointer => self.pointer,
            UbKind::Bounds => self.bounds,
            UbKind::AbsValue => self.abs,
            UbKind::Overlap => self.copy,
        }
    }
}

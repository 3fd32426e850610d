//! What the arguments of a term should be, for the term to have a wanted number.

use stk_terms::TermOp;

/// An argument of a term: its width, the number that it has or should have, and whether it is a constant.
#[derive(Clone, Copy)]
pub(crate) struct Operand {
    pub(crate) width: u8,
    pub(crate) number: u128,
    pub(crate) is_constant: bool,
}

/// A term, its first two arguments and the condition of a choice, and the number that the term should have. Where either
/// argument may change, it is the first one if `changes_first`.
#[derive(Clone, Copy)]
pub(crate) struct Wish {
    pub(crate) op: TermOp,
    pub(crate) width: u8,
    pub(crate) first: Operand,
    pub(crate) second: Operand,
    pub(crate) third: Operand,
    pub(crate) target: u128,
    pub(crate) changes_first: bool,
}

/// The numbers that the arguments of a term should have, where it matters.
#[derive(Clone, Copy)]
pub(crate) struct Targets {
    pub(crate) first: Option<u128>,
    pub(crate) second: Option<u128>,
    pub(crate) third: Option<u128>,
}

impl Targets {
    /// No wishes.
    pub(crate) fn none() -> Targets {
        Targets {
            first: None,
            second: None,
            third: None,
        }
    }

    /// A number for the first argument.
    pub(crate) fn first(number: u128) -> Targets {
        Targets {
            first: Some(number),
            second: None,
            third: None,
        }
    }

    /// A number for the second argument.
    pub(crate) fn second(number: u128) -> Targets {
        Targets {
            first: None,
            second: Some(number),
            third: None,
        }
    }

    /// Numbers for the first two arguments.
    pub(crate) fn both(first: u128, second: u128) -> Targets {
        Targets {
            first: Some(first),
            second: Some(second),
            third: None,
        }
    }

    /// A number for the first argument if `is_first`, and else for the second.
    pub(crate) fn one(is_first: bool, first: u128, second: u128) -> Targets {
        if is_first {
            Targets::first(first)
        } else {
            Targets::second(second)
        }
    }
}

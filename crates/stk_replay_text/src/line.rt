//! The lines of a replay as data.

use stk_numbers::UbKind;
use stk_records::{Claim, Spot};

/// A line of a replay: one for each entry of the trace, then one for each candidate that is hit, and last how the
/// execution ends.
#[derive(Debug, Drop)]
pub enum ReplayLine {
    /// A condition of this kind is violated at a node.
    Violated {
        at: Spot,
        kind: UbKind,
    },
    /// A node is entered.
    Entered {
        at: Spot,
    },
    /// A node has this truth, and its replacement that one, where it has a replacement.
    Seen {
        at: Spot,
        truth: bool,
        replaced: Option<bool>,
    },
    /// A candidate is hit.
    Hit {
        at: Spot,
        claim: Claim,
    },
    /// The execution comes to the end of the body.
    Fell,
    /// It returns.
    Returned,
    /// It is cut: a loop would take one turn more than it may, no answer is left, or a function is called that doesn't
    /// return.
    Cut,
}

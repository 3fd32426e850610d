//! What is known of the expressions that an initialiser holds.

ghost use Rattle.std.specs.Prelude.{◌≡◌};
ghost use Rattle.stk_type_rules.specs.Facts.{fact_of};
ghost use Rattle.stk_typing.specs.Leaves.{no_leaf, leaf, merged};

use stk_type_rules::{NodeFact, is_struct, reads_scalar};

/// What is known of the expressions of an initialiser: whether one is neither a scalar nor a struct, and whether one is
/// a struct.
#[derive(Clone, Copy, Debug, PartialEq, Eq)]
pub struct Leaves {
    pub has_other: bool,
    pub has_struct: bool,
}

impl Leaves {
    /// No expression.
    pub fn none() -> Leaves
        ensures { result ≡ no_leaf }
    {
        Leaves {
            has_other: false,
            has_struct: false,
        }
    }

    /// One expression.
    pub fn of(x: &NodeFact) -> Leaves
        ensures { result ≡ leaf (fact_of x.now) }
    {
        let has_struct = is_struct(&x.ty);
        Leaves {
            has_other: !reads_scalar(&x.ty) && !has_struct,
            has_struct,
        }
    }

    /// The expressions of two parts.
    pub fn merged(self, other: Leaves) -> Leaves
        ensures { result ≡ merged self other }
    {
        Leaves {
            has_other: self.has_other || other.has_other,
            has_struct: self.has_struct || other.has_struct,
        }
    }
}

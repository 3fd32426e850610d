//! Sides of comparisons.

use stk_walking::Operand;

/// A side of a comparison: the value of an expression and, where it is a sum or difference, its operands' values.
#[derive(Clone, Copy, Debug)]
pub(crate) struct Sides<T> {
    pub(crate) number: T,
    pub(crate) left: Operand<T>,
    pub(crate) right: Operand<T>,
}

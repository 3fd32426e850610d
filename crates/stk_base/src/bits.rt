//! A list of bits: the inputs of a circuit, or the values of the variables of some clauses.

use crate::list::List;

/// Bits in order, each `true` for 1.
#[derive(Debug, Drop, PartialEq)]
pub struct Bits {
    pub bits: List<bool>,
}

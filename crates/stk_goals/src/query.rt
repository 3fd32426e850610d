//! A query of a function.

use stk_numbers::{Candidate, Condition};

/// A query of a function: whether some valid input map's path run hits a candidate, by its place in the list of the
/// function's candidates, with no condition of a set violated before (Wang, Zeldovich, Kaashoek, Solar-Lezama, SOSP
/// 2013, section 3).
#[derive(Clone, Copy)]
pub struct Query<'a> {
    pub position: u32,
    pub candidate: Candidate,
    pub set: &'a [Condition],
}

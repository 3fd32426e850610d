//! The state of a walk.

use std::alloc::Global;
use stk_numbers::{Candidate, Condition};

/// What a step says of a run: it violates a condition, or hits a candidate.
#[derive(Clone, Copy, Debug, PartialEq, Eq)]
pub enum Event {
    Broken(Condition),
    Hit(Candidate),
}

/// A step of a walk: an event, and the test that says whether the run makes it.
#[derive(Clone, Copy, Debug)]
pub struct GuardedEvent<T> {
    pub event: Event,
    pub test: T,
}

/// A kept object: whether a number of it is kept, and a number, which counts only then.
#[derive(Clone, Copy, Debug)]
pub struct KeptCell<T> {
    pub known: T,
    pub number: T,
}

/// Where a walk has come to: whether the run has come here, whether it has left the statement round this place by
/// `break`, and by `continue`; the registers, by the numbers of their declarators; the kept objects, by their
/// positions; and the steps so far. All of them are values, and those that aren't numbers are tests.
#[derive(Drop)]
pub struct WalkState<T> {
    pub guard: T,
    pub broken: T,
    pub continued: T,
    pub registers: Vec<T>,
    pub cells: Vec<KeptCell<T>>,
    pub steps: Vec<GuardedEvent<T>>,
    pub alloc: Global,
}

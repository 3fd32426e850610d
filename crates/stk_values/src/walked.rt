// What a walk over a function answers.
use stk_base::List;
use stk_numbers::Condition;

/// A step of a walk: a condition that is violated, or a candidate, by its position in the list of candidates, that is
/// hit, each where its value, a test, is 1.
#[derive(Clone, Copy, Debug, PartialEq, Eq)]
pub enum Step<T> {
    Broken(Condition, T),
    Hit(u32, T),
}

/// Whether the input map is valid, as a test, and the steps in the order of evaluation.
#[derive(Debug, Drop)]
pub struct Walked<T> {
    pub valid: T,
    pub steps: List<Step<T>>,
}

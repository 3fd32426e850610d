//! Which numbers the first input maps have.

use std::alloc::Global;
use stk_base::NoMemory;
use stk_function_types::{FunctionTypes, function_visits};
use stk_tree::Function;

/// Which numbers an input map has, but for addresses, which are chosen so that objects lie apart.
#[derive(Clone, Copy, Debug)]
pub enum Choice {
    /// The same number for each key, converted to its kind.
    Same(i64),
    /// The least number of each key's kind.
    Least,
    /// The greatest one.
    Greatest,
    /// Numbers of a generator that begins with this one: small ones, powers of 2, and others.
    Drawn(u64),
}

/// The choices of each function.
pub static CHOICES: [Choice; 40] = [
    Choice::Same(0),
    Choice::Same(1),
    Choice::Same(-1),
    Choice::Least,
    Choice::Greatest,
    Choice::Same(2),
    Choice::Same(3),
    Choice::Same(4),
    Choice::Same(5),
    Choice::Same(7),
    Choice::Same(8),
    Choice::Same(10),
    Choice::Same(16),
    Choice::Same(31),
    Choice::Same(32),
    Choice::Same(63),
    Choice::Same(64),
    Choice::Same(100),
    Choice::Same(127),
    Choice::Same(128),
    Choice::Same(255),
    Choice::Same(1000),
    Choice::Same(4096),
    Choice::Same(65536),
    Choice::Same(-2),
    Choice::Same(-100),
    Choice::Drawn(1),
    Choice::Drawn(2),
    Choice::Drawn(3),
    Choice::Drawn(4),
    Choice::Drawn(5),
    Choice::Drawn(6),
    Choice::Drawn(7),
    Choice::Drawn(8),
    Choice::Drawn(9),
    Choice::Drawn(10),
    Choice::Drawn(11),
    Choice::Drawn(12),
    Choice::Drawn(13),
    Choice::Drawn(14),
];

// The most numbers of a function that are tried as inputs.
const MOST_NUMBERS: usize = 4000;

// Whether a number is one that each function is tried with.
fn is_choice(number: i64) -> bool {
    CHOICES.iter().any(|choice| matches!(choice, Choice::Same(other) if *other == number))
}

// The numbers that stand in a function: constants, enumerators and the labels of cases, ascending, each once.
fn numbers_of(alloc: Global, types: &FunctionTypes, f: &Function) -> Result<Vec<i64>, NoMemory> {
    let visits = function_visits(alloc, types, f)?;
    let mut numbers = Vec::new(alloc);
    for visit in &visits {
        let constant = types.constant(visit.node);
        if let Some(number) = constant.and_then(|n| i64::try_from(n).ok()) {
            numbers.push(number)?;
        }
    }
    numbers.sort_unstable();
    numbers.dedup();
    Ok(numbers)
}

/// The choices of the numbers that stand in a function, up to 4,000 of them, ascending, without those that each
/// function is tried with. An input that is compared with a constant, or that chooses a section of a `switch`, is
/// likely to be one of them. No clause says which there are, since a search may begin with any.
pub fn number_choices(
    alloc: Global,
    types: &FunctionTypes,
    f: &Function,
) -> Result<Vec<Choice>, NoMemory> {
    let numbers = numbers_of(alloc, types, f)?;
    let mut choices = Vec::new(alloc);
    for number in numbers.iter().take(MOST_NUMBERS) {
        if !is_choice(*number) {
            choices.push(Choice::Same(*number))?;
        }
    }
    Ok(choices)
}

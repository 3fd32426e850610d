// The inputs that the values of variables are.
ghost use Rattle.std.specs.Prelude.{◌≡◌, ◌+◌, ◌^◌, ◌<◌, ◌≤◌, length, sum, IfOk};
ghost use Rattle.stk_terms.specs.Fitting.{AreWidths};
ghost use Rattle.stk_goal_clauses.specs.Reading.{bits_number, residues_in};

use std::alloc::Global;
use stk_base::{List, NoMemory};
use stk_terms::Residues;

/// The number that bits are, the least one first.
fn number_of(bits: &[bool]) -> u64
    requires { length bits.now ≤ 64 }
    ensures is { result ≡ bits_number bits.now }
    ensures below { result < 2 ^ length bits.now }
{
    match bits.split_first() {
        None => 0,
        Some((least, others)) => u64::from(*least) + 2 * number_of(others),
    }
}

/// The residues of inputs of these widths, each from 1 to 64, whose bits are the first of the values: one input after
/// the other, the least bit first. So they are the inputs of values that satisfy the clauses of a goal.
pub fn residues_from(alloc: Global, widths: &[u8], values: &[bool]) -> Result<Residues, NoMemory>
    requires widths { AreWidths widths.now }
    requires enough { sum widths.now ≤ length values.now }
    ensures { IfOk result (λ r. r.numbers ≡ residues_in widths.now values.now) }
{
    let mut numbers = Vec::with_capacity(alloc, widths.len())?;
    let mut rest = widths;
    let mut left = values;
    while let Some((width, behind)) = rest.split_first() {
        let (bits, others) = left.split_at(*width as usize);
        numbers.push(number_of(bits))?;
        rest = behind;
        left = others;
    }
    Ok(Residues {
        numbers: List::from_vec(numbers),
    })
}

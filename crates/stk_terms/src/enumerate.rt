// All residues of the inputs in their order.
ghost use Rattle.std.specs.Prelude.{◌≡◌, ◌≢◌, ◌+◌, ◌/◌, ◌%◌, ◌<◌, ◌≤◌, ◌^◌, ℕ, List, true, false, length, IfOk, OnOk, MatchOption};
ghost use Rattle.stk_terms.specs.Fitting.{AreResidues};
ghost use Rattle.stk_terms.specs.Values.{number_at};
ghost use Rattle.stk_terms.specs.Ordered.{bits_in, residues_at, IsFirst};
ghost use Rattle.stk_terms.specs.Orders.{IsOrder, HasPlace};

use crate::{Residues, TermId, Terms};
use std::alloc::Global;
use stk_base::{List, NoMemory};

/// How many inputs are tried at most: those of 16 bits.
const MOST_BITS: u32 = 16;

/// How many bits the inputs have together, and 17 if they have more than 16.
pub fn input_bits(terms: &Terms) -> u32
    ensures few { bits_in terms.now.inputs ≤ 16 → result ≡ bits_in terms.now.inputs }
    ensures many { 16 < bits_in terms.now.inputs → result ≡ 17 }
{
    let mut rest = terms.widths();
    let mut bits = 0;
    while let Some((width, behind)) = rest.split_first() {
        bits += *width as u32;
        if bits > MOST_BITS {
            return MOST_BITS + 1;
        }
        rest = behind;
    }
    bits
}

/// How many numbers have so many bits.
fn count_of(bits: u32) -> u32
    requires { bits ≤ 16 }
    ensures { result ≡ 2 ^ bits }
{
    1 << bits
}

/// So many bits of a number, above the lowest `left` ones.
fn bits_of(number: u32, left: u32, width: u8) -> u64
    requires low { left ≤ 16 }
    requires few { width ≤ 16 }
    ensures { result ≡ (number / 2 ^ left) % 2 ^ width }
{
    u64::from(number >> left) % (1u64 << width)
}

/// Makes the residues those with this number, in their order. It takes memory only where there was too little.
fn put_residues(
    residues: &mut Vec<u64>,
    widths: &[u8],
    bits: u32,
    number: u32,
) -> Result<(), NoMemory>
    requires bits { bits ≡ bits_in widths.now }
    requires few { bits ≤ 16 }
    ensures { OnOk result (residues.new.items ≡ residues_at widths.now number) }
{
    residues.clear();
    let mut left = bits;
    let mut rest = widths;
    while let Some((width, behind)) = rest.split_first() {
        left -= *width as u32;
        residues.push(bits_of(number, left, *width))?;
        rest = behind;
    }
    Ok(())
}

/// The number of a term for residues of the inputs, by the numbers of all terms of an order that has its place. These
/// are left in `numbers`, each at its term's place.
pub fn number_with(
    terms: &Terms,
    goal: TermId,
    order: &[usize],
    residues: &[u64],
    numbers: &mut [u128],
) -> u128
    requires order { IsOrder terms.now (length numbers.old) order.now }
    requires has { HasPlace order.now goal.0 }
    requires residues { AreResidues terms.now.inputs residues.now }
    requires long { length numbers.old ≡ goal.0 + 1 }
    ensures is { result ≡ number_at terms.now residues.now goal.0 }
    ensures long { length numbers.new ≡ length numbers.old }
{
    terms.evaluate(order, residues, numbers);
    numbers[goal.0]
}

/// Whether some residues make the term 1; the first that do are left in `residues`.
fn is_found(
    terms: &Terms,
    goal: TermId,
    order: &[usize],
    numbers: &mut [u128],
    residues: &mut Vec<u64>,
) -> Result<bool, NoMemory>
    requires order { IsOrder terms.now (length numbers.old) order.now }
    requires has { HasPlace order.now goal.0 }
    requires long { length numbers.old ≡ goal.0 + 1 }
    requires few { bits_in terms.now.inputs ≤ 16 }
    ensures first { IfOk result (λ b. b ≡ true → IsFirst terms.now goal.0 residues.new.items) }
    ensures none { IfOk result (λ b. b ≡ false → (rs : List ℕ) → AreResidues terms.now.inputs rs → number_at terms.now rs goal.0 ≢ 1) }
{
    let bits = input_bits(terms);
    for number in 0..count_of(bits) {
        put_residues(residues, terms.widths(), bits, number)?;
        if number_with(terms, goal, order, residues, numbers) == 1 {
            return Ok(true);
        }
    }
    Ok(false)
}

/// The first residues of the inputs that make the term 1, or `None` where none do. The inputs are ordered by the first
/// one, then by the next. Each is tried by one evaluation of the term's parts, without memory of its own.
pub fn first_that(alloc: Global, terms: &Terms, goal: TermId) -> Result<Option<Residues>, NoMemory>
    requires exists { goal.0 < length terms.now.terms }
    requires few { bits_in terms.now.inputs ≤ 16 }
    ensures { IfOk result (λ r. MatchOption r ((rs : List ℕ) → AreResidues terms.now.inputs rs → number_at terms.now rs goal.0 ≢ 1) (λ f. IsFirst terms.now goal.0 f.numbers)) }
{
    // For the prover: there are at most as many terms as a usize counts.
    let _count = terms.count();
    let order = terms.order(goal)?;
    let mut numbers = vec![in alloc; 0u128; goal.0 + 1]?;
    let mut residues = Vec::with_capacity(alloc, terms.widths().len())?;
    if is_found(terms, goal, &order, &mut numbers, &mut residues)? {
        return Ok(Some(Residues {
            numbers: List::from_vec(residues),
        }));
    }
    Ok(None)
}

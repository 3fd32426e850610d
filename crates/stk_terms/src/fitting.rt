//! Whether arguments and residues fit: the tests for what the calls of a store ask.
ghost use Rattle.std.specs.Prelude.{◌≡◌, ◌↔◌, ◌+◌, ◌<◌, ◌≤◌, ◌^◌, length, IsTrue};
ghost use Rattle.stk_terms.specs.Fitting.{arity, AreBelow, AreResidues, WidthsFit};

use crate::term::{TermId, TermOp};

/// How many arguments an operator has.
pub(crate) fn arity_of(op: TermOp) -> usize
    ensures { result ≡ arity op }
{
    match op {
        TermOp::Constant(_, _) | TermOp::Input(_) => 0,
        TermOp::Not | TermOp::Neg => 1,
        TermOp::Extract(_, _) | TermOp::ZeroExt(_) | TermOp::SignExt(_) => 1,
        TermOp::Ite => 3,
        _ => 2,
    }
}

/// Whether all arguments are among the first terms.
pub(crate) fn are_below(count: usize, args: &[TermId]) -> bool
    ensures { IsTrue result ↔ AreBelow count args.now }
{
    for arg in args {
        if arg.0 >= count {
            return false;
        }
    }
    true
}

// Whether the number is below 2 to the width, which is from 1 to 128.
fn is_number(width: u8, number: u128) -> bool
    ensures { IsTrue result ↔ ((1 ≤ width) × (width ≤ 128) × (number < 2 ^ width)) }
{
    1 <= width && width <= 128 && (width == 128 || number < 1 << width)
}

// Whether the bits from one on, as many as the size says, are within the width.
fn is_cut(low: u8, size: u8, width: u8) -> bool
    ensures { IsTrue result ↔ ((1 ≤ size) × (low + size ≤ width)) }
{
    1 <= size && low <= width && size <= width - low
}

// Whether the size is at least the width, and at most 128.
fn is_wider(width: u8, size: u8) -> bool
    ensures { IsTrue result ↔ ((width ≤ size) × (size ≤ 128)) }
{
    width <= size && size <= 128
}

// Whether the two together are at most 128 wide.
fn are_joinable(first: u8, second: u8) -> bool
    ensures { IsTrue result ↔ (first + second ≤ 128) }
{
    first <= 128 && second <= 128 - first
}

// Whether the first is 1 wide, and the others alike.
fn are_choice(test: u8, first: u8, second: u8) -> bool
    ensures { IsTrue result ↔ ((test ≡ 1) × (first ≡ second)) }
{
    test == 1 && first == second
}

/// Whether the widths of the arguments, and the numbers in the operator, fit it.
pub(crate) fn widths_fit(inputs: &[u8], op: TermOp, first: u8, second: u8, third: u8) -> bool
    ensures { IsTrue result ↔ WidthsFit inputs.now op first second third }
{
    match op {
        TermOp::Constant(width, number) => is_number(width, number),
        TermOp::Input(key) => (key as usize) < inputs.len(),
        TermOp::Not | TermOp::Neg => true,
        TermOp::Extract(low, size) => is_cut(low, size, first),
        TermOp::ZeroExt(size) | TermOp::SignExt(size) => is_wider(first, size),
        TermOp::Concat => are_joinable(first, second),
        TermOp::Ite => are_choice(first, second, third),
        _ => first == second,
    }
}

// Whether the residue is below 2 to the width.
fn is_residue(width: u8, residue: u64) -> bool
    ensures { IsTrue result ↔ (residue < 2 ^ width) }
{
    if width >= 64 {
        true
    } else {
        residue < 1 << width
    }
}

/// Whether there is one residue for each input, below 2 to its width.
pub(crate) fn are_residues(inputs: &[u8], residues: &[u64]) -> bool
    ensures { IsTrue result ↔ AreResidues inputs.now residues.now }
{
    if inputs.len() != residues.len() {
        return false;
    }
    for k in 0..inputs.len() {
        if !is_residue(inputs[k], residues[k]) {
            return false;
        }
    }
    true
}

//! The rows of inputs and of constants.

ghost use Rattle.std.specs.Prelude.{◌≡◌, ℕ, ◌+◌, ◌*◌, ◌^◌, ◌<◌, ◌≤◌, Bool, length, sum, slice_index, IfOk};
ghost use Rattle.stk_gates.specs.Tables.{Table, Obeys};
ghost use Rattle.stk_arith.specs.Rows.{number, AreEdges};
ghost use Rattle.stk_blast.specs.Inputs.{AreFirsts, residues_of};

use std::alloc::Global;
use stk_arith::{constant_row, gate_row};
use stk_base::{List, NoMemory};
use stk_gates::Edge;

/// The first gate of each input: one for each bit, behind the constant's.
pub(crate) fn firsts_of(alloc: Global, widths: &[u8]) -> Result<Vec<u32>, NoMemory>
    requires few { sum widths.now < 2 ^ 29 }
    ensures { IfOk result (λ r. AreFirsts widths.now r.items) }
{
    let mut firsts = Vec::with_capacity(alloc, widths.len())?;
    let mut first = 1;
    for i in 0..widths.len() {
        firsts.push(first)?;
        first += widths[i] as u32;
    }
    Ok(firsts)
}

/// The row of an input.
pub(crate) fn input_row(
    alloc: Global,
    widths: &[u8],
    firsts: &[u32],
    key: usize,
) -> Result<List<Edge>, NoMemory>
    requires key { key < length widths.now }
    requires few { sum widths.now < 2 ^ 29 }
    requires firsts { AreFirsts widths.now firsts.now }
    ensures length { IfOk result (λ r. length r ≡ slice_index widths.now key) }
    ensures edges { IfOk result (λ r. (t : Table) → t.inputs ≡ sum widths.now → AreEdges t r) }
    ensures value { IfOk result (λ r. (values : ℕ → Bool) → number values r ≡ slice_index (residues_of widths.now values) key) }
{
    let row = gate_row(alloc, firsts[key], widths[key] as u32)?;
    Ok(row)
}

/// The row of a constant of a width.
pub(crate) fn number_row(alloc: Global, width: u8, value: u128) -> Result<List<Edge>, NoMemory>
    requires width { width ≤ 128 }
    requires value { value < 2 ^ width }
    ensures length { IfOk result (λ r. length r ≡ width) }
    ensures edges { IfOk result (λ r. (t : Table) → AreEdges t r) }
    ensures value { IfOk result (λ r. (t : Table) (values : ℕ → Bool) → Obeys t values → number values r ≡ value) }
{
    let row = constant_row(alloc, width as usize, value)?;
    Ok(row)
}

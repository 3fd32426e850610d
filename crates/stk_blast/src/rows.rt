//! Rows without a gate of their own, and differences, in the words of terms.

ghost use Rattle.std.specs.Prelude.{◌≡◌, ℕ, ◌+◌, ◌-◌, ◌*◌, ◌%◌, ◌^◌, ◌<◌, ◌≤◌, Bool, length, IfOk};
ghost use Rattle.stk_gates.specs.Tables.{Table, Obeys, Extends, AddsWithin, HasRoom};
ghost use Rattle.stk_arith.specs.Rows.{number, AreEdges};
ghost use Rattle.stk_terms.specs.Values.{extended};

use std::alloc::Global;
use stk_arith::{inverted_row, sign_extended, sub};
use stk_base::{List, NoMemory};
use stk_gates::{Edge, Gates};

/// The row with each bit inverted.
pub(crate) fn inverted(alloc: Global, row: &[Edge]) -> Result<List<Edge>, NoMemory>
    ensures length { IfOk result (λ r. length r ≡ length row.now) }
    ensures edges { IfOk result (λ r. (t : Table) → AreEdges t row.now → AreEdges t r) }
    ensures value { IfOk result (λ r. (values : ℕ → Bool) → number values r ≡ 2 ^ length row.now - 1 - number values row.now) }
{
    let bits = inverted_row(alloc, row)?;
    Ok(List::from_vec(bits))
}

/// The row with copies of its sign bit in front, up to a width.
pub(crate) fn widened(alloc: Global, row: &[Edge], width: usize) -> Result<List<Edge>, NoMemory>
    requires some { 0 < length row.now }
    requires wider { length row.now ≤ width }
    ensures length { IfOk result (λ r. length r ≡ width) }
    ensures edges { IfOk result (λ r. (t : Table) → AreEdges t row.now → AreEdges t r) }
    ensures value { IfOk result (λ r. (values : ℕ → Bool) → number values r ≡ extended (length row.now) width (number values row.now)) }
{
    let bits = sign_extended(alloc, row, width)?;
    Ok(bits)
}

/// The difference of two rows, modulo 2 to their width.
pub(crate) fn difference(
    alloc: Global,
    gates: &mut Gates,
    a: &[Edge],
    b: &[Edge],
) -> Result<List<Edge>, NoMemory>
    requires same { length b.now ≡ length a.now }
    requires a { AreEdges gates.old a.now }
    requires b { AreEdges gates.old b.now }
    requires room { HasRoom gates.old (10 * length a.now) }
    ensures length { IfOk result (λ r. length r ≡ length a.now) }
    ensures edges { IfOk result (AreEdges gates.new) }
    ensures value { IfOk result (λ r. (values : ℕ → Bool) → Obeys gates.new values → number values r ≡ (number values a.now + (2 ^ length a.now - number values b.now)) % 2 ^ length a.now) }
    ensures extends { Extends gates.old gates.new }
    ensures adds { AddsWithin gates.old gates.new (10 * length a.now) }
{
    let bits = sub(alloc, gates, a, b)?;
    Ok(bits)
}

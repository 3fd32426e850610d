//! Shifts in the words of terms.

ghost use Rattle.std.specs.Prelude.{◌≡◌, ℕ, ◌+◌, ◌-◌, ◌*◌, ◌/◌, ◌%◌, ◌^◌, ◌<◌, ◌≤◌, Bool, length, IfOk, nat_lt, if◌then◌else◌};
ghost use Rattle.stk_gates.specs.Tables.{Obeys, Extends, AddsWithin, HasRoom};
ghost use Rattle.stk_arith.specs.Rows.{number, AreEdges};
ghost use Rattle.stk_terms.specs.Values.{extended, sign_bits};

use std::alloc::Global;
use stk_arith::{shift_left, shift_right, shift_right_signed};
use stk_base::{List, NoMemory};
use stk_gates::{Edge, Gates};

/// The first row shifted to the left by the second row's number.
pub(crate) fn left(
    alloc: Global,
    gates: &mut Gates,
    a: &[Edge],
    b: &[Edge],
) -> Result<List<Edge>, NoMemory>
    requires same { length b.now ≡ length a.now }
    requires some { 0 < length a.now }
    requires few { length a.now ≤ 128 }
    requires a { AreEdges gates.old a.now }
    requires b { AreEdges gates.old b.now }
    requires room { HasRoom gates.old (24 * length a.now) }
    ensures length { IfOk result (λ r. length r ≡ length a.now) }
    ensures edges { IfOk result (AreEdges gates.new) }
    ensures value { IfOk result (λ r. (values : ℕ → Bool) → Obeys gates.new values → number values r ≡ (if nat_lt (number values b.now) (length a.now) then (number values a.now * 2 ^ number values b.now) % 2 ^ length a.now else 0)) }
    ensures extends { Extends gates.old gates.new }
    ensures adds { AddsWithin gates.old gates.new (24 * length a.now) }
{
    let row = shift_left(alloc, gates, a, b)?;
    Ok(row)
}

/// The first row shifted to the right by the second row's number, filled with zeros.
pub(crate) fn right(
    alloc: Global,
    gates: &mut Gates,
    a: &[Edge],
    b: &[Edge],
) -> Result<List<Edge>, NoMemory>
    requires same { length b.now ≡ length a.now }
    requires some { 0 < length a.now }
    requires few { length a.now ≤ 128 }
    requires a { AreEdges gates.old a.now }
    requires b { AreEdges gates.old b.now }
    requires room { HasRoom gates.old (24 * length a.now) }
    ensures length { IfOk result (λ r. length r ≡ length a.now) }
    ensures edges { IfOk result (AreEdges gates.new) }
    ensures value { IfOk result (λ r. (values : ℕ → Bool) → Obeys gates.new values → number values r ≡ (if nat_lt (number values b.now) (length a.now) then number values a.now / 2 ^ number values b.now else 0)) }
    ensures extends { Extends gates.old gates.new }
    ensures adds { AddsWithin gates.old gates.new (24 * length a.now) }
{
    let row = shift_right(alloc, gates, a, b)?;
    Ok(row)
}

/// The first row shifted to the right by the second row's number, filled with its sign bit.
pub(crate) fn right_signed(
    alloc: Global,
    gates: &mut Gates,
    a: &[Edge],
    b: &[Edge],
) -> Result<List<Edge>, NoMemory>
    requires same { length b.now ≡ length a.now }
    requires some { 0 < length a.now }
    requires few { length a.now ≤ 128 }
    requires a { AreEdges gates.old a.now }
    requires b { AreEdges gates.old b.now }
    requires room { HasRoom gates.old (24 * length a.now) }
    ensures length { IfOk result (λ r. length r ≡ length a.now) }
    ensures edges { IfOk result (AreEdges gates.new) }
    ensures value { IfOk result (λ r. (values : ℕ → Bool) → Obeys gates.new values → number values r ≡ (if nat_lt (number values b.now) (length a.now) then extended (length a.now - number values b.now) (length a.now) (number values a.now / 2 ^ number values b.now) else sign_bits (length a.now) (number values a.now))) }
    ensures extends { Extends gates.old gates.new }
    ensures adds { AddsWithin gates.old gates.new (24 * length a.now) }
{
    let row = shift_right_signed(alloc, gates, a, b)?;
    Ok(row)
}

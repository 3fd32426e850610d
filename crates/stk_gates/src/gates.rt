//! The table of gates: it grows by AND gates, and tells them and their values.

ghost use Rattle.std.specs.Prelude.{◌≡◌, ℕ, ◌+◌, ◌*◌, ◌^◌, ◌<◌, ◌≤◌, Bool, ◌&&◌, ◌||◌, not, if◌then◌else◌, [], length, slice_get, Some, None, IfOk, OnErr};
ghost use Rattle.stk_gates.specs.Edges.{edge_value, folded};
ghost use Rattle.stk_gates.specs.Tables.{Table, gate_count, HasRoom, IsEdge, Obeys, HasInputs, IsGateOf, Extends, AddsWithin, IsOrdered, IsReduced, IsShared};
ghost use Rattle.stk_gates.specs.Laws.{known_as};

use crate::Edge;
use crate::folding::without_gate;
use indexmap::IndexSet;
use std::alloc::Global;
use std::marker::Model;
use stk_base::{Bits, NoMemory};

/// A table of AND gates. Gate 0 is the constant false, gates 1 to `inputs` are the inputs in order, and each AND gate
/// takes the next number. Two ANDs of the same edges are one gate, in either order.
#[derive(Drop)]
pub struct Gates {
    inputs: u32,
    pairs: IndexSet<(Edge, Edge)>,
}

impl Model for Gates {
    ghost use Rattle.std.specs.Prelude.{◌+◌, ◌^◌, ◌≤◌, length};
    ghost use Rattle.stk_gates.specs.Tables.{Table, IsOrdered, IsReduced};

    ghost Value = { Table };

    ghost view = { λ s. record { inputs = s.inputs; pairs = s.pairs.keys } };

    ghost invariant = { λ s. (1 + s.inputs + length s.pairs.keys ≤ 2 ^ 29) × IsOrdered (record { inputs = s.inputs; pairs = s.pairs.keys }) × IsReduced (record { inputs = s.inputs; pairs = s.pairs.keys }) };
}

impl Gates {
    /// A table with the constant and this many inputs, and no AND gate.
    pub fn new(alloc: Global, inputs: u32) -> Gates
        requires { inputs < 2 ^ 29 }
        ensures { result ≡ record { inputs = inputs; pairs = [] } }
    {
        Gates {
            inputs,
            pairs: IndexSet::new(alloc),
        }
    }

    /// How many gates there are: the constant, the inputs and the AND gates.
    pub fn count(&self) -> u32
        ensures count { result ≡ gate_count self.now }
        ensures few { result ≤ 2 ^ 29 }
        ensures ordered { IsOrdered self.now }
        ensures reduced { IsReduced self.now }
        ensures shared { IsShared self.now }
    {
        1 + self.inputs + self.pairs.len() as u32
    }

    /// How many inputs there are.
    pub fn inputs(&self) -> u32
        ensures { result ≡ self.now.inputs }
    {
        self.inputs
    }

    /// The gate of two edges, one that is there or a new one.
    fn gate(&mut self, a: Edge, b: Edge) -> Result<Edge, NoMemory>
        requires room { HasRoom self.old 1 }
        requires a { IsEdge self.old a }
        requires b { IsEdge self.old b }
        requires order { a.0 < b.0 }
        requires whole { folded a b ≡ None }
        ensures edge { IfOk result (IsEdge self.new) }
        ensures value { IfOk result (λ e. (gates : ℕ → Bool) → Obeys self.new gates → edge_value gates e ≡ edge_value gates a && edge_value gates b) }
        ensures made { IfOk result (IsGateOf self.new a b) }
        ensures shared { (e : Edge) → IsGateOf self.old a b e → (result ≡ Ok e) × (self.new ≡ self.old) }
        ensures extends { Extends self.old self.new }
        ensures adds { AddsWithin self.old self.new 1 }
        ensures refused { OnErr result (self.new ≡ self.old) }
    {
        let (place, _) = self.pairs.insert_full((a, b))?;
        Ok(Edge(2 * (1 + self.inputs + place as u32)))
    }

    /// The AND of two edges. It is an edge that is there where one of the two is constant, or both come from one gate,
    /// or there is a gate of these edges already; else it is a new gate. `NoMemory` leaves the table as it was.
    #[tactic(auto, using(crate::proofs::Growth::growth))]
    pub fn and(&mut self, a: Edge, b: Edge) -> Result<Edge, NoMemory>
        requires room { HasRoom self.old 1 }
        requires a { IsEdge self.old a }
        requires b { IsEdge self.old b }
        ensures edge { IfOk result (IsEdge self.new) }
        ensures value { IfOk result (λ e. (gates : ℕ → Bool) → Obeys self.new gates → edge_value gates e ≡ edge_value gates a && edge_value gates b) }

        // What needs no gate gets none, equal gates are one, and else there is a gate of these edges now.
        ensures folded { (e : Edge) → folded a b ≡ Some e → (result ≡ Ok e) × (self.new ≡ self.old) }
        ensures shared { (e : Edge) → folded a b ≡ None → IsGateOf self.old a b e → (result ≡ Ok e) × (self.new ≡ self.old) }
        ensures made { folded a b ≡ None → IfOk result (IsGateOf self.new a b) }

        ensures extends { Extends self.old self.new }
        ensures adds { AddsWithin self.old self.new 1 }
        ensures refused { OnErr result (self.new ≡ self.old) }
    {
        if let Some(edge) = without_gate(a, b) {
            return Ok(edge);
        }
        if a.0 < b.0 {
            self.gate(a, b)
        } else {
            self.gate(b, a)
        }
    }

    /// The OR of two edges.
    pub fn or(&mut self, a: Edge, b: Edge) -> Result<Edge, NoMemory>
        requires room { HasRoom self.old 1 }
        requires a { IsEdge self.old a }
        requires b { IsEdge self.old b }
        ensures edge { IfOk result (IsEdge self.new) }
        ensures value { IfOk result (λ e. (gates : ℕ → Bool) → Obeys self.new gates → edge_value gates e ≡ edge_value gates a || edge_value gates b) }
        ensures extends { Extends self.old self.new }
        ensures adds { AddsWithin self.old self.new 1 }
    {
        Ok(self.and(a.inverted(), b.inverted())?.inverted())
    }

    /// Whether exactly one of two edges is true.
    #[tactic(auto, using(crate::proofs::Growth::growth))]
    pub fn xor(&mut self, a: Edge, b: Edge) -> Result<Edge, NoMemory>
        requires room { HasRoom self.old 3 }
        requires a { IsEdge self.old a }
        requires b { IsEdge self.old b }
        ensures edge { IfOk result (IsEdge self.new) }
        ensures value { IfOk result (λ e. (gates : ℕ → Bool) → Obeys self.new gates → edge_value gates e ≡ (if edge_value gates a then not (edge_value gates b) else edge_value gates b)) }
        ensures extends { Extends self.old self.new }
        ensures adds { AddsWithin self.old self.new 3 }
    {
        let both = self.and(a, b)?;
        let some = self.or(a, b)?;
        Ok(self.and(some, both.inverted())?)
    }

    /// The edge `yes` where `test` is true, and else the edge `no`.
    #[tactic(auto, using(crate::proofs::Growth::growth))]
    pub fn mux(&mut self, test: Edge, yes: Edge, no: Edge) -> Result<Edge, NoMemory>
        requires room { HasRoom self.old 3 }
        requires test { IsEdge self.old test }
        requires yes { IsEdge self.old yes }
        requires no { IsEdge self.old no }
        ensures edge { IfOk result (IsEdge self.new) }
        ensures value { IfOk result (λ e. (gates : ℕ → Bool) → Obeys self.new gates → edge_value gates e ≡ (if edge_value gates test then edge_value gates yes else edge_value gates no)) }
        ensures extends { Extends self.old self.new }
        ensures adds { AddsWithin self.old self.new 3 }
    {
        let first = self.and(test, yes)?;
        let second = self.and(test.inverted(), no)?;
        Ok(self.or(first, second)?)
    }

    /// The two edges of an AND gate, the lower one first; `None` exactly where the number is no AND gate of the table.
    pub fn operands(&self, gate: u32) -> Option<(Edge, Edge)>
        ensures below { gate ≤ self.now.inputs → result ≡ None }
        ensures within { (k : ℕ) → gate ≡ 1 + self.now.inputs + k → result ≡ slice_get self.now.pairs k }
    {
        if gate <= self.inputs {
            None
        } else {
            self.pairs
                .get_index((gate - self.inputs - 1) as usize)
                .copied()
        }
    }

    /// The value of an edge where the inputs have these bits, in order. It takes one pass over the gates.
    pub fn eval(&self, edge: Edge, inputs: &Bits) -> Result<bool, NoMemory>
        requires inputs { length inputs.now.bits ≡ self.now.inputs }
        requires edge { IsEdge self.now edge }
        ensures { IfOk result (λ b. (gates : ℕ → Bool) → Obeys self.now gates → HasInputs self.now gates inputs.now.bits → b ≡ edge_value gates edge) }
    {
        // For the prover: the gates keep their facts.
        let _ = self.count();
        let mut values = Vec::new(*self.pairs.allocator());
        values.push(false)?;
        values.extend_from_slice(inputs.bits.as_slice())?;
        for pair in self.pairs.as_slice() {
            let value = known(&values, pair.0) && known(&values, pair.1);
            values.push(value)?;
        }
        Ok(known(&values, edge))
    }
}

/// The value of an edge, where these are the values of the first gates.
fn known(values: &[bool], edge: Edge) -> bool
    requires { edge.0 < 2 * length values.now }
    ensures { result ≡ edge_value (known_as values.now) edge }
{
    let value = values[(edge.0 / 2) as usize];
    if edge.0 % 2 == 0 { value } else { !value }
}

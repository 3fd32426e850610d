//! Edges: what points to a gate, inverted or not.

ghost use Rattle.std.specs.Prelude.{◌≡◌, ℕ, ◌*◌, ◌/◌, ◌^◌, ◌<◌, Bool, not};
ghost use Rattle.stk_gates.specs.Edges.{edge_value, inverse};

/// An edge: 2 times the number of its gate, plus 1 if it is inverted.
#[derive(Clone, Copy, Debug, PartialEq, Eq, Hash)]
pub struct Edge(pub u32);

impl Edge {
    pub const FALSE: Edge = Edge(0);

    pub const TRUE: Edge = Edge(1);

    /// The edge of this gate that isn't inverted.
    pub fn of_gate(gate: u32) -> Edge
        requires { gate < 2 ^ 31 }
        ensures gate { result.0 ≡ 2 * gate }
        ensures value { (values : ℕ → Bool) → edge_value values result ≡ values gate }
    {
        Edge(2 * gate)
    }

    /// The edge of the same gate that is true where this one is false.
    pub fn inverted(self) -> Edge
        ensures is { result ≡ inverse self }
        ensures gate { result.0 / 2 ≡ self.0 / 2 }
        ensures value { (values : ℕ → Bool) → edge_value values result ≡ not (edge_value values self) }
    {
        if self.0 % 2 == 0 {
            Edge(self.0 + 1)
        } else {
            Edge(self.0 - 1)
        }
    }
}

//! Which ANDs of two edges need no gate.

ghost use Rattle.std.specs.Prelude.{◌≡◌, ℕ, ◌*◌, ◌<◌, Bool, ◌&&◌, IfSome};
ghost use Rattle.stk_gates.specs.Edges.{edge_value, folded};
ghost use Rattle.stk_gates.specs.Tables.{Table, IsEdge, Obeys};

use crate::Edge;

/// The edge that the AND of two edges is without a gate of its own, if it is one.
#[tactic(auto, using(crate::proofs::Edges::folds))]
pub(crate) fn without_gate(a: Edge, b: Edge) -> Option<Edge>
    ensures is { result ≡ folded a b }
    ensures edge { IfSome result (λ e. (t : Table) → IsEdge t a → IsEdge t b → IsEdge t e) }
    ensures value { IfSome result (λ e. (t : Table) (gates : ℕ → Bool) → Obeys t gates → edge_value gates e ≡ edge_value gates a && edge_value gates b) }
{
    if a == Edge::FALSE || b == Edge::FALSE || a == b.inverted() {
        Some(Edge::FALSE)
    } else if a == Edge::TRUE || a == b {
        Some(b)
    } else if b == Edge::TRUE {
        Some(a)
    } else {
        None
    }
}

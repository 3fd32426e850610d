//! What a node of a tree carries beside its form.
ghost use Rattle.std.specs.Prelude.{◌≡◌};
ghost use Rattle.stk_tree.specs.Unlaid.{no_node};

use stk_base::Span;

/// What a node of a tree carries beside its form.
///
/// `number` counts the nodes of a unit from 0, children from left to right, then their parent. `span` reaches from the
/// first byte of the node's first token to the end of its last token; a node that prints no token has the empty span
/// where the next token of the unit begins.
#[derive(Clone, Copy, Debug, PartialEq, Eq)]
pub struct Node {
    pub number: u32,
    pub span: Span,
}

/// The record of a node that isn't laid out yet.
pub fn no_node() -> Node
    ensures { result ≡ no_node }
{
    Node {
        number: 0,
        span: Span { from: 0, to: 0 },
    }
}

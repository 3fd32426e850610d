//! The nodes of a store, each of them once.
ghost use Rattle.std.specs.Prelude.{◌≡◌, ℕ, ◌++◌, ◌∷◌, [], IfOk, OnOk, OnErr};
ghost use Rattle.stk_terms.specs.Keys.{plain, Once, StandsIn, AddsNode};

use crate::term::TermNode;
use indexmap::IndexSet;
use std::alloc::AllocError;

/// The place of a node, which is added where it isn't there.
pub(crate) fn add(nodes: &mut IndexSet<TermNode>, node: TermNode) -> Result<usize, AllocError>
    ensures stands { IfOk result (λ i. StandsIn nodes.new.keys i node) }
    ensures shared { (i : ℕ) → StandsIn nodes.old.keys i node → IfOk result (λ j. j ≡ i) }
    ensures adds { OnOk result (AddsNode nodes.old.keys node nodes.new.keys) }
    ensures once { Once nodes.new.keys }
    ensures err { OnErr result (nodes.new.keys ≡ nodes.old.keys) }
{
    let (place, _) = nodes.insert_full(node)?;
    Ok(place)
}

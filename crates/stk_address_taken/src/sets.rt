//! Numbers of nodes, with a test in constant time.

ghost use Rattle.std.specs.Prelude.{◌≡◌, ◌<◌, ◌||◌, ◌==◌, List, ℕ, Bool, false, true, get_or, length, IfOk, OnOk};
ghost use Rattle.stk_address_taken.specs.Sets.{is_listed};

use std::alloc::Global;
use std::marker::Model;
use stk_base::NoMemory;

/// Numbers of nodes. Whether a node is one of them is told in constant time.
#[derive(Drop)]
pub struct NodeSet {
    list: Vec<u32>,
    marks: Vec<bool>,
}

impl Model for NodeSet {
    ghost use Rattle.std.specs.Prelude.{◌≡◌, ℕ, List, false, get_or};
    ghost use Rattle.stk_address_taken.specs.Sets.{is_listed};

    ghost Value = { List ℕ };

    ghost view = { λ s. s.list.items };

    ghost invariant = { λ s. (k : ℕ) → get_or s.marks.items k false ≡ is_listed k s.list.items };
}

// Puts marks that aren't set behind the others, so that there is one at this place.
#[tactic(auto, using(crate::proofs::Marking::unset_behind))]
fn reach(marks: &mut Vec<bool>, place: usize) -> Result<(), NoMemory>
    ensures reached { OnOk result (place < length marks.new.items) }
    ensures same { OnOk result ((k : ℕ) → get_or marks.new.items k false ≡ get_or marks.old.items k false) }
{
    while marks.len() <= place {
        marks.push(false)?;
    }
    Ok(())
}

// Sets the mark of a node.
#[tactic(auto, using(crate::proofs::Marking::set_mark))]
fn mark(marks: &mut Vec<bool>, node: u32) -> Result<(), NoMemory>
    ensures { OnOk result ((k : ℕ) → get_or marks.new.items k false ≡ (k == node || get_or marks.old.items k false)) }
{
    let place = node as usize;
    reach(marks, place)?;
    marks[place] = true;
    Ok(())
}

// The marks of these nodes.
fn marks_of(alloc: Global, list: &[u32]) -> Result<Vec<bool>, NoMemory>
    ensures { IfOk result (λ marks. (k : ℕ) → get_or marks.items k false ≡ is_listed k list.now) }
{
    let mut marks = Vec::new(alloc);
    for node in list {
        mark(&mut marks, *node)?;
    }
    Ok(marks)
}

impl NodeSet {
    /// The set of these numbers. It takes as much memory as the greatest number says.
    pub fn of(alloc: Global, list: Vec<u32>) -> Result<NodeSet, NoMemory>
        ensures { IfOk result (λ s. s ≡ list.items) }
    {
        let marks = marks_of(alloc, list.as_slice())?;
        Ok(NodeSet { list, marks })
    }

    /// Whether a node is one of them.
    pub fn has(&self, node: u32) -> bool
        ensures { result ≡ is_listed node self.now }
    {
        match self.marks.get(node as usize) {
            Some(marked) => *marked,
            None => false,
        }
    }
}

//! For each of some numbers, which are those of nodes mostly, the first place that was put under it.

ghost use Rattle.std.specs.Prelude.{◌≡◌, ◌<◌, ◌==◌, ℕ, if◌then◌else◌, length, get_or, set, None, Some, OnOk};
ghost use Rattle.stk_path_runs.specs.Places.{slot_in, first_of};

use std::alloc::Global;
use stk_base::NoMemory;

/// For each node, by its number, the first place that was put under it. It takes as much memory as the greatest number
/// says, and its calls take constant time, over all nodes together.
#[derive(Drop)]
pub struct Slots {
    pub list: Vec<Option<usize>>,
}

// Puts empty slots behind the others, so that there is one at this place.
#[tactic(auto, using(crate::proofs::Slotted::empty_behind))]
fn reach(list: &mut Vec<Option<usize>>, at: usize) -> Result<(), NoMemory>
    ensures reached { OnOk result (at < length list.new.items) }
    ensures same { OnOk result ((k : ℕ) → get_or list.new.items k None ≡ get_or list.old.items k None) }
{
    while list.len() <= at {
        list.push(None)?;
    }
    Ok(())
}

// Puts a place into a slot, unless there is one in it.
fn put_first(list: &mut Vec<Option<usize>>, at: usize, place: usize)
    requires { at < length list.old.items }
    ensures { (k : ℕ) → get_or list.new.items k None ≡ (if at == k then first_of (get_or list.old.items k None) place else get_or list.old.items k None) }
{
    if let Some(_) = list[at] {
        return;
    }
    list[at] = Some(place);
}

impl Slots {
    /// No places. It takes no memory.
    pub fn new(alloc: Global) -> Slots
        ensures { (k : ℕ) → slot_in result k ≡ None }
    {
        Slots {
            list: Vec::new(alloc),
        }
    }

    /// The first place under a number; none where there is none.
    pub fn get(&self, number: usize) -> Option<usize>
        ensures { result ≡ slot_in self.now number }
    {
        match self.list.get(number) {
            None => None,
            Some(found) => *found,
        }
    }

    /// The first place under a node; none where there is none.
    pub fn at(&self, node: u32) -> Option<usize>
        ensures { result ≡ slot_in self.now node }
    {
        self.get(node as usize)
    }

    /// Puts a place under a node, unless there is one.
    pub fn put(&mut self, node: u32, place: usize) -> Result<(), NoMemory>
        ensures { OnOk result ((k : ℕ) → slot_in self.new k ≡ (if node == k then first_of (slot_in self.old k) place else slot_in self.old k)) }
    {
        let at = node as usize;
        reach(&mut self.list, at)?;
        put_first(&mut self.list, at, place);
        Ok(())
    }
}

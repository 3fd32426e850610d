// Where the search for a new watch begins.
use std::alloc::Global;
use stk_base::NoMemory;

/// Of each clause the place among its literals where the last search for a new watch ended. No clause rests on it.
#[derive(Drop)]
pub(crate) struct Starts {
    places: Vec<u32>,
}

impl Starts {
    /// So many clauses, each with the place 0.
    pub(crate) fn reserve(alloc: Global, count: usize) -> Result<Starts, NoMemory> {
        let places = vec![in alloc; 0u32; count]?;
        Ok(Starts { places })
    }

    /// One clause more, with the place 0.
    pub(crate) fn add(&mut self) -> Result<(), NoMemory> {
        self.places.push(0)?;
        Ok(())
    }

    /// The place of a clause, 0 where it has none.
    pub(crate) fn place(&self, id: u32) -> usize {
        if (id as usize) < self.places.len() {
            self.places[id as usize] as usize
        } else {
            0
        }
    }

    /// The search in a clause ended at a place.
    pub(crate) fn put(&mut self, id: u32, place: usize) {
        if (id as usize) < self.places.len() {
            self.places[id as usize] = (place & 0xffff_ffff) as u32;
        }
    }
}

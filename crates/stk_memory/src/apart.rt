//! Whether cells stand at addresses that differ.

ghost use Rattle.std.specs.Prelude.{◌≡◌, ◌↔◌, ℕ, Option, None, Some, IsTrue, IfOk, nat_eq, if◌then◌else◌};
ghost use Rattle.indexmap.specs.IndexMap.{get};
ghost use Rattle.stk_memory.specs.Image.{AreApart};

use crate::image::Cell;
use indexmap::IndexMap;
use std::alloc::Global;
use stk_base::NoMemory;

/// Notes an address among those that were seen, and tells whether it is new.
fn note(seen: &mut IndexMap<u64, u8>, at: u64, byte: u8) -> Result<bool, NoMemory>
    ensures is_new { IfOk result (λ t. IsTrue t ↔ (get nat_eq seen.old at ≡ None)) }
    ensures noted { IfOk result (λ t. (a : ℕ) → get nat_eq seen.new a ≡ (if nat_eq at a then Some byte else get nat_eq seen.old a)) }
{
    match seen.insert(at, byte)? {
        Some(_byte) => Ok(false),
        None => Ok(true),
    }
}

/// Whether the addresses of cells all differ, so that the cells are those of an image. It takes linear time, as hashing
/// goes, and memory for the addresses.
///
/// # Errors
///
/// `NoMemory` where memory is wanting.
pub fn are_apart(alloc: Global, cells: &[Cell]) -> Result<bool, NoMemory>
    ensures { IfOk result (λ t. IsTrue t ↔ AreApart cells.now) }
{
    let mut seen = IndexMap::new(alloc);
    for cell in cells {
        if !note(&mut seen, cell.at, cell.byte)? {
            return Ok(false);
        }
    }
    Ok(true)
}

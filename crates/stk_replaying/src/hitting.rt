//! Which candidates a trace hits.

ghost use Rattle.std.specs.Prelude.{◌≡◌, ◌<◌, ◌^◌, IfOk, length};
ghost use Rattle.stk_replaying.specs.Replaying.{hit_places};

use crate::marks::Marks;
use std::alloc::Global;
use stk_base::NoMemory;
use stk_meaning::Entry;
use stk_numbers::Candidate;

/// The positions of the candidates that a trace hits, ascending. It goes over the trace once, and over the candidates
/// once.
pub(crate) fn hit_places(
    alloc: Global,
    list: &[Candidate],
    trace: &[Entry],
) -> Result<Vec<u32>, NoMemory>
    requires { length list.now < 2 ^ 32 }
    ensures { IfOk result (λ places. places.items ≡ hit_places list.now trace.now) }
{
    let marks = Marks::of(alloc, trace)?;
    let mut places = Vec::new(alloc);
    for (at, candidate) in list.iter().enumerate() {
        if marks.has(*candidate) {
            places.push(at as u32)?;
        }
    }
    Ok(places)
}

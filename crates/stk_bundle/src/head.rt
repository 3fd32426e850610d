// The lines with which a bundle begins.
ghost use Rattle.std.specs.Prelude.{◌≡◌, ◌++◌, IfOk};
ghost use Rattle.stk_bundle.specs.Heads.{taken_among, head_lines};

use crate::BundleLine;
use std::alloc::Global;
use stk_base::{List, NoMemory};
use stk_numbers::{Kinds, UbKind};

// The kinds in the order of their numbers.
static KINDS: [UbKind; 8] = [
    UbKind::Overflow,
    UbKind::Zero,
    UbKind::Shift,
    UbKind::Null,
    UbKind::Pointer,
    UbKind::Bounds,
    UbKind::AbsValue,
    UbKind::Overlap,
];

// Those of these kinds that are taken out.
fn taken_among(alloc: Global, without: Kinds, kinds: &[UbKind]) -> Result<Vec<UbKind>, NoMemory>
    ensures { IfOk result (λ list. list.items ≡ taken_among without kinds.now) }
{
    let mut list = Vec::new(alloc);
    for kind in kinds {
        if without.has(*kind) {
            list.push(*kind)?;
        }
    }
    Ok(list)
}

/// The first three lines of a bundle: what it is, how many bytes its source has, and the kinds of undefined behaviour
/// that are taken out, in the order of their numbers.
pub fn head_lines(alloc: Global, length: u64, without: Kinds) -> Result<Vec<BundleLine>, NoMemory>
    ensures { IfOk result (λ lines. lines.items ≡ head_lines length without) }
{
    let kinds = taken_among(alloc, without, &KINDS)?;
    let mut lines = Vec::new(alloc);
    lines.push(BundleLine::Head)?;
    lines.push(BundleLine::Source { length })?;
    lines.push(BundleLine::Without {
        kinds: List::from_vec(kinds),
    })?;
    Ok(lines)
}

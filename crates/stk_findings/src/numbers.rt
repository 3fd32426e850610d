//! The input map of residues.

ghost use Rattle.std.specs.Prelude.{◌≡◌, ◌<◌, ◌^◌, IfOk, map};
ghost use Rattle.stk_numbers.specs.Kinds.{width_of};
ghost use Rattle.stk_terms.specs.Fitting.{AreResidues};
ghost use Rattle.stk_values.specs.Standing.{stands};
ghost use Rattle.stk_symbols.specs.Maps.{map_of};

use std::alloc::Global;
use stk_base::{List, NoMemory};
use stk_numbers::{Inputs, IntKind, wrap};

// The number of a kind that has these bits.
#[tactic(auto, using(crate::proofs::Wrapped::wraps))]
fn number_of(kind: IntKind, residue: u64) -> i128
    requires { residue < 2 ^ width_of kind }
    ensures { result ≡ stands kind residue }
{
    wrap(kind, i128::from(residue))
}

/// The input map whose numbers, of these kinds in order, have these residues.
pub(crate) fn inputs_of(
    alloc: Global,
    kinds: &[IntKind],
    residues: &[u64],
) -> Result<Inputs, NoMemory>
    requires { AreResidues (map width_of kinds.now) residues.now }
    ensures { IfOk result (λ inputs. inputs.numbers ≡ map_of kinds.now residues.now) }
{
    let mut numbers = Vec::new(alloc);
    let mut left = kinds;
    let mut rest = residues;
    while let Some((kind, others)) = left.split_first() {
        let Some((residue, behind)) = rest.split_first() else {
            return Ok(Inputs {
                numbers: List::from_vec(numbers),
            });
        };
        numbers.push(number_of(*kind, *residue))?;
        left = others;
        rest = behind;
    }
    Ok(Inputs {
        numbers: List::from_vec(numbers),
    })
}

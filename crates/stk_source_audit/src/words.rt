// The numbers of an input map, by what is left of each modulo 2 to the width of its key.
ghost use Rattle.std.specs.Prelude.{◌≡◌, ◌<◌, ◌^◌, ◌↔◌, map, IfOk, IsTrue, MatchOption};
ghost use Rattle.stk_numbers.specs.Kinds.{width_of};
ghost use Rattle.stk_terms.specs.Fitting.{AreResidues};
ghost use Rattle.stk_values.specs.Standing.{stands};
ghost use Rattle.stk_symbols.specs.Maps.{map_of};
ghost use Rattle.stk_source_audit.specs.Asked.{AreWordsOf};

use std::alloc::Global;
use stk_base::NoMemory;
use stk_numbers::{IntKind, width};
use stk_operators::Word;

/// The number of a kind that has these bits.
#[tactic(auto, using(crate::proofs::Wrapped::wraps))]
fn word_of(kind: IntKind, residue: u64) -> Word
    requires { residue < 2 ^ width_of kind }
    ensures { result ≡ stands kind residue }
{
    Word::wrapped(kind, i128::from(residue))
}

/// Whether a number is below 2 to the width of a kind.
fn is_below(kind: IntKind, residue: u64) -> bool
    ensures { IsTrue result ↔ (residue < 2 ^ width_of kind) }
{
    u128::from(residue) < 1 << width(kind)
}

/// The numbers of keys of these kinds by their residues; none where there are more or fewer residues than keys, or one
/// is out of range.
pub(crate) fn words_of(
    alloc: Global,
    kinds: &[IntKind],
    residues: &[u64],
) -> Result<Option<Vec<Word>>, NoMemory>
    ensures { IfOk result (λ words. MatchOption words (AreResidues (map width_of kinds.now) residues.now → ⊥) (λ ws. AreWordsOf kinds.now residues.now ws.items)) }
{
    let mut words = Vec::new(alloc);
    let mut left = kinds;
    let mut rest = residues;
    while let Some((kind, others)) = left.split_first() {
        let Some((residue, behind)) = rest.split_first() else {
            return Ok(None);
        };
        if !is_below(*kind, *residue) {
            return Ok(None);
        }
        words.push(word_of(*kind, *residue))?;
        left = others;
        rest = behind;
    }
    if rest.is_empty() {
        Ok(Some(words))
    } else {
        Ok(None)
    }
}

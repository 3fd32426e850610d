// The store of values that are terms.
ghost use Rattle.std.specs.Prelude.{◌≡◌, map, IfOk};
ghost use Rattle.stk_numbers.specs.Kinds.{width_of};
ghost use Rattle.stk_terms.specs.Terms.{no_terms};
ghost use Rattle.stk_rewrite.specs.Normal.{AreNormal};

use std::alloc::Global;
use std::marker::Model;
use stk_base::{List, NoMemory};
use stk_numbers::{IntKind, width};
use stk_rewrite::NormalTerms;
use stk_terms::Terms;

/// The store of values that are terms. The inputs of its terms are the keys of a function, in order, at the widths of
/// their kinds. An input map gives each input the residue of its number, and the number of a value has the number of
/// its term as its residue.
///
/// Contracts see it as the kinds of its keys and its terms.
#[derive(Drop)]
pub struct Symbols {
    kinds: List<IntKind>,
    pub(crate) terms: NormalTerms,
}

impl Model for Symbols {
    ghost use Rattle.stk_symbols.specs.Symbolic.{Symbolic};

    ghost Value = { Symbolic };

    ghost view = { λ s. record { kinds = s.kinds; terms = s.terms } };
}

impl Symbols {
    /// The store for the keys of a function, by their kinds in the order of the keys. It has no terms yet.
    pub fn new(alloc: Global, kinds: &[IntKind]) -> Result<Symbols, NoMemory>
        ensures kinds { IfOk result (λ s. s.kinds ≡ kinds.now) }
        ensures terms { IfOk result (λ s. s.terms ≡ no_terms (map width_of kinds.now)) }
    {
        let widths = widths_of(alloc, kinds)?;
        let own = copied(alloc, kinds)?;
        Ok(Symbols {
            kinds: own,
            terms: NormalTerms::new(alloc, widths),
        })
    }

    /// The terms made so far, none of which is the left side of a rewriting rule.
    pub fn terms(&self) -> &Terms
        ensures same { result.now ≡ self.now.terms }
        ensures normal { AreNormal self.now.terms }
    {
        self.terms.terms()
    }
}

// The widths of kinds.
fn widths_of(alloc: Global, kinds: &[IntKind]) -> Result<List<u8>, NoMemory>
    ensures { IfOk result (λ ws. ws ≡ map width_of kinds.now) }
{
    let mut widths = Vec::new(alloc);
    for kind in kinds {
        widths.push(width(*kind))?;
    }
    Ok(List::from_vec(widths))
}

// A list of the same kinds.
fn copied(alloc: Global, kinds: &[IntKind]) -> Result<List<IntKind>, NoMemory>
    ensures { IfOk result (λ ks. ks ≡ kinds.now) }
{
    let mut own = Vec::new(alloc);
    for kind in kinds {
        own.push(*kind)?;
    }
    Ok(List::from_vec(own))
}

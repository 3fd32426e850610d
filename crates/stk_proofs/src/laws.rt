// Laws of the texts.
ghost use Rattle.stk_proofs.specs.Laws.{ClausesAreReadBack, DerivationsAreReadBack, HasOneReading, ReadClausesFit, ReadDerivationsFit};

/// The text of a clause list says this list and no other, and the text of a derivation this derivation; a text says one
/// derivation at most; and what a text says may be written.
pub fn texts_are_read_back()
    ensures clauses { ClausesAreReadBack }
    ensures derivations { DerivationsAreReadBack }
    ensures once { HasOneReading }
    ensures clauses_fit { ReadClausesFit }
    ensures derivations_fit { ReadDerivationsFit }
{}

//! What the inputs of terms are as inputs of a table, as laws over the definitions.

ghost use Rattle.stk_blast.specs.Laws.{GatesGiveResidues, BitsAreEnough, BitsGiveResidues, RowsAreTerms};

/// Values of the input gates are residues in range, each residues are those of some input bits, and a term's row is
/// the term for all residues.
pub fn readings()
    ensures give { GatesGiveResidues }
    ensures enough { BitsAreEnough }
    ensures given { BitsGiveResidues }
    ensures terms { RowsAreTerms }
{}

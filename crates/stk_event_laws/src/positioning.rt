//! Laws of the positions of candidates.

ghost use Rattle.stk_event_laws.specs.Positions.{CandidatesStandAtPositions, TracesAreListed};

/// Each candidate of a function stands at its position in the list of them, and has no other position.
pub fn candidates_stand_at_positions()
    ensures { CandidatesStandAtPositions }
{}

/// What a trace says by the positions of the candidates that it hits, each in the order of the list, is what its
/// entries say one after the other, each candidate by its position. Asked is that the candidates that it hits are the
/// function's.
pub fn traces_are_listed()
    ensures { TracesAreListed }
{}

// The notes of skimming, passed once with the units.

ghost use Rattle.std.specs.Prelude.{◌≡◌};
ghost use Rattle.stk_lex.specs.Begun.{notes_from, is_first_before};

/// The notes from a byte on.
#[tactic(auto, unfolding(crate::specs::Begun::notes_from))]
pub(crate) fn notes_from(end: u32, notes: &[u32]) -> &[u32]
    ensures { result.now ≡ notes_from end notes.now }
{
    let mut rest = notes;
    while let Some((note, behind)) = rest.split_first() {
        if *note >= end {
            return rest;
        }
        rest = behind;
    }
    rest
}

/// Whether the first note lies before a byte.
pub(crate) fn is_first_before(byte: u32, notes: &[u32]) -> bool
    ensures { result ≡ is_first_before byte notes.now }
{
    match notes.split_first() {
        Some((note, _)) => *note < byte,
        None => false,
    }
}

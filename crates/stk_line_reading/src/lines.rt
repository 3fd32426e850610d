// The first lines of texts.
ghost use Rattle.std.specs.Prelude.{ℕ, List, MatchOption};
ghost use Rattle.stk_line_reading.specs.Lines.{IsFirst};

use crate::cutting::cut_at;

/// The first line of a text, without its newline, and what comes behind that; `None` exactly where no newline comes.
pub fn first_line(text: &[u8]) -> Option<(&[u8], &[u8])>
    ensures { MatchOption result ((line behind : List ℕ) → IsFirst text.now line behind → ⊥) (λ p. IsFirst text.now p.0.now p.1.now) }
{
    let (line, rest) = cut_at(text, b'\n');
    match rest.split_first() {
        Some((_, behind)) => Some((line, behind)),
        None => None,
    }
}

// Lines that begin with a word.
ghost use Rattle.std.specs.Prelude.{◌≡◌, ◌≤◌, ℕ, List, MatchOption};
ghost use Rattle.stk_replay_script.specs.Fields.{IsField, IsNumberField, IsEnd};

use stk_line_reading::{first_line, number_in};

/// What stands behind a word that a text begins with, up to the newline, and what comes behind that; `None` exactly
/// where no such line comes.
pub(crate) fn field<'a>(text: &'a [u8], word: &[u8]) -> Option<(&'a [u8], &'a [u8])>
    ensures { MatchOption result ((content behind : List ℕ) → IsField word.now text.now content behind → ⊥) (λ p. IsField word.now text.now p.0.now p.1.now) }
{
    let content = text.strip_prefix(word)?;
    first_line(content)
}

/// The same where a number stands behind the word, at most so great.
pub(crate) fn number_field<'a>(text: &'a [u8], word: &[u8], most: u64) -> Option<(u64, &'a [u8])>
    ensures { MatchOption result ((n : ℕ) (behind : List ℕ) → IsNumberField word.now most text.now n behind → ⊥) (λ p. IsNumberField word.now most text.now p.0 p.1.now) }
{
    let (content, behind) = field(text, word)?;
    let number = number_in(content)?;
    if number <= most {
        Some((number, behind))
    } else {
        None
    }
}

/// What comes behind the line `end` that a text begins with; nothing where the text is that line without a newline.
/// `None` exactly where it doesn't begin so.
pub(crate) fn source_behind(text: &[u8]) -> Option<&[u8]>
    ensures { MatchOption result ((source : List ℕ) → IsEnd text.now source → ⊥) (λ source. IsEnd text.now source.now) }
{
    let behind = text.strip_prefix(b"end".as_slice())?;
    if behind.is_empty() {
        return Some(behind);
    }
    behind.strip_prefix(b"\n".as_slice())
}

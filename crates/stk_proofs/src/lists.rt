// Lists of literals and of hints that are read, each up to the 0 that ends it.
ghost use Rattle.std.specs.Prelude.{◌≡◌, ◌<◌, ◌^◌, Some, None, length, IfOk, IsErrOf};
ghost use Rattle.stk_proofs.specs.Words.{words_of};
ghost use Rattle.stk_proofs.specs.Entries.{literal_entry, hint_entry, listed};

use crate::Text;
use crate::entries::{Entry, hint_entry, literal_entry};
use crate::words::next_word;
use stk_clauses::Lit;

/// Reads the literals in front of a text, of so many variables, up to the 0 that ends them, in place of what was found
/// before. The answer is the text behind.
pub(crate) fn read_literals<'a>(
    found: &mut Vec<Lit>,
    most: u32,
    text: &'a [u8],
) -> Result<&'a [u8], Text>
    requires { most < 2 ^ 31 }
    ensures read { IfOk result (λ rest. listed (literal_entry most) (words_of text.now) ≡ Some (found.new.items, words_of rest.now)) }
    ensures bad { IsErrOf result Text.Bad → listed (literal_entry most) (words_of text.now) ≡ None }
    ensures shorter { IfOk result (λ rest. length rest.now < length text.now) }
{
    found.clear();
    let mut rest = text;
    while let Some((word, behind)) = next_word(rest) {
        rest = behind;
        match literal_entry(most, word) {
            Entry::Bad => return Err(Text::Bad),
            Entry::End => return Ok(rest),
            Entry::Item(literal) => found.push(literal)?,
        }
    }
    Err(Text::Bad)
}

/// Reads the hints in front of a text, up to the 0 that ends them, in place of what was found before. The answer is the
/// text behind.
pub(crate) fn read_hints<'a>(found: &mut Vec<u32>, text: &'a [u8]) -> Result<&'a [u8], Text>
    ensures read { IfOk result (λ rest. listed hint_entry (words_of text.now) ≡ Some (found.new.items, words_of rest.now)) }
    ensures bad { IsErrOf result Text.Bad → listed hint_entry (words_of text.now) ≡ None }
    ensures shorter { IfOk result (λ rest. length rest.now < length text.now) }
{
    found.clear();
    let mut rest = text;
    while let Some((word, behind)) = next_word(rest) {
        rest = behind;
        match hint_entry(word) {
            Entry::Bad => return Err(Text::Bad),
            Entry::End => return Ok(rest),
            Entry::Item(hint) => found.push(hint)?,
        }
    }
    Err(Text::Bad)
}

// Skimming: words and groups that don't matter are dropped.

ghost use Rattle.std.specs.Prelude.{◌≡◌, ◌≤◌, length, IfOk};
ghost use Rattle.stk_base.specs.Limits.{most_bytes};
ghost use Rattle.stk_lex.specs.Cut.{AreSpans};
ghost use Rattle.stk_lex.specs.Skimming.{kept_tokens, notes_of, ArePositions};

use crate::Token;
use crate::ahead::{changes, closings};
use crate::dropping::{add_note, dropped};
use crate::spelled::depth_behind;
use std::alloc::Global;
use stk_base::{List, NoMemory};

/// What skimming leaves of a file: the tokens that it keeps, and its notes. A note is the byte at which a dropped word
/// begins that says, outside of brackets, that a function doesn't return.
#[derive(Debug, Drop)]
pub struct Skimmed {
    pub tokens: List<Token>,
    pub notes: List<u32>,
}

/// The tokens of a file, of which there are at most 16,777,216, without the words that don't matter, and the notes of
/// those that say that a function doesn't return.
///
/// Dropped are qualifiers, storage classes and function specifiers, as `const`, `auto` and `inline` (C11 6.7.1, 6.7.3,
/// 6.7.4), `__extension__`, and how compilers spell them; `__attribute__` with the group in parentheses that follows
/// it, unless an attribute in it changes what is declared, as `packed`; and outside of brackets `asm` with such a
/// group. A word whose group doesn't end is kept.
pub fn skim(alloc: Global, bytes: &[u8], tokens: &[Token]) -> Result<Skimmed, NoMemory>
    requires { length tokens.now ≤ most_bytes }
    ensures tokens { IfOk result (λ skimmed. skimmed.tokens ≡ kept_tokens bytes.now tokens.now) }
    ensures notes { IfOk result (λ skimmed. skimmed.notes ≡ notes_of bytes.now tokens.now) }
    ensures few { IfOk result (λ skimmed. length skimmed.tokens ≤ length tokens.now) }

    // Of tokens that stand one behind the other.
    ensures spans { AreSpans (length bytes.now) 0 tokens.now → IfOk result (λ skimmed. AreSpans (length bytes.now) 0 skimmed.tokens) }
    ensures positions { AreSpans (length bytes.now) 0 tokens.now → IfOk result (λ skimmed. ArePositions 0 skimmed.notes) }
{
    let ends = closings(alloc, bytes, tokens)?;
    let changes = changes(alloc, bytes, tokens)?;
    let mut kept = Vec::new(alloc);
    let mut notes = Vec::new(alloc);
    let mut depth: u32 = 0;
    let mut rest = tokens;
    while let Some((token, behind)) = rest.split_first() {
        let n = dropped(bytes, depth, *token, behind, &ends, &changes);
        if n == 0 {
            kept.push(*token)?;
            depth = depth_behind(bytes, depth, *token);
            rest = behind;
        } else {
            let (front, further) = rest.split_at(n as usize);
            add_note(&mut notes, bytes, depth, front)?;
            rest = further;
        }
    }
    Ok(Skimmed {
        tokens: List::from_vec(kept),
        notes: List::from_vec(notes),
    })
}

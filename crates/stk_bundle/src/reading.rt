// Lines that are read.
ghost use Rattle.std.specs.Prelude.{◌≡◌, IfOk, IfErr};
ghost use Rattle.stk_proofs.specs.declared.text.Text.TheVariants as texts;
ghost use Rattle.stk_bundle.specs.declared.line.BundleLine.{BundleLine as Line};
ghost use Rattle.stk_bundle.specs.Lines.{IsLine};
ghost use Rattle.stk_bundle.specs.Words.{IsBehind};

use crate::BundleLine;
use crate::kinds::kinds_behind;
use crate::numbers::{numbers_in, one_number, two_and_more, two_numbers};
use crate::word::{Word, word_in};
use std::alloc::Global;
use stk_line_reading::cut_at;
use stk_proofs::Text;

/// The line that begins with a word and has this behind it; `Bad` exactly where there is none.
fn line_of(alloc: Global, word: Word, behind: &[u8]) -> Result<BundleLine, Text>
    ensures ok { IfOk result (IsBehind word behind.now) }
    ensures bad { IfErr result (λ fault. fault ≡ texts.Bad → (line : Line) → IsBehind word behind.now line → ⊥) }
{
    match word {
        Word::Stack if behind == b" bundle 1".as_slice() => Ok(BundleLine::Head),
        Word::Source => {
            let length = one_number(behind)?;
            Ok(BundleLine::Source { length })
        }
        Word::Without => {
            let kinds = kinds_behind(alloc, behind)?;
            Ok(BundleLine::Without { kinds })
        }
        Word::Function => {
            let at = one_number(behind)?;
            Ok(BundleLine::Function { at })
        }
        Word::Unstable => {
            let (node, kind) = two_numbers(behind)?;
            Ok(BundleLine::Unstable { node, kind })
        }
        Word::Hit => {
            let start = numbers_in(alloc, behind)?;
            Ok(BundleLine::Hit { start })
        }
        Word::Need => {
            let (node, kind, start) = two_and_more(alloc, behind)?;
            Ok(BundleLine::Need { node, kind, start })
        }
        Word::Open => {
            let (node, kind) = two_numbers(behind)?;
            Ok(BundleLine::Open { node, kind })
        }
        Word::Tried if behind.is_empty() => Ok(BundleLine::Tried),
        Word::Clauses => {
            let lines = one_number(behind)?;
            Ok(BundleLine::Clauses { lines })
        }
        Word::Steps => {
            let lines = one_number(behind)?;
            Ok(BundleLine::Steps { lines })
        }
        Word::Left => {
            let (node, kind) = two_numbers(behind)?;
            Ok(BundleLine::Left { node, kind })
        }
        Word::End if behind.is_empty() => Ok(BundleLine::End),
        Word::Stack | Word::Tried | Word::End => Err(Text::Bad),
    }
}

/// The line that a text is, without its newline; `Bad` exactly where it is no line's text.
pub(crate) fn read_line(alloc: Global, text: &[u8]) -> Result<BundleLine, Text>
    ensures ok { IfOk result (IsLine text.now) }
    ensures bad { IfErr result (λ fault. fault ≡ texts.Bad → (line : Line) → IsLine text.now line → ⊥) }
{
    let (word, behind) = cut_at(text, b' ');
    match word_in(word) {
        Some(word) => line_of(alloc, word, behind),
        None => Err(Text::Bad),
    }
}

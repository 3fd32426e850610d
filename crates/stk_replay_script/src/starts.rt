//! Starts that are read.

ghost use Rattle.std.specs.Prelude.{◌≡◌, ◌++◌, ℕ, List, ℤ, MatchBool, MatchOption, IfOk};
ghost use Rattle.stk_records.specs.Text.{printed};
ghost use Rattle.stk_replay_script.specs.Starts.{IsStart, AreMore, AreAdded, IsNextInput};

use crate::numbers::signed_number_in;
use std::alloc::Global;
use stk_base::{List, NoMemory};
use stk_line_reading::cut_at;
use stk_records::printed_byte;

/// What comes behind a key, as records print it, where a text begins so.
fn behind_key<'a>(text: &'a [u8], key: &[u8]) -> Option<&'a [u8]>
    ensures { MatchOption result ((behind : List ℕ) → text.now ≡ printed key.now ++ behind → ⊥) (λ behind. text.now ≡ printed key.now ++ behind.now) }
{
    let mut left = text;
    for byte in key {
        let (first, behind) = left.split_first()?;
        if *first != printed_byte(*byte) {
            return None;
        }
        left = behind;
    }
    Some(left)
}

/// The number of a key with which a text begins, and what comes behind it: nothing or a space. `None` exactly where the
/// text doesn't begin so.
fn next_input<'a>(text: &'a [u8], key: &[u8]) -> Option<(i128, &'a [u8])>
    ensures { MatchOption result ((z : ℤ) (behind : List ℕ) → IsNextInput key.now text.now z behind → ⊥) (λ p. IsNextInput key.now text.now p.0 p.1.now) }
{
    let content = behind_key(text, key)?.strip_prefix(b"=".as_slice())?;
    let (word, behind) = cut_at(content, b' ');
    let number = signed_number_in(word)?;
    Some((number, behind))
}

/// Notes the numbers of keys that a text is, each with its key and behind a space; false exactly where it is no such
/// text.
fn add_more(numbers: &mut Vec<i128>, text: &[u8], keys: &[List<u8>]) -> Result<bool, NoMemory>
    ensures { IfOk result (λ found. MatchBool found (AreAdded keys.now text.now numbers.old.items numbers.new.items) ((xs : List ℤ) → AreMore keys.now text.now xs → ⊥)) }
{
    let mut left = text;
    for key in keys {
        let Some(content) = left.strip_prefix(b" ".as_slice()) else {
            return Ok(false);
        };
        let Some((number, behind)) = next_input(content, key.as_slice()) else {
            return Ok(false);
        };
        numbers.push(number)?;
        left = behind;
    }
    Ok(left.is_empty())
}

/// The numbers of a start: a text that gives each of these keys a number from -2^63 to 2^64 - 1, in order, as records
/// print starts; `none` where there are no keys. `None` exactly where it is no such text.
pub fn start_numbers(
    alloc: Global,
    text: &[u8],
    keys: &[List<u8>],
) -> Result<Option<Vec<i128>>, NoMemory>
    ensures { IfOk result (λ read. MatchOption read ((xs : List ℤ) → IsStart keys.now text.now xs → ⊥) (λ numbers. IsStart keys.now text.now numbers.items)) }
{
    let mut numbers = Vec::new(alloc);
    let Some((key, others)) = keys.split_first() else {
        if text == b"none".as_slice() {
            return Ok(Some(numbers));
        }
        return Ok(None);
    };
    let Some((number, behind)) = next_input(text, key.as_slice()) else {
        return Ok(None);
    };
    numbers.push(number)?;
    if add_more(&mut numbers, behind, others)? {
        Ok(Some(numbers))
    } else {
        Ok(None)
    }
}

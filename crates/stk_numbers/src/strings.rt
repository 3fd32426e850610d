// String literals.
ghost use Rattle.std.specs.Prelude.{◌≡◌, IfOk, length, map};
ghost use Rattle.stk_base.specs.Text.{text_of};
ghost use Rattle.stk_numbers.specs.Strings.{in_front, spelled, literal_bytes, string_bytes, if_all};

use crate::characters::{between, byte_at};
use std::alloc::Global;
use stk_base::{List, NoMemory, Span};

/// Adds the bytes that a text spells, each as itself or by an escape. False exactly where it spells none.
fn add_spelled(found: &mut Vec<u8>, text: &[u8]) -> Result<bool, NoMemory>
    ensures { IfOk result (λ all. if_all all found.new.items ≡ in_front found.old.items (spelled (length text.now) text.now)) }
{
    let mut rest = text;
    for _turn in 0..text.len() {
        let Some((byte, behind)) = byte_at(rest) else {
            return Ok(rest.is_empty());
        };
        found.push(byte)?;
        rest = behind;
    }
    Ok(rest.is_empty())
}

/// Adds the bytes of a string literal. False exactly where it has none.
fn add_literal(found: &mut Vec<u8>, text: &[u8]) -> Result<bool, NoMemory>
    ensures { IfOk result (λ all. if_all all found.new.items ≡ in_front found.old.items (literal_bytes text.now)) }
{
    match between(b'"', text) {
        Some(inside) => add_spelled(found, inside),
        None => Ok(false),
    }
}

/// The bytes of one or more string literals in a row (C11 6.4.5), given as the input and the spans of their tokens:
/// those of each literal behind those of the one before, without the zero that ends the array. An escape ends with its
/// literal.
///
/// `None` exactly where a literal has a prefix or an escape that isn't one, or a value above 255. It takes time linear
/// in the literals.
pub fn string_bytes(
    alloc: Global,
    bytes: &[u8],
    literals: &[Span],
) -> Result<Option<List<u8>>, NoMemory>
    ensures { IfOk result (λ found. found ≡ string_bytes (map (text_of bytes.now) literals.now)) }
{
    let mut found = Vec::new(alloc);
    for literal in literals {
        if !add_literal(&mut found, literal.text(bytes))? {
            return Ok(None);
        }
    }
    Ok(Some(List::from_vec(found)))
}

// The units of a file.

ghost use Rattle.std.specs.Prelude.{◌≡◌, ◌≤◌, ℕ, List, length, map, IfOk};
ghost use Rattle.stk_base.specs.Limits.{most_bytes};
ghost use Rattle.stk_lex.specs.declared.token.Token.{Token};
ghost use Rattle.stk_lex.specs.declared.cutting.Piece.{Piece};
ghost use Rattle.stk_lex.specs.Begun.{is_first_before};
ghost use Rattle.stk_lex.specs.Units.{units_of, unmarked, AreInOrder, AreJoined, AreUnits};

use crate::begun::Begun;
use crate::notes::{is_first_before, notes_from};
use crate::skimming::Skimmed;
use std::alloc::Global;
use stk_base::NoMemory;

/// A unit of a file: its tokens from `from` up to `to`, without the last one, counted among those that skimming kept;
/// the token at which its function body begins, if it has one; and whether it is marked as not returning.
#[derive(Clone, Copy, Debug, PartialEq, Eq)]
pub struct Piece {
    pub from: u32,
    pub to: u32,
    pub body: Option<u32>,
    pub no_return: bool,
}

/// The piece of a unit, with the notes behind the unit before.
fn whole_piece(unit: Begun, notes: &[u32]) -> Piece
    ensures from { result.from ≡ unit.from }
    ensures to { result.to ≡ unit.next }
    ensures body { result.body ≡ unit.body }
    ensures no_return { result.no_return ≡ is_first_before unit.last notes.now }
{
    Piece {
        from: unit.from,
        to: unit.next,
        body: unit.body,
        no_return: is_first_before(unit.last, notes),
    }
}

/// The units of a file, in order, by the brackets of the tokens that skimming kept; none is empty, and together they
/// are all the tokens.
///
/// A unit ends with a `;` outside of brackets, and with a `}` that ends a `{` which stands outside of brackets and
/// follows a `)`, or begins the unit. What is left over is a last unit. The body is the last bracket outside of
/// brackets, where that is a `{` that follows a `)`. A unit is marked as not returning where a note lies between the
/// last token of the unit before and its own last token. Where tokens or notes go back, the units are the same, but
/// nothing is said of which are marked.
pub fn cut(alloc: Global, bytes: &[u8], skimmed: &Skimmed) -> Result<Vec<Piece>, NoMemory>
    requires { length skimmed.now.tokens ≤ most_bytes }
    ensures bounds { IfOk result (λ pieces. map unmarked pieces.items ≡ map unmarked (units_of bytes.now skimmed.now.tokens skimmed.now.notes)) }
    ensures joined { IfOk result (λ pieces. AreJoined 0 (length skimmed.now.tokens) pieces.items) }

    // Of tokens that stand one behind the other, and notes that don't go back.
    ensures units { AreInOrder bytes.now skimmed.now.tokens skimmed.now.notes
        → IfOk result (λ pieces. pieces.items ≡ units_of bytes.now skimmed.now.tokens skimmed.now.notes) }
{
    let mut pieces = Vec::new(alloc);
    let mut notes = skimmed.notes.as_slice();
    let mut unit = Begun::at(0);
    let mut rest = skimmed.tokens.as_slice();
    while let Some((token, behind)) = rest.split_first() {
        let whole = unit.with(bytes, *token);
        if unit.is_ended_by(bytes, *token) {
            pieces.push(whole_piece(whole, notes))?;
            notes = notes_from(token.span.to, notes);
            unit = Begun::at(whole.next);
            rest = behind;
        } else {
            unit = whole;
            rest = behind;
        }
    }
    if unit.is_empty() {
        return Ok(pieces);
    }
    pieces.push(whole_piece(unit, notes))?;
    Ok(pieces)
}

/// The definition `units_of` of the units is the same as that they are cut one after the other, each where its first
/// token stands that ends it, or else at the end.
pub fn units_in_order()
    ensures are { (bytes notes : List ℕ) (tokens : List Token) → AreUnits bytes notes 0 0 tokens (units_of bytes tokens notes) }
    ensures alone { (bytes notes : List ℕ) (tokens : List Token) (pieces : List Piece) → AreUnits bytes notes 0 0 tokens pieces → pieces ≡ units_of bytes tokens notes }
{}

// Bytes at addresses.
ghost use Rattle.std.specs.Prelude.{◌≡◌, ℕ, List, MatchOption, IfOk, codes};
ghost use Rattle.stk_memory.specs.declared.image.Cell.{Cell as Named};
ghost use Rattle.stk_replay_script.specs.Scripts.{cell_text, IsCell};
ghost use Rattle.stk_replay_script.specs.Fields.{IsNextCell, IsCellText, AreCells, AreFields};

use crate::fields::field;
use std::alloc::Global;
use stk_base::{List, NoMemory};
use stk_line_reading::next_number;
use stk_memory::Cell;

/// The address and the byte that a text begins with, each behind a space, and what comes behind them; `None` exactly
/// where a text doesn't begin so.
fn next_cell(text: &[u8]) -> Option<(Cell, &[u8])>
    ensures { MatchOption result ((c : Named) (behind : List ℕ) → IsNextCell text.now c behind → ⊥) (λ p. IsNextCell text.now p.0 p.1.now) }
{
    let (at, behind) = next_number(text)?;
    let (byte, rest) = next_number(behind)?;
    if byte <= 255 {
        let byte = byte as u8;
        Some((Cell { at, byte }, rest))
    } else {
        None
    }
}

/// The address and the byte that a text is; `None` exactly where it is no such text.
fn cell_in(text: &[u8]) -> Option<Cell>
    ensures { MatchOption result ((c : Named) → IsCellText text.now c → ⊥) (IsCellText text.now) }
{
    let (cell, behind) = next_cell(text)?;
    if behind.is_empty() { Some(cell) } else { None }
}

/// The addresses and bytes that a text is; `None` exactly where it is no such text.
pub(crate) fn cells_in(alloc: Global, text: &[u8]) -> Result<Option<List<Cell>>, NoMemory>
    ensures { IfOk result (λ cells. MatchOption cells ((cs : List Named) → AreCells text.now cs → ⊥) (AreCells text.now)) }
{
    let mut cells = Vec::new(alloc);
    let mut left = text;
    while !left.is_empty() {
        let Some((cell, behind)) = next_cell(left) else {
            return Ok(None);
        };
        cells.push(cell)?;
        left = behind;
    }
    Ok(Some(List::from_vec(cells)))
}

/// The cells of the lines `byte A B` that a text begins with, and what comes behind them; `None` exactly where one of
/// these lines is none.
pub(crate) fn cell_lines(
    alloc: Global,
    text: &[u8],
) -> Result<Option<(List<Cell>, &[u8])>, NoMemory>
    ensures { IfOk result (λ read. MatchOption read ((cs : List Named) (behind : List ℕ) → AreFields (codes "byte") cell_text IsCell text.now cs behind → ⊥) (λ p. AreFields (codes "byte") cell_text IsCell text.now p.0 p.1.now)) }
{
    let mut cells = Vec::new(alloc);
    let mut left = text;
    while let Some((content, behind)) = field(left, b"byte") {
        let Some(cell) = cell_in(content) else {
            return Ok(None);
        };
        cells.push(cell)?;
        left = behind;
    }
    Ok(Some((List::from_vec(cells), left)))
}

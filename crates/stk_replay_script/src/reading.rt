//! Scripts that are read.

ghost use Rattle.std.specs.Prelude.{◌≡◌, ℕ, List, MatchOption, IfOk};
ghost use Rattle.stk_replay_script.specs.declared.script.Script.{Script as Named};
ghost use Rattle.stk_replay_script.specs.Scripts.{IsInput};

use crate::Script;
use crate::cells::cell_lines;
use crate::fields::{field, number_field, source_behind};
use crate::replies::reply_lines;
use std::alloc::Global;
use stk_base::{List, NoMemory};
use stk_memory::MemoryImage;

// The most turns that a script may name.
const MOST_TURNS: u64 = 4_294_967_295;

/// The script that an input begins with, up to its line `end`, and the source behind that; `None` exactly where no
/// script comes.
pub fn read_script(alloc: Global, bytes: &[u8]) -> Result<Option<(Script, &[u8])>, NoMemory>
    ensures { IfOk result (λ read. MatchOption read ((s : Named) (source : List ℕ) → IsInput bytes.now s source → ⊥) (λ p. IsInput bytes.now p.0 p.1.now)) }
{
    let Some((function, named)) = field(bytes, b"function ") else {
        return Ok(None);
    };
    let Some((start, started)) = field(named, b"start ") else {
        return Ok(None);
    };
    let Some((fill, filled)) = number_field(started, b"fill ", 255) else {
        return Ok(None);
    };
    let Some((cells, listed)) = cell_lines(alloc, filled)? else {
        return Ok(None);
    };
    let Some((replies, replied)) = reply_lines(alloc, listed)? else {
        return Ok(None);
    };
    let Some((turns, turned)) = number_field(replied, b"turns ", MOST_TURNS) else {
        return Ok(None);
    };
    let Some(source) = source_behind(turned) else {
        return Ok(None);
    };
    let function = List::from_vec(Vec::from_slice(alloc, function)?);
    let start = List::from_vec(Vec::from_slice(alloc, start)?);
    let fill = fill as u8;
    let memory = MemoryImage { fill, cells };
    let turns = turns as u32;
    let script = Script {
        function,
        start,
        memory,
        replies,
        turns,
    };
    Ok(Some((script, source)))
}

//! The replay of an input.

ghost use Rattle.std.specs.Prelude.{◌≡◌, ◌≤◌, ◌⊎◌, Err, IfOk, length};
ghost use Rattle.stk_base.specs.Limits.{most_bytes};
ghost use Rattle.stk_lex.specs.Units.{AreJoined};
ghost use Rattle.stk_replay_input.specs.Replays.{IsReplayText, HasBadScript, HasLongRun};
ghost use Rattle.stk_replay_input.specs.Searches.{AnswersUnits, AnswersSource, AnswersInput};

use crate::Unreplayed;
use crate::definitions::{FunctionSearch, answer_of, search_unit};
use std::alloc::Global;
use stk_ctype::Names;
use stk_lex::{Piece, Places, Token};
use stk_numbers::Kinds;
use stk_replay_script::{Script, read_script};
use stk_units::{VisitedUnit, body_of_piece, cut_into_units, tokens_of};

// No kinds of conditions are taken out.
const WHOLE_TABLE: Kinds = Kinds {
    overflow: false,
    zero: false,
    shift: false,
    null: false,
    pointer: false,
    bounds: false,
    abs: false,
    copy: false,
};

// The answer to a script of units, one after the other, up to the one that defines a function of its name.
fn units_replay<'a>(
    alloc: Global,
    input: &'a Places<'a>,
    tokens: &'a [Token],
    pieces: &[Piece],
    script: &Script,
) -> Result<Vec<u8>, Unreplayed>
    requires few { length tokens.now ≤ most_bytes }
    requires joined { AreJoined 0 (length tokens.now) pieces.now }
    ensures { AnswersUnits input.now tokens.now pieces.now script.now result }
{
    let mut names = Names::new(alloc);
    let mut search = FunctionSearch {
        script,
        answer: None,
    };
    for piece in pieces {
        if search.answer.is_some() {
            return answer_of(search);
        }
        let unit = VisitedUnit {
            alloc,
            input,
            without: WHOLE_TABLE,
            mark: piece.no_return,
            body: body_of_piece(*piece),
            tokens: tokens_of(tokens, *piece),
        };
        search_unit(&unit, &mut names, &mut search)?;
    }
    answer_of(search)
}

// The answer to a script of a source.
fn source_replay(alloc: Global, source: &[u8], script: &Script) -> Result<Vec<u8>, Unreplayed>
    requires { length source.now ≤ most_bytes }
    ensures { AnswersSource source.now script.now result }
{
    let units = cut_into_units(alloc, source)?;
    let input = Places::new(alloc, source)?;
    units_replay(
        alloc,
        &input,
        units.tokens.as_slice(),
        units.pieces.as_slice(),
        script,
    )
}

// The answer to an input.
fn answer_to(alloc: Global, bytes: &[u8]) -> Result<Vec<u8>, Unreplayed>
    requires { length bytes.now ≤ most_bytes }
    ensures { AnswersInput bytes.now result }
{
    match read_script(alloc, bytes)? {
        Some((script, source)) => source_replay(alloc, source, &script),
        None => Err(Unreplayed::BadScript),
    }
}

/// The text of the replay that an input of at most 16,777,216 bytes asks for: a script up to its line `end`, and behind
/// that a source of C. The script names a function of the source, the first definition of that name that is accepted
/// (C11 6.9.1; no kind of condition is taken out), a start of it, a memory, the answers of the outside, and how many
/// turns each loop takes at most. The text has a line for each entry of the trace of that execution, at most 1,000,000,
/// a line for each candidate of the function that the trace hits, in the order of the candidates, and the line of its
/// end.
///
/// `BadScript` comes where the input names no execution: no script comes, no function of this name is accepted, the
/// start isn't a valid one by the texts of the function's keys, or two cells of the memory have one address. `TooLong`
/// comes where the trace has more than 1,000,000 entries. In both cases nothing else comes but want of memory.
pub fn replay_input(alloc: Global, bytes: &[u8]) -> Result<Vec<u8>, Unreplayed>
    requires { length bytes.now ≤ most_bytes }
    ensures text { IfOk result (λ text. IsReplayText bytes.now text.items) }
    ensures bad { result ≡ Err Unreplayed.BadScript → HasBadScript bytes.now }
    ensures bad_only { HasBadScript bytes.now → (result ≡ Err Unreplayed.BadScript) ⊎ (result ≡ Err Unreplayed.NoMemory) }
    ensures long { result ≡ Err Unreplayed.TooLong → HasLongRun bytes.now }
    ensures long_only { HasLongRun bytes.now → (result ≡ Err Unreplayed.TooLong) ⊎ (result ≡ Err Unreplayed.NoMemory) }
{
    let answer = answer_to(alloc, bytes);
    answer
}

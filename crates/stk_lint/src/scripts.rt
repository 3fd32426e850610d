//! The script of a candidate of an input.

ghost use Rattle.std.specs.Prelude.{◌≡◌, ◌⊎◌, ◌≤◌, ◌<◌, IfOk, OnOk, OnErr, length};
ghost use Rattle.stk_base.specs.Limits.{most_bytes};
ghost use Rattle.stk_base.specs.Causes.{Rose};
ghost use Rattle.stk_base.specs.Streams.{Appended, AppendedPrefix, IsFlushed};
ghost use Rattle.stk_lex.specs.Units.{AreJoined};
ghost use Rattle.stk_lint.specs.Candidates.{HasFewCandidates};
ghost use Rattle.stk_units.specs.Pieces.{AreUnitsOf};
ghost use Rattle.stk_lint.specs.Searched.{IsFoundInUnits, IsFoundIn, TookScript, TookScriptPrefix};

use stk_base::{Failed, NoMemory, Sink, Status, write_all};
use stk_ctype::Names;
use stk_lex::{Piece, Token};
use stk_query_scripts::{ScriptSearch, search_unit};
use stk_records::AskedScript;
use stk_unit_lines::LintedFile;
use stk_units::{Units, VisitedUnit, body_of_piece, tokens_of};

// The script that was found.
fn script_of(search: ScriptSearch) -> Option<Vec<u8>>
    ensures { result ≡ search.script }
{
    let ScriptSearch { script, .. } = search;
    script
}

// Looks for a candidate in units, one after the other, up to the one in which it is.
fn search_units(
    file: &LintedFile,
    tokens: &[Token],
    pieces: &[Piece],
    asked: AskedScript,
) -> Result<Option<Vec<u8>>, NoMemory>
    requires few { length tokens.now ≤ most_bytes }
    requires joined { AreJoined 0 (length tokens.now) pieces.now }
    requires counted { 1 ≤ asked.number }
    ensures { IfOk result (IsFoundInUnits file.now.input.now file.now.options.without tokens.now pieces.now asked) }
{
    let mut names = Names::new(file.alloc);
    let mut search = ScriptSearch::new(asked);
    for piece in pieces {
        if search.script.is_some() {
            return Ok(script_of(search));
        }
        let unit = VisitedUnit {
            alloc: file.alloc,
            input: file.input,
            without: file.options.without,
            mark: piece.no_return,
            body: body_of_piece(*piece),
            tokens: tokens_of(tokens, *piece),
        };
        search_unit(&unit, &mut names, &mut search)?;
    }
    Ok(script_of(search))
}

// The script that is asked for, or nothing where the input has fewer candidates.
fn find_script(
    file: &LintedFile,
    units: &Units,
    asked: AskedScript,
) -> Result<Option<Vec<u8>>, NoMemory>
    requires are { AreUnitsOf file.now.input.now units.now.tokens units.now.pieces.items }
    requires joined { AreJoined 0 (length units.now.tokens) units.now.pieces.items }
    requires few { length units.now.tokens ≤ most_bytes }
    requires counted { 1 ≤ asked.number }
    ensures { IfOk result (IsFoundIn file.now.input.now file.now.options.without asked) }
{
    let found = search_units(
        file,
        units.tokens.as_slice(),
        units.pieces.as_slice(),
        asked,
    )?;
    Ok(found)
}

// Writes a script and flushes it.
fn write_script<K: Sink>(text: &[u8], out: &mut K) -> Result<(), Failed>
    ensures all { OnOk result (Appended (K.taken out.old) (K.taken out.new) text.now) }
    ensures flushed { OnOk result (IsFlushed (K.taken out.new) (K.flushed out.new)) }
    ensures prefix { OnErr result (AppendedPrefix (K.taken out.old) (K.taken out.new) text.now) }
    ensures fault { OnErr result (Rose (K.faults out.old) (K.faults out.new)) }
{
    write_all(out, text)?;
    out.flush()?;
    Ok(())
}

/// Writes the script that is asked for, and flushes it: `Stable`. Nothing is written where the input has fewer
/// candidates, which is `NoCandidate`, nor for want of memory. `WriteFault` comes only where the sink counted a fault;
/// then it took some prefix of the script.
pub(crate) fn answer_script<K: Sink>(
    file: &LintedFile,
    units: &Units,
    asked: AskedScript,
    out: &mut K,
) -> Status
    requires are { AreUnitsOf file.now.input.now units.now.tokens units.now.pieces.items }
    requires joined { AreJoined 0 (length units.now.tokens) units.now.pieces.items }
    requires few { length units.now.tokens ≤ most_bytes }
    requires counted { 1 ≤ asked.number }
    ensures only { (result ≡ Status.Stable) ⊎ ((result ≡ Status.NoCandidate) ⊎ ((result ≡ Status.WriteFault) ⊎ (result ≡ Status.NoMemory))) }
    ensures script { result ≡ Status.Stable → TookScript file.now.input.now file.now.options.without asked (K.taken out.old) (K.taken out.new) (K.flushed out.new) }
    ensures none { result ≡ Status.NoCandidate → HasFewCandidates file.now.input.now file.now.options.without asked × (K.taken out.new ≡ K.taken out.old) × (K.flushed out.new ≡ K.flushed out.old) }
    ensures prefix { result ≡ Status.WriteFault → TookScriptPrefix file.now.input.now file.now.options.without asked (K.taken out.old) (K.taken out.new) }
    ensures no_memory { result ≡ Status.NoMemory → K.taken out.new ≡ K.taken out.old }
    ensures fault { result ≡ Status.WriteFault → Rose (K.faults out.old) (K.faults out.new) }
{
    match find_script(file, units, asked) {
        Ok(Some(text)) => match write_script(text.as_slice(), out) {
            Ok(()) => Status::Stable,
            Err(Failed) => Status::WriteFault,
        },
        Ok(None) => Status::NoCandidate,
        Err(NoMemory) => Status::NoMemory,
    }
}

//! The top call.

ghost use Rattle.std.specs.Prelude.{◌≡◌, ◌↔◌, ◌⊎◌, ◌≤◌, ◌<◌, ℕ, true, false, List, length, map, None, Some, Err, IfOk, IfSome, IsErrOf, OnOk, OnErr, vec_len};
ghost use Rattle.std.specs.String.{string_bytes};
ghost use Rattle.stk_base.specs.Limits.{most_bytes};
ghost use Rattle.stk_base.specs.Causes.{Rose};
ghost use Rattle.stk_base.specs.Streams.{Came, Appended, AppendedPrefix, IsFlushed};
ghost use Rattle.stk_lex.specs.Units.{AreJoined};
ghost use Rattle.stk_records.specs.Form.{written_summary};
ghost use Rattle.stk_units.specs.Pieces.{AreUnitsOf};
ghost use Rattle.stk_lint.specs.Judged.{WroteUnits, WroteUnitsPrefix};
ghost use Rattle.stk_lint.specs.Lint.{IsWritten, IsUnread, IsLegal, AskForReading, AskForScript, IsInput, fault_line, HasWritten, HasWrittenPrefix, HasTooFew, TookText, TookPrefix, TookNothing, status_after};

use crate::scripts::answer_script;
use std::alloc::Global;
use stk_base::{MOST_BYTES, NoMemory, ReadAll, Sink, Source, Status, read_all, write_all};
use stk_bundles::{BundledFile, write_bundle};
use stk_ctype::Names;
use stk_gen::{MOST_FUNCTIONS, source_of};
use stk_lex::{Piece, Places, Token};
use stk_query::{Decider, MOST_BUDGET};
use stk_records::{Counts, Options, Stop, WordsFault, words as options_of, write_summary};
use stk_unit_lines::{LintedFile, write_unit};
use stk_units::{Units, body_of_piece, cut_into_units, status_of, tokens_of};

// The status of a refusal to read.
fn refused(refusal: ReadAll) -> Status
    ensures read_fault { (result ≡ Status.ReadFault) ↔ (refusal ≡ ReadAll.ReadFault) }
    ensures too_large { (result ≡ Status.TooLarge) ↔ (refusal ≡ ReadAll.TooLarge) }
    ensures no_memory { (result ≡ Status.NoMemory) ↔ (refusal ≡ ReadAll.NoMemory) }
    ensures only { (result ≡ Status.ReadFault) ⊎ ((result ≡ Status.TooLarge) ⊎ (result ≡ Status.NoMemory)) }
{
    match refusal {
        ReadAll::ReadFault => Status::ReadFault,
        ReadAll::TooLarge => Status::TooLarge,
        ReadAll::NoMemory => Status::NoMemory,
    }
}

// Judges units and writes their records, one after the other. The answer is what they count for together.
fn write_units<K: Sink, D: Decider>(
    file: &LintedFile,
    tokens: &[Token],
    pieces: &[Piece],
    out: &mut K,
    decider: &mut D,
) -> Result<Counts, Stop>
    requires few { length tokens.now ≤ most_bytes }
    requires joined { AreJoined 0 (length tokens.now) pieces.now }
    requires least { 1 ≤ file.now.options.budget }
    requires most { file.now.options.budget ≤ MOST_BUDGET }
    ensures written { IfOk result (WroteUnits file.now.input.now file.now.options tokens.now pieces.now (K.taken out.old) (K.taken out.new) (D.given_up decider.old) (D.given_up decider.new)) }
    ensures prefix { OnErr result (WroteUnitsPrefix file.now.input.now file.now.options tokens.now pieces.now (K.taken out.old) (K.taken out.new)) }
    ensures later { K.faults out.old ≤ K.faults out.new }
    ensures fault { result ≡ Err Stop.WriteFault → Rose (K.faults out.old) (K.faults out.new) }
{
    let mut names = Names::new(file.alloc);
    let mut counts = Counts::nothing();
    for piece in pieces {
        let body = body_of_piece(*piece);
        let unit = tokens_of(tokens, *piece);
        let mark = piece.no_return;
        let counted = write_unit(file, mark, body, unit, &mut names, out, decider)?;
        counts = counts.plus(counted);
    }
    Ok(counts)
}

// Writes the summary and flushes what was written.
fn finish<K: Sink>(alloc: Global, options: Options, counts: Counts, out: &mut K) -> Result<(), Stop>
    ensures all { OnOk result (Appended (K.taken out.old) (K.taken out.new) (written_summary options.json options.without counts)) }
    ensures flushed { OnOk result (IsFlushed (K.taken out.new) (K.flushed out.new)) }
    ensures prefix { OnErr result (AppendedPrefix (K.taken out.old) (K.taken out.new) (written_summary options.json options.without counts)) }
    ensures later { K.faults out.old ≤ K.faults out.new }
    ensures fault { result ≡ Err Stop.WriteFault → Rose (K.faults out.old) (K.faults out.new) }
{
    write_summary(alloc, options, counts, out)?;
    out.flush()?;
    Ok(())
}

// Writes the records of units and the summary, and flushes them.
fn write_text<K: Sink, D: Decider>(
    file: &LintedFile,
    units: &Units,
    out: &mut K,
    decider: &mut D,
) -> Result<Status, Stop>
    requires are { AreUnitsOf file.now.input.now units.now.tokens units.now.pieces.items }
    requires joined { AreJoined 0 (length units.now.tokens) units.now.pieces.items }
    requires few { length units.now.tokens ≤ most_bytes }
    requires least { 1 ≤ file.now.options.budget }
    requires most { file.now.options.budget ≤ MOST_BUDGET }
    requires script { file.now.options.script ≡ None }
    requires bundle { file.now.options.bundle ≡ false }
    ensures text { IfOk result (TookText file.now.input.now file.now.options (K.taken out.old) (K.taken out.new) (K.flushed out.new) (D.given_up decider.old) (D.given_up decider.new)) }
    ensures prefix { OnErr result (TookPrefix file.now.input.now file.now.options (K.taken out.old) (K.taken out.new)) }
    ensures fault { result ≡ Err Stop.WriteFault → Rose (K.faults out.old) (K.faults out.new) }
{
    let tokens = units.tokens.as_slice();
    let counts = write_units(file, tokens, units.pieces.as_slice(), out, decider)?;
    finish(file.alloc, file.options, counts, out)?;
    Ok(status_of(counts.unstable, counts.undecided))
}

// The units of an input, and the places of its bytes.
fn prepared<'a>(alloc: Global, bytes: &'a [u8]) -> Result<(Units, Places<'a>), NoMemory>
    requires { length bytes.now ≤ most_bytes }
    ensures are { IfOk result (λ x. AreUnitsOf bytes.now x.0.tokens x.0.pieces.items) }
    ensures joined { IfOk result (λ x. AreJoined 0 (length x.0.tokens) x.0.pieces.items) }
    ensures few { IfOk result (λ x. length x.0.tokens ≤ most_bytes) }
    ensures input { IfOk result (λ x. x.1 ≡ bytes.now) }
{
    let units = cut_into_units(alloc, bytes)?;
    let input = Places::new(alloc, bytes)?;
    Ok((units, input))
}

// How the writing of the text ends.
fn ended(written: Result<Status, Stop>) -> Status
    ensures { result ≡ status_after written }
{
    match written {
        Ok(status) => status,
        Err(Stop::WriteFault) => Status::WriteFault,
        Err(Stop::NoMemory) => Status::NoMemory,
    }
}

// Writes the bundle of units and flushes it.
fn write_bundled<K: Sink, D: Decider>(
    file: &LintedFile,
    units: &Units,
    out: &mut K,
    decider: &mut D,
) -> Result<Status, Stop>
    requires are { AreUnitsOf file.now.input.now units.now.tokens units.now.pieces.items }
    requires joined { AreJoined 0 (length units.now.tokens) units.now.pieces.items }
    requires few { length units.now.tokens ≤ most_bytes }
    requires least { 1 ≤ file.now.options.budget }
    requires most { file.now.options.budget ≤ MOST_BUDGET }
    requires script { file.now.options.script ≡ None }
    requires bundle { file.now.options.bundle ≡ true }
    ensures text { IfOk result (TookText file.now.input.now file.now.options (K.taken out.old) (K.taken out.new) (K.flushed out.new) (D.given_up decider.old) (D.given_up decider.new)) }
    ensures prefix { OnErr result (TookPrefix file.now.input.now file.now.options (K.taken out.old) (K.taken out.new)) }
    ensures fault { result ≡ Err Stop.WriteFault → Rose (K.faults out.old) (K.faults out.new) }
{
    let bundled = BundledFile {
        alloc: file.alloc,
        input: file.input,
        without: file.options.without,
        budget: file.options.budget,
    };
    write_bundle(&bundled, units, out, decider)
}

// Writes the records of units, or the bundle that the options ask for, and flushes them.
fn write_judged<K: Sink, D: Decider>(
    file: &LintedFile,
    units: &Units,
    out: &mut K,
    decider: &mut D,
) -> Result<Status, Stop>
    requires are { AreUnitsOf file.now.input.now units.now.tokens units.now.pieces.items }
    requires joined { AreJoined 0 (length units.now.tokens) units.now.pieces.items }
    requires few { length units.now.tokens ≤ most_bytes }
    requires least { 1 ≤ file.now.options.budget }
    requires most { file.now.options.budget ≤ MOST_BUDGET }
    requires script { file.now.options.script ≡ None }
    ensures text { IfOk result (TookText file.now.input.now file.now.options (K.taken out.old) (K.taken out.new) (K.flushed out.new) (D.given_up decider.old) (D.given_up decider.new)) }
    ensures prefix { OnErr result (TookPrefix file.now.input.now file.now.options (K.taken out.old) (K.taken out.new)) }
    ensures fault { result ≡ Err Stop.WriteFault → Rose (K.faults out.old) (K.faults out.new) }
{
    if file.options.bundle {
        return write_bundled(file, units, out, decider);
    }
    write_text(file, units, out, decider)
}

// Judges units and writes their records, or the bundle or script that the options ask for, and flushes them.
fn answer_units<K: Sink, D: Decider>(
    file: &LintedFile,
    units: &Units,
    out: &mut K,
    decider: &mut D,
) -> Status
    requires are { AreUnitsOf file.now.input.now units.now.tokens units.now.pieces.items }
    requires joined { AreJoined 0 (length units.now.tokens) units.now.pieces.items }
    requires few { length units.now.tokens ≤ most_bytes }
    requires least { 1 ≤ file.now.options.budget }
    requires most { file.now.options.budget ≤ MOST_BUDGET }
    requires counted { IfSome file.now.options.script (λ asked. 1 ≤ asked.number) }
    ensures only { IsWritten result ⊎ ((result ≡ Status.NoCandidate) ⊎ ((result ≡ Status.WriteFault) ⊎ (result ≡ Status.NoMemory))) }
    ensures text { IsWritten result → TookText file.now.input.now file.now.options (K.taken out.old) (K.taken out.new) (K.flushed out.new) (D.given_up decider.old) (D.given_up decider.new) result }
    ensures none { result ≡ Status.NoCandidate → TookNothing file.now.input.now file.now.options (K.taken out.old) (K.taken out.new) (K.flushed out.old) (K.flushed out.new) }
    ensures prefix { result ≡ Status.WriteFault → TookPrefix file.now.input.now file.now.options (K.taken out.old) (K.taken out.new) }
    ensures no_memory { result ≡ Status.NoMemory → (K.taken out.new ≡ K.taken out.old) ⊎ TookPrefix file.now.input.now file.now.options (K.taken out.old) (K.taken out.new) }
    ensures fault { result ≡ Status.WriteFault → Rose (K.faults out.old) (K.faults out.new) }
{
    match file.options.script {
        None => {
            let written = write_judged(file, units, out, decider);
            ended(written)
        }
        Some(asked) => answer_script(file, units, asked, out),
    }
}

// Judges what was read, writes its records, or the bundle or script that the options ask for, and flushes them.
fn answer<K: Sink, D: Decider>(
    alloc: Global,
    bytes: &[u8],
    options: Options,
    out: &mut K,
    decider: &mut D,
) -> Status
    requires few { length bytes.now ≤ most_bytes }
    requires least { 1 ≤ options.budget }
    requires most { options.budget ≤ MOST_BUDGET }
    requires counted { IfSome options.script (λ asked. 1 ≤ asked.number) }
    ensures only { IsWritten result ⊎ ((result ≡ Status.NoCandidate) ⊎ ((result ≡ Status.WriteFault) ⊎ (result ≡ Status.NoMemory))) }
    ensures text { IsWritten result → TookText bytes.now options (K.taken out.old) (K.taken out.new) (K.flushed out.new) (D.given_up decider.old) (D.given_up decider.new) result }
    ensures none { result ≡ Status.NoCandidate → TookNothing bytes.now options (K.taken out.old) (K.taken out.new) (K.flushed out.old) (K.flushed out.new) }
    ensures prefix { result ≡ Status.WriteFault → TookPrefix bytes.now options (K.taken out.old) (K.taken out.new) }
    ensures no_memory { result ≡ Status.NoMemory → (K.taken out.new ≡ K.taken out.old) ⊎ TookPrefix bytes.now options (K.taken out.old) (K.taken out.new) }
    ensures fault { result ≡ Status.WriteFault → Rose (K.faults out.old) (K.faults out.new) }
{
    let Ok((units, input)) = prepared(alloc, bytes) else {
        return Status::NoMemory;
    };
    let file = LintedFile {
        alloc,
        input: &input,
        options,
    };
    answer_units(&file, &units, out, decider)
}

// The bytes that are judged: all that the source has left, or where the options ask for it a generated text.
fn input_bytes<S: Source>(
    alloc: Global,
    options: Options,
    source: &mut S,
) -> Result<Vec<u8>, ReadAll>
    requires { IfSome options.generate (λ asked. asked.1 ≤ MOST_FUNCTIONS) }
    ensures input { IfOk result (λ bytes. IsInput options.generate (S.left source.old) (S.left source.new) bytes.items) }
    ensures few { IfOk result (λ bytes. vec_len bytes ≤ most_bytes) }
    ensures unread { (options.generate ≡ None) ⊎ ((S.left source.new ≡ S.left source.old) × (S.faults source.new ≡ S.faults source.old)) }
    ensures fault { IsErrOf result ReadAll.ReadFault → (options.generate ≡ None) × Rose (S.faults source.old) (S.faults source.new) }
    ensures no_fault { IsErrOf result ReadAll.ReadFault ⊎ (S.faults source.new ≡ S.faults source.old) }
    ensures large { IsErrOf result ReadAll.TooLarge → options.generate ≡ None }
    ensures too_large { (came : List ℕ) × Came (S.left source.old) (S.left source.new) came × (IsErrOf result ReadAll.TooLarge ↔ (most_bytes < length came)) }
{
    match options.generate {
        None => read_all(alloc, source, MOST_BYTES),
        Some((number, functions)) => match source_of(alloc, number, functions) {
            Ok(text) => Ok(text),
            Err(NoMemory) => Err(ReadAll::NoMemory),
        },
    }
}

// Gathers the input, judges it and writes its records, or the bundle or script that is asked for.
fn run<S: Source, K: Sink, D: Decider>(
    alloc: Global,
    words: &[String],
    source: &mut S,
    out: &mut K,
    decider: &mut D,
) -> Status
    ensures written { IsWritten result → HasWritten (map string_bytes words.now) (S.left source.old) (S.left source.new) (K.taken out.old) (K.taken out.new) (K.flushed out.new) (D.given_up decider.old) (D.given_up decider.new) result }
    ensures prefix { result ≡ Status.WriteFault → HasWrittenPrefix (map string_bytes words.now) (S.left source.old) (S.left source.new) (K.taken out.old) (K.taken out.new) }
    ensures nothing { IsUnread result → (K.taken out.new ≡ K.taken out.old) × (K.flushed out.new ≡ K.flushed out.old) }
    ensures no_memory { result ≡ Status.NoMemory → (K.taken out.new ≡ K.taken out.old) ⊎ HasWrittenPrefix (map string_bytes words.now) (S.left source.old) (S.left source.new) (K.taken out.old) (K.taken out.new) }
    ensures no_candidate { result ≡ Status.NoCandidate → HasTooFew (map string_bytes words.now) (S.left source.old) (S.left source.new) × (K.taken out.new ≡ K.taken out.old) × (K.flushed out.new ≡ K.flushed out.old) }
    ensures only { IsWritten result ⊎ (IsUnread result ⊎ (((result ≡ Status.NoCandidate) × AskForScript (map string_bytes words.now)) ⊎ ((result ≡ Status.WriteFault) ⊎ (result ≡ Status.NoMemory)))) }
    ensures bad_words { (result ≡ Status.BadWords) ↔ (IsLegal (map string_bytes words.now) → ⊥) }
    ensures unread { (AskForReading (map string_bytes words.now) → ⊥) → (S.left source.new ≡ S.left source.old) × (S.faults source.new ≡ S.faults source.old) }
    ensures read_fault { result ≡ Status.ReadFault → AskForReading (map string_bytes words.now) × Rose (S.faults source.old) (S.faults source.new) }
    ensures write_fault { result ≡ Status.WriteFault → Rose (K.faults out.old) (K.faults out.new) }
    ensures too_large { (came : List ℕ) × Came (S.left source.old) (S.left source.new) came × ((result ≡ Status.TooLarge) ↔ (AskForReading (map string_bytes words.now) × (most_bytes < length came))) }
    ensures no_fault { (result ≡ Status.ReadFault) ⊎ (S.faults source.new ≡ S.faults source.old) }
{
    let options = match options_of(words) {
        Ok(options) => options,
        Err(WordsFault::Bad) => return Status::BadWords,
    };
    match input_bytes(alloc, options, source) {
        Ok(bytes) => answer(alloc, bytes.as_slice(), options, out, decider),
        Err(refusal) => refused(refusal),
    }
}

// The line that tells of a failure.
fn fault_line(status: Status) -> &'static [u8]
    ensures { result.now ≡ fault_line status }
{
    match status {
        Status::Stable | Status::Found | Status::Unsure => b"",
        Status::BadWords => b"stack: bad words\n",
        Status::ReadFault => b"stack: the input cannot be read\n",
        Status::WriteFault => b"stack: the output cannot be written\n",
        Status::TooLarge => b"stack: the input is larger than 16777216 bytes\n",
        Status::NoMemory => b"stack: no memory\n",
        Status::NoCandidate => b"stack: no such candidate\n",
    }
}

// Tells of a failure, as far as the sink takes it.
fn tell<E: Sink>(fault: &mut E, status: Status)
    ensures { ¬ Rose (E.faults fault.old) (E.faults fault.new) → Appended (E.taken fault.old) (E.taken fault.new) (fault_line status) }
{
    let _ = write_all(fault, fault_line(status));
}

/// Reads C from a source, writes the records of what is unstable in it to a sink, and flushes them; tells of a failure
/// on a third sink. The words ask for options: `--json`, `--budget N`, `--without LIST`, `--generate M` with
/// `--functions N`, `--bundle`, and `--smt N` or `--smt-hit N` (stk_records). With `--generate` the source is left
/// unread: the bytes that are judged are the text that M generates, of N functions (stk_gen), and of the records the
/// summary alone is written. With `--bundle` no records are written: what is written of the same findings is a bundle,
/// a claim for each report with what closes it, or that the candidate has none (stk_bundles). With `--smt` and
/// `--smt-hit` no records are written either, and no decider is asked: what is written is the SMT-LIB script of the
/// query of the N-th candidate of all functions that are judged, counted from 1 in the order of their records, clear
/// ones included, for all conditions of its function, or for none. It denotes exactly the residues of the valid input
/// maps whose path run hits that candidate where no condition of that set has been violated before (Wang, Zeldovich,
/// Kaashoek, Solar-Lezama, SOSP 2013, section 3). The answer says how it ended:
///
/// - `Stable`, `Found` and `Unsure`: the source was read to its end, or a text was generated; the sink took a text that
///   is lawful for these bytes and the options, and was flushed; `Found` where at least one candidate is unstable,
///   `Unsure` where none is and at least one is undecided. What the findings say is undecided or open, with the reports
///   that have no claim in a bundle, is at most as much as the count of goals that the decider gave up rose by, or that
///   stands at the last value of a u64; and it is nothing where it didn't rise. With `--smt` and `--smt-hit` the text
///   is the script, and it ends `Stable`.
/// - `NoCandidate`: only where the words ask for a script, the source was read to its end, and there are fewer than N
///   candidates. The sink took nothing.
/// - `BadWords`: exactly where the words aren't legal. The source is unread.
/// - `ReadFault`: only where the source was to be read and counted a fault; after every other answer it counted none.
/// - `TooLarge`: exactly where the source was to be read, and more than 16,777,216 bytes came before the end and before
///   any failed call.
/// - `WriteFault`: only where the sink counted a fault. It took some prefix of a lawful text, of the script, or of a
///   lawful bundle or what one may begin with.
/// - `NoMemory`: no clause says when it comes. The sink took nothing, or some prefix as after `WriteFault`.
///
/// After `BadWords`, `ReadFault` and `TooLarge` the sink took nothing. Where the third sink counted no fault, it took
/// exactly the line of the failure, and nothing where the records are written; a fault of it changes nothing else.
pub fn lint_main<S: Source, K: Sink, E: Sink, D: Decider>(
    alloc: Global,
    words: &[String],
    source: &mut S,
    out: &mut K,
    fault: &mut E,
    decider: &mut D,
) -> Status
    ensures written { IsWritten result → HasWritten (map string_bytes words.now) (S.left source.old) (S.left source.new) (K.taken out.old) (K.taken out.new) (K.flushed out.new) (D.given_up decider.old) (D.given_up decider.new) result }
    ensures prefix { result ≡ Status.WriteFault → HasWrittenPrefix (map string_bytes words.now) (S.left source.old) (S.left source.new) (K.taken out.old) (K.taken out.new) }
    ensures nothing { IsUnread result → (K.taken out.new ≡ K.taken out.old) × (K.flushed out.new ≡ K.flushed out.old) }
    ensures no_memory { result ≡ Status.NoMemory → (K.taken out.new ≡ K.taken out.old) ⊎ HasWrittenPrefix (map string_bytes words.now) (S.left source.old) (S.left source.new) (K.taken out.old) (K.taken out.new) }
    ensures no_candidate { result ≡ Status.NoCandidate → HasTooFew (map string_bytes words.now) (S.left source.old) (S.left source.new) × (K.taken out.new ≡ K.taken out.old) × (K.flushed out.new ≡ K.flushed out.old) }
    ensures only { IsWritten result ⊎ (IsUnread result ⊎ (((result ≡ Status.NoCandidate) × AskForScript (map string_bytes words.now)) ⊎ ((result ≡ Status.WriteFault) ⊎ (result ≡ Status.NoMemory)))) }

    // When each refusal comes.
    ensures bad_words { (result ≡ Status.BadWords) ↔ (IsLegal (map string_bytes words.now) → ⊥) }
    ensures unread { (AskForReading (map string_bytes words.now) → ⊥) → (S.left source.new ≡ S.left source.old) × (S.faults source.new ≡ S.faults source.old) }
    ensures read_fault { result ≡ Status.ReadFault → AskForReading (map string_bytes words.now) × Rose (S.faults source.old) (S.faults source.new) }
    ensures write_fault { result ≡ Status.WriteFault → Rose (K.faults out.old) (K.faults out.new) }
    ensures too_large { (came : List ℕ) × Came (S.left source.old) (S.left source.new) came × ((result ≡ Status.TooLarge) ↔ (AskForReading (map string_bytes words.now) × (16777216 < length came))) }
    ensures no_fault { (result ≡ Status.ReadFault) ⊎ (S.faults source.new ≡ S.faults source.old) }

    // With legal words, over a source that tells no more bytes than the limit, and where nothing fails.
    ensures complete { (bytes : List ℕ) → IsLegal (map string_bytes words.now) → S.left source.old ≡ Some bytes → length bytes ≤ 16777216
        → ¬ Rose (S.faults source.old) (S.faults source.new) → ¬ Rose (K.faults out.old) (K.faults out.new)
        → IsWritten result ⊎ (((result ≡ Status.NoCandidate) × AskForScript (map string_bytes words.now)) ⊎ (result ≡ Status.NoMemory)) }
    ensures complete_generated { IsLegal (map string_bytes words.now) → (AskForReading (map string_bytes words.now) → ⊥)
        → ¬ Rose (K.faults out.old) (K.faults out.new) → IsWritten result ⊎ (result ≡ Status.NoMemory) }

    // The line of a failure.
    ensures line { ¬ Rose (E.faults fault.old) (E.faults fault.new) → Appended (E.taken fault.old) (E.taken fault.new) (fault_line result) }
{
    let status = run(alloc, words, source, out, decider);
    tell(fault, status);
    status
}

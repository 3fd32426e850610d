//! The bundle of an input.

ghost use Rattle.std.specs.Prelude.{◌≡◌, ◌≤◌, Err, IfOk, OnOk, OnErr, length};
ghost use Rattle.stk_base.specs.Limits.{most_bytes};
ghost use Rattle.stk_base.specs.Causes.{Rose};
ghost use Rattle.stk_base.specs.Streams.{Appended, AppendedPrefix, IsFlushed};
ghost use Rattle.stk_lex.specs.Units.{AreJoined};
ghost use Rattle.stk_units.specs.Pieces.{AreUnitsOf};
ghost use Rattle.stk_units.specs.Said.{AreAllTold, AreToldFirst};
ghost use Rattle.stk_bundles.specs.Units.{said_text, said_marks, IsUnitPart, IsUnitBegun};
ghost use Rattle.stk_bundles.specs.Bundles.{head_text, end_text, TookBundle, TookBundlePrefix};

use crate::units::write_unit_part;
use std::alloc::Global;
use stk_base::{Sink, Status};
use stk_bundle::{BundleLine, head_lines};
use stk_claims::write_lines;
use stk_ctype::Names;
use stk_lex::{Piece, Places, Token};
use stk_numbers::Kinds;
use stk_query::{Decider, MOST_BUDGET};
use stk_records::{Counts, Stop};
use stk_units::{Units, VisitedUnit, body_of_piece, status_of, tokens_of};

/// A file whose bundle is written: where memory comes from, its bytes with the places in them, the kinds of conditions
/// that are taken out, and the budget of each query: how many clauses a search may learn, from 1 to 200,000.
#[derive(Clone, Copy)]
pub struct BundledFile<'a> {
    pub alloc: Global,
    pub input: &'a Places<'a>,
    pub without: Kinds,
    pub budget: u32,
}

// Writes the lines with which the bundle begins.
fn begin<K: Sink>(file: &BundledFile, out: &mut K) -> Result<(), Stop>
    ensures all { OnOk result (Appended (K.taken out.old) (K.taken out.new) (head_text file.now.input.now file.now.without)) }
    ensures prefix { OnErr result (AppendedPrefix (K.taken out.old) (K.taken out.new) (head_text file.now.input.now file.now.without)) }
    ensures later { K.faults out.old ≤ K.faults out.new }
    ensures fault { result ≡ Err Stop.WriteFault → Rose (K.faults out.old) (K.faults out.new) }
{
    let length = file.input.bytes().len() as u64;
    let lines = head_lines(file.alloc, length, file.without)?;
    write_lines(file.alloc, lines.as_slice(), out)
}

// Writes what is said of units, one after the other. The answer is what they count for together.
fn write_units<K: Sink, D: Decider>(
    file: &BundledFile,
    tokens: &[Token],
    pieces: &[Piece],
    out: &mut K,
    decider: &mut D,
) -> Result<Counts, Stop>
    requires few { length tokens.now ≤ most_bytes }
    requires joined { AreJoined 0 (length tokens.now) pieces.now }
    requires least { 1 ≤ file.now.budget }
    requires most { file.now.budget ≤ MOST_BUDGET }
    ensures written { IfOk result (AreAllTold (IsUnitPart file.now.input.now file.now.without file.now.budget) said_text said_marks tokens.now pieces.now (K.taken out.old) (K.taken out.new) (D.given_up decider.old) (D.given_up decider.new)) }
    ensures prefix { OnErr result (AreToldFirst (IsUnitPart file.now.input.now file.now.without file.now.budget) (IsUnitBegun file.now.input.now file.now.without file.now.budget) said_text tokens.now pieces.now (K.taken out.old) (K.taken out.new)) }
    ensures later { K.faults out.old ≤ K.faults out.new }
    ensures fault { result ≡ Err Stop.WriteFault → Rose (K.faults out.old) (K.faults out.new) }
{
    let mut names = Names::new(file.alloc);
    let mut counts = Counts::nothing();
    for piece in pieces {
        let unit = VisitedUnit {
            alloc: file.alloc,
            input: file.input,
            without: file.without,
            mark: piece.no_return,
            body: body_of_piece(*piece),
            tokens: tokens_of(tokens, *piece),
        };
        let counted = write_unit_part(&unit, &mut names, file.budget, out, decider)?;
        counts = counts.plus(counted);
    }
    Ok(counts)
}

// Writes the line with which the bundle ends, and flushes what was written.
fn finish<K: Sink>(alloc: Global, out: &mut K) -> Result<(), Stop>
    ensures all { OnOk result (Appended (K.taken out.old) (K.taken out.new) end_text) }
    ensures flushed { OnOk result (IsFlushed (K.taken out.new) (K.flushed out.new)) }
    ensures prefix { OnErr result (AppendedPrefix (K.taken out.old) (K.taken out.new) end_text) }
    ensures later { K.faults out.old ≤ K.faults out.new }
    ensures fault { result ≡ Err Stop.WriteFault → Rose (K.faults out.old) (K.faults out.new) }
{
    write_lines(alloc, &[BundleLine::End], out)?;
    out.flush()?;
    Ok(())
}

/// Judges the units of an input and writes its bundle, and flushes it:
/// the first lines say how many bytes the input has and which kinds of conditions are taken out; what is said of a unit
/// is the line of the function that it defines, where this is judged and a candidate of it is unstable, and a claim for
/// each report, in the order of its candidates, or that it has none; then comes the last line. A claim has a start, the
/// set of conditions, and what closes it: in a function of at most 16 input bits that all maps were tried, and in a
/// wider one clauses that stand for the query of the candidate for the set, with a derivation that refutes them. A
/// report has no claim where that query is given up at this budget.
///
/// The answer is the status: `Found` where a candidate is unstable, `Unsure` where none is and one is undecided, else
/// `Stable`. What findings or lines say was given up is told by the count of goals that the decider gave up.
///
/// `WriteFault` comes only where the sink counted a fault; the only other refusal is want of memory. After either the
/// sink took some prefix of a lawful bundle, or of what one may begin with: the first lines, what is said of the first
/// units, and of the next one the claims of first candidates.
pub fn write_bundle<K: Sink, D: Decider>(
    file: &BundledFile,
    units: &Units,
    out: &mut K,
    decider: &mut D,
) -> Result<Status, Stop>
    requires are { AreUnitsOf file.now.input.now units.now.tokens units.now.pieces.items }
    requires joined { AreJoined 0 (length units.now.tokens) units.now.pieces.items }
    requires few { length units.now.tokens ≤ most_bytes }
    requires least { 1 ≤ file.now.budget }
    requires most { file.now.budget ≤ MOST_BUDGET }
    ensures bundle { IfOk result (TookBundle file.now.input.now file.now.without file.now.budget (K.taken out.old) (K.taken out.new) (K.flushed out.new) (D.given_up decider.old) (D.given_up decider.new)) }
    ensures prefix { OnErr result (TookBundlePrefix file.now.input.now file.now.without file.now.budget (K.taken out.old) (K.taken out.new)) }
    ensures fault { result ≡ Err Stop.WriteFault → Rose (K.faults out.old) (K.faults out.new) }
{
    begin(file, out)?;
    let tokens = units.tokens.as_slice();
    let counts = write_units(file, tokens, units.pieces.as_slice(), out, decider)?;
    finish(file.alloc, out)?;
    Ok(status_of(counts.unstable, counts.undecided))
}

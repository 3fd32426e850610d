//! The lines of a unit.

ghost use Rattle.std.specs.Prelude.{◌≡◌, ◌≤◌, ◌<◌, Err, IfOk, OnErr, length};
ghost use Rattle.stk_base.specs.Causes.{Rose};
ghost use Rattle.stk_base.specs.Limits.{most_bytes};
ghost use Rattle.stk_type_laws.specs.Orderly.{AreOrderly};
ghost use Rattle.stk_unit_lines.specs.Wrote.{WroteUnit, WroteUnitPrefix};

use crate::LintedFile;
use crate::recording::RecordVisitor;
use stk_base::Sink;
use stk_ctype::Names;
use stk_lex::Token;
use stk_query::{Decider, MOST_BUDGET};
use stk_records::{Counts, Stop};
use stk_units::{VisitedUnit, visit_unit};

/// Judges a unit of these tokens, of which there is at least one, with the kinds of conditions taken out that the
/// options name, and writes its lines in the form that they ask for: none of an empty unit and of a declaration that
/// are accepted; a line with the cause where no tree is the tokens, where a rule refuses the unit, and where it defines
/// a function of over 20,000 nodes, or of a weight over 8,000,000; and else the lines of the function's findings, in
/// the order of its candidates (each is written before the next candidate is judged, which no clause says). Of a
/// function of over 16 input bits, queries are asked of the decider, each within the budget of the options, from 1 to
/// 200,000; what is undecided or open is told by the count of goals that the decider gave up. The answer is what the
/// unit counts for. The names are those that the unit leaves in force; `body` says how many of its tokens stand before
/// a body, and `mark` that it is marked as one of functions that don't return. The names before it are orderly, as
/// units leave them (C11 6.7p7, 6.7.2.1). `WriteFault` comes only where the sink counted a fault; after it and after
/// `NoMemory` the sink took some prefix of lines that are lawful for the unit.
pub fn write_unit<K: Sink, D: Decider>(
    file: &LintedFile,
    mark: bool,
    body: Option<usize>,
    tokens: &[Token],
    names: &mut Names,
    out: &mut K,
    decider: &mut D,
) -> Result<Counts, Stop>
    requires some { 0 < length tokens.now }
    requires few { length tokens.now ≤ most_bytes }
    requires names { AreOrderly names.old }
    requires least { 1 ≤ file.now.options.budget }
    requires most { file.now.options.budget ≤ MOST_BUDGET }
    ensures written { IfOk result (λ counts. WroteUnit file.now.input.now file.now.options mark names.old body tokens.now (K.taken out.old) (K.taken out.new) (D.given_up decider.old) (D.given_up decider.new) counts names.new) }
    ensures prefix { OnErr result (WroteUnitPrefix file.now.input.now file.now.options mark names.old body tokens.now (K.taken out.old) (K.taken out.new)) }
    ensures later { K.faults out.old ≤ K.faults out.new }
    ensures fault { result ≡ Err Stop.WriteFault → Rose (K.faults out.old) (K.faults out.new) }
    ensures given_up { D.given_up decider.old ≤ D.given_up decider.new }
{
    let unit = VisitedUnit {
        alloc: file.alloc,
        input: file.input,
        without: file.options.without,
        mark,
        body,
        tokens,
    };
    let mut visitor = RecordVisitor {
        options: file.options,
        counts: Counts::nothing(),
    };
    match visit_unit(&unit, names, &mut visitor, out, decider) {
        Ok(()) => Ok(visitor.counts),
        Err(stop) => Err(stop),
    }
}

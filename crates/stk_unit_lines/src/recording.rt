//! The records of units, as what a visitor writes.

ghost use Rattle.std.specs.Prelude.{◌≡◌, ◌≤◌, ◌<◌, ℕ, Err, IfOk, OnErr, length};
ghost use Rattle.stk_base.specs.Causes.{Rose};
ghost use Rattle.stk_unit_lines.specs.Parts.{IsSkipLine};
ghost use Rattle.stk_unit_lines.specs.Wrote.{Wrote, HasStopped};

use crate::LintedFile;
use crate::functions::write_judged;
use stk_base::Sink;
use stk_function_env::Setting;
use stk_lex::Token;
use stk_query::Decider;
use stk_records::{Cause, Counts, Line, Options, Stop, write_record};
use stk_tree::Function;
use stk_units::{UnitVisitor, VisitedUnit, one_skipped, spot_at};

// Writes the line of a unit that is skipped for a cause.
fn write_skipped<K: Sink>(
    file: &LintedFile,
    tokens: &[Token],
    cause: Cause,
    out: &mut K,
) -> Result<Counts, Stop>
    requires { 0 < length tokens.now }
    ensures written { (n : ℕ) → IfOk result (Wrote (IsSkipLine file.now.input.now tokens.now cause) file.now.options (K.taken out.old) (K.taken out.new) n n) }
    ensures stopped { OnErr result (HasStopped (IsSkipLine file.now.input.now tokens.now cause) file.now.options (K.taken out.old) (K.taken out.new)) }
    ensures later { K.faults out.old ≤ K.faults out.new }
    ensures fault { result ≡ Err Stop.WriteFault → Rose (K.faults out.old) (K.faults out.new) }
{
    let at = spot_at(file.alloc, file.input, tokens[0].span.from)?;
    write_record(file.alloc, file.options, &Line::Skipped { at, cause }, out)?;
    Ok(one_skipped())
}

/// Writes the records of units, in the form that the options ask for, and has the counts of the last unit that has
/// any.
#[derive(Clone, Copy)]
pub(crate) struct RecordVisitor {
    pub options: Options,
    pub counts: Counts,
}

impl<K: Sink, D: Decider> UnitVisitor<K, D> for RecordVisitor {
    ghost use Rattle.std.specs.Prelude.{◌≤◌};
    ghost use Rattle.stk_unit_lines.specs.Wrote.{LeavesRecords, JudgesRecords};

    ghost ready = { λ v. (1 ≤ v.options.budget) × (v.options.budget ≤ 200000) };

    ghost leaves = { LeavesRecords K.taken K.faults D.given_up };

    ghost judges = { JudgesRecords K.taken K.faults D.given_up };

    fn leave_out(
        &mut self,
        unit: &VisitedUnit,
        cause: Cause,
        out: &mut K,
        asked: &mut D,
    ) -> Result<(), Stop> {
        // No query is asked of a unit that is left out.
        let _ = asked;
        let file = LintedFile {
            alloc: unit.alloc,
            input: unit.input,
            options: self.options,
        };
        match write_skipped(&file, unit.tokens, cause, out) {
            Ok(counts) => {
                self.counts = counts;
                Ok(())
            }
            Err(stop) => Err(stop),
        }
    }

    fn judge(
        &mut self,
        unit: &VisitedUnit,
        setting: &Setting,
        f: &Function,
        out: &mut K,
        asked: &mut D,
    ) -> Result<(), Stop> {
        let file = LintedFile {
            alloc: unit.alloc,
            input: unit.input,
            options: self.options,
        };
        match write_judged(&file, setting, f, out, asked) {
            Ok(counts) => {
                self.counts = counts;
                Ok(())
            }
            Err(stop) => Err(stop),
        }
    }
}

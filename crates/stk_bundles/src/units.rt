//! The part of a bundle that a unit has, as what a visitor of units writes.

ghost use Rattle.std.specs.Prelude.{◌≡◌, ◌≤◌, ◌<◌, Err, IfOk, OnOk, OnErr, length};
ghost use Rattle.stk_base.specs.Causes.{Rose};
ghost use Rattle.stk_base.specs.Limits.{most_bytes};
ghost use Rattle.stk_type_laws.specs.Orderly.{AreOrderly};
ghost use Rattle.stk_bundles.specs.Units.{WroteUnit, HasStoppedInUnit};

use crate::functions::{ClaimOptions, write_function};
use stk_base::Sink;
use stk_ctype::Names;
use stk_function_env::Setting;
use stk_query::Decider;
use stk_records::{Cause, Counts, Stop};
use stk_tree::Function;
use stk_units::{UnitVisitor, VisitedUnit, one_skipped, visit_unit};

/// Writes the parts of units, with queries of this budget: how many clauses a search may learn, from 1 to 200,000. It
/// has the counts of the last unit that has any.
#[derive(Clone, Copy)]
pub(crate) struct ClaimVisitor {
    pub(crate) budget: u32,
    pub(crate) counts: Counts,
}

impl<K: Sink, D: Decider> UnitVisitor<K, D> for ClaimVisitor {
    ghost use Rattle.std.specs.Prelude.{◌≤◌};
    ghost use Rattle.stk_bundles.specs.Units.{LeavesNothing, JudgesClaims};

    ghost ready = { λ v. (1 ≤ v.budget) × (v.budget ≤ 200000) };

    ghost leaves = { LeavesNothing };

    ghost judges = { JudgesClaims K.taken K.faults D.given_up };

    fn leave_out(
        &mut self,
        unit: &VisitedUnit,
        cause: Cause,
        out: &mut K,
        asked: &mut D,
    ) -> Result<(), Stop> {
        // A unit that is left out has no part.
        let _ = unit;
        let _ = cause;
        let _ = out;
        let _ = asked;
        self.counts = one_skipped();
        Ok(())
    }

    fn judge(
        &mut self,
        unit: &VisitedUnit,
        setting: &Setting,
        f: &Function,
        out: &mut K,
        asked: &mut D,
    ) -> Result<(), Stop> {
        let options = ClaimOptions {
            alloc: unit.alloc,
            at: u64::from(unit.tokens[0].span.from),
            budget: self.budget,
        };
        match write_function(options, setting, f, out, asked) {
            Ok(counts) => {
                self.counts = counts;
                Ok(())
            }
            Err(stop) => Err(stop),
        }
    }
}

/// Writes the part that a unit has in a bundle, with queries of this budget: how many clauses a search may learn, from
/// 1 to 200,000. It is that of the function that the unit defines, where this is accepted and judged: nothing where
/// none of its candidates is unstable, and else its line, by the byte at which the unit begins, and for each report, in
/// the order of its candidates, its claim, or that it has none. Every other unit has none. The answer is what the unit
/// counts for; the names become those that it leaves in force.
///
/// A claim is written before the next candidate is judged, which no clause says. Where the writing stops, the sink took
/// nothing, or some prefix of the claims of the function's first candidates. `WriteFault` comes only where the sink
/// counted a fault; the only other refusal is want of memory.
pub(crate) fn write_unit_part<K: Sink, D: Decider>(
    unit: &VisitedUnit,
    names: &mut Names,
    budget: u32,
    out: &mut K,
    decider: &mut D,
) -> Result<Counts, Stop>
    requires some { 0 < length unit.now.tokens.now }
    requires few { length unit.now.tokens.now ≤ most_bytes }
    requires names { AreOrderly names.old }
    requires least { 1 ≤ budget }
    requires most { budget ≤ 200000 }
    ensures written { IfOk result (λ counts. WroteUnit unit.now.input.now unit.now.without budget unit.now.mark names.old unit.now.body unit.now.tokens.now (K.taken out.old) (K.taken out.new) (D.given_up decider.old) (D.given_up decider.new) counts names.new) }
    ensures stopped { OnErr result (HasStoppedInUnit unit.now.input.now unit.now.without budget unit.now.mark names.old unit.now.body unit.now.tokens.now (K.taken out.old) (K.taken out.new)) }
    ensures orderly { OnOk result (AreOrderly names.new) }
    ensures later { K.faults out.old ≤ K.faults out.new }
    ensures fault { result ≡ Err Stop.WriteFault → Rose (K.faults out.old) (K.faults out.new) }
    ensures given_up { D.given_up decider.old ≤ D.given_up decider.new }
{
    let mut visitor = ClaimVisitor {
        budget,
        counts: Counts::nothing(),
    };
    match visit_unit(unit, names, &mut visitor, out, decider) {
        Ok(()) => Ok(visitor.counts),
        Err(stop) => Err(stop),
    }
}

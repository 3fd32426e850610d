// The parts of findings, written.
ghost use Rattle.std.specs.Prelude.{◌≡◌, ◌≤◌, map, true, Err, Some, slice_get, IfOk, OnOk, OnErr};
ghost use Rattle.stk_base.specs.Causes.{Rose};
ghost use Rattle.stk_claims.specs.Closing.{typing_of, without_of, tree_of, IsClaimed, IsSure, reported};
ghost use Rattle.stk_meaning.specs.Findings.{members};
ghost use Rattle.stk_goals.specs.Queries.{HasNoAnswer};
ghost use Rattle.stk_base.specs.Streams.{Appended, AppendedPrefix};
ghost use Rattle.stk_bundle.specs.Bundles.{parts_text};
ghost use Rattle.stk_claims.specs.Parts.{alone};
ghost use Rattle.stk_claims.specs.Wrote.{WroteFinding, HasStoppedAt};

use crate::closing::closing_of;
use crate::function::{ClaimedFunction, Report, ToldFinding};
use crate::parts::{lines_text, report_text};
use std::alloc::Global;
use stk_base::{Sink, write_all};
use stk_bundle::BundleLine;
use stk_meaning::Finding;
use stk_query::Decider;
use stk_records::Stop;

/// Writes lines without blocks to a sink. `WriteFault` comes only where the sink counted a fault, and where the
/// writing stops, the sink took some prefix of the lines. It isn't flushed.
pub fn write_lines<K: Sink>(alloc: Global, lines: &[BundleLine], out: &mut K) -> Result<(), Stop>
    ensures all { OnOk result (Appended (K.taken out.old) (K.taken out.new) (parts_text (map alone lines.now))) }
    ensures prefix { OnErr result (AppendedPrefix (K.taken out.old) (K.taken out.new) (parts_text (map alone lines.now))) }
    ensures later { K.faults out.old ≤ K.faults out.new }
    ensures fault { result ≡ Err Stop.WriteFault → Rose (K.faults out.old) (K.faults out.new) }
{
    let text = lines_text(alloc, lines)?;
    write_all(out, text.as_slice())?;
    Ok(())
}

// Writes the parts of a report, and the line of its function in front of them where this hasn't come.
fn write_report<K: Sink, D: Decider>(
    function: &ClaimedFunction,
    report: &Report,
    begun: bool,
    out: &mut K,
    decider: &mut D,
) -> Result<(), Stop>
    requires claimed { IsClaimed function.now }
    requires at { slice_get function.now.candidates.now report.now.position ≡ Some report.now.candidate }
    requires none { HasNoAnswer (typing_of function.now) (without_of function.now) (tree_of function.now) report.now.candidate (members report.now.needs.now) }
    ensures written { IfOk result (λ _. WroteFinding (typing_of function.now) (without_of function.now) (tree_of function.now) function.now.budget function.now.at report.now.candidate (reported report.now) begun (K.taken out.old) (K.taken out.new) (D.given_up decider.old) (D.given_up decider.new) true) }
    ensures stopped { OnErr result (HasStoppedAt (typing_of function.now) (without_of function.now) (tree_of function.now) function.now.budget function.now.at report.now.candidate (reported report.now) begun (K.taken out.old) (K.taken out.new)) }
    ensures later { K.faults out.old ≤ K.faults out.new }
    ensures fault { result ≡ Err Stop.WriteFault → Rose (K.faults out.old) (K.faults out.new) }
    ensures given_up { D.given_up decider.old ≤ D.given_up decider.new }
{
    let closing = closing_of(function, report, decider)?;
    let text = report_text(function, report, &closing, begun)?;
    write_all(out, text.as_slice())?;
    Ok(())
}

/// Writes the parts that a finding has in a bundle to a sink: of a report its claim, with the line of its function in
/// front where this hasn't come, and else nothing. The answer is whether the line of the function has come now.
///
/// It is known of a report that no input map's path run hits its candidate free of its set. Each claim is made when
/// it is written, and dropped then. Where the writing stops, the sink took nothing of the finding, or some prefix of
/// lawful parts. `WriteFault` comes only where the sink counted a fault; the only other refusal is want of memory.
pub fn write_finding_parts<K: Sink, D: Decider>(
    function: &ClaimedFunction,
    told: &ToldFinding,
    begun: bool,
    out: &mut K,
    decider: &mut D,
) -> Result<bool, Stop>
    requires claimed { IsClaimed function.now }
    requires at { slice_get function.now.candidates.now told.now.position ≡ Some told.now.candidate }
    requires sure { IsSure (typing_of function.now) (without_of function.now) (tree_of function.now) told.now.candidate told.now.finding.now }
    ensures written { IfOk result (WroteFinding (typing_of function.now) (without_of function.now) (tree_of function.now) function.now.budget function.now.at told.now.candidate told.now.finding.now begun (K.taken out.old) (K.taken out.new) (D.given_up decider.old) (D.given_up decider.new)) }
    ensures stopped { OnErr result (HasStoppedAt (typing_of function.now) (without_of function.now) (tree_of function.now) function.now.budget function.now.at told.now.candidate told.now.finding.now begun (K.taken out.old) (K.taken out.new)) }
    ensures later { K.faults out.old ≤ K.faults out.new }
    ensures fault { result ≡ Err Stop.WriteFault → Rose (K.faults out.old) (K.faults out.new) }
    ensures given_up { D.given_up decider.old ≤ D.given_up decider.new }
{
    match told.finding {
        Finding::Clear | Finding::Undecided { .. } => Ok(begun),
        Finding::Unstable { start, needs } => {
            let report = Report {
                position: told.position,
                candidate: told.candidate,
                start,
                needs: needs.as_slice(),
            };
            write_report(function, &report, begun, out, decider)?;
            Ok(true)
        }
    }
}

// The audit of a bundle.
ghost use Rattle.std.specs.Prelude.{◌≡◌, ◌+◌, ◌≤◌, ◌<◌, ◌^◌, None, length, IfOk, OnOk};
ghost use Rattle.stk_bundle.specs.Blocks.{line_count};
ghost use Rattle.stk_bundle.specs.declared.stage.Stage.TheVariants as stages;
ghost use Rattle.stk_audit_rules.specs.declared.audit.Why.TheVariants as whys;
ghost use Rattle.stk_bundle.specs.Bundles.{IsBlockShort};
ghost use Rattle.stk_audit_rules.specs.Knowing.{nothing_known};
ghost use Rattle.stk_audit_rules.specs.Audits.{IsAudit};
ghost use Rattle.stk_audit.specs.declared.progress.Step.TheVariants as steps;
ghost use Rattle.stk_audit_rules.specs.Truths.{HasTrueClaims, IsSound};
ghost use Rattle.stk_audit.specs.Hands.{hand_of};
ghost use Rattle.stk_audit.specs.Progressing.{known_in};
ghost use Rattle.stk_audit.specs.Stepping.{IsOpenClaim, IsEnd, IsEndFrom};

use crate::Answering;
use crate::progress::{Progress, Step};
use crate::proving::claim_of;
use crate::starts::failing_start;
use crate::stepping::take_line;
use std::alloc::Global;
use stk_audit_rules::{Audit, Why};
use stk_base::{List, NoMemory};
use stk_bundle::{PartFault, Stage, next_part};

/// How many lines a text has, those that a newline ends.
fn line_count(text: &[u8]) -> usize
    ensures { result ≡ line_count text.now }
{
    text.iter().filter(|byte| **byte == b'\n').count()
}

/// The number of the line behind those of a text, the first of which has this number.
fn number_behind(number: u32, text: &[u8]) -> u32
    requires { number + line_count text.now < 2 ^ 32 }
    ensures { result ≡ number + line_count text.now }
{
    number + line_count(text) as u32
}

/// The line behind all that are left is missing from a block.
fn missing_line(progress: &Progress, rest: &[u8]) -> Step
    requires { progress.now.number + line_count rest.now < 2 ^ 32 }
    ensures { result ≡ steps.Fails (progress.now.number + line_count rest.now) whys.Form }
{
    Step::Fails {
        line: number_behind(progress.number, rest),
        why: Why::Form,
    }
}

/// What fails where the clauses of a claim aren't all there: one of its starts, or the missing line.
fn short_clauses<A: Answering>(
    alloc: Global,
    answering: &A,
    progress: &Progress,
    rest: &[u8],
) -> Result<Step, NoMemory>
    requires hand { A.hand answering.now ≡ hand_of (known_in progress.now) }
    requires claim { IsOpenClaim (A.world (A.about answering.now)) (known_in progress.now) }
    requires short { IsBlockShort stages.Set rest.now }
    requires few { progress.now.number + line_count rest.now < 2 ^ 32 }
    ensures { IfOk result (IsEndFrom (A.world (A.about answering.now)) stages.Set progress.now rest.now) }
{
    let (_, candidate) = claim_of(progress);
    match failing_start(alloc, answering, progress, candidate)? {
        Some(line) => Ok(Step::Fails {
            line,
            why: Why::Start,
        }),
        None => Ok(missing_line(progress, rest)),
    }
}

/// What fails where a block isn't all there.
fn short_block<A: Answering>(
    alloc: Global,
    answering: &A,
    progress: &Progress,
    stage: Stage,
    rest: &[u8],
) -> Result<Step, NoMemory>
    requires hand { A.hand answering.now ≡ hand_of (known_in progress.now) }
    requires claim { stage ≡ stages.Set → IsOpenClaim (A.world (A.about answering.now)) (known_in progress.now) }
    requires short { IsBlockShort stage rest.now }
    requires few { progress.now.number + line_count rest.now < 2 ^ 32 }
    ensures { IfOk result (IsEndFrom (A.world (A.about answering.now)) stage progress.now rest.now) }
{
    match stage {
        Stage::Set => short_clauses(alloc, answering, progress, rest),
        _ => Ok(missing_line(progress, rest)),
    }
}

/// Goes over the lines of a bundle up to its end, or to one that fails.
fn all_lines<A: Answering>(
    alloc: Global,
    answering: &mut A,
    progress: &mut Progress,
    bundle: &[u8],
) -> Result<Step, NoMemory>
    requires known { known_in progress.old ≡ nothing_known }
    requires number { progress.old.number ≡ 1 }
    requires fresh { A.hand answering.old ≡ None }
    requires short { length bundle.now ≤ 1073741824 }
    ensures end { IfOk result (IsEnd (A.world (A.about answering.old)) bundle.now progress.new) }
    ensures about { OnOk result (A.about answering.new ≡ A.about answering.old) }
{
    let mut stage = Stage::Start;
    let mut rest = bundle;
    'lines: while !stage.is_ended() {
        match next_part(alloc, stage, rest) {
            Ok(next) => {
                match take_line(alloc, answering, progress, &next.part.line, next.part.block)? {
                    Step::Holds => {
                        progress.number = number_behind(progress.number + 1, next.part.block);
                        stage = next.stage;
                        rest = next.rest;
                    }
                    Step::Fails { line, why } => return Ok(Step::Fails { line, why }),
                }
            }
            Err(PartFault::Line) => return Ok(progress.fails(Why::Form)),
            Err(PartFault::Block) => return short_block(alloc, answering, progress, stage, rest),
            Err(PartFault::NoMemory) => return Err(NoMemory),
        }
    }
    if rest.is_empty() {
        Ok(Step::Holds)
    } else {
        Ok(progress.fails(Why::Form))
    }
}

/// The audit of a bundle of at most 2^30 bytes, by who answers for its source and has no function at hand yet. `Yes`
/// has the claims of the bundle, in order, and each of them is true of the source where the source's clauses mean what
/// they should; `No` names the first line that fails, counted from 1, and why. It takes time linear in the bundle
/// beside what is asked. The only refusal is want of memory.
pub fn audit_of<A: Answering>(
    alloc: Global,
    answering: &mut A,
    bundle: &[u8],
) -> Result<Audit, NoMemory>
    requires fresh { A.hand answering.old ≡ None }
    requires short { length bundle.now ≤ 1073741824 }
    ensures answer { IfOk result (IsAudit (A.world (A.about answering.old)) bundle.now) }
    ensures claims { IsSound (A.world (A.about answering.old)) → IfOk result (HasTrueClaims (A.world (A.about answering.old)) bundle.now) }
    ensures about { OnOk result (A.about answering.new ≡ A.about answering.old) }
{
    let mut progress = Progress::new(alloc);
    match all_lines(alloc, answering, &mut progress, bundle)? {
        Step::Holds => Ok(Audit::Yes(List::from_vec(progress.claims))),
        Step::Fails { line, why } => Ok(Audit::No { line, why }),
    }
}

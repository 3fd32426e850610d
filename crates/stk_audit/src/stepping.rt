// What a line of a bundle does to what is known.
ghost use Rattle.std.specs.Prelude.{◌≡◌, ℕ, List, Some, IfOk, OnOk};
ghost use Rattle.stk_bundle.specs.declared.line.BundleLine.TheVariants as line;
ghost use Rattle.stk_audit.specs.declared.progress.Step.TheVariants as steps;
ghost use Rattle.stk_audit.specs.Hands.{hand_of};
ghost use Rattle.stk_audit.specs.Progressing.{known_in};
ghost use Rattle.stk_audit.specs.Stepping.{Stepped, AreWithin, IsReady};

use crate::Answering;
use crate::naming::{is_next_function, kinds_taken, named_candidate, named_condition};
use crate::progress::{Progress, Step};
use crate::proving::{clauses, derivation, tried};
use std::alloc::Global;
use stk_audit_rules::Why;
use stk_base::NoMemory;
use stk_bundle::BundleLine;

/// The line of the source's length.
fn source<A: Answering>(answering: &A, progress: &Progress, length: u64) -> Step
    ensures { (block : List ℕ) → Stepped (A.world (A.about answering.now)) progress.now (line.Source length) block result progress.now }
{
    if length == answering.source_length() {
        Step::Holds
    } else {
        progress.fails(Why::Name)
    }
}

/// The line of a function that begins here.
fn function<A: Answering>(
    answering: &mut A,
    progress: &mut Progress,
    at: u64,
) -> Result<Step, NoMemory>
    requires { A.hand answering.old ≡ hand_of (known_in progress.old) }
    ensures step { IfOk result (λ step. (block : List ℕ) → Stepped (A.world (A.about answering.old)) progress.old (line.Function at) block step progress.new) }
    ensures hand { IfOk result (λ step. step ≡ steps.Holds → A.hand answering.new ≡ hand_of (known_in progress.new)) }
    ensures about { OnOk result (A.about answering.new ≡ A.about answering.old) }
{
    if !is_next_function(progress.at, at) {
        return Ok(progress.fails(Why::Name));
    }
    if !answering.take_up(progress.without, at)? {
        return Ok(progress.fails(Why::Name));
    }
    progress.begin_function(at as u32);
    Ok(Step::Holds)
}

/// The line of a candidate, which begins a claim or is left out.
fn candidate<A: Answering>(answering: &A, progress: &mut Progress, node: u64, kind: u64) -> Step
    requires { A.hand answering.now ≡ hand_of (known_in progress.old) }
    ensures unstable { (block : List ℕ) → Stepped (A.world (A.about answering.now)) progress.old (line.Unstable node kind) block result progress.new }
    ensures left { (block : List ℕ) → Stepped (A.world (A.about answering.now)) progress.old (line.Left node kind) block result progress.new }
{
    match named_candidate(answering, progress, node, kind) {
        Some(candidate) => {
            progress.begin_candidate(candidate);
            Step::Holds
        }
        None => progress.fails(Why::Name),
    }
}

/// The line of a condition of the claim, with a start that shows it needed.
fn need<A: Answering>(
    alloc: Global,
    answering: &A,
    progress: &mut Progress,
    node: u64,
    kind: u64,
    start: &[u64],
) -> Result<Step, NoMemory>
    requires { A.hand answering.now ≡ hand_of (known_in progress.old) }
    ensures { IfOk result (λ step. (block : List ℕ) → Stepped (A.world (A.about answering.now)) progress.old (line.Need node kind start.now) block step progress.new) }
{
    let Some(condition) = named_condition(answering, progress, node, kind) else {
        return Ok(progress.fails(Why::Name));
    };
    progress.add_member(condition)?;
    progress.add_start(alloc, start, Some(condition))?;
    Ok(Step::Holds)
}

/// The line of a condition of the claim of which it is open whether it is needed.
fn open_member<A: Answering>(
    answering: &A,
    progress: &mut Progress,
    node: u64,
    kind: u64,
) -> Result<Step, NoMemory>
    requires { A.hand answering.now ≡ hand_of (known_in progress.old) }
    ensures { IfOk result (λ step. (block : List ℕ) → Stepped (A.world (A.about answering.now)) progress.old (line.Open node kind) block step progress.new) }
{
    let Some(condition) = named_condition(answering, progress, node, kind) else {
        return Ok(progress.fails(Why::Name));
    };
    progress.add_member(condition)?;
    Ok(Step::Holds)
}

/// The line of a start that shows that the candidate is hit.
fn hit<A: Answering>(
    alloc: Global,
    _answering: &A,
    progress: &mut Progress,
    start: &[u64],
) -> Result<Step, NoMemory>
    ensures { IfOk result (λ step. (block : List ℕ) → Stepped (A.world (A.about _answering.now)) progress.old (line.Hit start.now) block step progress.new) }
{
    progress.add_start(alloc, start, None)?;
    Ok(Step::Holds)
}

/// What a line of a bundle, which may stand where it does, and its block do to what is known.
pub(crate) fn take_line<A: Answering>(
    alloc: Global,
    answering: &mut A,
    progress: &mut Progress,
    line: &BundleLine,
    block: &[u8],
) -> Result<Step, NoMemory>
    requires hand { A.hand answering.old ≡ hand_of (known_in progress.old) }
    requires ready { IsReady (A.world (A.about answering.old)) (known_in progress.old) line.now }
    ensures step { IfOk result (λ step. Stepped (A.world (A.about answering.old)) progress.old line.now block.now step progress.new) }
    ensures hand { IfOk result (λ step. step ≡ steps.Holds → A.hand answering.new ≡ hand_of (known_in progress.new)) }
    ensures within { IfOk result (λ step. step ≡ steps.Holds → AreWithin progress.old.clauses → AreWithin progress.new.clauses) }
    ensures about { OnOk result (A.about answering.new ≡ A.about answering.old) }
{
    match line {
        BundleLine::Head => Ok(Step::Holds),
        BundleLine::Source { length } => Ok(source(answering, progress, *length)),
        BundleLine::Without { kinds } => {
            progress.without = kinds_taken(kinds.as_slice());
            Ok(Step::Holds)
        }
        BundleLine::Function { at } => function(answering, progress, *at),
        BundleLine::Unstable { node, kind } => Ok(candidate(answering, progress, *node, *kind)),
        BundleLine::Left { node, kind } => Ok(candidate(answering, progress, *node, *kind)),
        BundleLine::Hit { start } => hit(alloc, answering, progress, start.as_slice()),
        BundleLine::Need { node, kind, start } => {
            need(alloc, answering, progress, *node, *kind, start.as_slice())
        }
        BundleLine::Open { node, kind } => open_member(answering, progress, *node, *kind),
        BundleLine::Tried => tried(alloc, answering, progress),
        BundleLine::Clauses { lines: _lines } => clauses(alloc, answering, progress, block),
        BundleLine::Steps { lines: _lines } => derivation(alloc, progress, block),
        BundleLine::End => Ok(Step::Holds),
    }
}

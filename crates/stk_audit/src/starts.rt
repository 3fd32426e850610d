// Whether the starts of a claim show what they should.
ghost use Rattle.std.specs.Prelude.{◌≡◌, ◌++◌, IfOk, ℕ, Option, List, Some};
ghost use Rattle.stk_meaning.specs.Hits.{same_condition};
ghost use Rattle.stk_audit_rules.specs.Starts.{other_than, others, kept_free};
ghost use Rattle.stk_audit.specs.Hands.{Hand, hand_of, function_at, IsAsked};
ghost use Rattle.stk_audit.specs.Progressing.{known_in};
ghost use Rattle.stk_audit.specs.Stepping.{IsOpenClaim, TellsStarts, TellsFirst};

use crate::Answering;
use crate::progress::Progress;
use std::alloc::Global;
use stk_audit_rules::Start;
use stk_base::NoMemory;
use stk_numbers::{Candidate, Condition};

/// Whether two conditions are one.
fn same_condition(a: Condition, b: Condition) -> bool
    ensures { result ≡ same_condition a b }
{
    a.node == b.node && a.kind.number() == b.kind.number()
}

/// Adds a condition, unless it is this one.
fn add_other(
    set: &mut Vec<Condition>,
    condition: Condition,
    member: Condition,
) -> Result<(), NoMemory>
    ensures { IfOk result (λ _. set.new.items ≡ set.old.items ++ other_than condition member) }
{
    if same_condition(member, condition) {
        return Ok(());
    }
    set.push(member)?;
    Ok(())
}

/// The other conditions of a set.
fn others(
    alloc: Global,
    condition: Condition,
    members: &[Condition],
) -> Result<Vec<Condition>, NoMemory>
    ensures { IfOk result (λ set. set.items ≡ others condition members.now) }
{
    let mut set = Vec::new(alloc);
    for member in members {
        add_other(&mut set, condition, *member)?;
    }
    Ok(set)
}

/// The conditions of a set of which the run of a start violates none before it hits the candidate: where it shows that
/// one is needed, the others.
fn kept_free(
    alloc: Global,
    shows: Option<Condition>,
    members: &[Condition],
) -> Result<Vec<Condition>, NoMemory>
    ensures { IfOk result (λ set. set.items ≡ kept_free shows members.now) }
{
    match shows {
        Some(condition) => others(alloc, condition, members),
        None => Ok(Vec::new(alloc)),
    }
}

/// The line of the first of these starts that doesn't show what it should, if there is one.
fn failing_start_of<A: Answering>(
    alloc: Global,
    answering: &A,
    candidate: Candidate,
    members: &[Condition],
    starts: &[Start],
) -> Result<Option<u32>, NoMemory>
    requires { IsAsked (A.world (A.about answering.now)) (A.hand answering.now) candidate members.now }
    ensures { IfOk result (λ found. (h : Hand) → A.hand answering.now ≡ Some h → TellsFirst (function_at (A.world (A.about answering.now)) h) candidate members.now starts.now found) }
{
    let mut rest = starts;
    while let Some((start, behind)) = rest.split_first() {
        let set = kept_free(alloc, start.shows, members)?;
        if !answering.is_answer(candidate, &set, start.residues.as_slice())? {
            return Ok(Some(start.line));
        }
        rest = behind;
    }
    Ok(None)
}

/// The line of the first start of the claim that is being read that doesn't show what it should, if there is one.
pub(crate) fn failing_start<A: Answering>(
    alloc: Global,
    answering: &A,
    progress: &Progress,
    candidate: Candidate,
) -> Result<Option<u32>, NoMemory>
    requires hand { A.hand answering.now ≡ hand_of (known_in progress.now) }
    requires claim { IsOpenClaim (A.world (A.about answering.now)) (known_in progress.now) }
    requires this { (known_in progress.now).last ≡ Some candidate }
    ensures { IfOk result (TellsStarts (A.world (A.about answering.now)) (known_in progress.now) candidate) }
{
    let found = failing_start_of(
        alloc,
        answering,
        candidate,
        &progress.members,
        &progress.starts,
    )?;
    Ok(found)
}

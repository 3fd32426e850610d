// What stands behind a claim's set: that all input maps were tried, or clauses and a derivation.
ghost use Rattle.std.specs.Prelude.{◌≡◌, ◌↔◌, ℕ, List, Option, Some, IfOk, OnOk, IsTrue};
ghost use Rattle.stk_numbers.specs.declared.conditions.Candidate.{Candidate as Asked};
ghost use Rattle.stk_clauses.specs.declared.store.Cnf.{Cnf as Clauses};
ghost use Rattle.stk_bundle.specs.declared.line.BundleLine.TheVariants as line;
ghost use Rattle.stk_audit_rules.specs.Starts.{IsClaimOf, IsShown};
ghost use Rattle.stk_audit.specs.declared.progress.Step.TheVariants as steps;
ghost use Rattle.stk_audit.specs.Hands.{hand_of};
ghost use Rattle.stk_audit.specs.Progressing.{known_in};
ghost use Rattle.stk_audit.specs.Stepping.{Stepped, IsOpenClaim, IsCompared, AreWithin, Derived};

use crate::Answering;
use crate::progress::{Progress, Step};
use crate::starts::failing_start;
use std::alloc::Global;
use stk_audit_rules::Why;
use stk_base::NoMemory;
use stk_check::check;
use stk_clauses::Cnf;
use stk_numbers::Candidate;
use stk_proofs::{Text, read_dimacs, read_lrat};

/// Where the function of the claim that is being read begins, and its candidate.
pub(crate) fn claim_of(progress: &Progress) -> (u32, Candidate)
    requires { (at : ℕ) × (c : Asked) × IsClaimOf (known_in progress.now) at c }
    ensures { IsClaimOf (known_in progress.now) result.0 result.1 }
{
    let Some(at) = progress.at else {
        unreachable!()
    };
    let Some(candidate) = progress.last else {
        unreachable!()
    };
    (at, candidate)
}

/// The line `tried`: the starts of the claim show what they should, and no input map answers its query, which are all
/// to be tried.
pub(crate) fn tried<A: Answering>(
    alloc: Global,
    answering: &mut A,
    progress: &mut Progress,
) -> Result<Step, NoMemory>
    requires hand { A.hand answering.old ≡ hand_of (known_in progress.old) }
    requires claim { IsOpenClaim (A.world (A.about answering.old)) (known_in progress.old) }
    ensures step { IfOk result (λ step. (block : List ℕ) → Stepped (A.world (A.about answering.old)) progress.old line.Tried block step progress.new) }
    ensures hand { OnOk result (A.hand answering.new ≡ A.hand answering.old) }
    ensures about { OnOk result (A.about answering.new ≡ A.about answering.old) }
{
    let (at, candidate) = claim_of(progress);
    if let Some(line) = failing_start(alloc, answering, progress, candidate)? {
        return Ok(Step::Fails {
            line,
            why: Why::Start,
        });
    }
    if !answering.tries_all() {
        return Ok(progress.fails(Why::Tried));
    }
    if !answering.none_answers(candidate, &progress.members)? {
        return Ok(progress.fails(Why::Tried));
    }
    progress.add_claim(alloc, at, candidate)?;
    Ok(Step::Holds)
}

/// How the clauses of a block stand to others.
#[derive(Clone, Copy, Debug, PartialEq, Eq)]
pub(crate) enum Compared {
    /// They aren't read.
    Unread,
    /// They are the same.
    Same,
    /// They are others.
    Other,
}

/// Whether the clauses of a block are these.
fn compare(alloc: Global, block: &[u8], own: &Cnf) -> Result<Compared, NoMemory>
    ensures { IfOk result (IsCompared block.now own.now) }
{
    match read_dimacs(alloc, block) {
        Ok(listed) => {
            if listed.is_same(own) {
                Ok(Compared::Same)
            } else {
                Ok(Compared::Other)
            }
        }
        Err(Text::Bad) => Ok(Compared::Unread),
        Err(Text::NoMemory) => Err(NoMemory),
    }
}

/// The clauses of a claim whose starts show what they should: the block has those that stand for its query.
fn own_clauses<A: Answering>(
    alloc: Global,
    answering: &mut A,
    progress: &mut Progress,
    candidate: Candidate,
    block: &[u8],
) -> Result<Step, NoMemory>
    requires hand { A.hand answering.old ≡ hand_of (known_in progress.old) }
    requires claim { IsOpenClaim (A.world (A.about answering.old)) (known_in progress.old) }
    requires shown { (at : ℕ) × IsShown (A.world (A.about answering.old)) (known_in progress.old) at candidate }
    ensures step { IfOk result (λ step. (lines : ℕ) → Stepped (A.world (A.about answering.old)) progress.old (line.Clauses lines) block.now step progress.new) }
    ensures within { IfOk result (λ step. step ≡ steps.Holds → AreWithin (known_in progress.new).clauses) }
    ensures hand { OnOk result (A.hand answering.new ≡ A.hand answering.old) }
    ensures about { OnOk result (A.about answering.new ≡ A.about answering.old) }
{
    let own = answering.clauses(candidate, &progress.members)?;
    match compare(alloc, block, &own)? {
        Compared::Unread => Ok(progress.fails(Why::Form)),
        Compared::Other => Ok(progress.fails(Why::Formula(own))),
        Compared::Same => {
            progress.clauses = Some(own);
            Ok(Step::Holds)
        }
    }
}

/// The clauses of a claim: its starts show what they should, and the block has the clauses that stand for its query.
pub(crate) fn clauses<A: Answering>(
    alloc: Global,
    answering: &mut A,
    progress: &mut Progress,
    block: &[u8],
) -> Result<Step, NoMemory>
    requires hand { A.hand answering.old ≡ hand_of (known_in progress.old) }
    requires claim { IsOpenClaim (A.world (A.about answering.old)) (known_in progress.old) }
    ensures step { IfOk result (λ step. (lines : ℕ) → Stepped (A.world (A.about answering.old)) progress.old (line.Clauses lines) block.now step progress.new) }
    ensures within { IfOk result (λ step. step ≡ steps.Holds → AreWithin (known_in progress.new).clauses) }
    ensures hand { OnOk result (A.hand answering.new ≡ A.hand answering.old) }
    ensures about { OnOk result (A.about answering.new ≡ A.about answering.old) }
{
    let (_, candidate) = claim_of(progress);
    match failing_start(alloc, answering, progress, candidate)? {
        Some(line) => Ok(Step::Fails {
            line,
            why: Why::Start,
        }),
        None => own_clauses(alloc, answering, progress, candidate, block),
    }
}

/// The derivation of a claim: the block has one, and it refutes the clauses.
pub(crate) fn derivation(
    alloc: Global,
    progress: &mut Progress,
    block: &[u8],
) -> Result<Step, NoMemory>
    requires claim { (at : ℕ) × (c : Asked) × IsClaimOf (known_in progress.old) at c }
    requires clauses { (own : Clauses) × (progress.old.clauses ≡ Some own) }
    requires within { AreWithin progress.old.clauses }
    ensures { IfOk result (λ step. Derived progress.old block.now step progress.new) }
{
    let (at, candidate) = claim_of(progress);
    let Some(own) = &progress.clauses else {
        unreachable!()
    };
    let steps = match read_lrat(alloc, own.store.count(), block) {
        Ok(steps) => steps,
        Err(Text::Bad) => return Ok(progress.fails(Why::Form)),
        Err(Text::NoMemory) => return Err(NoMemory),
    };
    if !check(alloc, own, &steps)? {
        return Ok(progress.fails(Why::Derivation));
    }
    progress.add_claim(alloc, at, candidate)?;
    Ok(Step::Holds)
}

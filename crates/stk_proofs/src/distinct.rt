// The literals of a list, each once.
ghost use Rattle.std.specs.Prelude.{◌≡◌, ◌≤◌, ◌<◌, ◌+◌, length, IfOk, OnOk, map};
ghost use Rattle.std.specs.List.{All};
ghost use Rattle.stk_clauses.specs.declared.literal.Lit.{Lit as Literal};
ghost use Rattle.stk_clauses.specs.Literals.{AreDistinct};
ghost use Rattle.stk_proofs.specs.Distinct.{with_literal, distinct, IsBetween, AreMarked};

use indexmap::IndexSet;
use std::alloc::Global;
use stk_base::NoMemory;
use stk_clauses::{Lit, is_among};

/// Among so few literals it is faster to look at each.
const FEW: usize = 8;

/// Literals lie close together where there are at most so many numbers a literal from the least to the greatest.
const CLOSE: u64 = 4;

/// Adds a literal unless it is there: each is looked at.
#[tactic(auto, using(crate::proofs::Distinctness::with_old, crate::proofs::Distinctness::with_new))]
fn add_looking(found: &mut Vec<Lit>, literal: Lit) -> Result<(), NoMemory>
    ensures { OnOk result (found.new.items ≡ with_literal found.old.items literal) }
{
    if is_among(found, literal) {
        return Ok(());
    }
    found.push(literal)?;
    Ok(())
}

/// Few literals, each where it first stands.
#[tactic(auto, using(crate::proofs::Distinctness::goes_on))]
fn distinct_of_few(alloc: Global, literals: &[Lit]) -> Result<Vec<Lit>, NoMemory>
    ensures { IfOk result (λ found. found.items ≡ distinct literals.now) }
{
    let mut found = Vec::new(alloc);
    for literal in literals {
        add_looking(&mut found, *literal)?;
    }
    Ok(found)
}

/// The least and the greatest number of literals.
fn bounds_of(literals: &[Lit]) -> (u32, u32)
    ensures { All (IsBetween result.0 result.1) literals.now }
{
    let mut least = u32::MAX;
    let mut greatest = 0;
    for literal in literals {
        least = least.min(literal.0);
        if literal.0 > greatest {
            greatest = literal.0;
        }
    }
    (least, greatest)
}

/// Adds a literal unless its number, less the least one, is marked.
fn add_unmarked(
    found: &mut Vec<Lit>,
    marks: &mut Vec<bool>,
    least: u32,
    literal: Lit,
) -> Result<(), NoMemory>
    requires from { least ≤ literal.0 }
    requires to { literal.0 < least + length marks.old.items }
    requires marked { AreMarked least marks.old.items found.old.items }
    ensures found { OnOk result (found.new.items ≡ with_literal found.old.items literal) }
    ensures marked { OnOk result (AreMarked least marks.new.items found.new.items) }
    ensures length { OnOk result (length marks.new.items ≡ length marks.old.items) }
{
    let at = (literal.0 - least) as usize;
    if marks[at] {
        return Ok(());
    }
    marks[at] = true;
    found.push(literal)?;
    Ok(())
}

/// Many literals between two numbers, each where it first stands, by a mark for each number between.
#[tactic(auto, using(crate::proofs::Distinctness::goes_on))]
fn distinct_of_close(
    alloc: Global,
    literals: &[Lit],
    least: u32,
    greatest: u32,
) -> Result<Vec<Lit>, NoMemory>
    requires order { least ≤ greatest }
    requires between { All (IsBetween least greatest) literals.now }
    ensures { IfOk result (λ found. found.items ≡ distinct literals.now) }
{
    let mut found = Vec::with_capacity(alloc, literals.len())?;
    let mut marks = Vec::from_elem(alloc, false, (greatest - least) as usize + 1)?;
    for literal in literals {
        add_unmarked(&mut found, &mut marks, least, *literal)?;
    }
    Ok(found)
}

/// Adds a literal unless its number has been seen.
fn add_unseen(found: &mut Vec<Lit>, seen: &mut IndexSet<u32>, literal: Lit) -> Result<(), NoMemory>
    requires { seen.old.keys ≡ map (λ (m : Literal). m.0) found.old.items }
    ensures found { OnOk result (found.new.items ≡ with_literal found.old.items literal) }
    ensures seen { OnOk result (seen.new.keys ≡ map (λ (m : Literal). m.0) found.new.items) }
{
    let (_, fresh) = seen.insert_full(literal.0)?;
    if fresh {
        found.push(literal)?;
        return Ok(());
    }
    Ok(())
}

/// Many literals, each where it first stands, by a set of their numbers.
#[tactic(auto, using(crate::proofs::Distinctness::goes_on))]
fn distinct_of_scattered(alloc: Global, literals: &[Lit]) -> Result<Vec<Lit>, NoMemory>
    ensures { IfOk result (λ found. found.items ≡ distinct literals.now) }
{
    let mut found = Vec::new(alloc);
    let mut seen = IndexSet::new(alloc);
    for literal in literals {
        add_unseen(&mut found, &mut seen, *literal)?;
    }
    Ok(found)
}

/// Many literals, each where it first stands.
fn distinct_of_many(alloc: Global, literals: &[Lit]) -> Result<Vec<Lit>, NoMemory>
    ensures { IfOk result (λ found. found.items ≡ distinct literals.now) }
{
    let (least, greatest) = bounds_of(literals);
    if least <= greatest && u64::from(greatest - least) < CLOSE * literals.len() as u64 {
        distinct_of_close(alloc, literals, least, greatest)
    } else {
        distinct_of_scattered(alloc, literals)
    }
}

/// Literals, each where it first stands. It takes time linear in their number, and beside the answer at most 4 bytes a
/// literal where their numbers lie close together.
#[tactic(auto, using(crate::proofs::Distinctness::distinct_differ))]
pub(crate) fn distinct(alloc: Global, literals: &[Lit]) -> Result<Vec<Lit>, NoMemory>
    ensures distinct { IfOk result (λ found. found.items ≡ distinct literals.now) }
    ensures differ { IfOk result (λ found. AreDistinct found.items) }
{
    if literals.len() <= FEW {
        distinct_of_few(alloc, literals)
    } else {
        distinct_of_many(alloc, literals)
    }
}

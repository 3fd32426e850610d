//! Bundles of functions of more than 16 input bits: which lines they have, and that each clause list and derivation is
//! read back and accepted by the check of derivations.

ghost use Rattle.std.specs.List.{All};
ghost use Rattle.stk_clauses.specs.Literals.{AreBelow};

use crate::writing::{NOTHING, bundled};
use std::alloc::Global;
use std::test::Fail;
use stk_base::{NoMemory, Status};
use stk_bundle::{BundleLine, Part, read_bundle};
use stk_check::check;
use stk_clauses::Cnf;
use stk_proofs::{read_dimacs, read_lrat};

// A function that tests a sum for overflow behind the sum.
const SUMS: &[u8] = b"int f(int x) { if (x + 100 < x) return 1; return 0; }";

/// Which line of a bundle one is.
#[derive(Clone, Copy, Debug, PartialEq, Eq)]
enum Kind {
    Head,
    Source,
    Without,
    Function,
    Unstable,
    Hit,
    Need,
    Clauses,
    Steps,
    Other,
    End,
}

fn kind_of(line: &BundleLine) -> Kind {
    match line {
        BundleLine::Head => Kind::Head,
        BundleLine::Source { .. } => Kind::Source,
        BundleLine::Without { .. } => Kind::Without,
        BundleLine::Function { .. } => Kind::Function,
        BundleLine::Unstable { .. } => Kind::Unstable,
        BundleLine::Hit { .. } => Kind::Hit,
        BundleLine::Need { .. } => Kind::Need,
        BundleLine::Clauses { .. } => Kind::Clauses,
        BundleLine::Steps { .. } => Kind::Steps,
        BundleLine::End => Kind::End,
        BundleLine::Open { .. } | BundleLine::Tried | BundleLine::Left { .. } => Kind::Other,
    }
}

static KINDS: [Kind; 20] = [
    Kind::Head,
    Kind::Source,
    Kind::Without,
    Kind::Function,
    Kind::Unstable,
    Kind::Hit,
    Kind::Need,
    Kind::Clauses,
    Kind::Steps,
    Kind::Unstable,
    Kind::Hit,
    Kind::Need,
    Kind::Clauses,
    Kind::Steps,
    Kind::Unstable,
    Kind::Hit,
    Kind::Need,
    Kind::Clauses,
    Kind::Steps,
    Kind::End,
];

// Whether parts are lines of these kinds.
fn are(parts: &[Part], kinds: &[Kind]) -> bool {
    let mut rest = kinds;
    for part in parts {
        let Some((kind, behind)) = rest.split_first() else {
            return false;
        };
        if kind_of(&part.line) != *kind {
            return false;
        }
        rest = behind;
    }
    rest.is_empty()
}

// Whether a text is a derivation that refutes a clause list.
fn refutes(alloc: Global, list: &Cnf, text: &[u8]) -> Result<bool, NoMemory>
    requires { All (AreBelow list.now.vars) list.now.store }
{
    let Ok(derivation) = read_lrat(alloc, list.store.count(), text) else {
        return Ok(false);
    };
    check(alloc, list, &derivation)
}

// Whether two texts are a clause list and a derivation that refutes it.
fn are_proof(alloc: Global, clauses: &[u8], steps: &[u8]) -> Result<bool, NoMemory> {
    let Ok(list) = read_dimacs(alloc, clauses) else {
        return Ok(false);
    };
    refutes(alloc, &list, steps)
}

// How many parts are a derivation that refutes the clause list in front of it.
fn proofs_among(alloc: Global, parts: &[Part]) -> Result<u32, NoMemory> {
    let mut count = 0u32;
    let mut clauses: &[u8] = &[];
    for part in parts {
        let holds = match part.line {
            BundleLine::Steps { .. } => are_proof(alloc, clauses, part.block)?,
            _ => false,
        };
        if holds {
            count = count.saturating_add(1);
        }
        clauses = part.block;
    }
    Ok(count)
}

#[test]
fn claims_of_wide_functions_have_proofs(rt: HostRuntime) -> Result<(), Fail> {
    let written = bundled(rt.alloc(), NOTHING, SUMS, &[])?;
    assert!(rt; written.ended == Ok(Status::Found));
    let read = read_bundle(rt.alloc(), written.bundle.as_slice())?;
    assert!(rt; read.failing.is_none());
    assert!(rt; read.rest.is_empty());
    assert!(rt; are(read.parts.as_slice(), &KINDS));
    assert!(rt; proofs_among(rt.alloc(), read.parts.as_slice())? == 3);
    Ok(())
}

#[test]
fn two_runs_write_the_same_bundle(rt: HostRuntime) -> Result<(), Fail> {
    let once = bundled(rt.alloc(), NOTHING, SUMS, &[])?;
    let again = bundled(rt.alloc(), NOTHING, SUMS, &[])?;
    assert!(rt; once.bundle.as_slice() == again.bundle.as_slice());
    Ok(())
}

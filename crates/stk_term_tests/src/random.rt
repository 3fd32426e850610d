//! Random terms, whose values stay.
use crate::rewritten_terms::{made, simplified, three_inputs};
use std::alloc::Global;
use std::process::Abort;
use std::test::Fail;
use stk_base::{List, NoMemory};
use stk_terms::{Residues, TermId, TermOp, Terms};

// Operators to choose from; constants among them that rules look for.
static OPERATORS: [TermOp; 36] = [
    TermOp::Constant(8, 0),
    TermOp::Constant(8, 1),
    TermOp::Constant(8, 255),
    TermOp::Constant(8, 100),
    TermOp::Constant(1, 0),
    TermOp::Constant(1, 1),
    TermOp::Not,
    TermOp::Neg,
    TermOp::And,
    TermOp::Or,
    TermOp::Xor,
    TermOp::Add,
    TermOp::Add,
    TermOp::Add,
    TermOp::Sub,
    TermOp::Mul,
    TermOp::UDiv,
    TermOp::URem,
    TermOp::Shl,
    TermOp::LShr,
    TermOp::AShr,
    TermOp::Eq,
    TermOp::Eq,
    TermOp::ULt,
    TermOp::SLt,
    TermOp::Extract(0, 8),
    TermOp::Extract(0, 1),
    TermOp::Extract(3, 4),
    TermOp::ZeroExt(8),
    TermOp::SignExt(8),
    TermOp::SignExt(128),
    TermOp::Concat,
    TermOp::Ite,
    TermOp::Ite,
    TermOp::Ite,
    TermOp::Not,
];

// The next number of a linear congruential generator.
fn next(seed: u64) -> u64 {
    seed.wrapping_mul(6_364_136_223_846_793_005)
        .wrapping_add(1_442_695_040_888_963_407)
}

// A random one of the last terms.
fn recent(seed: u64, count: usize) -> TermId {
    let back = (seed >> 33) as usize % 12;
    TermId(count.saturating_sub(back + 1))
}

// One try to make a term of random arguments.
fn attempt(alloc: Global, terms: &mut Terms, seed: u64) -> Result<(), NoMemory> {
    let count = terms.count();
    let op = OPERATORS[(seed >> 40) as usize % 36];
    let a = recent(next(seed), count);
    let b = recent(next(next(seed)), count);
    let c = recent(next(next(next(seed))), count);
    let all = vec![in alloc; a, b, c]?;
    for many in 0..4usize {
        let args = &all.as_slice()[..many.min(all.len())];
        if terms.can_make(op, args) {
            let _ = terms.make(op, args)?;
        }
    }
    Ok(())
}

// The term's number for three residues.
fn number(
    rt: &impl Abort,
    alloc: Global,
    terms: &Terms,
    id: TermId,
    seed: u64,
) -> Result<u128, NoMemory> {
    let numbers = vec![in alloc; (seed >> 20) % 256, (seed >> 30) % 256, (seed >> 40) % 2]?;
    let residues = Residues {
        numbers: List::from_vec(numbers),
    };
    assert!(rt; id.0 < terms.count());
    assert!(rt; terms.has_residues(&residues));
    terms.value(id, &residues)
}

// Makes the three inputs.
fn make_inputs(rt: &impl Abort, terms: &mut Terms) -> Result<(), NoMemory> {
    for key in 0..3u32 {
        let _ = made(rt, terms, TermOp::Input(key), &[])?;
    }
    Ok(())
}

// Makes random terms, and gives the last number that was drawn for them.
fn make_some(alloc: Global, terms: &mut Terms, first: u64) -> Result<u64, NoMemory> {
    let mut seed = first;
    for _ in 0..60u32 {
        seed = next(seed);
        attempt(alloc, terms, seed)?;
    }
    Ok(seed)
}

// Whether two terms have the same numbers for random residues.
fn are_alike(
    rt: &impl Abort,
    alloc: Global,
    terms: &Terms,
    pair: (TermId, TermId),
    first: u64,
) -> Result<bool, NoMemory> {
    let mut seed = first;
    for _ in 0..8u32 {
        seed = next(seed);
        if number(rt, alloc, terms, pair.0, seed)? != number(rt, alloc, terms, pair.1, seed)? {
            return Ok(false);
        }
    }
    Ok(true)
}

// Whether the last one of random terms keeps its values.
fn last_keeps_values(
    rt: &impl Abort,
    alloc: Global,
    terms: &mut Terms,
    first: u64,
) -> Result<bool, NoMemory> {
    make_inputs(rt, terms)?;
    let seed = make_some(alloc, terms, first)?;
    let last = TermId(terms.count().saturating_sub(1));
    let became = simplified(rt, alloc, terms, last)?;
    are_alike(rt, alloc, terms, (last, became), seed)
}

// Whether the last term of a random store keeps its values.
fn keeps_values(rt: &impl Abort, alloc: Global, first: u64) -> Result<bool, NoMemory> {
    let mut terms = three_inputs(alloc)?;
    last_keeps_values(rt, alloc, &mut terms, first)
}

#[test]
fn random_terms_keep_their_values(rt: HostRuntime) -> Result<(), Fail> {
    for first in 0..500u64 {
        assert!(rt; keeps_values(&rt, rt.alloc(), first)?, "{first}");
    }
    Ok(())
}

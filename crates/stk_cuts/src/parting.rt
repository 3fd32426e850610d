//! Which terms of a goal are kept, and which are cut.
ghost use Rattle.std.specs.Prelude.{◌<◌, length};
ghost use Rattle.std.specs.Bool.{OnTrue};

use std::alloc::Global;
use stk_base::NoMemory;
use stk_terms::{TermId, TermOp, Terms};

/// The widest input.
const MOST_WIDTH: u8 = 64;

/// How many constants and terms that are too wide for an input are kept beside the others.
const MORE: usize = 256;

/// Terms of a goal: those that are kept, the last one first, and those that become inputs. The arguments of each kept
/// term are among both.
#[derive(Drop)]
pub(crate) struct Parts {
    pub(crate) kept: Vec<TermId>,
    pub(crate) cut: Vec<TermId>,
}

// Whether there is such a term.
fn exists(terms: &Terms, id: TermId) -> bool
    ensures { OnTrue result (id.0 < length terms.now.terms) }
{
    id.0 < terms.count()
}

// Whether a term may be kept: inputs aren't, and constants and terms that are too wide for an input always are.
fn is_open(terms: &Terms, id: TermId, is_free: bool) -> bool {
    if !exists(terms, id) {
        return false;
    }
    match terms.op(id) {
        TermOp::Input(_) => false,
        TermOp::Constant(_, _) => true,
        _ => is_free || terms.width(id) > MOST_WIDTH,
    }
}

// Where the last term stands that may be kept, if there is one.
fn last_open(terms: &Terms, wanted: &[TermId], is_free: bool) -> Option<usize> {
    let mut best = None;
    let mut least = 0;
    for at in 0..wanted.len() {
        let id = wanted[at];
        if id.0 >= least && is_open(terms, id, is_free) {
            best = Some(at);
            least = id.0;
        }
    }
    best
}

// Puts the arguments of a term to those that are wanted.
fn want_args(terms: &Terms, wanted: &mut Vec<TermId>, id: TermId) -> Result<(), NoMemory> {
    if exists(terms, id) {
        for arg in terms.args(id) {
            if !wanted.as_slice().contains(arg) {
                wanted.push(*arg)?;
            }
        }
    }
    Ok(())
}

/// The last terms of a goal, at most this many beside constants and terms that are too wide for an input, and the terms
/// that these are made of.
pub(crate) fn parted(
    alloc: Global,
    terms: &Terms,
    goal: TermId,
    most: usize,
) -> Result<Parts, NoMemory> {
    let mut kept = Vec::new(alloc);
    let mut wanted = Vec::new(alloc);
    wanted.push(goal)?;
    for step in 0..most.saturating_add(MORE) {
        let Some(at) = last_open(terms, wanted.as_slice(), step < most) else {
            break;
        };
        if at < wanted.len() {
            let id = wanted.swap_remove(at);
            kept.push(id)?;
            want_args(terms, &mut wanted, id)?;
        }
    }
    Ok(Parts { kept, cut: wanted })
}

/// Whether a term is cut that isn't an input already.
pub(crate) fn is_smaller(terms: &Terms, cut: &[TermId]) -> bool {
    for id in cut {
        if is_open(terms, *id, true) {
            return true;
        }
    }
    false
}

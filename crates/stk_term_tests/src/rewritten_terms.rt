//! Making and rewriting terms in tests.
use std::alloc::Global;
use std::process::Abort;
use stk_base::{List, NoMemory};
use stk_rewrite::simplify;
use stk_terms::{TermId, TermOp, Terms};

/// The term; the test fails if it can't be made.
pub(crate) fn made(
    rt: &impl Abort,
    terms: &mut Terms,
    op: TermOp,
    args: &[TermId],
) -> Result<TermId, NoMemory> {
    assert!(rt; terms.can_make(op, args));
    terms.make(op, args)
}

/// What the term becomes; the test fails if the term isn't there.
pub(crate) fn simplified(
    rt: &impl Abort,
    alloc: Global,
    terms: &mut Terms,
    id: TermId,
) -> Result<TermId, NoMemory> {
    assert!(rt; id.0 < terms.count());
    simplify(alloc, terms, id)
}

/// A store over two inputs of 8 bits and one of 1 bit.
pub(crate) fn three_inputs(alloc: Global) -> Result<Terms, NoMemory> {
    let widths = vec![in alloc; 8, 8, 1]?;
    Ok(Terms::new(alloc, List::from_vec(widths)))
}

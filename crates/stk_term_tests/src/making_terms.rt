//! Making terms in tests.
use std::process::Abort;
use stk_base::NoMemory;
use stk_terms::{TermId, TermOp, Terms};

/// The term; the test fails if it can't be made.
pub(crate) fn made(
    rt: &impl Abort,
    terms: &mut Terms,
    op: TermOp,
    args: &[TermId],
) -> Result<TermId, NoMemory> {
    assert!(rt; terms.can_make(op, args));
    terms.make(op, args)
}

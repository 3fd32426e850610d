// Goals whose inputs are tried.
ghost use Rattle.std.specs.Prelude.{◌≡◌, ◌↔◌, ℕ, ◌<◌, ◌≤◌, false, length, sum, IfOk, IsTrue};
ghost use Rattle.stk_query.specs.Verdicts.{is_undecided, IsVerdict};

use crate::Verdict;
use std::alloc::Global;
use stk_base::NoMemory;
use stk_terms::{TermId, Terms, first_that, input_bits};

/// Whether the inputs have at most 16 bits together.
#[tactic(auto, using(crate::proofs::VerdictBits::same_bits))]
pub(crate) fn are_few(terms: &Terms) -> bool
    ensures { IsTrue result ↔ (sum terms.now.inputs ≤ 16) }
{
    input_bits(terms) <= 16
}

/// The verdict on a goal whose inputs have at most 16 bits together, all of which are tried.
#[tactic(auto, using(crate::proofs::VerdictBits::same_bits))]
pub(crate) fn tried(alloc: Global, terms: &Terms, goal: TermId) -> Result<Verdict, NoMemory>
    requires exists { goal.0 < length terms.now.terms }
    requires few { sum terms.now.inputs ≤ 16 }
    ensures verdict { IfOk result (λ v. (budget : ℕ) → IsVerdict terms.now goal.0 budget v) }
    ensures decided { IfOk result (λ v. is_undecided v ≡ false) }
{
    match first_that(alloc, terms, goal)? {
        Some(residues) => Ok(Verdict::Satisfied(residues)),
        None => Ok(Verdict::Tried),
    }
}

//! The whole of a term, from its first part to its last.
ghost use Rattle.std.specs.Prelude.{◌≡◌, ◌<◌, ◌≤◌, ℕ, Bool, true, length, IfOk};
ghost use Rattle.stk_terms.specs.Cost.{IsClosed, Grows, bound_at, cost};
ghost use Rattle.stk_terms.specs.Fitting.{IsSound};
ghost use Rattle.stk_terms.specs.Growth.{Keeps};
ghost use Rattle.stk_rewrite.specs.Carries.{HasChildren};
ghost use Rattle.stk_rewrite.specs.Normal.{Simplifies, ChildrenDone};

use crate::building::build;
use crate::choosing::choose;
use std::alloc::Global;
use stk_base::NoMemory;
use stk_terms::{TermId, Terms};

// What stands for a term, over what stands for its arguments.
fn next(terms: &mut Terms, done: &[TermId], id: TermId) -> Result<TermId, NoMemory>
    requires sound { IsSound terms.old }
    requires exists { id.0 < length terms.old.terms }
    requires count { length done.now ≡ id.0 }
    requires done { ChildrenDone terms.old done.now id.0 }
    ensures simplifies { IfOk result (λ v. Simplifies terms.old terms.new id.0 v.0) }
    ensures grows { IfOk result (λ v. (chosen : ℕ → Bool) → IsClosed terms.old chosen → HasChildren chosen terms.old done.now id.0 → Grows terms.old terms.new chosen (bound_at terms.old id.0) v.0) }
    ensures keeps { Keeps terms.old terms.new }
    ensures still { IsSound terms.new }
{
    let right = choose(terms, done, id);
    let v = build(terms, right)?;
    Ok(v)
}

// The same for a part of the whole, and any other term as it is.
fn next_part(terms: &mut Terms, part: bool, done: &[TermId], id: TermId) -> Result<TermId, NoMemory>
    requires sound { IsSound terms.old }
    requires exists { id.0 < length terms.old.terms }
    requires count { length done.now ≡ id.0 }
    requires done { part ≡ true → ChildrenDone terms.old done.now id.0 }
    ensures simplifies { part ≡ true → IfOk result (λ v. Simplifies terms.old terms.new id.0 v.0) }
    ensures grows { part ≡ true → IfOk result (λ v. (chosen : ℕ → Bool) → IsClosed terms.old chosen → HasChildren chosen terms.old done.now id.0 → Grows terms.old terms.new chosen (bound_at terms.old id.0) v.0) }
    ensures keeps { Keeps terms.old terms.new }
    ensures still { IsSound terms.new }
{
    if part { next(terms, done, id) } else { Ok(id) }
}

/// A term of the same width and, for all residues of the inputs, the same number, of which no part is the left side of
/// a rule. It costs no more. Each part of the given term is rewritten once, its arguments before it; terms that are
/// there stay.
pub fn simplify(alloc: Global, terms: &mut Terms, id: TermId) -> Result<TermId, NoMemory>
    requires { id.0 < length terms.old.terms }
    ensures simplifies { IfOk result (λ v. Simplifies terms.old terms.new id.0 v.0) }
    ensures cheap { IfOk result (λ v. cost terms.new v.0 ≤ cost terms.old id.0) }
    ensures keeps { Keeps terms.old terms.new }
    ensures sound { IsSound terms.new }
{
    // For the prover: the terms keep their facts.
    let _count = terms.count();
    let parts = terms.parts(id)?;
    let marks = parts.as_slice();
    let mut done = Vec::with_capacity(alloc, id.0)?;
    for i in 0..id.0 {
        let v = next_part(terms, marks[i], &done, TermId(i))?;
        done.push(v)?;
    }
    let v = next(terms, &done, id)?;
    Ok(v)
}

//! Making one more term, by its operator and its arguments.

ghost use Rattle.std.specs.Prelude.{◌≡◌, ◌<◌, IfOk, length};
ghost use Rattle.stk_terms.specs.Fitting.{arity, IsSound, WidthsFit};
ghost use Rattle.stk_terms.specs.Growth.{Keeps};
ghost use Rattle.stk_terms.specs.Values.{width_at};
ghost use Rattle.stk_script_reader.specs.Made.{IsChoice, IsLeaf, IsOne, IsTwo};

use stk_base::NoMemory;
use stk_terms::{TermId, TermOp, Terms};

/// A term without arguments.
#[tactic(auto, using(crate::proofs::Placed::leaf_made))]
pub(crate) fn leaf(terms: &mut Terms, op: TermOp) -> Result<TermId, NoMemory>
    requires none { arity op ≡ 0 }
    requires fits { WidthsFit terms.old.inputs op 0 0 0 }
    ensures made { IfOk result (λ id. IsLeaf terms.new op id.0) }
    ensures keeps { Keeps terms.old terms.new }
    ensures sound { IsSound terms.new }
{
    let made = terms.make(op, &[])?;
    Ok(made)
}

/// An operator on one term.
#[tactic(auto, using(crate::proofs::Placed::one_made))]
pub(crate) fn single(terms: &mut Terms, op: TermOp, a: TermId) -> Result<TermId, NoMemory>
    requires one { arity op ≡ 1 }
    requires exists { a.0 < length terms.old.terms }
    requires fits { WidthsFit terms.old.inputs op (width_at terms.old a.0) 0 0 }
    ensures made { IfOk result (λ id. IsOne terms.new op a.0 id.0) }
    ensures keeps { Keeps terms.old terms.new }
    ensures sound { IsSound terms.new }
{
    let made = terms.make(op, &[a])?;
    Ok(made)
}

/// An operator on two terms.
#[tactic(auto, using(crate::proofs::Placed::two_made))]
pub(crate) fn double(
    terms: &mut Terms,
    op: TermOp,
    a: TermId,
    b: TermId,
) -> Result<TermId, NoMemory>
    requires two { arity op ≡ 2 }
    requires first { a.0 < length terms.old.terms }
    requires second { b.0 < length terms.old.terms }
    requires fits { WidthsFit terms.old.inputs op (width_at terms.old a.0) (width_at terms.old b.0) 0 }
    ensures made { IfOk result (λ id. IsTwo terms.new op a.0 b.0 id.0) }
    ensures keeps { Keeps terms.old terms.new }
    ensures sound { IsSound terms.new }
{
    let made = terms.make(op, &[a, b])?;
    Ok(made)
}

/// One of two terms, by one of width 1.
#[tactic(auto, using(crate::proofs::Placed::choice_made))]
pub(crate) fn choice(
    terms: &mut Terms,
    test: TermId,
    yes: TermId,
    no: TermId,
) -> Result<TermId, NoMemory>
    requires first { test.0 < length terms.old.terms }
    requires second { yes.0 < length terms.old.terms }
    requires third { no.0 < length terms.old.terms }
    requires one { width_at terms.old test.0 ≡ 1 }
    requires alike { width_at terms.old yes.0 ≡ width_at terms.old no.0 }
    ensures made { IfOk result (λ id. IsChoice terms.new test.0 yes.0 no.0 id.0) }
    ensures keeps { Keeps terms.old terms.new }
    ensures sound { IsSound terms.new }
{
    let made = terms.make(TermOp::Ite, &[test, yes, no])?;
    Ok(made)
}

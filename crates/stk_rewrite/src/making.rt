//! Terms of which no part is the left side of a rule, made in stores that have no left sides.
ghost use Rattle.std.specs.Prelude.{◌≡◌, ◌+◌, ◌<◌, ◌≤◌, ◌^◌, ℕ, [], List, length, get_or, IfOk};
ghost use Rattle.stk_terms.specs.Cost.{bound, total_cost};
ghost use Rattle.stk_terms.specs.Fitting.{IsSound, WidthsFit, arity};
ghost use Rattle.stk_terms.specs.Growth.{Keeps};
ghost use Rattle.stk_terms.specs.Values.{width_at, number_at};
ghost use Rattle.stk_terms.specs.declared.term.TermOp.TheVariants.{Ite};
ghost use Rattle.stk_rewrite.specs.Normal.{AreNormal};
ghost use Rattle.stk_rewrite.specs.Rights.{IsBuilt};
ghost use Rattle.stk_rewrite.specs.declared.right.Right.TheVariants.{Number, One, Two, Chosen};

use crate::building::build;
use crate::choices::choice;
use crate::choosing::{one, pair};
use crate::right::Right;
use stk_base::NoMemory;
use stk_terms::{TermId, TermOp, Terms};

/// A constant.
pub(crate) fn normal_constant(
    terms: &mut Terms,
    width: u8,
    number: u128,
) -> Result<TermId, NoMemory>
    requires normal { AreNormal terms.old }
    requires least { 1 ≤ width }
    requires most { width ≤ 128 }
    requires number { number < 2 ^ width }
    ensures built { IfOk result (λ v. IsBuilt terms.old terms.new (Number width number) v.0) }
    ensures charge { total_cost terms.new ≤ total_cost terms.old }
    ensures normal { AreNormal terms.new }
    ensures keeps { Keeps terms.old terms.new }
    ensures sound { IsSound terms.new }
{
    // For the prover: the terms keep their facts.
    let _count = terms.count();
    let v = build(terms, Right::Number(width, number))?;
    Ok(v)
}

/// An input.
pub(crate) fn normal_input(terms: &mut Terms, key: u32) -> Result<TermId, NoMemory>
    requires normal { AreNormal terms.old }
    requires key { key < length terms.old.inputs }
    ensures exists { IfOk result (λ v. v.0 < length terms.new.terms) }
    ensures wide { IfOk result (λ v. width_at terms.new v.0 ≡ get_or terms.old.inputs key 0) }
    ensures value { IfOk result (λ v. (residues : List ℕ) → number_at terms.new residues v.0 ≡ get_or residues key 0) }
    ensures charge { total_cost terms.new ≤ total_cost terms.old }
    ensures normal { AreNormal terms.new }
    ensures keeps { Keeps terms.old terms.new }
    ensures sound { IsSound terms.new }
{
    // For the prover: the terms keep their facts.
    let _count = terms.count();
    let v = terms.make(TermOp::Input(key), &[])?;
    Ok(v)
}

/// What stands for an operator over a term.
pub(crate) fn normal_one(terms: &mut Terms, op: TermOp, a: TermId) -> Result<TermId, NoMemory>
    requires normal { AreNormal terms.old }
    requires exists { a.0 < length terms.old.terms }
    requires arity { arity op ≡ 1 }
    requires fits { WidthsFit terms.old.inputs op (width_at terms.old a.0) 0 0 }
    ensures built { IfOk result (λ v. IsBuilt terms.old terms.new (One op a) v.0) }
    ensures charge { total_cost terms.new ≤ total_cost terms.old + bound op (width_at terms.old a.0) 0 }
    ensures normal { AreNormal terms.new }
    ensures keeps { Keeps terms.old terms.new }
    ensures sound { IsSound terms.new }
{
    // For the prover: the terms keep their facts.
    let _count = terms.count();
    let right = one(terms, op, a);
    let v = build(terms, right)?;
    Ok(v)
}

/// The same for an operator over two terms.
pub(crate) fn normal_two(
    terms: &mut Terms,
    op: TermOp,
    a: TermId,
    b: TermId,
) -> Result<TermId, NoMemory>
    requires normal { AreNormal terms.old }
    requires first { a.0 < length terms.old.terms }
    requires second { b.0 < length terms.old.terms }
    requires arity { arity op ≡ 2 }
    requires fits { WidthsFit terms.old.inputs op (width_at terms.old a.0) (width_at terms.old b.0) 0 }
    ensures built { IfOk result (λ v. IsBuilt terms.old terms.new (Two op a b) v.0) }
    ensures charge { total_cost terms.new ≤ total_cost terms.old + bound op (width_at terms.old a.0) (width_at terms.old b.0) }
    ensures normal { AreNormal terms.new }
    ensures keeps { Keeps terms.old terms.new }
    ensures sound { IsSound terms.new }
{
    // For the prover: the terms keep their facts.
    let _count = terms.count();
    let right = pair(terms, op, a, b);
    let v = build(terms, right)?;
    Ok(v)
}

/// The same for the choice between two terms of one width by a test of width 1.
pub(crate) fn normal_choice(
    terms: &mut Terms,
    test: TermId,
    a: TermId,
    b: TermId,
) -> Result<TermId, NoMemory>
    requires normal { AreNormal terms.old }
    requires test { test.0 < length terms.old.terms }
    requires first { a.0 < length terms.old.terms }
    requires second { b.0 < length terms.old.terms }
    requires one { width_at terms.old test.0 ≡ 1 }
    requires alike { width_at terms.old a.0 ≡ width_at terms.old b.0 }
    ensures built { IfOk result (λ v. IsBuilt terms.old terms.new (Chosen test a b) v.0) }
    ensures charge { total_cost terms.new ≤ total_cost terms.old + bound Ite 1 (width_at terms.old a.0) }
    ensures normal { AreNormal terms.new }
    ensures keeps { Keeps terms.old terms.new }
    ensures sound { IsSound terms.new }
{
    // For the prover: the terms keep their facts.
    let _count = terms.count();
    let right = choice(terms, test, a, b);
    let v = build(terms, right)?;
    Ok(v)
}

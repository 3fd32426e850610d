//! Making right sides.
ghost use Rattle.std.specs.Prelude.{◌≡◌, ◌+◌, ◌≤◌, [], IfOk};
ghost use Rattle.stk_terms.specs.Cost.{total_cost};
ghost use Rattle.stk_terms.specs.Fitting.{IsSound};
ghost use Rattle.stk_terms.specs.Growth.{Keeps};
ghost use Rattle.stk_terms.specs.Terms.{term_of, term_at};
ghost use Rattle.stk_terms.specs.declared.term.TermOp.TheVariants.{Constant};
ghost use Rattle.stk_rewrite.specs.Normal.{AreNormal};
ghost use Rattle.stk_rewrite.specs.Rights.{CanBuild, IsBuilt, right_bound};
ghost use Rattle.stk_rewrite.specs.declared.right.Right.TheVariants.{Leaf, Number, One, Two, Last, Chosen};

use crate::right::Right;
use stk_base::NoMemory;
use stk_terms::{TermId, TermOp, Terms};

// A term without arguments.
fn leaf(terms: &Terms, a: TermId) -> TermId
    requires sound { IsSound terms.now }
    requires can { CanBuild terms.now (Leaf a) }
    ensures { IsBuilt terms.now terms.now (Leaf a) result.0 }
{
    a
}

// A constant.
fn constant(terms: &mut Terms, width: u8, number: u128) -> Result<TermId, NoMemory>
    requires sound { IsSound terms.old }
    requires can { CanBuild terms.old (Number width number) }
    ensures built { IfOk result (λ v. IsBuilt terms.old terms.new (Number width number) v.0) }
    ensures stands { IfOk result (λ v. term_at terms.new v.0 ≡ term_of (Constant width number) []) }
    ensures charge { total_cost terms.new ≤ total_cost terms.old + right_bound terms.old (Number width number) }
    ensures normal { AreNormal terms.old → AreNormal terms.new }
    ensures keeps { Keeps terms.old terms.new }
    ensures still { IsSound terms.new }
{
    let v = terms.make(TermOp::Constant(width, number), &[])?;
    Ok(v)
}

// An operator over one.
fn single(terms: &mut Terms, op: TermOp, a: TermId) -> Result<TermId, NoMemory>
    requires sound { IsSound terms.old }
    requires can { CanBuild terms.old (One op a) }
    ensures built { IfOk result (λ v. IsBuilt terms.old terms.new (One op a) v.0) }
    ensures charge { total_cost terms.new ≤ total_cost terms.old + right_bound terms.old (One op a) }
    ensures normal { AreNormal terms.old → AreNormal terms.new }
    ensures keeps { Keeps terms.old terms.new }
    ensures still { IsSound terms.new }
{
    let v = terms.make(op, &[a])?;
    Ok(v)
}

// An operator over two.
fn double(terms: &mut Terms, op: TermOp, a: TermId, b: TermId) -> Result<TermId, NoMemory>
    requires sound { IsSound terms.old }
    requires can { CanBuild terms.old (Two op a b) }
    ensures built { IfOk result (λ v. IsBuilt terms.old terms.new (Two op a b) v.0) }
    ensures charge { total_cost terms.new ≤ total_cost terms.old + right_bound terms.old (Two op a b) }
    ensures normal { AreNormal terms.old → AreNormal terms.new }
    ensures keeps { Keeps terms.old terms.new }
    ensures still { IsSound terms.new }
{
    let v = terms.make(op, &[a, b])?;
    Ok(v)
}

// One of two.
fn chosen(terms: &mut Terms, t: TermId, a: TermId, b: TermId) -> Result<TermId, NoMemory>
    requires sound { IsSound terms.old }
    requires can { CanBuild terms.old (Chosen t a b) }
    ensures built { IfOk result (λ v. IsBuilt terms.old terms.new (Chosen t a b) v.0) }
    ensures charge { total_cost terms.new ≤ total_cost terms.old + right_bound terms.old (Chosen t a b) }
    ensures normal { AreNormal terms.old → AreNormal terms.new }
    ensures keeps { Keeps terms.old terms.new }
    ensures still { IsSound terms.new }
{
    let v = terms.make(TermOp::Ite, &[t, a, b])?;
    Ok(v)
}

// An operator over a term and a constant.
fn last(
    terms: &mut Terms,
    op: TermOp,
    a: TermId,
    width: u8,
    number: u128,
) -> Result<TermId, NoMemory>
    requires sound { IsSound terms.old }
    requires can { CanBuild terms.old (Last op a width number) }
    ensures built { IfOk result (λ v. IsBuilt terms.old terms.new (Last op a width number) v.0) }
    ensures charge { total_cost terms.new ≤ total_cost terms.old + right_bound terms.old (Last op a width number) }
    ensures normal { AreNormal terms.old → AreNormal terms.new }
    ensures keeps { Keeps terms.old terms.new }
    ensures still { IsSound terms.new }
{
    let k = constant(terms, width, number)?;
    let v = double(terms, op, a, k)?;
    Ok(v)
}

/// Makes a right side.
pub(crate) fn build(terms: &mut Terms, right: Right) -> Result<TermId, NoMemory>
    requires sound { IsSound terms.old }
    requires can { CanBuild terms.old right }
    ensures built { IfOk result (λ v. IsBuilt terms.old terms.new right v.0) }
    ensures charge { total_cost terms.new ≤ total_cost terms.old + right_bound terms.old right }
    ensures normal { AreNormal terms.old → AreNormal terms.new }
    ensures keeps { Keeps terms.old terms.new }
    ensures still { IsSound terms.new }
{
    match right {
        Right::Old(a) => Ok(a),
        Right::Leaf(a) => Ok(leaf(terms, a)),
        Right::Number(width, number) => constant(terms, width, number),
        Right::One(op, a) => single(terms, op, a),
        Right::Two(op, a, b) => double(terms, op, a, b),
        Right::Last(op, a, width, number) => last(terms, op, a, width, number),
        Right::Chosen(t, a, b) => chosen(terms, t, a, b),
    }
}

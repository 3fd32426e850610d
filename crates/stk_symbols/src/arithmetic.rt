// Operators on two numbers of a kind.
ghost use Rattle.std.specs.Prelude.{◌≡◌, ◌+◌, ◌*◌, ℕ, false, IfOk};
ghost use Rattle.stk_ctype.specs.declared.kind.IntKind.TheVariants as kinds;
ghost use Rattle.stk_numbers.specs.declared.operators.ArithOp.TheVariants.{Div, Rem};
ghost use Rattle.stk_numbers.specs.Kinds.{width_of, is_bool};
ghost use Rattle.stk_numbers.specs.Values.{arith as arith_of, bits_of};
ghost use Rattle.stk_values.specs.Charges.{arith_charge};
ghost use Rattle.stk_values.specs.Standing.{stands};
ghost use Rattle.stk_symbols.specs.Valued.{IsTerm, Obeys, Grown};

use crate::dividing;
use crate::making::{one, two};
use stk_base::NoMemory;
use stk_numbers::{ArithOp, IntKind, signed, width};
use stk_rewrite::NormalTerms;
use stk_terms::{TermId, TermOp};

// A quotient.
fn quotient(
    terms: &mut NormalTerms,
    kind: IntKind,
    left: TermId,
    right: TermId,
) -> Result<TermId, NoMemory>
    requires other { is_bool kind ≡ false }
    requires first { IsTerm terms.old (width_of kind) left.0 }
    requires second { IsTerm terms.old (width_of kind) right.0 }
    ensures made { IfOk result (λ v. IsTerm terms.new (width_of kind) v.0) }
    ensures value { IfOk result (λ v. (numbers : ℕ → ℕ) → Obeys terms.new numbers → numbers v.0 ≡ bits_of kind (arith_of Div kind (stands kind (numbers left.0)) (stands kind (numbers right.0)))) }
    ensures grown { Grown terms.old terms.new (arith_charge Div (width_of kind)) }
{
    let w = width(kind);
    if signed(kind) {
        let v = dividing::quotient(terms, w, left, right)?;
        Ok(v)
    } else {
        let v = two(terms, TermOp::UDiv, (w, w), left, right)?;
        Ok(v)
    }
}

// A remainder.
fn remainder(
    terms: &mut NormalTerms,
    kind: IntKind,
    left: TermId,
    right: TermId,
) -> Result<TermId, NoMemory>
    requires other { is_bool kind ≡ false }
    requires first { IsTerm terms.old (width_of kind) left.0 }
    requires second { IsTerm terms.old (width_of kind) right.0 }
    ensures made { IfOk result (λ v. IsTerm terms.new (width_of kind) v.0) }
    ensures value { IfOk result (λ v. (numbers : ℕ → ℕ) → Obeys terms.new numbers → numbers v.0 ≡ bits_of kind (arith_of Rem kind (stands kind (numbers left.0)) (stands kind (numbers right.0)))) }
    ensures grown { Grown terms.old terms.new (arith_charge Rem (width_of kind)) }
{
    let w = width(kind);
    if signed(kind) {
        let v = dividing::remainder(terms, w, left, right)?;
        Ok(v)
    } else {
        let v = two(terms, TermOp::URem, (w, w), left, right)?;
        Ok(v)
    }
}

// An operator in a kind other than `_Bool`.
fn operated(
    terms: &mut NormalTerms,
    op: ArithOp,
    kind: IntKind,
    left: TermId,
    right: TermId,
) -> Result<TermId, NoMemory>
    requires other { is_bool kind ≡ false }
    requires first { IsTerm terms.old (width_of kind) left.0 }
    requires second { IsTerm terms.old (width_of kind) right.0 }
    ensures made { IfOk result (λ v. IsTerm terms.new (width_of kind) v.0) }
    ensures value { IfOk result (λ v. (numbers : ℕ → ℕ) → Obeys terms.new numbers → numbers v.0 ≡ bits_of kind (arith_of op kind (stands kind (numbers left.0)) (stands kind (numbers right.0)))) }
    ensures grown { Grown terms.old terms.new (arith_charge op (width_of kind)) }
{
    let w = width(kind);
    match op {
        ArithOp::Add => {
            let v = two(terms, TermOp::Add, (w, w), left, right)?;
            Ok(v)
        }
        ArithOp::Sub => {
            let v = two(terms, TermOp::Sub, (w, w), left, right)?;
            Ok(v)
        }
        ArithOp::Mul => {
            let v = two(terms, TermOp::Mul, (w, w), left, right)?;
            Ok(v)
        }
        ArithOp::Div => {
            let v = quotient(terms, kind, left, right)?;
            Ok(v)
        }
        ArithOp::Rem => {
            let v = remainder(terms, kind, left, right)?;
            Ok(v)
        }
        ArithOp::And => {
            let v = two(terms, TermOp::And, (w, w), left, right)?;
            Ok(v)
        }
        ArithOp::Xor => {
            let v = two(terms, TermOp::Xor, (w, w), left, right)?;
            Ok(v)
        }
        ArithOp::Or => {
            let v = two(terms, TermOp::Or, (w, w), left, right)?;
            Ok(v)
        }
    }
}

// The remainder of two truths: the first, where the second is 0.
#[tactic(auto, using(crate::proofs::Made::kept))]
fn truth_remainder(terms: &mut NormalTerms, left: TermId, right: TermId) -> Result<TermId, NoMemory>
    requires first { IsTerm terms.old 1 left.0 }
    requires second { IsTerm terms.old 1 right.0 }
    ensures made { IfOk result (λ v. IsTerm terms.new 1 v.0) }
    ensures value { IfOk result (λ v. (numbers : ℕ → ℕ) → Obeys terms.new numbers → numbers v.0 ≡ bits_of kinds.Bool (arith_of Rem kinds.Bool (stands kinds.Bool (numbers left.0)) (stands kinds.Bool (numbers right.0)))) }
    ensures grown { Grown terms.old terms.new 3 }
{
    let other = one(terms, TermOp::Not, 1, right)?;
    let v = two(terms, TermOp::And, (1, 1), left, other)?;
    Ok(v)
}

// An operator in `_Bool`: a sum is an or, a difference an exclusive or, a product an and.
fn of_truths(
    terms: &mut NormalTerms,
    op: ArithOp,
    left: TermId,
    right: TermId,
) -> Result<TermId, NoMemory>
    requires first { IsTerm terms.old 1 left.0 }
    requires second { IsTerm terms.old 1 right.0 }
    ensures made { IfOk result (λ v. IsTerm terms.new 1 v.0) }
    ensures value { IfOk result (λ v. (numbers : ℕ → ℕ) → Obeys terms.new numbers → numbers v.0 ≡ bits_of kinds.Bool (arith_of op kinds.Bool (stands kinds.Bool (numbers left.0)) (stands kinds.Bool (numbers right.0)))) }
    ensures grown { Grown terms.old terms.new (arith_charge op 1) }
{
    match op {
        ArithOp::Add => {
            let v = two(terms, TermOp::Or, (1, 1), left, right)?;
            Ok(v)
        }
        ArithOp::Sub => {
            let v = two(terms, TermOp::Xor, (1, 1), left, right)?;
            Ok(v)
        }
        ArithOp::Mul => {
            let v = two(terms, TermOp::And, (1, 1), left, right)?;
            Ok(v)
        }
        ArithOp::Div => {
            let v = two(terms, TermOp::And, (1, 1), left, right)?;
            Ok(v)
        }
        ArithOp::Rem => {
            let v = truth_remainder(terms, left, right)?;
            Ok(v)
        }
        ArithOp::And => {
            let v = two(terms, TermOp::And, (1, 1), left, right)?;
            Ok(v)
        }
        ArithOp::Xor => {
            let v = two(terms, TermOp::Xor, (1, 1), left, right)?;
            Ok(v)
        }
        ArithOp::Or => {
            let v = two(terms, TermOp::Or, (1, 1), left, right)?;
            Ok(v)
        }
    }
}

/// An operator in a kind.
pub(crate) fn arith(
    terms: &mut NormalTerms,
    op: ArithOp,
    kind: IntKind,
    left: TermId,
    right: TermId,
) -> Result<TermId, NoMemory>
    requires first { IsTerm terms.old (width_of kind) left.0 }
    requires second { IsTerm terms.old (width_of kind) right.0 }
    ensures made { IfOk result (λ v. IsTerm terms.new (width_of kind) v.0) }
    ensures value { IfOk result (λ v. (numbers : ℕ → ℕ) → Obeys terms.new numbers → numbers v.0 ≡ bits_of kind (arith_of op kind (stands kind (numbers left.0)) (stands kind (numbers right.0)))) }
    ensures grown { Grown terms.old terms.new (arith_charge op (width_of kind)) }
{
    match kind {
        IntKind::Bool => {
            let v = of_truths(terms, op, left, right)?;
            Ok(v)
        }
        _ => {
            let v = operated(terms, op, kind, left, right)?;
            Ok(v)
        }
    }
}

// Comparisons, and choices by them.
ghost use Rattle.std.specs.Prelude.{◌≡◌, ◌*◌, ◌<◌, ℕ, Bool, int_lt, if◌then◌else◌, length, IfOk, MatchOption};
ghost use Rattle.std.specs.Ordering.{int_eq};
ghost use Rattle.stk_numbers.specs.Kinds.{width_of};
ghost use Rattle.stk_numbers.specs.Values.{compared};
ghost use Rattle.std.specs.Bool.{OnTrue};
ghost use Rattle.stk_terms.specs.Fitting.{IsSound};
ghost use Rattle.stk_terms.specs.Values.{bit};
ghost use Rattle.stk_values.specs.Standing.{stands};
ghost use Rattle.stk_symbols.specs.Valued.{IsTerm, IsBitOf, IsZero, Obeys, Grown};

use crate::making::{chosen, two};
use crate::tests::{bit_of, fails, number, test};
use stk_base::NoMemory;
use stk_numbers::{CompareOp, IntKind, signed, width};
use stk_rewrite::NormalTerms;
use stk_terms::{TermId, TermOp, Terms};

/// Whether the first is below the second, as a bit.
pub(crate) fn less(
    terms: &mut NormalTerms,
    kind: IntKind,
    left: TermId,
    right: TermId,
) -> Result<TermId, NoMemory>
    requires first { IsTerm terms.old (width_of kind) left.0 }
    requires second { IsTerm terms.old (width_of kind) right.0 }
    ensures made { IfOk result (λ v. IsTerm terms.new 1 v.0) }
    ensures value { IfOk result (λ v. (numbers : ℕ → ℕ) → Obeys terms.new numbers → numbers v.0 ≡ bit (int_lt (stands kind (numbers left.0)) (stands kind (numbers right.0)))) }
    ensures grown { Grown terms.old terms.new (10 * width_of kind) }
{
    let w = width(kind);
    if signed(kind) {
        let v = two(terms, TermOp::SLt, (w, w), left, right)?;
        Ok(v)
    } else {
        let v = two(terms, TermOp::ULt, (w, w), left, right)?;
        Ok(v)
    }
}

// Whether a term is the constant 0.
fn is_zero(terms: &Terms, id: TermId) -> bool
    requires sound { IsSound terms.now }
    requires exists { id.0 < length terms.now.terms }
    ensures { OnTrue result (IsZero terms.now id.0) }
{
    match terms.op(id) {
        TermOp::Constant(_, number) => number == 0,
        _ => false,
    }
}

// The bit that is compared with 0, where the left one is a bit with zeros in front, and the right one is 0.
fn bit_against_zero(terms: &Terms, left: TermId, right: TermId) -> Option<TermId>
    requires sound { IsSound terms.now }
    requires first { left.0 < length terms.now.terms }
    requires second { right.0 < length terms.now.terms }
    ensures { MatchOption result Unit (λ t. IsBitOf terms.now left.0 t.0 × IsZero terms.now right.0) }
{
    if !is_zero(terms, right) {
        return None;
    }
    let bit = bit_of(terms, left)?;
    Some(bit)
}

// Whether both are equal, as a bit, by a term of their width.
fn equal_terms(
    terms: &mut NormalTerms,
    kind: IntKind,
    left: TermId,
    right: TermId,
) -> Result<TermId, NoMemory>
    requires first { IsTerm terms.old (width_of kind) left.0 }
    requires second { IsTerm terms.old (width_of kind) right.0 }
    ensures made { IfOk result (λ v. IsTerm terms.new 1 v.0) }
    ensures value { IfOk result (λ v. (numbers : ℕ → ℕ) → Obeys terms.new numbers → numbers v.0 ≡ bit (int_eq (stands kind (numbers left.0)) (stands kind (numbers right.0)))) }
    ensures grown { Grown terms.old terms.new (4 * width_of kind) }
{
    let w = width(kind);
    let v = two(terms, TermOp::Eq, (w, w), left, right)?;
    Ok(v)
}

/// Whether both are equal, as a bit. A bit that has zeros in front is compared with 0 as a bit.
#[tactic(auto, using(crate::proofs::Made::kept))]
pub(crate) fn equal(
    terms: &mut NormalTerms,
    kind: IntKind,
    left: TermId,
    right: TermId,
) -> Result<TermId, NoMemory>
    requires first { IsTerm terms.old (width_of kind) left.0 }
    requires second { IsTerm terms.old (width_of kind) right.0 }
    ensures made { IfOk result (λ v. IsTerm terms.new 1 v.0) }
    ensures value { IfOk result (λ v. (numbers : ℕ → ℕ) → Obeys terms.new numbers → numbers v.0 ≡ bit (int_eq (stands kind (numbers left.0)) (stands kind (numbers right.0)))) }
    ensures grown { Grown terms.old terms.new (4 * width_of kind) }
{
    match bit_against_zero(terms.terms(), left, right) {
        Some(bit) => {
            let v = fails(terms, bit)?;
            Ok(v)
        }
        None => {
            let v = equal_terms(terms, kind, left, right)?;
            Ok(v)
        }
    }
}

// A comparison as a bit.
#[tactic(auto, using(crate::proofs::Made::kept))]
fn holds(
    terms: &mut NormalTerms,
    op: CompareOp,
    kind: IntKind,
    left: TermId,
    right: TermId,
) -> Result<TermId, NoMemory>
    requires first { IsTerm terms.old (width_of kind) left.0 }
    requires second { IsTerm terms.old (width_of kind) right.0 }
    ensures made { IfOk result (λ v. IsTerm terms.new 1 v.0) }
    ensures value { IfOk result (λ v. (numbers : ℕ → ℕ) → Obeys terms.new numbers → numbers v.0 ≡ bit (compared op (stands kind (numbers left.0)) (stands kind (numbers right.0)))) }
    ensures grown { Grown terms.old terms.new (10 * width_of kind) }
{
    match op {
        CompareOp::Lt => {
            let v = less(terms, kind, left, right)?;
            Ok(v)
        }
        CompareOp::Gt => {
            let v = less(terms, kind, right, left)?;
            Ok(v)
        }
        CompareOp::Le => {
            let t = less(terms, kind, right, left)?;
            let v = fails(terms, t)?;
            Ok(v)
        }
        CompareOp::Ge => {
            let t = less(terms, kind, left, right)?;
            let v = fails(terms, t)?;
            Ok(v)
        }
        CompareOp::Eq => {
            let v = equal(terms, kind, left, right)?;
            Ok(v)
        }
        CompareOp::Ne => {
            let t = equal(terms, kind, left, right)?;
            let v = fails(terms, t)?;
            Ok(v)
        }
    }
}

/// A comparison as an Int.
#[tactic(auto, using(crate::proofs::Made::kept))]
pub(crate) fn compare(
    terms: &mut NormalTerms,
    op: CompareOp,
    kind: IntKind,
    left: TermId,
    right: TermId,
) -> Result<TermId, NoMemory>
    requires first { IsTerm terms.old (width_of kind) left.0 }
    requires second { IsTerm terms.old (width_of kind) right.0 }
    ensures made { IfOk result (λ v. IsTerm terms.new 32 v.0) }
    ensures value { IfOk result (λ v. (numbers : ℕ → ℕ) → Obeys terms.new numbers → numbers v.0 ≡ bit (compared op (stands kind (numbers left.0)) (stands kind (numbers right.0)))) }
    ensures grown { Grown terms.old terms.new (10 * width_of kind) }
{
    let t = holds(terms, op, kind, left, right)?;
    let v = number(terms, t)?;
    Ok(v)
}

/// One of two numbers of a kind, by an Int that is 0 or 1.
#[tactic(auto, using(crate::proofs::Made::kept))]
pub(crate) fn choose(
    terms: &mut NormalTerms,
    value: TermId,
    kind: IntKind,
    yes: TermId,
    no: TermId,
) -> Result<TermId, NoMemory>
    requires value { IsTerm terms.old 32 value.0 }
    requires first { IsTerm terms.old (width_of kind) yes.0 }
    requires second { IsTerm terms.old (width_of kind) no.0 }
    ensures made { IfOk result (λ v. IsTerm terms.new (width_of kind) v.0) }
    ensures value { IfOk result (λ v. (numbers : ℕ → ℕ) (b : Bool) → Obeys terms.new numbers → numbers value.0 ≡ bit b → numbers v.0 ≡ (if b then numbers yes.0 else numbers no.0)) }
    ensures grown { Grown terms.old terms.new (3 * width_of kind) }
{
    let w = width(kind);
    let t = test(terms, value)?;
    let v = chosen(terms, w, t, yes, no)?;
    Ok(v)
}

// Conditions of operators.
ghost use Rattle.std.specs.Prelude.{◌≡◌, ◌+◌, ◌-◌, ◌*◌, ◌<◌, ◌≤◌, ◌^◌, ℕ, true, not, ◌&&◌, ◌+ℤ◌, ◌-ℤ◌, ◌*ℤ◌, pos, nat_eq, IfOk};
ghost use Rattle.std.specs.Ordering.{int_eq};
ghost use Rattle.stk_numbers.specs.Kinds.{width_of, is_signed, residue, decoded};
ghost use Rattle.stk_numbers.specs.Conditions.{overflows, divides, violates};
ghost use Rattle.stk_terms.specs.Values.{bit};
ghost use Rattle.stk_values.specs.Charges.{breaks_charge};
ghost use Rattle.stk_values.specs.Standing.{stands};
ghost use Rattle.stk_symbols.specs.Valued.{IsTerm, Obeys, Grown};

use crate::converting::is_zero;
use crate::dividing::negative;
use crate::making::{constant, two};
use crate::sizing::{narrowed, widened};
use crate::tests::{all, differing, fails, never, number};
use stk_base::NoMemory;
use stk_numbers::{ArithOp, IntKind, UbKind, signed, width};
use stk_rewrite::NormalTerms;
use stk_terms::{TermId, TermOp};

// Whether a signed sum leaves the range of w bits: it has another sign than both operands.
#[tactic(auto, using(crate::proofs::Made::kept))]
fn sum_leaves(
    terms: &mut NormalTerms,
    width: u8,
    left: TermId,
    right: TermId,
) -> Result<TermId, NoMemory>
    requires first { IsTerm terms.old width left.0 }
    requires second { IsTerm terms.old width right.0 }
    requires some { 1 ≤ width }
    ensures made { IfOk result (λ v. IsTerm terms.new 1 v.0) }
    ensures value { IfOk result (λ v. (numbers : ℕ → ℕ) → Obeys terms.new numbers → numbers v.0 ≡ bit (not (int_eq (decoded true width (numbers left.0) +ℤ decoded true width (numbers right.0)) (decoded true width (residue width (decoded true width (numbers left.0) +ℤ decoded true width (numbers right.0))))))) }
    ensures grown { Grown terms.old terms.new (10 * width + 9) }
{
    let s = two(terms, TermOp::Add, (width, width), left, right)?;
    let a = negative(terms, width, left)?;
    let b = negative(terms, width, right)?;
    let r = negative(terms, width, s)?;
    let x = differing(terms, a, r)?;
    let y = differing(terms, b, r)?;
    let v = all(terms, x, y)?;
    Ok(v)
}

// Whether a signed difference leaves the range of w bits: the operands differ in sign, and it has another sign than the
// first.
#[tactic(auto, using(crate::proofs::Made::kept))]
fn difference_leaves(
    terms: &mut NormalTerms,
    width: u8,
    left: TermId,
    right: TermId,
) -> Result<TermId, NoMemory>
    requires first { IsTerm terms.old width left.0 }
    requires second { IsTerm terms.old width right.0 }
    requires some { 1 ≤ width }
    ensures made { IfOk result (λ v. IsTerm terms.new 1 v.0) }
    ensures value { IfOk result (λ v. (numbers : ℕ → ℕ) → Obeys terms.new numbers → numbers v.0 ≡ bit (not (int_eq (decoded true width (numbers left.0) -ℤ decoded true width (numbers right.0)) (decoded true width (residue width (decoded true width (numbers left.0) -ℤ decoded true width (numbers right.0))))))) }
    ensures grown { Grown terms.old terms.new (10 * width + 9) }
{
    let s = two(terms, TermOp::Sub, (width, width), left, right)?;
    let a = negative(terms, width, left)?;
    let b = negative(terms, width, right)?;
    let r = negative(terms, width, s)?;
    let x = differing(terms, a, b)?;
    let y = differing(terms, a, r)?;
    let v = all(terms, x, y)?;
    Ok(v)
}

// Whether a signed product leaves the range of w bits: it isn't what its low bits stand for in twice the width.
#[tactic(auto, using(crate::proofs::Made::kept))]
fn product_leaves(
    terms: &mut NormalTerms,
    width: u8,
    left: TermId,
    right: TermId,
) -> Result<TermId, NoMemory>
    requires first { IsTerm terms.old width left.0 }
    requires second { IsTerm terms.old width right.0 }
    requires some { 1 ≤ width }
    requires most { width ≤ 64 }
    ensures made { IfOk result (λ v. IsTerm terms.new 1 v.0) }
    ensures value { IfOk result (λ v. (numbers : ℕ → ℕ) → Obeys terms.new numbers → numbers v.0 ≡ bit (not (int_eq (decoded true width (numbers left.0) *ℤ decoded true width (numbers right.0)) (decoded true width (residue width (decoded true width (numbers left.0) *ℤ decoded true width (numbers right.0))))))) }
    ensures grown { Grown terms.old terms.new (24 * width * width + 20 * width) }
{
    let twice = 2 * width;
    let a = widened(terms, true, width, twice, left)?;
    let b = widened(terms, true, width, twice, right)?;
    let p = two(terms, TermOp::Mul, (twice, twice), a, b)?;
    let low = narrowed(terms, twice, width, p)?;
    let back = widened(terms, true, width, twice, low)?;
    let t = two(terms, TermOp::Eq, (twice, twice), p, back)?;
    let v = fails(terms, t)?;
    Ok(v)
}

// The top bit of a width.
fn top(width: u8) -> u128
    requires some { 1 ≤ width }
    requires most { width ≤ 64 }
    ensures is { result ≡ 2 ^ (width - 1) }
    ensures below { result < 2 ^ width }
{
    1 << (width - 1)
}

// All bits of a width.
fn ones(width: u8) -> u128
    requires { width ≤ 64 }
    ensures is { result ≡ 2 ^ width - 1 }
    ensures below { result < 2 ^ width }
{
    (1 << width) - 1
}

// Whether a number is the least of w signed bits, and another is -1.
#[tactic(auto, using(crate::proofs::Made::kept))]
fn quotient_leaves(
    terms: &mut NormalTerms,
    width: u8,
    left: TermId,
    right: TermId,
) -> Result<TermId, NoMemory>
    requires first { IsTerm terms.old width left.0 }
    requires second { IsTerm terms.old width right.0 }
    requires some { 1 ≤ width }
    requires most { width ≤ 64 }
    ensures made { IfOk result (λ v. IsTerm terms.new 1 v.0) }
    ensures value { IfOk result (λ v. (numbers : ℕ → ℕ) → Obeys terms.new numbers → numbers v.0 ≡ bit (nat_eq (numbers left.0) (2 ^ (width - 1)) && nat_eq (numbers right.0) (2 ^ width - 1))) }
    ensures grown { Grown terms.old terms.new (8 * width + 3) }
{
    let least = constant(terms, width, top(width))?;
    let minus = constant(terms, width, ones(width))?;
    let a = two(terms, TermOp::Eq, (width, width), left, least)?;
    let b = two(terms, TermOp::Eq, (width, width), right, minus)?;
    let v = all(terms, a, b)?;
    Ok(v)
}

// Whether an operator in a signed kind overflows, as a bit.
fn leaves(
    terms: &mut NormalTerms,
    op: ArithOp,
    kind: IntKind,
    left: TermId,
    right: TermId,
) -> Result<TermId, NoMemory>
    requires signed { is_signed kind ≡ true }
    requires first { IsTerm terms.old (width_of kind) left.0 }
    requires second { IsTerm terms.old (width_of kind) right.0 }
    ensures made { IfOk result (λ v. IsTerm terms.new 1 v.0) }
    ensures value { IfOk result (λ v. (numbers : ℕ → ℕ) → Obeys terms.new numbers → numbers v.0 ≡ bit (overflows op kind (stands kind (numbers left.0)) (stands kind (numbers right.0)))) }
    ensures grown { Grown terms.old terms.new (breaks_charge op (width_of kind)) }
{
    let w = width(kind);
    match op {
        ArithOp::Add => {
            let v = sum_leaves(terms, w, left, right)?;
            Ok(v)
        }
        ArithOp::Sub => {
            let v = difference_leaves(terms, w, left, right)?;
            Ok(v)
        }
        ArithOp::Mul => {
            let v = product_leaves(terms, w, left, right)?;
            Ok(v)
        }
        ArithOp::Div => {
            let v = quotient_leaves(terms, w, left, right)?;
            Ok(v)
        }
        ArithOp::Rem => {
            let v = quotient_leaves(terms, w, left, right)?;
            Ok(v)
        }
        _ => {
            let v = constant(terms, 1, 0)?;
            Ok(v)
        }
    }
}

// Whether an operator in a kind overflows, as an Int.
#[tactic(auto, using(crate::proofs::Made::kept))]
fn overflow(
    terms: &mut NormalTerms,
    op: ArithOp,
    kind: IntKind,
    left: TermId,
    right: TermId,
) -> Result<TermId, NoMemory>
    requires first { IsTerm terms.old (width_of kind) left.0 }
    requires second { IsTerm terms.old (width_of kind) right.0 }
    ensures made { IfOk result (λ v. IsTerm terms.new 32 v.0) }
    ensures value { IfOk result (λ v. (numbers : ℕ → ℕ) → Obeys terms.new numbers → numbers v.0 ≡ bit (is_signed kind && overflows op kind (stands kind (numbers left.0)) (stands kind (numbers right.0)))) }
    ensures grown { Grown terms.old terms.new (breaks_charge op (width_of kind)) }
{
    if signed(kind) {
        let t = leaves(terms, op, kind, left, right)?;
        let v = number(terms, t)?;
        Ok(v)
    } else {
        let v = never(terms)?;
        Ok(v)
    }
}

// Whether an operator divides.
fn divides(op: ArithOp) -> bool
    ensures { result ≡ divides op }
{
    matches!(op, ArithOp::Div | ArithOp::Rem)
}

// Whether an operator divides by 0, as an Int.
#[tactic(auto, using(crate::proofs::Made::kept))]
fn zero_divisor(
    terms: &mut NormalTerms,
    op: ArithOp,
    kind: IntKind,
    right: TermId,
) -> Result<TermId, NoMemory>
    requires { IsTerm terms.old (width_of kind) right.0 }
    ensures made { IfOk result (λ v. IsTerm terms.new 32 v.0) }
    ensures value { IfOk result (λ v. (numbers : ℕ → ℕ) → Obeys terms.new numbers → numbers v.0 ≡ bit (divides op && int_eq (stands kind (numbers right.0)) (pos 0))) }
    ensures grown { Grown terms.old terms.new (4 * width_of kind) }
{
    if divides(op) {
        let t = is_zero(terms, kind, right)?;
        let v = number(terms, t)?;
        Ok(v)
    } else {
        let v = never(terms)?;
        Ok(v)
    }
}

/// Whether an operator in a kind violates a condition, as an Int.
pub(crate) fn breaks(
    terms: &mut NormalTerms,
    what: UbKind,
    op: ArithOp,
    kind: IntKind,
    left: TermId,
    right: TermId,
) -> Result<TermId, NoMemory>
    requires first { IsTerm terms.old (width_of kind) left.0 }
    requires second { IsTerm terms.old (width_of kind) right.0 }
    ensures made { IfOk result (λ v. IsTerm terms.new 32 v.0) }
    ensures value { IfOk result (λ v. (numbers : ℕ → ℕ) → Obeys terms.new numbers → numbers v.0 ≡ bit (violates what op kind (stands kind (numbers left.0)) (stands kind (numbers right.0)))) }
    ensures grown { Grown terms.old terms.new (breaks_charge op (width_of kind)) }
{
    match what {
        UbKind::Overflow => {
            let v = overflow(terms, op, kind, left, right)?;
            Ok(v)
        }
        UbKind::Zero => {
            let v = zero_divisor(terms, op, kind, right)?;
            Ok(v)
        }
        _ => {
            let v = never(terms)?;
            Ok(v)
        }
    }
}

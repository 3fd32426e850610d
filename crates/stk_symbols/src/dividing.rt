// Quotients and remainders.
ghost use Rattle.std.specs.Prelude.{◌≡◌, ◌+◌, ◌*◌, ◌/◌, ◌%◌, ◌≤◌, ℕ, Bool, not, nat_eq, if◌then◌else◌, IfOk};
ghost use Rattle.stk_terms.specs.Values.{bit};
ghost use Rattle.stk_symbols.specs.Standing.{is_plus, turned_bits, magnitude, same};
ghost use Rattle.stk_symbols.specs.Valued.{IsTerm, Obeys, Grown};

use crate::making::{chosen, one, two};
use crate::tests::differing;
use stk_base::NoMemory;
use stk_rewrite::NormalTerms;
use stk_terms::{TermId, TermOp};

/// Whether a signed number is negative: its top bit.
pub(crate) fn negative(
    terms: &mut NormalTerms,
    width: u8,
    value: TermId,
) -> Result<TermId, NoMemory>
    requires term { IsTerm terms.old width value.0 }
    requires some { 1 ≤ width }
    ensures made { IfOk result (λ v. IsTerm terms.new 1 v.0) }
    ensures value { IfOk result (λ v. (numbers : ℕ → ℕ) → Obeys terms.new numbers → numbers v.0 ≡ bit (not (is_plus width (numbers value.0)))) }
    ensures grown { Grown terms.old terms.new 0 }
{
    let v = one(terms, TermOp::Extract(width - 1, 1), width, value)?;
    Ok(v)
}

/// A number, with its sign turned where the test is 1.
#[tactic(auto, using(crate::proofs::Made::kept))]
pub(crate) fn turned(
    terms: &mut NormalTerms,
    width: u8,
    test: TermId,
    value: TermId,
) -> Result<TermId, NoMemory>
    requires test { IsTerm terms.old 1 test.0 }
    requires term { IsTerm terms.old width value.0 }
    ensures made { IfOk result (λ v. IsTerm terms.new width v.0) }
    ensures value { IfOk result (λ v. (numbers : ℕ → ℕ) (b : Bool) → Obeys terms.new numbers → numbers test.0 ≡ bit b → numbers v.0 ≡ turned_bits width (not b) (numbers value.0)) }
    ensures grown { Grown terms.old terms.new (13 * width) }
{
    let other = one(terms, TermOp::Neg, width, value)?;
    let v = chosen(terms, width, test, other, value)?;
    Ok(v)
}

/// The magnitude of a signed number, whose sign is the test.
#[tactic(auto, using(crate::proofs::Made::kept))]
pub(crate) fn magnitude(
    terms: &mut NormalTerms,
    width: u8,
    sign: TermId,
    value: TermId,
) -> Result<TermId, NoMemory>
    requires sign { IsTerm terms.old 1 sign.0 }
    requires term { IsTerm terms.old width value.0 }
    ensures made { IfOk result (λ v. IsTerm terms.new width v.0) }
    ensures value { IfOk result (λ v. (numbers : ℕ → ℕ) → Obeys terms.new numbers → numbers sign.0 ≡ bit (not (is_plus width (numbers value.0))) → numbers v.0 ≡ magnitude width (numbers value.0)) }
    ensures grown { Grown terms.old terms.new (13 * width) }
{
    let v = turned(terms, width, sign, value)?;
    Ok(v)
}

/// The quotient of two signed numbers, truncated towards zero; 0 by 0.
#[tactic(auto, using(crate::proofs::Made::kept))]
pub(crate) fn quotient(
    terms: &mut NormalTerms,
    width: u8,
    left: TermId,
    right: TermId,
) -> Result<TermId, NoMemory>
    requires first { IsTerm terms.old width left.0 }
    requires second { IsTerm terms.old width right.0 }
    requires some { 1 ≤ width }
    ensures made { IfOk result (λ v. IsTerm terms.new width v.0) }
    ensures value { IfOk result (λ v. (numbers : ℕ → ℕ) → Obeys terms.new numbers → numbers v.0 ≡ turned_bits width (same (is_plus width (numbers left.0)) (is_plus width (numbers right.0))) (if nat_eq (magnitude width (numbers right.0)) 0 then 0 else magnitude width (numbers left.0) / magnitude width (numbers right.0))) }
    ensures grown { Grown terms.old terms.new (14 * width * width + 59 * width + 3) }
{
    let a = negative(terms, width, left)?;
    let b = negative(terms, width, right)?;
    let x = magnitude(terms, width, a, left)?;
    let y = magnitude(terms, width, b, right)?;
    let q = two(terms, TermOp::UDiv, (width, width), x, y)?;
    let s = differing(terms, a, b)?;
    let v = turned(terms, width, s, q)?;
    Ok(v)
}

/// The remainder of two signed numbers, with the sign of the first; the first by 0.
#[tactic(auto, using(crate::proofs::Made::kept))]
pub(crate) fn remainder(
    terms: &mut NormalTerms,
    width: u8,
    left: TermId,
    right: TermId,
) -> Result<TermId, NoMemory>
    requires first { IsTerm terms.old width left.0 }
    requires second { IsTerm terms.old width right.0 }
    requires some { 1 ≤ width }
    ensures made { IfOk result (λ v. IsTerm terms.new width v.0) }
    ensures value { IfOk result (λ v. (numbers : ℕ → ℕ) → Obeys terms.new numbers → numbers v.0 ≡ turned_bits width (is_plus width (numbers left.0)) (if nat_eq (magnitude width (numbers right.0)) 0 then magnitude width (numbers left.0) else magnitude width (numbers left.0) % magnitude width (numbers right.0))) }
    ensures grown { Grown terms.old terms.new (14 * width * width + 59 * width) }
{
    let a = negative(terms, width, left)?;
    let b = negative(terms, width, right)?;
    let x = magnitude(terms, width, a, left)?;
    let y = magnitude(terms, width, b, right)?;
    let q = two(terms, TermOp::URem, (width, width), x, y)?;
    let v = turned(terms, width, a, q)?;
    Ok(v)
}

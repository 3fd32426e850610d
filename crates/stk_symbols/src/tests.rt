// Tests: terms of width 1, and the numbers 0 and 1 of kind `Int`.
ghost use Rattle.std.specs.Prelude.{◌≡◌, ℕ, Bool, true, not, ◌&&◌, ◌||◌, ◌<◌, length, IfOk, MatchOption};
ghost use Rattle.stk_terms.specs.Fitting.{IsSound};
ghost use Rattle.stk_terms.specs.Values.{bit};
ghost use Rattle.stk_terms.specs.Cost.{IsClosed, Grows};
ghost use Rattle.stk_symbols.specs.Valued.{IsTerm, IsBitOf, Obeys, Grown, differ};

use crate::making::{constant, one, two};
use stk_base::NoMemory;
use stk_rewrite::NormalTerms;
use stk_terms::{TermId, TermOp, Terms};

/// The bit in front of which an Int has zeros, where its term is made so.
pub(crate) fn bit_of(terms: &Terms, value: TermId) -> Option<TermId>
    requires sound { IsSound terms.now }
    requires exists { value.0 < length terms.now.terms }
    ensures { MatchOption result Unit (λ t. IsBitOf terms.now value.0 t.0) }
{
    match terms.op(value) {
        TermOp::ZeroExt(_) => {
            let args = terms.args(value);
            let bit = args[0];
            if terms.width(bit) == 1 {
                Some(bit)
            } else {
                None
            }
        }
        _ => None,
    }
}

// The lowest bit of an Int that is 0 or 1.
fn lowest(terms: &mut NormalTerms, value: TermId) -> Result<TermId, NoMemory>
    requires { IsTerm terms.old 32 value.0 }
    ensures made { IfOk result (λ v. IsTerm terms.new 1 v.0) }
    ensures value { IfOk result (λ v. (numbers : ℕ → ℕ) (b : Bool) → Obeys terms.new numbers → numbers value.0 ≡ bit b → numbers v.0 ≡ bit b) }
    ensures grows { IfOk result (λ v. (chosen : ℕ → Bool) → IsClosed terms.old chosen → chosen value.0 ≡ true → Grows terms.old terms.new chosen 0 v.0) }
    ensures grown { Grown terms.old terms.new 0 }
{
    let v = one(terms, TermOp::Extract(0, 1), 32, value)?;
    Ok(v)
}

/// The bit of an Int that is 0 or 1. Where the Int was made of a bit, it is that bit.
#[tactic(auto, using(crate::proofs::Made::kept))]
pub(crate) fn test(terms: &mut NormalTerms, value: TermId) -> Result<TermId, NoMemory>
    requires { IsTerm terms.old 32 value.0 }
    ensures made { IfOk result (λ v. IsTerm terms.new 1 v.0) }
    ensures value { IfOk result (λ v. (numbers : ℕ → ℕ) (b : Bool) → Obeys terms.new numbers → numbers value.0 ≡ bit b → numbers v.0 ≡ bit b) }
    ensures grows { IfOk result (λ v. (chosen : ℕ → Bool) → IsClosed terms.old chosen → chosen value.0 ≡ true → Grows terms.old terms.new chosen 0 v.0) }
    ensures grown { Grown terms.old terms.new 0 }
{
    match bit_of(terms.terms(), value) {
        Some(bit) => Ok(bit),
        None => {
            let v = lowest(terms, value)?;
            Ok(v)
        }
    }
}

/// A bit as an Int.
pub(crate) fn number(terms: &mut NormalTerms, test: TermId) -> Result<TermId, NoMemory>
    requires { IsTerm terms.old 1 test.0 }
    ensures made { IfOk result (λ v. IsTerm terms.new 32 v.0) }
    ensures value { IfOk result (λ v. (numbers : ℕ → ℕ) → Obeys terms.new numbers → numbers v.0 ≡ numbers test.0) }
    ensures grown { Grown terms.old terms.new 0 }
{
    let v = one(terms, TermOp::ZeroExt(32), 1, test)?;
    Ok(v)
}

/// Whether both bits are set.
pub(crate) fn all(terms: &mut NormalTerms, a: TermId, b: TermId) -> Result<TermId, NoMemory>
    requires first { IsTerm terms.old 1 a.0 }
    requires second { IsTerm terms.old 1 b.0 }
    ensures made { IfOk result (λ v. IsTerm terms.new 1 v.0) }
    ensures value { IfOk result (λ v. (numbers : ℕ → ℕ) (x y : Bool) → Obeys terms.new numbers → numbers a.0 ≡ bit x → numbers b.0 ≡ bit y → numbers v.0 ≡ bit (x && y)) }
    ensures grows { IfOk result (λ v. (chosen : ℕ → Bool) → IsClosed terms.old chosen → chosen a.0 ≡ true → chosen b.0 ≡ true → Grows terms.old terms.new chosen 3 v.0) }
    ensures grown { Grown terms.old terms.new 3 }
{
    let v = two(terms, TermOp::And, (1, 1), a, b)?;
    Ok(v)
}

/// Whether a bit is set.
pub(crate) fn any(terms: &mut NormalTerms, a: TermId, b: TermId) -> Result<TermId, NoMemory>
    requires first { IsTerm terms.old 1 a.0 }
    requires second { IsTerm terms.old 1 b.0 }
    ensures made { IfOk result (λ v. IsTerm terms.new 1 v.0) }
    ensures value { IfOk result (λ v. (numbers : ℕ → ℕ) (x y : Bool) → Obeys terms.new numbers → numbers a.0 ≡ bit x → numbers b.0 ≡ bit y → numbers v.0 ≡ bit (x || y)) }
    ensures grows { IfOk result (λ v. (chosen : ℕ → Bool) → IsClosed terms.old chosen → chosen a.0 ≡ true → chosen b.0 ≡ true → Grows terms.old terms.new chosen 3 v.0) }
    ensures grown { Grown terms.old terms.new 3 }
{
    let v = two(terms, TermOp::Or, (1, 1), a, b)?;
    Ok(v)
}

/// Whether the bits differ.
pub(crate) fn differing(terms: &mut NormalTerms, a: TermId, b: TermId) -> Result<TermId, NoMemory>
    requires first { IsTerm terms.old 1 a.0 }
    requires second { IsTerm terms.old 1 b.0 }
    ensures made { IfOk result (λ v. IsTerm terms.new 1 v.0) }
    ensures value { IfOk result (λ v. (numbers : ℕ → ℕ) (x y : Bool) → Obeys terms.new numbers → numbers a.0 ≡ bit x → numbers b.0 ≡ bit y → numbers v.0 ≡ bit (differ x y)) }
    ensures grown { Grown terms.old terms.new 3 }
{
    let v = two(terms, TermOp::Xor, (1, 1), a, b)?;
    Ok(v)
}

/// Whether the bit isn't set.
pub(crate) fn fails(terms: &mut NormalTerms, a: TermId) -> Result<TermId, NoMemory>
    requires { IsTerm terms.old 1 a.0 }
    ensures made { IfOk result (λ v. IsTerm terms.new 1 v.0) }
    ensures value { IfOk result (λ v. (numbers : ℕ → ℕ) (x : Bool) → Obeys terms.new numbers → numbers a.0 ≡ bit x → numbers v.0 ≡ bit (not x)) }
    ensures grows { IfOk result (λ v. (chosen : ℕ → Bool) → IsClosed terms.old chosen → chosen a.0 ≡ true → Grows terms.old terms.new chosen 0 v.0) }
    ensures grown { Grown terms.old terms.new 0 }
{
    let v = one(terms, TermOp::Not, 1, a)?;
    Ok(v)
}

/// Whether two Ints that are 0 or 1 are both 1.
#[tactic(auto, using(crate::proofs::Made::kept))]
pub(crate) fn both(terms: &mut NormalTerms, left: TermId, right: TermId) -> Result<TermId, NoMemory>
    requires first { IsTerm terms.old 32 left.0 }
    requires second { IsTerm terms.old 32 right.0 }
    ensures made { IfOk result (λ v. IsTerm terms.new 32 v.0) }
    ensures value { IfOk result (λ v. (numbers : ℕ → ℕ) (x y : Bool) → Obeys terms.new numbers → numbers left.0 ≡ bit x → numbers right.0 ≡ bit y → numbers v.0 ≡ bit (x && y)) }
    ensures grown { Grown terms.old terms.new 3 }
{
    let a = test(terms, left)?;
    let b = test(terms, right)?;
    let c = all(terms, a, b)?;
    let v = number(terms, c)?;
    Ok(v)
}

/// 1 less an Int that is 0 or 1.
#[tactic(auto, using(crate::proofs::Made::kept))]
pub(crate) fn opposite(terms: &mut NormalTerms, value: TermId) -> Result<TermId, NoMemory>
    requires { IsTerm terms.old 32 value.0 }
    ensures made { IfOk result (λ v. IsTerm terms.new 32 v.0) }
    ensures value { IfOk result (λ v. (numbers : ℕ → ℕ) (x : Bool) → Obeys terms.new numbers → numbers value.0 ≡ bit x → numbers v.0 ≡ bit (not x)) }
    ensures grown { Grown terms.old terms.new 0 }
{
    let a = test(terms, value)?;
    let b = fails(terms, a)?;
    let v = number(terms, b)?;
    Ok(v)
}

/// The Int 0.
pub(crate) fn never(terms: &mut NormalTerms) -> Result<TermId, NoMemory>
    ensures made { IfOk result (λ v. IsTerm terms.new 32 v.0) }
    ensures value { IfOk result (λ v. (numbers : ℕ → ℕ) → Obeys terms.new numbers → numbers v.0 ≡ 0) }
    ensures grown { Grown terms.old terms.new 0 }
{
    let v = constant(terms, 32, 0)?;
    Ok(v)
}

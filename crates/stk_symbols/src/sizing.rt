// Numbers of bits in other widths.
ghost use Rattle.std.specs.Prelude.{◌≡◌, ◌≤◌, ◌%◌, ◌^◌, ℕ, IfOk};
ghost use Rattle.stk_numbers.specs.Kinds.{residue, decoded};
ghost use Rattle.stk_symbols.specs.Valued.{IsTerm, Obeys, Grown};

use crate::making::one;
use stk_base::NoMemory;
use stk_rewrite::NormalTerms;
use stk_terms::{TermId, TermOp};

/// The bits in front of which copies of the sign bit stand, or zeros.
pub(crate) fn widened(
    terms: &mut NormalTerms,
    sign: bool,
    from: u8,
    to: u8,
    value: TermId,
) -> Result<TermId, NoMemory>
    requires term { IsTerm terms.old from value.0 }
    requires some { 1 ≤ from }
    requires wider { from ≤ to }
    requires most { to ≤ 128 }
    ensures made { IfOk result (λ v. IsTerm terms.new to v.0) }
    ensures value { IfOk result (λ v. (numbers : ℕ → ℕ) → Obeys terms.new numbers → numbers v.0 ≡ residue to (decoded sign from (numbers value.0))) }
    ensures grown { Grown terms.old terms.new 0 }
{
    if sign {
        let v = one(terms, TermOp::SignExt(to), from, value)?;
        Ok(v)
    } else {
        let v = one(terms, TermOp::ZeroExt(to), from, value)?;
        Ok(v)
    }
}

/// The lowest bits.
pub(crate) fn narrowed(
    terms: &mut NormalTerms,
    from: u8,
    to: u8,
    value: TermId,
) -> Result<TermId, NoMemory>
    requires term { IsTerm terms.old from value.0 }
    requires some { 1 ≤ to }
    requires narrower { to ≤ from }
    ensures made { IfOk result (λ v. IsTerm terms.new to v.0) }
    ensures value { IfOk result (λ v. (numbers : ℕ → ℕ) → Obeys terms.new numbers → numbers v.0 ≡ numbers value.0 % 2 ^ to) }
    ensures grown { Grown terms.old terms.new 0 }
{
    let v = one(terms, TermOp::Extract(0, to), from, value)?;
    Ok(v)
}

/// The bits of a number in another width.
pub(crate) fn resized(
    terms: &mut NormalTerms,
    sign: bool,
    from: u8,
    to: u8,
    value: TermId,
) -> Result<TermId, NoMemory>
    requires term { IsTerm terms.old from value.0 }
    requires some { 1 ≤ from }
    requires still { 1 ≤ to }
    requires most { to ≤ 128 }
    ensures made { IfOk result (λ v. IsTerm terms.new to v.0) }
    ensures value { IfOk result (λ v. (numbers : ℕ → ℕ) → Obeys terms.new numbers → numbers v.0 ≡ residue to (decoded sign from (numbers value.0))) }
    ensures grown { Grown terms.old terms.new 0 }
{
    if to < from {
        let v = narrowed(terms, from, to, value)?;
        Ok(v)
    } else {
        let v = widened(terms, sign, from, to, value)?;
        Ok(v)
    }
}

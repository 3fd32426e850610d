// Numbers of kinds, and conversions between kinds.
ghost use Rattle.std.specs.Prelude.{◌≡◌, ◌*◌, ◌≤◌, ℕ, pos, IfOk};
ghost use Rattle.std.specs.Ordering.{int_eq};
ghost use Rattle.stk_ctype.specs.declared.kind.IntKind.TheVariants as kinds;
ghost use Rattle.stk_numbers.specs.Kinds.{width_of, residue, wrap};
ghost use Rattle.stk_numbers.specs.Values.{bits_of};
ghost use Rattle.stk_terms.specs.Values.{bit};
ghost use Rattle.stk_values.specs.Charges.{convert_charge};
ghost use Rattle.stk_values.specs.Standing.{stands};
ghost use Rattle.stk_symbols.specs.Valued.{IsTerm, Obeys, Grown};

use crate::comparing::equal;
use crate::making;
use crate::sizing::resized;
use crate::tests::fails;
use stk_base::NoMemory;
use stk_numbers::{IntKind, signed, width};
use stk_rewrite::NormalTerms;
use stk_terms::TermId;

// The bits of a number in a width.
fn bits(width: u8, number: i128) -> u128
    requires { width ≤ 64 }
    ensures { result ≡ residue width number }
{
    let modulus = 1 << width;
    number.rem_euclid(modulus) as u128
}

/// The bits of a number in a kind.
pub(crate) fn constant(
    terms: &mut NormalTerms,
    kind: IntKind,
    number: i128,
) -> Result<TermId, NoMemory>
    ensures made { IfOk result (λ v. IsTerm terms.new (width_of kind) v.0) }
    ensures value { IfOk result (λ v. (numbers : ℕ → ℕ) → Obeys terms.new numbers → numbers v.0 ≡ bits_of kind number) }
    ensures grown { Grown terms.old terms.new 0 }
{
    let w = width(kind);
    let v = making::constant(terms, w, bits(w, number))?;
    Ok(v)
}

/// Whether a number of a kind is 0, as a bit.
#[tactic(auto, using(crate::proofs::Made::kept))]
pub(crate) fn is_zero(
    terms: &mut NormalTerms,
    kind: IntKind,
    value: TermId,
) -> Result<TermId, NoMemory>
    requires { IsTerm terms.old (width_of kind) value.0 }
    ensures made { IfOk result (λ v. IsTerm terms.new 1 v.0) }
    ensures value { IfOk result (λ v. (numbers : ℕ → ℕ) → Obeys terms.new numbers → numbers v.0 ≡ bit (int_eq (stands kind (numbers value.0)) (pos 0))) }
    ensures grown { Grown terms.old terms.new (4 * width_of kind) }
{
    let w = width(kind);
    let zero = making::constant(terms, w, 0)?;
    let v = equal(terms, kind, value, zero)?;
    Ok(v)
}

// A number converted to `_Bool`.
#[tactic(auto, using(crate::proofs::Made::kept))]
fn truth(terms: &mut NormalTerms, kind: IntKind, value: TermId) -> Result<TermId, NoMemory>
    requires { IsTerm terms.old (width_of kind) value.0 }
    ensures made { IfOk result (λ v. IsTerm terms.new 1 v.0) }
    ensures value { IfOk result (λ v. (numbers : ℕ → ℕ) → Obeys terms.new numbers → numbers v.0 ≡ bits_of kinds.Bool (wrap kinds.Bool (stands kind (numbers value.0)))) }
    ensures grown { Grown terms.old terms.new (4 * width_of kind) }
{
    let t = is_zero(terms, kind, value)?;
    let v = fails(terms, t)?;
    Ok(v)
}

/// A number converted from one kind to another.
pub(crate) fn converted(
    terms: &mut NormalTerms,
    from: IntKind,
    to: IntKind,
    value: TermId,
) -> Result<TermId, NoMemory>
    requires { IsTerm terms.old (width_of from) value.0 }
    ensures made { IfOk result (λ v. IsTerm terms.new (width_of to) v.0) }
    ensures value { IfOk result (λ v. (numbers : ℕ → ℕ) → Obeys terms.new numbers → numbers v.0 ≡ bits_of to (wrap to (stands from (numbers value.0)))) }
    ensures grown { Grown terms.old terms.new (convert_charge from to) }
{
    match to {
        IntKind::Bool => {
            let v = truth(terms, from, value)?;
            Ok(v)
        }
        _ => {
            let v = resized(terms, signed(from), width(from), width(to), value)?;
            Ok(v)
        }
    }
}

// Distances of addresses, and bounds of indices.
ghost use Rattle.std.specs.Prelude.{◌≡◌, ◌+◌, ◌*◌, ◌<◌, ◌≤◌, ◌^◌, ℕ, true, false, not, ◌&&◌, nat_lt, IfOk};
ghost use Rattle.stk_ctype.specs.declared.kind.IntKind.TheVariants.{Long};
ghost use Rattle.stk_numbers.specs.Kinds.{width_of, is_signed};
ghost use Rattle.stk_numbers.specs.Values.{bits_of, distance};
ghost use Rattle.stk_numbers.specs.Conditions.{is_outside};
ghost use Rattle.stk_terms.specs.Values.{bit};
ghost use Rattle.stk_values.specs.Charges.{distance_charge};
ghost use Rattle.stk_values.specs.Standing.{stands};
ghost use Rattle.stk_symbols.specs.Standing.{is_plus};
ghost use Rattle.stk_symbols.specs.Valued.{IsTerm, Obeys, Grown};

use crate::dividing::{negative, quotient};
use crate::making::{constant, two};
use crate::sizing::widened;
use crate::tests::{all, fails, number};
use stk_base::NoMemory;
use stk_numbers::{IntKind, signed, width};
use stk_rewrite::NormalTerms;
use stk_terms::{TermId, TermOp};

/// How many elements of a size the first address is behind the second, of kind `Long`.
#[tactic(auto, using(crate::proofs::Made::kept))]
pub(crate) fn distance(
    terms: &mut NormalTerms,
    left: TermId,
    right: TermId,
    size: u64,
) -> Result<TermId, NoMemory>
    requires first { IsTerm terms.old 64 left.0 }
    requires second { IsTerm terms.old 64 right.0 }
    requires least { 1 ≤ size }
    requires most { size < 2 ^ 31 }
    ensures made { IfOk result (λ v. IsTerm terms.new 64 v.0) }
    ensures value { IfOk result (λ v. (numbers : ℕ → ℕ) → Obeys terms.new numbers → numbers v.0 ≡ bits_of Long (distance (numbers left.0) (numbers right.0) size)) }
    ensures grown { Grown terms.old terms.new (distance_charge size) }
{
    let d = two(terms, TermOp::Sub, (64, 64), left, right)?;
    if size == 1 {
        Ok(d)
    } else {
        let s = constant(terms, 64, u128::from(size))?;
        let v = quotient(terms, 64, d, s)?;
        Ok(v)
    }
}

// Whether a number of 64 bits is below a count, and not negative where it has a sign, as a bit.
#[tactic(auto, using(crate::proofs::Made::kept))]
fn inside(
    terms: &mut NormalTerms,
    sign: bool,
    index: TermId,
    count: u64,
) -> Result<TermId, NoMemory>
    requires { IsTerm terms.old 64 index.0 }
    ensures made { IfOk result (λ v. IsTerm terms.new 1 v.0) }
    ensures plain { sign ≡ false → IfOk result (λ v. (numbers : ℕ → ℕ) → Obeys terms.new numbers → numbers v.0 ≡ bit (nat_lt (numbers index.0) count)) }
    ensures signed { sign ≡ true → IfOk result (λ v. (numbers : ℕ → ℕ) → Obeys terms.new numbers → numbers v.0 ≡ bit (nat_lt (numbers index.0) count && is_plus 64 (numbers index.0))) }
    ensures grown { Grown terms.old terms.new 643 }
{
    let most = constant(terms, 64, u128::from(count))?;
    let t = two(terms, TermOp::ULt, (64, 64), index, most)?;
    if sign {
        let s = negative(terms, 64, index)?;
        let f = fails(terms, s)?;
        let v = all(terms, t, f)?;
        Ok(v)
    } else {
        Ok(t)
    }
}

/// Whether an index is below 0 or at least the count of elements, as an Int.
#[tactic(auto, using(crate::proofs::Made::kept))]
pub(crate) fn breaks_bounds(
    terms: &mut NormalTerms,
    kind: IntKind,
    index: TermId,
    count: u64,
) -> Result<TermId, NoMemory>
    requires { IsTerm terms.old (width_of kind) index.0 }
    ensures made { IfOk result (λ v. IsTerm terms.new 32 v.0) }
    ensures value { IfOk result (λ v. (numbers : ℕ → ℕ) → Obeys terms.new numbers → numbers v.0 ≡ bit (is_outside (stands kind (numbers index.0)) count)) }
    ensures grown { Grown terms.old terms.new 704 }
{
    let sign = signed(kind);
    let i = widened(terms, sign, width(kind), 64, index)?;
    let t = inside(terms, sign, i, count)?;
    let f = fails(terms, t)?;
    let v = number(terms, f)?;
    Ok(v)
}

// Addresses that are moved by elements of a size: a sum for each bit of the size that is 1.
ghost use Rattle.std.specs.Prelude.{◌≡◌, ◌+◌, ◌*◌, ◌/◌, ◌%◌, ◌<◌, ◌≤◌, ◌^◌, ℕ, pos, not, nat_eq, IfOk};
ghost use Rattle.std.specs.Int.Count.{ones};
ghost use Rattle.stk_numbers.specs.Kinds.{width_of, residue};
ghost use Rattle.stk_numbers.specs.Values.{exact_move, moved};
ghost use Rattle.stk_numbers.specs.Conditions.{leaves_memory};
ghost use Rattle.stk_terms.specs.Values.{bit};
ghost use Rattle.stk_values.specs.Charges.{move_charge};
ghost use Rattle.stk_values.specs.Standing.{stands};
ghost use Rattle.stk_symbols.specs.Valued.{IsTerm, Obeys, Grown};

use crate::making::{constant, one, two};
use crate::sizing::{narrowed, widened};
use crate::tests::{fails, number};
use stk_base::NoMemory;
use stk_numbers::{IntKind, signed, width};
use stk_rewrite::NormalTerms;
use stk_terms::{TermId, TermOp};

// A number times 2 to a place, modulo 2 to the width: its lowest bits in front of zeros.
#[tactic(auto, using(crate::proofs::Made::kept))]
fn raised(terms: &mut NormalTerms, width: u8, place: u8, value: TermId) -> Result<TermId, NoMemory>
    requires term { IsTerm terms.old width value.0 }
    requires place { place < width }
    requires most { width ≤ 128 }
    ensures made { IfOk result (λ v. IsTerm terms.new width v.0) }
    ensures value { IfOk result (λ v. (numbers : ℕ → ℕ) → Obeys terms.new numbers → numbers v.0 ≡ (numbers value.0 * 2 ^ place) % 2 ^ width) }
    ensures grown { Grown terms.old terms.new 0 }
{
    if place == 0 {
        Ok(value)
    } else {
        let low = narrowed(terms, width, width - place, value)?;
        let zeros = constant(terms, place, 0)?;
        let v = two(terms, TermOp::Concat, (width - place, place), low, zeros)?;
        Ok(v)
    }
}

// A base moved by 2 to a place times the step.
#[tactic(auto, using(crate::proofs::Made::kept))]
fn moved_once(
    terms: &mut NormalTerms,
    width: u8,
    place: u8,
    base: TermId,
    step: TermId,
    minus: bool,
) -> Result<TermId, NoMemory>
    requires base { IsTerm terms.old width base.0 }
    requires step { IsTerm terms.old width step.0 }
    requires place { place < width }
    requires most { width ≤ 128 }
    ensures made { IfOk result (λ v. IsTerm terms.new width v.0) }
    ensures value { IfOk result (λ v. (numbers : ℕ → ℕ) → Obeys terms.new numbers → numbers v.0 ≡ residue width (exact_move (numbers base.0) (pos (numbers step.0 * 2 ^ place)) 1 minus)) }
    ensures grown { Grown terms.old terms.new (10 * width) }
{
    let s = raised(terms, width, place, step)?;
    if minus {
        let v = two(terms, TermOp::Sub, (width, width), base, s)?;
        Ok(v)
    } else {
        let v = two(terms, TermOp::Add, (width, width), base, s)?;
        Ok(v)
    }
}

// A base moved by 2 to a place times the step, where the lowest bit of the size is 1.
#[tactic(auto, using(crate::proofs::Made::kept))]
fn moved_by_bit(
    terms: &mut NormalTerms,
    width: u8,
    place: u8,
    base: TermId,
    step: TermId,
    size: u64,
    minus: bool,
) -> Result<TermId, NoMemory>
    requires base { IsTerm terms.old width base.0 }
    requires step { IsTerm terms.old width step.0 }
    requires place { place < width }
    requires most { width ≤ 128 }
    ensures made { IfOk result (λ v. IsTerm terms.new width v.0) }
    ensures value { IfOk result (λ v. (numbers : ℕ → ℕ) → Obeys terms.new numbers → numbers v.0 ≡ residue width (exact_move (numbers base.0) (pos (numbers step.0 * 2 ^ place)) (size % 2) minus)) }
    ensures grown { Grown terms.old terms.new (10 * width * (size % 2)) }
{
    if size % 2 == 1 {
        let v = moved_once(terms, width, place, base, step, minus)?;
        Ok(v)
    } else {
        Ok(base)
    }
}

// A base moved by so many elements of a size, modulo 2 to the width.
fn moved_by(
    terms: &mut NormalTerms,
    width: u8,
    base: TermId,
    step: TermId,
    size: u64,
    minus: bool,
) -> Result<TermId, NoMemory>
    requires base { IsTerm terms.old width base.0 }
    requires step { IsTerm terms.old width step.0 }
    requires least { 31 ≤ width }
    requires most { width ≤ 128 }
    requires size { size < 2 ^ 31 }
    ensures made { IfOk result (λ v. IsTerm terms.new width v.0) }
    ensures value { IfOk result (λ v. (numbers : ℕ → ℕ) → Obeys terms.new numbers → numbers v.0 ≡ residue width (exact_move (numbers base.0) (pos (numbers step.0)) size minus)) }
    ensures grown { Grown terms.old terms.new (10 * width * ones size) }
{
    let mut sum = base;
    let mut rest = size;
    for place in 0..31 {
        sum = moved_by_bit(terms, width, place, sum, step, rest, minus)?;
        rest /= 2;
    }
    Ok(sum)
}

/// The address so many elements of a size, in bytes, before or behind a base, modulo 2^64. The step is of any kind.
#[tactic(auto, using(crate::proofs::Made::kept))]
pub(crate) fn moved(
    terms: &mut NormalTerms,
    base: TermId,
    kind: IntKind,
    step: TermId,
    size: u64,
    minus: bool,
) -> Result<TermId, NoMemory>
    requires base { IsTerm terms.old 64 base.0 }
    requires step { IsTerm terms.old (width_of kind) step.0 }
    requires size { size < 2 ^ 31 }
    ensures made { IfOk result (λ v. IsTerm terms.new 64 v.0) }
    ensures value { IfOk result (λ v. (numbers : ℕ → ℕ) → Obeys terms.new numbers → numbers v.0 ≡ moved (numbers base.0) (stands kind (numbers step.0)) size minus) }
    ensures grown { Grown terms.old terms.new (move_charge size) }
{
    let s = widened(terms, signed(kind), width(kind), 64, step)?;
    let v = moved_by(terms, 64, base, s, size, minus)?;
    Ok(v)
}

// Whether a number of 96 bits has one of its upper 32 bits set.
#[tactic(auto, using(crate::proofs::Made::kept))]
fn has_upper(terms: &mut NormalTerms, value: TermId) -> Result<TermId, NoMemory>
    requires { IsTerm terms.old 96 value.0 }
    ensures made { IfOk result (λ v. IsTerm terms.new 1 v.0) }
    ensures value { IfOk result (λ v. (numbers : ℕ → ℕ) → Obeys terms.new numbers → numbers v.0 ≡ bit (not (nat_eq (numbers value.0 / 2 ^ 64 % 2 ^ 32) 0))) }
    ensures grown { Grown terms.old terms.new 128 }
{
    let upper = one(terms, TermOp::Extract(64, 32), 96, value)?;
    let zero = constant(terms, 32, 0)?;
    let t = two(terms, TermOp::Eq, (32, 32), upper, zero)?;
    let v = fails(terms, t)?;
    Ok(v)
}

/// Whether a moved address leaves the address space, as an Int: the exact one, which 96 bits hold with its sign, is
/// below 0 or above 2^64 - 1.
#[tactic(auto, using(crate::proofs::Made::kept))]
pub(crate) fn breaks_move(
    terms: &mut NormalTerms,
    base: TermId,
    kind: IntKind,
    step: TermId,
    size: u64,
    minus: bool,
) -> Result<TermId, NoMemory>
    requires base { IsTerm terms.old 64 base.0 }
    requires step { IsTerm terms.old (width_of kind) step.0 }
    requires size { size < 2 ^ 31 }
    ensures made { IfOk result (λ v. IsTerm terms.new 32 v.0) }
    ensures value { IfOk result (λ v. (numbers : ℕ → ℕ) → Obeys terms.new numbers → numbers v.0 ≡ bit (leaves_memory (numbers base.0) (stands kind (numbers step.0)) size minus)) }
    ensures grown { Grown terms.old terms.new (move_charge size + 512) }
{
    let b = widened(terms, false, 64, 96, base)?;
    let s = widened(terms, signed(kind), width(kind), 96, step)?;
    let r = moved_by(terms, 96, b, s, size, minus)?;
    let t = has_upper(terms, r)?;
    let v = number(terms, t)?;
    Ok(v)
}

// Shifts, whose counts may have any kind.
ghost use Rattle.std.specs.Prelude.{◌≡◌, ◌*◌, ℕ, IfOk};
ghost use Rattle.stk_numbers.specs.Kinds.{width_of};
ghost use Rattle.stk_numbers.specs.Values.{bits_of, is_oversized, shifted};
ghost use Rattle.stk_numbers.specs.declared.operators.ShiftOp.TheVariants.{Left, Right};
ghost use Rattle.stk_terms.specs.Values.{bit};
ghost use Rattle.stk_values.specs.Charges.{wider};
ghost use Rattle.stk_values.specs.Standing.{stands};
ghost use Rattle.stk_symbols.specs.Valued.{IsTerm, Obeys, Grown};

use crate::making::{constant, two};
use crate::sizing::{narrowed, widened};
use crate::tests::{fails, number};
use stk_base::NoMemory;
use stk_numbers::{IntKind, ShiftOp, signed, width};
use stk_rewrite::NormalTerms;
use stk_terms::{TermId, TermOp};

// The greater width of two kinds.
fn wider(a: IntKind, b: IntKind) -> u8
    ensures { result ≡ wider a b }
{
    if width(a) < width(b) {
        width(b)
    } else {
        width(a)
    }
}

// A shift to the left, in the greater width of both kinds, and cut to that of the first.
#[tactic(auto, using(crate::proofs::Made::kept))]
fn left_shift(
    terms: &mut NormalTerms,
    kind: IntKind,
    left: TermId,
    count_kind: IntKind,
    count: TermId,
) -> Result<TermId, NoMemory>
    requires first { IsTerm terms.old (width_of kind) left.0 }
    requires second { IsTerm terms.old (width_of count_kind) count.0 }
    ensures made { IfOk result (λ v. IsTerm terms.new (width_of kind) v.0) }
    ensures value { IfOk result (λ v. (numbers : ℕ → ℕ) → Obeys terms.new numbers → numbers v.0 ≡ bits_of kind (shifted Left kind (stands kind (numbers left.0)) (stands count_kind (numbers count.0)))) }
    ensures grown { Grown terms.old terms.new (26 * wider kind count_kind) }
{
    let w = wider(kind, count_kind);
    let x = widened(terms, signed(kind), width(kind), w, left)?;
    let c = widened(terms, signed(count_kind), width(count_kind), w, count)?;
    let s = two(terms, TermOp::Shl, (w, w), x, c)?;
    let v = narrowed(terms, w, width(kind), s)?;
    Ok(v)
}

// A shift to the right, in the greater width of both kinds, and cut to that of the first: filled with the sign of a
// signed kind, and else with zeros.
#[tactic(auto, using(crate::proofs::Made::kept))]
fn right_shift(
    terms: &mut NormalTerms,
    kind: IntKind,
    left: TermId,
    count_kind: IntKind,
    count: TermId,
) -> Result<TermId, NoMemory>
    requires first { IsTerm terms.old (width_of kind) left.0 }
    requires second { IsTerm terms.old (width_of count_kind) count.0 }
    ensures made { IfOk result (λ v. IsTerm terms.new (width_of kind) v.0) }
    ensures value { IfOk result (λ v. (numbers : ℕ → ℕ) → Obeys terms.new numbers → numbers v.0 ≡ bits_of kind (shifted Right kind (stands kind (numbers left.0)) (stands count_kind (numbers count.0)))) }
    ensures grown { Grown terms.old terms.new (26 * wider kind count_kind) }
{
    let w = wider(kind, count_kind);
    let x = widened(terms, signed(kind), width(kind), w, left)?;
    let c = widened(terms, signed(count_kind), width(count_kind), w, count)?;
    if signed(kind) {
        let s = two(terms, TermOp::AShr, (w, w), x, c)?;
        let v = narrowed(terms, w, width(kind), s)?;
        Ok(v)
    } else {
        let s = two(terms, TermOp::LShr, (w, w), x, c)?;
        let v = narrowed(terms, w, width(kind), s)?;
        Ok(v)
    }
}

/// A shift of a number of a kind by a count of any kind.
pub(crate) fn shift(
    terms: &mut NormalTerms,
    op: ShiftOp,
    kind: IntKind,
    left: TermId,
    count_kind: IntKind,
    count: TermId,
) -> Result<TermId, NoMemory>
    requires first { IsTerm terms.old (width_of kind) left.0 }
    requires second { IsTerm terms.old (width_of count_kind) count.0 }
    ensures made { IfOk result (λ v. IsTerm terms.new (width_of kind) v.0) }
    ensures value { IfOk result (λ v. (numbers : ℕ → ℕ) → Obeys terms.new numbers → numbers v.0 ≡ bits_of kind (shifted op kind (stands kind (numbers left.0)) (stands count_kind (numbers count.0)))) }
    ensures grown { Grown terms.old terms.new (26 * wider kind count_kind) }
{
    match op {
        ShiftOp::Left => {
            let v = left_shift(terms, kind, left, count_kind, count)?;
            Ok(v)
        }
        ShiftOp::Right => {
            let v = right_shift(terms, kind, left, count_kind, count)?;
            Ok(v)
        }
    }
}

/// Whether a count is below 0 or at least the width of the kind that is shifted, as an Int.
#[tactic(auto, using(crate::proofs::Made::kept))]
pub(crate) fn breaks_shift(
    terms: &mut NormalTerms,
    kind: IntKind,
    count_kind: IntKind,
    count: TermId,
) -> Result<TermId, NoMemory>
    requires { IsTerm terms.old (width_of count_kind) count.0 }
    ensures made { IfOk result (λ v. IsTerm terms.new 32 v.0) }
    ensures value { IfOk result (λ v. (numbers : ℕ → ℕ) → Obeys terms.new numbers → numbers v.0 ≡ bit (is_oversized kind (stands count_kind (numbers count.0)))) }
    ensures grown { Grown terms.old terms.new (10 * wider kind count_kind) }
{
    let w = wider(kind, count_kind);
    let c = widened(terms, signed(count_kind), width(count_kind), w, count)?;
    let most = constant(terms, w, u128::from(width(kind)))?;
    let t = two(terms, TermOp::ULt, (w, w), c, most)?;
    let f = fails(terms, t)?;
    let v = number(terms, f)?;
    Ok(v)
}

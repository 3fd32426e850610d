// Terms of one operator.
ghost use Rattle.std.specs.Prelude.{◌≡◌, ◌*◌, ◌<◌, ◌≤◌, ◌^◌, ℕ, Bool, true, length, get_or, nat_eq, if◌then◌else◌, IfOk};
ghost use Rattle.stk_terms.specs.Fitting.{arity, WidthsFit};
ghost use Rattle.stk_terms.specs.Values.{width_by, number_by};
ghost use Rattle.stk_terms.specs.Cost.{bound, IsClosed, Grows};
ghost use Rattle.stk_symbols.specs.Valued.{IsTerm, Obeys, Grown};

use stk_base::NoMemory;
use stk_rewrite::NormalTerms;
use stk_terms::{TermId, TermOp};

/// An operator over one term.
pub(crate) fn one(
    terms: &mut NormalTerms,
    op: TermOp,
    width: u8,
    a: TermId,
) -> Result<TermId, NoMemory>
    requires term { IsTerm terms.old width a.0 }
    requires arity { arity op ≡ 1 }
    requires fits { WidthsFit terms.old.inputs op width 0 0 }
    ensures made { IfOk result (λ v. IsTerm terms.new (width_by terms.old.inputs op width 0) v.0) }
    ensures value { IfOk result (λ v. (numbers : ℕ → ℕ) → (o : Obeys terms.new numbers) → numbers v.0 ≡ number_by o.residues op width 0 (numbers a.0) 0 0) }
    ensures grows { IfOk result (λ v. (chosen : ℕ → Bool) → IsClosed terms.old chosen → chosen a.0 ≡ true → Grows terms.old terms.new chosen (bound op width 0) v.0) }
    ensures grown { Grown terms.old terms.new (bound op width 0) }
{
    // The contract alone reads the width.
    let _ = width;
    let v = terms.one(op, a)?;
    Ok(v)
}

/// An operator over two terms.
pub(crate) fn two(
    terms: &mut NormalTerms,
    op: TermOp,
    widths: (u8, u8),
    a: TermId,
    b: TermId,
) -> Result<TermId, NoMemory>
    requires first { IsTerm terms.old widths.0 a.0 }
    requires second { IsTerm terms.old widths.1 b.0 }
    requires arity { arity op ≡ 2 }
    requires fits { WidthsFit terms.old.inputs op widths.0 widths.1 0 }
    ensures made { IfOk result (λ v. IsTerm terms.new (width_by terms.old.inputs op widths.0 widths.1) v.0) }
    ensures value { IfOk result (λ v. (numbers : ℕ → ℕ) → (o : Obeys terms.new numbers) → numbers v.0 ≡ number_by o.residues op widths.0 widths.1 (numbers a.0) (numbers b.0) 0) }
    ensures grows { IfOk result (λ v. (chosen : ℕ → Bool) → IsClosed terms.old chosen → chosen a.0 ≡ true → chosen b.0 ≡ true → Grows terms.old terms.new chosen (bound op widths.0 widths.1) v.0) }
    ensures grown { Grown terms.old terms.new (bound op widths.0 widths.1) }
{
    // The contract alone reads the widths.
    let _ = widths;
    let v = terms.two(op, a, b)?;
    Ok(v)
}

/// The second term where the test is 1, and else the third.
pub(crate) fn chosen(
    terms: &mut NormalTerms,
    width: u8,
    test: TermId,
    a: TermId,
    b: TermId,
) -> Result<TermId, NoMemory>
    requires test { IsTerm terms.old 1 test.0 }
    requires first { IsTerm terms.old width a.0 }
    requires second { IsTerm terms.old width b.0 }
    ensures made { IfOk result (λ v. IsTerm terms.new width v.0) }
    ensures value { IfOk result (λ v. (numbers : ℕ → ℕ) → Obeys terms.new numbers → numbers v.0 ≡ (if nat_eq (numbers test.0) 1 then numbers a.0 else numbers b.0)) }
    ensures grown { Grown terms.old terms.new (3 * width) }
{
    // The contract alone reads the width.
    let _ = width;
    let v = terms.choice(test, a, b)?;
    Ok(v)
}

/// A constant.
pub fn constant(terms: &mut NormalTerms, width: u8, number: u128) -> Result<TermId, NoMemory>
    requires least { 1 ≤ width }
    requires most { width ≤ 128 }
    requires number { number < 2 ^ width }
    ensures made { IfOk result (λ v. IsTerm terms.new width v.0) }
    ensures value { IfOk result (λ v. (numbers : ℕ → ℕ) → Obeys terms.new numbers → numbers v.0 ≡ number) }
    ensures grows { IfOk result (λ v. (chosen : ℕ → Bool) → IsClosed terms.old chosen → Grows terms.old terms.new chosen 0 v.0) }
    ensures grown { Grown terms.old terms.new 0 }
{
    let v = terms.constant(width, number)?;
    Ok(v)
}

/// An input.
pub(crate) fn input(terms: &mut NormalTerms, key: u32) -> Result<TermId, NoMemory>
    requires { key < length terms.old.inputs }
    ensures made { IfOk result (λ v. IsTerm terms.new (get_or terms.old.inputs key 0) v.0) }
    ensures value { IfOk result (λ v. (numbers : ℕ → ℕ) → (o : Obeys terms.new numbers) → numbers v.0 ≡ get_or o.residues key 0) }
    ensures grown { Grown terms.old terms.new 0 }
{
    let v = terms.input(key)?;
    Ok(v)
}

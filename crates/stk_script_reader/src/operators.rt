//! Terms of the store for the operators of scripts.

ghost use Rattle.std.specs.Prelude.{◌≡◌, ◌<◌, ◌≤◌, ◌^◌, ◌↔◌, ℕ, IfOk, IsTrue, List, length};
ghost use Rattle.std.specs.Option.{option_map};
ghost use Rattle.stk_terms.specs.Fitting.{IsSound};
ghost use Rattle.stk_terms.specs.Growth.{Keeps};
ghost use Rattle.stk_terms.specs.Values.{width_at};
ghost use Rattle.stk_scripts.specs.Syntax.{Expr, chosen, cut, joined, literal, one_of, two_of, widened};
ghost use Rattle.stk_scripts.specs.declared.operators.TestOp.{TestOp as Comparison};
ghost use Rattle.stk_scripts.specs.declared.operators.BinaryOp.TheVariants as binary;
ghost use Rattle.stk_script_reader.specs.Operators.{IsApplied, extend_term, plain_term, test_term, unary_term};
ghost use Rattle.stk_script_reader.specs.Standing.{AllStand, IsTerm, IsTest, Stands, Tests};

use crate::making;
use stk_base::NoMemory;
use stk_script_trees::Fault;
use stk_scripts::{BinaryOp, ExtendOp, TestOp, UnaryOp};
use stk_terms::{TermId, TermOp, Terms};

/// How wide a term is at most.
const MOST_WIDTH: u8 = 128;

// The operator of the store for one on one term.
fn unary_term(op: UnaryOp) -> TermOp
    ensures { result ≡ unary_term op }
{
    match op {
        UnaryOp::Not => TermOp::Not,
        UnaryOp::Neg => TermOp::Neg,
    }
}

// The operator of the store for one on two terms; none for the quotient, which by 0 differs.
fn plain_term(op: BinaryOp) -> Option<TermOp>
    ensures { result ≡ plain_term op }
{
    match op {
        BinaryOp::And => Some(TermOp::And),
        BinaryOp::Or => Some(TermOp::Or),
        BinaryOp::Xor => Some(TermOp::Xor),
        BinaryOp::Add => Some(TermOp::Add),
        BinaryOp::Sub => Some(TermOp::Sub),
        BinaryOp::Mul => Some(TermOp::Mul),
        BinaryOp::UDiv => None,
        BinaryOp::URem => Some(TermOp::URem),
        BinaryOp::Shl => Some(TermOp::Shl),
        BinaryOp::LShr => Some(TermOp::LShr),
        BinaryOp::AShr => Some(TermOp::AShr),
    }
}

// The operator of the store for a comparison.
fn test_term(op: TestOp) -> TermOp
    ensures { result ≡ test_term op }
{
    match op {
        TestOp::Equal => TermOp::Eq,
        TestOp::Below => TermOp::ULt,
        TestOp::SignedBelow => TermOp::SLt,
    }
}

// The operator of the store that puts bits in front, up to a width.
fn extend_term(op: ExtendOp, width: u8) -> TermOp
    ensures { result ≡ extend_term op width }
{
    match op {
        ExtendOp::Zero => TermOp::ZeroExt(width),
        ExtendOp::Sign => TermOp::SignExt(width),
    }
}

/// An operator on one term.
#[tactic(auto, using(crate::proofs::Meant::unary_arity, crate::proofs::Meant::unary_fits))]
pub(crate) fn one(terms: &mut Terms, op: UnaryOp, a: TermId) -> Result<TermId, Fault>
    requires { a.0 < length terms.old.terms }
    ensures made { (names : List (List ℕ × ℕ)) (e : Expr) → IsTerm terms.old names e a.0 → Stands terms.old terms.new names (one_of op e) result }
    ensures keeps { Keeps terms.old terms.new }
{
    let made = making::single(terms, unary_term(op), a)?;
    Ok(made)
}

// A quotient: all ones by 0.
fn quotient(terms: &mut Terms, a: TermId, b: TermId) -> Result<TermId, NoMemory>
    requires first { a.0 < length terms.old.terms }
    requires second { b.0 < length terms.old.terms }
    requires alike { width_at terms.old a.0 ≡ width_at terms.old b.0 }
    ensures made { IfOk result (λ id. IsApplied terms.new binary.UDiv a.0 b.0 id.0) }
    ensures keeps { Keeps terms.old terms.new }
    ensures sound { IsSound terms.new }
{
    let width = terms.width(a);
    let zero = making::leaf(terms, TermOp::Constant(width, 0))?;
    let ones = making::single(terms, TermOp::Not, zero)?;
    let test = making::double(terms, TermOp::Eq, b, zero)?;
    let plain = making::double(terms, TermOp::UDiv, a, b)?;
    let made = making::choice(terms, test, ones, plain)?;
    Ok(made)
}

// An operator on two terms of one width.
#[tactic(auto, using(crate::proofs::Meant::plain_arity, crate::proofs::Meant::plain_fits))]
fn applied(terms: &mut Terms, op: BinaryOp, a: TermId, b: TermId) -> Result<TermId, NoMemory>
    requires first { a.0 < length terms.old.terms }
    requires second { b.0 < length terms.old.terms }
    requires alike { width_at terms.old a.0 ≡ width_at terms.old b.0 }
    ensures made { IfOk result (λ id. IsApplied terms.new op a.0 b.0 id.0) }
    ensures keeps { Keeps terms.old terms.new }
    ensures sound { IsSound terms.new }
{
    match plain_term(op) {
        Some(plain) => {
            let made = making::double(terms, plain, a, b)?;
            Ok(made)
        }
        None => quotient(terms, a, b),
    }
}

/// An operator on two terms, which are of one width.
pub(crate) fn two(terms: &mut Terms, op: BinaryOp, a: TermId, b: TermId) -> Result<TermId, Fault>
    requires first { a.0 < length terms.old.terms }
    requires second { b.0 < length terms.old.terms }
    ensures made { (names : List (List ℕ × ℕ)) (e f : Expr) → IsTerm terms.old names e a.0 → IsTerm terms.old names f b.0 → Stands terms.old terms.new names (two_of op e f) result }
    ensures keeps { Keeps terms.old terms.new }
{
    if terms.width(a) != terms.width(b) {
        return Err(Fault::Bad);
    }
    let made = applied(terms, op, a, b)?;
    Ok(made)
}

/// The bits of one term in front of those of another, at most 128.
pub(crate) fn concat(terms: &mut Terms, a: TermId, b: TermId) -> Result<TermId, Fault>
    requires first { a.0 < length terms.old.terms }
    requires second { b.0 < length terms.old.terms }
    ensures made { (names : List (List ℕ × ℕ)) (e f : Expr) → IsTerm terms.old names e a.0 → IsTerm terms.old names f b.0 → Stands terms.old terms.new names (joined e f) result }
    ensures keeps { Keeps terms.old terms.new }
{
    if terms.width(a) > MOST_WIDTH - terms.width(b) {
        return Err(Fault::Bad);
    }
    let made = making::double(terms, TermOp::Concat, a, b)?;
    Ok(made)
}

/// The bits of a term from a high one down to a low one.
pub(crate) fn extract(terms: &mut Terms, high: u128, low: u128, a: TermId) -> Result<TermId, Fault>
    requires { a.0 < length terms.old.terms }
    ensures made { (names : List (List ℕ × ℕ)) (e : Expr) → IsTerm terms.old names e a.0 → Stands terms.old terms.new names (cut high low e) result }
    ensures keeps { Keeps terms.old terms.new }
{
    if !is_cut(high, low, terms.width(a)) {
        return Err(Fault::Bad);
    }
    let op = TermOp::Extract(low as u8, (high + 1 - low) as u8);
    let made = making::single(terms, op, a)?;
    Ok(made)
}

// Whether the bits from the high one down to the low one are within the width.
fn is_cut(high: u128, low: u128, width: u8) -> bool
    ensures { IsTrue result ↔ ((low ≤ high) × (high < width)) }
{
    low <= high && high < width as u128
}

/// A term with so many more bits in front, at most 128 together.
#[tactic(auto, using(crate::proofs::Meant::extend_arity, crate::proofs::Meant::extend_fits))]
pub(crate) fn extend(
    terms: &mut Terms,
    op: ExtendOp,
    more: u128,
    a: TermId,
) -> Result<TermId, Fault>
    requires { a.0 < length terms.old.terms }
    ensures made { (names : List (List ℕ × ℕ)) (e : Expr) → IsTerm terms.old names e a.0 → Stands terms.old terms.new names (widened op more e) result }
    ensures keeps { Keeps terms.old terms.new }
{
    let width = terms.width(a);
    let room = MOST_WIDTH - width;
    if more > room as u128 {
        return Err(Fault::Bad);
    }
    let made = making::single(terms, extend_term(op, width + more as u8), a)?;
    Ok(made)
}

/// A comparison, as a term of width 1, of two terms, which are of one width.
#[tactic(auto, using(crate::proofs::Meant::test_arity, crate::proofs::Meant::test_fits))]
pub(crate) fn compare(terms: &mut Terms, op: TestOp, a: TermId, b: TermId) -> Result<TermId, Fault>
    requires first { a.0 < length terms.old.terms }
    requires second { b.0 < length terms.old.terms }
    ensures made { (names : List (List ℕ × ℕ)) (e f : Expr) → IsTerm terms.old names e a.0 → IsTerm terms.old names f b.0 → Tests terms.old terms.new names op e f result }
    ensures keeps { Keeps terms.old terms.new }
    ensures there { IfOk result (λ id. id.0 < length terms.new.terms) }
    ensures one { IfOk result (λ id. width_at terms.new id.0 ≡ 1) }
{
    if terms.width(a) != terms.width(b) {
        return Err(Fault::Bad);
    }
    let made = making::double(terms, test_term(op), a, b)?;
    Ok(made)
}

/// One of two terms, which are of one width, by a comparison.
pub(crate) fn choice(terms: &mut Terms, test: TermId, a: TermId, b: TermId) -> Result<TermId, Fault>
    requires test { test.0 < length terms.old.terms }
    requires one { width_at terms.old test.0 ≡ 1 }
    requires first { a.0 < length terms.old.terms }
    requires second { b.0 < length terms.old.terms }
    ensures made { (names : List (List ℕ × ℕ)) (op : Comparison) (e f g h : Expr) → IsTest terms.old names op e f test.0 → IsTerm terms.old names g a.0 → IsTerm terms.old names h b.0 → Stands terms.old terms.new names (chosen op e f g h) result }
    ensures keeps { Keeps terms.old terms.new }
{
    if terms.width(a) != terms.width(b) {
        return Err(Fault::Bad);
    }
    let made = making::choice(terms, test, a, b)?;
    Ok(made)
}

/// A number of a width, which is from 1 to 128 and which it fits.
pub(crate) fn number(terms: &mut Terms, width: u128, number: u128) -> Result<TermId, Fault>
    ensures made { (names : List (List ℕ × ℕ)) → AllStand terms.old names → Stands terms.old terms.new names (literal width number) result }
    ensures keeps { Keeps terms.old terms.new }
{
    if !is_number(width, number) {
        return Err(Fault::Bad);
    }
    let made = making::leaf(terms, TermOp::Constant(width as u8, number))?;
    Ok(made)
}

// Whether the number is below 2 to the width, which is from 1 to 128.
fn is_number(width: u128, number: u128) -> bool
    ensures { IsTrue result ↔ ((1 ≤ width) × (width ≤ 128) × (number < 2 ^ width)) }
{
    1 <= width && width <= 128 && (width == 128 || number < 1u128 << width)
}

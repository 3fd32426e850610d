// What a script's text is put together from: names, numbers and operators applied to names.
ghost use Rattle.std.specs.Prelude.{◌≡◌, ◌++◌, ◌∷◌, [], IfOk, codes, decimal};
ghost use Rattle.stk_scripts.specs.Tokens.{opening, closing, word, literal_tokens, expr_tokens};
ghost use Rattle.stk_scripts.specs.Syntax.{extend_name, literal, cut, widened, one_of, two_of, joined, chosen};
ghost use Rattle.stk_scripts.specs.Texts.{laid};
ghost use Rattle.stk_scripts.specs.declared.operators.TestOp.TheVariants as tests;
ghost use Rattle.stk_scripts.specs.declared.operators.BinaryOp.TheVariants as binary;
ghost use Rattle.stk_smtlib.specs.Written.{term_name, input_name, at, truth_of};

use itoa::Buffer;
use stk_base::NoMemory;
use stk_scripts::{
    BinaryOp, ExtendOp, TestOp, UnaryOp, binary_name, extend_name, test_name, unary_name,
};
use stk_terms::TermId;

/// Adds bytes to a text.
pub(crate) fn add(text: &mut Vec<u8>, bytes: &[u8]) -> Result<(), NoMemory>
    ensures { IfOk result (λ _. text.new.items ≡ text.old.items ++ bytes.now) }
{
    text.extend_from_slice(bytes)?;
    Ok(())
}

/// Adds a number, in decimal.
pub(crate) fn add_count(text: &mut Vec<u8>, count: u64) -> Result<(), NoMemory>
    ensures { IfOk result (λ _. text.new.items ≡ text.old.items ++ decimal count) }
{
    let mut buffer = Buffer::new();
    add(text, buffer.format(count).as_bytes())
}

/// Adds a number of at most 128 bits, in decimal.
fn add_number(text: &mut Vec<u8>, number: u128) -> Result<(), NoMemory>
    ensures { IfOk result (λ _. text.new.items ≡ text.old.items ++ decimal number) }
{
    let mut buffer = Buffer::new();
    add(text, buffer.format(number).as_bytes())
}

/// Adds the name of a term.
pub(crate) fn add_term(text: &mut Vec<u8>, id: TermId) -> Result<(), NoMemory>
    ensures { IfOk result (λ _. text.new.items ≡ text.old.items ++ term_name id.0) }
{
    add(text, b"t")?;
    add_count(text, id.0 as u64)
}

/// Adds the name of an input.
pub(crate) fn add_input(text: &mut Vec<u8>, key: u64) -> Result<(), NoMemory>
    ensures { IfOk result (λ _. text.new.items ≡ text.old.items ++ input_name key) }
{
    add(text, b"k")?;
    add_count(text, key)
}

/// Adds a number of a width.
pub(crate) fn add_literal(text: &mut Vec<u8>, width: u8, number: u128) -> Result<(), NoMemory>
    ensures { IfOk result (λ _. text.new.items ≡ text.old.items ++ laid (literal_tokens width number)) }
{
    add(text, b"(_ bv")?;
    add_number(text, number)?;
    add(text, b" ")?;
    add_count(text, u64::from(width))?;
    add(text, b")")
}

// Adds a term and the end of what it stands in.
fn add_operand(text: &mut Vec<u8>, a: TermId) -> Result<(), NoMemory>
    ensures { IfOk result (λ _. text.new.items ≡ text.old.items ++ (32 ∷ laid (word (term_name a.0) ∷ closing ∷ []))) }
{
    add(text, b" ")?;
    add_term(text, a)?;
    add(text, b")")
}

// Adds a name applied to one term.
fn add_applied(text: &mut Vec<u8>, name: &[u8], a: TermId) -> Result<(), NoMemory>
    ensures { IfOk result (λ _. text.new.items ≡ text.old.items ++ laid (opening ∷ word name.now ∷ word (term_name a.0) ∷ closing ∷ [])) }
{
    add(text, b"(")?;
    add(text, name)?;
    add_operand(text, a)
}

// Adds two terms and the end of what they stand in.
fn add_both(text: &mut Vec<u8>, a: TermId, b: TermId) -> Result<(), NoMemory>
    ensures { IfOk result (λ _. text.new.items ≡ text.old.items ++ (32 ∷ laid (word (term_name a.0) ∷ word (term_name b.0) ∷ closing ∷ []))) }
{
    add(text, b" ")?;
    add_term(text, a)?;
    add_operand(text, b)
}

// Adds a name applied to two terms.
fn add_pair(text: &mut Vec<u8>, name: &[u8], a: TermId, b: TermId) -> Result<(), NoMemory>
    ensures { IfOk result (λ _. text.new.items ≡ text.old.items ++ laid (opening ∷ word name.now ∷ word (term_name a.0) ∷ word (term_name b.0) ∷ closing ∷ [])) }
{
    add(text, b"(")?;
    add(text, name)?;
    add_both(text, a, b)
}

/// Adds an operator on one term.
pub(crate) fn add_one(text: &mut Vec<u8>, op: UnaryOp, a: TermId) -> Result<(), NoMemory>
    ensures { IfOk result (λ _. text.new.items ≡ text.old.items ++ laid (expr_tokens (one_of op (at a.0)))) }
{
    add_applied(text, unary_name(op), a)
}

/// Adds an operator on two terms.
pub(crate) fn add_two(
    text: &mut Vec<u8>,
    op: BinaryOp,
    a: TermId,
    b: TermId,
) -> Result<(), NoMemory>
    ensures { IfOk result (λ _. text.new.items ≡ text.old.items ++ laid (expr_tokens (two_of op (at a.0) (at b.0)))) }
{
    add_pair(text, binary_name(op), a, b)
}

/// Adds the bits of one term in front of those of another.
pub(crate) fn add_joined(text: &mut Vec<u8>, a: TermId, b: TermId) -> Result<(), NoMemory>
    ensures { IfOk result (λ _. text.new.items ≡ text.old.items ++ laid (expr_tokens (joined (at a.0) (at b.0)))) }
{
    add_pair(text, b"concat", a, b)
}

// Adds 1 and 0, each of one bit, and the end of what they stand in.
fn add_one_or_zero(text: &mut Vec<u8>) -> Result<(), NoMemory>
    ensures { IfOk result (λ _. text.new.items ≡ text.old.items ++ (32 ∷ laid (literal_tokens 1 1 ++ (literal_tokens 1 0 ++ closing ∷ [])))) }
{
    add(text, b" ")?;
    add_literal(text, 1, 1)?;
    add(text, b" ")?;
    add_literal(text, 1, 0)?;
    add(text, b")")
}

/// Adds a comparison as a term of width 1.
pub(crate) fn add_truth(
    text: &mut Vec<u8>,
    op: TestOp,
    a: TermId,
    b: TermId,
) -> Result<(), NoMemory>
    ensures { IfOk result (λ _. text.new.items ≡ text.old.items ++ laid (expr_tokens (truth_of op (at a.0) (at b.0)))) }
{
    add(text, b"(ite ")?;
    add_pair(text, test_name(op), a, b)?;
    add_one_or_zero(text)
}

/// Adds the test whether a term is a number.
pub(crate) fn add_is(text: &mut Vec<u8>, a: TermId, width: u8, number: u128) -> Result<(), NoMemory>
    ensures { IfOk result (λ _. text.new.items ≡ text.old.items ++ laid (opening ∷ word (codes "=") ∷ word (term_name a.0) ∷ (literal_tokens width number ++ closing ∷ []))) }
{
    add(text, b"(= ")?;
    add_term(text, a)?;
    add(text, b" ")?;
    add_literal(text, width, number)?;
    add(text, b")")
}

/// Adds the choice of one of two terms, by a term of one bit.
pub(crate) fn add_choice(
    text: &mut Vec<u8>,
    a: TermId,
    b: TermId,
    c: TermId,
) -> Result<(), NoMemory>
    ensures { IfOk result (λ _. text.new.items ≡ text.old.items ++ laid (expr_tokens (chosen tests.Equal (at a.0) (literal 1 1) (at b.0) (at c.0)))) }
{
    add(text, b"(ite ")?;
    add_is(text, a, 1, 1)?;
    add_both(text, b, c)
}

// Adds a quotient, and the end of what it stands in.
fn add_last_quotient(text: &mut Vec<u8>, a: TermId, b: TermId) -> Result<(), NoMemory>
    ensures { IfOk result (λ _. text.new.items ≡ text.old.items ++ (32 ∷ laid (expr_tokens (two_of binary.UDiv (at a.0) (at b.0)) ++ closing ∷ []))) }
{
    add(text, b" ")?;
    add_two(text, BinaryOp::UDiv, a, b)?;
    add(text, b")")
}

// Adds 0 of a width, a quotient, and the end of what they stand in.
fn add_zero_or_quotient(text: &mut Vec<u8>, width: u8, a: TermId, b: TermId) -> Result<(), NoMemory>
    ensures { IfOk result (λ _. text.new.items ≡ text.old.items ++ (32 ∷ laid (literal_tokens width 0 ++ (expr_tokens (two_of binary.UDiv (at a.0) (at b.0)) ++ closing ∷ [])))) }
{
    add(text, b" ")?;
    add_literal(text, width, 0)?;
    add_last_quotient(text, a, b)
}

/// Adds a quotient of terms of a width, which by 0 is 0.
pub(crate) fn add_quotient(
    text: &mut Vec<u8>,
    width: u8,
    a: TermId,
    b: TermId,
) -> Result<(), NoMemory>
    ensures { IfOk result (λ _. text.new.items ≡ text.old.items ++ laid (expr_tokens (chosen tests.Equal (at b.0) (literal width 0) (literal width 0) (two_of binary.UDiv (at a.0) (at b.0))))) }
{
    add(text, b"(ite ")?;
    add_is(text, b, width, 0)?;
    add_zero_or_quotient(text, width, a, b)
}

// Adds what takes the bits from a high one down to a low one.
fn add_range(text: &mut Vec<u8>, high: u64, low: u64) -> Result<(), NoMemory>
    ensures { IfOk result (λ _. text.new.items ≡ text.old.items ++ laid (opening ∷ word (codes "_") ∷ word (codes "extract") ∷ word (decimal high) ∷ word (decimal low) ∷ closing ∷ [])) }
{
    add(text, b"(_ extract ")?;
    add_count(text, high)?;
    add(text, b" ")?;
    add_count(text, low)?;
    add(text, b")")
}

/// Adds the bits of a term from a high one down to a low one.
pub(crate) fn add_cut(text: &mut Vec<u8>, high: u64, low: u64, a: TermId) -> Result<(), NoMemory>
    ensures { IfOk result (λ _. text.new.items ≡ text.old.items ++ laid (expr_tokens (cut high low (at a.0)))) }
{
    add(text, b"(")?;
    add_range(text, high, low)?;
    add_operand(text, a)
}

// Adds what puts so many bits in front.
fn add_more(text: &mut Vec<u8>, op: ExtendOp, more: u64) -> Result<(), NoMemory>
    ensures { IfOk result (λ _. text.new.items ≡ text.old.items ++ laid (opening ∷ word (codes "_") ∷ word (extend_name op) ∷ word (decimal more) ∷ closing ∷ [])) }
{
    add(text, b"(_ ")?;
    add(text, extend_name(op))?;
    add(text, b" ")?;
    add_count(text, more)?;
    add(text, b")")
}

/// Adds a term with so many more bits in front.
pub(crate) fn add_widened(
    text: &mut Vec<u8>,
    op: ExtendOp,
    more: u64,
    a: TermId,
) -> Result<(), NoMemory>
    ensures { IfOk result (λ _. text.new.items ≡ text.old.items ++ laid (expr_tokens (widened op more (at a.0)))) }
{
    add(text, b"(")?;
    add_more(text, op, more)?;
    add_operand(text, a)
}

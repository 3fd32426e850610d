//! The text of replacements.

ghost use Rattle.std.specs.Prelude.{◌≡◌, ◌++◌, ◌∷◌, [], IfOk, OnOk, map};
ghost use Rattle.stk_tree.specs.Tokens.{expression_tokens};
ghost use Rattle.stk_tree.specs.View.{view_expression};
ghost use Rattle.stk_meaning.specs.Replacements.{comparison_punctuator, replacement_text, spelled};
ghost use Rattle.stk_replacements.specs.Shown.{replaced_shown};
ghost use Rattle.stk_replacements.specs.Spaced.{each_after, each_before};

use crate::Replaced;
use crate::spelling::spelled;
use std::alloc::Global;
use stk_base::NoMemory;
use stk_numbers::CompareOp;
use stk_tree::{Expr, Fixed, spelling};
use stk_tree_walk::Printing;

// The spelling of a comparison.
fn comparison_punctuator(op: CompareOp) -> &'static [u8]
    ensures { result.now ≡ comparison_punctuator op }
{
    match op {
        CompareOp::Lt => spelling(Fixed::Less),
        CompareOp::Gt => spelling(Fixed::Greater),
        CompareOp::Le => spelling(Fixed::LessEqual),
        CompareOp::Ge => spelling(Fixed::GreaterEqual),
        CompareOp::Eq => spelling(Fixed::EqualEqual),
        CompareOp::Ne => spelling(Fixed::NotEqual),
    }
}

// Adds bytes to a text.
fn add(bytes: &[u8], out: &mut Vec<u8>) -> Result<(), NoMemory>
    ensures { OnOk result (out.new.items ≡ out.old.items ++ bytes.now) }
{
    out.extend_from_slice(bytes)?;
    Ok(())
}

// Adds a word and a space behind it.
fn add_word(word: &[u8], out: &mut Vec<u8>) -> Result<(), NoMemory>
    ensures { OnOk result (out.new.items ≡ out.old.items ++ (word.now ++ 32 ∷ [])) }
{
    add(word, out)?;
    add(b" ", out)
}

// Adds a space and a word behind it.
fn add_behind(word: &[u8], out: &mut Vec<u8>) -> Result<(), NoMemory>
    ensures { OnOk result (out.new.items ≡ out.old.items ++ 32 ∷ word.now) }
{
    add(b" ", out)?;
    add(word, out)
}

// Adds the spellings of tokens, a space behind each.
#[tactic(auto, using(crate::proofs::Adding::adds_before, crate::proofs::Adding::ends_before, crate::proofs::Alike::shrinks))]
fn add_before(bytes: &[u8], tokens: &mut Printing, out: &mut Vec<u8>) -> Result<(), NoMemory>
    ensures { OnOk result (out.new.items ≡ out.old.items ++ each_before (map (spelled bytes.now) tokens.old)) }
{
    while let Some(token) = tokens.next()? {
        add_word(spelled(bytes, token), out)?;
    }
    Ok(())
}

// Adds the spellings of tokens, a space before each.
#[tactic(auto, using(crate::proofs::Adding::adds_after, crate::proofs::Adding::ends_after, crate::proofs::Alike::shrinks))]
fn add_after(bytes: &[u8], tokens: &mut Printing, out: &mut Vec<u8>) -> Result<(), NoMemory>
    ensures { OnOk result (out.new.items ≡ out.old.items ++ each_after (map (spelled bytes.now) tokens.old)) }
{
    while let Some(token) = tokens.next()? {
        add_behind(spelled(bytes, token), out)?;
    }
    Ok(())
}

// The text of `0 op y`.
fn zero_first(alloc: Global, bytes: &[u8], op: CompareOp, kept: &Expr) -> Result<Vec<u8>, NoMemory>
    ensures { IfOk result (λ text. text.items ≡ 48 ∷ 32 ∷ comparison_punctuator op ++ each_after (map (spelled bytes.now) (expression_tokens (view_expression kept.now)))) }
{
    let mut tokens = Printing::new(alloc, kept)?;
    let mut out = Vec::new(alloc);
    add(b"0 ", &mut out)?;
    add(comparison_punctuator(op), &mut out)?;
    add_after(bytes, &mut tokens, &mut out)?;
    Ok(out)
}

// The text of `y op 0`.
fn zero_last(alloc: Global, bytes: &[u8], op: CompareOp, kept: &Expr) -> Result<Vec<u8>, NoMemory>
    ensures { IfOk result (λ text. text.items ≡ each_before (map (spelled bytes.now) (expression_tokens (view_expression kept.now))) ++ (comparison_punctuator op ++ 32 ∷ 48 ∷ [])) }
{
    let mut tokens = Printing::new(alloc, kept)?;
    let mut out = Vec::new(alloc);
    add_before(bytes, &mut tokens, &mut out)?;
    add(comparison_punctuator(op), &mut out)?;
    add(b" 0", &mut out)?;
    Ok(out)
}

/// The text of what a comparison by this operator is replaced by: the tokens of `y op 0` or of `0 op y`, for the
/// operand y that is kept, with one space between each two.
pub fn replacement_text(
    alloc: Global,
    bytes: &[u8],
    op: CompareOp,
    found: &Replaced,
) -> Result<Vec<u8>, NoMemory>
    ensures { IfOk result (λ text. text.items ≡ replacement_text bytes.now op (replaced_shown found.now)) }
{
    if found.zero_first {
        let text = zero_first(alloc, bytes, op, found.kept)?;
        Ok(text)
    } else {
        let text = zero_last(alloc, bytes, op, found.kept)?;
        Ok(text)
    }
}

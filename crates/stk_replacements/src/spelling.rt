//! How expressions are spelled.

ghost use Rattle.std.specs.Prelude.{◌≡◌, IfOk, map};
ghost use Rattle.std.specs.Cmp.Lexicographic.{pointwise};
ghost use Rattle.stk_base.specs.Text.{same_text};
ghost use Rattle.stk_tree.specs.View.{view_expression};
ghost use Rattle.stk_meaning.specs.Replacements.{spelled, spelled_alike};

use std::alloc::Global;
use stk_base::NoMemory;
use stk_tree::{Expr, Lexeme, spelling};
use stk_tree_walk::Printing;

/// The spelling of a token of an input.
pub(crate) fn spelled(bytes: &[u8], token: Lexeme) -> &[u8]
    ensures { result.now ≡ spelled bytes.now token }
{
    match token {
        Lexeme::Fixed(fixed) => spelling(fixed),
        Lexeme::Leaf(_, at) => at.text(bytes),
    }
}

// Whether two tokens have the same spelling.
fn same_spelling(bytes: &[u8], left: Lexeme, right: Lexeme) -> bool
    ensures { result ≡ same_text (spelled bytes.now left) (spelled bytes.now right) }
{
    spelled(bytes, left) == spelled(bytes, right)
}

// Whether what is left of two expressions has the same tokens, by their spelling.
#[tactic(auto, using(crate::proofs::Alike::goes_on, crate::proofs::Alike::differs, crate::proofs::Alike::shorter, crate::proofs::Alike::longer, crate::proofs::Alike::ended, crate::proofs::Alike::shrinks))]
fn same_spellings(bytes: &[u8], left: &mut Printing, right: &mut Printing) -> Result<bool, NoMemory>
    ensures { IfOk result (λ alike. alike ≡ pointwise same_text (map (spelled bytes.now) left.old) (map (spelled bytes.now) right.old)) }
{
    while let Some(token) = left.next()? {
        let Some(other) = right.next()? else {
            return Ok(false);
        };
        if !same_spelling(bytes, token, other) {
            return Ok(false);
        }
    }
    match right.next()? {
        None => Ok(true),
        Some(_) => Ok(false),
    }
}

/// Whether two expressions have the same tokens, by their spelling. It takes no longer than their tokens up to the
/// first difference do.
pub(crate) fn spelled_alike(
    alloc: Global,
    bytes: &[u8],
    left: &Expr,
    right: &Expr,
) -> Result<bool, NoMemory>
    ensures { IfOk result (λ alike. alike ≡ spelled_alike bytes.now (view_expression left.now) (view_expression right.now)) }
{
    let mut first = Printing::new(alloc, left)?;
    let mut second = Printing::new(alloc, right)?;
    same_spellings(bytes, &mut first, &mut second)
}

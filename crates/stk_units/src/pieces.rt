//! The units of a file, among its tokens.

ghost use Rattle.std.specs.Prelude.{◌≡◌, ◌≤◌, length, IfOk};
ghost use Rattle.stk_base.specs.Limits.{most_bytes};
ghost use Rattle.stk_lex.specs.Cut.{AreSpans};
ghost use Rattle.stk_lex.specs.Units.{AreJoined};
ghost use Rattle.stk_units.specs.Pieces.{body_of_piece, tokens_of_piece, IsSkimmedFrom, AreUnitsOf};

use std::alloc::Global;
use stk_base::{List, NoMemory};
use stk_lex::{Piece, Skimmed, Token, cut, lex, skim};

/// The units of an input: the tokens that skimming keeps, and where each unit's stand.
#[derive(Debug, Drop)]
pub struct Units {
    pub tokens: List<Token>,
    pub pieces: Vec<Piece>,
}

// The tokens of an input that skimming keeps, and its notes.
fn skimmed_tokens(alloc: Global, bytes: &[u8]) -> Result<Skimmed, NoMemory>
    requires { length bytes.now ≤ most_bytes }
    ensures { IfOk result (IsSkimmedFrom bytes.now) }
{
    let tokens = lex(alloc, bytes)?;
    skim(alloc, bytes, tokens.as_slice())
}

/// Cuts an input of at most 16,777,216 bytes into its units. The only refusal is want of memory.
pub fn cut_into_units(alloc: Global, bytes: &[u8]) -> Result<Units, NoMemory>
    requires { length bytes.now ≤ most_bytes }
    ensures are { IfOk result (λ units. AreUnitsOf bytes.now units.tokens units.pieces.items) }
    ensures joined { IfOk result (λ units. AreJoined 0 (length units.tokens) units.pieces.items) }
    ensures few { IfOk result (λ units. length units.tokens ≤ most_bytes) }
    ensures spans { IfOk result (λ units. AreSpans (length bytes.now) 0 units.tokens) }
{
    let skimmed = skimmed_tokens(alloc, bytes)?;
    let pieces = cut(alloc, bytes, &skimmed)?;
    let Skimmed { tokens, .. } = skimmed;
    Ok(Units { tokens, pieces })
}

/// How many tokens of a unit stand before its body, where one was found.
pub fn body_of_piece(piece: Piece) -> Option<usize>
    ensures { result ≡ body_of_piece piece }
{
    match piece.body {
        None => None,
        Some(at) => Some(at.saturating_sub(piece.from) as usize),
    }
}

/// The tokens of a unit, among those of its file.
pub fn tokens_of(tokens: &[Token], piece: Piece) -> &[Token]
    requires { (piece.from ≤ piece.to) × (piece.to ≤ length tokens.now) }
    ensures { result.now ≡ tokens_of_piece tokens.now piece }
{
    let (_, rest) = tokens.split_at(piece.from as usize);
    let (unit, _) = rest.split_at((piece.to - piece.from) as usize);
    unit
}

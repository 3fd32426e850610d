// The units of a source, read one after the other.
ghost use Rattle.std.specs.Prelude.{◌≡◌, ◌≤◌, ℕ, option_map, length, IfOk, OnErr, OnOk};
ghost use Rattle.stk_base.specs.Limits.{most_bytes};
ghost use Rattle.stk_lex.specs.Cut.{AreSpans};
ghost use Rattle.stk_lex.specs.Units.{AreJoined};
ghost use Rattle.stk_tree.specs.View.{view_unit};
ghost use Rattle.stk_type_laws.specs.Orderly.{AreOrderly};
ghost use Rattle.stk_units.specs.Pieces.{tokens_of_piece, body_of_piece};
ghost use Rattle.stk_source_audit.specs.Reading.{first_byte, IsReadAs};
ghost use Rattle.stk_source_audit.specs.Finding.{HasFound};

use std::alloc::Global;
use stk_accept::{Accepted, accept};
use stk_base::{Boxed, NoMemory};
use stk_ctype::Names;
use stk_lex::{Piece, Token};
use stk_tree::Unit;
use stk_units::{body_of_piece, tokens_of};

/// The bytes of a source and the tokens of it that skimming keeps, and where memory comes from.
#[derive(Clone, Copy)]
pub(crate) struct SourceText<'a> {
    pub alloc: Global,
    pub bytes: &'a [u8],
    pub tokens: &'a [Token],
}

/// The byte at which tokens begin; 0 of none.
fn first_byte(tokens: &[Token]) -> u32
    ensures { result ≡ first_byte tokens.now }
{
    match tokens.first() {
        Some(token) => token.span.from,
        None => 0,
    }
}

/// Reads the unit of a piece, where these names are in force, which become those that it leaves: its tree, if it is
/// accepted.
fn read_unit(
    text: &SourceText,
    piece: Piece,
    names: &mut Names,
) -> Result<Option<Boxed<Unit>>, NoMemory>
    requires within { (piece.from ≤ piece.to) × (piece.to ≤ length text.now.tokens.now) }
    requires few { length text.now.tokens.now ≤ most_bytes }
    ensures { IfOk result (λ tree. IsReadAs text.now.bytes.now piece.no_return names.old (body_of_piece piece) (tokens_of_piece text.now.tokens.now piece) (option_map view_unit tree) names.new) }
{
    let unit = tokens_of(text.tokens, piece);
    let found = accept(
        text.alloc,
        text.bytes,
        piece.no_return,
        unit,
        body_of_piece(piece),
        names,
    )?;
    match found {
        Accepted::Tree(tree) => Ok(Some(tree)),
        Accepted::Refused(_) => Ok(None),
    }
}

/// The tree of the unit that was looked for, if one begins there and is accepted, and the units that aren't read yet.
#[derive(Drop)]
pub(crate) struct FoundUnit<'a> {
    pub tree: Option<Boxed<Unit>>,
    pub rest: &'a [Piece],
}

/// Reads units up to the one that begins at a byte, if one does: those before it, and it. The names in force become
/// those that they leave. After want of memory the names are some of those that units leave.
pub(crate) fn find_unit<'a>(
    text: &SourceText,
    pieces: &'a [Piece],
    names: &mut Names,
    at: u64,
) -> Result<FoundUnit<'a>, NoMemory>
    requires joined { (from : ℕ) × AreJoined from (length text.now.tokens.now) pieces.now }
    requires few { length text.now.tokens.now ≤ most_bytes }
    requires spans { AreSpans (length text.now.bytes.now) 0 text.now.tokens.now }
    requires orderly { AreOrderly names.old }
    ensures { IfOk result (λ x. HasFound text.now.bytes.now text.now.tokens.now names.old pieces.now at (option_map view_unit x.tree) names.new x.rest.now) }
{
    let mut rest = pieces;
    while let Some((piece, behind)) = rest.split_first() {
        let begin = u64::from(first_byte(tokens_of(text.tokens, *piece)));
        if begin > at {
            return Ok(FoundUnit { tree: None, rest });
        }
        let tree = read_unit(text, *piece, names)?;
        rest = behind;
        if begin == at {
            return Ok(FoundUnit { tree, rest });
        }
    }
    Ok(FoundUnit { tree: None, rest })
}

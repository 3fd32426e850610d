//! What the tests of all readers share: the tokens of a text, the names that they are read with, and texts that are put
//! together.
ghost use Rattle.std.specs.Prelude.{◌≤◌, IfOk, length};
ghost use Rattle.stk_base.specs.Limits.{most_bytes};

use std::alloc::Global;
use stk_base::{List, NoMemory};
use stk_ctype::{CType, IntKind, NameEntry, Names, Symbol};
use stk_lex::{Skimmed, Token, lex, skim};

/// The tokens of a text; none of one that is too long.
pub(crate) fn tokens(alloc: Global, text: &[u8]) -> Result<Vec<Token>, NoMemory>
    ensures { IfOk result (λ tokens. length tokens.items ≤ most_bytes) }
{
    if text.len() > 16_777_216 {
        return Ok(Vec::new(alloc));
    }
    lex(alloc, text)
}

/// What skimming leaves of a text; nothing of one that is too long.
pub(crate) fn skimmed(alloc: Global, text: &[u8]) -> Result<Skimmed, NoMemory>
    ensures { IfOk result (λ skimmed. length skimmed.tokens ≤ most_bytes) }
{
    let tokens = tokens(alloc, text)?;
    skim(alloc, text, tokens.as_slice())
}

/// The names with the typedef name `T` alone.
pub(crate) fn names(alloc: Global) -> Result<Names, NoMemory> {
    let mut names = Names::new(alloc);
    let name = List::from_vec([b'T'].to_vec(alloc)?);
    let symbol = Symbol::TypeDef(CType::Int(IntKind::Int));
    names.add(NameEntry::Symbol { name, symbol })?;
    Ok(names)
}

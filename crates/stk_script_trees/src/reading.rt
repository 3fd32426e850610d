//! Reading scripts.

ghost use Rattle.std.specs.Prelude.{◌≡◌, ◌≤◌, IfOk, length};
ghost use Rattle.stk_scripts.specs.Lexing.{between, lexed};
ghost use Rattle.stk_scripts.specs.Scripts.{IsScript};
ghost use Rattle.stk_scripts.specs.Shown.{tokens_shown};
ghost use Rattle.stk_scripts.specs.Syntax.{Script as Scripted};
ghost use Rattle.stk_scripts.specs.Texts.{Spells};
ghost use Rattle.stk_scripts.specs.Tokens.{script_tokens};
ghost use Rattle.stk_script_trees.specs.Commands.{read_behind, read_text, read_tokens};
ghost use Rattle.stk_script_trees.specs.Gives.{Gives, IsBad};
ghost use Rattle.stk_script_trees.specs.Shallow.{IsShallow};
ghost use Rattle.stk_script_trees.specs.View.{view_script};

use crate::commands::{assertion, declarations, definitions, ends, logic};
use crate::fault::Fault;
use crate::tree::Script;
use std::alloc::Global;
use stk_scripts::{Token, lex};

/// How deep a term nests at most, a comparison counted.
const MOST_DEPTH: usize = 400;

// The script behind its logic.
fn behind(
    alloc: Global,
    bytes: &[u8],
    most: usize,
    has_logic: bool,
    tokens: &[Token],
) -> Result<Script, Fault>
    ensures { Gives (view_script bytes.now) result (read_behind most has_logic (tokens_shown bytes.now tokens.now)) }
{
    let declared = declarations(alloc, bytes, tokens)?;
    let defined = definitions(alloc, bytes, most, declared.rest)?;
    let asserted = assertion(alloc, bytes, most, defined.rest)?;
    if !ends(bytes, asserted.rest) {
        return Err(Fault::Bad);
    }
    Ok(Script {
        has_logic,
        declared: declared.list,
        defined: defined.list,
        test: asserted.test,
    })
}

// The script that tokens are.
fn script_of(alloc: Global, bytes: &[u8], most: usize, tokens: &[Token]) -> Result<Script, Fault>
    ensures { Gives (view_script bytes.now) result (read_tokens most (tokens_shown bytes.now tokens.now)) }
{
    match logic(bytes, tokens) {
        Some(rest) => behind(alloc, bytes, most, true, rest),
        None => behind(alloc, bytes, most, false, tokens),
    }
}

// The tokens of a text.
fn tokens_of(alloc: Global, bytes: &[u8]) -> Result<Vec<Token>, Fault>
    requires { length bytes.now ≤ 4294967295 }
    ensures { Gives (λ v. tokens_shown bytes.now v.items) result (lexed bytes.now between) }
{
    match lex(alloc, bytes)? {
        Some(tokens) => Ok(tokens),
        None => Err(Fault::Bad),
    }
}

// The script that the tokens of a text are.
fn read_text(alloc: Global, bytes: &[u8]) -> Result<Script, Fault>
    requires { length bytes.now ≤ 4294967295 }
    ensures { Gives (view_script bytes.now) result (read_text 400 bytes.now) }
{
    let tokens = tokens_of(alloc, bytes)?;
    script_of(alloc, bytes, MOST_DEPTH, tokens.as_slice())
}

/// The script that a text of at most 2^32 - 1 bytes spells (SMT-LIB 2.6, section 3), with any blanks and comments; the
/// logic may be left out, and is QF_BV else. Names are as they stand in the text, so the tree belongs to the text.
/// Whether widths fit and names are new isn't asked here. It takes time linear in the text, and calls itself at most
/// 400 deep. `Bad` comes where the text is no well-formed script.
pub fn parse(alloc: Global, bytes: &[u8]) -> Result<Script, Fault>
    requires { length bytes.now ≤ 4294967295 }
    ensures spelled { IfOk result (λ tree. Spells (script_tokens (view_script bytes.now tree)) bytes.now) }
    ensures shallow { IfOk result (λ tree. IsShallow 400 (view_script bytes.now tree)) }
    ensures only { IfOk result (λ tree. (s : Scripted) → IsScript bytes.now s → s ≡ view_script bytes.now tree) }
    ensures bad { IsBad result → (s : Scripted) → IsScript bytes.now s → ⊥ }
{
    read_text(alloc, bytes)
}

// What skimming drops at the front of some tokens.

ghost use Rattle.std.specs.Prelude.{◌≡◌, ◌≤◌, ◌<◌, ◌+◌, ◌^◌, ◌++◌, length, ◌∷◌, take, OnOk};
ghost use Rattle.std.specs.List.{list_any};
ghost use Rattle.stk_base.specs.Limits.{most_bytes};
ghost use Rattle.stk_lex.specs.Spelled.{is_changing_word, is_no_return_word};
ghost use Rattle.stk_lex.specs.Skimming.{closing, group, drops_group, dropped, says_no_return, note_of};
ghost use Rattle.stk_lex.specs.Ahead.{AreFound, unchanged};

use crate::Token;
use crate::ahead::one_more;
use crate::spelled::{
    is_assembly_word, is_attribute_word, is_changing_word, is_dropped_word, is_no_return_word,
    is_noreturn_specifier, opens_parenthesis,
};
use stk_base::NoMemory;

/// The same as `group`, of a token and those behind it.
#[tactic(auto, unfolding(crate::specs::Skimming::group))]
fn group_from(bytes: &[u8], token: Token, behind: &[Token], ends: &[u32]) -> u32
    requires few { length behind.now ≤ most_bytes }
    requires ends { AreFound (closing bytes.now 1) behind.now ends.now }
    ensures { result ≡ group bytes.now (token ∷ behind.now) }
{
    if opens_parenthesis(bytes, token) {
        one_more(ends[behind.len()])
    } else {
        0
    }
}

/// How many tokens the group has that a `(` begins at the front; 0 where none does, or it doesn't end.
#[tactic(auto, unfolding(crate::specs::Skimming::group), using(crate::proofs::Found::found_behind))]
fn group(bytes: &[u8], tokens: &[Token], ends: &[u32]) -> u32
    requires few { length tokens.now ≤ most_bytes }
    requires ends { AreFound (closing bytes.now 1) tokens.now ends.now }
    ensures { result ≡ group bytes.now tokens.now }
{
    match tokens.split_first() {
        Some((token, behind)) => group_from(bytes, *token, behind, ends),
        None => 0,
    }
}

/// Whether the group at the front holds an attribute that changes what is declared.
fn is_changed(bytes: &[u8], tokens: &[Token], ends: &[u32], changes: &[u32]) -> bool
    requires few { length tokens.now ≤ most_bytes }
    requires ends { AreFound (closing bytes.now 1) tokens.now ends.now }
    requires changes { AreFound (unchanged bytes.now) tokens.now changes.now }
    ensures { result ≡ list_any (is_changing_word bytes.now) (take (group bytes.now tokens.now) tokens.now) }
{
    changes[tokens.len()] < group(bytes, tokens, ends)
}

/// Whether a word drops the group behind it.
fn drops_group(
    bytes: &[u8],
    depth: u32,
    token: Token,
    behind: &[Token],
    ends: &[u32],
    changes: &[u32],
) -> bool
    requires few { length behind.now ≤ most_bytes }
    requires ends { AreFound (closing bytes.now 1) behind.now ends.now }
    requires changes { AreFound (unchanged bytes.now) behind.now changes.now }
    ensures { result ≡ drops_group bytes.now depth token behind.now }
{
    is_attribute_word(bytes, token) && !is_changed(bytes, behind, ends, changes)
        || depth == 0 && is_assembly_word(bytes, token)
}

/// How many tokens are dropped of a token and those behind it; 0 where the token is kept.
#[tactic(auto, unfolding(crate::specs::Skimming::dropped))]
pub(crate) fn dropped(
    bytes: &[u8],
    depth: u32,
    token: Token,
    behind: &[Token],
    ends: &[u32],
    changes: &[u32],
) -> u32
    requires few { length behind.now ≤ most_bytes }
    requires ends { AreFound (closing bytes.now 1) behind.now ends.now }
    requires changes { AreFound (unchanged bytes.now) behind.now changes.now }
    ensures { result ≡ dropped bytes.now depth (token ∷ behind.now) }
{
    if is_dropped_word(bytes, token) {
        1
    } else if drops_group(bytes, depth, token, behind, ends, changes) {
        one_more(group(bytes, behind, ends))
    } else {
        0
    }
}

/// Whether dropped tokens say that a function doesn't return.
#[tactic(auto, unfolding(crate::specs::Skimming::says_no_return))]
fn says_no_return(bytes: &[u8], tokens: &[Token]) -> bool
    ensures { result ≡ says_no_return bytes.now tokens.now }
{
    match tokens.split_first() {
        Some((token, behind)) => {
            is_noreturn_specifier(bytes, *token)
                || is_attribute_word(bytes, *token) && any_no_return_word(bytes, behind)
        }
        None => false,
    }
}

/// Whether one of these tokens is the attribute of a function that doesn't return.
fn any_no_return_word(bytes: &[u8], tokens: &[Token]) -> bool
    ensures { result ≡ list_any (is_no_return_word bytes.now) tokens.now }
{
    tokens.iter().any(|token| is_no_return_word(bytes, *token))
}

/// Adds the note of dropped tokens, if there is one.
#[tactic(auto, unfolding(crate::specs::Skimming::note_of))]
pub(crate) fn add_note(
    notes: &mut Vec<u32>,
    bytes: &[u8],
    depth: u32,
    tokens: &[Token],
) -> Result<(), NoMemory>
    ensures { OnOk result (notes.new.items ≡ notes.old.items ++ note_of bytes.now depth tokens.now) }
{
    let Some((token, _)) = tokens.split_first() else {
        return Ok(());
    };
    if depth == 0 && says_no_return(bytes, tokens) {
        notes.push(token.span.from)?;
    }
    Ok(())
}

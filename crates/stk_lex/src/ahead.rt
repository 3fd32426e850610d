// What is known of the tokens ahead of each token, found in one pass from the last token to the first.

ghost use Rattle.std.specs.Prelude.{◌≡◌, ◌≤◌, ◌<◌, ◌+◌, ◌-◌, ◌^◌, length, ◌∷◌, drop, IfOk, List};
ghost use Rattle.stk_base.specs.Limits.{most_bytes};
ghost use Rattle.stk_lex.specs.declared.token.Token.{Token};
ghost use Rattle.stk_lex.specs.Skimming.{closing};
ghost use Rattle.stk_lex.specs.Gaps.{one_more};
ghost use Rattle.stk_lex.specs.Ahead.{AreFound, unchanged, both};

use crate::Token;
use crate::spelled::{closes, is_changing_word, opens};
use std::alloc::Global;
use stk_base::NoMemory;

/// One more, where there is something.
pub(crate) fn one_more(n: u32) -> u32
    requires { n + 1 < 2 ^ 32 }
    ensures { result ≡ one_more n }
{
    if n == 0 { 0 } else { n + 1 }
}

/// One more than both numbers together, if each is there.
fn one_more_than_both(inner: u32, outer: u32) -> u32
    requires { inner + outer + 1 < 2 ^ 32 }
    ensures { result ≡ one_more (both inner outer) }
{
    if inner == 0 || outer == 0 {
        0
    } else {
        inner + outer + 1
    }
}

/// How many tokens stand up to where a bracket closes that is open before a token and those behind it, from the entries
/// of those behind it; 0 where none does.
fn closing_with(bytes: &[u8], token: Token, behind: &[Token], ends: &[u32]) -> u32
    requires few { length behind.now ≤ most_bytes }
    requires ends { AreFound (closing bytes.now 1) behind.now ends.now }
    ensures { result ≡ closing bytes.now 1 (token ∷ behind.now) }
{
    let inner = ends[behind.len()];
    if opens(bytes, token) {
        return one_more_than_both(inner, ends[behind.len() - inner as usize]);
    }
    if closes(bytes, token) {
        return 1;
    }
    one_more(inner)
}

/// For each number of tokens that are left, from 0 up to all of them, how many of them stand up to where a bracket
/// closes that is open before them, and with it; 0 where none does.
pub(crate) fn closings(alloc: Global, bytes: &[u8], tokens: &[Token]) -> Result<Vec<u32>, NoMemory>
    requires { length tokens.now ≤ most_bytes }
    ensures { IfOk result (λ ends. AreFound (closing bytes.now 1) tokens.now ends.items) }
{
    let mut ends = Vec::with_capacity(alloc, tokens.len() + 1)?;
    ends.push(0)?;
    let mut at = tokens.len();
    while at > 0 {
        let (_, behind) = tokens.split_at(at);
        at -= 1;
        let end = closing_with(bytes, tokens[at], behind, &ends);
        ends.push(end)?;
    }
    Ok(ends)
}

/// How many tokens stand before the first attribute that changes what is declared, of a token and those behind it, from
/// their number behind it.
#[tactic(auto, unfolding(crate::specs::Ahead::unchanged))]
fn unchanged_with(bytes: &[u8], token: Token, last: u32) -> u32
    requires { last + 1 < 2 ^ 32 }
    ensures { (ts : List Token) → last ≡ unchanged bytes.now ts → result ≡ unchanged bytes.now (token ∷ ts) }
{
    if is_changing_word(bytes, token) {
        0
    } else {
        last + 1
    }
}

/// For each number of tokens that are left, from 0 up to all of them, how many of them stand before the first attribute
/// that changes what is declared.
pub(crate) fn changes(alloc: Global, bytes: &[u8], tokens: &[Token]) -> Result<Vec<u32>, NoMemory>
    requires { length tokens.now ≤ most_bytes }
    ensures { IfOk result (λ changes. AreFound (unchanged bytes.now) tokens.now changes.items) }
{
    let mut changes = Vec::with_capacity(alloc, tokens.len() + 1)?;
    changes.push(0)?;
    let mut at = tokens.len();
    let mut last: u32 = 0;
    while at > 0 {
        at -= 1;
        last = unchanged_with(bytes, tokens[at], last);
        changes.push(last)?;
    }
    Ok(changes)
}

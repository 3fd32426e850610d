// An index of a text, for the places of many of its bytes.

ghost use Rattle.std.specs.Prelude.{◌≡◌, ◌≤◌, length, IfOk};
ghost use Rattle.stk_base.specs.Limits.{most_bytes};
ghost use Rattle.stk_lex.specs.Place.{IsPlace};
ghost use Rattle.stk_lex.specs.Placing.{place_of};

use crate::gaps::is_blank;
use crate::placing::{Stand, first_stand, place_from, step};
use std::alloc::Global;
use std::marker::Model;
use stk_base::{NoMemory, Place};

/// How many bytes there are at least between two stands that the index keeps.
const STRIDE: usize = 64;

/// The places of one text. Contracts see the text.
///
/// It keeps a stand for each 64 bytes, and one behind a `#` that has 64 blanks before it, so it is small beside the
/// text. An answer for the beginning of a token reads at most 64 bytes, from the last stand before it.
#[derive(Debug, Drop)]
pub struct Places<'a> {
    bytes: &'a [u8],
    stands: Vec<Stand>,
}

impl<'a> Model for Places<'a> {
    ghost use Rattle.std.specs.Prelude.{◌≤◌, ℕ, List, length};
    ghost use Rattle.std.specs.List.{All};
    ghost use Rattle.stk_base.specs.Limits.{most_bytes};
    ghost use Rattle.stk_lex.specs.Stands.{IsStand};

    ghost Value = { List ℕ };

    ghost view = { λ p. p.bytes.now };

    ghost invariant = { λ p. (length p.bytes.now ≤ most_bytes) × All (IsStand p.bytes.now) p.stands.items };
}

/// Whether a stand is kept: behind a `#` that looks far back, or a stride behind the last one.
fn is_kept(far: bool, at: usize, kept: usize) -> bool {
    far || at.saturating_sub(kept) >= STRIDE
}

/// Whether a byte is a `#` with so many blanks before it that an answer should not look back over them.
fn is_far(b: u8, blanks: usize) -> bool {
    b == b'#' && blanks >= STRIDE
}

/// How many blanks stand in a row, with this byte.
fn blanks_with(b: u8, blanks: usize) -> usize {
    if is_blank(b) {
        blanks.saturating_add(1)
    } else {
        0
    }
}

impl<'a> Places<'a> {
    /// The index of a text of at most 16,777,216 bytes, which is read once.
    pub fn new(alloc: Global, bytes: &'a [u8]) -> Result<Places<'a>, NoMemory>
        requires { length bytes.now ≤ most_bytes }
        ensures { IfOk result (λ places. places ≡ bytes.now) }
    {
        let mut stands = Vec::new(alloc);
        let mut stand = first_stand(bytes);
        let mut kept = 0;
        let mut blanks: usize = 0;
        let mut far = false;
        while stand.at < bytes.len() {
            if is_kept(far, stand.at, kept) {
                stands.push(stand)?;
                kept = stand.at;
            }
            far = is_far(bytes[stand.at], blanks);
            blanks = blanks_with(bytes[stand.at], blanks);
            stand = step(bytes, stand);
        }
        Ok(Places { bytes, stands })
    }

    /// The text.
    pub fn bytes(&self) -> &'a [u8]
        ensures { result.now ≡ self.now }
    {
        self.bytes
    }

    /// Where a byte stands in its source file, or where the text ends: what `place` answers for this text. It takes no
    /// memory.
    pub fn place(&self, at: usize) -> Place
        requires { at ≤ length self.now }
        ensures is { IsPlace self.now at result }
        ensures value { result ≡ place_of self.now at }
    {
        let before = self.stands.partition_point(|stand| stand.at <= at);
        let last = match self.stands.get(before.saturating_sub(1)) {
            Some(stand) => *stand,
            None => first_stand(self.bytes),
        };
        if last.at > at {
            return place_from(self.bytes, first_stand(self.bytes), at);
        }
        place_from(self.bytes, last, at)
    }
}

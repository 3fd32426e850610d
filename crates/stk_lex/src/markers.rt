// The line markers that preprocessors leave, `# 12 "file.c"`.

ghost use Rattle.std.specs.Prelude.{◌≡◌, ℕ, ◌+◌, ◌≤◌, ◌<◌, ◌^◌, length, take, drop, true, IfSome, IfNone};
ghost use Rattle.std.specs.List.{list_all};
ghost use Rattle.std.specs.Char.{is_ascii_digit};
ghost use Rattle.stk_base.specs.Limits.{most_bytes};
ghost use Rattle.stk_base.specs.Text.{decimal, decimal_behind};
ghost use Rattle.stk_lex.specs.declared.markers.Marker.{Marker};
ghost use Rattle.stk_lex.specs.Marker.{is_space};
ghost use Rattle.stk_lex.specs.MarkerReading.{run, marker_of};
ghost use Rattle.stk_lex.specs.Gaps.{gap};
ghost use Rattle.stk_lex.specs.Place.{PartBegins, MarkerStands};

use crate::gaps::{begins, gap};
use crate::scan::closing;

/// A line marker: the number of the line after it, and where the name of its file stands, counted from its `#`.
#[derive(Clone, Copy, Debug)]
pub struct Marker {
    pub number: u32,
    pub from: usize,
    pub to: usize,
}

fn is_space(b: u8) -> bool
    ensures { result ≡ is_space b }
{
    b == b' ' || b == b'\t'
}

/// How many spaces and tabs stand at the front.
#[tactic(auto, unfolding(crate::specs::MarkerReading::run))]
fn spaces(bytes: &[u8]) -> usize
    ensures within { result ≤ length bytes.now }
    ensures value { result ≡ run is_space bytes.now }
{
    let mut n = 0;
    let mut rest = bytes;
    while let Some((b, behind)) = rest.split_first() {
        if !is_space(*b) {
            return n;
        }
        n += 1;
        rest = behind;
    }
    n
}

/// How many digits stand at the front.
#[tactic(auto, unfolding(crate::specs::MarkerReading::run))]
fn digits(bytes: &[u8]) -> usize
    ensures within { result ≤ length bytes.now }
    ensures value { result ≡ run is_ascii_digit bytes.now }
{
    let mut n = 0;
    let mut rest = bytes;
    while let Some((b, behind)) = rest.split_first() {
        if !b.is_ascii_digit() {
            return n;
        }
        n += 1;
        rest = behind;
    }
    n
}

/// The number that at most nine digits make.
fn number(digits: &[u8]) -> u32
    requires few { length digits.now ≤ 9 }
    requires digits { list_all is_ascii_digit digits.now ≡ true }
    ensures value { result ≡ decimal digits.now }
    ensures bound { result < 1000000000 }
{
    let mut so_far: u32 = 0;
    let mut bound: u32 = 1;
    let mut rest = digits;
    while let Some((b, behind)) = rest.split_first() {
        so_far = so_far * 10 + u32::from(*b - b'0');
        bound *= 10;
        rest = behind;
    }
    prove!(so_far < bound);
    so_far
}

/// The line marker that a directive line is, if it is one, from what stands behind its `#`.
#[tactic(auto, unfolding(crate::specs::MarkerReading::marker_of))]
fn marker_of(bytes: &[u8]) -> Option<Marker>
    requires short { length bytes.now ≤ most_bytes }
    ensures value { result ≡ marker_of bytes.now }
    ensures within { IfSome result (λ m. (m.from ≤ m.to) × (m.to ≤ length bytes.now + 1)) }
    ensures bound { IfSome result (λ m. m.number < 1000000000) }
{
    let front = spaces(bytes);
    let (_, rest) = bytes.split_at(front);
    let count = digits(rest);
    let (shown, rest) = rest.split_at(count);
    let back = spaces(rest);
    let (_, rest) = rest.split_at(back);
    if front == 0 || count == 0 || count > 9 || back == 0 || !begins(b'"', rest) {
        return None;
    }
    let end = closing(b'"', &rest[1..]);
    if end == 0 {
        return None;
    }
    let before = front + count + back;
    Some(Marker {
        number: number(shown),
        from: before + 2,
        to: before + 1 + end,
    })
}

/// The line marker that stands at a place where a part begins, if one does.
pub(crate) fn marker_at(bytes: &[u8], at: usize) -> Option<Marker>
    requires short { length bytes.now ≤ most_bytes }
    requires within { at ≤ length bytes.now }
    requires part { PartBegins bytes.now at }
    ensures some { IfSome result (λ m. MarkerStands bytes.now at m) }
    ensures none { IfNone result ((m : Marker) → MarkerStands bytes.now at m → ⊥) }
    ensures bound { IfSome result (λ m. m.number < 1000000000) }
    ensures name { IfSome result (λ m. (m.from ≤ m.to) × (m.to ≤ gap bytes.now at)) }
{
    let n = gap(bytes, at);
    let (_, rest) = bytes.split_at(at);
    if n == 0 || n == rest.len() || !begins(b'#', rest) {
        return None;
    }
    let (line, _) = rest.split_at(n);
    marker_of(&line[1..])
}

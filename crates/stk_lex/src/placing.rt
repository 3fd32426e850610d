// Where bytes stand in their source files.

ghost use Rattle.std.specs.Prelude.{◌≡◌, ℕ, ◌+◌, ◌-◌, ◌≤◌, ◌<◌, ◌^◌, length, List, Some};
ghost use Rattle.stk_base.specs.Limits.{most_bytes};
ghost use Rattle.stk_base.specs.declared.token.Place.{Place};
ghost use Rattle.stk_lex.specs.Gaps.{gap};
ghost use Rattle.stk_lex.specs.Place.{IsPart, MarkerStands, NoMarker, IsPlace, name_of};
ghost use Rattle.stk_lex.specs.Placing.{place_of};
ghost use Rattle.stk_lex.specs.Stands.{IsLine, IsStand};

use crate::gaps::gap;
use crate::lexing::first;
use crate::markers::{Marker, marker_at};
use stk_base::{Place, Span};

/// The line at a place: the span of its file's name, its number, and where it begins.
#[derive(Clone, Copy, Debug)]
pub struct Line {
    pub file: Option<Span>,
    pub number: u32,
    pub start: usize,
}

/// A place where a part of the text begins, with its line.
#[derive(Clone, Copy, Debug)]
pub struct Stand {
    pub at: usize,
    pub line: Line,
}

/// How long the part is that begins at a place: a gap, or else a token.
fn part(bytes: &[u8], at: usize) -> usize
    requires { at < length bytes.now }
    ensures within { (0 < result) × (at + result ≤ length bytes.now) }
    ensures part { IsPart bytes.now at result }
{
    let n = gap(bytes, at);
    if n > 0 {
        return n;
    }
    let (_, rest) = bytes.split_at(at);
    let (_, n) = first(rest);
    n
}

/// The line one byte on.
fn next_line(bytes: &[u8], line: Line, at: usize) -> Line
    requires short { length bytes.now ≤ most_bytes }
    requires within { at < length bytes.now }
    requires line { IsLine bytes.now at line }
    requires none { NoMarker bytes.now at (at + 1) }
    ensures { IsLine bytes.now (at + 1) result }
{
    if bytes[at] == b'\n' {
        Line {
            file: line.file,
            number: line.number + 1,
            start: at + 1,
        }
    } else {
        line
    }
}

/// The line at a place, from the one at an earlier place, where no marker comes between.
fn along(bytes: &[u8], line: Line, from: usize, to: usize) -> Line
    requires short { length bytes.now ≤ most_bytes }
    requires within { (from ≤ to) × (to ≤ length bytes.now) }
    requires line { IsLine bytes.now from line }
    requires none { NoMarker bytes.now from to }
    ensures { IsLine bytes.now to result }
{
    let mut at = from;
    let mut here = line;
    while at < to {
        here = next_line(bytes, here, at);
        at += 1;
    }
    here
}

/// The line behind a marker's line.
fn line_behind(marker: Marker, at: usize, start: usize) -> Line
    requires { (at + marker.to < 2 ^ 32) × (marker.from ≤ marker.to) }
    ensures { result ≡ record { file = Some (name_of at marker); number = marker.number; start = start } }
{
    let from = (at + marker.from) as u32;
    let to = (at + marker.to) as u32;
    Line {
        file: Some(Span { from, to }),
        number: marker.number,
        start,
    }
}

/// The stand behind the next part, or behind the next part and the newline where that is a marker.
pub(crate) fn step(bytes: &[u8], stand: Stand) -> Stand
    requires short { length bytes.now ≤ most_bytes }
    requires stand { IsStand bytes.now stand }
    requires more { stand.at < length bytes.now }
    ensures stand { IsStand bytes.now result }
    ensures further { stand.at < result.at }
    ensures between { NoMarker bytes.now stand.at (result.at - 1) }
{
    let end = stand.at + part(bytes, stand.at);
    match marker_at(bytes, stand.at) {
        Some(marker) => Stand {
            at: end + 1,
            line: line_behind(marker, stand.at, end + 1),
        },
        None => Stand {
            at: end,
            line: along(bytes, stand.line, stand.at, end),
        },
    }
}

/// The last stand that is reached up to a place, from an earlier stand.
fn reach(bytes: &[u8], from: Stand, at: usize) -> Stand
    requires short { length bytes.now ≤ most_bytes }
    requires stand { IsStand bytes.now from }
    requires within { (from.at ≤ at) × (at ≤ length bytes.now) }
    ensures stand { IsStand bytes.now result }
    ensures before { result.at ≤ at }
    ensures between { NoMarker bytes.now result.at at }
{
    let mut stand = from;
    while stand.at < at {
        let next = step(bytes, stand);
        if next.at > at {
            return stand;
        }
        stand = next;
    }
    stand
}

/// The stand at the first byte.
pub(crate) fn first_stand(bytes: &[u8]) -> Stand
    ensures stand { IsStand bytes.now result }
    ensures start { result.at ≡ 0 }
{
    let line = Line {
        file: None,
        number: 1,
        start: 0,
    };
    Stand { at: 0, line }
}

/// The place of a byte, behind an earlier stand.
fn place_behind(bytes: &[u8], from: Stand, at: usize) -> Place
    requires short { length bytes.now ≤ most_bytes }
    requires stand { IsStand bytes.now from }
    requires within { (from.at ≤ at) × (at ≤ length bytes.now) }
    ensures { IsPlace bytes.now at result }
{
    let stand = reach(bytes, from, at);
    let line = along(bytes, stand.line, stand.at, at);
    Place {
        file: line.file,
        line: line.number,
        column: (at - line.start + 1) as u32,
    }
}

/// The place of a byte, from an earlier stand.
pub(crate) fn place_from(bytes: &[u8], from: Stand, at: usize) -> Place
    requires short { length bytes.now ≤ most_bytes }
    requires stand { IsStand bytes.now from }
    requires within { (from.at ≤ at) × (at ≤ length bytes.now) }
    ensures is { IsPlace bytes.now at result }
    ensures value { result ≡ place_of bytes.now at }
{
    place_behind(bytes, from, at)
}

/// Where a byte of a text of at most 16,777,216 bytes stands in its source file, or where the text ends.
///
/// A line marker is a directive line (C11 6.10) of spaces or tabs, one to nine digits, spaces or tabs, a name in double
/// quotes, and anything. A `#` line inside a comment is none. The line after it has the marker's number, in the file of
/// this name, whose span goes from one quote to the other. Before the first marker there is no file, and the first line
/// is 1. A column is 1 more than the number of bytes before the place on its line.
///
/// It reads the text from its first byte and takes no memory; `Places` answers for many places of one text.
pub fn place(bytes: &[u8], at: usize) -> Place
    requires short { length bytes.now ≤ most_bytes }
    requires within { at ≤ length bytes.now }
    ensures is { IsPlace bytes.now at result }
    ensures value { result ≡ place_of bytes.now at }
{
    place_from(bytes, first_stand(bytes), at)
}

/// A byte of a text has one place: with the clause of `place`, its answer is the definition.
pub fn one_place()
    ensures { (text : List ℕ) (at : ℕ) (p q : Place) → IsPlace text at p → IsPlace text at q → p ≡ q }
{}

/// Each byte of a text has a place, and so has the text's end. It is the one that is read from left to right.
pub fn place_of_each_byte()
    ensures { (text : List ℕ) (at : ℕ) → at ≤ length text → IsPlace text at (place_of text at) }
{}

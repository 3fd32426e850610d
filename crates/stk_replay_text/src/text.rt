//! The text of lines.

ghost use Rattle.std.specs.Prelude.{◌≡◌, ◌++◌, IfOk};
ghost use Rattle.stk_records.specs.Text.{spot_text};
ghost use Rattle.stk_replay_text.specs.Text.{truth_text, replaced_text, seen_text, hit_text, line_text, lines_text};

use crate::ReplayLine;
use stk_base::NoMemory;
use stk_records::{Claim, Spot, add_claim, add_spot, kind_text};

// How a truth is printed.
fn truth_text(truth: bool) -> &'static [u8]
    ensures { result.now ≡ truth_text truth }
{
    if truth { b"true" } else { b"false" }
}

// Adds the truth of a replacement, where there is one.
fn add_replaced(text: &mut Vec<u8>, replaced: Option<bool>) -> Result<(), NoMemory>
    ensures { IfOk result (λ _. text.new.items ≡ text.old.items ++ replaced_text replaced) }
{
    if let Some(truth) = replaced {
        text.extend_from_slice(b", replacement ")?;
        text.extend_from_slice(truth_text(truth))?;
    }
    Ok(())
}

// Adds what is seen of a node.
fn add_seen(
    text: &mut Vec<u8>,
    at: &Spot,
    truth: bool,
    replaced: Option<bool>,
) -> Result<(), NoMemory>
    ensures { IfOk result (λ _. text.new.items ≡ text.old.items ++ seen_text at.now truth replaced) }
{
    add_spot(text, at)?;
    text.extend_from_slice(b": seen ")?;
    text.extend_from_slice(truth_text(truth))?;
    add_replaced(text, replaced)
}

// Adds a candidate that is hit.
fn add_hit(text: &mut Vec<u8>, at: &Spot, claim: &Claim) -> Result<(), NoMemory>
    ensures { IfOk result (λ _. text.new.items ≡ text.old.items ++ hit_text at.now claim.now) }
{
    text.extend_from_slice(b"hits ")?;
    add_claim(text, claim)?;
    text.extend_from_slice(b" at ")?;
    add_spot(text, at)
}

// Adds a place, and words behind it.
fn add_placed(text: &mut Vec<u8>, at: &Spot, word: &[u8], more: &[u8]) -> Result<(), NoMemory>
    ensures { IfOk result (λ _. text.new.items ≡ text.old.items ++ (spot_text at.now ++ word.now ++ more.now)) }
{
    add_spot(text, at)?;
    text.extend_from_slice(word)?;
    text.extend_from_slice(more)?;
    Ok(())
}

// Adds a line without its newline.
fn add_content(text: &mut Vec<u8>, line: &ReplayLine) -> Result<(), NoMemory>
    ensures { IfOk result (λ _. text.new.items ≡ text.old.items ++ line_text line.now) }
{
    match line {
        ReplayLine::Violated { at, kind } => add_placed(text, at, b": ub ", kind_text(*kind))?,
        ReplayLine::Entered { at } => add_placed(text, at, b": enter", b"")?,
        ReplayLine::Seen {
            at,
            truth,
            replaced,
        } => add_seen(text, at, *truth, *replaced)?,
        ReplayLine::Hit { at, claim } => add_hit(text, at, claim)?,
        ReplayLine::Fell => text.extend_from_slice(b"end: fell")?,
        ReplayLine::Returned => text.extend_from_slice(b"end: returned")?,
        ReplayLine::Cut => text.extend_from_slice(b"end: cut")?,
    }
    Ok(())
}

/// Adds the text of lines, each with its newline. After `NoMemory` the text is of no use.
pub fn add_lines(text: &mut Vec<u8>, lines: &[ReplayLine]) -> Result<(), NoMemory>
    ensures { IfOk result (λ _. text.new.items ≡ text.old.items ++ lines_text lines.now) }
{
    for line in lines {
        add_content(text, line)?;
        text.push(b'\n')?;
    }
    Ok(())
}

//! Lines as JSON.

ghost use Rattle.std.specs.Prelude.{◌≡◌, ◌++◌, IfOk, OnOk, codes};
ghost use Rattle.std.specs.String.{string_bytes};
ghost use Rattle.serde_json.specs.Data.{object};
ghost use Rattle.serde_json.specs.Written.{compact_text};
ghost use Rattle.serde_json.specs.View.{view, members_view};
ghost use Rattle.stk_records.specs.Json.{replaced_members, fragment_members, unstable_data, undecided_data, skipped_members, ruled_data, counted_data, skipped_data, counts_members, summary_data, line_data, json_text};

use crate::parts::{
    claim_word, name_text, needs_value, phase_word, put_count, put_spot, put_text, put_word,
    spot_value, start_value, taken_value,
};
use crate::{Cause, Claim, Counts, Fragment, Line, Needed, Spot, StartInputs};
use serde_json::{Map, Value};
use std::alloc::Global;
use stk_base::NoMemory;
use stk_meaning::Phase;
use stk_numbers::Kinds;

// Puts the replacement of a comparison into an object.
fn put_replacement(
    map: &mut Map<String, Value>,
    alloc: Global,
    claim: &Claim,
) -> Result<(), NoMemory>
    ensures { OnOk result (members_view map.new.entries ≡ replaced_members claim.now (members_view map.old.entries)) }
{
    match claim {
        Claim::NeverEntered | Claim::AlwaysTrue | Claim::AlwaysFalse => Ok(()),
        Claim::SameAs(other) => {
            let text = name_text(alloc, other.as_slice())?;
            put_text(map, alloc, "replacement", text)
        }
    }
}

// What is said of a fragment that is unstable or undecided.
fn fragment_map(
    alloc: Global,
    what: &str,
    fragment: &Fragment,
) -> Result<Map<String, Value>, NoMemory>
    ensures { IfOk result (λ map. members_view map.entries ≡ fragment_members what.now fragment.now) }
{
    let function = name_text(alloc, fragment.function.as_slice())?;
    let mut map = Map::new(alloc);
    put_spot(&mut map, alloc, &fragment.at)?;
    put_word(&mut map, alloc, "candidate", claim_word(&fragment.claim))?;
    put_text(&mut map, alloc, "function", function)?;
    put_word(&mut map, alloc, "type", what)?;
    put_replacement(&mut map, alloc, &fragment.claim)?;
    Ok(map)
}

// A report.
fn unstable_value(
    alloc: Global,
    fragment: &Fragment,
    hit: &StartInputs,
    needs: &[Needed],
) -> Result<Value, NoMemory>
    ensures { IfOk result (λ v. view v ≡ unstable_data fragment.now hit.now needs.now) }
{
    let hit = start_value(alloc, hit)?;
    let needs = needs_value(alloc, needs)?;
    let mut map = fragment_map(alloc, "unstable", fragment)?;
    serde_json::put(&mut map, alloc, "hit", hit)?;
    serde_json::put(&mut map, alloc, "needs", needs)?;
    Ok(Value::Object(map))
}

// A fragment that is undecided.
fn undecided_value(alloc: Global, fragment: &Fragment, phase: Phase) -> Result<Value, NoMemory>
    ensures { IfOk result (λ v. view v ≡ undecided_data fragment.now phase) }
{
    let mut map = fragment_map(alloc, "undecided", fragment)?;
    put_word(&mut map, alloc, "phase", phase_word(phase))?;
    Ok(Value::Object(map))
}

// What is said of a unit that is skipped.
fn skipped_map(alloc: Global, at: &Spot, cause: &str) -> Result<Map<String, Value>, NoMemory>
    ensures { IfOk result (λ map. members_view map.entries ≡ skipped_members at.now cause.now) }
{
    let mut map = Map::new(alloc);
    put_spot(&mut map, alloc, at)?;
    put_word(&mut map, alloc, "cause", cause)?;
    put_word(&mut map, alloc, "type", "skipped")?;
    Ok(map)
}

// A unit that is skipped for a cause alone.
fn plain_value(alloc: Global, at: &Spot, cause: &str) -> Result<Value, NoMemory>
    ensures { IfOk result (λ v. view v ≡ object (skipped_members at.now cause.now)) }
{
    let map = skipped_map(alloc, at, cause)?;
    Ok(Value::Object(map))
}

// A unit that is skipped for a rule.
fn ruled_value(alloc: Global, at: &Spot, rule: u8, node: &Spot) -> Result<Value, NoMemory>
    ensures { IfOk result (λ v. view v ≡ ruled_data at.now rule node.now) }
{
    let place = spot_value(alloc, node)?;
    let mut map = skipped_map(alloc, at, "rule")?;
    serde_json::put(&mut map, alloc, "at", place)?;
    put_count(&mut map, alloc, "rule", u64::from(rule))?;
    Ok(Value::Object(map))
}

// A unit that is skipped for a count.
fn counted_value(alloc: Global, at: &Spot, cause: &str, count: u64) -> Result<Value, NoMemory>
    ensures { IfOk result (λ v. view v ≡ counted_data at.now cause.now count) }
{
    let mut map = skipped_map(alloc, at, cause)?;
    put_count(&mut map, alloc, "count", count)?;
    Ok(Value::Object(map))
}

// A unit that is skipped.
fn skipped_value(alloc: Global, at: &Spot, cause: &Cause) -> Result<Value, NoMemory>
    ensures { IfOk result (λ v. view v ≡ skipped_data at.now cause.now) }
{
    match cause {
        Cause::NoTree => plain_value(alloc, at, "no tree"),
        Cause::Rule { rule, at: node } => ruled_value(alloc, at, *rule, node),
        Cause::Nodes { count } => counted_value(alloc, at, "nodes", u64::from(*count)),
        Cause::Weight { sum } => counted_value(alloc, at, "weight", *sum),
    }
}

// The counts of a summary.
fn counts_map(alloc: Global, counts: Counts) -> Result<Map<String, Value>, NoMemory>
    ensures { IfOk result (λ map. members_view map.entries ≡ counts_members counts) }
{
    let mut map = Map::new(alloc);
    put_count(&mut map, alloc, "functions", counts.functions)?;
    put_count(&mut map, alloc, "candidates", counts.candidates)?;
    put_count(&mut map, alloc, "unstable", counts.unstable)?;
    put_count(&mut map, alloc, "undecided", counts.undecided)?;
    put_count(&mut map, alloc, "skipped", counts.skipped)?;
    Ok(map)
}

// A summary.
fn summary_value(alloc: Global, counts: Counts, without: Kinds) -> Result<Value, NoMemory>
    ensures { IfOk result (λ v. view v ≡ summary_data counts without) }
{
    let taken = taken_value(alloc, without)?;
    let mut map = counts_map(alloc, counts)?;
    put_word(&mut map, alloc, "type", "summary")?;
    put_count(&mut map, alloc, "version", 2)?;
    serde_json::put(&mut map, alloc, "without", taken)?;
    Ok(Value::Object(map))
}

// A line.
fn line_value(alloc: Global, line: &Line) -> Result<Value, NoMemory>
    ensures { IfOk result (λ v. view v ≡ line_data line.now) }
{
    match line {
        Line::Unstable {
            fragment,
            hit,
            needs,
        } => unstable_value(alloc, fragment, hit, needs.as_slice()),
        Line::Undecided { fragment, phase } => undecided_value(alloc, fragment, *phase),
        Line::Skipped { at, cause } => skipped_value(alloc, at, cause),
        Line::Summary { counts, without } => summary_value(alloc, *counts, *without),
    }
}

// The text of a line's object.
fn object_text(alloc: Global, line: &Line) -> Result<String, NoMemory>
    ensures { IfOk result (λ s. string_bytes s ≡ compact_text (line_data line.now)) }
{
    let value = line_value(alloc, line)?;
    let text = value.to_string(alloc)?;
    Ok(text)
}

/// Adds a line as JSON to a text: one object without a space, its keys in the order of their bytes, and a newline (RFC
/// 8259). Bytes of names outside 32 to 126 are written as `?`; a start is a list of pairs of a key and a number. After
/// `NoMemory` the text is of no use.
pub fn add_json_line(alloc: Global, text: &mut Vec<u8>, line: &Line) -> Result<(), NoMemory>
    ensures { IfOk result (λ _. text.new.items ≡ text.old.items ++ json_text line.now) }
{
    let object = object_text(alloc, line)?;
    text.extend_from_slice(object.as_bytes())?;
    text.push(b'\n')?;
    Ok(())
}

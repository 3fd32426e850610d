//! The parts of lines as JSON values.

ghost use Rattle.std.specs.Prelude.{◌≡◌, IfOk, OnOk, map};
ghost use Rattle.std.specs.String.{string_bytes};
ghost use Rattle.serde_json.specs.Data.{string, array, number, unsigned, put};
ghost use Rattle.serde_json.specs.View.{view, items_of, members_view};
ghost use Rattle.stk_records.specs.Kinds.{kind_name};
ghost use Rattle.stk_records.specs.Text.{printed, file_text, kind_text};
ghost use Rattle.stk_records.specs.Json.{name_data, number_data, input_data, start_data, without_data, needed_data, claim_word, phase_word, with_spot, spot_data, all_kinds, taken_words};

use crate::text::printed_byte;
use crate::{Claim, Input, Needed, Spot, StartInputs};
use serde_json::{Map, Number, Value, json};
use std::alloc::Global;
use stk_base::{List, NoMemory};
use stk_meaning::Phase;
use stk_numbers::{Kinds, UbKind};

// A name as it is printed.
pub(crate) fn name_text(alloc: Global, name: &[u8]) -> Result<String, NoMemory>
    ensures { IfOk result (λ s. string_bytes s ≡ printed name.now) }
{
    let mut text = String::new(alloc);
    for byte in name {
        text.push(char::from(printed_byte(*byte)))?;
    }
    Ok(text)
}

// The name of a file.
pub(crate) fn file_name(alloc: Global, file: &Option<List<u8>>) -> Result<String, NoMemory>
    ensures { IfOk result (λ s. string_bytes s ≡ file_text file.now) }
{
    match file {
        Some(name) => name_text(alloc, name.as_slice()),
        None => {
            let text = String::from_str(alloc, "-")?;
            Ok(text)
        }
    }
}

// A number of a start.
fn number_value(number: i128) -> Value
    ensures { view result ≡ number_data number }
{
    match Number::from_i128(number) {
        Some(number) => Value::from(number),
        None => Value::Null,
    }
}

// An input of a start.
fn input_value(alloc: Global, input: &Input) -> Result<Value, NoMemory>
    ensures { IfOk result (λ v. view v ≡ input_data input.now) }
{
    let key = name_text(alloc, input.key.as_slice())?;
    let number = number_value(input.number);
    let value = json!(in alloc; [key, number])?;
    Ok(value)
}

// The inputs of a start.
fn input_values(alloc: Global, inputs: &[Input]) -> Result<Vec<Value>, NoMemory>
    ensures { IfOk result (λ list. map view list.items ≡ map input_data inputs.now) }
{
    let mut list = Vec::new(alloc);
    for input in inputs {
        let value = input_value(alloc, input)?;
        list.push(value)?;
    }
    Ok(list)
}

// A start.
pub(crate) fn start_value(alloc: Global, start: &StartInputs) -> Result<Value, NoMemory>
    ensures { IfOk result (λ v. view v ≡ start_data start.now) }
{
    let list = input_values(alloc, start.inputs.as_slice())?;
    Ok(Value::Array(list))
}

// The start that shows that a condition is needed.
fn without_value(alloc: Global, without: &Option<StartInputs>) -> Result<Value, NoMemory>
    ensures { IfOk result (λ v. view v ≡ without_data without.now) }
{
    match without {
        Some(start) => start_value(alloc, start),
        None => Ok(Value::Null),
    }
}

// How a kind is printed.
fn kind_text(kind: UbKind) -> &'static str
    ensures { result.now ≡ kind_text kind }
{
    match kind {
        UbKind::Overflow => "signed overflow",
        UbKind::Zero => "division by zero",
        UbKind::Shift => "oversized shift",
        UbKind::Null => "null dereference",
        UbKind::Pointer => "pointer overflow",
        UbKind::Bounds => "index out of bounds",
        UbKind::AbsValue => "absolute value overflow",
        UbKind::Overlap => "overlapping copy",
    }
}

// Puts a text into an object.
pub(crate) fn put_text(
    map: &mut Map<String, Value>,
    alloc: Global,
    key: &str,
    text: String,
) -> Result<(), NoMemory>
    ensures { OnOk result (members_view map.new.entries ≡ put key.now (string (string_bytes text)) (members_view map.old.entries)) }
{
    serde_json::put(map, alloc, key, Value::from(text))?;
    Ok(())
}

// Puts a word into an object.
pub(crate) fn put_word(
    map: &mut Map<String, Value>,
    alloc: Global,
    key: &str,
    word: &str,
) -> Result<(), NoMemory>
    ensures { OnOk result (members_view map.new.entries ≡ put key.now (string word.now) (members_view map.old.entries)) }
{
    let value = Value::try_from_str(alloc, word)?;
    serde_json::put(map, alloc, key, value)?;
    Ok(())
}

// Puts a count into an object.
pub(crate) fn put_count(
    map: &mut Map<String, Value>,
    alloc: Global,
    key: &str,
    count: u64,
) -> Result<(), NoMemory>
    ensures { OnOk result (members_view map.new.entries ≡ put key.now (number (unsigned count)) (members_view map.old.entries)) }
{
    serde_json::put(map, alloc, key, Value::from(count))?;
    Ok(())
}

// Puts a place into an object.
pub(crate) fn put_spot(
    map: &mut Map<String, Value>,
    alloc: Global,
    at: &Spot,
) -> Result<(), NoMemory>
    ensures { OnOk result (members_view map.new.entries ≡ with_spot at.now (members_view map.old.entries)) }
{
    let file = file_name(alloc, &at.file)?;
    put_count(map, alloc, "column", u64::from(at.column))?;
    put_text(map, alloc, "file", file)?;
    put_count(map, alloc, "line", u64::from(at.line))
}

// A condition of a set.
fn needed_value(alloc: Global, needed: &Needed) -> Result<Value, NoMemory>
    ensures { IfOk result (λ v. view v ≡ needed_data needed.now) }
{
    let without = without_value(alloc, &needed.without)?;
    let mut map = Map::new(alloc);
    put_spot(&mut map, alloc, &needed.at)?;
    put_word(&mut map, alloc, "kind", kind_text(needed.kind))?;
    serde_json::put(&mut map, alloc, "without", without)?;
    Ok(Value::Object(map))
}

// The conditions of a set one by one.
fn needed_values(alloc: Global, needs: &[Needed]) -> Result<Vec<Value>, NoMemory>
    ensures { IfOk result (λ list. map view list.items ≡ map needed_data needs.now) }
{
    let mut list = Vec::new(alloc);
    for needed in needs {
        let value = needed_value(alloc, needed)?;
        list.push(value)?;
    }
    Ok(list)
}

// The conditions of a set.
pub(crate) fn needs_value(alloc: Global, needs: &[Needed]) -> Result<Value, NoMemory>
    ensures { IfOk result (λ v. view v ≡ array (items_of (map needed_data needs.now))) }
{
    let list = needed_values(alloc, needs)?;
    Ok(Value::Array(list))
}

// What a candidate is.
pub(crate) fn claim_word(claim: &Claim) -> &'static str
    ensures { result.now ≡ claim_word claim.now }
{
    match claim {
        Claim::NeverEntered => "arm",
        Claim::AlwaysTrue => "always true",
        Claim::AlwaysFalse => "always false",
        Claim::SameAs(_) => "algebra",
    }
}

// The query that was given up.
pub(crate) fn phase_word(phase: Phase) -> &'static str
    ensures { result.now ≡ phase_word phase }
{
    match phase {
        Phase::Free => "free",
        Phase::Hit => "hit",
    }
}

// A place.
pub(crate) fn spot_value(alloc: Global, at: &Spot) -> Result<Value, NoMemory>
    ensures { IfOk result (λ v. view v ≡ spot_data at.now) }
{
    let mut map = Map::new(alloc);
    put_spot(&mut map, alloc, at)?;
    Ok(Value::Object(map))
}

// The word of a kind.
fn kind_word(kind: UbKind) -> &'static str
    ensures { result.now ≡ kind_name kind }
{
    match kind {
        UbKind::Overflow => "overflow",
        UbKind::Zero => "zero",
        UbKind::Shift => "shift",
        UbKind::Null => "null",
        UbKind::Pointer => "pointer",
        UbKind::Bounds => "bounds",
        UbKind::AbsValue => "abs",
        UbKind::Overlap => "copy",
    }
}

// The kinds in the order of their numbers.
static KINDS: [UbKind; 8] = [
    UbKind::Overflow,
    UbKind::Zero,
    UbKind::Shift,
    UbKind::Null,
    UbKind::Pointer,
    UbKind::Bounds,
    UbKind::AbsValue,
    UbKind::Overlap,
];

// The words of those of these kinds that are taken out.
fn taken_words(alloc: Global, without: Kinds, kinds: &[UbKind]) -> Result<Vec<Value>, NoMemory>
    ensures { IfOk result (λ list. map view list.items ≡ taken_words without kinds.now) }
{
    let mut list = Vec::new(alloc);
    for kind in kinds {
        if without.has(*kind) {
            let word = Value::try_from_str(alloc, kind_word(*kind))?;
            list.push(word)?;
        }
    }
    Ok(list)
}

// The kinds that are taken out.
pub(crate) fn taken_value(alloc: Global, without: Kinds) -> Result<Value, NoMemory>
    ensures { IfOk result (λ v. view v ≡ array (items_of (taken_words without all_kinds))) }
{
    let list = taken_words(alloc, without, &KINDS)?;
    Ok(Value::Array(list))
}

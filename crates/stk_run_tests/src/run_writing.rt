//! Texts of traces.

use itoa::Buffer;
use std::alloc::Global;
use stk_base::NoMemory;
use stk_function_types::FunctionTypes;
use stk_lex::Places;
use stk_meaning::Entry;
use stk_numbers::UbKind;

// Adds a word.
fn add(text: &mut Vec<u8>, word: &[u8]) -> Result<(), NoMemory> {
    text.extend_from_slice(word)?;
    Ok(())
}

// Adds a number, behind a word.
fn add_count(text: &mut Vec<u8>, word: &[u8], count: u32) -> Result<(), NoMemory> {
    let mut buffer = Buffer::new();
    add(text, word)?;
    add(text, buffer.format(count).as_bytes())
}

// A word for a kind of conditions.
fn condition_name(kind: UbKind) -> &'static [u8] {
    match kind {
        UbKind::Overflow => b"overflow ",
        UbKind::Zero => b"zero ",
        UbKind::Shift => b"shift ",
        UbKind::Null => b"null ",
        UbKind::Pointer => b"pointer ",
        UbKind::Bounds => b"bounds ",
        UbKind::AbsValue => b"absolute ",
        UbKind::Overlap => b"overlap ",
    }
}

// A word for a truth.
fn truth_name(truth: bool) -> &'static [u8] {
    if truth { b"true " } else { b"false " }
}

// A word for the truth of a replacement.
fn replaced_name(truth: Option<bool>) -> &'static [u8] {
    match truth {
        None => b"",
        Some(true) => b" or true",
        Some(false) => b" or false",
    }
}

// Adds the number of a node and its column.
fn add_node(
    text: &mut Vec<u8>,
    input: &Places,
    types: &FunctionTypes,
    word: &[u8],
    node: u32,
) -> Result<(), NoMemory> {
    let at = types.node_span(node).from as usize;
    let place = input.place(input.bytes().len().min(at));
    add_count(text, word, node)?;
    add_count(text, b" at ", place.column)
}

// Adds an entry.
fn add_entry(
    text: &mut Vec<u8>,
    input: &Places,
    types: &FunctionTypes,
    entry: Entry,
) -> Result<(), NoMemory> {
    match entry {
        Entry::Ub(condition) => add_node(
            text,
            input,
            types,
            condition_name(condition.kind),
            condition.node,
        ),
        Entry::Enter(node) => add_node(text, input, types, b"enter ", node),
        Entry::Seen(node, truth, replaced) => {
            add_node(text, input, types, truth_name(truth), node)?;
            add(text, replaced_name(replaced))
        }
    }
}

/// The text of a trace: the entries with commas, each with the number of its node and its column; of a comparison that
/// has a replacement the truth of that too.
pub(crate) fn trace_text(
    alloc: Global,
    input: &Places,
    types: &FunctionTypes,
    trace: &[Entry],
) -> Result<Vec<u8>, NoMemory> {
    let mut text = Vec::new(alloc);
    for entry in trace {
        if !text.is_empty() {
            add(&mut text, b", ")?;
        }
        add_entry(&mut text, input, types, *entry)?;
    }
    Ok(text)
}

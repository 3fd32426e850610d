//! How the keys of a function are spelled.

ghost use Rattle.std.specs.Prelude.{◌≡◌, ◌++◌, IfOk, map, codes, decimal};
ghost use Rattle.stk_function_env.specs.Infos.{info_in};
ghost use Rattle.stk_spelling.specs.Named.{name_among};
ghost use Rattle.stk_spelling.specs.Placed.{placed_in};
ghost use Rattle.stk_spelling.specs.Texts.{position_text, node_text, name_text, address_text, key_text};

use crate::Named;
use crate::names::name_among;
use itoa::Buffer;
use std::alloc::Global;
use stk_base::{List, NoMemory, Span};
use stk_function_env::{Key, KeyInfo};
use stk_function_types::FunctionTypes;
use stk_lex::Places;

// Adds bytes to a text.
fn add(text: &mut Vec<u8>, bytes: &[u8]) -> Result<(), NoMemory>
    ensures { IfOk result (λ _. text.new.items ≡ text.old.items ++ bytes.now) }
{
    text.extend_from_slice(bytes)?;
    Ok(())
}

fn add_count(text: &mut Vec<u8>, count: u32) -> Result<(), NoMemory>
    ensures { IfOk result (λ _. text.new.items ≡ text.old.items ++ decimal count) }
{
    let mut buffer = Buffer::new();
    add(text, buffer.format(count).as_bytes())
}

// Adds the line and the column of a byte, behind a word.
fn add_position(text: &mut Vec<u8>, input: &Places, word: &[u8], at: u32) -> Result<(), NoMemory>
    ensures { IfOk result (λ _. text.new.items ≡ text.old.items ++ position_text input.now word.now at) }
{
    let place = input.place(input.bytes().len().min(at as usize));
    add(text, word)?;
    add(text, b"@")?;
    add_count(text, place.line)?;
    add(text, b":")?;
    add_count(text, place.column)
}

// Adds those of the beginning of a node.
fn add_node(
    text: &mut Vec<u8>,
    input: &Places,
    types: &FunctionTypes,
    word: &[u8],
    node: u32,
) -> Result<(), NoMemory>
    requires { input.now ≡ types.now.bytes }
    ensures { IfOk result (λ _. text.new.items ≡ text.old.items ++ node_text (placed_in types.now) word.now node) }
{
    add_position(text, input, word, types.node_span(node).from)
}

// The name of an object or register.
fn name_text<'a>(bytes: &'a [u8], name: Option<Span>) -> &'a [u8]
    ensures { result.now ≡ name_text bytes.now name }
{
    match name {
        None => &[],
        Some(at) => at.text(bytes),
    }
}

// Adds the address of an object.
fn add_address(
    text: &mut Vec<u8>,
    input: &Places,
    types: &FunctionTypes,
    node: u32,
    name: Option<Span>,
) -> Result<(), NoMemory>
    requires { input.now ≡ types.now.bytes }
    ensures { IfOk result (λ _. text.new.items ≡ text.old.items ++ address_text (placed_in types.now) node name) }
{
    match name {
        None => add_node(text, input, types, b"string", node),
        Some(at) => {
            add(text, b"&")?;
            add(text, at.text(types.bytes()))
        }
    }
}

// Adds a register that a loop sets first.
fn add_loop(
    text: &mut Vec<u8>,
    input: &Places,
    types: &FunctionTypes,
    names: &[Named],
    nodes: (u32, u32),
) -> Result<(), NoMemory>
    requires { input.now ≡ types.now.bytes }
    ensures { IfOk result (λ _. text.new.items ≡ text.old.items ++ (node_text (placed_in types.now) (codes "loop") nodes.0 ++ codes "." ++ name_text types.now.bytes (name_among nodes.1 names.now))) }
{
    add_node(text, input, types, b"loop", nodes.0)?;
    add(text, b".")?;
    add(text, name_text(types.bytes(), name_among(nodes.1, names)))
}

// Adds a key.
fn add_key(
    text: &mut Vec<u8>,
    input: &Places,
    types: &FunctionTypes,
    names: &[Named],
    info: &KeyInfo,
) -> Result<(), NoMemory>
    requires { input.now ≡ types.now.bytes }
    ensures { IfOk result (λ _. text.new.items ≡ text.old.items ++ key_text (placed_in types.now) names.now (info_in info.now)) }
{
    let bytes = types.bytes();
    match info.key {
        Key::Parameter(_) => add(text, name_text(bytes, info.name)),
        Key::Address(node) => add_address(text, input, types, node, info.name),
        Key::Unset(node) => add_node(text, input, types, name_text(bytes, info.name), node),
        Key::Load(node) => add_node(text, input, types, b"load", node),
        Key::Call(node) => add_node(text, input, types, b"call", node),
        Key::Loop(node, register) => add_loop(text, input, types, names, (node, register)),
    }
}

/// The text of each key of a function, in order, with the names of its parameters and local objects: the name of a
/// parameter; `&NAME`, or `string@LINE:COLUMN` of a string, for the address of an object; `NAME@LINE:COLUMN` for a
/// register without initialiser; `load@LINE:COLUMN`, `call@LINE:COLUMN`; and `loop@LINE:COLUMN.NAME` for a register
/// that a loop sets first.
pub fn key_texts(
    alloc: Global,
    input: &Places,
    types: &FunctionTypes,
    names: &[Named],
    keys: &[KeyInfo],
) -> Result<Vec<List<u8>>, NoMemory>
    requires { input.now ≡ types.now.bytes }
    ensures { IfOk result (λ texts. texts.items ≡ map (key_text (placed_in types.now) names.now) (map info_in keys.now)) }
{
    let mut texts = Vec::new(alloc);
    for info in keys {
        let mut text = Vec::new(alloc);
        add_key(&mut text, input, types, names, info)?;
        texts.push(List::from_vec(text))?;
    }
    Ok(texts)
}

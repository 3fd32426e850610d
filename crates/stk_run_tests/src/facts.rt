//! What is listed of a function, as texts.

ghost use Rattle.std.specs.Prelude.{◌≡◌, ◌<◌, ◌^◌, IfOk, IsTrue};
ghost use Rattle.stk_tree.specs.Nodes.{unit_nodes};
ghost use Rattle.stk_tree.specs.View.{view_unit};
ghost use Rattle.stk_weights.specs.Units.{IsWhole};

use crate::finding::replaced_at;
use crate::listed_writing::{add, add_comma, add_count, candidate_name, condition_name, kind_name};
use std::alloc::Global;
use stk_base::{List, NoMemory};
use stk_cands::{candidates, conditions};
use stk_ctype::Names;
use stk_function_env::{Key, KeyInfo, Setting};
use stk_function_types::{FunctionTypes, Visit, function_visits};
use stk_lex::Places;
use stk_nodes::unit_nodes;
use stk_numbers::{CandKind, Candidate, Condition, Kinds};
use stk_path_runs::input_bits;
use stk_spelling::{key_texts, names_of};
use stk_tree::{Function, Unit};
use stk_typed::{Untyped, typed_of};
use stk_weights::weight_of;

/// No kind is taken out.
pub(crate) const NOTHING: Kinds = Kinds {
    overflow: false,
    zero: false,
    shift: false,
    null: false,
    pointer: false,
    bounds: false,
    abs: false,
    copy: false,
};

/// What is listed of a function: how many nodes and bits of input it has, and its weight; its keys; its conditions; and
/// its candidates.
#[derive(Debug, Drop)]
pub(crate) struct Facts {
    pub(crate) sizes: Vec<u8>,
    pub(crate) keys: Vec<u8>,
    pub(crate) conditions: Vec<u8>,
    pub(crate) candidates: Vec<u8>,
}

// Adds the column of a node.
fn add_column(
    text: &mut Vec<u8>,
    input: &Places,
    types: &FunctionTypes,
    node: u32,
) -> Result<(), NoMemory> {
    let at = types.node_span(node).from as usize;
    let place = input.place(input.bytes().len().min(at));
    add_count(text, b"", u64::from(place.column))
}

// The nodes of a function, the one of its unit included, its bits and its weight.
fn sizes_text(alloc: Global, setting: &Setting) -> Result<Vec<u8>, NoMemory>
    requires { IsWhole setting.now }
{
    let nodes = unit_nodes(alloc, setting.types().unit())?;
    let bits = u64::try_from(input_bits(setting.keys())).unwrap_or(u64::MAX);
    let weight = weight_of(alloc, setting)?;
    let mut text = Vec::new(alloc);
    add_count(&mut text, b"", nodes.len() as u64)?;
    add_count(&mut text, b" nodes, ", bits)?;
    add_count(&mut text, b" bits, ", weight)?;
    Ok(text)
}

// Whether a key is the address of a kept object.
fn is_kept(setting: &Setting, info: &KeyInfo) -> bool {
    match info.key {
        Key::Address(node) => setting.kept().contains(&node),
        Key::Parameter(_) | Key::Unset(_) | Key::Load(_) | Key::Call(_) | Key::Loop(_, _) => false,
    }
}

// Adds a key: its text, its kind, the size of its object, and whether that is kept.
fn add_key(
    text: &mut Vec<u8>,
    setting: &Setting,
    name: &[u8],
    info: &KeyInfo,
) -> Result<(), NoMemory> {
    add_comma(text)?;
    add(text, name)?;
    add(text, b" ")?;
    add(text, kind_name(info.kind))?;
    if info.size > 0 {
        add_count(text, b" ", info.size)?;
    }
    if is_kept(setting, info) {
        add(text, b" kept")?;
    }
    Ok(())
}

// The keys of a function, with these texts.
fn keys_text(alloc: Global, setting: &Setting, names: &[List<u8>]) -> Result<Vec<u8>, NoMemory> {
    let mut text = Vec::new(alloc);
    let mut rest = names;
    for info in setting.keys() {
        let Some((name, behind)) = rest.split_first() else {
            return Ok(text);
        };
        rest = behind;
        add_key(&mut text, setting, name.as_slice(), info)?;
    }
    Ok(text)
}

// Conditions, each with the column of its node.
fn conditions_text(
    alloc: Global,
    input: &Places,
    types: &FunctionTypes,
    list: &[Condition],
) -> Result<Vec<u8>, NoMemory> {
    let mut text = Vec::new(alloc);
    for condition in list {
        add_comma(&mut text)?;
        add(&mut text, condition_name(condition.kind))?;
        add_column(&mut text, input, types, condition.node)?;
    }
    Ok(text)
}

// Adds the text of a candidate's replacement, where it is one.
fn add_replaced(
    text: &mut Vec<u8>,
    alloc: Global,
    types: &FunctionTypes,
    visits: &[Visit],
    candidate: Candidate,
) -> Result<(), NoMemory> {
    match candidate.kind {
        CandKind::Arm | CandKind::AlwaysTrue | CandKind::AlwaysFalse => Ok(()),
        CandKind::Algebra => {
            let found = replaced_at(alloc, types, visits, candidate.node)?;
            add(text, b" as ")?;
            add(text, found.as_slice())
        }
    }
}

// Candidates, each with the column of its node.
fn candidates_text(
    alloc: Global,
    input: &Places,
    types: &FunctionTypes,
    visits: &[Visit],
    list: &[Candidate],
) -> Result<Vec<u8>, NoMemory> {
    let mut text = Vec::new(alloc);
    for candidate in list {
        add_comma(&mut text)?;
        add(&mut text, candidate_name(candidate.kind))?;
        add_column(&mut text, input, types, candidate.node)?;
        add_replaced(&mut text, alloc, types, visits, *candidate)?;
    }
    Ok(text)
}

// What is listed of a function of a setting.
fn facts_under(
    alloc: Global,
    input: &Places,
    setting: &Setting,
    f: &Function,
) -> Result<Facts, NoMemory>
    requires input { input.now ≡ setting.now.types.bytes }
    requires whole { IsWhole setting.now }
{
    let types = setting.types();
    let names = names_of(alloc, types, f)?;
    let texts = key_texts(alloc, input, types, names.as_slice(), setting.keys())?;
    let visits = function_visits(alloc, types, f)?;
    let listed = conditions(alloc, types, NOTHING, f)?;
    let named = candidates(alloc, types, f)?;
    Ok(Facts {
        sizes: sizes_text(alloc, setting)?,
        keys: keys_text(alloc, setting, texts.as_slice())?,
        conditions: conditions_text(alloc, input, types, listed.as_slice())?,
        candidates: candidates_text(alloc, input, types, visits.as_slice(), named.as_slice())?,
    })
}

// What is listed of the function of a unit; nothing of another unit.
fn facts_typed(
    alloc: Global,
    input: &Places,
    types: &FunctionTypes,
) -> Result<Option<Facts>, NoMemory>
    requires { input.now ≡ types.now.bytes }
{
    match types.unit() {
        Unit::Empty(_) | Unit::Declares(_, _) => Ok(None),
        Unit::Defines(_, f) => {
            let setting = Setting::new(alloc, types, NOTHING, f)?;
            let facts = facts_under(alloc, input, &setting, f)?;
            Ok(Some(facts))
        }
    }
}

// Whether a unit has fewer than 2^32 nodes.
fn has_few_nodes(alloc: Global, unit: &Unit) -> Result<bool, NoMemory>
    ensures { IfOk result (λ few. IsTrue few → unit_nodes (view_unit unit.now) < 2 ^ 32) }
{
    let nodes = unit_nodes(alloc, unit)?;
    if nodes.len() >= 4_294_967_296 {
        return Ok(false);
    }
    Ok(true)
}

/// What is listed of the function of a unit; nothing of another unit, or of one that a rule refuses.
pub(crate) fn facts_of(
    alloc: Global,
    input: &Places,
    unit: &Unit,
    names: &Names,
) -> Result<Option<Facts>, NoMemory> {
    if !has_few_nodes(alloc, unit)? {
        return Ok(None);
    }
    match typed_of(alloc, input.bytes(), unit, names) {
        Ok(types) => facts_typed(alloc, input, &types),
        Err(Untyped::Rule { node: _, rule: _ }) | Err(Untyped::Nodes { count: _ }) => Ok(None),
        Err(Untyped::NoMemory) => Err(NoMemory),
    }
}

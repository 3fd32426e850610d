//! The memory objects of a function, and the pairs of them.

ghost use Rattle.std.specs.Prelude.{◌≡◌, ◌+◌, ◌<◌, ◌^◌, ◌++◌, IfOk, OnOk, map};
ghost use Rattle.stk_function_types.specs.Nodes.{typing_in};
ghost use Rattle.stk_meaning.specs.Typings.{is_among};
ghost use Rattle.stk_meaning.specs.Keys.{key_objects, objects_in};
ghost use Rattle.stk_function_env.specs.Infos.{info_in};
ghost use Rattle.stk_weights.specs.Sums.{capped};
ghost use Rattle.stk_weights.specs.Traits.{traits_of, pairs_of, one_where, pairs_with, counts_before, counts_of};

use std::alloc::Global;
use stk_base::NoMemory;
use stk_function_env::{Key, KeyInfo};
use stk_function_types::FunctionTypes;
use stk_type_rules::{is_scalar, is_struct};

/// What a pair asks of a memory object: whether it is kept, and whether it has a name and a scalar or struct type.
#[derive(Clone, Copy)]
pub(crate) struct ObjectTraits {
    is_kept: bool,
    is_plain: bool,
}

/// Counts of objects: those that are kept, those that have a name and a scalar or struct type, those that are either,
/// and the pairs among them.
#[derive(Clone, Copy)]
struct Counts {
    kept: u64,
    plain: u64,
    either: u64,
    pairs: u64,
}

// Whether a number is one of these.
fn is_among(node: u32, list: &[u32]) -> bool
    ensures { result ≡ is_among node list.now }
{
    for other in list {
        if node == *other {
            return true;
        }
    }
    false
}

// Notes the object whose address a key is.
fn note_object(
    types: &FunctionTypes,
    kept: &[u32],
    info: &KeyInfo,
    out: &mut Vec<ObjectTraits>,
) -> Result<(), NoMemory>
    ensures { OnOk result (out.new.items ≡ out.old.items ++ map (traits_of kept.now) (key_objects (typing_in types.now) (info_in info.now).name (info_in info.now).size (info_in info.now).key)) }
{
    match info.key {
        Key::Address(node) => {
            let ty = types.type_at(node);
            let is_kept = is_among(node, kept);
            let is_plain = info.name.is_some() && (is_scalar(ty) || is_struct(ty));
            out.push(ObjectTraits { is_kept, is_plain })?;
            Ok(())
        }
        Key::Parameter(_) | Key::Unset(_) | Key::Load(_) | Key::Call(_) | Key::Loop(_, _) => Ok(()),
    }
}

/// The memory objects among keys, in order, where these are kept.
#[tactic(auto, using(crate::proofs::TraitsShown::map_append))]
pub(crate) fn objects_among(
    alloc: Global,
    types: &FunctionTypes,
    kept: &[u32],
    keys: &[KeyInfo],
) -> Result<Vec<ObjectTraits>, NoMemory>
    ensures { IfOk result (λ out. out.items ≡ map (traits_of kept.now) (objects_in (typing_in types.now) (map info_in keys.now))) }
{
    let mut out = Vec::new(alloc);
    for info in keys {
        note_object(types, kept, info, &mut out)?;
    }
    Ok(out)
}

// 1 where something holds.
fn one_where(holds: bool) -> u64
    ensures { result ≡ one_where holds }
{
    if holds { 1 } else { 0 }
}

// With how many of the objects that are counted an object is a pair.
fn pairs_with(is_kept: bool, is_plain: bool, counts: &Counts) -> u64
    ensures { result ≡ pairs_with is_kept is_plain counts.now }
{
    match (is_kept, is_plain) {
        (true, true) => counts.either,
        (true, false) => counts.plain,
        (false, true) => counts.kept,
        (false, false) => 0,
    }
}

// The counts with one object more in front.
fn counts_before(object_traits: ObjectTraits, counts: Counts) -> Counts
    requires kept { counts.kept + 1 < 2 ^ 64 }
    requires plain { counts.plain + 1 < 2 ^ 64 }
    requires either { counts.either + 1 < 2 ^ 64 }
    ensures { result ≡ counts_before object_traits counts }
{
    Counts {
        kept: one_where(object_traits.is_kept) + counts.kept,
        plain: one_where(object_traits.is_plain) + counts.plain,
        either: one_where(object_traits.is_kept || object_traits.is_plain) + counts.either,
        pairs: pairs_with(object_traits.is_kept, object_traits.is_plain, &counts).saturating_add(
            counts.pairs,
        ),
    }
}

/// The pairs of a kept object and another one with a name and a scalar or struct type, each counted once, or 2^64 - 1
/// where there are more. It goes through the objects once, from the back.
pub(crate) fn pairs_among(list: &[ObjectTraits]) -> u64
    ensures { result ≡ capped (pairs_of list.now) }
{
    let mut counts = Counts {
        kept: 0,
        plain: 0,
        either: 0,
        pairs: 0,
    };
    let mut left = list.len();
    while left > 0 {
        left -= 1;
        counts = counts_before(list[left], counts);
    }
    counts.pairs
}

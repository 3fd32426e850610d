//! The memory objects of a function, as its walk takes them.

ghost use Rattle.std.specs.Prelude.{◌≡◌, ◌++◌, IfOk, OnOk, map};
ghost use Rattle.stk_function_types.specs.Nodes.{typing_in};
ghost use Rattle.stk_meaning.specs.Typings.{is_among};
ghost use Rattle.stk_meaning.specs.Keys.{key_objects, objects_in};
ghost use Rattle.stk_function_env.specs.Infos.{info_in};
ghost use Rattle.stk_walk.specs.Validity.{walk_object};

use crate::objects::WalkObject;
use std::alloc::Global;
use stk_base::NoMemory;
use stk_function_env::{Key, KeyInfo};
use stk_function_types::FunctionTypes;
use stk_type_rules::{is_scalar, is_struct};

// Whether a number is one of these.
fn is_among(node: u32, list: &[u32]) -> bool
    ensures { result ≡ is_among node list.now }
{
    for other in list {
        if node == *other {
            return true;
        }
    }
    false
}

// Notes the object whose address a key is.
fn note_object(
    types: &FunctionTypes,
    kept: &[u32],
    info: &KeyInfo,
    out: &mut Vec<WalkObject>,
) -> Result<(), NoMemory>
    ensures { OnOk result (out.new.items ≡ out.old.items ++ map (walk_object kept.now) (key_objects (typing_in types.now) (info_in info.now).name (info_in info.now).size (info_in info.now).key)) }
{
    match info.key {
        Key::Address(node) => {
            let ty = types.type_at(node);
            let size = info.size;
            let is_kept = is_among(node, kept);
            let is_plain = info.name.is_some() && (is_scalar(ty) || is_struct(ty));
            out.push(WalkObject {
                node,
                size,
                is_kept,
                is_plain,
            })?;
            Ok(())
        }
        Key::Parameter(_) | Key::Unset(_) | Key::Load(_) | Key::Call(_) | Key::Loop(_, _) => Ok(()),
    }
}

/// The memory objects among keys, in order, where these are kept.
#[tactic(auto, using(crate::proofs::Rows::map_append))]
pub(crate) fn objects_among(
    alloc: Global,
    types: &FunctionTypes,
    kept: &[u32],
    keys: &[KeyInfo],
) -> Result<Vec<WalkObject>, NoMemory>
    ensures { IfOk result (λ out. out.items ≡ map (walk_object kept.now) (objects_in (typing_in types.now) (map info_in keys.now))) }
{
    let mut out = Vec::new(alloc);
    for info in keys {
        note_object(types, kept, info, &mut out)?;
    }
    Ok(out)
}

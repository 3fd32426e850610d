//! Whether the addresses of an input map are valid.

ghost use Rattle.std.specs.Prelude.{◌≡◌, ◌++◌, map, IfOk, OnOk};
ghost use Rattle.stk_meaning.specs.Keys.{key_objects, object_of, objects_in};
ghost use Rattle.stk_meaning.specs.Maps.{are_valid, addresses_in};
ghost use Rattle.stk_meaning.specs.Paths.{number_under};
ghost use Rattle.stk_meaning.specs.Typings.{is_among};
ghost use Rattle.stk_function_types.specs.Nodes.{typing_in};
ghost use Rattle.stk_function_env.specs.Infos.{info_in};
ghost use Rattle.stk_first_maps.specs.Placed.{placed_object};

use crate::placed::{PlacedObject, are_placed};
use std::alloc::Global;
use stk_base::NoMemory;
use stk_eval_expr::World;
use stk_function_env::{Key, KeyInfo};
use stk_function_types::FunctionTypes;
use stk_operators::Word;
use stk_path_runs::{FunctionTables, MappedFunction};
use stk_type_rules::{is_scalar, is_struct};

// Whether a number is one of these.
fn is_among(node: u32, list: &[u32]) -> bool
    ensures { result ≡ is_among node list.now }
{
    for other in list {
        if node == *other {
            return true;
        }
    }
    false
}

// Whether the object of a key has a name and a scalar or struct type.
fn is_plain(types: &FunctionTypes, node: u32, info: &KeyInfo) -> bool
    ensures { result ≡ (object_of (typing_in types.now) info.now.name node info.now.size).is_plain }
{
    let ty = types.type_at(node);
    info.name.is_some() && (is_scalar(ty) || is_struct(ty))
}

// The object whose address a key is, if it is one, joins the others.
fn note_object(
    mapped: &MappedFunction,
    kept: &[u32],
    info: &KeyInfo,
    out: &mut Vec<PlacedObject>,
) -> Result<(), NoMemory>
    ensures { OnOk result (out.new.items ≡ out.old.items ++ map (placed_object kept.now (addresses_in (number_under mapped.now.tables.now.places.keys mapped.now.numbers.now))) (key_objects (typing_in mapped.now.tables.now.places.types) (info_in info.now).name (info_in info.now).size (info_in info.now).key)) }
{
    match info.key {
        Key::Address(node) => {
            let types = mapped.tables.setting().types();
            out.push(PlacedObject {
                node,
                size: info.size,
                is_kept: is_among(node, kept),
                is_plain: is_plain(types, node, info),
                address: mapped.address(node),
            })?;
            Ok(())
        }
        Key::Parameter(_) | Key::Unset(_) | Key::Load(_) | Key::Call(_) | Key::Loop(_, _) => Ok(()),
    }
}

// The memory objects of a function, where an input map places them.
#[tactic(auto, using(crate::proofs::Objects::map_append))]
fn placed_objects(mapped: &MappedFunction) -> Result<Vec<PlacedObject>, NoMemory>
    ensures { IfOk result (λ out. out.items ≡ map (placed_object mapped.now.tables.now.places.kept (addresses_in (number_under mapped.now.tables.now.places.keys mapped.now.numbers.now))) (objects_in (typing_in mapped.now.tables.now.places.types) mapped.now.tables.now.places.keys)) }
{
    let setting = mapped.tables.setting();
    let kept = setting.kept();
    let keys = setting.keys();
    let mut out = Vec::new(mapped.alloc);
    for info in keys {
        note_object(mapped, kept, info, &mut out)?;
    }
    Ok(out)
}

/// Whether the addresses that an input map gives are valid: each memory object lies in memory, and each kept one shares
/// no byte with another one that has a name and a scalar or struct type (C11 6.2.4, 6.5.3.2). The map is given as the
/// numbers of the keys, in order.
pub fn is_valid(alloc: Global, tables: &FunctionTables, numbers: &[Word]) -> Result<bool, NoMemory>
    ensures { IfOk result (λ valid. valid ≡ are_valid tables.now.places.kept (objects_in (typing_in tables.now.places.types) tables.now.places.keys) (addresses_in (number_under tables.now.places.keys numbers.now))) }
{
    let mapped = MappedFunction {
        tables,
        numbers,
        alloc,
    };
    let objects = placed_objects(&mapped)?;
    Ok(are_placed(objects.as_slice()))
}

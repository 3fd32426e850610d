//! The registers that a scope declares, which get back their values from before.

ghost use Rattle.std.specs.Prelude.{◌≡◌, ℕ, ◌++◌, ◌∷◌, [], ℤ, List, IfOk, OnOk, map, set, ◌≤◌};
ghost use Rattle.stk_tree.specs.View.{view_part, parts, view_start, view_declaration, view_declarator, declarators};
ghost use Rattle.stk_meaning.specs.Visits.{part_declares, parts_declare, start_declares, declared_in, declared_by};
ghost use Rattle.stk_kinded.specs.Kinds.{register_kind};
ghost use Rattle.stk_values.specs.Keeping.{Keeps};
ghost use Rattle.stk_walking.specs.Stands.{RowMade, RowShows};
ghost use Rattle.stk_walk_statements.specs.Saved.{SavedMade, SavedShow, given_back};

use std::alloc::Global;
use stk_base::NoMemory;
use stk_tree::{Declaration, Declr, Part, Start};
use stk_values::Values;
use stk_walking::{WalkSetting, read_register};

/// A register with its value before a scope.
#[derive(Clone, Copy, Debug)]
pub struct Saved<T> {
    pub register: u32,
    pub value: T,
}

// Adds the value of a register.
fn save<O: WalkSetting, V: Values>(
    out: &O,
    register: u32,
    values: &mut V,
    registers: &Vec<V::Value>,
    saved: &mut Vec<Saved<V::Value>>,
) -> Result<(), NoMemory>
    requires registers { RowMade (V.made values.old) (register_kind (O.setting out.now)) 0 registers.now.items }
    requires saved { SavedMade (V.made values.old) (register_kind (O.setting out.now)) saved.old.items }
    ensures made { OnOk result (SavedMade (V.made values.new) (register_kind (O.setting out.now)) saved.new.items) }
    ensures shown { OnOk result ((m : List ℤ) (js : List ℕ) (xs : List ℤ) → V.serves values.old m → RowShows (V.shows values.old m) (register_kind (O.setting out.now)) 0 registers.now.items xs → SavedShow (V.shows values.old m) (register_kind (O.setting out.now)) saved.old.items js xs → SavedShow (V.shows values.new m) (register_kind (O.setting out.now)) saved.new.items (js ++ register ∷ []) xs) }
    ensures keeps { OnOk result (Keeps V.serves V.has_key V.made V.shows values.old values.new) }
    ensures charge { OnOk result (V.cost values.new ≤ V.cost values.old) }
{
    let kind = out.kind_at(register);
    let value = read_register(values, registers, register, kind)?;
    saved.push(Saved { register, value })?;
    Ok(())
}

// Adds the values of the registers that declarators declare.
fn save_declared<O: WalkSetting, V: Values>(
    out: &O,
    list: &[Declr],
    values: &mut V,
    registers: &Vec<V::Value>,
    saved: &mut Vec<Saved<V::Value>>,
) -> Result<(), NoMemory>
    requires registers { RowMade (V.made values.old) (register_kind (O.setting out.now)) 0 registers.now.items }
    requires saved { SavedMade (V.made values.old) (register_kind (O.setting out.now)) saved.old.items }
    ensures made { OnOk result (SavedMade (V.made values.new) (register_kind (O.setting out.now)) saved.new.items) }
    ensures shown { OnOk result ((m : List ℤ) (js : List ℕ) (xs : List ℤ) → V.serves values.old m → RowShows (V.shows values.old m) (register_kind (O.setting out.now)) 0 registers.now.items xs → SavedShow (V.shows values.old m) (register_kind (O.setting out.now)) saved.old.items js xs → SavedShow (V.shows values.new m) (register_kind (O.setting out.now)) saved.new.items (js ++ declared_by (declarators (map view_declarator list.now))) xs) }
    ensures keeps { OnOk result (Keeps V.serves V.has_key V.made V.shows values.old values.new) }
    ensures charge { OnOk result (V.cost values.new ≤ V.cost values.old) }
{
    for d in list {
        save(out, d.node.number, values, registers, saved)?;
    }
    Ok(())
}

// Adds those of a part of a block.
fn save_part<O: WalkSetting, V: Values>(
    out: &O,
    part: &Part,
    values: &mut V,
    registers: &Vec<V::Value>,
    saved: &mut Vec<Saved<V::Value>>,
) -> Result<(), NoMemory>
    requires registers { RowMade (V.made values.old) (register_kind (O.setting out.now)) 0 registers.now.items }
    requires saved { SavedMade (V.made values.old) (register_kind (O.setting out.now)) saved.old.items }
    ensures made { OnOk result (SavedMade (V.made values.new) (register_kind (O.setting out.now)) saved.new.items) }
    ensures shown { OnOk result ((m : List ℤ) (js : List ℕ) (xs : List ℤ) → V.serves values.old m → RowShows (V.shows values.old m) (register_kind (O.setting out.now)) 0 registers.now.items xs → SavedShow (V.shows values.old m) (register_kind (O.setting out.now)) saved.old.items js xs → SavedShow (V.shows values.new m) (register_kind (O.setting out.now)) saved.new.items (js ++ part_declares (view_part part.now)) xs) }
    ensures keeps { OnOk result (Keeps V.serves V.has_key V.made V.shows values.old values.new) }
    ensures charge { OnOk result (V.cost values.new ≤ V.cost values.old) }
{
    match part {
        Part::Local(d) => {
            save_declared(out, d.list.as_slice(), values, registers, saved)?;
            Ok(())
        }
        Part::Run(_) => Ok(()),
    }
}

/// The values of the registers that the parts of a block declare, without the blocks in it.
pub(crate) fn saved_parts<O: WalkSetting, V: Values>(
    out: &O,
    alloc: Global,
    list: &[Part],
    values: &mut V,
    registers: &Vec<V::Value>,
) -> Result<Vec<Saved<V::Value>>, NoMemory>
    requires { RowMade (V.made values.old) (register_kind (O.setting out.now)) 0 registers.now.items }
    ensures made { IfOk result (λ saved. SavedMade (V.made values.new) (register_kind (O.setting out.now)) saved.items) }
    ensures shown { IfOk result (λ saved. (m : List ℤ) (xs : List ℤ) → V.serves values.old m → RowShows (V.shows values.old m) (register_kind (O.setting out.now)) 0 registers.now.items xs → SavedShow (V.shows values.new m) (register_kind (O.setting out.now)) saved.items (parts_declare (parts (map view_part list.now))) xs) }
    ensures keeps { OnOk result (Keeps V.serves V.has_key V.made V.shows values.old values.new) }
    ensures charge { OnOk result (V.cost values.new ≤ V.cost values.old) }
{
    let mut saved = Vec::new(alloc);
    for part in list {
        save_part(out, part, values, registers, &mut saved)?;
    }
    Ok(saved)
}

/// The values of the registers that the first part of a `for` declares.
pub(crate) fn saved_start<O: WalkSetting, V: Values>(
    out: &O,
    alloc: Global,
    start: &Start,
    values: &mut V,
    registers: &Vec<V::Value>,
) -> Result<Vec<Saved<V::Value>>, NoMemory>
    requires { RowMade (V.made values.old) (register_kind (O.setting out.now)) 0 registers.now.items }
    ensures made { IfOk result (λ saved. SavedMade (V.made values.new) (register_kind (O.setting out.now)) saved.items) }
    ensures shown { IfOk result (λ saved. (m : List ℤ) (xs : List ℤ) → V.serves values.old m → RowShows (V.shows values.old m) (register_kind (O.setting out.now)) 0 registers.now.items xs → SavedShow (V.shows values.new m) (register_kind (O.setting out.now)) saved.items (start_declares (view_start start.now)) xs) }
    ensures keeps { OnOk result (Keeps V.serves V.has_key V.made V.shows values.old values.new) }
    ensures charge { OnOk result (V.cost values.new ≤ V.cost values.old) }
{
    let mut saved = Vec::new(alloc);
    match start {
        Start::Local(d) => {
            save_declared(out, d.list.as_slice(), values, registers, &mut saved)?;
            Ok(saved)
        }
        Start::Plain(_) => Ok(saved),
    }
}

/// Sets a register, whether the run has come here or not; nothing, where there is no such register.
pub(crate) fn put_register<T: Copy>(registers: &mut Vec<T>, at: u32, value: T)
    ensures { registers.new.items ≡ set registers.old.items at value }
{
    let place = at as usize;
    if place < registers.len() {
        registers[place] = value;
    }
}

/// Gives registers their values back, the last one first.
pub(crate) fn give_back<T: Copy>(saved: Vec<Saved<T>>, registers: &mut Vec<T>)
    ensures { registers.new.items ≡ given_back saved.items registers.old.items }
{
    let mut left = saved;
    while let Some(last) = left.pop() {
        put_register(registers, last.register, last.value);
    }
}

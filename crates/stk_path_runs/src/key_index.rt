//! The places of keys among those of a function.

ghost use Rattle.std.specs.Prelude.{◌≡◌, ◌++◌, ◌∷◌, [], List, length, map, OnOk, IfOk, if◌then◌else◌};
ghost use Rattle.indexmap.specs.IndexMap.{get};
ghost use Rattle.stk_meaning.specs.Keys as runs;
ghost use Rattle.stk_meaning.specs.Keys.{parameter_key, address_key, unset_key, load_key, call_key, loop_key};
ghost use Rattle.stk_function_env.specs.Infos.{info_in};
ghost use Rattle.stk_path_runs.specs.Places.{IsKeyIndex, key_place, same_loop, first_of};

use crate::slots::Slots;
use indexmap::IndexMap;
use std::alloc::Global;
use stk_base::NoMemory;
use stk_function_env::{Key, KeyInfo};

/// The key of a register that a loop sets first: the loop and the register's declarator, by the numbers of their nodes.
#[derive(Clone, Copy, Debug, PartialEq, Eq, Hash)]
pub struct LoopKey {
    pub node: u32,
    pub register: u32,
}

/// For each key its place among those of a function, of equal keys the first. It is made once for a function; its
/// look-ups take no memory, and constant time.
#[derive(Drop)]
pub struct KeyIndex {
    pub parameters: Slots,
    pub addresses: Slots,
    pub unset: Slots,
    pub loads: Slots,
    pub calls: Slots,
    pub loops: IndexMap<LoopKey, usize>,
}

// Puts a place under the key of a loop, unless there is one.
fn put_loop(
    loops: &mut IndexMap<LoopKey, usize>,
    key: LoopKey,
    place: usize,
) -> Result<(), NoMemory>
    ensures { OnOk result ((q : LoopKey) → get same_loop loops.new q ≡ (if same_loop key q then first_of (get same_loop loops.old q) place else get same_loop loops.old q)) }
{
    if let Some(_) = loops.get(&key) {
        return Ok(());
    }
    loops.insert(key, place)?;
    Ok(())
}

impl KeyIndex {
    /// An index of no keys. It takes no memory.
    fn empty(alloc: Global) -> KeyIndex
        ensures { IsKeyIndex result [] }
    {
        KeyIndex {
            parameters: Slots::new(alloc),
            addresses: Slots::new(alloc),
            unset: Slots::new(alloc),
            loads: Slots::new(alloc),
            calls: Slots::new(alloc),
            loops: IndexMap::new(alloc),
        }
    }

    // Takes up a key that comes behind others.
    fn push(&mut self, info: &KeyInfo, place: usize) -> Result<(), NoMemory>
        ensures { OnOk result ((keys : List runs.KeyInfo) → length keys ≡ place → IsKeyIndex self.old keys → IsKeyIndex self.new (keys ++ info_in info.now ∷ [])) }
    {
        match info.key {
            Key::Parameter(node) => self.parameters.put(node, place),
            Key::Address(node) => self.addresses.put(node, place),
            Key::Unset(node) => self.unset.put(node, place),
            Key::Load(node) => self.loads.put(node, place),
            Key::Call(node) => self.calls.put(node, place),
            Key::Loop(node, register) => {
                put_loop(&mut self.loops, LoopKey { node, register }, place)
            }
        }
    }

    /// The index of these keys.
    pub fn of(alloc: Global, keys: &[KeyInfo]) -> Result<KeyIndex, NoMemory>
        ensures { IfOk result (λ index. IsKeyIndex index (map info_in keys.now)) }
    {
        let mut index = KeyIndex::empty(alloc);
        for (place, info) in keys.iter().enumerate() {
            index.push(info, place)?;
        }
        Ok(index)
    }

    /// The place of the key of a parameter that is a register, by its declarator; none where it isn't among the keys.
    pub fn parameter(&self, node: u32) -> Option<usize>
        ensures { (keys : List runs.KeyInfo) → IsKeyIndex self.now keys → result ≡ key_place (parameter_key node) keys }
    {
        self.parameters.at(node)
    }

    /// The place of the key of an object's address; none where it isn't among the keys.
    pub fn address(&self, node: u32) -> Option<usize>
        ensures { (keys : List runs.KeyInfo) → IsKeyIndex self.now keys → result ≡ key_place (address_key node) keys }
    {
        self.addresses.at(node)
    }

    /// The place of the key of a register without initialiser; none where it isn't among the keys.
    pub fn unset(&self, node: u32) -> Option<usize>
        ensures { (keys : List runs.KeyInfo) → IsKeyIndex self.now keys → result ≡ key_place (unset_key node) keys }
    {
        self.unset.at(node)
    }

    /// The place of the key of a load; none where it isn't among the keys.
    pub fn load(&self, node: u32) -> Option<usize>
        ensures { (keys : List runs.KeyInfo) → IsKeyIndex self.now keys → result ≡ key_place (load_key node) keys }
    {
        self.loads.at(node)
    }

    /// The place of the key of a call; none where it isn't among the keys.
    pub fn call(&self, node: u32) -> Option<usize>
        ensures { (keys : List runs.KeyInfo) → IsKeyIndex self.now keys → result ≡ key_place (call_key node) keys }
    {
        self.calls.at(node)
    }

    /// The place of the key of a register that a loop sets first; none where it isn't among the keys.
    pub fn in_loop(&self, node: u32, register: u32) -> Option<usize>
        ensures { (keys : List runs.KeyInfo) → IsKeyIndex self.now keys → result ≡ key_place (loop_key node register) keys }
    {
        self.loops.get(&LoopKey { node, register }).copied()
    }
}

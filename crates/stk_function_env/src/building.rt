//! The setting of a function.

ghost use Rattle.std.specs.Prelude.{◌≡◌, ◌≤◌, ◌++◌, [], length, map, take, IfOk};
ghost use Rattle.stk_tree.specs.View.{view_parameter, view_function, parameters};
ghost use Rattle.stk_function_types.specs.Nodes.{typing_in};
ghost use Rattle.stk_meaning.specs.Keys.{visit_registers, visit_mentions, setting_of, keys_of};
ghost use Rattle.stk_function_types.specs.Visits.{marked_visit};
ghost use Rattle.stk_function_types.specs.Gathered.{gathered};
ghost use Rattle.stk_function_env.specs.Infos.{info_in};
ghost use Rattle.stk_function_env.specs.Listed.{parameters_registers};
ghost use Rattle.stk_function_env.specs.Settings.{setting_in, mention_in};

use crate::keys::{kept_among, keys_among};
use crate::mentions::{mentions_among, mentions_index};
use crate::registers::registers_among;
use crate::{KeyInfo, Mention, Setting};
use std::alloc::Global;
use stk_address_taken::NodeSet;
use stk_base::NoMemory;
use stk_function_types::{FunctionTypes, Visit, function_visits};
use stk_numbers::Kinds;
use stk_tree::{Function, Param};

// A setting of these registers and mentions, without kept objects and keys.
fn with_registers<'a>(
    alloc: Global,
    types: &'a FunctionTypes<'a>,
    without: Kinds,
    registers: Vec<u32>,
    mentions: Vec<Mention>,
) -> Result<Setting<'a>, NoMemory>
    ensures { IfOk result (λ s. s ≡ record { types = types.now; without = without; registers = registers.items; mentions = map (mention_in types.now.bytes) mentions.items; kept = []; keys = [] }) }
{
    let list = Vec::from_slice(alloc, registers.as_slice())?;
    let marks = NodeSet::of(alloc, list)?;
    let index = mentions_index(alloc, types.bytes(), mentions.as_slice())?;
    Ok(Setting {
        types,
        without,
        registers,
        marks,
        mentions,
        index,
        kept: Vec::new(alloc),
        keys: Vec::new(alloc),
    })
}

// The setting of a function before its kept objects are known.
fn first_setting<'a>(
    alloc: Global,
    types: &'a FunctionTypes<'a>,
    without: Kinds,
    list: &[Param],
    visits: &[Visit],
) -> Result<Setting<'a>, NoMemory>
    ensures { IfOk result (λ s. (s.types ≡ types.now) × (s.without ≡ without) × (s.registers ≡ parameters_registers (typing_in types.now) (parameters (map view_parameter list.now)) ++ gathered (visit_registers (typing_in types.now)) (map marked_visit visits.now)) × (s.mentions ≡ gathered (visit_mentions (typing_in types.now)) (map marked_visit visits.now)) × (s.kept ≡ [])) }
{
    let registers = registers_among(alloc, types, list, visits)?;
    let mentions = mentions_among(alloc, types, visits)?;
    with_registers(alloc, types, without, registers, mentions)
}

// A setting with these keys and kept objects.
fn with_keys<'a>(setting: Setting<'a>, keys: Vec<KeyInfo>, kept: Vec<u32>) -> Setting<'a>
    requires { length kept.items ≤ 32 }
    ensures { result ≡ record setting.entry { keys = map info_in keys.items; kept = kept.items } }
{
    let mut setting = setting;
    setting.keys = keys;
    setting.kept = kept;
    setting
}

// The first 32 of some numbers.
fn first_few(list: Vec<u32>) -> Vec<u32>
    ensures is { result.items ≡ take 32 list.items }
    ensures few { length result.items ≤ 32 }
{
    let mut list = list;
    list.truncate(32);
    list
}

impl<'a> Setting<'a> {
    /// The setting of a function under these types, with these kinds of conditions taken out.
    pub fn new(
        alloc: Global,
        types: &'a FunctionTypes<'a>,
        without: Kinds,
        f: &Function,
    ) -> Result<Setting<'a>, NoMemory>
        ensures setting { IfOk result (λ s. setting_in s ≡ setting_of (typing_in types.now) without (view_function f.now)) }
        ensures keys { IfOk result (λ s. s.keys ≡ keys_of (typing_in types.now) without (view_function f.now)) }
        ensures types { IfOk result (λ s. s.types ≡ types.now) }
    {
        let all = function_visits(alloc, types, f)?;
        let visits = all.as_slice();
        let list = f.declr.parameters();
        let first = first_setting(alloc, types, without, list, visits)?;
        let keys = keys_among(alloc, &first, list, visits)?;
        let kept = kept_among(alloc, types, keys.as_slice())?;
        Ok(with_keys(first, keys, first_few(kept)))
    }
}

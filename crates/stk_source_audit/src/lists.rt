// What a function that is judged has: the kinds of its keys, its candidates and its conditions.
ghost use Rattle.std.specs.Prelude.{◌≡◌, ◌≤◌, Some, map, nat_le, IfOk};
ghost use Rattle.stk_tree.specs.Nodes.{unit_nodes};
ghost use Rattle.stk_tree.specs.View.{view_function, view_unit};
ghost use Rattle.stk_meaning.specs.Keys.{input_bits as key_bits};
ghost use Rattle.stk_function_types.specs.Nodes.{typing_in};
ghost use Rattle.stk_function_env.specs.Infos.{info_in};
ghost use Rattle.stk_units.specs.Functions.{unit_typing, IsDefinition};
ghost use Rattle.stk_units.specs.Known.{IsReadWell};
ghost use Rattle.stk_units.specs.Causes.{body_cause, measured_cause};
ghost use Rattle.stk_source_audit.specs.Judged.{AreListsBy, AreListsOf, AreUnitLists};

use std::alloc::Global;
use stk_base::NoMemory;
use stk_cands::{candidates, conditions};
use stk_ctype::Names;
use stk_function_env::Setting;
use stk_function_types::FunctionTypes;
use stk_goals::kinds_of;
use stk_numbers::{Candidate, Condition, IntKind, Kinds};
use stk_path_runs::input_bits;
use stk_tree::{Function, Unit};
use stk_typed::{Untyped, typed_of};
use stk_units::{function_weight, weight_cause};

/// The kinds of the keys of a function, its candidates and its conditions, in order, and whether all its input maps are
/// to be tried: it has at most 16 input bits.
#[derive(Drop)]
pub(crate) struct FunctionLists {
    pub kinds: Vec<IntKind>,
    pub candidates: Vec<Candidate>,
    pub conditions: Vec<Condition>,
    pub tries_all: bool,
}

/// Those of a function, by its setting.
fn setting_lists(
    alloc: Global,
    types: &FunctionTypes,
    setting: &Setting,
    f: &Function,
) -> Result<FunctionLists, NoMemory>
    requires { setting.now.types ≡ types.now }
    ensures { IfOk result (λ lists. AreListsBy (typing_in types.now) setting.now.without (view_function f.now) setting.now.keys lists) }
{
    let kinds = kinds_of(alloc, setting.keys())?;
    let candidates = candidates(alloc, types, f)?;
    let conditions = conditions(alloc, types, setting.without(), f)?;
    Ok(FunctionLists {
        kinds,
        candidates,
        conditions,
        tries_all: input_bits(setting.keys()) <= 16,
    })
}

/// Those of a function whose body is typed, where it isn't too heavy.
fn typed_lists(
    alloc: Global,
    types: &FunctionTypes,
    f: &Function,
    without: Kinds,
) -> Result<Option<FunctionLists>, NoMemory>
    requires is { IsDefinition (view_unit types.now.unit) (view_function f.now) }
    requires few { unit_nodes (view_unit types.now.unit) ≤ 20000 }
    ensures { IfOk result (AreListsOf (typing_in types.now) without (view_function f.now) (measured_cause (typing_in types.now) without (view_unit types.now.unit))) }
{
    let setting = Setting::new(alloc, types, without, f)?;
    let weight = function_weight(alloc, &setting)?;
    if weight_cause(weight).is_some() {
        return Ok(None);
    }
    let lists = setting_lists(alloc, types, &setting, f)?;
    Ok(Some(lists))
}

/// Those of a function definition, under the names that its head leaves, where it is judged.
fn function_lists(
    alloc: Global,
    bytes: &[u8],
    unit: &Unit,
    f: &Function,
    names: &Names,
    without: Kinds,
) -> Result<Option<FunctionLists>, NoMemory>
    requires is { IsDefinition (view_unit unit.now) (view_function f.now) }
    requires read { IsReadWell (view_unit unit.now) }
    ensures { IfOk result (AreListsOf (unit_typing bytes.now names.now (view_unit unit.now)) without (view_function f.now) (body_cause bytes.now without names.now (view_unit unit.now))) }
{
    match typed_of(alloc, bytes, unit, names) {
        Ok(types) => typed_lists(alloc, &types, f, without),
        Err(Untyped::NoMemory) => Err(NoMemory),
        Err(_) => Ok(None),
    }
}

/// Those of a unit that is accepted and leaves these names, where it defines a function that is judged.
pub(crate) fn unit_lists(
    alloc: Global,
    bytes: &[u8],
    unit: &Unit,
    names: &Names,
    without: Kinds,
) -> Result<Option<FunctionLists>, NoMemory>
    requires { IsReadWell (view_unit unit.now) }
    ensures { IfOk result (AreUnitLists bytes.now without names.now (view_unit unit.now)) }
{
    match unit {
        Unit::Defines(_, f) => function_lists(alloc, bytes, unit, f, names, without),
        Unit::Empty(_) | Unit::Declares(_, _) => Ok(None),
    }
}

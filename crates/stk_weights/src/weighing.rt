//! The weight of a function.

ghost use Rattle.std.specs.Prelude.{◌≡◌, ◌≤◌, ◌+◌, ◌*◌, ◌-◌, ◌^◌, ℕ, true, min, IfOk, length};
ghost use Rattle.stk_tree.specs.Nodes.{function_nodes, unit_nodes};
ghost use Rattle.stk_tree.specs.View.{view_function, view_unit};
ghost use Rattle.stk_function_types.specs.Nodes.{typing_in};
ghost use Rattle.stk_meaning.specs.Keys.{function_visits, objects_in};
ghost use Rattle.stk_meaning.specs.Weights.{visits_weight, pairs_among, weight};
ghost use Rattle.stk_function_env.specs.Settings.{setting_in};
ghost use Rattle.stk_weights.specs.Sums.{capped};
ghost use Rattle.stk_weights.specs.Events.{counts};
ghost use Rattle.stk_weights.specs.Counting.{total};
ghost use Rattle.stk_weights.specs.Loads.{load, visit_limit};
ghost use Rattle.stk_weights.specs.Units.{unit_weight, IsSettingOfFunction, IsWhole};

use crate::counting::counted;
use crate::events::function_events;
use crate::objects::{objects_among, pairs_among};
use crate::visits::visits_weight;
use std::alloc::Global;
use stk_base::NoMemory;
use stk_function_env::Setting;
use stk_function_types::function_visits;
use stk_nodes::unit_nodes;
use stk_tree::{Function, Unit};

// 128 for each node of a unit, or 2^64 - 1 where that is more.
fn nodes_weight(alloc: Global, unit: &Unit) -> Result<u64, NoMemory>
    ensures { IfOk result (λ n. n ≡ capped (128 * unit_nodes (view_unit unit.now))) }
{
    let row = unit_nodes(alloc, unit)?;
    let count = row.len() as u64;
    Ok(count.saturating_mul(128))
}

// How often the registers of a function count, all together, or 2^64 - 1 where that is more.
fn function_counts(alloc: Global, setting: &Setting, f: &Function) -> Result<u64, NoMemory>
    ensures { let g = setting_in setting.now in IfOk result (λ n. n ≡ capped (total (λ r. counts g r (function_visits g.typing (view_function f.now))) g.registers)) }
{
    let events = function_events(alloc, setting, f)?;
    let count = counted(alloc, setting.registers(), events.as_slice())?;
    Ok(count)
}

// What visits add, and 256 for each time that a register counts, or 2^64 - 1 where that is more.
fn sum_of_visits(own: u64, count: u64) -> u64
    ensures { (m n : ℕ) → own ≡ capped m → count ≡ capped n → result ≡ capped (m + 256 * n) }
{
    own.saturating_add(count.saturating_mul(256))
}

// What the nodes of a function add to 128 each, or 2^64 - 1 where that is more.
fn function_weight(alloc: Global, setting: &Setting, f: &Function) -> Result<u64, NoMemory>
    ensures is { IfOk result (λ n. n ≡ capped (visits_weight (setting_in setting.now) true (function_visits (setting_in setting.now).typing (view_function f.now)))) }
    ensures limited { let all_visits = function_visits (setting_in setting.now).typing (view_function f.now) in IfOk result (λ n. visits_weight (setting_in setting.now) true all_visits ≤ visit_limit (setting_in setting.now) * load all_visits) }
{
    let visits = function_visits(alloc, setting.types(), f)?;
    let own = visits_weight(alloc, setting, visits.as_slice())?;
    let count = function_counts(alloc, setting, f)?;
    Ok(sum_of_visits(own, count))
}

// 2,048 for each of so many objects and pairs, or 2^64 - 1 where that is more.
fn sum_of_objects(count: u64, pairs: u64) -> u64
    ensures { (p : ℕ) → pairs ≡ capped p → result ≡ capped (2048 * count + 2048 * p) }
{
    let sum = pairs.saturating_mul(2048);
    count.saturating_mul(2048).saturating_add(sum)
}

// 2,048 for each memory object and for each pair of them, or 2^64 - 1 where that is more.
fn objects_weight(alloc: Global, setting: &Setting) -> Result<u64, NoMemory>
    ensures { let objects = objects_in (typing_in setting.now.types) setting.now.keys in IfOk result (λ n. n ≡ capped (2048 * length objects + 2048 * pairs_among setting.now.kept objects)) }
{
    let list = objects_among(alloc, setting.types(), setting.kept(), setting.keys())?;
    let count = list.len() as u64;
    let pairs = pairs_among(list.as_slice());
    Ok(sum_of_objects(count, pairs))
}

// A sum of three, or 2^64 - 1 where that is more.
fn sum_of_three(a: u64, b: u64, c: u64) -> u64
    ensures { result ≡ min (min (a + b) (2 ^ 64 - 1) + c) (2 ^ 64 - 1) }
{
    let sum = a.saturating_add(b);
    sum.saturating_add(c)
}

// The weight of the function that a unit defines, or 2^64 - 1 where it is more.
fn defined_weight(
    alloc: Global,
    setting: &Setting,
    unit: &Unit,
    f: &Function,
) -> Result<u64, NoMemory>
    requires whole { IsSettingOfFunction (view_function f.now) setting.now }
    requires nodes { unit_nodes (view_unit unit.now) ≡ function_nodes (view_function f.now) + 1 }
    ensures is { IfOk result (λ w. w ≡ capped (weight (typing_in setting.now.types) setting.now.without (view_function f.now))) }
    ensures exact { function_nodes (view_function f.now) ≤ 20000 → IfOk result (λ w. w ≡ weight (typing_in setting.now.types) setting.now.without (view_function f.now)) }
{
    let nodes = nodes_weight(alloc, unit)?;
    let own = function_weight(alloc, setting, f)?;
    let objects = objects_weight(alloc, setting)?;
    Ok(sum_of_three(nodes, own, objects))
}

/// The weight of the function that a setting is of, by the unit that its types are of: 128 for each node, what the
/// table of weights adds to the nodes, 2,048 for each memory object, and as much for each pair of a kept object and
/// another one that has a name and a scalar or struct type; or 2^64 - 1 where that is more, which it isn't where the
/// unit has at most 20,000 nodes. A unit that defines no function has none.
///
/// The setting is that of the function, as `Setting::new` makes it.
pub fn weight_of(alloc: Global, setting: &Setting) -> Result<u64, NoMemory>
    requires { IsWhole setting.now }
    ensures is { IfOk result (λ w. w ≡ capped (unit_weight (typing_in setting.now.types) setting.now.without (view_unit setting.now.types.unit))) }
    ensures exact { unit_nodes (view_unit setting.now.types.unit) ≤ 20000 → IfOk result (λ w. w ≡ unit_weight (typing_in setting.now.types) setting.now.without (view_unit setting.now.types.unit)) }
{
    let unit = setting.types().unit();
    match unit {
        Unit::Empty(_) | Unit::Declares(_, _) => Ok(0),
        Unit::Defines(_, f) => {
            let sum = defined_weight(alloc, setting, unit, f)?;
            Ok(sum)
        }
    }
}

//! The walk of a function as its callers ask for it.

ghost use Rattle.std.specs.Prelude.{◌≡◌, ◌<◌, ◌≤◌, ◌+◌, ◌^◌, ℤ, List, length, map, IfOk, OnOk};
ghost use Rattle.stk_ctype.specs.declared.kind.IntKind.TheVariants.{Int};
ghost use Rattle.stk_tree.specs.Syntax.{FunctionTree};
ghost use Rattle.stk_tree.specs.View.{view_function, view_statement};
ghost use Rattle.stk_numbers.specs.declared.conditions.Kinds as kinds;
ghost use Rattle.stk_meaning.specs.Typings.{Typing};
ghost use Rattle.stk_meaning.specs.Keys.{KeyInfo, keys_of, kept_of, objects_of};
ghost use Rattle.stk_meaning.specs.Maps.{are_valid, addresses_in};
ghost use Rattle.stk_meaning.specs.Paths.{number_under, path};
ghost use Rattle.stk_meaning.specs.Lists as lists;
ghost use Rattle.stk_function_types.specs.Nodes.{typing_in};
ghost use Rattle.stk_kinded.specs.Keys.{HaveKeyKinds};
ghost use Rattle.stk_kinded.specs.KindedStatements.{KindedStatement};
ghost use Rattle.stk_eval_expr.specs.Loops.{EachLoop};
ghost use Rattle.stk_values.specs.Keeping.{Keeps, truth};
ghost use Rattle.stk_values.specs.Walks.{EachTest, Says, event_of};
ghost use Rattle.stk_walking.specs.Keyed.{AreThere};
ghost use Rattle.stk_spending.specs.Functions.{function_spent};
ghost use Rattle.stk_event_laws.specs.Listed.{StandOnce, body_events};
ghost use Rattle.stk_event_laws.specs.Positions.{listed_event, listed_events};
ghost use Rattle.stk_walk.specs.Walks.{AreParts};
ghost use Rattle.stk_walk.specs.Walkable.{IsWalkable};

use crate::function_objects::objects_among;
use crate::registers::register_parameters;
use crate::tables::TableSetting;
use crate::walked::WalkedFunction;
use crate::walking::{FunctionParts, walk};
use std::alloc::Global;
use stk_base::NoMemory;
use stk_numbers::Candidate;
use stk_path_runs::{FunctionTables, MappedFunction};
use stk_tree::Function;
use stk_values::{Values, Walked};

// The walk of a function by a setting of its path runs, whatever that is.
fn walk_by<T: TableSetting, V: Values>(
    alloc: Global,
    setting: &T,
    parts: &FunctionParts,
    values: &mut V,
) -> Result<Walked<V::Value>, NoMemory>
    requires key_kinds { HaveKeyKinds (T.setting setting.now) (T.keys setting.now) }
    requires few_keys { length (T.keys setting.now) < 2 ^ 32 }
    requires loops { EachLoop (T.knows setting.now) (view_statement parts.now.body.now) }
    requires kinded { KindedStatement (T.setting setting.now) (view_statement parts.now.body.now) }
    requires keys { AreThere (V.has_key values.old) (map (λ (x : KeyInfo). x.kind) (T.keys setting.now)) }
    requires kept { parts.now.kept.now ≡ (T.setting setting.now).kept }
    requires few { length parts.now.candidates.now < 2 ^ 32 }
    ensures tests { IfOk result (λ w. V.made values.new Int w.valid × EachTest (V.made values.new Int) w.steps) }
    ensures valid { (ty : Typing) (without : kinds.Kinds) (f : FunctionTree) → AreParts ty without f (T.setting setting.now) (number_under (T.keys setting.now)) parts.now → IfOk result (λ w. (m : List ℤ) → V.serves values.old m → V.shows values.new m Int w.valid (truth (are_valid (kept_of ty without f) (objects_of ty without f) (addresses_in (number_under (keys_of ty without f) m))))) }
    ensures steps { (ty : Typing) (without : kinds.Kinds) (f : FunctionTree) → AreParts ty without f (T.setting setting.now) (number_under (T.keys setting.now)) parts.now → IfOk result (λ w. (m : List ℤ) → V.serves values.old m → Says (λ v b. V.shows values.new m Int v (truth b)) w.steps (listed_events (lists.candidates ty f) (path ty without f m))) }
    ensures once { (ty : Typing) (without : kinds.Kinds) (f : FunctionTree) → AreParts ty without f (T.setting setting.now) (number_under (T.keys setting.now)) parts.now → IfOk result (λ w. StandOnce (map (λ x. event_of x) w.steps)) }
    ensures keeps { OnOk result (Keeps V.serves V.has_key V.made V.shows values.old values.new) }
    ensures listed { (ty : Typing) (without : kinds.Kinds) (f : FunctionTree) → AreParts ty without f (T.setting setting.now) (number_under (T.keys setting.now)) parts.now → IfOk result (λ w. map (λ x. event_of x) w.steps ≡ map (listed_event (lists.candidates ty f)) (body_events ty without f)) }
    ensures cost { (ty : Typing) (without : kinds.Kinds) (f : FunctionTree) → AreParts ty without f (T.setting setting.now) (number_under (T.keys setting.now)) parts.now → OnOk result (V.cost values.new ≤ V.cost values.old + function_spent ty without f) }
{
    let out = WalkedFunction::new(setting);
    walk(alloc, &out, parts, values)
}

/// The walk of a function over all its branches (Wang, Zeldovich, Kaashoek, Solar-Lezama, SOSP 2013, section 4.3), by
/// the tables of its path runs and its candidates in order. Under each input map that the store serves, `valid` is 1
/// exactly where the addresses of the map are valid, and the steps whose test is 1 are the conditions that the path
/// run of the map violates and the candidates that it hits, in order, each candidate by its place in the list. Each
/// condition and each candidate has one step at most. What was made before keeps its numbers, and the store costs no
/// more than it did and what the walk of the function may cost. Nothing is said of what `NoMemory` leaves.
pub fn walk_function<V: Values>(
    alloc: Global,
    tables: &FunctionTables,
    f: &Function,
    candidates: &[Candidate],
    values: &mut V,
) -> Result<Walked<V::Value>, NoMemory>
    requires walkable { IsWalkable tables.now (view_function f.now) }
    requires candidates { candidates.now ≡ lists.candidates (typing_in tables.now.places.types) (view_function f.now) }
    requires few { length candidates.now < 2 ^ 32 }
    requires keys { AreThere (V.has_key values.old) (map (λ (x : KeyInfo). x.kind) (keys_of (typing_in tables.now.places.types) tables.now.places.without (view_function f.now))) }
    ensures tests { IfOk result (λ w. V.made values.new Int w.valid × EachTest (V.made values.new Int) w.steps) }
    ensures valid { IfOk result (λ w. (m : List ℤ) → V.serves values.old m → V.shows values.new m Int w.valid (truth (are_valid (kept_of (typing_in tables.now.places.types) tables.now.places.without (view_function f.now)) (objects_of (typing_in tables.now.places.types) tables.now.places.without (view_function f.now)) (addresses_in (number_under (keys_of (typing_in tables.now.places.types) tables.now.places.without (view_function f.now)) m))))) }
    ensures steps { IfOk result (λ w. (m : List ℤ) → V.serves values.old m → Says (λ v b. V.shows values.new m Int v (truth b)) w.steps (listed_events (lists.candidates (typing_in tables.now.places.types) (view_function f.now)) (path (typing_in tables.now.places.types) tables.now.places.without (view_function f.now) m))) }
    ensures once { IfOk result (λ w. StandOnce (map (λ x. event_of x) w.steps)) }
    ensures keeps { OnOk result (Keeps V.serves V.has_key V.made V.shows values.old values.new) }
    ensures listed { IfOk result (λ w. map (λ x. event_of x) w.steps ≡ map (listed_event (lists.candidates (typing_in tables.now.places.types) (view_function f.now))) (body_events (typing_in tables.now.places.types) tables.now.places.without (view_function f.now))) }
    ensures cost { OnOk result (V.cost values.new ≤ V.cost values.old + function_spent (typing_in tables.now.places.types) tables.now.places.without (view_function f.now)) }
{
    let setting = tables.setting();
    let kept = setting.kept();
    let types = setting.types();
    let keys = setting.keys();
    let parameters = register_parameters(alloc, types, f)?;
    let objects = objects_among(alloc, types, kept, keys)?;
    let parts = FunctionParts {
        body: &f.body,
        parameters: parameters.as_slice(),
        kept,
        objects: objects.as_slice(),
        candidates,
    };
    let mapped = MappedFunction {
        tables,
        numbers: &[],
        alloc,
    };
    walk_by(alloc, &mapped, &parts, values)
}

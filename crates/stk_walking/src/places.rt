//! Reads and stores of places by name, on the whole state of a walk.

ghost use Rattle.std.specs.Prelude.{◌≡◌, ℤ, ℕ, List, Some, IfOk, OnOk, set, ◌+◌, ◌*◌, ◌≤◌, length};
ghost use Rattle.stk_meaning.specs.Typings.{number_kind};
ghost use Rattle.stk_meaning.specs.Places.{in_register, in_kept};
ghost use Rattle.stk_meaning.specs.Keys.{load_key};
ghost use Rattle.stk_meaning.specs.Worlds.{gives};
ghost use Rattle.stk_meaning.specs.Paths.{InputMap, path_world, all_forgotten};
ghost use Rattle.stk_meaning.specs.Expressions.{number_in, stored_at};
ghost use Rattle.stk_operators.specs.Targets.{target_shown};
ghost use Rattle.stk_kinded.specs.Kinds.{key_kind, Suits};
ghost use Rattle.stk_values.specs.Keeping.{Keeps};
ghost use Rattle.stk_guarded.specs.Standing.{Standing, moved_to};
ghost use Rattle.stk_walking.specs.Events.{events_in};
ghost use Rattle.stk_walking.specs.Stands.{Stands, IsMade};
ghost use Rattle.stk_walking.specs.Keyed.{AreThere, key_shown};
ghost use Rattle.stk_walking.specs.Leads.{Leads, Evaluates};
ghost use Rattle.stk_numbers.specs.Kinds.{width_of};
ghost use Rattle.stk_spending.specs.Charges.{read_charge, store_charge};
ghost use Rattle.stk_walking.specs.Costs.{Costs};

use crate::asked::WalkSetting;
use crate::cells::{read_cell, remove_cells, store_cell};
use crate::inputs::input_value;
use crate::keys::InputKey;
use crate::registers::{read_register, set_register};
use crate::state::WalkState;
use stk_base::NoMemory;
use stk_numbers::IntKind;
use stk_operators::Target;
use stk_values::Values;

// The number of a register.
fn read_named_register<O: WalkSetting, V: Values>(
    out: &O,
    node: u32,
    at: u32,
    kind: IntKind,
    values: &mut V,
    state: &WalkState<V::Value>,
) -> Result<V::Value, NoMemory>
    requires suits { Suits (O.setting out.now) (in_register at) kind }
    requires made { IsMade (V.made values.old) (O.setting out.now) state.now }
    ensures makes { IfOk result (λ v. V.made values.new kind v) }
    ensures made { OnOk result (IsMade (V.made values.new) (O.setting out.now) state.now) }
    ensures follows { IfOk result (λ v. (a : ℕ) → Evaluates (V.serves values.old) (V.shows values.old) (V.shows values.new) (O.setting out.now) (λ m x. V.shows values.new m kind v x) (λ m r kept. number_in (path_world (O.under out.now m)) (in_register at) node kind a r kept) state.now state.now) }
    ensures keeps { Keeps V.serves V.has_key V.made V.shows values.old values.new }
    ensures cost { OnOk result ((kept : ℕ) → Costs V.cost kept 0 values.old values.new (length state.now.cells.items) (length state.now.cells.items)) }
{
    let found = read_register(values, &state.registers, at, kind)?;
    Ok(found)
}

// The number of a kept object: the kept one, or that of the load at a node, which is kept then.
fn read_named_cell<O: WalkSetting, V: Values>(
    out: &O,
    node: u32,
    at: u32,
    kind: IntKind,
    values: &mut V,
    state: &mut WalkState<V::Value>,
) -> Result<V::Value, NoMemory>
    requires kind { kind ≡ key_kind (O.setting out.now) (load_key node) }
    requires suits { Suits (O.setting out.now) (in_kept at) kind }
    requires keys { AreThere (V.has_key values.old) (O.kinds out.now) }
    requires made { IsMade (V.made values.old) (O.setting out.now) state.old }
    ensures makes { IfOk result (λ v. V.made values.new kind v) }
    ensures made { OnOk result (IsMade (V.made values.new) (O.setting out.now) state.new) }
    ensures events { OnOk result (events_in state.new.steps.items ≡ events_in state.old.steps.items) }
    ensures follows { IfOk result (λ v. (a : ℕ) → Evaluates (V.serves values.old) (V.shows values.old) (V.shows values.new) (O.setting out.now) (λ m x. V.shows values.new m kind v x) (λ m r kept. number_in (path_world (O.under out.now m)) (in_kept at) node kind a r kept) state.old state.new) }
    ensures keeps { Keeps V.serves V.has_key V.made V.shows values.old values.new }
    ensures cost { OnOk result ((kept : ℕ) → Costs V.cost kept (3 * width_of kind + 3) values.old values.new (length state.old.cells.items) (length state.new.cells.items)) }
{
    let guard = state.guard;
    let loaded = input_value(out, InputKey::Load(node), kind, values)?;
    let found = read_cell(values, guard, &mut state.cells, at, kind, loaded)?;
    Ok(found)
}

// The number of the load at a node.
fn read_loaded<O: WalkSetting, V: Values>(
    out: &O,
    node: u32,
    kind: IntKind,
    values: &mut V,
    state: &WalkState<V::Value>,
) -> Result<V::Value, NoMemory>
    requires kind { kind ≡ key_kind (O.setting out.now) (load_key node) }
    requires keys { AreThere (V.has_key values.old) (O.kinds out.now) }
    requires made { IsMade (V.made values.old) (O.setting out.now) state.now }
    ensures makes { IfOk result (λ v. V.made values.new kind v) }
    ensures made { OnOk result (IsMade (V.made values.new) (O.setting out.now) state.now) }
    ensures follows { IfOk result (λ v. Evaluates (V.serves values.old) (V.shows values.old) (V.shows values.new) (O.setting out.now) (λ m x. V.shows values.new m kind v x) (λ m. gives (O.under out.now m (load_key node))) state.now state.now) }
    ensures keeps { Keeps V.serves V.has_key V.made V.shows values.old values.new }
    ensures cost { OnOk result ((kept : ℕ) → Costs V.cost kept 0 values.old values.new (length state.now.cells.items) (length state.now.cells.items)) }
{
    let found = input_value(out, InputKey::Load(node), kind, values)?;
    Ok(found)
}

// The number of a place by name, in the kind of the type of a node.
fn read_in_kind<O: WalkSetting, V: Values>(
    out: &O,
    node: u32,
    target: Target,
    kind: IntKind,
    values: &mut V,
    state: &mut WalkState<V::Value>,
) -> Result<V::Value, NoMemory>
    requires kind { kind ≡ key_kind (O.setting out.now) (load_key node) }
    requires suits { Suits (O.setting out.now) (target_shown target) kind }
    requires keys { AreThere (V.has_key values.old) (O.kinds out.now) }
    requires made { IsMade (V.made values.old) (O.setting out.now) state.old }
    ensures makes { IfOk result (λ v. V.made values.new kind v) }
    ensures made { OnOk result (IsMade (V.made values.new) (O.setting out.now) state.new) }
    ensures events { OnOk result (events_in state.new.steps.items ≡ events_in state.old.steps.items) }
    ensures follows { IfOk result (λ v. (a : ℕ) → Evaluates (V.serves values.old) (V.shows values.old) (V.shows values.new) (O.setting out.now) (λ m x. V.shows values.new m kind v x) (λ m r kept. number_in (path_world (O.under out.now m)) (target_shown target) node kind a r kept) state.old state.new) }
    ensures keeps { Keeps V.serves V.has_key V.made V.shows values.old values.new }
    ensures cost { OnOk result ((kept : ℕ) → Costs V.cost kept (read_charge (target_shown target) kind) values.old values.new (length state.old.cells.items) (length state.new.cells.items)) }
{
    match target {
        Target::Register(at) => read_named_register(out, node, at, kind, values, state),
        Target::Kept(at) => read_named_cell(out, node, at, kind, values, state),
        Target::Object(_) => read_loaded(out, node, kind, values, state),
        Target::Unnamed => read_loaded(out, node, kind, values, state),
    }
}

/// The number of a place by name, in the kind of the type of a node: of a register its own; of a kept object the kept
/// one, or else that of the load at the node, which is kept then; of any other place that of the load (C11 6.3.2.1p2).
pub fn read_place<O: WalkSetting, V: Values>(
    out: &O,
    node: u32,
    target: Target,
    values: &mut V,
    state: &mut WalkState<V::Value>,
) -> Result<V::Value, NoMemory>
    requires suits { Suits (O.setting out.now) (target_shown target) (number_kind ((O.setting out.now).typing.type_at node)) }
    requires keys { AreThere (V.has_key values.old) (O.kinds out.now) }
    requires made { IsMade (V.made values.old) (O.setting out.now) state.old }
    ensures makes { IfOk result (λ v. V.made values.new (number_kind ((O.setting out.now).typing.type_at node)) v) }
    ensures made { OnOk result (IsMade (V.made values.new) (O.setting out.now) state.new) }
    ensures events { OnOk result (events_in state.new.steps.items ≡ events_in state.old.steps.items) }
    ensures follows { IfOk result (λ v. (a : ℕ) → Evaluates (V.serves values.old) (V.shows values.old) (V.shows values.new) (O.setting out.now) (λ m x. V.shows values.new m (number_kind ((O.setting out.now).typing.type_at node)) v x) (λ m r kept. number_in (path_world (O.under out.now m)) (target_shown target) node (number_kind ((O.setting out.now).typing.type_at node)) a r kept) state.old state.new) }
    ensures keeps { Keeps V.serves V.has_key V.made V.shows values.old values.new }
    ensures cost { OnOk result ((kept : ℕ) → Costs V.cost kept (read_charge (target_shown target) (number_kind ((O.setting out.now).typing.type_at node))) values.old values.new (length state.old.cells.items) (length state.new.cells.items)) }
{
    let kind = out.kind_at(node);
    let found = read_in_kind(out, node, target, kind, values, state)?;
    Ok(found)
}

// Sets a register where the guard is true.
fn store_in_register<O: WalkSetting, V: Values>(
    out: &O,
    at: u32,
    kind: IntKind,
    value: V::Value,
    values: &mut V,
    state: &mut WalkState<V::Value>,
) -> Result<(), NoMemory>
    requires suits { Suits (O.setting out.now) (in_register at) kind }
    requires value { V.made values.old kind value }
    requires made { IsMade (V.made values.old) (O.setting out.now) state.old }
    ensures made { OnOk result (IsMade (V.made values.new) (O.setting out.now) state.new) }
    ensures events { OnOk result (events_in state.new.steps.items ≡ events_in state.old.steps.items) }
    ensures stands { OnOk result ((m : List ℤ) (s : Standing) (x : ℤ) → V.serves values.old m → V.shows values.old m kind value x → Stands (V.shows values.old m) (O.setting out.now) state.old s → Stands (V.shows values.new m) (O.setting out.now) state.new (moved_to (set s.numbers at x) s.kept s)) }
    ensures keeps { Keeps V.serves V.has_key V.made V.shows values.old values.new }
    ensures charge { OnOk result (V.cost values.new ≤ V.cost values.old + 3 * width_of kind) }
    ensures cells { OnOk result (state.new.cells.items ≡ state.old.cells.items) }
{
    let guard = state.guard;
    set_register(values, guard, &mut state.registers, at, kind, value)?;
    Ok(())
}

// Stores a number in a kept object where the guard is true.
fn store_in_cell<O: WalkSetting, V: Values>(
    out: &O,
    at: u32,
    kind: IntKind,
    value: V::Value,
    values: &mut V,
    state: &mut WalkState<V::Value>,
) -> Result<(), NoMemory>
    requires suits { Suits (O.setting out.now) (in_kept at) kind }
    requires value { V.made values.old kind value }
    requires made { IsMade (V.made values.old) (O.setting out.now) state.old }
    ensures made { OnOk result (IsMade (V.made values.new) (O.setting out.now) state.new) }
    ensures events { OnOk result (events_in state.new.steps.items ≡ events_in state.old.steps.items) }
    ensures stands { OnOk result ((m : List ℤ) (s : Standing) (x : ℤ) → V.serves values.old m → V.shows values.old m kind value x → Stands (V.shows values.old m) (O.setting out.now) state.old s → Stands (V.shows values.new m) (O.setting out.now) state.new (moved_to s.numbers (set s.kept at (Some x)) s)) }
    ensures keeps { Keeps V.serves V.has_key V.made V.shows values.old values.new }
    ensures cost { OnOk result ((kept : ℕ) → Costs V.cost kept (3 * width_of kind + 3) values.old values.new (length state.old.cells.items) (length state.new.cells.items)) }
{
    let guard = state.guard;
    store_cell(values, guard, &mut state.cells, at, kind, value)?;
    Ok(())
}

/// Forgets all that is kept where the guard is true: the outside may have written.
pub fn forget<O: WalkSetting, V: Values>(
    out: &O,
    values: &mut V,
    state: &mut WalkState<V::Value>,
) -> Result<(), NoMemory>
    requires made { IsMade (V.made values.old) (O.setting out.now) state.old }
    ensures made { OnOk result (IsMade (V.made values.new) (O.setting out.now) state.new) }
    ensures events { OnOk result (events_in state.new.steps.items ≡ events_in state.old.steps.items) }
    ensures stands { OnOk result ((m : List ℤ) (s : Standing) → V.serves values.old m → Stands (V.shows values.old m) (O.setting out.now) state.old s → Stands (V.shows values.new m) (O.setting out.now) state.new (moved_to s.numbers (all_forgotten s.kept) s)) }
    ensures keeps { OnOk result (Keeps V.serves V.has_key V.made V.shows values.old values.new) }
    ensures cost { OnOk result ((kept : ℕ) → Costs V.cost kept (3 * kept) values.old values.new (length state.old.cells.items) (length state.new.cells.items)) }
{
    let guard = state.guard;
    remove_cells(values, guard, &mut state.cells)?;
    Ok(())
}

// Stores a number of a kind in a place by name where the guard is true.
fn store_in_kind<O: WalkSetting, V: Values>(
    out: &O,
    target: Target,
    kind: IntKind,
    value: V::Value,
    values: &mut V,
    state: &mut WalkState<V::Value>,
) -> Result<(), NoMemory>
    requires suits { Suits (O.setting out.now) (target_shown target) kind }
    requires value { V.made values.old kind value }
    requires made { IsMade (V.made values.old) (O.setting out.now) state.old }
    ensures made { OnOk result (IsMade (V.made values.new) (O.setting out.now) state.new) }
    ensures events { OnOk result (events_in state.new.steps.items ≡ events_in state.old.steps.items) }
    ensures stored { OnOk result ((m : List ℤ) (s : Standing) (inputs : InputMap) (a : ℕ) (x y : ℤ) → V.serves values.old m → V.shows values.old m kind value x → Stands (V.shows values.old m) (O.setting out.now) state.old s → Leads (V.shows values.new m) (O.setting out.now) (λ z. z ≡ y) (stored_at (path_world inputs) (target_shown target) kind a x y s.numbers s.kept) s state.new) }
    ensures keeps { OnOk result (Keeps V.serves V.has_key V.made V.shows values.old values.new) }
    ensures cost { OnOk result ((kept : ℕ) → Costs V.cost kept (store_charge kept (target_shown target) kind) values.old values.new (length state.old.cells.items) (length state.new.cells.items)) }
{
    match target {
        Target::Register(at) => {
            store_in_register(out, at, kind, value, values, state)?;
            Ok(())
        }
        Target::Kept(at) => {
            store_in_cell(out, at, kind, value, values, state)?;
            Ok(())
        }
        Target::Object(_) => Ok(()),
        Target::Unnamed => {
            forget(out, values, state)?;
            Ok(())
        }
    }
}

/// Stores a number in a place by name, in the kind of the type of a node, where the guard is true: in a register and in
/// a kept object; a store in another object leaves what is kept, and one elsewhere forgets it. The run's number is any
/// that the assignment gives.
pub fn store_place<O: WalkSetting, V: Values>(
    out: &O,
    node: u32,
    target: Target,
    value: V::Value,
    values: &mut V,
    state: &mut WalkState<V::Value>,
) -> Result<(), NoMemory>
    requires suits { Suits (O.setting out.now) (target_shown target) (number_kind ((O.setting out.now).typing.type_at node)) }
    requires value { V.made values.old (number_kind ((O.setting out.now).typing.type_at node)) value }
    requires made { IsMade (V.made values.old) (O.setting out.now) state.old }
    ensures made { OnOk result (IsMade (V.made values.new) (O.setting out.now) state.new) }
    ensures events { OnOk result (events_in state.new.steps.items ≡ events_in state.old.steps.items) }
    ensures stored { OnOk result ((m : List ℤ) (s : Standing) (inputs : InputMap) (a : ℕ) (x y : ℤ) → V.serves values.old m → V.shows values.old m (number_kind ((O.setting out.now).typing.type_at node)) value x → Stands (V.shows values.old m) (O.setting out.now) state.old s → Leads (V.shows values.new m) (O.setting out.now) (λ z. z ≡ y) (stored_at (path_world inputs) (target_shown target) (number_kind ((O.setting out.now).typing.type_at node)) a x y s.numbers s.kept) s state.new) }
    ensures keeps { OnOk result (Keeps V.serves V.has_key V.made V.shows values.old values.new) }
    ensures cost { OnOk result ((kept : ℕ) → Costs V.cost kept (store_charge kept (target_shown target) (number_kind ((O.setting out.now).typing.type_at node))) values.old values.new (length state.old.cells.items) (length state.new.cells.items)) }
{
    let kind = out.kind_at(node);
    store_in_kind(out, target, kind, value, values, state)?;
    Ok(())
}

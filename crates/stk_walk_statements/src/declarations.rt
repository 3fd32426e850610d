//! The declarations of local objects.

ghost use Rattle.std.specs.Prelude.{◌≡◌, ℤ, ◌∷◌, [], List, OnOk, false, map, option_map, ◌*◌, length, ℕ};
ghost use Rattle.stk_ctype.specs.declared.kind.IntKind.TheVariants.{Int};
ghost use Rattle.stk_tree.specs.Syntax.{some_initialiser, plain};
ghost use Rattle.stk_tree.specs.View.{view_expression, view_initialiser, view_item, items, maybe_initialiser, view_declarator, declarators, view_declaration};
ghost use Rattle.stk_type_rules.specs.Types.{is_scalar};
ghost use Rattle.stk_meaning.specs.Typings.{number_kind, converted, declarator_node};
ghost use Rattle.stk_meaning.specs.Places.{Setting, target_at};
ghost use Rattle.stk_meaning.specs.Visits.{declared_by, declared_in};
ghost use Rattle.stk_meaning.specs.Worlds.{Normal};
ghost use Rattle.stk_meaning.specs.Paths.{path_world, all_forgotten};
ghost use Rattle.stk_meaning.specs.Declarations.{items_run, item_run, initialiser_run, begun_with, begun_without, automatic_run, declarator_run, declarators_run, declaration_run};
ghost use Rattle.stk_kinded.specs.Kinds.{Suits};
ghost use Rattle.stk_kinded.specs.Kinded.{Kinded};
ghost use Rattle.stk_kinded.specs.KindedStatements.{KindedInitialiser, KindedItems, KindedItem, KindedInitial, KindedDeclarator, KindedDeclarators, KindedDeclaration};
ghost use Rattle.stk_values.specs.Keeping.{Keeps};
ghost use Rattle.stk_guarded.specs.Standing.{Standing, moved_to};
ghost use Rattle.stk_guarded.specs.Statements.{Declares};
ghost use Rattle.stk_walking.specs.Events.{events_in};
ghost use Rattle.stk_walking.specs.Keyed.{AreThere};
ghost use Rattle.stk_walking.specs.Stands.{Stands, IsMade};
ghost use Rattle.stk_walking.specs.ExpressionEvents.{value_events};
ghost use Rattle.stk_walking.specs.StatementEvents.{items_events, item_events, initialiser_events, initial_events, declarator_events, declarators_events, declaration_events};
ghost use Rattle.stk_walk_statements.specs.Walked.{Walked, Stood, as_part, as_declaration};
ghost use Rattle.stk_spending.specs.Statements.{initialiser_spent, items_spent, item_spent, bare_spent, begun_spent, initial_spent, declarator_spent, declarators_spent, declaration_spent};
ghost use Rattle.stk_walking.specs.Costs.{Costs};

use crate::scopes::put_register;
use stk_base::NoMemory;
use stk_operators::Target;
use stk_tree::{Declaration, Declr, Expr, Init, Item, is_static};
use stk_values::Values;
use stk_walking::{
    ExpressionWalk, InputKey, WalkSetting, WalkState, input_value, remove_cell, remove_cells,
    store_cell,
};

// An initialiser: its expressions in order (C11 6.7.9p19).
#[cycle(initialiser)]
fn initialiser<O: ExpressionWalk, V: Values>(
    out: &O,
    x: &Init,
    values: &mut V,
    state: &mut WalkState<V::Value>,
) -> Result<(), NoMemory>
    requires kinded { KindedInitialiser (O.setting out.now) (view_initialiser x.now) }
    requires keys { AreThere (V.has_key values.old) (O.kinds out.now) }
    requires made { IsMade (V.made values.old) (O.setting out.now) state.old }
    ensures walked { OnOk result (Walked V.serves V.has_key V.made V.shows (O.setting out.now) (initialiser_events (O.setting out.now) (view_initialiser x.now)) (as_part (λ m. initialiser_run (O.setting out.now) (path_world (O.under out.now m)) (view_initialiser x.now))) values.old values.new state.old state.new) }
    ensures cost { OnOk result (Costs V.cost (length (O.setting out.now).kept) (initialiser_spent (O.setting out.now) (view_initialiser x.now)) values.old values.new (length state.old.cells.items) (length state.new.cells.items)) }
{
    match x {
        Init::Plain(e) => {
            let _number = out.value(e, values, state)?;
            Ok(())
        }
        Init::Braces(list, _) => items(out, list.as_slice(), values, state),
    }
}

// The items of an initialiser in braces.
#[cycle(initialiser)]
fn items<O: ExpressionWalk, V: Values>(
    out: &O,
    list: &[Item],
    values: &mut V,
    state: &mut WalkState<V::Value>,
) -> Result<(), NoMemory>
    requires kinded { KindedItems (O.setting out.now) (items (map view_item list.now)) }
    requires keys { AreThere (V.has_key values.old) (O.kinds out.now) }
    requires made { IsMade (V.made values.old) (O.setting out.now) state.old }
    ensures walked { OnOk result (Walked V.serves V.has_key V.made V.shows (O.setting out.now) (items_events (O.setting out.now) (items (map view_item list.now))) (as_part (λ m. items_run (O.setting out.now) (path_world (O.under out.now m)) (items (map view_item list.now)))) values.old values.new state.old state.new) }
    ensures cost { OnOk result (Costs V.cost (length (O.setting out.now).kept) (items_spent (O.setting out.now) (items (map view_item list.now))) values.old values.new (length state.old.cells.items) (length state.new.cells.items)) }
{
    for x in list {
        item(out, x, values, state)?;
    }
    Ok(())
}

// An item of an initialiser in braces.
#[cycle(initialiser)]
fn item<O: ExpressionWalk, V: Values>(
    out: &O,
    x: &Item,
    values: &mut V,
    state: &mut WalkState<V::Value>,
) -> Result<(), NoMemory>
    requires kinded { KindedItem (O.setting out.now) (view_item x.now) }
    requires keys { AreThere (V.has_key values.old) (O.kinds out.now) }
    requires made { IsMade (V.made values.old) (O.setting out.now) state.old }
    ensures walked { OnOk result (Walked V.serves V.has_key V.made V.shows (O.setting out.now) (item_events (O.setting out.now) (view_item x.now)) (as_part (λ m. item_run (O.setting out.now) (path_world (O.under out.now m)) (view_item x.now))) values.old values.new state.old state.new) }
    ensures cost { OnOk result (Costs V.cost (length (O.setting out.now).kept) (item_spent (O.setting out.now) (view_item x.now)) values.old values.new (length state.old.cells.items) (length state.new.cells.items)) }
{
    initialiser(out, &x.init, values, state)
}

// Forgets all that is kept, where the run has come here: the outside writes.
fn forget<V: Values>(values: &mut V, state: &mut WalkState<V::Value>) -> Result<(), NoMemory>
    requires { (g : Setting) × IsMade (V.made values.old) g state.old }
    ensures made { OnOk result ((g : Setting) → IsMade (V.made values.old) g state.old → IsMade (V.made values.new) g state.new) }
    ensures events { OnOk result (events_in state.new.steps.items ≡ events_in state.old.steps.items) }
    ensures stands { OnOk result ((g : Setting) (m : List ℤ) (s : Standing) → V.serves values.old m → Stands (V.shows values.old m) g state.old s → Stands (V.shows values.new m) g state.new (moved_to s.numbers (all_forgotten s.kept) s)) }
    ensures keeps { OnOk result (Keeps V.serves V.has_key V.made V.shows values.old values.new) }
    ensures cost { OnOk result ((kept : ℕ) → Costs V.cost kept (3 * kept) values.old values.new (length state.old.cells.items) (length state.new.cells.items)) }
{
    let guard = state.guard;
    remove_cells(values, guard, &mut state.cells)?;
    Ok(())
}

// The object of a declarator without initialiser: a register has any number, whether the run has come here or not, and
// a kept object none that is known.
fn begun_without<O: WalkSetting, V: Values>(
    out: &O,
    k: u32,
    values: &mut V,
    state: &mut WalkState<V::Value>,
) -> Result<(), NoMemory>
    requires suits { Suits (O.setting out.now) (target_at (O.setting out.now) k) (number_kind ((O.setting out.now).typing.type_at k)) }
    requires keys { AreThere (V.has_key values.old) (O.kinds out.now) }
    requires made { IsMade (V.made values.old) (O.setting out.now) state.old }
    ensures walked { OnOk result (Walked V.serves V.has_key V.made V.shows (O.setting out.now) [] (as_declaration (k ∷ []) (λ m. begun_without (O.setting out.now) (path_world (O.under out.now m)) k (target_at (O.setting out.now) k))) values.old values.new state.old state.new) }
    ensures cost { OnOk result (Costs V.cost (length (O.setting out.now).kept) (bare_spent (target_at (O.setting out.now) k)) values.old values.new (length state.old.cells.items) (length state.new.cells.items)) }
{
    match out.target_at(k) {
        Target::Register(at) => {
            let kind = out.kind_at(k);
            let number = input_value(out, InputKey::Unset(k), kind, values)?;
            put_register(&mut state.registers, at, number);
            Ok(())
        }
        Target::Kept(at) => {
            let guard = state.guard;
            remove_cell(values, guard, &mut state.cells, at)?;
            Ok(())
        }
        Target::Object(_) => Ok(()),
        Target::Unnamed => Ok(()),
    }
}

// The object of a declarator gets the number of its initialiser, in its type.
fn begun_with<O: WalkSetting, V: Values>(
    out: &O,
    k: u32,
    number: V::Value,
    values: &mut V,
    state: &mut WalkState<V::Value>,
) -> Result<(), NoMemory>
    requires suits { Suits (O.setting out.now) (target_at (O.setting out.now) k) (number_kind ((O.setting out.now).typing.type_at k)) }
    requires number { V.made values.old (number_kind ((O.setting out.now).typing.type_at k)) number }
    requires made { IsMade (V.made values.old) (O.setting out.now) state.old }
    ensures made { OnOk result (IsMade (V.made values.new) (O.setting out.now) state.new) }
    ensures events { OnOk result (events_in state.new.steps.items ≡ events_in state.old.steps.items) }
    ensures follows { OnOk result ((m : List ℤ) (s : Standing) (x : ℤ) → V.serves values.old m → V.shows values.old m (number_kind ((O.setting out.now).typing.type_at k)) number (converted ((O.setting out.now).typing.type_at k) x) → Stands (V.shows values.old m) (O.setting out.now) state.old s → Stood (V.shows values.new m) (O.setting out.now) (λ t. Declares (k ∷ []) (begun_with (O.setting out.now) (path_world (O.under out.now m)) k x s.numbers s.kept) Normal s t) state.new) }
    ensures keeps { OnOk result (Keeps V.serves V.has_key V.made V.shows values.old values.new) }
    ensures cost { OnOk result (Costs V.cost (length (O.setting out.now).kept) (begun_spent (O.setting out.now) k) values.old values.new (length state.old.cells.items) (length state.new.cells.items)) }
{
    match out.target_at(k) {
        Target::Register(at) => {
            put_register(&mut state.registers, at, number);
            Ok(())
        }
        Target::Kept(at) => {
            let guard = state.guard;
            let kind = out.kind_at(k);
            store_cell(values, guard, &mut state.cells, at, kind, number)?;
            Ok(())
        }
        Target::Object(_) => Ok(()),
        Target::Unnamed => {
            forget(values, state)?;
            Ok(())
        }
    }
}

// The object of a declarator whose initialiser is an expression: a number is stored, and an array or a struct is
// written by the outside.
fn begun_by<O: ExpressionWalk, V: Values>(
    out: &O,
    k: u32,
    e: &Expr,
    values: &mut V,
    state: &mut WalkState<V::Value>,
) -> Result<(), NoMemory>
    requires suits { Suits (O.setting out.now) (target_at (O.setting out.now) k) (number_kind ((O.setting out.now).typing.type_at k)) }
    requires kinded { Kinded (O.setting out.now) (view_expression e.now) }
    requires keys { AreThere (V.has_key values.old) (O.kinds out.now) }
    requires made { IsMade (V.made values.old) (O.setting out.now) state.old }
    ensures walked { OnOk result (Walked V.serves V.has_key V.made V.shows (O.setting out.now) (value_events (O.setting out.now) (view_expression e.now)) (as_declaration (k ∷ []) (λ m. automatic_run (O.setting out.now) (path_world (O.under out.now m)) k (some_initialiser (plain (view_expression e.now))))) values.old values.new state.old state.new) }
    ensures cost { OnOk result (Costs V.cost (length (O.setting out.now).kept) (initial_spent (O.setting out.now) k (some_initialiser (plain (view_expression e.now)))) values.old values.new (length state.old.cells.items) (length state.new.cells.items)) }
{
    let number = out.converted_value(k, e, values, state)?;
    if out.is_scalar_at(k) {
        begun_with(out, k, number, values, state)?;
        Ok(())
    } else {
        forget(values, state)?;
        Ok(())
    }
}

// An automatic object with an initialiser: a number is stored, and the outside writes what braces initialise.
fn initialised<O: ExpressionWalk, V: Values>(
    out: &O,
    k: u32,
    x: &Init,
    values: &mut V,
    state: &mut WalkState<V::Value>,
) -> Result<(), NoMemory>
    requires suits { Suits (O.setting out.now) (target_at (O.setting out.now) k) (number_kind ((O.setting out.now).typing.type_at k)) }
    requires kinded { KindedInitialiser (O.setting out.now) (view_initialiser x.now) }
    requires keys { AreThere (V.has_key values.old) (O.kinds out.now) }
    requires made { IsMade (V.made values.old) (O.setting out.now) state.old }
    ensures walked { OnOk result (Walked V.serves V.has_key V.made V.shows (O.setting out.now) (initialiser_events (O.setting out.now) (view_initialiser x.now)) (as_declaration (k ∷ []) (λ m. automatic_run (O.setting out.now) (path_world (O.under out.now m)) k (some_initialiser (view_initialiser x.now)))) values.old values.new state.old state.new) }
    ensures cost { OnOk result (Costs V.cost (length (O.setting out.now).kept) (initial_spent (O.setting out.now) k (some_initialiser (view_initialiser x.now))) values.old values.new (length state.old.cells.items) (length state.new.cells.items)) }
{
    match x {
        Init::Plain(e) => begun_by(out, k, e, values, state),
        Init::Braces(list, _) => {
            items(out, list.as_slice(), values, state)?;
            forget(values, state)?;
            Ok(())
        }
    }
}

// An automatic object (C11 6.2.4p6).
fn automatic<O: ExpressionWalk, V: Values>(
    out: &O,
    k: u32,
    init: &Option<Init>,
    values: &mut V,
    state: &mut WalkState<V::Value>,
) -> Result<(), NoMemory>
    requires suits { Suits (O.setting out.now) (target_at (O.setting out.now) k) (number_kind ((O.setting out.now).typing.type_at k)) }
    requires kinded { KindedInitial (O.setting out.now) (maybe_initialiser (option_map view_initialiser init.now)) }
    requires keys { AreThere (V.has_key values.old) (O.kinds out.now) }
    requires made { IsMade (V.made values.old) (O.setting out.now) state.old }
    ensures walked { OnOk result (Walked V.serves V.has_key V.made V.shows (O.setting out.now) (initial_events (O.setting out.now) (maybe_initialiser (option_map view_initialiser init.now))) (as_declaration (k ∷ []) (λ m. automatic_run (O.setting out.now) (path_world (O.under out.now m)) k (maybe_initialiser (option_map view_initialiser init.now)))) values.old values.new state.old state.new) }
    ensures cost { OnOk result (Costs V.cost (length (O.setting out.now).kept) (initial_spent (O.setting out.now) k (maybe_initialiser (option_map view_initialiser init.now))) values.old values.new (length state.old.cells.items) (length state.new.cells.items)) }
{
    match init {
        None => begun_without(out, k, values, state),
        Some(x) => initialised(out, k, x, values, state),
    }
}

// A declarator: a `static` object has its value before the function runs (C11 6.2.4p3).
fn declarator<O: ExpressionWalk, V: Values>(
    out: &O,
    lasts: bool,
    d: &Declr,
    values: &mut V,
    state: &mut WalkState<V::Value>,
) -> Result<(), NoMemory>
    requires kinded { KindedDeclarator (O.setting out.now) lasts (view_declarator d.now) }
    requires keys { AreThere (V.has_key values.old) (O.kinds out.now) }
    requires made { IsMade (V.made values.old) (O.setting out.now) state.old }
    ensures walked { OnOk result (Walked V.serves V.has_key V.made V.shows (O.setting out.now) (declarator_events (O.setting out.now) lasts (view_declarator d.now)) (as_declaration (declarator_node (view_declarator d.now) ∷ []) (λ m. declarator_run (O.setting out.now) (path_world (O.under out.now m)) lasts (view_declarator d.now))) values.old values.new state.old state.new) }
    ensures cost { OnOk result (Costs V.cost (length (O.setting out.now).kept) (declarator_spent (O.setting out.now) lasts (view_declarator d.now)) values.old values.new (length state.old.cells.items) (length state.new.cells.items)) }
{
    if lasts {
        return Ok(());
    }
    automatic(out, d.node.number, &d.init, values, state)?;
    Ok(())
}

// Declarators from left to right.
fn declarators<O: ExpressionWalk, V: Values>(
    out: &O,
    lasts: bool,
    list: &[Declr],
    values: &mut V,
    state: &mut WalkState<V::Value>,
) -> Result<(), NoMemory>
    requires kinded { KindedDeclarators (O.setting out.now) lasts (declarators (map view_declarator list.now)) }
    requires keys { AreThere (V.has_key values.old) (O.kinds out.now) }
    requires made { IsMade (V.made values.old) (O.setting out.now) state.old }
    ensures walked { OnOk result (Walked V.serves V.has_key V.made V.shows (O.setting out.now) (declarators_events (O.setting out.now) lasts (declarators (map view_declarator list.now))) (as_declaration (declared_by (declarators (map view_declarator list.now))) (λ m. declarators_run (O.setting out.now) (path_world (O.under out.now m)) lasts (declarators (map view_declarator list.now)))) values.old values.new state.old state.new) }
    ensures cost { OnOk result (Costs V.cost (length (O.setting out.now).kept) (declarators_spent (O.setting out.now) lasts (declarators (map view_declarator list.now))) values.old values.new (length state.old.cells.items) (length state.new.cells.items)) }
{
    for d in list {
        declarator(out, lasts, d, values, state)?;
    }
    Ok(())
}

/// A declaration of a block: its declarators from left to right.
pub(crate) fn declaration<O: ExpressionWalk, V: Values>(
    out: &O,
    d: &Declaration,
    values: &mut V,
    state: &mut WalkState<V::Value>,
) -> Result<(), NoMemory>
    requires kinded { KindedDeclaration (O.setting out.now) (view_declaration d.now) }
    requires keys { AreThere (V.has_key values.old) (O.kinds out.now) }
    requires made { IsMade (V.made values.old) (O.setting out.now) state.old }
    ensures walked { OnOk result (Walked V.serves V.has_key V.made V.shows (O.setting out.now) (declaration_events (O.setting out.now) (view_declaration d.now)) (as_declaration (declared_in (view_declaration d.now)) (λ m. declaration_run (O.setting out.now) (path_world (O.under out.now m)) (view_declaration d.now))) values.old values.new state.old state.new) }
    ensures cost { OnOk result (Costs V.cost (length (O.setting out.now).kept) (declaration_spent (O.setting out.now) (view_declaration d.now)) values.old values.new (length state.old.cells.items) (length state.new.cells.items)) }
{
    let lasts = is_static(d.storage);
    declarators(out, lasts, d.list.as_slice(), values, state)?;
    Ok(())
}

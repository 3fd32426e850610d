//! What an assignment, `++` and `--` do once their operands have been walked.

ghost use Rattle.std.specs.Prelude.{◌≡◌, ℤ, ℕ, ◌++◌, pos, List, true, if◌then◌else◌, IfOk, OnOk, ◌+◌, ◌≤◌, length};
ghost use Rattle.stk_tree.specs.Syntax.{ExprFormTree, step};
ghost use Rattle.stk_tree.specs.View.{view_expression};
ghost use Rattle.stk_tree.specs.Parts.{bare};
ghost use Rattle.stk_meaning.specs.Typings.{type_in, number_kind, converted, node_of};
ghost use Rattle.stk_meaning.specs.Operations.{operated, operation_of, operation_tests, step_operation, gives_old};
ghost use Rattle.stk_meaning.specs.Conditions.{form_tests};
ghost use Rattle.stk_meaning.specs.Places.{target_of};
ghost use Rattle.stk_meaning.specs.Worlds.{after};
ghost use Rattle.stk_meaning.specs.Paths.{InputMap, path_world};
ghost use Rattle.stk_meaning.specs.Expressions.{breaks, number_in, stored_at};
ghost use Rattle.stk_operators.specs.Shown.{operation_shown, operator_shown};
ghost use Rattle.stk_eval_expr.specs.Parts.{plain_end, compound_end, step_end};
ghost use Rattle.stk_kinded.specs.Kinds.{operation_kind, IsStored};
ghost use Rattle.stk_values.specs.Keeping.{Keeps};
ghost use Rattle.stk_guarded.specs.Standing.{Standing, added};
ghost use Rattle.stk_numbers.specs.Kinds.{wrap};
ghost use Rattle.stk_walking.specs.Events.{events_in};
ghost use Rattle.stk_walking.specs.ExpressionEvents.{condition_events};
ghost use Rattle.stk_walking.specs.Keyed.{AreThere};
ghost use Rattle.stk_walking.specs.Leads.{Leads, Evaluates};
ghost use Rattle.stk_walking.specs.Operands.{IsShiftOf};
ghost use Rattle.stk_walking.specs.Stands.{Stands, IsMade};
ghost use Rattle.stk_ctype.specs.declared.kind.IntKind.TheVariants.{Int};
ghost use Rattle.stk_values.specs.Charges.{convert_charge};
ghost use Rattle.stk_spending.specs.Charges.{operated_charge, tests_charge, read_charge, store_charge};
ghost use Rattle.stk_spending.specs.Expressions.{kind_in, stored_spent};
ghost use Rattle.stk_walking.specs.Costs.{Costs};

use stk_base::NoMemory;
use stk_eval_expr::{node_of, target_of};
use stk_numbers::IntKind;
use stk_operators::{NodeTests, Operation, Operator, gives_old};
use stk_tree::{Expr, StepOp};
use stk_values::Values;
use stk_walking::{
    Operand, Operands, WalkSetting, WalkState, converted, operated, read_place, store_place,
    violate, zero,
};

/// The kind of the type of an expression.
pub(crate) fn kind_in<O: WalkSetting>(out: &O, e: &Expr) -> IntKind
    ensures { result ≡ number_kind (type_in (O.setting out.now).typing (view_expression e.now)) }
{
    out.kind_at(node_of(e))
}

/// What an operator does to two expressions.
pub(crate) fn operation_in<O: WalkSetting>(
    out: &O,
    op: Operator,
    left: &Expr,
    right: &Expr,
) -> Operation
    ensures { operation_shown result ≡ operation_of (O.setting out.now).typing (operator_shown op) (type_in (O.setting out.now).typing (view_expression left.now)) (type_in (O.setting out.now).typing (view_expression right.now)) }
{
    out.operation(op, node_of(left), node_of(right))
}

// What `++` or `--` does to an expression.
fn step_operation<O: WalkSetting>(out: &O, op: StepOp, e: &Expr) -> Operation
    ensures { operation_shown result ≡ step_operation (O.setting out.now).typing op (type_in (O.setting out.now).typing (view_expression e.now)) }
{
    out.step_operation(op, node_of(e))
}

// The kind of an operation's value.
fn operation_kind(operation: &Operation) -> IntKind
    ensures { result ≡ operation_kind (operation_shown operation.now) }
{
    match operation {
        Operation::InKind(_, kind) | Operation::ShiftIn(_, kind) => *kind,
        Operation::CompareIn(_, _) => IntKind::Int,
        Operation::Move(_, _) | Operation::MoveBehind(_) => IntKind::ULong,
        Operation::Measure(_) => IntKind::Long,
    }
}

// The value of an operation on two operands, in a kind.
fn operated_in<V: Values>(
    operation: &Operation,
    operands: (Operand<V::Value>, Operand<V::Value>),
    kind: IntKind,
    values: &mut V,
) -> Result<V::Value, NoMemory>
    requires left { V.made values.old operands.0.kind operands.0.value }
    requires right { V.made values.old operands.1.kind operands.1.value }
    requires shifts { IsShiftOf operands.0.kind (operation_shown operation.now) }
    ensures makes { IfOk result (λ v. V.made values.new kind v) }
    ensures value { IfOk result (λ v. (m : List ℤ) (x y : ℤ) → V.serves values.old m → V.shows values.old m operands.0.kind operands.0.value x → V.shows values.old m operands.1.kind operands.1.value y → V.shows values.new m kind v (wrap kind (operated (operation_shown operation.now) x y))) }
    ensures keeps { Keeps V.serves V.has_key V.made V.shows values.old values.new }
    ensures charge { OnOk result (V.cost values.new ≤ V.cost values.old + (operated_charge (operation_shown operation.now) operands.0.kind operands.1.kind + convert_charge (operation_kind (operation_shown operation.now)) kind)) }
{
    let (left, right) = operands;
    let number = operated(values, operation, left, right)?;
    let from = operation_kind(operation);
    let found = converted(values, from, kind, number)?;
    Ok(found)
}

// The steps of what is asked of the numbers of an operation's operands.
fn check_operation<O: WalkSetting, V: Values>(
    out: &O,
    node: u32,
    operation: Operation,
    operands: (Operand<V::Value>, Operand<V::Value>),
    values: &mut V,
    state: &mut WalkState<V::Value>,
) -> Result<(), NoMemory>
    requires left { V.made values.old operands.0.kind operands.0.value }
    requires right { V.made values.old operands.1.kind operands.1.value }
    requires made { IsMade (V.made values.old) (O.setting out.now) state.old }
    ensures made { OnOk result (IsMade (V.made values.new) (O.setting out.now) state.new) }
    ensures events { OnOk result ((f : ExprFormTree) → form_tests (O.setting out.now).typing true f ≡ operation_tests (operation_shown operation) → events_in state.new.steps.items ≡ events_in state.old.steps.items ++ condition_events (O.setting out.now) node true f) }
    ensures stands { OnOk result ((m : List ℤ) (s : Standing) (f : ExprFormTree) (x y : ℤ) → V.serves values.old m → V.shows values.old m operands.0.kind operands.0.value x → V.shows values.old m operands.1.kind operands.1.value y → form_tests (O.setting out.now).typing true f ≡ operation_tests (operation_shown operation) → Stands (V.shows values.old m) (O.setting out.now) state.old s → Stands (V.shows values.new m) (O.setting out.now) state.new (added (breaks (O.setting out.now) node true f x y (pos 0)) s)) }
    ensures keeps { OnOk result (Keeps V.serves V.has_key V.made V.shows values.old values.new) }
    ensures charge { OnOk result (V.cost values.new ≤ V.cost values.old + tests_charge (operation_shown operation) operands.0.kind operands.1.kind) }
    ensures cells { OnOk result (state.new.cells.items ≡ state.old.cells.items) }
{
    let (first, second) = operands;
    let none = zero(values, IntKind::Int)?;
    let third = Operand {
        kind: IntKind::Int,
        value: none,
    };
    let asked = Operands {
        first,
        second,
        third,
    };
    let tests = NodeTests::Operation(operation);
    violate(out, node, tests, asked, values, state)?;
    Ok(())
}

// The number of the place that is stored to, in the kind of its type.
fn old_number<O: WalkSetting, V: Values>(
    out: &O,
    left: &Expr,
    values: &mut V,
    state: &mut WalkState<V::Value>,
) -> Result<V::Value, NoMemory>
    requires stored { IsStored (O.setting out.now) (view_expression left.now) }
    requires keys { AreThere (V.has_key values.old) (O.kinds out.now) }
    requires made { IsMade (V.made values.old) (O.setting out.now) state.old }
    ensures makes { IfOk result (λ v. V.made values.new (number_kind (type_in (O.setting out.now).typing (view_expression left.now))) v) }
    ensures made { OnOk result (IsMade (V.made values.new) (O.setting out.now) state.new) }
    ensures events { OnOk result (events_in state.new.steps.items ≡ events_in state.old.steps.items) }
    ensures follows { IfOk result (λ v. (a : ℕ) → Evaluates (V.serves values.old) (V.shows values.old) (V.shows values.new) (O.setting out.now) (λ m x. V.shows values.new m (number_kind (type_in (O.setting out.now).typing (view_expression left.now))) v x) (λ m r kept. number_in (path_world (O.under out.now m)) (target_of (O.setting out.now) (view_expression left.now)) (node_of (bare (view_expression left.now))) (number_kind (type_in (O.setting out.now).typing (view_expression left.now))) a r kept) state.old state.new) }
    ensures keeps { OnOk result (Keeps V.serves V.has_key V.made V.shows values.old values.new) }
    ensures cost { OnOk result (Costs V.cost (length (O.setting out.now).kept) (read_charge (target_of (O.setting out.now) (view_expression left.now)) (kind_in (O.setting out.now).typing (view_expression left.now))) values.old values.new (length state.old.cells.items) (length state.new.cells.items)) }
{
    let target = target_of(out, left);
    let node = node_of(left.bare());
    let found = read_place(out, node, target, values, state)?;
    Ok(found)
}

// Stores a number in the place that is stored to, in the kind of its type.
fn store_number<O: WalkSetting, V: Values>(
    out: &O,
    left: &Expr,
    number: V::Value,
    values: &mut V,
    state: &mut WalkState<V::Value>,
) -> Result<(), NoMemory>
    requires stored { IsStored (O.setting out.now) (view_expression left.now) }
    requires number { V.made values.old (number_kind (type_in (O.setting out.now).typing (view_expression left.now))) number }
    requires made { IsMade (V.made values.old) (O.setting out.now) state.old }
    ensures made { OnOk result (IsMade (V.made values.new) (O.setting out.now) state.new) }
    ensures events { OnOk result (events_in state.new.steps.items ≡ events_in state.old.steps.items) }
    ensures stored { OnOk result ((m : List ℤ) (s : Standing) (inputs : InputMap) (a : ℕ) (x y : ℤ) → V.serves values.old m → V.shows values.old m (number_kind (type_in (O.setting out.now).typing (view_expression left.now))) number x → Stands (V.shows values.old m) (O.setting out.now) state.old s → Leads (V.shows values.new m) (O.setting out.now) (λ z. z ≡ y) (stored_at (path_world inputs) (target_of (O.setting out.now) (view_expression left.now)) (number_kind (type_in (O.setting out.now).typing (view_expression left.now))) a x y s.numbers s.kept) s state.new) }
    ensures keeps { OnOk result (Keeps V.serves V.has_key V.made V.shows values.old values.new) }
    ensures cost { OnOk result (Costs V.cost (length (O.setting out.now).kept) (store_charge (length (O.setting out.now).kept) (target_of (O.setting out.now) (view_expression left.now)) (kind_in (O.setting out.now).typing (view_expression left.now))) values.old values.new (length state.old.cells.items) (length state.new.cells.items)) }
{
    let target = target_of(out, left);
    let node = node_of(left);
    store_place(out, node, target, number, values, state)?;
    Ok(())
}

// The end of an assignment: the steps of what is asked of the operands' numbers, and the store of what the operation
// gives, in the kind of the left side's type. The run's number is any that the assignment gives.
fn checked_store<O: WalkSetting, V: Values>(
    out: &O,
    node: u32,
    operation: Operation,
    operands: (Operand<V::Value>, Operand<V::Value>),
    left: &Expr,
    values: &mut V,
    state: &mut WalkState<V::Value>,
) -> Result<V::Value, NoMemory>
    requires stored { IsStored (O.setting out.now) (view_expression left.now) }
    requires left { V.made values.old operands.0.kind operands.0.value }
    requires right { V.made values.old operands.1.kind operands.1.value }
    requires shifts { IsShiftOf operands.0.kind (operation_shown operation) }
    requires made { IsMade (V.made values.old) (O.setting out.now) state.old }
    ensures makes { IfOk result (λ v. V.made values.new (number_kind (type_in (O.setting out.now).typing (view_expression left.now))) v) }
    ensures made { OnOk result (IsMade (V.made values.new) (O.setting out.now) state.new) }
    ensures events { OnOk result ((f : ExprFormTree) → form_tests (O.setting out.now).typing true f ≡ operation_tests (operation_shown operation) → events_in state.new.steps.items ≡ events_in state.old.steps.items ++ condition_events (O.setting out.now) node true f) }
    ensures value { IfOk result (λ v. (m : List ℤ) (x y : ℤ) → V.serves values.old m → V.shows values.old m operands.0.kind operands.0.value x → V.shows values.old m operands.1.kind operands.1.value y → V.shows values.new m (number_kind (type_in (O.setting out.now).typing (view_expression left.now))) v (converted (type_in (O.setting out.now).typing (view_expression left.now)) (operated (operation_shown operation) x y))) }
    ensures stored { OnOk result ((m : List ℤ) (s : Standing) (inputs : InputMap) (f : ExprFormTree) (a : ℕ) (x y z : ℤ) → V.serves values.old m → V.shows values.old m operands.0.kind operands.0.value x → V.shows values.old m operands.1.kind operands.1.value y → form_tests (O.setting out.now).typing true f ≡ operation_tests (operation_shown operation) → Stands (V.shows values.old m) (O.setting out.now) state.old s → Leads (V.shows values.new m) (O.setting out.now) (λ n. n ≡ z) (after (breaks (O.setting out.now) node true f x y (pos 0)) (stored_at (path_world inputs) (target_of (O.setting out.now) (view_expression left.now)) (number_kind (type_in (O.setting out.now).typing (view_expression left.now))) a (converted (type_in (O.setting out.now).typing (view_expression left.now)) (operated (operation_shown operation) x y)) z s.numbers s.kept)) s state.new) }
    ensures keeps { OnOk result (Keeps V.serves V.has_key V.made V.shows values.old values.new) }
    ensures cost { OnOk result (Costs V.cost (length (O.setting out.now).kept) (operated_charge (operation_shown operation) operands.0.kind operands.1.kind + convert_charge (operation_kind (operation_shown operation)) (kind_in (O.setting out.now).typing (view_expression left.now)) + tests_charge (operation_shown operation) operands.0.kind operands.1.kind + store_charge (length (O.setting out.now).kept) (target_of (O.setting out.now) (view_expression left.now)) (kind_in (O.setting out.now).typing (view_expression left.now))) values.old values.new (length state.old.cells.items) (length state.new.cells.items)) }
{
    let kind = kind_in(out, left);
    let number = operated_in(&operation, operands, kind, values)?;
    check_operation(out, node, operation, operands, values, state)?;
    store_number(out, left, number, values, state)?;
    Ok(number)
}

// The value from before or the new one, as `++` and `--` give it (C11 6.5.2.4p2).
fn given<T: Copy>(op: StepOp, old: T, new: T) -> T
    ensures { result ≡ (if gives_old op then old else new) }
{
    if gives_old(op) { old } else { new }
}

/// The end of `++` and `--`, once the place has been walked: its number, one more or less of it, the steps of what is
/// asked of both, and the store, in the kind of the node (C11 6.5.2.4, 6.5.3.1).
pub(crate) fn stepped_number<O: WalkSetting, V: Values>(
    out: &O,
    node: u32,
    op: StepOp,
    e: &Expr,
    values: &mut V,
    state: &mut WalkState<V::Value>,
) -> Result<V::Value, NoMemory>
    requires kinded { number_kind ((O.setting out.now).typing.type_at node) ≡ number_kind (type_in (O.setting out.now).typing (view_expression e.now)) }
    requires stored { IsStored (O.setting out.now) (view_expression e.now) }
    requires keys { AreThere (V.has_key values.old) (O.kinds out.now) }
    requires made { IsMade (V.made values.old) (O.setting out.now) state.old }
    ensures makes { IfOk result (λ v. V.made values.new (number_kind ((O.setting out.now).typing.type_at node)) v) }
    ensures made { OnOk result (IsMade (V.made values.new) (O.setting out.now) state.new) }
    ensures events { OnOk result (events_in state.new.steps.items ≡ events_in state.old.steps.items ++ condition_events (O.setting out.now) node true (step op (view_expression e.now))) }
    ensures follows { IfOk result (λ v. (place : ℕ) → Evaluates (V.serves values.old) (V.shows values.old) (V.shows values.new) (O.setting out.now) (λ m x. V.shows values.new m (number_kind ((O.setting out.now).typing.type_at node)) v x) (λ m r k. step_end (O.setting out.now) (path_world (O.under out.now m)) node op (view_expression e.now) place r k) state.old state.new) }
    ensures keeps { OnOk result (Keeps V.serves V.has_key V.made V.shows values.old values.new) }
    ensures cost { OnOk result (Costs V.cost (length (O.setting out.now).kept) (stored_spent (O.setting out.now) (view_expression e.now) (step_operation (O.setting out.now).typing op (type_in (O.setting out.now).typing (view_expression e.now))) Int) values.old values.new (length state.old.cells.items) (length state.new.cells.items)) }
{
    let kind = kind_in(out, e);
    let old = old_number(out, e, values, state)?;
    let one = values.constant(IntKind::Int, 1)?;
    let operation = step_operation(out, op, e);
    let operands = (
        Operand { kind, value: old },
        Operand {
            kind: IntKind::Int,
            value: one,
        },
    );
    let new = checked_store(out, node, operation, operands, e, values, state)?;
    Ok(given(op, old, new))
}

/// The end of `=`, once the right side and the place have been walked: the store of the right side's value, in the kind
/// of the node (C11 6.5.16.1).
pub(crate) fn assigned_number<O: WalkSetting, V: Values>(
    out: &O,
    node: u32,
    left: &Expr,
    number: Operand<V::Value>,
    values: &mut V,
    state: &mut WalkState<V::Value>,
) -> Result<V::Value, NoMemory>
    requires kinded { number_kind ((O.setting out.now).typing.type_at node) ≡ number_kind (type_in (O.setting out.now).typing (view_expression left.now)) }
    requires stored { IsStored (O.setting out.now) (view_expression left.now) }
    requires number { V.made values.old number.kind number.value }
    requires made { IsMade (V.made values.old) (O.setting out.now) state.old }
    ensures makes { IfOk result (λ v. V.made values.new (number_kind ((O.setting out.now).typing.type_at node)) v) }
    ensures made { OnOk result (IsMade (V.made values.new) (O.setting out.now) state.new) }
    ensures events { OnOk result (events_in state.new.steps.items ≡ events_in state.old.steps.items) }
    ensures follows { IfOk result (λ v. (x : ℤ) (place : ℕ) → Evaluates (λ m. V.serves values.old m × V.shows values.old m number.kind number.value x) (V.shows values.old) (V.shows values.new) (O.setting out.now) (λ m y. V.shows values.new m (number_kind ((O.setting out.now).typing.type_at node)) v y) (λ m r k. plain_end (O.setting out.now) (path_world (O.under out.now m)) (view_expression left.now) x place r k) state.old state.new) }
    ensures keeps { OnOk result (Keeps V.serves V.has_key V.made V.shows values.old values.new) }
    ensures cost { OnOk result (Costs V.cost (length (O.setting out.now).kept) (convert_charge number.kind (number_kind ((O.setting out.now).typing.type_at node)) + store_charge (length (O.setting out.now).kept) (target_of (O.setting out.now) (view_expression left.now)) (kind_in (O.setting out.now).typing (view_expression left.now))) values.old values.new (length state.old.cells.items) (length state.new.cells.items)) }
{
    let kind = out.kind_at(node);
    let found = converted(values, number.kind, kind, number.value)?;
    store_number(out, left, found, values, state)?;
    Ok(found)
}

/// The end of a compound assignment, once the right side and the place have been walked: the place's number, the
/// operation on it and the right side's value, the steps of what is asked of both, and the store, in the kind of the
/// node (C11 6.5.16.2).
pub(crate) fn compound_number<O: WalkSetting, V: Values>(
    out: &O,
    node: u32,
    operation: Operation,
    left: &Expr,
    number: Operand<V::Value>,
    values: &mut V,
    state: &mut WalkState<V::Value>,
) -> Result<V::Value, NoMemory>
    requires kinded { number_kind ((O.setting out.now).typing.type_at node) ≡ number_kind (type_in (O.setting out.now).typing (view_expression left.now)) }
    requires stored { IsStored (O.setting out.now) (view_expression left.now) }
    requires number { V.made values.old number.kind number.value }
    requires shifts { IsShiftOf (number_kind (type_in (O.setting out.now).typing (view_expression left.now))) (operation_shown operation) }
    requires keys { AreThere (V.has_key values.old) (O.kinds out.now) }
    requires made { IsMade (V.made values.old) (O.setting out.now) state.old }
    ensures makes { IfOk result (λ v. V.made values.new (number_kind ((O.setting out.now).typing.type_at node)) v) }
    ensures made { OnOk result (IsMade (V.made values.new) (O.setting out.now) state.new) }
    ensures events { OnOk result ((f : ExprFormTree) → form_tests (O.setting out.now).typing true f ≡ operation_tests (operation_shown operation) → events_in state.new.steps.items ≡ events_in state.old.steps.items ++ condition_events (O.setting out.now) node true f) }
    ensures follows { IfOk result (λ v. (f : ExprFormTree) (x : ℤ) (place : ℕ) → form_tests (O.setting out.now).typing true f ≡ operation_tests (operation_shown operation) → Evaluates (λ m. V.serves values.old m × V.shows values.old m number.kind number.value x) (V.shows values.old) (V.shows values.new) (O.setting out.now) (λ m y. V.shows values.new m (number_kind ((O.setting out.now).typing.type_at node)) v y) (λ m r k. compound_end (O.setting out.now) (path_world (O.under out.now m)) node f (operation_shown operation) (view_expression left.now) x place r k) state.old state.new) }
    ensures keeps { OnOk result (Keeps V.serves V.has_key V.made V.shows values.old values.new) }
    ensures cost { OnOk result (Costs V.cost (length (O.setting out.now).kept) (stored_spent (O.setting out.now) (view_expression left.now) (operation_shown operation) number.kind) values.old values.new (length state.old.cells.items) (length state.new.cells.items)) }
{
    let kind = kind_in(out, left);
    let old = old_number(out, left, values, state)?;
    let operands = (Operand { kind, value: old }, number);
    let new = checked_store(out, node, operation, operands, left, values, state)?;
    Ok(new)
}

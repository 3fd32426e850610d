//! Places and numbers that a walk comes to once it has walked what they rest on.

ghost use Rattle.std.specs.Prelude.{◌≡◌, ◌+◌, ◌++◌, [], ℕ, ℤ, List, Bool, false, pos, unwrap_or, IfOk, OnOk, ◌≤◌, length};
ghost use Rattle.stk_ctype.specs.declared.kind.IntKind as kinds;
ghost use Rattle.stk_ctype.specs.declared.kind.IntKind.TheVariants.{ULong};
ghost use Rattle.stk_tree.specs.Syntax.{ExprTree, ExprFormTree};
ghost use Rattle.stk_tree.specs.Syntax as s;
ghost use Rattle.stk_tree.specs.View.{view_expression};
ghost use Rattle.stk_tree.specs.declared.expression.UnaryOp.TheVariants as unary;
ghost use Rattle.stk_numbers.specs.Values.{moved};
ghost use Rattle.stk_meaning.specs.Typings.{type_in, number_kind, pointed, stride_in};
ghost use Rattle.stk_meaning.specs.Operations.{to_address};
ghost use Rattle.stk_meaning.specs.Conditions.{form_tests, target_tests, index_tests};
ghost use Rattle.stk_meaning.specs.Places.{target_at, object_named};
ghost use Rattle.stk_meaning.specs.Worlds.{Went, Cut, gives};
ghost use Rattle.stk_meaning.specs.Paths.{path_world};
ghost use Rattle.stk_meaning.specs.Expressions.{own_number, address_of, name_meaning, breaks};
ghost use Rattle.stk_operators.specs.Checked.{tests_of};
ghost use Rattle.stk_operators.specs.Targets.{target_shown};
ghost use Rattle.stk_eval_expr.specs.Parts.{place_end};
ghost use Rattle.stk_kinded.specs.Kinds.{Suits};
ghost use Rattle.stk_values.specs.Keeping.{Keeps};
ghost use Rattle.stk_guarded.specs.Standing.{Standing, added};
ghost use Rattle.stk_walking.specs.Events.{events_in};
ghost use Rattle.stk_walking.specs.ExpressionEvents.{condition_events};
ghost use Rattle.stk_walking.specs.Stands.{Stands, IsMade};
ghost use Rattle.stk_walking.specs.NodeTests.{IsAskedOf};
ghost use Rattle.stk_walking.specs.Keyed.{AreThere};
ghost use Rattle.stk_walking.specs.Walks.{IsReady, WalksTo};
ghost use Rattle.stk_walk_values.specs.Indexed.{bounds_in, moved_tests};
ghost use Rattle.stk_walk_values.specs.Parts.{WalksBehind, FindsBehind, Finds};
ghost use Rattle.stk_values.specs.Charges.{move_charge};
ghost use Rattle.stk_spending.specs.Charges.{null_charge, index_charge, read_charge};
ghost use Rattle.stk_spending.specs.Expressions.{kind_in};
ghost use Rattle.stk_walking.specs.Charges.{asked_charge};
ghost use Rattle.stk_walking.specs.Costs.{Costs};

use stk_base::{NoMemory, Span};
use stk_eval_expr::node_of;
use stk_numbers::IntKind;
use stk_operators::{NodeTests, Stride, Target, Word};
use stk_tree::Expr;
use stk_values::Values;
use stk_walking::{
    InputKey, Operand, Operands, WalkSetting, WalkState, input_value, moved_address, read_place,
    to_address, violate, zero,
};

// A number that may be missing; 0 where it is.
fn own_word(own: Option<Word>) -> Word
    ensures { result ≡ unwrap_or own (pos 0) }
{
    match own {
        Some(number) => number,
        None => Word::bit(false),
    }
}

/// The number that a node has by itself; 0 where it has none.
pub(crate) fn own_number<O: WalkSetting, V: Values>(
    out: &O,
    node: u32,
    values: &mut V,
    state: &WalkState<V::Value>,
) -> Result<V::Value, NoMemory>
    requires ready { IsReady V.has_key V.made (O.kinds out.now) (O.setting out.now) values.old state.now }
    ensures walks { IfOk result (λ v. WalksTo V.serves V.has_key V.made V.shows (O.setting out.now) (number_kind ((O.setting out.now).typing.type_at node)) v (λ m. (own_number (O.setting out.now) node).value) [] values.old values.new state.now state.now) }
    ensures cost { OnOk result (Costs V.cost (length (O.setting out.now).kept) 0 values.old values.new (length state.now.cells.items) (length state.now.cells.items)) }
{
    let kind = out.kind_at(node);
    let own = own_word(out.own_number(node));
    let found = values.constant(kind, own.number())?;
    Ok(found)
}

/// What is no place: nothing goes on from here.
pub(crate) fn no_place<O: WalkSetting, V: Values>(
    out: &O,
    values: &mut V,
    state: &mut WalkState<V::Value>,
) -> Result<V::Value, NoMemory>
    requires ready { IsReady V.has_key V.made (O.kinds out.now) (O.setting out.now) values.old state.old }
    ensures walks { IfOk result (λ v. Finds V.serves V.has_key V.made V.shows (O.setting out.now) v (λ m r k. Cut []) [] values.old values.new state.old state.new) }
    ensures cost { OnOk result (Costs V.cost (length (O.setting out.now).kept) 0 values.old values.new (length state.old.cells.items) (length state.new.cells.items)) }
{
    let none = zero(values, IntKind::ULong)?;
    let guard = zero(values, IntKind::Int)?;
    state.guard = guard;
    Ok(none)
}

// The address of an object; a register has none.
fn object_address<O: WalkSetting, V: Values>(
    out: &O,
    object: u32,
    values: &mut V,
) -> Result<V::Value, NoMemory>
    requires keys { AreThere (V.has_key values.old) (O.kinds out.now) }
    ensures makes { IfOk result (λ v. V.made values.new ULong v) }
    ensures value { IfOk result (λ v. (m : List ℤ) → V.serves values.old m → V.shows values.new m ULong v (pos (address_of (path_world (O.under out.now m)) (target_at (O.setting out.now) object) object))) }
    ensures keeps { Keeps V.serves V.has_key V.made V.shows values.old values.new }
    ensures charge { OnOk result (V.cost values.new ≤ V.cost values.old) }
{
    match out.target_at(object) {
        Target::Register(_) => zero(values, IntKind::ULong),
        Target::Kept(_) => named_address(out, object, values),
        Target::Object(_) => named_address(out, object, values),
        Target::Unnamed => named_address(out, object, values),
    }
}

// The address of an object in memory.
fn named_address<O: WalkSetting, V: Values>(
    out: &O,
    object: u32,
    values: &mut V,
) -> Result<V::Value, NoMemory>
    requires keys { AreThere (V.has_key values.old) (O.kinds out.now) }
    ensures makes { IfOk result (λ v. V.made values.new ULong v) }
    ensures value { IfOk result (λ v. (m : List ℤ) → V.serves values.old m → V.shows values.new m ULong v (pos ((path_world (O.under out.now m)).address object))) }
    ensures keeps { Keeps V.serves V.has_key V.made V.shows values.old values.new }
    ensures charge { OnOk result (V.cost values.new ≤ V.cost values.old) }
{
    let found = input_value(out, InputKey::Address(object), IntKind::ULong, values)?;
    Ok(found)
}

/// The address of a string.
pub(crate) fn text_place<O: WalkSetting, V: Values>(
    out: &O,
    node: u32,
    values: &mut V,
    state: &WalkState<V::Value>,
) -> Result<V::Value, NoMemory>
    requires ready { IsReady V.has_key V.made (O.kinds out.now) (O.setting out.now) values.old state.now }
    ensures walks { IfOk result (λ v. Finds V.serves V.has_key V.made V.shows (O.setting out.now) v (λ m. gives ((path_world (O.under out.now m)).address node)) [] values.old values.new state.now state.now) }
    ensures cost { OnOk result (Costs V.cost (length (O.setting out.now).kept) 0 values.old values.new (length state.now.cells.items) (length state.now.cells.items)) }
{
    let found = named_address(out, node, values)?;
    Ok(found)
}

/// The address of a name's object. An enumerator's name is no place, so nothing goes on from here.
pub(crate) fn named_place<O: WalkSetting, V: Values>(
    out: &O,
    node: u32,
    name: Span,
    values: &mut V,
    state: &mut WalkState<V::Value>,
) -> Result<V::Value, NoMemory>
    requires ready { IsReady V.has_key V.made (O.kinds out.now) (O.setting out.now) values.old state.old }
    ensures walks { IfOk result (λ v. (accessed : Bool) → Finds V.serves V.has_key V.made V.shows (O.setting out.now) v (λ m. (name_meaning (O.setting out.now) (path_world (O.under out.now m)) node (s.name name) (object_named (O.setting out.now) node name) ((O.setting out.now).typing.number_at node)).place accessed) [] values.old values.new state.old state.new) }
    ensures cost { OnOk result (Costs V.cost (length (O.setting out.now).kept) 0 values.old values.new (length state.old.cells.items) (length state.new.cells.items)) }
{
    match out.own_number(node) {
        Some(_) => {
            let none = no_place(out, values, state)?;
            Ok(none)
        }
        None => {
            let found = object_address(out, out.object_named(node, name), values)?;
            Ok(found)
        }
    }
}

// An address that an operand is, and so many bytes more, modulo 2^64.
fn behind<V: Values>(
    values: &mut V,
    base: Operand<V::Value>,
    bytes: u64,
) -> Result<V::Value, NoMemory>
    requires { V.made values.old base.kind base.value }
    ensures makes { IfOk result (λ v. V.made values.new ULong v) }
    ensures value { IfOk result (λ v. (m : List ℤ) (x : ℤ) → V.serves values.old m → V.shows values.old m base.kind base.value x → V.shows values.new m ULong v (pos (to_address (pos (to_address x + bytes))))) }
    ensures keeps { Keeps V.serves V.has_key V.made V.shows values.old values.new }
    ensures charge { OnOk result (V.cost values.new ≤ V.cost values.old + 1024) }
{
    let value = values.constant(IntKind::ULong, i128::from(bytes))?;
    let step = Operand {
        kind: IntKind::ULong,
        value,
    };
    let found = moved_address(values, base, step, Stride::new(1), false)?;
    Ok(found)
}

/// The address of a member of a place.
pub(crate) fn member_place<O: WalkSetting, V: Values>(
    out: &O,
    node: u32,
    name: Span,
    address: V::Value,
    values: &mut V,
) -> Result<V::Value, NoMemory>
    requires { V.made values.old ULong address }
    ensures makes { IfOk result (λ v. V.made values.new ULong v) }
    ensures value { IfOk result (λ v. (m : List ℤ) (a : ℕ) → V.serves values.old m → V.shows values.old m ULong address (pos a) → V.shows values.new m ULong v (pos (to_address (pos (a + (O.setting out.now).typing.offset_of ((O.setting out.now).typing.type_at node) name))))) }
    ensures keeps { Keeps V.serves V.has_key V.made V.shows values.old values.new }
    ensures charge { OnOk result (V.cost values.new ≤ V.cost values.old + 1024) }
{
    let base = Operand {
        kind: IntKind::ULong,
        value: address,
    };
    let found = behind(values, base, out.offset(node, name))?;
    Ok(found)
}

/// The steps of what is asked at a node of the number of its one operand.
pub(crate) fn check_one<O: WalkSetting, V: Values>(
    out: &O,
    node: u32,
    tests: NodeTests,
    first: Operand<V::Value>,
    values: &mut V,
    state: &mut WalkState<V::Value>,
) -> Result<(), NoMemory>
    requires first { V.made values.old first.kind first.value }
    requires asked { IsAskedOf first.kind tests }
    requires made { IsMade (V.made values.old) (O.setting out.now) state.old }
    ensures made { OnOk result (IsMade (V.made values.new) (O.setting out.now) state.new) }
    ensures events { OnOk result ((accessed : Bool) (f : ExprFormTree) → form_tests (O.setting out.now).typing accessed f ≡ tests_of tests → events_in state.new.steps.items ≡ events_in state.old.steps.items ++ condition_events (O.setting out.now) node accessed f) }
    ensures stands { OnOk result ((m : List ℤ) (s : Standing) (x : ℤ) (accessed : Bool) (f : ExprFormTree) → V.serves values.old m → V.shows values.old m first.kind first.value x → form_tests (O.setting out.now).typing accessed f ≡ tests_of tests → Stands (V.shows values.old m) (O.setting out.now) state.old s → Stands (V.shows values.new m) (O.setting out.now) state.new (added (breaks (O.setting out.now) node accessed f x (pos 0) (pos 0)) s)) }
    ensures keeps { Keeps V.serves V.has_key V.made V.shows values.old values.new }
    ensures charge { OnOk result (V.cost values.new ≤ V.cost values.old + asked_charge tests first.kind first.kind) }
    ensures cells { OnOk result (state.new.cells.items ≡ state.old.cells.items) }
{
    let kind = first.kind;
    let value = zero(values, kind)?;
    let none = Operand { kind, value };
    let operands = Operands {
        first,
        second: none,
        third: none,
    };
    violate(out, node, tests, operands, values, state)?;
    Ok(())
}

/// The steps of what is asked at a node of the numbers of its two operands.
pub(crate) fn check_two<O: WalkSetting, V: Values>(
    out: &O,
    node: u32,
    tests: NodeTests,
    pair: (Operand<V::Value>, Operand<V::Value>),
    values: &mut V,
    state: &mut WalkState<V::Value>,
) -> Result<(), NoMemory>
    requires first { V.made values.old pair.0.kind pair.0.value }
    requires second { V.made values.old pair.1.kind pair.1.value }
    requires asked { IsAskedOf pair.0.kind tests }
    requires made { IsMade (V.made values.old) (O.setting out.now) state.old }
    ensures made { OnOk result (IsMade (V.made values.new) (O.setting out.now) state.new) }
    ensures events { OnOk result ((accessed : Bool) (f : ExprFormTree) → form_tests (O.setting out.now).typing accessed f ≡ tests_of tests → events_in state.new.steps.items ≡ events_in state.old.steps.items ++ condition_events (O.setting out.now) node accessed f) }
    ensures stands { OnOk result ((m : List ℤ) (s : Standing) (x y : ℤ) (accessed : Bool) (f : ExprFormTree) → V.serves values.old m → V.shows values.old m pair.0.kind pair.0.value x → V.shows values.old m pair.1.kind pair.1.value y → form_tests (O.setting out.now).typing accessed f ≡ tests_of tests → Stands (V.shows values.old m) (O.setting out.now) state.old s → Stands (V.shows values.new m) (O.setting out.now) state.new (added (breaks (O.setting out.now) node accessed f x y (pos 0)) s)) }
    ensures keeps { Keeps V.serves V.has_key V.made V.shows values.old values.new }
    ensures charge { OnOk result (V.cost values.new ≤ V.cost values.old + asked_charge tests pair.0.kind pair.1.kind) }
    ensures cells { OnOk result (state.new.cells.items ≡ state.old.cells.items) }
{
    let (first, second) = pair;
    let kind = IntKind::Int;
    let value = zero(values, kind)?;
    let operands = Operands {
        first,
        second,
        third: Operand { kind, value },
    };
    violate(out, node, tests, operands, values, state)?;
    Ok(())
}

// What is asked of the address of `*e` and of `e->m`, where the place is accessed or not.
fn target_tests(accessed: bool) -> NodeTests
    ensures is { tests_of result ≡ target_tests accessed }
    ensures charge { (a b : kinds.IntKind) → asked_charge result a b ≤ null_charge a }
{
    if accessed {
        NodeTests::Target
    } else {
        NodeTests::Nothing
    }
}

// The bounds that are asked for.
fn bounds_in(tests: NodeTests) -> Option<u64>
    ensures { result ≡ bounds_in tests }
{
    match tests {
        NodeTests::Bounds(count) => Some(count),
        NodeTests::Nothing
        | NodeTests::Operation(_)
        | NodeTests::Negation(_)
        | NodeTests::Target
        | NodeTests::Moved(_)
        | NodeTests::TargetMoved(_)
        | NodeTests::Absolute(_)
        | NodeTests::Copy => None,
    }
}

// What is asked of a pointer that is indexed, by the size of what it points to; of one that isn't an array also that it
// is null, where the place is accessed.
fn moved_tests(accessed: bool, is_array: bool, size: Stride) -> NodeTests
    ensures { result ≡ moved_tests accessed is_array size }
{
    if accessed && !is_array {
        NodeTests::TargetMoved(size)
    } else {
        NodeTests::Moved(size)
    }
}

// What is asked at `e[e]`, for the node of what is indexed.
fn index_tests<O: WalkSetting>(out: &O, accessed: bool, at: u32) -> NodeTests
    ensures is { tests_of result ≡ index_tests accessed ((O.setting out.now).typing.type_at at) (stride_in (O.setting out.now).typing ((O.setting out.now).typing.type_at at)) }
    ensures charge { (a b : kinds.IntKind) → asked_charge result a b ≤ index_charge a (stride_in (O.setting out.now).typing ((O.setting out.now).typing.type_at at)) }
{
    let asked = out.index_node_tests(accessed, at);
    let is_array = out.is_array_at(at);
    let size = out.stride_at(at);
    match bounds_in(asked) {
        Some(count) => NodeTests::Bounds(count),
        None => moved_tests(accessed, is_array, size),
    }
}

/// The address of `*e`, for the value of e.
pub(crate) fn target_place<O: WalkSetting, V: Values>(
    out: &O,
    node: u32,
    accessed: bool,
    pointer: Operand<V::Value>,
    values: &mut V,
    state: &mut WalkState<V::Value>,
) -> Result<V::Value, NoMemory>
    requires pointer { V.made values.old pointer.kind pointer.value }
    requires ready { IsReady V.has_key V.made (O.kinds out.now) (O.setting out.now) values.old state.old }
    ensures walks { IfOk result (λ v. (e : ExprTree) (x : ℤ) → FindsBehind V.serves V.has_key V.made V.shows (O.setting out.now) (λ m. V.shows values.old m pointer.kind pointer.value x) v (λ m r k. Went (to_address x) r k (breaks (O.setting out.now) node accessed (s.unary unary.Deref e) x (pos 0) (pos 0))) (condition_events (O.setting out.now) node accessed (s.unary unary.Deref e)) values.old values.new state.old state.new) }
    ensures cost { OnOk result (Costs V.cost (length (O.setting out.now).kept) (null_charge pointer.kind) values.old values.new (length state.old.cells.items) (length state.new.cells.items)) }
{
    let address = to_address(values, pointer)?;
    let tests = target_tests(accessed);
    check_one(out, node, tests, pointer, values, state)?;
    Ok(address)
}

/// The address of `e->m`, for the value of e.
pub(crate) fn arrow_place<O: WalkSetting, V: Values>(
    out: &O,
    node: u32,
    accessed: bool,
    e: &Expr,
    name: Span,
    value: V::Value,
    values: &mut V,
    state: &mut WalkState<V::Value>,
) -> Result<V::Value, NoMemory>
    requires value { V.made values.old (number_kind (type_in (O.setting out.now).typing (view_expression e.now))) value }
    requires ready { IsReady V.has_key V.made (O.kinds out.now) (O.setting out.now) values.old state.old }
    ensures walks { IfOk result (λ v. (x : ℤ) → let g = O.setting out.now in let p = view_expression e.now in FindsBehind V.serves V.has_key V.made V.shows g (λ m. V.shows values.old m (number_kind (type_in g.typing p)) value x) v (λ m r k. Went (to_address (pos (to_address x + g.typing.offset_of (pointed (type_in g.typing p)) name))) r k (breaks g node accessed (s.arrow p name) x (pos 0) (pos 0))) (condition_events g node accessed (s.arrow p name)) values.old values.new state.old state.new) }
    ensures cost { OnOk result (Costs V.cost (length (O.setting out.now).kept) (1024 + null_charge (kind_in (O.setting out.now).typing (view_expression e.now))) values.old values.new (length state.old.cells.items) (length state.new.cells.items)) }
{
    let at = node_of(e);
    let pointer = Operand {
        kind: out.kind_at(at),
        value,
    };
    let address = behind(values, pointer, out.pointed_offset(at, name))?;
    let tests = target_tests(accessed);
    check_one(out, node, tests, pointer, values, state)?;
    Ok(address)
}

/// The address of `e[e]`, for the value of what is indexed and the index.
pub(crate) fn indexed_place<O: WalkSetting, V: Values>(
    out: &O,
    node: u32,
    accessed: bool,
    left: &Expr,
    pair: (Operand<V::Value>, Operand<V::Value>),
    values: &mut V,
    state: &mut WalkState<V::Value>,
) -> Result<V::Value, NoMemory>
    requires first { V.made values.old pair.0.kind pair.0.value }
    requires second { V.made values.old pair.1.kind pair.1.value }
    requires ready { IsReady V.has_key V.made (O.kinds out.now) (O.setting out.now) values.old state.old }
    ensures walks { IfOk result (λ v. (right : ExprTree) (x y : ℤ) → let g = O.setting out.now in let a = view_expression left.now in FindsBehind V.serves V.has_key V.made V.shows g (λ m. V.shows values.old m pair.0.kind pair.0.value x × V.shows values.old m pair.1.kind pair.1.value y) v (λ m r k. Went (moved (to_address x) y (stride_in g.typing (type_in g.typing a)) false) r k (breaks g node accessed (s.index a right) x y (pos 0))) (condition_events g node accessed (s.index a right)) values.old values.new state.old state.new) }
    ensures cost { OnOk result (Costs V.cost (length (O.setting out.now).kept) (move_charge (stride_in (O.setting out.now).typing (type_in (O.setting out.now).typing (view_expression left.now))) + index_charge pair.0.kind (stride_in (O.setting out.now).typing (type_in (O.setting out.now).typing (view_expression left.now)))) values.old values.new (length state.old.cells.items) (length state.new.cells.items)) }
{
    let at = node_of(left);
    let (base, step) = pair;
    let address = moved_address(values, base, step, out.stride_at(at), false)?;
    let tests = index_tests(out, accessed, at);
    check_two(out, node, tests, (base, step), values, state)?;
    Ok(address)
}

/// The value of a place whose address is known: of an array its address, else what is read.
pub(crate) fn place_number<O: WalkSetting, V: Values>(
    out: &O,
    node: u32,
    target: Target,
    address: V::Value,
    values: &mut V,
    state: &mut WalkState<V::Value>,
) -> Result<V::Value, NoMemory>
    requires suits { Suits (O.setting out.now) (target_shown target) (number_kind ((O.setting out.now).typing.type_at node)) }
    requires address { V.made values.old ULong address }
    requires ready { IsReady V.has_key V.made (O.kinds out.now) (O.setting out.now) values.old state.old }
    ensures walks { IfOk result (λ v. (a : ℕ) → WalksBehind V.serves V.has_key V.made V.shows (O.setting out.now) (λ m. V.shows values.old m ULong address (pos a)) (number_kind ((O.setting out.now).typing.type_at node)) v (λ m. place_end (O.setting out.now) (path_world (O.under out.now m)) node (target_shown target) a) [] values.old values.new state.old state.new) }
    ensures cost { OnOk result (Costs V.cost (length (O.setting out.now).kept) (read_charge (target_shown target) (number_kind ((O.setting out.now).typing.type_at node))) values.old values.new (length state.old.cells.items) (length state.new.cells.items)) }
{
    if out.is_array_at(node) {
        return Ok(address);
    }
    let found = read_place(out, node, target, values, state)?;
    Ok(found)
}

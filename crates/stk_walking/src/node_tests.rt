//! Whether the numbers of a node's operands violate the conditions of the node, as tests.

ghost use Rattle.std.specs.Prelude.{◌≡◌, ℤ, pos, List, IfOk, ◌+◌, ◌*◌, ◌≤◌, OnOk};
ghost use Rattle.std.specs.Ordering.{int_eq};
ghost use Rattle.stk_ctype.specs.declared.kind.IntKind.TheVariants.{Int, ULong};
ghost use Rattle.stk_numbers.specs.declared.operators.ArithOp.TheVariants.{Sub};
ghost use Rattle.stk_numbers.specs.Kinds.{wrap, least, width_of};
ghost use Rattle.stk_numbers.specs.Conditions.{violates, leaves_memory, apart, overlaps};
ghost use Rattle.stk_meaning.specs.Operations.{bit, to_address};
ghost use Rattle.stk_values.specs.Keeping.{Keeps};
ghost use Rattle.stk_walking.specs.NodeTests.{test_of, IsTestOf, OperandsMade, OperandsShow};
ghost use Rattle.stk_values.specs.Charges.{convert_charge, breaks_charge, move_charge};
ghost use Rattle.stk_walking.specs.Charges.{test_charge};

use crate::operations::{Operand, to_address};
use crate::tests::{converted, zero};
use stk_base::NoMemory;
use stk_numbers::{ArithOp, CompareOp, IntKind, UbKind};
use stk_operators::Stride;
use stk_values::Values;

/// The operands of a node, in order; one that the node hasn't got doesn't matter.
#[derive(Clone, Copy, Debug)]
pub struct Operands<T> {
    pub first: Operand<T>,
    pub second: Operand<T>,
    pub third: Operand<T>,
}

/// One test of the numbers of a node's operands: that an operator on them, or `-`, violates a condition in a kind; that
/// a count is oversized for a kind; that a pointer moves out of the address space; that a pointer is null; that an
/// index is out of bounds; that a number has no absolute value; that bytes overlap.
#[derive(Clone, Copy, Debug)]
pub enum NodeTest {
    Arithmetic(UbKind, ArithOp, IntKind),
    Negation(UbKind, IntKind),
    Shift(IntKind),
    Move(bool, Stride),
    MoveBehind(Stride),
    Null,
    Bounds(u64),
    Absolute(IntKind),
    Copy,
}

// The least number of a kind.
fn least(kind: IntKind) -> i128
    ensures { result ≡ least kind }
{
    match kind {
        IntKind::Char | IntKind::SChar => -128,
        IntKind::Short => -32_768,
        IntKind::Int => -2_147_483_648,
        IntKind::Long | IntKind::LLong => -9_223_372_036_854_775_808,
        IntKind::Bool
        | IntKind::UChar
        | IntKind::UShort
        | IntKind::UInt
        | IntKind::ULong
        | IntKind::ULLong => 0,
    }
}

// Whether an operator on two operands that are converted to a kind violates a condition.
fn breaks_in_kind<V: Values>(
    values: &mut V,
    what: UbKind,
    op: ArithOp,
    kind: IntKind,
    left: Operand<V::Value>,
    right: Operand<V::Value>,
) -> Result<V::Value, NoMemory>
    requires left { V.made values.old left.kind left.value }
    requires right { V.made values.old right.kind right.value }
    ensures makes { IfOk result (λ v. V.made values.new Int v) }
    ensures value { IfOk result (λ v. (m : List ℤ) (x y : ℤ) → V.serves values.old m → V.shows values.old m left.kind left.value x → V.shows values.old m right.kind right.value y → V.shows values.new m Int v (bit (violates what op kind (wrap kind x) (wrap kind y)))) }
    ensures keeps { Keeps V.serves V.has_key V.made V.shows values.old values.new }
    ensures charge { OnOk result (V.cost values.new ≤ V.cost values.old + (convert_charge left.kind kind + convert_charge right.kind kind + breaks_charge op (width_of kind))) }
{
    let x = converted(values, left.kind, kind, left.value)?;
    let y = converted(values, right.kind, kind, right.value)?;
    let found = values.breaks(what, op, kind, x, y)?;
    Ok(found)
}

// Whether `-` of an operand that is converted to a kind violates a condition.
fn breaks_negation<V: Values>(
    values: &mut V,
    what: UbKind,
    kind: IntKind,
    operand: Operand<V::Value>,
) -> Result<V::Value, NoMemory>
    requires { V.made values.old operand.kind operand.value }
    ensures makes { IfOk result (λ v. V.made values.new Int v) }
    ensures value { IfOk result (λ v. (m : List ℤ) (x : ℤ) → V.serves values.old m → V.shows values.old m operand.kind operand.value x → V.shows values.new m Int v (bit (violates what Sub kind (wrap kind (pos 0)) (wrap kind x)))) }
    ensures keeps { Keeps V.serves V.has_key V.made V.shows values.old values.new }
    ensures charge { OnOk result (V.cost values.new ≤ V.cost values.old + (convert_charge kind kind + convert_charge operand.kind kind + breaks_charge Sub (width_of kind))) }
{
    let none = zero(values, kind)?;
    let left = Operand { kind, value: none };
    let found = breaks_in_kind(values, what, ArithOp::Sub, kind, left, operand)?;
    Ok(found)
}

// Whether an address that is moved by elements of a size leaves the address space; elements of size 0 don't.
fn breaks_move<V: Values>(
    values: &mut V,
    base: Operand<V::Value>,
    step: Operand<V::Value>,
    size: Stride,
    minus: bool,
) -> Result<V::Value, NoMemory>
    requires base { V.made values.old base.kind base.value }
    requires step { V.made values.old step.kind step.value }
    ensures makes { IfOk result (λ v. V.made values.new Int v) }
    ensures value { IfOk result (λ v. (m : List ℤ) (x y : ℤ) → V.serves values.old m → V.shows values.old m base.kind base.value x → V.shows values.old m step.kind step.value y → V.shows values.new m Int v (bit (leaves_memory (to_address x) y size minus))) }
    ensures keeps { Keeps V.serves V.has_key V.made V.shows values.old values.new }
    ensures charge { OnOk result (V.cost values.new ≤ V.cost values.old + (move_charge size + 512)) }
{
    let bytes = size.bytes();
    if bytes == 0 {
        let none = zero(values, IntKind::Int)?;
        return Ok(none);
    }
    let address = to_address(values, base)?;
    let found = values.breaks_move(address, step.kind, step.value, bytes, minus)?;
    Ok(found)
}

// Whether an operand is 0.
fn is_null<V: Values>(values: &mut V, operand: Operand<V::Value>) -> Result<V::Value, NoMemory>
    requires { V.made values.old operand.kind operand.value }
    ensures makes { IfOk result (λ v. V.made values.new Int v) }
    ensures value { IfOk result (λ v. (m : List ℤ) (x : ℤ) → V.serves values.old m → V.shows values.old m operand.kind operand.value x → V.shows values.new m Int v (bit (int_eq x (pos 0)))) }
    ensures keeps { Keeps V.serves V.has_key V.made V.shows values.old values.new }
    ensures charge { OnOk result (V.cost values.new ≤ V.cost values.old + 10 * width_of operand.kind) }
{
    let none = zero(values, operand.kind)?;
    let found = values.compare(CompareOp::Eq, operand.kind, operand.value, none)?;
    Ok(found)
}

// Whether an operand is the least number of its kind.
fn is_least<V: Values>(values: &mut V, operand: Operand<V::Value>) -> Result<V::Value, NoMemory>
    requires { V.made values.old operand.kind operand.value }
    ensures makes { IfOk result (λ v. V.made values.new Int v) }
    ensures value { IfOk result (λ v. (m : List ℤ) (x : ℤ) → V.serves values.old m → V.shows values.old m operand.kind operand.value x → V.shows values.new m Int v (bit (int_eq x (least operand.kind)))) }
    ensures keeps { Keeps V.serves V.has_key V.made V.shows values.old values.new }
    ensures charge { OnOk result (V.cost values.new ≤ V.cost values.old + 10 * width_of operand.kind) }
{
    let lowest = values.constant(operand.kind, least(operand.kind))?;
    let found = values.compare(CompareOp::Eq, operand.kind, operand.value, lowest)?;
    Ok(found)
}

// How far two addresses are apart.
fn apart<V: Values>(values: &mut V, left: V::Value, right: V::Value) -> Result<V::Value, NoMemory>
    requires left { V.made values.old ULong left }
    requires right { V.made values.old ULong right }
    ensures makes { IfOk result (λ v. V.made values.new ULong v) }
    ensures value { IfOk result (λ v. (m : List ℤ) (x y : ℤ) → V.serves values.old m → V.shows values.old m ULong left (pos (to_address x)) → V.shows values.old m ULong right (pos (to_address y)) → V.shows values.new m ULong v (pos (apart (to_address x) (to_address y)))) }
    ensures keeps { Keeps V.serves V.has_key V.made V.shows values.old values.new }
    ensures charge { OnOk result (V.cost values.new ≤ V.cost values.old + 2112) }
{
    let below = values.compare(CompareOp::Lt, IntKind::ULong, left, right)?;
    let up = values.arith(ArithOp::Sub, IntKind::ULong, right, left)?;
    let down = values.arith(ArithOp::Sub, IntKind::ULong, left, right)?;
    let found = values.choose(below, IntKind::ULong, up, down)?;
    Ok(found)
}

// Whether so many bytes at two addresses overlap (C11 7.24.2.1).
fn breaks_copy<V: Values>(
    values: &mut V,
    operands: Operands<V::Value>,
) -> Result<V::Value, NoMemory>
    requires { OperandsMade (V.made values.old) operands }
    ensures makes { IfOk result (λ v. V.made values.new Int v) }
    ensures value { IfOk result (λ v. (m : List ℤ) (x y z : ℤ) → V.serves values.old m → OperandsShow (V.shows values.old m) operands x y z → V.shows values.new m Int v (bit (overlaps (to_address x) (to_address y) (to_address z)))) }
    ensures keeps { Keeps V.serves V.has_key V.made V.shows values.old values.new }
    ensures charge { OnOk result (V.cost values.new ≤ V.cost values.old + 2752) }
{
    let to = to_address(values, operands.first)?;
    let from = to_address(values, operands.second)?;
    let count = to_address(values, operands.third)?;
    let distance = apart(values, to, from)?;
    let found = values.compare(CompareOp::Lt, IntKind::ULong, distance, count)?;
    Ok(found)
}

/// Whether the numbers of a node's operands violate a test.
pub(crate) fn breaks<V: Values>(
    values: &mut V,
    test: NodeTest,
    operands: Operands<V::Value>,
) -> Result<V::Value, NoMemory>
    requires operands { OperandsMade (V.made values.old) operands }
    requires asked { IsTestOf operands.first.kind test }
    ensures makes { IfOk result (λ v. V.made values.new Int v) }
    ensures value { IfOk result (λ v. (m : List ℤ) (x y z : ℤ) → V.serves values.old m → OperandsShow (V.shows values.old m) operands x y z → V.shows values.new m Int v (bit ((test_of test).broken x y z))) }
    ensures keeps { Keeps V.serves V.has_key V.made V.shows values.old values.new }
    ensures charge { OnOk result (V.cost values.new ≤ V.cost values.old + test_charge test operands.first.kind operands.second.kind) }
{
    let left = operands.first;
    let right = operands.second;
    match test {
        NodeTest::Arithmetic(what, op, kind) => breaks_in_kind(values, what, op, kind, left, right),
        NodeTest::Negation(what, kind) => breaks_negation(values, what, kind, left),
        NodeTest::Shift(kind) => values.breaks_shift(kind, right.kind, right.value),
        NodeTest::Move(minus, size) => breaks_move(values, left, right, size, minus),
        NodeTest::MoveBehind(size) => breaks_move(values, right, left, size, false),
        NodeTest::Null => is_null(values, left),
        NodeTest::Bounds(count) => values.breaks_bounds(right.kind, right.value, count),
        NodeTest::Absolute(_) => is_least(values, left),
        NodeTest::Copy => breaks_copy(values, operands),
    }
}

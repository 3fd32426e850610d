//! What operators do to values.

ghost use Rattle.std.specs.Prelude.{◌≡◌, ℤ, ℕ, pos, negsuc, ◌-ℤ◌, List, Bool, not, IfOk, ◌+◌, ◌*◌, ◌≤◌, OnOk};
ghost use Rattle.stk_ctype.specs.declared.kind.IntKind.TheVariants.{Int, Long, ULong};
ghost use Rattle.stk_numbers.specs.Kinds.{wrap, promote, width_of};
ghost use Rattle.stk_numbers.specs.Values.{arith, shifted, compared, moved, distance, absolute};
ghost use Rattle.stk_meaning.specs.Operations.{operated, in_kind, truth, bit, to_address};
ghost use Rattle.stk_numbers.specs.declared.operators.ArithOp.TheVariants.{Sub};
ghost use Rattle.stk_meaning.specs.Replacements.{replaced_truth};
ghost use Rattle.stk_operators.specs.Shown.{operation_shown};
ghost use Rattle.stk_kinded.specs.Kinds.{operation_kind};
ghost use Rattle.stk_values.specs.Keeping.{Keeps};
ghost use Rattle.stk_walking.specs.Operands.{IsShiftOf};
ghost use Rattle.stk_values.specs.Charges.{wider, convert_charge, arith_charge, move_charge, distance_charge};
ghost use Rattle.stk_spending.specs.Charges.{operated_charge};

use crate::tests::{converted, is_true, zero};
use stk_base::NoMemory;
use stk_numbers::{ArithOp, CompareOp, IntKind, ShiftOp, common, wrap};
use stk_operators::{Operation, Stride};
use stk_values::Values;

/// An operand: a value, and its kind.
#[derive(Clone, Copy, Debug)]
pub struct Operand<T> {
    pub kind: IntKind,
    pub value: T,
}

// The value of an operator on two operands that are converted to a kind.
fn in_kind<V: Values>(
    values: &mut V,
    op: ArithOp,
    kind: IntKind,
    left: Operand<V::Value>,
    right: Operand<V::Value>,
) -> Result<V::Value, NoMemory>
    requires left { V.made values.old left.kind left.value }
    requires right { V.made values.old right.kind right.value }
    ensures makes { IfOk result (λ v. V.made values.new kind v) }
    ensures value { IfOk result (λ v. (m : List ℤ) (x y : ℤ) → V.serves values.old m → V.shows values.old m left.kind left.value x → V.shows values.old m right.kind right.value y → V.shows values.new m kind v (arith op kind (wrap kind x) (wrap kind y))) }
    ensures keeps { Keeps V.serves V.has_key V.made V.shows values.old values.new }
    ensures charge { OnOk result (V.cost values.new ≤ V.cost values.old + (convert_charge left.kind kind + convert_charge right.kind kind + arith_charge op (width_of kind))) }
{
    let x = converted(values, left.kind, kind, left.value)?;
    let y = converted(values, right.kind, kind, right.value)?;
    let found = values.arith(op, kind, x, y)?;
    Ok(found)
}

// The value of a shift in the promoted kind of its left operand.
fn shifted<V: Values>(
    values: &mut V,
    op: ShiftOp,
    kind: IntKind,
    left: Operand<V::Value>,
    right: Operand<V::Value>,
) -> Result<V::Value, NoMemory>
    requires left { V.made values.old left.kind left.value }
    requires right { V.made values.old right.kind right.value }
    requires promoted { kind ≡ promote left.kind }
    ensures makes { IfOk result (λ v. V.made values.new kind v) }
    ensures value { IfOk result (λ v. (m : List ℤ) (x y : ℤ) → V.serves values.old m → V.shows values.old m left.kind left.value x → V.shows values.old m right.kind right.value y → V.shows values.new m kind v (shifted op kind x y)) }
    ensures keeps { Keeps V.serves V.has_key V.made V.shows values.old values.new }
    ensures charge { OnOk result (V.cost values.new ≤ V.cost values.old + (convert_charge left.kind kind + 26 * wider kind right.kind)) }
{
    let x = converted(values, left.kind, kind, left.value)?;
    let found = values.shift(op, kind, x, right.kind, right.value)?;
    Ok(found)
}

// Whether a comparison of two operands that are converted to a kind holds.
fn compared<V: Values>(
    values: &mut V,
    op: CompareOp,
    kind: IntKind,
    left: Operand<V::Value>,
    right: Operand<V::Value>,
) -> Result<V::Value, NoMemory>
    requires left { V.made values.old left.kind left.value }
    requires right { V.made values.old right.kind right.value }
    ensures makes { IfOk result (λ v. V.made values.new Int v) }
    ensures value { IfOk result (λ v. (m : List ℤ) (x y : ℤ) → V.serves values.old m → V.shows values.old m left.kind left.value x → V.shows values.old m right.kind right.value y → V.shows values.new m Int v (bit (compared op (wrap kind x) (wrap kind y)))) }
    ensures keeps { Keeps V.serves V.has_key V.made V.shows values.old values.new }
    ensures charge { OnOk result (V.cost values.new ≤ V.cost values.old + (convert_charge left.kind kind + convert_charge right.kind kind + 10 * width_of kind)) }
{
    let x = converted(values, left.kind, kind, left.value)?;
    let y = converted(values, right.kind, kind, right.value)?;
    let found = values.compare(op, kind, x, y)?;
    Ok(found)
}

/// The address that an operand is.
pub fn to_address<V: Values>(
    values: &mut V,
    operand: Operand<V::Value>,
) -> Result<V::Value, NoMemory>
    requires { V.made values.old operand.kind operand.value }
    ensures makes { IfOk result (λ v. V.made values.new ULong v) }
    ensures value { IfOk result (λ v. (m : List ℤ) (x : ℤ) → V.serves values.old m → V.shows values.old m operand.kind operand.value x → V.shows values.new m ULong v (pos (to_address x))) }
    ensures keeps { Keeps V.serves V.has_key V.made V.shows values.old values.new }
    ensures charge { OnOk result (V.cost values.new ≤ V.cost values.old) }
{
    let found = converted(values, operand.kind, IntKind::ULong, operand.value)?;
    Ok(found)
}

/// The address so many elements of a size before or behind the address that an operand is, modulo 2^64 (C11 6.5.6);
/// elements of size 0 are all at one address.
pub fn moved_address<V: Values>(
    values: &mut V,
    base: Operand<V::Value>,
    step: Operand<V::Value>,
    size: Stride,
    minus: bool,
) -> Result<V::Value, NoMemory>
    requires base { V.made values.old base.kind base.value }
    requires step { V.made values.old step.kind step.value }
    ensures makes { IfOk result (λ v. V.made values.new ULong v) }
    ensures value { IfOk result (λ v. (m : List ℤ) (x y : ℤ) → V.serves values.old m → V.shows values.old m base.kind base.value x → V.shows values.old m step.kind step.value y → V.shows values.new m ULong v (pos (moved (to_address x) y size minus))) }
    ensures keeps { Keeps V.serves V.has_key V.made V.shows values.old values.new }
    ensures charge { OnOk result (V.cost values.new ≤ V.cost values.old + move_charge size) }
{
    let address = to_address(values, base)?;
    let bytes = size.bytes();
    if bytes == 0 {
        return Ok(address);
    }
    let found = values.moved(address, step.kind, step.value, bytes, minus)?;
    Ok(found)
}

// How many elements of a size one address is behind another (C11 6.5.6p9); 0 where the size is 0.
fn measured<V: Values>(
    values: &mut V,
    left: Operand<V::Value>,
    right: Operand<V::Value>,
    size: Stride,
) -> Result<V::Value, NoMemory>
    requires left { V.made values.old left.kind left.value }
    requires right { V.made values.old right.kind right.value }
    ensures makes { IfOk result (λ v. V.made values.new Long v) }
    ensures value { IfOk result (λ v. (m : List ℤ) (x y : ℤ) → V.serves values.old m → V.shows values.old m left.kind left.value x → V.shows values.old m right.kind right.value y → V.shows values.new m Long v (distance (to_address x) (to_address y) size)) }
    ensures keeps { Keeps V.serves V.has_key V.made V.shows values.old values.new }
    ensures charge { OnOk result (V.cost values.new ≤ V.cost values.old + distance_charge size) }
{
    let bytes = size.bytes();
    if bytes == 0 {
        let none = zero(values, IntKind::Long)?;
        return Ok(none);
    }
    let x = to_address(values, left)?;
    let y = to_address(values, right)?;
    let found = values.distance(x, y, bytes)?;
    Ok(found)
}

/// The value of an operation on two operands, also where it violates a condition (C11 6.5.5 to 6.5.12).
pub fn operated<V: Values>(
    values: &mut V,
    operation: &Operation,
    left: Operand<V::Value>,
    right: Operand<V::Value>,
) -> Result<V::Value, NoMemory>
    requires left { V.made values.old left.kind left.value }
    requires right { V.made values.old right.kind right.value }
    requires shifts { IsShiftOf left.kind (operation_shown operation.now) }
    ensures makes { IfOk result (λ v. V.made values.new (operation_kind (operation_shown operation.now)) v) }
    ensures value { IfOk result (λ v. (m : List ℤ) (x y : ℤ) → V.serves values.old m → V.shows values.old m left.kind left.value x → V.shows values.old m right.kind right.value y → V.shows values.new m (operation_kind (operation_shown operation.now)) v (operated (operation_shown operation.now) x y)) }
    ensures keeps { Keeps V.serves V.has_key V.made V.shows values.old values.new }
    ensures charge { OnOk result (V.cost values.new ≤ V.cost values.old + operated_charge (operation_shown operation.now) left.kind right.kind) }
{
    match operation {
        Operation::InKind(op, kind) => in_kind(values, *op, *kind, left, right),
        Operation::ShiftIn(op, kind) => shifted(values, *op, *kind, left, right),
        Operation::CompareIn(op, kind) => compared(values, *op, *kind, left, right),
        Operation::Move(minus, size) => moved_address(values, left, right, *size, *minus),
        Operation::MoveBehind(size) => moved_address(values, right, left, *size, false),
        Operation::Measure(size) => measured(values, left, right, *size),
    }
}

/// The value of `-` in a kind: 0 less the operand (C11 6.5.3.3p3).
pub fn negated<V: Values>(
    values: &mut V,
    kind: IntKind,
    operand: Operand<V::Value>,
) -> Result<V::Value, NoMemory>
    requires { V.made values.old operand.kind operand.value }
    ensures makes { IfOk result (λ v. V.made values.new kind v) }
    ensures value { IfOk result (λ v. (m : List ℤ) (x : ℤ) → V.serves values.old m → V.shows values.old m operand.kind operand.value x → V.shows values.new m kind v (operated (in_kind Sub kind) (pos 0) x)) }
    ensures keeps { Keeps V.serves V.has_key V.made V.shows values.old values.new }
    ensures charge { OnOk result (V.cost values.new ≤ V.cost values.old + operated_charge (in_kind Sub kind) kind operand.kind) }
{
    let none = zero(values, kind)?;
    let left = Operand { kind, value: none };
    let found = in_kind(values, ArithOp::Sub, kind, left, operand)?;
    Ok(found)
}

/// The value of `~` in the promoted kind of its operand: -1 less the operand (C11 6.5.3.3p4).
pub fn flipped<V: Values>(
    values: &mut V,
    kind: IntKind,
    operand: Operand<V::Value>,
) -> Result<V::Value, NoMemory>
    requires made { V.made values.old operand.kind operand.value }
    requires promoted { kind ≡ promote operand.kind }
    ensures makes { IfOk result (λ v. V.made values.new kind v) }
    ensures value { IfOk result (λ v. (m : List ℤ) (x : ℤ) → V.serves values.old m → V.shows values.old m operand.kind operand.value x → V.shows values.new m kind v (wrap kind (negsuc 0 -ℤ x))) }
    ensures keeps { Keeps V.serves V.has_key V.made V.shows values.old values.new }
    ensures charge { OnOk result (V.cost values.new ≤ V.cost values.old + (convert_charge operand.kind kind + 10 * width_of kind)) }
{
    let ones = values.constant(kind, wrap(kind, -1))?;
    let x = converted(values, operand.kind, kind, operand.value)?;
    let found = values.arith(ArithOp::Sub, kind, ones, x)?;
    Ok(found)
}

/// The value of `!`: whether the operand is 0 (C11 6.5.3.3p5).
pub fn is_zero<V: Values>(values: &mut V, operand: Operand<V::Value>) -> Result<V::Value, NoMemory>
    requires { V.made values.old operand.kind operand.value }
    ensures makes { IfOk result (λ v. V.made values.new Int v) }
    ensures value { IfOk result (λ v. (m : List ℤ) (x : ℤ) → V.serves values.old m → V.shows values.old m operand.kind operand.value x → V.shows values.new m Int v (bit (not (truth x)))) }
    ensures keeps { Keeps V.serves V.has_key V.made V.shows values.old values.new }
    ensures charge { OnOk result (V.cost values.new ≤ V.cost values.old + 10 * width_of operand.kind) }
{
    let test = is_true(values, operand.kind, operand.value)?;
    let found = values.opposite(test)?;
    Ok(found)
}

/// The absolute value of a number of a kind (C11 7.22.6.1).
pub fn absolute<V: Values>(
    values: &mut V,
    kind: IntKind,
    value: V::Value,
) -> Result<V::Value, NoMemory>
    requires { V.made values.old kind value }
    ensures makes { IfOk result (λ v. V.made values.new kind v) }
    ensures value { IfOk result (λ v. (m : List ℤ) (x : ℤ) → V.serves values.old m → V.shows values.old m kind value x → V.shows values.new m kind v (absolute kind x)) }
    ensures keeps { Keeps V.serves V.has_key V.made V.shows values.old values.new }
    ensures charge { OnOk result (V.cost values.new ≤ V.cost values.old + 23 * width_of kind) }
{
    let none = zero(values, kind)?;
    let below = values.compare(CompareOp::Lt, kind, value, none)?;
    let less = values.arith(ArithOp::Sub, kind, none, value)?;
    let found = values.choose(below, kind, less, value)?;
    Ok(found)
}

/// The truth of `y op 0`, or of `0 op y`, for an operand y, in the common kind of a kind and `int`.
pub fn replaced_test<V: Values>(
    values: &mut V,
    zero_first: bool,
    op: CompareOp,
    kept: IntKind,
    operand: Operand<V::Value>,
) -> Result<V::Value, NoMemory>
    requires { V.made values.old operand.kind operand.value }
    ensures makes { IfOk result (λ v. V.made values.new Int v) }
    ensures value { IfOk result (λ v. (m : List ℤ) (y : ℤ) → V.serves values.old m → V.shows values.old m operand.kind operand.value y → V.shows values.new m Int v (bit (replaced_truth zero_first op kept y))) }
    ensures keeps { Keeps V.serves V.has_key V.made V.shows values.old values.new }
    ensures charge { OnOk result (V.cost values.new ≤ V.cost values.old + 640) }
{
    let kind = common(kept, IntKind::Int);
    let y = converted(values, operand.kind, kind, operand.value)?;
    let none = zero(values, kind)?;
    let (left, right) = if zero_first { (none, y) } else { (y, none) };
    let found = values.compare(op, kind, left, right)?;
    Ok(found)
}

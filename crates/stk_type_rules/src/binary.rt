//! Operators with two operands.

ghost use Rattle.std.specs.Prelude.{◌≡◌, Some, None, Option, IfOk};
ghost use Rattle.std.specs.Option.{option_map, option_copied};
ghost use Rattle.stk_ctype.specs.Types.{type_of};
ghost use Rattle.stk_ctype.specs.Structs.{structs_of, Structs};
ghost use Rattle.stk_ctype.specs.Sound.{IsSound};
ghost use Rattle.stk_type_rules.specs.Facts.{fact_of};
ghost use Rattle.stk_type_rules.specs.Outcome.{MakesFact};
ghost use Rattle.stk_type_rules.specs.Types.{kind_of, pointee};
ghost use Rattle.stk_type_rules.specs.Rules.{arithmetic_rule, moved_pointer, sum_rule, distance_rule, apart, difference_rule, shift_rule, comparison_rule, compared_as, logical_rule, comma_rule, binary_rule};

use crate::constants::{arithmetic, comparison, logical, shift};
use crate::types::{decayed, is_struct, kind_of, pointee, pointer_to, reads_scalar, stride};
use crate::unary::integer;
use crate::{Broken, Constancy, NodeFact};
use std::alloc::Global;
use stk_ctype::{CType, IntKind, Names};
use stk_numbers::{ArithOp, CompareOp, ShiftOp, common, promote};
use stk_tree::BinaryOp;

// `+ - * / % & ^ |` of integers.
fn arithmetic_rule(op: ArithOp, x: &NodeFact, y: &NodeFact) -> Result<NodeFact, Broken>
    ensures fact { MakesFact (arithmetic_rule op (fact_of x.now) (fact_of y.now)) result }
    ensures sound { (structs : Structs) → IfOk result (λ f. IsSound structs (type_of f.ty)) }
{
    match (kind_of(&x.ty), kind_of(&y.ty)) {
        (Some(left), Some(right)) => {
            let kind = common(left, right);
            let number = arithmetic(op, kind, x.constancy, y.constancy);
            Ok(NodeFact::constant(CType::Int(kind), number))
        }
        _ => Err(Broken::Rule(6)),
    }
}

// A pointer of this type, moved by a number.
fn moved_pointer(alloc: Global, names: &Names, ty: &CType) -> Result<NodeFact, Broken>
    requires { IsSound (structs_of names.now) (type_of ty.now) }
    ensures fact { MakesFact (moved_pointer (structs_of names.now) (pointee (type_of ty.now))) result }
    ensures sound { IfOk result (λ f. IsSound (structs_of names.now) (type_of f.ty)) }
{
    match pointee(ty) {
        None => Err(Broken::Rule(6)),
        Some(target) => {
            if stride(names, target).is_some() {
                let pointer = pointer_to(alloc, target)?;
                Ok(NodeFact::value(pointer))
            } else {
                Err(Broken::Rule(4))
            }
        }
    }
}

// `+`
fn sum_rule(alloc: Global, names: &Names, x: &NodeFact, y: &NodeFact) -> Result<NodeFact, Broken>
    requires left { IsSound (structs_of names.now) (type_of x.now.ty) }
    requires right { IsSound (structs_of names.now) (type_of y.now.ty) }
    ensures fact { MakesFact (sum_rule (structs_of names.now) (kind_of (type_of x.now.ty)) (kind_of (type_of y.now.ty)) (fact_of x.now) (fact_of y.now)) result }
    ensures sound { IfOk result (λ f. IsSound (structs_of names.now) (type_of f.ty)) }
{
    match (kind_of(&x.ty), kind_of(&y.ty)) {
        (Some(_), Some(_)) => arithmetic_rule(ArithOp::Add, x, y),
        (Some(_), None) => moved_pointer(alloc, names, &y.ty),
        (None, Some(_)) => moved_pointer(alloc, names, &x.ty),
        (None, None) => Err(Broken::Rule(6)),
    }
}

// Two pointers by whose targets a number moves them.
fn distance(left: Option<u64>, right: Option<u64>) -> Result<NodeFact, Broken>
    ensures fact { MakesFact (distance_rule left right) result }
    ensures sound { (structs : Structs) → IfOk result (λ f. IsSound structs (type_of f.ty)) }
{
    match (left, right) {
        (Some(m), Some(n)) => {
            if m == n {
                Ok(NodeFact::value(CType::Int(IntKind::Long)))
            } else {
                Err(Broken::Rule(6))
            }
        }
        _ => Err(Broken::Rule(4)),
    }
}

// Two pointers, one less the other.
fn apart(names: &Names, x: &CType, y: &CType) -> Result<NodeFact, Broken>
    requires left { IsSound (structs_of names.now) (type_of x.now) }
    requires right { IsSound (structs_of names.now) (type_of y.now) }
    ensures fact { MakesFact (apart (structs_of names.now) (pointee (type_of x.now)) (pointee (type_of y.now))) result }
    ensures sound { IfOk result (λ f. IsSound (structs_of names.now) (type_of f.ty)) }
{
    match (pointee(x), pointee(y)) {
        (Some(t), Some(u)) => distance(stride(names, t), stride(names, u)),
        _ => Err(Broken::Rule(6)),
    }
}

// `-`
fn difference_rule(
    alloc: Global,
    names: &Names,
    x: &NodeFact,
    y: &NodeFact,
) -> Result<NodeFact, Broken>
    requires left { IsSound (structs_of names.now) (type_of x.now.ty) }
    requires right { IsSound (structs_of names.now) (type_of y.now.ty) }
    ensures fact { MakesFact (difference_rule (structs_of names.now) (kind_of (type_of x.now.ty)) (kind_of (type_of y.now.ty)) (fact_of x.now) (fact_of y.now)) result }
    ensures sound { IfOk result (λ f. IsSound (structs_of names.now) (type_of f.ty)) }
{
    match (kind_of(&x.ty), kind_of(&y.ty)) {
        (Some(_), Some(_)) => arithmetic_rule(ArithOp::Sub, x, y),
        (Some(_), None) => Err(Broken::Rule(6)),
        (None, Some(_)) => moved_pointer(alloc, names, &x.ty),
        (None, None) => apart(names, &x.ty, &y.ty),
    }
}

// `<<` and `>>`.
fn shift_rule(op: ShiftOp, x: &NodeFact, y: &NodeFact) -> Result<NodeFact, Broken>
    ensures fact { MakesFact (shift_rule op (kind_of (type_of x.now.ty)) (kind_of (type_of y.now.ty)) x.now.constancy y.now.constancy) result }
    ensures sound { (structs : Structs) → IfOk result (λ f. IsSound structs (type_of f.ty)) }
{
    match (kind_of(&x.ty), kind_of(&y.ty)) {
        (Some(left), Some(_)) => {
            let kind = promote(left);
            let number = shift(op, kind, x.constancy, y.constancy);
            Ok(NodeFact::constant(CType::Int(kind), number))
        }
        _ => Err(Broken::Rule(6)),
    }
}

// The constant that a comparison is.
fn compared_as(op: CompareOp, x: &NodeFact, y: &NodeFact) -> Constancy
    ensures { result ≡ compared_as op (kind_of (type_of x.now.ty)) (kind_of (type_of y.now.ty)) x.now.constancy y.now.constancy }
{
    match (kind_of(&x.ty), kind_of(&y.ty)) {
        (Some(left), Some(right)) => comparison(op, common(left, right), x.constancy, y.constancy),
        _ => Constancy::Varies,
    }
}

// A comparison.
fn comparison_rule(op: CompareOp, x: &NodeFact, y: &NodeFact) -> Result<NodeFact, Broken>
    ensures fact { MakesFact (comparison_rule op (fact_of x.now) (fact_of y.now)) result }
    ensures sound { (structs : Structs) → IfOk result (λ f. IsSound structs (type_of f.ty)) }
{
    if reads_scalar(&x.ty) && reads_scalar(&y.ty) {
        Ok(integer(compared_as(op, x, y)))
    } else {
        Err(Broken::Rule(6))
    }
}

// `||` (true) and `&&` (false).
fn logical_rule(stops: bool, x: &NodeFact, y: &NodeFact) -> Result<NodeFact, Broken>
    ensures fact { MakesFact (logical_rule stops (fact_of x.now) (fact_of y.now)) result }
    ensures sound { (structs : Structs) → IfOk result (λ f. IsSound structs (type_of f.ty)) }
{
    if reads_scalar(&x.ty) && reads_scalar(&y.ty) {
        Ok(integer(logical(stops, x.constancy, y.constancy)))
    } else {
        Err(Broken::Rule(6))
    }
}

// `,`
fn comma_rule(alloc: Global, x: &NodeFact, y: &NodeFact) -> Result<NodeFact, Broken>
    ensures fact { MakesFact (comma_rule (fact_of x.now) (fact_of y.now)) result }
    ensures sound { (structs : Structs) → IsSound structs (type_of y.now.ty) → IfOk result (λ f. IsSound structs (type_of f.ty)) }
{
    if is_struct(&x.ty) || is_struct(&y.ty) {
        return Err(Broken::Rule(9));
    }
    let ty = decayed(alloc, &y.ty)?;
    Ok(NodeFact::value(ty))
}

/// An operator with two operands (C11 6.5.5 to 6.5.14, 6.5.17): `* / % & ^ |` and shifts take integers; `+` also a
/// pointer and an integer; `-` also a pointer less an integer and two pointers to types of one size; comparisons, `&&`
/// and `||` scalars; `,` anything but a struct. Rule 4 refuses a pointer to an incomplete type other than `void` in `+`
/// and `-`, rule 6 any other operands, rule 9 a struct beside `,`.
pub fn binary_rule(
    alloc: Global,
    names: &Names,
    op: BinaryOp,
    x: &NodeFact,
    y: &NodeFact,
) -> Result<NodeFact, Broken>
    requires left { IsSound (structs_of names.now) (type_of x.now.ty) }
    requires right { IsSound (structs_of names.now) (type_of y.now.ty) }
    ensures fact { MakesFact (binary_rule (structs_of names.now) op (fact_of x.now) (fact_of y.now)) result }
    ensures sound { IfOk result (λ f. IsSound (structs_of names.now) (type_of f.ty)) }
{
    match op {
        BinaryOp::Comma => comma_rule(alloc, x, y),
        BinaryOp::OrElse => logical_rule(true, x, y),
        BinaryOp::AndAlso => logical_rule(false, x, y),
        BinaryOp::Or => arithmetic_rule(ArithOp::Or, x, y),
        BinaryOp::Xor => arithmetic_rule(ArithOp::Xor, x, y),
        BinaryOp::And => arithmetic_rule(ArithOp::And, x, y),
        BinaryOp::Eq => comparison_rule(CompareOp::Eq, x, y),
        BinaryOp::Ne => comparison_rule(CompareOp::Ne, x, y),
        BinaryOp::Lt => comparison_rule(CompareOp::Lt, x, y),
        BinaryOp::Gt => comparison_rule(CompareOp::Gt, x, y),
        BinaryOp::Le => comparison_rule(CompareOp::Le, x, y),
        BinaryOp::Ge => comparison_rule(CompareOp::Ge, x, y),
        BinaryOp::Left => shift_rule(ShiftOp::Left, x, y),
        BinaryOp::Right => shift_rule(ShiftOp::Right, x, y),
        BinaryOp::Add => sum_rule(alloc, names, x, y),
        BinaryOp::Sub => difference_rule(alloc, names, x, y),
        BinaryOp::Mul => arithmetic_rule(ArithOp::Mul, x, y),
        BinaryOp::Div => arithmetic_rule(ArithOp::Div, x, y),
        BinaryOp::Rem => arithmetic_rule(ArithOp::Rem, x, y),
    }
}

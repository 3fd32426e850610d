//! `?:` (C11 6.5.15).

ghost use Rattle.std.specs.Prelude.{◌≡◌, IfOk};
ghost use Rattle.stk_ctype.specs.Types.{type_of, pointer_type};
ghost use Rattle.stk_ctype.specs.Structs.{Structs};
ghost use Rattle.stk_ctype.specs.Sound.{IsSound};
ghost use Rattle.stk_type_rules.specs.Facts.{Fits, fact_of, value};
ghost use Rattle.stk_type_rules.specs.Outcome.{MakesFact};
ghost use Rattle.stk_type_rules.specs.Types.{kind_of, pointee};
ghost use Rattle.stk_type_rules.specs.Rules.{either, branches, chosen, choice_rule};

use crate::constants::choice;
use crate::types::{is_void, kind_of, pointee, pointer_to, reads_scalar};
use crate::{Broken, NodeFact};
use std::alloc::Global;
use stk_base::NoMemory;
use stk_ctype::CType;
use stk_numbers::common;

// The pointer that a choice of two pointers is.
fn either(
    alloc: Global,
    left: &CType,
    right: &CType,
    left_null: bool,
    right_null: bool,
) -> Result<CType, NoMemory>
    ensures is { IfOk result (λ t. type_of t ≡ either (type_of left.now) (type_of right.now) left_null right_null) }
    ensures sound { (structs : Structs) → IsSound structs (type_of left.now) → IsSound structs (type_of right.now) → IfOk result (λ t. IsSound structs (type_of t)) }
{
    let is_right = match (left_null, right_null) {
        (true, false) => true,
        (false, true) => false,
        (true, true) | (false, false) => is_void(right),
    };
    if is_right {
        pointer_to(alloc, right)
    } else {
        pointer_to(alloc, left)
    }
}

// A pointer as a value.
fn pointer_value(alloc: Global, target: &CType) -> Result<NodeFact, Broken>
    ensures fact { MakesFact (Fits (value (pointer_type (type_of target.now)))) result }
    ensures sound { (structs : Structs) → IsSound structs (type_of target.now) → IfOk result (λ f. IsSound structs (type_of f.ty)) }
{
    let pointer = pointer_to(alloc, target)?;
    Ok(NodeFact::value(pointer))
}

// A choice of two pointers.
fn two_pointers(
    alloc: Global,
    left: &CType,
    right: &CType,
    y: &NodeFact,
    z: &NodeFact,
) -> Result<NodeFact, Broken>
    ensures fact { MakesFact (Fits (value (either (type_of left.now) (type_of right.now) y.now.is_null z.now.is_null))) result }
    ensures sound { (structs : Structs) → IsSound structs (type_of left.now) → IsSound structs (type_of right.now) → IfOk result (λ f. IsSound structs (type_of f.ty)) }
{
    let pointer = either(alloc, left, right, y.is_null, z.is_null)?;
    Ok(NodeFact::value(pointer))
}

// Two branches of which at least one is no integer.
fn branches(alloc: Global, y: &NodeFact, z: &NodeFact) -> Result<NodeFact, Broken>
    ensures fact { MakesFact (branches (kind_of (type_of y.now.ty)) (kind_of (type_of z.now.ty)) (pointee (type_of y.now.ty)) (pointee (type_of z.now.ty)) (fact_of y.now) (fact_of z.now)) result }
    ensures sound { (structs : Structs) → IsSound structs (type_of y.now.ty) → IsSound structs (type_of z.now.ty) → IfOk result (λ f. IsSound structs (type_of f.ty)) }
{
    match (pointee(&y.ty), pointee(&z.ty)) {
        (Some(left), Some(right)) => two_pointers(alloc, left, right, y, z),
        (Some(left), None) => {
            if kind_of(&z.ty).is_some() {
                pointer_value(alloc, left)
            } else {
                Err(Broken::Rule(6))
            }
        }
        (None, Some(right)) => {
            if kind_of(&y.ty).is_some() {
                pointer_value(alloc, right)
            } else {
                Err(Broken::Rule(6))
            }
        }
        (None, None) => {
            if is_void(&y.ty) && is_void(&z.ty) {
                Ok(NodeFact::value(CType::Void))
            } else {
                Err(Broken::Rule(6))
            }
        }
    }
}

// The value of a choice.
fn chosen(alloc: Global, x: &NodeFact, y: &NodeFact, z: &NodeFact) -> Result<NodeFact, Broken>
    ensures fact { MakesFact (chosen (kind_of (type_of y.now.ty)) (kind_of (type_of z.now.ty)) (fact_of x.now) (fact_of y.now) (fact_of z.now)) result }
    ensures sound { (structs : Structs) → IsSound structs (type_of y.now.ty) → IsSound structs (type_of z.now.ty) → IfOk result (λ f. IsSound structs (type_of f.ty)) }
{
    match (kind_of(&y.ty), kind_of(&z.ty)) {
        (Some(left), Some(right)) => {
            let kind = common(left, right);
            let number = choice(kind, x.constancy, y.constancy, z.constancy);
            Ok(NodeFact::constant(CType::Int(kind), number))
        }
        _ => branches(alloc, y, z),
    }
}

/// `e ? e : e`: a scalar, and two integers, two values of `void`, two pointers, or a pointer and an integer. Of two
/// pointers the type is that beside a null pointer constant, else `void *` where either is, else that of the first,
/// which is this profile's choice. Rule 6 refuses any other operands.
pub fn choice_rule(
    alloc: Global,
    x: &NodeFact,
    y: &NodeFact,
    z: &NodeFact,
) -> Result<NodeFact, Broken>
    ensures fact { MakesFact (choice_rule (fact_of x.now) (fact_of y.now) (fact_of z.now)) result }
    ensures sound { (structs : Structs) → IsSound structs (type_of y.now.ty) → IsSound structs (type_of z.now.ty) → IfOk result (λ f. IsSound structs (type_of f.ty)) }
{
    if reads_scalar(&x.ty) {
        chosen(alloc, x, y, z)
    } else {
        Err(Broken::Rule(6))
    }
}

//! Parentheses, operators with one operand, `sizeof` and casts.

ghost use Rattle.std.specs.Prelude.{◌≡◌, if◌then◌else◌, Ok, IfOk};
ghost use Rattle.stk_ctype.specs.Types.{type_of, pointer_type};
ghost use Rattle.stk_ctype.specs.Structs.{structs_of, Structs};
ghost use Rattle.stk_ctype.specs.Sound.{IsSound};
ghost use Rattle.stk_type_rules.specs.Facts.{Fits, Breaks, fact_of, value};
ghost use Rattle.stk_type_rules.specs.Outcome.{MakesFact};
ghost use Rattle.stk_type_rules.specs.Types.{kind_of};
ghost use Rattle.stk_type_rules.specs.Constants.{converted, negated, flipped, denied};
ghost use Rattle.stk_type_rules.specs.Rules.{paren_rule, unary_rule, promoted_rule, integer, has_scalar, size_rule, type_size_rule, is_zero, cast_to, cast_rule};

use crate::constants::{converted, denied, flipped, negated};
use crate::places::pointed;
use crate::types::{is_scalar, is_struct, is_void, kind_of, pointer_to, reads_scalar};
use crate::{Broken, Constancy, NodeFact};
use std::alloc::Global;
use stk_ctype::{CType, IntKind, Names};
use stk_numbers::promote;
use stk_tree::UnaryOp;

/// `( e )`: as the expression in it, but that it is no name and has no number by itself.
pub fn paren_rule(x: &NodeFact) -> Result<NodeFact, Broken>
    ensures fact { MakesFact (paren_rule (fact_of x.now)) result }
    ensures sound { (structs : Structs) → IsSound structs (type_of x.now.ty) → IfOk result (λ f. IsSound structs (type_of f.ty)) }
{
    let ty = x.ty.copy()?;
    Ok(NodeFact {
        role: x.role,
        ty,
        lvalue: x.lvalue,
        means: None,
        constancy: x.constancy,
        number: None,
        is_null: x.is_null,
    })
}

/// A value of type `int`.
pub(crate) fn integer(constancy: Constancy) -> NodeFact
    ensures fact { MakesFact (integer constancy) (Ok result) }
    ensures sound { (structs : Structs) → IsSound structs (type_of result.ty) }
{
    NodeFact::constant(CType::Int(IntKind::Int), constancy)
}

// `+`
fn plus(x: &NodeFact) -> Result<NodeFact, Broken>
    ensures fact { MakesFact (promoted_rule converted (kind_of (type_of x.now.ty)) x.now.constancy) result }
    ensures sound { (structs : Structs) → IfOk result (λ f. IsSound structs (type_of f.ty)) }
{
    match kind_of(&x.ty) {
        None => Err(Broken::Rule(6)),
        Some(kind) => {
            let kind = promote(kind);
            Ok(NodeFact::constant(CType::Int(kind), converted(kind, x.constancy)))
        }
    }
}

// `-`
fn minus(x: &NodeFact) -> Result<NodeFact, Broken>
    ensures fact { MakesFact (promoted_rule negated (kind_of (type_of x.now.ty)) x.now.constancy) result }
    ensures sound { (structs : Structs) → IfOk result (λ f. IsSound structs (type_of f.ty)) }
{
    match kind_of(&x.ty) {
        None => Err(Broken::Rule(6)),
        Some(kind) => {
            let kind = promote(kind);
            Ok(NodeFact::constant(CType::Int(kind), negated(kind, x.constancy)))
        }
    }
}

// `~`
fn flip(x: &NodeFact) -> Result<NodeFact, Broken>
    ensures fact { MakesFact (promoted_rule flipped (kind_of (type_of x.now.ty)) x.now.constancy) result }
    ensures sound { (structs : Structs) → IfOk result (λ f. IsSound structs (type_of f.ty)) }
{
    match kind_of(&x.ty) {
        None => Err(Broken::Rule(6)),
        Some(kind) => {
            let kind = promote(kind);
            Ok(NodeFact::constant(CType::Int(kind), flipped(kind, x.constancy)))
        }
    }
}

// `!`
fn deny(x: &NodeFact) -> Result<NodeFact, Broken>
    ensures fact { MakesFact (if has_scalar (fact_of x.now) then integer (denied x.now.constancy) else Breaks 6) result }
    ensures sound { (structs : Structs) → IfOk result (λ f. IsSound structs (type_of f.ty)) }
{
    if reads_scalar(&x.ty) {
        Ok(integer(denied(x.constancy)))
    } else {
        Err(Broken::Rule(6))
    }
}

// `&`
fn address(alloc: Global, x: &NodeFact) -> Result<NodeFact, Broken>
    ensures fact { MakesFact (if x.now.lvalue then Fits (value (pointer_type (type_of x.now.ty))) else Breaks 7) result }
    ensures sound { (structs : Structs) → IsSound structs (type_of x.now.ty) → IfOk result (λ f. IsSound structs (type_of f.ty)) }
{
    if x.lvalue {
        let pointer = pointer_to(alloc, &x.ty)?;
        Ok(NodeFact::value(pointer))
    } else {
        Err(Broken::Rule(7))
    }
}

/// An operator with one operand (C11 6.5.3.2, 6.5.3.3): `*` is refused by rule 4 on a pointer to an incomplete type,
/// and by rule 6 on what is no pointer; `&` by rule 7 on what is no lvalue; `+ - ~` by rule 6 on what is no integer,
/// and `!` by rule 6 on what is no scalar.
pub fn unary_rule(
    alloc: Global,
    names: &Names,
    op: UnaryOp,
    x: &NodeFact,
) -> Result<NodeFact, Broken>
    requires { IsSound (structs_of names.now) (type_of x.now.ty) }
    ensures fact { MakesFact (unary_rule (structs_of names.now) op (fact_of x.now)) result }
    ensures sound { IfOk result (λ f. IsSound (structs_of names.now) (type_of f.ty)) }
{
    match op {
        UnaryOp::Address => address(alloc, x),
        UnaryOp::Deref => pointed(names, &x.ty),
        UnaryOp::Plus => plus(x),
        UnaryOp::Minus => minus(x),
        UnaryOp::Flip => flip(x),
        UnaryOp::Not => deny(x),
    }
}

/// `sizeof e`: the size of an expression's type, an `unsigned long` (C11 6.5.3.4); it is no constant expression in this
/// profile. Rule 4 refuses a type without a size.
pub fn size_rule(names: &Names, x: &NodeFact) -> Result<NodeFact, Broken>
    requires { IsSound (structs_of names.now) (type_of x.now.ty) }
    ensures fact { MakesFact (size_rule (structs_of names.now) (fact_of x.now)) result }
    ensures sound { IfOk result (λ f. IsSound (structs_of names.now) (type_of f.ty)) }
{
    match names.size_of(&x.ty) {
        None => Err(Broken::Rule(4)),
        Some(size) => Ok(NodeFact::measured(CType::Int(IntKind::ULong), i128::from(size))),
    }
}

/// `sizeof ( type )`: the size of a type, an `unsigned long` (C11 6.5.3.4), and a constant expression. Rule 4 refuses a
/// type without a size.
pub fn type_size_rule(names: &Names, ty: &CType) -> Result<NodeFact, Broken>
    requires { IsSound (structs_of names.now) (type_of ty.now) }
    ensures fact { MakesFact (type_size_rule (structs_of names.now) (type_of ty.now)) result }
    ensures sound { IfOk result (λ f. IsSound (structs_of names.now) (type_of f.ty)) }
{
    match names.size_of(ty) {
        None => Err(Broken::Rule(4)),
        Some(size) => Ok(NodeFact::literal(CType::Int(IntKind::ULong), i128::from(size))),
    }
}

// Whether a constant expression is 0.
fn is_zero(x: Constancy) -> bool
    ensures { result ≡ is_zero x }
{
    matches!(x, Constancy::Number(0))
}

// A scalar as a value of a scalar type; of any other type, a value of it.
fn cast_to(ty: &CType, constancy: Constancy) -> Result<NodeFact, Broken>
    ensures fact { MakesFact (Fits (cast_to (type_of ty.now) constancy)) result }
    ensures sound { (structs : Structs) → IsSound structs (type_of ty.now) → IfOk result (λ f. IsSound structs (type_of f.ty)) }
{
    let mut fact = NodeFact::value(ty.copy()?);
    match ty {
        CType::Int(kind) => fact.constancy = converted(*kind, constancy),
        CType::Pointer(inner) => fact.is_null = is_void(inner.get()) && is_zero(constancy),
        CType::Void | CType::Array(_, _) | CType::Struct(_) | CType::Function(_) => {}
    }
    Ok(fact)
}

/// `( type ) e`: a scalar to a scalar type, or anything but a struct to `void` (C11 6.5.4). A constant 0 as `void *` is
/// a null pointer constant (C11 6.3.2.3p3). Rule 6 refuses any other type or operand, rule 9 a struct to `void`.
pub fn cast_rule(ty: &CType, x: &NodeFact) -> Result<NodeFact, Broken>
    ensures fact { MakesFact (cast_rule (type_of ty.now) (fact_of x.now)) result }
    ensures sound { (structs : Structs) → IsSound structs (type_of ty.now) → IfOk result (λ f. IsSound structs (type_of f.ty)) }
{
    if is_void(ty) {
        if is_struct(&x.ty) {
            return Err(Broken::Rule(9));
        }
        return Ok(NodeFact::value(CType::Void));
    }
    if is_scalar(ty) && reads_scalar(&x.ty) {
        cast_to(ty, x.constancy)
    } else {
        Err(Broken::Rule(6))
    }
}

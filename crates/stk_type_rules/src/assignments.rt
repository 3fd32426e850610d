//! Assignments, `++` and `--`.

ghost use Rattle.std.specs.Prelude.{◌≡◌, IfOk};
ghost use Rattle.stk_ctype.specs.Types.{type_of};
ghost use Rattle.stk_ctype.specs.Structs.{structs_of, Structs};
ghost use Rattle.stk_ctype.specs.Sound.{IsSound};
ghost use Rattle.stk_type_rules.specs.Facts.{fact_of};
ghost use Rattle.stk_type_rules.specs.Outcome.{MakesFact};
ghost use Rattle.stk_type_rules.specs.Types.{kind_of};
ghost use Rattle.stk_type_rules.specs.Rules.{assigned, unmoved, unstepped, step_rule, is_additive, plain_refused, compound_left, compound_refused, assign_refused, assign_rule};

use crate::types::{is_scalar, kind_of, reads_scalar, stride};
use crate::{Broken, NodeFact};
use stk_ctype::{CType, Names};
use stk_tree::AssignOp;

// What is assigned to, where no rule refuses the operands.
fn assigned(refused: Option<u8>, x: &NodeFact) -> Result<NodeFact, Broken>
    ensures fact { MakesFact (assigned refused (fact_of x.now)) result }
    ensures sound { (structs : Structs) → IsSound structs (type_of x.now.ty) → IfOk result (λ f. IsSound structs (type_of f.ty)) }
{
    if let Some(rule) = refused {
        return Err(Broken::Rule(rule));
    }
    if !x.lvalue {
        return Err(Broken::Rule(7));
    }
    let ty = x.ty.copy()?;
    Ok(NodeFact::value(ty))
}

// What refuses to move a pointer whose target a number moves by so many bytes.
fn unmoved(stride: Option<u64>) -> Option<u8>
    ensures { result ≡ unmoved stride }
{
    match stride {
        None => Some(4),
        Some(_) => None,
    }
}

// What refuses `++` and `--` on a type.
fn unstepped(names: &Names, ty: &CType) -> Option<u8>
    requires { IsSound (structs_of names.now) (type_of ty.now) }
    ensures { result ≡ unstepped (structs_of names.now) (type_of ty.now) }
{
    match ty {
        CType::Int(_) => None,
        CType::Pointer(inner) => unmoved(stride(names, inner.get())),
        CType::Void | CType::Array(_, _) | CType::Struct(_) | CType::Function(_) => Some(6),
    }
}

/// `++` and `--`, before and behind an lvalue of scalar type (C11 6.5.2.4, 6.5.3.1). Rule 4 refuses a pointer to an
/// incomplete type other than `void`, rule 6 what is no scalar, rule 7 what is no lvalue.
pub fn step_rule(names: &Names, x: &NodeFact) -> Result<NodeFact, Broken>
    requires { IsSound (structs_of names.now) (type_of x.now.ty) }
    ensures fact { MakesFact (step_rule (structs_of names.now) (fact_of x.now)) result }
    ensures sound { IfOk result (λ f. IsSound (structs_of names.now) (type_of f.ty)) }
{
    let refused = unstepped(names, &x.ty);
    assigned(refused, x)
}

// Whether an operator adds or subtracts.
fn is_additive(op: AssignOp) -> bool
    ensures { result ≡ is_additive op }
{
    match op {
        AssignOp::Add | AssignOp::Sub => true,
        AssignOp::Plain
        | AssignOp::Mul
        | AssignOp::Div
        | AssignOp::Rem
        | AssignOp::Left
        | AssignOp::Right
        | AssignOp::And
        | AssignOp::Xor
        | AssignOp::Or => false,
    }
}

// What refuses `=`.
fn plain_refused(x: &NodeFact, y: &NodeFact) -> Option<u8>
    ensures { result ≡ plain_refused (fact_of x.now) (fact_of y.now) }
{
    if is_scalar(&x.ty) && reads_scalar(&y.ty) {
        None
    } else {
        Some(6)
    }
}

// What refuses an operator on a left operand of this type and an integer.
fn compound_left(names: &Names, additive: bool, ty: &CType) -> Option<u8>
    requires { IsSound (structs_of names.now) (type_of ty.now) }
    ensures { result ≡ compound_left (structs_of names.now) additive (type_of ty.now) }
{
    match ty {
        CType::Int(_) => None,
        CType::Pointer(inner) => {
            if additive {
                unmoved(stride(names, inner.get()))
            } else {
                Some(6)
            }
        }
        CType::Void | CType::Array(_, _) | CType::Struct(_) | CType::Function(_) => Some(6),
    }
}

// What refuses an assignment with an operator.
fn compound_refused(names: &Names, op: AssignOp, x: &NodeFact, y: &NodeFact) -> Option<u8>
    requires { IsSound (structs_of names.now) (type_of x.now.ty) }
    ensures { result ≡ compound_refused (structs_of names.now) op (fact_of x.now) (kind_of (type_of y.now.ty)) }
{
    match kind_of(&y.ty) {
        None => Some(6),
        Some(_) => compound_left(names, is_additive(op), &x.ty),
    }
}

// What refuses an assignment.
fn assign_refused(names: &Names, op: AssignOp, x: &NodeFact, y: &NodeFact) -> Option<u8>
    requires { IsSound (structs_of names.now) (type_of x.now.ty) }
    ensures { result ≡ assign_refused (structs_of names.now) op (fact_of x.now) (fact_of y.now) }
{
    match op {
        AssignOp::Plain => plain_refused(x, y),
        AssignOp::Mul
        | AssignOp::Div
        | AssignOp::Rem
        | AssignOp::Add
        | AssignOp::Sub
        | AssignOp::Left
        | AssignOp::Right
        | AssignOp::And
        | AssignOp::Xor
        | AssignOp::Or => compound_refused(names, op, x, y),
    }
}

/// `=` and the assignments with an operator (C11 6.5.16): a scalar lvalue and a scalar; with an operator the right
/// operand is an integer, and the left one an integer too, or a pointer for `+=` and `-=`. Rule 4 refuses a pointer to
/// an incomplete type other than `void` in these, rule 6 any other operands, rule 7 what is no lvalue.
pub fn assign_rule(
    names: &Names,
    op: AssignOp,
    x: &NodeFact,
    y: &NodeFact,
) -> Result<NodeFact, Broken>
    requires { IsSound (structs_of names.now) (type_of x.now.ty) }
    ensures fact { MakesFact (assign_rule (structs_of names.now) op (fact_of x.now) (fact_of y.now)) result }
    ensures sound { IfOk result (λ f. IsSound (structs_of names.now) (type_of f.ty)) }
{
    let refused = assign_refused(names, op, x, y);
    assigned(refused, x)
}

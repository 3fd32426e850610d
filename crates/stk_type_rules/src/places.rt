//! Elements and members.

ghost use Rattle.std.specs.Prelude.{◌≡◌, Some, IfOk};
ghost use Rattle.std.specs.Option.{option_map, option_copied};
ghost use Rattle.stk_ctype.specs.Types.{type_of};
ghost use Rattle.stk_ctype.specs.Structs.{structs_of, member_of, Structs};
ghost use Rattle.stk_ctype.specs.Sound.{IsSound};
ghost use Rattle.stk_type_rules.specs.Facts.{Breaks, Fits, fact_of, place};
ghost use Rattle.stk_type_rules.specs.Outcome.{MakesFact};
ghost use Rattle.stk_type_rules.specs.Types.{pointee};
ghost use Rattle.stk_type_rules.specs.Rules.{pointed, indexed, index_rule, found, member_rule, dot_rule, arrow_to, arrow_rule};

use crate::types::{is_complete, is_struct, kind_of, pointee};
use crate::{Broken, NodeFact};
use stk_ctype::{CType, Names};

// An lvalue of this type.
fn object(ty: &CType) -> Result<NodeFact, Broken>
    ensures fact { MakesFact (Fits (place (type_of ty.now))) result }
    ensures sound { (structs : Structs) → IsSound structs (type_of ty.now) → IfOk result (λ f. IsSound structs (type_of f.ty)) }
{
    let ty = ty.copy()?;
    Ok(NodeFact::place(ty))
}

/// The object that a pointer of this type points to; rule 6 refuses what is no pointer, rule 4 an incomplete target.
pub(crate) fn pointed(names: &Names, ty: &CType) -> Result<NodeFact, Broken>
    requires { IsSound (structs_of names.now) (type_of ty.now) }
    ensures fact { MakesFact (pointed (structs_of names.now) (pointee (type_of ty.now))) result }
    ensures sound { IfOk result (λ f. IsSound (structs_of names.now) (type_of f.ty)) }
{
    match pointee(ty) {
        None => Err(Broken::Rule(6)),
        Some(target) => {
            if is_complete(names, target) {
                object(target)
            } else {
                Err(Broken::Rule(4))
            }
        }
    }
}

// An element of this type.
fn element(names: &Names, target: &CType, is_index: bool) -> Result<NodeFact, Broken>
    requires { IsSound (structs_of names.now) (type_of target.now) }
    ensures fact { MakesFact (indexed (structs_of names.now) is_index (Some (type_of target.now))) result }
    ensures sound { IfOk result (λ f. IsSound (structs_of names.now) (type_of f.ty)) }
{
    if !is_complete(names, target) {
        Err(Broken::Rule(4))
    } else if is_index {
        object(target)
    } else {
        Err(Broken::Rule(6))
    }
}

/// `e[e]`: the element of a pointer or an array (C11 6.5.2.1). Rule 4 refuses an incomplete element, rule 6 operands
/// that aren't a pointer and an integer in this order.
pub fn index_rule(names: &Names, x: &NodeFact, y: &NodeFact) -> Result<NodeFact, Broken>
    requires { IsSound (structs_of names.now) (type_of x.now.ty) }
    ensures fact { MakesFact (index_rule (structs_of names.now) (fact_of x.now) (fact_of y.now)) result }
    ensures sound { IfOk result (λ f. IsSound (structs_of names.now) (type_of f.ty)) }
{
    let is_index = kind_of(&y.ty).is_some();
    match pointee(&x.ty) {
        None => Err(Broken::Rule(6)),
        Some(target) => element(names, target, is_index),
    }
}

// The member of a name in a complete type; rule 6 refuses what is no struct, rule 10 a name that no member has.
fn member_rule(names: &Names, ty: &CType, name: &[u8]) -> Result<NodeFact, Broken>
    ensures fact { MakesFact (member_rule (structs_of names.now) (type_of ty.now) name.now) result }
    ensures sound { IfOk result (λ f. IsSound (structs_of names.now) (type_of f.ty)) }
{
    if !is_struct(ty) {
        return Err(Broken::Rule(6));
    }
    match names.member(ty, name) {
        None => Err(Broken::Rule(10)),
        Some((_, member)) => object(member),
    }
}

/// `e.name`: a member of a struct (C11 6.5.2.3). Rule 4 refuses an incomplete struct, rule 6 what is no struct, rule 10
/// a name that no member has.
pub fn dot_rule(names: &Names, x: &NodeFact, name: &[u8]) -> Result<NodeFact, Broken>
    requires { IsSound (structs_of names.now) (type_of x.now.ty) }
    ensures fact { MakesFact (dot_rule (structs_of names.now) (fact_of x.now) name.now) result }
    ensures sound { IfOk result (λ f. IsSound (structs_of names.now) (type_of f.ty)) }
{
    if is_struct(&x.ty) && !is_complete(names, &x.ty) {
        return Err(Broken::Rule(4));
    }
    member_rule(names, &x.ty, name)
}

// The member of a name in a pointer's target.
fn arrow_to(names: &Names, target: &CType, name: &[u8]) -> Result<NodeFact, Broken>
    requires { IsSound (structs_of names.now) (type_of target.now) }
    ensures fact { MakesFact (arrow_to (structs_of names.now) (Some (type_of target.now)) name.now) result }
    ensures sound { IfOk result (λ f. IsSound (structs_of names.now) (type_of f.ty)) }
{
    if is_complete(names, target) {
        member_rule(names, target, name)
    } else {
        Err(Broken::Rule(4))
    }
}

/// `e->name`: a member of the struct that a pointer points to (C11 6.5.2.3). Rule 4 refuses an incomplete target, rule
/// 6 what is no pointer to a struct, rule 10 a name that no member has.
pub fn arrow_rule(names: &Names, x: &NodeFact, name: &[u8]) -> Result<NodeFact, Broken>
    requires { IsSound (structs_of names.now) (type_of x.now.ty) }
    ensures fact { MakesFact (arrow_rule (structs_of names.now) (fact_of x.now) name.now) result }
    ensures sound { IfOk result (λ f. IsSound (structs_of names.now) (type_of f.ty)) }
{
    match pointee(&x.ty) {
        None => Err(Broken::Rule(6)),
        Some(target) => arrow_to(names, target, name),
    }
}

//! The type that stars and array parts make of another.

ghost use Rattle.std.specs.Prelude.{◌≡◌, ◌≤◌, false, Some, IfOk, IfSome, IsSome};
ghost use Rattle.std.specs.Option.{option_map};
ghost use Rattle.stk_ctype.specs.Types.{type_of};
ghost use Rattle.stk_ctype.specs.Structs.{Structs, structs_of, size_of};
ghost use Rattle.stk_ctype.specs.Sound.{IsSound};
ghost use Rattle.stk_type_rules.specs.Outcome.{MakesFact};
ghost use Rattle.stk_typing.specs.Arrays.{starred, count_of, array_within, around, is_open, nested, has_open, sized_as, sized_type, declared_as, declared_type};

use std::alloc::Global;
use stk_base::NoMemory;
use stk_ctype::{CType, Names, SharedType};
use stk_type_rules::{Broken, Constancy, NodeFact, is_complete};

/// An array part: `[]`, or `[e]` with whether its size is a constant expression.
#[derive(Clone, Copy, Debug, PartialEq, Eq)]
pub enum Size {
    Open,
    Sized(Constancy),
}

/// A type under stars.
pub fn starred(alloc: Global, stars: u32, ty: CType) -> Result<CType, NoMemory>
    ensures is { IfOk result (λ t. type_of t ≡ starred stars (type_of ty)) }
    ensures sound { (structs : Structs) → IsSound structs (type_of ty) → IfOk result (λ t. IsSound structs (type_of t)) }
{
    let mut all = ty;
    for _ in 0..stars {
        all = CType::Pointer(SharedType::new(alloc, all)?);
    }
    Ok(all)
}

// The number of elements that a constant gives, from 1 to the greatest size of a type.
fn count_of(constancy: Constancy) -> Option<u64>
    ensures is { result ≡ count_of constancy }
    ensures least { IfSome result (λ n. 1 ≤ n) }
{
    match constancy {
        Constancy::Number(number) => {
            if 1 <= number && number <= 2_147_483_647 {
                Some(number as u64)
            } else {
                None
            }
        }
        Constancy::Varies | Constancy::Violates => None,
    }
}

// An array of so many elements, where it isn't too large.
fn array_within(
    alloc: Global,
    names: &Names,
    count: Option<u64>,
    element: CType,
) -> Result<Option<CType>, NoMemory>
    requires sound { IsSound (structs_of names.now) (type_of element) }
    requires complete { IsSome (size_of (structs_of names.now) (type_of element)) }
    requires count { IfSome count (λ n. 1 ≤ n) }
    ensures is { IfOk result (λ t. option_map type_of t ≡ array_within (structs_of names.now) count (type_of element)) }
    ensures sound { IfOk result (λ t. IfSome t (λ u. IsSound (structs_of names.now) (type_of u))) }
    ensures complete { IfOk result (λ t. IfSome t (λ u. IsSome (size_of (structs_of names.now) (type_of u)))) }
{
    let (Some(count), Some(size)) = (count, names.size_of(&element)) else {
        return Ok(None);
    };
    match count.checked_mul(size) {
        Some(all) if all <= 2_147_483_647 => {
            let element = SharedType::new(alloc, element)?;
            Ok(Some(CType::Array(element, Some(count))))
        }
        _ => Ok(None),
    }
}

// An array part around a type.
fn around(
    alloc: Global,
    names: &Names,
    size: Size,
    element: CType,
) -> Result<Option<CType>, NoMemory>
    requires sound { IsSound (structs_of names.now) (type_of element) }
    requires complete { IsSome (size_of (structs_of names.now) (type_of element)) }
    ensures is { IfOk result (λ t. option_map type_of t ≡ around (structs_of names.now) size (Some (type_of element))) }
    ensures sound { IfOk result (λ t. IfSome t (λ u. IsSound (structs_of names.now) (type_of u))) }
    ensures complete { is_open size ≡ false → IfOk result (λ t. IfSome t (λ u. IsSome (size_of (structs_of names.now) (type_of u)))) }
{
    match size {
        Size::Open => {
            let element = SharedType::new(alloc, element)?;
            Ok(Some(CType::Array(element, None)))
        }
        Size::Sized(constancy) => {
            let array = array_within(alloc, names, count_of(constancy), element)?;
            Ok(array)
        }
    }
}

// Whether some array part has no size.
fn has_open(sizes: &[Size]) -> bool
    ensures { result ≡ has_open sizes.now }
{
    for size in sizes {
        if matches!(size, Size::Open) {
            return true;
        }
    }
    false
}

// Array parts that each have a size around a complete type, the first outermost.
#[tactic(auto, using(crate::proofs::Opens::closed))]
fn nested(
    alloc: Global,
    names: &Names,
    sizes: &[Size],
    element: CType,
) -> Result<Option<CType>, NoMemory>
    requires sound { IsSound (structs_of names.now) (type_of element) }
    requires complete { IsSome (size_of (structs_of names.now) (type_of element)) }
    requires closed { has_open sizes.now ≡ false }
    ensures is { IfOk result (λ t. option_map type_of t ≡ nested (structs_of names.now) sizes.now (type_of element)) }
    ensures sound { IfOk result (λ t. IfSome t (λ u. IsSound (structs_of names.now) (type_of u))) }
    ensures complete { IfOk result (λ t. IfSome t (λ u. IsSome (size_of (structs_of names.now) (type_of u)))) }
{
    let Some((first, rest)) = sizes.split_first() else {
        return Ok(Some(element));
    };
    let Some(inner) = nested(alloc, names, rest, element)? else {
        return Ok(None);
    };
    let array = around(alloc, names, *first, inner)?;
    Ok(array)
}

// The type named, where there is one.
fn sized_as(ty: Option<CType>) -> Result<NodeFact, Broken>
    ensures { MakesFact (sized_as (option_map type_of ty)) result }
{
    match ty {
        None => Err(Broken::Rule(5)),
        Some(ty) => Ok(NodeFact::names_type(ty)),
    }
}

/// The type that array parts make of another, the first outermost (C11 6.7.6.2). Rule 4 refuses an incomplete element
/// and an array part without a size; rule 5 a size that isn't a constant of at least 1, and a type of more than
/// 2,147,483,647 bytes.
pub(crate) fn sized_type(
    alloc: Global,
    names: &Names,
    sizes: &[Size],
    element: CType,
) -> Result<NodeFact, Broken>
    requires { IsSound (structs_of names.now) (type_of element) }
    ensures fact { MakesFact (sized_type (structs_of names.now) sizes.now (type_of element)) result }
    ensures sound { IfOk result (λ f. IsSound (structs_of names.now) (type_of f.ty)) }
{
    if sizes.is_empty() {
        return Ok(NodeFact::names_type(element));
    }
    if has_open(sizes) || !is_complete(names, &element) {
        return Err(Broken::Rule(4));
    }
    let array = nested(alloc, names, sizes, element)?;
    sized_as(array)
}

// The type declared, where there is one.
fn declared_as(ty: Option<CType>) -> Result<NodeFact, Broken>
    ensures { MakesFact (declared_as (option_map type_of ty)) result }
{
    match ty {
        None => Err(Broken::Rule(5)),
        Some(ty) => Ok(NodeFact::declares(ty)),
    }
}

/// The type that a declarator's array parts make of another, the first outermost, which may lack a size (C11 6.7.6.2).
/// Rule 4 refuses an incomplete element and a further array part without a size; rule 5 a size that isn't a constant of
/// at least 1, and a type of more than 2,147,483,647 bytes.
pub fn declared_type(
    alloc: Global,
    names: &Names,
    sizes: &[Size],
    element: CType,
) -> Result<NodeFact, Broken>
    requires { IsSound (structs_of names.now) (type_of element) }
    ensures fact { MakesFact (declared_type (structs_of names.now) sizes.now (type_of element)) result }
    ensures sound { IfOk result (λ f. IsSound (structs_of names.now) (type_of f.ty)) }
{
    let Some((first, rest)) = sizes.split_first() else {
        return Ok(NodeFact::declares(element));
    };
    if has_open(rest) || !is_complete(names, &element) {
        return Err(Broken::Rule(4));
    }
    let Some(inner) = nested(alloc, names, rest, element)? else {
        return Err(Broken::Rule(5));
    };
    let array = around(alloc, names, *first, inner)?;
    declared_as(array)
}

//! What a type is for an operator.

ghost use Rattle.std.specs.Prelude.{◌≡◌, IfOk, IfSome, Option};
ghost use Rattle.std.specs.Option.{option_map, option_copied};
ghost use Rattle.stk_ctype.specs.Types.{type_of, pointer_type};
ghost use Rattle.stk_ctype.specs.Structs.{Structs, structs_of};
ghost use Rattle.stk_ctype.specs.Sound.{IsSound};
ghost use Rattle.stk_type_rules.specs.Types.{decayed, kind_of, pointee, is_scalar, is_void, is_struct, is_complete, stride};

use std::alloc::Global;
use stk_base::NoMemory;
use stk_ctype::{CType, IntKind, Names, SharedType};

/// The kind of an integer type; none of any other type.
pub fn kind_of(ty: &CType) -> Option<IntKind>
    ensures { result ≡ kind_of (type_of ty.now) }
{
    match ty {
        CType::Int(kind) => Some(*kind),
        CType::Void
        | CType::Pointer(_)
        | CType::Array(_, _)
        | CType::Struct(_)
        | CType::Function(_) => None,
    }
}

/// What a pointer points to, and what an array has as elements; none of any other type.
pub fn pointee(ty: &CType) -> Option<&CType>
    ensures value { option_map type_of (option_copied result) ≡ pointee (type_of ty.now) }
    ensures sound { (structs : Structs) → IsSound structs (type_of ty.now) → IfSome result (λ t. IsSound structs (type_of t.now)) }
{
    match ty {
        CType::Pointer(inner) => Some(inner.get()),
        CType::Array(inner, _) => Some(inner.get()),
        CType::Void | CType::Int(_) | CType::Struct(_) | CType::Function(_) => None,
    }
}

/// Whether a type is an integer or a pointer (C11 6.2.5p21).
pub fn is_scalar(ty: &CType) -> bool
    ensures { result ≡ is_scalar (type_of ty.now) }
{
    match ty {
        CType::Int(_) | CType::Pointer(_) => true,
        CType::Void | CType::Array(_, _) | CType::Struct(_) | CType::Function(_) => false,
    }
}

/// Whether a type is an integer, or a pointer once it is read (C11 6.2.5p21, 6.3.2.1p3).
pub fn reads_scalar(ty: &CType) -> bool
    ensures { result ≡ is_scalar (decayed (type_of ty.now)) }
{
    match ty {
        CType::Int(_) | CType::Pointer(_) | CType::Array(_, _) => true,
        CType::Void | CType::Struct(_) | CType::Function(_) => false,
    }
}

/// Whether a type is `void`.
pub fn is_void(ty: &CType) -> bool
    ensures { result ≡ is_void (type_of ty.now) }
{
    match ty {
        CType::Void => true,
        CType::Int(_)
        | CType::Pointer(_)
        | CType::Array(_, _)
        | CType::Struct(_)
        | CType::Function(_) => false,
    }
}

/// Whether a type is a struct.
pub fn is_struct(ty: &CType) -> bool
    ensures { result ≡ is_struct (type_of ty.now) }
{
    match ty {
        CType::Struct(_) => true,
        CType::Void | CType::Int(_) | CType::Pointer(_) | CType::Array(_, _) | CType::Function(_) =>
            false,
    }
}

/// Whether a type is a complete object type: whether it has a size (C11 6.2.5p1).
pub fn is_complete(names: &Names, ty: &CType) -> bool
    requires { IsSound (structs_of names.now) (type_of ty.now) }
    ensures { result ≡ is_complete (structs_of names.now) (type_of ty.now) }
{
    names.size_of(ty).is_some()
}

/// By how many bytes a number moves a pointer to a type: its size, and 1 for `void`; none of any other type without a
/// size.
pub(crate) fn stride(names: &Names, ty: &CType) -> Option<u64>
    requires { IsSound (structs_of names.now) (type_of ty.now) }
    ensures { result ≡ stride (structs_of names.now) (type_of ty.now) }
{
    if is_void(ty) {
        Some(1)
    } else {
        names.size_of(ty)
    }
}

/// A pointer to a type.
pub(crate) fn pointer_to(alloc: Global, ty: &CType) -> Result<CType, NoMemory>
    ensures is { IfOk result (λ p. type_of p ≡ pointer_type (type_of ty.now)) }
    ensures sound { (structs : Structs) → IsSound structs (type_of ty.now) → IfOk result (λ t. IsSound structs (type_of t)) }
{
    let target = ty.copy()?;
    Ok(CType::Pointer(SharedType::new(alloc, target)?))
}

/// The type of a value that is read: that of an array is a pointer to its first element (C11 6.3.2.1p3).
pub(crate) fn decayed(alloc: Global, ty: &CType) -> Result<CType, NoMemory>
    ensures is { IfOk result (λ p. type_of p ≡ decayed (type_of ty.now)) }
    ensures sound { (structs : Structs) → IsSound structs (type_of ty.now) → IfOk result (λ t. IsSound structs (type_of t)) }
{
    match ty {
        CType::Array(inner, _) => {
            let pointer = pointer_to(alloc, inner.get())?;
            Ok(pointer)
        }
        CType::Void | CType::Int(_) | CType::Pointer(_) | CType::Struct(_) | CType::Function(_) => {
            let same = ty.copy()?;
            Ok(same)
        }
    }
}

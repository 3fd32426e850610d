//! What runs ask of types.

ghost use Rattle.std.specs.Prelude.{◌≡◌};
ghost use Rattle.stk_ctype.specs.Types.{type_of};
ghost use Rattle.stk_meaning.specs.Typings.{number_kind, converted, is_array, element_count};

use crate::words::Word;
use stk_ctype::CType;
use stk_numbers::IntKind;

/// The kind in which a value of a type is a number: that of an integer type, and else that of an address, `unsigned
/// long`.
pub fn number_kind(ty: &CType) -> IntKind
    ensures { result ≡ number_kind (type_of ty.now) }
{
    match ty {
        CType::Int(kind) => *kind,
        CType::Void
        | CType::Pointer(_)
        | CType::Array(_, _)
        | CType::Struct(_)
        | CType::Function(_) => IntKind::ULong,
    }
}

/// A number converted to a type (C11 6.3.1.2, 6.3.1.3, 6.3.2.3).
pub fn converted(ty: &CType, number: Word) -> Word
    ensures { result ≡ converted (type_of ty.now) number }
{
    Word::wrapped(number_kind(ty), number.number())
}

/// Whether a type is an array.
pub fn is_array(ty: &CType) -> bool
    ensures { result ≡ is_array (type_of ty.now) }
{
    match ty {
        CType::Array(_, _) => true,
        CType::Void | CType::Int(_) | CType::Pointer(_) | CType::Struct(_) | CType::Function(_) =>
            false,
    }
}

/// How many elements an array has, where the type is one and they are known.
pub(crate) fn element_count(ty: &CType) -> Option<u64>
    ensures { result ≡ element_count (type_of ty.now) }
{
    match ty {
        CType::Array(_, count) => *count,
        CType::Void | CType::Int(_) | CType::Pointer(_) | CType::Struct(_) | CType::Function(_) =>
            None,
    }
}

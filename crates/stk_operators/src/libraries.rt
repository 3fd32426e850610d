//! The functions of the library whose calls have values and conditions of their own: `abs`, `labs`, `llabs` (C11
//! 7.22.6.1) and `memcpy` (C11 7.24.2.1).

ghost use Rattle.std.specs.Prelude.{◌≡◌, map};
ghost use Rattle.std.specs.Option.{option_map};
ghost use Rattle.stk_numbers.specs.Kinds.{rank};
ghost use Rattle.stk_ctype.specs.Types.{type_of, signature_of, row_of};
ghost use Rattle.stk_meaning.specs.Libraries.{is_of_kind, is_void_pointer, takes_number, takes_copy, is_absolute, is_copy, library_named};
ghost use Rattle.stk_operators.specs.Shown.{library_shown};

use stk_ctype::{CType, Signature};
use stk_numbers::{IntKind, signed};
use stk_type_rules::is_void;

/// A function of the library: the absolute value in a kind, or a copy of bytes.
#[derive(Clone, Copy, Debug)]
pub enum Library {
    AbsoluteIn(IntKind),
    CopyBytes,
}

// The rank of a kind (C11 6.3.1.1).
fn rank(kind: IntKind) -> u8
    ensures { result ≡ rank kind }
{
    match kind {
        IntKind::Bool => 0,
        IntKind::Char | IntKind::SChar | IntKind::UChar => 1,
        IntKind::Short | IntKind::UShort => 2,
        IntKind::Int | IntKind::UInt => 3,
        IntKind::Long | IntKind::ULong => 4,
        IntKind::LLong | IntKind::ULLong => 5,
    }
}

// Whether a type is the integer type of a kind.
fn is_of_kind(kind: IntKind, ty: &CType) -> bool
    ensures { result ≡ is_of_kind kind (type_of ty.now) }
{
    match ty {
        CType::Int(other) => {
            rank(kind) == rank(*other)
                && (if signed(kind) {
                    signed(*other)
                } else {
                    !signed(*other)
                })
        }
        CType::Void
        | CType::Pointer(_)
        | CType::Array(_, _)
        | CType::Struct(_)
        | CType::Function(_) => false,
    }
}

// Whether a type is `void *`.
fn is_void_pointer(ty: &CType) -> bool
    ensures { result ≡ is_void_pointer (type_of ty.now) }
{
    match ty {
        CType::Pointer(target) => is_void(target.get()),
        CType::Void | CType::Int(_) | CType::Array(_, _) | CType::Struct(_) | CType::Function(_) =>
            false,
    }
}

// Whether parameters are one integer of a kind.
fn takes_number(kind: IntKind, params: &[CType]) -> bool
    ensures { result ≡ takes_number kind (row_of (map type_of params.now)) }
{
    match params {
        [] => false,
        [only] => is_of_kind(kind, only),
        [_, _, _rest @ ..] => false,
    }
}

// Whether parameters are those of `memcpy`.
fn takes_copy(params: &[CType]) -> bool
    ensures { result ≡ takes_copy (row_of (map type_of params.now)) }
{
    match params {
        [to, from, count] => {
            is_void_pointer(to) && (is_void_pointer(from) && is_of_kind(IntKind::ULong, count))
        }
        [] => false,
        [_to] => false,
        [_to, _from] => false,
        [_, _, _, _, _rest @ ..] => false,
    }
}

// Whether a function goes from a number of a kind to one, without further arguments.
fn is_absolute(kind: IntKind, f: &Signature) -> bool
    ensures { result ≡ is_absolute kind (signature_of f.now) }
{
    !f.more && (takes_number(kind, f.params.as_slice()) && is_of_kind(kind, &f.result))
}

// Whether a function has the type of `memcpy`, without further arguments.
fn is_copy(f: &Signature) -> bool
    ensures { result ≡ is_copy (signature_of f.now) }
{
    !f.more && (takes_copy(f.params.as_slice()) && is_void_pointer(&f.result))
}

/// What a function of this name and type is in the library; `None` exactly where it isn't one of the four.
pub fn library_named(name: &[u8], f: &Signature) -> Option<Library>
    ensures { option_map library_shown result ≡ library_named name.now (signature_of f.now) }
{
    if name == b"abs".as_slice() && is_absolute(IntKind::Int, f) {
        Some(Library::AbsoluteIn(IntKind::Int))
    } else if name == b"labs".as_slice() && is_absolute(IntKind::Long, f) {
        Some(Library::AbsoluteIn(IntKind::Long))
    } else if name == b"llabs".as_slice() && is_absolute(IntKind::LLong, f) {
        Some(Library::AbsoluteIn(IntKind::LLong))
    } else if name == b"memcpy".as_slice() && is_copy(f) {
        Some(Library::CopyBytes)
    } else {
        None
    }
}

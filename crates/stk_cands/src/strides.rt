//! The sizes of what pointers point to.

ghost use Rattle.std.specs.Prelude.{◌≡◌};
ghost use Rattle.stk_ctype.specs.Types.{type_of};
ghost use Rattle.stk_ctype.specs.Structs.{structs_of};
ghost use Rattle.stk_ctype.specs.Sound.{IsSound};
ghost use Rattle.stk_function_types.specs.Nodes.{typing_in};
ghost use Rattle.stk_meaning.specs.Typings.{object_size, stride_in};

use stk_ctype::CType;
use stk_function_types::FunctionTypes;
use stk_operators::Stride;
use stk_type_rules::pointee;

// The bytes of an object of a type: one of unknown size counts as 1.
fn object_size(types: &FunctionTypes, ty: &CType) -> Stride
    requires { IsSound (structs_of types.now.entries) (type_of ty.now) }
    ensures { result ≡ object_size (typing_in types.now) (type_of ty.now) }
{
    match types.size_of(ty) {
        None => Stride::new(1),
        Some(size) => Stride::new(size),
    }
}

/// By how many bytes a number moves a pointer of this type, which is sound (C11 6.5.6p8); one to `void` by 1.
pub fn stride_of(types: &FunctionTypes, ty: &CType) -> Stride
    requires { IsSound (structs_of types.now.entries) (type_of ty.now) }
    ensures { result ≡ stride_in (typing_in types.now) (type_of ty.now) }
{
    match pointee(ty) {
        None => Stride::new(1),
        Some(inner) => object_size(types, inner),
    }
}

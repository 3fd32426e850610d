// Types that are shared by the types that are made of them.
ghost use Rattle.std.specs.Prelude.{◌≡◌, IfOk, IfSome};
ghost use Rattle.stk_ctype.specs.Trees.{TypeTree};
ghost use Rattle.stk_ctype.specs.Types.{type_of};
ghost use Rattle.stk_ctype.specs.Innermost.{product_of, inmost_of, count_in};

use crate::CType;
use crate::kind::bytes_of;
use std::alloc::{AllocError, Global};
use std::marker::Model;
use std::rc::Rc;

/// What is inside all arrays of a type: an object of so many bytes, the struct of a number, or no object.
#[derive(Clone, Copy, Debug, PartialEq, Eq)]
pub(crate) enum Inmost {
    Bytes(u64),
    Struct(u32),
    Nothing,
}

/// What is inside all arrays of a type.
pub(crate) fn inmost_of(ty: &CType) -> Inmost
    ensures { result ≡ inmost_of (type_of ty.now) }
{
    match ty {
        CType::Int(kind) => Inmost::Bytes(bytes_of(*kind)),
        CType::Pointer(_) => Inmost::Bytes(8),
        CType::Array(element, _) => element.inmost,
        CType::Struct(id) => Inmost::Struct(*id),
        CType::Void | CType::Function(_) => Inmost::Nothing,
    }
}

/// How many of them are in a type, where that is known and below 2^64; 1 where the type is no array.
pub(crate) fn count_in(ty: &CType) -> Option<u64>
    ensures { result ≡ count_in (type_of ty.now) }
{
    match ty {
        CType::Array(element, known) => product_of(*known, element.count),
        CType::Void | CType::Int(_) | CType::Pointer(_) | CType::Struct(_) | CType::Function(_) =>
            Some(1),
    }
}

/// A product, where both numbers are known and it is below 2^64.
fn product_of(left: Option<u64>, right: Option<u64>) -> Option<u64>
    ensures { result ≡ product_of left right }
{
    left?.checked_mul(right?)
}

/// A type that may have several owners, which contracts see as its tree. Sharing it takes no memory, whatever its size.
///
/// It knows what is inside all arrays of the type, and how many of them, so that the size of arrays of arrays is found
/// without a walk down them.
#[cycle(ctype)]
#[derive(Drop)]
pub struct SharedType {
    ty: Rc<CType>,
    inmost: Inmost,
    count: Option<u64>,
}

impl Model for SharedType {
    ghost use Rattle.std.specs.Prelude.{◌≡◌};
    ghost use Rattle.stk_ctype.specs.Trees.{TypeTree};
    ghost use Rattle.stk_ctype.specs.Codes.{type_coded};
    ghost use Rattle.stk_ctype.specs.Depths.{depth};

    ghost Value = { TypeTree };

    ghost coded = { type_coded };

    ghost use Rattle.stk_ctype.specs.Types.{type_of};
    ghost use Rattle.stk_ctype.specs.Innermost.{inmost_of, count_in};

    ghost view = { λ s. type_of s.ty.value };

    ghost invariant = { λ s. (s.inmost ≡ inmost_of (type_of s.ty.value)) × (s.count ≡ count_in (type_of s.ty.value)) };

    ghost size = { depth };

    ghost use Rattle.stk_ctype.specs.Falls.{shared_falls};

    ghost size_decreases = { λ s h. shared_falls s };
}

impl SharedType {
    /// A type with one owner.
    pub fn new(alloc: Global, ty: CType) -> Result<SharedType, AllocError>
        ensures { IfOk result (λ s. s ≡ type_of ty) }
    {
        let inmost = inmost_of(&ty);
        let count = count_in(&ty);
        Ok(SharedType {
            ty: Rc::new(alloc, ty)?,
            inmost,
            count,
        })
    }

    /// The type.
    pub fn get(&self) -> &CType
        ensures { type_of result.now ≡ self.now }
    {
        Rc::as_ref(&self.ty)
    }

    /// One more owner of the type. It fails only where the type has more than 2^63 owners.
    pub fn share(&self) -> Result<SharedType, AllocError>
        ensures { IfOk result (λ s. s ≡ self.now) }
    {
        Ok(SharedType {
            ty: self.ty.clone()?,
            inmost: self.inmost,
            count: self.count,
        })
    }

    /// The type, where this was its last owner.
    pub(crate) fn into_inner(self) -> Option<CType>
        ensures { IfSome result (λ t. type_of t ≡ self) }
    {
        let SharedType {
            ty,
            inmost: _,
            count: _,
        } = self;
        Rc::into_inner(ty)
    }
}

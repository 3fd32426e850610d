ghost use Rattle.std.specs.Prelude.{◌≡◌, [], ◌∷◌, ◌++◌, MatchOption, IfOk};
ghost use Rattle.stk_ctype.specs.Turns.{IsOpened};

use crate::{IntKind, OwnedSignature, SharedSignature, SharedType};
use std::alloc::AllocError;
use std::mem;
use stk_base::List;

/// A type of C (C11 6.2.5): `void`, an integer type, a pointer to a type, an array of a type with its number of
/// elements where that is known, a struct by its number, a function.
///
/// Structs are numbered from 0 in the order in which names declare them. What a pointer points to, the element of an
/// array, and the signature of a function, are shared by all types that are made of them.
#[cycle(ctype)]
pub enum CType {
    Void,
    Int(IntKind),
    Pointer(SharedType),
    Array(SharedType, Option<u64>),
    Struct(u32),
    Function(SharedSignature),
}

/// What a function takes and gives: its result, its parameters in order, whether it takes more arguments, and whether
/// it is marked as one that doesn't return.
#[derive(Drop)]
#[cycle(ctype)]
pub struct Signature {
    pub result: CType,
    pub params: List<CType>,
    pub more: bool,
    pub no_return: bool,
}

/// A type taken apart by one step: nothing is in it that nothing else owns, one type is in it, or it is a function.
enum Opened {
    Nothing,
    Inner(CType),
    Function(OwnedSignature),
}

impl CType {
    /// An equal type. It takes no memory, and fails only where a part of it has more than 2^63 owners.
    pub fn copy(&self) -> Result<CType, AllocError>
        ensures { IfOk result (λ new. new ≡ self.now) }
    {
        match self {
            CType::Void => Ok(CType::Void),
            CType::Int(kind) => Ok(CType::Int(*kind)),
            CType::Struct(id) => Ok(CType::Struct(*id)),
            CType::Pointer(target) => Ok(CType::Pointer(target.share()?)),
            CType::Array(element, count) => Ok(CType::Array(element.share()?, *count)),
            CType::Function(signature) => Ok(CType::Function(signature.share()?)),
        }
    }

    /// What is in a type.
    fn open(self) -> Opened
        ensures { IsOpened self result }
    {
        match self {
            CType::Pointer(inner) | CType::Array(inner, _) => match inner.into_inner() {
                Some(inner) => Opened::Inner(inner),
                None => Opened::Nothing,
            },
            CType::Function(inner) => match inner.into_inner() {
                Some(inner) => Opened::Function(inner),
                None => Opened::Nothing,
            },
            CType::Void | CType::Int(_) | CType::Struct(_) => Opened::Nothing,
        }
    }
}

/// The types of a row before the last one, and the last one, where the row has one.
fn split_last(row: List<CType>) -> (List<CType>, Option<CType>)
    ensures { MatchOption result.1 ((row ≡ []) × (result.0 ≡ [])) (λ last. row ≡ result.0 ++ last ∷ []) }
{
    let mut items = row.into_vec();
    let last = items.pop();
    (List::from_vec(items), last)
}

impl Drop for CType {
    /// Goes down by loops, so that no nesting of types takes stack.
    #[cycle(ctype_drop)]
    fn drop(mut self) {
        loop {
            match self {
                CType::Pointer(inner) | CType::Array(inner, _) => match inner.into_inner() {
                    Some(inner) => self = inner,
                    None => return,
                },
                CType::Function(inner) => match inner.into_inner() {
                    Some(inner) => {
                        let Signature {
                            result,
                            params,
                            more: _,
                            no_return: _,
                        } = inner.into_inner();
                        return drop_row(result, params);
                    }
                    None => return,
                },
                CType::Void | CType::Int(_) | CType::Struct(_) => return,
            }
        }
    }
}

/// Drops a type and the types of a row.
///
/// A function that is met takes the row at hand, and the function that keeps the row outside, into the places of its
/// own parameters and result. So the rows that wait hang on `outer`, and it takes neither stack nor memory.
#[cycle(ctype_drop)]
fn drop_row(first: CType, types: List<CType>) {
    let mut at = first;
    let mut row = types;
    let mut outer = CType::Void;
    loop {
        match at.open() {
            Opened::Inner(inner) => at = inner,
            Opened::Function(mut inner) => {
                (at, row) = inner.replace(outer, row);
                outer = CType::Function(SharedSignature::lone(inner));
            }
            Opened::Nothing => {
                let (rest, last) = split_last(row);
                match last {
                    Some(next) => {
                        at = next;
                        row = rest;
                    }
                    None => match outer.open() {
                        Opened::Function(inner) => {
                            let Signature {
                                result,
                                params,
                                more: _,
                                no_return: _,
                            } = inner.into_inner();
                            mem::drop(rest);
                            row = params;
                            outer = result;
                            at = CType::Void;
                        }
                        Opened::Inner(inner) => {
                            at = inner;
                            row = rest;
                            outer = CType::Void;
                        }
                        Opened::Nothing => {
                            mem::drop(rest);
                            return;
                        }
                    },
                }
            }
        }
    }
}

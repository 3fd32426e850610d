use crate::{CType, Signature};
use stk_base::List;

/// What an ordinary identifier means (C11 6.2.3): a typedef name for a type, an object of a type, a function, or an
/// enumerator with its value.
#[derive(Drop)]
pub enum Symbol {
    TypeDef(CType),
    Object(CType),
    Function(Signature),
    Enumerator(i128),
}

/// A member of a struct: its name, as bytes, and its type.
#[derive(Drop)]
pub struct MemberInfo {
    pub name: List<u8>,
    pub ty: CType,
}

/// One step of declaring: a name gets a meaning; a struct is declared, with a tag or without; the struct of a number
/// gets its members, in order; the tag of an enumeration is declared.
///
/// The number of a struct counts the `Struct` entries before its own.
#[derive(Drop)]
pub enum NameEntry {
    Symbol { name: List<u8>, symbol: Symbol },
    Struct { tag: Option<List<u8>> },
    Members { id: u32, members: List<MemberInfo> },
    Enumeration { tag: List<u8> },
}

/// What a tag means: the struct of a number, or an enumeration.
#[derive(Clone, Copy, Debug, PartialEq, Eq)]
pub enum Tag {
    Struct(u32),
    Enumeration,
}

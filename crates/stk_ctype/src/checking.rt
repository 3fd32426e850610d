// What calls of `Names` ask, tested at run time. For tests alone.
ghost use Rattle.std.specs.Prelude.{◌≡◌, ◌<◌, ◌≤◌, length, IsTrue, IsSome};
ghost use Rattle.stk_ctype.specs.Types.{type_of, struct_type};
ghost use Rattle.stk_ctype.specs.Structs.{structs_of, size_of, array_size, layout_of, struct_at, struct_size, size_limit};
ghost use Rattle.stk_ctype.specs.Sound.{IsSound, IsCount, IsWithinLimit, IsOpenArray, AreMembers, IsSoundSymbol, RestsOn};

use crate::{CType, MemberInfo, NameEntry, Names, Symbol};

// Whether a type is sound under names; false of each function type.
pub(crate) fn is_sound(names: &Names, ty: &CType) -> bool
    ensures { IsTrue result → IsSound (structs_of names.now) (type_of ty.now) }
{
    match ty {
        CType::Void | CType::Int(_) => true,
        CType::Pointer(inner) => is_sound(names, inner.get()),
        CType::Array(inner, count) => {
            is_sound(names, inner.get()) && has_elements(names, inner.get(), *count)
        }
        CType::Struct(id) => is_declared(names, *id),
        CType::Function(_) => false,
    }
}

// Whether so many elements of a type make an array.
fn has_elements(names: &Names, element: &CType, count: Option<u64>) -> bool
    requires { IsSound (structs_of names.now) (type_of element.now) }
    ensures { IsTrue result → IsSome (size_of (structs_of names.now) (type_of element.now)) × IsCount count × IsWithinLimit (array_size count (size_of (structs_of names.now) (type_of element.now))) }
{
    let Some(size) = names.size_of(element) else {
        return false;
    };
    let Some(count) = count else {
        return true;
    };
    match count.checked_mul(size) {
        Some(all) => 1 <= count && all <= 2_147_483_647,
        None => false,
    }
}

// Whether a struct is declared.
fn is_declared(names: &Names, id: u32) -> bool
    ensures { IsTrue result → IsSound (structs_of names.now) (struct_type id) }
{
    // For the prover: the names keep their facts.
    let _ = &names.facts;
    if id >= names.structs() {
        return false;
    }
    true
}

// Whether a struct may have these members.
pub(crate) fn are_members(names: &Names, members: &[MemberInfo]) -> bool
    ensures { IsTrue result → AreMembers (structs_of names.now) members.now }
{
    let Some((first, rest)) = members.split_first() else {
        return true;
    };
    if !is_sound(names, &first.ty) || !are_members(names, rest) {
        return false;
    }
    names.size_of(&first.ty).is_some() || (rest.is_empty() && is_open(&first.ty))
}

// Whether a type is an array of unknown size.
fn is_open(ty: &CType) -> bool
    ensures { IsTrue result → IsOpenArray (type_of ty.now) }
{
    match ty {
        CType::Array(_, None) => true,
        CType::Array(_, Some(_))
        | CType::Void
        | CType::Int(_)
        | CType::Pointer(_)
        | CType::Struct(_)
        | CType::Function(_) => false,
    }
}

// Whether an entry rests on the names; false where it has a function type.
pub(crate) fn rests_on(names: &Names, entry: &NameEntry) -> bool
    ensures { IsTrue result → RestsOn (structs_of names.now) entry.now }
{
    match entry {
        NameEntry::Symbol { name: _, symbol } => is_sound_symbol(names, symbol),
        NameEntry::Struct { tag: _ } | NameEntry::Enumeration { tag: _ } => true,
        NameEntry::Members { id, members } => may_have(names, *id, members.as_slice()),
    }
}

// Whether the struct of a number may have these members.
fn may_have(names: &Names, id: u32, members: &[MemberInfo]) -> bool
    ensures { IsTrue result → (id < length (structs_of names.now)) × (struct_at (structs_of names.now) id ≡ None) × AreMembers (structs_of names.now) members.now × (1 ≤ struct_size (structs_of names.now) members.now) × (struct_size (structs_of names.now) members.now ≤ size_limit) }
{
    if id >= names.structs() {
        return false;
    }
    if let Some(_) = names.kept(id) {
        return false;
    }
    if !are_members(names, members) {
        return false;
    }
    if let None = names.layout(members) {
        return false;
    }
    true
}

// Whether the types of a symbol are sound; false of each function.
fn is_sound_symbol(names: &Names, symbol: &Symbol) -> bool
    ensures { IsTrue result → IsSoundSymbol (structs_of names.now) symbol.now }
{
    match symbol {
        Symbol::TypeDef(ty) | Symbol::Object(ty) => is_sound(names, ty),
        Symbol::Function(_) => false,
        Symbol::Enumerator(_) => true,
    }
}

// Sizes, offsets, shadowing and cuts. Sizes and offsets are those that gcc gives on x86-64.
use crate::checking::{are_members, is_sound, rests_on};
use crate::{
    CType, IntKind, MemberInfo, NameEntry, Names, SharedSignature, SharedType, Signature, Symbol,
    Tag,
};
use std::alloc::Global;
use std::process::Abort;
use std::test::Fail;
use stk_base::{List, NoMemory};

// What a type is made of, innermost first; nothing is `void`.
#[derive(Clone, Copy)]
enum Part {
    Kind(IntKind),
    Struct(u32),
    Pointer,
    Array(u64),
    Open,
}

// A member: its name, and what its type is made of.
type Row = (&'static str, &'static [Part]);

const CHAR: &[Part] = &[Part::Kind(IntKind::Char)];

const SHORT: &[Part] = &[Part::Kind(IntKind::Short)];

const INT: &[Part] = &[Part::Kind(IntKind::Int)];

const LONG: &[Part] = &[Part::Kind(IntKind::Long)];

fn text(alloc: Global, text: &str) -> Result<List<u8>, NoMemory> {
    Ok(List::from_vec(Vec::from_slice(alloc, text.as_bytes())?))
}

fn layer(alloc: Global, part: Part, ty: CType) -> Result<CType, NoMemory> {
    Ok(match part {
        Part::Kind(kind) => CType::Int(kind),
        Part::Struct(id) => CType::Struct(id),
        Part::Pointer => CType::Pointer(SharedType::new(alloc, ty)?),
        Part::Array(count) => CType::Array(SharedType::new(alloc, ty)?, Some(count)),
        Part::Open => CType::Array(SharedType::new(alloc, ty)?, None),
    })
}

fn type_from(alloc: Global, parts: &[Part]) -> Result<CType, NoMemory> {
    let mut ty = CType::Void;
    for part in parts {
        ty = layer(alloc, *part, ty)?;
    }
    Ok(ty)
}

fn members_from(alloc: Global, rows: &[Row]) -> Result<List<MemberInfo>, NoMemory> {
    let mut members = Vec::new(alloc);
    for (name, parts) in rows {
        let name = text(alloc, name)?;
        let ty = type_from(alloc, parts)?;
        members.push(MemberInfo { name, ty })?;
    }
    Ok(List::from_vec(members))
}

// Adds an entry that must rest on the names.
fn add(rt: &impl Abort, names: &mut Names, entry: NameEntry) -> Result<(), NoMemory> {
    assert!(rt; names.count() < u32::MAX);
    assert!(rt; rests_on(names, &entry));
    names.add(entry)
}

// The size of a type that must be sound.
fn size(rt: &impl Abort, names: &Names, ty: &CType) -> Option<u64> {
    assert!(rt; is_sound(names, ty));
    names.size_of(ty)
}

// Gives the struct of a number its members.
fn complete(
    rt: &impl Abort,
    alloc: Global,
    names: &mut Names,
    id: u32,
    rows: &[Row],
) -> Result<(), NoMemory> {
    let members = members_from(alloc, rows)?;
    add(rt, names, NameEntry::Members { id, members })
}

// Whether each member of a struct stands at its offset, and no other name is one.
fn stand_at(names: &Names, ty: &CType, rows: &[Row], offsets: &[u64]) -> bool {
    for ((name, _), offset) in rows.iter().zip(offsets.iter()) {
        match names.member(ty, name.as_bytes()) {
            Some((at, _)) if at == *offset => {}
            _ => return false,
        }
    }
    rows.len() == offsets.len() && names.member(ty, b"none").is_none()
}

// The members of a struct, its size, and the offsets of the members.
type StructRow = (&'static [Row], u64, &'static [u64]);

static STRUCTS: [StructRow; 6] = [
    (&[("c", CHAR), ("i", INT)], 8, &[0, 4]),
    (
        &[("c", CHAR), ("s", &[Part::Struct(0)]), ("h", SHORT)],
        16,
        &[0, 4, 12],
    ),
    (
        &[("t", &[Part::Struct(1), Part::Array(3)]), ("e", CHAR)],
        52,
        &[0, 48],
    ),
    (
        &[
            ("n", CHAR),
            ("tail", &[Part::Kind(IntKind::Long), Part::Open]),
        ],
        8,
        &[0, 8],
    ),
    (
        &[
            ("b", &[Part::Kind(IntKind::Bool)]),
            ("l", LONG),
            ("p", &[Part::Pointer]),
            ("u", CHAR),
        ],
        32,
        &[0, 8, 16, 24],
    ),
    (
        &[("m", &[Part::Struct(4), Part::Array(3), Part::Array(2)])],
        192,
        &[0],
    ),
];

#[test]
fn structs_are_laid_out(rt: HostRuntime) -> Result<(), Fail> {
    let mut names = Names::new(rt.alloc());
    for (members, whole, offsets) in &STRUCTS {
        let id = names.structs();
        add(&rt, &mut names, NameEntry::Struct { tag: None })?;
        assert!(rt; size(&rt, &names, &CType::Struct(id)).is_none());
        complete(&rt, rt.alloc(), &mut names, id, members)?;
        assert!(rt; size(&rt, &names, &CType::Struct(id)) == Some(*whole));
        assert!(rt; stand_at(&names, &CType::Struct(id), members, offsets));
    }
    Ok(())
}

const LARGEST: &[Part] = &[Part::Kind(IntKind::Char), Part::Array(2_147_483_647)];

static SIZES: [(&[Part], Option<u64>); 6] = [
    (
        &[Part::Kind(IntKind::Int), Part::Array(4), Part::Array(3)],
        Some(48),
    ),
    (LARGEST, Some(2_147_483_647)),
    (&[Part::Pointer, Part::Array(7)], Some(56)),
    (&[Part::Struct(0), Part::Pointer], Some(8)),
    (&[], None),
    (&[Part::Kind(IntKind::Int), Part::Open], None),
];

#[test]
fn types_have_sizes(rt: HostRuntime) -> Result<(), Fail> {
    let mut names = Names::new(rt.alloc());
    add(&rt, &mut names, NameEntry::Struct { tag: None })?;
    for (parts, answer) in &SIZES {
        let ty = type_from(rt.alloc(), parts)?;
        assert!(rt; size(&rt, &names, &ty) == *answer);
    }
    Ok(())
}

static LIMITS: [(&[Row], Option<u64>); 4] = [
    (&[("c", LARGEST)], Some(2_147_483_647)),
    (&[("c", CHAR), ("d", LARGEST)], None),
    (&[], None),
    (&[("tail", &[Part::Kind(IntKind::Char), Part::Open])], None),
];

#[test]
fn a_struct_meets_the_limit(rt: HostRuntime) -> Result<(), Fail> {
    let names = Names::new(rt.alloc());
    for (rows, answer) in &LIMITS {
        let members = members_from(rt.alloc(), rows)?;
        assert!(rt; are_members(&names, members.as_slice()));
        assert!(rt; names.layout(members.as_slice()) == *answer);
    }
    Ok(())
}

// What an entry declares under a name or a tag.
#[derive(Clone, Copy)]
enum What {
    Value(i128),
    Type,
    Object,
    Struct,
    Enumeration,
}

fn entry(alloc: Global, name: &str, what: What) -> Result<NameEntry, NoMemory> {
    let name = text(alloc, name)?;
    Ok(match what {
        What::Value(value) => NameEntry::Symbol {
            name,
            symbol: Symbol::Enumerator(value),
        },
        What::Type => NameEntry::Symbol {
            name,
            symbol: Symbol::TypeDef(CType::Void),
        },
        What::Object => NameEntry::Symbol {
            name,
            symbol: Symbol::Object(CType::Int(IntKind::Int)),
        },
        What::Struct => NameEntry::Struct { tag: Some(name) },
        What::Enumeration => NameEntry::Enumeration { tag: name },
    })
}

fn add_all(
    rt: &impl Abort,
    alloc: Global,
    names: &mut Names,
    rows: &[(&str, What)],
) -> Result<(), NoMemory> {
    for (name, what) in rows {
        let entry = entry(alloc, name, *what)?;
        add(rt, names, entry)?;
    }
    Ok(())
}

fn cut(rt: &impl Abort, names: &mut Names, count: u32) {
    assert!(rt; count <= names.count());
    names.cut_to(count);
    assert!(rt; names.count() == count);
}

fn value(names: &Names, name: &[u8]) -> Option<i128> {
    match names.find(name) {
        Some(Symbol::Enumerator(value)) => Some(*value),
        Some(Symbol::TypeDef(_) | Symbol::Object(_) | Symbol::Function(_)) | None => None,
    }
}

static NAMES: [(&str, What); 6] = [
    ("a", What::Value(1)),
    ("", What::Value(2)),
    ("t", What::Type),
    ("a", What::Value(3)),
    ("t", What::Object),
    ("a", What::Type),
];

// How many entries are left, the values of a and of the empty name, and whether a and t are typedef names.
static MEANINGS: [(u32, Option<i128>, Option<i128>, bool, bool); 5] = [
    (6, None, Some(2), true, false),
    (5, Some(3), Some(2), false, false),
    (4, Some(3), Some(2), false, true),
    (2, Some(1), Some(2), false, false),
    (0, None, None, false, false),
];

#[test]
fn the_last_entry_of_a_name_counts(rt: HostRuntime) -> Result<(), Fail> {
    let mut names = Names::new(rt.alloc());
    add_all(&rt, rt.alloc(), &mut names, &NAMES)?;
    for (count, a, empty, a_is_type, t_is_type) in &MEANINGS {
        cut(&rt, &mut names, *count);
        assert!(rt; value(&names, b"a") == *a);
        assert!(rt; value(&names, b"") == *empty);
        assert!(rt; names.is_type(b"a") == *a_is_type);
        assert!(rt; names.is_type(b"t") == *t_is_type);
    }
    Ok(())
}

static TAGS: [(&str, What); 5] = [
    ("s", What::Struct),
    ("s", What::Value(1)),
    ("u", What::Struct),
    ("s", What::Enumeration),
    ("s", What::Struct),
];

// How many entries are left, how many structs, and what s and u are.
static TAG_MEANINGS: [(u32, u32, Option<Tag>, Option<Tag>); 4] = [
    (5, 3, Some(Tag::Struct(2)), Some(Tag::Struct(1))),
    (4, 2, Some(Tag::Enumeration), Some(Tag::Struct(1))),
    (2, 1, Some(Tag::Struct(0)), None),
    (0, 0, None, None),
];

#[test]
fn the_last_entry_of_a_tag_counts(rt: HostRuntime) -> Result<(), Fail> {
    let mut names = Names::new(rt.alloc());
    add_all(&rt, rt.alloc(), &mut names, &TAGS)?;
    for (count, structs, s, u) in &TAG_MEANINGS {
        cut(&rt, &mut names, *count);
        assert!(rt; names.structs() == *structs);
        assert!(rt; names.tag(b"s") == *s);
        assert!(rt; names.tag(b"u") == *u);
    }
    Ok(())
}

fn function(alloc: Global, given: CType, param: CType) -> Result<CType, NoMemory> {
    let mut params = Vec::new(alloc);
    params.push(CType::Int(IntKind::Int))?;
    params.push(param)?;
    let signature = Signature {
        result: given,
        params: List::from_vec(params),
        more: true,
        no_return: false,
    };
    Ok(CType::Function(SharedSignature::new(alloc, signature)?))
}

// A function whose last parameter points to such a function, and so on, and whose result does.
fn nested(alloc: Global, levels: u32) -> Result<CType, NoMemory> {
    let mut ty = CType::Struct(7);
    for level in 0..levels {
        let pointed = layer(alloc, Part::Pointer, ty)?;
        ty = if level % 2 == 0 {
            function(alloc, CType::Void, pointed)?
        } else {
            function(alloc, pointed, CType::Void)?
        };
    }
    Ok(ty)
}

#[test]
fn types_that_nest_deep_are_copied_and_dropped(rt: HostRuntime) -> Result<(), Fail> {
    let ty = nested(rt.alloc(), 200_000)?;
    let copied = ty.copy()?;
    assert!(rt; matches!(&copied, CType::Function(_)));
    Ok(())
}

// Whether each type of so long a chain of arrays of one element has the size of an `int`.
fn chain_has_size(alloc: Global, names: &Names, levels: u32) -> Result<bool, NoMemory> {
    let mut ty = CType::Int(IntKind::Int);
    for _ in 0..levels {
        if names.size_of(&ty) != Some(4) {
            return Ok(false);
        }
        ty = CType::Array(SharedType::new(alloc, ty)?, Some(1));
    }
    Ok(true)
}

#[test]
fn sizes_take_no_longer_where_arrays_nest_deep(rt: HostRuntime) -> Result<(), Fail> {
    let names = Names::new(rt.alloc());
    assert!(rt; chain_has_size(rt.alloc(), &names, 1_000_000)?);
    Ok(())
}

//! The bases of declarations, and structs with their members.

ghost use Rattle.std.specs.Prelude.{◌≡◌, ◌&&◌, nat_eq, true, IfOk, List, OnOk, map};
ghost use Rattle.stk_ctype.specs.declared.symbol.NameEntry.{NameEntry};
ghost use Rattle.stk_ctype.specs.Names.{tag_of};
ghost use Rattle.stk_ctype.specs.Structs.{Structs, structs_of, struct_at};
ghost use Rattle.stk_ctype.specs.Sound.{IsSound, AreMembers};
ghost use Rattle.stk_ctype.specs.Types.{struct_type, type_of};
ghost use Rattle.stk_tree.specs.View.{declarators, dimensions, members, view_base, view_declarator, view_dimension, view_member, view_tail};
ghost use Rattle.stk_type_rules.specs.Facts.{Ruled, declares, fact_of};
ghost use Rattle.stk_type_rules.specs.Outcome.{MakesFact};
ghost use Rattle.stk_typing.specs.Arrays.{declared_type, starred};
ghost use Rattle.stk_declarators.specs.Uses.{base_uses, dimensions_uses};
ghost use Rattle.stk_typing.specs.Typing.{base_typed, dimensions_typed};
ghost use Rattle.stk_declarators.specs.Parameters.{array_parts};
ghost use Rattle.stk_declare.specs.Answers.{Answers, Extends};
ghost use Rattle.stk_declare.specs.Bases.{base_plainly_declared};
ghost use Rattle.stk_declare.specs.Members.{AreComplete, AreMembersSoFar};
ghost use Rattle.stk_declare.specs.Shown.{based, membered, opening_of};
ghost use Rattle.stk_declare.specs.Structs.{base_declared, form_declared, has_member, is_empty, may_be_member, member_declarator, member_declarators, member_typed, member_declared, member_made, member_name, member_rule, member_size_first, members_declared, opening, opening_named, opening_new, struct_closed, struct_rule};
ghost use Rattle.stk_declare.specs.Tags.{at_file, behind_uses};

use crate::enumerations::enumeration;
use crate::members::Members;
use crate::settling::settled;
use crate::symbols::{is_open_array, is_unsized, size_first};
use crate::tags::{add_entry, behind_uses};
use std::alloc::Global;
use stk_base::{List, NoMemory, Span};
use stk_ctype::{CType, NameEntry, Names, Tag};
use stk_declarators::{base_uses, dimensions_uses, scope};
use stk_tree::{Base, BaseForm, Declr, Dimension, Member, Tail};
use stk_type_rules::{Broken, NodeFact, Untyped, is_complete};
use stk_typing::{Locals, Size, base_rule, declared_type, dimensions, starred};

/// The struct that a definition gives members: its number, and whether its tag is that of an enumeration.
#[derive(Clone, Copy)]
pub(crate) struct Opened {
    pub id: u32,
    pub clash: bool,
}

// Declares a struct that is new, with a tag or without.
#[tactic(auto, using(crate::proofs::Extending::extending))]
fn open_new(names: &mut Names, tag: Option<List<u8>>, clash: bool) -> Result<Opened, NoMemory>
    ensures is { IfOk result (λ o. opening_of names.new o ≡ opening_new names.old tag clash) }
    ensures sound { IfOk result (λ o. IsSound (structs_of names.new) (struct_type o.id)) }
    ensures extends { Extends names.old names.new }
{
    let id = names.structs();
    add_entry(names, NameEntry::Struct { tag })?;
    Ok(Opened { id, clash })
}

// The struct of a tag: the one that it means, or else a new one.
#[tactic(auto, using(crate::proofs::Extending::extending))]
fn open_named(alloc: Global, names: &mut Names, name: &[u8]) -> Result<Opened, NoMemory>
    ensures is { IfOk result (λ o. opening_of names.new o ≡ opening_named names.old name.now (tag_of name.now names.old)) }
    ensures sound { IfOk result (λ o. IsSound (structs_of names.new) (struct_type o.id)) }
    ensures extends { Extends names.old names.new }
{
    match names.tag(name) {
        None => {
            let tag = List::from_vec(Vec::from_slice(alloc, name)?);
            open_new(names, Some(tag), false)
        }
        Some(Tag::Struct(id)) => Ok(Opened { id, clash: false }),
        Some(Tag::Enumeration) => open_new(names, None, true),
    }
}

// The struct that a definition with this tag or none gives members.
fn open(
    alloc: Global,
    bytes: &[u8],
    names: &mut Names,
    tag: Option<Span>,
) -> Result<Opened, NoMemory>
    ensures is { IfOk result (λ o. opening_of names.new o ≡ opening bytes.now names.old tag) }
    ensures sound { IfOk result (λ o. IsSound (structs_of names.new) (struct_type o.id)) }
    ensures extends { Extends names.old names.new }
{
    match tag {
        None => open_new(names, None, false),
        Some(at) => open_named(alloc, names, at.text(bytes)),
    }
}

// What the rules make of a struct with these members.
fn struct_rule(names: &Names, o: Opened, found: &Members) -> Result<NodeFact, Broken>
    requires members { AreMembers (structs_of names.now) found.now }
    requires sound { IsSound (structs_of names.now) (struct_type o.id) }
    ensures fact { (es : List NameEntry) → MakesFact (struct_rule (structs_of names.now) (opening_of es o) found.now) result }
    ensures sound { IfOk result (λ f. IsSound (structs_of names.now) (type_of f.ty)) }
{
    let ty = CType::Struct(o.id);
    if names.layout(found.as_slice()).is_none() {
        return Err(Broken::Rule(5));
    }
    if o.clash || names.size_of(&ty).is_some() {
        return Err(Broken::Rule(17));
    }
    Ok(NodeFact::names_type(ty))
}

// Gives a struct its members, whose base has this number.
#[tactic(auto, using(crate::proofs::Extending::extending))]
fn close(names: &mut Names, node: u32, o: Opened, found: Members) -> Result<CType, Untyped>
    requires members { AreMembers (structs_of names.old) found }
    requires sound { IsSound (structs_of names.old) (struct_type o.id) }
    ensures gives { (es : List NameEntry) → Answers (λ x t. based names.new t ≡ x) (struct_closed node (opening_of es o) (membered names.old found)) result }
    ensures extends { Extends names.old names.new }
    ensures sound { IfOk result (λ t. IsSound (structs_of names.new) (type_of t)) }
{
    settled(node, struct_rule(names, o, &found))?;
    let members = found.into_list();
    add_entry(names, NameEntry::Members { id: o.id, members })?;
    Ok(CType::Struct(o.id))
}

// The name of a member.
fn member_name<'a>(bytes: &'a [u8], at: Option<Span>) -> &'a [u8]
    ensures { result.now ≡ member_name bytes.now at }
{
    match at {
        None => &[],
        Some(at) => at.text(bytes),
    }
}

// Whether a member, that is the first one or isn't and the last one or isn't, may have this type.
fn may_be_member(names: &Names, first: bool, last: bool, ty: &CType) -> bool
    requires { IsSound (structs_of names.now) (type_of ty.now) }
    ensures { result ≡ may_be_member (structs_of names.now) first last (type_of ty.now) }
{
    is_complete(names, ty) || (is_open_array(ty) && last && !first)
}

// What a member's array parts make.
fn member_made(
    names: &Names,
    first: bool,
    last: bool,
    made: Result<NodeFact, Broken>,
) -> Result<NodeFact, Broken>
    requires { IfOk made (λ f. IsSound (structs_of names.now) (type_of f.ty)) }
    ensures fact { (r : Ruled) → MakesFact r made → MakesFact (member_made (structs_of names.now) first last r) result }
    ensures sound { IfOk result (λ f. IsSound (structs_of names.now) (type_of f.ty)) }
    ensures may { IfOk result (λ f. may_be_member (structs_of names.now) first last (type_of f.ty) ≡ true) }
{
    match made {
        Err(broken) => Err(broken),
        Ok(fact) => {
            if may_be_member(names, first, last, &fact.ty) {
                Ok(fact)
            } else {
                Err(Broken::Rule(4))
            }
        }
    }
}

// What the rules make of a member's declarator.
fn member_rule(
    names: &Names,
    last: bool,
    found: &Members,
    name: &[u8],
    made: Result<NodeFact, Broken>,
) -> Result<NodeFact, Broken>
    requires { IfOk made (λ f. IsSound (structs_of names.now) (type_of f.ty)) }
    ensures fact { (r : Ruled) → MakesFact r made → MakesFact (member_rule (structs_of names.now) last found.now name.now r) result }
    ensures sound { IfOk result (λ f. IsSound (structs_of names.now) (type_of f.ty)) }
    ensures may { IfOk result (λ f. may_be_member (structs_of names.now) (is_empty found.now) last (type_of f.ty) ≡ true) }
{
    if found.has(name) {
        return Err(Broken::Rule(3));
    }
    member_made(names, found.is_empty(), last, made)
}

// What refuses a member's array parts: a missing size first, but for a last member that isn't the only one.
fn member_size_first(
    last: bool,
    found: &Members,
    sizes: &[Size],
    made: Result<NodeFact, Broken>,
) -> Result<NodeFact, Broken>
    ensures fact { (r : Ruled) → MakesFact r made → MakesFact (member_size_first last found.now sizes.now r) result }
    ensures sound { (structs : Structs) → IfOk made (λ f. IsSound structs (type_of f.ty)) → IfOk result (λ f. IsSound structs (type_of f.ty)) }
{
    let lacking = is_unsized(None, sizes) && !(last && !found.is_empty());
    size_first(lacking, made)
}

// The array parts of a member's declarator.
fn array_parts(t: &Tail) -> &[Dimension]
    ensures { dimensions (map view_dimension result.now) ≡ array_parts (view_tail t.now) }
{
    match t {
        Tail::Arrays(list) => list.as_slice(),
        Tail::Unspecified | Tail::NoParams | Tail::Params(_, _) => &[],
    }
}

// Declares the tags that array parts use.
fn use_dimensions(
    alloc: Global,
    bytes: &[u8],
    names: &mut Names,
    list: &[Dimension],
) -> Result<(), NoMemory>
    ensures is { OnOk result (names.new ≡ behind_uses bytes.now names.old (dimensions_uses (dimensions (map view_dimension list.now)))) }
    ensures extends { Extends names.old names.new }
{
    let mut uses = Vec::new(alloc);
    let Ok(()) = dimensions_uses(list, &mut uses) else {
        return Err(NoMemory);
    };
    behind_uses(alloc, bytes, names, uses.as_slice())
}

// The sizes of array parts at file scope.
fn file_sizes(
    alloc: Global,
    bytes: &[u8],
    names: &Names,
    list: &[Dimension],
) -> Result<Vec<Size>, Untyped>
    ensures { Answers (λ sizes v. v.items ≡ sizes) (dimensions_typed (at_file bytes.now names.now) (dimensions (map view_dimension list.now))) result }
{
    let locals = Locals::new(alloc);
    let mut facts = Vec::new(alloc);
    dimensions(&scope(alloc, bytes, names, &locals), &mut facts, list)
}

// The type of a member, under a base that names this type.
fn member_type(
    alloc: Global,
    bytes: &[u8],
    names: &Names,
    found: &Members,
    last: bool,
    ty: &CType,
    d: &Declr,
) -> Result<NodeFact, Untyped>
    requires { IsSound (structs_of names.now) (type_of ty.now) }
    ensures gives { Answers (λ x f. fact_of f ≡ x) (member_typed bytes.now names.now found.now last (type_of ty.now) (view_declarator d.now)) result }
    ensures sound { IfOk result (λ f. IsSound (structs_of names.now) (type_of f.ty)) }
    ensures may { IfOk result (λ f. may_be_member (structs_of names.now) (is_empty found.now) last (type_of f.ty) ≡ true) }
{
    let sizes = file_sizes(alloc, bytes, names, array_parts(&d.tail))?;
    let parts = sizes.as_slice();
    let whole = starred(alloc, d.stars, ty.copy()?)?;
    let made = declared_type(alloc, names, parts, whole);
    let made = member_size_first(last, found, parts, made);
    let made = member_rule(names, last, found, member_name(bytes, d.name), made);
    settled(d.node.number, made)
}

// Declares a member, under a base that names this type.
#[tactic(auto, using(crate::proofs::Extending::extending))]
fn member_declarator(
    alloc: Global,
    bytes: &[u8],
    names: &mut Names,
    found: &mut Members,
    last: bool,
    ty: &CType,
    d: &Declr,
) -> Result<(), Untyped>
    requires sound { IsSound (structs_of names.old) (type_of ty.now) }
    requires members { AreComplete (structs_of names.old) found.old }
    ensures gives { Answers (λ x u. membered names.new found.new ≡ x) (member_declarator bytes.now names.old found.old last (type_of ty.now) (view_declarator d.now)) result }
    ensures extends { Extends names.old names.new }
    ensures members { OnOk result (AreMembersSoFar last (structs_of names.new) found.new) }
{
    use_dimensions(alloc, bytes, names, array_parts(&d.tail))?;
    let fact = member_type(alloc, bytes, names, found, last, ty, d)?;
    found.push(member_name(bytes, d.name), fact.ty)?;
    Ok(())
}

// Whether what stands before so many others is the last one of a row that may end the members.
fn is_last(last: bool, left: usize) -> bool
    ensures { result ≡ (last && nat_eq left 0) }
{
    last && left == 0
}

// Declares the members of one base, which is the last one or isn't.
#[tactic(auto, using(crate::proofs::Extending::extending))]
fn member_declarators(
    alloc: Global,
    bytes: &[u8],
    names: &mut Names,
    found: &mut Members,
    last: bool,
    ty: &CType,
    list: &[Declr],
) -> Result<(), Untyped>
    requires sound { IsSound (structs_of names.old) (type_of ty.now) }
    requires members { AreComplete (structs_of names.old) found.old }
    ensures gives { Answers (λ x u. membered names.new found.new ≡ x) (member_declarators bytes.now names.old found.old last (type_of ty.now) (declarators (map view_declarator list.now))) result }
    ensures extends { Extends names.old names.new }
    ensures members { OnOk result (AreMembersSoFar last (structs_of names.new) found.new) }
{
    let mut left = list.len();
    for d in list {
        left -= 1;
        let ends = is_last(last, left);
        member_declarator(alloc, bytes, names, found, ends, ty, d)?;
    }
    Ok(())
}

// Declares the tag that a base without braces uses.
fn use_base(alloc: Global, bytes: &[u8], names: &mut Names, b: &Base) -> Result<(), NoMemory>
    ensures is { OnOk result (names.new ≡ behind_uses bytes.now names.old (base_uses (view_base b.now))) }
    ensures extends { Extends names.old names.new }
{
    let mut uses = Vec::new(alloc);
    let Ok(()) = base_uses(b, &mut uses) else {
        return Err(NoMemory);
    };
    behind_uses(alloc, bytes, names, uses.as_slice())
}

/// The type that a base without braces names; one with braces is refused.
pub(crate) fn named_base(bytes: &[u8], names: &Names, b: &Base) -> Result<CType, Untyped>
    ensures gives { Answers (λ x t. type_of t ≡ x.ty) (base_typed (at_file bytes.now names.now) (view_base b.now)) result }
    ensures sound { IfOk result (λ t. IsSound (structs_of names.now) (type_of t)) }
{
    let fact = settled(b.node.number, base_rule(bytes, names, &b.form))?;
    Ok(fact.ty)
}

// Declares what a base without braces declares, and names its type.
#[tactic(auto, using(crate::proofs::Extending::extending))]
fn plain_base(alloc: Global, bytes: &[u8], names: &mut Names, b: &Base) -> Result<CType, Untyped>
    ensures gives { Answers (λ x t. based names.new t ≡ x) (base_plainly_declared bytes.now names.old (view_base b.now)) result }
    ensures extends { Extends names.old names.new }
    ensures sound { IfOk result (λ t. IsSound (structs_of names.new) (type_of t)) }
{
    use_base(alloc, bytes, names, b)?;
    named_base(bytes, names, b)
}

/// Declares what a base declares, and names its type (C11 6.7.2).
#[cycle(base)]
#[tactic(auto, using(crate::proofs::Extending::extending))]
pub(crate) fn base(
    alloc: Global,
    bytes: &[u8],
    names: &mut Names,
    b: &Base,
) -> Result<CType, Untyped>
    ensures gives { Answers (λ x t. based names.new t ≡ x) (base_declared bytes.now names.old (view_base b.now)) result }
    ensures extends { Extends names.old names.new }
    ensures sound { IfOk result (λ t. IsSound (structs_of names.new) (type_of t)) }
{
    match &b.form {
        BaseForm::Words(_) | BaseForm::StructRef(_) | BaseForm::EnumRef(_) | BaseForm::Named(_) => {
            plain_base(alloc, bytes, names, b)
        }
        BaseForm::StructDef(tag, list) => {
            let opened = open(alloc, bytes, names, *tag)?;
            let mut found = Members::new(alloc);
            members(alloc, bytes, names, &mut found, list.as_slice())?;
            close(names, b.node.number, opened, found)
        }
        BaseForm::EnumDef(tag, list, _) => {
            enumeration(alloc, bytes, names, b.node.number, *tag, list.as_slice())
        }
    }
}

// Declares members of a struct, behind none.
#[cycle(base)]
#[tactic(auto, using(crate::proofs::Extending::extending))]
fn members(
    alloc: Global,
    bytes: &[u8],
    names: &mut Names,
    found: &mut Members,
    list: &[Member],
) -> Result<(), Untyped>
    requires { AreComplete (structs_of names.old) found.old }
    ensures gives { Answers (λ x u. membered names.new found.new ≡ x) (members_declared bytes.now names.old found.old (members (map view_member list.now))) result }
    ensures extends { Extends names.old names.new }
    ensures members { OnOk result (AreMembers (structs_of names.new) found.new) }
{
    let mut left = list.len();
    for m in list {
        left -= 1;
        let ends = is_last(true, left);
        member(alloc, bytes, names, found, ends, m)?;
    }
    Ok(())
}

// Declares the members of one base, which is the last one or isn't.
#[cycle(base)]
#[tactic(auto, using(crate::proofs::Extending::extending))]
fn member(
    alloc: Global,
    bytes: &[u8],
    names: &mut Names,
    found: &mut Members,
    last: bool,
    m: &Member,
) -> Result<(), Untyped>
    requires { AreComplete (structs_of names.old) found.old }
    ensures gives { Answers (λ x u. membered names.new found.new ≡ x) (member_declared bytes.now names.old found.old last (view_member m.now)) result }
    ensures extends { Extends names.old names.new }
    ensures members { OnOk result (AreMembersSoFar last (structs_of names.new) found.new) }
{
    let ty = base(alloc, bytes, names, &m.base)?;
    member_declarators(alloc, bytes, names, found, last, &ty, m.list.as_slice())
}

//! The declarators of a declaration at file scope, and of a function definition.

ghost use Rattle.std.specs.Prelude.{◌≡◌, ◌++◌, IfOk, IfSome, OnOk, map};
ghost use Rattle.std.specs.Option.{option_map};
ghost use Rattle.stk_ctype.specs.Names.{find};
ghost use Rattle.stk_ctype.specs.Structs.{structs_of};
ghost use Rattle.stk_ctype.specs.Sound.{IsSound, RestsOn};
ghost use Rattle.stk_ctype.specs.Types.{type_of};
ghost use Rattle.stk_tree.specs.View.{declarators, maybe_initialiser, view_declarator, view_initialiser};
ghost use Rattle.stk_type_rules.specs.Facts.{fact_of};
ghost use Rattle.stk_type_rules.specs.Outcome.{finish};
ghost use Rattle.stk_declarators.specs.Uses.{declarator_uses};
ghost use Rattle.stk_declarators.specs.Rows.{IsShape, IsSoundTail};
ghost use Rattle.stk_declarators.specs.Tails.{TailShape};
ghost use Rattle.stk_declare.specs.Answers.{Answers, Extends, listed};
ghost use Rattle.stk_declare.specs.Declaring.{count_for, declarator_declared, declarators_declared, declared_name, made_for};
ghost use Rattle.stk_declare.specs.Symbols.{declarator_rule, sort_of};
ghost use Rattle.stk_declare.specs.Tags.{behind_uses};

use crate::additions::addition;
use crate::settling::settled;
use crate::symbols::{
    agreement_first, declarator_rule, lacks_size, says_otherwise, size_first, sort_of,
};
use crate::tags::{add_entry, behind_uses};
use std::alloc::Global;
use stk_base::{NoMemory, Span};
use stk_ctype::{CType, NameEntry, Names};
use stk_declarators::{File, Tailed, are_scalars, declarator_uses, given_count, tail, tail_type};
use stk_tree::{Declr, Init, Storage};
use stk_type_rules::{NodeFact, Untyped};
use stk_typing::{Locals, starred};

/// What the declarators of a unit share: the input, whether the unit is marked as not returning, and its storage word.
#[derive(Clone, Copy)]
pub(crate) struct Shared<'a> {
    pub alloc: Global,
    pub bytes: &'a [u8],
    pub mark: bool,
    pub word: Option<Storage>,
}

// The name of a declarator.
fn declared_name<'a>(bytes: &'a [u8], at: Option<Span>) -> &'a [u8]
    ensures { result.now ≡ declared_name bytes.now at }
{
    match at {
        None => &[],
        Some(at) => at.text(bytes),
    }
}

// How many elements an initialiser counts for what follows the name.
fn count_for(f: &File, t: &Tailed, ty: &CType, i: &Option<Init>) -> Result<Option<u64>, NoMemory>
    ensures { (s : TailShape) → IsShape s t.now → IfOk result (λ n. n ≡ count_for f.now.bytes.now s (type_of ty.now) (maybe_initialiser (option_map view_initialiser i.now))) }
{
    match t {
        Tailed::Arrays(sizes) => given_count(
            f.alloc,
            f.bytes,
            are_scalars(sizes.as_slice(), ty),
            i,
        ),
        Tailed::Function(_, _) => Ok(None),
    }
}

// What the rules make of a declarator, with the type that its base and stars name, and what follows its name.
fn ruled(
    f: &File,
    defines: bool,
    word: Option<Storage>,
    d: &Declr,
    whole: CType,
    tailed: Tailed,
) -> Result<NodeFact, Untyped>
    requires sound { IsSound (structs_of f.now.names.now) (type_of whole) }
    requires tail { IsSoundTail (structs_of f.now.names.now) tailed }
    ensures gives { (s : TailShape) → IsShape s tailed → Answers (λ x v. fact_of v ≡ x) (finish d.now.node.number (declarator_rule (structs_of f.now.names.now) word (sort_of word s (type_of whole)) (find (declared_name f.now.bytes.now d.now.name) f.now.names.now) (maybe_initialiser (option_map view_initialiser d.now.init)) (made_for f.now.bytes.now f.now.names.now (find (declared_name f.now.bytes.now d.now.name) f.now.names.now) defines word (type_of whole) (maybe_initialiser (option_map view_initialiser d.now.init)) s))) result }
    ensures sound { IfOk result (λ v. IsSound (structs_of f.now.names.now) (type_of v.ty)) }
{
    let what = sort_of(word, &tailed, &whole);
    let count = count_for(f, &tailed, &whole, &d.init)?;
    let earlier = f.names.find(declared_name(f.bytes, d.name));
    let lacking = lacks_size(word, &d.init, &tailed, count);
    let differs = says_otherwise(f.alloc, earlier, &tailed, &whole)?;
    let made = tail_type(f.alloc, f.names, defines, count, whole, tailed);
    let made = agreement_first(differs, size_first(lacking, made));
    let made = declarator_rule(f.alloc, f.names, word, what, earlier, &d.init, made);
    settled(d.node.number, made)
}

// The entry that a declarator adds, under a base that names this type.
fn declared_entry(
    f: &File,
    mark: bool,
    defines: bool,
    word: Option<Storage>,
    ty: &CType,
    d: &Declr,
) -> Result<Option<NameEntry>, Untyped>
    requires { IsSound (structs_of f.now.names.now) (type_of ty.now) }
    ensures gives { Answers (λ es e. f.now.names.now ++ listed e ≡ es) (declarator_declared f.now.bytes.now mark defines word f.now.names.now (type_of ty.now) (view_declarator d.now)) result }
    ensures rests { IfOk result (λ e. IfSome e (RestsOn (structs_of f.now.names.now))) }
{
    let mut locals = Locals::new(f.alloc);
    let mut facts = Vec::new(f.alloc);
    let tailed = tail(f, &mut locals, &mut facts, defines, &d.tail)?;
    let whole = starred(f.alloc, d.stars, ty.copy()?)?;
    let what = sort_of(word, &tailed, &whole);
    let fact = ruled(f, defines, word, d, whole, tailed)?;
    let name = declared_name(f.bytes, d.name);
    let entry = addition(f.alloc, name, what, mark, f.names.find(name), &fact.ty)?;
    Ok(entry)
}

/// Declares what a declarator declares, of a function definition or not, under a base that names this type (C11 6.7.6).
/// Its initialiser isn't typed.
#[tactic(auto, using(crate::proofs::Extending::extending))]
pub(crate) fn declarator(
    s: &Shared,
    defines: bool,
    names: &mut Names,
    ty: &CType,
    d: &Declr,
) -> Result<(), Untyped>
    requires { IsSound (structs_of names.old) (type_of ty.now) }
    ensures gives { Answers (λ es u. names.new ≡ es) (declarator_declared s.now.bytes.now s.now.mark defines s.now.word names.old (type_of ty.now) (view_declarator d.now)) result }
    ensures extends { Extends names.old names.new }
{
    let file = File {
        alloc: s.alloc,
        bytes: s.bytes,
        names,
    };
    match declared_entry(&file, s.mark, defines, s.word, ty, d)? {
        None => {}
        Some(entry) => add_entry(names, entry)?,
    }
    Ok(())
}

/// Declares the tags that a declarator uses.
pub(crate) fn use_declarator(
    alloc: Global,
    bytes: &[u8],
    names: &mut Names,
    d: &Declr,
) -> Result<(), NoMemory>
    ensures is { OnOk result (names.new ≡ behind_uses bytes.now names.old (declarator_uses (view_declarator d.now))) }
    ensures extends { Extends names.old names.new }
{
    let mut uses = Vec::new(alloc);
    let Ok(()) = declarator_uses(d, &mut uses) else {
        return Err(NoMemory);
    };
    behind_uses(alloc, bytes, names, uses.as_slice())
}

/// Declares what declarators declare, each with those before it in force.
#[tactic(auto, using(crate::proofs::Extending::extending))]
pub(crate) fn declarators(
    s: &Shared,
    names: &mut Names,
    ty: &CType,
    list: &[Declr],
) -> Result<(), Untyped>
    requires { IsSound (structs_of names.old) (type_of ty.now) }
    ensures gives { Answers (λ es u. names.new ≡ es) (declarators_declared s.now.bytes.now s.now.mark s.now.word names.old (type_of ty.now) (declarators (map view_declarator list.now))) result }
    ensures extends { Extends names.old names.new }
{
    for d in list {
        use_declarator(s.alloc, s.bytes, names, d)?;
        declarator(s, false, names, ty, d)?;
    }
    Ok(())
}

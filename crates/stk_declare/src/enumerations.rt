//! Enumerations.

ghost use Rattle.std.specs.Prelude.{◌≡◌, ◌||◌, ◌&&◌, not, ◌+ℤ◌, ◌≤ℤ◌, pos, negsuc, IfOk, OnOk, List, map};
ghost use Rattle.std.specs.Option.{is_some};
ghost use Rattle.stk_ctype.specs.Names.{find};
ghost use Rattle.stk_ctype.specs.declared.symbol.NameEntry.{NameEntry};
ghost use Rattle.stk_ctype.specs.Structs.{structs_of};
ghost use Rattle.stk_ctype.specs.Sound.{IsSound};
ghost use Rattle.stk_ctype.specs.Types.{integer_type, type_of};
ghost use Rattle.stk_ctype.specs.declared.kind.IntKind.TheVariants.{Int};
ghost use Rattle.stk_tree.specs.View.{enumerators, view_enumerator, view_expression};
ghost use Rattle.stk_type_rules.specs.Outcome.{MakesFact};
ghost use Rattle.stk_declarators.specs.Uses.{expression_uses};
ghost use Rattle.stk_typing.specs.Typing.{expression_typed};
ghost use Rattle.stk_declare.specs.Answers.{Answers, Extends};
ghost use Rattle.stk_declare.specs.Enumerations.{is_int, counted_as, with_number, with_value, enumerator_declared, enumerators_declared, none_enumerated, tag_before, enumeration_rule, with_enumeration, enumeration_declared};
ghost use Rattle.stk_declare.specs.Shown.{based, enumerated};
ghost use Rattle.stk_declare.specs.Tags.{at_file, behind_uses};

use crate::settling::settled;
use crate::tags::{add_entry, behind_uses};
use std::alloc::Global;
use stk_base::{List, NoMemory, Span};
use stk_ctype::{CType, IntKind, NameEntry, Names, Symbol, Tag};
use stk_declarators::{expression_uses, scope};
use stk_numbers::wrap;
use stk_tree::{Enumr, Expr};
use stk_type_rules::{Broken, Constancy, NodeFact, Untyped, fact};
use stk_typing::{Locals, expression};

/// What is known behind some enumerators: the number that the next one has, whether a name stood for something before,
/// and whether a value wasn't an `int` constant.
#[derive(Clone, Copy)]
pub(crate) struct Counter {
    pub next: i128,
    pub twice: bool,
    pub improper: bool,
}

// Whether a number is an `int`.
fn is_int(number: i128) -> bool
    ensures { result ≡ is_int number }
{
    wrap(IntKind::Int, number) == number
}

// The number by which an enumerator counts in what follows: 0 where it is no `int`.
fn counted_as(number: i128) -> i128
    ensures is { result ≡ counted_as number }
    ensures least { negsuc 2147483647 ≤ℤ result }
    ensures most { result ≤ℤ pos 2147483647 }
{
    if is_int(number) { number } else { 0 }
}

// The number behind it.
fn next_number(number: i128) -> i128
    requires least { negsuc 2147483647 ≤ℤ number }
    requires most { number ≤ℤ pos 2147483647 }
    ensures { result ≡ number +ℤ pos 1 }
{
    number + 1
}

// Whether a name stood for something before this enumerator or another one.
fn is_twice(names: &Names, c: Counter, name: &[u8]) -> bool
    ensures { result ≡ (c.twice || is_some (find name.now names.now)) }
{
    c.twice || names.find(name).is_some()
}

// Whether this value or another one isn't an `int` constant.
fn is_improper(c: Counter, number: i128, proper: bool) -> bool
    ensures { result ≡ (c.improper || not (proper && is_int number)) }
{
    c.improper || !(proper && is_int(number))
}

// Declares an enumerator with this number.
#[tactic(auto, using(crate::proofs::Extending::extending))]
fn with_number(
    alloc: Global,
    names: &mut Names,
    c: Counter,
    name: &[u8],
    number: i128,
    proper: bool,
) -> Result<Counter, NoMemory>
    ensures is { IfOk result (λ v. enumerated names.new v ≡ with_number (enumerated names.old c) names.old name.now number proper) }
    ensures extends { Extends names.old names.new }
{
    let twice = is_twice(names, c, name);
    let improper = is_improper(c, number, proper);
    let value = counted_as(number);
    let next = next_number(value);
    let name = List::from_vec(Vec::from_slice(alloc, name)?);
    let symbol = Symbol::Enumerator(value);
    add_entry(names, NameEntry::Symbol { name, symbol })?;
    Ok(Counter {
        next,
        twice,
        improper,
    })
}

// Declares an enumerator whose value is this constant expression.
fn with_value(
    alloc: Global,
    names: &mut Names,
    c: Counter,
    name: &[u8],
    value: Constancy,
) -> Result<Counter, NoMemory>
    ensures is { IfOk result (λ v. enumerated names.new v ≡ with_value (enumerated names.old c) names.old name.now value) }
    ensures extends { Extends names.old names.new }
{
    match value {
        Constancy::Varies | Constancy::Violates => with_number(alloc, names, c, name, 0, false),
        Constancy::Number(number) => with_number(alloc, names, c, name, number, true),
    }
}

// The value of an expression at file scope, as a constant.
fn file_value(alloc: Global, bytes: &[u8], names: &Names, e: &Expr) -> Result<Constancy, Untyped>
    ensures { Answers (λ x v. x.constancy ≡ v) (expression_typed (at_file bytes.now names.now) (view_expression e.now)) result }
{
    let locals = Locals::new(alloc);
    let mut facts = Vec::new(alloc);
    let at = expression(&scope(alloc, bytes, names, &locals), &mut facts, e)?;
    Ok(fact(&facts, at).constancy)
}

// Declares the tags that an expression uses.
fn use_expression(alloc: Global, bytes: &[u8], names: &mut Names, e: &Expr) -> Result<(), NoMemory>
    ensures is { OnOk result (names.new ≡ behind_uses bytes.now names.old (expression_uses (view_expression e.now))) }
    ensures extends { Extends names.old names.new }
{
    let mut uses = Vec::new(alloc);
    let Ok(()) = expression_uses(e, &mut uses) else {
        return Err(NoMemory);
    };
    behind_uses(alloc, bytes, names, uses.as_slice())
}

// Declares an enumerator.
#[tactic(auto, using(crate::proofs::Extending::extending))]
fn enumerator(
    alloc: Global,
    bytes: &[u8],
    names: &mut Names,
    c: Counter,
    e: &Enumr,
) -> Result<Counter, Untyped>
    ensures gives { Answers (λ x v. enumerated names.new v ≡ x) (enumerator_declared bytes.now (enumerated names.old c) (view_enumerator e.now)) result }
    ensures extends { Extends names.old names.new }
{
    let name = e.name.text(bytes);
    match &e.value {
        None => Ok(with_number(alloc, names, c, name, c.next, true)?),
        Some(value) => {
            use_expression(alloc, bytes, names, value)?;
            let value = file_value(alloc, bytes, names, value)?;
            Ok(with_value(alloc, names, c, name, value)?)
        }
    }
}

// Declares enumerators, each with those before it in force.
#[tactic(auto, using(crate::proofs::Extending::extending))]
fn enumerators(
    alloc: Global,
    bytes: &[u8],
    names: &mut Names,
    list: &[Enumr],
) -> Result<Counter, Untyped>
    ensures gives { Answers (λ x v. enumerated names.new v ≡ x) (enumerators_declared bytes.now (none_enumerated names.old) (enumerators (map view_enumerator list.now))) result }
    ensures extends { Extends names.old names.new }
{
    let mut counter = Counter {
        next: 0,
        twice: false,
        improper: false,
    };
    for e in list {
        counter = enumerator(alloc, bytes, names, counter, e)?;
    }
    Ok(counter)
}

// What the tag of an enumeration means before it is defined.
fn tag_before(bytes: &[u8], names: &Names, tag: Option<Span>) -> Option<Tag>
    ensures { result ≡ tag_before bytes.now names.now tag }
{
    match tag {
        None => None,
        Some(at) => names.tag(at.text(bytes)),
    }
}

// What the rules make of an enumeration.
fn enumeration_rule(c: Counter, tag: Option<Tag>) -> Result<NodeFact, Broken>
    ensures fact { (es : List NameEntry) → MakesFact (enumeration_rule (enumerated es c) tag) result }
    ensures ty { IfOk result (λ f. type_of f.ty ≡ integer_type Int) }
{
    if c.twice {
        return Err(Broken::Rule(3));
    }
    if c.improper {
        return Err(Broken::Rule(5));
    }
    if tag.is_some() {
        return Err(Broken::Rule(17));
    }
    Ok(NodeFact::names_type(CType::Int(IntKind::Int)))
}

// Declares the tag of an enumeration, where it has one.
#[tactic(auto, using(crate::proofs::Extending::extending))]
fn with_enumeration(
    alloc: Global,
    bytes: &[u8],
    names: &mut Names,
    tag: Option<Span>,
) -> Result<(), NoMemory>
    ensures is { OnOk result (names.new ≡ with_enumeration bytes.now names.old tag) }
    ensures extends { Extends names.old names.new }
{
    match tag {
        None => Ok(()),
        Some(at) => {
            let tag = List::from_vec(Vec::from_slice(alloc, at.text(bytes))?);
            add_entry(names, NameEntry::Enumeration { tag })
        }
    }
}

/// Declares an enumeration with its enumerators, whose node has this number (C11 6.7.2.2).
#[tactic(auto, using(crate::proofs::Extending::extending))]
pub(crate) fn enumeration(
    alloc: Global,
    bytes: &[u8],
    names: &mut Names,
    node: u32,
    tag: Option<Span>,
    list: &[Enumr],
) -> Result<CType, Untyped>
    ensures gives { Answers (λ x t. based names.new t ≡ x) (enumeration_declared bytes.now names.old node tag (enumerators (map view_enumerator list.now))) result }
    ensures extends { Extends names.old names.new }
    ensures sound { IfOk result (λ t. IsSound (structs_of names.new) (type_of t)) }
{
    let counter = enumerators(alloc, bytes, names, list)?;
    settled(
        node,
        enumeration_rule(counter, tag_before(bytes, names, tag)),
    )?;
    with_enumeration(alloc, bytes, names, tag)?;
    Ok(CType::Int(IntKind::Int))
}

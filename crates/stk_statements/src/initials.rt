//! The initialisers of locals.

ghost use Rattle.std.specs.Prelude.{◌≡◌, ◌++◌, false, if◌then◌else◌, List, Some, None, map, IfOk, OnOk};
ghost use Rattle.std.specs.Option.{option_map};
ghost use Rattle.stk_ctype.specs.Types.{type_of};
ghost use Rattle.stk_ctype.specs.Structs.{Structs, structs_of};
ghost use Rattle.stk_ctype.specs.Sound.{IsSound};
ghost use Rattle.stk_tree.specs.Nodes.{initialiser_nodes};
ghost use Rattle.stk_tree.specs.View.{view_initialiser, maybe_initialiser};
ghost use Rattle.stk_type_rules.specs.Facts.{AreSoundFacts, fact_of};
ghost use Rattle.stk_type_rules.specs.Outcome.{Gives};
ghost use Rattle.stk_typing.specs.Locals.{AreSoundLocals, local_of};
ghost use Rattle.stk_typing.specs.declared.locals.LocalName.{LocalName};
ghost use Rattle.stk_typing.specs.Arrays.{declared_type};
ghost use Rattle.stk_typing.specs.InitialiserTyping.{initialiser_typed};
ghost use Rattle.stk_statements.specs.Places.{body_in, scope_owned};
ghost use Rattle.stk_function_types.specs.Locals.{initial_scope, initial_typed, is_local_register, is_refused, is_untyped, own_local, own_type, plain_nodes};

use crate::places::Context;
use std::alloc::Global;
use stk_base::{List, NoMemory};
use stk_ctype::{CType, Names};
use stk_nodes::initialiser_nodes;
use stk_tree::Init;
use stk_type_rules::{Broken, NodeFact, Untyped, is_scalar};
use stk_typing::{Leaves, LocalName, Locals, Scoped, Size, declared_type, initialiser};

/// A local that is declared: its name, as bytes, the number of its declarator's node, the type that its base and stars
/// name, and the sizes of its array parts.
#[derive(Clone, Copy)]
pub struct Declared<'a> {
    pub name: &'a [u8],
    pub node: u32,
    pub whole: &'a CType,
    pub sizes: &'a [Size],
}

// Puts so many nodes without a type behind the others.
fn plain_nodes(facts: &mut Vec<NodeFact>, count: usize) -> Result<(), NoMemory>
    ensures is { OnOk result (map fact_of facts.new.items ≡ map fact_of facts.old.items ++ plain_nodes count) }
    ensures sound { (structs : Structs) → AreSoundFacts structs (map fact_of facts.old.items) → OnOk result (AreSoundFacts structs (map fact_of facts.new.items)) }
{
    for _turn in 0..count {
        facts.push(NodeFact::plain())?;
    }
    Ok(())
}

// The initialiser of a `static` object.
fn untyped(alloc: Global, facts: &mut Vec<NodeFact>, i: &Init) -> Result<(), NoMemory>
    ensures is { OnOk result (map fact_of facts.new.items ≡ map fact_of facts.old.items ++ plain_nodes (initialiser_nodes (view_initialiser i.now))) }
    ensures sound { (structs : Structs) → AreSoundFacts structs (map fact_of facts.old.items) → OnOk result (AreSoundFacts structs (map fact_of facts.new.items)) }
{
    let nodes = initialiser_nodes(alloc, i)?;
    plain_nodes(facts, nodes.len())
}

// Whether a local's array parts make no type.
#[tactic(auto, using(crate::proofs::Turns::made_is, crate::proofs::Turns::refused_is))]
fn is_refused(alloc: Global, names: &Names, sizes: &[Size], whole: &CType) -> Result<bool, NoMemory>
    requires { IsSound (structs_of names.now) (type_of whole.now) }
    ensures is { IfOk result (λ b. b ≡ is_refused (declared_type (structs_of names.now) sizes.now (type_of whole.now))) }
{
    let whole = whole.copy()?;
    match declared_type(alloc, names, sizes, whole) {
        Ok(_) => Ok(false),
        Err(Broken::Rule(_)) => Ok(true),
        Err(Broken::NoMemory) => Err(NoMemory),
    }
}

// The type that a local has in its own initialiser.
fn own_type(alloc: Global, names: &Names, sizes: &[Size], whole: &CType) -> Result<CType, NoMemory>
    requires { IsSound (structs_of names.now) (type_of whole.now) }
    ensures is { IfOk result (λ t. type_of t ≡ own_type (declared_type (structs_of names.now) sizes.now (type_of whole.now))) }
    ensures sound { IfOk result (λ t. IsSound (structs_of names.now) (type_of t)) }
{
    let whole = whole.copy()?;
    match declared_type(alloc, names, sizes, whole) {
        Ok(fact) => Ok(fact.ty.copy()?),
        Err(Broken::Rule(_)) => Ok(CType::Void),
        Err(Broken::NoMemory) => Err(NoMemory),
    }
}

// A local in its own initialiser.
fn own_local(alloc: Global, names: &Names, d: &Declared) -> Result<LocalName, NoMemory>
    requires { IsSound (structs_of names.now) (type_of d.now.whole.now) }
    ensures is { IfOk result (λ l. local_of l ≡ own_local (structs_of names.now) d.now.name.now d.now.node (type_of d.now.whole.now) d.now.sizes.now) }
    ensures sound { IfOk result (λ l. IsSound (structs_of names.now) (type_of l.ty)) }
{
    let name = List::from_vec(Vec::from_slice(alloc, d.name)?);
    let ty = own_type(alloc, names, d.sizes, d.whole)?;
    Ok(LocalName {
        name,
        node: d.node,
        ty,
    })
}

// The declarator of an automatic object, where it is a register.
fn register(p: &Context, local: &LocalName) -> Option<u32>
    ensures { (ls : List LocalName) → result ≡ (if is_local_register (body_in p.now ls) false local.now.node (type_of local.now.ty) then Some local.now.node else None) }
{
    if is_scalar(&local.ty) && !p.taken.has(local.node) {
        Some(local.node)
    } else {
        None
    }
}

// The initialiser of an automatic object.
fn typed(
    p: &Context,
    locals: &mut Locals,
    facts: &mut Vec<NodeFact>,
    d: &Declared,
    i: &Init,
) -> Result<Leaves, Untyped>
    requires locals { AreSoundLocals (structs_of p.now.file.names.now) (map local_of locals.old) }
    requires sound { AreSoundFacts (structs_of p.now.file.names.now) (map fact_of facts.old.items) }
    requires whole { IsSound (structs_of p.now.file.names.now) (type_of d.now.whole.now) }
    ensures gives { Gives (λ a r. r ≡ a) (initialiser_typed (initial_scope (body_in p.now locals.old) false (own_local (structs_of p.now.file.names.now) d.now.name.now d.now.node (type_of d.now.whole.now) d.now.sizes.now)) (view_initialiser i.now)) result (map fact_of facts.old.items) (map fact_of facts.new.items) }
    ensures sound { OnOk result (AreSoundFacts (structs_of p.now.file.names.now) (map fact_of facts.new.items)) }
    ensures locals { OnOk result (locals.new ≡ locals.old) }
{
    let outer = locals.count();
    let local = own_local(p.file.alloc, p.file.names, d)?;
    let own = register(p, &local);
    locals.push(local)?;
    let leaves = within(p, locals, facts, own, i)?;
    locals.cut_to(outer);
    Ok(leaves)
}

// The same, where the local is in force.
fn within(
    p: &Context,
    locals: &Locals,
    facts: &mut Vec<NodeFact>,
    own: Option<u32>,
    i: &Init,
) -> Result<Leaves, Untyped>
    requires locals { AreSoundLocals (structs_of p.now.file.names.now) (map local_of locals.now) }
    requires sound { AreSoundFacts (structs_of p.now.file.names.now) (map fact_of facts.old.items) }
    ensures gives { Gives (λ a r. r ≡ a) (initialiser_typed (scope_owned p.now locals.now own) (view_initialiser i.now)) result (map fact_of facts.old.items) (map fact_of facts.new.items) }
    ensures sound { OnOk result (AreSoundFacts (structs_of p.now.file.names.now) (map fact_of facts.new.items)) }
{
    let s = Scoped {
        alloc: p.file.alloc,
        bytes: p.file.bytes,
        names: p.file.names,
        locals,
        own,
    };
    initialiser(&s, facts, i)
}

/// Whether the initialiser of a local isn't typed: that of a `static` object, and that of a local whose array parts
/// make no type.
pub(crate) fn is_untyped(
    alloc: Global,
    names: &Names,
    is_static: bool,
    d: &Declared,
) -> Result<bool, NoMemory>
    requires { IsSound (structs_of names.now) (type_of d.now.whole.now) }
    ensures is { IfOk result (λ b. b ≡ is_untyped is_static (declared_type (structs_of names.now) d.now.sizes.now (type_of d.now.whole.now))) }
{
    if is_static {
        return Ok(true);
    }
    is_refused(alloc, names, d.sizes, d.whole)
}

/// The initialiser of a local that is declared: what is known of its expressions.
pub(crate) fn initial(
    p: &Context,
    locals: &mut Locals,
    facts: &mut Vec<NodeFact>,
    is_untyped: bool,
    d: &Declared,
    i: &Option<Init>,
) -> Result<Leaves, Untyped>
    requires locals { AreSoundLocals (structs_of p.now.file.names.now) (map local_of locals.old) }
    requires sound { AreSoundFacts (structs_of p.now.file.names.now) (map fact_of facts.old.items) }
    requires whole { IsSound (structs_of p.now.file.names.now) (type_of d.now.whole.now) }
    ensures gives { Gives (λ a r. r ≡ a) (initial_typed (body_in p.now locals.old) is_untyped (own_local (structs_of p.now.file.names.now) d.now.name.now d.now.node (type_of d.now.whole.now) d.now.sizes.now) (maybe_initialiser (option_map view_initialiser i.now))) result (map fact_of facts.old.items) (map fact_of facts.new.items) }
    ensures sound { OnOk result (AreSoundFacts (structs_of p.now.file.names.now) (map fact_of facts.new.items)) }
    ensures locals { OnOk result (locals.new ≡ locals.old) }
{
    match i {
        None => Ok(Leaves::none()),
        Some(i) => {
            if !is_untyped {
                return typed(p, locals, facts, d, i);
            }
            untyped(p.file.alloc, facts, i)?;
            Ok(Leaves::none())
        }
    }
}

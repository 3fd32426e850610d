//! Local declarations.

ghost use Rattle.std.specs.Prelude.{◌≡◌, [], map, IfOk, OnOk};
ghost use Rattle.std.specs.Option.{option_map};
ghost use Rattle.stk_ctype.specs.Types.{type_of};
ghost use Rattle.stk_ctype.specs.Structs.{Structs, structs_of};
ghost use Rattle.stk_ctype.specs.Sound.{IsSound};
ghost use Rattle.stk_tree.specs.View.{view_declaration, view_declarator, view_dimension, view_initialiser, view_tail, declarators, dimensions, maybe_initialiser};
ghost use Rattle.stk_type_rules.specs.Facts.{AreSoundFacts, Ruled, fact_of};
ghost use Rattle.stk_type_rules.specs.Outcome.{Gives, Good, MakesFact, and_then, finish};
ghost use Rattle.stk_typing.specs.Locals.{AreSoundLocals, local_of};
ghost use Rattle.stk_typing.specs.Scope.{unevaluated};
ghost use Rattle.stk_typing.specs.Typing.{dimensions_typed};
ghost use Rattle.stk_declarators.specs.Parameters.{array_parts};
ghost use Rattle.stk_statements.specs.Places.{Begins, body_in};
ghost use Rattle.stk_function_types.specs.Locals.{complete_rule, declaration_typed, declared_rule, initial_rule, lacks_size, local_by, local_declared, local_name, local_sized, locals_declared, refused_initial};
ghost use Rattle.stk_statements.specs.Rows.{AreLocals};

use crate::initials::{Declared, initial, is_untyped};
use crate::places::Context;
use stk_base::{List, Span};
use stk_ctype::{CType, Names};
use stk_declarators::{Tailed, are_scalars, given_count, scope, tail_type};
use stk_tree::{Declaration, Declr, Dimension, Init, Tail, is_static};
use stk_type_rules::{Broken, NodeFact, Untyped, fact, is_complete, own};
use stk_typing::{
    Leaves, LocalName, Locals, Size, base, dimensions, fits, initial_refused, starred, unevaluated,
};

// The name of a declarator.
fn name_of(bytes: &[u8], at: Option<Span>) -> &[u8]
    ensures { result.now ≡ local_name bytes.now at }
{
    match at {
        None => &[],
        Some(at) => at.text(bytes),
    }
}

// The array parts of a local's declarator.
fn array_parts(t: &Tail) -> &[Dimension]
    ensures { dimensions (map view_dimension result.now) ≡ array_parts (view_tail t.now) }
{
    match t {
        Tail::Arrays(list) => list.as_slice(),
        Tail::Unspecified | Tail::NoParams | Tail::Params(_, _) => &[],
    }
}

// Whether the outermost array part has no size, also none that is counted.
fn lacks_size(count: Option<u64>, sizes: &[Size]) -> bool
    ensures { result ≡ lacks_size count sizes.now }
{
    match count {
        Some(_) => false,
        None => match sizes {
            [] => false,
            [Size::Open, _rest @ ..] => true,
            [Size::Sized(_), _rest @ ..] => false,
        },
    }
}

// What its initialiser makes of an object.
fn initial_rule(
    is_static: bool,
    i: &Option<Init>,
    leaves: Leaves,
    made: NodeFact,
) -> Result<NodeFact, Broken>
    ensures fact { MakesFact (initial_rule is_static (maybe_initialiser (option_map view_initialiser i.now)) leaves (fact_of made)) result }
    ensures sound { (structs : Structs) → IsSound structs (type_of made.ty) → IfOk result (λ f. IsSound structs (type_of f.ty)) }
{
    match i {
        None => Ok(made),
        Some(i) => match refused_initial(is_static, i, leaves, &made.ty) {
            None => Ok(made),
            Some(rule) => Err(Broken::Rule(rule)),
        },
    }
}

// The rule that an initialiser of an object of this type breaks.
fn refused_initial(is_static: bool, i: &Init, leaves: Leaves, ty: &CType) -> Option<u8>
    ensures { result ≡ refused_initial is_static (view_initialiser i.now) leaves (type_of ty.now) }
{
    if !is_static {
        initial_refused(ty, i, leaves)
    } else if fits(ty, i) {
        None
    } else {
        Some(16)
    }
}

// A local object has a complete type.
fn complete_rule(
    names: &Names,
    is_static: bool,
    i: &Option<Init>,
    leaves: Leaves,
    made: Result<NodeFact, Broken>,
) -> Result<NodeFact, Broken>
    requires { IfOk made (λ f. IsSound (structs_of names.now) (type_of f.ty)) }
    ensures fact { (r : Ruled) → MakesFact r made → MakesFact (complete_rule (structs_of names.now) is_static (maybe_initialiser (option_map view_initialiser i.now)) leaves r) result }
    ensures sound { IfOk result (λ f. IsSound (structs_of names.now) (type_of f.ty)) }
{
    match made {
        Err(broken) => Err(broken),
        Ok(fact) => {
            if !is_complete(names, &fact.ty) {
                return Err(Broken::Rule(4));
            }
            initial_rule(is_static, i, leaves, fact)
        }
    }
}

// What the rules make of a local's declarator.
fn declared_rule(
    p: &Context,
    twice: bool,
    is_static: bool,
    i: &Option<Init>,
    whole: CType,
    sizes: Vec<Size>,
    leaves: Leaves,
) -> Result<NodeFact, Broken>
    requires { IsSound (structs_of p.now.file.names.now) (type_of whole) }
    ensures fact { MakesFact (declared_rule p.now.file.bytes.now (structs_of p.now.file.names.now) twice is_static (maybe_initialiser (option_map view_initialiser i.now)) (type_of whole) sizes.items leaves) result }
    ensures sound { IfOk result (λ f. IsSound (structs_of p.now.file.names.now) (type_of f.ty)) }
{
    let scalar = are_scalars(sizes.as_slice(), &whole);
    let count = given_count(p.file.alloc, p.file.bytes, scalar, i)?;
    if twice {
        return Err(Broken::Rule(3));
    }
    if lacks_size(count, sizes.as_slice()) {
        return Err(Broken::Rule(4));
    }
    let made = tail_type(
        p.file.alloc,
        p.file.names,
        false,
        count,
        whole,
        Tailed::Arrays(sizes),
    );
    complete_rule(p.file.names, is_static, i, leaves, made)
}

// Notes a local's declarator, and brings its name into force.
fn put(
    p: &Context,
    locals: &mut Locals,
    facts: &mut Vec<NodeFact>,
    name: &[u8],
    node: u32,
    made: Result<NodeFact, Broken>,
) -> Result<(), Untyped>
    requires made { IfOk made (λ f. IsSound (structs_of p.now.file.names.now) (type_of f.ty)) }
    requires locals { AreSoundLocals (structs_of p.now.file.names.now) (map local_of locals.old) }
    requires sound { AreSoundFacts (structs_of p.now.file.names.now) (map fact_of facts.old.items) }
    ensures gives { (r : Ruled) → MakesFact r made → Gives (AreLocals (map local_of locals.old) (map local_of locals.new)) (and_then (finish node r) (λ x. Good (local_by name.now node x) [])) result (map fact_of facts.old.items) (map fact_of facts.new.items) }
    ensures sound { OnOk result (AreSoundFacts (structs_of p.now.file.names.now) (map fact_of facts.new.items)) }
    ensures locals { OnOk result (AreSoundLocals (structs_of p.now.file.names.now) (map local_of locals.new)) }
    ensures begins { OnOk result (Begins locals.old locals.new) }
{
    let at = own(facts, node, made)?;
    let ty = fact(facts, at).ty.copy()?;
    let name = List::from_vec(Vec::from_slice(p.file.alloc, name)?);
    locals.push(LocalName { name, node, ty })?;
    Ok(())
}

// Types a local's declarator behind its array parts.
fn sized(
    p: &Context,
    locals: &mut Locals,
    facts: &mut Vec<NodeFact>,
    is_static: bool,
    whole: CType,
    d: &Declr,
    sizes: Vec<Size>,
) -> Result<(), Untyped>
    requires whole { IsSound (structs_of p.now.file.names.now) (type_of whole) }
    requires locals { AreSoundLocals (structs_of p.now.file.names.now) (map local_of locals.old) }
    requires sound { AreSoundFacts (structs_of p.now.file.names.now) (map fact_of facts.old.items) }
    ensures gives { Gives (AreLocals (map local_of locals.old) (map local_of locals.new)) (local_sized (body_in p.now locals.old) is_static (local_name p.now.file.bytes.now d.now.name) d.now.node.number (type_of whole) (maybe_initialiser (option_map view_initialiser d.now.init)) sizes.items) result (map fact_of facts.old.items) (map fact_of facts.new.items) }
    ensures sound { OnOk result (AreSoundFacts (structs_of p.now.file.names.now) (map fact_of facts.new.items)) }
    ensures locals { OnOk result (AreSoundLocals (structs_of p.now.file.names.now) (map local_of locals.new)) }
    ensures begins { OnOk result (Begins locals.old locals.new) }
{
    let name = name_of(p.file.bytes, d.name);
    let node = d.node.number;
    let twice = locals.is_declared_behind(p.outer, name);
    let declared = Declared {
        name,
        node,
        whole: &whole,
        sizes: sizes.as_slice(),
    };
    let skips = is_untyped(p.file.alloc, p.file.names, is_static, &declared)?;
    let leaves = initial(p, locals, facts, skips, &declared, &d.init)?;
    let made = declared_rule(p, twice, is_static, &d.init, whole, sizes, leaves);
    put(p, locals, facts, name, node, made)
}

// The sizes of the array parts of a local's declarator.
fn part_sizes(
    p: &Context,
    locals: &Locals,
    facts: &mut Vec<NodeFact>,
    t: &Tail,
) -> Result<Vec<Size>, Untyped>
    requires locals { AreSoundLocals (structs_of p.now.file.names.now) (map local_of locals.now) }
    requires sound { AreSoundFacts (structs_of p.now.file.names.now) (map fact_of facts.old.items) }
    ensures gives { Gives (λ sizes r. r.items ≡ sizes) (dimensions_typed (unevaluated (body_in p.now locals.now).scope) (array_parts (view_tail t.now))) result (map fact_of facts.old.items) (map fact_of facts.new.items) }
    ensures sound { OnOk result (AreSoundFacts (structs_of p.now.file.names.now) (map fact_of facts.new.items)) }
{
    let s = scope(p.file.alloc, p.file.bytes, p.file.names, locals);
    dimensions(&unevaluated(&s), facts, array_parts(t))
}

// Types a local's declarator, under a base that names this type.
fn declarator(
    p: &Context,
    locals: &mut Locals,
    facts: &mut Vec<NodeFact>,
    is_static: bool,
    ty: &CType,
    d: &Declr,
) -> Result<(), Untyped>
    requires ty { IsSound (structs_of p.now.file.names.now) (type_of ty.now) }
    requires locals { AreSoundLocals (structs_of p.now.file.names.now) (map local_of locals.old) }
    requires sound { AreSoundFacts (structs_of p.now.file.names.now) (map fact_of facts.old.items) }
    ensures gives { Gives (AreLocals (map local_of locals.old) (map local_of locals.new)) (local_declared (body_in p.now locals.old) is_static (type_of ty.now) (view_declarator d.now)) result (map fact_of facts.old.items) (map fact_of facts.new.items) }
    ensures sound { OnOk result (AreSoundFacts (structs_of p.now.file.names.now) (map fact_of facts.new.items)) }
    ensures locals { OnOk result (AreSoundLocals (structs_of p.now.file.names.now) (map local_of locals.new)) }
    ensures begins { OnOk result (Begins locals.old locals.new) }
{
    let sizes = part_sizes(p, locals, facts, &d.tail)?;
    let whole = starred(p.file.alloc, d.stars, ty.copy()?)?;
    sized(p, locals, facts, is_static, whole, d, sizes)
}

// Types declarators, one after the other.
fn declarators(
    p: &Context,
    locals: &mut Locals,
    facts: &mut Vec<NodeFact>,
    is_static: bool,
    ty: &CType,
    list: &[Declr],
) -> Result<(), Untyped>
    requires ty { IsSound (structs_of p.now.file.names.now) (type_of ty.now) }
    requires locals { AreSoundLocals (structs_of p.now.file.names.now) (map local_of locals.old) }
    requires sound { AreSoundFacts (structs_of p.now.file.names.now) (map fact_of facts.old.items) }
    ensures gives { Gives (AreLocals (map local_of locals.old) (map local_of locals.new)) (locals_declared (body_in p.now locals.old) is_static (type_of ty.now) (declarators (map view_declarator list.now))) result (map fact_of facts.old.items) (map fact_of facts.new.items) }
    ensures sound { OnOk result (AreSoundFacts (structs_of p.now.file.names.now) (map fact_of facts.new.items)) }
    ensures locals { OnOk result (AreSoundLocals (structs_of p.now.file.names.now) (map local_of locals.new)) }
    ensures begins { OnOk result (Begins locals.old locals.new) }
{
    for d in list {
        declarator(p, locals, facts, is_static, ty, d)?;
    }
    Ok(())
}

/// Types a local declaration (C11 6.7): a fact for each of its nodes is put behind the others, and its names come into
/// force behind the locals; or the first node that a rule refuses, by the lowest rule that does.
pub(crate) fn declaration(
    p: &Context,
    locals: &mut Locals,
    facts: &mut Vec<NodeFact>,
    d: &Declaration,
) -> Result<(), Untyped>
    requires locals { AreSoundLocals (structs_of p.now.file.names.now) (map local_of locals.old) }
    requires sound { AreSoundFacts (structs_of p.now.file.names.now) (map fact_of facts.old.items) }
    ensures gives { Gives (AreLocals (map local_of locals.old) (map local_of locals.new)) (declaration_typed (body_in p.now locals.old) (view_declaration d.now)) result (map fact_of facts.old.items) (map fact_of facts.new.items) }
    ensures sound { OnOk result (AreSoundFacts (structs_of p.now.file.names.now) (map fact_of facts.new.items)) }
    ensures locals { OnOk result (AreSoundLocals (structs_of p.now.file.names.now) (map local_of locals.new)) }
    ensures begins { OnOk result (Begins locals.old locals.new) }
{
    let s = scope(p.file.alloc, p.file.bytes, p.file.names, locals);
    let at = base(&s, facts, &d.base)?;
    let ty = fact(facts, at).ty.copy()?;
    declarators(
        p,
        locals,
        facts,
        is_static(d.storage),
        &ty,
        d.list.as_slice(),
    )
}

//! The parameters of a function.

ghost use Rattle.std.specs.Prelude.{◌≡◌, ◌<◌, ◌||◌, ◌++◌, [], ◌∷◌, false, not, map, vec_len, IfOk, OnOk};
ghost use Rattle.std.specs.Option.{is_some};
ghost use Rattle.stk_ctype.specs.Types.{pointer_type, type_of};
ghost use Rattle.stk_ctype.specs.Structs.{Structs, structs_of};
ghost use Rattle.stk_ctype.specs.Sound.{IsSound};
ghost use Rattle.stk_tree.specs.View.{view_tail, view_parameter, view_dimension, dimensions, parameters};
ghost use Rattle.stk_type_rules.specs.Facts.{AreSoundFacts, Ruled, Fits, declares, fact_of, fact_at};
ghost use Rattle.stk_type_rules.specs.Outcome.{Gives, IsAt, MakesFact, finish};
ghost use Rattle.stk_typing.specs.Locals.{AreSoundLocals, local_of};
ghost use Rattle.stk_typing.specs.Scope.{IsSoundScope, scope_of};
ghost use Rattle.stk_typing.specs.Arrays.{starred};
ghost use Rattle.stk_typing.specs.Forms.{structs_in};
ghost use Rattle.stk_declarators.specs.Parameters.{struct_parameter, adjusted, adjusted_from, parameter_rule, is_taken, name_text, array_parts, parameter_type, parameter_typed, parameters_typed, local_from};
ghost use Rattle.stk_declarators.specs.Rows.{AreParams, AreSoundTypes, scope_with, file_scope};

use std::alloc::Global;
use stk_base::{List, NoMemory, Span};
use stk_ctype::{CType, Names, SharedType};
use stk_tree::{Declr, Dimension, Param, Tail};
use stk_type_rules::{Broken, NodeFact, Untyped, fact, is_complete, own};
use stk_typing::{
    LocalName, Locals, Scoped, Size, base, declared_type, dimensions, starred, unevaluated,
};

/// Where declarators stand: the input, and the names of file scope in force.
#[derive(Clone, Copy)]
pub struct File<'a> {
    pub alloc: Global,
    pub bytes: &'a [u8],
    pub names: &'a Names,
}

/// The names in force with these locals, in no register's initialiser.
pub fn scope<'a>(alloc: Global, bytes: &'a [u8], names: &'a Names, locals: &'a Locals) -> Scoped<'a>
    ensures is { scope_of result ≡ scope_with bytes.now names.now locals.now }
    ensures names { result.names.now ≡ names.now }
{
    Scoped {
        alloc,
        bytes,
        names,
        locals,
        own: None,
    }
}

/// Parameters: their types, in order, and whether one has no name.
#[derive(Drop)]
pub struct Params {
    pub types: Vec<CType>,
    pub unnamed: bool,
}

impl Params {
    /// No parameters. It takes no memory.
    pub fn none(alloc: Global) -> Params
        ensures types { result.types.items ≡ [] }
        ensures unnamed { result.unnamed ≡ false }
    {
        Params {
            types: Vec::new(alloc),
            unnamed: false,
        }
    }
}

// A type, declared.
fn declared(ty: &CType) -> Result<NodeFact, Broken>
    ensures fact { MakesFact (Fits (declares (type_of ty.now))) result }
    ensures sound { (structs : Structs) → IsSound structs (type_of ty.now) → IfOk result (λ f. IsSound structs (type_of f.ty)) }
{
    let ty = ty.copy()?;
    Ok(NodeFact::declares(ty))
}

// A pointer to an array's element, declared.
fn pointer(element: &SharedType) -> Result<NodeFact, Broken>
    ensures fact { MakesFact (Fits (declares (pointer_type element.now))) result }
    ensures sound { (structs : Structs) → IsSound structs element.now → IfOk result (λ f. IsSound structs (type_of f.ty)) }
{
    let element = element.share()?;
    Ok(NodeFact::declares(CType::Pointer(element)))
}

// A struct as a parameter.
fn struct_parameter(names: &Names, defines: bool, ty: &CType) -> Result<NodeFact, Broken>
    requires { IsSound (structs_of names.now) (type_of ty.now) }
    ensures fact { MakesFact (struct_parameter (structs_of names.now) defines (type_of ty.now)) result }
    ensures sound { IfOk result (λ f. IsSound (structs_of names.now) (type_of f.ty)) }
{
    if defines && !is_complete(names, ty) {
        return Err(Broken::Rule(4));
    }
    declared(ty)
}

// The type of a parameter that is declared with this type.
fn adjusted(names: &Names, defines: bool, ty: &CType) -> Result<NodeFact, Broken>
    requires { IsSound (structs_of names.now) (type_of ty.now) }
    ensures fact { MakesFact (adjusted (structs_of names.now) defines (type_of ty.now)) result }
    ensures sound { IfOk result (λ f. IsSound (structs_of names.now) (type_of f.ty)) }
{
    match ty {
        CType::Void | CType::Function(_) => Err(Broken::Rule(4)),
        CType::Int(_) | CType::Pointer(_) => declared(ty),
        CType::Array(element, _) => pointer(element),
        CType::Struct(_) => struct_parameter(names, defines, ty),
    }
}

// The same of what array parts make.
fn adjusted_from(
    names: &Names,
    defines: bool,
    made: Result<NodeFact, Broken>,
) -> Result<NodeFact, Broken>
    requires { IfOk made (λ f. IsSound (structs_of names.now) (type_of f.ty)) }
    ensures fact { (r : Ruled) → MakesFact r made → MakesFact (adjusted_from (structs_of names.now) defines r) result }
    ensures sound { IfOk result (λ f. IsSound (structs_of names.now) (type_of f.ty)) }
{
    match made {
        Err(broken) => Err(broken),
        Ok(fact) => adjusted(names, defines, &fact.ty),
    }
}

// What the rules make of a parameter's declarator, whose base names this type.
fn parameter_rule(
    s: &Scoped,
    defines: bool,
    twice: bool,
    sizes: &[Size],
    ty: CType,
) -> Result<NodeFact, Broken>
    requires { IsSound (structs_of s.now.names.now) (type_of ty) }
    ensures fact { MakesFact (parameter_rule (structs_of s.now.names.now) defines twice sizes.now (type_of ty)) result }
    ensures sound { IfOk result (λ f. IsSound (structs_of s.now.names.now) (type_of f.ty)) }
{
    if twice {
        return Err(Broken::Rule(3));
    }
    let made = declared_type(s.alloc, s.names, sizes, ty);
    adjusted_from(s.names, defines, made)
}

// Whether one of the locals has this name.
fn is_taken(s: &Scoped, name: Option<Span>) -> bool
    ensures { result ≡ is_taken (scope_of s.now).locals (name_text s.now.bytes.now name) }
{
    match name {
        None => false,
        Some(at) => s.locals.find(at.text(s.bytes)).is_some(),
    }
}

// Notes a parameter's declarator, with the place of its base.
fn by_parameter(
    s: &Scoped,
    facts: &mut Vec<NodeFact>,
    defines: bool,
    d: &Declr,
    sizes: &[Size],
    i: usize,
) -> Result<usize, Untyped>
    requires scope { IsSoundScope (scope_of s.now) }
    requires sound { AreSoundFacts (structs_of s.now.names.now) (map fact_of facts.old.items) }
    requires first { i < vec_len facts.old }
    ensures gives { Gives (IsAt (map fact_of facts.new.items)) (finish d.now.node.number (parameter_rule (structs_in (scope_of s.now)) defines (is_taken (scope_of s.now).locals (name_text s.now.bytes.now d.now.name)) sizes.now (starred d.now.stars (fact_at (map fact_of facts.old.items) i).ty))) result (map fact_of facts.old.items) (map fact_of facts.new.items) }
    ensures sound { OnOk result (AreSoundFacts (structs_of s.now.names.now) (map fact_of facts.new.items)) }
{
    let ty = starred(s.alloc, d.stars, fact(facts, i).ty.copy()?)?;
    let made = parameter_rule(s, defines, is_taken(s, d.name), sizes, ty);
    own(facts, d.node.number, made)
}

// The array parts of a parameter's declarator.
fn array_parts(t: &Tail) -> &[Dimension]
    ensures { dimensions (map view_dimension result.now) ≡ array_parts (view_tail t.now) }
{
    match t {
        Tail::Arrays(list) => list.as_slice(),
        Tail::Unspecified | Tail::NoParams | Tail::Params(_, _) => &[],
    }
}

// Types a parameter's base, array parts and declarator.
fn parameter_type(
    s: &Scoped,
    facts: &mut Vec<NodeFact>,
    defines: bool,
    p: &Param,
) -> Result<usize, Untyped>
    requires scope { IsSoundScope (scope_of s.now) }
    requires sound { AreSoundFacts (structs_of s.now.names.now) (map fact_of facts.old.items) }
    ensures gives { Gives (IsAt (map fact_of facts.new.items)) (parameter_type (scope_of s.now) defines (view_parameter p.now)) result (map fact_of facts.old.items) (map fact_of facts.new.items) }
    ensures sound { OnOk result (AreSoundFacts (structs_of s.now.names.now) (map fact_of facts.new.items)) }
{
    let i = base(s, facts, &p.base)?;
    let sizes = dimensions(&unevaluated(s), facts, array_parts(&p.declr.tail))?;
    by_parameter(s, facts, defines, &p.declr, sizes.as_slice(), i)
}

// Types a parameter.
fn parameter(
    s: &Scoped,
    facts: &mut Vec<NodeFact>,
    defines: bool,
    p: &Param,
) -> Result<usize, Untyped>
    requires scope { IsSoundScope (scope_of s.now) }
    requires sound { AreSoundFacts (structs_of s.now.names.now) (map fact_of facts.old.items) }
    ensures gives { Gives (IsAt (map fact_of facts.new.items)) (parameter_typed (scope_of s.now) defines (view_parameter p.now)) result (map fact_of facts.old.items) (map fact_of facts.new.items) }
    ensures sound { OnOk result (AreSoundFacts (structs_of s.now.names.now) (map fact_of facts.new.items)) }
{
    let i = parameter_type(s, facts, defines, p)?;
    facts.push(NodeFact::plain())?;
    Ok(i)
}

// Brings the name of a parameter into force, where it has one.
fn add_local(
    f: &File,
    locals: &mut Locals,
    name: Option<Span>,
    node: u32,
    ty: &CType,
) -> Result<(), NoMemory>
    ensures added { OnOk result (map local_of locals.new ≡ map local_of locals.old ++ local_from (name_text f.now.bytes.now name) node (type_of ty.now)) }
    ensures sound { (structs : Structs) → IsSound structs (type_of ty.now) → AreSoundLocals structs (map local_of locals.old) → OnOk result (AreSoundLocals structs (map local_of locals.new)) }
{
    let Some(at) = name else {
        return Ok(());
    };
    let name = List::from_vec(Vec::from_slice(f.alloc, at.text(f.bytes))?);
    let ty = ty.copy()?;
    locals.push(LocalName { name, node, ty })
}

// Puts a parameter's type behind the others.
fn add_type(f: &File, all: &mut Params, name: Option<Span>, ty: &CType) -> Result<(), NoMemory>
    ensures types { OnOk result (map type_of all.new.types.items ≡ map type_of all.old.types.items ++ type_of ty.now ∷ []) }
    ensures unnamed { OnOk result (all.new.unnamed ≡ (all.old.unnamed || not (is_some (name_text f.now.bytes.now name)))) }
    ensures sound { (structs : Structs) → IsSound structs (type_of ty.now) → AreSoundTypes structs all.old.types.items → OnOk result (AreSoundTypes structs all.new.types.items) }
{
    let ty = ty.copy()?;
    all.types.push(ty)?;
    match name {
        Some(_) => {}
        None => all.unnamed = true,
    }
    Ok(())
}

/// Types the parameters of a function, of a definition or not (C11 6.7.6.3): a fact for each of their nodes is put
/// behind the others, and their names come into force behind the locals. The answer is their types and whether one has
/// no name; or the first node that a rule refuses, by the lowest rule that does.
pub(crate) fn parameters(
    f: &File,
    locals: &mut Locals,
    facts: &mut Vec<NodeFact>,
    defines: bool,
    list: &[Param],
) -> Result<Params, Untyped>
    requires locals { AreSoundLocals (structs_of f.now.names.now) (map local_of locals.old) }
    requires sound { AreSoundFacts (structs_of f.now.names.now) (map fact_of facts.old.items) }
    ensures gives { Gives (AreParams (map local_of locals.old) (map local_of locals.new)) (parameters_typed (file_scope f.now locals.old) defines (parameters (map view_parameter list.now))) result (map fact_of facts.old.items) (map fact_of facts.new.items) }
    ensures sound { OnOk result (AreSoundFacts (structs_of f.now.names.now) (map fact_of facts.new.items)) }
    ensures locals { OnOk result (AreSoundLocals (structs_of f.now.names.now) (map local_of locals.new)) }
    ensures types { IfOk result (λ p. AreSoundTypes (structs_of f.now.names.now) p.types.items) }
{
    let mut all = Params::none(f.alloc);
    for p in list {
        let s = scope(f.alloc, f.bytes, f.names, locals);
        let i = parameter(&s, facts, defines, p)?;
        let ty = &fact(facts, i).ty;
        add_local(f, locals, p.declr.name, p.declr.node.number, ty)?;
        add_type(f, &mut all, p.declr.name, ty)?;
    }
    Ok(all)
}

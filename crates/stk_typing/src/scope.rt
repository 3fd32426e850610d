//! The names in force at a place of a function.

ghost use Rattle.std.specs.Prelude.{◌≡◌, IfOk, IfSome};
ghost use Rattle.std.specs.Option.{option_map, option_copied};
ghost use Rattle.stk_ctype.specs.Types.{type_of, signature_of};
ghost use Rattle.stk_ctype.specs.Structs.{Structs, structs_of};
ghost use Rattle.stk_ctype.specs.Sound.{IsSound, IsSoundSymbol, IsSoundSignature};
ghost use Rattle.stk_type_rules.specs.Facts.{Fits, place};
ghost use Rattle.stk_type_rules.specs.Outcome.{MakesFact};
ghost use Rattle.stk_typing.specs.Scope.{IsSoundScope, is_one, scope_of, local_rule, symbol_rule, name_rule, called_symbol, callee_rule, signature_named};
ghost use Rattle.stk_typing.specs.Locals.{local_of};

use crate::{LocalName, Locals};
use std::alloc::Global;
use stk_ctype::{CType, IntKind, Names, Signature, Symbol};
use stk_type_rules::{Broken, NodeFact};

/// The names in force at a place: the input, the names of file scope, the locals with the last one last, and the
/// declarator of the register whose initialiser this is, if it is one.
#[derive(Clone, Copy)]
pub struct Scoped<'a> {
    pub alloc: Global,
    pub bytes: &'a [u8],
    pub names: &'a Names,
    pub locals: &'a Locals,
    pub own: Option<u32>,
}

// Whether it is the one.
fn is_one(one: Option<u32>, node: u32) -> bool
    ensures { result ≡ is_one one node }
{
    match one {
        None => false,
        Some(own) => own == node,
    }
}

// A local's name.
fn local_rule(own: Option<u32>, local: &LocalName) -> Result<NodeFact, Broken>
    ensures fact { MakesFact (local_rule own (local_of local.now)) result }
    ensures sound { (structs : Structs) → IsSound structs (type_of local.now.ty) → IfOk result (λ f. IsSound structs (type_of f.ty)) }
{
    if is_one(own, local.node) {
        return Err(Broken::Rule(1));
    }
    let ty = local.ty.copy()?;
    let mut fact = NodeFact::place(ty);
    fact.means = Some(local.node);
    Ok(fact)
}

// An object of file scope.
fn object(ty: &CType) -> Result<NodeFact, Broken>
    ensures fact { MakesFact (Fits (place (type_of ty.now))) result }
    ensures sound { (structs : Structs) → IsSound structs (type_of ty.now) → IfOk result (λ f. IsSound structs (type_of f.ty)) }
{
    let ty = ty.copy()?;
    Ok(NodeFact::place(ty))
}

// A name of file scope that isn't called.
fn symbol_rule(symbol: Option<&Symbol>) -> Result<NodeFact, Broken>
    ensures fact { MakesFact (symbol_rule (option_copied symbol.entry)) result }
    ensures sound { (structs : Structs) → IfSome (option_copied symbol.entry) (IsSoundSymbol structs) → IfOk result (λ f. IsSound structs (type_of f.ty)) }
{
    match symbol {
        Some(Symbol::Object(ty)) => object(ty),
        Some(Symbol::Enumerator(number)) => {
            Ok(NodeFact::literal(CType::Int(IntKind::Int), *number))
        }
        Some(Symbol::Function(_)) => Err(Broken::Rule(8)),
        Some(Symbol::TypeDef(_)) | None => Err(Broken::Rule(1)),
    }
}

/// A name that isn't called: the last local of this name, or else an object or an enumerator of file scope (C11 6.5.1).
/// Rule 1 refuses a name that isn't declared, and that of a register in its own initialiser; rule 8 that of a function.
pub(crate) fn name_rule(s: &Scoped, name: &[u8]) -> Result<NodeFact, Broken>
    requires { IsSoundScope (scope_of s.now) }
    ensures fact { MakesFact (name_rule (scope_of s.now) name.now) result }
    ensures sound { IfOk result (λ f. IsSound (structs_of s.now.names.now) (type_of f.ty)) }
{
    match s.locals.find(name) {
        Some(local) => local_rule(s.own, local),
        None => symbol_rule(s.names.find(name)),
    }
}

// A name of file scope that is called.
fn called_symbol(symbol: Option<&Symbol>) -> Result<NodeFact, Broken>
    ensures fact { MakesFact (called_symbol (option_copied symbol.entry)) result }
    ensures sound { (structs : Structs) → IfSome (option_copied symbol.entry) (IsSoundSymbol structs) → IfOk result (λ f. IsSound structs (type_of f.ty)) }
{
    match symbol {
        Some(Symbol::Object(ty)) => object(ty),
        Some(Symbol::Enumerator(number)) => {
            Ok(NodeFact::literal(CType::Int(IntKind::Int), *number))
        }
        Some(Symbol::Function(_)) => Ok(NodeFact::plain()),
        Some(Symbol::TypeDef(_)) | None => Err(Broken::Rule(1)),
    }
}

/// A name that is called: as one that isn't, but that a function's name has no type (C11 6.5.2.2). Rule 1 refuses as
/// there.
pub(crate) fn callee_rule(s: &Scoped, name: &[u8]) -> Result<NodeFact, Broken>
    requires { IsSoundScope (scope_of s.now) }
    ensures fact { MakesFact (callee_rule (scope_of s.now) name.now) result }
    ensures sound { IfOk result (λ f. IsSound (structs_of s.now.names.now) (type_of f.ty)) }
{
    match s.locals.find(name) {
        Some(local) => local_rule(s.own, local),
        None => called_symbol(s.names.find(name)),
    }
}

/// The signature of the function that a name means; none where it means no function.
pub(crate) fn signature_of_name<'a>(s: &Scoped<'a>, name: &[u8]) -> Option<&'a Signature>
    ensures is { option_map signature_of (option_copied result) ≡ signature_named (scope_of s.now) name.now }
    ensures sound { IfSome (option_copied result) (λ f. IsSoundSignature (structs_of s.now.names.now) (signature_of f)) }
{
    if s.locals.find(name).is_some() {
        return None;
    }
    match s.names.find(name) {
        Some(Symbol::Function(signature)) => Some(signature),
        Some(Symbol::Object(_)) | Some(Symbol::Enumerator(_)) | Some(Symbol::TypeDef(_)) | None => {
            None
        }
    }
}

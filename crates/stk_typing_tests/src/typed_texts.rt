//! The type of an expression in a text, with some locals in force.

ghost use Rattle.std.specs.Prelude.{◌≡◌, ◌≤◌, [], IfOk, OnOk, length, map};
ghost use Rattle.stk_base.specs.Limits.{most_bytes};
ghost use Rattle.stk_ctype.specs.Types.{type_of};
ghost use Rattle.stk_ctype.specs.Structs.{Structs};
ghost use Rattle.stk_ctype.specs.Sound.{IsSound};
ghost use Rattle.stk_typing.specs.Locals.{AreSoundLocals, local_of};

use crate::tables::{add, add_number};
use std::alloc::Global;
use stk_base::{Boxed, List, NoMemory};
use stk_ctype::{CType, IntKind, Names, SharedType, Signature};
use stk_expr::{Parse, expr};
use stk_lex::{Token, lex};
use stk_tree::Expr;
use stk_type_rules::{Constancy, NodeFact, Untyped};
use stk_typing::{LocalName, Locals, Scoped, expression};

// An array of three integers.
#[tactic(auto, using(crate::proofs::Locals::three_sound))]
fn three_integers(alloc: Global) -> Result<CType, NoMemory>
    ensures { (structs : Structs) → IfOk result (λ t. IsSound structs (type_of t)) }
{
    let element = SharedType::new(alloc, CType::Int(IntKind::Int))?;
    Ok(CType::Array(element, Some(3)))
}

// The types of the locals, in this order: `int`, `unsigned`, `unsigned char`, `long`, `int *`, `void *`, `int [3]`.
pub(crate) fn type_at(alloc: Global, i: u32) -> Result<CType, NoMemory>
    ensures { (structs : Structs) → IfOk result (λ t. IsSound structs (type_of t)) }
{
    match i {
        0 => Ok(CType::Int(IntKind::Int)),
        1 => Ok(CType::Int(IntKind::UInt)),
        2 => Ok(CType::Int(IntKind::UChar)),
        3 => Ok(CType::Int(IntKind::Long)),
        4 => Ok(CType::Pointer(SharedType::new(alloc, CType::Int(IntKind::Int))?)),
        5 => Ok(CType::Pointer(SharedType::new(alloc, CType::Void)?)),
        _ => three_integers(alloc),
    }
}

// The names of the locals, in this order.
fn name_at(i: u32) -> &'static [u8] {
    match i {
        0 => b"x",
        1 => b"u",
        2 => b"c",
        3 => b"l",
        4 => b"p",
        5 => b"v",
        _ => b"a",
    }
}

// Adds the local of a number.
fn add_local(alloc: Global, locals: &mut Locals, i: u32) -> Result<(), NoMemory>
    ensures { (structs : Structs) → AreSoundLocals structs (map local_of locals.old) → OnOk result (AreSoundLocals structs (map local_of locals.new)) }
{
    let ty = type_at(alloc, i)?;
    let name = List::from_vec(Vec::from_slice(alloc, name_at(i))?);
    locals.push(LocalName { name, node: i, ty })
}

// The locals.
pub(crate) fn locals(alloc: Global) -> Result<Locals, NoMemory>
    ensures { (structs : Structs) → IfOk result (λ ls. AreSoundLocals structs (map local_of ls)) }
{
    let mut locals = Locals::new(alloc);
    for i in 0..7u32 {
        add_local(alloc, &mut locals, i)?;
    }
    Ok(locals)
}

// The name of an integer kind.
fn kind_text(kind: IntKind) -> &'static [u8] {
    match kind {
        IntKind::Bool => b"_Bool",
        IntKind::Char => b"char",
        IntKind::SChar => b"signed char",
        IntKind::UChar => b"unsigned char",
        IntKind::Short => b"short",
        IntKind::UShort => b"unsigned short",
        IntKind::Int => b"int",
        IntKind::UInt => b"unsigned int",
        IntKind::Long => b"long",
        IntKind::ULong => b"unsigned long",
        IntKind::LLong => b"long long",
        IntKind::ULLong => b"unsigned long long",
    }
}

// The number of elements of an array, where it is known.
fn add_count(out: &mut Vec<u8>, count: Option<u64>) {
    if let Some(count) = count {
        add_number(out, b"", i128::from(count));
        add(out, b" ");
    }
}

// A type in words; of the parameters of a function only how many they are, and whether it takes more.
pub(crate) fn add_type(out: &mut Vec<u8>, ty: &CType) {
    match ty {
        CType::Void => add(out, b"void"),
        CType::Int(kind) => add(out, kind_text(*kind)),
        CType::Pointer(inner) => {
            add(out, b"pointer to ");
            add_type(out, inner.get());
        }
        CType::Array(inner, count) => {
            add(out, b"array of ");
            add_count(out, *count);
            add_type(out, inner.get());
        }
        CType::Struct(_) => add(out, b"struct"),
        CType::Function(f) => add_signature(out, f.get()),
    }
}

// A function's type in words.
fn add_signature(out: &mut Vec<u8>, f: &Signature) {
    add_number(out, b"function of ", f.params.len() as i128);
    if f.more {
        add(out, b" and more");
    }
}

// A rule by its number.
pub(crate) fn add_rule(out: &mut Vec<u8>, rule: u8) {
    add_number(out, b"rule ", i128::from(rule));
}

// What a fact says: its type in words, ` lvalue` behind it where it is one, and behind a colon its number where it is
// constant, or that it violates a condition.
fn add_fact(out: &mut Vec<u8>, fact: &NodeFact) {
    add_type(out, &fact.ty);
    if fact.lvalue {
        add(out, b" lvalue");
    }
    match fact.constancy {
        Constancy::Varies => {}
        Constancy::Violates => add(out, b": violates"),
        Constancy::Number(number) => add_number(out, b": ", number),
    }
}

// Types a tree over no names of file scope, and adds what is said of it, or the rule that refuses a node of it.
#[tactic(auto, using(crate::proofs::Locals::nothing))]
fn add_tree(
    alloc: Global,
    bytes: &[u8],
    names: &Names,
    e: &Expr,
    out: &mut Vec<u8>,
) -> Result<(), NoMemory>
    requires { names.now ≡ [] }
{
    let locals = locals(alloc)?;
    let scope = Scoped {
        alloc,
        bytes,
        names,
        locals: &locals,
        own: None,
    };
    let mut facts = Vec::new(alloc);
    match expression(&scope, &mut facts, e) {
        Ok(at) => {
            if let Some(fact) = facts.get(at) {
                add_fact(out, fact);
            }
        }
        Err(Untyped::Rule { rule, .. }) => add_rule(out, rule),
        Err(Untyped::NoMemory) => return Err(NoMemory),
    }
    Ok(())
}

// The expression that some tokens begin with, in a box, and where it ends.
fn boxed(
    alloc: Global,
    bytes: &[u8],
    tokens: &[Token],
    names: &Names,
) -> Result<(Boxed<Expr>, usize), Parse>
    requires { length tokens.now ≤ most_bytes }
{
    let (tree, end) = expr(alloc, bytes, tokens, names, 0, 1)?;
    Ok((Boxed::new(alloc, tree)?, end))
}

// Adds what typing says of the expression that a text is.
fn add_expression(alloc: Global, bytes: &[u8], out: &mut Vec<u8>) -> Result<(), Parse> {
    if bytes.len() > 16_777_216 {
        return Err(Parse::NoTree);
    }
    let tokens = lex(alloc, bytes)?;
    let names = Names::new(alloc);
    let (tree, end) = boxed(alloc, bytes, tokens.as_slice(), &names)?;
    if end < tokens.len() {
        return Err(Parse::NoTree);
    }
    Ok(add_tree(alloc, bytes, &names, tree.get(), out)?)
}

/// Adds what typing says of the expression that a text is; `no tree` where it is none.
pub(crate) fn add_typed(alloc: Global, text: &[u8], out: &mut Vec<u8>) {
    match add_expression(alloc, text, out) {
        Ok(()) => {}
        Err(Parse::NoTree) => add(out, b"no tree"),
        Err(Parse::NoMemory) => add(out, b"no memory"),
    }
}

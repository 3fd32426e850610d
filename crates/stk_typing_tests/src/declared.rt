//! What a declarator in a text declares.

ghost use Rattle.std.specs.Prelude.{◌≡◌, ◌≤◌, [], length, map};
ghost use Rattle.stk_base.specs.Limits.{most_bytes};
ghost use Rattle.stk_ctype.specs.Structs.{structs_of};
ghost use Rattle.stk_type_rules.specs.Facts.{AreSoundFacts, fact_of};
ghost use Rattle.stk_typing.specs.Locals.{AreSoundLocals, local_of};

use crate::tables::add;
use crate::typed_texts::{add_rule, add_type};
use std::alloc::Global;
use stk_base::{Boxed, NoMemory};
use stk_compatible::{Agreement, agree};
use stk_ctype::{CType, Names};
use stk_decl::decl;
use stk_declarators::{File, Tailed, are_scalars, given_count, scope, tail, tail_type};
use stk_expr::Parse;
use stk_lex::{Token, lex};
use stk_tree::{Base, Declaration, Declr, Init};
use stk_type_rules::{NodeFact, Untyped, fact, own};
use stk_typing::{Locals, base, starred};

// How many elements an initialiser counts for what follows the name.
fn count_for(f: &File, t: &Tailed, ty: &CType, i: &Option<Init>) -> Result<Option<u64>, NoMemory> {
    match t {
        Tailed::Arrays(sizes) => {
            given_count(f.alloc, f.bytes, are_scalars(sizes.as_slice(), ty), i)
        }
        Tailed::Function(_, _) => Ok(None),
    }
}

// Types a base and a declarator: the place of the declarator's fact.
fn declarator(
    f: &File,
    locals: &mut Locals,
    facts: &mut Vec<NodeFact>,
    b: &Base,
    d: &Declr,
) -> Result<usize, Untyped>
    requires locals { AreSoundLocals (structs_of f.now.names.now) (map local_of locals.old) }
    requires sound { AreSoundFacts (structs_of f.now.names.now) (map fact_of facts.old.items) }
{
    let i = base(&scope(f.alloc, f.bytes, f.names, locals), facts, b)?;
    let named = fact(facts, i).ty.copy()?;
    let ty = starred(f.alloc, d.stars, named)?;
    let t = tail(f, locals, facts, false, &d.tail)?;
    let count = count_for(f, &t, &ty, &d.init)?;
    let made = tail_type(f.alloc, f.names, false, count, ty, t);
    own(facts, d.node.number, made)
}

// The type that a declarator declares over no names of file scope, or the rule that refuses one of its nodes.
#[tactic(auto, using(crate::proofs::Locals::nothing))]
fn declared_by(
    alloc: Global,
    bytes: &[u8],
    names: &Names,
    b: &Base,
    d: &Declr,
) -> Result<Result<CType, u8>, NoMemory>
    requires { names.now ≡ [] }
{
    let mut locals = Locals::new(alloc);
    let mut facts = Vec::new(alloc);
    let f = File {
        alloc,
        bytes,
        names,
    };
    match declarator(&f, &mut locals, &mut facts, b, d) {
        Ok(at) => match facts.get(at) {
            Some(fact) => Ok(Ok(fact.ty.copy()?)),
            None => Ok(Err(0)),
        },
        Err(Untyped::Rule { rule, .. }) => Ok(Err(rule)),
        Err(Untyped::NoMemory) => Err(NoMemory),
    }
}

// The same of the first declarator of a declaration; rule 0 where it has none.
fn first_declared(
    alloc: Global,
    bytes: &[u8],
    names: &Names,
    tree: &Declaration,
) -> Result<Result<CType, u8>, NoMemory>
    requires { names.now ≡ [] }
{
    match tree.list.as_slice().first() {
        Some(d) => declared_by(alloc, bytes, names, &tree.base, d),
        None => Ok(Err(0)),
    }
}

/// The declaration that some tokens begin with, in a box, which is let go at once.
pub(crate) fn declaration(
    alloc: Global,
    bytes: &[u8],
    tokens: &[Token],
    names: &Names,
    file: bool,
) -> Result<Boxed<Declaration>, Parse>
    requires { length tokens.now ≤ most_bytes }
{
    let (tree, _) = decl(alloc, bytes, tokens, names, 0, file)?;
    Ok(Boxed::new(alloc, tree)?)
}

// The same of the declaration that a text is; rule 0 where it is none.
fn declared_type(alloc: Global, bytes: &[u8]) -> Result<Result<CType, u8>, NoMemory> {
    if bytes.len() > 16_777_216 {
        return Ok(Err(0));
    }
    let tokens = lex(alloc, bytes)?;
    let names = Names::new(alloc);
    match declaration(alloc, bytes, tokens.as_slice(), &names, true) {
        Ok(tree) => first_declared(alloc, bytes, &names, tree.get()),
        Err(_) => Ok(Err(0)),
    }
}

/// Adds in words the type that the first declarator of a text declares, or the rule that refuses one of its nodes.
pub(crate) fn add_declared(alloc: Global, text: &[u8], out: &mut Vec<u8>) {
    match declared_type(alloc, text) {
        Ok(Ok(ty)) => add_type(out, &ty),
        Ok(Err(rule)) => add_rule(out, rule),
        Err(_) => add(out, b"no memory"),
    }
}

// How the types agree that the first declarators of two texts declare; nothing where one declares none.
fn agreement(alloc: Global, old: &[u8], new: &[u8]) -> Result<Option<Agreement>, NoMemory> {
    let old = declared_type(alloc, old)?;
    let new = declared_type(alloc, new)?;
    match (&old, &new) {
        (Ok(old), Ok(new)) => Ok(Some(agree(alloc, old, new)?)),
        _ => Ok(None),
    }
}

/// Adds how the types agree that the first declarators of two texts declare.
pub(crate) fn add_agreement(alloc: Global, old: &[u8], new: &[u8], out: &mut Vec<u8>) {
    add(
        out,
        match agreement(alloc, old, new) {
            Ok(Some(Agreement::Differ)) => b" differ",
            Ok(Some(Agreement::Old)) => b" old",
            Ok(Some(Agreement::New)) => b" new",
            Ok(None) => b" no type",
            Err(_) => b" no memory",
        },
    )
}

//! What typing says of an initialiser in a text.

ghost use Rattle.std.specs.Prelude.{◌≡◌, []};

use crate::declared::declaration;
use crate::tables::add;
use crate::typed_texts::{add_rule, locals, type_at};
use std::alloc::Global;
use stk_base::NoMemory;
use stk_ctype::{CType, IntKind, Names, SharedType};
use stk_expr::Parse;
use stk_lex::lex;
use stk_tree::{Declaration, Init};
use stk_type_rules::Untyped;
use stk_typing::{Scoped, initial_refused, initialiser};

// The number of the type of an array of three characters; those below are the types of the locals.
const CHARACTERS: u32 = 7;

/// The number of the type of an object, by its name.
pub(crate) fn object_number(name: &str) -> Option<u32> {
    match name {
        "int" => Some(0),
        "int *" => Some(4),
        "int [3]" => Some(6),
        "char [3]" => Some(CHARACTERS),
        _ => None,
    }
}

// The type of an object, by its number.
fn object_at(alloc: Global, i: u32) -> Result<CType, NoMemory> {
    if i < CHARACTERS {
        return type_at(alloc, i);
    }
    let element = SharedType::new(alloc, CType::Int(IntKind::Char))?;
    Ok(CType::Array(element, Some(3)))
}

// Types an initialiser over no names of file scope, and asks whether it fits.
#[tactic(auto, using(crate::proofs::Locals::nothing))]
fn refused(
    alloc: Global,
    bytes: &[u8],
    names: &Names,
    object: u32,
    i: &Init,
) -> Result<Option<u8>, NoMemory>
    requires { names.now ≡ [] }
{
    let locals = locals(alloc)?;
    let scope = Scoped {
        alloc,
        bytes,
        names,
        locals: &locals,
        own: None,
    };
    let mut facts = Vec::new(alloc);
    match initialiser(&scope, &mut facts, i) {
        Ok(leaves) => {
            let ty = object_at(alloc, object)?;
            Ok(initial_refused(&ty, i, leaves))
        }
        Err(Untyped::Rule { rule, .. }) => Ok(Some(rule)),
        Err(Untyped::NoMemory) => Err(NoMemory),
    }
}

// The same of a declaration's first declarator; nothing where it has no initialiser.
fn first_refused(
    alloc: Global,
    bytes: &[u8],
    names: &Names,
    object: u32,
    declaration: &Declaration,
) -> Result<Option<u8>, NoMemory>
    requires { names.now ≡ [] }
{
    if let Some(declr) = declaration.list.as_slice().first() {
        if let Some(init) = &declr.init {
            return refused(alloc, bytes, names, object, init);
        }
    }
    Ok(None)
}

// The same of the initialiser that a text is, behind `int z =` and before `;`.
fn text_refused(alloc: Global, bytes: &[u8], object: u32) -> Result<Option<u8>, Parse> {
    if bytes.len() > 16_777_216 {
        return Err(Parse::NoTree);
    }
    let tokens = lex(alloc, bytes)?;
    let names = Names::new(alloc);
    let tree = declaration(alloc, bytes, tokens.as_slice(), &names, false)?;
    Ok(first_refused(alloc, bytes, &names, object, tree.get())?)
}

/// Adds the rule that the initialiser that a text is breaks, for an object of the type with this number; nothing where
/// it breaks none, and `no tree` where the text is no initialiser.
pub(crate) fn add_initialised(alloc: Global, object: u32, text: &str, out: &mut Vec<u8>) {
    let mut bytes = Vec::new(alloc);
    add(&mut bytes, b"int z = ");
    add(&mut bytes, text.as_bytes());
    add(&mut bytes, b";");
    match text_refused(alloc, bytes.as_slice(), object) {
        Ok(Some(rule)) => {
            add(out, b" ");
            add_rule(out, rule)
        }
        Ok(None) => {}
        Err(Parse::NoTree) => add(out, b" no tree"),
        Err(Parse::NoMemory) => add(out, b" no memory"),
    }
}

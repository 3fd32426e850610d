//! What a unit declares.

ghost use Rattle.std.specs.Prelude.{◌≡◌, ◌++◌, OnErr, OnOk};
ghost use Rattle.std.specs.Option.{is_some};
ghost use Rattle.stk_ctype.specs.Structs.{structs_of};
ghost use Rattle.stk_ctype.specs.Sound.{Keeps};
ghost use Rattle.stk_tree.specs.View.{view_base, view_declaration, view_declarator, view_function, view_unit};
ghost use Rattle.stk_type_rules.specs.Facts.{plain};
ghost use Rattle.stk_type_rules.specs.Outcome.{finish};
ghost use Rattle.stk_declarators.specs.Uses.{base_uses, declarator_uses};
ghost use Rattle.stk_declare.specs.Answers.{Answers, Extends};
ghost use Rattle.stk_declare.specs.Declaring.{declaration_declared, definition_declared, definition_rule, definition_word, head_declared, unit_declared};
ghost use Rattle.stk_declare.specs.Tags.{behind_uses};

use crate::declarators::{Shared, declarator, declarators};
use crate::structs::{base, named_base};
use crate::tags::behind_uses;
use std::alloc::Global;
use stk_base::NoMemory;
use stk_ctype::Names;
use stk_declarators::{base_uses, declarator_uses};
use stk_tree::{Base, Declaration, Declr, Function, Storage, Unit};
use stk_type_rules::Untyped;

// Declares what a declaration declares.
#[tactic(auto, using(crate::proofs::Extending::extending))]
fn declaration(
    alloc: Global,
    bytes: &[u8],
    mark: bool,
    names: &mut Names,
    d: &Declaration,
) -> Result<(), Untyped>
    ensures gives { Answers (λ es u. names.new ≡ es) (declaration_declared bytes.now mark names.old (view_declaration d.now)) result }
    ensures extends { Extends names.old names.new }
{
    let ty = base(alloc, bytes, names, &d.base)?;
    let shared = Shared {
        alloc,
        bytes,
        mark,
        word: d.storage,
    };
    declarators(&shared, names, &ty, d.list.as_slice())
}

// The storage word of a function definition.
fn definition_rule(node: u32, word: Option<Storage>) -> Result<(), Untyped>
    ensures { Answers (λ x u. x ≡ plain) (finish node (definition_rule word)) result }
{
    match word {
        Some(Storage::Typedef) => Err(Untyped::Rule { node, rule: 15 }),
        None | Some(Storage::Extern) | Some(Storage::Static) => Ok(()),
    }
}

// The storage word that a definition's declarator goes by.
fn definition_word(word: Option<Storage>) -> Option<Storage>
    ensures { result ≡ definition_word word }
{
    match word {
        None | Some(Storage::Typedef) => None,
        Some(Storage::Extern) => Some(Storage::Extern),
        Some(Storage::Static) => Some(Storage::Static),
    }
}

// Declares the tags that the head of a function definition uses.
fn use_head(
    alloc: Global,
    bytes: &[u8],
    names: &mut Names,
    b: &Base,
    d: &Declr,
) -> Result<(), NoMemory>
    ensures is { OnOk result (names.new ≡ behind_uses bytes.now names.old (base_uses (view_base b.now) ++ declarator_uses (view_declarator d.now))) }
    ensures extends { Extends names.old names.new }
{
    let mut uses = Vec::new(alloc);
    let Ok(()) = base_uses(b, &mut uses) else {
        return Err(NoMemory);
    };
    let Ok(()) = declarator_uses(d, &mut uses) else {
        return Err(NoMemory);
    };
    behind_uses(alloc, bytes, names, uses.as_slice())
}

// Declares the head of a function definition, whose unit has this number, with the struct tags in force that it uses.
#[tactic(auto, using(crate::proofs::Extending::extending))]
fn head(s: &Shared, node: u32, names: &mut Names, b: &Base, d: &Declr) -> Result<(), Untyped>
    ensures gives { Answers (λ es u. names.new ≡ es) (head_declared s.now.bytes.now s.now.mark node names.old s.now.word (view_base b.now) (view_declarator d.now)) result }
    ensures extends { Extends names.old names.new }
{
    let ty = named_base(s.bytes, names, b)?;
    let shared = Shared {
        alloc: s.alloc,
        bytes: s.bytes,
        mark: s.mark,
        word: definition_word(s.word),
    };
    declarator(&shared, true, names, &ty, d)?;
    definition_rule(node, s.word)
}

// Declares the head of a function definition.
#[tactic(auto, using(crate::proofs::Extending::extending))]
fn definition(
    alloc: Global,
    bytes: &[u8],
    mark: bool,
    node: u32,
    names: &mut Names,
    f: &Function,
) -> Result<(), Untyped>
    ensures gives { Answers (λ es u. names.new ≡ es) (definition_declared bytes.now mark node names.old (view_function f.now)) result }
    ensures extends { Extends names.old names.new }
{
    use_head(alloc, bytes, names, &f.base, &f.declr)?;
    let shared = Shared {
        alloc,
        bytes,
        mark,
        word: f.storage,
    };
    head(&shared, node, names, &f.base, &f.declr)
}

// Declares what a unit declares, and may leave a part of it behind a refusal.
fn unit_declared(
    alloc: Global,
    bytes: &[u8],
    unit: &Unit,
    mark: bool,
    names: &mut Names,
) -> Result<(), Untyped>
    ensures gives { Answers (λ es u. names.new ≡ es) (unit_declared bytes.now mark names.old (view_unit unit.now)) result }
    ensures extends { Extends names.old names.new }
{
    match unit {
        Unit::Empty(_) => Ok(()),
        Unit::Declares(_, d) => declaration(alloc, bytes, mark, names, d),
        Unit::Defines(node, f) => definition(alloc, bytes, mark, node.number, names, f),
    }
}

/// Declares what a unit declares: what a declaration does, or the head of a function definition (C11 6.7, 6.9). The
/// text is the input, in which the tree has its spans; `no_return` says that the unit is marked as one of functions
/// that don't return.
///
/// Ok puts exactly the entries of `unit_declared` behind those in force: structs and their members, enumerations with
/// their enumerators, typedef names, objects and functions. `Rule` names the first node that a rule refuses, in the
/// order of the numbers, and the lowest rule that does. After any refusal the names are as before.
pub fn declare(
    alloc: Global,
    bytes: &[u8],
    unit: &Unit,
    no_return: bool,
    names: &mut Names,
) -> Result<(), Untyped>
    ensures gives { Answers (λ es u. names.new ≡ es) (unit_declared bytes.now no_return names.old (view_unit unit.now)) result }
    ensures kept { OnErr result (names.new ≡ names.old) }
    ensures keeps { OnOk result (Keeps (structs_of names.old) (structs_of names.new)) }
{
    let count = names.count();
    match unit_declared(alloc, bytes, unit, no_return, names) {
        Ok(()) => Ok(()),
        Err(why) => {
            names.cut_to(count);
            Err(why)
        }
    }
}

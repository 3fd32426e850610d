//! Tags that are declared by their use.

ghost use Rattle.std.specs.Prelude.{◌≡◌, ◌∷◌, [], ◌++◌, if◌then◌else◌, IfOk, List, OnOk};
ghost use Rattle.stk_declarators.specs.declared.uses.TagUse.{TagUse};
ghost use Rattle.stk_ctype.specs.Names.{tag_of};
ghost use Rattle.stk_ctype.specs.Structs.{structs_of};
ghost use Rattle.stk_ctype.specs.Sound.{RestsOn};
ghost use Rattle.stk_declare.specs.Answers.{Extends};
ghost use Rattle.stk_declare.specs.Tags.{with_struct, behind_uses};

use std::alloc::Global;
use stk_base::{List, NoMemory};
use stk_ctype::{NameEntry, Names};
use stk_declarators::TagUse;

/// Adds an entry. A unit adds at most one for each of its tokens, so there is always room, and none is refused for want
/// of it.
pub(crate) fn add_entry(names: &mut Names, entry: NameEntry) -> Result<(), NoMemory>
    requires { RestsOn (structs_of names.old) entry }
    ensures added { OnOk result (names.new ≡ names.old ++ entry ∷ []) }
    ensures extends { Extends names.old names.new }
{
    if names.count() == u32::MAX {
        return Err(NoMemory);
    }
    names.add(entry)
}

// Declares the struct of a tag, where the tag means nothing yet.
#[tactic(auto, using(crate::proofs::Extending::extending))]
fn with_struct(alloc: Global, names: &mut Names, name: &[u8]) -> Result<(), NoMemory>
    ensures is { OnOk result (names.new ≡ with_struct names.old name.now (tag_of name.now names.old)) }
    ensures extends { Extends names.old names.new }
{
    match names.tag(name) {
        Some(_) => Ok(()),
        None => {
            let tag = List::from_vec(Vec::from_slice(alloc, name)?);
            add_entry(names, NameEntry::Struct { tag: Some(tag) })
        }
    }
}

// Declares the struct of a tag that is used, and tells whether to go on: not behind an enumeration's tag that isn't
// declared.
#[tactic(auto, using(crate::proofs::Extending::extending))]
fn with_use(alloc: Global, bytes: &[u8], names: &mut Names, tag: TagUse) -> Result<bool, NoMemory>
    ensures is { IfOk result (λ on. (us : List TagUse) → behind_uses bytes.now names.old (tag ∷ us) ≡ (if on then behind_uses bytes.now names.new us else names.new)) }
    ensures extends { Extends names.old names.new }
{
    match tag {
        TagUse::Struct(at) => {
            with_struct(alloc, names, at.text(bytes))?;
            Ok(true)
        }
        TagUse::Enumeration(at) => Ok(names.tag(at.text(bytes)).is_some()),
    }
}

/// Declares the struct tags that are used, in order, up to the use of an enumeration whose tag isn't declared (C11
/// 6.7.2.3p8). The text is the input, in which tags have their spans. What was in force stays so.
#[tactic(auto, using(crate::proofs::Extending::extending))]
pub(crate) fn behind_uses(
    alloc: Global,
    bytes: &[u8],
    names: &mut Names,
    uses: &[TagUse],
) -> Result<(), NoMemory>
    ensures is { OnOk result (names.new ≡ behind_uses bytes.now names.old uses.now) }
    ensures extends { Extends names.old names.new }
{
    for tag in uses {
        if !with_use(alloc, bytes, names, *tag)? {
            return Ok(());
        }
    }
    Ok(())
}

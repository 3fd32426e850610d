// Kinds of undefined behaviour as a line names them.
ghost use Rattle.std.specs.Prelude.{◌≡◌, ◌++◌, ◌∷◌, MatchOption, List, IfOk, IfErr};
ghost use Rattle.stk_numbers.specs.declared.conditions.UbKind.{UbKind as Named};
ghost use Rattle.stk_proofs.specs.declared.text.Text.TheVariants as texts;
ghost use Rattle.stk_records.specs.Kinds.{kind_name};
ghost use Rattle.stk_bundle.specs.Kinds.{more_kinds, kinds_text, is_listed, StandOnce, AreKinds};

use crate::writing::add;
use std::alloc::Global;
use stk_base::{List, NoMemory};
use stk_line_reading::cut_at;
use stk_numbers::UbKind;
use stk_proofs::Text;

/// The name of a kind.
fn name_of(kind: UbKind) -> &'static [u8]
    ensures { result.now ≡ kind_name kind }
{
    match kind {
        UbKind::Overflow => b"overflow",
        UbKind::Zero => b"zero",
        UbKind::Shift => b"shift",
        UbKind::Null => b"null",
        UbKind::Pointer => b"pointer",
        UbKind::Bounds => b"bounds",
        UbKind::AbsValue => b"abs",
        UbKind::Overlap => b"copy",
    }
}

/// The kind of a name; `None` exactly where a text is no name.
fn kind_of(name: &[u8]) -> Option<UbKind>
    ensures { MatchOption result ((k : Named) → name.now ≡ kind_name k → ⊥) (λ k. name.now ≡ kind_name k) }
{
    match name {
        b"overflow" => Some(UbKind::Overflow),
        b"zero" => Some(UbKind::Zero),
        b"shift" => Some(UbKind::Shift),
        b"null" => Some(UbKind::Null),
        b"pointer" => Some(UbKind::Pointer),
        b"bounds" => Some(UbKind::Bounds),
        b"abs" => Some(UbKind::AbsValue),
        b"copy" => Some(UbKind::Overlap),
        _ => None,
    }
}

/// Whether a kind is among these.
fn is_listed(kinds: &[UbKind], kind: UbKind) -> bool
    ensures { result ≡ is_listed kinds.now kind }
{
    kinds.iter().any(|other| other.number() == kind.number())
}

/// Adds the names of kinds, each with a comma in front.
fn add_more_kinds(text: &mut Vec<u8>, kinds: &[UbKind]) -> Result<(), NoMemory>
    ensures { IfOk result (λ _. text.new.items ≡ text.old.items ++ more_kinds kinds.now) }
{
    for kind in kinds {
        add(text, b",")?;
        add(text, name_of(*kind))?;
    }
    Ok(())
}

/// Adds the names of kinds with a comma between each two, or `-` where there are none.
pub(crate) fn add_kinds(text: &mut Vec<u8>, kinds: &[UbKind]) -> Result<(), NoMemory>
    ensures { IfOk result (λ _. text.new.items ≡ text.old.items ++ kinds_text kinds.now) }
{
    match kinds.split_first() {
        Some((kind, others)) => {
            add(text, name_of(*kind))?;
            add_more_kinds(text, others)
        }
        None => add(text, b"-"),
    }
}

/// The kinds that a text names, with a comma between each two and each of them once, or none by `-`; `Bad` exactly
/// where it is no such text.
fn kinds_in(alloc: Global, text: &[u8]) -> Result<List<UbKind>, Text>
    ensures ok { IfOk result (AreKinds text.now) }
    ensures bad { IfErr result (λ fault. fault ≡ texts.Bad → (ks : List Named) → AreKinds text.now ks → ⊥) }
{
    let mut kinds = Vec::new(alloc);
    if text == b"-".as_slice() {
        return Ok(List::from_vec(kinds));
    }
    let mut left = text;
    'names: loop {
        let (name, behind) = cut_at(left, b',');
        let Some(kind) = kind_of(name) else {
            return Err(Text::Bad);
        };
        if is_listed(&kinds, kind) {
            return Err(Text::Bad);
        }
        kinds.push(kind)?;
        match behind.split_first() {
            None => return Ok(List::from_vec(kinds)),
            Some((_, rest)) => left = rest,
        }
    }
}

/// The kinds that a text names behind a space; `Bad` exactly where it is no such text.
pub(crate) fn kinds_behind(alloc: Global, text: &[u8]) -> Result<List<UbKind>, Text>
    ensures ok { IfOk result (λ ks. (text.now ≡ 32 ∷ kinds_text ks) × StandOnce ks) }
    ensures bad { IfErr result (λ fault. fault ≡ texts.Bad → (ks : List Named) → text.now ≡ 32 ∷ kinds_text ks → StandOnce ks → ⊥) }
{
    match text.split_first() {
        Some((first, names)) if *first == b' ' => kinds_in(alloc, names),
        _ => Err(Text::Bad),
    }
}

//! Lists of kinds of undefined behaviour on the command line.

ghost use Rattle.std.specs.Prelude.{◌≡◌, ◌≤◌, ◌<◌, true, length, take, get_or, MatchOption};
ghost use Rattle.std.specs.List.{list_all};
ghost use Rattle.stk_numbers.specs.declared.conditions.Kinds.{Kinds as Taken};
ghost use Rattle.stk_numbers.specs.declared.conditions.UbKind.{UbKind as Named};
ghost use Rattle.stk_records.specs.Kinds.{kind_name, with_kind, no_kinds, is_no_comma, AreNames};

use stk_numbers::{Kinds, UbKind};

// The kind of a name.
fn kind_of(name: &[u8]) -> Option<UbKind>
    ensures { MatchOption result ((k : Named) → name.now ≡ kind_name k → ⊥) (λ k. name.now ≡ kind_name k) }
{
    match name {
        b"overflow" => Some(UbKind::Overflow),
        b"zero" => Some(UbKind::Zero),
        b"shift" => Some(UbKind::Shift),
        b"null" => Some(UbKind::Null),
        b"pointer" => Some(UbKind::Pointer),
        b"bounds" => Some(UbKind::Bounds),
        b"abs" => Some(UbKind::AbsValue),
        b"copy" => Some(UbKind::Overlap),
        _ => None,
    }
}

// No kind.
fn none() -> Kinds
    ensures { result ≡ no_kinds }
{
    Kinds {
        overflow: false,
        zero: false,
        shift: false,
        null: false,
        pointer: false,
        bounds: false,
        abs: false,
        copy: false,
    }
}

// Kinds with one more.
fn with_kind(kinds: Kinds, kind: UbKind) -> Kinds
    ensures { result ≡ with_kind kinds kind }
{
    let mut all = kinds;
    match kind {
        UbKind::Overflow => all.overflow = true,
        UbKind::Zero => all.zero = true,
        UbKind::Shift => all.shift = true,
        UbKind::Null => all.null = true,
        UbKind::Pointer => all.pointer = true,
        UbKind::Bounds => all.bounds = true,
        UbKind::AbsValue => all.abs = true,
        UbKind::Overlap => all.copy = true,
    }
    all
}

// The place of the first comma of a text, or the text's length.
fn first_comma(text: &[u8]) -> usize
    ensures within { result ≤ length text.now }
    ensures before { list_all is_no_comma (take result text.now) ≡ true }
    ensures at { result < length text.now → get_or text.now result 0 ≡ 44 }
{
    let mut at = 0;
    for byte in text {
        if *byte == b',' {
            return at;
        }
        at += 1;
    }
    at
}

/// The kinds that a text names: one or more names, each at most once, with a comma between each two. `None` for every
/// other text.
pub(crate) fn kinds_in(text: &[u8]) -> Option<Kinds>
    ensures { MatchOption result ((ks : Taken) → AreNames no_kinds text.now ks → ⊥) (λ ks. AreNames no_kinds text.now ks × ((other : Taken) → AreNames no_kinds text.now other → other ≡ ks)) }
{
    let mut kinds = none();
    let mut left = text;
    'names: loop {
        let at = first_comma(left);
        let (name, behind) = left.split_at(at);
        let kind = kind_of(name)?;
        if kinds.has(kind) {
            return None;
        }
        kinds = with_kind(kinds, kind);
        match behind.split_first() {
            None => return Some(kinds),
            Some((_, rest)) => left = rest,
        }
    }
}

//! The inputs of a script.

ghost use Rattle.std.specs.Prelude.{◌≡◌, ◌+◌, ◌≤◌, ◌↔◌, [], ℕ, None, true, IfOk, IfSome, OnOk, List, IsTrue, map};
ghost use Rattle.std.specs.List.{list_all};
ghost use Rattle.stk_terms.specs.Fitting.{AreWidths};
ghost use Rattle.stk_scripts.specs.Scripts.{DeclaredFit, behind_declared, found, is_name, is_name_byte, widths_in, with_inputs};
ghost use Rattle.stk_script_trees.specs.Gives.{IsBad};
ghost use Rattle.stk_script_trees.specs.View.{view_declared};
ghost use Rattle.stk_script_reader.specs.After.{IsAfter};
ghost use Rattle.stk_script_reader.specs.Names.{StandsFor};

use crate::making;
use crate::names::Names;
use std::alloc::Global;
use stk_base::List;
use stk_script_trees::{Declared, Fault};
use stk_terms::{TermOp, Terms};

/// How wide an input is at most.
const MOST_INPUT: u128 = 64;

fn is_name_byte(b: u8) -> bool
    ensures { result ≡ is_name_byte b }
{
    b == b'_' || b.is_ascii_alphabetic() || b.is_ascii_digit()
}

fn are_name_bytes(text: &[u8]) -> bool
    ensures { result ≡ list_all is_name_byte text.now }
{
    text.iter().all(|b| is_name_byte(*b))
}

/// Whether a text is a name: letters, digits and `_` behind a letter.
pub(crate) fn is_name(text: &[u8]) -> bool
    ensures { result ≡ is_name text.now }
{
    match text {
        [first, rest @ ..] => first.is_ascii_alphabetic() && are_name_bytes(rest),
        [] => false,
    }
}

// Whether an input may be so wide.
fn is_input_width(width: u128) -> bool
    ensures { IsTrue result ↔ ((1 ≤ width) × (width ≤ 64)) }
{
    1 <= width && width <= MOST_INPUT
}

/// The widths of the inputs, each from 1 to 64.
pub(crate) fn widths(alloc: Global, list: &[Declared]) -> Result<List<u8>, Fault>
    ensures are { IfOk result (λ widths. (bytes : List ℕ) → widths ≡ widths_in (map (view_declared bytes) list.now)) }
    ensures fit { IfOk result (λ widths. AreWidths widths) }
    ensures bad { IsBad result → (bytes : List ℕ) → DeclaredFit [] (map (view_declared bytes) list.now) → ⊥ }
{
    let mut widths = Vec::new(alloc);
    let mut rest = list;
    while let Some((declared, behind)) = rest.split_first() {
        if !is_input_width(declared.width) {
            return Err(Fault::Bad);
        }
        widths.push(declared.width as u8)?;
        rest = behind;
    }
    Ok(List::from_vec(widths))
}

/// Whether a text is a name that stands for nothing yet.
pub(crate) fn is_new(names: &Names, name: &[u8]) -> bool
    ensures { (list : List (List ℕ × ℕ)) → StandsFor names.now list → IsTrue result ↔ ((is_name name.now ≡ true) × (found list name.now ≡ None)) }
{
    is_name(name) && names.find(name).is_none()
}

// The number of the next input.
fn next_key(key: u32) -> Option<u32>
    ensures { IfSome result (λ next. next ≡ key + 1) }
{
    key.checked_add(1)
}

/// Makes an input of each declaration, in order, and has its name stand for it. `Bad` comes where a name is none or
/// isn't new.
pub(crate) fn declare<'a>(
    bytes: &'a [u8],
    names: &mut Names<'a>,
    terms: &mut Terms,
    list: &[Declared],
) -> Result<(), Fault>
    requires none { StandsFor names.old [] }
    requires inputs { terms.old.inputs ≡ widths_in (map (view_declared bytes.now) list.now) }
    ensures after { OnOk result (IsAfter names.new terms.new (behind_declared [] (map (view_declared bytes.now) list.now)) (with_inputs [] (map (view_declared bytes.now) list.now))) }
    ensures fit { OnOk result (DeclaredFit [] (map (view_declared bytes.now) list.now)) }
    ensures inputs { OnOk result (terms.new.inputs ≡ terms.old.inputs) }
    ensures bad { IsBad result → DeclaredFit [] (map (view_declared bytes.now) list.now) → ⊥ }
{
    let mut key: u32 = 0;
    let mut rest = list;
    while let Some((declared, behind)) = rest.split_first() {
        let name = declared.name.text(bytes);
        if !is_new(names, name) {
            return Err(Fault::Bad);
        }
        let input = making::leaf(terms, TermOp::Input(key))?;
        names.add(name, input)?;
        // A text of less than 2^32 bytes has no more declarations.
        let Some(next) = next_key(key) else {
            return Err(Fault::NoMemory);
        };
        key = next;
        rest = behind;
    }
    Ok(())
}

//! The definitions of a script.

ghost use Rattle.std.specs.Prelude.{◌≡◌, ◌<◌, ◌↔◌, ℕ, IsTrue, List, OnOk, length, map};
ghost use Rattle.stk_terms.specs.Values.{width_at};
ghost use Rattle.stk_scripts.specs.Scripts.{Bits, behind_defined, with_defined};
ghost use Rattle.stk_script_trees.specs.Gives.{IsBad};
ghost use Rattle.stk_script_trees.specs.View.{view_defined};
ghost use Rattle.stk_script_reader.specs.After.{IsAfter, WidthsFit};
ghost use Rattle.stk_script_reader.specs.Standing.{Known};

use crate::declaring::is_new;
use crate::names::Names;
use crate::trees::made;
use stk_script_trees::{Defined, Fault};
use stk_terms::{TermId, Terms};

// Whether a term is so wide.
fn is_wide(terms: &Terms, term: TermId, width: u128) -> bool
    requires { term.0 < length terms.now.terms }
    ensures { IsTrue result ↔ (width_at terms.now term.0 ≡ width) }
{
    terms.width(term) as u128 == width
}

/// Makes the term of each definition, in order, and has its name stand for it. `Bad` comes where a name is none or
/// isn't new, or a term doesn't fit or isn't as wide as is said.
pub(crate) fn define<'a>(
    bytes: &'a [u8],
    names: &mut Names<'a>,
    terms: &mut Terms,
    list: &[Defined],
) -> Result<(), Fault>
    requires { Known names.old terms.old }
    ensures after { OnOk result ((g : List (List ℕ × ℕ)) (bits : List ℕ → List (List ℕ × Bits)) → IsAfter names.old terms.old g bits → IsAfter names.new terms.new (behind_defined g (map (view_defined bytes.now) list.now)) (λ r. with_defined (bits r) (map (view_defined bytes.now) list.now)) × WidthsFit g (map (view_defined bytes.now) list.now)) }
    ensures inputs { OnOk result (terms.new.inputs ≡ terms.old.inputs) }
    ensures bad { IsBad result → (g : List (List ℕ × ℕ)) (bits : List ℕ → List (List ℕ × Bits)) → IsAfter names.old terms.old g bits → WidthsFit g (map (view_defined bytes.now) list.now) → ⊥ }
{
    let mut rest = list;
    while let Some((defined, behind)) = rest.split_first() {
        let name = defined.name.text(bytes);
        if !is_new(names, name) {
            return Err(Fault::Bad);
        }
        let term = made(bytes, names, terms, defined.body.get())?;
        if !is_wide(terms, term, defined.width) {
            return Err(Fault::Bad);
        }
        names.add(name, term)?;
        rest = behind;
    }
    Ok(())
}

//! The script of a goal.

ghost use Rattle.std.specs.Prelude.{◌≡◌, ◌<◌, ◌↔◌, IfOk, List, length, ℕ};
ghost use Rattle.stk_terms.specs.Fitting.{AreResidues};
ghost use Rattle.stk_terms.specs.Values.{number_at, width_at};
ghost use Rattle.stk_scripts.specs.Scripts.{Denotes, IsScript};
ghost use Rattle.stk_scripts.specs.Texts.{script_text};
ghost use Rattle.stk_smtlib.specs.Written.{script_of};

use crate::commands::{add_assertion, add_definitions, add_inputs};
use crate::pieces::add;
use std::alloc::Global;
use stk_base::NoMemory;
use stk_terms::{TermId, Terms};

/// The SMT-LIB script of a goal of width 1: the logic QF_BV, a declaration of each input, a definition of each term on
/// which the goal depends, in ascending order, the assertion that the goal is 1, and `check-sat`, each in a line
/// (SMT-LIB 2.6, sections 3.9 and 4.2). Input K is called `kK`, the term at a place J `tJ`. The text is of the subset
/// that is read, and denotes exactly the residues for which the goal is 1. It takes time linear in the terms up to the
/// goal. The only refusal is want of memory.
pub fn script(alloc: Global, terms: &Terms, goal: TermId) -> Result<Vec<u8>, NoMemory>
    requires exists { goal.0 < length terms.now.terms }
    requires one { width_at terms.now goal.0 ≡ 1 }
    ensures text { IfOk result (λ v. v.items ≡ script_text (script_of terms.now goal.0)) }
    ensures read { IfOk result (λ v. IsScript v.items (script_of terms.now goal.0)) }
    ensures means { IfOk result (λ _. (residues : List ℕ) → AreResidues terms.now.inputs residues → Denotes (script_of terms.now goal.0) residues ↔ (number_at terms.now residues goal.0 ≡ 1)) }
{
    // For the prover: the terms keep their facts.
    let _ = terms.count();
    let mut text = Vec::new(alloc);
    add(&mut text, b"(set-logic QF_BV)\n")?;
    add_inputs(&mut text, terms.widths())?;
    add_definitions(&mut text, terms, goal)?;
    add_assertion(&mut text, goal)?;
    add(&mut text, b"(check-sat)\n")?;
    Ok(text)
}

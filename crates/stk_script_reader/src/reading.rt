//! Reading scripts into goals.

ghost use Rattle.std.specs.Prelude.{◌≡◌, ◌≤◌, ◌<◌, ◌↔◌, ℕ, List, IfOk, length};
ghost use Rattle.stk_terms.specs.Fitting.{AreResidues};
ghost use Rattle.stk_terms.specs.Growth.{Keeps};
ghost use Rattle.stk_terms.specs.Values.{number_at};
ghost use Rattle.stk_scripts.specs.Scripts.{Denotes, IsScript, widths_in};
ghost use Rattle.stk_scripts.specs.Syntax.{Script as Scripted};
ghost use Rattle.stk_script_trees.specs.Gives.{IsBad};
ghost use Rattle.stk_script_trees.specs.View.{view_expr};
ghost use Rattle.stk_script_reader.specs.Names.{StandsFor};
ghost use Rattle.stk_script_reader.specs.Standing.{AllStand, Known, Tests};

use crate::declaring::{declare, widths};
use crate::defining::define;
use crate::names::Names;
use crate::operators::compare;
use crate::trees::made;
use std::alloc::Global;
use stk_script_trees::{Fault, Test, parse};
use stk_terms::{TermId, Terms};

// The term of a comparison.
#[tactic(auto, using(crate::proofs::Kept::known_kept, crate::proofs::Kept::keeps_then))]
fn goal_of(bytes: &[u8], names: &Names, terms: &mut Terms, test: &Test) -> Result<TermId, Fault>
    requires known { Known names.now terms.old }
    ensures made { (list : List (List ℕ × ℕ)) → StandsFor names.now list → AllStand terms.old list → Tests terms.old terms.new list test.now.op (view_expr bytes.now test.now.left) (view_expr bytes.now test.now.right) result }
    ensures keeps { Keeps terms.old terms.new }
{
    let left = made(bytes, names, terms, test.left.get())?;
    let right = made(bytes, names, terms, test.right.get())?;
    compare(terms, test.op, left, right)
}

/// The goal of a script (SMT-LIB 2.6, section 3; the logic QF_BV), over a store whose inputs are its declarations, in
/// their order: it is 1 exactly for the residues that the script denotes. The text has at most 2^32 - 1 bytes, and may
/// have any blanks and comments; terms nest at most 400 deep. `Bad` comes only where the text is no script of this
/// subset. It takes time linear in the text, where names are looked up in a hash table, and copies no text.
pub fn read_script(alloc: Global, bytes: &[u8]) -> Result<(Terms, TermId), Fault>
    requires { length bytes.now ≤ 4294967295 }
    ensures read { IfOk result (λ r. (s : Scripted) × IsScript bytes.now s × (r.0.inputs ≡ widths_in s.declared) × (r.1.0 < length r.0.terms)
        × ((residues : List ℕ) → AreResidues r.0.inputs residues → (number_at r.0 residues r.1.0 ≡ 1) ↔ Denotes s residues)) }
    ensures bad { IsBad result → (s : Scripted) → IsScript bytes.now s → ⊥ }
{
    let script = parse(alloc, bytes)?;
    let inputs = widths(alloc, script.declared.as_slice())?;
    let mut terms = Terms::new(alloc, inputs);
    let mut names = Names::new(alloc);
    declare(bytes, &mut names, &mut terms, script.declared.as_slice())?;
    define(bytes, &mut names, &mut terms, script.defined.as_slice())?;
    let goal = goal_of(bytes, &names, &mut terms, &script.test)?;
    Ok((terms, goal))
}

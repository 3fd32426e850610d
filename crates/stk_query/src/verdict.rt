// What is said of a goal.

use stk_clauses::{Cnf, Derivation};
use stk_terms::Residues;

/// What was found of a goal, a term of width 1.
#[derive(Drop)]
pub enum Verdict {
    /// These inputs make the goal 1.
    Satisfied(Residues),
    /// The inputs have at most 16 bits, and none make it 1.
    Tried,
    /// No inputs make it 1: the derivation refutes clauses that stand for it.
    Refuted(Cnf, Derivation),
    /// The budget was spent: clauses that stand for it, and the log of the search.
    Undecided(Cnf, Derivation),
}

//! A law of findings by path runs.

ghost use Rattle.std.specs.Prelude.{◌≡◌, List};
ghost use Rattle.stk_tree.specs.Syntax.{FunctionTree};
ghost use Rattle.stk_numbers.specs.declared.conditions.Candidate.{Candidate};
ghost use Rattle.stk_numbers.specs.declared.conditions.Kinds.{Kinds};
ghost use Rattle.stk_meaning.specs.Typings.{Typing};
ghost use Rattle.stk_meaning.specs.declared.finding.Finding.{Finding};
ghost use Rattle.stk_meaning.specs.Findings.{AreLawful};
ghost use Rattle.stk_hits.specs.PathSubjects.{path_subject};

/// The candidates of a function have no two lists of findings that are lawful by its path runs: each start is the first
/// one that answers its query, and the set of a report is minimal by deletion from the greatest condition to the least.
pub fn findings_are_one()
    ensures { (ty : Typing) → (without : Kinds) → (f : FunctionTree) → (cs : List Candidate) → (xs ys : List Finding) → AreLawful (path_subject ty without f) cs xs → AreLawful (path_subject ty without f) cs ys → xs ≡ ys }
{}

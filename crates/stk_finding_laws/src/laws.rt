//! A law of findings by path runs.

ghost use Rattle.std.specs.Prelude.{List};
ghost use Rattle.stk_tree.specs.Syntax.{FunctionTree};
ghost use Rattle.stk_numbers.specs.declared.conditions.Candidate.{Candidate};
ghost use Rattle.stk_numbers.specs.declared.conditions.Kinds.{Kinds};
ghost use Rattle.stk_meaning.specs.Typings.{Typing};
ghost use Rattle.stk_meaning.specs.declared.finding.Finding.{Finding};
ghost use Rattle.stk_meaning.specs.Findings.{AreLawful};
ghost use Rattle.stk_hits.specs.PathSubjects.{path_subject};

/// Each candidate of a function has a lawful finding by the function's path runs, whatever the number of its input
/// bits: there are finitely many input maps, so each query has a first answer or none.
pub fn each_candidate_has_a_finding()
    ensures { (ty : Typing) → (without : Kinds) → (f : FunctionTree) → (cs : List Candidate) → (xs : List Finding) × AreLawful (path_subject ty without f) cs xs }
{}

//! A law of findings by path runs.

ghost use Rattle.std.specs.Prelude.{◌≡◌, ◌≤◌, ◌^◌, List, Option, length};
ghost use Rattle.stk_tree.specs.Syntax.{FunctionTree};
ghost use Rattle.stk_numbers.specs.declared.conditions.Candidate.{Candidate};
ghost use Rattle.stk_numbers.specs.declared.conditions.Kinds.{Kinds};
ghost use Rattle.stk_meaning.specs.declared.entry.Entry.{Entry};
ghost use Rattle.stk_meaning.specs.Typings.{Typing};
ghost use Rattle.stk_meaning.specs.Keys.{keys_of, input_bits};
ghost use Rattle.stk_meaning.specs.Lists.{conditions};
ghost use Rattle.stk_meaning.specs.declared.finding.Finding.{Finding};
ghost use Rattle.stk_meaning.specs.Findings.{IsLawful};
ghost use Rattle.stk_hits.specs.InputMaps.{bits_in};
ghost use Rattle.stk_hits.specs.Subjects.{subject_of};
ghost use Rattle.stk_hits.specs.PathSubjects.{path_subject, kinds_of, ArePathRuns};

/// For a function of at most 16 input bits, a finding that is lawful by the list of the path runs of all its input maps
/// is lawful for the function: each map is valid, since no object has an address, and the list's runs are those of the
/// maps in their order.
pub fn all_path_runs_tell()
    ensures { (ty : Typing) → (without : Kinds) → (f : FunctionTree) → (runs : List (Option (List Entry))) → input_bits (keys_of ty without f) ≤ 16
        → length runs ≡ 2 ^ bits_in (kinds_of (keys_of ty without f)) → ArePathRuns ty without f runs
        → (c : Candidate) → (x : Finding) → IsLawful (subject_of (kinds_of (keys_of ty without f)) runs (conditions ty without f)) c x → IsLawful (path_subject ty without f) c x }
{}

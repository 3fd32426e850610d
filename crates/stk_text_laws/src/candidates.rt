//! Laws of the candidates of an input.
ghost use Rattle.stk_text_laws.specs.Candidates.{EachTextHasCandidates, OneListOfCandidates, ScriptOrTooFew};

/// Each text has candidates, which may be none.
pub fn each_text_has_candidates()
    ensures { EachTextHasCandidates }
{}

/// No text has two lists of candidates.
pub fn one_list_of_candidates()
    ensures { OneListOfCandidates }
{}

/// No text has both the script of the candidate that is asked for and fewer candidates. So where words ask for one, and
/// nothing fails, the checker answers that there is no such candidate exactly where there is none.
pub fn script_or_too_few()
    ensures { ScriptOrTooFew }
{}

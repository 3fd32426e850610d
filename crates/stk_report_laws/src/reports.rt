//! What a lawful report shows of its set.

ghost use Rattle.stk_report_laws.specs.Reports.{ReportsShowTheirSets};

/// The set of a lawful report is of the function's conditions, in their order and without repeats; and each member that
/// is shown is needed by its start: the map is valid, and its run hits the candidate free of the rest of the set.
pub fn reports_show_their_sets()
    ensures { ReportsShowTheirSets }
{}

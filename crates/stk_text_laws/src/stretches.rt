//! Laws of skimming.
ghost use Rattle.stk_text_laws.specs.Stretches.{OneSkimming, SkimmingByStretches};

/// What skimming keeps and notes is what stretches give: tokens that are kept, and words and groups that are dropped
/// with their notes, one behind the other.
pub fn skimming_by_stretches()
    ensures { SkimmingByStretches }
{}

/// No other tokens and notes are so.
pub fn one_skimming()
    ensures { OneSkimming }
{}

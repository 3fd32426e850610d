// Laws of lines.
ghost use Rattle.stk_bundle.specs.Claims.{ClaimsStand, FirstClaimsStand};
ghost use Rattle.stk_bundle.specs.Laws.{BundlesHaveOneReading, TextsAreOneLine};

/// A text is one line at most, and begins with one bundle at most. It computes nothing.
pub fn texts_have_one_reading()
    ensures lines { TextsAreOneLine }
    ensures bundles { BundlesHaveOneReading }
{}

/// The lines of a finding are a whole claim, or none: they may stand behind a claim, and where there are some also
/// behind the line of the function, and a claim may stand behind them. It computes nothing.
pub fn claims_stand()
    ensures claims { ClaimsStand }
    ensures first { FirstClaimsStand }
{}

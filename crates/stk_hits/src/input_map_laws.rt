//! A law of input maps and their numbers.
ghost use Rattle.stk_hits.specs.InputMaps.{AreMapsByNumber};

/// The maps for keys of some kinds are those of the numbers below 2 to the sum of the kinds' widths, one for each
/// number, and the map of the lower number comes first.
pub fn maps_by_number()
    ensures { AreMapsByNumber }
{}

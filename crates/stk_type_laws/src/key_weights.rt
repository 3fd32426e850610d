//! A law of how many keys there are.
ghost use Rattle.stk_type_laws.specs.KeyWeights.{KeysAreWithinWeight};

/// The bits of an input map are at most the weight of its function, whatever typing answers, and no less than there are
/// keys; so a function that isn't too heavy to be searched has fewer than 2^32 keys.
pub fn keys_are_within_weight()
    ensures { KeysAreWithinWeight }
{}

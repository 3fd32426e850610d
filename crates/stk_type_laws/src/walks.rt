//! The law of what a walk may cost.
ghost use Rattle.stk_type_laws.specs.Within.{WalksAreWithinWeight};

/// What a walk over all branches of a function may cost, form by form, is at most the function's weight less 16 a node:
/// each form pays for its own steps, an object in memory and a pair of such objects for theirs. Asked is that of each
/// evaluated node of the function's tree which typing gives: that numbers whose bits count have a type that has bits.
pub fn walks_are_within_weight()
    ensures { WalksAreWithinWeight }
{}

//! A law of the kinds of keys.
ghost use Rattle.stk_type_laws.specs.KeyKinds.{KeysHaveTheirKinds};

/// Each key of a function whose tree is typed has the kind that its form says: an address is an `unsigned long`, and
/// every other number has the kind of its node, or of its register, where a loop sets one.
pub fn keys_have_their_kinds()
    ensures { KeysHaveTheirKinds }
{}

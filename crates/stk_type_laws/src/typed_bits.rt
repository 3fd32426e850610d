//! The law of types that have bits.
ghost use Rattle.stk_type_laws.specs.TreesHaveBits.{AcceptedTreesHaveBits, AcceptedUnitsHaveBits};

/// In each function definition that typing accepts, numbers whose bits a walk pays by have a type that has bits: what
/// is tested, read by a name, counted by in a shift and converted is an integer or an address. Asked is what is asked
/// where its tree is to be typed.
pub fn accepted_trees_have_bits()
    ensures { AcceptedTreesHaveBits }
{}

/// The same of a unit as the code holds it, by what is known of its nodes.
pub fn accepted_units_have_bits()
    ensures { AcceptedUnitsHaveBits }
{}

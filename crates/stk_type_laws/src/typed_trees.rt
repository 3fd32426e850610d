//! Laws of typed trees. Each is a function that does nothing, and whose contract is the law.

ghost use Rattle.stk_type_laws.specs.Accepted.{AcceptedTreesAreTyped, AcceptedUnitsAreTyped};

/// Each function definition that typing accepts meets what the laws over runs ask of a function, whichever kinds of
/// conditions are taken out: its nodes are numbered children first, a name means a register or a memory object and has
/// its type, what is read is a scalar or an array, what is stored to is a scalar, members lie within their struct, and
/// scalars have their sizes. Asked is that its unit is laid out and well placed, and that the names of file scope are
/// as accepted units leave them.
pub fn accepted_trees_are_typed()
    ensures { AcceptedTreesAreTyped }
{}

/// The same of a unit as the code holds it, by what is known of its nodes.
pub fn accepted_units_are_typed()
    ensures { AcceptedUnitsAreTyped }
{}

//! Laws of kinded trees. Each is a function that does nothing, and whose contract is the law.

ghost use Rattle.stk_type_laws.specs.Kinded.{AcceptedTreesAreKinded, AcceptedUnitsAreKinded};

/// Each function definition that typing accepts is kinded, whichever kinds of conditions are taken out: a name has the
/// kind of the register or kept object that it means; parentheses have the kind of what they hold, operators that of
/// their operation, calls that of their function's result, and what stores that of its left operand; and what is stored
/// to has the kind of the register or kept object that it names. Asked is what is asked where its tree is to be typed.
pub fn accepted_trees_are_kinded()
    ensures { AcceptedTreesAreKinded }
{}

/// The same of a unit as the code holds it, by what is known of its nodes.
pub fn accepted_units_are_kinded()
    ensures { AcceptedUnitsAreKinded }
{}

//! The law of units, as a function that does nothing and whose contract is the law.

ghost use Rattle.stk_grammar.specs.Units.{OneUnit};

/// Tokens are a unit in one way: of two well-placed units that fit the same names and are the same tokens, each is the
/// other, apart from the records of their nodes. An `else` belongs to the nearest `if` (C11 6.8.4.1, 6.9).
pub fn one_unit()
    ensures { OneUnit }
{}

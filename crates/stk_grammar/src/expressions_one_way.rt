//! Laws of expressions. Each is a function that does nothing, and whose contract is the law.

ghost use Rattle.stk_grammar.specs.Expressions.{OnePlace, OneText};

/// Tokens are an expression in one way: of two well-placed expressions that fit the same names and print the same
/// tokens, each is the other, apart from the records of their nodes (C11 6.5).
pub fn one_text()
    ensures { OneText }
{}

/// An expression of a level ends at one place: two that begin at the same token, each with a stop behind it, end at the
/// same token, and each is the other, apart from the records of their nodes.
pub fn one_place()
    ensures { OnePlace }
{}

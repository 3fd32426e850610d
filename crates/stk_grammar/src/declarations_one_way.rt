//! Laws of declarations. Each is a function that does nothing, and whose contract is the law.

ghost use Rattle.stk_grammar.specs.Declarations.{OneDeclaration, OneFront};

/// A declaration stands at a place in one way: two that begin at the same token, both at file scope or both in a block,
/// end at the same token, and each is the other, apart from the records of their nodes (C11 6.7).
pub fn one_declaration()
    ensures { OneDeclaration }
{}

/// What stands before the body of a function does so in one way: two fronts that begin at the same token end at the
/// same token, and each is the other, apart from the records of their nodes (C11 6.9.1).
pub fn one_front()
    ensures { OneFront }
{}

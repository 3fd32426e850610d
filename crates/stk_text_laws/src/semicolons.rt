//! A law of declarations.
ghost use Rattle.stk_text_laws.specs.Semicolons.{EndsAtTheFirstSemicolon};

/// A declaration that is read ends with the first `;` outside of brackets.
pub fn ends_at_the_first_semicolon()
    ensures { EndsAtTheFirstSemicolon }
{}

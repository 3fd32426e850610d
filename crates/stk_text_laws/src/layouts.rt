//! A law of layouts.
ghost use Rattle.stk_text_laws.specs.Layouts.{LaidOutByItsTokens};

/// A layout looks at no token behind its unit. So each node begins at a token of its unit, and a node that prints none
/// has a next token there.
pub fn laid_out_by_its_tokens()
    ensures { LaidOutByItsTokens }
{}

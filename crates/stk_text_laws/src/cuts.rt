//! Laws of tokens.
ghost use Rattle.stk_text_laws.specs.Cuts.{EachPunctuatorIsFixed, EachTextHasACut};

/// Each text has a cut into its longest tokens; `one_cut` of stk_lex says that it has one alone.
pub fn each_text_has_a_cut()
    ensures { EachTextHasACut }
{}

/// Each punctuator that lexing knows is a punctuator of the grammar: one of `Fixed` is spelled so.
pub fn each_punctuator_is_fixed()
    ensures { EachPunctuatorIsFixed }
{}

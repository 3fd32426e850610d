//! What waits to be printed.

ghost use Rattle.std.specs.Prelude.{◌≡◌, ◌≤◌, ◌+◌, ◌++◌, ◌∷◌, [], OnOk};
ghost use Rattle.stk_tree.specs.Tokens.{optional_word, word};
ghost use Rattle.stk_tree.specs.declared.fixed.Lexeme.TheVariants.{Leaf, Fixed as Token};
ghost use Rattle.stk_tree_walk.specs.Waiting.{tokens_of, left_of, heft_of, heft};
ghost use Rattle.stk_base.specs.declared.token.Class.TheVariants.{Word};

use stk_base::{Class, NoMemory, Span};
use stk_tree::{
    Base, Declr, Desig, Dimension, Enumr, Expr, Fixed, Init, Item, Lexeme, Member, Param, Tail,
    TypeName,
};

/// What waits to be printed: a token, or a part of a tree. `More` is said of lists before each of whose elements a
/// comma stands.
#[derive(Clone, Copy)]
pub(crate) enum Waiting<'a> {
    Token(Lexeme),
    Texts(&'a [Span]),
    Words(&'a [Fixed]),
    Stars(u32),
    Expression(&'a Expr),
    Arguments(&'a [Expr]),
    MoreArguments(&'a [Expr]),
    Type(&'a TypeName),
    Base(&'a Base),
    Dimensions(&'a [Dimension]),
    Members(&'a [Member]),
    Enumerators(&'a [Enumr]),
    MoreEnumerators(&'a [Enumr]),
    Declarator(&'a Declr),
    Declarators(&'a [Declr]),
    MoreDeclarators(&'a [Declr]),
    Tail(&'a Tail),
    Parameters(&'a [Param]),
    MoreParameters(&'a [Param]),
    Initialiser(&'a Init),
    Items(&'a [Item]),
    MoreItems(&'a [Item]),
    Designators(&'a [Desig]),
}

/// Puts a part in front of what waits.
pub(crate) fn put<'a>(item: Waiting<'a>, out: &mut Vec<Waiting<'a>>) -> Result<(), NoMemory>
    ensures left { OnOk result (left_of out.new.items ≡ tokens_of item.entry ++ left_of out.old.items) }
    ensures heft { OnOk result (heft out.new.items ≡ heft_of item.entry + heft out.old.items) }
    ensures items { OnOk result (out.new.items ≡ out.old.items ++ item.entry ∷ []) }
{
    out.push(item)?;
    Ok(())
}

/// Puts a reserved word or a punctuator in front of what waits.
pub(crate) fn put_punctuator(punctuator: Fixed, out: &mut Vec<Waiting>) -> Result<(), NoMemory>
    ensures left { OnOk result (left_of out.new.items ≡ Token punctuator ∷ left_of out.old.items) }
    ensures heft { OnOk result (heft out.new.items ≡ 1 + heft out.old.items) }
{
    put(Waiting::Token(Lexeme::Fixed(punctuator)), out)
}

/// Puts a word of the input in front of what waits.
pub(crate) fn put_word(at: Span, out: &mut Vec<Waiting>) -> Result<(), NoMemory>
    ensures left { OnOk result (left_of out.new.items ≡ word at ++ left_of out.old.items) }
    ensures heft { OnOk result (heft out.new.items ≡ 1 + heft out.old.items) }
{
    put(Waiting::Token(word(at)), out)
}

/// Puts a name that may be missing in front of what waits.
pub(crate) fn put_optional_word(name: Option<Span>, out: &mut Vec<Waiting>) -> Result<(), NoMemory>
    ensures left { OnOk result (left_of out.new.items ≡ optional_word name ++ left_of out.old.items) }
    ensures heft { OnOk result (heft out.new.items ≤ 1 + heft out.old.items) }
{
    match name {
        None => Ok(()),
        Some(at) => put_word(at, out),
    }
}

/// A word of the input as a token.
pub(crate) fn word(at: Span) -> Lexeme
    ensures { result ≡ Leaf Word at }
{
    Lexeme::Leaf(Class::Word, at)
}

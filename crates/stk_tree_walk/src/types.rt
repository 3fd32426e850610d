//! The first tokens of types, declarators and initialisers; what begins with no token of its own is taken apart.

ghost use Rattle.std.specs.Prelude.{◌≡◌, ◌++◌, ◌∷◌, [], ◌<◌, ◌+◌, IfOk, None, map};
ghost use Rattle.stk_tree.specs.Tokens.{base_tokens, designator_tokens, designators_tokens, dimensions_tokens, initialiser_tokens, tail_tokens};
ghost use Rattle.stk_tree.specs.View.{designators, dimensions, view_base, view_designator, view_dimension, view_initialiser, view_tail};
ghost use Rattle.stk_tree_walk.specs.Waiting.{given, heft, left_of};

use crate::parts::{put_braces, put_enum, put_size, put_some_parameters, put_struct};
use crate::waiting::{Waiting, put, put_punctuator, put_word, word};
use stk_base::NoMemory;
use stk_tree::{Base, BaseForm, Desig, Dimension, Fixed, Init, Lexeme, Tail};

/// Takes a base apart.
pub(crate) fn open_base<'a>(
    b: &'a Base,
    out: &mut Vec<Waiting<'a>>,
) -> Result<Option<Lexeme>, NoMemory>
    ensures left { IfOk result (λ t. given t ++ left_of out.new.items ≡ base_tokens (view_base b.now) ++ left_of out.old.items) }
    ensures falls { IfOk result (λ t. t ≡ None → heft out.new.items < 2 + heft out.old.items) }
{
    match &b.form {
        BaseForm::Words(words) => {
            put(Waiting::Words(words.as_slice()), out)?;
            Ok(None)
        }
        BaseForm::StructRef(tag) => {
            put_word(*tag, out)?;
            Ok(Some(Lexeme::Fixed(Fixed::Struct)))
        }
        BaseForm::StructDef(tag, list) => {
            put_struct(*tag, list.as_slice(), out)?;
            Ok(Some(Lexeme::Fixed(Fixed::Struct)))
        }
        BaseForm::EnumRef(tag) => {
            put_word(*tag, out)?;
            Ok(Some(Lexeme::Fixed(Fixed::Enum)))
        }
        BaseForm::EnumDef(tag, list, comma) => {
            put_enum(*tag, list.as_slice(), *comma, out)?;
            Ok(Some(Lexeme::Fixed(Fixed::Enum)))
        }
        BaseForm::Named(at) => Ok(Some(word(*at))),
    }
}

/// Takes what follows the name of a declarator apart.
pub(crate) fn open_tail<'a>(
    t: &'a Tail,
    out: &mut Vec<Waiting<'a>>,
) -> Result<Option<Lexeme>, NoMemory>
    ensures left { IfOk result (λ t'. given t' ++ left_of out.new.items ≡ tail_tokens (view_tail t.now) ++ left_of out.old.items) }
    ensures falls { IfOk result (λ t'. t' ≡ None → heft out.new.items < 2 + heft out.old.items) }
{
    match t {
        Tail::Arrays(list) => {
            put(Waiting::Dimensions(list.as_slice()), out)?;
            Ok(None)
        }
        Tail::Unspecified => {
            put_punctuator(Fixed::RightParen, out)?;
            Ok(Some(Lexeme::Fixed(Fixed::LeftParen)))
        }
        Tail::NoParams => {
            put_punctuator(Fixed::RightParen, out)?;
            put_punctuator(Fixed::Void, out)?;
            Ok(Some(Lexeme::Fixed(Fixed::LeftParen)))
        }
        Tail::Params(list, more) => {
            put_some_parameters(list.as_slice(), *more, out)?;
            Ok(Some(Lexeme::Fixed(Fixed::LeftParen)))
        }
    }
}

/// Takes an initialiser apart.
pub(crate) fn open_initialiser<'a>(
    x: &'a Init,
    out: &mut Vec<Waiting<'a>>,
) -> Result<Option<Lexeme>, NoMemory>
    ensures left { IfOk result (λ t. given t ++ left_of out.new.items ≡ initialiser_tokens (view_initialiser x.now) ++ left_of out.old.items) }
    ensures falls { IfOk result (λ t. t ≡ None → heft out.new.items < 2 + heft out.old.items) }
{
    match x {
        Init::Plain(e) => {
            put(Waiting::Expression(e), out)?;
            Ok(None)
        }
        Init::Braces(list, comma) => {
            put_braces(list.as_slice(), *comma, out)?;
            Ok(Some(Lexeme::Fixed(Fixed::LeftBrace)))
        }
    }
}

/// Takes array parts apart.
pub(crate) fn open_dimensions<'a>(
    list: &'a [Dimension],
    out: &mut Vec<Waiting<'a>>,
) -> Result<Option<Lexeme>, NoMemory>
    ensures left { IfOk result (λ t. given t ++ left_of out.new.items ≡ dimensions_tokens (dimensions (map view_dimension list.now)) ++ left_of out.old.items) }
    ensures falls { IfOk result (λ t. t ≡ None → heft out.new.items < 1 + heft out.old.items) }
{
    match list {
        [] => Ok(None),
        [first, rest @ ..] => {
            put(Waiting::Dimensions(rest), out)?;
            put_size(first, out)?;
            Ok(Some(Lexeme::Fixed(Fixed::LeftBracket)))
        }
    }
}

// The first token of a designator.
fn open_designator<'a>(d: &'a Desig, out: &mut Vec<Waiting<'a>>) -> Result<Lexeme, NoMemory>
    ensures { IfOk result (λ t. t ∷ left_of out.new.items ≡ designator_tokens (view_designator d.now) ++ left_of out.old.items) }
{
    match d {
        Desig::Dot(name) => {
            put_word(*name, out)?;
            Ok(Lexeme::Fixed(Fixed::Dot))
        }
        Desig::At(e) => {
            put_punctuator(Fixed::RightBracket, out)?;
            put(Waiting::Expression(e), out)?;
            Ok(Lexeme::Fixed(Fixed::LeftBracket))
        }
    }
}

/// Takes designators apart.
pub(crate) fn open_designators<'a>(
    list: &'a [Desig],
    out: &mut Vec<Waiting<'a>>,
) -> Result<Option<Lexeme>, NoMemory>
    ensures left { IfOk result (λ t. given t ++ left_of out.new.items ≡ designators_tokens (designators (map view_designator list.now)) ++ left_of out.old.items) }
    ensures falls { IfOk result (λ t. t ≡ None → heft out.new.items < 1 + heft out.old.items) }
{
    match list {
        [] => Ok(None),
        [first, rest @ ..] => {
            put(Waiting::Designators(rest), out)?;
            let token = open_designator(first, out)?;
            Ok(Some(token))
        }
    }
}

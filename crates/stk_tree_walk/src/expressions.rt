//! The first tokens of expressions.

ghost use Rattle.std.specs.Prelude.{◌≡◌, ◌≢◌, ◌++◌, ◌∷◌, [], IfOk, OnOk, None};
ghost use Rattle.stk_tree.specs.declared.fixed.Fixed.TheVariants as fixed;
ghost use Rattle.stk_tree.specs.declared.fixed.Lexeme.TheVariants.{Fixed as Token};
ghost use Rattle.stk_tree.specs.Tokens.{expression_form_tokens, expression_tokens, type_name_tokens};
ghost use Rattle.stk_tree.specs.View.{view_expression, view_expression_form, view_type_name};
ghost use Rattle.stk_tree_walk.specs.Waiting.{given, left_of};

use crate::punctuators::{assign_punctuator, binary_punctuator, unary_punctuator};
use crate::rows::first_text;
use crate::waiting::{Waiting, put, put_punctuator, put_word, word};
use stk_base::{Class, NoMemory};
use stk_tree::{Expr, ExprForm, Fixed, Lexeme, StepOp, TypeName};

// The punctuator before an operand, and the operand behind it.
fn open_behind<'a>(
    punctuator: Fixed,
    e: &'a Expr,
    out: &mut Vec<Waiting<'a>>,
) -> Result<Option<Lexeme>, NoMemory>
    ensures left { IfOk result (λ t. given t ++ left_of out.new.items ≡ Token punctuator ∷ expression_tokens (view_expression e.now) ++ left_of out.old.items) }
    ensures same { IfOk result (λ t. t ≡ None → out.new.items ≡ out.old.items) }
{
    put(Waiting::Expression(e), out)?;
    Ok(Some(Lexeme::Fixed(punctuator)))
}

// The parenthesis before an expression in parentheses.
fn open_paren<'a>(e: &'a Expr, out: &mut Vec<Waiting<'a>>) -> Result<Option<Lexeme>, NoMemory>
    ensures left { IfOk result (λ t. given t ++ left_of out.new.items ≡ (Token fixed.LeftParen ∷ expression_tokens (view_expression e.now) ++ Token fixed.RightParen ∷ []) ++ left_of out.old.items) }
    ensures same { IfOk result (λ t. t ≡ None → out.new.items ≡ out.old.items) }
{
    put_punctuator(Fixed::RightParen, out)?;
    open_behind(Fixed::LeftParen, e, out)
}

// The first token of the size of a type name.
fn open_size<'a>(t: &'a TypeName, out: &mut Vec<Waiting<'a>>) -> Result<Option<Lexeme>, NoMemory>
    ensures left { IfOk result (λ t1. given t1 ++ left_of out.new.items ≡ (Token fixed.Sizeof ∷ Token fixed.LeftParen ∷ type_name_tokens (view_type_name t.now) ++ Token fixed.RightParen ∷ []) ++ left_of out.old.items) }
    ensures same { IfOk result (λ t1. t1 ≡ None → out.new.items ≡ out.old.items) }
{
    put_punctuator(Fixed::RightParen, out)?;
    put(Waiting::Type(t), out)?;
    put_punctuator(Fixed::LeftParen, out)?;
    Ok(Some(Lexeme::Fixed(Fixed::Sizeof)))
}

// The first token of a cast.
fn open_cast<'a>(
    t: &'a TypeName,
    e: &'a Expr,
    out: &mut Vec<Waiting<'a>>,
) -> Result<Option<Lexeme>, NoMemory>
    ensures left { IfOk result (λ t1. given t1 ++ left_of out.new.items ≡ (Token fixed.LeftParen ∷ type_name_tokens (view_type_name t.now) ++ Token fixed.RightParen ∷ expression_tokens (view_expression e.now)) ++ left_of out.old.items) }
    ensures same { IfOk result (λ t1. t1 ≡ None → out.new.items ≡ out.old.items) }
{
    put(Waiting::Expression(e), out)?;
    put_punctuator(Fixed::RightParen, out)?;
    put(Waiting::Type(t), out)?;
    Ok(Some(Lexeme::Fixed(Fixed::LeftParen)))
}

// The first token of an operand that a punctuator follows.
#[cycle(open)]
fn open_before<'a>(
    e: &'a Expr,
    punctuator: Fixed,
    out: &mut Vec<Waiting<'a>>,
) -> Result<Option<Lexeme>, NoMemory>
    ensures left { IfOk result (λ t. given t ++ left_of out.new.items ≡ expression_tokens (view_expression e.now) ++ Token punctuator ∷ left_of out.old.items) }
    ensures some { IfOk result (λ t. t ≢ None) }
{
    let waiting = out.len();
    put(Waiting::Token(Lexeme::Fixed(punctuator)), out)?;
    match open_expression(e, out)? {
        Some(token) => Ok(Some(token)),
        None => {
            out.truncate(waiting);
            Ok(Some(Lexeme::Fixed(punctuator)))
        }
    }
}

/// The first token of an expression; none where it prints none, and then what waits stays as it was.
#[cycle(open)]
pub(crate) fn open_expression<'a>(
    e: &'a Expr,
    out: &mut Vec<Waiting<'a>>,
) -> Result<Option<Lexeme>, NoMemory>
    ensures left { IfOk result (λ t. given t ++ left_of out.new.items ≡ expression_tokens (view_expression e.now) ++ left_of out.old.items) }
    ensures same { IfOk result (λ t. t ≡ None → out.new.items ≡ out.old.items) }
{
    open_form(&e.form, out)
}

// The first token of an expression of a form.
#[cycle(open)]
fn open_form<'a>(f: &'a ExprForm, out: &mut Vec<Waiting<'a>>) -> Result<Option<Lexeme>, NoMemory>
    ensures left { IfOk result (λ t. given t ++ left_of out.new.items ≡ expression_form_tokens (view_expression_form f.now) ++ left_of out.old.items) }
    ensures same { IfOk result (λ t. t ≡ None → out.new.items ≡ out.old.items) }
{
    match f {
        ExprForm::Name(at) => Ok(Some(word(*at))),
        ExprForm::Number(at) => Ok(Some(Lexeme::Leaf(Class::Number, *at))),
        ExprForm::Character(at) => Ok(Some(Lexeme::Leaf(Class::Character, *at))),
        ExprForm::Text(parts) => first_text(parts.as_slice(), out),
        ExprForm::Paren(e) => open_paren(e.get(), out),
        ExprForm::Index(a, b) => {
            put_punctuator(Fixed::RightBracket, out)?;
            put(Waiting::Expression(b.get()), out)?;
            open_before(a.get(), Fixed::LeftBracket, out)
        }
        ExprForm::Call(callee, list) => {
            put_punctuator(Fixed::RightParen, out)?;
            put(Waiting::Arguments(list.as_slice()), out)?;
            open_before(callee.get(), Fixed::LeftParen, out)
        }
        ExprForm::Dot(e, name) => {
            put_word(*name, out)?;
            open_before(e.get(), Fixed::Dot, out)
        }
        ExprForm::Arrow(e, name) => {
            put_word(*name, out)?;
            open_before(e.get(), Fixed::Arrow, out)
        }
        ExprForm::Step(op, e) => match op {
            StepOp::IncBefore => open_behind(Fixed::PlusPlus, e.get(), out),
            StepOp::DecBefore => open_behind(Fixed::MinusMinus, e.get(), out),
            StepOp::IncAfter => open_before(e.get(), Fixed::PlusPlus, out),
            StepOp::DecAfter => open_before(e.get(), Fixed::MinusMinus, out),
        },
        ExprForm::Unary(op, e) => open_behind(unary_punctuator(*op), e.get(), out),
        ExprForm::SizeExpr(e) => open_behind(Fixed::Sizeof, e.get(), out),
        ExprForm::SizeName(t) => open_size(t, out),
        ExprForm::Cast(t, e) => open_cast(t, e.get(), out),
        ExprForm::Binary(op, a, b) => {
            put(Waiting::Expression(b.get()), out)?;
            open_before(a.get(), binary_punctuator(*op), out)
        }
        ExprForm::Choice(a, b, c) => {
            put_choices(b.get(), c.get(), out)?;
            open_before(a.get(), Fixed::Question, out)
        }
        ExprForm::Assign(op, a, b) => {
            put(Waiting::Expression(b.get()), out)?;
            open_before(a.get(), assign_punctuator(*op), out)
        }
    }
}

// Puts what follows the `?` of a choice.
fn put_choices<'a>(b: &'a Expr, c: &'a Expr, out: &mut Vec<Waiting<'a>>) -> Result<(), NoMemory>
    ensures { OnOk result (left_of out.new.items ≡ expression_tokens (view_expression b.now) ++ Token fixed.Colon ∷ expression_tokens (view_expression c.now) ++ left_of out.old.items) }
{
    put(Waiting::Expression(c), out)?;
    put_punctuator(Fixed::Colon, out)?;
    put(Waiting::Expression(b), out)
}

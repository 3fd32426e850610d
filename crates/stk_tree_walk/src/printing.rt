//! What is left to print of an expression.

ghost use Rattle.std.specs.Prelude.{◌≡◌, ◌++◌, ◌∷◌, [], ◌<◌, ◌+◌, IfOk, MatchOption, None};
ghost use Rattle.stk_tree.specs.Tokens.{expression_tokens};
ghost use Rattle.stk_tree.specs.View.{view_expression};
ghost use Rattle.stk_tree_walk.specs.Waiting.{given, heft, heft_of, left_of, tokens_of};

use crate::expressions::open_expression;
use crate::parts::{
    put_arguments, put_declarator, put_declarators, put_enumerators, put_items, put_members,
    put_parameters, put_type,
};
use crate::rows::{
    first_star, first_text, first_word, more_arguments, more_declarators, more_enumerators,
    more_items, more_parameters,
};
use crate::types::{open_base, open_designators, open_dimensions, open_initialiser, open_tail};
use crate::waiting::{Waiting, put};
use std::alloc::Global;
use std::marker::Model;
use stk_base::NoMemory;
use stk_tree::{Expr, Lexeme};

/// What is left to print of an expression, its next token first. Each node is taken apart once, and only as its first
/// token is asked for: so the first tokens of two large expressions are compared in the time that these tokens take.
#[derive(Drop)]
pub struct Printing<'a> {
    waiting: Vec<Waiting<'a>>,
}

impl<'a> Model for Printing<'a> {
    ghost use Rattle.std.specs.Prelude.{List};
    ghost use Rattle.stk_tree.specs.declared.fixed.Lexeme.{Lexeme};
    ghost use Rattle.stk_tree_walk.specs.Waiting.{left_of};

    ghost Value = { List Lexeme };

    ghost view = { λ p. left_of p.waiting.items };
}

// The first token of what waited first, where it prints any; what is behind it waits again.
fn open<'a>(item: Waiting<'a>, out: &mut Vec<Waiting<'a>>) -> Result<Option<Lexeme>, NoMemory>
    ensures left { IfOk result (λ t. given t ++ left_of out.new.items ≡ tokens_of item.entry ++ left_of out.old.items) }
    ensures falls { IfOk result (λ t. t ≡ None → heft out.new.items < heft_of item.entry + heft out.old.items) }
{
    match item {
        Waiting::Token(t) => Ok(Some(t)),
        Waiting::Texts(parts) => first_text(parts, out),
        Waiting::Words(words) => first_word(words, out),
        Waiting::Stars(count) => first_star(count, out),
        Waiting::Expression(e) => open_expression(e, out),
        Waiting::MoreArguments(list) => more_arguments(list, out),
        Waiting::Base(b) => open_base(b, out),
        Waiting::Dimensions(list) => open_dimensions(list, out),
        Waiting::MoreEnumerators(list) => more_enumerators(list, out),
        Waiting::MoreDeclarators(list) => more_declarators(list, out),
        Waiting::Tail(t) => open_tail(t, out),
        Waiting::MoreParameters(list) => more_parameters(list, out),
        Waiting::Initialiser(x) => open_initialiser(x, out),
        Waiting::MoreItems(list) => more_items(list, out),
        Waiting::Designators(list) => open_designators(list, out),
        Waiting::Arguments(list) => {
            put_arguments(list, out)?;
            Ok(None)
        }
        Waiting::Type(t) => {
            put_type(t, out)?;
            Ok(None)
        }
        Waiting::Members(list) => {
            put_members(list, out)?;
            Ok(None)
        }
        Waiting::Enumerators(list) => {
            put_enumerators(list, out)?;
            Ok(None)
        }
        Waiting::Declarator(d) => {
            put_declarator(d, out)?;
            Ok(None)
        }
        Waiting::Declarators(list) => {
            put_declarators(list, out)?;
            Ok(None)
        }
        Waiting::Parameters(list) => {
            put_parameters(list, out)?;
            Ok(None)
        }
        Waiting::Items(list) => {
            put_items(list, out)?;
            Ok(None)
        }
    }
}

impl<'a> Printing<'a> {
    /// All tokens of an expression.
    pub fn new(alloc: Global, e: &'a Expr) -> Result<Printing<'a>, NoMemory>
        ensures { IfOk result (λ p. p ≡ expression_tokens (view_expression e.now)) }
    {
        let mut waiting = Vec::new(alloc);
        put(Waiting::Expression(e), &mut waiting)?;
        Ok(Printing { waiting })
    }

    /// The next token, which is no longer left; `None` exactly where none is left.
    pub fn next(&mut self) -> Result<Option<Lexeme>, NoMemory>
        ensures { IfOk result (λ next. MatchOption next (self.old ≡ []) (λ t. self.old ≡ t ∷ self.new)) }
    {
        while let Some(item) = self.waiting.pop() {
            match open(item, &mut self.waiting)? {
                Some(token) => return Ok(Some(token)),
                None => {}
            }
        }
        Ok(None)
    }
}

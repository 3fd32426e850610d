//! Bases with braces (C11 6.7.2).

ghost use Rattle.std.specs.Prelude.{◌≡◌, ◌≤◌, ◌<◌, map};
ghost use Rattle.stk_tree.specs.Nesting.{most_nesting};
ghost use Rattle.stk_tree.specs.View.{enumerators, given_expression, members, view_base_form, view_enumerator, view_member};
ghost use Rattle.stk_grammar.specs.DeclarationReading.{enum_behind, enumerator_at, enumerators_at, full_base_at, full_base_on, member_at, members_at, optional_word_at, struct_behind, value_at};
ghost use Rattle.stk_ctype.specs.Named.{named};
ghost use Rattle.stk_expr.specs.Gives.{Gives};

use crate::build;
use crate::declarators::{DeclaratorScope, declarators};
use crate::fronts::name_at;
use crate::turns::{Turn, brace_turn};
use std::alloc::Global;
use stk_base::{Class, List};
use stk_ctype::Names;
use stk_expr::{Parse, bases, basic_base, is_named, stopped};
use stk_grammar::{behind_assign, behind_left_brace, behind_right_brace, optional_word_at};
use stk_tree::{BaseForm, Enumr, Expr, Fixed, Lexeme, Member, levels};

/// The value that may be given to an enumerator, with its `=`.
fn value<'a>(
    alloc: Global,
    bytes: &[u8],
    names: &Names,
    room: usize,
    lexemes: &'a [Lexeme],
) -> Result<(Option<Expr>, &'a [Lexeme]), Parse>
    requires { room ≤ most_nesting }
    ensures { Gives (λ x. (given_expression x.0, x.1.now)) result (value_at (named bytes.now names.now) room lexemes.now) }
{
    let Some(next) = behind_assign(lexemes) else {
        return Ok((None, lexemes));
    };
    let found = stopped(alloc, bytes, names, room, levels::CONDITIONAL, next)?;
    Ok((Some(found.tree.into_inner()), found.rest))
}

/// An enumerator.
#[tactic(auto, unfolding(stk_grammar::specs::DeclarationReading::enumerator_at))]
fn enumerator<'a>(
    alloc: Global,
    bytes: &[u8],
    names: &Names,
    room: usize,
    lexemes: &'a [Lexeme],
) -> Result<(Enumr, &'a [Lexeme]), Parse>
    requires { room ≤ most_nesting }
    ensures { Gives (λ x. (view_enumerator x.0, x.1.now)) result (enumerator_at (named bytes.now names.now) room lexemes.now) }
{
    let Some((name, rest)) = name_at(bytes, names, lexemes) else {
        return Err(Parse::NoTree);
    };
    let (value, rest) = value(alloc, bytes, names, room, rest)?;
    Ok((build::enumerator(name, value), rest))
}

/// One enumerator or more, whether a comma stands behind the last one, and the `}`. The bound is for the prover: each
/// turn takes a token, so there are no more turns than tokens.
#[tactic(auto, unfolding(stk_grammar::specs::DeclarationReading::enumerators_at))]
fn enumerators<'a>(
    alloc: Global,
    bytes: &[u8],
    names: &Names,
    room: usize,
    lexemes: &'a [Lexeme],
) -> Result<(List<Enumr>, bool, &'a [Lexeme]), Parse>
    requires { room ≤ most_nesting }
    ensures { Gives (λ x. ((enumerators (map view_enumerator x.0), x.1), x.2.now)) result (enumerators_at (enumerator_at (named bytes.now names.now) room) lexemes.now) }
{
    let (first, mut rest) = enumerator(alloc, bytes, names, room, lexemes)?;
    let mut list = Vec::new(alloc);
    list.push(first)?;
    for _turn in 0..rest.len() + 1 {
        let Some((turn, next)) = brace_turn(rest) else {
            return Err(Parse::NoTree);
        };
        if let Turn::End(comma) = turn {
            return Ok((List::from_vec(list), comma, next));
        }
        let (found, behind) = enumerator(alloc, bytes, names, room, next)?;
        list.push(found)?;
        rest = behind;
    }
    Err(Parse::NoTree)
}

/// What stands behind `enum`.
fn enum_base<'a>(
    alloc: Global,
    bytes: &[u8],
    names: &Names,
    room: usize,
    lexemes: &'a [Lexeme],
) -> Result<(BaseForm, &'a [Lexeme]), Parse>
    requires { room ≤ most_nesting }
    ensures { Gives (λ x. (view_base_form x.0, x.1.now)) result (enum_behind (enumerators_at (enumerator_at (named bytes.now names.now) room)) (optional_word_at lexemes.now)) }
{
    let (tag, rest) = optional_word_at(lexemes);
    if let Some(inside) = behind_left_brace(rest) {
        let (list, comma, rest) = enumerators(alloc, bytes, names, room, inside)?;
        return Ok((build::enum_def(tag, list, comma), rest));
    }
    match tag {
        None => Err(Parse::NoTree),
        Some(tag) => Ok((bases::enum_ref(tag), rest)),
    }
}

/// A member.
#[cycle(base)]
fn member<'a>(
    alloc: Global,
    bytes: &[u8],
    names: &Names,
    room: usize,
    lexemes: &'a [Lexeme],
) -> Result<(Member, &'a [Lexeme]), Parse>
    requires { room < most_nesting }
    ensures { Gives (λ x. (view_member x.0, x.1.now)) result (member_at (named bytes.now names.now) room (full_base_at (named bytes.now names.now) room) lexemes.now) }
{
    let (form, rest) = full_base(alloc, bytes, names, room, lexemes)?;
    let (list, rest) = declarators(alloc, bytes, names, DeclaratorScope::Member, room, rest)?;
    Ok((build::member(form, list), rest))
}

/// One member or more, and the `}`. The bound is for the prover: each turn takes a token, so there are no more turns
/// than tokens.
#[cycle(base)]
#[tactic(auto, unfolding(stk_grammar::specs::DeclarationReading::members_at))]
fn members<'a>(
    alloc: Global,
    bytes: &[u8],
    names: &Names,
    room: usize,
    lexemes: &'a [Lexeme],
) -> Result<(List<Member>, &'a [Lexeme]), Parse>
    requires { room < most_nesting }
    ensures { Gives (λ x. (members (map view_member x.0), x.1.now)) result (members_at (member_at (named bytes.now names.now) room (full_base_at (named bytes.now names.now) room)) lexemes.now) }
{
    let (first, mut rest) = member(alloc, bytes, names, room, lexemes)?;
    let mut list = Vec::new(alloc);
    list.push(first)?;
    for _turn in 0..rest.len() + 1 {
        if let Some(behind) = behind_right_brace(rest) {
            return Ok((List::from_vec(list), behind));
        }
        let (found, behind) = member(alloc, bytes, names, room, rest)?;
        list.push(found)?;
        rest = behind;
    }
    Err(Parse::NoTree)
}

/// What stands behind `struct`.
#[cycle(base)]
fn struct_base<'a>(
    alloc: Global,
    bytes: &[u8],
    names: &Names,
    room: usize,
    lexemes: &'a [Lexeme],
) -> Result<(BaseForm, &'a [Lexeme]), Parse>
    requires { room < most_nesting }
    ensures { Gives (λ x. (view_base_form x.0, x.1.now)) result (struct_behind (members_at (member_at (named bytes.now names.now) room (full_base_at (named bytes.now names.now) room))) (optional_word_at lexemes.now)) }
{
    let (tag, rest) = optional_word_at(lexemes);
    if let Some(inside) = behind_left_brace(rest) {
        let (list, rest) = members(alloc, bytes, names, room, inside)?;
        return Ok((build::struct_def(tag, list), rest));
    }
    match tag {
        None => Err(Parse::NoTree),
        Some(tag) => Ok((bases::struct_ref(tag), rest)),
    }
}

/// A base that begins with a reserved word, which is past.
#[cycle(base)]
fn reserved_base<'a>(
    alloc: Global,
    bytes: &[u8],
    names: &Names,
    room: usize,
    word: Fixed,
    lexemes: &'a [Lexeme],
) -> Result<(BaseForm, &'a [Lexeme]), Parse>
    requires { room < most_nesting }
    ensures { Gives (λ x. (view_base_form x.0, x.1.now)) result (full_base_on (members_at (member_at (named bytes.now names.now) room (full_base_at (named bytes.now names.now) room))) (enumerators_at (enumerator_at (named bytes.now names.now) room)) word lexemes.now) }
{
    match word {
        Fixed::Struct => struct_base(alloc, bytes, names, room, lexemes),
        Fixed::Enum => enum_base(alloc, bytes, names, room, lexemes),
        _ => basic_base(alloc, word, lexemes),
    }
}

/// A base that may have braces, of at most the nesting `room`.
#[cycle(base)]
#[tactic(auto, unfolding(stk_grammar::specs::DeclarationReading::full_base_at))]
pub(crate) fn full_base<'a>(
    alloc: Global,
    bytes: &[u8],
    names: &Names,
    room: usize,
    lexemes: &'a [Lexeme],
) -> Result<(BaseForm, &'a [Lexeme]), Parse>
    requires { room ≤ most_nesting }
    ensures { Gives (λ x. (view_base_form x.0, x.1.now)) result (full_base_at (named bytes.now names.now) room lexemes.now) }
{
    if room == 0 {
        return Err(Parse::NoTree);
    }
    let Some((lexeme, rest)) = lexemes.split_first() else {
        return Err(Parse::NoTree);
    };
    match lexeme {
        Lexeme::Leaf(Class::Word, at) => {
            if is_named(bytes, names, *at) {
                Ok((bases::named(*at), rest))
            } else {
                Err(Parse::NoTree)
            }
        }
        Lexeme::Leaf(_, _) => Err(Parse::NoTree),
        Lexeme::Fixed(word) => reserved_base(alloc, bytes, names, room - 1, *word, rest),
    }
}

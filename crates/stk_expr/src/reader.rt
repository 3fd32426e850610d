//! The readers of expressions: each reads what its definition reads, until memory runs out.
//!
//! They call one another no deeper than the nesting that is left, and each loop takes a token or more in a turn.

ghost use Rattle.std.specs.Prelude.{◌≡◌, ◌+◌, ◌*◌, ◌<◌, ◌≤◌, max, suc, true, false, IfOk, length, map};
ghost use Rattle.stk_tree.specs.Nesting.{dimension_nesting, dimensions_nesting, most_nesting};
ghost use Rattle.stk_tree.specs.View.{dimensions, expressions, view_dimension, view_expression, view_type_name};
ghost use Rattle.stk_grammar.specs.Reading.{arguments, before_at, begins_type, behind_left_paren, behind_right_bracket, climb, dimension_at, dimensions_at, expression_at, operand_at, opens_type, paren_at, size_at, tail_at, type_at};
ghost use Rattle.stk_grammar.specs.declared.tables.Suffix.TheVariants.{Assign, Binary, Call, Choice, Index};
ghost use Rattle.stk_ctype.specs.Named.{named};
ghost use Rattle.stk_expr.specs.Gives.{AreRead, Gives, IsRead, IsTypeRead};
ghost use Rattle.stk_expr.specs.Prefixes.{prefix_form, prefix_operand};

use crate::build::{self, Prefix};
use crate::front::{base, begins_type, first_opener, opens_type, taken};
use crate::leaves::{self, Found};
use crate::parse::Parse;
use std::alloc::Global;
use stk_base::{Boxed, List};
use stk_ctype::Names;
use stk_grammar::{
    Opener, Suffix, behind_colon, behind_comma, behind_left_bracket, behind_left_paren,
    behind_right_bracket, behind_right_paren, stars_at,
};
use stk_tree::{
    AssignOp, BinaryOp, Dimension, Expr, Lexeme, StepOp, TypeName, binary_level, levels,
};

/// A type name that was read, its nesting, and the tokens behind it.
#[derive(Drop)]
struct FoundType<'a> {
    name: TypeName,
    nesting: usize,
    rest: &'a [Lexeme],
}

/// Array parts that were read, how deep they nest, and the tokens behind them.
#[derive(Drop)]
pub struct FoundDimensions<'a> {
    pub list: List<Dimension>,
    pub nesting: usize,
    pub rest: &'a [Lexeme],
}

/// Arguments that were read, the greatest nesting among them, and the tokens behind them.
#[derive(Drop)]
struct FoundAll<'a> {
    list: List<Expr>,
    nesting: usize,
    rest: &'a [Lexeme],
}

/// An expression of the level `least` or a higher one, of at most the nesting `room`.
#[cycle(reader)]
#[tactic(auto, unfolding(stk_grammar::specs::Reading::expression_at))]
pub fn expression<'a>(
    alloc: Global,
    bytes: &[u8],
    names: &Names,
    room: usize,
    least: usize,
    lexemes: &'a [Lexeme],
) -> Result<Found<'a>, Parse>
    requires { room ≤ most_nesting }
    ensures value { Gives (λ x. (view_expression x.tree, x.rest.now)) result (expression_at (named bytes.now names.now) room least lexemes.now) }
    ensures nesting { IfOk result (λ x. IsRead room (view_expression x.tree) x.nesting x.level) }
{
    if room == 0 {
        return Err(Parse::NoTree);
    }
    let inner = room - 1;
    let Some((opener, rest)) = first_opener(lexemes) else {
        return Err(Parse::NoTree);
    };
    let found = operand(alloc, bytes, names, inner, least, opener, rest)?;
    climb(alloc, bytes, names, inner, least, found)
}

/// What an expression begins with, whose first token is past.
#[cycle(reader)]
#[tactic(auto, unfolding(stk_grammar::specs::Reading::operand_at))]
fn operand<'a>(
    alloc: Global,
    bytes: &[u8],
    names: &Names,
    inner: usize,
    least: usize,
    opener: Opener,
    lexemes: &'a [Lexeme],
) -> Result<Found<'a>, Parse>
    requires { inner < most_nesting }
    ensures value { Gives (λ x. (view_expression x.tree, x.rest.now)) result (operand_at (named bytes.now names.now) (expression_at (named bytes.now names.now) inner) inner least opener lexemes.now) }
    ensures nesting { IfOk result (λ x. IsRead (inner + 1) (view_expression x.tree) x.nesting x.level) }
{
    match opener {
        Opener::Name(at) => leaves::name(alloc, bytes, names, at, lexemes),
        Opener::Number(at) => leaves::number(alloc, at, lexemes),
        Opener::Character(at) => leaves::character(alloc, at, lexemes),
        Opener::Text(at) => leaves::text(alloc, at, lexemes),
        Opener::Paren => paren(alloc, bytes, names, inner, least, lexemes),
        Opener::SizeOf => size(alloc, bytes, names, inner, least, lexemes),
        Opener::Increment => {
            let prefix = Prefix::Increment;
            before(alloc, bytes, names, inner, least, prefix, lexemes)
        }
        Opener::Decrement => {
            let prefix = Prefix::Decrement;
            before(alloc, bytes, names, inner, least, prefix, lexemes)
        }
        Opener::Unary(op) => {
            let prefix = Prefix::Unary(op);
            before(alloc, bytes, names, inner, least, prefix, lexemes)
        }
    }
}

/// Behind a left parenthesis: a cast where a type name begins, and else an expression in parentheses.
#[cycle(reader)]
fn paren<'a>(
    alloc: Global,
    bytes: &[u8],
    names: &Names,
    inner: usize,
    least: usize,
    lexemes: &'a [Lexeme],
) -> Result<Found<'a>, Parse>
    requires { inner < most_nesting }
    ensures value { Gives (λ x. (view_expression x.tree, x.rest.now)) result (paren_at (named bytes.now names.now) (expression_at (named bytes.now names.now) inner) inner least (begins_type (named bytes.now names.now) lexemes.now) lexemes.now) }
    ensures nesting { IfOk result (λ x. IsRead (inner + 1) (view_expression x.tree) x.nesting x.level) }
{
    if begins_type(bytes, names, lexemes) {
        cast(alloc, bytes, names, inner, least, lexemes)
    } else {
        enclosed(alloc, bytes, names, inner, lexemes)
    }
}

/// A cast, behind its `(`.
#[cycle(reader)]
fn cast<'a>(
    alloc: Global,
    bytes: &[u8],
    names: &Names,
    inner: usize,
    least: usize,
    lexemes: &'a [Lexeme],
) -> Result<Found<'a>, Parse>
    requires { inner < most_nesting }
    ensures value { Gives (λ x. (view_expression x.tree, x.rest.now)) result (paren_at (named bytes.now names.now) (expression_at (named bytes.now names.now) inner) inner least true lexemes.now) }
    ensures nesting { IfOk result (λ x. IsRead (inner + 1) (view_expression x.tree) x.nesting x.level) }
{
    if least > 14 {
        return Err(Parse::NoTree);
    }
    let target = type_name(alloc, bytes, names, inner, lexemes)?;
    let Some(rest) = behind_right_paren(target.rest) else {
        return Err(Parse::NoTree);
    };
    let found = expression(alloc, bytes, names, inner, levels::CAST, rest)?;
    Ok(Found {
        tree: build::cast(alloc, target.name, found.tree)?,
        nesting: target.nesting.max(found.nesting) + 1,
        level: levels::CAST,
        rest: found.rest,
    })
}

/// An expression in parentheses, behind its `(`.
#[cycle(reader)]
fn enclosed<'a>(
    alloc: Global,
    bytes: &[u8],
    names: &Names,
    inner: usize,
    lexemes: &'a [Lexeme],
) -> Result<Found<'a>, Parse>
    requires { inner < most_nesting }
    ensures value { Gives (λ x. (view_expression x.tree, x.rest.now)) result (paren_at (named bytes.now names.now) (expression_at (named bytes.now names.now) inner) inner 1 false lexemes.now) }
    ensures nesting { IfOk result (λ x. IsRead (inner + 1) (view_expression x.tree) x.nesting x.level) }
{
    let found = expression(alloc, bytes, names, inner, levels::COMMA, lexemes)?;
    let Some(rest) = behind_right_paren(found.rest) else {
        return Err(Parse::NoTree);
    };
    Ok(Found {
        tree: build::paren(alloc, found.tree)?,
        nesting: found.nesting + 1,
        level: levels::PRIMARY,
        rest,
    })
}

/// Behind `sizeof`: a type name in parentheses where one begins, and else an operand.
#[cycle(reader)]
fn size<'a>(
    alloc: Global,
    bytes: &[u8],
    names: &Names,
    inner: usize,
    least: usize,
    lexemes: &'a [Lexeme],
) -> Result<Found<'a>, Parse>
    requires { inner < most_nesting }
    ensures value { Gives (λ x. (view_expression x.tree, x.rest.now)) result (size_at (named bytes.now names.now) (expression_at (named bytes.now names.now) inner) inner least (opens_type (named bytes.now names.now) (behind_left_paren lexemes.now)) lexemes.now) }
    ensures nesting { IfOk result (λ x. IsRead (inner + 1) (view_expression x.tree) x.nesting x.level) }
{
    if !opens_type(bytes, names, lexemes) {
        return before(alloc, bytes, names, inner, least, Prefix::Size, lexemes);
    }
    if least > 15 {
        return Err(Parse::NoTree);
    }
    let Some(inside) = behind_left_paren(lexemes) else {
        return Err(Parse::NoTree);
    };
    let target = type_name(alloc, bytes, names, inner, inside)?;
    let Some(rest) = behind_right_paren(target.rest) else {
        return Err(Parse::NoTree);
    };
    Ok(Found {
        tree: build::size_name(alloc, target.name)?,
        nesting: target.nesting + 1,
        level: levels::UNARY,
        rest,
    })
}

/// An operator before its operand, whose token is past.
#[cycle(reader)]
fn before<'a>(
    alloc: Global,
    bytes: &[u8],
    names: &Names,
    inner: usize,
    least: usize,
    prefix: Prefix,
    lexemes: &'a [Lexeme],
) -> Result<Found<'a>, Parse>
    requires { inner < most_nesting }
    ensures value { Gives (λ x. (view_expression x.tree, x.rest.now)) result (before_at (expression_at (named bytes.now names.now) inner) least (prefix_operand prefix) (prefix_form prefix) lexemes.now) }
    ensures nesting { IfOk result (λ x. IsRead (inner + 1) (view_expression x.tree) x.nesting x.level) }
{
    if least > 15 {
        return Err(Parse::NoTree);
    }
    let found = expression(alloc, bytes, names, inner, prefix.operand(), lexemes)?;
    Ok(Found {
        tree: build::prefixed(alloc, prefix, found.tree)?,
        nesting: found.nesting + 1,
        level: levels::UNARY,
        rest: found.rest,
    })
}

/// A type name, of at most the nesting `inner`.
#[cycle(reader)]
#[tactic(auto, unfolding(stk_grammar::specs::Reading::type_at))]
fn type_name<'a>(
    alloc: Global,
    bytes: &[u8],
    names: &Names,
    inner: usize,
    lexemes: &'a [Lexeme],
) -> Result<FoundType<'a>, Parse>
    requires { inner < most_nesting }
    ensures value { Gives (λ x. (view_type_name x.name, x.rest.now)) result (type_at (named bytes.now names.now) (expression_at (named bytes.now names.now) inner) inner lexemes.now) }
    ensures nesting { IfOk result (λ x. IsTypeRead inner (view_type_name x.name) x.nesting) }
{
    let (form, rest) = base(alloc, bytes, names, lexemes)?;
    let (stars, rest) = stars_at(rest);
    let found = array_parts(alloc, bytes, names, inner, rest)?;
    let nesting = (found.nesting + stars).max(1) + 1;
    if nesting > inner {
        return Err(Parse::NoTree);
    }
    Ok(FoundType {
        name: build::type_name(form, stars as u32, found.list),
        nesting,
        rest: found.rest,
    })
}

/// The greater of two nestings.
pub fn higher(left: usize, right: usize) -> usize
    ensures { result ≡ max left right }
{
    if left < right { right } else { left }
}

/// Array parts in a row, with sizes that nest at most `inner` deep (C11 6.7.6.2). `NoTree` where a `[` begins none.
#[cycle(reader)]
pub fn array_parts<'a>(
    alloc: Global,
    bytes: &[u8],
    names: &Names,
    inner: usize,
    lexemes: &'a [Lexeme],
) -> Result<FoundDimensions<'a>, Parse>
    requires { inner ≤ most_nesting }
    ensures value { Gives (λ x. (dimensions (map view_dimension x.list), x.rest.now)) result (dimensions_at (expression_at (named bytes.now names.now) inner) (suc (length lexemes.now)) lexemes.now) }
    ensures nesting { IfOk result (λ x. (x.nesting ≡ dimensions_nesting (dimensions (map view_dimension x.list))) × (x.nesting ≤ inner + length lexemes.now)) }
{
    let mut list = Vec::new(alloc);
    let mut nesting = 0;
    let mut rest = lexemes;
    while let Some(inside) = behind_left_bracket(rest) {
        let found = array_part(alloc, bytes, names, inner, inside)?;
        list.push(found.part)?;
        nesting = higher(nesting, found.nesting + list.len());
        rest = found.rest;
    }
    Ok(FoundDimensions {
        list: List::from_vec(list),
        nesting,
        rest,
    })
}

/// An array part that was read, its nesting, and the tokens behind it.
#[derive(Drop)]
struct FoundDimension<'a> {
    part: Dimension,
    nesting: usize,
    rest: &'a [Lexeme],
}

/// An array part, behind its `[`.
#[cycle(reader)]
fn array_part<'a>(
    alloc: Global,
    bytes: &[u8],
    names: &Names,
    inner: usize,
    lexemes: &'a [Lexeme],
) -> Result<FoundDimension<'a>, Parse>
    requires { inner ≤ most_nesting }
    ensures value { Gives (λ x. (view_dimension x.part, x.rest.now)) result (dimension_at (expression_at (named bytes.now names.now) inner) (behind_right_bracket lexemes.now) lexemes.now) }
    ensures nesting { IfOk result (λ x. (x.nesting ≡ dimension_nesting (view_dimension x.part)) × (x.nesting ≤ inner)) }
{
    if let Some(rest) = behind_right_bracket(lexemes) {
        return Ok(FoundDimension {
            part: build::open(),
            nesting: 0,
            rest,
        });
    }
    let found = expression(alloc, bytes, names, inner, levels::CONDITIONAL, lexemes)?;
    let Some(rest) = behind_right_bracket(found.rest) else {
        return Err(Parse::NoTree);
    };
    Ok(FoundDimension {
        part: build::sized(found.tree),
        nesting: found.nesting,
        rest,
    })
}

/// The operand with what stands behind it, as long as that belongs to an expression of the level `least`.
#[cycle(reader)]
fn climb<'a>(
    alloc: Global,
    bytes: &[u8],
    names: &Names,
    inner: usize,
    least: usize,
    found: Found<'a>,
) -> Result<Found<'a>, Parse>
    requires room { inner < most_nesting }
    requires nesting { IsRead (inner + 1) (view_expression found.tree) found.nesting found.level }
    ensures value { Gives (λ x. (view_expression x.tree, x.rest.now)) result (climb (expression_at (named bytes.now names.now) inner) inner least (suc (suc inner)) (view_expression found.entry.tree) found.entry.rest.now) }
    ensures nesting { IfOk result (λ x. IsRead (inner + 1) (view_expression x.tree) x.nesting x.level) }
{
    let mut left = found;
    while let Some((suffix, rest)) = taken(least, left.level, left.rest) {
        if left.nesting > inner {
            return Err(Parse::NoTree);
        }
        left = tail(alloc, bytes, names, inner, suffix, left, rest)?;
    }
    Ok(left)
}

/// An operand with its suffix, whose first token is past.
#[cycle(reader)]
#[tactic(auto, unfolding(stk_grammar::specs::Reading::tail_at))]
fn tail<'a>(
    alloc: Global,
    bytes: &[u8],
    names: &Names,
    inner: usize,
    suffix: Suffix,
    left: Found<'a>,
    lexemes: &'a [Lexeme],
) -> Result<Found<'a>, Parse>
    requires room { inner < most_nesting }
    requires nesting { IsRead inner (view_expression left.tree) left.nesting left.level }
    ensures value { Gives (λ x. (view_expression x.tree, x.rest.now)) result (tail_at (expression_at (named bytes.now names.now) inner) suffix (view_expression left.entry.tree) lexemes.now) }
    ensures nesting { IfOk result (λ x. IsRead (inner + 1) (view_expression x.tree) x.nesting x.level) }
    ensures higher { IfOk result (λ x. left.entry.nesting < x.nesting) }
{
    match suffix {
        Suffix::Binary(op) => binary_tail(alloc, bytes, names, inner, op, left, lexemes),
        Suffix::Assign(op) => assign_tail(alloc, bytes, names, inner, op, left, lexemes),
        Suffix::Choice => choice_tail(alloc, bytes, names, inner, left, lexemes),
        Suffix::Index => index_tail(alloc, bytes, names, inner, left, lexemes),
        Suffix::Call => call_tail(alloc, bytes, names, inner, left, lexemes),
        Suffix::Dot => leaves::dot_tail(alloc, left, lexemes),
        Suffix::Arrow => leaves::arrow_tail(alloc, left, lexemes),
        Suffix::Increment => leaves::stepped_tail(alloc, StepOp::IncAfter, left, lexemes),
        Suffix::Decrement => leaves::stepped_tail(alloc, StepOp::DecAfter, left, lexemes),
    }
}

/// An operand with a binary operator and its right operand, behind the operator.
#[cycle(reader)]
#[tactic(auto, unfolding(stk_grammar::specs::Reading::tail_at))]
fn binary_tail<'a>(
    alloc: Global,
    bytes: &[u8],
    names: &Names,
    inner: usize,
    op: BinaryOp,
    left: Found<'a>,
    lexemes: &'a [Lexeme],
) -> Result<Found<'a>, Parse>
    requires room { inner < most_nesting }
    requires nesting { IsRead inner (view_expression left.tree) left.nesting left.level }
    ensures value { Gives (λ x. (view_expression x.tree, x.rest.now)) result (tail_at (expression_at (named bytes.now names.now) inner) (Binary op) (view_expression left.entry.tree) lexemes.now) }
    ensures nesting { IfOk result (λ x. IsRead (inner + 1) (view_expression x.tree) x.nesting x.level) }
    ensures higher { IfOk result (λ x. left.entry.nesting < x.nesting) }
{
    let level = binary_level(op);
    let right = expression(alloc, bytes, names, inner, level + 1, lexemes)?;
    Ok(Found {
        tree: build::binary(alloc, op, left.tree, right.tree)?,
        nesting: left.nesting.max(right.nesting) + 1,
        level,
        rest: right.rest,
    })
}

/// An operand with an assignment to it, behind the operator.
#[cycle(reader)]
#[tactic(auto, unfolding(stk_grammar::specs::Reading::tail_at))]
fn assign_tail<'a>(
    alloc: Global,
    bytes: &[u8],
    names: &Names,
    inner: usize,
    op: AssignOp,
    left: Found<'a>,
    lexemes: &'a [Lexeme],
) -> Result<Found<'a>, Parse>
    requires room { inner < most_nesting }
    requires nesting { IsRead inner (view_expression left.tree) left.nesting left.level }
    ensures value { Gives (λ x. (view_expression x.tree, x.rest.now)) result (tail_at (expression_at (named bytes.now names.now) inner) (Assign op) (view_expression left.entry.tree) lexemes.now) }
    ensures nesting { IfOk result (λ x. IsRead (inner + 1) (view_expression x.tree) x.nesting x.level) }
    ensures higher { IfOk result (λ x. left.entry.nesting < x.nesting) }
{
    let right = expression(alloc, bytes, names, inner, levels::ASSIGNMENT, lexemes)?;
    Ok(Found {
        tree: build::assign(alloc, op, left.tree, right.tree)?,
        nesting: left.nesting.max(right.nesting) + 1,
        level: levels::ASSIGNMENT,
        rest: right.rest,
    })
}

/// An operand with the choice that it makes, behind the `?`.
#[cycle(reader)]
#[tactic(auto, unfolding(stk_grammar::specs::Reading::tail_at))]
fn choice_tail<'a>(
    alloc: Global,
    bytes: &[u8],
    names: &Names,
    inner: usize,
    left: Found<'a>,
    lexemes: &'a [Lexeme],
) -> Result<Found<'a>, Parse>
    requires room { inner < most_nesting }
    requires nesting { IsRead inner (view_expression left.tree) left.nesting left.level }
    ensures value { Gives (λ x. (view_expression x.tree, x.rest.now)) result (tail_at (expression_at (named bytes.now names.now) inner) Choice (view_expression left.entry.tree) lexemes.now) }
    ensures nesting { IfOk result (λ x. IsRead (inner + 1) (view_expression x.tree) x.nesting x.level) }
    ensures higher { IfOk result (λ x. left.entry.nesting < x.nesting) }
{
    let middle = expression(alloc, bytes, names, inner, levels::COMMA, lexemes)?;
    let Some(rest) = behind_colon(middle.rest) else {
        return Err(Parse::NoTree);
    };
    let last = expression(alloc, bytes, names, inner, levels::CONDITIONAL, rest)?;
    Ok(Found {
        tree: build::choice(alloc, left.tree, middle.tree, last.tree)?,
        nesting: left.nesting.max(middle.nesting.max(last.nesting)) + 1,
        level: levels::CONDITIONAL,
        rest: last.rest,
    })
}

/// An operand with an index, behind the `[`.
#[cycle(reader)]
#[tactic(auto, unfolding(stk_grammar::specs::Reading::tail_at))]
fn index_tail<'a>(
    alloc: Global,
    bytes: &[u8],
    names: &Names,
    inner: usize,
    left: Found<'a>,
    lexemes: &'a [Lexeme],
) -> Result<Found<'a>, Parse>
    requires room { inner < most_nesting }
    requires nesting { IsRead inner (view_expression left.tree) left.nesting left.level }
    ensures value { Gives (λ x. (view_expression x.tree, x.rest.now)) result (tail_at (expression_at (named bytes.now names.now) inner) Index (view_expression left.entry.tree) lexemes.now) }
    ensures nesting { IfOk result (λ x. IsRead (inner + 1) (view_expression x.tree) x.nesting x.level) }
    ensures higher { IfOk result (λ x. left.entry.nesting < x.nesting) }
{
    let place = expression(alloc, bytes, names, inner, levels::COMMA, lexemes)?;
    let Some(rest) = behind_right_bracket(place.rest) else {
        return Err(Parse::NoTree);
    };
    Ok(Found {
        tree: build::index(alloc, left.tree, place.tree)?,
        nesting: left.nesting.max(place.nesting) + 1,
        level: levels::POSTFIX,
        rest,
    })
}

/// An operand with the arguments that it is called with, behind the `(`.
#[cycle(reader)]
#[tactic(auto, unfolding(stk_grammar::specs::Reading::tail_at))]
fn call_tail<'a>(
    alloc: Global,
    bytes: &[u8],
    names: &Names,
    inner: usize,
    left: Found<'a>,
    lexemes: &'a [Lexeme],
) -> Result<Found<'a>, Parse>
    requires room { inner < most_nesting }
    requires nesting { IsRead inner (view_expression left.tree) left.nesting left.level }
    ensures value { Gives (λ x. (view_expression x.tree, x.rest.now)) result (tail_at (expression_at (named bytes.now names.now) inner) Call (view_expression left.entry.tree) lexemes.now) }
    ensures nesting { IfOk result (λ x. IsRead (inner + 1) (view_expression x.tree) x.nesting x.level) }
    ensures higher { IfOk result (λ x. left.entry.nesting < x.nesting) }
{
    let all = arguments(alloc, bytes, names, inner, lexemes)?;
    Ok(Found {
        tree: build::call(alloc, left.tree, all.list)?,
        nesting: left.nesting.max(all.nesting) + 1,
        level: levels::POSTFIX,
        rest: all.rest,
    })
}

/// The arguments of a call, behind its `(`.
#[cycle(reader)]
#[tactic(auto, unfolding(stk_grammar::specs::Reading::arguments))]
fn arguments<'a>(
    alloc: Global,
    bytes: &[u8],
    names: &Names,
    inner: usize,
    lexemes: &'a [Lexeme],
) -> Result<FoundAll<'a>, Parse>
    requires { inner < most_nesting }
    ensures value { Gives (λ x. (expressions (map view_expression x.list), x.rest.now)) result (arguments (expression_at (named bytes.now names.now) inner) lexemes.now) }
    ensures nesting { IfOk result (λ x. AreRead inner (expressions (map view_expression x.list)) x.nesting) }
{
    if let Some(rest) = behind_right_paren(lexemes) {
        return Ok(FoundAll {
            list: List::empty(alloc),
            nesting: 0,
            rest,
        });
    }
    let first = expression(alloc, bytes, names, inner, levels::ASSIGNMENT, lexemes)?;
    let mut list = Vec::new(alloc);
    list.push(first.tree.into_inner())?;
    let mut nesting = first.nesting;
    let mut rest = first.rest;
    while let Some(behind) = behind_comma(rest) {
        let next = expression(alloc, bytes, names, inner, levels::ASSIGNMENT, behind)?;
        list.push(next.tree.into_inner())?;
        nesting = nesting.max(next.nesting);
        rest = next.rest;
    }
    let Some(rest) = behind_right_paren(rest) else {
        return Err(Parse::NoTree);
    };
    Ok(FoundAll {
        list: List::from_vec(list),
        nesting,
        rest,
    })
}

//! The node of each form behind its operands: what its rule makes of the facts of these.

ghost use Rattle.std.specs.Prelude.{◌≡◌, ◌<◌, map, vec_len, IfOk, OnOk, IfSome, List, Option};
ghost use Rattle.std.specs.Option.{option_map, option_copied};
ghost use Rattle.stk_base.specs.Text.{text_of};
ghost use Rattle.stk_ctype.specs.Types.{type_of, signature_of};
ghost use Rattle.stk_ctype.specs.Structs.{structs_of};
ghost use Rattle.stk_ctype.specs.Sound.{IsSound, IsSoundSignature};
ghost use Rattle.stk_tree.specs.View.{view_expression_form, view_base_form};
ghost use Rattle.stk_type_rules.specs.Facts.{AreSoundFacts, Fact, fact_of, fact_at};
ghost use Rattle.stk_type_rules.specs.Outcome.{Gives, IsAt, MakesFact, finish};
ghost use Rattle.stk_type_rules.specs.Rules.{size_rule, type_size_rule, cast_rule, choice_rule};
ghost use Rattle.stk_typing.specs.Scope.{IsSoundScope, scope_of, callee_rule};
ghost use Rattle.stk_typing.specs.Bases.{base_rule};
ghost use Rattle.stk_typing.specs.Arrays.{starred, sized_type};
ghost use Rattle.stk_typing.specs.Calls.{AreArguments, call_rule, parameters_in};
ghost use Rattle.stk_typing.specs.Forms.{structs_in, leaf_rule, single_rule, pair_rule};

use crate::arrays::sized_type;
use crate::calls::{Arguments, call_rule};
use crate::literals::{character_rule, number_rule, text_rule};
use crate::scope::{callee_rule, name_rule};
use crate::{Scoped, Size, base_rule, starred};
use stk_base::Span;
use stk_ctype::Signature;
use stk_tree::{BaseForm, ExprForm};
use stk_type_rules::{
    Broken, NodeFact, Untyped, arrow_rule, assign_rule, binary_rule, cast_rule, choice_rule,
    dot_rule, fact, index_rule, own, paren_rule, size_rule, step_rule, type_size_rule, unary_rule,
};

// What a form without operands is.
fn leaf(s: &Scoped, form: &ExprForm) -> Result<NodeFact, Broken>
    requires scope { IsSoundScope (scope_of s.now) }
    ensures fact { MakesFact (leaf_rule (scope_of s.now) (view_expression_form form.now)) result }
    ensures sound { IfOk result (λ f. IsSound (structs_of s.now.names.now) (type_of f.ty)) }
{
    match form {
        ExprForm::Name(at) => name_rule(s, at.text(s.bytes)),
        ExprForm::Number(at) => number_rule(at.text(s.bytes)),
        ExprForm::Character(at) => character_rule(at.text(s.bytes)),
        ExprForm::Text(parts) => text_rule(s.alloc, s.bytes, parts.as_slice()),
        ExprForm::Paren(_)
        | ExprForm::Index(_, _)
        | ExprForm::Call(_, _)
        | ExprForm::Dot(_, _)
        | ExprForm::Arrow(_, _)
        | ExprForm::Step(_, _)
        | ExprForm::Unary(_, _)
        | ExprForm::SizeExpr(_)
        | ExprForm::SizeName(_)
        | ExprForm::Cast(_, _)
        | ExprForm::Binary(_, _, _)
        | ExprForm::Choice(_, _, _)
        | ExprForm::Assign(_, _, _) => Err(Broken::Rule(6)),
    }
}

// What a form with one operand is.
fn single(s: &Scoped, form: &ExprForm, x: &NodeFact) -> Result<NodeFact, Broken>
    requires scope { IsSoundScope (scope_of s.now) }
    requires x { IsSound (structs_of s.now.names.now) (type_of x.now.ty) }
    ensures fact { MakesFact (single_rule (scope_of s.now) (view_expression_form form.now) (fact_of x.now)) result }
    ensures sound { IfOk result (λ f. IsSound (structs_of s.now.names.now) (type_of f.ty)) }
{
    match form {
        ExprForm::Paren(_) => paren_rule(x),
        ExprForm::Dot(_, at) => dot_rule(s.names, x, at.text(s.bytes)),
        ExprForm::Arrow(_, at) => arrow_rule(s.names, x, at.text(s.bytes)),
        ExprForm::Step(_, _) => step_rule(s.names, x),
        ExprForm::Unary(op, _) => unary_rule(s.alloc, s.names, *op, x),
        ExprForm::Name(_)
        | ExprForm::Number(_)
        | ExprForm::Character(_)
        | ExprForm::Text(_)
        | ExprForm::Index(_, _)
        | ExprForm::Call(_, _)
        | ExprForm::SizeExpr(_)
        | ExprForm::SizeName(_)
        | ExprForm::Cast(_, _)
        | ExprForm::Binary(_, _, _)
        | ExprForm::Choice(_, _, _)
        | ExprForm::Assign(_, _, _) => Err(Broken::Rule(6)),
    }
}

// What a form with two operands is.
fn pair(s: &Scoped, form: &ExprForm, x: &NodeFact, y: &NodeFact) -> Result<NodeFact, Broken>
    requires scope { IsSoundScope (scope_of s.now) }
    requires x { IsSound (structs_of s.now.names.now) (type_of x.now.ty) }
    requires y { IsSound (structs_of s.now.names.now) (type_of y.now.ty) }
    ensures fact { MakesFact (pair_rule (scope_of s.now) (view_expression_form form.now) (fact_of x.now) (fact_of y.now)) result }
    ensures sound { IfOk result (λ f. IsSound (structs_of s.now.names.now) (type_of f.ty)) }
{
    match form {
        ExprForm::Index(_, _) => index_rule(s.names, x, y),
        ExprForm::Binary(op, _, _) => binary_rule(s.alloc, s.names, *op, x, y),
        ExprForm::Assign(op, _, _) => assign_rule(s.names, *op, x, y),
        ExprForm::Name(_)
        | ExprForm::Number(_)
        | ExprForm::Character(_)
        | ExprForm::Text(_)
        | ExprForm::Paren(_)
        | ExprForm::Call(_, _)
        | ExprForm::Dot(_, _)
        | ExprForm::Arrow(_, _)
        | ExprForm::Step(_, _)
        | ExprForm::Unary(_, _)
        | ExprForm::SizeExpr(_)
        | ExprForm::SizeName(_)
        | ExprForm::Cast(_, _)
        | ExprForm::Choice(_, _, _) => Err(Broken::Rule(6)),
    }
}

// Notes a form without operands.
pub(crate) fn by_leaf(
    s: &Scoped,
    facts: &mut Vec<NodeFact>,
    k: u32,
    form: &ExprForm,
) -> Result<usize, Untyped>
    requires scope { IsSoundScope (scope_of s.now) }
    requires sound { AreSoundFacts (structs_of s.now.names.now) (map fact_of facts.old.items) }
    ensures gives { Gives (IsAt (map fact_of facts.new.items)) (finish k (leaf_rule (scope_of s.now) (view_expression_form form.now))) result (map fact_of facts.old.items) (map fact_of facts.new.items) }
    ensures sound { OnOk result (AreSoundFacts (structs_of s.now.names.now) (map fact_of facts.new.items)) }
{
    let made = leaf(s, form);
    own(facts, k, made)
}

// Notes a form with one operand.
pub(crate) fn by_single(
    s: &Scoped,
    facts: &mut Vec<NodeFact>,
    k: u32,
    form: &ExprForm,
    i: usize,
) -> Result<usize, Untyped>
    requires scope { IsSoundScope (scope_of s.now) }
    requires sound { AreSoundFacts (structs_of s.now.names.now) (map fact_of facts.old.items) }
    requires first { i < vec_len facts.old }
    ensures gives { Gives (IsAt (map fact_of facts.new.items)) (finish k (single_rule (scope_of s.now) (view_expression_form form.now) (fact_at (map fact_of facts.old.items) i))) result (map fact_of facts.old.items) (map fact_of facts.new.items) }
    ensures sound { OnOk result (AreSoundFacts (structs_of s.now.names.now) (map fact_of facts.new.items)) }
{
    let made = single(s, form, fact(facts, i));
    own(facts, k, made)
}

// Notes a form with two operands.
pub(crate) fn by_pair(
    s: &Scoped,
    facts: &mut Vec<NodeFact>,
    k: u32,
    form: &ExprForm,
    i: usize,
    j: usize,
) -> Result<usize, Untyped>
    requires scope { IsSoundScope (scope_of s.now) }
    requires sound { AreSoundFacts (structs_of s.now.names.now) (map fact_of facts.old.items) }
    requires first { i < vec_len facts.old }
    requires second { j < vec_len facts.old }
    ensures gives { Gives (IsAt (map fact_of facts.new.items)) (finish k (pair_rule (scope_of s.now) (view_expression_form form.now) (fact_at (map fact_of facts.old.items) i) (fact_at (map fact_of facts.old.items) j))) result (map fact_of facts.old.items) (map fact_of facts.new.items) }
    ensures sound { OnOk result (AreSoundFacts (structs_of s.now.names.now) (map fact_of facts.new.items)) }
{
    let made = pair(s, form, fact(facts, i), fact(facts, j));
    own(facts, k, made)
}

// Notes `e ? e : e`.
pub(crate) fn by_choice(
    s: &Scoped,
    facts: &mut Vec<NodeFact>,
    k: u32,
    i: usize,
    j: usize,
    l: usize,
) -> Result<usize, Untyped>
    requires scope { IsSoundScope (scope_of s.now) }
    requires sound { AreSoundFacts (structs_of s.now.names.now) (map fact_of facts.old.items) }
    requires first { i < vec_len facts.old }
    requires second { j < vec_len facts.old }
    requires third { l < vec_len facts.old }
    ensures gives { Gives (IsAt (map fact_of facts.new.items)) (finish k (choice_rule (fact_at (map fact_of facts.old.items) i) (fact_at (map fact_of facts.old.items) j) (fact_at (map fact_of facts.old.items) l))) result (map fact_of facts.old.items) (map fact_of facts.new.items) }
    ensures sound { OnOk result (AreSoundFacts (structs_of s.now.names.now) (map fact_of facts.new.items)) }
{
    let made = choice_rule(s.alloc, fact(facts, i), fact(facts, j), fact(facts, l));
    own(facts, k, made)
}

// Notes `sizeof e`.
pub(crate) fn by_size(
    s: &Scoped,
    facts: &mut Vec<NodeFact>,
    k: u32,
    i: usize,
) -> Result<usize, Untyped>
    requires scope { IsSoundScope (scope_of s.now) }
    requires sound { AreSoundFacts (structs_of s.now.names.now) (map fact_of facts.old.items) }
    requires first { i < vec_len facts.old }
    ensures gives { Gives (IsAt (map fact_of facts.new.items)) (finish k (size_rule (structs_in (scope_of s.now)) (fact_at (map fact_of facts.old.items) i))) result (map fact_of facts.old.items) (map fact_of facts.new.items) }
    ensures sound { OnOk result (AreSoundFacts (structs_of s.now.names.now) (map fact_of facts.new.items)) }
{
    let made = size_rule(s.names, fact(facts, i));
    own(facts, k, made)
}

// Notes `sizeof ( type )`, with the place of the type name.
pub(crate) fn by_type_size(
    s: &Scoped,
    facts: &mut Vec<NodeFact>,
    k: u32,
    i: usize,
) -> Result<usize, Untyped>
    requires scope { IsSoundScope (scope_of s.now) }
    requires sound { AreSoundFacts (structs_of s.now.names.now) (map fact_of facts.old.items) }
    requires first { i < vec_len facts.old }
    ensures gives { Gives (IsAt (map fact_of facts.new.items)) (finish k (type_size_rule (structs_in (scope_of s.now)) (fact_at (map fact_of facts.old.items) i).ty)) result (map fact_of facts.old.items) (map fact_of facts.new.items) }
    ensures sound { OnOk result (AreSoundFacts (structs_of s.now.names.now) (map fact_of facts.new.items)) }
{
    let made = type_size_rule(s.names, &fact(facts, i).ty);
    own(facts, k, made)
}

// Notes a cast, with the places of the type name and the operand.
pub(crate) fn by_cast(
    s: &Scoped,
    facts: &mut Vec<NodeFact>,
    k: u32,
    i: usize,
    j: usize,
) -> Result<usize, Untyped>
    requires scope { IsSoundScope (scope_of s.now) }
    requires sound { AreSoundFacts (structs_of s.now.names.now) (map fact_of facts.old.items) }
    requires first { i < vec_len facts.old }
    requires second { j < vec_len facts.old }
    ensures gives { Gives (IsAt (map fact_of facts.new.items)) (finish k (cast_rule (fact_at (map fact_of facts.old.items) i).ty (fact_at (map fact_of facts.old.items) j))) result (map fact_of facts.old.items) (map fact_of facts.new.items) }
    ensures sound { OnOk result (AreSoundFacts (structs_of s.now.names.now) (map fact_of facts.new.items)) }
{
    let made = cast_rule(&fact(facts, i).ty, fact(facts, j));
    own(facts, k, made)
}

// Notes a call.
pub(crate) fn by_call(
    s: &Scoped,
    facts: &mut Vec<NodeFact>,
    k: u32,
    f: Option<&Signature>,
    a: Arguments,
) -> Result<usize, Untyped>
    requires scope { IsSoundScope (scope_of s.now) }
    requires sound { AreSoundFacts (structs_of s.now.names.now) (map fact_of facts.old.items) }
    requires function { IfSome (option_copied f) (λ g. IsSoundSignature (structs_of s.now.names.now) (signature_of g)) }
    ensures gives { (xs : List Fact) → AreArguments (parameters_in (option_map signature_of (option_copied f.entry))) xs a → Gives (IsAt (map fact_of facts.new.items)) (finish k (call_rule (option_map signature_of (option_copied f.entry)) xs)) result (map fact_of facts.old.items) (map fact_of facts.new.items) }
    ensures sound { OnOk result (AreSoundFacts (structs_of s.now.names.now) (map fact_of facts.new.items)) }
{
    let made = call_rule(f, a);
    own(facts, k, made)
}

// Notes a name that is called.
pub(crate) fn by_callee(
    s: &Scoped,
    facts: &mut Vec<NodeFact>,
    k: u32,
    at: Span,
) -> Result<usize, Untyped>
    requires scope { IsSoundScope (scope_of s.now) }
    requires sound { AreSoundFacts (structs_of s.now.names.now) (map fact_of facts.old.items) }
    ensures gives { Gives (IsAt (map fact_of facts.new.items)) (finish k (callee_rule (scope_of s.now) (text_of s.now.bytes.now at))) result (map fact_of facts.old.items) (map fact_of facts.new.items) }
    ensures sound { OnOk result (AreSoundFacts (structs_of s.now.names.now) (map fact_of facts.new.items)) }
{
    let made = callee_rule(s, at.text(s.bytes));
    own(facts, k, made)
}

// Notes a base without braces.
pub(crate) fn by_base(
    s: &Scoped,
    facts: &mut Vec<NodeFact>,
    k: u32,
    form: &BaseForm,
) -> Result<usize, Untyped>
    requires scope { IsSoundScope (scope_of s.now) }
    requires sound { AreSoundFacts (structs_of s.now.names.now) (map fact_of facts.old.items) }
    ensures gives { Gives (IsAt (map fact_of facts.new.items)) (finish k (base_rule s.now.bytes.now s.now.names.now (view_base_form form.now))) result (map fact_of facts.old.items) (map fact_of facts.new.items) }
    ensures sound { OnOk result (AreSoundFacts (structs_of s.now.names.now) (map fact_of facts.new.items)) }
{
    let made = base_rule(s.bytes, s.names, form);
    own(facts, k, made)
}

// The type of a type name, with what its base names.
fn named(s: &Scoped, stars: u32, sizes: &[Size], x: &NodeFact) -> Result<NodeFact, Broken>
    requires scope { IsSoundScope (scope_of s.now) }
    requires x { IsSound (structs_of s.now.names.now) (type_of x.now.ty) }
    ensures fact { MakesFact (sized_type (structs_in (scope_of s.now)) sizes.now (starred stars (fact_of x.now).ty)) result }
    ensures sound { IfOk result (λ f. IsSound (structs_of s.now.names.now) (type_of f.ty)) }
{
    let ty = starred(s.alloc, stars, x.ty.copy()?)?;
    sized_type(s.alloc, s.names, sizes, ty)
}

// Notes a type name, with the place of its base.
pub(crate) fn by_type_name(
    s: &Scoped,
    facts: &mut Vec<NodeFact>,
    k: u32,
    stars: u32,
    sizes: &[Size],
    i: usize,
) -> Result<usize, Untyped>
    requires scope { IsSoundScope (scope_of s.now) }
    requires sound { AreSoundFacts (structs_of s.now.names.now) (map fact_of facts.old.items) }
    requires first { i < vec_len facts.old }
    ensures gives { Gives (IsAt (map fact_of facts.new.items)) (finish k (sized_type (structs_in (scope_of s.now)) sizes.now (starred stars (fact_at (map fact_of facts.old.items) i).ty))) result (map fact_of facts.old.items) (map fact_of facts.new.items) }
    ensures sound { OnOk result (AreSoundFacts (structs_of s.now.names.now) (map fact_of facts.new.items)) }
{
    let made = named(s, stars, sizes, fact(facts, i));
    own(facts, k, made)
}

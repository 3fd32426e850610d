//! Expressions and type names.

ghost use Rattle.std.specs.Prelude.{◌≡◌, map, OnOk, IfOk, IfSome, Option};
ghost use Rattle.std.specs.Option.{option_map, option_copied};
ghost use Rattle.stk_ctype.specs.Types.{row_of, signature_of, type_of};
ghost use Rattle.stk_ctype.specs.Structs.{structs_of};
ghost use Rattle.stk_ctype.specs.Sound.{IsSoundSignature};
ghost use Rattle.stk_tree.specs.View.{view_expression, view_type_name, view_base, view_dimension, expressions, dimensions};
ghost use Rattle.stk_type_rules.specs.Facts.{AreSoundFacts, fact_of};
ghost use Rattle.stk_type_rules.specs.Outcome.{Gives, IsAt};
ghost use Rattle.stk_typing.specs.Scope.{IsSoundScope, scope_of, unevaluated};
ghost use Rattle.stk_typing.specs.Calls.{AreArguments};
ghost use Rattle.stk_typing.specs.Typing.{expression_typed, callee_typed, arguments_typed, type_name_typed, dimension_typed, dimensions_typed, base_typed};

use crate::calls::{Arguments, begin_with_struct, behind_first, parameters_in};
use crate::leaves::{
    by_base, by_call, by_callee, by_cast, by_choice, by_leaf, by_pair, by_single, by_size,
    by_type_name, by_type_size,
};
use crate::scope::signature_of_name;
use crate::{Scoped, Size};
use stk_ctype::{CType, Signature};
use stk_tree::{Base, Dimension, Expr, ExprForm, TypeName};
use stk_type_rules::{NodeFact, Untyped, fact};

/// The same names, where nothing is evaluated.
pub fn unevaluated<'a>(s: &Scoped<'a>) -> Scoped<'a>
    ensures is { scope_of result ≡ unevaluated (scope_of s.now) }
    ensures names { result.names.now ≡ s.now.names.now }
{
    Scoped { own: None, ..*s }
}

/// Types an expression (C11 6.5): a fact for each of its nodes is put behind the others, its own last. The answer is
/// the place of its own fact; or the first node that a rule refuses, by the lowest rule that does.
#[cycle(expression)]
pub fn expression(s: &Scoped, facts: &mut Vec<NodeFact>, e: &Expr) -> Result<usize, Untyped>
    requires scope { IsSoundScope (scope_of s.now) }
    requires sound { AreSoundFacts (structs_of s.now.names.now) (map fact_of facts.old.items) }
    ensures gives { Gives (IsAt (map fact_of facts.new.items)) (expression_typed (scope_of s.now) (view_expression e.now)) result (map fact_of facts.old.items) (map fact_of facts.new.items) }
    ensures sound { OnOk result (AreSoundFacts (structs_of s.now.names.now) (map fact_of facts.new.items)) }
{
    let k = e.node.number;
    match &e.form {
        ExprForm::Name(_) | ExprForm::Number(_) | ExprForm::Character(_) | ExprForm::Text(_) => {
            by_leaf(s, facts, k, &e.form)
        }
        ExprForm::Paren(x)
        | ExprForm::Dot(x, _)
        | ExprForm::Arrow(x, _)
        | ExprForm::Step(_, x)
        | ExprForm::Unary(_, x) => {
            let i = expression(s, facts, x.get())?;
            by_single(s, facts, k, &e.form, i)
        }
        ExprForm::Index(a, b) | ExprForm::Binary(_, a, b) | ExprForm::Assign(_, a, b) => {
            let i = expression(s, facts, a.get())?;
            let j = expression(s, facts, b.get())?;
            by_pair(s, facts, k, &e.form, i, j)
        }
        ExprForm::Choice(a, b, c) => {
            let i = expression(s, facts, a.get())?;
            let j = expression(s, facts, b.get())?;
            let l = expression(s, facts, c.get())?;
            by_choice(s, facts, k, i, j, l)
        }
        ExprForm::SizeExpr(x) => {
            let i = expression(&unevaluated(s), facts, x.get())?;
            by_size(s, facts, k, i)
        }
        ExprForm::SizeName(t) => {
            let i = type_name(s, facts, t)?;
            by_type_size(s, facts, k, i)
        }
        ExprForm::Cast(t, x) => {
            let i = type_name(s, facts, t)?;
            let j = expression(s, facts, x.get())?;
            by_cast(s, facts, k, i, j)
        }
        ExprForm::Call(f, args) => {
            let signature = callee(s, facts, f.get())?;
            let a = arguments(s, facts, args.as_slice(), parameters_in(signature))?;
            by_call(s, facts, k, signature, a)
        }
    }
}

// What is called: the signature of a function's name, and none of any other expression.
#[cycle(expression)]
fn callee<'a>(
    s: &Scoped<'a>,
    facts: &mut Vec<NodeFact>,
    e: &Expr,
) -> Result<Option<&'a Signature>, Untyped>
    requires scope { IsSoundScope (scope_of s.now) }
    requires sound { AreSoundFacts (structs_of s.now.names.now) (map fact_of facts.old.items) }
    ensures gives { Gives (λ f r. option_map signature_of (option_copied r) ≡ f) (callee_typed (scope_of s.now) (view_expression e.now)) result (map fact_of facts.old.items) (map fact_of facts.new.items) }
    ensures sound { OnOk result (AreSoundFacts (structs_of s.now.names.now) (map fact_of facts.new.items)) }
    ensures function { IfOk result (λ r. IfSome (option_copied r) (λ g. IsSoundSignature (structs_of s.now.names.now) (signature_of g))) }
{
    match e.form.as_name() {
        Some(at) => {
            let _ = by_callee(s, facts, e.node.number, at)?;
            Ok(signature_of_name(s, at.text(s.bytes)))
        }
        None => {
            let _ = expression(s, facts, e)?;
            Ok(None)
        }
    }
}

// What is known of the arguments of a call for these parameters, typed one after the other.
#[cycle(expression)]
fn arguments(
    s: &Scoped,
    facts: &mut Vec<NodeFact>,
    list: &[Expr],
    params: &[CType],
) -> Result<Arguments, Untyped>
    requires scope { IsSoundScope (scope_of s.now) }
    requires sound { AreSoundFacts (structs_of s.now.names.now) (map fact_of facts.old.items) }
    ensures gives { Gives (AreArguments (row_of (map type_of params.now))) (arguments_typed (scope_of s.now) (expressions (map view_expression list.now))) result (map fact_of facts.old.items) (map fact_of facts.new.items) }
    ensures sound { OnOk result (AreSoundFacts (structs_of s.now.names.now) (map fact_of facts.new.items)) }
{
    let mut all = Arguments::none();
    let mut left = params;
    for e in list {
        let i = expression(s, facts, e)?;
        all = all.behind(begin_with_struct(left), fact(facts, i));
        left = behind_first(left);
    }
    Ok(all)
}

/// Types a type name (C11 6.7.7): its base, the sizes of its array parts, which aren't evaluated, and itself. The
/// answer is the place of its own fact, whose type is the one that it names; or the first node that a rule refuses.
#[cycle(expression)]
pub(crate) fn type_name(
    s: &Scoped,
    facts: &mut Vec<NodeFact>,
    t: &TypeName,
) -> Result<usize, Untyped>
    requires scope { IsSoundScope (scope_of s.now) }
    requires sound { AreSoundFacts (structs_of s.now.names.now) (map fact_of facts.old.items) }
    ensures gives { Gives (IsAt (map fact_of facts.new.items)) (type_name_typed (scope_of s.now) (view_type_name t.now)) result (map fact_of facts.old.items) (map fact_of facts.new.items) }
    ensures sound { OnOk result (AreSoundFacts (structs_of s.now.names.now) (map fact_of facts.new.items)) }
{
    let i = base(s, facts, &t.base)?;
    let sizes = dimensions(&unevaluated(s), facts, t.arrays.as_slice())?;
    by_type_name(s, facts, t.node.number, t.stars, sizes.as_slice(), i)
}

/// Types a base without braces (C11 6.7.2). The answer is the place of its fact, whose type is the one that it names;
/// or that a rule refuses it.
pub fn base(s: &Scoped, facts: &mut Vec<NodeFact>, b: &Base) -> Result<usize, Untyped>
    requires scope { IsSoundScope (scope_of s.now) }
    requires sound { AreSoundFacts (structs_of s.now.names.now) (map fact_of facts.old.items) }
    ensures gives { Gives (IsAt (map fact_of facts.new.items)) (base_typed (scope_of s.now) (view_base b.now)) result (map fact_of facts.old.items) (map fact_of facts.new.items) }
    ensures sound { OnOk result (AreSoundFacts (structs_of s.now.names.now) (map fact_of facts.new.items)) }
{
    by_base(s, facts, b.node.number, &b.form)
}

// Types an array part.
#[cycle(expression)]
fn dimension(s: &Scoped, facts: &mut Vec<NodeFact>, d: &Dimension) -> Result<Size, Untyped>
    requires scope { IsSoundScope (scope_of s.now) }
    requires sound { AreSoundFacts (structs_of s.now.names.now) (map fact_of facts.old.items) }
    ensures gives { Gives (λ size r. r ≡ size) (dimension_typed (scope_of s.now) (view_dimension d.now)) result (map fact_of facts.old.items) (map fact_of facts.new.items) }
    ensures sound { OnOk result (AreSoundFacts (structs_of s.now.names.now) (map fact_of facts.new.items)) }
{
    match d {
        Dimension::Open => Ok(Size::Open),
        Dimension::Sized(e) => {
            let i = expression(s, facts, e)?;
            Ok(Size::Sized(fact(facts, i).constancy))
        }
    }
}

/// Types array parts, one after the other (C11 6.7.6.2). The answer says of each what its size is; or it is the first
/// node that a rule refuses.
#[cycle(expression)]
pub fn dimensions(
    s: &Scoped,
    facts: &mut Vec<NodeFact>,
    list: &[Dimension],
) -> Result<Vec<Size>, Untyped>
    requires scope { IsSoundScope (scope_of s.now) }
    requires sound { AreSoundFacts (structs_of s.now.names.now) (map fact_of facts.old.items) }
    ensures gives { Gives (λ sizes r. r.items ≡ sizes) (dimensions_typed (scope_of s.now) (dimensions (map view_dimension list.now))) result (map fact_of facts.old.items) (map fact_of facts.new.items) }
    ensures sound { OnOk result (AreSoundFacts (structs_of s.now.names.now) (map fact_of facts.new.items)) }
{
    let mut sizes = Vec::new(s.alloc);
    for d in list {
        let size = dimension(s, facts, d)?;
        sizes.push(size)?;
    }
    Ok(sizes)
}

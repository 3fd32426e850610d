//! The node of a statement behind its parts, and the expressions in it.

ghost use Rattle.std.specs.Prelude.{◌≡◌, ◌<◌, map, length, vec_len, OnOk, Option, Some};
ghost use Rattle.stk_ctype.specs.Types.{type_of};
ghost use Rattle.stk_ctype.specs.Structs.{Structs, structs_of};
ghost use Rattle.stk_tree.specs.View.{view_expression, given_expression};
ghost use Rattle.stk_type_rules.specs.Facts.{AreSoundFacts, Fits, fact_at, fact_of, plain};
ghost use Rattle.stk_type_rules.specs.Outcome.{Gives, IsAt, and_then, finish};
ghost use Rattle.stk_type_rules.specs.Types.{kind_of};
ghost use Rattle.stk_typing.specs.Locals.{AreSoundLocals, local_of};
ghost use Rattle.stk_typing.specs.Typing.{expression_typed};
ghost use Rattle.stk_function_types.specs.Statements.{discarded_rule, for_rule, leave_rule, maybe_typed, return_rule, switch_rule, test_rule};
ghost use Rattle.stk_statements.specs.Places.{body_in};
ghost use Rattle.stk_statements.specs.Rows.{AnyFact, IsBelow, IsKnown, known_at};

use crate::places::Context;
use crate::rules::{
    has_struct, lacks_scalar, leave_rule, nothing, return_rule, switch_rule, unless, unless_two,
};
use stk_ctype::CType;
use stk_declarators::scope;
use stk_tree::Expr;
use stk_type_rules::{NodeFact, Untyped, fact, kind_of, own};
use stk_typing::{Locals, expression};

/// A statement that no rule of its own refuses.
pub(crate) fn by_nothing(facts: &mut Vec<NodeFact>, node: u32) -> Result<(), Untyped>
    ensures gives { Gives AnyFact (finish node (Fits plain)) result (map fact_of facts.old.items) (map fact_of facts.new.items) }
    ensures sound { (structs : Structs) → AreSoundFacts structs (map fact_of facts.old.items) → OnOk result (AreSoundFacts structs (map fact_of facts.new.items)) }
{
    own(facts, node, nothing())?;
    Ok(())
}

/// An `if` or a loop, whose test stands at this place.
pub(crate) fn by_test(facts: &mut Vec<NodeFact>, node: u32, at: usize) -> Result<(), Untyped>
    requires { at < vec_len facts.old }
    ensures gives { Gives AnyFact (finish node (test_rule (Some (fact_at (map fact_of facts.old.items) at)))) result (map fact_of facts.old.items) (map fact_of facts.new.items) }
    ensures sound { (structs : Structs) → AreSoundFacts structs (map fact_of facts.old.items) → OnOk result (AreSoundFacts structs (map fact_of facts.new.items)) }
{
    let made = unless(lacks_scalar(facts, Some(at)), 6);
    own(facts, node, made)?;
    Ok(())
}

/// A `switch`, whose controlling expression stands at this place.
pub(crate) fn by_switch(facts: &mut Vec<NodeFact>, node: u32, at: usize) -> Result<(), Untyped>
    requires { at < vec_len facts.old }
    ensures gives { Gives AnyFact (finish node (switch_rule (kind_of (fact_at (map fact_of facts.old.items) at).ty))) result (map fact_of facts.old.items) (map fact_of facts.new.items) }
    ensures sound { (structs : Structs) → AreSoundFacts structs (map fact_of facts.old.items) → OnOk result (AreSoundFacts structs (map fact_of facts.new.items)) }
{
    let made = switch_rule(kind_of(&fact(facts, at).ty));
    own(facts, node, made)?;
    Ok(())
}

/// A `for`, whose first expression, test and step stand at these places.
pub(crate) fn by_for(
    facts: &mut Vec<NodeFact>,
    node: u32,
    first: Option<usize>,
    test: Option<usize>,
    step: Option<usize>,
) -> Result<(), Untyped>
    requires first { IsBelow (length (map fact_of facts.old.items)) first }
    requires test { IsBelow (length (map fact_of facts.old.items)) test }
    requires step { IsBelow (length (map fact_of facts.old.items)) step }
    ensures gives { Gives AnyFact (finish node (for_rule (known_at (map fact_of facts.old.items) first) (known_at (map fact_of facts.old.items) test) (known_at (map fact_of facts.old.items) step))) result (map fact_of facts.old.items) (map fact_of facts.new.items) }
    ensures sound { (structs : Structs) → AreSoundFacts structs (map fact_of facts.old.items) → OnOk result (AreSoundFacts structs (map fact_of facts.new.items)) }
{
    let structs = has_struct(facts, first) || has_struct(facts, step);
    let made = unless_two(lacks_scalar(facts, test), 6, structs, 9);
    own(facts, node, made)?;
    Ok(())
}

/// A `break` or a `continue`.
pub(crate) fn by_leave(facts: &mut Vec<NodeFact>, node: u32, can: bool) -> Result<(), Untyped>
    ensures gives { Gives AnyFact (finish node (leave_rule can)) result (map fact_of facts.old.items) (map fact_of facts.new.items) }
    ensures sound { (structs : Structs) → AreSoundFacts structs (map fact_of facts.old.items) → OnOk result (AreSoundFacts structs (map fact_of facts.new.items)) }
{
    own(facts, node, leave_rule(can))?;
    Ok(())
}

// An expression as a statement.
fn by_discarded(facts: &mut Vec<NodeFact>, node: u32, at: Option<usize>) -> Result<(), Untyped>
    requires { IsBelow (length (map fact_of facts.old.items)) at }
    ensures gives { Gives AnyFact (finish node (discarded_rule (known_at (map fact_of facts.old.items) at))) result (map fact_of facts.old.items) (map fact_of facts.new.items) }
    ensures sound { (structs : Structs) → AreSoundFacts structs (map fact_of facts.old.items) → OnOk result (AreSoundFacts structs (map fact_of facts.new.items)) }
{
    let made = unless(has_struct(facts, at), 9);
    own(facts, node, made)?;
    Ok(())
}

// A `return`.
fn by_return(
    facts: &mut Vec<NodeFact>,
    node: u32,
    returns: &CType,
    at: Option<usize>,
) -> Result<(), Untyped>
    requires { IsBelow (length (map fact_of facts.old.items)) at }
    ensures gives { Gives AnyFact (finish node (return_rule (type_of returns.now) (known_at (map fact_of facts.old.items) at))) result (map fact_of facts.old.items) (map fact_of facts.new.items) }
    ensures sound { (structs : Structs) → AreSoundFacts structs (map fact_of facts.old.items) → OnOk result (AreSoundFacts structs (map fact_of facts.new.items)) }
{
    let made = return_rule(returns, facts, at);
    own(facts, node, made)?;
    Ok(())
}

/// Types an expression of a statement. The answer is the place of its fact.
pub(crate) fn test(
    p: &Context,
    locals: &Locals,
    facts: &mut Vec<NodeFact>,
    e: &Expr,
) -> Result<usize, Untyped>
    requires locals { AreSoundLocals (structs_of p.now.file.names.now) (map local_of locals.now) }
    requires sound { AreSoundFacts (structs_of p.now.file.names.now) (map fact_of facts.old.items) }
    ensures gives { Gives (IsAt (map fact_of facts.new.items)) (expression_typed (body_in p.now locals.now).scope (view_expression e.now)) result (map fact_of facts.old.items) (map fact_of facts.new.items) }
    ensures sound { OnOk result (AreSoundFacts (structs_of p.now.file.names.now) (map fact_of facts.new.items)) }
{
    let s = scope(p.file.alloc, p.file.bytes, p.file.names, locals);
    expression(&s, facts, e)
}

/// Types an expression that may be missing.
pub(crate) fn optional(
    p: &Context,
    locals: &Locals,
    facts: &mut Vec<NodeFact>,
    e: &Option<Expr>,
) -> Result<Option<usize>, Untyped>
    requires locals { AreSoundLocals (structs_of p.now.file.names.now) (map local_of locals.now) }
    requires sound { AreSoundFacts (structs_of p.now.file.names.now) (map fact_of facts.old.items) }
    ensures gives { Gives (IsKnown (map fact_of facts.new.items)) (maybe_typed (body_in p.now locals.now).scope (given_expression e.now)) result (map fact_of facts.old.items) (map fact_of facts.new.items) }
    ensures sound { OnOk result (AreSoundFacts (structs_of p.now.file.names.now) (map fact_of facts.new.items)) }
{
    match e {
        None => Ok(None),
        Some(e) => {
            let at = test(p, locals, facts, e)?;
            Ok(Some(at))
        }
    }
}

/// Types an expression as a statement.
pub(crate) fn discarded(
    p: &Context,
    locals: &Locals,
    facts: &mut Vec<NodeFact>,
    node: u32,
    e: &Option<Expr>,
) -> Result<(), Untyped>
    requires locals { AreSoundLocals (structs_of p.now.file.names.now) (map local_of locals.now) }
    requires sound { AreSoundFacts (structs_of p.now.file.names.now) (map fact_of facts.old.items) }
    ensures gives { Gives AnyFact (and_then (maybe_typed (body_in p.now locals.now).scope (given_expression e.now)) (λ x. finish node (discarded_rule x))) result (map fact_of facts.old.items) (map fact_of facts.new.items) }
    ensures sound { OnOk result (AreSoundFacts (structs_of p.now.file.names.now) (map fact_of facts.new.items)) }
{
    let at = optional(p, locals, facts, e)?;
    by_discarded(facts, node, at)
}

/// Types a `return`.
pub(crate) fn returned(
    p: &Context,
    locals: &Locals,
    facts: &mut Vec<NodeFact>,
    node: u32,
    e: &Option<Expr>,
) -> Result<(), Untyped>
    requires locals { AreSoundLocals (structs_of p.now.file.names.now) (map local_of locals.now) }
    requires sound { AreSoundFacts (structs_of p.now.file.names.now) (map fact_of facts.old.items) }
    ensures gives { Gives AnyFact (and_then (maybe_typed (body_in p.now locals.now).scope (given_expression e.now)) (λ x. finish node (return_rule (body_in p.now locals.now).returns x))) result (map fact_of facts.old.items) (map fact_of facts.new.items) }
    ensures sound { OnOk result (AreSoundFacts (structs_of p.now.file.names.now) (map fact_of facts.new.items)) }
{
    let at = optional(p, locals, facts, e)?;
    by_return(facts, node, p.returns, at)
}

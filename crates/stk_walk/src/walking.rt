//! The walk of a function as one call.

ghost use Rattle.std.specs.Prelude.{◌≡◌, ◌<◌, ◌^◌, ℤ, List, Bool, length, map, IfOk, OnOk, ◌+◌, ◌≤◌};
ghost use Rattle.stk_ctype.specs.declared.kind.IntKind.TheVariants.{Int};
ghost use Rattle.stk_tree.specs.Syntax.{FunctionTree};
ghost use Rattle.stk_tree.specs.View.{view_statement};
ghost use Rattle.stk_numbers.specs.declared.conditions.Kinds.{Kinds};
ghost use Rattle.stk_meaning.specs.Typings.{Typing};
ghost use Rattle.stk_meaning.specs.Keys.{keys_of, kept_of, objects_of};
ghost use Rattle.stk_meaning.specs.Maps.{are_valid, addresses_in};
ghost use Rattle.stk_meaning.specs.Paths.{number_under, path};
ghost use Rattle.stk_meaning.specs.Lists.{candidates};
ghost use Rattle.stk_kinded.specs.KindedStatements.{KindedStatement};
ghost use Rattle.stk_eval_expr.specs.Loops.{EachLoop};
ghost use Rattle.stk_values.specs.Keeping.{Keeps, truth};
ghost use Rattle.stk_values.specs.Walks.{EachTest, Says, event_of};
ghost use Rattle.stk_walking.specs.Keyed.{AreThere};
ghost use Rattle.stk_event_laws.specs.Listed.{StandOnce, body_events};
ghost use Rattle.stk_event_laws.specs.Positions.{listed_events, listed_event};
ghost use Rattle.stk_walk.specs.Walks.{AreParts};
ghost use Rattle.stk_spending.specs.Functions.{function_spent};

use crate::objects::WalkObject;
use crate::start::{Sizes, start};
use crate::steps::listed_steps;
use crate::validity::addresses_valid;
use std::alloc::Global;
use stk_base::{List, NoMemory};
use stk_numbers::Candidate;
use stk_tree::Stmt;
use stk_values::{Values, Walked};
use stk_walk_statements::walk_body;
use stk_walking::ExpressionWalk;

/// The parts of a function that a walk goes by: its body, the declarators of its register parameters and of its kept
/// objects, its memory objects in the order of their keys, and its candidates in order.
#[derive(Clone, Copy)]
pub(crate) struct FunctionParts<'a> {
    pub body: &'a Stmt,
    pub parameters: &'a [u32],
    pub kept: &'a [u32],
    pub objects: &'a [WalkObject],
    pub candidates: &'a [Candidate],
}

/// The walk of a function over all its branches (Wang, Zeldovich, Kaashoek, Solar-Lezama, SOSP 2013, section 4.3).
/// Under each input map that the store serves, `valid` is 1 exactly where the addresses of the map are valid, and the
/// steps whose test is 1 are the conditions that the path run of the map violates and the candidates that it hits, in
/// order; hits by one entry in the order of the list. Each condition and each candidate has one step at most. What was
/// made before keeps its numbers. Nothing is said of what `NoMemory` leaves.
pub(crate) fn walk<O: ExpressionWalk, V: Values>(
    alloc: Global,
    out: &O,
    parts: &FunctionParts,
    values: &mut V,
) -> Result<Walked<V::Value>, NoMemory>
    requires loops { EachLoop (O.knows out.now) (view_statement parts.now.body.now) }
    requires kinded { KindedStatement (O.setting out.now) (view_statement parts.now.body.now) }
    requires keys { AreThere (V.has_key values.old) (O.kinds out.now) }
    requires kept { parts.now.kept.now ≡ (O.setting out.now).kept }
    requires few { length parts.now.candidates.now < 2 ^ 32 }
    ensures tests { IfOk result (λ w. V.made values.new Int w.valid × EachTest (V.made values.new Int) w.steps) }
    ensures valid { (ty : Typing) (without : Kinds) (f : FunctionTree) → AreParts ty without f (O.setting out.now) (O.under out.now) parts.now → IfOk result (λ w. (m : List ℤ) → V.serves values.old m → V.shows values.new m Int w.valid (truth (are_valid (kept_of ty without f) (objects_of ty without f) (addresses_in (number_under (keys_of ty without f) m))))) }
    ensures steps { (ty : Typing) (without : Kinds) (f : FunctionTree) → AreParts ty without f (O.setting out.now) (O.under out.now) parts.now → IfOk result (λ w. (m : List ℤ) → V.serves values.old m → Says (λ v b. V.shows values.new m Int v (truth b)) w.steps (listed_events (candidates ty f) (path ty without f m))) }
    ensures once { (ty : Typing) (without : Kinds) (f : FunctionTree) → AreParts ty without f (O.setting out.now) (O.under out.now) parts.now → IfOk result (λ w. StandOnce (map (λ x. event_of x) w.steps)) }
    ensures keeps { OnOk result (Keeps V.serves V.has_key V.made V.shows values.old values.new) }
    ensures listed { (ty : Typing) (without : Kinds) (f : FunctionTree) → AreParts ty without f (O.setting out.now) (O.under out.now) parts.now → IfOk result (λ w. map (λ x. event_of x) w.steps ≡ map (listed_event (candidates ty f)) (body_events ty without f)) }
    ensures cost { (ty : Typing) (without : Kinds) (f : FunctionTree) → AreParts ty without f (O.setting out.now) (O.under out.now) parts.now → OnOk result (V.cost values.new ≤ V.cost values.old + function_spent ty without f) }
{
    let valid = addresses_valid(alloc, out, parts.objects, values)?;
    let sizes = Sizes {
        registers: parts.body.node.number,
        parameters: parts.parameters,
        kept: parts.kept,
    };
    let mut state = start(alloc, out, &sizes, values)?;
    walk_body(out, parts.body, values, &mut state)?;
    let steps = listed_steps(alloc, parts.candidates, state.steps.as_slice())?;
    Ok(Walked {
        valid,
        steps: List::from_vec(steps),
    })
}

//! The walk of the body of a function (C11 6.9.1).

ghost use Rattle.std.specs.Prelude.{◌≡◌, ◌++◌, [], OnOk, length};
ghost use Rattle.stk_tree.specs.View.{view_statement};
ghost use Rattle.stk_meaning.specs.Paths.{path_world};
ghost use Rattle.stk_meaning.specs.Statements.{statement_run};
ghost use Rattle.stk_kinded.specs.KindedStatements.{KindedStatement};
ghost use Rattle.stk_eval_expr.specs.Loops.{EachLoop};
ghost use Rattle.stk_values.specs.Keeping.{Keeps};
ghost use Rattle.stk_walking.specs.Events.{events_in};
ghost use Rattle.stk_walking.specs.Keyed.{AreThere};
ghost use Rattle.stk_walking.specs.Leads.{Performs};
ghost use Rattle.stk_walking.specs.Stands.{IsMade};
ghost use Rattle.stk_walking.specs.StatementEvents.{statement_events};
ghost use Rattle.stk_spending.specs.Statements.{statement_spent};
ghost use Rattle.stk_walking.specs.Costs.{Costs};

use crate::statements::statement;
use stk_base::NoMemory;
use stk_tree::Stmt;
use stk_values::Values;
use stk_walking::{ExpressionWalk, WalkState};

/// The walk of a body over all its branches, from any state of a walk. Under each input map that the store serves, the
/// walk stands then where a path run of the body under the map does: with its registers, its kept numbers and its
/// entries, and alive where the run ended as it should. What was made before keeps its numbers, and the steps that were
/// added have the events of the body in the order in which it is walked, whatever their tests are. Nothing is said of
/// what `NoMemory` leaves.
pub fn walk_body<O: ExpressionWalk, V: Values>(
    out: &O,
    body: &Stmt,
    values: &mut V,
    state: &mut WalkState<V::Value>,
) -> Result<(), NoMemory>
    requires loops { EachLoop (O.knows out.now) (view_statement body.now) }
    requires kinded { KindedStatement (O.setting out.now) (view_statement body.now) }
    requires keys { AreThere (V.has_key values.old) (O.kinds out.now) }
    requires made { IsMade (V.made values.old) (O.setting out.now) state.old }
    ensures made { OnOk result (IsMade (V.made values.new) (O.setting out.now) state.new) }
    ensures events { OnOk result (events_in state.new.steps.items ≡ events_in state.old.steps.items ++ statement_events (O.setting out.now) (view_statement body.now)) }
    ensures follows { OnOk result (Performs (V.serves values.old) (V.shows values.old) (V.shows values.new) (O.setting out.now) [] (λ m. statement_run (O.setting out.now) (path_world (O.under out.now m)) (view_statement body.now)) state.old state.new) }
    ensures keeps { OnOk result (Keeps V.serves V.has_key V.made V.shows values.old values.new) }
    ensures cost { OnOk result (Costs V.cost (length (O.setting out.now).kept) (statement_spent (O.setting out.now) (view_statement body.now)) values.old values.new (length state.old.cells.items) (length state.new.cells.items)) }
{
    statement(out, body, values, state)?;
    Ok(())
}

//! Expressions whose values aren't used, and `return`.

ghost use Rattle.std.specs.Prelude.{ℤ, List, [], OnOk, length};
ghost use Rattle.std.specs.Option.{option_copied};
ghost use Rattle.stk_tree.specs.View.{given_expression};
ghost use Rattle.stk_meaning.specs.Paths.{path_world};
ghost use Rattle.stk_meaning.specs.Statements.{discarded_run, return_run};
ghost use Rattle.stk_kinded.specs.KindedStatements.{KindedMaybe};
ghost use Rattle.stk_walking.specs.Keyed.{AreThere};
ghost use Rattle.stk_walking.specs.Stands.{IsMade};
ghost use Rattle.stk_walking.specs.StatementEvents.{discarded_events};
ghost use Rattle.stk_walk_statements.specs.Walked.{Walked, as_flow, as_part};
ghost use Rattle.stk_spending.specs.Expressions.{maybe_spent};
ghost use Rattle.stk_walking.specs.Costs.{Costs};

use stk_base::NoMemory;
use stk_tree::Expr;
use stk_values::Values;
use stk_walking::{ExpressionWalk, WalkState, leave_by_return};

/// An expression whose value isn't used, and which may be missing (C11 6.8.3).
pub(crate) fn discarded<O: ExpressionWalk, V: Values>(
    out: &O,
    e: Option<&Expr>,
    values: &mut V,
    state: &mut WalkState<V::Value>,
) -> Result<(), NoMemory>
    requires kinded { KindedMaybe (O.setting out.now) (given_expression (option_copied e)) }
    requires keys { AreThere (V.has_key values.old) (O.kinds out.now) }
    requires made { IsMade (V.made values.old) (O.setting out.now) state.old }
    ensures walked { OnOk result (Walked V.serves V.has_key V.made V.shows (O.setting out.now) (discarded_events (O.setting out.now) (given_expression (option_copied e.entry))) (as_part (λ m. discarded_run (O.setting out.now) (path_world (O.under out.now m)) (given_expression (option_copied e.entry)))) values.old values.new state.old state.new) }
    ensures cost { OnOk result (Costs V.cost (length (O.setting out.now).kept) (maybe_spent (O.setting out.now) (given_expression (option_copied e.entry))) values.old values.new (length state.old.cells.items) (length state.new.cells.items)) }
{
    match e {
        None => Ok(()),
        Some(e) => {
            let _number = out.value(e, values, state)?;
            Ok(())
        }
    }
}

/// `return`, with the value of its expression (C11 6.8.6.4).
pub(crate) fn returned<O: ExpressionWalk, V: Values>(
    out: &O,
    e: Option<&Expr>,
    values: &mut V,
    state: &mut WalkState<V::Value>,
) -> Result<(), NoMemory>
    requires kinded { KindedMaybe (O.setting out.now) (given_expression (option_copied e)) }
    requires keys { AreThere (V.has_key values.old) (O.kinds out.now) }
    requires made { IsMade (V.made values.old) (O.setting out.now) state.old }
    ensures walked { OnOk result (Walked V.serves V.has_key V.made V.shows (O.setting out.now) (discarded_events (O.setting out.now) (given_expression (option_copied e.entry))) (as_flow [] (λ m. return_run (O.setting out.now) (path_world (O.under out.now m)) (given_expression (option_copied e.entry)))) values.old values.new state.old state.new) }
    ensures cost { OnOk result (Costs V.cost (length (O.setting out.now).kept) (maybe_spent (O.setting out.now) (given_expression (option_copied e.entry))) values.old values.new (length state.old.cells.items) (length state.new.cells.items)) }
{
    discarded(out, e, values, state)?;
    leave_by_return(values, state)?;
    Ok(())
}

//! Why units are skipped.

ghost use Rattle.std.specs.Prelude.{◌≡◌, ◌≤◌, IfOk};
ghost use Rattle.stk_tree.specs.Syntax.{FunctionTree};
ghost use Rattle.stk_tree.specs.Nodes.{unit_nodes};
ghost use Rattle.stk_tree.specs.View.{view_unit};
ghost use Rattle.stk_nodes.specs.Rows.{unit_row};
ghost use Rattle.stk_meaning.specs.Weights.{weight};
ghost use Rattle.stk_accept.specs.Accepting.{beginning};
ghost use Rattle.stk_function_types.specs.Nodes.{typing_in};
ghost use Rattle.stk_records.specs.declared.line.Cause.TheVariants as causes;
ghost use Rattle.stk_units.specs.Spots.{spot_at};
ghost use Rattle.stk_weights.specs.Units.{IsWhole};
ghost use Rattle.stk_units.specs.Functions.{IsDefinition};
ghost use Rattle.stk_units.specs.Causes.{cause_of, weight_cause};

use crate::spots::spot_at;
use std::alloc::Global;
use stk_accept::{Refusal, place_of};
use stk_base::NoMemory;
use stk_function_env::Setting;
use stk_lex::Places;
use stk_records::Cause;
use stk_tree::Unit;
use stk_weights::weight_of;

// The greatest weight of a function that is judged.
const MOST_WEIGHT: u64 = 8_000_000;

// Why a unit is skipped that isn't accepted.
pub(crate) fn cause_of(alloc: Global, input: &Places, refusal: Refusal) -> Result<Cause, NoMemory>
    ensures { IfOk result (λ cause. cause ≡ cause_of input.now refusal) }
{
    match refusal {
        Refusal::NoTree => Ok(Cause::NoTree),
        Refusal::Rule { at, rule } => {
            let at = spot_at(alloc, input, at)?;
            Ok(Cause::Rule { rule, at })
        }
    }
}

// A rule refuses this node of a unit.
pub(crate) fn rule_cause(
    alloc: Global,
    input: &Places,
    unit: &Unit,
    node: u32,
    rule: u8,
) -> Result<Cause, NoMemory>
    ensures { IfOk result (λ cause. cause ≡ causes.Rule rule (spot_at input.now (beginning (unit_row (view_unit unit.now)) node))) }
{
    let first = place_of(alloc, unit, node)?;
    let at = spot_at(alloc, input, first)?;
    Ok(Cause::Rule { rule, at })
}

/// Why a function of this weight isn't judged: it is too heavy.
pub fn weight_cause(weight: u64) -> Option<Cause>
    ensures { result ≡ weight_cause weight }
{
    if weight > MOST_WEIGHT {
        return Some(Cause::Weight { sum: weight });
    }
    None
}

/// The weight of a function whose body is typed, by its setting.
pub fn function_weight(alloc: Global, setting: &Setting) -> Result<u64, NoMemory>
    requires whole { IsWhole setting.now }
    requires few { unit_nodes (view_unit setting.now.types.unit) ≤ 20000 }
    ensures { (f : FunctionTree) → IsDefinition (view_unit setting.now.types.unit) f → IfOk result (λ w. w ≡ weight (typing_in setting.now.types) setting.now.without f) }
{
    weight_of(alloc, setting)
}

//! Where a node begins, and what is claimed of a candidate.

ghost use Rattle.std.specs.Prelude.{◌≡◌, IfOk, map, true};
ghost use Rattle.stk_tree.specs.View.{view_function};
ghost use Rattle.stk_meaning.specs.Keys.{function_visits};
ghost use Rattle.stk_function_types.specs.Nodes.{typing_in};
ghost use Rattle.stk_function_types.specs.Visits.{marked_visit, marked_visits};
ghost use Rattle.stk_spelling.specs.Placed.{placed_in};
ghost use Rattle.stk_spelling.specs.Claims.{node_spot, claim_by};

use crate::replaced::replaced_at;
use std::alloc::Global;
use stk_base::{List, NoMemory};
use stk_function_types::{FunctionTypes, Visit};
use stk_lex::Places;
use stk_numbers::{CandKind, Candidate};
use stk_records::{Claim, Spot};
use stk_tree::Function;
use stk_units::spot_at;

/// Where a node begins: the file and line by the line markers in front of it, and its column in bytes, from 1.
pub fn node_spot(
    alloc: Global,
    input: &Places,
    types: &FunctionTypes,
    node: u32,
) -> Result<Spot, NoMemory>
    requires { input.now ≡ types.now.bytes }
    ensures { IfOk result (λ spot. spot ≡ node_spot (placed_in types.now) node) }
{
    spot_at(alloc, input, types.node_span(node).from)
}

/// What a record claims of a candidate: that it is never entered, always true or always false, or the same as a text.
/// The visits are those of the function.
pub fn claim_by(
    alloc: Global,
    types: &FunctionTypes,
    function: &Function,
    visits: &[Visit],
    candidate: Candidate,
) -> Result<Claim, NoMemory>
    requires { map marked_visit visits.now ≡ marked_visits true (function_visits (typing_in types.now) (view_function function.now)) }
    ensures { IfOk result (λ claim. claim ≡ claim_by (typing_in types.now) (view_function function.now) candidate.node candidate.kind) }
{
    match candidate.kind {
        CandKind::Arm => Ok(Claim::NeverEntered),
        CandKind::AlwaysTrue => Ok(Claim::AlwaysTrue),
        CandKind::AlwaysFalse => Ok(Claim::AlwaysFalse),
        CandKind::Algebra => {
            let text = replaced_at(alloc, types, visits, candidate.node)?;
            Ok(Claim::SameAs(List::from_vec(text)))
        }
    }
}

// From a goal to clauses.
ghost use Rattle.std.specs.Prelude.{◌≡◌, ◌↔◌, ◌+◌, ◌^◌, ◌<◌, ◌≤◌, ◌∷◌, [], length, sum, IfOk, IsTrue};
ghost use Rattle.stk_terms.specs.Values.{width_at};
ghost use Rattle.stk_terms.specs.Cost.{cost};
ghost use Rattle.stk_goal_clauses.specs.Standing.{StandsForGoal, IsWithinBound};

use std::alloc::Global;
use stk_base::NoMemory;
use stk_blast::blast;
use stk_clauses::Cnf;
use stk_cnf::clauses_of;
use stk_gates::{Edge, Gates};
use stk_terms::{TermId, Terms};

/// A table of gates has room for less than so many inputs.
const MOST_BITS: u32 = 1 << 29;

/// How many bits inputs of these widths have together, and 2^29 if they have as many or more.
fn bits_in(widths: &[u8]) -> u32
    ensures few { sum widths.now < 2 ^ 29 → result ≡ sum widths.now }
    ensures many { 2 ^ 29 ≤ sum widths.now → result ≡ 2 ^ 29 }
{
    let mut rest = widths;
    let mut bits = 0;
    while let Some((width, behind)) = rest.split_first() {
        bits += *width as u32;
        if bits >= MOST_BITS {
            return MOST_BITS;
        }
        rest = behind;
    }
    bits
}

/// Whether the bits of the inputs and the cost of the goal are together below 2^29, as `clauses_for` asks.
pub fn has_room(alloc: Global, terms: &Terms, goal: TermId) -> Result<bool, NoMemory>
    requires { goal.0 < length terms.now.terms }
    ensures { IfOk result (λ b. IsTrue b ↔ (sum terms.now.inputs + cost terms.now goal.0 < 2 ^ 29)) }
{
    let bits = bits_in(terms.widths());
    if bits == MOST_BITS {
        return Ok(false);
    }
    let gates = Gates::new(alloc, bits);
    let room = stk_blast::has_room(terms, goal, &gates)?;
    Ok(room)
}

/// The edge of a row of one.
fn only(row: &[Edge]) -> Edge
    requires { length row.now ≡ 1 }
    ensures { row.now ≡ result ∷ [] }
{
    row[0]
}

/// Clauses that stand for a goal: they stand for an edge of a table of gates whose inputs are the bits of the terms'
/// inputs, in order, the least bit first, and the edge is true exactly for the inputs that make the goal 1. So variable
/// k is bit k of the inputs. There are at most as many variables as the inputs have bits and the goal costs.
pub fn clauses_for(alloc: Global, terms: &Terms, goal: TermId) -> Result<Cnf, NoMemory>
    requires exists { goal.0 < length terms.now.terms }
    requires one { width_at terms.now goal.0 ≡ 1 }
    requires room { sum terms.now.inputs + cost terms.now goal.0 < 2 ^ 29 }
    ensures stands { IfOk result (StandsForGoal terms.now goal.0) }
    ensures within { IfOk result (IsWithinBound terms.now goal.0) }
{
    let mut gates = Gates::new(alloc, bits_in(terms.widths()));
    let row = blast(alloc, terms, goal, &mut gates)?;
    // For the prover: the gates keep their facts.
    let _ = gates.count();
    let edge = only(row.as_slice());
    let cnf = clauses_of(alloc, &gates, edge)?;
    Ok(cnf)
}

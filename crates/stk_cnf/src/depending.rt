// The gates on which an edge depends, marked from its gate down.
ghost use Rattle.std.specs.Prelude.{◌+◌, ◌<◌, IfOk};
ghost use Rattle.stk_gates.specs.Tables.{gate_count, IsEdge};
ghost use Rattle.stk_cnf.specs.Marks.{AreMarked};

use std::alloc::Global;
use stk_base::NoMemory;
use stk_gates::{Edge, Gates};

/// Marks the two operands of a gate that is marked, if it is an AND gate.
/// The contract alone reads `_goal`.
fn mark_operands(gates: &Gates, marks: &mut [bool], gate: u32, _goal: Edge)
    requires exists { gate < gate_count gates.now }
    requires marked { AreMarked gates.now _goal marks.old (gate + 1) }
    ensures { AreMarked gates.now _goal marks.new gate }
{
    // For the prover: the gates keep their facts.
    let _ = gates.count();
    if !marks[gate as usize] {
        return;
    }
    if let Some((a, b)) = gates.operands(gate) {
        marks[(a.0 / 2) as usize] = true;
        marks[(b.0 / 2) as usize] = true;
    }
}

/// Which gates the edge depends on, by number.
pub(crate) fn depending(alloc: Global, gates: &Gates, goal: Edge) -> Result<Vec<bool>, NoMemory>
    requires { IsEdge gates.now goal }
    ensures { IfOk result (λ m. AreMarked gates.now goal m.items 0) }
{
    let count = gates.count();
    let mut owned = vec![in alloc; false; count as usize]?;
    let marks: &mut [bool] = &mut owned;
    marks[(goal.0 / 2) as usize] = true;
    let mut gate = count;
    while gate > 0 {
        gate -= 1;
        mark_operands(gates, marks, gate, goal);
    }
    Ok(owned)
}

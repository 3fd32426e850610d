// The variables of the gates on which an edge depends: the inputs first, then the AND gates in ascending order.
ghost use Rattle.std.specs.Prelude.{◌≡◌, ◌+◌, ◌<◌, ◌≤◌, ◌^◌, ◌↔◌, ℕ, length, IfOk};
ghost use Rattle.stk_gates.specs.Tables.{gate_count};
ghost use Rattle.stk_cnf.specs.Naming.{IsNumbering};

use std::alloc::Global;
use stk_base::NoMemory;
use stk_gates::Gates;

/// The variable of each gate that has one, the AND gates that have one, and how many variables there are.
#[derive(Drop)]
pub(crate) struct Numbering {
    pub(crate) names: Vec<u32>,
    pub(crate) ands: Vec<u32>,
    pub(crate) vars: u32,
}

/// Gives the inputs and the marked AND gates their variables.
pub(crate) fn numbered(alloc: Global, gates: &Gates, marks: &[bool]) -> Result<Numbering, NoMemory>
    requires sized { length marks.now ≡ gate_count gates.now }
    ensures { IfOk result (λ r. IsNumbering gates.now marks.now r.names.items r.ands.items r.vars) }
{
    let count = gates.count();
    let inputs = gates.inputs();
    let mut names = Vec::with_capacity(alloc, count as usize)?;
    names.push_reserved(0);
    for input in 0..inputs {
        names.push_reserved(input);
    }
    let mut ands = Vec::with_capacity(alloc, count as usize)?;
    let mut vars = inputs;
    for gate in inputs + 1..count {
        names.push_reserved(vars);
        if !marks[gate as usize] {
            continue;
        }
        ands.push_reserved(gate);
        vars += 1;
    }
    Ok(Numbering { names, ands, vars })
}

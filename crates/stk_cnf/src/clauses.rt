// The clauses of a goal and of the gates on which it depends.
ghost use Rattle.std.specs.Prelude.{◌≡◌, ◌+◌, ◌-◌, ◌*◌, ◌/◌, ◌^◌, ◌<◌, ◌≤◌, ◌∷◌, [], ◌&&◌, length, slice_get, slice_index, IfOk, OnOk};
ghost use Rattle.std.specs.List.{All};
ghost use Rattle.stk_gates.specs.Edges.{edge_value};
ghost use Rattle.stk_gates.specs.Tables.{gate_count, IsEdge};
ghost use Rattle.stk_cnf.specs.Clauses.{named, tied_by, all_tied, HasName, IsGrown};
ghost use Rattle.stk_cnf.specs.Naming.{HasNames};
ghost use Rattle.stk_cnf.specs.Standing.{StandsFor};

use crate::depending::depending;
use crate::edges::{literal, put_edge, put_gate};
use crate::numbering::{Numbering, numbered};
use std::alloc::Global;
use stk_base::NoMemory;
use stk_clauses::{Cnf, Store};
use stk_gates::{Edge, Gates};

/// Appends the three clauses of an AND gate of the table.
fn put_and(
    gates: &Gates,
    names: &[u32],
    vars: u32,
    store: &mut Store,
    gate: u32,
) -> Result<(), NoMemory>
    requires gate { (gates.now.inputs < gate) × (gate < gate_count gates.now) }
    requires names { HasNames gates.now names.now vars gate }
    requires rising { (p : Edge × Edge) → slice_get gates.now.pairs (gate - (1 + gates.now.inputs)) ≡ Some p → (slice_index names.now (p.0.0 / 2) < slice_index names.now (p.1.0 / 2)) × (slice_index names.now (p.1.0 / 2) < slice_index names.now gate) }
    requires few { vars ≤ 2 ^ 31 }
    requires room { length store.old < 2 ^ 31 - 3 }
    ensures { OnOk result (IsGrown vars 3 store.old store.new (λ v. tied_by (named names.now v) gate (slice_get gates.now.pairs (gate - (1 + gates.now.inputs))))) }
{
    // For the prover: the gates keep their facts.
    let _ = gates.count();
    match gates.operands(gate) {
        None => Ok(()),
        Some((a, b)) => {
            let whole = literal(names, Edge::of_gate(gate));
            let first = literal(names, a);
            let second = literal(names, b);
            put_gate(store, whole, first, second)?;
            Ok(())
        }
    }
}

/// The clauses of an edge and of these AND gates.
fn encoded(
    alloc: Global,
    gates: &Gates,
    names: &[u32],
    ands: &[u32],
    vars: u32,
    goal: Edge,
) -> Result<Store, NoMemory>
    requires ands { All (λ n. (gates.now.inputs < n) × (n < gate_count gates.now)) ands.now }
    requires names { All (HasNames gates.now names.now vars) ands.now }
    requires rising { All (λ n. (p : Edge × Edge) → slice_get gates.now.pairs (n - (1 + gates.now.inputs)) ≡ Some p → (slice_index names.now (p.0.0 / 2) < slice_index names.now (p.1.0 / 2)) × (slice_index names.now (p.1.0 / 2) < slice_index names.now n)) ands.now }
    requires goal { HasName names.now vars goal }
    requires few { vars ≤ 2 ^ 31 }
    requires room { length ands.now < 2 ^ 29 }
    ensures grown { IfOk result (λ r. IsGrown vars (3 * length ands.now + 1) [] r (λ v. all_tied gates.now (named names.now v) ands.now && edge_value (named names.now v) goal)) }
    ensures none { IfOk result (λ r. ands.now ≡ [] → goal.0 ≡ 1 → r ≡ []) }
    ensures empty { IfOk result (λ r. ands.now ≡ [] → goal.0 ≡ 0 → r ≡ [] ∷ []) }
{
    let mut store = Store::new(alloc);
    for n in ands {
        put_and(gates, names, vars, &mut store, *n)?;
    }
    put_edge(names, vars, &mut store, goal)?;
    Ok(store)
}

/// Clauses that stand for an edge of the table: over the inputs, input i being variable i, and the AND gates on which
/// the edge depends, in ascending order, what satisfies them are exactly the extensions of the inputs that make the
/// edge true, one for each. There are at most three clauses for each of these gates and one more, and none has more
/// than three literals. An edge that is constant false gives the empty clause alone, and one that is constant true
/// gives none.
///
/// The table is gone through once down and once up, without recursion.
pub fn clauses_of(alloc: Global, gates: &Gates, goal: Edge) -> Result<Cnf, NoMemory>
    requires { IsEdge gates.now goal }
    ensures stands { IfOk result (StandsFor gates.now goal) }
    ensures none { IfOk result (λ cnf. goal.0 ≡ 1 → cnf.store ≡ []) }
    ensures empty { IfOk result (λ cnf. goal.0 ≡ 0 → cnf.store ≡ [] ∷ []) }
{
    // For the prover: the gates keep their facts.
    let _ = gates.count();
    let marks = depending(alloc, gates, goal)?;
    let Numbering { names, ands, vars } = numbered(alloc, gates, &marks)?;
    let store = encoded(alloc, gates, &names, &ands, vars, goal)?;
    Ok(Cnf { vars, store })
}

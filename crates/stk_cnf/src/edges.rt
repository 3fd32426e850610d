// Clauses over edges, as clauses over the variables that the edges' gates have.
ghost use Rattle.std.specs.Prelude.{◌≡◌, ℕ, ◌*◌, ◌/◌, ◌^◌, ◌-◌, ◌<◌, ◌≤◌, ◌∷◌, [], Bool, length, slice_index, OnOk};
ghost use Rattle.stk_clauses.specs.Literals.{literal_value};
ghost use Rattle.stk_gates.specs.Edges.{edge_value};
ghost use Rattle.stk_cnf.specs.Clauses.{named, ties, HasName, IsGrown, IsPutAlone};

use stk_base::NoMemory;
use stk_clauses::{Lit, Store};
use stk_gates::Edge;

/// The literal of an edge whose gate has a variable.
pub(crate) fn literal(names: &[u32], edge: Edge) -> Lit
    requires some { 1 < edge.0 }
    requires within { edge.0 / 2 < length names.now }
    requires small { slice_index names.now (edge.0 / 2) < 2 ^ 31 }
    ensures value { (v : ℕ → Bool) → literal_value v result ≡ edge_value (named names.now v) edge }
    ensures variable { result.0 / 2 ≡ slice_index names.now (edge.0 / 2) }
{
    let name = names[(edge.0 / 2) as usize];
    Lit(2 * name + edge.0 % 2)
}

/// Appends the three clauses that tie the literal of an AND gate to those of its two edges.
pub(crate) fn put_gate(store: &mut Store, gate: Lit, a: Lit, b: Lit) -> Result<(), NoMemory>
    requires apart { (a.0 / 2 < b.0 / 2) × (b.0 / 2 < gate.0 / 2) }
    requires room { length store.old < 2 ^ 31 - 3 }
    ensures { OnOk result ((vars : ℕ) → gate.0 < 2 * vars → IsGrown vars 3 store.old store.new (λ v. ties (literal_value v gate) (literal_value v a) (literal_value v b))) }
{
    let not_gate = gate.negated();
    store.push(&[not_gate, a])?;
    store.push(&[not_gate, b])?;
    store.push(&[gate, a.negated(), b.negated()])?;
    Ok(())
}

/// Appends the clause of an edge alone: the empty clause for the constant false, and none for the constant true.
pub(crate) fn put_edge(
    names: &[u32],
    vars: u32,
    store: &mut Store,
    edge: Edge,
) -> Result<(), NoMemory>
    requires named { HasName names.now vars edge }
    requires few { vars ≤ 2 ^ 31 }
    requires room { length store.old < 2 ^ 31 - 1 }
    ensures grown { OnOk result (IsGrown vars 1 store.old store.new (λ v. edge_value (named names.now v) edge)) }
    ensures constant { OnOk result (IsPutAlone (edge ∷ []) store.old store.new) }
{
    match edge.0 {
        0 => {
            store.push(&[])?;
            Ok(())
        }
        1 => Ok(()),
        _ => {
            store.push(&[literal(names, edge)])?;
            Ok(())
        }
    }
}

//! The circuit of a term: the rows of the terms on which it depends, one after the other.

ghost use Rattle.std.specs.Prelude.{◌≡◌, ℕ, ◌+◌, ◌*◌, ◌^◌, ◌<◌, ◌≤◌, Bool, List, [], length, sum, get_or, IfOk};
ghost use Rattle.stk_gates.specs.Tables.{Obeys, Extends, AddsWithin, HasRoom};
ghost use Rattle.stk_arith.specs.Rows.{number, AreEdges};
ghost use Rattle.stk_terms.specs.Terms.{term_at, nth, child};
ghost use Rattle.stk_terms.specs.Values.{width_at, number_at};
ghost use Rattle.stk_terms.specs.Orders.{HasBefore, Rises};
ghost use Rattle.stk_terms.specs.Cost.{bound_at, cost};
ghost use Rattle.stk_blast.specs.Inputs.{AreFirsts, residues_of};
ghost use Rattle.stk_blast.specs.Rows.{IsRow, IsRowOf};

use crate::inputs::firsts_of;
use crate::operators::operate;
use std::alloc::Global;
use stk_base::{List, NoMemory};
use stk_gates::{Edge, Gates};
use stk_terms::{TermId, Terms, index_in};

/// The row at an index.
fn row_at<'a>(rows: &'a [List<Edge>], index: usize) -> &'a [Edge]
    requires { index < length rows.now }
    ensures { result.now ≡ get_or rows.now index [] }
{
    rows[index].as_slice()
}

/// The row of an argument, empty where there is none; the rows are those of the first places of an order.
fn argument<'a>(order: &[usize], rows: &'a [List<Edge>], args: &[TermId], k: usize) -> &'a [Edge]
    requires rise { Rises order.now }
    requires before { (j : ℕ) → j < length args.now → HasBefore order.now (length rows.now) (nth args.now j) }
    requires few { length rows.now ≤ length order.now }
    ensures row { k < length args.now → IsRowOf order.now rows.now (nth args.now k) result.now }
    ensures none { length args.now ≤ k → result.now ≡ [] }
{
    if k < args.len() {
        row_at(rows, index_in(order, args[k].0))
    } else {
        &[]
    }
}

/// The row of a term, over the rows of the first places of an order, those of its arguments among them.
fn row_of(
    alloc: Global,
    terms: &Terms,
    gates: &mut Gates,
    firsts: &[u32],
    order: &[usize],
    rows: &[List<Edge>],
    id: TermId,
) -> Result<List<Edge>, NoMemory>
    requires exists { id.0 < length terms.now.terms }
    requires rise { Rises order.now }
    requires before { (k : ℕ) → k < length (term_at terms.now id.0).args → HasBefore order.now (length rows.now) (child terms.now id.0 k) }
    requires few { length rows.now ≤ length order.now }
    requires inputs { gates.old.inputs ≡ sum terms.now.inputs }
    requires firsts { AreFirsts terms.now.inputs firsts.now }
    requires made { (m : ℕ) → m < length rows.now → IsRow gates.old terms.now (get_or order.now m 0) (get_or rows.now m []) }
    requires room { HasRoom gates.old (bound_at terms.now id.0) }
    ensures row { IfOk result (IsRow gates.new terms.now id.0) }
    ensures extends { Extends gates.old gates.new }
    ensures adds { AddsWithin gates.old gates.new (bound_at terms.now id.0) }
{
    // For the prover: the gates keep their facts.
    let _ = gates.count();
    let _ = terms.count();
    let args = terms.args(id);
    let x = argument(order, rows, args, 0);
    let y = argument(order, rows, args, 1);
    let z = argument(order, rows, args, 2);
    let row = operate(alloc, gates, terms.widths(), firsts, terms.op(id), x, y, z)?;
    Ok(row)
}

/// A row whose number is the term's for every input, where the gates of the inputs are one for each bit of the terms'
/// inputs, in their order, the least bit first. Older edges keep their meanings, and at most as many gates come in as
/// the term costs, also after `NoMemory`. It goes over the parts of the term alone.
pub fn blast(
    alloc: Global,
    terms: &Terms,
    id: TermId,
    gates: &mut Gates,
) -> Result<List<Edge>, NoMemory>
    requires exists { id.0 < length terms.now.terms }
    requires inputs { gates.old.inputs ≡ sum terms.now.inputs }
    requires room { HasRoom gates.old (cost terms.now id.0) }
    ensures length { IfOk result (λ r. length r ≡ width_at terms.now id.0) }
    ensures edges { IfOk result (AreEdges gates.new) }
    ensures value { IfOk result (λ r. (values : ℕ → Bool) → Obeys gates.new values → number values r ≡ number_at terms.now (residues_of terms.now.inputs values) id.0) }
    ensures extends { Extends gates.old gates.new }
    ensures adds { AddsWithin gates.old gates.new (cost terms.now id.0) }
{
    // For the prover: the terms and the gates keep their facts.
    let _ = terms.count();
    let _ = gates.count();
    let parts = terms.order(id)?;
    let order = parts.as_slice();
    let first_gates = firsts_of(alloc, terms.widths())?;
    let firsts = first_gates.as_slice();
    let last = order.len() - 1;
    let mut rows = Vec::with_capacity(alloc, last)?;
    for i in 0..last {
        let row = row_of(alloc, terms, gates, firsts, order, &rows, TermId(order[i]))?;
        rows.push(row)?;
    }
    let row = row_of(alloc, terms, gates, firsts, order, &rows, id)?;
    Ok(row)
}

//! The circuit of an operator over the rows of its arguments.

ghost use Rattle.std.specs.Prelude.{◌≡◌, ℕ, ◌+◌, ◌*◌, ◌^◌, ◌<◌, ◌≤◌, Bool, length, sum, IfOk};
ghost use Rattle.stk_gates.specs.Tables.{Obeys, Extends, AddsWithin, HasRoom};
ghost use Rattle.stk_arith.specs.Rows.{number, AreEdges};
ghost use Rattle.stk_terms.specs.Values.{width_by, number_by};
ghost use Rattle.stk_terms.specs.Fitting.{arity, WidthsFit};
ghost use Rattle.stk_terms.specs.Cost.{bound};
ghost use Rattle.stk_blast.specs.Inputs.{AreFirsts, residues_of};

use crate::compare::{choice, equality, order, signed_order};
use crate::inputs::{input_row, number_row};
use crate::rows::{difference, inverted, widened};
use crate::shift::{left, right, right_signed};
use std::alloc::Global;
use stk_arith::{
    add, and_rows, cut, divide, joined, multiply, negative, or_rows, remainder, xor_rows,
    zero_extended,
};
use stk_base::{List, NoMemory};
use stk_gates::{Edge, Gates};
use stk_terms::TermOp;

/// The row of an operator over the rows of its arguments; a row is empty where the operator has no such argument.
#[tactic(auto, using(stk_arith::proofs::Numbers::kept))]
pub(crate) fn operate(
    alloc: Global,
    gates: &mut Gates,
    inputs: &[u8],
    firsts: &[u32],
    op: TermOp,
    x: &[Edge],
    y: &[Edge],
    z: &[Edge],
) -> Result<List<Edge>, NoMemory>
    requires inputs { gates.old.inputs ≡ sum inputs.now }
    requires firsts { AreFirsts inputs.now firsts.now }
    requires few_inputs { sum inputs.now < 2 ^ 29 }
    requires fit { WidthsFit inputs.now op (length x.now) (length y.now) (length z.now) }
    requires some { 0 < arity op → 0 < length x.now }
    requires few { length x.now ≤ 128 }
    requires x { AreEdges gates.old x.now }
    requires y { AreEdges gates.old y.now }
    requires z { AreEdges gates.old z.now }
    requires room { HasRoom gates.old (bound op (length x.now) (length y.now)) }
    ensures length { IfOk result (λ r. length r ≡ width_by inputs.now op (length x.now) (length y.now)) }
    ensures edges { IfOk result (AreEdges gates.new) }
    ensures value { IfOk result (λ r. (values : ℕ → Bool) → Obeys gates.new values → number values r
        ≡ number_by (residues_of inputs.now values) op (length x.now) (length y.now) (number values x.now) (number values y.now) (number values z.now)) }
    ensures extends { Extends gates.old gates.new }
    ensures adds { AddsWithin gates.old gates.new (bound op (length x.now) (length y.now)) }
{
    match op {
        TermOp::Constant(width, value) => number_row(alloc, width, value),
        TermOp::Input(key) => input_row(alloc, inputs, firsts, key as usize),
        TermOp::Not => inverted(alloc, x),
        TermOp::Neg => negative(alloc, gates, x),
        TermOp::And => and_rows(alloc, gates, x, y),
        TermOp::Or => or_rows(alloc, gates, x, y),
        TermOp::Xor => xor_rows(alloc, gates, x, y),
        TermOp::Add => add(alloc, gates, x, y),
        TermOp::Sub => difference(alloc, gates, x, y),
        TermOp::Mul => multiply(alloc, gates, x, y),
        TermOp::UDiv => divide(alloc, gates, x, y),
        TermOp::URem => remainder(alloc, gates, x, y),
        TermOp::Shl => left(alloc, gates, x, y),
        TermOp::LShr => right(alloc, gates, x, y),
        TermOp::AShr => right_signed(alloc, gates, x, y),
        TermOp::Eq => equality(alloc, gates, x, y),
        TermOp::ULt => order(alloc, gates, x, y),
        TermOp::SLt => signed_order(alloc, gates, x, y),
        TermOp::Extract(low, width) => cut(alloc, x, low as usize, width as usize),
        TermOp::ZeroExt(width) => zero_extended(alloc, x, width as usize),
        TermOp::SignExt(width) => widened(alloc, x, width as usize),
        TermOp::Concat => joined(alloc, x, y),
        TermOp::Ite => choice(alloc, gates, x, y, z),
    }
}

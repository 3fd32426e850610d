//! Whether a table has the inputs and the room that blasting asks for.

ghost use Rattle.std.specs.Prelude.{◌≡◌, ◌↔◌, ℕ, ◌+◌, ◌*◌, ◌^◌, ◌<◌, ◌≤◌, length, sum, IsTrue, IfOk};
ghost use Rattle.stk_gates.specs.Tables.{HasRoom};
ghost use Rattle.stk_terms.specs.Fitting.{AreBelow};
ghost use Rattle.stk_terms.specs.Values.{arg_at, widths_of};
ghost use Rattle.stk_terms.specs.Cost.{bound, bound_at, cost};

use stk_base::NoMemory;
use stk_gates::Gates;
use stk_terms::{TermId, TermOp, Terms};

/// Whether the table has one input for each bit of the terms' inputs.
pub fn has_inputs(terms: &Terms, gates: &Gates) -> bool
    ensures { IsTrue result ↔ (gates.now.inputs ≡ sum terms.now.inputs) }
{
    let widths = terms.widths();
    let mut left = gates.inputs();
    for i in 0..widths.len() {
        let width = widths[i] as u32;
        if width > left {
            return false;
        }
        left -= width;
    }
    left == 0
}

/// At most so many gates has an operator whose first two arguments have these widths.
fn bound_by(op: TermOp, first: u8, second: u8) -> u32
    ensures { result ≡ bound op first second }
{
    let width = first as u32;
    match op {
        TermOp::Neg | TermOp::Add | TermOp::Sub | TermOp::ULt | TermOp::SLt => 10 * width,
        TermOp::And | TermOp::Or | TermOp::Xor => 3 * width,
        TermOp::Mul => 6 * width * width + 6 * width,
        TermOp::UDiv | TermOp::URem => 14 * width * width + 20 * width,
        TermOp::Shl | TermOp::LShr | TermOp::AShr => 24 * width,
        TermOp::Eq => 4 * width,
        TermOp::Ite => 3 * second as u32,
        _ => 0,
    }
}

/// The width of an argument, 0 where there is none.
#[tactic(auto, using(stk_terms::proofs::Args::arg_within, stk_terms::proofs::Args::arg_beyond, stk_terms::proofs::Args::arg_exists))]
fn width_of(terms: &Terms, args: &[TermId], k: usize) -> u8
    requires { AreBelow (length terms.now.terms) args.now }
    ensures { result ≡ arg_at 0 (widths_of terms.now) args.now k }
{
    if k < args.len() {
        terms.width(args[k])
    } else {
        0
    }
}

/// The bound of a term.
fn bound_for(terms: &Terms, id: TermId) -> u32
    requires { id.0 < length terms.now.terms }
    ensures { result ≡ bound_at terms.now id.0 }
{
    // For the prover: the terms keep their facts.
    let _ = terms.count();
    let args = terms.args(id);
    bound_by(
        terms.op(id),
        width_of(terms, args, 0),
        width_of(terms, args, 1),
    )
}

/// Whether the table has room for the circuit of a term. It goes over the term's parts alone.
pub fn has_room(terms: &Terms, id: TermId, gates: &Gates) -> Result<bool, NoMemory>
    requires { id.0 < length terms.now.terms }
    ensures { IfOk result (λ b. IsTrue b ↔ HasRoom gates.now (cost terms.now id.0)) }
{
    // For the prover: the terms keep their facts.
    let _ = terms.count();
    let order = terms.order(id)?;
    let places = order.as_slice();
    let mut left = (1 << 29) - gates.count();
    for i in 0..places.len() {
        let bound = bound_for(terms, TermId(places[i]));
        if bound > left {
            return Ok(false);
        }
        left -= bound;
    }
    Ok(true)
}

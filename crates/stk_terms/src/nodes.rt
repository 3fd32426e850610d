//! What nodes are, over the nodes before them.
ghost use Rattle.std.specs.Prelude.{◌≡◌, ◌+◌, ◌<◌, ◌≤◌, [], length, take, map, get_or, IsTrue, ◌↔◌, IfOk};
ghost use Rattle.stk_terms.specs.Fitting.{AreWidths, AreResidues, AreBelow, Fits};
ghost use Rattle.stk_terms.specs.Terms.{term_of};
ghost use Rattle.stk_terms.specs.Keys.{sizes_of, stored, terms_of, AreKept, plain};
ghost use Rattle.stk_terms.specs.Orders.{IsOrder, AreNumbers};
ghost use Rattle.stk_terms.specs.Values.{none, width_by, number_by, arg_at, bits_of, evaluated};
ghost use Rattle.stk_terms.specs.Applying.{CanApply};

use crate::fitting::{are_below, arity_of, widths_fit};
use crate::operators::apply;
use crate::term::{TermId, TermNode, TermOp};
use std::alloc::{AllocError, Global};

#[tactic(auto, using(crate::proofs::Args::arg_within, crate::proofs::Args::arg_beyond, crate::proofs::Args::arg_exists, crate::proofs::Args::size_within))]
// The width of the k-th argument, 0 where there is none.
fn size_at(nodes: &[TermNode], args: &[TermId], k: usize) -> u8
    requires { AreBelow (length nodes.now) args.now }
    ensures { result ≡ arg_at 0 (sizes_of nodes.now) args.now k }
{
    if k < args.len() {
        nodes[args[k].0].width
    } else {
        0
    }
}

#[tactic(auto, using(crate::proofs::Args::arg_within, crate::proofs::Args::arg_beyond, crate::proofs::Args::arg_exists))]
// The number of the k-th argument, 0 where there is none.
fn number_of_arg(numbers: &[u128], args: &[TermId], k: usize) -> u128
    requires { AreBelow (length numbers.now) args.now }
    ensures { result ≡ arg_at 0 numbers.now args.now k }
{
    if k < args.len() {
        numbers[args[k].0]
    } else {
        0
    }
}

/// The width that an operator over these arguments has.
pub(crate) fn width_of(inputs: &[u8], nodes: &[TermNode], op: TermOp, args: &[TermId]) -> u8
    requires { Fits inputs.now (sizes_of nodes.now) (term_of op args.now) }
    ensures { result ≡ width_by inputs.now op (arg_at 0 (sizes_of nodes.now) args.now 0) (arg_at 0 (sizes_of nodes.now) args.now 1) }
{
    let first = size_at(nodes, args, 0);
    match op {
        TermOp::Constant(width, _) => width,
        TermOp::Input(key) => inputs[key as usize],
        TermOp::Eq | TermOp::ULt | TermOp::SLt => 1,
        TermOp::Extract(_, width) | TermOp::ZeroExt(width) | TermOp::SignExt(width) => width,
        TermOp::Concat => first + size_at(nodes, args, 1),
        TermOp::Ite => size_at(nodes, args, 1),
        _ => first,
    }
}

/// Whether an operator and its arguments fit behind nodes.
pub(crate) fn fits(inputs: &[u8], nodes: &[TermNode], op: TermOp, args: &[TermId]) -> bool
    ensures { IsTrue result ↔ Fits inputs.now (sizes_of nodes.now) (term_of op args.now) }
{
    if args.len() != arity_of(op) || !are_below(nodes.len(), args) {
        return false;
    }
    let first = size_at(nodes, args, 0);
    let second = size_at(nodes, args, 1);
    let third = size_at(nodes, args, 2);
    widths_fit(inputs, op, first, second, third)
}

// The number of a node, over the numbers of the nodes before it.
fn number_of(nodes: &[TermNode], node: &TermNode, numbers: &[u128], residues: &[u64]) -> u128
    requires among { AreBelow (length nodes.now) node.now.args.items }
    requires before { AreBelow (length numbers.now) node.now.args.items }
    requires fits { CanApply residues.now node.now.op (arg_at 0 (sizes_of nodes.now) node.now.args.items 0) (arg_at 0 (sizes_of nodes.now) node.now.args.items 1) (arg_at 0 numbers.now node.now.args.items 0) (arg_at 0 numbers.now node.now.args.items 1) }
    ensures { result ≡ number_by residues.now node.now.op (arg_at 0 (sizes_of nodes.now) node.now.args.items 0) (arg_at 0 (sizes_of nodes.now) node.now.args.items 1) (arg_at 0 numbers.now node.now.args.items 0) (arg_at 0 numbers.now node.now.args.items 1) (arg_at 0 numbers.now node.now.args.items 2) }
{
    let args = node.args.as_slice();
    apply(
        node.op,
        residues,
        (size_at(nodes, args, 0), size_at(nodes, args, 1)),
        number_of_arg(numbers, args, 0),
        number_of_arg(numbers, args, 1),
        number_of_arg(numbers, args, 2),
    )
}

// The numbers of the first nodes.
fn numbers(
    alloc: Global,
    inputs: &[u8],
    nodes: &[TermNode],
    residues: &[u64],
    count: usize,
) -> Result<Vec<u128>, AllocError>
    requires kept { AreKept inputs.now nodes.now }
    requires residues { AreResidues inputs.now residues.now }
    requires count { count ≤ length nodes.now }
    ensures { IfOk result (λ ns. ns.items ≡ take count (map (λ b. b.number) (evaluated (bits_of inputs.now residues.now) [] (terms_of nodes.now)))) }
{
    let mut numbers = Vec::with_capacity(alloc, count)?;
    for i in 0..count {
        let number = number_of(nodes, &nodes[i], &numbers, residues);
        numbers.push(number)?;
    }
    Ok(numbers)
}

/// The number of a node.
pub(crate) fn number(
    alloc: Global,
    inputs: &[u8],
    nodes: &[TermNode],
    residues: &[u64],
    place: usize,
) -> Result<u128, AllocError>
    requires kept { AreKept inputs.now nodes.now }
    requires residues { AreResidues inputs.now residues.now }
    requires place { place < length nodes.now }
    ensures { IfOk result (λ n. n ≡ (get_or (evaluated (bits_of inputs.now residues.now) [] (terms_of nodes.now)) place none).number) }
{
    let numbers = numbers(alloc, inputs, nodes, residues, place + 1)?;
    let first = numbers.as_slice();
    Ok(first[place])
}

/// Writes the numbers of the nodes at the places of an order, each at its place.
pub(crate) fn evaluate(
    inputs: &[u8],
    nodes: &[TermNode],
    order: &[usize],
    residues: &[u64],
    numbers: &mut [u128],
)
    requires kept { AreKept inputs.now nodes.now }
    requires residues { AreResidues inputs.now residues.now }
    requires order { IsOrder (stored inputs.now nodes.now) (length numbers.old) order.now }
    ensures are { AreNumbers (stored inputs.now nodes.now) residues.now order.now (length order.now) numbers.new }
    ensures long { length numbers.new ≡ length numbers.old }
{
    // The contract alone reads the widths of the inputs.
    let _widths = inputs;
    for place in order {
        let number = number_of(nodes, &nodes[*place], numbers, residues);
        numbers[*place] = number;
    }
}

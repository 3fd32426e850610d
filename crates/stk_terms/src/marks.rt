//! On which terms a term depends, by marks from the term down.
ghost use Rattle.std.specs.Prelude.{◌≡◌, ℕ, ◌+◌, ◌<◌, ◌≤◌, ◌^◌, [], List, true, false, length, get_or, replicate, slice_set, IfOk, if◌then◌else◌};
ghost use Rattle.stk_terms.specs.Fitting.{AreBelow, IsSound};
ghost use Rattle.stk_terms.specs.Keys.{stored, args_in};
ghost use Rattle.stk_terms.specs.Parts.{is_part, marked};

use crate::term::{TermId, TermNode};
use std::alloc::{AllocError, Global};

// The arguments of a node.
fn args_at(nodes: &[TermNode], place: usize) -> &[TermId]
    requires { place < length nodes.now }
    ensures { result.now ≡ args_in nodes.now place }
{
    let node = &nodes[place];
    node.args.as_slice()
}

// Marks the arguments.
fn mark(marks: &mut [bool], args: &[TermId])
    requires { AreBelow (length marks.old) args.now }
    ensures { marks.new ≡ marked marks.old args.now }
{
    for arg in args {
        marks[arg.0] = true;
    }
}

// Marks the arguments of a node that is marked.
fn step(marks: &mut [bool], nodes: &[TermNode], place: usize)
    requires under { AreBelow (length marks.old) (args_in nodes.now place) }
    requires place { place < length nodes.now }
    requires within { place < length marks.old }
    ensures { marks.new ≡ (if get_or marks.old place false then marked marks.old (args_in nodes.now place) else marks.old) }
{
    if marks[place] {
        mark(marks, args_at(nodes, place));
    }
}

// Marks for the places up to one, where that one alone is marked.
fn begin(alloc: Global, place: usize) -> Result<Vec<bool>, AllocError>
    requires { place + 1 < 2 ^ 64 }
    ensures { IfOk result (λ m. m.items ≡ slice_set (replicate (place + 1) false) place true) }
{
    let mut marks = vec![in alloc; false; place + 1]?;
    marks[place] = true;
    Ok(marks)
}

/// For each node up to a place, whether that one depends on it.
pub(crate) fn parts(
    alloc: Global,
    inputs: &[u8],
    nodes: &[TermNode],
    place: usize,
) -> Result<Vec<bool>, AllocError>
    requires sound { IsSound (stored inputs.now nodes.now) }
    requires place { place < length nodes.now }
    ensures count { IfOk result (λ m. length m.items ≡ place + 1) }
    ensures told { IfOk result (λ m. (j : ℕ) → j ≤ place → get_or m.items j false ≡ is_part (stored inputs.now nodes.now) place j) }
{
    // The contract alone reads the widths of the inputs.
    let _widths = inputs;
    let mut marks = begin(alloc, place)?;
    for k in 0..place + 1 {
        step(&mut marks, nodes, place - k);
    }
    Ok(marks)
}

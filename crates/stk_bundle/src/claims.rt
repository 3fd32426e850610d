// The lines of reports.
ghost use Rattle.std.specs.Prelude.{◌≡◌, ◌++◌, ◌^◌, pos, map, IfOk};
ghost use Rattle.stk_numbers.specs.Kinds.{width_of, residue};
ghost use Rattle.stk_numbers.specs.Values.{bits_of};
ghost use Rattle.stk_bundle.specs.Claims.{candidate_number, residues, member_line, need_line, report_lines, left_line};

use crate::BundleLine;
use std::alloc::{AllocError, Global};
use stk_base::{List, NoMemory};
use stk_meaning::Need;
use stk_numbers::{CandKind, Candidate, Inputs, IntKind};

/// The number of a kind of candidates, from 1 to 4.
fn candidate_number(kind: CandKind) -> u64
    ensures { result ≡ candidate_number kind }
{
    match kind {
        CandKind::Arm => 1,
        CandKind::AlwaysTrue => 2,
        CandKind::AlwaysFalse => 3,
        CandKind::Algebra => 4,
    }
}

/// 2 to the width of a kind.
fn modulus(kind: IntKind) -> i128
    ensures { result ≡ pos (2 ^ width_of kind) }
{
    match kind {
        IntKind::Bool => 2,
        IntKind::Char | IntKind::SChar | IntKind::UChar => 256,
        IntKind::Short | IntKind::UShort => 65_536,
        IntKind::Int | IntKind::UInt => 4_294_967_296,
        IntKind::Long | IntKind::ULong | IntKind::LLong | IntKind::ULLong => {
            18_446_744_073_709_551_616
        }
    }
}

/// The bits of a number of a kind.
fn bits_of(kind: IntKind, number: i128) -> u64
    ensures { result ≡ bits_of kind number }
{
    number.rem_euclid(modulus(kind)) as u64
}

/// The numbers of a start, each modulo 2 to the width of its key.
fn residues(alloc: Global, keys: &[IntKind], numbers: &[i128]) -> Result<Vec<u64>, AllocError>
    ensures { IfOk result (λ ns. ns.items ≡ residues keys.now numbers.now) }
{
    keys.iter()
        .zip(numbers)
        .map(|(key, number)| bits_of(*key, *number))
        .collect(alloc)
}

/// The line of a condition of a claim's set.
fn need_line(alloc: Global, keys: &[IntKind], need: &Need) -> Result<BundleLine, NoMemory>
    ensures { IfOk result (λ l. l ≡ need_line keys.now need.now) }
{
    let node = u64::from(need.condition.node);
    let kind = u64::from(need.condition.kind.number());
    match &need.shown {
        Some(inputs) => {
            let start = List::from_vec(residues(alloc, keys, inputs.numbers.as_slice())?);
            Ok(BundleLine::Need { node, kind, start })
        }
        None => Ok(BundleLine::Open { node, kind }),
    }
}

/// Adds the lines of the conditions of a claim's set.
fn add_needs(
    alloc: Global,
    lines: &mut Vec<BundleLine>,
    keys: &[IntKind],
    needs: &[Need],
) -> Result<(), NoMemory>
    ensures { IfOk result (λ _. lines.new.items ≡ lines.old.items ++ map (need_line keys.now) needs.now) }
{
    for need in needs {
        lines.push(need_line(alloc, keys, need)?)?;
    }
    Ok(())
}

/// The lines of a report in front of what closes its claim: the candidate, the start that hits it, and the conditions
/// of its set. The kinds are those of the function's keys, in their order.
pub fn report_lines(
    alloc: Global,
    keys: &[IntKind],
    candidate: Candidate,
    start: &Inputs,
    needs: &[Need],
) -> Result<Vec<BundleLine>, NoMemory>
    ensures { IfOk result (λ lines. lines.items ≡ report_lines keys.now candidate start.now needs.now) }
{
    let mut lines = Vec::new(alloc);
    let node = u64::from(candidate.node);
    let kind = candidate_number(candidate.kind);
    lines.push(BundleLine::Unstable { node, kind })?;
    let start = List::from_vec(residues(alloc, keys, start.numbers.as_slice())?);
    lines.push(BundleLine::Hit { start })?;
    add_needs(alloc, &mut lines, keys, needs)?;
    Ok(lines)
}

/// The line of a candidate without a claim.
pub fn left_line(candidate: Candidate) -> BundleLine
    ensures { result ≡ left_line candidate }
{
    BundleLine::Left {
        node: u64::from(candidate.node),
        kind: candidate_number(candidate.kind),
    }
}

// The texts of the parts of findings.
ghost use Rattle.std.specs.Prelude.{◌≡◌, ◌++◌, length, map, IfOk};
ghost use Rattle.stk_proofs.specs.Dimacs.{FitsDimacs};
ghost use Rattle.stk_proofs.specs.Lrat.{FitsLrat};
ghost use Rattle.stk_bundle.specs.Bundles.{part_text, parts_text};
ghost use Rattle.stk_claims.specs.Parts.{alone, proof_parts, closing_parts, claim_parts, report_parts, FitsTexts, head_parts, further_parts};

use crate::closing::Closing;
use crate::function::{ClaimedFunction, Report};
use std::alloc::Global;
use stk_base::NoMemory;
use stk_bundle::{BundleLine, add_line, left_line, line_count, report_lines};
use stk_clauses::{Cnf, Derivation};
use stk_proofs::{dimacs, lrat};

// Adds the texts of lines without blocks.
fn add_lines(text: &mut Vec<u8>, lines: &[BundleLine]) -> Result<(), NoMemory>
    ensures { IfOk result (λ _. text.new.items ≡ text.old.items ++ parts_text (map alone lines.now)) }
{
    for line in lines {
        add_line(text, line)?;
    }
    Ok(())
}

/// The text of lines without blocks.
pub(crate) fn lines_text(alloc: Global, lines: &[BundleLine]) -> Result<Vec<u8>, NoMemory>
    ensures { IfOk result (λ text. text.items ≡ parts_text (map alone lines.now)) }
{
    let mut text = Vec::new(alloc);
    add_lines(&mut text, lines)?;
    Ok(text)
}

// Adds the text of a line and of its block.
fn add_block(text: &mut Vec<u8>, line: &BundleLine, block: &[u8]) -> Result<(), NoMemory>
    ensures { IfOk result (λ _. text.new.items ≡ text.old.items ++ part_text (record { line = line.now; block = block.now })) }
{
    add_line(text, line)?;
    text.extend_from_slice(block)?;
    Ok(())
}

// Adds the text of a clause list and of a derivation that refutes it.
fn add_proof(
    alloc: Global,
    text: &mut Vec<u8>,
    list: &Cnf,
    derivation: &Derivation,
) -> Result<(), NoMemory>
    requires list { FitsDimacs list.now }
    requires derivation { FitsLrat (length list.now.store) derivation.now }
    ensures { IfOk result (λ _. text.new.items ≡ text.old.items ++ parts_text (proof_parts list.now derivation.now)) }
{
    let clauses = dimacs(alloc, list)?;
    let lines = line_count(clauses.as_slice()) as u64;
    add_block(text, &BundleLine::Clauses { lines }, clauses.as_slice())?;
    let steps = lrat(alloc, list.store.count(), derivation)?;
    let lines = line_count(steps.as_slice()) as u64;
    add_block(text, &BundleLine::Steps { lines }, steps.as_slice())
}

// Adds the text of what stands behind the set of a claim.
fn add_closing(alloc: Global, text: &mut Vec<u8>, closing: &Closing) -> Result<(), NoMemory>
    requires { FitsTexts closing.now }
    ensures { IfOk result (λ _. text.new.items ≡ text.old.items ++ parts_text (closing_parts closing.now)) }
{
    match closing {
        Closing::Tried => add_line(text, &BundleLine::Tried),
        Closing::Refuted(list, derivation) => add_proof(alloc, text, list, derivation),
        Closing::GivenUp => Ok(()),
    }
}

// Adds the text of the line of a function, where it hasn't come.
fn begin(text: &mut Vec<u8>, at: u64, begun: bool) -> Result<(), NoMemory>
    ensures { IfOk result (λ _. text.new.items ≡ text.old.items ++ parts_text (head_parts at begun)) }
{
    if begun {
        return Ok(());
    }
    add_line(text, &BundleLine::Function { at })
}

// Adds the text of the claim of a report.
fn add_claim(
    text: &mut Vec<u8>,
    function: &ClaimedFunction,
    report: &Report,
    closing: &Closing,
) -> Result<(), NoMemory>
    requires { FitsTexts closing.now }
    ensures { IfOk result (λ _. text.new.items ≡ text.old.items ++ parts_text (claim_parts function.now.kinds.now report.now.candidate report.now.start.now report.now.needs.now closing.now)) }
{
    let lines = report_lines(
        function.alloc,
        function.kinds,
        report.candidate,
        report.start,
        report.needs,
    )?;
    add_lines(text, lines.as_slice())?;
    add_closing(function.alloc, text, closing)?;
    Ok(())
}

// Adds the text of the parts of a report.
fn add_report(
    text: &mut Vec<u8>,
    function: &ClaimedFunction,
    report: &Report,
    closing: &Closing,
) -> Result<(), NoMemory>
    requires { FitsTexts closing.now }
    ensures { IfOk result (λ _. text.new.items ≡ text.old.items ++ parts_text (report_parts function.now.kinds.now report.now.candidate report.now.start.now report.now.needs.now closing.now)) }
{
    match closing {
        Closing::Tried | Closing::Refuted(_, _) => add_claim(text, function, report, closing),
        Closing::GivenUp => add_line(text, &left_line(report.candidate)),
    }
}

/// The text of the parts of a report, behind the line of its function where this hasn't come.
pub(crate) fn report_text(
    function: &ClaimedFunction,
    report: &Report,
    closing: &Closing,
    begun: bool,
) -> Result<Vec<u8>, NoMemory>
    requires { FitsTexts closing.now }
    ensures { IfOk result (λ text. text.items ≡ parts_text (further_parts function.now.at begun (report_parts function.now.kinds.now report.now.candidate report.now.start.now report.now.needs.now closing.now))) }
{
    let mut text = Vec::new(function.alloc);
    begin(&mut text, function.at, begun)?;
    add_report(&mut text, function, report, closing)?;
    Ok(text)
}

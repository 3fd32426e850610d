//! The lines of answers and of failures.

ghost use Rattle.std.specs.Prelude.{◌≡◌, ◌++◌, IfOk, codes, decimal};
ghost use Rattle.stk_audit_main.specs.Answering as answers;
ghost use Rattle.stk_audit_main.specs.Ending as ending;

use itoa::Buffer;
use std::alloc::Global;
use stk_audit_rules::{Audit, Why};
use stk_base::{NoMemory, Status};

/// Adds bytes to a text.
fn add(text: &mut Vec<u8>, bytes: &[u8]) -> Result<(), NoMemory>
    ensures { IfOk result (λ _. text.new.items ≡ text.old.items ++ bytes.now) }
{
    text.extend_from_slice(bytes)?;
    Ok(())
}

/// Adds a number.
fn add_number(text: &mut Vec<u8>, number: u64) -> Result<(), NoMemory>
    ensures { IfOk result (λ _. text.new.items ≡ text.old.items ++ decimal number) }
{
    let mut buffer = Buffer::new();
    add(text, buffer.format(number).as_bytes())
}

/// The word of a reason.
fn why_text(why: &Why) -> &'static [u8]
    ensures { result.now ≡ answers.why_text why.now }
{
    match why {
        Why::Form => b"form",
        Why::Name => b"name",
        Why::Start => b"start",
        Why::Tried => b"tried",
        Why::Formula(_) => b"formula",
        Why::Derivation => b"derivation",
    }
}

/// Adds the line of a failing one.
fn add_failing(text: &mut Vec<u8>, line: u32, why: &Why) -> Result<(), NoMemory>
    ensures { IfOk result (λ _. text.new.items ≡ text.old.items ++ (codes "line " ++ decimal line ++ codes ": " ++ answers.why_text why.now ++ codes "\n")) }
{
    add(text, b"line ")?;
    add_number(text, u64::from(line))?;
    add(text, b": ")?;
    add(text, why_text(why))?;
    add(text, b"\n")
}

/// Adds the line of claims that hold.
fn add_holding(text: &mut Vec<u8>, count: usize) -> Result<(), NoMemory>
    ensures { IfOk result (λ _. text.new.items ≡ text.old.items ++ (decimal count ++ codes " claims hold\n")) }
{
    add_number(text, count as u64)?;
    add(text, b" claims hold\n")
}

/// The line of an answer.
pub(crate) fn answer_text(alloc: Global, answer: &Audit) -> Result<Vec<u8>, NoMemory>
    ensures { IfOk result (λ text. text.items ≡ answers.answer_text answer.now) }
{
    let mut text = Vec::new(alloc);
    match answer {
        Audit::Yes(claims) => add_holding(&mut text, claims.len())?,
        Audit::No { line, why } => add_failing(&mut text, *line, why)?,
    }
    Ok(text)
}

/// The status of an answer.
pub(crate) fn answer_status(answer: &Audit) -> Status
    ensures { result ≡ answers.answer_status answer.now }
{
    match answer {
        Audit::Yes(_) => Status::Stable,
        Audit::No { .. } => Status::Found,
    }
}

/// The line that tells of a failure.
pub(crate) fn fault_line(status: Status) -> &'static [u8]
    ensures { result.now ≡ ending.fault_line status }
{
    match status {
        Status::BadWords => b"stack: bad words\n",
        Status::ReadFault => b"stack: the input cannot be read\n",
        Status::WriteFault => b"stack: the output cannot be written\n",
        Status::TooLarge => b"stack: the input is too large\n",
        Status::NoMemory => b"stack: no memory\n",
        Status::Stable | Status::Found | Status::Unsure | Status::NoCandidate => b"",
    }
}

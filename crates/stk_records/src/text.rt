//! The text of lines.

ghost use Rattle.std.specs.Prelude.{◌≡◌, ◌++◌, [], ◌∷◌, IfOk, map, codes, decimal};
ghost use Rattle.std.specs.Fmt.{signed_decimal};
ghost use Rattle.stk_records.specs.Text.{printed_byte, printed, file_text, spot_text, claim_text, fragment_text, input_text, more_inputs, inputs_text, start_text, hit_text, kind_text, without_text, needed_text, needs_text, phase_text, query_text, counted, cause_text, found_text, left_out_text, line_text};

use crate::{Cause, Claim, Counts, Fragment, Input, Line, Needed, Spot, StartInputs};
use itoa::Buffer;
use stk_base::{List, NoMemory};
use stk_meaning::Phase;
use stk_numbers::UbKind;

// Adds bytes to a text.
fn add(text: &mut Vec<u8>, bytes: &[u8]) -> Result<(), NoMemory>
    ensures { IfOk result (λ _. text.new.items ≡ text.old.items ++ bytes.now) }
{
    text.extend_from_slice(bytes)?;
    Ok(())
}

fn add_count(text: &mut Vec<u8>, count: u64) -> Result<(), NoMemory>
    ensures { IfOk result (λ _. text.new.items ≡ text.old.items ++ decimal count) }
{
    let mut buffer = Buffer::new();
    add(text, buffer.format(count).as_bytes())
}

fn add_number(text: &mut Vec<u8>, number: i128) -> Result<(), NoMemory>
    ensures { IfOk result (λ _. text.new.items ≡ text.old.items ++ signed_decimal number) }
{
    let mut buffer = Buffer::new();
    add(text, buffer.format(number).as_bytes())
}

/// A byte of a name as it is printed: itself from 32 to 126, and else `?`.
pub fn printed_byte(byte: u8) -> u8
    ensures { result ≡ printed_byte byte }
{
    if 32 <= byte && byte <= 126 {
        byte
    } else {
        b'?'
    }
}

// Adds a name as it is printed.
fn add_printed(text: &mut Vec<u8>, name: &[u8]) -> Result<(), NoMemory>
    ensures { IfOk result (λ _. text.new.items ≡ text.old.items ++ printed name.now) }
{
    for byte in name {
        text.push(printed_byte(*byte))?;
    }
    Ok(())
}

// Adds the name of a file.
fn add_file(text: &mut Vec<u8>, file: &Option<List<u8>>) -> Result<(), NoMemory>
    ensures { IfOk result (λ _. text.new.items ≡ text.old.items ++ file_text file.now) }
{
    match file {
        Some(name) => add_printed(text, name.as_slice()),
        None => add(text, b"-"),
    }
}

/// Adds a place to a text: `FILE:LINE:COLUMN`, where `-` stands for the input itself. After `NoMemory` the text is of
/// no use.
pub fn add_spot(text: &mut Vec<u8>, at: &Spot) -> Result<(), NoMemory>
    ensures { IfOk result (λ _. text.new.items ≡ text.old.items ++ spot_text at.now) }
{
    add_file(text, &at.file)?;
    add(text, b":")?;
    add_count(text, u64::from(at.line))?;
    add(text, b":")?;
    add_count(text, u64::from(at.column))
}

/// Adds what is claimed of a fragment to a text. After `NoMemory` the text is of no use.
pub fn add_claim(text: &mut Vec<u8>, claim: &Claim) -> Result<(), NoMemory>
    ensures { IfOk result (λ _. text.new.items ≡ text.old.items ++ claim_text claim.now) }
{
    match claim {
        Claim::NeverEntered => add(text, b"never entered"),
        Claim::AlwaysTrue => add(text, b"always true"),
        Claim::AlwaysFalse => add(text, b"always false"),
        Claim::SameAs(other) => {
            add(text, b"same as ")?;
            add_printed(text, other.as_slice())
        }
    }
}

// Adds a fragment, behind words that say what it is found to be.
fn add_fragment(text: &mut Vec<u8>, what: &[u8], fragment: &Fragment) -> Result<(), NoMemory>
    ensures { IfOk result (λ _. text.new.items ≡ text.old.items ++ fragment_text what.now fragment.now) }
{
    add_spot(text, &fragment.at)?;
    add(text, what)?;
    add_claim(text, &fragment.claim)?;
    add(text, b" in ")?;
    add_printed(text, fragment.function.as_slice())
}

// Adds an input.
fn add_input(text: &mut Vec<u8>, input: &Input) -> Result<(), NoMemory>
    ensures { IfOk result (λ _. text.new.items ≡ text.old.items ++ input_text input.now) }
{
    add_printed(text, input.key.as_slice())?;
    add(text, b"=")?;
    add_number(text, input.number)
}

// Adds the inputs behind the first.
fn add_more_inputs(text: &mut Vec<u8>, inputs: &[Input]) -> Result<(), NoMemory>
    ensures { IfOk result (λ _. text.new.items ≡ text.old.items ++ more_inputs inputs.now) }
{
    for input in inputs {
        add(text, b" ")?;
        add_input(text, input)?;
    }
    Ok(())
}

// Adds a start.
fn add_start(text: &mut Vec<u8>, start: &StartInputs) -> Result<(), NoMemory>
    ensures { IfOk result (λ _. text.new.items ≡ text.old.items ++ start_text start.now) }
{
    match start.inputs.as_slice().split_first() {
        Some((input, inputs)) => {
            add_input(text, input)?;
            add_more_inputs(text, inputs)
        }
        None => add(text, b"none"),
    }
}

/// How a kind is printed.
pub fn kind_text(kind: UbKind) -> &'static [u8]
    ensures { result.now ≡ kind_text kind }
{
    match kind {
        UbKind::Overflow => b"signed overflow",
        UbKind::Zero => b"division by zero",
        UbKind::Shift => b"oversized shift",
        UbKind::Null => b"null dereference",
        UbKind::Pointer => b"pointer overflow",
        UbKind::Bounds => b"index out of bounds",
        UbKind::AbsValue => b"absolute value overflow",
        UbKind::Overlap => b"overlapping copy",
    }
}

// Adds what shows that a condition is needed.
fn add_without(text: &mut Vec<u8>, without: &Option<StartInputs>) -> Result<(), NoMemory>
    ensures { IfOk result (λ _. text.new.items ≡ text.old.items ++ without_text without.now) }
{
    match without {
        Some(start) => {
            add(text, b"; without it: ")?;
            add_start(text, start)
        }
        None => add(text, b"; open"),
    }
}

// Adds the line of a condition of a set.
fn add_needed(text: &mut Vec<u8>, needed: &Needed) -> Result<(), NoMemory>
    ensures { IfOk result (λ _. text.new.items ≡ text.old.items ++ needed_text needed.now) }
{
    add(text, b"  needs ")?;
    add(text, kind_text(needed.kind))?;
    add(text, b" at ")?;
    add_spot(text, &needed.at)?;
    add_without(text, &needed.without)?;
    add(text, b"\n")
}

// Adds the lines of conditions.
fn add_needs(text: &mut Vec<u8>, needs: &[Needed]) -> Result<(), NoMemory>
    ensures { IfOk result (λ _. text.new.items ≡ text.old.items ++ needs_text needs.now) }
{
    for needed in needs {
        add_needed(text, needed)?;
    }
    Ok(())
}

// How a query is printed that was given up.
fn phase_text(phase: Phase) -> &'static [u8]
    ensures { result.now ≡ phase_text phase }
{
    match phase {
        Phase::Free => b"; free query",
        Phase::Hit => b"; hit query",
    }
}

// Adds a count and the words behind it.
fn add_counted(text: &mut Vec<u8>, count: u64, words: &[u8]) -> Result<(), NoMemory>
    ensures { IfOk result (λ _. text.new.items ≡ text.old.items ++ counted count words.now) }
{
    add_count(text, count)?;
    add(text, words)
}

// Adds `rule R at PLACE`.
fn add_rule(text: &mut Vec<u8>, rule: u8, at: &Spot) -> Result<(), NoMemory>
    ensures { IfOk result (λ _. text.new.items ≡ text.old.items ++ (codes "rule " ++ decimal rule ++ codes " at " ++ spot_text at.now)) }
{
    add(text, b"rule ")?;
    add_count(text, u64::from(rule))?;
    add(text, b" at ")?;
    add_spot(text, at)
}

// Adds `weight W`.
fn add_weight(text: &mut Vec<u8>, sum: u64) -> Result<(), NoMemory>
    ensures { IfOk result (λ _. text.new.items ≡ text.old.items ++ (codes "weight " ++ decimal sum)) }
{
    add(text, b"weight ")?;
    add_count(text, sum)
}

// Adds why a unit is skipped.
fn add_cause(text: &mut Vec<u8>, cause: &Cause) -> Result<(), NoMemory>
    ensures { IfOk result (λ _. text.new.items ≡ text.old.items ++ cause_text cause.now) }
{
    match cause {
        Cause::NoTree => add(text, b"no tree"),
        Cause::Rule { rule, at } => add_rule(text, *rule, at),
        Cause::Nodes { count } => add_counted(text, u64::from(*count), b" nodes"),
        Cause::Weight { sum } => add_weight(text, *sum),
    }
}

// Adds what the summary says of functions and candidates.
fn add_found(text: &mut Vec<u8>, counts: Counts) -> Result<(), NoMemory>
    ensures { IfOk result (λ _. text.new.items ≡ text.old.items ++ found_text counts) }
{
    add_counted(text, counts.functions, b" functions, ")?;
    add_counted(text, counts.candidates, b" candidates, ")?;
    add_counted(text, counts.unstable, b" unstable, ")?;
    Ok(())
}

// Adds what the summary says of what wasn't judged.
fn add_left_out(text: &mut Vec<u8>, counts: Counts) -> Result<(), NoMemory>
    ensures { IfOk result (λ _. text.new.items ≡ text.old.items ++ left_out_text counts) }
{
    add_counted(text, counts.undecided, b" undecided, ")?;
    add_counted(text, counts.skipped, b" skipped\n")?;
    Ok(())
}

// Adds the summary.
fn add_summary(text: &mut Vec<u8>, counts: Counts) -> Result<(), NoMemory>
    ensures { IfOk result (λ _. text.new.items ≡ text.old.items ++ (found_text counts ++ left_out_text counts)) }
{
    add_found(text, counts)?;
    add_left_out(text, counts)
}

// Adds the line of a start that hits, behind the line of its fragment.
fn add_hit(text: &mut Vec<u8>, hit: &StartInputs) -> Result<(), NoMemory>
    ensures { IfOk result (λ _. text.new.items ≡ text.old.items ++ hit_text hit.now) }
{
    add(text, b"\n  hit: ")?;
    add_start(text, hit)?;
    add(text, b"\n")
}

// Adds a report.
fn add_report(
    text: &mut Vec<u8>,
    fragment: &Fragment,
    hit: &StartInputs,
    needs: &[Needed],
) -> Result<(), NoMemory>
    ensures { IfOk result (λ _. text.new.items ≡ text.old.items ++ (fragment_text (codes ": unstable: ") fragment.now ++ hit_text hit.now ++ needs_text needs.now)) }
{
    add_fragment(text, b": unstable: ", fragment)?;
    add_hit(text, hit)?;
    add_needs(text, needs)?;
    Ok(())
}

// Adds which query was given up.
fn add_query(text: &mut Vec<u8>, phase: Phase) -> Result<(), NoMemory>
    ensures { IfOk result (λ _. text.new.items ≡ text.old.items ++ query_text phase) }
{
    add(text, phase_text(phase))?;
    add(text, b"\n")
}

// Adds the line of a fragment that is undecided.
fn add_undecided(text: &mut Vec<u8>, fragment: &Fragment, phase: Phase) -> Result<(), NoMemory>
    ensures { IfOk result (λ _. text.new.items ≡ text.old.items ++ (fragment_text (codes ": undecided: ") fragment.now ++ query_text phase)) }
{
    add_fragment(text, b": undecided: ", fragment)?;
    add_query(text, phase)?;
    Ok(())
}

// Adds the line of a unit that is skipped.
fn add_skipped(text: &mut Vec<u8>, at: &Spot, cause: &Cause) -> Result<(), NoMemory>
    ensures { IfOk result (λ _. text.new.items ≡ text.old.items ++ (spot_text at.now ++ codes ": skipped: " ++ cause_text cause.now ++ codes "\n")) }
{
    add_spot(text, at)?;
    add(text, b": skipped: ")?;
    add_cause(text, cause)?;
    add(text, b"\n")
}

/// Adds the text of a line to a text, with its newlines. Bytes of names outside 32 to 126 are printed as `?`. A report
/// has a line for the fragment, one for the start whose run hits it, and one for each condition of its set. After
/// `NoMemory` the text is of no use.
pub fn add_line(text: &mut Vec<u8>, line: &Line) -> Result<(), NoMemory>
    ensures { IfOk result (λ _. text.new.items ≡ text.old.items ++ line_text line.now) }
{
    match line {
        Line::Unstable {
            fragment,
            hit,
            needs,
        } => add_report(text, fragment, hit, needs.as_slice()),
        Line::Undecided { fragment, phase } => add_undecided(text, fragment, *phase),
        Line::Skipped { at, cause } => add_skipped(text, at, cause),
        Line::Summary { counts, .. } => add_summary(text, *counts),
    }
}

//! Audits of the bundles that the checker writes, by their sources: of each line, what is answered where it is changed,
//! left out, doubled, and exchanged with the next one. The expected answers were worked out by hand.

use crate::writing::{NOTHING, bundled};
use itoa::Buffer;
use std::alloc::Global;
use std::process::Abort;
use std::test::Fail;
use stk_audit_main::audit_main;
use stk_base::{MemSink, MemSource, NoMemory};
use stk_bundle::{line_count, read_bundle};
use stk_line_reading::first_line;

/// The most bytes of a call of a source or sink.
const MOST: usize = 1_000_000;

/// The line that is named, and why. It is one of the grammar, those of blocks not counted, from 0; or the one behind
/// the last. Where each line holds there is no reason.
type Answer = (usize, &'static str);

/// Each line holds.
const HOLDS: Answer = (0, "");

/// The answers where lines are edited, each alone; where one is changed, what it becomes comes first.
struct Answers {
    changed: &'static [(&'static str, Answer)],
    left_out: &'static [Answer],
    doubled: &'static [Answer],
    exchanged: &'static [Answer],
}

/// A source, the line of the audit of its bundle, and the answers where the lines of the grammar are edited. The last
/// of these is the end, behind which the source comes: where it moves, so does the source.
struct AuditedSource {
    source: &'static str,
    holds: &'static str,
    answers: Answers,
}

/// A function of 8 input bits, all of whose input maps are tried: two claims, of lines 4 to 7 and 8 to 11.
static NARROW: AuditedSource = AuditedSource {
    source: "int f(unsigned char x) { int y = 10 / x; if (x == 0) return 1; return y; }",
    holds: "2 claims hold\n",
    answers: Answers {
        changed: &[
            ("stack bundle 2", (0, "form")),
            ("source 75", (1, "name")),
            ("without zero", (6, "name")),
            ("function 1", (3, "name")),
            ("unstable 12 2", (5, "start")),
            ("hit 1", (5, "start")),
            ("need 8 2 1", (6, "start")),
            ("cnf 1", (7, "form")),
            ("unstable 12 3", (8, "name")),
            ("hit 0 0", (9, "start")),
            ("open 8 2", HOLDS),
            ("tried ", (11, "form")),
            ("ends", (1, "name")),
        ],
        left_out: &[
            (0, "form"),
            (1, "form"),
            (2, "form"),
            (3, "form"),
            (4, "form"),
            (5, "form"),
            (6, "tried"),
            (7, "form"),
            (8, "form"),
            (9, "form"),
            (10, "tried"),
            (11, "form"),
            (1, "name"),
        ],
        doubled: &[
            (1, "form"),
            (2, "form"),
            (3, "form"),
            (4, "form"),
            (5, "form"),
            (6, "form"),
            (7, "name"),
            (8, "form"),
            (9, "form"),
            (10, "form"),
            (11, "name"),
            (12, "form"),
            (1, "name"),
        ],
        exchanged: &[
            (0, "form"),
            (1, "form"),
            (2, "form"),
            (3, "form"),
            (4, "form"),
            (5, "form"),
            (6, "tried"),
            (7, "form"),
            (8, "form"),
            (9, "form"),
            (10, "tried"),
            (1, "name"),
            HOLDS,
        ],
    },
};

/// A function of 32 input bits: three claims of five lines each, from line 4 on, with clauses and derivations.
static WIDE: AuditedSource = AuditedSource {
    source: "int f(int x) { if (x + 100 < x) return 1; return 0; }",
    holds: "3 claims hold\n",
    answers: Answers {
        changed: &[
            ("stack bundle 01", (0, "form")),
            ("source 52", (1, "name")),
            ("without overflow", (6, "name")),
            ("function 4", (3, "name")),
            ("unstable 9 1", (4, "name")),
            ("hit 0", (5, "start")),
            ("need 7 1 0", (6, "start")),
            ("tried", (7, "tried")),
            ("lrat 0", (8, "derivation")),
            ("unstable 9 3", (9, "name")),
            ("hit 4294967296", (10, "start")),
            ("need 7 2 0", (11, "name")),
            ("cnf 1", (12, "form")),
            ("lrat 1", (13, "derivation")),
            ("left 11 1", (15, "form")),
            ("hit", (15, "start")),
            ("open 7 1", HOLDS),
            ("cnf 1000000", (20, "form")),
            ("lrat 1000000", (20, "form")),
            ("end ", (1, "name")),
        ],
        left_out: &[
            (0, "form"),
            (1, "form"),
            (2, "form"),
            (3, "form"),
            (4, "form"),
            (5, "form"),
            (6, "formula"),
            (7, "form"),
            (8, "form"),
            (9, "form"),
            (10, "form"),
            (11, "formula"),
            (12, "form"),
            (13, "form"),
            (14, "form"),
            (15, "form"),
            (16, "formula"),
            (17, "form"),
            (18, "form"),
            (1, "name"),
        ],
        doubled: &[
            (1, "form"),
            (2, "form"),
            (3, "form"),
            (4, "form"),
            (5, "form"),
            (6, "form"),
            (7, "name"),
            (7, "form"),
            (8, "form"),
            (10, "form"),
            (11, "form"),
            (12, "name"),
            (12, "form"),
            (13, "form"),
            (15, "form"),
            (16, "form"),
            (17, "name"),
            (17, "form"),
            (18, "form"),
            (1, "name"),
        ],
        exchanged: &[
            (0, "form"),
            (1, "form"),
            (2, "form"),
            (3, "form"),
            (4, "form"),
            (5, "form"),
            (6, "form"),
            (7, "form"),
            (8, "form"),
            (9, "form"),
            (10, "form"),
            (11, "form"),
            (12, "form"),
            (13, "form"),
            (14, "form"),
            (15, "form"),
            (16, "form"),
            (17, "form"),
            (18, "form"),
            HOLDS,
        ],
    },
};

/// Lines of its blocks: each by a line of the grammar, and how many lines it stands behind or before that. They are the
/// first two and the last of the first clauses, the first and the last of the first derivation, and the last of all.
static IN_BLOCKS: [(usize, u64, u64); 6] = [
    (7, 1, 0),
    (7, 2, 0),
    (8, 0, 1),
    (8, 1, 0),
    (9, 0, 1),
    (19, 0, 1),
];

/// The answers where these are edited.
static BLOCK_ANSWERS: Answers = Answers {
    changed: &[
        ("p cnf 1 0", (7, "form")),
        ("0", (7, "formula")),
        ("1 0", (7, "formula")),
        ("1 0", (8, "form")),
        ("0", (8, "form")),
        ("0", (18, "form")),
    ],
    left_out: &[
        (7, "form"),
        (7, "form"),
        (7, "form"),
        (8, "form"),
        (8, "form"),
        (18, "form"),
    ],
    doubled: &[
        (7, "form"),
        (7, "formula"),
        (8, "form"),
        (8, "form"),
        (9, "form"),
        (19, "form"),
    ],
    exchanged: &[
        (7, "form"),
        (7, "formula"),
        (7, "form"),
        (8, "form"),
        (8, "form"),
        (1, "name"),
    ],
};

/// A bundle, and the numbers of its lines of the grammar, from 1, with that of the line behind the last.
#[derive(Drop)]
struct NumberedBundle {
    bundle: Vec<u8>,
    numbers: Vec<u64>,
}

/// The numbers of a bundle's lines of the grammar, and of the line behind the last.
fn numbers_of(alloc: Global, bundle: &[u8]) -> Result<Vec<u64>, NoMemory> {
    let read = read_bundle(alloc, bundle)?;
    let mut numbers = Vec::new(alloc);
    let mut number = 1u64;
    for part in &read.parts {
        numbers.push(number)?;
        let lines = line_count(part.block) as u64;
        number = number.saturating_add(lines).saturating_add(1);
    }
    numbers.push(number)?;
    Ok(numbers)
}

/// The bundle that the checker writes of a source.
fn bundle_of(alloc: Global, source: &str) -> Result<NumberedBundle, Fail> {
    let written = bundled(alloc, NOTHING, source.as_bytes(), &[])?;
    let numbers = numbers_of(alloc, written.bundle.as_slice())?;
    Ok(NumberedBundle {
        bundle: written.bundle,
        numbers,
    })
}

/// The number of a line of the grammar; 0 where there is none at this place.
fn number_at(numbers: &[u64], place: usize) -> u64 {
    match numbers.get(place) {
        Some(number) => *number,
        None => 0,
    }
}

/// What is done to a line.
#[derive(Clone, Copy)]
enum Edit<'a> {
    /// Another one stands in its place.
    Changed(&'a [u8]),
    LeftOut,
    Doubled,
    /// It is exchanged with the next one, if one comes.
    Exchanged,
}

/// Adds a line.
fn add_line(text: &mut Vec<u8>, line: &[u8]) -> Result<(), NoMemory> {
    text.extend_from_slice(line)?;
    text.push(b'\n')?;
    Ok(())
}

/// Adds what an edit makes of a line and of what comes behind it.
fn add_edited(text: &mut Vec<u8>, line: &[u8], behind: &[u8], edit: Edit) -> Result<(), NoMemory> {
    let mut rest = behind;
    match edit {
        Edit::Changed(other) => add_line(text, other)?,
        Edit::LeftOut => {}
        Edit::Doubled => {
            add_line(text, line)?;
            add_line(text, line)?;
        }
        Edit::Exchanged => {
            if let Some((next, others)) = first_line(behind) {
                add_line(text, next)?;
                rest = others;
            }
            add_line(text, line)?;
        }
    }
    text.extend_from_slice(rest)?;
    Ok(())
}

/// A text whose line with this number, from 1, is edited.
fn edited(alloc: Global, text: &[u8], number: u64, edit: Edit) -> Result<Vec<u8>, NoMemory> {
    let mut out = Vec::new(alloc);
    let mut rest = text;
    for _ in 1..number {
        if let Some((line, behind)) = first_line(rest) {
            add_line(&mut out, line)?;
            rest = behind;
        }
    }
    if let Some((line, behind)) = first_line(rest) {
        add_edited(&mut out, line, behind, edit)?;
    }
    Ok(out)
}

/// The line that the audit of a bundle by a source writes.
fn line_of_audit(alloc: Global, bundle: &[u8], source: &str) -> Result<Vec<u8>, NoMemory> {
    let mut input = Vec::from_slice(alloc, bundle)?;
    input.extend_from_slice(source.as_bytes())?;
    let mut source = MemSource::new(input, MOST, Vec::new(alloc));
    let mut out = MemSink::new(alloc, MOST, Vec::new(alloc));
    let mut fault = MemSink::new(alloc, MOST, Vec::new(alloc));
    let _status = audit_main(alloc, &[], &mut source, &mut out, &mut fault);
    Ok(Vec::from_slice(alloc, out.bytes())?)
}

/// The line of an answer.
fn expected(
    alloc: Global,
    row: &AuditedSource,
    numbers: &[u64],
    answer: Answer,
) -> Result<Vec<u8>, NoMemory> {
    let (place, why) = answer;
    if why.is_empty() {
        return Ok(Vec::from_slice(alloc, row.holds.as_bytes())?);
    }
    let mut text = Vec::from_slice(alloc, b"line ")?;
    let mut buffer = Buffer::new();
    text.extend_from_slice(buffer.format(number_at(numbers, place)).as_bytes())?;
    text.extend_from_slice(b": ")?;
    add_line(&mut text, why.as_bytes())?;
    Ok(text)
}

/// Whether the audit of a bundle has an answer where the line with this number is edited.
fn is_answered(
    alloc: Global,
    row: &AuditedSource,
    written: &NumberedBundle,
    number: u64,
    edit: Edit,
    answer: Answer,
) -> Result<bool, NoMemory> {
    let bundle = edited(alloc, written.bundle.as_slice(), number, edit)?;
    let line = line_of_audit(alloc, bundle.as_slice(), row.source)?;
    let wanted = expected(alloc, row, written.numbers.as_slice(), answer)?;
    Ok(line.as_slice() == wanted.as_slice())
}

/// Edits each of the lines with these numbers alone, and compares the answers.
fn check(
    rt: &(impl Abort + AllocGlobal),
    row: &AuditedSource,
    written: &NumberedBundle,
    numbers: &[u64],
    answers: &Answers,
) -> Result<(), Fail> {
    let alloc = rt.alloc();
    for (number, (other, answer)) in numbers.iter().zip(answers.changed.iter()) {
        let edit = Edit::Changed(other.as_bytes());
        assert!(rt; is_answered(alloc, row, written, *number, edit, *answer)?);
    }
    for (number, answer) in numbers.iter().zip(answers.left_out.iter()) {
        assert!(rt; is_answered(alloc, row, written, *number, Edit::LeftOut, *answer)?);
    }
    for (number, answer) in numbers.iter().zip(answers.doubled.iter()) {
        assert!(rt; is_answered(alloc, row, written, *number, Edit::Doubled, *answer)?);
    }
    for (number, answer) in numbers.iter().zip(answers.exchanged.iter()) {
        assert!(rt; is_answered(alloc, row, written, *number, Edit::Exchanged, *answer)?);
    }
    Ok(())
}

#[test]
fn edited_lines_of_the_grammar_are_answered(rt: HostRuntime) -> Result<(), Fail> {
    for row in [&NARROW, &WIDE] {
        let written = bundle_of(rt.alloc(), row.source)?;
        let numbers = written.numbers.as_slice();
        assert!(rt; numbers.len() == row.answers.changed.len() + 1);
        check(&rt, row, &written, numbers, &row.answers)?;
    }
    Ok(())
}

#[test]
fn edited_lines_of_blocks_are_answered(rt: HostRuntime) -> Result<(), Fail> {
    let written = bundle_of(rt.alloc(), WIDE.source)?;
    let mut numbers = Vec::new(rt.alloc());
    for (place, behind, before) in &IN_BLOCKS {
        let number = number_at(written.numbers.as_slice(), *place);
        numbers.push(number.saturating_add(*behind).saturating_sub(*before))?;
    }
    check(&rt, &WIDE, &written, numbers.as_slice(), &BLOCK_ANSWERS)
}

/// The line that says how many steps come.
fn steps_line(alloc: Global, steps: u64) -> Result<Vec<u8>, NoMemory> {
    let mut text = Vec::from_slice(alloc, b"lrat ")?;
    let mut buffer = Buffer::new();
    text.extend_from_slice(buffer.format(steps).as_bytes())?;
    Ok(text)
}

#[test]
fn a_derivation_without_its_last_step_refutes_nothing(rt: HostRuntime) -> Result<(), Fail> {
    let alloc = rt.alloc();
    let written = bundle_of(alloc, WIDE.source)?;
    let numbers = written.numbers.as_slice();
    let line = number_at(numbers, 8);
    let last = number_at(numbers, 9).saturating_sub(1);
    let fewer = steps_line(alloc, last.saturating_sub(line).saturating_sub(1))?;
    let short = edited(alloc, written.bundle.as_slice(), last, Edit::LeftOut)?;
    let bundle = edited(
        alloc,
        short.as_slice(),
        line,
        Edit::Changed(fewer.as_slice()),
    )?;
    let answer = line_of_audit(alloc, bundle.as_slice(), WIDE.source)?;
    let wanted = expected(alloc, &WIDE, numbers, (8, "derivation"))?;
    assert!(rt; answer.as_slice() == wanted.as_slice());
    Ok(())
}

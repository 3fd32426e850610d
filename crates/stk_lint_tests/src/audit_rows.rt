//! Runs of the top call over a source and sinks in memory: bundles of a function whose input maps are all tried.

use std::alloc::Global;
use std::process::Abort;
use std::test::Fail;
use stk_audit_main::{audit_bundle, audit_main};
use stk_audit_rules::Audit;
use stk_base::{MemSink, MemSource, NoMemory, Status};

/// The lines of a bundle, and the answer of its audit.
struct Row {
    lines: &'static [u8],
    answer: &'static [u8],
    status: Status,
}

/// The function of all rows: in `if (x == 0) return 1;` the test is taken for false, and its branch for dead, since
/// `10 / x` stands before.
const SOURCE: &[u8] = b"int f(unsigned char x) { int y = 10 / x; if (x == 0) return 1; return y; }";

static ROWS: [Row; 16] = [
    Row {
        lines: b"stack bundle 1\nsource 74\nwithout -\nfunction 0\nunstable 12 3\nhit 0\nneed 8 2 0\ntried\nunstable 14 1\nhit 0\nneed 8 2 0\ntried\nend\n",
        answer: b"2 claims hold\n",
        status: Status::Stable,
    },
    // no claim, and a candidate without one
    Row {
        lines: b"stack bundle 1\nsource 74\nwithout -\nend\n",
        answer: b"0 claims hold\n",
        status: Status::Stable,
    },
    Row {
        lines: b"stack bundle 1\nsource 74\nwithout -\nfunction 0\nunstable 12 3\nhit 0\nneed 8 2 0\ntried\nleft 14 1\nend\n",
        answer: b"1 claims hold\n",
        status: Status::Stable,
    },
    // starts that show nothing: a map that hits nothing, one residue too many, one out of range
    Row {
        lines: b"stack bundle 1\nsource 74\nwithout -\nfunction 0\nunstable 12 3\nhit 0\nneed 8 2 1\ntried\nunstable 14 1\nhit 0\nneed 8 2 0\ntried\nend\n",
        answer: b"line 7: start\n",
        status: Status::Found,
    },
    Row {
        lines: b"stack bundle 1\nsource 74\nwithout -\nfunction 0\nunstable 12 3\nhit 0 0\nneed 8 2 0\ntried\nend\n",
        answer: b"line 6: start\n",
        status: Status::Found,
    },
    Row {
        lines: b"stack bundle 1\nsource 74\nwithout -\nfunction 0\nunstable 12 3\nhit 256\nneed 8 2 0\ntried\nend\n",
        answer: b"line 6: start\n",
        status: Status::Found,
    },
    // names: another length, no function, no candidate, no condition, a candidate behind a later one
    Row {
        lines: b"stack bundle 1\nsource 75\nwithout -\nend\n",
        answer: b"line 2: name\n",
        status: Status::Found,
    },
    Row {
        lines: b"stack bundle 1\nsource 74\nwithout -\nfunction 1\nunstable 12 3\nhit 0\nneed 8 2 0\ntried\nend\n",
        answer: b"line 4: name\n",
        status: Status::Found,
    },
    Row {
        lines: b"stack bundle 1\nsource 74\nwithout -\nfunction 0\nunstable 13 3\nhit 0\nneed 8 2 0\ntried\nend\n",
        answer: b"line 5: name\n",
        status: Status::Found,
    },
    Row {
        lines: b"stack bundle 1\nsource 74\nwithout -\nfunction 0\nunstable 12 3\nhit 0\nneed 8 3 0\ntried\nend\n",
        answer: b"line 7: name\n",
        status: Status::Found,
    },
    Row {
        lines: b"stack bundle 1\nsource 74\nwithout -\nfunction 0\nunstable 14 1\nhit 0\nneed 8 2 0\ntried\nunstable 12 3\nhit 0\nneed 8 2 0\ntried\nend\n",
        answer: b"line 9: name\n",
        status: Status::Found,
    },
    // the kind of the condition is taken out: it doesn't exist
    Row {
        lines: b"stack bundle 1\nsource 74\nwithout zero\nfunction 0\nunstable 12 3\nhit 0\nneed 8 2 0\ntried\nend\n",
        answer: b"line 7: name\n",
        status: Status::Found,
    },
    // a set that doesn't suffice
    Row {
        lines: b"stack bundle 1\nsource 74\nwithout -\nfunction 0\nunstable 12 3\nhit 0\ntried\nend\n",
        answer: b"line 7: tried\n",
        status: Status::Found,
    },
    // clauses where there is no clause list, and others than the function's
    Row {
        lines: b"stack bundle 1\nsource 74\nwithout -\nfunction 0\nunstable 12 3\nhit 0\nneed 8 2 0\ncnf 1\np cnf 0\nlrat 0\nend\n",
        answer: b"line 8: form\n",
        status: Status::Found,
    },
    Row {
        lines: b"stack bundle 1\nsource 74\nwithout -\nfunction 0\nunstable 12 3\nhit 0\nneed 8 2 0\ncnf 2\np cnf 9 1\n9 0\nlrat 0\nend\n",
        answer: b"line 8: formula\n",
        status: Status::Found,
    },
    // no bundle at all
    Row {
        lines: b"end\n",
        answer: b"line 1: form\n",
        status: Status::Found,
    },
];

/// Runs the top call, and compares its status and what the sinks took.
fn check(
    alloc: Global,
    rt: &impl Abort,
    words: usize,
    input: Vec<u8>,
    status: Status,
    answer: &[u8],
    line: &[u8],
) -> Result<(), Fail> {
    let mut list = Vec::new(alloc);
    for _ in 0..words {
        list.push(String::from_str(alloc, "--json")?)?;
    }
    let mut source = MemSource::new(input, 1_000_000, Vec::new(alloc));
    let mut out = MemSink::new(alloc, 1_000_000, Vec::new(alloc));
    let mut fault = MemSink::new(alloc, 1_000_000, Vec::new(alloc));
    let ended = audit_main(alloc, list.as_slice(), &mut source, &mut out, &mut fault);
    assert!(rt; ended == status);
    assert!(rt; out.bytes() == answer);
    assert!(rt; fault.bytes() == line);
    Ok(())
}

#[test]
fn each_bundle_has_its_answer(rt: HostRuntime) -> Result<(), Fail> {
    for row in &ROWS {
        let mut input = Vec::from_slice(rt.alloc(), row.lines)?;
        input.extend_from_slice(SOURCE)?;
        check(rt.alloc(), &rt, 0, input, row.status, row.answer, b"")?;
    }
    Ok(())
}

#[test]
fn there_are_no_words(rt: HostRuntime) -> Result<(), Fail> {
    let input = Vec::from_slice(rt.alloc(), ROWS[0].lines)?;
    let line = b"stack: bad words\n";
    check(rt.alloc(), &rt, 1, input, Status::BadWords, b"", line)
}

#[test]
fn without_an_end_all_is_the_bundle(rt: HostRuntime) -> Result<(), Fail> {
    let input = Vec::from_slice(rt.alloc(), b"stack bundle 1\nsource 0\nwithout -\n")?;
    check(
        rt.alloc(),
        &rt,
        0,
        input,
        Status::Found,
        b"line 4: form\n",
        b"",
    )
}

/// The lines of the starts of the claims that hold, in order.
fn start_lines(alloc: Global, answer: &Audit) -> Result<Vec<u32>, NoMemory> {
    let mut lines = Vec::new(alloc);
    if let Audit::Yes(claims) = answer {
        for claim in claims.as_slice() {
            for start in claim.starts.as_slice() {
                lines.push(start.line)?;
            }
        }
    }
    Ok(lines)
}

/// Those of the audit of a bundle by its source; none where one is too large.
fn audited_starts(alloc: Global, bundle: &[u8], source: &[u8]) -> Result<Vec<u32>, NoMemory> {
    if bundle.len() > 1_073_741_824 {
        return Ok(Vec::new(alloc));
    }
    if source.len() > 16_777_216 {
        return Ok(Vec::new(alloc));
    }
    let answer = audit_bundle(alloc, bundle, source)?;
    start_lines(alloc, &answer)
}

#[test]
fn claims_have_the_starts_of_their_lines(rt: HostRuntime) -> Result<(), Fail> {
    let lines = audited_starts(rt.alloc(), ROWS[0].lines, SOURCE)?;
    assert!(rt; lines.as_slice() == [6, 7, 10, 11].as_slice());
    Ok(())
}

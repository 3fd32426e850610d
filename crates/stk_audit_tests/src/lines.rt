// Bundles that are read, and their lines as they are written back.
use std::alloc::Global;
use std::test::Fail;
use stk_base::{List, NoMemory};
use stk_bundle::{BundleLine, add_line, read_bundle, report_lines};
use stk_meaning::{Finding, Need};
use stk_numbers::{CandKind, Candidate, Condition, Inputs, IntKind, UbKind};

/// A text, and the first line that fails; none where it is a bundle up to its line `end`.
struct Case {
    text: &'static [u8],
    failing: Option<u64>,
}

static BUNDLES: [Case; 9] = [
    // two claims of a function whose maps were tried
    Case {
        text: b"stack bundle 1\nsource 74\nwithout -\nfunction 0\nunstable 12 3\nhit 0\nneed 8 2 0\ntried\nunstable 14 1\nhit 0\nneed 8 2 0\ntried\nend\n",
        failing: None,
    },
    // a claim with clauses and steps, a candidate without a claim, and a source behind
    Case {
        text: b"stack bundle 1\nsource 9\nwithout shift,zero\nfunction 0\nunstable 12 3\nhit 7 18446744073709551615\nopen 8 2\ncnf 3\np cnf 1 2\n1 0\n-1 0\nlrat 1\n3 0 1 2 0\nleft 14 1\nend\nint x = 1",
        failing: None,
    },
    // a step too few: the line behind the last is missing
    Case {
        text: b"stack bundle 1\nsource 9\nwithout -\nfunction 0\nunstable 12 3\nhit\ncnf 2\np cnf 0 1\n0\nlrat 1\n",
        failing: Some(11),
    },
    // no line `end`, and a line without a newline
    Case {
        text: b"stack bundle 1\nsource 9\nwithout -\nend",
        failing: Some(4),
    },
    // another version
    Case {
        text: b"stack bundle 2\n",
        failing: Some(1),
    },
    // a leading zero, a number of 2^64, two spaces, a kind twice
    Case {
        text: b"stack bundle 1\nsource 09\n",
        failing: Some(2),
    },
    Case {
        text: b"stack bundle 1\nsource 18446744073709551616\n",
        failing: Some(2),
    },
    Case {
        text: b"stack bundle 1\nsource 9\nwithout zero,zero\nend\n",
        failing: Some(3),
    },
    // a claim without a start
    Case {
        text: b"stack bundle 1\nsource 9\nwithout -\nfunction 0\nunstable 12 3\nneed 8 2 0\ntried\nend\n",
        failing: Some(6),
    },
];

#[test]
fn bundles_are_read_and_written(rt: HostRuntime) -> Result<(), Fail> {
    for case in &BUNDLES {
        let Ok(reading) = read_bundle(rt.alloc(), case.text) else {
            assert!(rt; false);
            return Ok(());
        };
        assert!(rt; reading.failing == case.failing);
        let mut text = Vec::new(rt.alloc());
        for part in &reading.parts {
            assert!(rt; add_line(&mut text, &part.line).is_ok());
            text.extend_from_slice(part.block)?;
        }
        assert!(rt; case.text.starts_with(&text));
        assert!(rt; text.len() + reading.rest.len() == case.text.len());
    }
    Ok(())
}

/// An input map.
fn inputs(alloc: Global, numbers: &[i128]) -> Result<Inputs, NoMemory> {
    Ok(Inputs {
        numbers: List::from_vec(Vec::from_slice(alloc, numbers)?),
    })
}

/// A finding of two conditions, the second of them open.
fn finding(alloc: Global) -> Result<Finding, NoMemory> {
    let mut needs = Vec::new(alloc);
    needs.push(Need {
        condition: Condition {
            node: 8,
            kind: UbKind::Zero,
        },
        shown: Some(inputs(alloc, &[0, -1])?),
    })?;
    needs.push(Need {
        condition: Condition {
            node: 9,
            kind: UbKind::Overflow,
        },
        shown: None,
    })?;
    Ok(Finding::Unstable {
        start: inputs(alloc, &[0, -2_147_483_648])?,
        needs: List::from_vec(needs),
    })
}

/// The text of the lines of that finding.
fn claim_text(alloc: Global) -> Result<Vec<u8>, NoMemory> {
    let candidate = Candidate {
        node: 12,
        kind: CandKind::AlwaysFalse,
    };
    let finding = finding(alloc)?;
    let Finding::Unstable { start, needs } = &finding else {
        return Ok(Vec::new(alloc));
    };
    let keys = [IntKind::UChar, IntKind::Int];
    let mut lines = report_lines(alloc, &keys, candidate, start, needs.as_slice())?;
    lines.push(BundleLine::Tried)?;
    let mut text = Vec::new(alloc);
    for line in &lines {
        add_line(&mut text, line)?;
    }
    Ok(text)
}

#[test]
fn findings_become_claims(rt: HostRuntime) -> Result<(), Fail> {
    match claim_text(rt.alloc()) {
        Ok(text) => assert!(rt;
            text.as_slice()
                == b"unstable 12 3\nhit 0 2147483648\nneed 8 2 0 4294967295\nopen 9 1\ntried\n".as_slice()
        ),
        Err(NoMemory) => assert!(rt; false),
    }
    Ok(())
}

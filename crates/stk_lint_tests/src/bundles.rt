//! Bundles of functions of more than 16 input bits: how many of their claims have a derivation, and how long the first
//! lines are. That clauses and derivations are checked is tested in `wide`.

use crate::running::{ran, ran_with};
use std::test::Fail;
use stk_base::Status;
use stk_query::Cdcl;

// A function that tests a sum for overflow behind the sum: three candidates are unstable, by one set.
const INPUT: &str = "int f(int x) { if (x + 100 < x) return 1; return 0; }";

/// Words and an input, how its bundle begins, and how many of its lines begin with which words.
struct Row {
    words: &'static [&'static str],
    input: &'static str,
    first: &'static str,
    lines: &'static [(&'static str, u32)],
}

static ROWS: [Row; 2] = [
    Row {
        words: &["--bundle"],
        input: INPUT,
        first: "stack bundle 1\nsource 53\nwithout -\nfunction 0\nunstable ",
        lines: &[
            ("unstable ", 3),
            ("need ", 3),
            ("open ", 0),
            ("cnf ", 3),
            ("lrat ", 3),
            ("left ", 0),
        ],
    },
    // With the least budget all six reports have a member that a start shows, and two have one more that is open: the
    // records are a row of `given_up`. The goal of each claim is refuted by its own clauses within the same budget, so
    // none is left.
    Row {
        words: &["--bundle", "--budget", "1"],
        input: "int f(unsigned x, unsigned y, unsigned long z, unsigned long w) { unsigned long q = 1 / z + 1 / w; if (z == 0 || (w == 0 && (x + y) * (x - y) != x * x - y * y)) return 1; return q; }",
        first: "stack bundle 1\nsource 182\nwithout -\nfunction 0\nunstable ",
        lines: &[
            ("unstable ", 6),
            ("need ", 6),
            ("open ", 2),
            ("cnf ", 6),
            ("lrat ", 6),
            ("left ", 0),
        ],
    },
];

// How many lines of a text begin with these bytes.
fn lines_with(text: &[u8], start: &[u8]) -> u32 {
    let mut count = 0u32;
    let mut rest = text;
    let mut begins = true;
    for _turn in 0..text.len() {
        if begins && rest.starts_with(start) {
            count = count.saturating_add(1);
        }
        let Some((byte, behind)) = rest.split_first() else {
            return count;
        };
        begins = *byte == b'\n';
        rest = behind;
    }
    count
}

// Whether so many lines of a text begin with each of these words.
fn has_lines(text: &[u8], lines: &[(&str, u32)]) -> bool {
    for (start, count) in lines {
        if lines_with(text, start.as_bytes()) != *count {
            return false;
        }
    }
    true
}

#[test]
fn reports_have_claims(rt: HostRuntime) -> Result<(), Fail> {
    for row in &ROWS {
        let mut decider = Cdcl::new(rt.alloc());
        let run = ran(rt.alloc(), row.words, row.input, &mut decider)?;
        let bundle = run.records.as_slice();
        assert!(rt; run.status == Status::Found, "{:?}", row.words);
        assert!(rt; bundle.starts_with(row.first.as_bytes()), "{:?}", row.words);
        assert!(rt; bundle.ends_with(b"\nend\n"), "{:?}", row.words);
        assert!(rt; has_lines(bundle, row.lines), "{:?}", row.words);
    }
    Ok(())
}

#[test]
fn the_first_lines_come_before_a_failing_call(rt: HostRuntime) -> Result<(), Fail> {
    let mut decider = Cdcl::new(rt.alloc());
    let run = ran_with(rt.alloc(), &["--bundle"], INPUT, &mut decider, &[1])?;
    assert!(rt; run.status == Status::WriteFault);
    assert!(rt; run.records.as_slice() == b"stack bundle 1\nsource 53\nwithout -\n".as_slice());
    Ok(())
}

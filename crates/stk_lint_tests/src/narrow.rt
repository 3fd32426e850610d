//! Bundles of functions of at most 16 input bits. The expected lines were worked out by hand.

use crate::writing::{NOTHING, bundled};
use std::test::Fail;
use stk_base::Status;
use stk_numbers::Kinds;
use stk_records::Stop;

/// A text, its bundle, and the status.
struct Row {
    text: &'static [u8],
    bundle: &'static [u8],
    status: Status,
}

// A function whose test of a divisor stands behind the division.
const DIVIDES: &[u8] =
    b"int f(unsigned char x) { int y = 10 / x; if (x == 0) return 1; return y; }";

static ROWS: [Row; 5] = [
    Row {
        text: b"",
        bundle: b"stack bundle 1\nsource 0\nwithout -\nend\n",
        status: Status::Stable,
    },
    Row {
        text: b"int f(unsigned char x) { int y = 10 / x; if (x == 0) return 1; return y; }",
        bundle: b"stack bundle 1\nsource 74\nwithout -\nfunction 0\nunstable 12 3\nhit 0\nneed 8 2 0\ntried\nunstable 14 1\nhit 0\nneed 8 2 0\ntried\nend\n",
        status: Status::Found,
    },
    Row {
        text: b"int f(unsigned char x) { if (x != x) return 1; return 0; }",
        bundle: b"stack bundle 1\nsource 58\nwithout -\nend\n",
        status: Status::Stable,
    },
    Row {
        text: b"int f(int x) { return y; }",
        bundle: b"stack bundle 1\nsource 26\nwithout -\nend\n",
        status: Status::Stable,
    },
    Row {
        text: b"int a; int g(int x) { return y; } int f(unsigned char x) { int y = 10 / x; if (x == 0) return 1; return y; }",
        bundle: b"stack bundle 1\nsource 108\nwithout -\nfunction 34\nunstable 12 3\nhit 0\nneed 8 2 0\ntried\nunstable 14 1\nhit 0\nneed 8 2 0\ntried\nend\n",
        status: Status::Found,
    },
];

#[test]
fn bundles_are_as_worked_out(rt: HostRuntime) -> Result<(), Fail> {
    for row in &ROWS {
        let written = bundled(rt.alloc(), NOTHING, row.text, &[])?;
        assert!(rt; written.ended == Ok(row.status));
        assert!(rt; written.bundle.as_slice() == row.bundle);
    }
    Ok(())
}

#[test]
fn kinds_that_are_taken_out_are_named(rt: HostRuntime) -> Result<(), Fail> {
    let without = Kinds {
        zero: true,
        null: true,
        ..NOTHING
    };
    let written = bundled(rt.alloc(), without, DIVIDES, &[])?;
    assert!(rt; written.ended == Ok(Status::Stable));
    assert!(rt;
        written.bundle.as_slice()
            == b"stack bundle 1\nsource 74\nwithout zero,null\nend\n".as_slice()
    );
    Ok(())
}

// The first lines, and those of a first claim behind them.
static BEGUN: [&[u8]; 4] = [
    b"",
    b"stack bundle 1\nsource 74\nwithout -\n",
    b"stack bundle 1\nsource 74\nwithout -\nfunction 0\nunstable 12 3\nhit 0\nneed 8 2 0\ntried\n",
    b"stack bundle 1\nsource 74\nwithout -\nfunction 0\nunstable 12 3\nhit 0\nneed 8 2 0\ntried\nunstable 14 1\nhit 0\nneed 8 2 0\ntried\n",
];

#[test]
fn what_was_taken_is_a_prefix_where_a_call_fails(rt: HostRuntime) -> Result<(), Fail> {
    let mut failing = 0u64;
    for begun in &BEGUN {
        let written = bundled(rt.alloc(), NOTHING, DIVIDES, &[failing])?;
        assert!(rt; written.ended == Err(Stop::WriteFault));
        assert!(rt; written.bundle.as_slice() == *begun);
        failing = failing.saturating_add(1);
    }
    Ok(())
}

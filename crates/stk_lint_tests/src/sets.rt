//! Functions with many conditions before one fragment, of which one, three or all are members of its set.

use crate::running::ran;
use std::alloc::Global;
use std::test::Fail;
use stk_query::Cdcl;

/// How many divisions stand before the test, and how many of their divisors it compares with 0; how many conditions the
/// records name as needed; and the summary. Each comparison has a division as its set, and so has the test each of
/// them: one that compares m of them has 3 * m members in all.
struct Row {
    conditions: usize,
    members: usize,
    needs: u32,
    summary: &'static str,
}

static ROWS: [Row; 7] = [
    Row {
        conditions: 1,
        members: 1,
        needs: 3,
        summary: "1 functions, 5 candidates, 3 unstable, 0 undecided, 0 skipped\n",
    },
    Row {
        conditions: 10,
        members: 1,
        needs: 3,
        summary: "1 functions, 5 candidates, 3 unstable, 0 undecided, 0 skipped\n",
    },
    Row {
        conditions: 10,
        members: 3,
        needs: 9,
        summary: "1 functions, 9 candidates, 5 unstable, 0 undecided, 0 skipped\n",
    },
    Row {
        conditions: 10,
        members: 10,
        needs: 30,
        summary: "1 functions, 23 candidates, 12 unstable, 0 undecided, 0 skipped\n",
    },
    Row {
        conditions: 60,
        members: 1,
        needs: 3,
        summary: "1 functions, 5 candidates, 3 unstable, 0 undecided, 0 skipped\n",
    },
    Row {
        conditions: 60,
        members: 3,
        needs: 9,
        summary: "1 functions, 9 candidates, 5 unstable, 0 undecided, 0 skipped\n",
    },
    Row {
        conditions: 60,
        members: 60,
        needs: 180,
        summary: "1 functions, 123 candidates, 62 unstable, 0 undecided, 0 skipped\n",
    },
];

static NAMES: [&str; 60] = [
    "a0", "a1", "a2", "a3", "a4", "a5", "a6", "a7", "a8", "a9", "a10", "a11", "a12", "a13", "a14",
    "a15", "a16", "a17", "a18", "a19", "a20", "a21", "a22", "a23", "a24", "a25", "a26", "a27",
    "a28", "a29", "a30", "a31", "a32", "a33", "a34", "a35", "a36", "a37", "a38", "a39", "a40",
    "a41", "a42", "a43", "a44", "a45", "a46", "a47", "a48", "a49", "a50", "a51", "a52", "a53",
    "a54", "a55", "a56", "a57", "a58", "a59",
];

// A function of so many parameters that divides by each, and compares some of them with 0.
fn text_of(alloc: Global, row: &Row) -> Result<String, Fail> {
    let mut text = String::from_str(alloc, "int f(int first")?;
    for name in NAMES.iter().take(row.conditions) {
        text.push_str(", int ")?;
        text.push_str(name)?;
    }
    text.push_str(") { unsigned s = first;")?;
    for name in NAMES.iter().take(row.conditions) {
        text.push_str(" s += 9 / ")?;
        text.push_str(name)?;
        text.push_str(";")?;
    }
    text.push_str(" if (0")?;
    for name in NAMES.iter().take(row.members) {
        text.push_str(" | (")?;
        text.push_str(name)?;
        text.push_str(" == 0)")?;
    }
    text.push_str(") return 1; return s; }")?;
    Ok(text)
}

// How many conditions records name as needed: each has the one semicolon of its line.
fn needs_in(records: &[u8]) -> u32 {
    let mut count: u32 = 0;
    for byte in records {
        if *byte == b';' {
            count = count.saturating_add(1);
        }
    }
    count
}

#[test]
fn sets_are_minimal(rt: HostRuntime) -> Result<(), Fail> {
    for row in &ROWS {
        let text = text_of(rt.alloc(), row)?;
        let mut decider = Cdcl::new(rt.alloc());
        let run = ran(rt.alloc(), &[], text.as_str(), &mut decider)?;
        assert!(rt;
            needs_in(run.records.as_slice()) == row.needs,
            "{}",
            row.members
        );
        assert!(rt;
            run.records.as_slice().ends_with(row.summary.as_bytes()),
            "{}",
            row.members
        );
    }
    Ok(())
}

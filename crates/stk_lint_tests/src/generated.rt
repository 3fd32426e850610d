//! Texts that are generated in place of being read: of their records the summary alone is written, and the source is
//! left as it was. The counts were worked out by a program apart from this one.

use crate::running::ran;
use std::alloc::Global;
use std::process::Abort;
use std::test::Fail;
use stk_base::Status;
use stk_query::Cdcl;

/// Words, what is written, and the status of the run.
struct Row {
    words: &'static [&'static str],
    line: &'static str,
    status: Status,
}

static ROWS: [Row; 7] = [
    Row {
        words: &["--generate", "0", "--functions", "1"],
        line: "1 functions, 6 candidates, 0 unstable, 0 undecided, 0 skipped\n",
        status: Status::Stable,
    },
    Row {
        words: &["--generate", "1", "--functions", "1"],
        line: "1 functions, 4 candidates, 0 unstable, 0 undecided, 0 skipped\n",
        status: Status::Stable,
    },
    Row {
        words: &["--generate", "2", "--functions", "1"],
        line: "1 functions, 3 candidates, 2 unstable, 0 undecided, 0 skipped\n",
        status: Status::Found,
    },
    Row {
        words: &["--functions=7", "--generate=5"],
        line: "7 functions, 27 candidates, 12 unstable, 0 undecided, 0 skipped\n",
        status: Status::Found,
    },
    Row {
        words: &["--json", "--generate", "2", "--functions=1"],
        line: "{\"candidates\":3,\"functions\":1,\"skipped\":0,\"type\":\"summary\",\"undecided\":0,\"unstable\":2,\"version\":2,\"without\":[]}\n",
        status: Status::Found,
    },
    Row {
        words: &["--generate", "2", "--without", "null", "--functions", "1"],
        line: "1 functions, 3 candidates, 0 unstable, 0 undecided, 0 skipped\n",
        status: Status::Stable,
    },
    Row {
        words: &["--functions", "5"],
        line: "",
        status: Status::BadWords,
    },
];

/// A thousand functions by the number 1, and by the number 5.
static BY_1: Row = Row {
    words: &["--generate", "1", "--functions", "1000"],
    line: "1000 functions, 4034 candidates, 1619 unstable, 0 undecided, 0 skipped\n",
    status: Status::Found,
};

static BY_5: Row = Row {
    words: &["--generate", "5", "--functions", "1000"],
    line: "1000 functions, 4081 candidates, 1545 unstable, 0 undecided, 0 skipped\n",
    status: Status::Found,
};

/// What the source has, of which nothing is read.
const INPUT: &str = "int f(unsigned char x) { int y = 10 / x; if (x == 0) return 1; return y; }";

/// Runs the top call with a row's words, and compares what is written, the status, and what is left of the input.
fn check(alloc: Global, rt: &impl Abort, row: &Row) -> Result<(), Fail> {
    let mut decider = Cdcl::new(alloc);
    let run = ran(alloc, row.words, INPUT, &mut decider)?;
    assert!(rt;
        run.records.as_slice() == row.line.as_bytes(),
        "{:?}",
        row.words
    );
    assert!(rt; run.status == row.status, "{:?}", row.words);
    assert!(rt; run.left.as_slice() == INPUT.as_bytes(), "{:?}", row.words);
    Ok(())
}

#[test]
fn of_a_generated_text_the_summary_alone_is_written(rt: HostRuntime) -> Result<(), Fail> {
    for row in &ROWS {
        check(rt.alloc(), &rt, row)?;
    }
    Ok(())
}

// The next two take a second each as they are built, and minutes with the checks of `rt try`, whose limit they pass.
#[test]
fn a_thousand_functions_by_1(rt: HostRuntime) -> Result<(), Fail> {
    check(rt.alloc(), &rt, &BY_1)
}

#[test]
fn a_thousand_functions_by_5(rt: HostRuntime) -> Result<(), Fail> {
    check(rt.alloc(), &rt, &BY_5)
}

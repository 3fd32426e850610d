//! Runs of the top call over a source and sinks in memory. The expected records were worked out by hand and by an
//! independent brute-force program, not by this one.

use std::alloc::Global;
use std::process::Abort;
use std::test::Fail;
use stk_base::{MemSink, MemSource, Status};
use stk_lint::lint_main;
use stk_query::Cdcl;

/// Words and an input, the records that it has, and the status of its run.
struct Row {
    words: &'static [&'static str],
    input: &'static str,
    records: &'static str,
    status: Status,
}

static ROWS: [Row; 44] = [
    Row {
        words: &[],
        input: "",
        records: "0 functions, 0 candidates, 0 unstable, 0 undecided, 0 skipped\n",
        status: Status::Stable,
    },
    Row {
        words: &[],
        input: "int f(unsigned char x) { int y = 10 / x; if (x == 0) return 1; return y; }",
        records: "-:1:46: unstable: always false in f\n  hit: x=0\n  needs division by zero at -:1:34; without it: x=0\n-:1:54: unstable: never entered in f\n  hit: x=0\n  needs division by zero at -:1:34; without it: x=0\n1 functions, 3 candidates, 2 unstable, 0 undecided, 0 skipped\n",
        status: Status::Found,
    },
    Row {
        words: &[],
        input: "int f(unsigned char x, unsigned char y) { int a = 1 / x; int b = 1 / y; if (x * y == 0) return 1; return a + b; }",
        records: "-:1:77: unstable: always false in f\n  hit: x=0 y=0\n  needs division by zero at -:1:51; without it: x=0 y=1\n  needs division by zero at -:1:66; without it: x=1 y=0\n-:1:89: unstable: never entered in f\n  hit: x=0 y=0\n  needs division by zero at -:1:51; without it: x=0 y=1\n  needs division by zero at -:1:66; without it: x=1 y=0\n1 functions, 3 candidates, 2 unstable, 0 undecided, 0 skipped\n",
        status: Status::Found,
    },
    Row {
        words: &[],
        input: "int f(unsigned char x) { int a = 1 / x; int b = 1 / x; if (x == 0) return 1; return a + b; }",
        records: "-:1:60: unstable: always false in f\n  hit: x=0\n  needs division by zero at -:1:34; without it: x=0\n-:1:68: unstable: never entered in f\n  hit: x=0\n  needs division by zero at -:1:34; without it: x=0\n1 functions, 3 candidates, 2 unstable, 0 undecided, 0 skipped\n",
        status: Status::Found,
    },
    Row {
        words: &[],
        input: "int f(unsigned char x) { if (x != x) return 1; return 0; }",
        records: "1 functions, 3 candidates, 0 unstable, 0 undecided, 0 skipped\n",
        status: Status::Stable,
    },
    Row {
        words: &[],
        input: "int f(unsigned char a, unsigned char b) { if (a + b < 0) return 1; return 0; }",
        records: "1 functions, 3 candidates, 0 unstable, 0 undecided, 0 skipped\n",
        status: Status::Stable,
    },
    Row {
        words: &[],
        input: "int f(int x) { return y; }",
        records: "-:1:1: skipped: rule 1 at -:1:23\n0 functions, 0 candidates, 0 unstable, 0 undecided, 1 skipped\n",
        status: Status::Stable,
    },
    Row {
        words: &[],
        input: "int f(int x) { return x; }",
        records: "1 functions, 0 candidates, 0 unstable, 0 undecided, 0 skipped\n",
        status: Status::Stable,
    },
    Row {
        words: &[],
        input: "int f(unsigned char k) { int g = 1 << k; if (k > 31) return 1; return g; }",
        records: "-:1:46: unstable: always false in f\n  hit: k=32\n  needs oversized shift at -:1:34; without it: k=32\n-:1:54: unstable: never entered in f\n  hit: k=32\n  needs oversized shift at -:1:34; without it: k=32\n1 functions, 3 candidates, 2 unstable, 0 undecided, 0 skipped\n",
        status: Status::Found,
    },
    Row {
        words: &[],
        input: "int f(unsigned char n) { for (unsigned char i = 1; i < 9; i++) if (10 / (i - n) >= 0 && i == n) return 1; return 0; }",
        records: "-:1:89: unstable: always false in f\n  hit: n=0 loop@1:26.i=0\n  needs division by zero at -:1:68; without it: n=0 loop@1:26.i=0\n-:1:68: unstable: always false in f\n  hit: n=0 loop@1:26.i=0\n  needs division by zero at -:1:68; without it: n=0 loop@1:26.i=0\n-:1:97: unstable: never entered in f\n  hit: n=0 loop@1:26.i=0\n  needs division by zero at -:1:68; without it: n=0 loop@1:26.i=0\n1 functions, 11 candidates, 3 unstable, 0 undecided, 0 skipped\n",
        status: Status::Found,
    },
    Row {
        words: &[],
        input: "int f(unsigned char x) { if (1 / x == 0) return 1; return 0; }",
        records: "1 functions, 3 candidates, 0 unstable, 0 undecided, 0 skipped\n",
        status: Status::Stable,
    },
    Row {
        words: &[],
        input: "union u { int a; };\nint g(int x) { goto out; out: return x; }\nint h(int x) { return x @ 1; }\nint f(unsigned char x) { int y = 10 / x; if (x == 0) return 1; return y; }\nint k(void) { return g(1); }",
        records: "-:1:1: skipped: no tree\n-:2:1: skipped: no tree\n-:3:1: skipped: no tree\n-:4:46: unstable: always false in f\n  hit: x=0\n  needs division by zero at -:4:34; without it: x=0\n-:4:54: unstable: never entered in f\n  hit: x=0\n  needs division by zero at -:4:34; without it: x=0\n2 functions, 3 candidates, 2 unstable, 0 undecided, 3 skipped\n",
        status: Status::Found,
    },
    Row {
        words: &[],
        input: "# 10 \"a.c\"\nint f(unsigned char x) { int y = 10 / x; if (x == 0) return 1; return y; }\n# 3 \"inc/b\t.h\" 2\nint f(unsigned char x) { int y = 10 / x; if (x == 0) return 1; return y; }",
        records: "a.c:10:46: unstable: always false in f\n  hit: x=0\n  needs division by zero at a.c:10:34; without it: x=0\na.c:10:54: unstable: never entered in f\n  hit: x=0\n  needs division by zero at a.c:10:34; without it: x=0\ninc/b?.h:3:46: unstable: always false in f\n  hit: x=0\n  needs division by zero at inc/b?.h:3:34; without it: x=0\ninc/b?.h:3:54: unstable: never entered in f\n  hit: x=0\n  needs division by zero at inc/b?.h:3:34; without it: x=0\n2 functions, 6 candidates, 4 unstable, 0 undecided, 0 skipped\n",
        status: Status::Found,
    },
    Row {
        words: &[],
        input: "int\tf\n(\runsigned\x0bchar\x0cx ) {\nint y=3/x;\n  if(x==0)return 1;return y;}\n",
        records: "-:4:6: unstable: always false in f\n  hit: x=0\n  needs division by zero at -:3:7; without it: x=0\n-:4:11: unstable: never entered in f\n  hit: x=0\n  needs division by zero at -:3:7; without it: x=0\n1 functions, 3 candidates, 2 unstable, 0 undecided, 0 skipped\n",
        status: Status::Found,
    },
    Row {
        words: &[],
        input: "int f(unsigned char x) {\r\nint y = 3 / x;\r\nif (x == 0) return 1;\r\nreturn y; }\r\n",
        records: "-:3:5: unstable: always false in f\n  hit: x=0\n  needs division by zero at -:2:9; without it: x=0\n-:3:13: unstable: never entered in f\n  hit: x=0\n  needs division by zero at -:2:9; without it: x=0\n1 functions, 3 candidates, 2 unstable, 0 undecided, 0 skipped\n",
        status: Status::Found,
    },
    Row {
        words: &[],
        input: ";;;",
        records: "0 functions, 0 candidates, 0 unstable, 0 undecided, 0 skipped\n",
        status: Status::Stable,
    },
    Row {
        words: &[],
        input: "extern int e; int f(unsigned char x) { /* c */ return x; } ; __extension__ int g(const unsigned char x) __attribute__((cold)) { return x; } // end",
        records: "2 functions, 0 candidates, 0 unstable, 0 undecided, 0 skipped\n",
        status: Status::Stable,
    },
    Row {
        words: &[],
        input: "#pragma once",
        records: "0 functions, 0 candidates, 0 unstable, 0 undecided, 0 skipped\n",
        status: Status::Stable,
    },
    Row {
        words: &[],
        input: "typedef unsigned char byte; struct s { byte b; };\nbyte f(struct s *p) { return p->b; }\nbyte f(struct s *);\nstruct s { int b; };",
        records: "-:4:1: skipped: rule 17 at -:4:1\n1 functions, 0 candidates, 0 unstable, 0 undecided, 1 skipped\n",
        status: Status::Stable,
    },
    Row {
        words: &[],
        input: "int g(int x) { goto out; out: return x; }\nlong g(int);\nint g(int);",
        records: "-:1:1: skipped: no tree\n-:2:1: skipped: rule 3 at -:2:6\n0 functions, 0 candidates, 0 unstable, 0 undecided, 2 skipped\n",
        status: Status::Stable,
    },
    Row {
        words: &[],
        input: "\n\n  @",
        records: "-:3:3: skipped: no tree\n0 functions, 0 candidates, 0 unstable, 0 undecided, 1 skipped\n",
        status: Status::Stable,
    },
    Row {
        words: &[],
        input: "int f(int x) { int y = 10 / x; if (x == 0) return 1; return y; }",
        records: "-:1:36: unstable: always false in f\n  hit: x=0\n  needs division by zero at -:1:24; without it: x=0\n-:1:44: unstable: never entered in f\n  hit: x=0\n  needs division by zero at -:1:24; without it: x=0\n1 functions, 3 candidates, 2 unstable, 0 undecided, 0 skipped\n",
        status: Status::Found,
    },
    Row {
        words: &["--without", "zero"],
        input: "int f(int x) { int y = 10 / x; if (x == 0) return 1; return y; }",
        records: "1 functions, 3 candidates, 0 unstable, 0 undecided, 0 skipped\n",
        status: Status::Stable,
    },
    Row {
        words: &["--without", "zero"],
        input: "int f(unsigned char x) { int y = 10 / x; if (x == 0) return 1; return y; }",
        records: "1 functions, 3 candidates, 0 unstable, 0 undecided, 0 skipped\n",
        status: Status::Stable,
    },
    Row {
        words: &["--json"],
        input: "int f(unsigned char x) { int y = 10 / x; if (x == 0) return 1; return y; }",
        records: "{\"candidate\":\"always false\",\"column\":46,\"file\":\"-\",\"function\":\"f\",\"hit\":[[\"x\",0]],\"line\":1,\"needs\":[{\"column\":34,\"file\":\"-\",\"kind\":\"division by zero\",\"line\":1,\"without\":[[\"x\",0]]}],\"type\":\"unstable\"}\n{\"candidate\":\"arm\",\"column\":54,\"file\":\"-\",\"function\":\"f\",\"hit\":[[\"x\",0]],\"line\":1,\"needs\":[{\"column\":34,\"file\":\"-\",\"kind\":\"division by zero\",\"line\":1,\"without\":[[\"x\",0]]}],\"type\":\"unstable\"}\n{\"candidates\":3,\"functions\":1,\"skipped\":0,\"type\":\"summary\",\"undecided\":0,\"unstable\":2,\"version\":2,\"without\":[]}\n",
        status: Status::Found,
    },
    Row {
        words: &["--without=abs,zero", "--json"],
        input: "",
        records: "{\"candidates\":0,\"functions\":0,\"skipped\":0,\"type\":\"summary\",\"undecided\":0,\"unstable\":0,\"version\":2,\"without\":[\"zero\",\"abs\"]}\n",
        status: Status::Stable,
    },
    Row {
        words: &["--budget=200000"],
        input: "",
        records: "0 functions, 0 candidates, 0 unstable, 0 undecided, 0 skipped\n",
        status: Status::Stable,
    },
    Row {
        words: &["--budget", "0"],
        input: "",
        records: "",
        status: Status::BadWords,
    },
    Row {
        words: &["--budget", "7", "--budget", "8"],
        input: "",
        records: "",
        status: Status::BadWords,
    },
    Row {
        words: &["--functions", "5"],
        input: "",
        records: "",
        status: Status::BadWords,
    },
    Row {
        words: &["--help"],
        input: "",
        records: "",
        status: Status::BadWords,
    },
    Row {
        words: &["--budget", "200001"],
        input: "",
        records: "",
        status: Status::BadWords,
    },
    Row {
        words: &["--without", "zero,zero"],
        input: "",
        records: "",
        status: Status::BadWords,
    },
    Row {
        words: &["--without", ","],
        input: "",
        records: "",
        status: Status::BadWords,
    },
    Row {
        words: &["--json", "--json"],
        input: "",
        records: "",
        status: Status::BadWords,
    },
    Row {
        words: &["--smt", "4"],
        input: "int f(unsigned char x) { int y = 10 / x; if (x == 0) return 1; return y; }",
        records: "",
        status: Status::NoCandidate,
    },
    Row {
        words: &["--smt-hit=1"],
        input: "",
        records: "",
        status: Status::NoCandidate,
    },
    Row {
        words: &["--smt", "1", "--smt-hit", "1"],
        input: "",
        records: "",
        status: Status::BadWords,
    },
    Row {
        words: &["--json", "--smt", "1"],
        input: "",
        records: "",
        status: Status::BadWords,
    },
    Row {
        words: &["--bundle"],
        input: "int f(unsigned char x) { int y = 10 / x; if (x == 0) return 1; return y; }",
        records: "stack bundle 1\nsource 74\nwithout -\nfunction 0\nunstable 12 3\nhit 0\nneed 8 2 0\ntried\nunstable 14 1\nhit 0\nneed 8 2 0\ntried\nend\n",
        status: Status::Found,
    },
    Row {
        words: &["--without", "zero", "--bundle"],
        input: "int f(unsigned char x) { int y = 10 / x; if (x == 0) return 1; return y; }",
        records: "stack bundle 1\nsource 74\nwithout zero\nend\n",
        status: Status::Stable,
    },
    Row {
        words: &["--bundle"],
        input: "",
        records: "stack bundle 1\nsource 0\nwithout -\nend\n",
        status: Status::Stable,
    },
    Row {
        words: &["--bundle", "--json"],
        input: "",
        records: "",
        status: Status::BadWords,
    },
    Row {
        words: &["--smt", "1", "--bundle"],
        input: "",
        records: "",
        status: Status::BadWords,
    },
];

/// Texts of one unit with the cause that it is skipped for; without a cause, it is a declaration.
static UNITS: [(&str, &str); 20] = [
    (
        "int f(unsigned char x, unsigned char x) { return x; }",
        "rule 3 at -:1:38",
    ),
    (
        "int f(unsigned char x) { int x = 1; return x; }",
        "rule 3 at -:1:30",
    ),
    ("int f(unsigned char x) { return y; }", "rule 1 at -:1:33"),
    ("int f(unsigned char x) { return f; }", "rule 8 at -:1:33"),
    (
        "void f(int x) { for (;;) { x = 1; break; } break; }",
        "rule 13 at -:1:44",
    ),
    ("int while(unsigned char x) { return x; }", "no tree"),
    ("int f(unsigned char while) { return 0; }", "no tree"),
    ("int f(unsigned char x) {", "no tree"),
    ("int f(unsigned char x) { if (x == 0) return 1 }", "no tree"),
    (
        "int f(unsigned char x) __attribute__((aligned(8))) { return x; }",
        "no tree",
    ),
    ("size_t f(unsigned char x) { return x; }", "no tree"),
    ("union u { int a; };", "no tree"),
    ("int f(unsigned char x) { return x }", "no tree"),
    ("int x = 1 2;", "no tree"),
    ("int f(unsigned char x);", ""),
    ("struct s { int a; } x, *y;", ""),
    ("enum e { A, B = 2, };", ""),
    ("enum { A = 2147483647, B };", "rule 5 at -:1:1"),
    ("typedef unsigned long size_t;", ""),
    ("int a[] = { [1] = 2, 3 };", "rule 4 at -:1:5"),
];

/// The words of a run, and how its source and sinks behave: the most bytes of a call, and the calls that fail.
#[derive(Clone, Copy)]
pub struct Outside {
    words: &'static [&'static str],
    most: usize,
    source_fails: Option<u64>,
    out_fails: Option<u64>,
    fault_fails: Option<u64>,
}

fn failing(alloc: Global, call: Option<u64>) -> Result<Vec<u64>, Fail> {
    let mut calls = Vec::new(alloc);
    if let Some(call) = call {
        calls.push(call)?;
    }
    Ok(calls)
}

/// Runs the top call, and compares its status and what the sinks took.
pub(crate) fn check(
    alloc: Global,
    rt: &impl Abort,
    outside: &Outside,
    input: &[u8],
    status: Status,
    records: &[u8],
    line: &[u8],
) -> Result<(), Fail> {
    let mut words = Vec::new(alloc);
    for word in outside.words {
        words.push(String::from_str(alloc, word)?)?;
    }
    let most = outside.most.max(1);
    let bytes = Vec::from_slice(alloc, input)?;
    let mut source = MemSource::new(bytes, most, failing(alloc, outside.source_fails)?);
    let mut out = MemSink::new(alloc, most, failing(alloc, outside.out_fails)?);
    let mut fault = MemSink::new(alloc, most, failing(alloc, outside.fault_fails)?);
    let mut decider = Cdcl::new(alloc);
    let answer = lint_main(
        alloc,
        words.as_slice(),
        &mut source,
        &mut out,
        &mut fault,
        &mut decider,
    );
    assert!(rt; answer == status, "{input:?}");
    assert!(rt; out.bytes() == records, "{input:?}");
    assert!(rt; fault.bytes() == line, "{input:?}");
    Ok(())
}

/// An outside in which nothing fails.
pub const CALM: Outside = Outside {
    words: &[],
    most: 1_000_000,
    source_fails: None,
    out_fails: None,
    fault_fails: None,
};

/// What standard error takes of bad words, and where there is no such candidate.
fn line_of(status: Status) -> &'static [u8] {
    match status {
        Status::BadWords => b"stack: bad words\n",
        Status::NoCandidate => b"stack: no such candidate\n",
        _ => b"",
    }
}

#[test]
fn each_row_has_its_records(rt: HostRuntime) -> Result<(), Fail> {
    for row in &ROWS {
        let (input, records) = (row.input.as_bytes(), row.records.as_bytes());
        let outside = of_outside(row.words, 1_000_000, None, None, None);
        let line = line_of(row.status);
        check(rt.alloc(), &rt, &outside, input, row.status, records, line)?;
    }
    Ok(())
}

/// The records of a unit that is skipped for a cause, or of a declaration.
fn records_of(alloc: Global, cause: &str) -> Result<Vec<u8>, Fail> {
    let mut records = Vec::new(alloc);
    if cause.is_empty() {
        records.extend_from_slice(
            b"0 functions, 0 candidates, 0 unstable, 0 undecided, 0 skipped\n",
        )?;
    } else {
        records.extend_from_slice(b"-:1:1: skipped: ")?;
        records.extend_from_slice(cause.as_bytes())?;
        records.extend_from_slice(
            b"\n0 functions, 0 candidates, 0 unstable, 0 undecided, 1 skipped\n",
        )?;
    }
    Ok(records)
}

#[test]
fn each_unit_is_skipped_for_its_cause(rt: HostRuntime) -> Result<(), Fail> {
    for &(input, cause) in &UNITS {
        let records = records_of(rt.alloc(), cause)?;
        check(
            rt.alloc(),
            &rt,
            &CALM,
            input.as_bytes(),
            Status::Stable,
            records.as_slice(),
            b"",
        )?;
    }
    Ok(())
}

/// A function with one unstable branch.
pub const INPUT: &[u8] =
    b"int f(unsigned char x) { int y = 10 / x; if (x == 0) return 1; return y; }";

/// Its records.
pub const RECORDS: &[u8] =
    b"-:1:46: unstable: always false in f\n  hit: x=0\n  needs division by zero at -:1:34; without it: x=0\n-:1:54: unstable: never entered in f\n  hit: x=0\n  needs division by zero at -:1:34; without it: x=0\n1 functions, 3 candidates, 2 unstable, 0 undecided, 0 skipped\n";

/// What standard error takes where the input can't be read.
pub const UNREAD: &[u8] = b"stack: the input cannot be read\n";

/// What standard error takes where the output can't be written.
pub const UNWRITTEN: &[u8] = b"stack: the output cannot be written\n";

/// How the outside behaves.
pub(crate) fn of_outside(
    words: &'static [&'static str],
    most: usize,
    source_fails: Option<u64>,
    out_fails: Option<u64>,
    fault_fails: Option<u64>,
) -> Outside {
    Outside {
        words,
        most,
        source_fails,
        out_fails,
        fault_fails,
    }
}

#[test]
fn each_failure_has_its_status(rt: HostRuntime) -> Result<(), Fail> {
    let table: [(Outside, Status, &[u8], &[u8]); 13] = [
        (
            of_outside(&["--help"], 9, None, None, None),
            Status::BadWords,
            b"",
            b"stack: bad words\n",
        ),
        (
            of_outside(&["--budget", "0"], 9, None, None, Some(0)),
            Status::BadWords,
            b"",
            b"",
        ),
        (
            of_outside(&[], 9, Some(0), None, None),
            Status::ReadFault,
            b"",
            UNREAD,
        ),
        (
            of_outside(&[], 1, Some(74), None, None),
            Status::ReadFault,
            b"",
            UNREAD,
        ),
        (
            of_outside(&[], 1, None, None, None),
            Status::Found,
            RECORDS,
            b"",
        ),
        // The 74 bytes and the end are 75 calls of the source, so call 75 isn't made; the 261 bytes and the flush are
        // 262 calls of the output, so call 262 isn't.
        (
            of_outside(&[], 1, Some(75), None, None),
            Status::Found,
            RECORDS,
            b"",
        ),
        (
            of_outside(&[], 1, None, Some(262), None),
            Status::Found,
            RECORDS,
            b"",
        ),
        (
            of_outside(&[], 16, None, Some(1), None),
            Status::WriteFault,
            b"-:1:46: unstable",
            UNWRITTEN,
        ),
        (
            of_outside(&[], 999, None, Some(1), None),
            Status::WriteFault,
            b"-:1:46: unstable: always false in f\n  hit: x=0\n  needs division by zero at -:1:34; without it: x=0\n",
            UNWRITTEN,
        ),
        (
            of_outside(&[], 999, None, Some(3), None),
            Status::WriteFault,
            RECORDS,
            UNWRITTEN,
        ),
        (
            of_outside(&[], 9, Some(0), None, Some(0)),
            Status::ReadFault,
            b"",
            b"",
        ),
        (
            of_outside(
                &["--generate", "0", "--functions", "1"],
                9,
                Some(0),
                None,
                None,
            ),
            Status::Stable,
            b"1 functions, 6 candidates, 0 unstable, 0 undecided, 0 skipped\n",
            b"",
        ),
        (
            of_outside(
                &["--generate", "2", "--functions", "1"],
                16,
                None,
                Some(1),
                None,
            ),
            Status::WriteFault,
            b"1 functions, 3 c",
            UNWRITTEN,
        ),
    ];
    for (outside, status, records, line) in &table {
        check(rt.alloc(), &rt, outside, INPUT, *status, records, line)?;
    }
    Ok(())
}

#[test]
fn an_input_over_the_limit_is_too_large(rt: HostRuntime) -> Result<(), Fail> {
    let alloc = rt.alloc();
    let spaces = vec![in alloc; b' '; 16_777_217]?;
    let line = b"stack: the input is larger than 16777216 bytes\n";
    check(
        alloc,
        &rt,
        &CALM,
        spaces.as_slice(),
        Status::TooLarge,
        b"",
        line,
    )?;
    let summary = b"0 functions, 0 candidates, 0 unstable, 0 undecided, 0 skipped\n";
    check(
        alloc,
        &rt,
        &CALM,
        &spaces[1..],
        Status::Stable,
        summary,
        b"",
    )?;
    Ok(())
}

//! Executions with their texts, which were worked out by hand.

use crate::running::{NONE, replayed};
use std::test::Fail;
use stk_replay::ReplayStatus;

/// A script, a source, and the text of the execution.
struct Row {
    script: &'static str,
    source: &'static str,
    text: &'static str,
}

static ROWS: [Row; 8] = [
    // A division by 0 goes on, and the test behind it is true.
    Row {
        script: "function f\nstart x=0\nfill 0\nturns 10\nend\n",
        source: "int f(unsigned char x) { int y = 10 / x; if (x == 0) return 1; return y; }",
        text: "-:1:34: ub division by zero\n-:1:46: seen true\n-:1:54: enter\nhits always false at -:1:46\nhits never entered at -:1:54\nend: returned\n",
    },
    // A local without a value has the number of its key, and a loop is cut behind its second turn.
    Row {
        script: "function f\nstart n=3 i@1:20=0 loop@1:23.i=0\nfill 0\nreply 0\nturns 2\nend\n",
        source: "int f(int n) { int i; for (i = 0; i < n; i++) if (i < 0) return 1; return 0; }",
        text: "-:1:35: seen true\n-:1:47: enter\n-:1:51: seen false\n-:1:35: seen true\n-:1:47: enter\n-:1:51: seen false\nhits always false at -:1:35\nhits always true at -:1:51\nhits never entered at -:1:47\nend: cut\n",
    },
    // Without an answer for that local the run is cut at once.
    Row {
        script: "function f\nstart n=3 i@1:20=0 loop@1:23.i=0\nfill 0\nturns 2\nend\n",
        source: "int f(int n) { int i; for (i = 0; i < n; i++) if (i < 0) return 1; return 0; }",
        text: "end: cut\n",
    },
    // What is stored is read back, whatever the start says of the load.
    Row {
        script: "function f\nstart p=4096 load@1:29=0\nfill 0\nturns 0\nend\n",
        source: "int f(int *p) { *p = 3; if (*p == 3) return 1; return 0; }",
        text: "-:1:29: seen true\n-:1:38: enter\nhits always false at -:1:29\nhits never entered at -:1:38\nend: returned\n",
    },
    // A byte of the memory is read, and the fill where there is none.
    Row {
        script: "function f\nstart p=100 load@1:31=0 load@1:48=0\nfill 7\nbyte 101 200\nturns 0\nend\n",
        source: "int f(unsigned char *p) { if (p[1] == 200) if (p[2] == 7) return 1; return 0; }",
        text: "-:1:31: seen true\n-:1:44: enter\n-:1:48: seen true\n-:1:59: enter\nhits always false at -:1:31\nhits always false at -:1:48\nhits never entered at -:1:59\nhits never entered at -:1:44\nend: returned\n",
    },
    // An answer is the number of a call, and writes into the memory.
    Row {
        script: "function f\nstart p=64 call@2:35=0 load@2:45=0\nfill 0\nreply 9 64 9\nturns 0\nend\n",
        source: "extern int g(unsigned char *);\nint f(unsigned char *p) { int n = g(p); if (*p == n) return 1; return 0; }",
        text: "-:2:45: seen true\n-:2:54: enter\nhits always false at -:2:45\nhits never entered at -:2:54\nend: returned\n",
    },
    // An object has the address that the start gives.
    Row {
        script: "function f\nstart i=5 &t=16 load@1:34=0\nfill 0\nturns 0\nend\n",
        source: "int t[4]; int f(int i) { int v = t[i]; if (i >= 4) return -1; return v; }",
        text: "-:1:34: ub index out of bounds\n-:1:44: seen true\n-:1:52: enter\nhits always false at -:1:44\nhits never entered at -:1:52\nend: returned\n",
    },
    // The body falls off its end; the first definition of the name is run.
    Row {
        script: "function f\nstart none\nfill 255\nturns 4294967295\nend\n",
        source: "int g(void) { return 1; }\nvoid f(void) { }",
        text: "end: fell\n",
    },
];

#[test]
fn each_execution_has_its_text(rt: HostRuntime) -> Result<(), Fail> {
    for row in &ROWS {
        let run = replayed(rt.alloc(), &[], row.script, row.source, NONE)?;
        assert!(rt; run.status == ReplayStatus::Done, "{:?}", row.script);
        assert!(rt;
            run.text.as_slice() == row.text.as_bytes(),
            "{:?}",
            row.script
        );
        assert!(rt; run.told.is_empty(), "{:?}", row.script);
    }
    Ok(())
}

// A loop of so many turns.
const LOOP: &str = "void f(void) { for (;;) ; }";

#[test]
fn traces_of_a_million_entries_are_written(rt: HostRuntime) -> Result<(), Fail> {
    let script = "function f\nstart none\nfill 0\nturns 1000000\nend\n";
    let run = replayed(rt.alloc(), &[], script, LOOP, NONE)?;
    let mut lines = 0u32;
    for byte in run.text.as_slice() {
        if *byte == b'\n' {
            lines = lines.saturating_add(1);
        }
    }
    assert!(rt; run.status == ReplayStatus::Done);
    assert!(rt; lines == 1_000_002, "{lines}");
    let longer = "function f\nstart none\nfill 0\nturns 1000001\nend\n";
    let run = replayed(rt.alloc(), &[], longer, LOOP, NONE)?;
    assert!(rt; run.status == ReplayStatus::TooLong);
    assert!(rt; run.text.is_empty());
    assert!(rt; run.told.as_slice() == b"stack: the run is too long\n".as_slice());
    Ok(())
}

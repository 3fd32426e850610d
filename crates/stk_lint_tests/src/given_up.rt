//! Functions whose queries are given up with the least budget: the query whether a run hits a fragment with nothing
//! violated before, the query whether any run hits it, and those of members of a set.

use crate::running::{masked, ran};
use std::test::Fail;
use stk_base::Status;
use stk_query::Cdcl;

/// An input, its records with `_` for each number of a start, and the status of its run.
struct Row {
    input: &'static str,
    records: &'static str,
    status: Status,
}

static ROWS: [Row; 3] = [
    Row {
        input: "int f(unsigned long x, unsigned long y) { if ((x + y) * (x - y) != x * x - y * y) return 1; return 0; }",
        records: "-:1:47: undecided: always false in f; free query\n-:1:83: undecided: never entered in f; free query\n1 functions, 3 candidates, 0 unstable, 2 undecided, 0 skipped\n",
        status: Status::Unsure,
    },
    // No run in which `z` is 0 comes to the test without a division by zero.
    Row {
        input: "int f(unsigned x, unsigned y, unsigned long z) { unsigned long q = 1 / z; if (z == 0 && (x + y) * (x - y) != x * x - y * y) return 1; return q; }",
        records: "-:1:79: unstable: always false in f\n  hit: x=_ y=_ z=_\n  needs division by zero at -:1:68; without it: x=_ y=_ z=_\n-:1:89: unstable: never entered in f\n  hit: x=_ y=_ z=_\n  needs division by zero at -:1:68; without it: x=_ y=_ z=_\n-:1:89: unstable: always true in f\n  hit: x=_ y=_ z=_\n  needs division by zero at -:1:68; without it: x=_ y=_ z=_\n-:1:89: undecided: always false in f; hit query\n-:1:79: undecided: always false in f; hit query\n-:1:125: undecided: never entered in f; hit query\n1 functions, 8 candidates, 3 unstable, 3 undecided, 0 skipped\n",
        status: Status::Found,
    },
    // Whether the second division is a member depends on what the products are.
    Row {
        input: "int f(unsigned x, unsigned y, unsigned long z, unsigned long w) { unsigned long q = 1 / z + 1 / w; if (z == 0 || (w == 0 && (x + y) * (x - y) != x * x - y * y)) return 1; return q; }",
        records: "-:1:104: unstable: always false in f\n  hit: x=_ y=_ z=_ w=_\n  needs division by zero at -:1:85; without it: x=_ y=_ z=_ w=_\n-:1:115: unstable: always false in f\n  hit: x=_ y=_ z=_ w=_\n  needs division by zero at -:1:93; without it: x=_ y=_ z=_ w=_\n-:1:125: unstable: never entered in f\n  hit: x=_ y=_ z=_ w=_\n  needs division by zero at -:1:93; without it: x=_ y=_ z=_ w=_\n-:1:125: unstable: always true in f\n  hit: x=_ y=_ z=_ w=_\n  needs division by zero at -:1:93; without it: x=_ y=_ z=_ w=_\n-:1:125: undecided: always false in f; hit query\n-:1:104: unstable: always false in f\n  hit: x=_ y=_ z=_ w=_\n  needs division by zero at -:1:85; without it: x=_ y=_ z=_ w=_\n  needs division by zero at -:1:93; open\n-:1:162: unstable: never entered in f\n  hit: x=_ y=_ z=_ w=_\n  needs division by zero at -:1:85; without it: x=_ y=_ z=_ w=_\n  needs division by zero at -:1:93; open\n1 functions, 11 candidates, 6 unstable, 1 undecided, 0 skipped\n",
        status: Status::Found,
    },
];

#[test]
fn queries_are_given_up(rt: HostRuntime) -> Result<(), Fail> {
    for row in &ROWS {
        let mut decider = Cdcl::new(rt.alloc());
        let run = ran(rt.alloc(), &["--budget", "1"], row.input, &mut decider)?;
        let records = masked(rt.alloc(), run.records.as_slice())?;
        assert!(rt; run.status == row.status, "{:?}", row.input);
        assert!(rt;
            records.as_slice() == row.records.as_bytes(),
            "{:?}",
            row.input
        );
    }
    Ok(())
}

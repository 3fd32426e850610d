//! Functions of more than 16 input bits with their records, which were worked out by hand and by a program apart from
//! this one. A start may be any that does its duty, so the numbers of starts aren't compared: each is `_`.

use crate::running::{masked, ran};
use std::test::Fail;
use stk_base::Status;
use stk_query::Cdcl;

/// An input, its records with `_` for each number of a start, and the status of its run.
struct Row {
    input: &'static str,
    records: &'static str,
    status: Status,
}

static ROWS: [Row; 15] = [
    Row {
        input: "int f(int x) { if (x + 100 < x) return 1; return 0; }",
        records: "-:1:20: unstable: always false in f\n  hit: x=_\n  needs signed overflow at -:1:20; without it: x=_\n-:1:20: unstable: same as 100 < 0 in f\n  hit: x=_\n  needs signed overflow at -:1:20; without it: x=_\n-:1:33: unstable: never entered in f\n  hit: x=_\n  needs signed overflow at -:1:20; without it: x=_\n1 functions, 4 candidates, 3 unstable, 0 undecided, 0 skipped\n",
        status: Status::Found,
    },
    Row {
        input: "int f(unsigned x) { if (x + 100 < x) return 1; return 0; }",
        records: "1 functions, 4 candidates, 0 unstable, 0 undecided, 0 skipped\n",
        status: Status::Stable,
    },
    Row {
        input: "int f(char *buf, unsigned len) { if (buf + len < buf) return 1; return 0; }",
        records: "-:1:38: unstable: always false in f\n  hit: buf=_ len=_\n  needs pointer overflow at -:1:38; without it: buf=_ len=_\n-:1:38: unstable: same as len < 0 in f\n  hit: buf=_ len=_\n  needs pointer overflow at -:1:38; without it: buf=_ len=_\n-:1:55: unstable: never entered in f\n  hit: buf=_ len=_\n  needs pointer overflow at -:1:38; without it: buf=_ len=_\n1 functions, 4 candidates, 3 unstable, 0 undecided, 0 skipped\n",
        status: Status::Found,
    },
    Row {
        input: "struct sock;\nstruct tun { int flags; struct sock *sk; };\nint poll(struct tun *tun) { struct sock *sk = tun->sk; if (!tun) return 1; return sk != 0; }",
        records: "-:3:60: unstable: always false in poll\n  hit: tun=_ load@3:47=_\n  needs null dereference at -:3:47; without it: tun=_ load@3:47=_\n-:3:66: unstable: never entered in poll\n  hit: tun=_ load@3:47=_\n  needs null dereference at -:3:47; without it: tun=_ load@3:47=_\n1 functions, 5 candidates, 2 unstable, 0 undecided, 0 skipped\n",
        status: Status::Found,
    },
    Row {
        input: "int f(int *p) { if (!p) return 1; return *p; }",
        records: "1 functions, 3 candidates, 0 unstable, 0 undecided, 0 skipped\n",
        status: Status::Stable,
    },
    Row {
        input: "int f(int k) { int g = 1 << k; if (g == 0) return 1; return g; }",
        records: "-:1:36: unstable: always false in f\n  hit: k=_\n  needs oversized shift at -:1:24; without it: k=_\n-:1:44: unstable: never entered in f\n  hit: k=_\n  needs oversized shift at -:1:24; without it: k=_\n1 functions, 3 candidates, 2 unstable, 0 undecided, 0 skipped\n",
        status: Status::Found,
    },
    Row {
        input: "int f(int x, int y) { int r = x % y; if (y == -1 && x == -2147483647 - 1) return 1; return r; }",
        records: "-:1:53: unstable: always false in f\n  hit: x=_ y=_\n  needs signed overflow at -:1:31; without it: x=_ y=_\n-:1:42: unstable: always false in f\n  hit: x=_ y=_\n  needs signed overflow at -:1:31; without it: x=_ y=_\n-:1:75: unstable: never entered in f\n  hit: x=_ y=_\n  needs signed overflow at -:1:31; without it: x=_ y=_\n1 functions, 8 candidates, 3 unstable, 0 undecided, 0 skipped\n",
        status: Status::Found,
    },
    Row {
        input: "int f(int n) { int i; for (i = 0; i < n; i++) if (i < 0) return 1; return 0; }",
        records: "1 functions, 6 candidates, 0 unstable, 0 undecided, 0 skipped\n",
        status: Status::Stable,
    },
    Row {
        input: "int t[4]; int f(int i) { int v = t[i]; if (i >= 4) return -1; return v; }",
        records: "-:1:44: unstable: always false in f\n  hit: i=_ &t=_ load@1:34=_\n  needs index out of bounds at -:1:34; without it: i=_ &t=_ load@1:34=_\n-:1:52: unstable: never entered in f\n  hit: i=_ &t=_ load@1:34=_\n  needs index out of bounds at -:1:34; without it: i=_ &t=_ load@1:34=_\n1 functions, 3 candidates, 2 unstable, 0 undecided, 0 skipped\n",
        status: Status::Found,
    },
    Row {
        input: "int f(int x) { if (x != x) return 1; return 0; }",
        records: "1 functions, 3 candidates, 0 unstable, 0 undecided, 0 skipped\n",
        status: Status::Stable,
    },
    Row {
        input: "# 1 \"tun.c\"\n# 1 \"<built-in>\"\n# 1 \"tun.c\"\nextern int printf (const char *__restrict __format, ...);\nextern void exit (int __status) __attribute__ ((__nothrow__ , __leaf__)) __attribute__ ((__noreturn__));\n# 3 \"tun.c\" 2\nstruct sock;\nstruct tun { int flags; struct sock *sk; };\nint poll(struct tun *tun) { struct sock *sk = tun->sk; if (!tun) exit(1); return sk != 0; }",
        records: "tun.c:5:60: unstable: always false in poll\n  hit: tun=_ load@5:47=_\n  needs null dereference at tun.c:5:47; without it: tun=_ load@5:47=_\ntun.c:5:66: unstable: never entered in poll\n  hit: tun=_ load@5:47=_\n  needs null dereference at tun.c:5:47; without it: tun=_ load@5:47=_\n1 functions, 5 candidates, 2 unstable, 0 undecided, 0 skipped\n",
        status: Status::Found,
    },
    Row {
        input: "extern int abs(int __x); int f(int x) { if (abs(x) < 0) return 1; return 0; }",
        records: "-:1:45: unstable: always false in f\n  hit: x=_\n  needs absolute value overflow at -:1:45; without it: x=_\n-:1:57: unstable: never entered in f\n  hit: x=_\n  needs absolute value overflow at -:1:45; without it: x=_\n1 functions, 3 candidates, 2 unstable, 0 undecided, 0 skipped\n",
        status: Status::Found,
    },
    Row {
        input: "int f(int k) { int x = k; int *p = &x; int y = 10 / x; if (x == 0) return *p; return y; }",
        records: "-:1:60: unstable: always false in f\n  hit: k=_ &x=_ load@1:53=_ load@1:60=_ load@1:75=_\n  needs division by zero at -:1:48; without it: k=_ &x=_ load@1:53=_ load@1:60=_ load@1:75=_\n-:1:68: unstable: never entered in f\n  hit: k=_ &x=_ load@1:53=_ load@1:60=_ load@1:75=_\n  needs division by zero at -:1:48; without it: k=_ &x=_ load@1:53=_ load@1:60=_ load@1:75=_\n1 functions, 3 candidates, 2 unstable, 0 undecided, 0 skipped\n",
        status: Status::Found,
    },
    Row {
        input: "extern void g(int *);\nint f(int k) { int x = k; int y = 10 / x; g(&x); if (x == 0) return 1; return y; }",
        records: "1 functions, 3 candidates, 0 unstable, 0 undecided, 0 skipped\n",
        status: Status::Stable,
    },
    Row {
        input: "extern void *memcpy(void *, const void *, unsigned long);\nint f(char *d, char *s, unsigned long n) { memcpy(d, s, n); if (d == s && n) return 1; return 0; }",
        records: "-:2:65: unstable: always false in f\n  hit: d=_ s=_ n=_\n  needs overlapping copy at -:2:44; without it: d=_ s=_ n=_\n-:2:78: unstable: never entered in f\n  hit: d=_ s=_ n=_\n  needs overlapping copy at -:2:44; without it: d=_ s=_ n=_\n1 functions, 6 candidates, 2 unstable, 0 undecided, 0 skipped\n",
        status: Status::Found,
    },
];

#[test]
fn each_wide_row_has_its_records(rt: HostRuntime) -> Result<(), Fail> {
    for row in &ROWS {
        let mut decider = Cdcl::new(rt.alloc());
        let run = ran(rt.alloc(), &[], row.input, &mut decider)?;
        let records = masked(rt.alloc(), run.records.as_slice())?;
        assert!(rt; run.status == row.status, "{:?}", row.input);
        assert!(rt;
            records.as_slice() == row.records.as_bytes(),
            "{:?}",
            row.input
        );
        assert!(rt; decider.given_up() == 0, "{:?}", row.input);
    }
    Ok(())
}

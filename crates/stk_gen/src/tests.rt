// Texts that a program apart from this one wrote by the same rules.
use crate::{MOST_FUNCTIONS, source_of};
use std::test::Fail;

// A number, and the lines of the functions that it generates.
static TEXTS: [(u64, &[&str]); 6] = [
    (7, &[]),
    (
        0,
        &["int f0(int n) { int i; for (i = 0; i < n; i++) if (i == 25) return 1; return 0; }\n"],
    ),
    (
        1,
        &["int f0(unsigned x) { if (x + 54 < x) return 1; return 0; }\n"],
    ),
    (
        2,
        &["int f0(int *p) { int v = *p; if (!p) return 83; return v; }\n"],
    ),
    (
        18446744073709551615,
        &["int f0(int *p) { int v = *p; if (!p) return 44; return v; }\n"],
    ),
    (
        5,
        &[
            "int f0(int *p) { int v = *p; if (!p) return 74; return v; }\n",
            "int f1(int *p) { int v = *p; if (!p) return 6; return v; }\n",
            "int f2(int x) { if (x + 12 < x) return 1; return 0; }\n",
            "int f3(int n) { int i; for (i = 0; i < n; i++) if (i == 10) return 1; return 0; }\n",
            "int f4(unsigned x) { if (x + 25 < x) return 1; return 0; }\n",
            "int f5(char *p, unsigned n) { if (p + n < p) return 35; return 0; }\n",
            "int f6(unsigned char x) { int y = 72 / x; if (x == 0) return 1; return y; }\n",
        ],
    ),
];

// A number, how many bytes the text of 1,000 functions has, and its last line.
static LONG: [(u64, usize, &str); 3] = [
    (
        1,
        68595,
        "int f999(unsigned x) { if (x + 42 < x) return 1; return 0; }\n",
    ),
    (
        5,
        68542,
        "int f999(unsigned x) { if (x + 70 < x) return 1; return 0; }\n",
    ),
    (
        18446744073709551615,
        68646,
        "int f999(int n) { int i; for (i = 0; i < n; i++) if (i == 52) return 1; return 0; }\n",
    ),
];

#[test]
fn texts_of_few_functions(rt: HostRuntime) -> Result<(), Fail> {
    for (number, lines) in &TEXTS {
        let mut wanted = Vec::new(rt.alloc());
        for line in *lines {
            wanted.extend_from_slice(line.as_bytes())?;
        }
        let functions = u32::try_from(lines.len())?;
        assert!(rt; functions <= MOST_FUNCTIONS);
        let text = source_of(rt.alloc(), *number, functions)?;
        assert!(rt; text.as_slice() == wanted.as_slice(), "{number}");
    }
    Ok(())
}

#[test]
fn texts_of_1000_functions(rt: HostRuntime) -> Result<(), Fail> {
    for (number, length, last) in &LONG {
        let text = source_of(rt.alloc(), *number, 1_000)?;
        assert_eq!(rt; text.len(), *length, "{number}");
        assert!(rt; text.as_slice().ends_with(last.as_bytes()), "{number}");
    }
    Ok(())
}

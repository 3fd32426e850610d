// Texts that are read and written.
use std::alloc::Global;
use std::test::Fail;
use stk_base::{List, NoMemory};
use stk_clauses::{Cnf, Derivation, Derived, Lit, Store, are_distinct};
use stk_proofs::{Text, dimacs, fits_dimacs, fits_lrat, lrat, read_dimacs, read_lrat};

/// A text, and what is written of the list that it says; none where it says no list.
struct Case {
    text: &'static [u8],
    written: Option<&'static [u8]>,
}

static CLAUSES: [Case; 27] = [
    Case {
        text: b"p cnf 3 2\n1 -2 0\n3 0\n",
        written: Some(b"p cnf 3 2\n1 -2 0\n3 0\n"),
    },
    // any blanks, comments in their place and behind the first line, a repeated literal, two clauses in a line
    Case {
        text: b"c a comment\np\tcnf 3\r\n2 1 -2\nc 7 0\n 1 0 3 0",
        written: Some(b"p cnf 3 2\n1 -2 0\n3 0\n"),
    },
    Case {
        text: b"c only 1 0\ncnf\np cnf 0 0\nc end",
        written: Some(b"p cnf 0 0\n"),
    },
    Case {
        text: b"p cnf 0 1\n0\n",
        written: Some(b"p cnf 0 1\n0\n"),
    },
    Case {
        text: b"p cnf 12 1 1 2 3 4 5 6 7 8 9 10 -11 12 1 -11 11 0",
        written: Some(b"p cnf 12 1\n1 2 3 4 5 6 7 8 9 10 -11 12 11 0\n"),
    },
    // numbers that lie far apart
    Case {
        text: b"p cnf 1000000 1 1 2 3 4 5 6 7 8 -1000000 9 1 -1000000 10 0",
        written: Some(b"p cnf 1000000 1\n1 2 3 4 5 6 7 8 -1000000 9 10 0\n"),
    },
    Case {
        text: b"p cnf 1073741823 1\n-1073741823 1073741823 0\n",
        written: Some(b"p cnf 1073741823 1\n-1073741823 1073741823 0\n"),
    },
    // a published list: Schur-like clauses over four variables, as another program's examples have them
    Case {
        text: b"p cnf 4 8 \n 1  2 -3 0 \n-1 -2  3 0 \n 2  3 -4 0 \n-2 -3  4 0 \n-1 -3 -4 0 \n 1  3  4 0 \n-1  2  4 0 \n 1 -2 -4 0",
        written: Some(
            b"p cnf 4 8\n1 2 -3 0\n-1 -2 3 0\n2 3 -4 0\n-2 -3 4 0\n-1 -3 -4 0\n1 3 4 0\n-1 2 4 0\n1 -2 -4 0\n",
        ),
    },
    // a variable that isn't there, a clause without end, words behind the last clause, too few clauses
    Case {
        text: b"p cnf 3 1\n4 0\n",
        written: None,
    },
    Case {
        text: b"p cnf 3 1\n-4 0\n",
        written: None,
    },
    Case {
        text: b"p cnf 3 1\n1\n",
        written: None,
    },
    Case {
        text: b"p cnf 3 1\n1 0\n2\n",
        written: None,
    },
    Case {
        text: b"p cnf 3 1\n1 0\n%\n0\n",
        written: None,
    },
    Case {
        text: b"p cnf 3 2\n1 0\n",
        written: None,
    },
    // signs, leading zeros, bytes that are no digits
    Case {
        text: b"p cnf 3 1\n-0\n",
        written: None,
    },
    Case {
        text: b"p cnf 3 1\n+1 0\n",
        written: None,
    },
    Case {
        text: b"p cnf 3 1\n- 1 0\n",
        written: None,
    },
    Case {
        text: b"p cnf 3 1\n01 0\n",
        written: None,
    },
    Case {
        text: b"p cnf 3 1\n1 00\n",
        written: None,
    },
    Case {
        text: b"p cnf 03 0\n",
        written: None,
    },
    Case {
        text: b"p cnf 3 1\n1\x000\n",
        written: None,
    },
    // the first line
    Case {
        text: b"cnf 3 0\n",
        written: None,
    },
    Case {
        text: b"p\ncnf 3 0\n",
        written: None,
    },
    Case {
        text: b"p cnf 1073741824 0\n",
        written: None,
    },
    Case {
        text: b"p cnf 3 2147483647\n",
        written: None,
    },
    Case {
        text: b"p cnf 4294967299 0\n",
        written: None,
    },
    Case {
        text: b"",
        written: None,
    },
];

/// Texts of LRAT over eight clauses.
static STEPS: [Case; 16] = [
    // the steps of a published derivation, from another program's examples, up to where an id is left out
    Case {
        text: b"9 6 1 0 1 2 8 0\n10 6 2 0 3 4 8 0\n11 6 3 0 5 6 8 0\n12 -6 4 0 1 5 7 3 0\n13 -6 5 0 2 6 7 4 0\n14 6 0 9 10 11 7 0\n",
        written: Some(
            b"9 6 1 0 1 2 8 0\n10 6 2 0 3 4 8 0\n11 6 3 0 5 6 8 0\n12 -6 4 0 1 5 7 3 0\n13 -6 5 0 2 6 7 4 0\n14 6 0 9 10 11 7 0\n",
        ),
    },
    Case {
        text: b"9\t1 1 -1 0 0 10\r\n0 2147483647 0\nc 11 d\n",
        written: Some(b"9 1 1 -1 0 0\n10 0 2147483647 0\n"),
    },
    Case {
        text: b"9 2147483647 -2147483647 0 1 0\n",
        written: Some(b"9 2147483647 -2147483647 0 1 0\n"),
    },
    Case {
        text: b"",
        written: Some(b""),
    },
    // lines that delete, in front and behind a step
    Case {
        text: b"8 d 0\n9 6 1 0 1 2 8 0\n",
        written: None,
    },
    Case {
        text: b"9 6 1 0 1 2 8 0\n9 d 1 0\n",
        written: None,
    },
    // hints with a sign, as steps that aren't by propagation alone have them
    Case {
        text: b"9 -1 0 -1 5 7 -6 2 7 -8 5 2 0\n",
        written: None,
    },
    // ids
    Case {
        text: b"8 1 0 1 0\n",
        written: None,
    },
    Case {
        text: b"10 1 0 1 0\n",
        written: None,
    },
    Case {
        text: b"9 1 0 1 0\n11 0 1 0\n",
        written: None,
    },
    Case {
        text: b"-9 1 0 1 0\n",
        written: None,
    },
    // numbers
    Case {
        text: b"9 2147483648 0 1 0\n",
        written: None,
    },
    Case {
        text: b"9 1 0 2147483648 0\n",
        written: None,
    },
    Case {
        text: b"09 1 0 1 0\n",
        written: None,
    },
    // lists without end
    Case {
        text: b"9 1 0 1\n",
        written: None,
    },
    Case {
        text: b"9 1\n",
        written: None,
    },
];

#[test]
fn clause_lists_are_read_and_written(rt: HostRuntime) -> Result<(), Fail> {
    for case in &CLAUSES {
        match (read_dimacs(rt.alloc(), case.text), case.written) {
            (Ok(cnf), Some(wanted)) => match dimacs(rt.alloc(), &cnf) {
                Ok(written) => assert!(rt; written.as_slice() == wanted),
                Err(NoMemory) => assert!(rt; false),
            },
            (Err(Text::Bad), None) => {}
            _ => assert!(rt; false),
        }
    }
    Ok(())
}

#[test]
fn derivations_are_read_and_written(rt: HostRuntime) -> Result<(), Fail> {
    for case in &STEPS {
        match (read_lrat(rt.alloc(), 8, case.text), case.written) {
            (Ok(derivation), Some(wanted)) => match lrat(rt.alloc(), 8, &derivation) {
                Ok(written) => assert!(rt; written.as_slice() == wanted),
                Err(NoMemory) => assert!(rt; false),
            },
            (Err(Text::Bad), None) => {}
            _ => assert!(rt; false),
        }
    }
    Ok(())
}

/// The list of one clause over so many variables.
fn one_clause(alloc: Global, vars: u32, numbers: &[u32]) -> Result<Cnf, NoMemory> {
    let mut store = Store::new(alloc);
    let mut clause = Vec::new(alloc);
    for number in numbers {
        clause.push(Lit(*number))?;
    }
    if are_distinct(&clause) {
        store.push(&clause)?;
    }
    Ok(Cnf { vars, store })
}

/// The derivation of one step.
fn one_step(alloc: Global, number: u32, hint: u32) -> Result<Derivation, NoMemory> {
    let step = Derived {
        clause: List::from_vec(Vec::from_slice(alloc, &[Lit(number)])?),
        hints: List::from_vec(Vec::from_slice(alloc, &[hint])?),
    };
    let mut steps = Vec::new(alloc);
    steps.push(step)?;
    Ok(Derivation {
        steps: List::from_vec(steps),
    })
}

#[test]
fn lists_beyond_the_bounds_have_no_text(rt: HostRuntime) -> Result<(), Fail> {
    for (vars, number, fits) in [
        (4, 7, true),
        (4, 8, false),
        (1_073_741_823, 2_147_483_645, true),
        (1_073_741_824, 0, false),
    ] {
        let Ok(cnf) = one_clause(rt.alloc(), vars, &[number]) else {
            assert!(rt; false);
            return Ok(());
        };
        assert_eq!(rt; fits_dimacs(&cnf), fits);
    }
    Ok(())
}

#[test]
fn derivations_beyond_the_bounds_have_no_text(rt: HostRuntime) -> Result<(), Fail> {
    for (given, number, hint, fits) in [
        (2_147_483_646, 4_294_967_293, 2_147_483_646, true),
        (2_147_483_647, 0, 0, false),
        (0, 4_294_967_294, 0, false),
        (0, 0, 2_147_483_647, false),
    ] {
        let Ok(derivation) = one_step(rt.alloc(), number, hint) else {
            assert!(rt; false);
            return Ok(());
        };
        assert_eq!(rt; fits_lrat(given, &derivation), fits);
    }
    let none = Derivation {
        steps: List::empty(rt.alloc()),
    };
    assert!(rt; fits_lrat(4_294_967_295, &none));
    Ok(())
}

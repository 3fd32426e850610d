//! Runs of the top call whose outside fails at each call in turn, and of bytes that are no text.

use crate::rows::{CALM, INPUT, RECORDS, UNREAD, UNWRITTEN, check, of_outside};
use std::alloc::Global;
use std::test::Fail;
use stk_base::Status;

/// The records of a unit that has no tree.
const NO_TREE: &[u8] =
    b"-:1:1: skipped: no tree\n0 functions, 0 candidates, 0 unstable, 0 undecided, 1 skipped\n";

#[test]
fn each_call_of_the_source_may_fail(rt: HostRuntime) -> Result<(), Fail> {
    for call in 0..75 {
        let outside = of_outside(&[], 1, Some(call), None, None);
        let (status, line) = (Status::ReadFault, UNREAD);
        check(rt.alloc(), &rt, &outside, INPUT, status, b"", line)?;
    }
    Ok(())
}

#[test]
fn each_call_of_the_output_may_fail(rt: HostRuntime) -> Result<(), Fail> {
    for taken in 0..RECORDS.len() + 1 {
        let outside = of_outside(&[], 1, None, Some(taken as u64), None);
        let (front, _) = RECORDS.split_at(taken);
        let (status, line) = (Status::WriteFault, UNWRITTEN);
        check(rt.alloc(), &rt, &outside, INPUT, status, front, line)?;
    }
    Ok(())
}

/// A function of so many empty statements.
fn of_statements(alloc: Global, count: usize) -> Result<Vec<u8>, Fail> {
    let mut input = Vec::from_slice(alloc, b"int f(void) {")?;
    for _ in 0..count {
        input.push(b';')?;
    }
    input.push(b'}')?;
    Ok(input)
}

#[test]
fn a_function_has_at_most_20000_nodes(rt: HostRuntime) -> Result<(), Fail> {
    let judged = b"1 functions, 0 candidates, 0 unstable, 0 undecided, 0 skipped\n";
    let fits = of_statements(rt.alloc(), 19996)?;
    let status = Status::Stable;
    check(rt.alloc(), &rt, &CALM, fits.as_slice(), status, judged, b"")?;
    let nodes =
        b"-:1:1: skipped: 20001 nodes\n0 functions, 0 candidates, 0 unstable, 0 undecided, 1 skipped\n";
    let many = of_statements(rt.alloc(), 19997)?;
    check(rt.alloc(), &rt, &CALM, many.as_slice(), status, nodes, b"")
}

/// A function of so many quotients of 64 bits, and so many empty statements.
fn of_quotients(alloc: Global, quotients: usize, empty: usize) -> Result<Vec<u8>, Fail> {
    let front = b"int f(unsigned char x) { unsigned long z = x; ";
    let mut input = Vec::from_slice(alloc, front)?;
    for _ in 0..quotients {
        input.extend_from_slice(b"z = z / (z ^ 1u); ")?;
    }
    for _ in 0..empty {
        input.push(b';')?;
    }
    input.extend_from_slice(b"return 0; }")?;
    Ok(input)
}

// A quotient's statement has 9 nodes, each of which weighs 128, and 2048 for `^`, 132096 for `/` and 2048 for `=`; the
// rest has 12 nodes and 2048 for the initialiser. So 58 quotients weigh 7969536, and 238 empty statements with them
// 8000000.
#[test]
fn a_function_weighs_at_most_8000000(rt: HostRuntime) -> Result<(), Fail> {
    let judged = b"1 functions, 0 candidates, 0 unstable, 0 undecided, 0 skipped\n";
    let fits = of_quotients(rt.alloc(), 58, 238)?;
    let status = Status::Stable;
    check(rt.alloc(), &rt, &CALM, fits.as_slice(), status, judged, b"")?;
    let weighs =
        b"-:1:1: skipped: weight 8000128\n0 functions, 0 candidates, 0 unstable, 0 undecided, 1 skipped\n";
    let heavy = of_quotients(rt.alloc(), 58, 239)?;
    check(
        rt.alloc(),
        &rt,
        &CALM,
        heavy.as_slice(),
        status,
        weighs,
        b"",
    )
}

/// A function whose value stands in so many parentheses.
fn of_parentheses(alloc: Global, count: usize) -> Result<Vec<u8>, Fail> {
    let mut input = Vec::from_slice(alloc, b"int f(unsigned char x) { return ")?;
    for _ in 0..count {
        input.push(b'(')?;
    }
    input.push(b'x')?;
    for _ in 0..count {
        input.push(b')')?;
    }
    input.extend_from_slice(b"; }")?;
    Ok(input)
}

#[test]
fn a_unit_nests_at_most_400_deep(rt: HostRuntime) -> Result<(), Fail> {
    let judged = b"1 functions, 0 candidates, 0 unstable, 0 undecided, 0 skipped\n";
    let fits = of_parentheses(rt.alloc(), 396)?;
    let status = Status::Stable;
    check(rt.alloc(), &rt, &CALM, fits.as_slice(), status, judged, b"")?;
    let deep = of_parentheses(rt.alloc(), 397)?;
    check(
        rt.alloc(),
        &rt,
        &CALM,
        deep.as_slice(),
        status,
        NO_TREE,
        b"",
    )
}

#[test]
fn any_bytes_are_answered(rt: HostRuntime) -> Result<(), Fail> {
    for byte in [0u8, 127, 128, 195, 255] {
        let input = [byte, b' ', byte];
        let status = Status::Stable;
        check(rt.alloc(), &rt, &CALM, &input, status, NO_TREE, b"")?;
    }
    Ok(())
}

#[test]
fn a_function_that_breaks_off_has_no_tree(rt: HostRuntime) -> Result<(), Fail> {
    for length in 1..74 {
        let (front, _) = INPUT.split_at(length);
        let status = Status::Stable;
        check(rt.alloc(), &rt, &CALM, front, status, NO_TREE, b"")?;
    }
    Ok(())
}

#[test]
fn a_flood_of_one_byte_is_answered(rt: HostRuntime) -> Result<(), Fail> {
    let alloc = rt.alloc();
    for byte in [b'(', b'{', b'@'] {
        let flood = vec![in alloc; byte; 16_777_216]?;
        let status = Status::Stable;
        check(alloc, &rt, &CALM, flood.as_slice(), status, NO_TREE, b"")?;
    }
    let flood = vec![in alloc; b';'; 16_777_216]?;
    let summary = b"0 functions, 0 candidates, 0 unstable, 0 undecided, 0 skipped\n";
    check(
        alloc,
        &rt,
        &CALM,
        flood.as_slice(),
        Status::Stable,
        summary,
        b"",
    )
}

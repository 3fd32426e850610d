//! Walks of large functions.

use crate::comparing::compared;
use crate::runs::Maps;
use std::alloc::Global;
use std::process::Abort;
use std::test::Fail;
use stk_base::NoMemory;

/// A text with a part again and again in its middle.
pub(crate) fn repeated(
    alloc: Global,
    first: &str,
    part: &str,
    times: usize,
    last: &str,
) -> Result<Vec<u8>, NoMemory> {
    let mut text = Vec::from_slice(alloc, first.as_bytes())?;
    for _turn in 0..times {
        text.extend_from_slice(part.as_bytes())?;
    }
    text.extend_from_slice(last.as_bytes())?;
    Ok(text)
}

// Whether one function is walked as it runs, by every so many steps.
fn is_walked(
    rt: &impl Abort,
    alloc: Global,
    text: &[u8],
    maps: Maps,
    every: usize,
) -> Result<(), Fail> {
    let outcome = compared(alloc, text, maps, every, false)?;
    assert!(rt; outcome.functions == 1 && outcome.maps > 0, "{outcome:?}");
    assert!(rt; outcome.numbers == outcome.maps, "{outcome:?}");
    assert!(rt; outcome.terms == outcome.maps, "{outcome:?}");
    Ok(())
}

#[test]
fn a_function_of_most_nodes_is_walked(rt: HostRuntime) -> Result<(), Fail> {
    // A part has 20 nodes, one condition and 6 candidates.
    let text = repeated(
        rt.alloc(),
        "int f(unsigned char x, unsigned char y) { int z = x;\n",
        "if (x) y = x; if (y == 3) x = y; z = z + 1;\n",
        990,
        "return z; }",
    )?;
    is_walked(&rt, rt.alloc(), text.as_slice(), Maps::Listed("7 3"), 500)
}

#[test]
fn many_reads_of_a_kept_object_are_walked(rt: HostRuntime) -> Result<(), Fail> {
    let text = repeated(
        rt.alloc(),
        "int f(int k) { int x = k; int *p = &x; int s = 0; if (x == 3) *p = 4;\n",
        "s = x;\n",
        2_000,
        "return s < x; }",
    )?;
    is_walked(&rt, rt.alloc(), text.as_slice(), Maps::First(3), 1)
}

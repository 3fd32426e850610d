//! Lines that tests write.

use std::alloc::Global;
use std::test::Fail;
use stk_base::List;
use stk_meaning::Phase;
use stk_numbers::{Kinds, UbKind};
use stk_records::{Cause, Claim, Counts, Fragment, Input, Line, Needed, Spot, StartInputs};

/// Bytes as a list.
pub(crate) fn bytes(alloc: Global, text: &[u8]) -> Result<List<u8>, Fail> {
    Ok(List::from_vec(Vec::from_slice(alloc, text)?))
}

/// A place before the first line marker.
pub(crate) fn spot(line: u32, column: u32) -> Spot {
    Spot {
        file: None,
        line,
        column,
    }
}

/// A place in a file.
pub(crate) fn spot_in(alloc: Global, file: &[u8], line: u32, column: u32) -> Result<Spot, Fail> {
    Ok(Spot {
        file: Some(bytes(alloc, file)?),
        line,
        column,
    })
}

/// A start of these inputs.
pub(crate) fn start(alloc: Global, given: &[(&str, i128)]) -> Result<StartInputs, Fail> {
    let mut inputs = Vec::new(alloc);
    for (key, number) in given {
        let key = bytes(alloc, key.as_bytes())?;
        inputs.push(Input {
            key,
            number: *number,
        })?;
    }
    Ok(StartInputs {
        inputs: List::from_vec(inputs),
    })
}

/// A fragment of a function f.
pub(crate) fn fragment(alloc: Global, at: Spot, claim: Claim) -> Result<Fragment, Fail> {
    let function = bytes(alloc, b"f")?;
    Ok(Fragment {
        at,
        claim,
        function,
    })
}

/// A report with one condition.
pub(crate) fn report(
    alloc: Global,
    claim: Claim,
    given: &[(&str, i128)],
    without: Option<StartInputs>,
) -> Result<Line, Fail> {
    let mut needs = Vec::new(alloc);
    needs.push(Needed {
        kind: UbKind::Zero,
        at: spot(1, 34),
        without,
    })?;
    Ok(Line::Unstable {
        fragment: fragment(alloc, spot(1, 46), claim)?,
        hit: start(alloc, given)?,
        needs: List::from_vec(needs),
    })
}

/// A fragment of which a query was given up.
pub(crate) fn undecided(alloc: Global, at: Spot, claim: Claim, phase: Phase) -> Result<Line, Fail> {
    Ok(Line::Undecided {
        fragment: fragment(alloc, at, claim)?,
        phase,
    })
}

/// A unit that is skipped.
pub(crate) fn skipped(cause: Cause) -> Line {
    Line::Skipped {
        at: spot(7, 1),
        cause,
    }
}

/// A summary without these kinds.
pub(crate) fn summary(zero: bool, copy: bool) -> Line {
    Line::Summary {
        counts: Counts {
            functions: 1,
            candidates: 3,
            unstable: 2,
            undecided: 0,
            skipped: 18446744073709551615,
        },
        without: Kinds {
            overflow: false,
            zero,
            shift: false,
            null: false,
            pointer: false,
            bounds: false,
            abs: false,
            copy,
        },
    }
}

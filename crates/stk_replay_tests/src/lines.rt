//! Lines and their text.

use std::alloc::Global;
use std::test::Fail;
use stk_numbers::UbKind;
use stk_records::{Claim, Spot};
use stk_replay_text::{ReplayLine, add_lines};

/// A place of the input itself.
fn spot(column: u32) -> Spot {
    Spot {
        file: None,
        line: 1,
        column,
    }
}

/// The text of lines.
fn text_of(alloc: Global, lines: &[ReplayLine]) -> Result<Vec<u8>, Fail> {
    let mut text = Vec::new(alloc);
    add_lines(&mut text, lines)?;
    Ok(text)
}

#[test]
fn each_line_has_its_text(rt: HostRuntime) -> Result<(), Fail> {
    let lines = [
        ReplayLine::Violated {
            at: spot(34),
            kind: UbKind::Zero,
        },
        ReplayLine::Entered { at: spot(54) },
        ReplayLine::Seen {
            at: spot(46),
            truth: true,
            replaced: None,
        },
        ReplayLine::Seen {
            at: spot(7),
            truth: false,
            replaced: Some(true),
        },
        ReplayLine::Hit {
            at: spot(46),
            claim: Claim::AlwaysFalse,
        },
        ReplayLine::Fell,
        ReplayLine::Returned,
        ReplayLine::Cut,
    ];
    let text = text_of(rt.alloc(), &lines)?;
    let wanted =
        b"-:1:34: ub division by zero\n-:1:54: enter\n-:1:46: seen true\n-:1:7: seen false, replacement true\nhits always false at -:1:46\nend: fell\nend: returned\nend: cut\n";
    assert!(rt; text.as_slice() == wanted.as_slice());
    Ok(())
}

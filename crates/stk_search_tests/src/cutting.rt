// Goals over x and y, with what is decided of their cut goals.
use crate::deciding::{Outcome, decided_cut};
use std::test::Fail;

/// The widths of x and y, 0 where there is no y; a goal; how many terms are kept; how many bits the inputs of the cut
/// goal have; and what is decided of it.
type Case = ((u8, u8), &'static str, usize, u32, Outcome);

static CUT: [Case; 5] = [
    // a product is less than 3 and is 5: never, whatever the product is
    (
        (8, 8),
        "x y mul 3:8 ult x y mul 5:8 eq and",
        4,
        8,
        Outcome::Tried,
    ),
    // no square is 3 modulo 256, but an input in its place may be
    ((8, 0), "x x mul 3:8 eq", 1, 8, Outcome::First(3, 0)),
    // there is nothing to cut
    ((8, 0), "x 1:8 eq", 8, 8, Outcome::Refused),
    // nothing is kept
    ((8, 0), "x x mul 3:8 eq", 0, 8, Outcome::Refused),
    // 128 bits are too wide for an input, but each half is not
    (
        (64, 64),
        "x y add y concat 5:128 ult x y add y concat 7:128 eq and",
        4,
        128,
        Outcome::Refuted { good: true },
    ),
];

#[test]
fn cut_goals_are_decided(rt: HostRuntime) -> Result<(), Fail> {
    for (widths, text, most, bits, outcome) in &CUT {
        let answer = decided_cut(rt.alloc(), *widths, text, *most, *bits);
        assert!(rt; answer == Ok(*outcome), "{text}");
    }
    Ok(())
}

// Goals over x and y, with what is decided of them.
use crate::deciding::{Outcome, decided};
use std::test::Fail;

/// The widths of x and y, 0 where there is no y; a goal; a budget; and what is decided of it.
type Case = ((u8, u8), &'static str, u32, Outcome);

// At most 16 bits, all of which are tried.
static TRIED: [Case; 7] = [
    // 1 and 0
    ((8, 8), "1:1", 1, Outcome::First(0, 0)),
    ((8, 8), "0:1", 1, Outcome::Tried),
    // an input of one bit
    ((1, 0), "x", 1, Outcome::First(1, 0)),
    // x + 100 < x without signs: from 2^16 - 100 on
    ((16, 0), "x 100:16 add x ult", 1, Outcome::First(65_436, 0)),
    // x * y = 143
    ((8, 8), "x y mul 143:8 eq", 1, Outcome::First(1, 143)),
    // x = 1 and x < 1
    ((16, 0), "x 1:16 eq x 1:16 ult and", 1, Outcome::Tried),
    // a term of width 8 is no goal
    ((8, 0), "x", 1, Outcome::Refused),
];

// More bits: inputs are found, or there are none.
static SEARCHED: [Case; 9] = [
    ((8, 9), "1:1", 1, Outcome::Found { good: true }),
    ((8, 9), "0:1", 1, Outcome::Refuted { good: true }),
    ((1, 17), "x", 1, Outcome::Found { good: true }),
    // x + 100 < x, without signs, and with signs where nothing overflows
    (
        (17, 0),
        "x 100:17 add x ult",
        100,
        Outcome::Found { good: true },
    ),
    (
        (32, 0),
        "x 100:32 add x ult",
        100,
        Outcome::Found { good: true },
    ),
    (
        (32, 0),
        "x 100:32 add x slt 2147483547:32 x slt not and",
        2_000,
        Outcome::Refuted { good: true },
    ),
    // x = 1 and x < 1; x = 2^8 - 1 and y = 2^9 - 2
    (
        (17, 0),
        "x 1:17 eq x 1:17 ult and",
        100,
        Outcome::Refuted { good: true },
    ),
    (
        (8, 9),
        "x 255:8 eq y 510:9 eq and",
        1,
        Outcome::Found { good: true },
    ),
    // 1 < x / x
    (
        (18, 0),
        "1:18 x x udiv ult",
        20_000,
        Outcome::Refuted { good: true },
    ),
];

// (x + y) * (x - y) isn't x * x - y * y: never, and hard. The log of the narrow one is looked at.
static GIVEN_UP: [Case; 2] = [
    (
        (12, 12),
        "x y add x y sub mul x x mul y y mul sub eq not",
        5,
        Outcome::Undecided {
            steps: 5,
            good: true,
            given_up: 1,
        },
    ),
    (
        (64, 64),
        "x y add x y sub mul x x mul y y mul sub eq not",
        1,
        Outcome::Undecided {
            steps: 1,
            good: true,
            given_up: 1,
        },
    ),
];

#[test]
fn few_bits_are_tried(rt: HostRuntime) -> Result<(), Fail> {
    for (widths, text, budget, outcome) in &TRIED {
        let answer = decided(rt.alloc(), *widths, text, *budget);
        assert!(rt; answer == Ok(*outcome), "{text}");
    }
    Ok(())
}

#[test]
fn more_bits_are_searched(rt: HostRuntime) -> Result<(), Fail> {
    for (widths, text, budget, outcome) in &SEARCHED {
        let answer = decided(rt.alloc(), *widths, text, *budget);
        assert!(rt; answer == Ok(*outcome), "{text}");
    }
    Ok(())
}

#[test]
fn hard_goals_are_given_up(rt: HostRuntime) -> Result<(), Fail> {
    for (widths, text, budget, outcome) in &GIVEN_UP {
        let answer = decided(rt.alloc(), *widths, text, *budget);
        assert!(rt; answer == Ok(*outcome), "{text}");
    }
    Ok(())
}

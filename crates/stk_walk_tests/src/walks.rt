//! Walks over numbers and over terms, and goals, against path runs.

use crate::comparing::{Outcome, compared};
use crate::memory_rows::MEMORY;
use crate::narrow_rows::NARROW;
use crate::rows::{Row, WORKED};
use crate::runs::Maps;
use crate::{last_rows, memory_rows, more_rows, rows};
use std::alloc::Global;
use std::process::Abort;
use std::test::Fail;
use stk_base::NoMemory;

static DIVISION: &str =
    "int f(unsigned char x) { int y = 10 / x; if (x == 0) return 1; return y; }";

// A function on a line of its own, behind what is declared before it.
fn below(alloc: Global, first: &str, text: &str) -> Result<Vec<u8>, NoMemory> {
    let mut whole = Vec::from_slice(alloc, first.as_bytes())?;
    whole.push(b'\n')?;
    whole.extend_from_slice(text.as_bytes())?;
    Ok(whole)
}

// What came of a function under maps.
fn outcome_of(
    alloc: Global,
    first: &str,
    text: &str,
    maps: Maps,
    goals: bool,
) -> Result<Outcome, NoMemory> {
    let whole = below(alloc, first, text)?;
    compared(alloc, whole.as_slice(), maps, 1, goals)
}

// Whether one function was walked, under some maps, and all is the same.
fn is_same(outcome: Outcome) -> bool {
    outcome.functions == 1
        && outcome.maps > 0
        && outcome.numbers == outcome.maps
        && outcome.terms == outcome.maps
        && outcome.right == outcome.goals
}

// Whether all is the same for each function of a table under its maps.
fn are_same(
    rt: &impl Abort,
    alloc: Global,
    first: &str,
    table: &[Row],
    goals: bool,
) -> Result<(), Fail> {
    for (text, maps) in table {
        let outcome = outcome_of(alloc, first, text, Maps::Listed(maps), goals)?;
        assert!(rt; is_same(outcome), "{text:?} {outcome:?}");
    }
    Ok(())
}

#[test]
fn first_functions_are_walked_as_they_run(rt: HostRuntime) -> Result<(), Fail> {
    are_same(&rt, rt.alloc(), rows::FIRST, &rows::FIRST_FUNCTIONS, false)
}

#[test]
fn second_functions_are_walked_as_they_run(rt: HostRuntime) -> Result<(), Fail> {
    are_same(&rt, rt.alloc(), rows::FIRST, &rows::SECOND_FUNCTIONS, false)
}

#[test]
fn third_functions_are_walked_as_they_run(rt: HostRuntime) -> Result<(), Fail> {
    are_same(&rt, rt.alloc(), rows::FIRST, &rows::THIRD_FUNCTIONS, false)
}

#[test]
fn fourth_functions_are_walked_as_they_run(rt: HostRuntime) -> Result<(), Fail> {
    are_same(&rt, rt.alloc(), rows::FIRST, &rows::FOURTH_FUNCTIONS, false)
}

#[test]
fn fifth_functions_are_walked_as_they_run(rt: HostRuntime) -> Result<(), Fail> {
    are_same(&rt, rt.alloc(), rows::FIRST, &rows::FIFTH_FUNCTIONS, false)
}

#[test]
fn sixth_functions_are_walked_as_they_run(rt: HostRuntime) -> Result<(), Fail> {
    are_same(&rt, rt.alloc(), rows::FIRST, &rows::SIXTH_FUNCTIONS, false)
}

#[test]
fn seventh_functions_are_walked_as_they_run(rt: HostRuntime) -> Result<(), Fail> {
    are_same(
        &rt,
        rt.alloc(),
        rows::FIRST,
        &more_rows::SEVENTH_FUNCTIONS,
        false,
    )
}

#[test]
fn eighth_functions_are_walked_as_they_run(rt: HostRuntime) -> Result<(), Fail> {
    are_same(
        &rt,
        rt.alloc(),
        rows::FIRST,
        &more_rows::EIGHTH_FUNCTIONS,
        false,
    )
}

#[test]
fn ninth_functions_are_walked_as_they_run(rt: HostRuntime) -> Result<(), Fail> {
    are_same(
        &rt,
        rt.alloc(),
        rows::FIRST,
        &more_rows::NINTH_FUNCTIONS,
        false,
    )
}

#[test]
fn tenth_functions_are_walked_as_they_run(rt: HostRuntime) -> Result<(), Fail> {
    are_same(
        &rt,
        rt.alloc(),
        rows::FIRST,
        &more_rows::TENTH_FUNCTIONS,
        false,
    )
}

#[test]
fn eleventh_functions_are_walked_as_they_run(rt: HostRuntime) -> Result<(), Fail> {
    are_same(
        &rt,
        rt.alloc(),
        rows::FIRST,
        &more_rows::ELEVENTH_FUNCTIONS,
        false,
    )
}

#[test]
fn twelfth_functions_are_walked_as_they_run(rt: HostRuntime) -> Result<(), Fail> {
    are_same(
        &rt,
        rt.alloc(),
        rows::FIRST,
        &more_rows::TWELFTH_FUNCTIONS,
        false,
    )
}

#[test]
fn thirteenth_functions_are_walked_as_they_run(rt: HostRuntime) -> Result<(), Fail> {
    are_same(
        &rt,
        rt.alloc(),
        rows::FIRST,
        &last_rows::THIRTEENTH_FUNCTIONS,
        false,
    )
}

#[test]
fn fourteenth_functions_are_walked_as_they_run(rt: HostRuntime) -> Result<(), Fail> {
    are_same(
        &rt,
        rt.alloc(),
        rows::FIRST,
        &last_rows::FOURTEENTH_FUNCTIONS,
        false,
    )
}

#[test]
fn fifteenth_functions_are_walked_as_they_run(rt: HostRuntime) -> Result<(), Fail> {
    are_same(
        &rt,
        rt.alloc(),
        rows::FIRST,
        &last_rows::FIFTEENTH_FUNCTIONS,
        false,
    )
}

#[test]
fn sixteenth_functions_are_walked_as_they_run(rt: HostRuntime) -> Result<(), Fail> {
    are_same(
        &rt,
        rt.alloc(),
        rows::FIRST,
        &last_rows::SIXTEENTH_FUNCTIONS,
        false,
    )
}

#[test]
fn seventeenth_functions_are_walked_as_they_run(rt: HostRuntime) -> Result<(), Fail> {
    are_same(
        &rt,
        rt.alloc(),
        rows::FIRST,
        &last_rows::SEVENTEENTH_FUNCTIONS,
        false,
    )
}

#[test]
fn eighteenth_functions_are_walked_as_they_run(rt: HostRuntime) -> Result<(), Fail> {
    are_same(
        &rt,
        rt.alloc(),
        rows::FIRST,
        &last_rows::EIGHTEENTH_FUNCTIONS,
        false,
    )
}

#[test]
fn memory_is_walked_as_it_runs(rt: HostRuntime) -> Result<(), Fail> {
    are_same(&rt, rt.alloc(), memory_rows::FIRST, &MEMORY, true)
}

#[test]
fn first_maps_of_memory_are_walked_as_they_run(rt: HostRuntime) -> Result<(), Fail> {
    for (text, _) in &MEMORY {
        let outcome = outcome_of(rt.alloc(), memory_rows::FIRST, text, Maps::First(40), true)?;
        assert!(rt; is_same(outcome), "{text:?} {outcome:?}");
    }
    Ok(())
}

#[test]
fn all_maps_are_walked_as_they_run(rt: HostRuntime) -> Result<(), Fail> {
    for (text, bits) in &NARROW {
        let outcome = outcome_of(rt.alloc(), rows::FIRST, text, Maps::Numbered(*bits), true)?;
        assert!(rt; is_same(outcome), "{text:?} {outcome:?}");
    }
    Ok(())
}

#[test]
fn a_zero_divisor_stands_before_the_branch(rt: HostRuntime) -> Result<(), Fail> {
    // Without a set two goals are 1 for 0 alone and one for all others; with all conditions the last one alone.
    let outcome = compared(rt.alloc(), DIVISION.as_bytes(), Maps::Numbered(8), 1, true)?;
    assert!(rt; is_same(outcome) && outcome.maps == 256, "{outcome:?}");
    assert!(rt; outcome.goals == 6 && outcome.answers == 512, "{outcome:?}");
    Ok(())
}

#[test]
fn worked_functions_have_these_goals(rt: HostRuntime) -> Result<(), Fail> {
    for (text, maps, goals, answers) in &WORKED {
        let outcome = compared(rt.alloc(), text.as_bytes(), Maps::Listed(maps), 1, true)?;
        assert!(rt; is_same(outcome), "{text:?} {outcome:?}");
        assert!(rt; outcome.goals == *goals, "{text:?} {outcome:?}");
        assert!(rt; outcome.answers == *answers, "{text:?} {outcome:?}");
    }
    Ok(())
}

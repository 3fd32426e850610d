//! The text and the JSON of lines. The JSON of the report and of the summary are those that users are promised, byte
//! for byte.

use crate::lines::{bytes, report, skipped, spot, spot_in, start, summary, undecided};
use std::alloc::Global;
use std::process::Abort;
use std::test::Fail;
use stk_meaning::Phase;
use stk_records::{Cause, Claim, Line, add_json_line, add_line};

/// Compares the text and the JSON of a line.
fn check(alloc: Global, rt: &impl Abort, line: &Line, text: &str, json: &str) -> Result<(), Fail> {
    let mut found = Vec::new(alloc);
    add_line(&mut found, line)?;
    assert!(rt; found.as_slice() == text.as_bytes(), "{text}");
    let mut object = Vec::new(alloc);
    add_json_line(alloc, &mut object, line)?;
    assert!(rt; object.as_slice() == json.as_bytes(), "{json}");
    Ok(())
}

#[test]
fn a_report_has_a_start_and_conditions(rt: HostRuntime) -> Result<(), Fail> {
    let without = start(rt.alloc(), &[("x", 0)])?;
    let line = report(rt.alloc(), Claim::AlwaysFalse, &[("x", 0)], Some(without))?;
    check(
        rt.alloc(),
        &rt,
        &line,
        "-:1:46: unstable: always false in f\n  hit: x=0\n  needs division by zero at -:1:34; without it: x=0\n",
        "{\"candidate\":\"always false\",\"column\":46,\"file\":\"-\",\"function\":\"f\",\"hit\":[[\"x\",0]],\"line\":1,\"needs\":[{\"column\":34,\"file\":\"-\",\"kind\":\"division by zero\",\"line\":1,\"without\":[[\"x\",0]]}],\"type\":\"unstable\"}\n",
    )
}

#[test]
fn numbers_reach_both_ends(rt: HostRuntime) -> Result<(), Fail> {
    let given = [
        ("least", -9223372036854775808),
        ("&greatest", 18446744073709551615),
    ];
    let line = report(rt.alloc(), Claim::NeverEntered, &given, None)?;
    check(
        rt.alloc(),
        &rt,
        &line,
        "-:1:46: unstable: never entered in f\n  hit: least=-9223372036854775808 &greatest=18446744073709551615\n  needs division by zero at -:1:34; open\n",
        "{\"candidate\":\"arm\",\"column\":46,\"file\":\"-\",\"function\":\"f\",\"hit\":[[\"least\",-9223372036854775808],[\"&greatest\",18446744073709551615]],\"line\":1,\"needs\":[{\"column\":34,\"file\":\"-\",\"kind\":\"division by zero\",\"line\":1,\"without\":null}],\"type\":\"unstable\"}\n",
    )
}

#[test]
fn a_start_may_have_no_input(rt: HostRuntime) -> Result<(), Fail> {
    let line = report(rt.alloc(), Claim::AlwaysTrue, &[], None)?;
    check(
        rt.alloc(),
        &rt,
        &line,
        "-:1:46: unstable: always true in f\n  hit: none\n  needs division by zero at -:1:34; open\n",
        "{\"candidate\":\"always true\",\"column\":46,\"file\":\"-\",\"function\":\"f\",\"hit\":[],\"line\":1,\"needs\":[{\"column\":34,\"file\":\"-\",\"kind\":\"division by zero\",\"line\":1,\"without\":null}],\"type\":\"unstable\"}\n",
    )
}

#[test]
fn bytes_that_no_printer_shows_are_question_marks(rt: HostRuntime) -> Result<(), Fail> {
    let at = spot_in(rt.alloc(), b"a\t\"\xff.c", 12, 5)?;
    let claim = Claim::SameAs(bytes(rt.alloc(), b"y < 0\x7f")?);
    let line = undecided(rt.alloc(), at, claim, Phase::Hit)?;
    check(
        rt.alloc(),
        &rt,
        &line,
        "a?\"?.c:12:5: undecided: same as y < 0? in f; hit query\n",
        "{\"candidate\":\"algebra\",\"column\":5,\"file\":\"a?\\\"?.c\",\"function\":\"f\",\"line\":12,\"phase\":\"hit\",\"replacement\":\"y < 0?\",\"type\":\"undecided\"}\n",
    )?;
    let free = undecided(rt.alloc(), spot(1, 2), Claim::AlwaysTrue, Phase::Free)?;
    check(
        rt.alloc(),
        &rt,
        &free,
        "-:1:2: undecided: always true in f; free query\n",
        "{\"candidate\":\"always true\",\"column\":2,\"file\":\"-\",\"function\":\"f\",\"line\":1,\"phase\":\"free\",\"type\":\"undecided\"}\n",
    )
}

#[test]
fn each_cause_is_said(rt: HostRuntime) -> Result<(), Fail> {
    check(
        rt.alloc(),
        &rt,
        &skipped(Cause::NoTree),
        "-:7:1: skipped: no tree\n",
        "{\"cause\":\"no tree\",\"column\":1,\"file\":\"-\",\"line\":7,\"type\":\"skipped\"}\n",
    )?;
    check(
        rt.alloc(),
        &rt,
        &skipped(Cause::Rule {
            rule: 17,
            at: spot(8, 9),
        }),
        "-:7:1: skipped: rule 17 at -:8:9\n",
        "{\"at\":{\"column\":9,\"file\":\"-\",\"line\":8},\"cause\":\"rule\",\"column\":1,\"file\":\"-\",\"line\":7,\"rule\":17,\"type\":\"skipped\"}\n",
    )?;
    check(
        rt.alloc(),
        &rt,
        &skipped(Cause::Nodes { count: 20001 }),
        "-:7:1: skipped: 20001 nodes\n",
        "{\"cause\":\"nodes\",\"column\":1,\"count\":20001,\"file\":\"-\",\"line\":7,\"type\":\"skipped\"}\n",
    )
}

#[test]
fn each_limit_is_said(rt: HostRuntime) -> Result<(), Fail> {
    check(
        rt.alloc(),
        &rt,
        &skipped(Cause::Weight { sum: 8000001 }),
        "-:7:1: skipped: weight 8000001\n",
        "{\"cause\":\"weight\",\"column\":1,\"count\":8000001,\"file\":\"-\",\"line\":7,\"type\":\"skipped\"}\n",
    )
}

#[test]
fn the_summary_names_the_kinds_that_are_taken_out(rt: HostRuntime) -> Result<(), Fail> {
    check(
        rt.alloc(),
        &rt,
        &summary(false, false),
        "1 functions, 3 candidates, 2 unstable, 0 undecided, 18446744073709551615 skipped\n",
        "{\"candidates\":3,\"functions\":1,\"skipped\":18446744073709551615,\"type\":\"summary\",\"undecided\":0,\"unstable\":2,\"version\":2,\"without\":[]}\n",
    )?;
    check(
        rt.alloc(),
        &rt,
        &summary(true, true),
        "1 functions, 3 candidates, 2 unstable, 0 undecided, 18446744073709551615 skipped\n",
        "{\"candidates\":3,\"functions\":1,\"skipped\":18446744073709551615,\"type\":\"summary\",\"undecided\":0,\"unstable\":2,\"version\":2,\"without\":[\"zero\",\"copy\"]}\n",
    )
}

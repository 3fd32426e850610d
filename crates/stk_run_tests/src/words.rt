// Words that are legal, with what they ask for, and words that aren't.
use std::alloc::Global;
use std::test::Fail;
use stk_base::NoMemory;
use stk_numbers::{Kinds, UbKind};
use stk_records::{AskedScript, ConditionSet, Options, WordsFault, words};

/// Words with single blanks between them, and what they ask for: whether the records are JSON, the budget, the kinds
/// that don't count, and the number and the functions of a text that is generated.
type Legal = (
    &'static str,
    bool,
    u32,
    &'static [UbKind],
    Option<(u64, u32)>,
);

static LEGAL: [Legal; 15] = [
    ("", false, 20_000, &[], None),
    ("--json", true, 20_000, &[], None),
    ("--budget 1", false, 1, &[], None),
    ("--budget=200000", false, 200_000, &[], None),
    ("--budget 00000000000000000007", false, 7, &[], None),
    ("--without null", false, 20_000, &[UbKind::Null], None),
    (
        "--without=overflow,zero,shift,null,pointer,bounds,abs,copy",
        false,
        20_000,
        &[
            UbKind::Overflow,
            UbKind::Zero,
            UbKind::Shift,
            UbKind::Null,
            UbKind::Pointer,
            UbKind::Bounds,
            UbKind::AbsValue,
            UbKind::Overlap,
        ],
        None,
    ),
    (
        "--without copy,abs",
        false,
        20_000,
        &[UbKind::AbsValue, UbKind::Overlap],
        None,
    ),
    (
        "--json --budget 5 --without zero",
        true,
        5,
        &[UbKind::Zero],
        None,
    ),
    (
        "--without zero --budget 5 --json",
        true,
        5,
        &[UbKind::Zero],
        None,
    ),
    (
        "--without=zero --json --budget=5",
        true,
        5,
        &[UbKind::Zero],
        None,
    ),
    (
        "--generate 0 --functions 1",
        false,
        20_000,
        &[],
        Some((0, 1)),
    ),
    (
        "--functions=1000 --generate=18446744073709551615",
        false,
        20_000,
        &[],
        Some((18446744073709551615, 1000)),
    ),
    (
        "--functions 00000000000000000007 --json --generate=00000000000000000000",
        true,
        20_000,
        &[],
        Some((0, 7)),
    ),
    (
        "--generate 5 --budget=9 --functions 2 --without shift --json",
        true,
        9,
        &[UbKind::Shift],
        Some((5, 2)),
    ),
];

static BAD: [&str; 56] = [
    "--help",
    "-json",
    "--json=",
    "--JSON",
    "--json --json",
    "json",
    "--budget",
    "--budget 0",
    "--budget=",
    "--budget 200001",
    "--budget 000000000000000000007",
    "--budget 18446744073709551617",
    "--budget -1",
    "--budget +1",
    "--budget 1 --budget 1",
    "--without",
    "--without=",
    "--without null,",
    "--without ,null",
    "--without null,null",
    "--without nul",
    "--without null zero",
    "--functions 5",
    "--generate 5",
    "--generate --functions 5",
    "--generate 5 --functions",
    "--generate 5 --functions 0",
    "--generate 5 --functions 1001",
    "--generate= --functions=5",
    "--generate 18446744073709551616 --functions 5",
    "--generate 99999999999999999999 --functions 5",
    "--generate 000000000000000000005 --functions 5",
    "--generate -1 --functions 5",
    "--generate 5 --functions 5 --generate 5",
    "--generate 5 --functions 5 --functions=5",
    "--smt",
    "--smt 0",
    "--smt=",
    "--smt 18446744073709551616",
    "--smt-hit -1",
    "--smt 1 --smt 1",
    "--smt 1 --smt-hit 1",
    "--smt-hit 1 --json",
    "--smt 1 --generate 5 --functions 5",
    "--functions 5 --smt-hit 1",
    "--smt-hits 1",
    "--bundle=",
    "--bundle 1",
    "--bundle --bundle",
    "--bundles",
    "--bundle --json",
    "--json --bundle",
    "--bundle --generate 5 --functions 5",
    "--functions 5 --bundle",
    "--bundle --smt 1",
    "--smt-hit=1 --bundle",
];

/// The words of a text.
fn split(alloc: Global, text: &str) -> Result<Vec<String>, NoMemory> {
    let mut list = Vec::new(alloc);
    let mut word = String::new(alloc);
    for letter in text.chars() {
        if letter == ' ' {
            list.push(word)?;
            word = String::new(alloc);
        } else {
            word.push(letter)?;
        }
    }
    if !word.is_empty() {
        list.push(word)?;
    }
    Ok(list)
}

/// The kinds of a list.
fn kinds_of(list: &[UbKind]) -> Kinds {
    Kinds {
        overflow: list.contains(&UbKind::Overflow),
        zero: list.contains(&UbKind::Zero),
        shift: list.contains(&UbKind::Shift),
        null: list.contains(&UbKind::Null),
        pointer: list.contains(&UbKind::Pointer),
        bounds: list.contains(&UbKind::Bounds),
        abs: list.contains(&UbKind::AbsValue),
        copy: list.contains(&UbKind::Overlap),
    }
}

#[test]
fn legal_words_ask_for_options(rt: HostRuntime) -> Result<(), Fail> {
    for (text, json, budget, without, generate) in &LEGAL {
        let wanted = Options {
            json: *json,
            budget: *budget,
            without: kinds_of(without),
            generate: *generate,
            script: None,
            bundle: false,
        };
        let list = split(rt.alloc(), text)?;
        assert!(rt; words(list.as_slice()) == Ok(wanted), "{text:?}");
    }
    Ok(())
}

/// Words that ask for a script, and for which one.
static SCRIPTS: [(&str, AskedScript); 4] = [
    (
        "--smt 1",
        AskedScript {
            number: 1,
            set: ConditionSet::All,
        },
    ),
    (
        "--smt-hit=18446744073709551615",
        AskedScript {
            number: 18446744073709551615,
            set: ConditionSet::Empty,
        },
    ),
    (
        "--budget 5 --smt=007",
        AskedScript {
            number: 7,
            set: ConditionSet::All,
        },
    ),
    (
        "--smt-hit 2 --without null",
        AskedScript {
            number: 2,
            set: ConditionSet::Empty,
        },
    ),
];

#[test]
fn words_ask_for_scripts(rt: HostRuntime) -> Result<(), Fail> {
    for (text, asked) in &SCRIPTS {
        let list = split(rt.alloc(), text)?;
        let found = match words(list.as_slice()) {
            Ok(options) => options.script,
            Err(WordsFault::Bad) => None,
        };
        assert!(rt; found == Some(*asked), "{text:?}");
    }
    Ok(())
}

/// Words that ask for a bundle, and with which budget.
static BUNDLES: [(&str, u32); 4] = [
    ("--bundle", 20_000),
    ("--bundle --budget 5", 5),
    ("--budget=200000 --bundle", 200_000),
    ("--without null --bundle --budget 1", 1),
];

#[test]
fn words_ask_for_bundles(rt: HostRuntime) -> Result<(), Fail> {
    for (text, budget) in &BUNDLES {
        let list = split(rt.alloc(), text)?;
        let found = match words(list.as_slice()) {
            Ok(options) if options.bundle => options.budget,
            _ => 0,
        };
        assert!(rt; found == *budget, "{text:?}");
    }
    Ok(())
}

#[test]
fn other_words_are_bad(rt: HostRuntime) -> Result<(), Fail> {
    for text in &BAD {
        let list = split(rt.alloc(), text)?;
        assert!(rt; words(list.as_slice()) == Err(WordsFault::Bad), "{text:?}");
    }
    Ok(())
}

/// Legal words, and the legal ones among those that differ from them in one letter, of the 95 that are printed: a blank
/// in place of `=` or the other way round, a digit that leaves the number in its range, and a blank for the last of
/// several digits. All others are another item's word, no number or one out of its range, or no kind.
static CHANGED: [(&str, &[&str]); 4] = [
    ("--json", &[]),
    ("--without null,abs", &["--without=null,abs"]),
    // at most 200000
    (
        "--budget=200000",
        &["--budget 200000", "--budget=100000", "--budget=20000 "],
    ),
    // at least 1
    (
        "--smt-hit 7",
        &[
            "--smt-hit=7",
            "--smt-hit 1",
            "--smt-hit 2",
            "--smt-hit 3",
            "--smt-hit 4",
            "--smt-hit 5",
            "--smt-hit 6",
            "--smt-hit 8",
            "--smt-hit 9",
        ],
    ),
];

/// A text with another letter at a place.
fn changed(alloc: Global, text: &str, place: usize, letter: char) -> Result<String, NoMemory> {
    let mut out = String::new(alloc);
    let mut at = 0usize;
    for old in text.chars() {
        out.push(if at == place { letter } else { old })?;
        at = at.saturating_add(1);
    }
    Ok(out)
}

/// Whether a text is one of these.
fn is_among(list: &[&str], text: &str) -> bool {
    for other in list {
        if other.as_bytes() == text.as_bytes() {
            return true;
        }
    }
    false
}

/// Whether of the words that differ from some legal ones in the letter at a place just these are legal.
fn are_legal_at(alloc: Global, text: &str, place: usize, legal: &[&str]) -> Result<bool, NoMemory> {
    for byte in 32..127u8 {
        let other = changed(alloc, text, place, char::from(byte))?;
        let list = split(alloc, other.as_str())?;
        let is_same = other.as_bytes() == text.as_bytes();
        if words(list.as_slice()).is_ok() != (is_same || is_among(legal, other.as_str())) {
            return Ok(false);
        }
    }
    Ok(true)
}

/// Whether of the words that differ from some legal ones in one letter just these are legal.
fn are_legal(alloc: Global, text: &str, legal: &[&str]) -> Result<bool, NoMemory> {
    for place in 0..text.len() {
        if !are_legal_at(alloc, text, place, legal)? {
            return Ok(false);
        }
    }
    Ok(true)
}

#[test]
fn words_with_one_letter_changed_are_bad(rt: HostRuntime) -> Result<(), Fail> {
    for (text, legal) in &CHANGED {
        assert!(rt; are_legal(rt.alloc(), text, legal)?, "{text:?}");
    }
    Ok(())
}

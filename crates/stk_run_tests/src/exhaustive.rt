// Findings for candidates of functions of one key, by their runs.
ghost use Rattle.std.specs.Prelude.{◌≤◌};
ghost use Rattle.stk_hits.specs.InputMaps.{bits_in};

use std::alloc::Global;
use std::test::Fail;
use stk_base::NoMemory;
use stk_hits::{HitTable, map_of, total_bits};
use stk_judge::finding_of;
use stk_meaning::{Entry, Finding, Need};
use stk_numbers::{CandKind, Candidate, Condition, IntKind, UbKind};

/// An entry of the runs of a function of one key, and the numbers of the key from which a run makes it, from the first
/// up to the last.
type Step = (Entry, i128, i128);

/// The entries of a function's runs in order, the map number without a run, a candidate, and what is found for it:
/// nothing, or the start that hits it and the members of the set, each with its start.
struct Case {
    steps: &'static [Step],
    invalid: u32,
    candidate: Candidate,
    found: Option<(i128, &'static [(Condition, i128)])>,
}

const OVERFLOW: Condition = Condition {
    node: 1,
    kind: UbKind::Overflow,
};

const NULL: Condition = Condition {
    node: 3,
    kind: UbKind::Null,
};

const ARM: Candidate = Candidate {
    node: 5,
    kind: CandKind::Arm,
};

const TRUE: Candidate = Candidate {
    node: 4,
    kind: CandKind::AlwaysTrue,
};

const SAME: Candidate = Candidate {
    node: 4,
    kind: CandKind::Algebra,
};

static UNSIGNED: [Case; 8] = [
    // each run that enters overflows before
    Case {
        steps: &[(Entry::Ub(OVERFLOW), 156, 255), (Entry::Enter(5), 156, 255)],
        invalid: 256,
        candidate: ARM,
        found: Some((156, &[(OVERFLOW, 156)])),
    },
    // one enters without it
    Case {
        steps: &[(Entry::Ub(OVERFLOW), 156, 255), (Entry::Enter(5), 155, 255)],
        invalid: 256,
        candidate: ARM,
        found: None,
    },
    // none enters
    Case {
        steps: &[(Entry::Ub(OVERFLOW), 0, 255), (Entry::Enter(6), 0, 255)],
        invalid: 256,
        candidate: ARM,
        found: None,
    },
    // the condition is violated behind the branch alone
    Case {
        steps: &[(Entry::Enter(5), 0, 255), (Entry::Ub(OVERFLOW), 0, 255)],
        invalid: 256,
        candidate: ARM,
        found: None,
    },
    // the second condition is violated where the first one is
    Case {
        steps: &[
            (Entry::Ub(OVERFLOW), 0, 9),
            (Entry::Ub(NULL), 0, 4),
            (Entry::Enter(5), 0, 9),
        ],
        invalid: 256,
        candidate: ARM,
        found: Some((0, &[(OVERFLOW, 0)])),
    },
    // each of both conditions is needed; one map has no run
    Case {
        steps: &[
            (Entry::Ub(OVERFLOW), 3, 5),
            (Entry::Ub(NULL), 6, 7),
            (Entry::Enter(5), 3, 7),
        ],
        invalid: 3,
        candidate: ARM,
        found: Some((4, &[(OVERFLOW, 4), (NULL, 6)])),
    },
    // a test that is false only behind an overflow
    Case {
        steps: &[
            (Entry::Ub(OVERFLOW), 200, 255),
            (Entry::Seen(4, true, None), 0, 199),
            (Entry::Seen(4, false, None), 200, 255),
        ],
        invalid: 256,
        candidate: TRUE,
        found: Some((200, &[(OVERFLOW, 200)])),
    },
    // a comparison that differs from its replacement only behind an overflow
    Case {
        steps: &[
            (Entry::Ub(OVERFLOW), 128, 255),
            (Entry::Seen(4, true, Some(true)), 0, 127),
            (Entry::Seen(4, false, Some(true)), 128, 255),
        ],
        invalid: 256,
        candidate: SAME,
        found: Some((128, &[(OVERFLOW, 128)])),
    },
];

/// Numbers with a sign come in the order of their bits: 0 to 127, and then -128 to -1.
static SIGNED: [Case; 1] = [Case {
    steps: &[(Entry::Ub(OVERFLOW), -128, -1), (Entry::Enter(5), -128, -1)],
    invalid: 256,
    candidate: ARM,
    found: Some((-128, &[(OVERFLOW, -128)])),
}];

/// The run of a function from a number of its key.
fn run_of(alloc: Global, steps: &[Step], key: i128) -> Result<Vec<Entry>, NoMemory> {
    let mut trace = Vec::new(alloc);
    for (entry, first, last) in steps {
        if *first <= key && key <= *last {
            trace.push(*entry)?;
        }
    }
    Ok(trace)
}

/// What all maps hit.
fn table_of(alloc: Global, kinds: &[IntKind], case: &Case) -> Result<HitTable, NoMemory>
    requires { bits_in kinds.now ≤ 16 }
{
    let mut table = HitTable::new(alloc);
    for number in 0..1 << total_bits(kinds) {
        let map = map_of(alloc, kinds, number)?;
        let key = map.numbers.as_slice().first().copied().unwrap_or(0);
        let trace = run_of(alloc, case.steps, key)?;
        if number != case.invalid {
            table.record(number, trace.as_slice())?;
        }
    }
    Ok(table)
}

/// Whether these are the members of a set, with their starts.
fn are_needs(needs: &[Need], wanted: &[(Condition, i128)]) -> bool {
    needs.len() == wanted.len()
        && needs.iter().zip(wanted).all(|(need, (condition, start))| {
            need.condition == *condition
                && need
                    .shown
                    .as_ref()
                    .is_some_and(|shown| shown.numbers.as_slice() == [*start].as_slice())
        })
}

/// Whether this is what is found.
fn is_found(finding: &Finding, wanted: Option<(i128, &[(Condition, i128)])>) -> bool {
    match (finding, wanted) {
        (Finding::Clear, None) => true,
        (Finding::Unstable { start, needs }, Some((first, set))) => {
            start.numbers.as_slice() == [first].as_slice() && are_needs(needs.as_slice(), set)
        }
        _ => false,
    }
}

fn judged(alloc: Global, kinds: &[IntKind], case: &Case) -> Result<Finding, NoMemory>
    requires { bits_in kinds.now ≤ 16 }
{
    let table = table_of(alloc, kinds, case)?;
    finding_of(alloc, &table, kinds, case.candidate, &[OVERFLOW, NULL])
}

#[test]
fn findings_are_read_off_the_table(rt: HostRuntime) -> Result<(), Fail> {
    for case in &UNSIGNED {
        let finding = judged(rt.alloc(), &[IntKind::UChar], case)?;
        assert!(rt; is_found(&finding, case.found));
    }
    for case in &SIGNED {
        let finding = judged(rt.alloc(), &[IntKind::SChar], case)?;
        assert!(rt; is_found(&finding, case.found));
    }
    Ok(())
}

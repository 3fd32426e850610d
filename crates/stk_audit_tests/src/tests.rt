// A bundle of two claims whose input maps were all tried, and what is answered where one of its lines is changed;
// claims with clauses and derivations.
use crate::small::Small;
use std::alloc::Global;
use std::test::Fail;
use stk_audit::audit_of;
use stk_audit_rules::{Audit, Why};
use stk_base::NoMemory;

/// The lines of the bundle.
static LINES: [&[u8]; 13] = [
    b"stack bundle 1\n",
    b"source 74\n",
    b"without -\n",
    b"function 0\n",
    b"unstable 12 3\n",
    b"hit 0\n",
    b"need 8 2 0\n",
    b"tried\n",
    b"unstable 14 1\n",
    b"hit 0\n",
    b"need 8 2 0\n",
    b"tried\n",
    b"end\n",
];

/// Another line in place of each.
static OTHERS: [&[u8]; 13] = [
    b"stack bundle 2\n",
    b"source 75\n",
    b"without zero,zero\n",
    b"function 1\n",
    b"unstable 12 2\n",
    b"hit 1\n",
    b"need 8 2 1\n",
    b"try\n",
    b"unstable 14 2\n",
    b"hit 0 0\n",
    b"need 8 1 0\n",
    b"tried \n",
    b"ends\n",
];

/// The line that is named where each line is changed, and the number of the reason.
static CHANGED: [(u32, u8); 13] = [
    (1, 1),
    (2, 2),
    (3, 1),
    (4, 2),
    (5, 2),
    (6, 3),
    (7, 3),
    (8, 1),
    (9, 2),
    (10, 3),
    (11, 2),
    (12, 1),
    (13, 1),
];

/// Where each is left out.
static LEFT_OUT: [(u32, u8); 13] = [
    (1, 1),
    (2, 1),
    (3, 1),
    (4, 1),
    (5, 1),
    (6, 1),
    (7, 4),
    (8, 1),
    (9, 1),
    (10, 1),
    (11, 4),
    (12, 1),
    (13, 1),
];

/// Where each stands twice.
static DOUBLED: [(u32, u8); 13] = [
    (2, 1),
    (3, 1),
    (4, 1),
    (5, 1),
    (6, 1),
    (7, 1),
    (8, 2),
    (9, 1),
    (10, 1),
    (11, 1),
    (12, 2),
    (13, 1),
    (14, 1),
];

/// Where each but the last is exchanged with the next.
static EXCHANGED: [(u32, u8); 12] = [
    (1, 1),
    (2, 1),
    (3, 1),
    (4, 1),
    (5, 1),
    (6, 1),
    (7, 4),
    (8, 1),
    (9, 1),
    (10, 1),
    (11, 4),
    (12, 1),
];

/// A whole bundle with the line that is named and the number of the reason, 0 and 0 where each line holds.
struct Case {
    text: &'static [u8],
    line: u32,
    why: u8,
}

static CASES: [Case; 12] = [
    // clauses and a derivation
    Case {
        text: b"stack bundle 1\nsource 74\nwithout -\nfunction 0\nunstable 12 3\nhit 0\nneed 8 2 0\ncnf 2\np cnf 0 1\n0\nlrat 1\n2 0 1 0\nend\n",
        line: 0,
        why: 0,
    },
    // a hint that names the step itself; no step; other ids
    Case {
        text: b"stack bundle 1\nsource 74\nwithout -\nfunction 0\nunstable 12 3\nhit 0\nneed 8 2 0\ncnf 2\np cnf 0 1\n0\nlrat 1\n2 0 2 0\nend\n",
        line: 11,
        why: 6,
    },
    Case {
        text: b"stack bundle 1\nsource 74\nwithout -\nfunction 0\nunstable 12 3\nhit 0\nneed 8 2 0\ncnf 2\np cnf 0 1\n0\nlrat 0\nend\n",
        line: 11,
        why: 6,
    },
    Case {
        text: b"stack bundle 1\nsource 74\nwithout -\nfunction 0\nunstable 12 3\nhit 0\nneed 8 2 0\ncnf 2\np cnf 0 1\n0\nlrat 1\n3 0 1 0\nend\n",
        line: 11,
        why: 1,
    },
    // a clause too few, and said so; a clause that is missing
    Case {
        text: b"stack bundle 1\nsource 74\nwithout -\nfunction 0\nunstable 12 3\nhit 0\nneed 8 2 0\ncnf 1\np cnf 0 0\nlrat 1\n1 0 1 0\nend\n",
        line: 8,
        why: 5,
    },
    Case {
        text: b"stack bundle 1\nsource 74\nwithout -\nfunction 0\nunstable 12 3\nhit 0\nneed 8 2 0\ncnf 1\np cnf 0 1\nlrat 1\n2 0 1 0\nend\n",
        line: 8,
        why: 1,
    },
    // blocks that aren't all there: the line behind the last one, but for a start that fails
    Case {
        text: b"stack bundle 1\nsource 74\nwithout -\nfunction 0\nunstable 12 3\nhit 0\nneed 8 2 0\ncnf 9\np cnf 0 1\n0\n",
        line: 11,
        why: 1,
    },
    Case {
        text: b"stack bundle 1\nsource 74\nwithout -\nfunction 0\nunstable 12 3\nhit 0\nneed 8 2 1\ncnf 9\np cnf 0 1\n0\n",
        line: 7,
        why: 3,
    },
    Case {
        text: b"stack bundle 1\nsource 74\nwithout -\nfunction 0\nunstable 12 3\nhit 0\nneed 8 2 0\ncnf 2\np cnf 0 1\n0\nlrat 5\n2 0 1 0\nend\n",
        line: 14,
        why: 1,
    },
    // a condition that is open, and a candidate without a claim
    Case {
        text: b"stack bundle 1\nsource 74\nwithout -\nfunction 0\nunstable 12 3\nhit 0\nopen 8 2\ntried\nleft 14 1\nend\n",
        line: 0,
        why: 0,
    },
    // no set
    Case {
        text: b"stack bundle 1\nsource 74\nwithout -\nfunction 0\nunstable 12 3\nhit 0\ntried\nend\n",
        line: 7,
        why: 4,
    },
    // a line behind `end`
    Case {
        text: b"stack bundle 1\nsource 74\nwithout -\nfunction 0\nunstable 12 3\nhit 0\nneed 8 2 0\ntried\nend\nend\n",
        line: 10,
        why: 1,
    },
];

/// The number of a reason.
fn number_of(why: &Why) -> u8 {
    match why {
        Why::Form => 1,
        Why::Name => 2,
        Why::Start => 3,
        Why::Tried => 4,
        Why::Formula(_) => 5,
        Why::Derivation => 6,
    }
}

/// The line that the audit of a text names and the number of the reason; 0 and 0 for a yes.
fn answer_to(alloc: Global, text: &[u8]) -> Result<(u32, u8), NoMemory> {
    if text.len() > 1000 {
        return Err(NoMemory);
    }
    let mut small = Small::new(alloc);
    match audit_of(alloc, &mut small, text)? {
        Audit::Yes(_) => Ok((0, 0)),
        Audit::No { line, why } => Ok((line, number_of(&why))),
    }
}

/// The line to stand at a place: the one there, or another one.
fn line_at(place: usize) -> &'static [u8] {
    if place < 13 { LINES[place] } else { b"" }
}

/// The text of the lines at these places.
fn text_of(alloc: Global, places: &[usize]) -> Result<Vec<u8>, NoMemory> {
    let mut text = Vec::new(alloc);
    for place in places {
        text.extend_from_slice(line_at(*place))?;
    }
    Ok(text)
}

/// The places of all lines, with these two at a place and the one behind it; 13 is no line.
fn places_with(place: usize, first: usize, second: usize) -> [usize; 14] {
    let mut places = [0, 1, 2, 3, 4, 5, 6, 7, 8, 9, 10, 11, 12, 13];
    if place < 13 {
        places[place] = first;
        places[place + 1] = second;
    }
    places
}

/// Whether the text of the lines at these places is answered so.
fn is_answered(alloc: Global, places: &[usize], answer: (u32, u8)) -> Result<bool, NoMemory> {
    let text = text_of(alloc, places)?;
    Ok(answer_to(alloc, &text)? == answer)
}

/// Whether the bundle with another line at a place is answered so.
fn is_changed(alloc: Global, place: usize) -> Result<bool, NoMemory> {
    if place >= 13 {
        return Ok(false);
    }
    let mut text = Vec::new(alloc);
    for other in 0..13usize {
        if other == place {
            text.extend_from_slice(OTHERS[place])?;
        } else {
            text.extend_from_slice(line_at(other))?;
        }
    }
    Ok(answer_to(alloc, &text)? == CHANGED[place])
}

/// The places of the lines behind one, one place later each.
fn doubled_places(place: usize) -> [usize; 14] {
    let mut places = [0, 1, 2, 3, 4, 5, 6, 7, 8, 9, 10, 11, 12, 12];
    for at in 0..14usize {
        if at > place {
            places[at] = at - 1;
        }
    }
    places
}

#[test]
fn a_bundle_holds(rt: HostRuntime) -> Result<(), Fail> {
    let places = places_with(13, 13, 13);
    assert!(rt; is_answered(rt.alloc(), &places, (0, 0)) == Ok(true));
    Ok(())
}

#[test]
fn changed_lines_fail(rt: HostRuntime) -> Result<(), Fail> {
    for place in 0..13usize {
        assert!(rt; is_changed(rt.alloc(), place) == Ok(true));
    }
    Ok(())
}

#[test]
fn lines_left_out_fail(rt: HostRuntime) -> Result<(), Fail> {
    for place in 0..13usize {
        let mut places = places_with(13, 13, 13);
        places[place] = 13;
        assert!(rt; is_answered(rt.alloc(), &places, LEFT_OUT[place]) == Ok(true));
    }
    Ok(())
}

#[test]
fn doubled_lines_fail(rt: HostRuntime) -> Result<(), Fail> {
    for place in 0..13usize {
        let places = doubled_places(place);
        assert!(rt; is_answered(rt.alloc(), &places, DOUBLED[place]) == Ok(true));
    }
    Ok(())
}

#[test]
fn exchanged_lines_fail(rt: HostRuntime) -> Result<(), Fail> {
    for place in 0..12usize {
        let places = places_with(place, place + 1, place);
        assert!(rt; is_answered(rt.alloc(), &places, EXCHANGED[place]) == Ok(true));
    }
    Ok(())
}

#[test]
fn blocks_are_audited(rt: HostRuntime) -> Result<(), Fail> {
    for case in &CASES {
        assert!(rt; answer_to(rt.alloc(), case.text) == Ok((case.line, case.why)));
    }
    Ok(())
}

// Texts, and the goals that they are read as.
use crate::goal_scripts::WRAPPED_SCRIPT;
use std::alloc::Global;
use std::test::Fail;
use stk_base::List;
use stk_script_reader::read_script;
use stk_script_trees::Fault;
use stk_terms::{Residues, TermId, Terms};

/// What a text is read as: the first residue of its one input, of at most 8 bits, for which its goal is 1, and for how
/// many it is; none where there is none; or nothing where the text is no script.
#[derive(Clone, Copy, Debug, PartialEq, Eq)]
enum Wanted {
    Ones(u64, usize),
    Never,
    Bad,
}

/// A text, and what it is read as.
struct Case {
    text: &'static [u8],
    wanted: Wanted,
}

static CASES: [Case; 8] = [
    // a sum with 200 wraps from 56 on
    Case {
        text: b"(set-logic QF_BV)(declare-fun k0 () (_ BitVec 8))(define-fun t () (_ BitVec 8) (bvadd k0 (_ bv200 8)))(assert (bvult t k0))(check-sat)",
        wanted: Wanted::Ones(56, 200),
    },
    // any blanks, a comment, and no logic; a quotient by 0 is all ones
    Case {
        text: b"; c\n( declare-fun x()(_ BitVec 4))\t(assert(=(bvudiv (_ bv5 4) x) (_ bv15 4)))(check-sat) ;",
        wanted: Wanted::Ones(0, 1),
    },
    Case {
        text: b"(declare-fun x () (_ BitVec 4))(assert (bvslt x x))(check-sat)",
        wanted: Wanted::Never,
    },
    // as z3 writes a goal, with literals of its own or with plain ones
    Case {
        text: b"(declare-fun k0 () (_ BitVec 8))\n(assert (= (bvudiv #x10 k0) (bvurem k0 #x03)))\n(check-sat)\n",
        wanted: Wanted::Bad,
    },
    Case {
        text: b"(declare-fun k0 () (_ BitVec 8))\n(assert (= (bvudiv (_ bv16 8) k0) (bvurem k0 (_ bv3 8))))\n(check-sat)\n",
        wanted: Wanted::Ones(8, 84),
    },
    // no name, a name twice, widths that don't fit
    Case {
        text: b"(declare-fun x () (_ BitVec 4))(assert (= x y))(check-sat)",
        wanted: Wanted::Bad,
    },
    Case {
        text: b"(declare-fun x () (_ BitVec 4))(declare-fun x () (_ BitVec 4))(assert (= x x))(check-sat)",
        wanted: Wanted::Bad,
    },
    Case {
        text: b"(declare-fun x () (_ BitVec 4))(assert (= x (_ bv16 4)))(check-sat)",
        wanted: Wanted::Bad,
    },
];

/// The residues of the one input, of at most 8 bits, for which a goal is 1.
fn answers(alloc: Global, terms: &Terms, goal: TermId) -> Result<Vec<u64>, Fail> {
    let mut found = Vec::new(alloc);
    for residue in 0..256 {
        let mut numbers = Vec::new(alloc);
        numbers.push(residue)?;
        let residues = Residues {
            numbers: List::from_vec(numbers),
        };
        if goal.0 < terms.count() && terms.has_residues(&residues) {
            let value = terms.value(goal, &residues)?;
            if value == 1 {
                found.push(residue)?;
            }
        }
    }
    Ok(found)
}

/// Whether a text is read as is wanted.
fn is_read(alloc: Global, text: &[u8], wanted: Wanted) -> Result<bool, Fail> {
    if text.len() > u32::MAX as usize {
        return Ok(false);
    }
    match read_script(alloc, text) {
        Err(Fault::Bad) => Ok(wanted == Wanted::Bad),
        Err(Fault::NoMemory) => Ok(false),
        Ok((terms, goal)) => {
            let found = answers(alloc, &terms, goal)?;
            Ok(match wanted {
                Wanted::Ones(first, count) => {
                    found.first().copied() == Some(first) && found.len() == count
                }
                Wanted::Never => found.len() == 0,
                Wanted::Bad => false,
            })
        }
    }
}

#[test]
fn texts_are_read_as_their_goals(rt: HostRuntime) -> Result<(), Fail> {
    for case in &CASES {
        assert!(rt; is_read(rt.alloc(), case.text, case.wanted)?);
    }
    Ok(())
}

/// Places of a script, bytes that may stand there in place of the script's own, and what it is read as then.
struct Kept {
    places: &'static [usize],
    bytes: &'static [u8],
    wanted: Wanted,
}

// Of all changes of one byte to `s`, `1`, `(` or a blank, in the script of whether a sum with 200 is below its part,
// with a comment behind it: those that leave a script. All others break a word, leave a name without a term or give a
// name two, give a term another width, or leave a parenthesis open. The sum of x and n, modulo 256, is below x where it
// wraps: from 256 - n on.
static KEPT: [Kept; 12] = [
    // a blank in place of a newline
    Kept {
        places: &[17, 50, 85, 129, 175, 247, 273, 285],
        bytes: b" ",
        wanted: Wanted::Ones(56, 200),
    },
    // bv100, bv210, bv201 and bv20 in place of bv200
    Kept {
        places: &[122],
        bytes: b"1",
        wanted: Wanted::Ones(156, 100),
    },
    Kept {
        places: &[123],
        bytes: b"1",
        wanted: Wanted::Ones(46, 210),
    },
    Kept {
        places: &[124],
        bytes: b"1",
        wanted: Wanted::Ones(55, 201),
    },
    Kept {
        places: &[124],
        bytes: b" ",
        wanted: Wanted::Ones(236, 20),
    },
    // (bvadd t1 t1), which is 144
    Kept {
        places: &[169],
        bytes: b"1",
        wanted: Wanted::Ones(145, 111),
    },
    // bvslt: the sum is x less 56 in two's complement, which wraps for the 56 numbers from -128 to -73
    Kept {
        places: &[215],
        bytes: b"s",
        wanted: Wanted::Ones(0, 200),
    },
    // (bvult t1 t0), which is 200 < x
    Kept {
        places: &[220],
        bytes: b"1",
        wanted: Wanted::Ones(201, 55),
    },
    // (bvult t2 t1): the sum is below 200 where it wraps
    Kept {
        places: &[223],
        bytes: b"1",
        wanted: Wanted::Ones(56, 200),
    },
    // (_ bv1 1) for both choices
    Kept {
        places: &[241],
        bytes: b"1",
        wanted: Wanted::Ones(0, 256),
    },
    // the bytes of the comment
    Kept {
        places: &[287],
        bytes: b"s1(",
        wanted: Wanted::Ones(56, 200),
    },
    Kept {
        places: &[288],
        bytes: b"s1( ",
        wanted: Wanted::Ones(56, 200),
    },
];

/// What the script is read as where the byte at a place becomes another one.
fn wanted_at(place: usize, byte: u8) -> Wanted {
    for kept in &KEPT {
        if kept.places.contains(&place) && kept.bytes.contains(&byte) {
            return kept.wanted;
        }
    }
    Wanted::Bad
}

/// Whether the script is read as is wanted where the byte at a place becomes a letter, a digit, a parenthesis or a
/// blank.
fn reads_changed(alloc: Global, script: &[u8], place: usize) -> Result<bool, Fail> {
    for byte in [b's', b'1', b'(', b' '] {
        let mut text = Vec::from_slice(alloc, script)?;
        if place < text.len() && text[place] != byte {
            text[place] = byte;
            if !is_read(alloc, text.as_slice(), wanted_at(place, byte))? {
                return Ok(false);
            }
        }
    }
    Ok(true)
}

#[test]
fn a_script_with_one_byte_changed_is_read_as_it_stands(rt: HostRuntime) -> Result<(), Fail> {
    let mut script = Vec::from_slice(rt.alloc(), WRAPPED_SCRIPT.as_bytes())?;
    assert!(rt; is_read(rt.alloc(), script.as_slice(), Wanted::Ones(56, 200))?);
    script.extend_from_slice(b"; c")?;
    for place in 0..script.len() {
        assert!(rt;
            reads_changed(rt.alloc(), script.as_slice(), place)?,
            "{place}"
        );
    }
    Ok(())
}

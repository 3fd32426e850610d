//! Goals over walks that are written by hand.
ghost use Rattle.std.specs.Prelude.{IfOk};
ghost use Rattle.stk_ctype.specs.declared.kind.IntKind.TheVariants.{Bool, Int, UChar};
ghost use Rattle.stk_values.specs.Walks.{EachTest};
ghost use Rattle.stk_values.specs.Keeping.{Keeps};
ghost use Rattle.stk_symbols.specs.Symbolic.{Serves, HasKey, IsMade, Shows};

use std::alloc::Global;
use std::process::Abort;
use std::test::Fail;
use stk_base::{List, NoMemory};
use stk_numbers::{ArithOp, CompareOp, Condition, IntKind, UbKind};
use stk_symbols::{IndexedWalk, Symbols};
use stk_terms::{Residues, TermId};
use stk_values::{Step, Values, Walked};

static ZERO: Condition = Condition {
    node: 4,
    kind: UbKind::Zero,
};

static OVERFLOW: Condition = Condition {
    node: 4,
    kind: UbKind::Overflow,
};

static SHIFT: Condition = Condition {
    node: 4,
    kind: UbKind::Shift,
};

// Whether a term is 1 for residues of the inputs.
fn is_one(
    rt: &impl Abort,
    values: &Symbols,
    id: TermId,
    residues: Residues,
) -> Result<bool, NoMemory> {
    assert!(rt; id.0 < values.terms().count());
    assert!(rt; values.terms().has_residues(&residues));
    Ok(values.terms().value(id, &residues)? == 1)
}

// What a walk says of `int f(unsigned char x) { int y = 10 / x; if (x == 0) return 1; return y; }`: the overflow and
// the zero divisor of the division, then the test as always true and as always false, and the branch.
fn division(alloc: Global, values: &mut Symbols) -> Result<Walked<TermId>, NoMemory>
    requires { HasKey values.old 0 UChar }
    ensures valid { IfOk result (λ w. IsMade values.new Int w.valid) }
    ensures steps { IfOk result (λ w. EachTest (IsMade values.new Int) w.steps) }
{
    let x = values.input(0, IntKind::UChar)?;
    let number = values.convert(IntKind::UChar, IntKind::Int, x)?;
    let ten = values.constant(IntKind::Int, 10)?;
    let zero = values.constant(IntKind::Int, 0)?;
    let valid = values.constant(IntKind::Int, 1)?;
    let leaves = values.breaks(UbKind::Overflow, ArithOp::Div, IntKind::Int, ten, number)?;
    let divides = values.breaks(UbKind::Zero, ArithOp::Div, IntKind::Int, ten, number)?;
    let truth = values.compare(CompareOp::Eq, IntKind::Int, number, zero)?;
    let lie = values.opposite(truth)?;
    Ok(Walked {
        valid,
        steps: List::from_vec(vec![in alloc;
            Step::Broken(OVERFLOW, leaves),
            Step::Broken(ZERO, divides),
            Step::Hit(0, lie),
            Step::Hit(1, truth),
            Step::Hit(2, truth),
        ]?),
    })
}

// The bit of a key as an int.
fn bit(values: &mut Symbols, key: u32) -> Result<TermId, NoMemory>
    requires { HasKey values.old key Bool }
    ensures made { IfOk result (λ v. IsMade values.new Int v) }
    ensures keeps { Keeps Serves HasKey IsMade Shows values.old values.new }
{
    let x = values.input(key, IntKind::Bool)?;
    let v = values.convert(IntKind::Bool, IntKind::Int, x)?;
    Ok(v)
}

// The conditions of the walks that are in a set.
fn set_of(
    alloc: Global,
    overflow: bool,
    zero: bool,
    shift: bool,
) -> Result<Vec<Condition>, NoMemory> {
    let mut set = Vec::new(alloc);
    if overflow {
        set.push(OVERFLOW)?;
    }
    if zero {
        set.push(ZERO)?;
    }
    if shift {
        set.push(SHIFT)?;
    }
    Ok(set)
}

// What a walk says whose tests are the bits of six keys.
fn bits(alloc: Global, values: &mut Symbols) -> Result<Walked<TermId>, NoMemory>
    requires first { HasKey values.old 0 Bool }
    requires second { HasKey values.old 1 Bool }
    requires third { HasKey values.old 2 Bool }
    requires fourth { HasKey values.old 3 Bool }
    requires fifth { HasKey values.old 4 Bool }
    requires sixth { HasKey values.old 5 Bool }
    ensures valid { IfOk result (λ w. IsMade values.new Int w.valid) }
    ensures steps { IfOk result (λ w. EachTest (IsMade values.new Int) w.steps) }
{
    let valid = bit(values, 0)?;
    let overflow = bit(values, 1)?;
    let hit = bit(values, 2)?;
    let zero = bit(values, 3)?;
    let again = bit(values, 4)?;
    let shift = bit(values, 5)?;
    Ok(Walked {
        valid,
        steps: List::from_vec(vec![in alloc;
            Step::Broken(OVERFLOW, overflow),
            Step::Hit(0, hit),
            Step::Broken(ZERO, zero),
            Step::Hit(0, again),
            Step::Broken(SHIFT, shift),
        ]?),
    })
}

// The goal of a candidate over the division.
fn goal_of_division(
    alloc: Global,
    values: &mut Symbols,
    candidate: u32,
    set: &[Condition],
) -> Result<TermId, NoMemory>
    requires { HasKey values.old 0 UChar }
{
    let walked = division(alloc, values)?;
    let walk = IndexedWalk::new(alloc, walked)?;
    values.goal(&walk, candidate, set)
}

// The goal of a candidate over the bits.
fn goal_of_bits(
    alloc: Global,
    values: &mut Symbols,
    candidate: u32,
    set: &[Condition],
) -> Result<TermId, NoMemory>
    requires first { HasKey values.old 0 Bool }
    requires second { HasKey values.old 1 Bool }
    requires third { HasKey values.old 2 Bool }
    requires fourth { HasKey values.old 3 Bool }
    requires fifth { HasKey values.old 4 Bool }
    requires sixth { HasKey values.old 5 Bool }
{
    let walked = bits(alloc, values)?;
    let walk = IndexedWalk::new(alloc, walked)?;
    values.goal(&walk, candidate, set)
}

// Candidates over the division and sets of its conditions, with the divisors from one up to another for which the goal
// is 1.
static DIVISORS: [(u32, bool, bool, bool, u64, u64); 12] = [
    (0, false, false, false, 1, 256),
    (0, true, true, false, 1, 256),
    (1, false, false, false, 0, 1),
    (1, false, true, false, 0, 0),
    (2, false, false, false, 0, 1),
    (2, true, false, false, 0, 1),
    (2, false, true, false, 0, 0),
    (2, true, true, false, 0, 0),
    (2, false, false, true, 0, 1),
    (2, true, true, true, 0, 0),
    (3, false, false, false, 0, 0),
    (3, true, true, true, 0, 0),
];

// Whether a term over the divisor is 1 exactly from one divisor up to another.
fn is_one_for(
    rt: &impl Abort,
    alloc: Global,
    values: &Symbols,
    goal: TermId,
    (least, end): (u64, u64),
) -> Result<bool, NoMemory> {
    for x in 0..256 {
        let residues = Residues {
            numbers: List::from_vec(vec![in alloc; x]?),
        };
        if is_one(rt, values, goal, residues)? != (least <= x && x < end) {
            return Ok(false);
        }
    }
    Ok(true)
}

// Whether a goal over the division is 1 exactly for the divisors from one up to another.
fn holds_for(
    rt: &impl Abort,
    alloc: Global,
    (candidate, overflow, zero, shift): (u32, bool, bool, bool),
    range: (u64, u64),
) -> Result<bool, NoMemory> {
    let set = set_of(alloc, overflow, zero, shift)?;
    let mut values = Symbols::new(alloc, &[IntKind::UChar])?;
    let goal = goal_of_division(alloc, &mut values, candidate, set.as_slice())?;
    is_one_for(rt, alloc, &values, goal, range)
}

#[test]
fn a_zero_divisor_stands_before_the_branch(rt: HostRuntime) -> Result<(), Fail> {
    for (candidate, overflow, zero, shift, least, end) in &DIVISORS {
        assert!(rt;
            holds_for(
                &rt,
                rt.alloc(),
                (*candidate, *overflow, *zero, *shift),
                (*least, *end)
            )?
        );
    }
    Ok(())
}

// The bits of a number as the residues of six keys.
fn six_bits(alloc: Global, x: u64) -> Result<Residues, NoMemory> {
    let bit = |k: u64| x >> k & 1;
    Ok(Residues {
        numbers: List::from_vec(vec![in alloc; bit(0), bit(1), bit(2), bit(3), bit(4), bit(5)]?),
    })
}

// Whether the bits of a number say that the map is valid, and the candidate is hit at its first or its second step with
// no member of the set violated before it.
fn is_hit(x: u64, overflow: bool, zero: bool) -> bool {
    let bit = |k: u64| x >> k & 1;
    let clear = !(overflow && bit(1) == 1);
    let first = bit(2) == 1 && clear;
    let second = bit(4) == 1 && clear && !(zero && bit(3) == 1);
    bit(0) == 1 && (first || second)
}

// Whether a term over the bits is 1 exactly where these say that the candidate is hit.
fn is_one_for_hits(
    rt: &impl Abort,
    alloc: Global,
    values: &Symbols,
    goal: TermId,
    (overflow, zero): (bool, bool),
) -> Result<bool, NoMemory> {
    for x in 0..64u64 {
        let residues = six_bits(alloc, x)?;
        if is_one(rt, values, goal, residues)? != is_hit(x, overflow, zero) {
            return Ok(false);
        }
    }
    Ok(true)
}

// Whether a goal over the bits is 1 exactly where these say that the candidate is hit.
fn holds_for_all_bits(
    rt: &impl Abort,
    alloc: Global,
    overflow: bool,
    zero: bool,
    shift: bool,
) -> Result<bool, NoMemory> {
    let set = set_of(alloc, overflow, zero, shift)?;
    let mut values = Symbols::new(alloc, &[IntKind::Bool; 6])?;
    let goal = goal_of_bits(alloc, &mut values, 0, set.as_slice())?;
    is_one_for_hits(rt, alloc, &values, goal, (overflow, zero))
}

#[test]
fn violations_behind_a_hit_do_not_count(rt: HostRuntime) -> Result<(), Fail> {
    for overflow in [false, true] {
        for zero in [false, true] {
            for shift in [false, true] {
                assert!(rt; holds_for_all_bits(&rt, rt.alloc(), overflow, zero, shift)?);
            }
        }
    }
    Ok(())
}

//! Each call of the stores of values, over numbers, over terms of keys and over terms of constants.
ghost use Rattle.std.specs.Prelude.{◌≡◌};
ghost use Rattle.stk_ctype.specs.declared.kind.IntKind.TheVariants.{Int, ULong};

use crate::call_rows::{
    COMPARISONS, CONVERSIONS, DISTANCES, INDICES, LESSER, MOVES, RESULTS, SHIFTS, TESTS,
};
use crate::conditions::CONDITIONS;
use std::alloc::Global;
use std::process::Abort;
use std::test::Fail;
use stk_base::{List, NoMemory};
use stk_numbers::{ArithOp, CompareOp, Inputs, IntKind, ShiftOp, UbKind, fits, width};
use stk_symbols::Symbols;
use stk_terms::{Residues, TermId};
use stk_values::{Numbers, Values};

// A step of addresses: the size of what it steps over, and whether it goes back.
#[derive(Clone, Copy, Debug)]
struct Stride {
    size: u64,
    minus: bool,
}

// A call of a store over two values.
#[derive(Clone, Copy, Debug)]
enum Call {
    Arith(ArithOp),
    Breaks(UbKind, ArithOp),
    Compare(CompareOp),
    Lesser,
    Both,
    Opposite,
    Shift(ShiftOp),
    BreaksShift,
    Moved(Stride),
    BreaksMove(Stride),
    Distance(u64),
    // of the first value alone, to the kind of the second
    Convert,
    // of the first value alone
    BreaksBounds(u64),
}

// A number of a kind.
#[derive(Clone, Copy, Debug)]
struct Typed {
    kind: IntKind,
    number: i128,
}

// The lesser one of two values.
fn lesser<V: Values>(
    values: &mut V,
    kind: IntKind,
    x: V::Value,
    y: V::Value,
) -> Result<V::Value, NoMemory>
    requires first { V.made values.old kind x }
    requires second { V.made values.old kind y }
{
    let test = values.compare(CompareOp::Lt, kind, x, y)?;
    values.choose(test, kind, x, y)
}

// A call over two values of one kind; none of the others.
fn of_one_kind<V: Values>(
    values: &mut V,
    call: Call,
    kind: IntKind,
    x: V::Value,
    y: V::Value,
) -> Result<Option<V::Value>, NoMemory>
    requires first { V.made values.old kind x }
    requires second { V.made values.old kind y }
{
    let value = match call {
        Call::Arith(op) => values.arith(op, kind, x, y)?,
        Call::Breaks(what, op) => values.breaks(what, op, kind, x, y)?,
        Call::Compare(op) => values.compare(op, kind, x, y)?,
        Call::Lesser => lesser(values, kind, x, y)?,
        _ => return Ok(None),
    };
    Ok(Some(value))
}

// A call over two tests; none of the others.
fn of_tests<V: Values>(
    values: &mut V,
    call: Call,
    x: V::Value,
    y: V::Value,
) -> Result<Option<V::Value>, NoMemory>
    requires first { V.made values.old Int x }
    requires second { V.made values.old Int y }
{
    let value = match call {
        Call::Both => values.both(x, y)?,
        Call::Opposite => values.opposite(x)?,
        _ => return Ok(None),
    };
    Ok(Some(value))
}

// A call over an address and a step, or over two addresses; none of the others.
fn of_addresses<V: Values>(
    values: &mut V,
    call: Call,
    x: V::Value,
    kind: IntKind,
    y: V::Value,
) -> Result<Option<V::Value>, NoMemory>
    requires first { V.made values.old ULong x }
    requires second { V.made values.old kind y }
{
    let value = match call {
        Call::Moved(s) if 1 <= s.size && s.size < 1 << 31 => {
            values.moved(x, kind, y, s.size, s.minus)?
        }
        Call::BreaksMove(s) if 1 <= s.size && s.size < 1 << 31 => {
            values.breaks_move(x, kind, y, s.size, s.minus)?
        }
        Call::Distance(size) if 1 <= size && size < 1 << 31 && kind == IntKind::ULong => {
            values.distance(x, y, size)?
        }
        _ => return Ok(None),
    };
    Ok(Some(value))
}

// A call over two values of any kinds; none of the others.
fn of_any_kinds<V: Values>(
    values: &mut V,
    call: Call,
    kind: IntKind,
    x: V::Value,
    other: IntKind,
    y: V::Value,
) -> Result<Option<V::Value>, NoMemory>
    requires first { V.made values.old kind x }
    requires second { V.made values.old other y }
{
    let value = match call {
        Call::Shift(op) => values.shift(op, kind, x, other, y)?,
        Call::BreaksShift => values.breaks_shift(kind, other, y)?,
        Call::Convert => values.convert(kind, other, x)?,
        Call::BreaksBounds(count) => values.breaks_bounds(kind, x, count)?,
        _ => return Ok(None),
    };
    Ok(Some(value))
}

// A call over two values; none where their kinds aren't what it takes.
fn called<V: Values>(
    values: &mut V,
    call: Call,
    kind: IntKind,
    x: V::Value,
    other: IntKind,
    y: V::Value,
) -> Result<Option<V::Value>, NoMemory>
    requires first { V.made values.old kind x }
    requires second { V.made values.old other y }
{
    match call {
        Call::Arith(_) | Call::Breaks(_, _) | Call::Compare(_) | Call::Lesser if kind == other => {
            of_one_kind(values, call, kind, x, y)
        }
        Call::Both | Call::Opposite if kind == IntKind::Int && other == IntKind::Int => {
            of_tests(values, call, x, y)
        }
        Call::Moved(_) | Call::BreaksMove(_) | Call::Distance(_) if kind == IntKind::ULong => {
            of_addresses(values, call, x, other, y)
        }
        _ => of_any_kinds(values, call, kind, x, other, y),
    }
}

// A call over the two keys of a store.
fn over_keys<V: Values>(
    values: &mut V,
    call: Call,
    kind: IntKind,
    other: IntKind,
) -> Result<Option<V::Value>, NoMemory>
    requires first { V.has_key values.old 0 kind }
    requires second { V.has_key values.old 1 other }
{
    let x = values.input(0, kind)?;
    let y = values.input(1, other)?;
    called(values, call, kind, x, other, y)
}

// A call over two constants.
fn over_constants<V: Values>(
    values: &mut V,
    call: Call,
    left: Typed,
    right: Typed,
) -> Result<Option<V::Value>, NoMemory> {
    if !fits(left.kind, left.number) || !fits(right.kind, right.number) {
        return Ok(None);
    }
    let x = values.constant(left.kind, left.number)?;
    let y = values.constant(right.kind, right.number)?;
    called(values, call, left.kind, x, right.kind, y)
}

// The bits of a number in a kind.
fn bits(kind: IntKind, number: i128) -> u64 {
    let modulus = 1 << width(kind);
    number.rem_euclid(modulus) as u64
}

// The kind of what a call gives over values of these kinds.
fn kind_of(call: Call, kind: IntKind, other: IntKind) -> IntKind {
    match call {
        Call::Arith(_) | Call::Lesser | Call::Shift(_) => kind,
        Call::Moved(_) => IntKind::ULong,
        Call::Distance(_) => IntKind::Long,
        Call::Convert => other,
        _ => IntKind::Int,
    }
}

// The number of a term for two numbers.
fn number(
    rt: &impl Abort,
    alloc: Global,
    values: &Symbols,
    id: TermId,
    left: Typed,
    right: Typed,
) -> Result<u128, NoMemory> {
    let numbers = vec![in alloc;
        bits(left.kind, left.number),
        bits(right.kind, right.number),
    ]?;
    let residues = Residues {
        numbers: List::from_vec(numbers),
    };
    assert!(rt; id.0 < values.terms().count());
    assert!(rt; values.terms().has_residues(&residues));
    values.terms().value(id, &residues)
}

// The number of a term for two numbers, if there is a term.
fn number_if_made(
    rt: &impl Abort,
    alloc: Global,
    values: &Symbols,
    id: Option<TermId>,
    (left, right): (Typed, Typed),
) -> Result<Option<u128>, NoMemory> {
    match id {
        None => Ok(None),
        Some(id) => Ok(Some(number(rt, alloc, values, id, left, right)?)),
    }
}

// The bits of a call over the store of one input map.
fn by_numbers(
    alloc: Global,
    call: Call,
    left: Typed,
    right: Typed,
) -> Result<Option<u128>, NoMemory> {
    let mut values = Numbers::new(Inputs {
        numbers: List::empty(alloc),
    });
    let found = over_constants(&mut values, call, left, right)?;
    let kind = kind_of(call, left.kind, right.kind);
    Ok(found.map(|n| u128::from(bits(kind, n))))
}

// The bits of a call over terms of two keys, where these are the keys' numbers.
fn by_keys(
    rt: &impl Abort,
    alloc: Global,
    call: Call,
    left: Typed,
    right: Typed,
) -> Result<Option<u128>, NoMemory> {
    let mut values = Symbols::new(alloc, &[left.kind, right.kind])?;
    let id = over_keys(&mut values, call, left.kind, right.kind)?;
    number_if_made(rt, alloc, &values, id, (left, right))
}

// The bits of a call over terms of two constants.
fn by_constants(
    rt: &impl Abort,
    alloc: Global,
    call: Call,
    left: Typed,
    right: Typed,
) -> Result<Option<u128>, NoMemory> {
    let mut values = Symbols::new(alloc, &[left.kind, right.kind])?;
    let id = over_constants(&mut values, call, left, right)?;
    number_if_made(rt, alloc, &values, id, (left, right))
}

// Fails where a call over two numbers has other bits in one of the stores.
fn check(
    rt: &impl Abort,
    alloc: Global,
    call: Call,
    (kind, x): (IntKind, i128),
    (other, y): (IntKind, i128),
    wanted: u128,
) -> Result<(), NoMemory> {
    let left = Typed { kind, number: x };
    let right = Typed {
        kind: other,
        number: y,
    };
    assert_eq!(rt;
        by_numbers(alloc, call, left, right)?,
        Some(wanted),
        "{call:?}"
    );
    assert_eq!(rt;
        by_keys(rt, alloc, call, left, right)?,
        Some(wanted),
        "{call:?}"
    );
    assert_eq!(rt;
        by_constants(rt, alloc, call, left, right)?,
        Some(wanted),
        "{call:?}"
    );
    Ok(())
}

#[test]
fn operators_have_their_values(rt: HostRuntime) -> Result<(), Fail> {
    for (op, kind, x, y, wanted) in &RESULTS {
        check(
            &rt,
            rt.alloc(),
            Call::Arith(*op),
            (*kind, *x),
            (*kind, *y),
            *wanted,
        )?;
    }
    Ok(())
}

#[test]
fn conditions_are_violated_or_not(rt: HostRuntime) -> Result<(), Fail> {
    for (what, op, kind, x, y, wanted) in &CONDITIONS {
        let call = Call::Breaks(*what, *op);
        check(&rt, rt.alloc(), call, (*kind, *x), (*kind, *y), *wanted)?;
    }
    Ok(())
}

#[test]
fn comparisons_hold_or_not(rt: HostRuntime) -> Result<(), Fail> {
    for (op, kind, x, y, wanted) in &COMPARISONS {
        check(
            &rt,
            rt.alloc(),
            Call::Compare(*op),
            (*kind, *x),
            (*kind, *y),
            *wanted,
        )?;
    }
    for (kind, x, y, wanted) in &LESSER {
        check(
            &rt,
            rt.alloc(),
            Call::Lesser,
            (*kind, *x),
            (*kind, *y),
            *wanted,
        )?;
    }
    Ok(())
}

#[test]
fn shifts_have_their_values(rt: HostRuntime) -> Result<(), Fail> {
    for (op, kind, x, other, count, wanted, oversized) in &SHIFTS {
        check(
            &rt,
            rt.alloc(),
            Call::Shift(*op),
            (*kind, *x),
            (*other, *count),
            *wanted,
        )?;
        check(
            &rt,
            rt.alloc(),
            Call::BreaksShift,
            (*kind, *x),
            (*other, *count),
            *oversized,
        )?;
    }
    Ok(())
}

#[test]
fn addresses_are_moved(rt: HostRuntime) -> Result<(), Fail> {
    for (base, kind, step, size, minus, wanted, leaves) in &MOVES {
        let stride = Stride {
            size: *size,
            minus: *minus,
        };
        let from = (IntKind::ULong, *base);
        check(
            &rt,
            rt.alloc(),
            Call::Moved(stride),
            from,
            (*kind, *step),
            *wanted,
        )?;
        check(
            &rt,
            rt.alloc(),
            Call::BreaksMove(stride),
            from,
            (*kind, *step),
            *leaves,
        )?;
    }
    Ok(())
}

#[test]
fn addresses_have_distances(rt: HostRuntime) -> Result<(), Fail> {
    let kind = IntKind::ULong;
    for (x, y, size, wanted) in &DISTANCES {
        check(
            &rt,
            rt.alloc(),
            Call::Distance(*size),
            (kind, *x),
            (kind, *y),
            *wanted,
        )?;
    }
    for (kind, index, count, wanted) in &INDICES {
        let call = Call::BreaksBounds(*count);
        check(
            &rt,
            rt.alloc(),
            call,
            (*kind, *index),
            (*kind, *index),
            *wanted,
        )?;
    }
    Ok(())
}

#[test]
fn numbers_are_converted(rt: HostRuntime) -> Result<(), Fail> {
    for (from, to, x, wanted) in &CONVERSIONS {
        check(
            &rt,
            rt.alloc(),
            Call::Convert,
            (*from, *x),
            (*to, 0),
            *wanted,
        )?;
    }
    Ok(())
}

#[test]
fn tests_are_joined(rt: HostRuntime) -> Result<(), Fail> {
    let kind = IntKind::Int;
    for (x, y, both, opposite) in &TESTS {
        check(&rt, rt.alloc(), Call::Both, (kind, *x), (kind, *y), *both)?;
        check(
            &rt,
            rt.alloc(),
            Call::Opposite,
            (kind, *x),
            (kind, *y),
            *opposite,
        )?;
    }
    Ok(())
}

//! How often registers count: once for each branch and loop in which they are assigned.

ghost use Rattle.std.specs.Prelude.{◌≡◌, ◌≤◌, ◌<◌, ◌+◌, ◌-◌, ◌*◌, ◌^◌, ◌==◌, ◌∷◌, ℕ, List, if◌then◌else◌, length, get_or, set, IfOk, OnOk};
ghost use Rattle.stk_weights.specs.declared.events.Event.{Event};
ghost use Rattle.stk_weights.specs.Sums.{capped};
ghost use Rattle.stk_weights.specs.Counting.{nothing, count_in, last_in, times_in, IsMarked, IsCounting, AllBelow, passed_sum, total};

use crate::events::Event;
use std::alloc::Global;
use stk_base::NoMemory;

/// How a node stands: how often it is among the registers of a function, and the place behind its last assignment, 0
/// before the first.
#[derive(Clone, Copy, Debug, PartialEq, Eq)]
pub(crate) struct Register {
    pub(crate) count: u64,
    pub(crate) last: usize,
}

// Puts nodes behind the others that are no registers, so that there is one at this place.
#[tactic(auto, using(crate::proofs::Rows::nothing_behind))]
fn reach(rows: &mut Vec<Register>, at: usize) -> Result<(), NoMemory>
    ensures reached { OnOk result (at < length rows.new.items) }
    ensures grown { OnOk result (length rows.old.items ≤ length rows.new.items) }
    ensures same { OnOk result ((r : ℕ) → get_or rows.new.items r nothing ≡ get_or rows.old.items r nothing) }
{
    while rows.len() <= at {
        rows.push(Register { count: 0, last: 0 })?;
    }
    Ok(())
}

// Counts a register once more.
fn count(rows: &mut Vec<Register>, at: usize)
    requires there { at < length rows.old.items }
    requires few { count_in rows.old.items at < 2 ^ 63 }
    ensures size { length rows.new.items ≡ length rows.old.items }
    ensures counts { (r : ℕ) → count_in rows.new.items r ≡ (if at == r then count_in rows.old.items r + 1 else count_in rows.old.items r) }
    ensures lasts { (r : ℕ) → last_in rows.new.items r ≡ last_in rows.old.items r }
{
    let row = rows[at];
    rows[at] = Register {
        count: row.count + 1,
        last: row.last,
    };
}

// Notes a register.
fn note(rows: &mut Vec<Register>, register: u32) -> Result<(), NoMemory>
    requires { count_in rows.old.items register < 2 ^ 63 }
    ensures reached { OnOk result (register < length rows.new.items) }
    ensures grown { OnOk result (length rows.old.items ≤ length rows.new.items) }
    ensures counts { OnOk result ((r : ℕ) → count_in rows.new.items r ≡ (if register == r then count_in rows.old.items r + 1 else count_in rows.old.items r)) }
    ensures lasts { OnOk result ((r : ℕ) → last_in rows.new.items r ≡ last_in rows.old.items r) }
{
    let at = register as usize;
    reach(rows, at)?;
    count(rows, at);
    Ok(())
}

// The registers of a function, none of them assigned.
fn rows_of(alloc: Global, registers: &[u32]) -> Result<Vec<Register>, NoMemory>
    ensures counts { IfOk result (λ rows. (r : ℕ) → count_in rows.items r ≡ times_in r registers.now) }
    ensures lasts { IfOk result (λ rows. (r : ℕ) → last_in rows.items r ≡ 0) }
    ensures known { IfOk result (λ rows. AllBelow (length rows.items) registers.now) }
{
    let mut rows = Vec::new(alloc);
    for register in registers {
        note(&mut rows, *register)?;
    }
    Ok(rows)
}

// How many of the branches and loops that are open began before a place.
fn marked(begins: &[usize], last: usize) -> usize
    ensures is { (m : ℕ) → IsMarked begins.now last m → result ≡ m }
    ensures few { result ≤ length begins.now }
{
    begins.partition_point(|begin| *begin < last)
}

// Assigns a register at a place: how often it counts more.
fn assign(rows: &mut Vec<Register>, begins: &[usize], place: usize, register: u32) -> u64
    requires { place < 2 ^ 63 }
    ensures known { (m : ℕ) → register < length rows.old.items → IsMarked begins.now (last_in rows.old.items register) m → result ≡ capped (count_in rows.old.items register * (length begins.now - m)) }
    ensures unknown { length rows.old.items ≤ register → result ≡ 0 }
    ensures rows { rows.new.items ≡ set rows.old.items register (record { count = count_in rows.old.items register; last = place + 1 }) }
{
    let at = register as usize;
    if at >= rows.len() {
        return 0;
    }
    let row = rows[at];
    let gain = begins.len() - marked(begins, row.last);
    rows[at] = Register {
        count: row.count,
        last: place + 1,
    };
    row.count.saturating_mul(gain as u64)
}

// Passes an event at a place: how often registers count then.
fn pass(
    rows: &mut Vec<Register>,
    begins: &mut Vec<usize>,
    sum: u64,
    place: usize,
    event: Event,
) -> Result<u64, NoMemory>
    requires { place < 2 ^ 63 }
    ensures { (registers : List ℕ) (events rest : List Event) → IsCounting registers events (event ∷ rest) place rows.old.items begins.old.items sum → IfOk result (λ now. IsCounting registers events rest (place + 1) rows.new.items begins.new.items now) }
{
    match event {
        Event::Begins => {
            begins.push(place)?;
            Ok(sum)
        }
        Event::Ends => {
            let _ = begins.pop();
            Ok(sum)
        }
        Event::Assigns(register) => {
            let more = assign(rows, begins.as_slice(), place, register);
            Ok(sum.saturating_add(more))
        }
    }
}

/// How often registers count in a walk, all together, or 2^64 - 1 where that is more: each once for each branch and
/// loop in which it is assigned. It takes as much memory as the greatest register says.
pub(crate) fn counted(alloc: Global, registers: &[u32], events: &[Event]) -> Result<u64, NoMemory>
    ensures { IfOk result (λ n. n ≡ capped (total (passed_sum events.now) registers.now)) }
{
    let mut rows = rows_of(alloc, registers)?;
    let mut begins = Vec::new(alloc);
    let mut sum: u64 = 0;
    for place in 0..events.len() {
        sum = pass(&mut rows, &mut begins, sum, place, events[place])?;
    }
    Ok(sum)
}

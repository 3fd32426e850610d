//! What traces and steps say of conditions and candidates.

use std::alloc::Global;
use stk_base::NoMemory;
use stk_meaning::Entry;
use stk_numbers::{CandKind, Candidate, Condition};
use stk_values::Step;

/// A condition that is violated, or a candidate that is hit, by its position in the list of candidates.
#[derive(Clone, Copy, Debug, PartialEq, Eq)]
pub(crate) enum Event {
    Violated(Condition),
    Hit(u32),
}

// Whether a truth that is seen hits a candidate of a kind.
fn seen_hits(kind: CandKind, truth: bool, replaced: Option<bool>) -> bool {
    match kind {
        CandKind::Arm => false,
        CandKind::AlwaysTrue => !truth,
        CandKind::AlwaysFalse => truth,
        CandKind::Algebra => match replaced {
            None => false,
            Some(other) => other != truth,
        },
    }
}

/// Whether an entry hits a candidate.
pub(crate) fn hits(candidate: Candidate, entry: Entry) -> bool {
    match entry {
        Entry::Ub(_) => false,
        Entry::Enter(node) => node == candidate.node && candidate.kind == CandKind::Arm,
        Entry::Seen(node, truth, replaced) => {
            node == candidate.node && seen_hits(candidate.kind, truth, replaced)
        }
    }
}

/// Whether an entry says that a condition of a set is violated.
pub(crate) fn breaks(set: &[Condition], entry: Entry) -> bool {
    match entry {
        Entry::Ub(condition) => set.contains(&condition),
        Entry::Enter(_) | Entry::Seen(_, _, _) => false,
    }
}

/// Whether an entry of a trace hits a candidate with no condition of the set violated before.
pub(crate) fn is_hit_free(set: &[Condition], candidate: Candidate, trace: &[Entry]) -> bool {
    for entry in trace {
        if hits(candidate, *entry) {
            return true;
        }
        if breaks(set, *entry) {
            return false;
        }
    }
    false
}

// Adds the candidates that an entry hits.
fn push_hits(
    events: &mut Vec<Event>,
    candidates: &[Candidate],
    entry: Entry,
) -> Result<(), NoMemory> {
    let mut position = 0u32;
    for candidate in candidates {
        if hits(*candidate, entry) {
            events.push(Event::Hit(position))?;
        }
        position = position.saturating_add(1);
    }
    Ok(())
}

/// What a trace says, entry by entry.
pub(crate) fn trace_events(
    alloc: Global,
    candidates: &[Candidate],
    trace: &[Entry],
) -> Result<Vec<Event>, NoMemory> {
    let mut events = Vec::new(alloc);
    for entry in trace {
        if let Entry::Ub(condition) = entry {
            events.push(Event::Violated(*condition))?;
        }
        push_hits(&mut events, candidates, *entry)?;
    }
    Ok(events)
}

/// What a step says where its test is 1, and the test.
pub(crate) fn told<T: Copy>(step: Step<T>) -> (Event, T) {
    match step {
        Step::Broken(condition, test) => (Event::Violated(condition), test),
        Step::Hit(position, test) => (Event::Hit(position), test),
    }
}

/// What the steps say whose tests are 1.
pub(crate) fn step_events(alloc: Global, steps: &[Step<i128>]) -> Result<Vec<Event>, NoMemory> {
    let mut events = Vec::new(alloc);
    for step in steps {
        let (event, test) = told(*step);
        if test == 1 {
            events.push(event)?;
        }
    }
    Ok(events)
}

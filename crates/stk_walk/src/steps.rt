//! The steps of a walk, by the positions of their candidates in the list of the function.

ghost use Rattle.std.specs.Prelude.{◌≡◌, ◌<◌, ◌≤◌, ◌^◌, length, map, IfOk};
ghost use Rattle.stk_run_laws.specs.Listed.{AreInOrder, CandidateBefore};
ghost use Rattle.stk_run_laws.specs.Visits.{IsIn};
ghost use Rattle.stk_values.specs.Walks.{test_of};
ghost use Rattle.stk_walking.specs.Events.{events_in};
ghost use Rattle.stk_event_laws.specs.Positions.{position_in, listed_step};
ghost use Rattle.stk_walk.specs.Steps.{rank, IsHitIn, AreHitsIn};

use std::alloc::Global;
use stk_base::NoMemory;
use stk_numbers::{CandKind, Candidate};
use stk_values::Step;
use stk_walking::{Event, GuardedEvent};

// A number by which candidates are in order: by node, and then by what they may be found to be.
fn rank(c: Candidate) -> u64
    ensures { result ≡ rank c }
{
    let kind = match c.kind {
        CandKind::Arm => 0,
        CandKind::AlwaysTrue => 1,
        CandKind::AlwaysFalse => 2,
        CandKind::Algebra => 3,
    };
    4 * u64::from(c.node) + kind
}

// The position of a candidate in the list of a function, which is in order.
fn position_of(list: &[Candidate], candidate: Candidate) -> usize
    ensures within { result ≤ length list.now }
    ensures is { AreInOrder CandidateBefore list.now → IsIn candidate list.now → result ≡ position_in list.now candidate }
{
    let wanted = rank(candidate);
    list.partition_point(|other| rank(*other) < wanted)
}

// A step, by the position of its candidate.
fn listed_step<T: Copy>(list: &[Candidate], step: GuardedEvent<T>) -> Step<T>
    requires { length list.now < 2 ^ 32 }
    ensures is { AreInOrder CandidateBefore list.now → IsHitIn list.now step.event → result ≡ listed_step list.now step }
    ensures test { test_of result ≡ step.test }
{
    match step.event {
        Event::Broken(condition) => Step::Broken(condition, step.test),
        Event::Hit(candidate) => Step::Hit(position_of(list, candidate) as u32, step.test),
    }
}

/// The steps of a walk, each hit by the position of its candidate in the list of the function, which is in order.
pub(crate) fn listed_steps<T: Copy>(
    alloc: Global,
    list: &[Candidate],
    steps: &[GuardedEvent<T>],
) -> Result<Vec<Step<T>>, NoMemory>
    requires { length list.now < 2 ^ 32 }
    ensures are { AreInOrder CandidateBefore list.now → AreHitsIn list.now (events_in steps.now) → IfOk result (λ found. found.items ≡ map (λ x. listed_step list.now x) steps.now) }
    ensures tests { IfOk result (λ found. map (λ x. test_of x) found.items ≡ map (λ x. x.test) steps.now) }
{
    let mut found = Vec::new(alloc);
    let mut rest = steps;
    while let Some((step, behind)) = rest.split_first() {
        found.push(listed_step(list, *step))?;
        rest = behind;
    }
    Ok(found)
}

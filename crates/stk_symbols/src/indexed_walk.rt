// Walks whose steps are found by what they tell of.
ghost use Rattle.std.specs.Prelude.{◌≡◌, ◌<◌, ◌||◌, ℕ, Bool, List, length, filter, nat_eq, IfOk, OnOk};
ghost use Rattle.std.specs.List.{All, list_any};
ghost use Rattle.std.specs.List.Sorted.{IsNonDecreasing};
ghost use Rattle.stk_values.specs.Walks.{ListedEvent, event_of};
ghost use Rattle.stk_symbols.specs.Matters.{matters, steps_that_matter, same_event, passes_at, ArePlaces, events_of, event_in, IsIndexOf};

use crate::step_index::{StepEvent, StepIndex};
use std::alloc::Global;
use stk_base::NoMemory;
use stk_numbers::Condition;
use stk_terms::TermId;
use stk_values::{Step, Walked};

/// A walk over a store of terms, with an index of its steps: those on which a goal depends are found without going over
/// the others.
#[derive(Drop)]
pub struct IndexedWalk {
    pub walked: Walked<TermId>,
    alloc: Global,
    index: StepIndex,
    ghost indexed: { IsIndexOf index (events_of walked.steps) (length walked.steps) },
}

// The steps that pass a test, of which these are the places, in ascending order. A place may stand there twice.
fn picked(
    alloc: Global,
    steps: &[Step<TermId>],
    places: &[usize],
) -> Result<Vec<Step<TermId>>, NoMemory>
    requires ascending { IsNonDecreasing places.now }
    requires within { All (λ q. q < length steps.now) places.now }
    ensures { (test : ListedEvent → Bool) → ArePlaces test (events_of steps.now) places.now → IfOk result (λ list. list.items ≡ filter (λ x. test (event_of x)) steps.now) }
{
    let mut list = Vec::new(alloc);
    let mut end = 0;
    for place in places {
        if *place >= end {
            list.push(steps[*place])?;
            end = *place + 1;
        }
    }
    Ok(list)
}

impl IndexedWalk {
    /// The walk with its index.
    pub fn new(alloc: Global, walked: Walked<TermId>) -> Result<IndexedWalk, NoMemory>
        ensures { IfOk result (λ w. w.walked ≡ walked) }
    {
        let index = StepIndex::of(alloc, walked.steps.as_slice())?;
        Ok(IndexedWalk {
            walked,
            alloc,
            index,
        })
    }

    // Puts the places of the steps that tell of an event behind others.
    fn list(&self, event: StepEvent, places: &mut Vec<usize>) -> Result<(), NoMemory>
        ensures { OnOk result ((q : ℕ) → list_any (nat_eq q) places.new.items ≡ (list_any (nat_eq q) places.old.items || passes_at (same_event (event_in event)) (events_of self.now.walked.steps) q)) }
    {
        let mut at = self.index.last(event);
        while let Some(place) = at {
            places.push(place)?;
            at = self.index.earlier[place];
        }
        Ok(())
    }

    // The places of the steps on which the goal of a candidate and a set depends.
    fn places(&self, candidate: u32, set: &[Condition]) -> Result<Vec<usize>, NoMemory>
        ensures { IfOk result (λ places. ArePlaces (matters set.now candidate) (events_of self.now.walked.steps) places.items) }
    {
        let mut places = Vec::new(self.alloc);
        self.list(StepEvent::Hit(candidate), &mut places)?;
        for condition in set {
            self.list(StepEvent::Violation(*condition), &mut places)?;
        }
        Ok(places)
    }

    /// The steps on which the goal of a candidate and a set depends, in the order of the walk.
    pub(crate) fn steps_that_matter(
        &self,
        candidate: u32,
        set: &[Condition],
    ) -> Result<Vec<Step<TermId>>, NoMemory>
        ensures { IfOk result (λ steps. steps.items ≡ steps_that_matter set.now candidate self.now.walked.steps) }
    {
        let mut places = self.places(candidate, set)?;
        places.sort_unstable();
        picked(self.alloc, self.walked.steps.as_slice(), places.as_slice())
    }
}

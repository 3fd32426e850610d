// Where the steps of a walk stand.
ghost use Rattle.std.specs.Prelude.{◌≡◌, ◌+◌, true, ℕ, List, length, IfOk, OnOk};
ghost use Rattle.stk_values.specs.Walks.{ListedEvent, event_of};
ghost use Rattle.stk_symbols.specs.Matters.{same_event, passes_at, last_place, events_of, event_in, condition_key, HasLastPlaces, IsIndexOf};

use indexmap::IndexMap;
use std::alloc::Global;
use stk_base::NoMemory;
use stk_numbers::Condition;
use stk_terms::TermId;
use stk_values::Step;

/// What a step tells of: a condition that is violated, or a candidate, by its position in the list of candidates, that
/// is hit.
#[derive(Clone, Copy)]
pub(crate) enum StepEvent {
    Violation(Condition),
    Hit(u32),
}

/// A condition, by its node and the number of its kind.
#[derive(Clone, Copy, Debug, PartialEq, Eq, Hash)]
pub(crate) struct ConditionKey {
    pub(crate) node: u32,
    pub(crate) kind: u8,
}

/// Places of steps: for each condition and each candidate that of the last step that tells of it, and for each step
/// that of the one before it that tells of the same. It is made once for a walk; a look-up takes constant time.
#[derive(Drop)]
pub(crate) struct StepIndex {
    pub(crate) violations: IndexMap<ConditionKey, usize>,
    pub(crate) hits: IndexMap<u32, usize>,
    pub(crate) earlier: Vec<Option<usize>>,
}

// The key of a condition.
fn key_of(condition: Condition) -> ConditionKey
    ensures { result ≡ condition_key condition }
{
    ConditionKey {
        node: condition.node,
        kind: condition.kind.number(),
    }
}

// What a step tells of.
fn told_by(step: &Step<TermId>) -> StepEvent
    ensures { event_in result ≡ event_of step.now }
{
    match *step {
        Step::Broken(condition, _) => StepEvent::Violation(condition),
        Step::Hit(position, _) => StepEvent::Hit(position),
    }
}

impl StepIndex {
    /// An index of no steps. It takes no memory.
    fn empty(alloc: Global) -> StepIndex
        ensures { (events : List ListedEvent) → IsIndexOf result events 0 }
    {
        StepIndex {
            violations: IndexMap::new(alloc),
            hits: IndexMap::new(alloc),
            earlier: Vec::new(alloc),
        }
    }

    // Notes a step, by its place, as the last one that tells of this; the one that was so before.
    fn note(&mut self, event: StepEvent, place: usize) -> Result<Option<usize>, NoMemory>
        ensures before { IfOk result (λ before. (events : List ListedEvent) (end : ℕ) → HasLastPlaces self.old events end → before ≡ last_place events (event_in event) end) }
        ensures last { OnOk result ((events : List ListedEvent) → HasLastPlaces self.old events place → passes_at (same_event (event_in event)) events place ≡ true → HasLastPlaces self.new events (place + 1)) }
        ensures earlier { self.new.earlier.items ≡ self.old.earlier.items }
    {
        match event {
            StepEvent::Violation(condition) => {
                let before = self.violations.insert(key_of(condition), place)?;
                Ok(before)
            }
            StepEvent::Hit(position) => {
                let before = self.hits.insert(position, place)?;
                Ok(before)
            }
        }
    }

    // Takes up the step behind those of the index.
    fn push(&mut self, event: StepEvent) -> Result<(), NoMemory>
        ensures { OnOk result ((events : List ListedEvent) (end : ℕ) → IsIndexOf self.old events end → passes_at (same_event (event_in event)) events end ≡ true → IsIndexOf self.new events (end + 1)) }
    {
        let place = self.earlier.len();
        let before = self.note(event, place)?;
        self.earlier.push(before)?;
        Ok(())
    }

    /// The index of the steps of a walk.
    pub(crate) fn of(alloc: Global, steps: &[Step<TermId>]) -> Result<StepIndex, NoMemory>
        ensures { IfOk result (λ index. IsIndexOf index (events_of steps.now) (length steps.now)) }
    {
        let mut index = StepIndex::empty(alloc);
        for step in steps {
            index.push(told_by(step))?;
        }
        Ok(index)
    }

    /// The place of the last step that tells of an event.
    pub(crate) fn last(&self, event: StepEvent) -> Option<usize>
        ensures { (events : List ListedEvent) (end : ℕ) → IsIndexOf self.now events end → result ≡ last_place events (event_in event) end }
    {
        match event {
            StepEvent::Violation(condition) => self.violations.get(&key_of(condition)).copied(),
            StepEvent::Hit(position) => self.hits.get(&position).copied(),
        }
    }
}

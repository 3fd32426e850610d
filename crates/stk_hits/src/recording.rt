//! How a table takes up runs.

ghost use Rattle.std.specs.Prelude.{◌≡◌, ◌≤◌, ◌++◌, ℕ, List, [], ◌∷◌, length, Option, Some, IfOk, OnOk};
ghost use Rattle.stk_meaning.specs.declared.entry.Entry.{Entry as Passed};
ghost use Rattle.stk_hits.specs.ConditionIds.{condition_ids_of};
ghost use Rattle.stk_hits.specs.Tables.{Describes, IsNumberOf};
ghost use Rattle.stk_hits.specs.Recording.{GoesOn, noted_of, plain_hit, replaced_hit, seen_kind};

use crate::condition_ids::{condition_id_of, kind_number};
use crate::hit_table::{Hit, HitTable, Step};
use stk_base::NoMemory;
use stk_meaning::Entry;
use stk_numbers::{CandKind, Candidate, Condition};

// What a truth that is seen hits: a test that is always true but for this, or always false.
fn seen_kind(truth: bool) -> CandKind
    ensures { result ≡ seen_kind truth }
{
    if truth {
        CandKind::AlwaysFalse
    } else {
        CandKind::AlwaysTrue
    }
}

// The candidate that an entry hits by itself.
fn plain_hit(entry: Entry) -> Option<Candidate>
    ensures { result ≡ plain_hit entry }
{
    match entry {
        Entry::Ub(_) => None,
        Entry::Enter(node) => Some(Candidate {
            node,
            kind: CandKind::Arm,
        }),
        Entry::Seen(node, truth, _) => Some(Candidate {
            node,
            kind: seen_kind(truth),
        }),
    }
}

// The candidate that an entry hits by the truth of its replacement.
fn replaced_hit(entry: Entry) -> Option<Candidate>
    ensures { result ≡ replaced_hit entry }
{
    match entry {
        Entry::Seen(node, true, Some(false)) | Entry::Seen(node, false, Some(true)) => {
            Some(Candidate {
                node,
                kind: CandKind::Algebra,
            })
        }
        Entry::Ub(_) | Entry::Enter(_) | Entry::Seen(_, _, _) => None,
    }
}

impl HitTable {
    // The number of a set with one more condition.
    fn grown(&mut self, set: usize, condition: Condition) -> Result<usize, NoMemory>
        requires { set ≤ length self.old.steps }
        ensures { IfOk result (GoesOn self.old self.new set (Passed.Ub condition)) }
    {
        let condition_id = condition_id_of(condition);
        let step = Step {
            before: set,
            node: condition_id.node,
            kind: condition_id.kind,
        };
        let (place, _) = self.steps.insert_full(step)?;
        // For the prover: the steps keep their facts.
        let _count = self.steps.len();
        Ok(place + 1)
    }

    // The number of the set behind an entry.
    fn set_behind(&mut self, set: usize, entry: Entry) -> Result<usize, NoMemory>
        requires { set ≤ length self.old.steps }
        ensures { IfOk result (GoesOn self.old self.new set entry) }
    {
        match entry {
            Entry::Ub(condition) => self.grown(set, condition),
            Entry::Enter(_) | Entry::Seen(_, _, _) => Ok(set),
        }
    }

    // Notes that the run of this number hits a candidate behind a set, where no earlier one did.
    fn note(&mut self, number: u32, found: Option<Candidate>, set: usize) -> Result<(), NoMemory>
        ensures steps { OnOk result (self.new.steps ≡ self.old.steps) }
        ensures hits { OnOk result (self.new.hits ≡ noted_of self.old.hits found set number) }
    {
        let Some(candidate) = found else {
            return Ok(());
        };
        let hit = Hit {
            node: candidate.node,
            kind: kind_number(candidate.kind),
            set,
        };
        if !self.hits.contains_key(&hit) {
            self.hits.insert(hit, number)?;
        }
        Ok(())
    }

    // Takes up one entry of the run with this number, behind the set that this number has. The answer is the number of
    // the set behind the entry.
    fn pass(&mut self, number: u32, set: usize, entry: Entry) -> Result<usize, NoMemory>
        requires { set ≤ length self.old.steps }
        ensures within { IfOk result (λ behind. behind ≤ length self.new.steps) }
        ensures describes { (runs : List (Option (List Passed))) (begun : List Passed) → Describes runs begun self.old → IsNumberOf self.old.steps set (condition_ids_of begun) → number ≡ length runs
            → IfOk result (λ behind. Describes runs (begun ++ entry ∷ []) self.new × IsNumberOf self.new.steps behind (condition_ids_of (begun ++ entry ∷ []))) }
    {
        self.note(number, plain_hit(entry), set)?;
        self.note(number, replaced_hit(entry), set)?;
        let behind = self.set_behind(set, entry)?;
        Ok(behind)
    }

    /// Takes up the run of the input map with this number, behind those of all maps before it. After want of memory the
    /// table describes no runs.
    pub fn record(&mut self, number: u32, trace: &[Entry]) -> Result<(), NoMemory>
        ensures { (runs : List (Option (List Passed))) → Describes runs [] self.old → number ≡ length runs → OnOk result (Describes (runs ++ Some trace.now ∷ []) [] self.new) }
    {
        let mut set = 0;
        for entry in trace {
            set = self.pass(number, set, *entry)?;
        }
        Ok(())
    }
}

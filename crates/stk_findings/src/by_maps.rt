//! Findings of functions of at most 16 input bits: by queries as long as these say that candidates are clear, and from
//! then on by the runs of all input maps.

ghost use Rattle.std.specs.Prelude.{◌≡◌, ◌≤◌, IfOk, OnOk};
ghost use Rattle.stk_meaning.specs.Keys.{input_bits};
ghost use Rattle.stk_meaning.specs.Findings.{IsLawful};
ghost use Rattle.stk_spent_queries.specs.Marks.{marks};
ghost use Rattle.stk_findings.specs.Searched.{IsSearchable, subject_searched};
ghost use Rattle.stk_findings.specs.Telling.{CanTellByMaps, CanSift};

use crate::{Judge, Queries, SearchedFunction};
use std::alloc::Global;
use stk_base::NoMemory;
use stk_judge::TriedMaps;
use stk_meaning::Finding;
use stk_numbers::Candidate;
use stk_query::Decider;

// The finding of a candidate by the runs of all input maps: nothing is undecided or open.
fn tried_finding(
    maps: &TriedMaps,
    searched: &SearchedFunction,
    candidate: Candidate,
) -> Result<Finding, NoMemory>
    requires { CanTellByMaps maps.now searched.now }
    ensures lawful { IfOk result (IsLawful (subject_searched searched.now) candidate) }
    ensures unmarked { IfOk result (λ finding. marks finding ≡ 0) }
{
    maps.finding(candidate, searched.conditions)
}

/// A function of at most 16 input bits. Its candidates are clear as long as known starts and queries show it; from the
/// first on of which they don't, all its input maps are run, and tell the findings that are left.
#[derive(Drop)]
pub struct SiftedMaps<'a> {
    queries: Queries<'a>,
    maps: Option<TriedMaps>,
}

impl<'a> SiftedMaps<'a> {
    /// Walks a function of at most 16 input bits, and runs the first starts.
    pub fn new(alloc: Global, searched: &SearchedFunction<'a>) -> Result<SiftedMaps<'a>, NoMemory>
        requires known { IsSearchable searched.now }
        requires few { input_bits searched.now.tables.now.places.keys ≤ 16 }
        ensures { IfOk result (λ sifted. CanSift sifted searched.now) }
    {
        let queries = Queries::begun(alloc, searched)?;
        Ok(SiftedMaps {
            queries,
            maps: None,
        })
    }

    // Runs all input maps, and tells the finding of a candidate by them.
    fn run_maps(
        &mut self,
        searched: &SearchedFunction,
        candidate: Candidate,
    ) -> Result<Finding, NoMemory>
        requires { CanSift self.old searched.now }
        ensures lawful { IfOk result (IsLawful (subject_searched searched.now) candidate) }
        ensures unmarked { IfOk result (λ finding. marks finding ≡ 0) }
        ensures ready { OnOk result (CanSift self.new searched.now) }
    {
        let maps = TriedMaps::new(self.queries.alloc(), searched.tables, searched.function)?;
        let finding = tried_finding(&maps, searched, candidate)?;
        self.maps = Some(maps);
        Ok(finding)
    }
}

/// Findings without a mark: none is undecided, and no member of a set is open, whatever the budget.
impl<'a> Judge for SiftedMaps<'a> {
    ghost use Rattle.stk_findings.specs.Telling.{CanSift};

    ghost ready = { λ sifted s. CanSift sifted s };

    fn finding<D: Decider>(
        &mut self,
        searched: &SearchedFunction,
        decider: &mut D,
        position: u32,
        candidate: Candidate,
    ) -> Result<Finding, NoMemory> {
        if let Some(maps) = &self.maps {
            return tried_finding(maps, searched, candidate);
        }
        if self
            .queries
            .is_clear(searched, decider, position, candidate)?
        {
            return Ok(Finding::Clear);
        }
        self.run_maps(searched, candidate)
    }
}

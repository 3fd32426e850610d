//! Known starts.

ghost use Rattle.std.specs.Prelude.{◌≡◌, IfOk, OnOk};
ghost use Rattle.stk_tree.specs.View.{view_function};
ghost use Rattle.stk_numbers.specs.declared.conditions.Candidate.{Candidate as Asked};
ghost use Rattle.stk_meaning.specs.Maps.{IsValid};
ghost use Rattle.stk_hits.specs.Tables.{rows_of};
ghost use Rattle.stk_path_runs.specs.FunctionTables.{AreTablesOf};
ghost use Rattle.stk_wide_judge.specs.Wide.{AskedFunction, asked_in};
ghost use Rattle.stk_wide_judge.specs.Answers.{HasValidStart};
ghost use Rattle.stk_wide_judge.specs.Starts.{AreKnown, KnownAnswer};

use crate::traces::trace_of;
use crate::{JudgedFunction, QueryAnswer};
use std::alloc::Global;
use stk_base::{List, NoMemory};
use stk_hits::{HitTable, Row};
use stk_numbers::{Condition, Inputs};

// The most starts that are known.
const MOST_STARTS: usize = 8192;

/// Valid input maps of a function, in the order in which they were found, with the table of what their path runs hit;
/// and whether those of the numbers that stand in the function haven't joined. After want of memory nothing is known.
#[derive(Drop)]
pub struct Known {
    pub(crate) table: HitTable,
    pub(crate) starts: Vec<Inputs>,
    pub(crate) lacks_numbers: bool,
}

// A copy of an input map.
fn copied(alloc: Global, start: &Inputs) -> Result<Inputs, NoMemory>
    ensures { IfOk result (λ copy. copy.numbers ≡ start.now.numbers) }
{
    let mut numbers = Vec::new(alloc);
    let given = start.numbers.as_slice();
    for number in given {
        numbers.push(*number)?;
    }
    Ok(Inputs {
        numbers: List::from_vec(numbers),
    })
}

impl Known {
    /// No starts.
    pub fn new(alloc: Global) -> Known
        ensures { (a : AskedFunction) → AreKnown a result.starts.items result.table }
    {
        Known {
            table: HitTable::new(alloc),
            starts: Vec::new(alloc),
            lacks_numbers: true,
        }
    }

    // Whether no further start is kept.
    pub(crate) fn is_full(&self) -> bool {
        self.starts.len() >= MOST_STARTS
    }

    /// One start more, a valid map of the function: its path run joins the table. Past 8,192 it isn't kept.
    pub fn add(&mut self, function: &JudgedFunction, start: &Inputs) -> Result<(), NoMemory>
        requires { AreTablesOf (view_function function.now.f.now) function.now.tables.now }
        ensures { let a = asked_in function.now.tables.now (view_function function.now.f.now) in IsValid a.typing a.without a.tree start.now.numbers → AreKnown a self.old.starts.items self.old.table → OnOk result (AreKnown a self.new.starts.items self.new.table) }
    {
        let count = self.starts.len();
        if count >= MOST_STARTS {
            return Ok(());
        }
        let trace = trace_of(function, start)?;
        let copy = copied(function.alloc, start)?;
        self.table.record(count as u32, trace.as_slice())?;
        self.starts.push(copy)?;
        Ok(())
    }

    // The start of an answer joins, where it has one.
    pub(crate) fn note(
        &mut self,
        function: &JudgedFunction,
        answer: &QueryAnswer,
    ) -> Result<(), NoMemory>
        requires { AreTablesOf (view_function function.now.f.now) function.now.tables.now }
        ensures { let a = asked_in function.now.tables.now (view_function function.now.f.now) in HasValidStart a answer.now → AreKnown a self.old.starts.items self.old.table → OnOk result (AreKnown a self.new.starts.items self.new.table) }
    {
        match answer {
            QueryAnswer::Start(start) => self.add(function, start),
            QueryAnswer::Never | QueryAnswer::GivenUp => Ok(()),
        }
    }

    // The first known start whose path run hits a candidate and violates none of these conditions before. The rows are
    // the candidate's.
    pub(crate) fn first_answer(
        &self,
        alloc: Global,
        rows: &[Row],
        set: &[Condition],
    ) -> Result<Option<Inputs>, NoMemory>
        ensures { (a : AskedFunction) (c : Asked) → AreKnown a self.now.starts.items self.now.table → rows.now ≡ rows_of c self.now.table.hits → IfOk result (KnownAnswer a self.now.starts.items c set.now) }
    {
        let Some(number) = self.table.first_free(alloc, rows, set)? else {
            return Ok(None);
        };
        let Some(start) = self.starts.get(number as usize) else {
            return Ok(None);
        };
        let copy = copied(alloc, start)?;
        Ok(Some(copy))
    }
}

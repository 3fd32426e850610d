// A function whose reports are claimed, and a report of it.
ghost use Rattle.std.specs.Prelude.{◌≡◌, nat_le, map};
ghost use Rattle.stk_meaning.specs.Keys.{input_bits};
ghost use Rattle.stk_meaning.specs.PathFindings.{most_bits};

use std::alloc::Global;
use stk_goals::{FunctionTables, input_bits};
use stk_meaning::{Finding, Need};
use stk_numbers::{Candidate, Inputs, IntKind};
use stk_tree::Function;

// The most input bits of a function whose input maps are all tried.
const MOST_BITS: u128 = 16;

/// A function whose reports are claimed: where memory comes from, the tables of its path runs, itself, its candidates
/// in order, the kinds of its keys in order, the byte at which its definition begins, and the budget of each query:
/// how many clauses a search may learn, from 1 to 200,000.
#[derive(Clone, Copy)]
pub struct ClaimedFunction<'a> {
    pub alloc: Global,
    pub tables: &'a FunctionTables<'a>,
    pub function: &'a Function,
    pub candidates: &'a [Candidate],
    pub kinds: &'a [IntKind],
    pub at: u64,
    pub budget: u32,
}

impl<'a> ClaimedFunction<'a> {
    /// Whether all input maps of the function are tried: it has at most 16 input bits.
    pub fn is_narrow(&self) -> bool
        ensures { result ≡ nat_le (input_bits self.now.tables.now.places.keys) most_bits }
    {
        input_bits(self.tables.setting().keys()) <= MOST_BITS
    }
}

/// The finding of a candidate, which stands at this place of the function's list of candidates.
#[derive(Clone, Copy)]
pub struct ToldFinding<'a> {
    pub position: u32,
    pub candidate: Candidate,
    pub finding: &'a Finding,
}

/// A report: an unstable candidate, which stands at this place of the function's list of candidates, a start that
/// hits it, and the conditions of its set.
#[derive(Clone, Copy)]
pub struct Report<'a> {
    pub position: u32,
    pub candidate: Candidate,
    pub start: &'a Inputs,
    pub needs: &'a [Need],
}

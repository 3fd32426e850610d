//! Walks over numbers and over terms, compared with path runs.

ghost use Rattle.std.specs.Prelude.{◌≡◌, map, IfOk};
ghost use Rattle.stk_tree.specs.View.{view_function};
ghost use Rattle.stk_meaning.specs.Lists as lists;
ghost use Rattle.stk_meaning.specs.Maps.{AreInRange};
ghost use Rattle.stk_function_types.specs.Nodes.{typing_in};
ghost use Rattle.stk_function_env.specs.Infos.{info_in};
ghost use Rattle.stk_function_env.specs.declared.infos.KeyInfo.{KeyInfo};
ghost use Rattle.stk_goals.specs.Searched.{IsSearched};

use crate::asking::ask_all;
use crate::events::{step_events, told, trace_events};
use crate::functions::{Visitor, visit_functions};
use crate::goal_values::Counting;
use crate::runs::{Maps, Run, are_in_range, runs_of};
use std::alloc::Global;
use stk_base::{List, NoMemory};
use stk_findings::SearchedFunction;
use stk_function_env::KeyInfo;
use stk_numbers::{Inputs, IntKind};
use stk_symbols::Symbols;
use stk_terms::{Residues, TermId, Terms};
use stk_values::{Numbers, Step, Walked};
use stk_walk::walk_function;

/// How many functions were walked, and under how many maps; under how many of them the walk over numbers says what the
/// path run does, and the walk over terms what the walk over numbers says. How many goals there are, and how many of
/// them are right; and how often a goal is to be 1 under a map.
#[derive(Clone, Copy, Debug, PartialEq, Eq)]
pub(crate) struct Outcome {
    pub(crate) functions: u32,
    pub(crate) maps: u32,
    pub(crate) numbers: u32,
    pub(crate) terms: u32,
    pub(crate) goals: u32,
    pub(crate) right: u32,
    pub(crate) answers: u32,
}

impl Outcome {
    /// One goal more, whether it is right, and how often it is to be 1.
    pub(crate) fn with_goal(self, right: bool, answers: u32) -> Outcome {
        Outcome {
            goals: self.goals.saturating_add(1),
            right: self.right.saturating_add(u32::from(right)),
            answers: self.answers.saturating_add(answers),
            ..self
        }
    }

    // One map more, and whether the walks say the same of it.
    fn with_map(self, numbers: bool, terms: bool) -> Outcome {
        Outcome {
            maps: self.maps.saturating_add(1),
            numbers: self.numbers.saturating_add(u32::from(numbers)),
            terms: self.terms.saturating_add(u32::from(terms)),
            ..self
        }
    }
}

/// Compares each function under maps. The tests of every so many steps of the walk over terms are compared, and goals
/// where they are asked for.
#[derive(Drop)]
pub(crate) struct Comparing {
    pub(crate) maps: Maps,
    pub(crate) every: usize,
    pub(crate) goals: bool,
    pub(crate) outcome: Outcome,
}

/// A walk over terms, and its terms.
#[derive(Drop)]
struct TermWalk {
    walked: Walked<TermId>,
    symbols: Symbols,
}

// Copies of numbers.
fn inputs_of(alloc: Global, numbers: &[i128]) -> Result<Inputs, NoMemory>
    ensures { IfOk result (λ inputs. inputs.numbers ≡ numbers.now) }
{
    let copy = Vec::from_slice(alloc, numbers)?;
    Ok(Inputs {
        numbers: List::from_vec(copy),
    })
}

// The kinds of keys.
fn kinds_of(alloc: Global, keys: &[KeyInfo]) -> Result<Vec<IntKind>, NoMemory>
    ensures { IfOk result (λ kinds. kinds.items ≡ map (λ (k : KeyInfo). k.kind) keys.now) }
{
    let mut kinds = Vec::new(alloc);
    for key in keys {
        kinds.push(key.kind)?;
    }
    Ok(kinds)
}

// The walk over the numbers of a map.
fn number_walk(
    alloc: Global,
    searched: &SearchedFunction,
    keys: &[KeyInfo],
    numbers: &[i128],
) -> Result<Walked<i128>, NoMemory>
    requires searched { IsSearched searched.now.tables.now (view_function searched.now.function.now) }
    requires candidates { searched.now.candidates.now ≡ lists.candidates (typing_in searched.now.tables.now.places.types) (view_function searched.now.function.now) }
    requires keys { map info_in keys.now ≡ searched.now.tables.now.places.keys }
    requires range { AreInRange (map info_in keys.now) numbers.now }
{
    let inputs = inputs_of(alloc, numbers)?;
    let mut values = Numbers::new(inputs);
    walk_function(
        alloc,
        searched.tables,
        searched.function,
        searched.candidates,
        &mut values,
    )
}

// The walk over terms.
fn term_walk(alloc: Global, searched: &SearchedFunction) -> Result<TermWalk, NoMemory>
    requires searched { IsSearched searched.now.tables.now (view_function searched.now.function.now) }
    requires candidates { searched.now.candidates.now ≡ lists.candidates (typing_in searched.now.tables.now.places.types) (view_function searched.now.function.now) }
{
    let kinds = kinds_of(alloc, searched.tables.setting().keys())?;
    let mut symbols = Symbols::new(alloc, kinds.as_slice())?;
    let walked = walk_function(
        alloc,
        searched.tables,
        searched.function,
        searched.candidates,
        &mut symbols,
    )?;
    Ok(TermWalk { walked, symbols })
}

// A walk over numbers, if there is one for each key, in its range.
fn walk_of(
    alloc: Global,
    searched: &SearchedFunction,
    run: &Run,
) -> Result<Option<Walked<i128>>, NoMemory>
    requires searched { IsSearched searched.now.tables.now (view_function searched.now.function.now) }
    requires candidates { searched.now.candidates.now ≡ lists.candidates (typing_in searched.now.tables.now.places.types) (view_function searched.now.function.now) }
{
    let keys = searched.tables.setting().keys();
    let numbers = run.numbers.as_slice();
    if !are_in_range(keys, numbers) {
        return Ok(None);
    }
    let walked = number_walk(alloc, searched, keys, numbers)?;
    Ok(Some(walked))
}

// Whether a walk over numbers says what a path run does.
fn says_run(
    alloc: Global,
    searched: &SearchedFunction,
    walked: &Walked<i128>,
    run: &Run,
) -> Result<bool, NoMemory> {
    let wanted = trace_events(alloc, searched.candidates, run.trace.as_slice())?;
    let found = step_events(alloc, walked.steps.as_slice())?;
    let valid = walked.valid == if run.valid { 1 } else { 0 };
    Ok(valid && wanted.as_slice() == found.as_slice())
}

/// Whether a term has this number for residues of the inputs.
pub(crate) fn has_number(
    terms: &Terms,
    id: TermId,
    residues: &Residues,
    number: i128,
) -> Result<bool, NoMemory> {
    if id.0 >= terms.count() || !terms.has_residues(residues) {
        return Ok(false);
    }
    let value = terms.value(id, residues)?;
    Ok(i128::try_from(value).is_ok_and(|value| value == number))
}

// Whether a step over terms says what one over numbers says.
fn is_same_step(
    terms: &Terms,
    step: Step<TermId>,
    other: Step<i128>,
    residues: &Residues,
) -> Result<bool, NoMemory> {
    let (event, test) = told(step);
    let (wanted, number) = told(other);
    Ok(event == wanted && has_number(terms, test, residues, number)?)
}

// Whether every so many steps over terms say what those over numbers say.
fn are_same_steps(
    terms: &Terms,
    steps: &[Step<TermId>],
    others: &[Step<i128>],
    residues: &Residues,
    every: usize,
) -> Result<bool, NoMemory> {
    let mut rest = others;
    let mut until_next = 0;
    for step in steps {
        let Some((other, behind)) = rest.split_first() else {
            return Ok(false);
        };
        rest = behind;
        if until_next == 0 {
            until_next = every;
            if !is_same_step(terms, *step, *other, residues)? {
                return Ok(false);
            }
        }
        until_next = until_next.saturating_sub(1);
    }
    Ok(rest.is_empty())
}

// Whether a walk over terms says what one over numbers says.
fn is_same_walk(
    symbols: &TermWalk,
    walked: &Walked<i128>,
    residues: &Residues,
    every: usize,
) -> Result<bool, NoMemory> {
    let terms = symbols.symbols.terms();
    let steps = symbols.walked.steps.as_slice();
    let valid = has_number(terms, symbols.walked.valid, residues, walked.valid)?;
    Ok(valid && are_same_steps(terms, steps, walked.steps.as_slice(), residues, every)?)
}

// The outcome with what is the same under the map of a run.
fn with_run(
    alloc: Global,
    searched: &SearchedFunction,
    symbols: &TermWalk,
    run: &Run,
    every: usize,
    outcome: Outcome,
) -> Result<Outcome, NoMemory>
    requires searched { IsSearched searched.now.tables.now (view_function searched.now.function.now) }
    requires candidates { searched.now.candidates.now ≡ lists.candidates (typing_in searched.now.tables.now.places.types) (view_function searched.now.function.now) }
{
    let Some(walked) = walk_of(alloc, searched, run)? else {
        return Ok(outcome.with_map(false, false));
    };
    let numbers = says_run(alloc, searched, &walked, run)?;
    let terms = is_same_walk(symbols, &walked, &run.residues, every)?;
    Ok(outcome.with_map(numbers, terms))
}

// The outcome with what is the same under the maps of runs.
fn with_runs(
    alloc: Global,
    searched: &SearchedFunction,
    runs: &[Run],
    every: usize,
    first: Outcome,
) -> Result<Outcome, NoMemory>
    requires searched { IsSearched searched.now.tables.now (view_function searched.now.function.now) }
    requires candidates { searched.now.candidates.now ≡ lists.candidates (typing_in searched.now.tables.now.places.types) (view_function searched.now.function.now) }
{
    let symbols = term_walk(alloc, searched)?;
    let mut outcome = first;
    for run in runs {
        outcome = with_run(alloc, searched, &symbols, run, every, outcome)?;
    }
    Ok(outcome)
}

impl Visitor for Comparing {
    fn visit(&mut self, alloc: Global, searched: &SearchedFunction) -> Result<(), NoMemory> {
        let runs = runs_of(alloc, searched, self.maps)?;
        let first = Outcome {
            functions: self.outcome.functions.saturating_add(1),
            ..self.outcome
        };
        self.outcome = with_runs(alloc, searched, runs.as_slice(), self.every, first)?;
        if self.goals {
            let mut counting = Counting {
                runs: runs.as_slice(),
                outcome: self.outcome,
            };
            ask_all(alloc, searched, &mut counting)?;
            self.outcome = counting.outcome;
        }
        Ok(())
    }
}

/// Compares the functions of a text under maps.
pub(crate) fn compared(
    alloc: Global,
    text: &[u8],
    maps: Maps,
    every: usize,
    goals: bool,
) -> Result<Outcome, NoMemory> {
    let outcome = Outcome {
        functions: 0,
        maps: 0,
        numbers: 0,
        terms: 0,
        goals: 0,
        right: 0,
        answers: 0,
    };
    let mut comparing = Comparing {
        maps,
        every,
        goals,
        outcome,
    };
    visit_functions(alloc, text, &mut comparing)?;
    Ok(comparing.outcome)
}
